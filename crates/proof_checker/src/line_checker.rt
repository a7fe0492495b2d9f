//! A checker of a proof log, line by line. It keeps the model, the table of what was made and where the log stands, and needs no more
//! of the log than the next line.

ghost use Rattle.std.specs.Prelude.{◌≡◌, true, length, IfOk};
ghost use Rattle.log_theory.specs.Verdicts.{Opening, Counting, Proving, in_range, further_progress, line_progress, progress_of, step_variables};
ghost use Rattle.log_theory.specs.declared.step.Cause.TheVariants.{Form};
ghost use Rattle.log_theory.specs.Words.{same_word};
ghost use Rattle.log_theory.specs.Profiles.{profile_of, read_in};
ghost use Rattle.log_theory.specs.Steps.{or_fault};
ghost use Rattle.pb_propagation.specs.Told.{Told};
ghost use Rattle.proof_checker.specs.Turns.{Turns};

use super::lines::{Turn, prove};
use super::ranges::is_in_range;
use log_theory::{Cause, Profile, Step};
use packed_terms::PackedConstraint;
use pb_propagation::{LineFault, Propagator, Table};
use pb_terms::Constraint;
use proof_log::{StepFault, read_step};
use std::alloc::{AllocError, Global};
use std::marker::Model;

/// Where a log stands: before its first line, which tells its profile, before its second, or behind both.
#[derive(Clone, Copy, Debug)]
enum Place {
    Opening,
    Counting(Profile),
    Proving(Profile),
}

/// The model and where a log over it stands. Contracts see both, with the table of what the log has made.
pub struct LineChecker {
    variables: u32,
    model: Vec<PackedConstraint>,
    place: Place,
    table: Table,
    work: Propagator,
}

impl Drop for LineChecker {
    /// In one call, for whoever lets one go.
    fn drop(self) {
        let LineChecker {
            variables: _,
            model: _,
            place: _,
            table: _,
            work: _,
        } = self;
    }
}

impl Model for LineChecker {
    ghost use Rattle.proof_checker.specs.Turns.{Checking};
    ghost use Rattle.proof_checker.specs.Stages.{StandsWith, stage_of};
    ghost use Rattle.pb_propagation.specs.Rooted.{IsRooted};

    ghost Value = { Checking };

    ghost view = { λ c. record {
      variables = c.variables;
      model = c.model.items;
      stage = stage_of c.place c.table;
    } };

    ghost invariant = { λ c. StandsWith c.place c.table
        × IsRooted c.model.items c.table c.work.levels };
}

/// Whether a line is this text.
fn is_line(line: &[u8], text: &[u8]) -> bool
    ensures { result ≡ same_word line.now text.now }
{
    line == text
}

/// The profile that a log's first line tells, if it is a first line.
fn profile_of(line: &[u8]) -> Option<Profile>
    ensures { result ≡ profile_of line.now }
{
    let hinted = is_line(line, b"embedding proof 1");
    let plain = is_line(line, b"embedding proof 2");
    if hinted {
        return Some(Profile::Hinted);
    }
    if plain {
        return Some(Profile::Plain);
    }
    None
}

/// The step that a line of a profile tells, or why it tells none.
fn step_in(alloc: Global, profile: Profile, line: &[u8]) -> Result<Step, LineFault>
    ensures { Told result (or_fault (read_in profile line.now) Form) }
{
    match read_step(alloc, profile, line) {
        Ok(step) => Ok(step),
        Err(StepFault::Form) => Err(LineFault::Cause(Cause::Form)),
        Err(StepFault::NoMemory) => Err(LineFault::NoMemory),
    }
}

/// The model as it is kept. One pass or two.
fn packed(alloc: Global, model: &[Constraint]) -> Result<Vec<PackedConstraint>, AllocError>
    ensures { IfOk result (λ v. v.items ≡ model.now) }
{
    let mut out = Vec::with_capacity(alloc, model.len())?;
    for constraint in model {
        out.push(PackedConstraint::copied(alloc, constraint)?)?;
    }
    Ok(out)
}

impl LineChecker {
    /// A checker before the first line. It keeps the model in terms of its own.
    pub fn new(
        alloc: Global,
        variables: u32,
        model: &[Constraint],
    ) -> Result<LineChecker, AllocError>
        ensures { IfOk result
            (λ c. c ≡ record { variables = variables; model = model.now; stage = Opening }) }
    {
        let model = packed(alloc, model)?;
        let table = Table::new(alloc)?;
        let work = Propagator::new(alloc)?;
        Ok(LineChecker {
            variables,
            model,
            place: Place::Opening,
            table,
            work,
        })
    }

    /// What the first line leads to.
    fn open(&mut self, line: &[u8]) -> Result<Turn, LineFault>
        requires { self.old.stage ≡ Opening }
        ensures same { (self.new.variables ≡ self.old.variables)
            × (self.new.model ≡ self.old.model) }
        ensures turns { Turns result
            (line_progress self.old.variables self.old.model Opening line.now)
            self.new.stage }
    {
        let Some(profile) = profile_of(line) else {
            return Err(LineFault::Cause(Cause::Form));
        };
        self.place = Place::Counting(profile);
        Ok(Turn::Goes)
    }

    /// What a step behind the first line leads to. What lasts is given up where no line follows.
    fn take(&mut self, alloc: Global, step: &Step) -> Result<Turn, LineFault>
        requires { in_range self.old.variables (step_variables step.now) ≡ true }
        ensures same { (self.new.variables ≡ self.old.variables)
            × (self.new.model ≡ self.old.model) }
        ensures turns { Turns result (progress_of self.old.model self.old.stage step.now)
            self.new.stage }
    {
        match (self.place, step) {
            (Place::Counting(profile), Step::Model(count)) => {
                if *count != self.model.len() as u64 {
                    return Err(LineFault::Cause(Cause::Form));
                }
                self.place = Place::Proving(profile);
                Ok(Turn::Goes)
            }
            (Place::Proving(profile), step) => match prove(
                alloc,
                &mut self.work,
                self.variables,
                &self.model,
                &mut self.table,
                profile,
                step,
            ) {
                Ok(Turn::Goes) => Ok(Turn::Goes),
                last => {
                    self.work.levels.forget();
                    last
                }
            },
            _ => Err(LineFault::Cause(Cause::Form)),
        }
    }

    /// What a line of a profile leads to, behind the first one.
    fn take_line(&mut self, alloc: Global, profile: Profile, line: &[u8]) -> Result<Turn, LineFault>
        ensures same { (self.new.variables ≡ self.old.variables)
            × (self.new.model ≡ self.old.model) }
        ensures turns { Turns result
            (further_progress self.old.variables self.old.model profile self.old.stage line.now)
            self.new.stage }
    {
        let step = step_in(alloc, profile, line)?;
        if !is_in_range(self.variables, &step) {
            return Err(LineFault::Cause(Cause::Form));
        }
        self.take(alloc, &step)
    }

    /// What the next line, without its LF, leads to. Costs the line and the terms that it touches. Nothing is said of where the checker
    /// stands after a fault, or behind a last line.
    pub fn step(&mut self, alloc: Global, line: &[u8]) -> Result<Turn, LineFault>
        ensures same { (self.new.variables ≡ self.old.variables)
            × (self.new.model ≡ self.old.model) }
        ensures turns { Turns result
            (line_progress self.old.variables self.old.model self.old.stage line.now)
            self.new.stage }
    {
        match self.place {
            Place::Opening => self.open(line),
            Place::Counting(profile) => self.take_line(alloc, profile, line),
            Place::Proving(profile) => self.take_line(alloc, profile, line),
        }
    }
}
