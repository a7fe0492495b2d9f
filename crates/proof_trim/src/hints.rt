//! Hints for the lines of a log that has none: a replay of its lines, with unit propagation that notes which constraints set something.

ghost use Rattle.std.specs.Prelude.{◌≡◌, ◌≤◌, ◌<◌, ◌^◌, ◌++◌, ◌∷◌, [], List, length, IfOk, OnOk, Ok, true};
ghost use Rattle.proof_theory.specs.Slack.{Setting, setting, negations};
ghost use Rattle.log_theory.specs.declared.profile.Profile.TheVariants.{Plain};
ghost use Rattle.log_theory.specs.declared.step.Step.TheVariants.{P, U, N, D};
ghost use Rattle.proof_theory.specs.Forms.{Form};
ghost use Rattle.log_theory.specs.declared.step.Name.{Name as TheName};
ghost use Rattle.log_theory.specs.declared.step.Ref.{Ref as TheRef};
ghost use Rattle.proof_theory.specs.declared.literal.Literal.{Literal as TheLiteral};
ghost use Rattle.log_theory.specs.LogText.{IsName, IsRef, AreRefs};
ghost use Rattle.log_theory.specs.Profiles.{IsStepIn};
ghost use Rattle.log_theory.specs.Lookups.{makes};
ghost use Rattle.log_theory.specs.Tables.{Table as TheTable, empty_table, find, step_in};
ghost use Rattle.proof_trim.specs.Hints.{FollowsOnce, LeadsTo, LeadsOn, IsRefuted, IsReplayed};
ghost use Rattle.proof_trim.specs.Lined.{IsReplayedText};

use crate::reading::{first_line, step_in};
use crate::text::put_step;
use log_theory::{Name, Op, Profile, Ref, Refs, Step};
use outer_io::TextBuffer;
use packed_terms::PackedConstraint;
use pb_propagation::reach::reach;
use pb_propagation::{Table, above, clause, clear, follow, negate_all};
use pb_terms::{Constraint, Literal, Literals};
use proof_checker::evaluate;
use std::alloc::{AllocError, Global};

/// What following a constraint once has done.
#[derive(Clone, Copy, PartialEq, Eq, Debug)]
pub(crate) enum Followed {
    /// Nothing was set.
    Idle,
    /// All that it forces is set.
    Moved,
    /// It is a conflict.
    Conflict,
}

/// Follows a constraint, if there is room for its variables.
fn follow_once(set: &mut Literals, next: &PackedConstraint) -> Followed
    ensures { FollowsOnce result (setting set.old) next.now (setting set.new) }
{
    if reach(next) > set.values().len() as u64 {
        return Followed::Idle;
    }
    let before = set.count();
    if follow(set, next) {
        return Followed::Conflict;
    }
    if before < set.count() {
        Followed::Moved
    } else {
        Followed::Idle
    }
}

/// Follows what a reference names, and puts the reference behind others where that sets something or is a conflict; whether it is one.
fn try_ref(
    set: &mut Literals,
    model: &[PackedConstraint],
    table: &Table,
    refs: &mut Vec<Ref>,
    at: Ref,
) -> Result<bool, AllocError>
    requires at { IsRef at }
    requires refs { AreRefs refs.old.items }
    ensures leads { IfOk result (λ done. (s : Setting)
        → LeadsTo (find model.now table.now) s refs.old.items (setting set.old)
        → LeadsOn done (find model.now table.now) s refs.new.items (setting set.new)) }
    ensures refs { OnOk result (AreRefs refs.new.items) }
{
    let Some(next) = table.find(model, at) else {
        return Ok(false);
    };
    match follow_once(set, next) {
        Followed::Idle => Ok(false),
        Followed::Moved => {
            refs.push(at)?;
            Ok(false)
        }
        Followed::Conflict => {
            refs.push(at)?;
            Ok(true)
        }
    }
}

/// One pass over all that is known, up to the first conflict; whether there is one.
fn try_all(
    set: &mut Literals,
    model: &[PackedConstraint],
    table: &Table,
    known: &[Ref],
    refs: &mut Vec<Ref>,
) -> Result<bool, AllocError>
    requires known { AreRefs known.now }
    requires refs { AreRefs refs.old.items }
    ensures leads { IfOk result (λ done. (s : Setting)
        → LeadsTo (find model.now table.now) s refs.old.items (setting set.old)
        → LeadsOn done (find model.now table.now) s refs.new.items (setting set.new)) }
    ensures refs { OnOk result (AreRefs refs.new.items) }
{
    for at in known {
        if try_ref(set, model, table, refs, *at)? {
            return Ok(true);
        }
    }
    Ok(false)
}

/// Passes until one comes to a conflict; each but the last sets a variable.
fn refute(
    alloc: Global,
    set: &mut Literals,
    model: &[PackedConstraint],
    table: &Table,
    known: &[Ref],
) -> Result<Vec<Ref>, AllocError>
    requires { AreRefs known.now }
    ensures refuted { IfOk result (λ refs. IsRefuted (find model.now table.now)
        (setting set.old) refs.items) }
    ensures refs { IfOk result (λ refs. AreRefs refs.items) }
{
    let mut refs = Vec::new(alloc);
    let passes = set.values().len();
    for _ in 0..passes {
        if try_all(set, model, table, known, &mut refs)? {
            return Ok(refs);
        }
    }
    Err(AllocError)
}

/// The greatest reach of what is known.
fn reach_of(model: &[PackedConstraint], table: &Table, known: &[Ref]) -> u64
    ensures { result ≤ 2 ^ 32 }
{
    let mut most = 0;
    for at in known {
        if let Some(next) = table.find(model, *at) {
            most = most.max(reach(next));
        }
    }
    most
}

/// References along which propagation from the negation of a clause comes to a conflict, in their order.
fn refs_for(
    alloc: Global,
    set: &mut Literals,
    model: &[PackedConstraint],
    table: &Table,
    known: &[Ref],
    literals: &[Literal],
) -> Result<Refs, AllocError>
    requires { AreRefs known.now }
    ensures refuted { IfOk result (λ refs. IsRefuted (find model.now table.now)
        (negations literals.now) refs) }
    ensures refs { IfOk result (λ refs. AreRefs refs) }
{
    clear(
        alloc,
        set,
        above(literals).max(reach_of(model, table, known)),
    )?;
    if !negate_all(set, literals) {
        return Err(AllocError);
    }
    Ok(Refs::new(refute(alloc, set, model, table, known)?))
}

/// A log that has no hints, replayed line by line: what stands, references to all that may stand, and a set of literals.
#[derive(Drop)]
struct Replay {
    table: Table,
    known: Vec<Ref>,
    set: Literals,
}

/// The constraint that operations make.
fn made_by(
    alloc: Global,
    model: &[PackedConstraint],
    table: &Table,
    ops: &[Op],
) -> Result<PackedConstraint, AllocError>
    ensures { IfOk result (λ f. (name : TheName)
        → makes (find model.now table.now) (P name ops.now) ≡ Ok f) }
{
    match evaluate(alloc, model, table, ops) {
        Ok(made) => Ok(made),
        Err(_) => Err(AllocError),
    }
}

/// A line of unit propagation with other references; another line stays.
fn with_refs(step: Step, refs: Refs) -> Step
    ensures { (name : TheName) (lits : List TheLiteral) (old : List TheRef)
        → step ≡ U name lits old → result ≡ U name lits refs }
{
    let mut line = step;
    match &mut line {
        Step::U { refs: old, .. } => *old = refs,
        _ => (),
    }
    line
}

impl Replay {
    /// A line of operations.
    fn take_p(
        &mut self,
        alloc: Global,
        model: &[PackedConstraint],
        name: Name,
        ops: &[Op],
    ) -> Result<(), AllocError>
        requires known { AreRefs self.old.known.items }
        requires name { IsName name }
        ensures goes { OnOk result ((u : TheTable)
            → step_in Plain model.now self.old.table (P name ops.now) ≡ Ok u
            → self.new.table ≡ u) }
        ensures known { OnOk result (AreRefs self.new.known.items) }
    {
        let made = made_by(alloc, model, &self.table, ops)?;
        self.table.push_made(alloc, name, made)?;
        self.known.push(Ref::Made(name))?;
        Ok(())
    }

    /// Hints for a line of unit propagation, whose clause stands behind it.
    fn take_u(
        &mut self,
        alloc: Global,
        model: &[PackedConstraint],
        name: Name,
        lits: &[Literal],
    ) -> Result<Refs, AllocError>
        requires known { AreRefs self.old.known.items }
        requires name { IsName name }
        ensures refuted { IfOk result (λ refs. IsRefuted (find model.now self.old.table)
            (negations lits.now) refs) }
        ensures refs { IfOk result (λ refs. AreRefs refs) }
        ensures goes { OnOk result ((u : TheTable)
            → step_in Plain model.now self.old.table (U name lits.now []) ≡ Ok u
            → self.new.table ≡ u) }
        ensures known { OnOk result (AreRefs self.new.known.items) }
    {
        let refs = refs_for(alloc, &mut self.set, model, &self.table, &self.known, lits)?;
        let made = clause(alloc, lits)?;
        self.table.push_made(alloc, name, made)?;
        self.known.push(Ref::Made(name))?;
        Ok(refs)
    }

    /// A line that shares a constraint.
    fn take_n(&mut self, row: u32, name: Name) -> Result<(), AllocError>
        requires known { AreRefs self.old.known.items }
        requires row { row < 2 ^ 22 }
        ensures goes { OnOk result ((model : List Form) (u : TheTable)
            → step_in Plain model self.old.table (N row name) ≡ Ok u → self.new.table ≡ u) }
        ensures known { OnOk result (AreRefs self.new.known.items) }
    {
        match self.table.share(row, name) {
            Ok(()) => {
                self.known.push(Ref::Shared(row))?;
                Ok(())
            }
            Err(_) => Err(AllocError),
        }
    }

    /// A line that deletes.
    fn take_d(&mut self, at: Ref) -> Result<(), AllocError>
        ensures goes { OnOk result ((model : List Form) (u : TheTable)
            → step_in Plain model self.old.table (D at) ≡ Ok u → self.new.table ≡ u) }
        ensures known { self.new.known ≡ self.old.known }
    {
        match self.table.delete(at) {
            Ok(()) => Ok(()),
            Err(_) => Err(AllocError),
        }
    }

    /// The next line of an accepted log, with hints where it asks for some.
    fn take(
        &mut self,
        alloc: Global,
        model: &[PackedConstraint],
        step: Step,
    ) -> Result<Step, AllocError>
        requires known { AreRefs self.old.known.items }
        requires step { IsStepIn Plain step }
        ensures step { IfOk result
            (λ s. IsReplayed model.now self.old.table step s self.new.table) }
        ensures known { OnOk result (AreRefs self.new.known.items) }
    {
        match &step {
            Step::P { name, ops } => {
                self.take_p(alloc, model, *name, ops.as_slice())?;
                Ok(step)
            }
            Step::U { name, lits, .. } => {
                let refs = self.take_u(alloc, model, *name, lits.as_slice())?;
                Ok(with_refs(step, refs))
            }
            Step::N { row, name } => {
                self.take_n(*row, *name)?;
                Ok(step)
            }
            Step::D { at } => {
                self.take_d(*at)?;
                Ok(step)
            }
            _ => Err(AllocError),
        }
    }
}

/// The model as it is kept.
fn packed(alloc: Global, model: &[Constraint]) -> Result<Vec<PackedConstraint>, AllocError>
    ensures { IfOk result (λ v. v.items ≡ model.now) }
{
    let mut out = Vec::with_capacity(alloc, model.len())?;
    for constraint in model {
        out.push(PackedConstraint::copied(alloc, constraint)?)?;
    }
    Ok(out)
}

/// References to so many constraints of a model.
fn lines_known(alloc: Global, constraints: u64) -> Result<Vec<Ref>, AllocError>
    requires { constraints < 2 ^ 63 }
    ensures { IfOk result (λ refs. AreRefs refs.items) }
{
    let mut refs = Vec::new(alloc);
    for number in 0..constraints {
        refs.push(Ref::Line(number + 1))?;
    }
    Ok(refs)
}

/// Puts all lines of a text, each with hints where it asks for some.
fn replay_text(
    alloc: Global,
    model: &[PackedConstraint],
    replay: &mut Replay,
    out: &mut TextBuffer,
    text: &[u8],
) -> Result<(), AllocError>
    requires start { (replay.old.table ≡ empty_table) × (out.old.bytes ≡ []) }
    requires known { AreRefs replay.old.known.items }
    ensures { OnOk result (IsReplayedText model.now text.now out.new.bytes) }
{
    let mut left = text;
    while !left.is_empty() {
        let Some((line, behind)) = first_line(left) else {
            return Err(AllocError);
        };
        let told = step_in(alloc, Profile::Plain, line)?;
        if behind.is_empty() {
            put_step(out, &told)?;
            return Ok(());
        }
        let step = replay.take(alloc, model, told)?;
        put_step(out, &step)?;
        left = behind;
    }
    Err(AllocError)
}

/// The text of a log without hints behind its head, with hints where it asks for some. What the replay keeps is what stands, and the text.
pub(crate) fn replayed(
    alloc: Global,
    model: &[Constraint],
    text: &[u8],
) -> Result<TextBuffer, AllocError>
    requires { length model.now < 2 ^ 63 }
    ensures { IfOk result (λ out. IsReplayedText model.now text.now out.bytes) }
{
    let model = packed(alloc, model)?;
    let mut replay = Replay {
        table: Table::new(alloc)?,
        known: lines_known(alloc, model.len() as u64)?,
        set: Literals::new(alloc, 0)?,
    };
    let mut out = TextBuffer::new(alloc);
    replay_text(alloc, &model, &mut replay, &mut out, text)?;
    Ok(out)
}
