//! What each kind of line leads to, behind the first two lines of a log.

ghost use Rattle.std.specs.Prelude.{◌≡◌, true, [], OnOk};
ghost use Rattle.proof_theory.specs.Forms.{Form};
ghost use Rattle.log_theory.specs.declared.step.Step.TheVariants.{P, U};
ghost use Rattle.log_theory.specs.declared.profile.Profile.TheVariants.{Plain};
ghost use Rattle.log_theory.specs.Tables.{find, step_of, step_in};
ghost use Rattle.log_theory.specs.Verdicts.{Stage, Proving, in_range, progress_of, refuted_by, step_variables};
ghost use Rattle.pb_propagation.specs.Told.{Leads};
ghost use Rattle.proof_checker.specs.Turns.{Turns};
ghost use Rattle.pb_propagation.specs.Rooted.{IsRooted};

use super::closing::derive_alone;
use super::ones::check_ones;
use super::stack::evaluate;
use log_theory::{Cause, Name, Op, Profile, Ref, Step, Verdict};
use packed_terms::PackedConstraint;
use pb_propagation::{LineFault, Propagator, Table, derive};
use pb_terms::{Literal, Literals};
use std::alloc::Global;

/// What a lawful line leads to: the next line, or the end of the log with its claim.
#[derive(Clone, Copy, PartialEq, Eq, Debug)]
pub enum Turn {
    Goes,
    Ends(Verdict),
}

/// A line that makes a constraint by operations.
fn make_by_operations(
    alloc: Global,
    model: &[PackedConstraint],
    table: &mut Table,
    name: Name,
    ops: &[Op],
) -> Result<(), LineFault>
    ensures { Leads result (step_of model.now table.old (P name ops.now)) table.new }
{
    table.fresh_name(name)?;
    let made = evaluate(alloc, model, table, ops)?;
    table.push_made(alloc, name, made)?;
    Ok(())
}

/// A line that makes a clause by unit propagation.
fn make_by_propagation(
    alloc: Global,
    set: &mut Literals,
    model: &[PackedConstraint],
    table: &mut Table,
    name: Name,
    literals: &[Literal],
    refs: &[Ref],
) -> Result<(), LineFault>
    ensures { Leads result (step_of model.now table.old (U name literals.now refs.now)) table.new }
{
    table.fresh_name(name)?;
    let made = derive(alloc, set, model, table, literals, refs)?;
    table.push_made(alloc, name, made)?;
    Ok(())
}

/// A line that makes a clause by unit propagation over all constraints so far.
fn make_by_closing(
    alloc: Global,
    work: &mut Propagator,
    model: &[PackedConstraint],
    table: &mut Table,
    name: Name,
    literals: &[Literal],
) -> Result<(), LineFault>
    requires { IsRooted model.now table.old work.old.levels }
    ensures leads { Leads result (step_in Plain model.now table.old (U name literals.now []))
        table.new }
    ensures rooted { IsRooted model.now table.old work.new.levels }
{
    table.fresh_name(name)?;
    let made = derive_alone(alloc, work, model, table, literals)?;
    table.push_made(alloc, name, made)?;
    Ok(())
}

/// The claim that a constraint is plainly false.
fn refute_by(model: &[PackedConstraint], table: &Table, at: Ref) -> Result<Turn, LineFault>
    ensures { (stage : Stage) → Turns result (refuted_by (find model.now table.now at)) stage }
{
    let Some(named) = table.find(model, at) else {
        return Err(LineFault::Cause(Cause::NoSuchName));
    };
    if !named.is_false() {
        return Err(LineFault::Cause(Cause::NotFalse));
    }
    Ok(Turn::Ends(Verdict::Unsatisfiable))
}

/// What a line of a profile leads to behind the first two. Costs the terms that it touches.
pub fn prove(
    alloc: Global,
    work: &mut Propagator,
    variables: u32,
    model: &[PackedConstraint],
    table: &mut Table,
    profile: Profile,
    step: &Step,
) -> Result<Turn, LineFault>
    requires range { in_range variables (step_variables step.now) ≡ true }
    requires rooted { IsRooted model.now table.old work.old.levels }
    ensures turns { Turns result (progress_of model.now (Proving profile table.old) step.now)
        (Proving profile table.new) }
    ensures rooted { OnOk result (IsRooted model.now table.new work.new.levels) }
{
    match (profile, step) {
        (Profile::Hinted, Step::U { name, lits, refs }) => {
            make_by_propagation(
                alloc,
                &mut work.set,
                model,
                table,
                *name,
                lits.as_slice(),
                refs.as_slice(),
            )?;
            Ok(Turn::Goes)
        }
        (Profile::Plain, Step::U { name, lits, .. }) => {
            make_by_closing(alloc, work, model, table, *name, lits.as_slice())?;
            Ok(Turn::Goes)
        }
        (_, Step::P { name, ops }) => {
            make_by_operations(alloc, model, table, *name, ops.as_slice())?;
            Ok(Turn::Goes)
        }
        (_, Step::N { row, name }) => {
            table.share(*row, *name)?;
            Ok(Turn::Goes)
        }
        (_, Step::D { at }) => {
            table.delete(*at)?;
            work.forget();
            Ok(Turn::Goes)
        }
        (_, Step::E { at }) => refute_by(model, table, *at),
        (_, Step::Y { ones }) => {
            check_ones(alloc, variables, model, ones.as_slice())?;
            Ok(Turn::Ends(Verdict::Satisfiable))
        }
        (_, Step::Q) => Ok(Turn::Ends(Verdict::Undecided)),
        (_, Step::Head | Step::Model(_)) => Err(LineFault::Cause(Cause::Form)),
    }
}
