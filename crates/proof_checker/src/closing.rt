//! Unit propagation over all constraints so far, for lines that name none: by watches and counters, which find a conflict fast, and where
//! they find none by passes over all constraints until one sets nothing.

ghost use Rattle.std.specs.Prelude.{◌≡◌, ◌≤◌, ◌^◌, List, map, length};
ghost use Rattle.std.specs.List.{flat_map};
ghost use Rattle.proof_theory.specs.Forms.{Form};
ghost use Rattle.proof_theory.specs.Slack.{setting};
ghost use Rattle.proof_theory.specs.Propagation.{closes};
ghost use Rattle.log_theory.specs.Lookups.{closed_clause};
ghost use Rattle.log_theory.specs.Tables.{all_forms, somes};
ghost use Rattle.pb_propagation.specs.Told.{Told};
ghost use Rattle.pb_propagation.specs.Reach.{AllReach};
ghost use Rattle.proof_checker.specs.Passing.{Passed};
ghost use Rattle.pb_propagation.specs.Rooted.{IsRooted};

use log_theory::Cause;
use packed_terms::PackedConstraint;
use pb_propagation::reach::reach;
use pb_propagation::{
    LineFault, Propagator, Slot, Table, above, clause, clear, follow, is_closed, negate_all,
};
use pb_terms::{Literal, Literals};
use std::alloc::Global;

/// One pass over constraints, up to the first that is a conflict: each sets all that it forces. Whether one is. Costs their terms.
fn pass(set: &mut Literals, constraints: &[PackedConstraint]) -> bool
    requires { AllReach (length set.old) constraints.now }
    ensures passed { Passed result (setting set.old) constraints.now (setting set.new) }
    ensures long { length set.new ≡ length set.old }
{
    for next in constraints {
        if follow(set, next) {
            return true;
        }
    }
    false
}

/// One pass over what stands in slots.
fn pass_slots(set: &mut Literals, slots: &[Slot]) -> bool
    requires { AllReach (length set.old) (somes slots.now) }
    ensures passed { Passed result (setting set.old) (somes slots.now) (setting set.new) }
    ensures long { length set.new ≡ length set.old }
{
    for slot in slots {
        if let Some(next) = slot.constraint() {
            if follow(set, next) {
                return true;
            }
        }
    }
    false
}

/// One pass over what stands in lists of slots.
fn pass_lists(set: &mut Literals, lists: &[Vec<Slot>]) -> bool
    requires { AllReach (length set.old)
        (somes (flat_map (λ fs. fs) (map (λ v. v.items) lists.now))) }
    ensures passed { Passed result (setting set.old)
        (somes (flat_map (λ fs. fs) (map (λ v. v.items) lists.now))) (setting set.new) }
    ensures long { length set.new ≡ length set.old }
{
    for list in lists {
        if pass_slots(set, list) {
            return true;
        }
    }
    false
}

/// One pass over the model and all that stands.
fn pass_all(set: &mut Literals, model: &[PackedConstraint], table: &Table) -> bool
    requires { AllReach (length set.old) (all_forms model.now table.now) }
    ensures passed { Passed result (setting set.old) (all_forms model.now table.now)
        (setting set.new) }
    ensures long { length set.new ≡ length set.old }
{
    if pass(set, model) {
        return true;
    }
    if pass_lists(set, table.lists()) {
        return true;
    }
    pass_slots(set, table.shared())
}

/// Whether unit propagation over the model and all that stands comes to a conflict. Each pass but the last sets a variable, so there are
/// at most as many as variables become set, and one.
fn close(set: &mut Literals, model: &[PackedConstraint], table: &Table) -> bool
    requires { AllReach (length set.old) (all_forms model.now table.now) }
    ensures { result ≡ closes (setting set.old) (all_forms model.now table.now) }
{
    let mut moved = true;
    while moved {
        let before = set.count();
        if pass_all(set, model, table) {
            return true;
        }
        moved = before < set.count();
    }
    false
}

/// A number above all variables of constraints. Constant for each.
fn reach_all(constraints: &[PackedConstraint]) -> u64
    ensures reach { AllReach result constraints.now }
    ensures small { result ≤ 2 ^ 32 }
{
    let mut most: u64 = 0;
    let mut i = constraints.len();
    while i > 0 {
        i -= 1;
        most = most.max(reach(&constraints[i]));
    }
    most
}

/// A number above all variables of what stands in slots. Constant for each.
fn reach_slots(slots: &[Slot]) -> u64
    ensures reach { AllReach result (somes slots.now) }
    ensures small { result ≤ 2 ^ 32 }
{
    let mut most: u64 = 0;
    let mut i = slots.len();
    while i > 0 {
        i -= 1;
        if let Some(next) = slots[i].constraint() {
            most = most.max(reach(next));
        }
    }
    most
}

/// A number above all variables of what stands in lists of slots. Constant for each slot.
fn reach_lists(lists: &[Vec<Slot>]) -> u64
    ensures reach { AllReach result (somes (flat_map (λ fs. fs) (map (λ v. v.items) lists.now))) }
    ensures small { result ≤ 2 ^ 32 }
{
    let mut most: u64 = 0;
    let mut i = lists.len();
    while i > 0 {
        i -= 1;
        most = most.max(reach_slots(&lists[i]));
    }
    most
}

/// A number above all variables of the model and of all that stands. Constant for each constraint and each slot.
fn reach_table(model: &[PackedConstraint], table: &Table) -> u64
    ensures reach { AllReach result (all_forms model.now table.now) }
    ensures small { result ≤ 2 ^ 32 }
{
    reach_all(model).max(reach_lists(table.lists()).max(reach_slots(table.shared())))
}

/// The clause of the literals, if unit propagation from its negation over all constraints so far comes to a conflict, or the first fault.
/// Costs the literals and the terms of all constraints, these as often as a pass over all sets a variable, and once more; and memory for the
/// variables, where a constraint names a greater one than all lines before.
fn derive_by_passes(
    alloc: Global,
    set: &mut Literals,
    model: &[PackedConstraint],
    table: &Table,
    literals: &[Literal],
) -> Result<PackedConstraint, LineFault>
    ensures { Told result (closed_clause (all_forms model.now table.now) literals.now) }
{
    clear(alloc, set, above(literals).max(reach_table(model, table)))?;
    if !negate_all(set, literals) {
        return Err(LineFault::Cause(Cause::Twice));
    }
    if !close(set, model, table) {
        return Err(LineFault::Cause(Cause::NoConflict));
    }
    Ok(clause(alloc, literals)?)
}

/// The clause of the literals, if unit propagation from its negation over all constraints so far comes to a conflict, or the first fault.
/// Costs the literals, the constraints that came since the last line, and the terms of those that what is set may concern; passes over
/// all constraints only where watches and counters find no conflict, which ends the log if they are right.
pub fn derive_alone(
    alloc: Global,
    work: &mut Propagator,
    model: &[PackedConstraint],
    table: &Table,
    literals: &[Literal],
) -> Result<PackedConstraint, LineFault>
    requires { IsRooted model.now table.now work.old.levels }
    ensures told { Told result (closed_clause (all_forms model.now table.now) literals.now) }
    ensures rooted { IsRooted model.now table.now work.new.levels }
{
    if is_closed(alloc, work, model, table, literals)? {
        return Ok(clause(alloc, literals)?);
    }
    derive_by_passes(alloc, &mut work.set, model, table, literals)
}
