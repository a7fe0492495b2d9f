//! The last line that claims a solution: the variables that are one, and a test of every constraint of the model under them.

ghost use Rattle.std.specs.Prelude.{◌≡◌, ◌<◌, ◌≤◌, ℕ, Bool, true, false, List, length, replicate, MatchBool, IfOk};
ghost use Rattle.std.specs.Bool.{OnTrue};
ghost use Rattle.proof_theory.specs.Forms.{Form, assignment};
ghost use Rattle.log_theory.specs.Lookups.{is_among, are_distinct};
ghost use Rattle.log_theory.specs.Verdicts.{in_range, all_hold_at, holds_at, solved_by};
ghost use Rattle.pb_propagation.specs.Told.{Solves};
ghost use Rattle.proof_checker.specs.Ones.{Marks, AreUpTo};

use log_theory::Cause;
use packed_terms::PackedConstraint;
use pb_propagation::LineFault;
use std::alloc::{AllocError, Global};

/// The greatest of the variables, or 0. One pass.
fn greatest(ones: &[u32]) -> u32
    ensures { AreUpTo result ones.now }
{
    let mut most: u32 = 0;
    let mut i = ones.len();
    while i > 0 {
        i -= 1;
        most = most.max(ones[i]);
    }
    most
}

/// Marks a variable, unless it is marked.
fn mark(values: &mut Vec<bool>, variable: u32) -> bool
    requires from_one { 0 < variable }
    requires within { variable ≤ length values.old.items }
    ensures marks { Marks result (assignment values.old.items) variable
        (assignment values.new.items) }
    ensures long { length values.new.items ≡ length values.old.items }
{
    let at = variable as usize - 1;
    if values[at] {
        return false;
    }
    values[at] = true;
    true
}

/// Marks each variable, unless one stands twice. Constant for each.
fn mark_all(values: &mut Vec<bool>, variables: u32, ones: &[u32]) -> bool
    requires range { in_range variables ones.now ≡ true }
    requires within { AreUpTo (length values.old.items) ones.now }
    requires fresh { (v : ℕ) → assignment values.old.items v ≡ false }
    ensures distinct { result ≡ are_distinct ones.now }
    ensures marked { OnTrue result ((v : ℕ) → assignment values.new.items v ≡ is_among v ones.now) }
{
    let mut i = ones.len();
    while i > 0 {
        i -= 1;
        if !mark(values, ones[i]) {
            return false;
        }
    }
    true
}

/// Whether all constraints hold under a 0/1 list. One pass over their terms.
fn all_hold(model: &[PackedConstraint], values: &[bool]) -> bool
    ensures { result ≡ all_hold_at (assignment values.now) model.now }
{
    for constraint in model {
        if !constraint.holds(values) {
            return false;
        }
    }
    true
}

/// Whether the model holds where exactly these variables are one, or why the claim fails. Costs the model's terms, and the greatest of
/// the variables in memory.
pub fn check_ones(
    alloc: Global,
    variables: u32,
    model: &[PackedConstraint],
    ones: &[u32],
) -> Result<(), LineFault>
    requires { in_range variables ones.now ≡ true }
    ensures { Solves result (solved_by model.now ones.now) }
{
    let mut values = Vec::new(alloc);
    values.resize(greatest(ones) as usize, false)?;
    if !mark_all(&mut values, variables, ones) {
        return Err(LineFault::Cause(Cause::Twice));
    }
    if !all_hold(model, &values) {
        return Err(LineFault::Cause(Cause::NotSolution));
    }
    Ok(())
}
