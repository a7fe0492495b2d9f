//! Unit propagation along the references of a line (Chai, Kuehlmann 2003, by slack): the negations of a clause's literals are set, and
//! each reference in its order gives a conflict or sets what it forces. What was set is listed, so that clearing costs no more than
//! setting did.

ghost use Rattle.std.specs.Prelude.{◌≡◌, ◌<◌, ◌≤◌, ◌^◌, ◌↔◌, ℕ, ℤ, pos, cond, ◌==◌, unsigned_abs, List, Bool, Option, None, true, length, replicate, OnOk, MatchBool, MatchResult, is_some, Ok, Err, Some, ◌∷◌, IfOk, IfErr, []};
ghost use Rattle.std.specs.Bool.{OnTrue};
ghost use Rattle.proof_theory.specs.Forms.{Form, Rises, size};
ghost use Rattle.proof_theory.specs.Slack.{setting, or_else, forced_by, forced_at, after, conflict, negations, refutes};
ghost use Rattle.log_theory.specs.Lookups.{are_distinct, variables_of, find_all, makes};
ghost use Rattle.log_theory.specs.declared.step.Step.TheVariants.{U};
ghost use Rattle.log_theory.specs.Tables.{find};
ghost use Rattle.pb_propagation.specs.Told.{Told};
ghost use Rattle.pb_propagation.specs.Reach.{AllReach, Reaches, LiteralsReach, AllNamed, Follows, NegatesOne, forms_of};

use super::clauses::clause;
use super::fault::LineFault;
use super::reach::reach;
use super::short_propagate::follow_short;
use super::table::Table;
use log_theory::{Cause, Name, Ref};
use packed_terms::{Kept, PackedConstraint};
use pb_terms::{Constraint, Literal, Literals};
use std::alloc::{AllocError, Global};

/// The value of a variable, if it is set.
pub fn value_of(set: &Literals, variable: u32) -> Option<bool>
    ensures { result ≡ setting set.now variable }
{
    match set.values().get(variable as usize) {
        Some(&value) => value,
        None => None,
    }
}

/// Sets the literal of one term, if its variable is unset and its coefficient exceeds the slack.
fn force_one(set: &mut Literals, variable: u32, coefficient: i128, slack: i128)
    requires within { variable < length set.old }
    requires narrow { unsigned_abs coefficient ≤ 2 ^ 125 }
    ensures set { (v : ℕ)
        → setting set.new v
        ≡ or_else (setting set.old v) (cond (variable == v) (forced_by slack coefficient) None) }
    ensures long { length set.new ≡ length set.old }
{
    if value_of(set, variable).is_none() && slack < coefficient.unsigned_abs() as i128 {
        set.set(Literal {
            variable,
            negated: coefficient < 0,
        });
    }
}

/// Sets all that terms with this slack force. One pass.
fn force(set: &mut Literals, terms: &[(u32, i128)], slack: i128)
    requires rises { Rises 0 terms.now }
    requires narrow { size terms.now ≤ 2 ^ 125 }
    requires within { Reaches (length set.old) terms.now }
    ensures set { (v : ℕ)
        → setting set.new v ≡ or_else (setting set.old v) (forced_at slack terms.now v) }
    ensures long { length set.new ≡ length set.old }
{
    for &(variable, coefficient) in terms {
        force_one(set, variable, coefficient, slack);
    }
}

/// Whether a constraint of wide terms is a conflict; else sets all that it forces.
fn follow_wide(set: &mut Literals, next: &Constraint) -> bool
    requires { Reaches (length set.old) next.now.terms }
    ensures follows { Follows result (setting set.old) next.now (setting set.new) }
    ensures rises { Rises 0 next.now.terms }
    ensures long { length set.new ≡ length set.old }
{
    let terms = next.terms();
    let slack = next.slack(set);
    if slack < 0 {
        return true;
    }
    force(set, terms, slack);
    false
}

/// Whether a constraint is a conflict; else sets all that it forces. A pass or two over its terms.
pub fn follow(set: &mut Literals, next: &PackedConstraint) -> bool
    requires { Reaches (length set.old) next.now.terms }
    ensures follows { Follows result (setting set.old) next.now (setting set.new) }
    ensures rises { Rises 0 next.now.terms }
    ensures long { length set.new ≡ length set.old }
{
    match next.kept() {
        Kept::Short(short) => follow_short(set, short),
        Kept::Wide(wide) => follow_wide(set, wide),
    }
}

/// Whether the references lead to a conflict, each in its order.
fn refute(set: &mut Literals, model: &[PackedConstraint], table: &Table, refs: &[Ref]) -> bool
    requires { AllReach (length set.old) (forms_of (find model.now table.now) refs.now) }
    ensures { result ≡ refutes (setting set.old) (forms_of (find model.now table.now) refs.now) }
{
    for at in refs {
        if let Some(next) = table.find(model, *at) {
            if follow(set, next) {
                return true;
            }
        }
    }
    false
}

/// A number above all variables of what the references name, or that one of them names nothing. Constant for each, but for the look-up.
fn reach_of(model: &[PackedConstraint], table: &Table, refs: &[Ref]) -> Result<u64, Cause>
    ensures ok { IfOk result (λ n. AllNamed (find model.now table.now) n refs.now × (n ≤ 2 ^ 32)) }
    ensures err { IfErr result (λ e. find_all (find model.now table.now) refs.now ≡ Err e) }
{
    let mut most: u64 = 0;
    let mut i = refs.len();
    while i > 0 {
        i -= 1;
        let Some(named) = table.find(model, refs[i]) else {
            return Err(Cause::NoSuchName);
        };
        most = most.max(reach(named));
    }
    Ok(most)
}

/// A number above the variables of all literals, or 0 where there are none. One pass.
pub fn above(literals: &[Literal]) -> u64
    ensures reach { LiteralsReach result literals.now }
    ensures small { result ≤ 2 ^ 32 }
{
    let mut most: u64 = 0;
    let mut i = literals.len();
    while i > 0 {
        i -= 1;
        most = most.max(u64::from(literals[i].variable) + 1);
    }
    most
}

/// Unsets every variable, with room for those below `room`. Where that is more than there was, it is made anew, twice as large at least,
/// so that all of a log's lines together cost no more than four times the greatest variable that they name, whatever number a text states.
pub fn clear(alloc: Global, set: &mut Literals, room: u64) -> Result<(), AllocError>
    requires { room ≤ 2 ^ 32 }
    ensures { OnOk result ((set.new ≡ replicate (length set.new) None) × (room ≤ length set.new)) }
{
    let old = set.values().len() as u64;
    if room <= old {
        set.clear();
        return Ok(());
    }
    let places = room.max(old.saturating_mul(2).min(1 << 32));
    *set = Literals::new(alloc, (places - 1) as u32)?;
    Ok(())
}

/// Makes a literal false, unless its variable is set.
fn negate(set: &mut Literals, literal: Literal) -> bool
    requires { literal.variable < length set.old }
    ensures negates { NegatesOne result (setting set.old) literal (setting set.new) }
    ensures long { length set.new ≡ length set.old }
{
    if value_of(set, literal.variable).is_some() {
        return false;
    }
    set.set(Literal {
        variable: literal.variable,
        negated: !literal.negated,
    });
    true
}

/// Makes each literal false, from the last to the first, unless a variable stands twice among them: then those stay set that it came to.
/// Constant for each.
pub fn negate_all(set: &mut Literals, literals: &[Literal]) -> bool
    requires within { LiteralsReach (length set.old) literals.now }
    requires fresh { (v : ℕ) → setting set.old v ≡ None }
    ensures distinct { result ≡ are_distinct (variables_of literals.now) }
    ensures set { OnTrue result ((v : ℕ) → setting set.new v ≡ negations literals.now v) }
    ensures long { length set.new ≡ length set.old }
{
    let mut i = literals.len();
    while i > 0 {
        i -= 1;
        if !negate(set, literals[i]) {
            return false;
        }
    }
    true
}

/// The clause of the literals, if the references refute its negation, or the first fault. Costs the literals, and the terms of the
/// references up to the first conflict; and, where a line names a greater variable than all before it, memory for the variables up to it.
pub fn derive(
    alloc: Global,
    set: &mut Literals,
    model: &[PackedConstraint],
    table: &Table,
    literals: &[Literal],
    refs: &[Ref],
) -> Result<PackedConstraint, LineFault>
    ensures { (name : Name)
        → Told result (makes (find model.now table.now) (U name literals.now refs.now)) }
{
    let named = reach_of(model, table, refs);
    clear(alloc, set, above(literals).max(named.unwrap_or(0)))?;
    if !negate_all(set, literals) {
        return Err(LineFault::Cause(Cause::Twice));
    }
    named?;
    if !refute(set, model, table, refs) {
        return Err(LineFault::Cause(Cause::NoConflict));
    }
    Ok(clause(alloc, literals)?)
}
