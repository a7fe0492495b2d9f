//! One constraint under the literals of both levels: whether it is a conflict, and what it forces (Chai, Kuehlmann 2003, by slack).

ghost use Rattle.std.specs.Prelude.{◌≡◌, ◌≤◌, ◌^◌, ◌-ℤ◌, ℕ, ℤ, Bool, List, pos, zero, unsigned_abs};
ghost use Rattle.proof_theory.specs.Forms.{Form, size};
ghost use Rattle.proof_theory.specs.Rules.{negatives};
ghost use Rattle.proof_theory.specs.Slack.{Setting, open_sum, slack, wanted};
ghost use Rattle.proof_theory.specs.Propagation.{IsAmong};
ghost use Rattle.pb_terms.specs.Forcing.{greatest_at};
ghost use Rattle.pb_propagation.specs.Led.{Comes, Led};
ghost use Rattle.pb_propagation.specs.Levels.{Keeps, MaySet, now};

use super::levels::Levels;
use super::short_following::follow_short;
use packed_terms::{Kept, PackedConstraint};
use pb_terms::Constraint;

/// The greatest that a term can still add to the sum.
fn greatest(value: Option<bool>, coefficient: i128) -> i128
    ensures { result ≡ greatest_at value coefficient }
{
    match value {
        None => coefficient.max(0),
        Some(true) => coefficient,
        Some(false) => 0,
    }
}

/// The greatest sum of the terms that can still be. One pass.
pub fn greatest_of(set: &Levels, terms: &[(u32, i128)]) -> i128
    requires { size terms.now ≤ 2 ^ 125 }
    ensures exact { result
        ≡ pos (open_sum (now set.now) terms.now) -ℤ pos (negatives terms.now) }
    ensures small { unsigned_abs result ≤ 2 ^ 125 }
{
    let mut sum: i128 = 0;
    for &(variable, coefficient) in terms {
        sum += greatest(set.value(variable), coefficient);
    }
    sum
}

/// The value that makes the literal of a coefficient true.
fn wanted(coefficient: i128) -> bool
    ensures { result ≡ wanted coefficient }
{
    coefficient >= 0
}

/// Sets the literal of a term, if its variable is unset and its coefficient exceeds what the greatest sum has above the bound.
fn force_one(set: &mut Levels, variable: u32, coefficient: i128, greatest: i128, bound: i128)
    requires narrow { unsigned_abs coefficient ≤ 2 ^ 125 }
    requires small { unsigned_abs greatest ≤ 2 ^ 125 }
    ensures set { MaySet (now set.old) (greatest -ℤ bound) variable coefficient (now set.new) }
    ensures kept { Keeps set.old set.new }
{
    if greatest - coefficient.unsigned_abs() as i128 >= bound {
        return;
    }
    if set.value(variable).is_some() {
        return;
    }
    if !set.is_within(variable) {
        return;
    }
    set.set(variable, wanted(coefficient));
}

/// Sets all that a constraint with this greatest sum forces. One pass.
fn force(set: &mut Levels, next: &Constraint, greatest: i128)
    requires exact { greatest -ℤ next.now.bound ≡ slack (now set.old) next.now }
    requires small { unsigned_abs greatest ≤ 2 ^ 125 }
    ensures led { (s : Setting) (fs : List Form) → IsAmong next.now fs
        → Led s fs (now set.old) → Led s fs (now set.new) }
    ensures kept { Keeps set.old set.new }
{
    let bound = next.bound();
    for &(variable, coefficient) in next.terms() {
        force_one(set, variable, coefficient, greatest, bound);
    }
}

/// Whether a constraint of wide terms is a conflict; else sets all that it forces.
fn follow_wide(set: &mut Levels, next: &Constraint) -> bool
    ensures comes { (s : Setting) (fs : List Form) → IsAmong next.now fs
        → Led s fs (now set.old) → Comes result s fs (now set.new) }
    ensures kept { Keeps set.old set.new }
{
    let greatest = greatest_of(set, next.terms());
    if greatest < next.bound() {
        return true;
    }
    force(set, next, greatest);
    false
}

/// Whether a constraint is a conflict; else sets all that it forces. A pass or two over its terms.
pub fn follow(set: &mut Levels, next: &PackedConstraint) -> bool
    ensures comes { (s : Setting) (fs : List Form) → IsAmong next.now fs
        → Led s fs (now set.old) → Comes result s fs (now set.new) }
    ensures kept { Keeps set.old set.new }
{
    match next.kept() {
        Kept::Short(short) => follow_short(set, short),
        Kept::Wide(wide) => follow_wide(set, wide),
    }
}
