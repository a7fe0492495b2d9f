//! One constraint in short terms under the literals of both levels, as `following` treats wide ones.

ghost use Rattle.std.specs.Prelude.{◌≡◌, ◌<◌, ◌^◌, ◌-ℤ◌, List, pos, unsigned_abs};
ghost use Rattle.proof_theory.specs.Forms.{Form, size};
ghost use Rattle.proof_theory.specs.Rules.{negatives};
ghost use Rattle.proof_theory.specs.Slack.{Setting, open_sum, slack};
ghost use Rattle.proof_theory.specs.Propagation.{IsAmong};
ghost use Rattle.pb_propagation.specs.Led.{Comes, Led};
ghost use Rattle.pb_propagation.specs.Levels.{Keeps, MaySet, now};

use super::levels::Levels;
use packed_terms::{ShortConstraint, greatest};

/// The greatest sum of the terms that can still be. One pass.
fn greatest_of(set: &Levels, terms: &[(u32, i32)]) -> i64
    requires { size terms.now < 2 ^ 31 }
    ensures exact { result
        ≡ pos (open_sum (now set.now) terms.now) -ℤ pos (negatives terms.now) }
    ensures small { unsigned_abs result < 2 ^ 31 }
{
    let mut sum: i64 = 0;
    for &(variable, coefficient) in terms {
        sum += greatest(set.value(variable), coefficient);
    }
    sum
}

/// By how much the sum of what can still be true exceeds the degree. One pass.
pub fn excess_of(set: &Levels, next: &ShortConstraint) -> i64
    ensures { result ≡ slack (now set.now) next.now }
{
    greatest_of(set, next.terms()) - next.bound()
}

/// Sets the literal of a term, if its variable is unset and its coefficient exceeds the slack.
fn force_one(set: &mut Levels, variable: u32, coefficient: i32, excess: i64)
    ensures set { MaySet (now set.old) excess variable coefficient (now set.new) }
    ensures kept { Keeps set.old set.new }
{
    if excess >= i64::from(coefficient.unsigned_abs()) {
        return;
    }
    if set.value(variable).is_some() {
        return;
    }
    if !set.is_within(variable) {
        return;
    }
    set.set(variable, coefficient >= 0);
}

/// Sets all that a constraint with this slack forces. One pass.
fn force(set: &mut Levels, next: &ShortConstraint, excess: i64)
    requires { excess ≡ slack (now set.old) next.now }
    ensures led { (s : Setting) (fs : List Form) → IsAmong next.now fs
        → Led s fs (now set.old) → Led s fs (now set.new) }
    ensures kept { Keeps set.old set.new }
{
    for &(variable, coefficient) in next.terms() {
        force_one(set, variable, coefficient, excess);
    }
}

/// Whether a constraint is a conflict; else sets all that it forces. A pass or two over its terms.
pub fn follow_short(set: &mut Levels, next: &ShortConstraint) -> bool
    ensures comes { (s : Setting) (fs : List Form) → IsAmong next.now fs
        → Led s fs (now set.old) → Comes result s fs (now set.new) }
    ensures kept { Keeps set.old set.new }
{
    let excess = excess_of(set, next);
    if excess < 0 {
        return true;
    }
    force(set, next, excess);
    false
}
