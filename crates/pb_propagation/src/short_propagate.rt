//! Unit propagation along the references of a line, as `propagate` does it, of constraints in short terms.

ghost use Rattle.std.specs.Prelude.{◌≡◌, ◌<◌, ℕ, cond, ◌==◌, None, length};
ghost use Rattle.proof_theory.specs.Forms.{Rises};
ghost use Rattle.proof_theory.specs.Slack.{setting, or_else, forced_by, forced_at};
ghost use Rattle.pb_propagation.specs.Reach.{Reaches, Follows};

use super::propagate::value_of;
use packed_terms::ShortConstraint;
use pb_terms::{Literal, Literals};

/// Sets the literal of one term, if its variable is unset and its coefficient exceeds the slack.
fn force_one(set: &mut Literals, variable: u32, coefficient: i32, slack: i64)
    requires within { variable < length set.old }
    ensures set { (v : ℕ)
        → setting set.new v
        ≡ or_else (setting set.old v) (cond (variable == v) (forced_by slack coefficient) None) }
    ensures long { length set.new ≡ length set.old }
{
    if slack < i64::from(coefficient.unsigned_abs()) && value_of(set, variable).is_none() {
        set.set(Literal {
            variable,
            negated: coefficient < 0,
        });
    }
}

/// Sets all that terms with this slack force. One pass.
fn force(set: &mut Literals, terms: &[(u32, i32)], slack: i64)
    requires rises { Rises 0 terms.now }
    requires within { Reaches (length set.old) terms.now }
    ensures set { (v : ℕ)
        → setting set.new v ≡ or_else (setting set.old v) (forced_at slack terms.now v) }
    ensures long { length set.new ≡ length set.old }
{
    for &(variable, coefficient) in terms {
        force_one(set, variable, coefficient, slack);
    }
}

/// Whether a constraint is a conflict; else sets all that it forces. A pass or two over its terms.
pub fn follow_short(set: &mut Literals, next: &ShortConstraint) -> bool
    requires { Reaches (length set.old) next.now.terms }
    ensures follows { Follows result (setting set.old) next.now (setting set.new) }
    ensures rises { Rises 0 next.now.terms }
    ensures long { length set.new ≡ length set.old }
{
    let terms = next.terms();
    let slack = next.slack(set);
    if slack < 0 {
        return true;
    }
    force(set, terms, slack);
    false
}
