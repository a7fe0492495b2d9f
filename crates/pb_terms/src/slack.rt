//! Slack and forced literals of sorted terms, under a value for some of the variables.

ghost use Rattle.std.specs.Prelude.{◌≡◌, ◌↔◌, IsTrue, ◌<ℤ◌, ◌-ℤ◌, ℕ, ◌≤◌, ◌^◌, cond, pos, zero, unsigned_abs};
ghost use Rattle.proof_theory.specs.Forms.{assignment, size, value};
ghost use Rattle.proof_theory.specs.Rules.{negatives};
ghost use Rattle.proof_theory.specs.Slack.{setting, open_sum};
ghost use Rattle.pb_terms.specs.Forcing.{ForcesWhatIsSetAfter, greatest_at};

/// The value of a variable, if it is set.
pub fn value_of(values: &[Option<bool>], variable: u32) -> Option<bool>
    ensures { result ≡ setting values.now variable }
{
    match values.get(variable as usize) {
        Some(&value) => value,
        None => None,
    }
}

/// The greatest that a term can still add to the sum.
fn greatest(value: Option<bool>, coefficient: i128) -> i128
    ensures { result ≡ greatest_at value coefficient }
{
    match value {
        None => coefficient.max(0),
        Some(true) => coefficient,
        Some(false) => 0,
    }
}

/// The greatest sum of the terms that can still be. One pass.
pub fn greatest_of(values: &[Option<bool>], terms: &[(u32, i128)]) -> i128
    requires { size terms.now ≤ 2 ^ 125 }
    ensures exact { result
        ≡ pos (open_sum (setting values.now) terms.now) -ℤ pos (negatives terms.now) }
    ensures small { unsigned_abs result ≤ 2 ^ 125 }
{
    let mut sum: i128 = 0;
    for &(variable, coefficient) in terms {
        sum += greatest(value_of(values, variable), coefficient);
    }
    sum
}

/// Whether a variable is one in a 0/1 list.
pub fn is_one(values: &[bool], variable: u32) -> bool
    ensures { result ≡ assignment values.now variable }
{
    if variable == 0 {
        return false;
    }
    match values.get(variable as usize - 1) {
        Some(&value) => value,
        None => false,
    }
}

/// A coefficient where its variable is one, else 0.
fn term_value(values: &[bool], variable: u32, coefficient: i128) -> i128
    ensures { result ≡ cond (assignment values.now variable) coefficient (pos 0) }
{
    if is_one(values, variable) {
        coefficient
    } else {
        0
    }
}

/// The sum of the coefficients at the ones. One pass.
pub fn value_at(values: &[bool], terms: &[(u32, i128)]) -> i128
    requires { size terms.now ≤ 2 ^ 125 }
    ensures { result ≡ value (assignment values.now) terms.now }
{
    let mut sum: i128 = 0;
    for &(variable, coefficient) in terms {
        sum += term_value(values, variable, coefficient);
    }
    sum
}

/// Whether a literal is unset and its coefficient exceeds the slack.
pub fn is_forced(value: Option<bool>, slack: i128, coefficient: i128) -> bool
    requires { unsigned_abs coefficient ≤ 2 ^ 125 }
    ensures { IsTrue result ↔ ((value ≡ None) × (slack <ℤ pos (unsigned_abs coefficient))) }
{
    value.is_none() && slack < coefficient.unsigned_abs() as i128
}

/// What a constraint forces is what its propagation sets.
pub fn forcing_law()
    ensures { ForcesWhatIsSetAfter }
{}
