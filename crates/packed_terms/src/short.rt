//! Terms of eight bytes each, and what is read of them. Their absolute coefficients sum to less than 2^31, so that no coefficient, and no
//! sum of some of them, leaves 32 bits.

ghost use Rattle.std.specs.Prelude.{◌≡◌, ◌<◌, ◌≤◌, ◌^◌, ◌↔◌, ◌-ℤ◌, IsTrue, IfOk, pos, zero, cond, unsigned_abs};
ghost use Rattle.proof_theory.specs.Forms.{assignment, size, value};
ghost use Rattle.proof_theory.specs.Rules.{negatives};
ghost use Rattle.proof_theory.specs.Slack.{setting, open_sum};
ghost use Rattle.pb_terms.specs.Forcing.{greatest_at};

use pb_terms::{is_one, value_of};
use std::alloc::{AllocError, Global};

/// The least weight, and the least size of a bound, that is too great for short terms.
pub const LIMIT: u128 = 1 << 31;

/// Whether the absolute coefficients sum to less than 2^31. One pass; it stops where the sum gets there.
pub fn is_light(terms: &[(u32, i128)]) -> bool
    ensures { IsTrue result ↔ size terms.now < 2 ^ 31 }
{
    let mut sum: u128 = 0;
    for &(_, coefficient) in terms {
        let size = coefficient.unsigned_abs();
        if size >= LIMIT - sum {
            return false;
        }
        sum += size;
    }
    true
}

/// The terms in eight bytes each. One pass.
pub fn shortened(alloc: Global, terms: &[(u32, i128)]) -> Result<Vec<(u32, i32)>, AllocError>
    requires { size terms.now < 2 ^ 31 }
    ensures { IfOk result (λ v. v.items ≡ terms.now) }
{
    let mut out = Vec::with_capacity(alloc, terms.len())?;
    for &(variable, coefficient) in terms {
        out.push((variable, coefficient as i32))?;
    }
    Ok(out)
}

/// The same terms as `pb_terms` takes them. One pass.
pub fn widened(alloc: Global, terms: &[(u32, i32)]) -> Result<Vec<(u32, i128)>, AllocError>
    ensures { IfOk result (λ v. v.items ≡ terms.now) }
{
    let mut out = Vec::with_capacity(alloc, terms.len())?;
    for &(variable, coefficient) in terms {
        out.push((variable, i128::from(coefficient)))?;
    }
    Ok(out)
}

/// The sum of the absolute coefficients. One pass.
pub fn weight_of(terms: &[(u32, i32)]) -> u32
    requires { size terms.now < 2 ^ 31 }
    ensures { result ≡ size terms.now }
{
    let mut sum: u32 = 0;
    for &(_, coefficient) in terms {
        sum += coefficient.unsigned_abs();
    }
    sum
}

/// The greatest that a term can still add to the sum. It takes no branch.
pub fn greatest(value: Option<bool>, coefficient: i32) -> i64
    ensures { result ≡ greatest_at value coefficient }
{
    if value.unwrap_or(coefficient > 0) {
        i64::from(coefficient)
    } else {
        0
    }
}

/// The greatest sum of the terms that can still be. One pass.
pub fn greatest_of(values: &[Option<bool>], terms: &[(u32, i32)]) -> i64
    requires { size terms.now < 2 ^ 31 }
    ensures exact { result
        ≡ pos (open_sum (setting values.now) terms.now) -ℤ pos (negatives terms.now) }
    ensures small { unsigned_abs result < 2 ^ 31 }
{
    let mut sum: i64 = 0;
    for &(variable, coefficient) in terms {
        sum += greatest(value_of(values, variable), coefficient);
    }
    sum
}

/// A coefficient where its variable is one, else 0.
fn term_value(values: &[bool], variable: u32, coefficient: i32) -> i64
    ensures { result ≡ cond (assignment values.now variable) coefficient (pos 0) }
{
    if is_one(values, variable) {
        i64::from(coefficient)
    } else {
        0
    }
}

/// The sum of the coefficients at the ones. One pass.
pub fn value_at(values: &[bool], terms: &[(u32, i32)]) -> i64
    requires { size terms.now < 2 ^ 31 }
    ensures { result ≡ value (assignment values.now) terms.now }
{
    let mut sum: i64 = 0;
    for &(variable, coefficient) in terms {
        sum += term_value(values, variable, coefficient);
    }
    sum
}
