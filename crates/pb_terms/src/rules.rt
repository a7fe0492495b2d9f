//! Multiples, quotients and saturation, coefficient by coefficient, through the normal form.

ghost use Rattle.std.specs.Prelude.{◌≡◌, ℕ, zero, ◌+◌, ◌*◌, ◌≤◌, ◌<◌, ◌^◌, ℤ, pos, ◌*ℤ◌, unsigned_abs, map, IfOk};
ghost use Rattle.proof_theory.specs.Forms.{Form, IsNarrow, size};
ghost use Rattle.proof_theory.specs.Rules.{at_least_zero, cut, degree, negatives, signed, up, up_ℤ};

use super::sums::push_term;
use std::alloc::{AllocError, Global};

/// The quotient rounded up.
fn rounded_up(size: u128, n: u64) -> u128
    requires divisor { 0 < n }
    requires fits { size ≤ 2 ^ 126 }
    ensures { result ≡ up size n }
{
    (size + u128::from(n - 1)) / u128::from(n)
}

/// A size under the sign of a coefficient.
fn with_sign(coefficient: i128, size: u128) -> i128
    requires { size ≤ 2 ^ 126 }
    ensures { result ≡ signed coefficient size }
{
    if coefficient >= 0 {
        size as i128
    } else {
        -(size as i128)
    }
}

/// The sum of the negative coefficients, as a size. One pass.
pub fn negatives_of(terms: &[(u32, i128)]) -> u128
    requires { size terms.now ≤ 2 ^ 125 }
    ensures exact { result ≡ negatives terms.now }
    ensures small { result ≤ 2 ^ 125 }
{
    let mut sum: u128 = 0;
    for &(_, coefficient) in terms {
        if coefficient < 0 {
            sum += coefficient.unsigned_abs();
        }
    }
    sum
}

/// The degree of the normal form. One pass.
pub fn degree_of(terms: &[(u32, i128)], bound: i128) -> i128
    requires { IsNarrow terms.now bound }
    ensures exact { result ≡ degree (record { terms = terms.now; bound = bound }) }
    ensures small { unsigned_abs result ≤ 2 ^ 126 }
{
    bound + negatives_of(terms) as i128
}

/// The degree of a quotient.
pub fn divided_degree(degree: i128, n: u64) -> i128
    requires divisor { 0 < n }
    requires fits { unsigned_abs degree ≤ 2 ^ 126 }
    ensures exact { result ≡ up_ℤ degree n }
    ensures small { unsigned_abs result ≤ 2 ^ 126 }
{
    if degree >= 0 {
        rounded_up(degree.unsigned_abs(), n) as i128
    } else {
        -((degree.unsigned_abs() / u128::from(n)) as i128)
    }
}

/// A degree as a size, 0 where it is negative.
pub fn positive_part(degree: i128) -> u128
    ensures { result ≡ at_least_zero degree }
{
    if degree > 0 { degree.unsigned_abs() } else { 0 }
}

/// Each coefficient times n. One pass.
pub fn scaled_terms(
    alloc: Global,
    terms: &[(u32, i128)],
    n: u64,
) -> Result<Vec<(u32, i128)>, AllocError>
    requires { size terms.now * n ≤ 2 ^ 125 }
    ensures { IfOk result
        (λ v. v.items ≡ map (λ (t : ℕ × ℤ). (t.0, t.1 *ℤ pos n)) terms.now) }
{
    let mut out = Vec::with_capacity(alloc, terms.len())?;
    for &(variable, coefficient) in terms {
        out.push((variable, scaled(coefficient, n)))?;
    }
    Ok(out)
}

/// A coefficient times n.
pub fn scaled(coefficient: i128, n: u64) -> i128
    requires { unsigned_abs coefficient * n ≤ 2 ^ 125 }
    ensures { result ≡ coefficient *ℤ pos n }
{
    coefficient * i128::from(n)
}

/// Each absolute coefficient divided by n and rounded up, under its sign. One pass.
pub fn divided_terms(
    alloc: Global,
    terms: &[(u32, i128)],
    n: u64,
) -> Result<Vec<(u32, i128)>, AllocError>
    requires divisor { 0 < n }
    requires fits { size terms.now ≤ 2 ^ 125 }
    ensures { IfOk result
        (λ v. v.items
        ≡ map (λ (t : ℕ × ℤ). (t.0, signed t.1 (up (unsigned_abs t.1) n))) terms.now) }
{
    let mut out = Vec::with_capacity(alloc, terms.len())?;
    for &(variable, coefficient) in terms {
        out.push((variable, divided(coefficient, n)))?;
    }
    Ok(out)
}

/// An absolute coefficient divided by n and rounded up, under its sign.
fn divided(coefficient: i128, n: u64) -> i128
    requires divisor { 0 < n }
    requires fits { unsigned_abs coefficient ≤ 2 ^ 125 }
    ensures { result ≡ signed coefficient (up (unsigned_abs coefficient) n) }
{
    with_sign(coefficient, rounded_up(coefficient.unsigned_abs(), n))
}

/// Each absolute coefficient cut to at most d, under its sign; zeros are left out. One pass.
pub fn cut_terms(
    alloc: Global,
    terms: &[(u32, i128)],
    most: u128,
) -> Result<Vec<(u32, i128)>, AllocError>
    requires { size terms.now ≤ 2 ^ 125 }
    ensures { IfOk result (λ v. v.items ≡ cut most terms.now) }
{
    let mut out = Vec::with_capacity(alloc, terms.len())?;
    for &(variable, coefficient) in terms {
        push_term(
            &mut out,
            variable,
            with_sign(coefficient, coefficient.unsigned_abs().min(most)),
        )?;
    }
    Ok(out)
}
