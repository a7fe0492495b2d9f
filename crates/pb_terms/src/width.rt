//! The size of terms, and the test that keeps arithmetic exact: with no coefficient, bound or sum above 2^125, sums of two
//! constraints, degrees and slacks stay far inside i128.

ghost use Rattle.std.specs.Prelude.{◌≡◌, ◌*◌, ◌≤◌, ◌^◌, ◌↔◌, IsTrue, unsigned_abs};
ghost use Rattle.proof_theory.specs.Forms.{size, IsNarrow};

/// The greatest size that a coefficient, a bound or the sum of absolute coefficients may have.
pub const LIMIT: u128 = 1 << 125;

/// Whether terms and bound are within the limit. One pass; it stops where the sum passes the limit.
pub fn is_narrow(terms: &[(u32, i128)], bound: i128) -> bool
    ensures { IsTrue result ↔ IsNarrow terms.now bound }
{
    if bound.unsigned_abs() > LIMIT {
        return false;
    }
    let mut sum: u128 = 0;
    for &(_, coefficient) in terms {
        let size = coefficient.unsigned_abs();
        if size > LIMIT - sum {
            return false;
        }
        sum += size;
    }
    true
}

/// The sum of the absolute coefficients. One pass.
pub fn size_of(terms: &[(u32, i128)]) -> u128
    requires { size terms.now ≤ 2 ^ 125 }
    ensures { result ≡ size terms.now }
{
    let mut sum: u128 = 0;
    for &(_, coefficient) in terms {
        sum += coefficient.unsigned_abs();
    }
    sum
}

/// Whether a size times n is within the limit.
fn fits_times(size: u128, n: u64) -> bool
    ensures { IsTrue result ↔ (size * n ≤ 2 ^ 125) }
{
    match size.checked_mul(u128::from(n)) {
        Some(product) => product <= LIMIT,
        None => false,
    }
}

/// Whether the multiple by n of terms and bound is within the limit. One pass.
pub fn is_narrow_times(terms: &[(u32, i128)], bound: i128, n: u64) -> bool
    requires { size terms.now ≤ 2 ^ 125 }
    ensures { IsTrue result
        ↔ ((size terms.now * n ≤ 2 ^ 125) × (unsigned_abs bound * n ≤ 2 ^ 125)) }
{
    fits_times(size_of(terms), n) && fits_times(bound.unsigned_abs(), n)
}
