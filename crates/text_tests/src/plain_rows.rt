//! Linear constraints with a coefficient for each variable, and the rules of a log on them, plainly.

use crate::plain_stops::Stop;
use proof_theory::Literal;
use std::alloc::{AllocError, Global};

/// The greatest size of a number.
pub const WIDEST: i128 = 1 << 125;

/// What stands in front of each variable, that of variable v in place v - 1, and what the sum is at least.
#[derive(Drop)]
pub struct Row {
    pub coefficients: Vec<i128>,
    pub bound: i128,
}

/// A number without its sign.
pub fn size(c: i128) -> i128 {
    if c < 0 { 0i128.saturating_sub(c) } else { c }
}

/// The sum of the coefficients without their signs.
fn width(row: &Row) -> i128 {
    let mut sum: i128 = 0;
    for c in &row.coefficients {
        sum = sum.saturating_add(size(*c));
    }
    sum
}

/// The sum of the negative coefficients, without its sign.
fn negatives(coefficients: &[i128]) -> i128 {
    let mut sum: i128 = 0;
    for c in coefficients {
        if *c < 0 {
            sum = sum.saturating_add(size(*c));
        }
    }
    sum
}

/// The bound where each negative coefficient stands for the negated literal.
pub fn degree(row: &Row) -> i128 {
    row.bound.saturating_add(negatives(&row.coefficients))
}

/// Whether the bound without its sign, or the sum of the coefficients without theirs, is too great.
pub fn is_wide(row: &Row) -> bool {
    width(row) > WIDEST || size(row.bound) > WIDEST
}

/// Whether it says that 0 is at least more than 0.
pub fn is_false(row: &Row) -> bool {
    width(row) == 0 && row.bound > 0
}

/// The row of terms, coefficients of one variable being added.
pub fn row_of(
    alloc: Global,
    variables: u32,
    terms: &[(u32, i128)],
    bound: i128,
) -> Result<Row, AllocError> {
    let mut coefficients = vec![in alloc; 0i128; variables as usize]?;
    for (variable, c) in terms {
        let place = (*variable as usize).wrapping_sub(1);
        if let Some(sum) = coefficients.get_mut(place) {
            *sum = sum.saturating_add(*c);
        }
    }
    Ok(Row {
        coefficients,
        bound,
    })
}

/// That the sum of the literals is at least so much. For `~x` stands 1 - x.
pub fn row_of_literals(
    alloc: Global,
    variables: u32,
    literals: &[Literal],
    least: i128,
) -> Result<Row, Stop> {
    let mut terms = Vec::new(alloc);
    let mut bound = least;
    for literal in literals {
        let c: i128 = if literal.negated { -1 } else { 1 };
        bound = bound.saturating_add(c.min(0));
        terms.push((literal.variable, c))?;
    }
    Ok(row_of(alloc, variables, &terms, bound)?)
}

/// What becomes of each coefficient.
#[derive(Clone, Copy)]
enum Change {
    Times(i128),
    Divided(i128),
    Cut(i128),
}

/// The quotient, rounded up; 0 where there is none.
fn quotient(a: i128, n: i128) -> i128 {
    match (a.checked_div(n), a.checked_rem(n)) {
        (Some(down), Some(rest)) if rest > 0 => down.saturating_add(1),
        (Some(down), _) => down,
        _ => 0,
    }
}

/// What becomes of one coefficient.
fn changed(c: i128, change: Change) -> i128 {
    let size = match change {
        Change::Times(n) => size(c).saturating_mul(n),
        Change::Divided(n) => quotient(size(c), n),
        Change::Cut(most) => size(c).min(most),
    };
    if c < 0 {
        0i128.saturating_sub(size)
    } else {
        size
    }
}

/// All coefficients after a change.
fn all_changed(alloc: Global, row: &Row, change: Change) -> Result<Vec<i128>, AllocError> {
    let mut made = Vec::new(alloc);
    for c in &row.coefficients {
        made.push(changed(*c, change))?;
    }
    Ok(made)
}

/// The row of these coefficients whose normal form has this bound.
fn with_degree(coefficients: Vec<i128>, degree: i128) -> Row {
    let bound = degree.saturating_sub(negatives(&coefficients));
    Row {
        coefficients,
        bound,
    }
}

/// The row so many times.
pub fn times(alloc: Global, row: &Row, n: i128) -> Result<Row, Stop> {
    let coefficients = all_changed(alloc, row, Change::Times(n))?;
    Ok(Row {
        coefficients,
        bound: row.bound.saturating_mul(n),
    })
}

/// The row, its normal form divided and rounded up.
pub fn divided(alloc: Global, row: &Row, n: i128) -> Result<Row, Stop> {
    let coefficients = all_changed(alloc, row, Change::Divided(n))?;
    Ok(with_degree(coefficients, quotient(degree(row), n)))
}

/// The row, the coefficients of its normal form cut to the bound of that, or to 0.
pub fn saturated(alloc: Global, row: &Row) -> Result<Row, Stop> {
    let degree = degree(row);
    let coefficients = all_changed(alloc, row, Change::Cut(degree.max(0)))?;
    Ok(with_degree(coefficients, degree))
}

/// The sum of two rows.
pub fn sum(alloc: Global, one: &Row, other: &Row) -> Result<Row, Stop> {
    let mut coefficients = Vec::new(alloc);
    let added = other.coefficients.as_slice();
    let mut place: usize = 0;
    for a in &one.coefficients {
        let b = added.get(place).copied().unwrap_or(0);
        coefficients.push(a.saturating_add(b))?;
        place = place.wrapping_add(1);
    }
    Ok(Row {
        coefficients,
        bound: one.bound.saturating_add(other.bound),
    })
}
