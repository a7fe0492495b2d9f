//! Values of some variables, and what a row comes to under them, plainly.

use crate::plain_rows::{Row, degree, size};
use proof_theory::Literal;
use std::alloc::{AllocError, Global};

/// Makes the literals false.
fn make_false(values: &mut [Option<bool>], literals: &[Literal]) {
    for literal in literals {
        let place = (literal.variable as usize).wrapping_sub(1);
        if let Some(value) = values.get_mut(place) {
            *value = Some(literal.negated);
        }
    }
}

/// The values of so many variables, where the literals are false and no other variable has one.
pub fn values_without(
    alloc: Global,
    variables: u32,
    literals: &[Literal],
) -> Result<Vec<Option<bool>>, AllocError> {
    let mut values = vec![in alloc; None; variables as usize]?;
    make_false(&mut values, literals);
    Ok(values)
}

/// Whether the literal that a coefficient has in the normal form is not false.
fn is_open(c: i128, value: Option<bool>) -> bool {
    match value {
        Some(is_one) => is_one == (c > 0),
        None => true,
    }
}

/// By how much the literals that are not false outweigh the bound, in the normal form.
fn slack(row: &Row, values: &[Option<bool>]) -> i128 {
    let mut open: i128 = 0;
    let mut place: usize = 0;
    for c in &row.coefficients {
        if is_open(*c, values.get(place).copied().flatten()) {
            open = open.saturating_add(size(*c));
        }
        place = place.wrapping_add(1);
    }
    open.saturating_sub(degree(row))
}

/// Gives the variable of that place this value where it has none.
fn give(values: &mut [Option<bool>], place: usize, is_one: bool) {
    if let Some(value) = values.get_mut(place) {
        if value.is_none() {
            *value = Some(is_one);
        }
    }
}

/// Whether the row cannot hold any more; else each literal without which it could not hold becomes true.
pub fn is_contradicted(row: &Row, values: &mut [Option<bool>]) -> bool {
    let slack = slack(row, values);
    if slack < 0 {
        return true;
    }
    let mut place: usize = 0;
    for c in &row.coefficients {
        if size(*c) > slack {
            give(values, place, *c > 0);
        }
        place = place.wrapping_add(1);
    }
    false
}

/// Whether the row holds where exactly these variables are 1.
pub fn holds(row: &Row, ones: &[u32]) -> bool {
    let mut sum: i128 = 0;
    for variable in ones {
        let place = (*variable as usize).wrapping_sub(1);
        if let Some(c) = row.coefficients.get(place) {
            sum = sum.saturating_add(*c);
        }
    }
    sum >= row.bound
}
