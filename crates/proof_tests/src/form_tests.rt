//! Worked examples: what each call gives on small constraints, and where it answers `Wide`.

use pb_terms::{Constraint, Literal, Literals, PbFault};
use std::alloc::{AllocError, Global};
use std::test::Fail;
use test_support::{Example, all_hold};

const LIMIT: i128 = 1 << 125;

/// Whether a constraint has these terms and this bound.
fn is(c: &Constraint, terms: &[(u32, i128)], bound: i128) -> bool {
    c.terms() == terms && c.bound() == bound
}

/// Whether an answer is the constraint of these terms and this bound.
fn gives(answer: &Result<Constraint, PbFault>, terms: &[(u32, i128)], bound: i128) -> bool {
    match answer {
        Ok(c) => is(c, terms, bound),
        Err(_) => false,
    }
}

/// Whether an answer is that a number is too wide.
fn is_wide(answer: Result<Constraint, PbFault>) -> bool {
    match answer {
        Ok(_) => false,
        Err(fault) => fault == PbFault::Wide,
    }
}

/// Terms and a bound as given, and the terms and the bound of the constraint.
struct Made {
    given: (&'static [(u32, i128)], i128),
    made: (&'static [(u32, i128)], i128),
}

impl<R> Example<R> for Made {
    fn holds(&self, _rt: &R, alloc: Global) -> Result<bool, AllocError> {
        let made = Constraint::new(alloc, self.given.0, self.given.1);
        Ok(gives(&made, self.made.0, self.made.1))
    }
}

static MADE: [Made; 4] = [
    // in order
    Made {
        given: (&[(1, 3), (2, -2)], 1),
        made: (&[(1, 3), (2, -2)], 1),
    },
    // out of order
    Made {
        given: (&[(2, -2), (1, 3)], 1),
        made: (&[(1, 3), (2, -2)], 1),
    },
    // like terms
    Made {
        given: (&[(2, 1), (1, 4), (2, -1), (1, -1)], 0),
        made: (&[(1, 3)], 0),
    },
    // zeros
    Made {
        given: (&[(1, 0), (3, 0)], -1),
        made: (&[], -1),
    },
];

#[test]
fn new_sorts_and_adds_like_terms(rt: HostRuntime) -> Result<(), Fail> {
    all_hold(&rt, rt.alloc(), &MADE)
}

/// `3 x1 - 2 x2 >= 1`.
fn first(alloc: Global) -> Result<Constraint, PbFault> {
    Constraint::new(alloc, &[(1, 3), (2, -2)], 1)
}

/// `5 x1 + x2 >= 2`.
fn second(alloc: Global) -> Result<Constraint, PbFault> {
    Constraint::new(alloc, &[(1, 5), (2, 1)], 2)
}

/// Whether the first constraint is divided by two and multiplied by three as it should.
fn scales(alloc: Global) -> Result<bool, PbFault> {
    let first = first(alloc)?;
    let divided = first.divide(alloc, 2);
    let tripled = first.times(alloc, 3);
    Ok(gives(&divided, &[(1, 2), (2, -1)], 1) && gives(&tripled, &[(1, 9), (2, -6)], 3))
}

/// Whether the sum of both constraints is as it should be, and a copy of it too.
fn adds(alloc: Global) -> Result<bool, PbFault> {
    let first = first(alloc)?;
    let second = second(alloc)?;
    let added = first.add(alloc, &second)?;
    let copied = added.copy(alloc)?;
    Ok(is(&added, &[(1, 8), (2, -1)], 3) && is(&copied, &[(1, 8), (2, -1)], 3))
}

/// Whether saturation leaves no coefficient past the degree, and no term where the degree is negative.
fn saturates(alloc: Global) -> Result<bool, PbFault> {
    let second = second(alloc)?;
    let unmet = Constraint::new(alloc, &[(1, -1)], -5)?;
    let saturated = second.saturate(alloc);
    let emptied = unmet.saturate(alloc);
    Ok(gives(&saturated, &[(1, 2), (2, 1)], 2) && gives(&emptied, &[], -4))
}

#[test]
fn a_constraint_is_divided_and_multiplied(rt: HostRuntime) {
    assert!(rt; scales(rt.alloc()) == Ok(true));
}

#[test]
fn a_sum_is_that_of_both(rt: HostRuntime) {
    assert!(rt; adds(rt.alloc()) == Ok(true));
}

#[test]
fn a_constraint_is_saturated(rt: HostRuntime) {
    assert!(rt; saturates(rt.alloc()) == Ok(true));
}

/// Terms and a bound of which one number, or a sum of them as given, is past the limit.
struct Wide(&'static [(u32, i128)], i128);

impl<R> Example<R> for Wide {
    fn holds(&self, _rt: &R, alloc: Global) -> Result<bool, AllocError> {
        Ok(is_wide(Constraint::new(alloc, self.0, self.1)))
    }
}

static WIDE: [Wide; 3] = [
    Wide(&[(1, LIMIT + 1)], 0),
    Wide(&[], LIMIT + 1),
    Wide(&[(1, LIMIT), (1, -1)], 0),
];

/// Whether the limit itself is narrow, and one more in a sum, or twice as much, is not.
fn ends_at_the_limit(alloc: Global) -> Result<bool, PbFault> {
    let most = Constraint::new(alloc, &[(1, LIMIT)], LIMIT)?;
    let other = Constraint::new(alloc, &[(2, 1)], 0)?;
    let is_kept = is(&most, &[(1, LIMIT)], LIMIT);
    Ok(is_kept && is_wide(most.add(alloc, &other)) && is_wide(most.times(alloc, 2)))
}

/// Whether the greatest multiple of a constraint is narrow, and its square is not.
fn multiplies_up_to_the_limit(alloc: Global) -> Result<bool, PbFault> {
    let one = Constraint::new(alloc, &[(1, 1)], 1)?;
    let large = one.times(alloc, i64::MAX as u64)?;
    Ok(is_wide(large.times(alloc, i64::MAX as u64)))
}

#[test]
fn wide_is_past_the_limit(rt: HostRuntime) -> Result<(), Fail> {
    all_hold(&rt, rt.alloc(), &WIDE)
}

#[test]
fn sums_and_multiples_are_wide_past_the_limit(rt: HostRuntime) {
    assert!(rt; ends_at_the_limit(rt.alloc()) == Ok(true));
}

#[test]
fn multiples_up_to_the_limit_are_made(rt: HostRuntime) {
    assert!(rt; multiplies_up_to_the_limit(rt.alloc()) == Ok(true));
}

/// Whether a constraint of two terms has this slack, and forces its first and its second term so.
fn has_slack(c: &Constraint, set: &Literals, slack: i128, first: bool, second: bool) -> bool {
    c.terms().len() == 2
        && c.slack(set) == slack
        && c.forced(set, 0) == first
        && c.forced(set, 1) == second
}

/// Whether slack forces the first term of `3 x1 - 2 x2 >= 1` where no literal is set, is a conflict where `x1` is zero, and comes back.
fn tells_conflicts(c: &Constraint, set: &mut Literals) -> bool {
    if !has_slack(c, set, 2, true, false) {
        return false;
    }
    if set.values().len() != 3 || set.values()[1].is_some() {
        return false;
    }
    set.set(Literal {
        variable: 1,
        negated: true,
    });
    if c.slack(set) != -1 || c.terms().len() != 2 || c.forced(set, 0) {
        return false;
    }
    set.clear();
    c.slack(set) == 2
}

/// Whether it does over two variables.
fn forces_and_tells_conflicts(alloc: Global) -> Result<bool, PbFault> {
    let mut set = Literals::new(alloc, 2)?;
    let c = first(alloc)?;
    Ok(tells_conflicts(&c, &mut set))
}

#[test]
fn slack_forces_and_tells_conflicts(rt: HostRuntime) {
    assert!(rt; forces_and_tells_conflicts(rt.alloc()) == Ok(true));
}

/// Values of `x1` and `x2`, and whether `3 x1 - 2 x2 >= 1` holds.
struct Valued(bool, bool, bool);

impl<R> Example<R> for Valued {
    fn holds(&self, _rt: &R, alloc: Global) -> Result<bool, AllocError> {
        match first(alloc) {
            Ok(c) => Ok(c.holds(&[self.0, self.1]) == self.2),
            Err(_) => Ok(false),
        }
    }
}

static VALUED: [Valued; 4] = [
    Valued(false, false, false),
    Valued(true, false, true),
    Valued(true, true, true),
    Valued(false, true, false),
];

/// Terms and a bound, and whether the constraint is one of no terms that does not hold.
struct Empty(&'static [(u32, i128)], i128, bool);

impl<R> Example<R> for Empty {
    fn holds(&self, _rt: &R, alloc: Global) -> Result<bool, AllocError> {
        match Constraint::new(alloc, self.0, self.1) {
            Ok(c) => Ok(c.is_false() == self.2),
            Err(_) => Ok(false),
        }
    }
}

static EMPTY: [Empty; 3] = [
    Empty(&[], 1, true),
    Empty(&[], 0, false),
    Empty(&[(1, 1)], 2, false),
];

#[test]
fn holds_reads_the_form(rt: HostRuntime) -> Result<(), Fail> {
    all_hold(&rt, rt.alloc(), &VALUED)
}

#[test]
fn is_false_reads_the_form(rt: HostRuntime) -> Result<(), Fail> {
    all_hold(&rt, rt.alloc(), &EMPTY)
}
