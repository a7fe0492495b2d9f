//! Worked logs trimmed: what is left of each, and how many of its lines that make a constraint.

use crate::checker_tests::with_head;
use log_theory::Cause;
use opb_text::{Model, read_opb};
use proof_checker::check;
use proof_trim::{Trimmed, trim};
use std::alloc::{AllocError, Global};
use std::test::Fail;
use test_support::models::{NO_TRIANGLE, NO_TRIANGLE_WITHOUT_HINTS, NOT_BOTH, TRIANGLE_INTO_CYCLE};
use test_support::{Example, all_hold};

/// The first two lines of a log with hints over `NOT_BOTH`.
const HINTED: &[u8] = b"embedding proof 1\nm 2\n";

/// The first two lines of a log without hints over `NOT_BOTH`.
const PLAIN: &[u8] = b"embedding proof 2\nm 2\n";

/// The first lines of a log over `NOT_BOTH` and what is behind them, what is behind those of the trimmed log, and how many lines are kept of
/// how many.
struct Leaves(&'static [u8], &'static str, &'static str, usize, usize);

/// Whether the trimmed log is this text, so many of so many lines.
fn is_left(
    alloc: Global,
    model: &Model,
    log: &[u8],
    text: &[u8],
    kept: usize,
    made: usize,
) -> bool {
    match trim(alloc, model, log) {
        Trimmed::Kept(left) => {
            left.text.as_slice() == text && left.kept == kept && left.made == made
        }
        _ => false,
    }
}

impl<R> Example<R> for Leaves {
    fn holds(&self, _rt: &R, alloc: Global) -> Result<bool, AllocError> {
        let log = with_head(alloc, self.0, self.1)?;
        let text = with_head(alloc, HINTED, self.2)?;
        match read_opb(alloc, NOT_BOTH) {
            Ok(model) => Ok(is_left(alloc, &model, &log, &text, self.3, self.4)),
            Err(_) => Ok(false),
        }
    }
}

static TRIMMED: [Leaves; 12] = [
    Leaves(
        HINTED,
        "p 0.1 1 2 + ;\nu 0.2 x1 ; 1 ;\nu 0.3 ; 1 2 ;\ne 0.3\n",
        "u 0.1 ; 1 2 ;\ne 0.1\n",
        1,
        3,
    ),
    Leaves(
        HINTED,
        "p 0.1 1 2 + ;\np 0.2 0.1 2 * ;\ne 0.2\n",
        "p 0.1 1 2 + ;\np 0.2 0.1 2 * ;\nd 0.1\ne 0.2\n",
        2,
        2,
    ),
    Leaves(HINTED, "p 0.1 1 ;\nq\n", "q\n", 0, 1),
    Leaves(HINTED, "q\n", "q\n", 0, 0),
    Leaves(
        HINTED,
        "p 3.1 1 ;\nn 7 3.1\np 0.1 #7 2 + ;\ne 0.1\n",
        "p 0.1 1 ;\np 0.2 0.1 2 + ;\nd 0.1\ne 0.2\n",
        2,
        2,
    ),
    Leaves(
        HINTED,
        "p 3.1 1 ;\nn 7 3.1\nd 3.1\np 0.1 #7 2 + ;\nd #7\ne 0.1\n",
        "p 0.1 1 ;\np 0.2 0.1 2 + ;\nd 0.1\ne 0.2\n",
        2,
        2,
    ),
    Leaves(
        HINTED,
        "p 0.1 2 ;\np 0.2 1 ;\np 0.3 0.2 0.1 + 0.2 + 0.1 + ;\nd 0.1\nd 0.2\ne 0.3\n",
        "p 0.1 2 ;\np 0.2 1 ;\np 0.3 0.2 0.1 + 0.2 + 0.1 + ;\nd 0.1\nd 0.2\ne 0.3\n",
        3,
        3,
    ),
    Leaves(
        HINTED,
        "p 1.1 1 ;\np 2.1 1.1 2 + ;\np 1.2 1.1 ;\ne 2.1\n",
        "p 0.1 1 ;\np 0.2 0.1 2 + ;\nd 0.1\ne 0.2\n",
        2,
        3,
    ),
    Leaves(
        HINTED,
        "p 0.1 1 2 + ;\nn 5 0.1\ne #5\n",
        "p 0.1 1 2 + ;\ne 0.1\n",
        1,
        1,
    ),
    Leaves(PLAIN, "u 0.1 ;\ne 0.1\n", "u 0.1 ; 1 2 ;\ne 0.1\n", 1, 1),
    Leaves(
        PLAIN,
        "p 0.1 1 2 + ;\nu 0.2 x1 ;\nu 0.3 ;\ne 0.3\n",
        "u 0.1 ; 1 2 ;\ne 0.1\n",
        1,
        3,
    ),
    Leaves(PLAIN, "u 0.1 x1 ;\nq\n", "q\n", 0, 1),
];

#[test]
fn logs_are_trimmed(rt: HostRuntime) -> Result<(), Fail> {
    all_hold(&rt, rt.alloc(), &TRIMMED)
}

/// A log over `NOT_BOTH` behind its first two lines that is refused at this line, for this cause, and so is its trimming.
struct Refuses(&'static str, u64, Cause);

impl<R> Example<R> for Refuses {
    fn holds(&self, _rt: &R, alloc: Global) -> Result<bool, AllocError> {
        let log = with_head(alloc, HINTED, self.0)?;
        let Ok(model) = read_opb(alloc, NOT_BOTH) else {
            return Ok(false);
        };
        match trim(alloc, &model, &log) {
            Trimmed::Refused { line, cause } => Ok(line == self.1 && cause == self.2),
            _ => Ok(false),
        }
    }
}

static REFUSED: [Refuses; 3] = [
    Refuses("p 0.1 1 ;\nd 0.1\np 0.2 0.1 ;\n", 5, Cause::NoSuchName),
    Refuses("e 1\n", 3, Cause::NotFalse),
    Refuses("p 0.1 1 ;\n", 4, Cause::EndsEarly),
];

#[test]
fn refused_logs_are_not_trimmed(rt: HostRuntime) -> Result<(), Fail> {
    all_hold(&rt, rt.alloc(), &REFUSED)
}

/// How much is kept of a log over a model, if what is left is accepted as the log is and nothing more is left of that.
fn kept_twice(alloc: Global, model: &[u8], log: &[u8]) -> Option<(usize, usize)> {
    let Ok(model) = read_opb(alloc, model) else {
        return None;
    };
    let Trimmed::Kept(left) = trim(alloc, &model, log) else {
        return None;
    };
    if check(alloc, &model, left.text.as_slice()) != check(alloc, &model, log) {
        return None;
    }
    let Trimmed::Kept(again) = trim(alloc, &model, left.text.as_slice()) else {
        return None;
    };
    if again.text.as_slice() != left.text.as_slice() {
        return None;
    }
    Some((left.kept, left.made))
}

#[test]
fn a_whole_log_is_kept(rt: HostRuntime) -> Result<(), Fail> {
    let alloc = rt.alloc();
    let hinted = kept_twice(alloc, TRIANGLE_INTO_CYCLE, NO_TRIANGLE);
    let plain = kept_twice(alloc, TRIANGLE_INTO_CYCLE, NO_TRIANGLE_WITHOUT_HINTS);
    assert!(rt; hinted == Some((13, 13)));
    assert!(rt; plain.is_some());
    Ok(())
}
