//! Worked logs without hints.

use crate::checker_tests::Expected::{self, Is, Stops};
use crate::checker_tests::{Whole, is_judged, with_head};
use log_theory::{Cause, Verdict};
use std::alloc::{AllocError, Global};
use std::test::Fail;
use test_support::models::{
    NO_TRIANGLE_WITHOUT_HINTS, NOT_BOTH, OPEN, THREE_INTO_TWO, TRIANGLE_INTO_CYCLE,
};
use test_support::{Example, all_hold};

/// A model of two constraints, what is behind the first two lines of a log over it, and what is expected.
struct Behind(&'static [u8], &'static str, Expected);

impl<R> Example<R> for Behind {
    fn holds(&self, _rt: &R, alloc: Global) -> Result<bool, AllocError> {
        let log = with_head(alloc, b"embedding proof 2\nm 2\n", self.1)?;
        Ok(is_judged(alloc, self.0, &log, self.2))
    }
}

static SHORT: [Behind; 20] = [
    Behind(NOT_BOTH, "u 0.1 ;\ne 0.1\n", Is(Verdict::Unsatisfiable)),
    Behind(
        NOT_BOTH,
        "p 0.1 1 2 + ;\ne 0.1\n",
        Is(Verdict::Unsatisfiable),
    ),
    Behind(
        NOT_BOTH,
        "u 0.1 ~x1 ;\nu 0.2 x1 ;\nq\n",
        Is(Verdict::Undecided),
    ),
    Behind(NOT_BOTH, "u 0.1 ; 2 ;\n", Stops(3, Cause::Form)),
    Behind(NOT_BOTH, "u 0.1 ; ;\n", Stops(3, Cause::Form)),
    Behind(NOT_BOTH, "u 0.1 x1\n", Stops(3, Cause::Form)),
    Behind(NOT_BOTH, "u 0.1 x2 ;\n", Stops(3, Cause::Form)),
    Behind(NOT_BOTH, "u 0.1 ;\nu 0.1 ;\n", Stops(4, Cause::NameUsed)),
    Behind(NOT_BOTH, "u 0.2 x1 x1 ;\n", Stops(3, Cause::Order)),
    Behind(NOT_BOTH, "u 0.1 x1 ~x1 ;\n", Stops(3, Cause::Twice)),
    Behind(NOT_BOTH, "embedding proof 2\n", Stops(3, Cause::Form)),
    Behind(OPEN, "u 0.1 ;\n", Stops(3, Cause::NoConflict)),
    Behind(OPEN, "u 0.1 x1 ;\nq\n", Is(Verdict::Undecided)),
    // What a line made is there for the next one, and what it assumed is not.
    Behind(
        OPEN,
        "u 0.1 x1 ;\nu 0.2 x1 x2 ;\nq\n",
        Is(Verdict::Undecided),
    ),
    Behind(
        OPEN,
        "u 0.1 x1 ;\nu 0.2 x2 ;\n",
        Stops(4, Cause::NoConflict),
    ),
    Behind(
        OPEN,
        "p 0.1 1 ;\nn 3 0.1\nu 0.2 x1 ;\nq\n",
        Is(Verdict::Undecided),
    ),
    Behind(
        OPEN,
        "u 0.1 x1 ;\nu 0.2 x1 ;\nd 0.1\nd 0.2\nu 0.3 x1 ;\nu 0.4 x2 ;\n",
        Stops(8, Cause::NoConflict),
    ),
    Behind(
        NOT_BOTH,
        "u 0.1 ;\nd 0.1\nu 0.1 ;\n",
        Stops(5, Cause::NameUsed),
    ),
    Behind(
        NOT_BOTH,
        "u 0.1 ;\nd 0.1\nu 0.3 ;\n",
        Stops(5, Cause::Order),
    ),
    Behind(NOT_BOTH, "d 1\n", Stops(3, Cause::Form)),
];

#[test]
fn short_logs_without_hints(rt: HostRuntime) -> Result<(), Fail> {
    all_hold(&rt, rt.alloc(), &SHORT)
}

static DELETED: [Whole; 8] = [
    Whole {
        model: THREE_INTO_TWO,
        log: b"embedding proof 2\nm 8\nu 0.1 ~x1 ;\nu 0.2 ;\ne 0.2\n",
        verdict: Is(Verdict::Unsatisfiable),
    },
    Whole {
        model: THREE_INTO_TWO,
        log: b"embedding proof 2\nm 8\nu 0.1 ~x1 ;\nd 0.1\nu 0.2 ;\n",
        verdict: Stops(5, Cause::NoConflict),
    },
    // What is deleted propagates on by its row, and what loses its row by its name; without both it does not.
    Whole {
        model: THREE_INTO_TWO,
        log: b"embedding proof 2\nm 8\nu 0.1 ~x1 ;\nn 7 0.1\nd 0.1\nu 0.2 ;\ne 0.2\n",
        verdict: Is(Verdict::Unsatisfiable),
    },
    Whole {
        model: THREE_INTO_TWO,
        log: b"embedding proof 2\nm 8\nu 0.1 ~x1 ;\nn 7 0.1\nd #7\nu 0.2 ;\ne 0.2\n",
        verdict: Is(Verdict::Unsatisfiable),
    },
    Whole {
        model: THREE_INTO_TWO,
        log: b"embedding proof 2\nm 8\nu 0.1 ~x1 ;\nn 7 0.1\nd #7\nd 0.1\nu 0.2 ;\n",
        verdict: Stops(7, Cause::NoConflict),
    },
    // What lasted from line to line is forgotten with the constraint that it came from, and with a conflict.
    Whole {
        model: THREE_INTO_TWO,
        log: b"embedding proof 2\nm 8\nu 0.1 ~x1 ;\nu 0.2 ~x1 x6 ;\nd 0.1\nd 0.2\nu 0.3 ;\n",
        verdict: Stops(7, Cause::NoConflict),
    },
    Whole {
        model: THREE_INTO_TWO,
        log: b"embedding proof 2\nm 8\nu 0.1 ~x1 ;\nu 0.2 ;\nd 0.2\nd 0.1\nu 0.3 ;\n",
        verdict: Stops(7, Cause::NoConflict),
    },
    Whole {
        model: THREE_INTO_TWO,
        log: b"embedding proof 2\nm 8\nu 0.1 ~x1 ;\nu 0.2 ~x3 ;\nd 0.1\nu 0.3 ;\ne 0.3\n",
        verdict: Is(Verdict::Unsatisfiable),
    },
];

#[test]
fn deletions_without_hints(rt: HostRuntime) -> Result<(), Fail> {
    all_hold(&rt, rt.alloc(), &DELETED)
}

// Neither pigeons nor triangles are refuted by propagation alone.
static WHOLE: [Whole; 4] = [
    Whole {
        model: THREE_INTO_TWO,
        log: b"embedding proof 2\nm 8\np 0.1 1 3 + 5 + 7 + 8 + 3 d ;\ne 0.1\n",
        verdict: Is(Verdict::Unsatisfiable),
    },
    Whole {
        model: THREE_INTO_TWO,
        log: b"embedding proof 2\nm 8\nu 0.1 ~x1 ;\nu 0.2 ;\ne 0.2\n",
        verdict: Is(Verdict::Unsatisfiable),
    },
    Whole {
        model: THREE_INTO_TWO,
        log: b"embedding proof 2\nm 8\nu 0.1 ;\n",
        verdict: Stops(3, Cause::NoConflict),
    },
    Whole {
        model: TRIANGLE_INTO_CYCLE,
        log: NO_TRIANGLE_WITHOUT_HINTS,
        verdict: Is(Verdict::Unsatisfiable),
    },
];

#[test]
fn whole_logs_without_hints(rt: HostRuntime) -> Result<(), Fail> {
    all_hold(&rt, rt.alloc(), &WHOLE)
}
