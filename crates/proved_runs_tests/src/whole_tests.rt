//! Logs that are checked over the encodings that the program writes.

use crate::judged::{Asked, checks_so, encoding};
use memory_runs::{EDGE, FOUR_CYCLE, Gives, Judge, Ran, TRIANGLE};
use std::alloc::{AllocError, Global};
use std::sync::Wait;
use std::test::Fail;
use std::thread::Threads;
use test_support::models::{NO_TRIANGLE, NO_TRIANGLE_WITHOUT_HINTS};
use test_support::none_wrong;

/// A refutation of three vertices in two: each of the three has an image, and each of the two is the image of one.
const NO_THIRD: &[u8] = b"embedding proof 1\nm 8\np 0.1 1 3 + 5 + 7 + 8 + 3 d ;\ne 0.1\n";

/// Words, two graphs, and what a check writes of a log over the encoding that the words come to.
struct Whole {
    line: &'static str,
    pattern: &'static str,
    target: &'static str,
    log: &'static [u8],
    status: u8,
    out: &'static str,
    err: &'static str,
}

impl Judge for Whole {
    fn judges(&self, ran: &Ran) -> bool {
        ran.gave(self.status, self.out, self.err)
    }
}

/// Whether the runs of a row end so.
fn holds<R: Threads + Wait + Sync>(rt: &R, alloc: Global, row: &Whole) -> Result<bool, AllocError> {
    let (status, encoded) = encoding(rt, alloc, &Asked(row.line, row.pattern, row.target))?;
    Ok(status == 0 && checks_so(rt, alloc, &encoded, row.log, row)?)
}

/// The place, from 0, of the first row that does not hold.
fn first_wrong<R: Threads + Wait + Sync>(
    rt: &R,
    alloc: Global,
    rows: &[Whole],
) -> Result<Option<usize>, AllocError> {
    for (at, row) in rows.iter().enumerate() {
        if !holds(rt, alloc, row)? {
            return Ok(Some(at));
        }
    }
    Ok(None)
}

static WHOLE: [Whole; 8] = [
    Whole {
        line: "subgraph encode p t",
        pattern: "0\n",
        target: "0\n",
        log: b"embedding proof 1\nm 0\ny\n",
        status: 0,
        out: "accepted satisfiable\n",
        err: "",
    },
    Whole {
        line: "subgraph encode p t",
        pattern: "1\n0\n",
        target: "0\n",
        log: b"embedding proof 1\nm 2\ne 1\n",
        status: 0,
        out: "accepted unsatisfiable\n",
        err: "",
    },
    Whole {
        line: "subgraph encode p t",
        pattern: "3\n0\n0\n0\n",
        target: "2\n0\n0\n",
        log: NO_THIRD,
        status: 0,
        out: "accepted unsatisfiable\n",
        err: "",
    },
    Whole {
        line: "subgraph encode p t",
        pattern: TRIANGLE,
        target: FOUR_CYCLE,
        log: NO_TRIANGLE,
        status: 0,
        out: "accepted unsatisfiable\n",
        err: "",
    },
    Whole {
        line: "subgraph encode p t",
        pattern: TRIANGLE,
        target: FOUR_CYCLE,
        log: NO_TRIANGLE_WITHOUT_HINTS,
        status: 0,
        out: "accepted unsatisfiable\n",
        err: "",
    },
    Whole {
        line: "subgraph encode p t",
        pattern: "1\n1 0\n",
        target: "2\n0\n1 1\n",
        log: b"embedding proof 1\nm 5\ny x2\n",
        status: 0,
        out: "accepted satisfiable\n",
        err: "",
    },
    Whole {
        line: "subgraph encode p t --induced",
        pattern: "1\n0\n",
        target: "2\n0\n1 1\n",
        log: b"embedding proof 1\nm 5\ny x1\n",
        status: 0,
        out: "accepted satisfiable\n",
        err: "",
    },
    // one step is missing
    Whole {
        line: "subgraph encode p t",
        pattern: EDGE,
        target: EDGE,
        log: b"embedding proof 1\nm 10\nu 0.1 ; 1 ;\ne 0.1\n",
        status: 7,
        out: "",
        err: "log: line 3: NoConflict\n",
    },
];

#[test]
fn each_log_is_accepted_over_the_encoding_or_refused(rt: HostRuntime) -> Result<(), Fail> {
    none_wrong(first_wrong(&rt, rt.alloc(), &WHOLE)?)
}

/// Whether a front of a log over the encoding ends early at this line.
fn ends_early<R: Threads + Wait + Sync>(
    rt: &R,
    alloc: Global,
    encoded: &[u8],
    front: &[u8],
    line: u64,
) -> Result<bool, AllocError> {
    let told = format!(in alloc; "log: line {line}: EndsEarly\n")?;
    let judge = Gives(7, "", told.as_str());
    checks_so(rt, alloc, encoded, front, &judge)
}

/// How many bytes the first front of a log has that does not end early, at the line after its last whole one.
fn first_front_that_ends<R: Threads + Wait + Sync>(
    rt: &R,
    alloc: Global,
    encoded: &[u8],
    log: &[u8],
) -> Result<usize, AllocError> {
    let mut line: u64 = 1;
    for n in 0..log.len() {
        if !ends_early(rt, alloc, encoded, &log[..n], line)? {
            return Ok(n);
        }
        if log[n] == b'\n' {
            line = line.wrapping_add(1);
        }
    }
    Ok(log.len())
}

/// Whether each front of a log over the encoding of a triangle in a cycle of four ends early.
fn is_whole_at_last<R: Threads + Wait + Sync>(
    rt: &R,
    alloc: Global,
    log: &[u8],
) -> Result<bool, AllocError> {
    let asked = Asked("subgraph encode p t", TRIANGLE, FOUR_CYCLE);
    let (_, encoded) = encoding(rt, alloc, &asked)?;
    Ok(first_front_that_ends(rt, alloc, &encoded, log)? == log.len())
}

#[test]
fn each_front_of_a_log_ends_early_with_hints_and_without(rt: HostRuntime) -> Result<(), Fail> {
    assert!(rt; is_whole_at_last(&rt, rt.alloc(), NO_TRIANGLE)?);
    assert!(rt; is_whole_at_last(&rt, rt.alloc(), NO_TRIANGLE_WITHOUT_HINTS)?);
    Ok(())
}
