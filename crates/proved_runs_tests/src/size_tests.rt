//! Logs of small problems by one worker, and how many bytes they may have.
//!
//! No contract refuses a line that is made twice, one that names more than its end rests on, or a filter that takes
//! nothing: the answers are the same. Each row allows the bytes that its log has, and a few more. Where a test in the
//! search, or in the walk back from a dead path, always answers no, one of the logs is longer.

use crate::judged::{Asked, proves_so};
use memory_runs::{CLEAN, Judge, Ran};
use std::alloc::{AllocError, Global};
use std::sync::Wait;
use std::test::Fail;
use std::thread::Threads;
use test_support::none_wrong;

/// Thirteen vertices of three labels.
const LABELLED_PATTERN: &str = "13
0 1 8
2 2 4 8
2 1 7
2 2 9 10
0 3 1 6 9
0 0
1 3 4 7 11
0 3 2 6 12
0 4 0 1 10 11
0 2 3 4
1 3 3 8 11
2 3 6 8 10
0 1 7
";

/// Twenty-eight vertices of three labels.
const LABELLED_TARGET: &str = "28
1 9 4 8 9 12 13 15 17 19 22
1 9 10 11 14 15 19 20 21 22 23
1 8 8 10 11 12 18 19 22 23
1 9 5 8 9 10 12 14 18 19 20
1 7 0 8 9 16 19 22 27
1 9 3 10 14 19 20 21 23 25 26
2 10 14 15 16 18 19 20 21 25 26 27
1 8 8 10 11 15 19 21 22 23
0 9 0 2 3 4 7 12 17 23 27
2 13 0 3 4 12 13 14 16 19 22 23 25 26 27
1 12 1 2 3 5 7 11 16 17 19 20 24 27
1 13 1 2 7 10 14 17 18 19 20 23 24 25 26
2 11 0 2 3 8 9 15 17 18 19 20 23
2 4 0 9 15 23
0 8 1 3 5 6 9 11 15 22
1 13 0 1 6 7 12 13 14 16 17 18 20 24 25
1 7 4 6 9 10 15 19 26
1 9 0 8 10 11 12 15 21 23 27
2 11 2 3 6 11 12 15 20 21 24 25 26
2 18 0 1 2 3 4 5 6 7 9 10 11 12 16 20 21 23 24 27
0 15 1 3 5 6 10 11 12 15 18 19 21 22 24 25 26
0 9 1 5 6 7 17 18 19 20 26
2 10 0 1 2 4 7 9 14 20 25 27
1 14 1 2 5 7 8 9 11 12 13 17 19 24 25 26
0 8 10 11 15 18 19 20 23 27
0 11 5 6 9 11 15 18 20 22 23 26 27
0 10 5 6 9 11 16 18 20 21 23 25
1 10 4 6 8 9 10 17 19 22 24 25
";

/// Eleven vertices of two labels, two of them apart.
const SPARSE_PATTERN: &str = "11
0 1 10
0 1 8
1 2 9 10
1 1 6
0 1 10
1 0
1 1 3
1 0
0 2 1 9
0 2 2 8
1 3 0 2 4
";

/// Twenty-six vertices of two labels.
const SPARSE_TARGET: &str = "26
0 6 2 3 4 5 14 23
1 4 2 3 21 23
1 8 0 1 7 9 16 18 19 23
0 5 0 1 5 16 20
1 5 0 6 10 18 23
0 6 0 3 9 18 19 23
1 6 4 14 16 19 21 23
0 5 2 8 15 21 22
1 5 7 14 16 24 25
1 5 2 5 13 14 20
0 5 4 15 16 21 25
1 2 16 22
1 4 14 18 21 24
0 6 9 16 18 19 20 23
1 8 0 6 8 9 12 15 19 21
1 5 7 10 14 16 24
0 9 2 3 6 8 10 11 13 15 20
1 2 21 23
0 5 2 4 5 12 13
0 7 2 5 6 13 14 23 24
1 4 3 9 13 16
0 7 1 6 7 10 12 14 17
1 4 7 11 23 25
1 11 0 1 2 4 5 6 13 17 19 22 25
1 4 8 12 15 19
1 4 8 10 22 23
";

/// Words by which a log is written, two graphs without an embedding, and how many bytes the log has at most.
struct Small {
    line: &'static str,
    pattern: &'static str,
    target: &'static str,
    most: usize,
}

impl Judge for Small {
    fn judges(&self, ran: &Ran) -> bool {
        ran.gave(1, "none\n", "") && ran.file("l").len() <= self.most
    }
}

/// Whether the run of a row ends so.
fn holds<R: Threads + Wait + Sync>(rt: &R, alloc: Global, row: &Small) -> Result<bool, AllocError> {
    let asked = Asked(row.line, row.pattern, row.target);
    proves_so(rt, alloc, &asked, CLEAN, row)
}

/// The place, from 0, of the first row that does not hold.
fn first_wrong<R: Threads + Wait + Sync>(
    rt: &R,
    alloc: Global,
    rows: &[Small],
) -> Result<Option<usize>, AllocError> {
    for (at, row) in rows.iter().enumerate() {
        if !holds(rt, alloc, row)? {
            return Ok(Some(at));
        }
    }
    Ok(None)
}

static SMALL: [Small; 8] = [
    // pairs in order: what a value rests on that an order or an edge has taken, what stays needed behind a guess,
    // and which values are consistent anyway
    Small {
        line: "subgraph solve p t --less 1,0:2,1 --prove e --log l",
        pattern: "5\n3 1 2 4\n3 0 3 4\n2 0 3\n3 1 2 4\n3 0 1 3\n",
        target: "8\n3 2 4 5\n4 2 4 6 7\n4 0 1 5 6\n0\n3 0 1 5\n5 0 2 4 6 7\n3 1 2 5\n2 1 5\n",
        most: 1250,
    },
    // edges with directions, and shared neighbours along them and against them
    Small {
        line: "subgraph solve p t --format directedlad --prove e --log l",
        pattern: "6\n0\n2 2 3\n3 0 3 4\n2 1 4\n4 0 1 2 5\n1 3\n",
        target: "8\n6 2 3 4 5 6 7\n3 4 5 6\n2 0 4\n0\n4 0 2 3 5\n4 0 2 4 7\n3 0 3 5\n2 2 3\n",
        most: 2260,
    },
    // a pair in order along edges
    Small {
        line: "subgraph solve p t --format directedlad --less 0,1:1,2 --prove e --log l",
        pattern: "4\n1 3\n1 2\n1 1\n0\n",
        target: "5\n2 3 4\n1 0\n3 0 1 3\n0\n1 1\n",
        most: 150,
    },
    // the induced kind: a line for two vertices at a place is made once
    Small {
        line: "subgraph solve p t --induced --prove e --log l",
        pattern: "4\n2 1 2\n1 0\n1 0\n0\n",
        target: "5\n1 2\n2 3 4\n2 0 4\n2 1 4\n3 1 2 3\n",
        most: 840,
    },
    // local maps: lines of sets and of first domains are made once, and a set that has taken nothing needed is not
    // named
    Small {
        line: "subgraph solve p t --map local --prove e --log l",
        pattern: "6\n2 4 5\n4 2 3 4 5\n3 1 3 5\n3 1 2 5\n2 0 1\n4 0 1 2 3\n",
        target: "7\n3 1 3 5\n4 0 2 5 6\n3 1 3 5\n3 0 2 5\n2 5 6\n6 0 1 2 3 4 6\n3 1 4 5\n",
        most: 1500,
    },
    // local maps: the same of a set whose values leave all that a vertex needs
    Small {
        line: "subgraph solve p t --map local --prove e --log l",
        pattern: "6\n4 1 2 4 5\n5 0 2 3 4 5\n4 0 1 3 5\n4 1 2 4 5\n4 0 1 3 5\n5 0 1 2 3 4\n",
        target: "8\n2 1 3\n5 0 2 4 6 7\n2 1 6\n4 0 5 6 7\n4 1 5 6 7\n4 3 4 6 7\n5 1 2 3 4 5\n4 1 3 4 5\n",
        most: 1540,
    },
    // labels: after the first restart values leave that have no support along edges
    Small {
        line: "subgraph solve p t --format vertexlabelledlad --prove e --log l",
        pattern: LABELLED_PATTERN,
        target: LABELLED_TARGET,
        most: 15110,
    },
    // the induced kind with labels: after it neighbours would be crowded, and nogoods are named
    Small {
        line: "subgraph solve p t --format vertexlabelledlad --induced --prove e --log l",
        pattern: SPARSE_PATTERN,
        target: SPARSE_TARGET,
        most: 33780,
    },
];

#[test]
fn logs_stay_small(rt: HostRuntime) -> Result<(), Fail> {
    none_wrong(first_wrong(&rt, rt.alloc(), &SMALL)?)
}
