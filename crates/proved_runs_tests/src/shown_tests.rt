//! Answers of `solve`, and the files that show them.

use crate::judged::{Asked, checks_so, leaves};
use crate::proof_tests::{HEAD, REFUTATION};
use memory_runs::{CLEAN, EDGE, FOUR_CYCLE, Gives, Judge, Ran, TRIANGLE};
use std::alloc::{AllocError, Global};
use std::sync::Wait;
use std::test::Fail;
use std::thread::Threads;
use test_support::none_wrong;

/// The log of a triangle in a cycle of four vertices, by one worker, to the letter, without hints.
const WITHOUT_HINTS: &str = "embedding proof 2
m 34
p 1.1 4 2 * 12 + 3 * 16 + 31 + 33 + ;
u 1.2 ~x2 ;
p 1.3 4 2 * 11 + 3 * 15 + 32 + 34 + ;
u 1.4 ~x1 ;
p 1.5 4 2 * 14 + 3 * 18 + 31 + 33 + ;
u 1.6 ~x4 ;
p 1.7 4 2 * 13 + 3 * 17 + 32 + 34 + ;
u 1.8 ~x3 ;
u 1.9 ;
e 1.9
";

/// A path of three vertices.
const PATH: &str = "3\n1 1\n2 0 2\n1 1\n";

/// Five vertices, each beside all others.
const FIVE: &str = "5\n4 1 2 3 4\n4 0 2 3 4\n4 0 1 3 4\n4 0 1 2 4\n4 0 1 2 3\n";

/// Eight vertices, each beside all others but one, so that no five are beside each other: the search for five restarts.
const FOUR_PAIRS: &str =
    "8\n6 2 3 4 5 6 7\n6 2 3 4 5 6 7\n6 0 1 4 5 6 7\n6 0 1 4 5 6 7\n6 0 1 2 3 6 7\n6 0 1 2 3 6 7\n6 0 1 2 3 4 5\n6 0 1 2 3 4 5\n";

/// The first line of the encoding of a triangle in a cycle of four vertices.
const FIRST_LINE: &str = "* #variable= 12 #constraint= 34\n";

/// An answer, and what shows it.
struct Shown {
    line: &'static str,
    pattern: &'static str,
    target: &'static str,
    status: u8,
    out: &'static str,
    /// The first lines of the encoding.
    encoding: &'static str,
    /// The front of the log, or all of it.
    log: &'static str,
    /// What a check of the log tells.
    told: &'static str,
}

impl Judge for Shown {
    fn judges(&self, ran: &Ran) -> bool {
        ran.gave(self.status, self.out, "")
            && ran.file("e").starts_with(self.encoding.as_bytes())
            && ran.file("l").starts_with(self.log.as_bytes())
    }
}

/// Whether the runs of a row end so: it gave the answer, its files begin as the row tells, and a check of the log over the encoding ends so.
fn holds<R: Threads + Wait + Sync>(rt: &R, alloc: Global, row: &Shown) -> Result<bool, AllocError> {
    let asked = Asked(row.line, row.pattern, row.target);
    let it = leaves(rt, alloc, &asked, CLEAN, row)?;
    let judge = Gives(0, row.told, "");
    Ok(it.is_so && checks_so(rt, alloc, &it.encoding, &it.log, &judge)?)
}

/// The place, from 0, of the first row that does not hold.
fn first_wrong<R: Threads + Wait + Sync>(
    rt: &R,
    alloc: Global,
    rows: &[Shown],
) -> Result<Option<usize>, AllocError> {
    for (at, row) in rows.iter().enumerate() {
        if !holds(rt, alloc, row)? {
            return Ok(Some(at));
        }
    }
    Ok(None)
}

static SHOWN: [Shown; 26] = [
    Shown {
        line: "subgraph solve p t --book 0 --prove e --log l",
        pattern: FIVE,
        target: FOUR_PAIRS,
        status: 1,
        out: "none\n",
        encoding: "* #variable= 40 ",
        log: "embedding proof 1\n",
        told: "accepted unsatisfiable\n",
    },
    Shown {
        line: "subgraph solve p t --book 1 --prove e --log l",
        pattern: FIVE,
        target: FOUR_PAIRS,
        status: 1,
        out: "none\n",
        encoding: "* #variable= 40 ",
        log: "embedding proof 1\n",
        told: "accepted unsatisfiable\n",
    },
    Shown {
        line: "subgraph solve p t --book 5 --prove e --log l",
        pattern: FIVE,
        target: FOUR_PAIRS,
        status: 1,
        out: "none\n",
        encoding: "* #variable= 40 ",
        log: "embedding proof 1\n",
        told: "accepted unsatisfiable\n",
    },
    Shown {
        line: "subgraph solve p t --book 1 --prove e --log l --threads 3",
        pattern: FIVE,
        target: FOUR_PAIRS,
        status: 1,
        out: "none\n",
        encoding: "* #variable= 40 ",
        log: "embedding proof 1\n",
        told: "accepted unsatisfiable\n",
    },
    Shown {
        line: "subgraph solve p t --prove e --log l",
        pattern: TRIANGLE,
        target: FOUR_CYCLE,
        status: 1,
        out: "none\n",
        encoding: FIRST_LINE,
        log: REFUTATION,
        told: "accepted unsatisfiable\n",
    },
    Shown {
        line: "subgraph solve p t --prove e --log l --threads 8",
        pattern: TRIANGLE,
        target: FOUR_CYCLE,
        status: 1,
        out: "none\n",
        encoding: FIRST_LINE,
        log: HEAD,
        told: "accepted unsatisfiable\n",
    },
    Shown {
        line: "subgraph solve p t --prove e --log l --threads 64",
        pattern: TRIANGLE,
        target: FOUR_CYCLE,
        status: 1,
        out: "none\n",
        encoding: FIRST_LINE,
        log: HEAD,
        told: "accepted unsatisfiable\n",
    },
    Shown {
        line: "subgraph solve p t --prove e --log l --threads 64",
        pattern: "3\n0\n0\n0\n",
        target: "2\n0\n0\n",
        status: 1,
        out: "none\n",
        encoding: "* #variable= 6 #constraint= 8\n",
        log: "embedding proof 1\nm 8\n",
        told: "accepted unsatisfiable\n",
    },
    Shown {
        line: "subgraph solve p t --prove e --log l",
        pattern: "1\n0\n",
        target: "0\n",
        status: 1,
        out: "none\n",
        encoding: "* #variable= 0 #constraint= 2\n>= 1 ;\n>= -1 ;\n",
        log: "embedding proof 1\nm 2\n",
        told: "accepted unsatisfiable\n",
    },
    Shown {
        line: "subgraph solve p t --prove e --log l",
        pattern: "1\n1 0\n",
        target: "2\n0\n1 1\n",
        status: 0,
        out: "yes\n0 -> 1\n",
        encoding: "* #variable= 2 #constraint= 5\n",
        log: "embedding proof 1\nm 5\ny x2\n",
        told: "accepted satisfiable\n",
    },
    Shown {
        line: "subgraph solve p t --log l --threads 64 --prove e",
        pattern: "0\n",
        target: "0\n",
        status: 0,
        out: "yes\n",
        encoding: "* #variable= 0 #constraint= 0\n",
        log: "embedding proof 1\nm 0\ny\n",
        told: "accepted satisfiable\n",
    },
    Shown {
        line: "subgraph solve p t --induced --prove e --log l",
        pattern: "1\n0\n",
        target: "2\n0\n1 1\n",
        status: 0,
        out: "yes\n0 -> 0\n",
        encoding: "* #variable= 2 #constraint= 5\n",
        log: "embedding proof 1\nm 5\ny x1\n",
        told: "accepted satisfiable\n",
    },
    Shown {
        line: "subgraph solve p t --budget 3 --prove e --log l",
        pattern: TRIANGLE,
        target: FOUR_CYCLE,
        status: 2,
        out: "unknown\n",
        encoding: FIRST_LINE,
        log: "embedding proof 1\nm 34\nq\n",
        told: "accepted undecided\n",
    },
    Shown {
        line: "subgraph solve p t --prove e --log l --profile 2",
        pattern: TRIANGLE,
        target: FOUR_CYCLE,
        status: 1,
        out: "none\n",
        encoding: FIRST_LINE,
        log: WITHOUT_HINTS,
        told: "accepted unsatisfiable\n",
    },
    Shown {
        line: "subgraph solve p t --prove e --log l --threads 8 --profile 2",
        pattern: TRIANGLE,
        target: FOUR_CYCLE,
        status: 1,
        out: "none\n",
        encoding: FIRST_LINE,
        log: "embedding proof 2\nm 34\n",
        told: "accepted unsatisfiable\n",
    },
    Shown {
        line: "subgraph solve p t --profile 1 --prove e --log l",
        pattern: TRIANGLE,
        target: FOUR_CYCLE,
        status: 1,
        out: "none\n",
        encoding: FIRST_LINE,
        log: REFUTATION,
        told: "accepted unsatisfiable\n",
    },
    Shown {
        line: "subgraph solve p t --budget 3 --profile 2 --prove e --log l",
        pattern: TRIANGLE,
        target: FOUR_CYCLE,
        status: 2,
        out: "unknown\n",
        encoding: FIRST_LINE,
        log: "embedding proof 2\nm 34\nq\n",
        told: "accepted undecided\n",
    },
    Shown {
        line: "subgraph solve p t --format directedlad --prove e --log l",
        pattern: "3\n1 1\n1 2\n1 0\n",
        target: "3\n2 1 2\n1 2\n0\n",
        status: 1,
        out: "none\n",
        encoding: "* #variable= 9 #constraint= ",
        log: "embedding proof 1\n",
        told: "accepted unsatisfiable\n",
    },
    Shown {
        line: "subgraph solve p t --format directedlad --prove e --log l",
        pattern: "3\n2 1 2\n0\n0\n",
        target: "3\n0\n1 0\n1 0\n",
        status: 1,
        out: "none\n",
        encoding: "* #variable= 9 #constraint= ",
        log: "embedding proof 1\n",
        told: "accepted unsatisfiable\n",
    },
    Shown {
        line: "subgraph solve p t --format labelledlad --prove e --log l",
        pattern: "2\n5 1 1 7\n6 0\n",
        target: "2\n6 0\n5 1 0 8\n",
        status: 1,
        out: "none\n",
        encoding: "* #variable= 4 #constraint= ",
        log: "embedding proof 1\n",
        told: "accepted unsatisfiable\n",
    },
    Shown {
        line: "subgraph solve p t --map local --prove e --log l",
        pattern: PATH,
        target: EDGE,
        status: 1,
        out: "none\n",
        encoding: "* #variable= 6 #constraint= 16\n",
        log: "embedding proof 1\nm 16\n",
        told: "accepted unsatisfiable\n",
    },
    Shown {
        line: "subgraph solve p t --map local --threads 8 --profile 2 --prove e --log l",
        pattern: FOUR_CYCLE,
        target: TRIANGLE,
        status: 1,
        out: "none\n",
        encoding: "* #variable= 12 #constraint= ",
        log: "embedding proof 2\n",
        told: "accepted unsatisfiable\n",
    },
    Shown {
        line: "subgraph solve p t --map local --prove e --log l",
        pattern: TRIANGLE,
        target: "1\n1 0\n",
        status: 1,
        out: "none\n",
        encoding: "* #variable= 3 #constraint= ",
        log: "embedding proof 1\n",
        told: "accepted unsatisfiable\n",
    },
    Shown {
        line: "subgraph solve p t --map any --prove e --log l",
        pattern: TRIANGLE,
        target: FOUR_CYCLE,
        status: 1,
        out: "none\n",
        encoding: "* #variable= 12 #constraint= 30\n",
        log: "embedding proof 1\nm 30\n",
        told: "accepted unsatisfiable\n",
    },
    Shown {
        line: "subgraph solve p t --less 0,1:1,0 --prove e --log l",
        pattern: EDGE,
        target: EDGE,
        status: 1,
        out: "none\n",
        encoding: "* #variable= 4 #constraint= 18\n",
        log: "embedding proof 1\nm 18\n",
        told: "accepted unsatisfiable\n",
    },
    Shown {
        line: "subgraph solve p t --map any --less 2,1:1,0 --prove e --log l",
        pattern: TRIANGLE,
        target: TRIANGLE,
        status: 0,
        out: "yes\n0 -> 2\n1 -> 1\n2 -> 0\n",
        encoding: "* #variable= 9 #constraint= ",
        log: "embedding proof 1\n",
        told: "accepted satisfiable\n",
    },
];

#[test]
fn each_answer_is_shown(rt: HostRuntime) -> Result<(), Fail> {
    none_wrong(first_wrong(&rt, rt.alloc(), &SHOWN)?)
}
