//! What `check` answers.

use crate::judged::checks_so;
use memory_runs::{CLEAN, Gives, Judge, Ran, is_judged, parts};
use std::alloc::{AllocError, Global};
use std::sync::Wait;
use std::test::Fail;
use std::thread::Threads;
use test_support::none_wrong;

/// A model of one variable that is one and is not.
const BOTH_WAYS: &str = "* #variable= 1 #constraint= 2\n+1 x1 >= 1 ;\n-1 x1 >= 0 ;\n";

/// An encoding, a log over it, and what its check ends with: its status, its output and its error line.
struct Checked(&'static str, &'static str, u8, &'static str, &'static str);

impl Judge for Checked {
    fn judges(&self, ran: &Ran) -> bool {
        ran.gave(self.2, self.3, self.4)
    }
}

/// Whether the run of a row ends so.
fn holds<R: Threads + Wait + Sync>(
    rt: &R,
    alloc: Global,
    row: &Checked,
) -> Result<bool, AllocError> {
    checks_so(rt, alloc, row.0.as_bytes(), row.1.as_bytes(), row)
}

/// The place, from 0, of the first row that does not hold.
fn first_wrong<R: Threads + Wait + Sync>(
    rt: &R,
    alloc: Global,
    rows: &[Checked],
) -> Result<Option<usize>, AllocError> {
    for (at, row) in rows.iter().enumerate() {
        if !holds(rt, alloc, row)? {
            return Ok(Some(at));
        }
    }
    Ok(None)
}

/// That all rows hold, or which is the first that does not, as the failure of a test.
fn all_hold<R: Threads + Wait + Sync>(rt: &R, alloc: Global, rows: &[Checked]) -> Result<(), Fail> {
    none_wrong(first_wrong(rt, alloc, rows)?)
}

static CHECKED: [Checked; 19] = [
    Checked(
        "* #variable= 0 #constraint= 0\n",
        "embedding proof 1\nm 0\ny\n",
        0,
        "accepted satisfiable\n",
        "",
    ),
    Checked(
        "* #variable= 0 #constraint= 2\n>= 1 ;\n>= -1 ;\n",
        "embedding proof 1\nm 2\ne 1\n",
        0,
        "accepted unsatisfiable\n",
        "",
    ),
    Checked(
        BOTH_WAYS,
        "embedding proof 1\nm 2\nu 0.1 ; 1 2 ;\ne 0.1\n",
        0,
        "accepted unsatisfiable\n",
        "",
    ),
    Checked(
        BOTH_WAYS,
        "embedding proof 1\nm 2\nq\n",
        0,
        "accepted undecided\n",
        "",
    ),
    Checked(
        BOTH_WAYS,
        "embedding proof 1\nm 2\nu 0.1 ; 2 ;\ne 0.1\n",
        7,
        "",
        "log: line 3: NoConflict\n",
    ),
    Checked(
        BOTH_WAYS,
        "embedding proof 2\nm 2\nu 0.1 ;\ne 0.1\n",
        0,
        "accepted unsatisfiable\n",
        "",
    ),
    Checked(
        BOTH_WAYS,
        "embedding proof 1\nm 2\nu 0.1 x1 ~x1 ; 1 ;\n",
        7,
        "",
        "log: line 3: Twice\n",
    ),
    Checked(
        BOTH_WAYS,
        "embedding proof 2\nm 2\nu 0.1 x1 ~x1 ;\n",
        7,
        "",
        "log: line 3: Twice\n",
    ),
    Checked(
        BOTH_WAYS,
        "embedding proof 1\nm 2\np 0.1 1 9223372036854775807 * 9223372036854775807 * ;\n",
        7,
        "",
        "log: line 3: Wide\n",
    ),
    Checked(
        BOTH_WAYS,
        "embedding proof 1\nm 2\np 0.1 0.2 ;\n",
        7,
        "",
        "log: line 3: NoSuchName\n",
    ),
    Checked(
        BOTH_WAYS,
        "embedding proof 1\nm 2\np 0.1 1 ;\np 0.1 2 ;\n",
        7,
        "",
        "log: line 4: NameUsed\n",
    ),
    Checked(
        BOTH_WAYS,
        "embedding proof 1\nm 2\n",
        7,
        "",
        "log: line 3: EndsEarly\n",
    ),
    Checked(
        BOTH_WAYS,
        "embedding proof 1\nm 2\ny\n",
        7,
        "",
        "log: line 3: NotSolution\n",
    ),
    Checked(BOTH_WAYS, "", 7, "", "log: line 1: EndsEarly\n"),
    Checked("", "", 4, "", "encoding: line 1: Header\n"),
    Checked(
        "* #variable= 1 #constraint= 1\n+1 x1 = 1 ;\n",
        "",
        4,
        "",
        "encoding: line 2: Equality\n",
    ),
    Checked(
        "* #variable= 1 #constraint= 1\n+1 x2 >= 1 ;\n",
        "",
        4,
        "",
        "encoding: line 2: NoSuchVariable\n",
    ),
    Checked(
        "* #variable= 1 #constraint= 2\n+1 x1 >= 1 ;\n",
        "",
        4,
        "",
        "encoding: line 3: Count\n",
    ),
    Checked(
        "* #variable= 1 #constraint= 1\n+1 x1 >= 1\n",
        "",
        4,
        "",
        "encoding: line 2: Form\n",
    ),
];

#[test]
fn each_log_has_its_answer(rt: HostRuntime) -> Result<(), Fail> {
    all_hold(&rt, rt.alloc(), &CHECKED)
}

#[test]
fn a_missing_log_is_a_fault(rt: HostRuntime) -> Result<(), Fail> {
    let files = parts(rt.alloc(), &[("e", BOTH_WAYS)])?;
    let judge = Gives(5, "", "files: fault\n");
    assert!(rt; is_judged(&rt, rt.alloc(), "subgraph check e l", files, CLEAN, &judge)?);
    Ok(())
}

#[test]
fn a_bad_encoding_comes_before_a_missing_log(rt: HostRuntime) -> Result<(), Fail> {
    let files = parts(rt.alloc(), &[("e", "x"), ("l", "")])?;
    let judge = Gives(4, "", "encoding: line 1: Header\n");
    assert!(rt;
        is_judged(
            &rt,
            rt.alloc(),
            "subgraph check e absent",
            files,
            CLEAN,
            &judge
        )?
    );
    Ok(())
}

/// Logs with a faulty line over a model that is one and is not, each with hints and without.
static BEHIND: [Checked; 30] = [
    Checked(
        BOTH_WAYS,
        "embedding proof 1\nm 2\np 65.1 1 ;\n",
        7,
        "",
        "log: line 3: Form\n",
    ),
    Checked(
        BOTH_WAYS,
        "embedding proof 2\nm 2\np 65.1 1 ;\n",
        7,
        "",
        "log: line 3: Form\n",
    ),
    Checked(
        BOTH_WAYS,
        "embedding proof 1\nm 2\np 0.1 01 ;\n",
        7,
        "",
        "log: line 3: Form\n",
    ),
    Checked(
        BOTH_WAYS,
        "embedding proof 2\nm 2\np 0.1 01 ;\n",
        7,
        "",
        "log: line 3: Form\n",
    ),
    Checked(
        BOTH_WAYS,
        "embedding proof 1\nm 2\np 0.1 1 9223372036854775808 * ;\n",
        7,
        "",
        "log: line 3: Form\n",
    ),
    Checked(
        BOTH_WAYS,
        "embedding proof 2\nm 2\np 0.1 1 9223372036854775808 * ;\n",
        7,
        "",
        "log: line 3: Form\n",
    ),
    Checked(
        BOTH_WAYS,
        "embedding proof 1\nm 2\nn 0 1\n",
        7,
        "",
        "log: line 3: Form\n",
    ),
    Checked(
        BOTH_WAYS,
        "embedding proof 2\nm 2\nn 0 1\n",
        7,
        "",
        "log: line 3: Form\n",
    ),
    Checked(
        BOTH_WAYS,
        "embedding proof 1\nm 2\np 0.2 1 ;\n",
        7,
        "",
        "log: line 3: Order\n",
    ),
    Checked(
        BOTH_WAYS,
        "embedding proof 2\nm 2\np 0.2 1 ;\n",
        7,
        "",
        "log: line 3: Order\n",
    ),
    Checked(
        BOTH_WAYS,
        "embedding proof 1\nm 2\np 0.1 3 ;\n",
        7,
        "",
        "log: line 3: NoSuchName\n",
    ),
    Checked(
        BOTH_WAYS,
        "embedding proof 2\nm 2\np 0.1 3 ;\n",
        7,
        "",
        "log: line 3: NoSuchName\n",
    ),
    Checked(
        BOTH_WAYS,
        "embedding proof 1\nm 2\np 0.1 + ;\n",
        7,
        "",
        "log: line 3: Stack\n",
    ),
    Checked(
        BOTH_WAYS,
        "embedding proof 2\nm 2\np 0.1 + ;\n",
        7,
        "",
        "log: line 3: Stack\n",
    ),
    Checked(
        BOTH_WAYS,
        "embedding proof 1\nm 2\np 0.1 1 2 ;\n",
        7,
        "",
        "log: line 3: Stack\n",
    ),
    Checked(
        BOTH_WAYS,
        "embedding proof 2\nm 2\np 0.1 1 2 ;\n",
        7,
        "",
        "log: line 3: Stack\n",
    ),
    Checked(
        BOTH_WAYS,
        "embedding proof 1\nm 2\np 0.1 0 * ;\n",
        7,
        "",
        "log: line 3: Zero\n",
    ),
    Checked(
        BOTH_WAYS,
        "embedding proof 2\nm 2\np 0.1 0 * ;\n",
        7,
        "",
        "log: line 3: Zero\n",
    ),
    Checked(
        BOTH_WAYS,
        "embedding proof 1\nm 2\ne 1\n",
        7,
        "",
        "log: line 3: NotFalse\n",
    ),
    Checked(
        BOTH_WAYS,
        "embedding proof 2\nm 2\ne 1\n",
        7,
        "",
        "log: line 3: NotFalse\n",
    ),
    Checked(
        BOTH_WAYS,
        "embedding proof 1\nm 2\ny x1\n",
        7,
        "",
        "log: line 3: NotSolution\n",
    ),
    Checked(
        BOTH_WAYS,
        "embedding proof 2\nm 2\ny x1\n",
        7,
        "",
        "log: line 3: NotSolution\n",
    ),
    Checked(
        BOTH_WAYS,
        "embedding proof 1\nm 2\ny\n",
        7,
        "",
        "log: line 3: NotSolution\n",
    ),
    Checked(
        BOTH_WAYS,
        "embedding proof 2\nm 2\ny\n",
        7,
        "",
        "log: line 3: NotSolution\n",
    ),
    Checked(
        BOTH_WAYS,
        "embedding proof 1\nm 2\nq\nq\n",
        7,
        "",
        "log: line 4: Form\n",
    ),
    Checked(
        BOTH_WAYS,
        "embedding proof 2\nm 2\nq\nq\n",
        7,
        "",
        "log: line 4: Form\n",
    ),
    Checked(
        BOTH_WAYS,
        "embedding proof 1\nm 3\n",
        7,
        "",
        "log: line 2: Form\n",
    ),
    Checked(
        BOTH_WAYS,
        "embedding proof 2\nm 3\n",
        7,
        "",
        "log: line 2: Form\n",
    ),
    Checked(
        BOTH_WAYS,
        "embedding proof 1\n",
        7,
        "",
        "log: line 2: EndsEarly\n",
    ),
    Checked(
        BOTH_WAYS,
        "embedding proof 2\n",
        7,
        "",
        "log: line 2: EndsEarly\n",
    ),
];

#[test]
fn each_faulty_line_is_told_with_hints_and_without(rt: HostRuntime) -> Result<(), Fail> {
    all_hold(&rt, rt.alloc(), &BEHIND)
}

/// Empty logs over encodings.
static ENCODINGS: [Checked; 9] = [
    Checked("", "", 4, "", "encoding: line 1: Header\n"),
    Checked(
        "* #variable= 2 #constraint= 1\nmin: +1 x1 ;\n",
        "",
        4,
        "",
        "encoding: line 2: Objective\n",
    ),
    Checked(
        "* #variable= 2 #constraint= 1\n+1 x1 = 1 ;\n",
        "",
        4,
        "",
        "encoding: line 2: Equality\n",
    ),
    Checked(
        "* #variable= 2 #constraint= 1\n+1 x1 x2 >= 1 ;\n",
        "",
        4,
        "",
        "encoding: line 2: Product\n",
    ),
    Checked(
        "* #variable= 2 #constraint= 1\n+1 x3 >= 1 ;\n",
        "",
        4,
        "",
        "encoding: line 2: NoSuchVariable\n",
    ),
    Checked(
        "* #variable= 2 #constraint= 1\n+1 ~x1 >= 1 ;\n",
        "",
        4,
        "",
        "encoding: line 2: Form\n",
    ),
    Checked(
        "* #variable= 2 #constraint= 1\n+42535295865117307932921825928971026432 x1 >= 1 ;\n",
        "",
        7,
        "",
        "log: line 1: EndsEarly\n",
    ),
    Checked(
        "* #variable= 2 #constraint= 1\n+42535295865117307932921825928971026433 x1 >= 1 ;\n",
        "",
        4,
        "",
        "encoding: line 2: Wide\n",
    ),
    Checked(
        "* #variable= 2 #constraint= 2\n+1 x1 >= 1 ;\n",
        "",
        4,
        "",
        "encoding: line 3: Count\n",
    ),
];

#[test]
fn each_encoding_is_read_or_its_fault_told(rt: HostRuntime) -> Result<(), Fail> {
    all_hold(&rt, rt.alloc(), &ENCODINGS)
}
