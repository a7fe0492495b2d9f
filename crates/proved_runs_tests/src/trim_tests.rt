//! What `trim` answers, and what its third file holds then.

use memory_runs::{CLEAN, Judge, Ran, is_judged, part_to_write, parts};
use outer_io::MemoryPart;
use std::alloc::{AllocError, Global};
use std::sync::Wait;
use std::test::Fail;
use std::thread::Threads;
use test_support::none_wrong;

/// A model of one variable that is one and is not.
const BOTH_WAYS: &str = "* #variable= 1 #constraint= 2\n+1 x1 >= 1 ;\n-1 x1 >= 0 ;\n";

/// A log that claims nothing.
const OPEN: &str = "embedding proof 1\nm 2\nq\n";

/// What the third file holds before a run.
const OLD: &str = "old\n";

/// A log, and what trimming it ends with: the status, the output, the error line, and what the third file holds.
struct Trims {
    log: &'static str,
    status: u8,
    told: &'static str,
    error: &'static str,
    left: &'static str,
}

impl Judge for Trims {
    fn judges(&self, ran: &Ran) -> bool {
        ran.gave(self.status, self.told, self.error) && ran.file("o") == self.left.as_bytes()
    }
}

/// An encoding, a log, and a third file that can be written.
fn three(alloc: Global, encoding: &str, log: &str) -> Result<Vec<MemoryPart>, AllocError> {
    let mut files = parts(alloc, &[("e", encoding), ("l", log)])?;
    files.push(part_to_write(alloc, "o", OLD.as_bytes())?)?;
    Ok(files)
}

/// Whether the run of a row ends so.
fn holds<R: Threads + Wait + Sync>(rt: &R, alloc: Global, row: &Trims) -> Result<bool, AllocError> {
    let files = three(alloc, BOTH_WAYS, row.log)?;
    is_judged(rt, alloc, "subgraph trim e l o", files, CLEAN, row)
}

/// The place, from 0, of the first row that does not hold.
fn first_wrong<R: Threads + Wait + Sync>(
    rt: &R,
    alloc: Global,
    rows: &[Trims],
) -> Result<Option<usize>, AllocError> {
    for (at, row) in rows.iter().enumerate() {
        if !holds(rt, alloc, row)? {
            return Ok(Some(at));
        }
    }
    Ok(None)
}

static TRIMMED: [Trims; 6] = [
    Trims {
        log: "embedding proof 1\nm 2\np 0.1 1 2 + ;\nu 0.2 x1 ; 1 ;\nu 0.3 ; 1 2 ;\ne 0.3\n",
        status: 0,
        told: "kept 1 of 3\n",
        error: "",
        left: "embedding proof 1\nm 2\nu 0.1 ; 1 2 ;\ne 0.1\n",
    },
    Trims {
        log: "embedding proof 1\nm 2\np 0.1 1 2 + ;\np 0.2 0.1 2 * ;\ne 0.2\n",
        status: 0,
        told: "kept 2 of 2\n",
        error: "",
        left: "embedding proof 1\nm 2\np 0.1 1 2 + ;\np 0.2 0.1 2 * ;\nd 0.1\ne 0.2\n",
    },
    Trims {
        log: "embedding proof 1\nm 2\np 0.1 1 ;\nq\n",
        status: 0,
        told: "kept 0 of 1\n",
        error: "",
        left: "embedding proof 1\nm 2\nq\n",
    },
    Trims {
        log: "embedding proof 2\nm 2\nu 0.1 ;\ne 0.1\n",
        status: 0,
        told: "kept 1 of 1\n",
        error: "",
        left: "embedding proof 1\nm 2\nu 0.1 ; 1 2 ;\ne 0.1\n",
    },
    Trims {
        log: "embedding proof 1\nm 2\np 0.1 1 ;\nd 0.1\np 0.2 0.1 ;\n",
        status: 7,
        told: "",
        error: "log: line 5: NoSuchName\n",
        left: OLD,
    },
    Trims {
        log: "",
        status: 7,
        told: "",
        error: "log: line 1: EndsEarly\n",
        left: OLD,
    },
];

#[test]
fn trims_logs(rt: HostRuntime) -> Result<(), Fail> {
    none_wrong(first_wrong(&rt, rt.alloc(), &TRIMMED)?)
}

/// Words with names of files, a file of each name, and what the run ends with; no file is touched.
struct Stays(&'static str, &'static str, u8, &'static str);

impl Judge for Stays {
    fn judges(&self, ran: &Ran) -> bool {
        ran.gave(self.2, "", self.3)
            && ran.file("e") == self.1.as_bytes()
            && ran.file("l") == OPEN.as_bytes()
            && ran.file("o") == OLD.as_bytes()
    }
}

/// Whether the run of a row ends so.
fn is_untouched<R: Threads + Wait + Sync>(
    rt: &R,
    alloc: Global,
    row: &Stays,
) -> Result<bool, AllocError> {
    let files = three(alloc, row.1, OPEN)?;
    is_judged(rt, alloc, row.0, files, CLEAN, row)
}

static UNTOUCHED: [Stays; 4] = [
    Stays(
        "subgraph trim e l e",
        BOTH_WAYS,
        3,
        "words: not a command\n",
    ),
    Stays(
        "subgraph trim e l l",
        BOTH_WAYS,
        3,
        "words: not a command\n",
    ),
    Stays("subgraph trim e l", BOTH_WAYS, 3, "words: not a command\n"),
    Stays(
        "subgraph trim e l o",
        "x\n",
        4,
        "encoding: line 1: Header\n",
    ),
];

#[test]
fn nothing_is_touched(rt: HostRuntime) -> Result<(), Fail> {
    let alloc = rt.alloc();
    for (at, row) in UNTOUCHED.iter().enumerate() {
        if !is_untouched(&rt, alloc, row)? {
            return none_wrong(Some(at));
        }
    }
    Ok(())
}
