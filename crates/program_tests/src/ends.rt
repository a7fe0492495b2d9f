//! Runs that end as rows tell, and what a run puts out.

use memory_runs::{CLEAN, Judge, Ran, is_judged, parts, run_over};
use outer_io::MemoryPart;
use std::alloc::{AllocError, Global};
use std::sync::Wait;
use std::test::Fail;
use std::thread::Threads;
use test_support::none_wrong;

/// Runs the program on the words of a line, over these files, and gives its status and its output.
pub fn output_of<R: Threads + Wait + Sync>(
    rt: &R,
    alloc: Global,
    line: &str,
    files: Vec<MemoryPart>,
) -> Result<(u8, Vec<u8>), AllocError> {
    let ran = run_over(rt, alloc, line, files, CLEAN)?;
    Ok((ran.status, Vec::from_slice(alloc, ran.out.bytes())?))
}

/// Words, the texts in files by their names, and what a run ends with: its status, its output, its error line, and how many accounts are left.
pub struct Ends(
    pub &'static str,
    pub &'static [(&'static str, &'static str)],
    pub u8,
    pub &'static [u8],
    pub &'static str,
    pub usize,
);

impl Judge for Ends {
    fn judges(&self, ran: &Ran) -> bool {
        ran.ended(self.2, self.4) && ran.out.bytes() == self.3 && ran.accounts == self.5
    }
}

/// Whether the run of a row ends so.
fn holds<R: Threads + Wait + Sync>(rt: &R, alloc: Global, row: &Ends) -> Result<bool, AllocError> {
    is_judged(rt, alloc, row.0, parts(alloc, row.1)?, CLEAN, row)
}

/// The place, from 0, of the first row that does not hold.
fn first_wrong<R: Threads + Wait + Sync>(
    rt: &R,
    alloc: Global,
    rows: &[Ends],
) -> Result<Option<usize>, AllocError> {
    for (at, row) in rows.iter().enumerate() {
        if !holds(rt, alloc, row)? {
            return Ok(Some(at));
        }
    }
    Ok(None)
}

/// That the runs of all rows end so, or which is the first that does not, as the failure of a test.
pub fn all_end<R: Threads + Wait + Sync>(rt: &R, alloc: Global, rows: &[Ends]) -> Result<(), Fail> {
    none_wrong(first_wrong(rt, alloc, rows)?)
}
