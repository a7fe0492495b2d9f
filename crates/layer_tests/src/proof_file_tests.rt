//! A vertex with a loop into two vertices of which the second has one: the files to the letter, with each call failing in turn.

ghost use Rattle.std.specs.Prelude.{IfSome};
ghost use Rattle.graph_theory.specs.Plain.{ArePlain};
ghost use Rattle.proof_files.specs.Findings.{IsFound};

use graph_rows::Problem;
use log_theory::Profile;
use outer_io::MemoryFiles;
use proof_files::{Finding, write_proof};
use std::alloc::{AllocError, Global};
use std::test::Fail;
use test_support::{Example, InMemory, all_hold, files_in_memory, graph};

/// The problem.
fn problem(alloc: Global) -> Option<Problem>
    ensures { IfSome result ArePlain }
{
    let pattern = graph(alloc, b"1 1 0")?;
    let target = graph(alloc, b"2 0 1 1")?;
    Some(Problem::new(pattern, target, false))
}

/// A file that holds something else, and one that is not there.
static FILES: [InMemory; 2] = [InMemory("e", Some(b"other"), 256), InMemory("l", None, 256)];

/// What the two files hold.
type Contents = (Option<&'static [u8]>, Option<&'static [u8]>);

const ENCODING: &[u8] = b"* #variable= 2 #constraint= 5
+1 x1 +1 x2 >= 1 ;
-1 x1 -1 x2 >= -1 ;
-1 x1 >= -1 ;
-1 x2 >= -1 ;
-1 x1 >= 0 ;
";

/// A map, the call that fails (0: none), whether writing succeeds, and what the two files then hold.
struct Left(&'static [u32], u64, bool, Contents);

/// Whether the files hold this.
fn hold(files: &MemoryFiles, contents: Contents) -> bool {
    files.content("e") == contents.0 && files.content("l") == contents.1
}

/// Writes the proof of what was found, and tells whether it could.
fn write(alloc: Global, q: &Problem, finding: &Finding, files: &mut MemoryFiles) -> bool
    requires { IsFound q.now finding.now }
{
    write_proof(alloc, q, finding, Profile::Hinted, "e", "l", files).is_ok()
}

/// Whether writing what was found succeeds or fails as it should, and leaves these contents.
fn leaves(alloc: Global, q: &Problem, finding: &Finding, left: &Left) -> Result<bool, AllocError>
    requires { IsFound q.now finding.now }
{
    let mut files = files_in_memory(alloc, &FILES, left.1)?;
    Ok(write(alloc, q, finding, &mut files) == left.2 && hold(&files, left.3))
}

/// The same of the problem and the map of a row, or nothing where that is no embedding.
fn leaves_of(alloc: Global, q: &Problem, left: &Left) -> Result<bool, AllocError> {
    if q.is_embedding(left.0) {
        leaves(alloc, q, &Finding::Embedding(left.0), left)
    } else {
        leaves(alloc, q, &Finding::Nothing, left)
    }
}

impl<R> Example<R> for Left {
    fn holds(&self, _rt: &R, alloc: Global) -> Result<bool, AllocError> {
        match problem(alloc) {
            Some(q) => leaves_of(alloc, &q, self),
            None => Ok(false),
        }
    }
}

static WHOLE: [Left; 3] = [
    Left(
        &[1],
        0,
        true,
        (Some(ENCODING), Some(b"embedding proof 1\nm 5\ny x2\n")),
    ),
    Left(
        &[0],
        0,
        true,
        (Some(ENCODING), Some(b"embedding proof 1\nm 5\nq\n")),
    ),
    Left(
        &[],
        0,
        true,
        (Some(ENCODING), Some(b"embedding proof 1\nm 5\nq\n")),
    ),
];

#[test]
fn files_hold_the_encoding_and_a_log(rt: HostRuntime) -> Result<(), Fail> {
    all_hold(&rt, rt.alloc(), &WHOLE)
}

static FAULTY: [Left; 6] = [
    Left(&[], 1, false, (Some(b"other"), None)),
    Left(&[], 2, false, (Some(b""), None)),
    Left(&[], 3, false, (Some(ENCODING), None)),
    Left(&[], 4, false, (Some(ENCODING), Some(b""))),
    Left(
        &[],
        5,
        false,
        (Some(ENCODING), Some(b"embedding proof 1\nm 5\n")),
    ),
    Left(
        &[],
        6,
        true,
        (Some(ENCODING), Some(b"embedding proof 1\nm 5\nq\n")),
    ),
];

#[test]
fn each_call_fails_in_turn(rt: HostRuntime) -> Result<(), Fail> {
    all_hold(&rt, rt.alloc(), &FAULTY)
}
