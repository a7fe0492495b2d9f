//! Runs of the program over files and sinks in memory, for the crates of tests of whole runs.
//!
//! A run is given as a line of words, texts in files, and which call of the files or streams is to fail. What it leaves are its
//! status, its streams and its files. Nothing is proved of a run here: that is the program's own contract.
#![tactic(auto)]

use outer_io::{MemoryFiles, MemoryPart, MemorySink};
use std::alloc::{AllocError, Global};
use std::sync::Wait;
use std::thread::Threads;
use whole_program::run;

/// A triangle.
pub const TRIANGLE: &str = "3\n2 1 2\n2 0 2\n2 0 1\n";

/// A cycle of four vertices.
pub const FOUR_CYCLE: &str = "4\n2 1 3\n2 0 2\n2 1 3\n2 0 2\n";

/// Two vertices with an edge.
pub const EDGE: &str = "2\n1 1\n1 0\n";

/// The bytes that a sink has room for.
const ROOM: u64 = 65536;

/// The bytes that a file has room for which a proof is written to.
const PROOF_ROOM: u64 = 1_048_576;

/// The numbers of the calls that are to fail, 0 for none.
#[derive(Clone, Copy)]
pub struct Failing {
    pub files: u64,
    pub out: u64,
    pub err: u64,
}

/// No call is to fail.
pub const CLEAN: Failing = Failing {
    files: 0,
    out: 0,
    err: 0,
};

/// What a run left.
pub struct Ran {
    pub status: u8,
    pub accounts: usize,
    pub files: MemoryFiles,
    pub out: MemorySink,
    pub err: MemorySink,
}

impl Drop for Ran {
    /// In one call, for whoever lets one go.
    fn drop(self) {
        let Ran {
            status: _,
            accounts: _,
            files: _,
            out: _,
            err: _,
        } = self;
    }
}

impl Ran {
    /// Whether it ended with this status, and wrote this to its error stream.
    pub fn ended(&self, status: u8, err: &str) -> bool {
        self.status == status && self.err.bytes() == err.as_bytes()
    }

    /// Whether it ended with this status, and wrote this to its output and to its error stream.
    pub fn gave(&self, status: u8, out: &str, err: &str) -> bool {
        self.ended(status, err) && self.out.bytes() == out.as_bytes()
    }

    /// What the file of this name holds, nothing where it is not there.
    pub fn file(&self, name: &str) -> &[u8] {
        match self.files.content(name) {
            Some(bytes) => bytes,
            None => &[],
        }
    }
}

/// The words of a line, one blank between two.
fn words_of(alloc: Global, line: &str) -> Result<Vec<String>, AllocError> {
    let mut words = Vec::new(alloc);
    for word in line.split(' ') {
        words.push(String::from_str(alloc, word)?)?;
    }
    Ok(words)
}

/// A file that holds this text.
pub fn part(alloc: Global, name: &str, text: &[u8]) -> Result<MemoryPart, AllocError> {
    let name = String::from_str(alloc, name)?;
    let bytes = Some(Vec::from_slice(alloc, text)?);
    Ok(MemoryPart {
        name,
        bytes,
        room: 0,
    })
}

/// A file that holds this text, with room for what is written to it.
pub fn part_to_write(alloc: Global, name: &str, text: &[u8]) -> Result<MemoryPart, AllocError> {
    let held = part(alloc, name, text)?;
    Ok(MemoryPart {
        room: PROOF_ROOM,
        ..held
    })
}

/// A file that is not there yet, with room for what is written to it.
fn absent(alloc: Global, name: &str) -> Result<MemoryPart, AllocError> {
    let name = String::from_str(alloc, name)?;
    Ok(MemoryPart {
        name,
        bytes: None,
        room: PROOF_ROOM,
    })
}

/// Files of these names and texts.
pub fn parts(alloc: Global, texts: &[(&str, &str)]) -> Result<Vec<MemoryPart>, AllocError> {
    let mut made = Vec::new(alloc);
    for (name, text) in texts {
        made.push(part(alloc, name, text.as_bytes())?)?;
    }
    Ok(made)
}

/// The calls that are to fail, of one number or none.
fn calls(alloc: Global, number: u64) -> Result<Vec<u64>, AllocError> {
    let mut numbers = Vec::new(alloc);
    if number > 0 {
        numbers.push(number)?;
    }
    Ok(numbers)
}

/// Runs the program on the words of a line, over these files.
pub fn run_over<R: Threads + Wait + Sync>(
    rt: &R,
    alloc: Global,
    line: &str,
    files: Vec<MemoryPart>,
    failing: Failing,
) -> Result<Ran, AllocError> {
    let words = words_of(alloc, line)?;
    let mut files = MemoryFiles::new(alloc, files, calls(alloc, failing.files)?)?;
    let mut out = MemorySink::new(alloc, ROOM, calls(alloc, failing.out)?)?;
    let mut err = MemorySink::new(alloc, ROOM, calls(alloc, failing.err)?)?;
    let mut spent = Vec::new(alloc);
    let status = run(
        rt, alloc, &words, &mut files, &mut out, &mut err, &mut spent,
    );
    Ok(Ran {
        status,
        accounts: spent.len(),
        files,
        out,
        err,
    })
}

/// What tells whether a run left what it should. Few functions own what a run leaves, and lend it to a judge: that it is dropped wherever its owner
/// ends is the costly part of a test's proof.
pub trait Judge {
    /// Whether it did.
    fn judges(&self, ran: &Ran) -> bool;
}

/// A status, and what a run that ends with it writes to its output and to its error stream.
#[derive(Drop)]
pub struct Gives<'a>(pub u8, pub &'a str, pub &'a str);

impl<'a> Judge for Gives<'a> {
    fn judges(&self, ran: &Ran) -> bool {
        ran.gave(self.0, self.1, self.2)
    }
}

/// Runs the program on the words of a line, over these files, and asks the judge.
pub fn is_judged<R: Threads + Wait + Sync, J: Judge>(
    rt: &R,
    alloc: Global,
    line: &str,
    files: Vec<MemoryPart>,
    failing: Failing,
    judge: &J,
) -> Result<bool, AllocError> {
    let ran = run_over(rt, alloc, line, files, failing)?;
    Ok(judge.judges(&ran))
}

/// Runs the program over a pattern in the file `p` and a target in the file `t`.
pub fn run_pair<R: Threads + Wait + Sync>(
    rt: &R,
    alloc: Global,
    line: &str,
    pattern: &str,
    target: &str,
) -> Result<Ran, AllocError> {
    run_over(
        rt,
        alloc,
        line,
        parts(alloc, &[("p", pattern), ("t", target)])?,
        CLEAN,
    )
}

/// Runs the program over a pattern in the file `p`, a target in the file `t`, and two files `e` and `l` that are not there yet.
pub fn run_proof<R: Threads + Wait + Sync>(
    rt: &R,
    alloc: Global,
    line: &str,
    pattern: &str,
    target: &str,
    failing: Failing,
) -> Result<Ran, AllocError> {
    let mut files = parts(alloc, &[("p", pattern), ("t", target)])?;
    files.push(absent(alloc, "e")?)?;
    files.push(absent(alloc, "l")?)?;
    run_over(rt, alloc, line, files, failing)
}
