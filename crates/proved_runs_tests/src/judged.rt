//! Checks and proofs of which a judge is asked, and the files that a run leaves.

use memory_runs::{CLEAN, Failing, Judge, Ran, is_judged, part, run_pair, run_proof};
use outer_io::MemoryPart;
use std::alloc::{AllocError, Global};
use std::sync::Wait;
use std::thread::Threads;

/// An encoding and a log.
fn check_files(alloc: Global, encoding: &[u8], log: &[u8]) -> Result<Vec<MemoryPart>, AllocError> {
    let mut files = Vec::new(alloc);
    files.push(part(alloc, "e", encoding)?)?;
    files.push(part(alloc, "l", log)?)?;
    Ok(files)
}

/// Whether a check of the log over the encoding is as the judge tells.
pub fn checks_so<R: Threads + Wait + Sync, J: Judge>(
    rt: &R,
    alloc: Global,
    encoding: &[u8],
    log: &[u8],
    judge: &J,
) -> Result<bool, AllocError> {
    let files = check_files(alloc, encoding, log)?;
    is_judged(rt, alloc, "subgraph check e l", files, CLEAN, judge)
}

/// Words, a pattern and a target.
#[derive(Drop)]
pub struct Asked<'a>(pub &'a str, pub &'a str, pub &'a str);

/// Whether a run of these words that writes a proof is as the judge tells.
pub fn proves_so<R: Threads + Wait + Sync, J: Judge>(
    rt: &R,
    alloc: Global,
    asked: &Asked,
    failing: Failing,
    judge: &J,
) -> Result<bool, AllocError> {
    let ran = run_proof(rt, alloc, asked.0, asked.1, asked.2, failing)?;
    Ok(judge.judges(&ran))
}

/// What a run that writes a proof left: whether it was as a judge told, its encoding and its log.
#[derive(Drop)]
pub struct Left {
    pub is_so: bool,
    pub encoding: Vec<u8>,
    pub log: Vec<u8>,
}

/// What this run left, none of it where it is not there.
fn left_by<J: Judge>(alloc: Global, ran: &Ran, judge: &J) -> Result<Left, AllocError> {
    let encoding = Vec::from_slice(alloc, ran.file("e"))?;
    let log = Vec::from_slice(alloc, ran.file("l"))?;
    Ok(Left {
        is_so: judge.judges(ran),
        encoding,
        log,
    })
}

/// What a run of these words that writes a proof leaves.
pub fn leaves<R: Threads + Wait + Sync, J: Judge>(
    rt: &R,
    alloc: Global,
    asked: &Asked,
    failing: Failing,
    judge: &J,
) -> Result<Left, AllocError> {
    let ran = run_proof(rt, alloc, asked.0, asked.1, asked.2, failing)?;
    left_by(alloc, &ran, judge)
}

/// The status with which a run of these words ends, and what it writes to its output.
pub fn encoding<R: Threads + Wait + Sync>(
    rt: &R,
    alloc: Global,
    asked: &Asked,
) -> Result<(u8, Vec<u8>), AllocError> {
    let ran = run_pair(rt, alloc, asked.0, asked.1, asked.2)?;
    Ok((ran.status, Vec::from_slice(alloc, ran.out.bytes())?))
}
