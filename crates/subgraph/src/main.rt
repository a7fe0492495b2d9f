//! The program `subgraph`, over the system's files and streams.
//!
//! It makes the real objects, lets `whole_program::run` do all the rest, and ends with its status. Nothing stands above
//! it. Files and streams of the system tell nothing of their contents: what a run says of the bytes that were read is
//! the contract of `run`, and that the system's calls read and write them is trusted.
#![tactic(auto)]

ghost use Rattle.std.specs.Prelude.{◌≡◌, [], IfOk};

use outer_io::{RealFiles, RealSink};
use std::alloc::{AllocError, Global};
use std::io::ErrorKind;
use std::process::ExitCode;
use std::rt::Env;
use std::sync::Wait;
use std::thread::Threads;
use std::{env, fs};
use subgraph_cli::stop::Stop;
use subgraph_cli::telling::tell_stop;
use whole_program::run;

/// The program's words, its name first among them. There are none where one of them is no UTF-8, since no such word is
/// of the grammar.
fn words_of<R: Env + AllocGlobal>(rt: &R) -> Result<Vec<String>, AllocError> {
    match env::args(rt) {
        Ok(words) => words.collect(rt.alloc()),
        Err(error) => match error.kind() {
            ErrorKind::OutOfMemory => Err(AllocError),
            _ => Ok(Vec::new(rt.alloc())),
        },
    }
}

/// The status of the run, which starts its threads by the first handle.
fn status_of<R: Threads + Wait + Sync>(threads: &R, rt: &HostRuntime) -> Result<u8, AllocError> {
    let alloc: Global = rt.alloc();
    let words = words_of(rt)?;
    let mut files = RealFiles::new(alloc, rt)?;
    let mut out = RealSink::new(rt.stdout());
    let mut err = RealSink::new(rt.stderr());
    let mut spent = Vec::new(alloc);
    Ok(run(
        threads, alloc, &words, &mut files, &mut out, &mut err, &mut spent,
    ))
}

fn main(rt: HostRuntime) -> ExitCode {
    // The system gives a file the least number that is free: where a standard stream is closed, these take its number, so that none of
    // the files that the program writes gets it, and what is told to the closed stream is a fault.
    let _first = fs::open(&rt, "/dev/null");
    let _second = fs::open(&rt, "/dev/null");
    let _third = fs::open(&rt, "/dev/null");
    let status = match status_of(&rt, &rt) {
        Ok(status) => status,
        Err(_) => tell_stop(Stop::NoMemory, &mut RealSink::new(rt.stderr())),
    };
    ExitCode::from(status)
}
