//! Words that are no command, and how long a name may be.

use crate::ends::{Ends, all_end};
use memory_runs::{CLEAN, Gives, is_judged, parts};
use std::alloc::{AllocError, Global};
use std::sync::Wait;
use std::test::Fail;
use std::thread::Threads;

/// A pattern and a target.
const POINTS: &[(&str, &str)] = &[("p", "0\n"), ("t", "0\n")];

/// What is told of words that are no command.
const NO_COMMAND: &str = "words: not a command\n";

static OTHER: [Ends; 16] = [
    Ends("subgraph", POINTS, 3, b"", NO_COMMAND, 0),
    Ends("subgraph solve p", POINTS, 3, b"", NO_COMMAND, 0),
    Ends("subgraph solve p t u", POINTS, 3, b"", NO_COMMAND, 0),
    Ends(
        "subgraph solve p t --threads 65",
        POINTS,
        3,
        b"",
        NO_COMMAND,
        0,
    ),
    Ends(
        "subgraph solve p t --budget 0",
        POINTS,
        3,
        b"",
        NO_COMMAND,
        0,
    ),
    Ends(
        "subgraph solve p t --threads +4",
        POINTS,
        3,
        b"",
        NO_COMMAND,
        0,
    ),
    Ends(
        "subgraph solve p t --prove e",
        POINTS,
        3,
        b"",
        NO_COMMAND,
        0,
    ),
    Ends("subgraph solve p t --log l", POINTS, 3, b"", NO_COMMAND, 0),
    Ends(
        "subgraph solve p t --prove a --log a",
        POINTS,
        3,
        b"",
        NO_COMMAND,
        0,
    ),
    Ends(
        "subgraph solve p t --prove p --log l",
        POINTS,
        3,
        b"",
        NO_COMMAND,
        0,
    ),
    Ends(
        "subgraph solve p t --prove e --log t",
        POINTS,
        3,
        b"",
        NO_COMMAND,
        0,
    ),
    Ends(
        "subgraph solve p t --profile 2",
        POINTS,
        3,
        b"",
        NO_COMMAND,
        0,
    ),
    Ends(
        "subgraph solve p t --prove e --log l --profile 3",
        POINTS,
        3,
        b"",
        NO_COMMAND,
        0,
    ),
    Ends(
        "subgraph solve p t --prove e --log l --profile 2 --profile 2",
        POINTS,
        3,
        b"",
        NO_COMMAND,
        0,
    ),
    Ends(
        "subgraph verify p t m --prove e --log l",
        POINTS,
        3,
        b"",
        NO_COMMAND,
        0,
    ),
    Ends("subgraph verify p t", POINTS, 3, b"", NO_COMMAND, 0),
];

#[test]
fn other_words_are_no_command(rt: HostRuntime) -> Result<(), Fail> {
    all_end(&rt, rt.alloc(), &OTHER)
}

/// Words that name a target by so many bytes.
fn words_with_name(alloc: Global, bytes: u32) -> Result<String, AllocError> {
    let mut line = String::from_str(alloc, "subgraph solve p ")?;
    for _ in 0..bytes {
        line.push('t')?;
    }
    Ok(line)
}

/// Whether words that name a target by so many bytes end so.
fn end_so<R: Threads + Wait + Sync>(
    rt: &R,
    alloc: Global,
    bytes: u32,
    status: u8,
    err: &str,
) -> Result<bool, AllocError> {
    let line = words_with_name(alloc, bytes)?;
    let judge = Gives(status, "", err);
    is_judged(
        rt,
        alloc,
        line.as_str(),
        parts(alloc, POINTS)?,
        CLEAN,
        &judge,
    )
}

#[test]
fn a_name_of_4095_bytes_is_looked_for_and_a_longer_one_is_no_command(
    rt: HostRuntime,
) -> Result<(), Fail> {
    assert!(rt; end_so(&rt, rt.alloc(), 4095, 5, "files: fault\n")?);
    assert!(rt; end_so(&rt, rt.alloc(), 4096, 3, NO_COMMAND)?);
    Ok(())
}
