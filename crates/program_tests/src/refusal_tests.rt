//! What `solve` refuses.

use crate::ends::{Ends, all_end};
use memory_runs::{CLEAN, Gives, is_judged, part};
use outer_io::MemoryPart;
use std::alloc::{AllocError, Global};
use std::sync::Wait;
use std::test::Fail;
use std::thread::Threads;

static REFUSED: [Ends; 11] = [
    Ends(
        "subgraph solve p t",
        &[("p", "2\n1 2\n0\n"), ("t", "0\n")],
        4,
        b"",
        "pattern: word 3: NoSuchVertex\n",
        0,
    ),
    Ends(
        "subgraph solve p t",
        &[("p", "3\n2 1\n"), ("t", "0\n")],
        4,
        b"",
        "pattern: word 4: EndsEarly\n",
        0,
    ),
    Ends(
        "subgraph solve p t",
        &[("p", ""), ("t", "0\n")],
        4,
        b"",
        "pattern: word 1: EndsEarly\n",
        0,
    ),
    Ends(
        "subgraph solve p t",
        &[("p", "1\nx\n"), ("t", "0\n")],
        4,
        b"",
        "pattern: word 2: NotNumber\n",
        0,
    ),
    Ends(
        "subgraph solve p t",
        &[("p", "1\n0 7\n"), ("t", "0\n")],
        4,
        b"",
        "pattern: word 3: WordsLeft\n",
        0,
    ),
    Ends(
        "subgraph solve p t",
        &[("p", "1025"), ("t", "0\n")],
        4,
        b"",
        "pattern: word 1: TooMany\n",
        0,
    ),
    Ends(
        "subgraph solve p t",
        &[("p", "0\n"), ("t", "8193")],
        4,
        b"",
        "target: word 1: TooMany\n",
        0,
    ),
    Ends(
        "subgraph solve p t",
        &[("p", "0\n"), ("t", "1\n0 7\n")],
        4,
        b"",
        "target: word 3: WordsLeft\n",
        0,
    ),
    Ends(
        "subgraph solve p t",
        &[("p", "1\nx\n"), ("t", "1\n0 7\n")],
        4,
        b"",
        "pattern: word 2: NotNumber\n",
        0,
    ),
    Ends(
        "subgraph solve p absent",
        &[("p", "1\nx\n"), ("t", "0\n")],
        4,
        b"",
        "pattern: word 2: NotNumber\n",
        0,
    ),
    Ends(
        "subgraph solve p t --format vertexlabelledlad",
        &[("p", "1\n4294967296 0\n"), ("t", "1\n0 0\n")],
        4,
        b"",
        "pattern: word 2: NotNumber\n",
        0,
    ),
];

#[test]
fn each_bad_text_is_refused(rt: HostRuntime) -> Result<(), Fail> {
    all_end(&rt, rt.alloc(), &REFUSED)
}

/// Two files.
const GIVEN: &[(&str, &str)] = &[("p", "0\n"), ("t", "x\n")];

/// Files that the words name and that are not there.
static MISSING: [Ends; 2] = [
    Ends(
        "subgraph solve p absent",
        GIVEN,
        5,
        b"",
        "files: fault\n",
        0,
    ),
    Ends(
        "subgraph solve absent t",
        GIVEN,
        5,
        b"",
        "files: fault\n",
        0,
    ),
];

#[test]
fn a_missing_file_is_a_fault(rt: HostRuntime) -> Result<(), Fail> {
    all_end(&rt, rt.alloc(), &MISSING)
}

/// A file of a pattern of this text.
fn pattern_file(alloc: Global, text: &[u8]) -> Result<Vec<MemoryPart>, AllocError> {
    let mut files = Vec::new(alloc);
    files.push(part(alloc, "p", text)?)?;
    Ok(files)
}

/// Whether this text of a pattern is too long.
fn is_too_long<R: Threads + Wait + Sync>(
    rt: &R,
    alloc: Global,
    text: &[u8],
) -> Result<bool, AllocError> {
    let files = pattern_file(alloc, text)?;
    let judge = Gives(4, "", "pattern: too long\n");
    is_judged(rt, alloc, "subgraph solve p t", files, CLEAN, &judge)
}

#[test]
fn files_have_a_longest(rt: HostRuntime) -> Result<(), Fail> {
    let long = vec![in rt.alloc(); b' '; 67_108_865]?;
    assert!(rt; is_too_long(&rt, rt.alloc(), &long)?);
    Ok(())
}
