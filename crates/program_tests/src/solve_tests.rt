//! What `solve` answers.

use crate::ends::{Ends, all_end, output_of};
use memory_runs::{CLEAN, EDGE, FOUR_CYCLE, Gives, Judge, Ran, TRIANGLE, is_judged, part, parts};
use outer_io::MemoryPart;
use std::alloc::{AllocError, Global};
use std::sync::Wait;
use std::test::Fail;
use std::thread::Threads;
use test_support::none_wrong;

/// A path of three vertices.
const PATH: &str = "3\n1 1\n2 0 2\n1 1\n";

/// Problems of which the answer is the only one.
static ANSWERED: [Ends; 24] = [
    Ends(
        "subgraph solve p t --format directedlad --budget 1",
        &[("p", "3\n1 1\n1 2\n1 0\n"), ("t", "3\n2 1 2\n1 2\n0\n")],
        1,
        b"none\n",
        "",
        0,
    ),
    Ends(
        "subgraph solve p t --format directedlad --budget 1",
        &[("p", "3\n2 1 2\n0\n0\n"), ("t", "3\n0\n1 0\n1 0\n")],
        1,
        b"none\n",
        "",
        0,
    ),
    Ends(
        "subgraph solve p t --format directedlad --induced",
        &[("p", "2\n1 1\n0\n"), ("t", "2\n1 1\n1 0\n")],
        1,
        b"none\n",
        "",
        0,
    ),
    Ends(
        "subgraph solve p t --format labelledlad",
        &[("p", "2\n5 1 1 7\n6 0\n"), ("t", "2\n6 0\n5 1 0 7\n")],
        0,
        b"yes\n0 -> 1\n1 -> 0\n",
        "",
        0,
    ),
    Ends(
        "subgraph solve p t --format labelledlad",
        &[("p", "2\n5 1 1 7\n6 0\n"), ("t", "2\n6 0\n5 1 0 8\n")],
        1,
        b"none\n",
        "",
        0,
    ),
    Ends(
        "subgraph solve p t --format vertexlabelledlad",
        &[
            ("p", "2\n1 1 1\n2 1 0\n"),
            ("t", "3\n2 1 1\n1 2 0 2\n3 1 1\n"),
        ],
        0,
        b"yes\n0 -> 1\n1 -> 0\n",
        "",
        0,
    ),
    Ends(
        "subgraph solve p t",
        &[("p", "0\n"), ("t", "0\n")],
        0,
        b"yes\n",
        "",
        0,
    ),
    Ends(
        "subgraph solve p t",
        &[("p", "1\n0\n"), ("t", "0\n")],
        1,
        b"none\n",
        "",
        0,
    ),
    Ends(
        "subgraph solve p t --budget 1",
        &[("p", "3\n0\n0\n0\n"), ("t", "2\n0\n0\n")],
        1,
        b"none\n",
        "",
        0,
    ),
    Ends(
        "subgraph solve --induced p t",
        &[("p", PATH), ("t", TRIANGLE)],
        1,
        b"none\n",
        "",
        0,
    ),
    Ends(
        "subgraph solve p t",
        &[("p", "1\n1 0\n"), ("t", "2\n0\n1 1\n")],
        0,
        b"yes\n0 -> 1\n",
        "",
        0,
    ),
    Ends(
        "subgraph solve p t --induced",
        &[("p", "1\n0\n"), ("t", "2\n0\n1 1\n")],
        0,
        b"yes\n0 -> 0\n",
        "",
        0,
    ),
    Ends(
        "subgraph solve p t --format vertexlabelledlad",
        &[("p", "1\n4294967295 0\n"), ("t", "1\n4294967295 0\n")],
        0,
        b"yes\n0 -> 0\n",
        "",
        0,
    ),
    Ends(
        "subgraph solve p t --format vertexlabelledlad",
        &[("p", "1\n4294967295 0\n"), ("t", "1\n0 0\n")],
        1,
        b"none\n",
        "",
        0,
    ),
    Ends(
        "subgraph solve p t",
        &[("p", TRIANGLE), ("t", FOUR_CYCLE)],
        1,
        b"none\n",
        "",
        0,
    ),
    Ends(
        "subgraph solve p t --budget 3",
        &[("p", TRIANGLE), ("t", FOUR_CYCLE)],
        2,
        b"unknown\n",
        "",
        1,
    ),
    Ends(
        "subgraph solve p t --budget 4",
        &[("p", TRIANGLE), ("t", FOUR_CYCLE)],
        1,
        b"none\n",
        "",
        0,
    ),
    Ends(
        "subgraph solve p t --seed 18446744073709551615 --budget 128",
        &[("p", TRIANGLE), ("t", FOUR_CYCLE)],
        1,
        b"none\n",
        "",
        0,
    ),
    Ends(
        "subgraph solve p t --book 0 --threads 8",
        &[("p", TRIANGLE), ("t", FOUR_CYCLE)],
        1,
        b"none\n",
        "",
        0,
    ),
    Ends(
        "subgraph solve p t --threads 64",
        &[("p", TRIANGLE), ("t", FOUR_CYCLE)],
        1,
        b"none\n",
        "",
        0,
    ),
    Ends(
        "subgraph solve p t --threads 64",
        &[("p", "3\n0\n0\n0\n"), ("t", "2\n0\n0\n")],
        1,
        b"none\n",
        "",
        0,
    ),
    Ends(
        "subgraph solve p t --threads 64",
        &[("p", "0\n"), ("t", "0\n")],
        0,
        b"yes\n",
        "",
        0,
    ),
    Ends(
        "subgraph solve p p",
        &[("p", "0\n"), ("t", "x\n")],
        0,
        b"yes\n",
        "",
        0,
    ),
    Ends(
        "subgraph solve t p",
        &[("p", "1\n0\n"), ("t", "0\n")],
        0,
        b"yes\n",
        "",
        0,
    ),
];

#[test]
fn each_pair_has_its_answer(rt: HostRuntime) -> Result<(), Fail> {
    all_end(&rt, rt.alloc(), &ANSWERED)
}

/// A triangle and a cycle of four vertices, in which it is not found.
const UNLIKE: &[(&str, &str)] = &[("p", TRIANGLE), ("t", FOUR_CYCLE)];

static SPENT: [Ends; 4] = [
    Ends(
        "subgraph solve p t --budget 3",
        UNLIKE,
        2,
        b"unknown\n",
        "",
        1,
    ),
    Ends(
        "subgraph solve p t --budget 3 --threads 8",
        UNLIKE,
        2,
        b"unknown\n",
        "",
        8,
    ),
    Ends(
        "subgraph solve p t --threads 64 --budget 3 --book 0",
        UNLIKE,
        2,
        b"unknown\n",
        "",
        64,
    ),
    Ends(
        "subgraph solve p t --budget 4 --threads 2",
        UNLIKE,
        1,
        b"none\n",
        "",
        0,
    ),
];

#[test]
fn each_thread_leaves_an_account(rt: HostRuntime) -> Result<(), Fail> {
    all_end(&rt, rt.alloc(), &SPENT)
}

/// So many vertices without an edge.
fn points(alloc: Global, count: u32) -> Result<String, AllocError> {
    let mut text = format!(in alloc; "{count}\n")?;
    for _ in 0..count {
        text.push_str("0\n")?;
    }
    Ok(text)
}

/// How many lines these bytes end.
fn line_ends(bytes: &[u8]) -> usize {
    bytes.iter().filter(|byte| **byte == 10).count()
}

/// So many lines, of which a run told an embedding.
#[derive(Drop)]
struct Told(usize);

impl Judge for Told {
    fn judges(&self, ran: &Ran) -> bool {
        let out = ran.out.bytes();
        ran.status == 0 && out.starts_with(b"yes\n") && line_ends(out) == self.0
    }
}

/// Whether a text is found in itself, and the embedding told in so many lines.
fn is_found<R: Threads + Wait + Sync>(
    rt: &R,
    alloc: Global,
    text: &str,
    lines: usize,
) -> Result<bool, AllocError> {
    let files = parts(alloc, &[("p", text), ("t", text)])?;
    is_judged(rt, alloc, SOLVE, files, CLEAN, &Told(lines))
}

#[test]
fn the_largest_pattern_is_found(rt: HostRuntime) -> Result<(), Fail> {
    let text = points(rt.alloc(), 1024)?;
    assert!(rt; is_found(&rt, rt.alloc(), text.as_str(), 1025)?);
    Ok(())
}

/// The words that ask for an embedding, those that test one, and a pattern and a target that have one.
struct Embedded(&'static str, &'static str, &'static str, &'static str);

const SOLVE: &str = "subgraph solve p t";

const SOLVE_INDUCED: &str = "subgraph solve p t --induced";

const VERIFY: &str = "subgraph verify p t m";

const VERIFY_INDUCED: &str = "subgraph verify p t m --induced";

const SOLVE_ANY: &str = "subgraph solve p t --map any";

const VERIFY_ANY: &str = "subgraph verify p t m --map any";

const SOLVE_LOCAL: &str = "subgraph solve p t --map local";

const VERIFY_LOCAL: &str = "subgraph verify p t m --map local";

/// A cycle of six vertices.
const SIX_CYCLE: &str = "6\n2 1 5\n2 0 2\n2 1 3\n2 2 4\n2 3 5\n2 4 0\n";

/// The files of a row, with this mapping.
fn files_of(alloc: Global, row: &Embedded, mapping: &[u8]) -> Result<Vec<MemoryPart>, AllocError> {
    let mut files = parts(alloc, &[("p", row.2), ("t", row.3)])?;
    files.push(part(alloc, "m", mapping)?)?;
    Ok(files)
}

/// Whether this mapping is found to be an embedding.
fn verifies<R: Threads + Wait + Sync>(
    rt: &R,
    alloc: Global,
    row: &Embedded,
    mapping: &[u8],
) -> Result<bool, AllocError> {
    let files = files_of(alloc, row, mapping)?;
    let judge = Gives(0, "embedding\n", "");
    is_judged(rt, alloc, row.1, files, CLEAN, &judge)
}

/// Whether the runs of a row end so.
fn holds_embedded<R: Threads + Wait + Sync>(
    rt: &R,
    alloc: Global,
    row: &Embedded,
) -> Result<bool, AllocError> {
    let files = parts(alloc, &[("p", row.2), ("t", row.3)])?;
    let (status, out) = output_of(rt, alloc, row.0, files)?;
    Ok(status == 0 && verifies(rt, alloc, row, &out)?)
}

/// The place, from 0, of the first row that does not hold.
fn first_wrong_embedded<R: Threads + Wait + Sync>(
    rt: &R,
    alloc: Global,
    rows: &[Embedded],
) -> Result<Option<usize>, AllocError> {
    for (at, row) in rows.iter().enumerate() {
        if !holds_embedded(rt, alloc, row)? {
            return Ok(Some(at));
        }
    }
    Ok(None)
}

static EMBEDDED: [Embedded; 11] = [
    Embedded(SOLVE, VERIFY, "0\n", "0\n"),
    Embedded(SOLVE, VERIFY, PATH, TRIANGLE),
    Embedded(SOLVE, VERIFY, "1\n1 0\n", "2\n0\n1 1\n"),
    Embedded(SOLVE_INDUCED, VERIFY_INDUCED, "1\n0\n", "2\n0\n1 1\n"),
    Embedded(SOLVE, VERIFY, EDGE, "2\n1 1\n0\n"),
    Embedded(SOLVE_INDUCED, VERIFY_INDUCED, EDGE, FOUR_CYCLE),
    Embedded(SOLVE_INDUCED, VERIFY_INDUCED, PATH, FOUR_CYCLE),
    Embedded(SOLVE_INDUCED, VERIFY_INDUCED, FOUR_CYCLE, FOUR_CYCLE),
    Embedded(SOLVE_ANY, VERIFY_ANY, PATH, EDGE),
    Embedded(SOLVE_ANY, VERIFY_ANY, FOUR_CYCLE, TRIANGLE),
    Embedded(SOLVE_LOCAL, VERIFY_LOCAL, SIX_CYCLE, TRIANGLE),
];

#[test]
fn what_solve_prints_verifies(rt: HostRuntime) -> Result<(), Fail> {
    none_wrong(first_wrong_embedded(&rt, rt.alloc(), &EMBEDDED)?)
}
