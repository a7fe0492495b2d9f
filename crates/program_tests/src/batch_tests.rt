//! What `batch` answers, and what it refuses.

use crate::ends::{Ends, all_end};
use memory_runs::{CLEAN, EDGE, FOUR_CYCLE, Gives, TRIANGLE, is_judged, part, parts};
use outer_io::MemoryPart;
use std::alloc::{AllocError, Global};
use std::sync::Wait;
use std::test::Fail;
use std::thread::Threads;

/// A path of three vertices.
const PATH: &str = "3\n1 1\n2 0 2\n1 1\n";

/// A vertex with a loop.
const LOOP: &str = "1\n1 0\n";

/// Two vertices, the second with a loop.
const TWO: &str = "2\n0\n1 1\n";

/// A graph whose first neighbour is no vertex.
const BAD: &str = "2\n1 2\n0\n";

/// Three jobs: one of three vertices that has none, one that has an image, and one that has none but as a part of more edges.
const THREE: &[(&str, &str)] = &[
    ("list", "tri c4\nloop two\npath tri induced"),
    ("tri", TRIANGLE),
    ("c4", FOUR_CYCLE),
    ("loop", LOOP),
    ("two", TWO),
    ("path", PATH),
];

static DECIDED: [Ends; 8] = [
    Ends(
        "subgraph batch list",
        THREE,
        0,
        b"1: none\n2: yes 1\n3: none\n",
        "",
        0,
    ),
    Ends(
        "subgraph batch list --threads 4",
        THREE,
        0,
        b"1: none\n2: yes 1\n3: none\n",
        "",
        0,
    ),
    Ends("subgraph batch list", &[("list", "")], 0, b"", "", 0),
    Ends(
        "subgraph batch list --threads 2 --seed 7 --book 0",
        &[
            ("list", "e e induced\ne e\nt e\n"),
            ("e", EDGE),
            ("t", TRIANGLE),
        ],
        0,
        b"1: yes 0 1\n2: yes 0 1\n3: none\n",
        "",
        0,
    ),
    Ends(
        "subgraph batch --format labelledlad list",
        &[
            ("list", "p t"),
            ("p", "2\n5 1 1 7\n6 0\n"),
            ("t", "2\n6 0\n5 1 0 7\n"),
        ],
        0,
        b"1: yes 1 0\n",
        "",
        0,
    ),
    Ends(
        "subgraph batch list --budget 3",
        &[("list", "tri c4"), ("tri", TRIANGLE), ("c4", FOUR_CYCLE)],
        2,
        b"1: unknown\n",
        "",
        1,
    ),
    Ends(
        "subgraph batch list --budget 3 --threads 4",
        &[
            ("list", "tri c4\nloop two\ntri c4\nloop two\n"),
            ("tri", TRIANGLE),
            ("c4", FOUR_CYCLE),
            ("loop", LOOP),
            ("two", TWO),
        ],
        2,
        b"1: unknown\n2: yes 1\n3: unknown\n4: yes 1\n",
        "",
        2,
    ),
    Ends(
        "subgraph batch list",
        &[("list", "empty empty\n"), ("empty", "0\n")],
        0,
        b"1: yes\n",
        "",
        0,
    ),
];

#[test]
fn each_job_has_its_line(rt: HostRuntime) -> Result<(), Fail> {
    all_end(&rt, rt.alloc(), &DECIDED)
}

static REFUSED: [Ends; 8] = [
    Ends(
        "subgraph batch list",
        &[
            ("list", "tri c4\ntri bad\n"),
            ("tri", TRIANGLE),
            ("c4", FOUR_CYCLE),
            ("bad", BAD),
        ],
        4,
        b"",
        "job 2 target: word 3: NoSuchVertex\n",
        0,
    ),
    Ends(
        "subgraph batch list",
        &[
            ("list", "tri tri\nbad absent\n"),
            ("tri", TRIANGLE),
            ("bad", BAD),
        ],
        4,
        b"",
        "job 2 pattern: word 3: NoSuchVertex\n",
        0,
    ),
    Ends(
        "subgraph batch list",
        &[
            ("list", "tri tri\ntri absent\nbad bad\n"),
            ("tri", TRIANGLE),
            ("bad", BAD),
        ],
        5,
        b"",
        "files: fault\n",
        0,
    ),
    Ends(
        "subgraph batch list",
        &[("list", "tri")],
        4,
        b"",
        "list: line 1: Form\n",
        0,
    ),
    Ends(
        "subgraph batch list",
        &[("list", "absent absent\nx  y\n")],
        4,
        b"",
        "list: line 2: Form\n",
        0,
    ),
    Ends("subgraph batch list", &[], 5, b"", "files: fault\n", 0),
    Ends(
        "subgraph batch list --induced",
        THREE,
        3,
        b"",
        "words: not a command\n",
        0,
    ),
    Ends(
        "subgraph batch list --threads 65",
        THREE,
        3,
        b"",
        "words: not a command\n",
        0,
    ),
];

#[test]
fn each_bad_list_or_job_is_refused(rt: HostRuntime) -> Result<(), Fail> {
    all_end(&rt, rt.alloc(), &REFUSED)
}

/// A list of this text, and a graph without vertices.
fn list_file(alloc: Global, text: &[u8]) -> Result<Vec<MemoryPart>, AllocError> {
    let mut files = parts(alloc, &[("e", "0\n")])?;
    files.push(part(alloc, "list", text)?)?;
    Ok(files)
}

/// Whether a batch of a list of this text ends so.
fn ends_so<R: Threads + Wait + Sync>(
    rt: &R,
    alloc: Global,
    text: &[u8],
    ends: &Gives,
) -> Result<bool, AllocError> {
    let files = list_file(alloc, text)?;
    is_judged(
        rt,
        alloc,
        "subgraph batch list --book 0",
        files,
        CLEAN,
        ends,
    )
}

/// So many jobs.
fn jobs(alloc: Global, count: u32) -> Result<Vec<u8>, AllocError> {
    let mut text = Vec::new(alloc);
    for _ in 0..count {
        text.extend_from_slice(b"e e\n")?;
    }
    Ok(text)
}

/// The lines of so many jobs that are answered `yes`.
fn answers(alloc: Global, count: u32) -> Result<String, AllocError> {
    let mut text = String::new(alloc);
    for k in 0..count {
        text.push_str(&format!(in alloc; "{}: yes\n", k.wrapping_add(1))?)?;
    }
    Ok(text)
}

#[test]
fn a_list_has_a_thousand_jobs_at_most(rt: HostRuntime) -> Result<(), Fail> {
    let most = answers(rt.alloc(), 1000)?;
    assert!(rt;
        ends_so(
            &rt,
            rt.alloc(),
            &jobs(rt.alloc(), 1000)?,
            &Gives(0, &most, "")
        )?
    );
    let refused = Gives(4, "", "list: line 1001: TooMany\n");
    assert!(rt; ends_so(&rt, rt.alloc(), &jobs(rt.alloc(), 1001)?, &refused)?);
    Ok(())
}

#[test]
fn a_list_has_a_longest(rt: HostRuntime) -> Result<(), Fail> {
    let long = vec![in rt.alloc(); b'x'; 1_048_577]?;
    let refused = Gives(4, "", "list: too long\n");
    assert!(rt; ends_so(&rt, rt.alloc(), &long, &refused)?);
    Ok(())
}
