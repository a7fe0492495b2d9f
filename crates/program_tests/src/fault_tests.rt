//! Each call failing in turn.

use crate::ends::output_of;
use memory_runs::{
    CLEAN, EDGE, FOUR_CYCLE, Failing, Gives, Judge, Ran, TRIANGLE, is_judged, part, parts,
};
use outer_io::MemoryPart;
use std::alloc::{AllocError, Global};
use std::sync::Wait;
use std::test::Fail;
use std::thread::Threads;
use test_support::none_wrong;

/// An edge as pattern and target, a good and a bad mapping of it, an encoding with a good and a bad log of each kind, faulty graphs, and lists of
/// jobs.
const TEXTS: &[(&str, &str)] = &[
    ("p", EDGE),
    ("t", EDGE),
    ("m", "yes\n0 -> 1\n1 -> 0\n"),
    ("b", "yes\n0 -> 0\n1 -> 0\n"),
    ("e", "* #variable= 0 #constraint= 0\n"),
    ("l", "embedding proof 1\nm 0\ny\n"),
    ("h", "embedding proof 2\nm 0\ny\n"),
    ("r", "embedding proof 1\nm 0\ne 1\n"),
    ("u", "embedding proof 2\nm 0\nu 0.1 ;\n"),
    ("none", ""),
    ("cut", "3\n2 1\n"),
    ("letter", "1\nx\n"),
    ("other", "2\n1 2\n0\n"),
    ("more", "1\n0 7\n"),
    ("j", "p t\np t induced\n"),
    ("jt", "p t\np cut\n"),
    ("jl", "p\n"),
];

/// What fails.
#[derive(Clone, Copy)]
enum Stream {
    Files,
    Output,
    Errors,
}

/// Words, what fails of their run, the number of the first call on it that the run no longer makes (or, of the error stream, that is not tried
/// to fail), and the status with which the run ends if none fails.
struct Faults(&'static str, Stream, u64, u8);

/// The call of this number fails.
fn failing(stream: Stream, number: u64) -> Failing {
    match stream {
        Stream::Files => Failing {
            files: number,
            ..CLEAN
        },
        Stream::Output => Failing {
            out: number,
            ..CLEAN
        },
        Stream::Errors => Failing {
            err: number,
            ..CLEAN
        },
    }
}

/// A row, the number of the call that fails, and the output of a run of which none fails.
#[derive(Drop)]
struct But<'a>(&'a Faults, u64, &'a [u8]);

impl<'a> But<'a> {
    /// Whether a run tells a fault of its output, and has written a part of the whole, from its beginning.
    fn is_cut_off(&self, ran: &Ran) -> bool {
        let written = ran.out.bytes();
        ran.ended(5, "output: fault\n")
            && written.len() < self.2.len()
            && self.2.starts_with(written)
    }

    /// Whether a run ended as it should whose call failed: with a fault of the files, with a part of its output, or, where the error stream failed,
    /// with the same status.
    fn is_told(&self, ran: &Ran) -> bool {
        match self.0.1 {
            Stream::Files => ran.gave(5, "", "files: fault\n"),
            Stream::Output => self.is_cut_off(ran),
            Stream::Errors => ran.status == self.0.3,
        }
    }
}

impl<'a> Judge for But<'a> {
    fn judges(&self, ran: &Ran) -> bool {
        if self.1 < self.0.2 {
            self.is_told(ran)
        } else {
            ran.status == self.0.3
        }
    }
}

/// Whether the run of a row ends so.
fn is_so<R: Threads + Wait + Sync>(rt: &R, alloc: Global, but: &But) -> Result<bool, AllocError> {
    let failing = failing(but.0.1, but.1);
    is_judged(rt, alloc, but.0.0, parts(alloc, TEXTS)?, failing, but)
}

/// Whether the run of a row ends so with each of the calls failing.
fn are_so<R: Threads + Wait + Sync>(
    rt: &R,
    alloc: Global,
    row: &Faults,
    whole: &[u8],
) -> Result<bool, AllocError> {
    for number in 1..row.2 {
        if !is_so(rt, alloc, &But(row, number, whole))? {
            return Ok(false);
        }
    }
    is_so(rt, alloc, &But(row, row.2, whole))
}

/// Whether the runs of a row end so.
fn holds<R: Threads + Wait + Sync>(
    rt: &R,
    alloc: Global,
    row: &Faults,
) -> Result<bool, AllocError> {
    let (_, whole) = output_of(rt, alloc, row.0, parts(alloc, TEXTS)?)?;
    are_so(rt, alloc, row, &whole)
}

/// The place, from 0, of the first row that does not hold.
fn first_wrong<R: Threads + Wait + Sync>(
    rt: &R,
    alloc: Global,
    rows: &[Faults],
) -> Result<Option<usize>, AllocError> {
    for (at, row) in rows.iter().enumerate() {
        if !holds(rt, alloc, row)? {
            return Ok(Some(at));
        }
    }
    Ok(None)
}

// Status 6 is none of these: what a run takes of memory is granted here, and `bench/refused_memory.py --full` refuses each piece of
// it to the built program in turn, with an error stream that is full.
static FAULTS: [Faults; 30] = [
    Faults("subgraph solve p t", Stream::Files, 7, 0),
    Faults("subgraph verify p t m", Stream::Files, 10, 0),
    Faults("subgraph encode p t", Stream::Files, 7, 0),
    Faults("subgraph check e l", Stream::Files, 7, 0),
    Faults("subgraph check e h", Stream::Files, 7, 0),
    Faults("subgraph solve p t", Stream::Output, 2, 0),
    Faults("subgraph verify p t m", Stream::Output, 2, 0),
    Faults("subgraph encode p t", Stream::Output, 7, 0),
    Faults("subgraph check e l", Stream::Output, 2, 0),
    Faults("subgraph check e h", Stream::Output, 2, 0),
    Faults("subgraph batch j", Stream::Files, 16, 0),
    Faults("subgraph batch j --threads 2", Stream::Output, 15, 0),
    Faults("subgraph batch jt", Stream::Errors, 9, 4),
    Faults("subgraph batch jl", Stream::Errors, 7, 4),
    Faults("subgraph solve p", Stream::Errors, 6, 3),
    Faults("subgraph solve m t", Stream::Errors, 6, 4),
    Faults("subgraph solve other t", Stream::Errors, 6, 4),
    Faults("subgraph solve cut t", Stream::Errors, 6, 4),
    Faults("subgraph solve none t", Stream::Errors, 6, 4),
    Faults("subgraph solve letter t", Stream::Errors, 6, 4),
    Faults("subgraph solve more t", Stream::Errors, 6, 4),
    Faults("subgraph verify p t none", Stream::Errors, 6, 4),
    Faults("subgraph check p l", Stream::Errors, 6, 4),
    Faults("subgraph solve absent t", Stream::Errors, 6, 5),
    Faults("subgraph verify p t t", Stream::Errors, 6, 4),
    Faults("subgraph encode m t", Stream::Errors, 6, 4),
    Faults("subgraph verify p t b", Stream::Errors, 6, 7),
    Faults("subgraph check e r", Stream::Errors, 6, 7),
    Faults("subgraph check e u", Stream::Errors, 6, 7),
    Faults("subgraph check e absent", Stream::Errors, 6, 5),
];

#[test]
fn each_fault_is_told_where_it_can_be_and_none_of_the_error_stream_changes_the_status(
    rt: HostRuntime,
) -> Result<(), Fail> {
    none_wrong(first_wrong(&rt, rt.alloc(), &FAULTS)?)
}

/// Files of a pattern, and of a front of a target's text.
fn front_files(alloc: Global, front: &[u8]) -> Result<Vec<MemoryPart>, AllocError> {
    let mut files = parts(alloc, &[("p", TRIANGLE)])?;
    files.push(part(alloc, "t", front)?)?;
    Ok(files)
}

/// Whether a front of a target's text ends early, in place of this word.
fn ends_early<R: Threads + Wait + Sync>(
    rt: &R,
    alloc: Global,
    front: &[u8],
    word: u64,
) -> Result<bool, AllocError> {
    let told = format!(in alloc; "target: word {word}: EndsEarly\n")?;
    let judge = Gives(4, "", told.as_str());
    is_judged(
        rt,
        alloc,
        "subgraph solve p t",
        front_files(alloc, front)?,
        CLEAN,
        &judge,
    )
}

/// How many bytes the first front of a text of words of one byte has that does not end early, at the word after its last one.
fn first_front_that_is_read<R: Threads + Wait + Sync>(
    rt: &R,
    alloc: Global,
    text: &[u8],
) -> Result<usize, AllocError> {
    let mut word: u64 = 1;
    for n in 0..text.len() {
        if !ends_early(rt, alloc, &text[..n], word)? {
            return Ok(n);
        }
        if text[n] != b' ' && text[n] != b'\n' {
            word = word.wrapping_add(1);
        }
    }
    Ok(text.len())
}

#[test]
fn each_front_of_a_graph_ends_early(rt: HostRuntime) -> Result<(), Fail> {
    let read = first_front_that_is_read(&rt, rt.alloc(), FOUR_CYCLE.as_bytes())?;
    // All 13 words, without the last line's end.
    assert!(rt; read == 25);
    Ok(())
}
