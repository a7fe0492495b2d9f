//! Mappings' texts.

use crate::spoiling::{NUMBERS, Random, none_differs, spoilt};
use graph_rows::{read_mapping, write_mapping};
use graph_theory::mapping_lines::first_line;
use graph_theory::mapping_text::MapFault;
use outer_io::MemorySink;
use std::alloc::{AllocError, Global};
use std::test::Fail;

/// How many texts there are.
const TEXTS: u64 = 10_000;

/// Whether these images are written as this text.
fn are_written(alloc: Global, images: &[u32], text: &[u8]) -> Result<bool, AllocError> {
    let mut sink = MemorySink::new(alloc, text.len() as u64, Vec::new(alloc))?;
    Ok(write_mapping(images, &mut sink).is_ok() && sink.bytes() == text)
}

/// The first so many lines of a text, or all of it where it has fewer.
fn first_lines(text: &[u8], lines: u64) -> &[u8] {
    let mut rest = text;
    for _line in 0..lines {
        match first_line(rest) {
            Some((_, more)) => rest = more,
            None => return text,
        }
    }
    let front = text.len().saturating_sub(rest.len());
    text.get(..front).unwrap_or(text)
}

/// Whether a text is read as what is written so; or whether its first lines are read up to the one that is faulty.
fn is_read_well(alloc: Global, text: &[u8]) -> Result<bool, AllocError> {
    match read_mapping(alloc, text) {
        Ok(images) => are_written(alloc, &images, text),
        Err(MapFault::Line { line }) => {
            let before = first_lines(text, line.saturating_sub(1));
            let with = read_mapping(alloc, first_lines(text, line));
            Ok(
                (line == 1 || read_mapping(alloc, before).is_ok())
                    && with == Err(MapFault::Line { line }),
            )
        }
        Err(MapFault::NoMemory) => Ok(false),
    }
}

/// The number of the first text that is not read well.
fn first_misread(alloc: Global, texts: &[&[u8]]) -> Result<Option<u64>, AllocError> {
    for number in 0..TEXTS {
        let text = spoilt(alloc, &mut Random::new(number), texts, &NUMBERS)?;
        if !is_read_well(alloc, &text)? {
            return Ok(Some(number));
        }
    }
    Ok(None)
}

static MAPPINGS: [&[u8]; 5] = [
    b"yes\n",
    b"yes\n0 -> 0\n",
    b"yes\n0 -> 1\n1 -> 0\n2 -> 7\n",
    b"yes\n0 -> 4294967295\n1 -> 8191\n",
    b"yes\n0 -> 3\n1 -> 3\n2 -> 3\n3 -> 3\n4 -> 3\n5 -> 3\n6 -> 3\n7 -> 3\n8 -> 3\n9 -> 3\n10 -> 3\n",
];

#[test]
fn spoilt_mappings(rt: HostRuntime) -> Result<(), Fail> {
    none_differs(first_misread(rt.alloc(), &MAPPINGS)?)
}
