//! Files in memory of which one call fails, from a table.

use outer_io::{MemoryFiles, MemoryPart};
use std::alloc::{AllocError, Global};

/// A file in memory: its name of at most 4,095 bytes, what it holds where it is there, and how many bytes it has room for.
#[derive(Clone, Copy)]
pub struct InMemory(pub &'static str, pub Option<&'static [u8]>, pub u64);

/// The same bytes, where there are any.
fn copied(alloc: Global, bytes: Option<&[u8]>) -> Result<Option<Vec<u8>>, AllocError> {
    match bytes {
        Some(bytes) => Ok(Some(Vec::from_slice(alloc, bytes)?)),
        None => Ok(None),
    }
}

/// The file as a part of files.
fn part(alloc: Global, file: &InMemory) -> Result<MemoryPart, AllocError> {
    let InMemory(name, bytes, room) = *file;
    let bytes = copied(alloc, bytes)?;
    let name = String::from_str(alloc, name)?;
    Ok(MemoryPart { name, bytes, room })
}

/// The files, of which the call of this number, from 1, fails; none does for 0. Cost: linear in the bytes that they hold.
pub fn files_in_memory(
    alloc: Global,
    given: &[InMemory],
    failing: u64,
) -> Result<MemoryFiles, AllocError> {
    let mut parts = Vec::with_capacity(alloc, given.len())?;
    for file in given {
        parts.push(part(alloc, file)?)?;
    }
    MemoryFiles::new(alloc, parts, Vec::from_slice(alloc, &[failing])?)
}
