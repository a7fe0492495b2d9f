//! The text of a mapping: the line `yes`, then for each pattern vertex a line with its target vertex. It is read and
//! written in one pass; each number is held against the number's own text, so that none is read that is not written.

ghost use Rattle.std.specs.Prelude.{◌≡◌, ◌≢◌, ℕ, ◌+◌, ◌<◌, ◌^◌, List, ◌++◌, length, IfOk, IfErr, MatchOption, MatchResult};
ghost use Rattle.std.specs.Fmt.{decimal};
ghost use Rattle.graph_theory.specs.Mapping.{mapping_line, yes_text, HasNoLine, IsMapping, FaultyLine, OnLine};
ghost use Rattle.outer_io.specs.KnownText.{Wrote};
ghost use Rattle.outer_io.specs.Sinks.{HasBlame};

use crate::gathered::gathered;
use graph_theory::mapping_lines::{after, first_line};
use graph_theory::mapping_text::{MapFault, mapping_laws};
use graph_theory::text_words::number_in;
use itoa::Buffer;
use outer_io::{Failed, Sink, put_all};
use std::alloc::Global;

/// The number below 2^32 whose text this is.
fn image_in(word: &[u8]) -> Option<u32>
    ensures { MatchOption result ((t : ℕ) → t < 2 ^ 32 → word.now ≢ decimal t)
        (λ t. word.now ≡ decimal t) }
{
    let Some(image) = number_in(word) else {
        return None;
    };
    let mut buffer = Buffer::new();
    if buffer.format(image).as_bytes() == word {
        Some(image)
    } else {
        None
    }
}

/// What follows the number of a vertex, where a text begins with it.
fn after_vertex(bytes: &[u8], vertex: u64) -> Option<&[u8]>
    ensures { MatchOption result ((more : List ℕ) → bytes.now ≢ decimal vertex ++ more)
        (λ rest. bytes.now ≡ decimal vertex ++ rest.now) }
{
    let mut buffer = Buffer::new();
    after(bytes, buffer.format(vertex).as_bytes())
}

/// The image in the line of a vertex with which a text begins, and what follows the line.
fn line_in(bytes: &[u8], vertex: u64) -> Option<(u32, &[u8])>
    ensures { MatchOption result (HasNoLine vertex bytes.now)
        (λ line. bytes.now ≡ mapping_line vertex line.0 ++ line.1.now) }
{
    let Some(arrow) = after_vertex(bytes, vertex) else {
        return None;
    };
    let Some(image) = after(arrow, b" -> ") else {
        return None;
    };
    let Some((word, rest)) = first_line(image) else {
        return None;
    };
    match image_in(word) {
        Some(t) => Some((t, rest)),
        None => None,
    }
}

/// The images that the lines of a text say.
fn images_in(alloc: Global, bytes: &[u8]) -> Result<Vec<u32>, MapFault>
    ensures found { IfOk result (λ m. IsMapping bytes.now m.items) }
    ensures fault { IfErr result (λ e. OnLine e (FaultyLine bytes.now)) }
{
    let Some(mut rest) = after(bytes, b"yes\n") else {
        return Err(MapFault::Line { line: 1 });
    };
    let mut images = Vec::new(alloc);
    while !rest.is_empty() {
        let vertex = images.len() as u64;
        match line_in(rest, vertex) {
            Some((image, more)) => {
                images.push(image)?;
                rest = more;
            }
            None => return Err(MapFault::Line { line: vertex + 2 }),
        }
    }
    Ok(images)
}

/// The mapping whose text this is, or the text's first faulty line, counted from 1. Cost: linear in the bytes.
pub fn read_mapping(alloc: Global, bytes: &[u8]) -> Result<Vec<u32>, MapFault>
    ensures found { IfOk result (λ m. IsMapping bytes.now m.items) }
    ensures fault { IfErr result (λ e. OnLine e (FaultyLine bytes.now)) }
    ensures only { (m : List ℕ) → IsMapping bytes.now m
        → MatchResult result (λ found. found.items ≡ m) (λ e. e ≡ MapFault.NoMemory) }
    ensures fault_only { (n : ℕ) → FaultyLine bytes.now n
        → MatchResult result (λ _. ⊥) (λ e. OnLine e (λ k. k ≡ n)) }
{
    mapping_laws();
    images_in(alloc, bytes)
}

/// Puts the text of the mapping. A text of at most 1,024 bytes goes out by one call, so that a small answer costs one write of
/// the system; a longer one by a call for each number and each text between them. It takes no memory.
pub fn write_mapping<S: Sink>(map: &[u32], sink: &mut S) -> Result<(), Failed>
    ensures text { Wrote (S.spot sink.old).steady (S.contents sink.old) (S.contents sink.new) result
        (yes_text map.now) }
    ensures cause { HasBlame S.spot S.rest S.faults S.blamed sink.old sink.new result }
{
    match gathered(map) {
        Some(text) => sink.put(text.as_slice()),
        None => write_lines(map, sink),
    }
}

/// Puts the text of the mapping line by line.
fn write_lines<S: Sink>(map: &[u32], sink: &mut S) -> Result<(), Failed>
    ensures text { Wrote (S.spot sink.old).steady (S.contents sink.old) (S.contents sink.new) result
        (yes_text map.now) }
    ensures cause { HasBlame S.spot S.rest S.faults S.blamed sink.old sink.new result }
{
    sink.put(b"yes\n")?;
    for p in 0..map.len() {
        write_line(p, map[p], sink)?;
    }
    Ok(())
}

/// Puts the line of vertex `p` at `t`.
fn write_line<S: Sink>(p: usize, t: u32, sink: &mut S) -> Result<(), Failed>
    ensures text { Wrote (S.spot sink.old).steady (S.contents sink.old) (S.contents sink.new) result
        (mapping_line p t) }
    ensures cause { HasBlame S.spot S.rest S.faults S.blamed sink.old sink.new result }
{
    let mut vertex = Buffer::new();
    let mut image = Buffer::new();
    put_all(
        &[
            vertex.format(p).as_bytes(),
            b" -> ",
            image.format(t).as_bytes(),
            b"\n",
        ],
        sink,
    )
}
