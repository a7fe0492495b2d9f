//! Readers on worked texts of graphs and mappings.

use crate::graph_tests::agree;
use graph_rows::read_mapping;
use graph_theory::lad_text::{LadCause, LadFault, LadKind};
use graph_theory::mapping_text::MapFault;
use graph_theory::plain_lad::{ListedVertex, vertices_in};
use lad_reader::{EdgeLabels, GraphParts, Labels, NeighbourLists, read_lad};
use std::alloc::{AllocError, Global};
use std::test::Fail;
use test_support::{Example, all_hold};

const LAD: LadKind = LadKind::Lad;

const LABELLED: LadKind = LadKind::VertexLabelledLad;

const DIRECTED: LadKind = LadKind::DirectedLad;

const EDGES: LadKind = LadKind::LabelledLad;

/// A vertex: its label, and its neighbours with the labels of the edges to them.
struct Vertex(u32, &'static [(u32, u32)]);

/// What a text is read as: the vertices, or the word at fault and why.
type Reading = Result<&'static [Vertex], (u64, LadCause)>;

/// Whether the vertices are these.
fn are_these(vertices: &[ListedVertex], expected: &[Vertex]) -> bool {
    if vertices.len() != expected.len() {
        return false;
    }
    for i in 0..expected.len() {
        if vertices[i].label() != expected[i].0 || vertices[i].listed() != expected[i].1 {
            return false;
        }
    }
    true
}

/// Whether a reading is this.
fn is_reading(reading: &Result<Vec<ListedVertex>, LadFault>, expected: &Reading) -> bool {
    match (reading, expected) {
        (Ok(vertices), Ok(others)) => are_these(vertices, others),
        (Err(LadFault::Word { word, cause }), Err((at, why))) => word == at && cause == why,
        _ => false,
    }
}

/// A text of a format, with the most vertices that are allowed, and what both readers come to.
struct Read(LadKind, u32, &'static [u8], Reading);

impl<R> Example<R> for Read {
    fn holds(&self, _rt: &R, alloc: Global) -> Result<bool, AllocError> {
        let Read(kind, limit, text, expected) = self;
        let is_read = is_reading(&vertices_in(alloc, text, *kind, *limit), expected);
        Ok(is_read && agree(alloc, text, *kind, *limit))
    }
}

static READ: [Read; 42] = [
    // one end lists the edge
    Read(
        LAD,
        1024,
        b"2\n1 1\n0\n",
        Ok(&[Vertex(0, &[(1, 0)]), Vertex(0, &[])]),
    ),
    // a triangle
    Read(
        LAD,
        1024,
        b"3\n2 1 2\n2 0 2\n2 0 1\n",
        Ok(&[
            Vertex(0, &[(1, 0), (2, 0)]),
            Vertex(0, &[(0, 0), (2, 0)]),
            Vertex(0, &[(0, 0), (1, 0)]),
        ]),
    ),
    // no vertices
    Read(LAD, 1024, b"0\n", Ok(&[])),
    // a loop, listed twice
    Read(LAD, 1024, b"1 2 0 0", Ok(&[Vertex(0, &[(0, 0), (0, 0)])])),
    // any blanks between words
    Read(
        LAD,
        1024,
        b"\t2\r\n1 1\r\n\n 0 ",
        Ok(&[Vertex(0, &[(1, 0)]), Vertex(0, &[])]),
    ),
    // leading zeros
    Read(
        LAD,
        1024,
        b"002 01 00000000000001 0",
        Ok(&[Vertex(0, &[(1, 0)]), Vertex(0, &[])]),
    ),
    // at the limit
    Read(LAD, 1, b"1 0", Ok(&[Vertex(0, &[])])),
    // labels
    Read(
        LABELLED,
        1024,
        b"2\n1 1 1\n2 1 0\n",
        Ok(&[Vertex(1, &[(1, 0)]), Vertex(2, &[(0, 0)])]),
    ),
    // labels of a target
    Read(
        LABELLED,
        8192,
        b"3\n2 1 1\n1 2 0 2\n3 1 1\n",
        Ok(&[
            Vertex(2, &[(1, 0)]),
            Vertex(1, &[(0, 0), (2, 0)]),
            Vertex(3, &[(1, 0)]),
        ]),
    ),
    // the greatest label
    Read(
        LABELLED,
        1024,
        b"1\n4294967295 0\n",
        Ok(&[Vertex(4294967295, &[])]),
    ),
    // a label too large
    Read(
        LABELLED,
        1024,
        b"1\n4294967296 0\n",
        Err((2, LadCause::NotNumber)),
    ),
    // a label without its number of neighbours
    Read(LABELLED, 1024, b"1\n5\n", Err((3, LadCause::EndsEarly))),
    // a neighbour that is none
    Read(LAD, 1024, b"2\n1 2\n0\n", Err((3, LadCause::NoSuchVertex))),
    // too few words
    Read(LAD, 1024, b"3\n2 1\n", Err((4, LadCause::EndsEarly))),
    // no word
    Read(LAD, 1024, b"", Err((1, LadCause::EndsEarly))),
    // blanks alone
    Read(LAD, 1024, b" \t\r\n", Err((1, LadCause::EndsEarly))),
    // a letter
    Read(LAD, 1024, b"1\nx\n", Err((2, LadCause::NotNumber))),
    // a word too many
    Read(LAD, 1024, b"1\n0 7\n", Err((3, LadCause::WordsLeft))),
    // a word too many that is no number
    Read(LAD, 1024, b"0 x", Err((2, LadCause::WordsLeft))),
    // above the limit
    Read(LAD, 1024, b"1025\n", Err((1, LadCause::TooMany))),
    // 2^32 vertices
    Read(LAD, 1024, b"4294967296", Err((1, LadCause::NotNumber))),
    // 2^32 as a neighbour
    Read(LAD, 1024, b"1 1 4294967296", Err((3, LadCause::NotNumber))),
    // 2^32 - 1 neighbours of which one is there
    Read(
        LAD,
        1024,
        b"1\n4294967295 0\n",
        Err((4, LadCause::EndsEarly)),
    ),
    // the byte 255
    Read(LAD, 1024, b"1 \xff", Err((2, LadCause::NotNumber))),
    // a vertical tab
    Read(LAD, 1024, b"1\x0b0", Err((1, LadCause::NotNumber))),
    // a sign
    Read(LAD, 1024, b"+1 0", Err((1, LadCause::NotNumber))),
    // a digit of another script
    Read(LAD, 1024, b"\xd9\xa1 0", Err((1, LadCause::NotNumber))),
    // a list in one direction
    Read(
        DIRECTED,
        1024,
        b"2\n1 1\n0\n",
        Ok(&[Vertex(0, &[(1, 0)]), Vertex(0, &[])]),
    ),
    // a neighbour that is none, with directions
    Read(
        DIRECTED,
        1024,
        b"2\n1 2\n0\n",
        Err((3, LadCause::NoSuchVertex)),
    ),
    // labels of vertices and edges
    Read(
        EDGES,
        1024,
        b"2\n5 1 1 7\n6 0\n",
        Ok(&[Vertex(5, &[(1, 7)]), Vertex(6, &[])]),
    ),
    // the edge back has another label
    Read(
        EDGES,
        1024,
        b"2 0 1 1 7 0 1 0 8",
        Ok(&[Vertex(0, &[(1, 7)]), Vertex(0, &[(0, 8)])]),
    ),
    // a pair again with its label
    Read(
        EDGES,
        1024,
        b"2 0 2 1 7 1 07 0 0",
        Ok(&[Vertex(0, &[(1, 7), (1, 7)]), Vertex(0, &[])]),
    ),
    // a pair again with another label
    Read(
        EDGES,
        1024,
        b"2\n0 2 1 7 1 8\n0 0\n",
        Err((7, LadCause::LabelClash)),
    ),
    // again after other neighbours
    Read(
        EDGES,
        1024,
        b"3 0 3 1 7 2 8 1 8 0 0 0 0",
        Err((9, LadCause::LabelClash)),
    ),
    // a loop again with another label
    Read(
        EDGES,
        1024,
        b"1 0 2 0 1 0 2",
        Err((7, LadCause::LabelClash)),
    ),
    // the greatest label of an edge
    Read(
        EDGES,
        1024,
        b"1 0 1 0 4294967295",
        Ok(&[Vertex(0, &[(0, 4294967295)])]),
    ),
    // a label of an edge too large
    Read(
        EDGES,
        1024,
        b"1 0 1 0 4294967296",
        Err((5, LadCause::NotNumber)),
    ),
    // no label of an edge
    Read(EDGES, 1024, b"2 0 1 1", Err((5, LadCause::EndsEarly))),
    // no vertex before its label is looked at
    Read(EDGES, 1024, b"1 0 1 1 x", Err((4, LadCause::NoSuchVertex))),
    // any blanks, leading zeros
    Read(
        LAD,
        2,
        b"\t02\r\n1 001\r\n\n 0 ",
        Ok(&[Vertex(0, &[(1, 0)]), Vertex(0, &[])]),
    ),
    // 2^32 - 1 vertices of which one is there
    Read(
        LAD,
        4294967295,
        b"4294967295\n0\n",
        Err((3, LadCause::EndsEarly)),
    ),
    // another vertex lists the same one with another label
    Read(
        EDGES,
        1024,
        b"2 0 2 1 7 0 8 0 2 1 9 1 9",
        Ok(&[Vertex(0, &[(1, 7), (0, 8)]), Vertex(0, &[(1, 9), (1, 9)])]),
    ),
];

#[test]
fn reads_graphs(rt: HostRuntime) -> Result<(), Fail> {
    all_hold(&rt, rt.alloc(), &READ)
}

/// A text of a mapping, and what it is read as.
struct Mapped(&'static [u8], Result<&'static [u32], u64>);

impl<R> Example<R> for Mapped {
    fn holds(&self, _rt: &R, alloc: Global) -> Result<bool, AllocError> {
        match read_mapping(alloc, self.0) {
            Ok(images) => Ok(self.1 == Ok(images.as_slice())),
            Err(MapFault::Line { line }) => Ok(self.1 == Err(line)),
            Err(MapFault::NoMemory) => Ok(false),
        }
    }
}

static MAPPED: [Mapped; 20] = [
    // a mapping
    Mapped(b"yes\n0 -> 1\n1 -> 0\n", Ok(&[1, 0])),
    // two vertices at one
    Mapped(b"yes\n0 -> 0\n1 -> 0\n", Ok(&[0, 0])),
    // fewer vertices
    Mapped(b"yes\n0 -> 0\n", Ok(&[0])),
    // no such target vertex
    Mapped(b"yes\n0 -> 2\n1 -> 0\n", Ok(&[2, 0])),
    // no vertices
    Mapped(b"yes\n", Ok(&[])),
    // the greatest image
    Mapped(b"yes\n0 -> 4294967295\n", Ok(&[4294967295])),
    // the line `yes` is missing
    Mapped(b"0 -> 1\n", Err(1)),
    // the empty text
    Mapped(b"", Err(1)),
    // no line feed after `yes`
    Mapped(b"yes", Err(1)),
    // a carriage return
    Mapped(b"yes\r\n", Err(1)),
    // another answer
    Mapped(b"none\n", Err(1)),
    // vertices out of order
    Mapped(b"yes\n1 -> 0\n", Err(2)),
    // a vertex twice
    Mapped(b"yes\n0 -> 0\n0 -> 1\n", Err(3)),
    // no last line feed
    Mapped(b"yes\n0 -> 1", Err(2)),
    // an empty line more
    Mapped(b"yes\n0 -> 1\n\n", Err(3)),
    // a leading zero of an image
    Mapped(b"yes\n0 -> 01\n", Err(2)),
    // a leading zero of a vertex
    Mapped(b"yes\n00 -> 1\n", Err(2)),
    // an image too large
    Mapped(b"yes\n0 -> 4294967296\n", Err(2)),
    // a blank at the end
    Mapped(b"yes\n0 -> 1 \n", Err(2)),
    // a sign
    Mapped(b"yes\n0 -> +1\n", Err(2)),
];

#[test]
fn reads_mappings(rt: HostRuntime) -> Result<(), Fail> {
    all_hold(&rt, rt.alloc(), &MAPPED)
}

/// Whether each front of a text of one digit words, but the whole, ends too early after its last word.
fn fronts_end_early(alloc: Global, text: &[u8]) -> bool {
    for at in 0..text.len() / 2 {
        let early = LadFault::Word {
            word: at as u64 + 1,
            cause: LadCause::EndsEarly,
        };
        if read_lad(alloc, &text[..2 * at], LAD, 8192).err() != Some(early) {
            return false;
        }
    }
    read_lad(alloc, text, LAD, 8192).is_ok()
}

#[test]
fn fronts_of_a_graph(rt: HostRuntime) {
    assert!(rt; fronts_end_early(rt.alloc(), b"4 2 1 3 2 0 2 2 1 3 2 0 2"));
}

#[test]
fn keeps_parts(rt: HostRuntime) -> Result<(), Fail> {
    let alloc = rt.alloc();
    let lists = vec![in alloc; Vec::from_slice(alloc, &[1, 1])?, Vec::new(alloc)]?;
    let parts = GraphParts {
        kind: LABELLED,
        labels: Labels::from_vec(Vec::from_slice(alloc, &[7, 0])?),
        neighbours: NeighbourLists::from_vecs(alloc, &lists)?,
        edge_labels: EdgeLabels::none(alloc),
    };
    assert!(rt;
        parts.labels.as_slice() == [7, 0].as_slice() && parts.neighbours.of(0) == [1, 1].as_slice()
    );
    Ok(())
}
