//! Graphs' texts.

use crate::spoiling::{NUMBERS, Random, none_differs, spoilt};
use graph_theory::plain_lad::{ListedVertex, vertices_in};
use lad_reader::{GraphParts, LadFault, LadKind, read_lad};
use std::alloc::{AllocError, Global};
use std::test::Fail;

/// How many texts there are of each format.
const TEXTS: u64 = 10_000;

/// The most vertices of a graph.
const MOST: u32 = 8;

/// Whether a vertex has these neighbours, with these labels of the edges to them where there are any.
fn has_listed(neighbours: &[u32], labels: &[u32], listed: &[(u32, u32)]) -> bool {
    if neighbours.len() != listed.len() {
        return false;
    }
    for i in 0..listed.len() {
        if listed[i] != (neighbours[i], labels.get(i).copied().unwrap_or(0)) {
            return false;
        }
    }
    true
}

/// Whether the parts are these vertices.
fn are_same(parts: &GraphParts, vertices: &[ListedVertex]) -> bool {
    let labels = parts.labels.as_slice();
    if parts.neighbours.len() != vertices.len() || labels.len() < vertices.len() {
        return false;
    }
    for a in 0..vertices.len() {
        let is_same = labels[a] == vertices[a].label()
            && has_listed(
                parts.neighbours.of(a),
                parts.edge_labels.of(a),
                vertices[a].listed(),
            );
        if !is_same {
            return false;
        }
    }
    true
}

/// Whether both readers read the same in a text of at most so many vertices, or find the same fault in it.
pub(crate) fn agree(alloc: Global, text: &[u8], kind: LadKind, most: u32) -> bool {
    match (
        read_lad(alloc, text, kind, most),
        vertices_in(alloc, text, kind, most),
    ) {
        (Ok(parts), Ok(vertices)) => are_same(&parts, &vertices),
        (Err(fault), Err(plain)) => fault == plain && fault != LadFault::NoMemory,
        _ => false,
    }
}

/// The number of the first text on which they do not agree.
fn first_difference(
    alloc: Global,
    kind: LadKind,
    texts: &[&[u8]],
) -> Result<Option<u64>, AllocError> {
    for number in 0..TEXTS {
        let text = spoilt(alloc, &mut Random::new(number), texts, &NUMBERS)?;
        if !agree(alloc, &text, kind, MOST) {
            return Ok(Some(number));
        }
    }
    Ok(None)
}

/// Texts without labels.
static PLAIN: [&[u8]; 6] = [
    b"0\n",
    b"2\n1 1\n1 0\n",
    b"3\n2 1 2\n2 0 2\n2 0 1\n",
    b"4\n2 1 3\n2 0 2\n2 1 3\n2 0 2\n",
    b"2\n3 0 1 1\n0\n",
    b"8\n1 7\n0\n0\n2 3 3\n0\n1 0\n0\n1 0\n",
];

#[test]
fn spoilt_graphs(rt: HostRuntime) -> Result<(), Fail> {
    none_differs(first_difference(rt.alloc(), LadKind::Lad, &PLAIN)?)
}

#[test]
fn spoilt_graphs_with_directions(rt: HostRuntime) -> Result<(), Fail> {
    none_differs(first_difference(rt.alloc(), LadKind::DirectedLad, &PLAIN)?)
}

/// Texts with labels of vertices.
static LABELLED: [&[u8]; 4] = [
    b"0\n",
    b"2\n1 1 1\n2 1 0\n",
    b"3\n2 1 1\n1 2 0 2\n3 1 1\n",
    b"4\n4294967295 0\n0 2 2 2\n7 1 1\n7 1 3\n",
];

#[test]
fn spoilt_graphs_with_labels(rt: HostRuntime) -> Result<(), Fail> {
    let found = first_difference(rt.alloc(), LadKind::VertexLabelledLad, &LABELLED)?;
    none_differs(found)
}

/// Texts with labels of vertices and edges.
static LABELLED_EDGES: [&[u8]; 4] = [
    b"0\n",
    b"2\n5 1 1 7\n6 0\n",
    b"2\n0 3 1 7 1 7 0 1\n0 1 0 7\n",
    b"3\n1 2 1 4294967295 2 0\n1 2 0 3 2 3\n2 1 2 2\n",
];

#[test]
fn spoilt_graphs_with_labels_of_edges(rt: HostRuntime) -> Result<(), Fail> {
    let found = first_difference(rt.alloc(), LadKind::LabelledLad, &LABELLED_EDGES)?;
    none_differs(found)
}
