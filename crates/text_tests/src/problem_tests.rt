//! The plain tests of mappings and paths on worked pairs of graphs, from their texts.

use graph_theory::lad_text::{LadFault, LadKind};
use graph_theory::listed_graph::ListedGraph;
use graph_theory::plain_lad::vertices_in;
use graph_theory::trial::ListedProblem;
use std::alloc::{AllocError, Global};
use std::test::Fail;
use test_support::{Example, all_hold};

const LAD: LadKind = LadKind::Lad;

const LABELLED: LadKind = LadKind::VertexLabelledLad;

const DIRECTED: LadKind = LadKind::DirectedLad;

const EDGES: LadKind = LadKind::LabelledLad;

const TRIANGLE: &[u8] = b"3\n2 1 2\n2 0 2\n2 0 1\n";

const PATH: &[u8] = b"3\n1 1\n2 0 2\n1 1\n";

const FOUR_CYCLE: &[u8] = b"4\n2 1 3\n2 0 2\n2 1 3\n2 0 2\n";

/// The problem of two texts.
fn problem(
    alloc: Global,
    kind: LadKind,
    pattern: &[u8],
    target: &[u8],
    induced: bool,
) -> Result<ListedProblem, LadFault> {
    let pattern = vertices_in(alloc, pattern, kind, 1024)?;
    let target = vertices_in(alloc, target, kind, 8192)?;
    Ok(ListedProblem::new(
        ListedGraph::new(kind, pattern),
        ListedGraph::new(kind, target),
        induced,
    ))
}

/// Whether no embedding extends a path, or one may, as told.
fn is_dead_so(
    alloc: Global,
    q: &ListedProblem,
    path: &[(u32, u32)],
    dead: bool,
) -> Result<bool, AllocError> {
    Ok(q.is_dead(alloc, path)? == dead)
}

/// Two graphs of a format, whether induced, a mapping, whether it embeds, and whether none does.
struct Pair(
    LadKind,
    &'static [u8],
    &'static [u8],
    bool,
    &'static [u32],
    bool,
    bool,
);

impl<R> Example<R> for Pair {
    fn holds(&self, _rt: &R, alloc: Global) -> Result<bool, AllocError> {
        let Pair(kind, pattern, target, induced, map, embeds, none) = *self;
        match problem(alloc, kind, pattern, target, induced) {
            Ok(q) if q.is_embedding(map) == embeds => is_dead_so(alloc, &q, &[], none),
            _ => Ok(false),
        }
    }
}

static PAIRS: [Pair; 22] = [
    // nothing into nothing
    Pair(LAD, b"0\n", b"0\n", false, &[], true, false),
    // a vertex into nothing
    Pair(LAD, b"1\n0\n", b"0\n", false, &[], false, true),
    // three vertices into two
    Pair(
        LAD,
        b"3\n0\n0\n0\n",
        b"2\n0\n0\n",
        false,
        &[0, 1, 0],
        false,
        true,
    ),
    // a path into a triangle
    Pair(LAD, PATH, TRIANGLE, false, &[0, 1, 2], true, false),
    // induced, there is a further edge
    Pair(LAD, PATH, TRIANGLE, true, &[0, 1, 2], false, true),
    // a loop into a loop
    Pair(LAD, b"1\n1 0\n", b"2\n0\n1 1\n", false, &[1], true, false),
    // a loop into none
    Pair(LAD, b"1\n1 0\n", b"2\n0\n1 1\n", false, &[0], false, false),
    // induced, no loop into none
    Pair(LAD, b"1\n0\n", b"2\n0\n1 1\n", true, &[0], true, false),
    // induced, no loop into a loop
    Pair(LAD, b"1\n0\n", b"2\n0\n1 1\n", true, &[1], false, false),
    // two vertices to one
    Pair(
        LAD,
        b"2\n0\n0\n",
        b"2\n0\n0\n",
        false,
        &[1, 1],
        false,
        false,
    ),
    // too short a mapping
    Pair(
        LAD,
        b"2\n1 1\n0\n",
        b"2\n1 1\n0\n",
        false,
        &[0],
        false,
        false,
    ),
    // a largest label into itself
    Pair(
        LABELLED,
        b"1\n4294967295 0\n",
        b"1\n4294967295 0\n",
        false,
        &[0],
        true,
        false,
    ),
    // and into another
    Pair(
        LABELLED,
        b"1\n4294967295 0\n",
        b"1\n0 0\n",
        false,
        &[0],
        false,
        true,
    ),
    // labels lead
    Pair(
        LABELLED,
        b"2\n1 1 1\n2 1 0\n",
        b"3\n2 1 1\n1 2 0 2\n3 1 1\n",
        false,
        &[1, 0],
        true,
        false,
    ),
    // a cycle into one that does not close
    Pair(
        DIRECTED,
        b"3\n1 1\n1 2\n1 0\n",
        b"3\n2 1 2\n1 2\n0\n",
        false,
        &[0, 1, 2],
        false,
        true,
    ),
    // edges that lead out into edges that lead in
    Pair(
        DIRECTED,
        b"3\n2 1 2\n0\n0\n",
        b"3\n0\n1 0\n1 0\n",
        false,
        &[0, 1, 2],
        false,
        true,
    ),
    // an edge the other way round
    Pair(
        DIRECTED,
        b"2\n1 1\n0\n",
        b"2\n0\n1 0\n",
        false,
        &[1, 0],
        true,
        false,
    ),
    // induced, there is an edge back
    Pair(
        DIRECTED,
        b"2\n1 1\n0\n",
        b"2\n1 1\n1 0\n",
        true,
        &[0, 1],
        false,
        true,
    ),
    // labels of vertices and edges lead
    Pair(
        EDGES,
        b"2\n5 1 1 7\n6 0\n",
        b"2\n6 0\n5 1 0 7\n",
        false,
        &[1, 0],
        true,
        false,
    ),
    // another label of the edge
    Pair(
        EDGES,
        b"2\n5 1 1 7\n6 0\n",
        b"2\n6 0\n5 1 0 8\n",
        false,
        &[1, 0],
        false,
        true,
    ),
    // a loop with another label
    Pair(
        EDGES,
        b"1\n0 1 0 7\n",
        b"1\n0 1 0 8\n",
        false,
        &[0],
        false,
        true,
    ),
    // induced, an edge of some label between the images
    Pair(
        EDGES,
        b"2\n0 0\n0 0\n",
        b"2\n0 1 1 7\n0 0\n",
        true,
        &[0, 1],
        false,
        true,
    ),
];

#[test]
fn decides_pairs(rt: HostRuntime) -> Result<(), Fail> {
    all_hold(&rt, rt.alloc(), &PAIRS)
}

/// A path for three vertices in a row and a cycle of four, and whether no embedding extends it.
struct Path(&'static [(u32, u32)], bool);

impl<R> Example<R> for Path {
    fn holds(&self, _rt: &R, alloc: Global) -> Result<bool, AllocError> {
        let Path(path, dead) = *self;
        match problem(alloc, LAD, PATH, FOUR_CYCLE, false) {
            Ok(q) => is_dead_so(alloc, &q, path, dead),
            Err(_) => Ok(false),
        }
    }
}

static PATHS: [Path; 3] = [
    // the ends on opposite corners
    Path(&[(0, 0), (2, 2)], false),
    // the ends on neighbouring corners
    Path(&[(0, 0), (2, 1)], true),
    // a vertex that the pattern lacks
    Path(&[(5, 0)], true),
];

#[test]
fn finds_dead_paths(rt: HostRuntime) -> Result<(), Fail> {
    all_hold(&rt, rt.alloc(), &PATHS)
}
