//! The plain tests of mappings of all kinds, and of images in order, on worked pairs of graphs.

use graph_theory::embedding::Maps;
use graph_theory::lad_text::{LadFault, LadKind};
use graph_theory::listed_graph::ListedGraph;
use graph_theory::plain_lad::vertices_in;
use graph_theory::trial::ListedProblem;
use std::alloc::{AllocError, Global};
use std::test::Fail;
use test_support::{Example, all_hold};

const EDGE: &[u8] = b"2\n1 1\n1 0\n";

const PATH: &[u8] = b"3\n1 1\n2 0 2\n1 1\n";

const TRIANGLE: &[u8] = b"3\n2 1 2\n2 0 2\n2 0 1\n";

const FOUR_CYCLE: &[u8] = b"4\n2 1 3\n2 0 2\n2 1 3\n2 0 2\n";

const SIX_CYCLE: &[u8] = b"6\n2 1 5\n2 0 2\n2 1 3\n2 2 4\n2 3 5\n2 4 0\n";

const LOOP: &[u8] = b"1\n1 0\n";

/// The graph of a text.
fn graph(alloc: Global, text: &[u8]) -> Result<ListedGraph, LadFault> {
    let vertices = vertices_in(alloc, text, LadKind::Lad, 1024)?;
    Ok(ListedGraph::new(LadKind::Lad, vertices))
}

/// These pairs, in memory of their own.
fn pairs_of(alloc: Global, pairs: &[(u32, u32)]) -> Result<Vec<(u32, u32)>, AllocError> {
    let mut made = Vec::new(alloc);
    for (a, b) in pairs {
        made.push((*a, *b))?;
    }
    Ok(made)
}

/// Two graphs, which images have to differ, which pairs are to be in order, a mapping, whether it embeds, and whether none does.
struct Mapped(
    &'static [u8],
    &'static [u8],
    Maps,
    &'static [(u32, u32)],
    &'static [u32],
    bool,
    bool,
);

impl Mapped {
    /// The problem that is asked.
    fn problem(&self, alloc: Global) -> Result<ListedProblem, LadFault> {
        let pattern = graph(alloc, self.0)?;
        let target = graph(alloc, self.1)?;
        let less = pairs_of(alloc, self.3)?;
        Ok(ListedProblem::mapped(pattern, target, self.2).with_less(less))
    }
}

impl<R> Example<R> for Mapped {
    fn holds(&self, _rt: &R, alloc: Global) -> Result<bool, AllocError> {
        let Ok(q) = self.problem(alloc) else {
            return Ok(false);
        };
        if q.is_embedding(self.4) != self.5 {
            return Ok(false);
        }
        Ok(q.is_dead(alloc, &[])? == self.6)
    }
}

static MAPPED: [Mapped; 16] = [
    // a path into one edge: both its ends are near the middle
    Mapped(PATH, EDGE, Maps::Injective, &[], &[0, 1, 0], false, true),
    Mapped(PATH, EDGE, Maps::Local, &[], &[0, 1, 0], false, true),
    Mapped(PATH, EDGE, Maps::Any, &[], &[0, 1, 0], true, false),
    // a cycle of six goes twice round a triangle
    Mapped(
        SIX_CYCLE,
        TRIANGLE,
        Maps::Local,
        &[],
        &[0, 1, 2, 0, 1, 2],
        true,
        false,
    ),
    Mapped(
        SIX_CYCLE,
        TRIANGLE,
        Maps::Injective,
        &[],
        &[0, 1, 2, 0, 1, 2],
        false,
        true,
    ),
    // a cycle of four does not, and folds
    Mapped(
        FOUR_CYCLE,
        TRIANGLE,
        Maps::Local,
        &[],
        &[0, 1, 0, 1],
        false,
        true,
    ),
    Mapped(
        FOUR_CYCLE,
        TRIANGLE,
        Maps::Any,
        &[],
        &[0, 1, 0, 1],
        true,
        false,
    ),
    // a triangle into a loop
    Mapped(TRIANGLE, LOOP, Maps::Any, &[], &[0, 0, 0], true, false),
    Mapped(TRIANGLE, LOOP, Maps::Local, &[], &[0, 0, 0], false, true),
    // an edge into a loop: neither end has two neighbours
    Mapped(EDGE, LOOP, Maps::Local, &[], &[0, 0], true, false),
    Mapped(EDGE, LOOP, Maps::Injective, &[], &[0, 0], false, true),
    // an edge into itself, one way
    Mapped(EDGE, EDGE, Maps::Injective, &[(0, 1)], &[0, 1], true, false),
    Mapped(
        EDGE,
        EDGE,
        Maps::Injective,
        &[(1, 0)],
        &[0, 1],
        false,
        false,
    ),
    // both ways at once
    Mapped(
        EDGE,
        EDGE,
        Maps::Injective,
        &[(0, 1), (1, 0)],
        &[0, 1],
        false,
        true,
    ),
    // images in order are two
    Mapped(EDGE, LOOP, Maps::Any, &[(0, 1)], &[0, 0], false, true),
    // a pair with a vertex that is none asks nothing
    Mapped(EDGE, EDGE, Maps::Injective, &[(0, 2)], &[1, 0], true, false),
];

#[test]
fn decides_by_the_kind_of_maps(rt: HostRuntime) -> Result<(), Fail> {
    all_hold(&rt, rt.alloc(), &MAPPED)
}
