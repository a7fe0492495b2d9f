//! Worked counts.

ghost use Rattle.graph_theory.specs.Graph.{size};

use crate::asked::{AskedOfGraph, Text, all_graphs_are_so};
use common_neighbour::Counts;
use graph_rows::Graph;
use graph_theory::direction::Direction;
use lad_reader::LadKind;
use std::alloc::Global;
use std::test::Fail;
use test_support::{FOUR_CYCLE, TRIANGLE};

const PLAIN: LadKind = LadKind::Lad;

const DIRECTED: LadKind = LadKind::DirectedLad;

/// Vertices 0 and 1 and 2 with an edge between each two, vertex 3 with an edge to 0 and 1, and loops at 0 and 1.
const LOOPS: &[u8] = b"4 4 0 1 2 3 4 0 1 2 3 2 0 1 2 0 1";

/// Edges from 0 to 1 and 2, from 1 to itself and 2, and from 3 to 2.
const MIXED: &[u8] = b"4 2 1 2 2 1 2 0 1 2";

/// A path of vertices 0, 1 and 2 with a loop at 1, and a vertex without edges.
const PATH: &[u8] = b"4 1 1 3 0 1 2 1 1 0";

/// Two vertices of a text's graph, and their count.
struct Counted(&'static [u8], u16, u16, u16);

impl AskedOfGraph for Counted {
    fn text(&self) -> Text {
        (PLAIN, self.0)
    }

    fn is_so(&self, alloc: Global, graph: &Graph) -> bool {
        count_of(alloc, graph, self.1, self.2) == Some(self.3)
    }
}

static COUNTED: [Counted; 5] = [
    Counted(FOUR_CYCLE, 0, 2, 2),
    Counted(FOUR_CYCLE, 0, 1, 0),
    Counted(TRIANGLE, 0, 1, 1),
    Counted(TRIANGLE, 2, 0, 1),
    Counted(b"2 2 0 1 2 0 1", 0, 1, 0),
];

/// The count of two vertices of a graph.
fn count_of(alloc: Global, graph: &Graph, a: u16, b: u16) -> Option<u16> {
    if a >= graph.size() || b >= graph.size() || a == b {
        return None;
    }
    let counts = Counts::new(alloc, graph, Direction::Out).ok()?;
    Some(counts.count(a, b))
}

#[test]
fn counts_are_those_of_the_graph(rt: HostRuntime) -> Result<(), Fail> {
    all_graphs_are_so(rt.alloc(), &COUNTED)
}

/// A vertex of a graph of four vertices, a direction, and its counts with all others.
struct AllCounted(LadKind, &'static [u8], Direction, u16, [u16; 4]);

impl AskedOfGraph for AllCounted {
    fn text(&self) -> Text {
        (self.0, self.1)
    }

    fn is_so(&self, alloc: Global, graph: &Graph) -> bool {
        counts_by(alloc, graph, self.2, self.3) == Some(self.4)
    }
}

static ALL_COUNTED: [AllCounted; 7] = [
    AllCounted(PLAIN, FOUR_CYCLE, Direction::Out, 1, [0, 9, 0, 2]),
    AllCounted(PLAIN, LOOPS, Direction::Out, 1, [2, 9, 1, 1]),
    AllCounted(PLAIN, PATH, Direction::Out, 0, [9, 0, 1, 0]),
    AllCounted(DIRECTED, MIXED, Direction::Out, 0, [9, 1, 0, 1]),
    AllCounted(DIRECTED, MIXED, Direction::Out, 2, [0, 0, 9, 0]),
    AllCounted(DIRECTED, MIXED, Direction::In, 0, [9, 0, 0, 0]),
    AllCounted(DIRECTED, MIXED, Direction::In, 2, [0, 1, 9, 0]),
];

/// The counts of a vertex with all others in a direction, in a graph of four vertices.
fn counts_by(alloc: Global, graph: &Graph, direction: Direction, t: u16) -> Option<[u16; 4]> {
    if t >= graph.size() || graph.size() != 4 {
        return None;
    }
    let counts = Counts::new(alloc, graph, direction).ok()?;
    let mut found = [9u16; 4];
    counts.fill_counts(t, &mut found);
    Some(found)
}

#[test]
fn counts_of_a_direction_are_those_of_its_neighbours(rt: HostRuntime) -> Result<(), Fail> {
    all_graphs_are_so(rt.alloc(), &ALL_COUNTED)
}

/// A graph's text, a direction, a vertex, a number, and the vertices that share so many neighbours with it, as one word.
struct Near(LadKind, &'static [u8], Direction, u16, u16, u64);

impl AskedOfGraph for Near {
    fn text(&self) -> Text {
        (self.0, self.1)
    }

    fn is_so(&self, alloc: Global, graph: &Graph) -> bool {
        near_row(alloc, graph, self.2, self.3, self.4) == Some(self.5)
    }
}

/// The vertices of the graph that share so many neighbours of a direction with `t`, as one word.
fn near_row(
    alloc: Global,
    graph: &Graph,
    direction: Direction,
    t: u16,
    shared: u16,
) -> Option<u64> {
    if t >= graph.size() || graph.size() > 64 {
        return None;
    }
    let counts = Counts::new(alloc, graph, direction).ok()?;
    let mut row = [u64::MAX];
    counts.fill_at_least(t, shared, &mut row);
    Some(row[0])
}

static NEAR: [Near; 7] = [
    Near(PLAIN, FOUR_CYCLE, Direction::Out, 0, 0, 0b1110),
    Near(PLAIN, FOUR_CYCLE, Direction::Out, 0, 2, 0b0100),
    Near(PLAIN, FOUR_CYCLE, Direction::Out, 0, 3, 0),
    Near(PLAIN, TRIANGLE, Direction::Out, 1, 1, 0b101),
    Near(DIRECTED, MIXED, Direction::Out, 0, 1, 0b1010),
    Near(DIRECTED, MIXED, Direction::In, 0, 1, 0),
    Near(DIRECTED, MIXED, Direction::In, 2, 1, 0b0010),
];

#[test]
fn rows_hold_those_that_share_enough(rt: HostRuntime) -> Result<(), Fail> {
    all_graphs_are_so(rt.alloc(), &NEAR)
}
