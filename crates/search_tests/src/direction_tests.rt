//! Worked rows and degrees of both directions.

ghost use Rattle.graph_theory.specs.Graph.{size};

use crate::asked::{
    AskedOfGraph, AskedOfProblem, Text, Texts, all_graphs_are_so, all_problems_are_so,
};
use graph_rows::{Graph, Problem};
use graph_theory::direction::Direction;
use lad_reader::LadKind;
use std::alloc::Global;
use std::test::Fail;
use test_support::PATH;

const PLAIN: LadKind = LadKind::Lad;

const DIRECTED: LadKind = LadKind::DirectedLad;

/// Edges from 0 to 1 and 2, from 1 to itself and 2, and from 3 to 2.
const MIXED: &[u8] = b"4 2 1 2 2 1 2 0 1 2";

/// Whether these are the row of `a` in a direction, and the row the other way round.
fn are_rows(graph: &Graph, direction: Direction, a: u16, row: u64, back: u64) -> bool {
    a < graph.size()
        && graph.row_by(direction, a) == [row].as_slice()
        && graph.in_row_by(direction, a) == [back].as_slice()
}

/// Whether these are the degree of `a` in a direction, as it is counted for one vertex and for all, and the degree the other way round.
fn are_degrees(graph: &Graph, direction: Direction, a: u16, degree: u16, back: u16) -> bool {
    a < graph.size()
        && graph.degree_by(direction, a) == degree
        && graph.degrees_by(direction)[usize::from(a)] == degree
        && graph.in_degree_by(direction, a) == back
}

/// A graph's text, a direction, a vertex, its row, and the row the other way round.
struct Rows(LadKind, &'static [u8], Direction, u16, u64, u64);

impl AskedOfGraph for Rows {
    fn text(&self) -> Text {
        (self.0, self.1)
    }

    fn is_so(&self, _alloc: Global, graph: &Graph) -> bool {
        are_rows(graph, self.2, self.3, self.4, self.5)
    }
}

static ROWS: [Rows; 6] = [
    Rows(DIRECTED, MIXED, Direction::Out, 0, 0b0110, 0),
    Rows(DIRECTED, MIXED, Direction::Out, 1, 0b0110, 0b0011),
    Rows(DIRECTED, MIXED, Direction::In, 1, 0b0011, 0b0110),
    Rows(DIRECTED, MIXED, Direction::In, 2, 0b1011, 0),
    // without directions both are the same
    Rows(PLAIN, PATH, Direction::Out, 1, 0b101, 0b101),
    Rows(PLAIN, PATH, Direction::In, 1, 0b101, 0b101),
];

#[test]
fn rows_are_those_of_their_direction(rt: HostRuntime) -> Result<(), Fail> {
    all_graphs_are_so(rt.alloc(), &ROWS)
}

/// A direction, a vertex of a few edges, its degree, and the degree the other way round.
struct Degrees(Direction, u16, u16, u16);

impl AskedOfGraph for Degrees {
    fn text(&self) -> Text {
        (DIRECTED, MIXED)
    }

    fn is_so(&self, _alloc: Global, graph: &Graph) -> bool {
        are_degrees(graph, self.0, self.1, self.2, self.3)
    }
}

static DEGREES: [Degrees; 4] = [
    Degrees(Direction::Out, 0, 2, 0),
    Degrees(Direction::Out, 1, 1, 1),
    Degrees(Direction::In, 0, 0, 2),
    Degrees(Direction::In, 2, 3, 0),
];

#[test]
fn degrees_are_those_of_their_direction(rt: HostRuntime) -> Result<(), Fail> {
    all_graphs_are_so(rt.alloc(), &DEGREES)
}

/// A pattern, a target, and whether edges of such a problem are known to stand both ways.
struct Mutual(Text, Text, bool);

impl AskedOfProblem for Mutual {
    fn texts(&self) -> Texts {
        Texts(self.0, self.1, false)
    }

    fn is_so(&self, _alloc: Global, q: &Problem) -> bool {
        q.is_mutual() == self.2
    }
}

static MUTUAL: [Mutual; 5] = [
    Mutual((PLAIN, PATH), (PLAIN, PATH), true),
    Mutual((DIRECTED, PATH), (PLAIN, PATH), true),
    Mutual((DIRECTED, PATH), (DIRECTED, PATH), true),
    Mutual((DIRECTED, MIXED), (PLAIN, PATH), false),
    Mutual((PLAIN, PATH), (DIRECTED, MIXED), false),
];

#[test]
fn a_problem_is_mutual_where_each_edge_of_both_graphs_has_one_back(
    rt: HostRuntime,
) -> Result<(), Fail> {
    all_problems_are_so(rt.alloc(), &MUTUAL)
}
