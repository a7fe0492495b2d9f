//! Worked sequences.

ghost use Rattle.graph_theory.specs.Graph.{size};

use crate::asked::{AskedOfProblem, Texts, all_problems_are_so};
use graph_rows::{Graph, Problem};
use graph_theory::direction::Direction;
use lad_reader::LadKind;
use nds_filter::{KeptRows, SequenceAnswer, Sequences, keeps};
use std::alloc::Global;
use std::test::Fail;
use test_support::{EDGE, TRIANGLE};

const PLAIN: LadKind = LadKind::Lad;

const DIRECTED: LadKind = LadKind::DirectedLad;

const LONG_PATH: &[u8] = b"4 1 1 2 0 2 2 1 3 1 2";

/// Edges from each of three vertices to the next.
const ALONG: &[u8] = b"3 1 1 1 2 0";

/// Edges from 0 to 1 and 2, from 1 to itself and 2, and from 3 to 2.
const MIXED: &[u8] = b"4 2 1 2 2 1 2 0 1 2";

/// The answer for two vertices, by the sequences of their graphs.
fn answer_for(ps: &Sequences, ts: &Sequences, p: u16, t: u16) -> Option<SequenceAnswer> {
    if usize::from(p) >= ps.len() || usize::from(t) >= ts.len() {
        return None;
    }
    Some(keeps(ps, ts, p, t))
}

/// The answer for two vertices of two graphs in a direction.
fn answer_by(
    alloc: Global,
    pattern: &Graph,
    target: &Graph,
    direction: Direction,
    p: u16,
    t: u16,
) -> Option<SequenceAnswer> {
    let ps = Sequences::new(alloc, pattern, direction).ok()?;
    let ts = Sequences::new(alloc, target, direction).ok()?;
    answer_for(&ps, &ts, p, t)
}

/// The texts of a pattern and a target, a direction, a vertex of each, and the answer for them.
struct Compared(
    LadKind,
    &'static [u8],
    &'static [u8],
    Direction,
    (u16, u16),
    SequenceAnswer,
);

impl AskedOfProblem for Compared {
    fn texts(&self) -> Texts {
        Texts((self.0, self.1), (self.0, self.2), false)
    }

    fn is_so(&self, alloc: Global, q: &Problem) -> bool {
        let (p, t) = self.4;
        answer_by(alloc, q.pattern(), q.target(), self.3, p, t) == Some(self.5)
    }
}

const KEPT: SequenceAnswer = SequenceAnswer::Kept;

const FIRST: SequenceAnswer = SequenceAnswer::FailsAt(0);

const SECOND: SequenceAnswer = SequenceAnswer::FailsAt(1);

static COMPARED: [Compared; 9] = [
    Compared(PLAIN, TRIANGLE, LONG_PATH, Direction::Out, (0, 1), SECOND),
    Compared(PLAIN, LONG_PATH, TRIANGLE, Direction::Out, (1, 0), KEPT),
    Compared(PLAIN, TRIANGLE, EDGE, Direction::Out, (0, 0), FIRST),
    Compared(PLAIN, EDGE, LONG_PATH, Direction::Out, (1, 3), KEPT),
    Compared(PLAIN, LONG_PATH, LONG_PATH, Direction::Out, (1, 3), SECOND),
    Compared(DIRECTED, ALONG, MIXED, Direction::Out, (0, 0), KEPT),
    Compared(DIRECTED, ALONG, MIXED, Direction::Out, (0, 1), FIRST),
    Compared(DIRECTED, ALONG, MIXED, Direction::In, (2, 2), KEPT),
    Compared(DIRECTED, ALONG, MIXED, Direction::In, (2, 1), FIRST),
];

#[test]
fn sequences_are_compared_place_by_place(rt: HostRuntime) -> Result<(), Fail> {
    all_problems_are_so(rt.alloc(), &COMPARED)
}

/// The values whose sequences of a direction keep that of `p`, as one word.
fn kept_by(alloc: Global, q: &Problem, direction: Direction, p: u16) -> Option<u64> {
    if p >= q.pattern().size() {
        return None;
    }
    let rows = KeptRows::new(alloc, q, direction).ok()?;
    rows.row(p).first().copied()
}

/// The texts of a pattern and a target, a direction, a pattern vertex, and the values whose sequences keep its own.
struct KeptRow(LadKind, &'static [u8], &'static [u8], Direction, u16, u64);

impl AskedOfProblem for KeptRow {
    fn texts(&self) -> Texts {
        Texts((self.0, self.1), (self.0, self.2), false)
    }

    fn is_so(&self, alloc: Global, q: &Problem) -> bool {
        kept_by(alloc, q, self.3, self.4) == Some(self.5)
    }
}

static KEPT_ROWS: [KeptRow; 10] = [
    // vertices of one sequence have one row
    KeptRow(PLAIN, LONG_PATH, LONG_PATH, Direction::Out, 0, 0b1111),
    KeptRow(PLAIN, LONG_PATH, LONG_PATH, Direction::Out, 1, 0b0110),
    KeptRow(PLAIN, LONG_PATH, LONG_PATH, Direction::Out, 2, 0b0110),
    KeptRow(PLAIN, TRIANGLE, LONG_PATH, Direction::Out, 2, 0),
    // rows along the edges are by out-degrees
    KeptRow(DIRECTED, ALONG, MIXED, Direction::Out, 0, 0b0001),
    KeptRow(DIRECTED, ALONG, MIXED, Direction::Out, 1, 0b1011),
    KeptRow(DIRECTED, ALONG, MIXED, Direction::Out, 2, 0b1111),
    // rows against the edges are by in-degrees
    KeptRow(DIRECTED, ALONG, MIXED, Direction::In, 0, 0b1111),
    KeptRow(DIRECTED, ALONG, MIXED, Direction::In, 1, 0b0110),
    KeptRow(DIRECTED, ALONG, MIXED, Direction::In, 2, 0b0100),
];

#[test]
fn rows_hold_the_values_whose_sequences_keep_a_vertex(rt: HostRuntime) -> Result<(), Fail> {
    all_problems_are_so(rt.alloc(), &KEPT_ROWS)
}
