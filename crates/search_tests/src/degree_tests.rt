//! Worked degrees.

ghost use Rattle.graph_theory.specs.Graph.{size};

use crate::asked::{AskedOfProblem, Texts, all_problems_are_so};
use bit_rows::fill_below;
use degree_filter::{keep_degrees, keeps};
use graph_rows::Problem;
use graph_theory::direction::Direction;
use lad_reader::LadKind;
use std::alloc::Global;
use std::test::Fail;
use test_support::{PATH, TRIANGLE};

const PLAIN: LadKind = LadKind::Lad;

const DIRECTED: LadKind = LadKind::DirectedLad;

/// Edges from 0 to 1 and 2.
const FORK: &[u8] = b"3 2 1 2 0 0";

/// Edges from 0 to 1 and 2, from 1 to itself and 2, and from 3 to 2.
const MIXED: &[u8] = b"4 2 1 2 2 1 2 0 1 2";

/// The texts of a pattern and a target, a vertex of each, and whether the degrees of the second keep the first.
struct Kept(LadKind, &'static [u8], &'static [u8], u16, u16, bool);

/// Whether the degrees of `t` keep `p`.
fn is_kept(q: &Problem, p: u16, t: u16) -> Option<bool> {
    if p >= q.pattern().size() || t >= q.target().size() {
        return None;
    }
    Some(keeps(q, p, t))
}

impl AskedOfProblem for Kept {
    fn texts(&self) -> Texts {
        Texts((self.0, self.1), (self.0, self.2), false)
    }

    fn is_so(&self, _alloc: Global, q: &Problem) -> bool {
        is_kept(q, self.3, self.4) == Some(self.5)
    }
}

static KEPT: [Kept; 7] = [
    // its degree or more
    Kept(PLAIN, TRIANGLE, PATH, 0, 0, false),
    Kept(PLAIN, TRIANGLE, PATH, 0, 1, true),
    Kept(PLAIN, PATH, TRIANGLE, 0, 1, true),
    // both its degrees or more
    Kept(DIRECTED, FORK, MIXED, 0, 0, true),
    Kept(DIRECTED, FORK, MIXED, 0, 1, false),
    Kept(DIRECTED, FORK, MIXED, 1, 0, false),
    Kept(DIRECTED, FORK, MIXED, 1, 2, true),
];

#[test]
fn a_vertex_keeps_values_of_its_degrees_or_more(rt: HostRuntime) -> Result<(), Fail> {
    all_problems_are_so(rt.alloc(), &KEPT)
}

/// The values whose degrees of a direction keep `p`, as one word.
fn kept_row(q: &Problem, direction: Direction, p: u16) -> Option<u64> {
    let size = q.target().size();
    if p >= q.pattern().size() || size == 0 || size > 64 {
        return None;
    }
    let mut row = [u64::MAX];
    fill_below(&mut row, usize::from(size));
    keep_degrees(q, direction, p, &mut row);
    Some(row[0])
}

/// The texts of a pattern and a target, a pattern vertex, the values whose out-degrees keep it, and those whose in-degrees do.
struct KeptRows(LadKind, &'static [u8], &'static [u8], u16, u64, u64);

impl AskedOfProblem for KeptRows {
    fn texts(&self) -> Texts {
        Texts((self.0, self.1), (self.0, self.2), false)
    }

    fn is_so(&self, _alloc: Global, q: &Problem) -> bool {
        kept_row(q, Direction::Out, self.3) == Some(self.4)
            && kept_row(q, Direction::In, self.3) == Some(self.5)
    }
}

static KEPT_ROWS: [KeptRows; 4] = [
    KeptRows(PLAIN, TRIANGLE, PATH, 0, 0b010, 0b010),
    KeptRows(PLAIN, PATH, TRIANGLE, 1, 0b111, 0b111),
    KeptRows(DIRECTED, FORK, MIXED, 0, 0b0001, 0b1111),
    KeptRows(DIRECTED, FORK, MIXED, 1, 0b1111, 0b0110),
];

#[test]
fn a_row_keeps_values_by_the_degrees_of_its_direction(rt: HostRuntime) -> Result<(), Fail> {
    all_problems_are_so(rt.alloc(), &KEPT_ROWS)
}
