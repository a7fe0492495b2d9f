//! Worked rows of consistent values.

ghost use Rattle.std.specs.Prelude.{◌≡◌, ◌<◌, IsTrue};
ghost use Rattle.graph_theory.specs.Graph.{size};

use crate::problems::problem_of;
use graph_rows::Problem;
use lad_reader::LadKind;
use pair_supports::{MOST_WORDS, PairKinds, PairSupports, RowsAt};
use std::alloc::{AllocError, Global};
use std::test::Fail;
use test_support::{APART, EDGE, Example, FOUR_CYCLE, PATH, TRIANGLE, all_hold};

const LAD: LadKind = LadKind::Lad;

const DIRECTED: LadKind = LadKind::DirectedLad;

/// Two neighbours, of which the first has a loop, and a vertex apart.
const LOOP: &[u8] = b"3 2 0 1 1 0 0";

/// Whether `p` and `r` are two vertices of the pattern.
fn are_two(q: &Problem, p: u16, r: u16) -> bool
    ensures { IsTrue result → (p < size q.now.pattern) × ((r < size q.now.pattern) × (p ≡ r → ⊥)) }
{
    let vertices = q.pattern().size();
    p < vertices && r < vertices && p != r
}

/// The texts of a pattern and a target of this format, whether the copy is to be induced, two vertices of the pattern and a value of the first,
/// and the values of the second that go together with it, as one word.
struct Worked(
    LadKind,
    &'static [u8],
    &'static [u8],
    bool,
    (u16, u16),
    u16,
    u64,
);

/// What rows of a vertex at a value tell of another vertex.
#[derive(Clone, Copy)]
struct Looked {
    /// The values of the other vertex that go together with it, as one word.
    word: Option<u64>,
    /// Whether the other vertex is asked nothing but another image.
    is_free: bool,
    /// The first neighbour of the value, where the other vertex is asked nothing but an image that is no neighbour of the value, nor the value.
    alone: Option<u16>,
    /// The same, where the value's neighbours are listed.
    first: Option<u16>,
}

/// The first neighbour of `t`, where its neighbours are listed.
fn first_neighbour(kinds: &PairKinds, q: &Problem, t: u16) -> Option<u16>
    requires t_in { t < size q.now.target }
    requires same { kinds.now.problem ≡ q.now }
{
    kinds.neighbours(t)?.first().copied()
}

/// The same of the value, where `r` is asked nothing but an image that is none of them, nor the value.
fn first_alone(at: &RowsAt, r: u16) -> Option<u16>
    requires r_in { r < size at.now.problem.pattern }
    requires apart { at.now.vertex ≡ r → ⊥ }
{
    at.near_alone(r)?.first().copied()
}

/// What the rows tell of `r`, with this first neighbour.
fn told(at: &RowsAt, r: u16, first: Option<u16>) -> Looked
    requires r_in { r < size at.now.problem.pattern }
    requires apart { at.now.vertex ≡ r → ⊥ }
{
    Looked {
        word: at.row(r).first().copied(),
        is_free: at.is_free(r),
        alone: first_alone(at, r),
        first,
    }
}

/// The same of rows at `t` that are made where rows were made at another vertex before.
fn made(rows: &mut PairSupports, p: u16, r: u16, t: u16, first: Option<u16>) -> Looked
    requires p_in { p < size rows.old.problem.pattern }
    requires r_in { r < size rows.old.problem.pattern }
    requires apart { p ≡ r → ⊥ }
    requires t_in { t < size rows.old.problem.target }
{
    rows.make(0);
    rows.make(t);
    rows.make(t);
    told(&rows.at(p, t), r, first)
}

/// The same of new rows of these kinds.
fn made_of(alloc: Global, q: &Problem, kinds: &PairKinds, p: u16, r: u16, t: u16) -> Option<Looked>
    requires same { kinds.now.problem ≡ q.now }
    requires p_in { p < size q.now.pattern }
    requires r_in { r < size q.now.pattern }
    requires apart { p ≡ r → ⊥ }
    requires t_in { t < size q.now.target }
{
    let first = first_neighbour(kinds, q, t);
    let mut rows = PairSupports::new(alloc, kinds, MOST_WORDS).ok()?;
    Some(made(&mut rows, p, r, t, first))
}

/// The same of two vertices and a value of a problem, where they are some.
fn look(alloc: Global, q: &Problem, (p, r): (u16, u16), t: u16) -> Option<Looked> {
    if !are_two(q, p, r) || t >= q.target().size() {
        return None;
    }
    let kinds = PairKinds::new(alloc, q).ok()?;
    made_of(alloc, q, &kinds, p, r, t)
}

/// The same of the problem of two texts of this format.
fn look_in(
    alloc: Global,
    kind: LadKind,
    (pattern, target): (&[u8], &[u8]),
    induced: bool,
    vertices: (u16, u16),
    t: u16,
) -> Option<Looked> {
    let q = problem_of(alloc, kind, pattern, target, induced)?;
    look(alloc, &q, vertices, t)
}

impl<R> Example<R> for Worked {
    fn holds(&self, _rt: &R, alloc: Global) -> Result<bool, AllocError> {
        let Worked(kind, pattern, target, induced, vertices, t, word) = *self;
        match look_in(alloc, kind, (pattern, target), induced, vertices, t) {
            Some(seen) => Ok(seen.word == Some(word)),
            None => Ok(false),
        }
    }
}

static WORKED: [Worked; 7] = [
    Worked(LAD, EDGE, FOUR_CYCLE, false, (0, 1), 0, 0b1010),
    Worked(LAD, EDGE, FOUR_CYCLE, true, (1, 0), 1, 0b0101),
    Worked(LAD, TRIANGLE, FOUR_CYCLE, false, (0, 1), 3, 0),
    Worked(LAD, APART, FOUR_CYCLE, false, (0, 1), 2, 0b1011),
    Worked(LAD, APART, FOUR_CYCLE, true, (0, 1), 2, 0b0001),
    Worked(LAD, PATH, FOUR_CYCLE, false, (0, 2), 0, 0b0100),
    Worked(LAD, PATH, FOUR_CYCLE, false, (1, 2), 3, 0b0101),
];

#[test]
fn rows_hold_what_goes_together(rt: HostRuntime) -> Result<(), Fail> {
    all_hold(&rt, rt.alloc(), &WORKED)
}

/// An edge from the first vertex to the second.
const ARC: &[u8] = b"2 1 1 0";

/// Edges round three vertices, and a vertex apart.
const ROUND: &[u8] = b"4 1 1 1 2 1 0 0";

/// Edges from the first vertex to two others, and a vertex apart.
const FORK: &[u8] = b"4 2 1 2 0 0 0";

/// Edges from two vertices to the first, and a vertex apart.
const MEET: &[u8] = b"4 0 1 0 1 0 0";

static ALONG_EDGES: [Worked; 7] = [
    Worked(DIRECTED, ARC, ROUND, false, (0, 1), 0, 0b0010),
    Worked(DIRECTED, ARC, ROUND, false, (1, 0), 0, 0b0100),
    Worked(DIRECTED, APART, ROUND, true, (0, 1), 0, 0b1000),
    // the two ends of a fork share an in-neighbour, and no neighbour
    Worked(DIRECTED, FORK, FORK, false, (1, 2), 1, 0b0100),
    Worked(DIRECTED, FORK, MEET, false, (1, 2), 1, 0),
    Worked(DIRECTED, MEET, MEET, false, (1, 2), 1, 0b0100),
    Worked(DIRECTED, MEET, FORK, false, (1, 2), 1, 0),
];

#[test]
fn rows_hold_what_goes_together_along_edges(rt: HostRuntime) -> Result<(), Fail> {
    all_hold(&rt, rt.alloc(), &ALONG_EDGES)
}

/// A pattern, whether its copy in a cycle is to be induced, two of its vertices, and whether the second is asked nothing but another image than
/// that of the first, which is the first of the cycle.
struct Free(&'static [u8], bool, (u16, u16), bool);

impl<R> Example<R> for Free {
    fn holds(&self, _rt: &R, alloc: Global) -> Result<bool, AllocError> {
        match look_in(alloc, LAD, (self.0, FOUR_CYCLE), self.1, self.2, 0) {
            Some(seen) => Ok(seen.is_free == self.3),
            None => Ok(false),
        }
    }
}

/// Vertices apart are free, but in the induced kind; neighbours and vertices that share one are not.
static FREE: [Free; 4] = [
    Free(APART, false, (0, 1), true),
    Free(APART, true, (0, 1), false),
    Free(EDGE, false, (1, 0), false),
    Free(PATH, false, (0, 2), false),
];

#[test]
fn only_vertices_apart_are_free(rt: HostRuntime) -> Result<(), Fail> {
    all_hold(&rt, rt.alloc(), &FREE)
}

/// A problem of the induced kind, two vertices of its pattern and a value of the first, and what is so of them.
struct Near {
    pattern: &'static [u8],
    target: &'static [u8],
    vertices: (u16, u16),
    value: u16,
    /// The first neighbour of the value, where its neighbours are listed.
    first: Option<u16>,
    /// The same, where the second vertex is asked nothing but an image that is no neighbour of the value, nor the value.
    alone: Option<u16>,
    /// The values of the second vertex that go together with it, as one word.
    word: u64,
}

impl<R> Example<R> for Near {
    fn holds(&self, _rt: &R, alloc: Global) -> Result<bool, AllocError> {
        match look_in(
            alloc,
            LAD,
            (self.pattern, self.target),
            true,
            self.vertices,
            self.value,
        ) {
            Some(seen) => Ok(
                seen.word == Some(self.word)
                    && seen.first == self.first
                    && seen.alone == self.alone,
            ),
            None => Ok(false),
        }
    }
}

static NEAR: [Near; 5] = [
    Near {
        pattern: APART,
        target: PATH,
        vertices: (0, 1),
        value: 0,
        first: Some(1),
        alone: Some(1),
        word: 0b100,
    },
    Near {
        pattern: APART,
        target: PATH,
        vertices: (0, 1),
        value: 1,
        first: None,
        alone: None,
        word: 0,
    },
    Near {
        pattern: APART,
        target: LOOP,
        vertices: (1, 0),
        value: 0,
        first: Some(1),
        alone: Some(1),
        word: 0b100,
    },
    Near {
        pattern: PATH,
        target: PATH,
        vertices: (0, 2),
        value: 2,
        first: Some(1),
        alone: None,
        word: 0b001,
    },
    Near {
        pattern: PATH,
        target: PATH,
        vertices: (0, 1),
        value: 0,
        first: Some(1),
        alone: None,
        word: 0b010,
    },
];

#[test]
fn few_neighbours_are_listed(rt: HostRuntime) -> Result<(), Fail> {
    all_hold(&rt, rt.alloc(), &NEAR)
}
