//! Worked first domains.

ghost use Rattle.std.specs.Prelude.{◌≡◌, ◌<◌, IfSome};
ghost use Rattle.graph_theory.specs.Graph.{size};
ghost use Rattle.graph_theory.specs.Reversed.{reversed};
ghost use Rattle.nds_filter.specs.Sequences.{sequences};

use crate::asked::{AskedOfProblem, Texts, all_problems_are_so};
use graph_rows::{Graph, Problem};
use graph_theory::direction::Direction;
use initial_domains::{InitialDomains, fill_first, is_first};
use lad_reader::LadKind;
use nds_filter::Sequences;
use std::alloc::Global;
use std::test::Fail;
use test_support::{PATH, TRIANGLE};

const LOOP: &[u8] = b"1 1 0";

const POINT_AND_LOOP: &[u8] = b"2 0 1 1";

/// Edges round three vertices.
const ROUND: &[u8] = b"3 1 1 1 2 1 0";

/// Edges from each of three vertices to the next.
const ALONG: &[u8] = b"3 1 1 1 2 0";

/// Edges from each of three vertices to all that come later.
const RANKED: &[u8] = b"3 2 1 2 1 2 0";

/// Edges from the first of three vertices to the others.
const FORK: &[u8] = b"3 2 1 2 0 0";

/// Edges from the other two to the first.
const MEET: &[u8] = b"3 0 1 0 1 0";

/// The first domain of `p`, as one word, and whether it has what the test of single values lets through.
fn first(alloc: Global, q: &Problem, p: u16) -> Option<(u64, bool)> {
    if p >= q.pattern().size() || q.target().size() == 0 || q.target().size() > 64 {
        return None;
    }
    let by_values = first_by_values(alloc, q, p)?;
    let kept = InitialDomains::new(alloc, q).ok()?;
    let mut row = [u64::MAX];
    fill_first(q, &kept, p, &mut row);
    Some((row[0], row[0] == by_values))
}

/// The sequences of a graph along its edges.
fn along_edges(alloc: Global, graph: &Graph) -> Option<Sequences>
    ensures { IfSome result (λ s. s ≡ sequences graph.now) }
{
    Sequences::new(alloc, graph, Direction::Out).ok()
}

/// The sequences of a graph against its edges.
fn against_edges(alloc: Global, graph: &Graph) -> Option<Sequences>
    ensures { IfSome result (λ s. s ≡ sequences (reversed graph.now)) }
{
    Sequences::new(alloc, graph, Direction::In).ok()
}

/// The same word, made value by value.
fn first_by_values(alloc: Global, q: &Problem, p: u16) -> Option<u64>
    requires { p < size q.now.pattern }
{
    let ps = along_edges(alloc, q.pattern())?;
    let ts = along_edges(alloc, q.target())?;
    let in_ps = against_edges(alloc, q.pattern())?;
    let in_ts = against_edges(alloc, q.target())?;
    let mut word = 0;
    for t in 0..q.target().size() {
        if t < 64 && is_first(q, &ps, &ts, &in_ps, &in_ts, p, t) {
            word |= 1 << t;
        }
    }
    Some(word)
}

/// Two texts, with directions or without, a pattern vertex, and its first domain as one word.
struct FirstRow {
    directed: bool,
    pattern: &'static [u8],
    target: &'static [u8],
    induced: bool,
    vertex: u16,
    row: u64,
}

impl AskedOfProblem for FirstRow {
    fn texts(&self) -> Texts {
        let kind = if self.directed {
            LadKind::DirectedLad
        } else {
            LadKind::Lad
        };
        Texts((kind, self.pattern), (kind, self.target), self.induced)
    }

    fn is_so(&self, alloc: Global, q: &Problem) -> bool {
        first(alloc, q, self.vertex) == Some((self.row, true))
    }
}

static FIRST_ROWS: [FirstRow; 10] = [
    FirstRow {
        directed: false,
        pattern: PATH,
        target: TRIANGLE,
        induced: false,
        vertex: 1,
        row: 0b111,
    },
    FirstRow {
        directed: false,
        pattern: TRIANGLE,
        target: PATH,
        induced: false,
        vertex: 0,
        row: 0,
    },
    FirstRow {
        directed: false,
        pattern: PATH,
        target: PATH,
        induced: true,
        vertex: 1,
        row: 0b010,
    },
    FirstRow {
        directed: false,
        pattern: LOOP,
        target: POINT_AND_LOOP,
        induced: false,
        vertex: 0,
        row: 0b10,
    },
    FirstRow {
        directed: false,
        pattern: b"1 0",
        target: POINT_AND_LOOP,
        induced: true,
        vertex: 0,
        row: 0b01,
    },
    FirstRow {
        directed: false,
        pattern: b"1 0",
        target: POINT_AND_LOOP,
        induced: false,
        vertex: 0,
        row: 0b11,
    },
    FirstRow {
        directed: true,
        pattern: ROUND,
        target: RANKED,
        induced: false,
        vertex: 0,
        row: 0,
    },
    FirstRow {
        directed: true,
        pattern: ALONG,
        target: RANKED,
        induced: false,
        vertex: 1,
        row: 0b010,
    },
    FirstRow {
        directed: true,
        pattern: FORK,
        target: MEET,
        induced: false,
        vertex: 0,
        row: 0,
    },
    FirstRow {
        directed: true,
        pattern: FORK,
        target: MEET,
        induced: false,
        vertex: 1,
        row: 0b001,
    },
];

#[test]
fn first_domains_are_cut_by_each_filter(rt: HostRuntime) -> Result<(), Fail> {
    all_problems_are_so(rt.alloc(), &FIRST_ROWS)
}
