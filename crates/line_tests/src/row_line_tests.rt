//! The lines for a vertex at its place beside another.

ghost use Rattle.std.specs.Prelude.{◌≡◌, ◌<◌, true};
ghost use Rattle.graph_theory.specs.Graph.{size};

use crate::logs::{Log, Sample, is_log};
use graph_rows::Problem;
use journals::Journal;
use lad_reader::LadKind;
use log_theory::{Name, Ref};
use pair_lines::{PairLines, PlacedPair, row_line};
use pb_encoding::Encoding;
use std::alloc::{AllocError, Global};
use std::test::Fail;
use test_support::{APART, EDGE, Example, FOUR_CYCLE, TRIANGLE, all_hold};

/// Whether the three are vertices, and two of them not the same.
fn is_pair(q: &Problem, pair: PlacedPair) -> bool
    ensures p_in { result ≡ true → pair.p < size q.now.pattern }
    ensures t_in { result ≡ true → pair.t < size q.now.target }
    ensures r_in { result ≡ true → pair.r < size q.now.pattern }
    ensures others { result ≡ true → pair.p ≡ pair.r → ⊥ }
{
    let vertices = q.pattern().size();
    pair.p < vertices && pair.r < vertices && pair.t < q.target().size() && pair.p != pair.r
}

/// A pair of a table, which has `p`, `t` and `r` in this order.
fn placed(pair: (u16, u16, u16)) -> PlacedPair {
    PlacedPair {
        p: pair.0,
        t: pair.1,
        r: pair.2,
    }
}

/// A reference to the line for a vertex, its place and another vertex, which is made if it is not there.
fn ask(
    alloc: Global,
    lines: &Encoding,
    made: &mut PairLines,
    journal: &mut Journal,
    pair: PlacedPair,
) -> Result<Ref, AllocError> {
    let q = lines.problem();
    if is_pair(q, pair) {
        made.row(alloc, q, lines, journal, false, pair)
    } else {
        Err(AllocError)
    }
}

/// A line of the encoding, or one of owner 1.
pub enum Answer {
    There(u64),
    Made(u64),
}

/// The reference to it.
fn reference(answer: &Answer) -> Ref {
    match answer {
        Answer::There(number) => Ref::Line(*number),
        Answer::Made(number) => Ref::Made(Name {
            owner: 1,
            number: *number,
        }),
    }
}

/// What is asked of a problem, each with the answer, and the log of what was made for it.
struct Asked {
    sample: Sample,
    pairs: &'static [((u16, u16, u16), Answer)],
    log: Log,
}

/// Whether the answers are these.
pub fn are_answered(
    alloc: Global,
    lines: &Encoding,
    pairs: &[((u16, u16, u16), Answer)],
    journal: &mut Journal,
) -> Result<bool, AllocError> {
    let mut made = PairLines::new(alloc);
    for (pair, answer) in pairs {
        let line = ask(alloc, lines, &mut made, journal, placed(*pair))?;
        if line != reference(answer) {
            return Ok(false);
        }
    }
    Ok(true)
}

/// Whether the answers are these, and so are the lines, which a checker takes.
fn are_made(alloc: Global, lines: &Encoding, case: &Asked) -> Result<bool, AllocError> {
    let mut journal = Journal::new(alloc, 1);
    Ok(
        are_answered(alloc, lines, case.pairs, &mut journal)?
            && is_log(alloc, lines, &journal, &case.log)?,
    )
}

impl<R> Example<R> for Asked {
    fn holds(&self, _rt: &R, alloc: Global) -> Result<bool, AllocError> {
        match self.sample.problem(alloc) {
            Some(q) => are_made(alloc, &Encoding::new(alloc, &q)?, self),
            None => Ok(false),
        }
    }
}

const FOUR: &[u8] = b"4 3 1 2 3 3 0 2 3 3 0 1 3 3 0 1 2";

const THREE: &[u8] = b"5 3 2 3 4 3 2 3 4 2 0 1 2 0 1 2 0 1";

/// Two neighbours, of which the first has a loop.
pub const FIRST_WITH_LOOP: &[u8] = b"2 2 0 1 1 0";

const SECOND_WITH_LOOP: &[u8] = b"2 1 1 2 0 1";

static ASKED: [Asked; 14] = [
    // An edge: the edge's constraint, and that the other goes to one place.
    Asked {
        sample: Sample(EDGE, FOUR_CYCLE, LadKind::Lad, false),
        pairs: &[((0, 2, 1), Answer::Made(1))],
        log: Log {
            head: b"embedding proof 1\nm 16\n",
            lines: b"p 1.1 11 4 + ;\n",
            end: b"q\n",
        },
    },
    // No edge in the induced kind, and in the plain kind, where the constraint of the place serves.
    Asked {
        sample: Sample(APART, FOUR_CYCLE, LadKind::Lad, true),
        pairs: &[((1, 0, 0), Answer::Made(1))],
        log: Log {
            head: b"embedding proof 1\nm 16\n",
            lines: b"p 1.1 13 2 + ;\n",
            end: b"q\n",
        },
    },
    Asked {
        sample: Sample(APART, FOUR_CYCLE, LadKind::Lad, false),
        pairs: &[((0, 2, 1), Answer::There(7))],
        log: Log {
            head: b"embedding proof 1\nm 8\n",
            lines: b"",
            end: b"q\n",
        },
    },
    // One shared neighbour is counted by its own constraints.
    Asked {
        sample: Sample(TRIANGLE, FOUR, LadKind::Lad, false),
        pairs: &[((0, 0, 1), Answer::Made(1))],
        log: Log {
            head: b"embedding proof 1\nm 34\n",
            lines: b"p 1.1 4 2 * 11 + 4 * 15 + 32 + 33 + 34 + ;\n",
            end: b"q\n",
        },
    },
    Asked {
        sample: Sample(TRIANGLE, FOUR_CYCLE, LadKind::Lad, false),
        pairs: &[((0, 0, 1), Answer::Made(1))],
        log: Log {
            head: b"embedding proof 1\nm 34\n",
            lines: b"p 1.1 4 2 * 11 + 3 * 15 + 32 + 34 + ;\n",
            end: b"q\n",
        },
    },
    // Three: all that are not shared are left out.
    Asked {
        sample: Sample(THREE, THREE, LadKind::Lad, false),
        pairs: &[((0, 0, 1), Answer::Made(4))],
        log: Log {
            head: b"embedding proof 1\nm 75\n",
            lines: b"p 1.1 13 x3 + x8 + 2 * 53 + 63 + 73 + 3 d ;
p 1.2 14 x4 + x9 + 2 * 54 + 64 + 74 + 3 d ;
p 1.3 15 x5 + x10 + 2 * 55 + 65 + 75 + 3 d ;
p 1.4 4 11 + 4 * 16 + 21 + 26 + 1.1 + 1.2 + 1.3 + ;
",
            end: b"q\n",
        },
    },
    // Two, for several places: each line is made once, and the clauses of the two serve from either side.
    Asked {
        sample: Sample(FOUR_CYCLE, FOUR_CYCLE, LadKind::Lad, false),
        pairs: &[
            ((0, 0, 2), Answer::Made(5)),
            ((0, 2, 2), Answer::Made(6)),
            ((0, 0, 2), Answer::Made(5)),
            ((0, 1, 1), Answer::Made(7)),
            ((2, 0, 0), Answer::Made(10)),
        ],
        log: Log {
            head: b"embedding proof 1\nm 44\n",
            lines: b"u 1.1 ~x6 ~x14 ; 10 ;
p 1.2 1.1 26 + 42 + 2 d ;
u 1.3 ~x8 ~x16 ; 12 ;
p 1.4 1.3 28 + 44 + 2 d ;
p 1.5 6 9 + 3 * 13 + 17 + 1.2 + 1.4 + ;
p 1.6 6 11 + 3 * 15 + 19 + 1.2 + 1.4 + ;
p 1.7 14 4 + ;
p 1.8 1.1 22 + 38 + 2 d ;
p 1.9 1.3 24 + 40 + 2 d ;
p 1.10 2 9 + 3 * 29 + 33 + 1.8 + 1.9 + ;
",
            end: b"q\n",
        },
    },
    // Vertices with one neighbour and labels into a path, and a larger pattern than its target: labels and the number of values change no line.
    Asked {
        sample: Sample(
            b"2 1 1 1 2 1 0",
            b"3 1 1 1 3 2 0 2 2 1 1",
            LadKind::VertexLabelledLad,
            false,
        ),
        pairs: &[((0, 0, 1), Answer::Made(1)), ((1, 2, 0), Answer::Made(2))],
        log: Log {
            head: b"embedding proof 1\nm 17\n",
            lines: b"p 1.1 12 4 + ;\np 1.2 17 2 + ;\n",
            end: b"q\n",
        },
    },
    Asked {
        sample: Sample(b"3 1 1 2 0 2 1 1", EDGE, LadKind::Lad, false),
        pairs: &[((0, 0, 1), Answer::Made(1)), ((1, 1, 2), Answer::Made(2))],
        log: Log {
            head: b"embedding proof 1\nm 16\n",
            lines: b"p 1.1 9 4 + ;\np 1.2 14 6 + ;\n",
            end: b"q\n",
        },
    },
    // Loops: the place itself is left out, whether it has one or not.
    Asked {
        sample: Sample(FIRST_WITH_LOOP, SECOND_WITH_LOOP, LadKind::Lad, false),
        pairs: &[((0, 1, 1), Answer::Made(1)), ((1, 0, 0), Answer::Made(2))],
        log: Log {
            head: b"embedding proof 1\nm 11\n",
            lines: b"p 1.1 9 4 + ;\np 1.2 10 2 + ;\n",
            end: b"q\n",
        },
    },
    // One edge, asked along it and against it.
    Asked {
        sample: Sample(b"2 1 1 0", b"2 1 1 0", LadKind::DirectedLad, false),
        pairs: &[((0, 1, 1), Answer::Made(1)), ((1, 0, 0), Answer::Made(2))],
        log: Log {
            head: b"embedding proof 1\nm 10\n",
            lines: b"p 1.1 8 4 + ;\np 1.2 9 2 + ;\n",
            end: b"q\n",
        },
    },
    // Neighbours that are shared in one direction: they are counted where edges lead from both, or to both.
    Asked {
        sample: Sample(
            b"3 1 2 1 2 0",
            b"4 2 2 3 1 2 2 1 3 1 2",
            LadKind::DirectedLad,
            false,
        ),
        pairs: &[((0, 3, 1), Answer::Made(1))],
        log: Log {
            head: b"embedding proof 1\nm 26\n",
            lines: b"p 1.1 4 10 + 2 * 14 + 25 + ;\n",
            end: b"q\n",
        },
    },
    // In both: the line follows from one of each.
    Asked {
        sample: Sample(
            b"4 1 2 1 2 0 2 0 1",
            b"4 2 2 3 1 2 2 1 3 1 2",
            LadKind::DirectedLad,
            false,
        ),
        pairs: &[((0, 3, 1), Answer::Made(4)), ((0, 3, 1), Answer::Made(4))],
        log: Log {
            head: b"embedding proof 1\nm 44\n",
            lines: b"p 1.1 4 12 + 2 * 16 + 35 + ;
p 1.2 4 12 + 3 * 20 + 41 + 43 + ;
u 1.3 ~x4 x6 ; 1.1 1.2 3 ;
p 1.4 1.3 4 + ;
",
            end: b"q\n",
        },
    },
    // Labels of edges are in the edge's constraint.
    Asked {
        sample: Sample(
            b"2 0 1 1 1 0 0",
            b"3 0 2 1 2 2 1 0 0 0 0",
            LadKind::LabelledLad,
            false,
        ),
        pairs: &[((0, 0, 1), Answer::Made(1)), ((1, 1, 0), Answer::Made(2))],
        log: Log {
            head: b"embedding proof 1\nm 13\n",
            lines: b"p 1.1 8 4 + ;\np 1.2 12 2 + ;\n",
            end: b"q\n",
        },
    },
];

#[test]
fn a_vertex_at_a_place_takes_values_from_another(rt: HostRuntime) -> Result<(), Fail> {
    all_hold(&rt, rt.alloc(), &ASKED)
}

/// The line for a pair, where none is remembered.
fn made_alone(
    alloc: Global,
    q: &Problem,
    lines: &Encoding,
    journal: &mut Journal,
) -> Result<Name, AllocError>
    requires lines { lines.now ≡ q.now }
{
    let pair = placed((0, 2, 1));
    if is_pair(q, pair) {
        row_line(alloc, q, lines, journal, pair)
    } else {
        Err(AllocError)
    }
}

/// The problem of two vertices apart into a cycle of four, and its line for 0 at 2 and 1.
static ALONE: (Sample, Log) = (
    Sample(APART, FOUR_CYCLE, LadKind::Lad, false),
    Log {
        head: b"embedding proof 1\nm 8\n",
        lines: b"p 1.1 7 ;\n",
        end: b"q\n",
    },
);

/// Whether that line is made, and a checker takes it.
fn is_alone(alloc: Global, q: &Problem) -> Result<bool, AllocError> {
    let lines = Encoding::new(alloc, q)?;
    let mut journal = Journal::new(alloc, 1);
    made_alone(alloc, q, &lines, &mut journal)?;
    is_log(alloc, &lines, &journal, &ALONE.1)
}

#[test]
fn a_line_is_made_where_none_is_remembered(rt: HostRuntime) -> Result<(), Fail> {
    let q = ALONE.0.problem(rt.alloc()).ok_or("no problem")?;
    assert!(rt; is_alone(rt.alloc(), &q)?);
    Ok(())
}
