//! The lines of dead paths, and those of sets, without nogoods.

use crate::checked::{Dead, Ended, explain_in};
use crate::logs::{Log, Sample, is_log};
use dead_paths::{Basis, Ground, LineMaker, RowNames};
use graph_rows::Problem;
use graph_theory::direction::Direction;
use journals::Journal;
use lad_reader::LadKind;
use line_cache::LineCache;
use log_theory::Ref;
use pb_encoding::Encoding;
use recorder::{Cause, Place, What};
use std::alloc::{AllocError, Global};
use std::test::Fail;
use test_support::{APART, Example, FOUR_CYCLE, TRIANGLE, all_hold};

/// Names each row by its place.
struct ByPlace {}

impl RowNames for ByPlace {
    ghost use Rattle.log_theory.specs.declared.step.Ref.TheVariants.{Shared};

    ghost names = { λ n k. Shared k };

    fn name(&self, k: u32) -> Ref {
        Ref::Shared(k)
    }
}

/// A problem, the numbers of the sets that are counted, the dead paths in order, and a log with their lines.
struct Deaths {
    sample: Sample,
    numbers: &'static [u16],
    paths: &'static [Dead],
    log: Log,
}

/// Gives the lines of the dead paths.
fn add<M: LineMaker>(
    alloc: Global,
    lines: &Ground<'_>,
    numbers: &[u16],
    paths: &[Dead],
    maker: &mut M,
    journal: &mut Journal,
) -> Result<(), AllocError> {
    let basis = Basis {
        alloc,
        lines,
        rows: &[],
        names: &ByPlace {},
        numbers,
    };
    for dead in paths {
        explain_in(&basis, dead, maker, journal)?;
    }
    Ok(())
}

/// The same, by a maker of its own.
pub fn add_made(
    alloc: Global,
    lines: &Encoding,
    numbers: &[u16],
    paths: &[Dead],
    journal: &mut Journal,
) -> Result<(), AllocError> {
    let ground = Ground::new(alloc, lines);
    let mut maker = LineCache::new(alloc, lines.problem(), lines)?;
    add(alloc, &ground, numbers, paths, &mut maker, journal)
}

/// Whether the lines are these, and a checker takes them.
fn are_explained(alloc: Global, lines: &Encoding, case: &Deaths) -> Result<bool, AllocError> {
    let mut journal = Journal::new(alloc, 1);
    add_made(alloc, lines, case.numbers, case.paths, &mut journal)?;
    is_log(alloc, lines, &journal, &case.log)
}

impl<R> Example<R> for Deaths {
    fn holds(&self, _rt: &R, alloc: Global) -> Result<bool, AllocError> {
        match self.sample.problem(alloc) {
            Some(q) => are_explained(alloc, &Encoding::new(alloc, &q)?, self),
            None => Ok(false),
        }
    }
}

/// The first vertex at the first value leaves none for the second.
const FIRST_GUESS: Dead = Dead(
    &[(0, 0)],
    &[
        What::One(0, Cause::Guess(0)),
        What::One(1, Cause::Vertex(0, 0)),
    ],
    Ended::Empty(1),
);

static DEATHS: [Deaths; 15] = [
    // The end rests on two changes of three, and the one between, whose vertex the path has, is not named.
    Deaths {
        sample: Sample(b"3 0 0 0", APART, LadKind::Lad, false),
        numbers: &[],
        paths: &[Dead(
            &[(0, 0), (1, 1)],
            &[
                What::One(0, Cause::Guess(0)),
                What::One(2, Cause::Vertex(0, 0)),
                What::One(1, Cause::Vertex(0, 0)),
                What::One(1, Cause::Guess(1)),
                What::One(2, Cause::Vertex(1, 1)),
            ],
            Ended::Empty(2),
        )],
        log: Log {
            head: b"embedding proof 1\nm 8\n",
            lines: b"u 1.1 ~x1 ~x4 ; 7 8 5 ;\n",
            end: b"q\n",
        },
    },
    // The place itself is all that is refused, and its constraint serves.
    Deaths {
        sample: Sample(APART, b"1 0", LadKind::Lad, false),
        numbers: &[],
        paths: &[FIRST_GUESS],
        log: Log {
            head: b"embedding proof 1\nm 5\n",
            lines: b"u 1.1 ~x1 ; 5 3 ;\n",
            end: b"q\n",
        },
    },
    // A set is short: three vertices into two, the first at 0. Whatever the order of the set, its line is made once. At the root it is the set
    // of all, whose sum is false.
    Deaths {
        sample: Sample(b"3 0 0 0", APART, LadKind::Lad, false),
        numbers: &[1, 2, 1, 2, 1, 1, 0, 1, 2, 0, 1],
        paths: &[
            Dead(
                &[(0, 0)],
                &[
                    What::One(0, Cause::Guess(0)),
                    What::One(1, Cause::Vertex(0, 0)),
                    What::One(2, Cause::Vertex(0, 0)),
                ],
                Ended::Short(
                    None,
                    Place {
                        start: 0,
                        middle: 2,
                        end: 3,
                    },
                ),
            ),
            Dead(
                &[(0, 0)],
                &[
                    What::One(0, Cause::Guess(0)),
                    What::One(1, Cause::Vertex(0, 0)),
                    What::One(2, Cause::Vertex(0, 0)),
                ],
                Ended::Short(
                    None,
                    Place {
                        start: 3,
                        middle: 5,
                        end: 6,
                    },
                ),
            ),
            Dead(
                &[],
                &[],
                Ended::Short(
                    None,
                    Place {
                        start: 6,
                        middle: 9,
                        end: 11,
                    },
                ),
            ),
        ],
        log: Log {
            head: b"embedding proof 1\nm 8\n",
            lines: b"p 1.1 3 5 + 8 + ;
u 1.2 ~x1 ; 7 7 1.1 ;
u 1.3 ~x1 ; 7 7 1.1 ;
p 1.4 1 3 + 5 + 7 + 8 + ;
u 1.5 ; 1.4 ;
",
            end: b"e 1.5\n",
        },
    },
    // A set is as large as its values, and takes these from another vertex: four into three, the first at 0.
    Deaths {
        sample: Sample(b"4 0 0 0 0", b"3 0 0 0", LadKind::Lad, false),
        numbers: &[1, 2, 1, 2],
        paths: &[Dead(
            &[(0, 0)],
            &[
                What::One(0, Cause::Guess(0)),
                What::One(1, Cause::Vertex(0, 0)),
                What::One(2, Cause::Vertex(0, 0)),
                What::One(3, Cause::Vertex(0, 0)),
                What::Others(
                    None,
                    Place {
                        start: 0,
                        middle: 2,
                        end: 4,
                    },
                ),
            ],
            Ended::Empty(3),
        )],
        log: Log {
            head: b"embedding proof 1\nm 11\n",
            lines: b"p 1.1 3 5 + 10 + 11 + ;\nu 1.2 ~x1 ; 9 9 9 1.1 7 ;\n",
            end: b"q\n",
        },
    },
    // The middle of a path of three has no place: beside it at each one the two others have too few, in a path of three and a vertex apart,
    // where another vertex is at an end of the path.
    Deaths {
        sample: Sample(
            b"4 2 1 2 1 0 1 0 0",
            b"4 1 1 2 0 2 1 1 0",
            LadKind::Lad,
            false,
        ),
        numbers: &[1, 2, 2, 1, 2, 1, 1, 2],
        paths: &[Dead(
            &[(3, 0)],
            &[
                What::One(3, Cause::Guess(0)),
                What::One(0, Cause::Vertex(3, 0)),
                What::One(1, Cause::Vertex(3, 0)),
                What::One(2, Cause::Vertex(3, 0)),
                What::Over(
                    0,
                    1,
                    Direction::Out,
                    Place {
                        start: 0,
                        middle: 2,
                        end: 3,
                    },
                ),
                What::Over(
                    0,
                    2,
                    Direction::Out,
                    Place {
                        start: 3,
                        middle: 5,
                        end: 6,
                    },
                ),
                What::Over(
                    0,
                    3,
                    Direction::Out,
                    Place {
                        start: 6,
                        middle: 8,
                        end: 8,
                    },
                ),
            ],
            Ended::Empty(0),
        )],
        log: Log {
            head: b"embedding proof 1\nm 28\n",
            lines: b"p 1.1 14 18 + 11 + ;
p 1.2 15 19 + 10 + ;
p 1.3 16 20 + ;
u 1.4 ~x13 ; 9 9 9 1.1 1.2 1.3 1 ;
",
            end: b"q\n",
        },
    },
    // The same against edges: two with edges to a third, into one edge.
    Deaths {
        sample: Sample(b"3 0 1 0 1 0", b"2 0 1 0", LadKind::DirectedLad, false),
        numbers: &[1, 2, 1, 1, 2],
        paths: &[Dead(
            &[],
            &[
                What::Over(
                    0,
                    0,
                    Direction::In,
                    Place {
                        start: 0,
                        middle: 2,
                        end: 3,
                    },
                ),
                What::Over(
                    0,
                    1,
                    Direction::In,
                    Place {
                        start: 3,
                        middle: 5,
                        end: 5,
                    },
                ),
            ],
            Ended::Empty(0),
        )],
        log: Log {
            head: b"embedding proof 1\nm 16\n",
            lines: b"p 1.1 9 11 + 8 + ;\np 1.2 10 12 + ;\nu 1.3 ; 1.1 1.2 1 ;\n",
            end: b"e 1.3\n",
        },
    },
    // A triangle into a cycle of four, whole.
    Deaths {
        sample: Sample(TRIANGLE, FOUR_CYCLE, LadKind::Lad, false),
        numbers: &[],
        paths: &[
            Dead(
                &[(0, 1)],
                &[
                    What::One(0, Cause::Guess(1)),
                    What::One(1, Cause::Vertex(0, 1)),
                ],
                Ended::Empty(1),
            ),
            FIRST_GUESS,
            Dead(
                &[(0, 3)],
                &[
                    What::One(0, Cause::Guess(3)),
                    What::One(1, Cause::Vertex(0, 3)),
                ],
                Ended::Empty(1),
            ),
            Dead(
                &[(0, 2)],
                &[
                    What::One(0, Cause::Guess(2)),
                    What::One(1, Cause::Vertex(0, 2)),
                ],
                Ended::Empty(1),
            ),
            Dead(&[], &[], Ended::Exhausted(0, &[2, 4, 6, 8])),
        ],
        log: Log {
            head: b"embedding proof 1\nm 34\n",
            lines: b"p 1.1 4 2 * 12 + 3 * 16 + 31 + 33 + ;
u 1.2 ~x2 ; 1.1 3 ;
p 1.3 4 2 * 11 + 3 * 15 + 32 + 34 + ;
u 1.4 ~x1 ; 1.3 3 ;
p 1.5 4 2 * 14 + 3 * 18 + 31 + 33 + ;
u 1.6 ~x4 ; 1.5 3 ;
p 1.7 4 2 * 13 + 3 * 17 + 32 + 34 + ;
u 1.8 ~x3 ; 1.7 3 ;
u 1.9 ; 1.2 1.4 1.6 1.8 1 ;
",
            end: b"e 1.9\n",
        },
    },
    // A domain is empty at the root by its label.
    Deaths {
        sample: Sample(b"1 1 0", b"1 2 0", LadKind::VertexLabelledLad, false),
        numbers: &[],
        paths: &[Dead(&[], &[What::One(0, Cause::First)], Ended::Empty(0))],
        log: Log {
            head: b"embedding proof 1\nm 4\n",
            lines: b"p 1.1 4 ;\nu 1.2 ; 1.1 1 ;\n",
            end: b"e 1.2\n",
        },
    },
    // The first domain lacks by its label what the decided vertex leaves: an edge into a path of labels 1, 3 and 2.
    Deaths {
        sample: Sample(
            b"2 1 1 1 2 1 0",
            b"3 1 1 1 3 2 0 2 2 1 1",
            LadKind::VertexLabelledLad,
            false,
        ),
        numbers: &[],
        paths: &[Dead(
            &[(0, 0)],
            &[
                What::One(1, Cause::First),
                What::One(0, Cause::Guess(0)),
                What::One(1, Cause::Vertex(0, 0)),
            ],
            Ended::Empty(1),
        )],
        log: Log {
            head: b"embedding proof 1\nm 17\n",
            lines: b"p 1.1 10 11 + ;\np 1.2 12 4 + ;\nu 1.3 ~x1 ; 1.1 1.2 3 ;\n",
            end: b"q\n",
        },
    },
    // Two without an edge into an edge in the induced kind, of which one has a loop, as one of the two has.
    Deaths {
        sample: Sample(b"2 1 0 0", b"2 2 0 1 1 0", LadKind::Lad, true),
        numbers: &[],
        paths: &[FIRST_GUESS],
        log: Log {
            head: b"embedding proof 1\nm 12\n",
            lines: b"p 1.1 9 4 + ;\nu 1.2 ~x1 ; 1.1 3 ;\n",
            end: b"q\n",
        },
    },
    // An edge one way into one the other way round, along it and against it.
    Deaths {
        sample: Sample(b"2 1 1 0", b"2 0 1 0", LadKind::DirectedLad, false),
        numbers: &[],
        paths: &[
            FIRST_GUESS,
            Dead(
                &[(1, 1)],
                &[
                    What::One(1, Cause::Guess(1)),
                    What::One(0, Cause::Vertex(1, 1)),
                ],
                Ended::Empty(0),
            ),
        ],
        log: Log {
            head: b"embedding proof 1\nm 10\n",
            lines: b"p 1.1 7 4 + ;\nu 1.2 ~x1 ; 1.1 3 ;\np 1.3 10 2 + ;\nu 1.4 ~x4 ; 1.3 1 ;\n",
            end: b"q\n",
        },
    },
    // The edge is there with another label.
    Deaths {
        sample: Sample(
            b"2 0 1 1 1 0 0",
            b"2 0 1 1 2 0 0",
            LadKind::LabelledLad,
            false,
        ),
        numbers: &[],
        paths: &[FIRST_GUESS],
        log: Log {
            head: b"embedding proof 1\nm 10\n",
            lines: b"p 1.1 7 4 + ;\nu 1.2 ~x1 ; 1.1 3 ;\n",
            end: b"q\n",
        },
    },
    // Nor has the second vertex support there. The value with that edge left the first one before, and is not named.
    Deaths {
        sample: Sample(
            b"2 0 1 1 1 0 0",
            b"2 0 1 1 2 0 0",
            LadKind::LabelledLad,
            false,
        ),
        numbers: &[],
        paths: &[Dead(
            &[],
            &[
                What::One(0, Cause::Edge(1, 0, Direction::In)),
                What::One(1, Cause::Edge(0, 0, Direction::Out)),
                What::One(1, Cause::Edge(0, 1, Direction::Out)),
            ],
            Ended::Empty(1),
        )],
        log: Log {
            head: b"embedding proof 1\nm 10\n",
            lines: b"u 1.1 ; 9 10 3 ;\n",
            end: b"e 1.1\n",
        },
    },
    // What a neighbour has left has no edge to either value of the last vertex, whose places beside the first one are needed of that neighbour then.
    // What the neighbour lost meanwhile for want of an edge is not named.
    Deaths {
        sample: Sample(TRIANGLE, FOUR_CYCLE, LadKind::Lad, false),
        numbers: &[],
        paths: &[Dead(
            &[(0, 0)],
            &[
                What::One(0, Cause::Guess(0)),
                What::One(1, Cause::Vertex(0, 0)),
                What::One(2, Cause::Vertex(0, 0)),
                What::One(2, Cause::Edge(1, 1, Direction::Out)),
                What::One(1, Cause::Edge(2, 3, Direction::Out)),
                What::One(2, Cause::Edge(1, 3, Direction::In)),
            ],
            Ended::Empty(2),
        )],
        log: Log {
            head: b"embedding proof 1\nm 34\n",
            lines: b"p 1.1 11 4 + ;\np 1.2 15 6 + ;\nu 1.3 ~x1 ; 1.1 1.2 32 34 5 ;\n",
            end: b"q\n",
        },
    },
    // A path of two edges one after the other into two that meet: the middle goes where an edge comes from, and one leads on.
    Deaths {
        sample: Sample(b"3 1 1 1 2 0", b"3 1 1 0 1 1", LadKind::DirectedLad, false),
        numbers: &[],
        paths: &[Dead(
            &[],
            &[
                What::One(1, Cause::Edge(0, 0, Direction::Out)),
                What::One(1, Cause::Edge(0, 2, Direction::Out)),
                What::One(1, Cause::Edge(2, 1, Direction::In)),
            ],
            Ended::Empty(1),
        )],
        log: Log {
            head: b"embedding proof 1\nm 21\n",
            lines: b"u 1.1 ; 13 15 17 3 ;\n",
            end: b"e 1.1\n",
        },
    },
];

#[test]
fn a_dead_path_is_one_line(rt: HostRuntime) -> Result<(), Fail> {
    all_hold(&rt, rt.alloc(), &DEATHS)
}
