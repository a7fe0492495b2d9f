//! The lines of logs for maps that need not be injective, and for images in order.

use crate::checked::{Dead, Ended};
use crate::dead_path_tests::add_made;
use crate::first_line_tests::{STAR, add_first};
use crate::logs::{Log, Mapped, is_log};
use crate::row_line_tests::{Answer, FIRST_WITH_LOOP, are_answered};
use graph_theory::embedding::Maps;
use journals::Journal;
use pb_encoding::Encoding;
use recorder::{Cause, Place, Side, What};
use std::alloc::{AllocError, Global};
use std::test::Fail;
use test_support::{APART, EDGE, Example, PATH, TRIANGLE, all_hold};

/// What lines are asked for: those of the first domains of so many vertices, those of pairs of vertices, each with the answer, or those of dead
/// paths over the numbers of sets that are counted.
enum Wanted {
    Firsts(u16),
    Pairs(&'static [((u16, u16, u16), Answer)]),
    Deaths(&'static [u16], &'static [Dead]),
}

/// A problem, what is asked of it, and a log with the lines.
struct Worked(Mapped, Wanted, Log);

/// Gives the lines, and tells whether the answers are those that are told.
fn add(
    alloc: Global,
    lines: &Encoding,
    wanted: &Wanted,
    journal: &mut Journal,
) -> Result<bool, AllocError> {
    match wanted {
        Wanted::Firsts(count) => {
            add_first(alloc, lines, *count, journal)?;
            Ok(true)
        }
        Wanted::Pairs(pairs) => are_answered(alloc, lines, pairs, journal),
        Wanted::Deaths(numbers, paths) => {
            add_made(alloc, lines, numbers, paths, journal)?;
            Ok(true)
        }
    }
}

/// Whether the lines are these, and a checker takes them.
fn are_worked(alloc: Global, lines: &Encoding, case: &Worked) -> Result<bool, AllocError> {
    let mut journal = Journal::new(alloc, 1);
    Ok(add(alloc, lines, &case.1, &mut journal)? && is_log(alloc, lines, &journal, &case.2)?)
}

impl<R> Example<R> for Worked {
    fn holds(&self, _rt: &R, alloc: Global) -> Result<bool, AllocError> {
        match self.0.problem(alloc) {
            Some(q) => are_worked(alloc, &Encoding::new(alloc, &q)?, self),
            None => Ok(false),
        }
    }
}

const THREE_APART: &[u8] = b"3 0 0 0";

/// The first vertex at the first value takes it from both others, and the second, at the other value, takes that from the third.
const FIRST_OF_THREE: Dead = Dead(
    &[(0, 0)],
    &[
        What::One(0, Cause::Guess(0)),
        What::One(1, Cause::Vertex(0, 0)),
        What::One(2, Cause::Vertex(0, 0)),
        What::One(2, Cause::Vertex(1, 1)),
    ],
    Ended::Empty(2),
);

static WORKED: [Worked; 11] = [
    // Around the middle of a path its ends have two images, by one constraint of the block. The middle and an end are in no block together.
    Worked(
        Mapped(PATH, EDGE, Maps::Local, &[]),
        Wanted::Pairs(&[((0, 1, 2), Answer::There(8)), ((0, 0, 1), Answer::Made(1))]),
        Log {
            head: b"embedding proof 1\nm 16\n",
            lines: b"p 1.1 9 4 + ;\n",
            end: b"q\n",
        },
    ),
    // Two neighbours that are both near a third: the loop would take both, and the block refuses it.
    Worked(
        Mapped(TRIANGLE, FIRST_WITH_LOOP, Maps::Local, &[]),
        Wanted::Pairs(&[((0, 0, 1), Answer::Made(1)), ((0, 0, 1), Answer::Made(1))]),
        Log {
            head: b"embedding proof 1\nm 24\n",
            lines: b"p 1.1 13 4 + 11 + ;\n",
            end: b"q\n",
        },
    ),
    // Where they may, both go to the loop, and not to the vertex without one. Vertices that are no neighbours go anywhere: that the other goes
    // to one place serves.
    Worked(
        Mapped(EDGE, FIRST_WITH_LOOP, Maps::Any, &[]),
        Wanted::Pairs(&[((0, 0, 1), Answer::Made(1)), ((0, 1, 1), Answer::Made(2))]),
        Log {
            head: b"embedding proof 1\nm 8\n",
            lines: b"p 1.1 5 4 + ;\np 1.2 6 4 + ;\n",
            end: b"q\n",
        },
    ),
    Worked(
        Mapped(APART, EDGE, Maps::Any, &[]),
        Wanted::Pairs(&[((0, 0, 1), Answer::There(4)), ((1, 0, 0), Answer::There(2))]),
        Log {
            head: b"embedding proof 1\nm 4\n",
            lines: b"",
            end: b"q\n",
        },
    ),
    // A triangle with one vertex at the loop, by local maps, and into an edge by any.
    Worked(
        Mapped(TRIANGLE, FIRST_WITH_LOOP, Maps::Local, &[]),
        Wanted::Deaths(&[], &[FIRST_OF_THREE]),
        Log {
            head: b"embedding proof 1\nm 24\n",
            lines: b"p 1.1 13 4 + 11 + ;
p 1.2 15 6 + 9 + ;
p 1.3 20 6 + 8 + ;
u 1.4 ~x1 ; 1.1 1.2 3 1.3 5 ;
",
            end: b"q\n",
        },
    ),
    Worked(
        Mapped(TRIANGLE, EDGE, Maps::Any, &[]),
        Wanted::Deaths(&[], &[FIRST_OF_THREE]),
        Log {
            head: b"embedding proof 1\nm 18\n",
            lines: b"p 1.1 7 4 + ;
p 1.2 9 6 + ;
p 1.3 14 6 + ;
u 1.4 ~x1 ; 1.1 1.2 3 1.3 5 ;
",
            end: b"q\n",
        },
    ),
    // The middle of a star at the middle of a path: its three neighbours have two values, and two of them take both from the third.
    Worked(
        Mapped(STAR, PATH, Maps::Local, &[]),
        Wanted::Deaths(
            &[1, 2, 3, 0, 2, 1, 2, 0, 2],
            &[
                Dead(
                    &[(0, 1)],
                    &[
                        What::One(0, Cause::Guess(1)),
                        What::One(1, Cause::Vertex(0, 1)),
                        What::One(2, Cause::Vertex(0, 1)),
                        What::One(3, Cause::Vertex(0, 1)),
                    ],
                    Ended::Short(
                        Some(0),
                        Place {
                            start: 0,
                            middle: 3,
                            end: 5,
                        },
                    ),
                ),
                Dead(
                    &[(0, 1)],
                    &[
                        What::One(0, Cause::Guess(1)),
                        What::One(1, Cause::Vertex(0, 1)),
                        What::One(2, Cause::Vertex(0, 1)),
                        What::One(3, Cause::Vertex(0, 1)),
                        What::Others(
                            Some(0),
                            Place {
                                start: 5,
                                middle: 7,
                                end: 9,
                            },
                        ),
                    ],
                    Ended::Empty(3),
                ),
            ],
        ),
        Log {
            head: b"embedding proof 1\nm 29\n",
            lines: b"p 1.1 13 4 + ;
p 1.2 16 6 + ;
p 1.3 19 8 + ;
p 1.4 3 5 + 7 + 9 + 11 + ;
u 1.5 ~x2 ; 1.1 1.2 1.3 1.4 ;
p 1.6 3 5 + 9 + 11 + ;
u 1.7 ~x2 ; 1.1 1.2 1.3 1.6 7 ;
",
            end: b"q\n",
        },
    ),
    // Beside a loop there is a place more: one too few for the middle of a star, and enough for that of a path, which the other vertex has not.
    Worked(
        Mapped(STAR, FIRST_WITH_LOOP, Maps::Local, &[]),
        Wanted::Firsts(1),
        Log {
            head: b"embedding proof 1\nm 22\n",
            lines: b"p 1.1 11 13 + 15 + 9 + 10 + ;
u 1.2 ~x1 ; 1.1 ;
p 1.3 12 14 + 16 + 9 + ;
u 1.4 ~x2 ; 1.3 ;
p 1.5 1.2 1.4 + ;
",
            end: b"u 1.6 ; 1.5 1 ;\ne 1.6\n",
        },
    ),
    Worked(
        Mapped(PATH, FIRST_WITH_LOOP, Maps::Local, &[]),
        Wanted::Firsts(3),
        Log {
            head: b"embedding proof 1\nm 16\n",
            lines: b"p 1.1 12 14 + 7 + ;\nu 1.2 ~x4 ; 1.1 ;\np 1.3 1.2 ;\n",
            end: b"q\n",
        },
    ),
    // Each of an edge below the other: the one has nothing below its least value, nor past its greatest.
    Worked(
        Mapped(EDGE, EDGE, Maps::Injective, &[(0, 1), (1, 0)]),
        Wanted::Deaths(
            &[],
            &[Dead(
                &[],
                &[
                    What::One(1, Cause::Order(0, 0, Side::Greater)),
                    What::One(1, Cause::Order(1, 1, Side::Lesser)),
                ],
                Ended::Empty(1),
            )],
        ),
        Log {
            head: b"embedding proof 1\nm 18\n",
            lines: b"u 1.1 ; 13 16 3 ;\n",
            end: b"e 1.1\n",
        },
    ),
    // Nothing is below a vertex at the first value, nor past one at the last.
    Worked(
        Mapped(APART, THREE_APART, Maps::Any, &[(0, 1)]),
        Wanted::Deaths(
            &[],
            &[
                Dead(
                    &[(1, 0)],
                    &[
                        What::One(1, Cause::Guess(0)),
                        What::One(0, Cause::Order(0, 0, Side::Lesser)),
                        What::One(0, Cause::Order(0, 1, Side::Lesser)),
                        What::One(0, Cause::Order(0, 2, Side::Lesser)),
                    ],
                    Ended::Empty(0),
                ),
                Dead(
                    &[(0, 2)],
                    &[
                        What::One(0, Cause::Guess(2)),
                        What::One(1, Cause::Order(0, 0, Side::Greater)),
                        What::One(1, Cause::Order(0, 1, Side::Greater)),
                        What::One(1, Cause::Order(0, 2, Side::Greater)),
                    ],
                    Ended::Empty(1),
                ),
            ],
        ),
        Log {
            head: b"embedding proof 1\nm 10\n",
            lines: b"u 1.1 ~x4 ; 4 5 6 7 1 ;\nu 1.2 ~x3 ; 2 8 9 10 3 ;\n",
            end: b"q\n",
        },
    ),
];

#[test]
fn maps_of_each_kind_and_orders_have_their_lines(rt: HostRuntime) -> Result<(), Fail> {
    all_hold(&rt, rt.alloc(), &WORKED)
}
