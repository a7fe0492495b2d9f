//! The lines of first domains.

ghost use Rattle.std.specs.Prelude.{◌≡◌};

use crate::logs::{Log, Sample, is_log};
use domain_lines::{DomainLines, Units};
use graph_rows::Problem;
use journals::{Journal, NoLog};
use lad_reader::LadKind;
use pb_encoding::Encoding;
use std::alloc::{AllocError, Global};
use std::test::Fail;
use test_support::{Example, PATH, TRIANGLE, all_hold};

/// Adds the lines for the first domains of so many pattern vertices, in order.
pub fn add_first(
    alloc: Global,
    lines: &Encoding,
    count: u16,
    journal: &mut Journal,
) -> Result<(), AllocError> {
    let q = lines.problem();
    let mut units = Units::new(alloc);
    let first = DomainLines::new(alloc, q, lines)?;
    for p in 0..q.pattern().size() {
        if p < count {
            let _name = first.first_line(alloc, journal, &mut units, p)?;
        }
    }
    Ok(())
}

/// A problem, of how many of its vertices the lines are made, and a log with them.
struct Firsts(Sample, u16, Log);

/// Whether the lines are these, and a checker takes them.
fn are_made(alloc: Global, lines: &Encoding, count: u16, log: &Log) -> Result<bool, AllocError> {
    let mut journal = Journal::new(alloc, 1);
    add_first(alloc, lines, count, &mut journal)?;
    is_log(alloc, lines, &journal, log)
}

impl<R> Example<R> for Firsts {
    fn holds(&self, _rt: &R, alloc: Global) -> Result<bool, AllocError> {
        match self.0.problem(alloc) {
            Some(q) => are_made(alloc, &Encoding::new(alloc, &q)?, self.1, &self.2),
            None => Ok(false),
        }
    }
}

/// A vertex with three neighbours.
pub const STAR: &[u8] = b"4 3 1 2 3 1 0 1 0 1 0";

static FIRSTS: [Firsts; 10] = [
    // Vertex 0 of the path, which has one neighbour, goes to no middle, since that neighbour of degree 2 finds neighbours of degree 1 alone
    // there; the middle goes to no end by its degree. The clauses against these pairs are made once.
    Firsts(
        Sample(PATH, PATH, LadKind::Lad, false),
        3,
        Log {
            head: b"embedding proof 1\nm 21\n",
            lines: b"p 1.1 13 16 + 8 + ;
u 1.2 ~x4 ; 1.1 ;
p 1.3 15 18 + 8 + ;
u 1.4 ~x6 ; 1.3 ;
p 1.5 11 ;
u 1.6 ~x2 ; 1.2 1.4 1.5 ;
p 1.7 1.6 ;
p 1.8 1.2 1.4 + ;
p 1.9 20 ;
u 1.10 ~x8 ; 1.2 1.4 1.9 ;
p 1.11 1.10 ;
",
            end: b"q\n",
        },
    ),
    // The middle of the star has a greater degree than every vertex of the triangle, and the pattern more vertices than it.
    Firsts(
        Sample(STAR, TRIANGLE, LadKind::Lad, false),
        1,
        Log {
            head: b"embedding proof 1\nm 29\n",
            lines: b"p 1.1 12 15 + 18 + 10 + 11 + ;
u 1.2 ~x1 ; 1.1 ;
p 1.3 13 16 + 19 + 9 + 11 + ;
u 1.4 ~x2 ; 1.3 ;
p 1.5 14 17 + 20 + 9 + 10 + ;
u 1.6 ~x3 ; 1.5 ;
p 1.7 1.2 1.4 + 1.6 + ;
",
            end: b"u 1.8 ; 1.7 1 ;\ne 1.8\n",
        },
    ),
    // A vertex with a loop does not go to one without, nor in the induced kind the other way round: the encoding says so itself.
    Firsts(
        Sample(b"2 2 0 1 1 0", b"2 1 1 2 0 1", LadKind::Lad, false),
        2,
        Log {
            head: b"embedding proof 1\nm 11\n",
            lines: b"p 1.1 7 ;\n",
            end: b"q\n",
        },
    ),
    Firsts(
        Sample(b"2 2 0 1 1 0", b"2 1 1 2 0 1", LadKind::Lad, true),
        2,
        Log {
            head: b"embedding proof 1\nm 12\n",
            lines: b"p 1.1 7 ;\np 1.2 8 ;\n",
            end: b"q\n",
        },
    ),
    // So it does of labels; by these lines no value is left.
    Firsts(
        Sample(b"1 1 0", b"2 2 0 3 0", LadKind::VertexLabelledLad, false),
        1,
        Log {
            head: b"embedding proof 1\nm 6\n",
            lines: b"p 1.1 5 6 + ;\n",
            end: b"u 1.2 ; 1.1 1 ;\ne 1.2\n",
        },
    ),
    // Nothing is made where all values are there.
    Firsts(
        Sample(TRIANGLE, TRIANGLE, LadKind::Lad, false),
        3,
        Log {
            head: b"embedding proof 1\nm 27\n",
            lines: b"",
            end: b"q\n",
        },
    ),
    // No edge leads to the first vertex of the tournament, from its second one leads only to a vertex from which none does, and from that
    // none leads. The lines of the first value are those of an edge that leads in, the others' those of an edge that leads out.
    Firsts(
        Sample(
            b"3 1 1 1 2 1 0",
            b"3 2 1 2 1 2 0",
            LadKind::DirectedLad,
            false,
        ),
        1,
        Log {
            head: b"embedding proof 1\nm 27\n",
            lines: b"p 1.1 13 ;
u 1.2 ~x1 ; 1.1 ;
p 1.3 21 ;
u 1.4 ~x6 ; 1.3 ;
p 1.5 11 ;
u 1.6 ~x2 ; 1.4 1.5 ;
p 1.7 12 ;
u 1.8 ~x3 ; 1.7 ;
p 1.9 1.2 1.6 + 1.8 + ;
",
            end: b"u 1.10 ; 1.9 1 ;\ne 1.10\n",
        },
    ),
    // The first vertex of the fork has two edges out, and no vertex of the other has; its second has one in, which leaves the other's first.
    Firsts(
        Sample(b"3 2 1 2 0 0", b"3 0 1 0 1 0", LadKind::DirectedLad, false),
        2,
        Log {
            head: b"embedding proof 1\nm 21\n",
            lines: b"p 1.1 10 13 + ;
u 1.2 ~x1 ; 1.1 ;
p 1.3 11 14 + 7 + ;
u 1.4 ~x2 ; 1.3 ;
p 1.5 12 15 + 7 + ;
u 1.6 ~x3 ; 1.5 ;
p 1.7 1.2 1.4 + 1.6 + ;
p 1.8 17 ;
u 1.9 ~x5 ; 1.8 ;
p 1.10 18 ;
u 1.11 ~x6 ; 1.10 ;
p 1.12 1.9 1.11 + ;
",
            end: b"q\n",
        },
    ),
    // The vertex before the path's last has an edge in, and the one before the edge's end has none.
    Firsts(
        Sample(b"3 0 1 0 1 1", b"3 1 1 0 0", LadKind::DirectedLad, false),
        1,
        Log {
            head: b"embedding proof 1\nm 21\n",
            lines: b"p 1.1 10 ;
u 1.2 ~x1 ; 1.1 ;
p 1.3 16 ;
u 1.4 ~x4 ; 1.3 ;
p 1.5 11 ;
u 1.6 ~x2 ; 1.4 1.5 ;
p 1.7 12 ;
u 1.8 ~x3 ; 1.7 ;
p 1.9 1.2 1.6 + 1.8 + ;
",
            end: b"u 1.10 ; 1.9 1 ;\ne 1.10\n",
        },
    ),
    // Degrees count edges of every label: from the first vertex two lead, and from the others none.
    Firsts(
        Sample(
            b"2 0 1 1 1 0 0",
            b"3 0 2 1 2 2 1 0 0 0 0",
            LadKind::LabelledLad,
            false,
        ),
        1,
        Log {
            head: b"embedding proof 1\nm 13\n",
            lines: b"p 1.1 9 ;\nu 1.2 ~x2 ; 1.1 ;\np 1.3 10 ;\nu 1.4 ~x3 ; 1.3 ;\np 1.5 1.2 1.4 + ;\n",
            end: b"q\n",
        },
    ),
];

#[test]
fn a_first_domain_is_one_line(rt: HostRuntime) -> Result<(), Fail> {
    all_hold(&rt, rt.alloc(), &FIRSTS)
}

/// Whether nothing is made for the first vertex without a log.
fn is_nothing(alloc: Global, q: &Problem) -> Result<bool, AllocError> {
    if q.pattern().size() == 0 {
        return Ok(false);
    }
    let lines = Encoding::new(alloc, q)?;
    let first = DomainLines::new(alloc, q, &lines)?;
    let mut units = Units::new(alloc);
    let name = first.first_line(alloc, &mut NoLog::new(1), &mut units, 0)?;
    Ok(name.is_none())
}

#[test]
fn nothing_is_made_without_a_log(rt: HostRuntime) -> Result<(), Fail> {
    let q = Sample(STAR, TRIANGLE, LadKind::Lad, false)
        .problem(rt.alloc())
        .ok_or("no problem")?;
    assert!(rt; is_nothing(rt.alloc(), &q)?);
    Ok(())
}
