//! Worked problems and the texts of their encodings.

ghost use Rattle.std.specs.Prelude.{◌≡◌};

use crate::file_tests::sink_of;
use graph_rows::Problem;
use graph_theory::embedding::Maps;
use lad_reader::LadKind;
use pb_encoding::{Encoding, is_edge_pair, is_non_edge_pair};
use std::alloc::{AllocError, Global};
use std::test::Fail;
use test_support::models::{EDGE_INTO_EDGE, LOOP_INTO_TWO, ONE_WAY, THREE_INTO_TWO};
use test_support::{EDGE, Example, FOUR_CYCLE, TRIANGLE, all_hold, graph_in};

const SECOND_WITH_LOOP: &[u8] = b"2 0 1 1";

/// The problem of two texts of this kind.
fn problem(
    alloc: Global,
    pattern: &[u8],
    target: &[u8],
    kind: LadKind,
    induced: bool,
) -> Option<Problem> {
    let pattern = graph_in(alloc, pattern, kind)?;
    let target = graph_in(alloc, target, kind)?;
    Some(Problem::new(pattern, target, induced))
}

/// Whether a text is these pieces, one behind the other.
fn is_joined(text: &[u8], pieces: &[&[u8]]) -> bool {
    let mut rest = text;
    for piece in pieces {
        match rest.strip_prefix(*piece) {
            Some(behind) => rest = behind,
            None => return false,
        }
    }
    rest.is_empty()
}

/// Whether an encoding is written as these pieces.
fn is_written_as(alloc: Global, encoding: &Encoding, text: &[&[u8]]) -> Result<bool, AllocError> {
    let mut sink = sink_of(alloc, 4096)?;
    Ok(encoding.write(alloc, &mut sink).is_ok() && is_joined(sink.bytes(), text))
}

/// Whether this is the text of the encoding of a problem.
fn is_text(alloc: Global, q: &Problem, text: &[&[u8]]) -> Result<bool, AllocError> {
    let encoding = Encoding::new(alloc, q)?;
    is_written_as(alloc, &encoding, text)
}

/// That two vertices go to two.
const TWO_TO_TWO: &[u8] = b"+1 x1 +1 x2 >= 1 ;
-1 x1 -1 x2 >= -1 ;
+1 x3 +1 x4 >= 1 ;
-1 x3 -1 x4 >= -1 ;
-1 x1 -1 x3 >= -1 ;
-1 x2 -1 x4 >= -1 ;
";

/// That two vertices go to three.
const TWO_TO_THREE: &[u8] = b"+1 x1 +1 x2 +1 x3 >= 1 ;
-1 x1 -1 x2 -1 x3 >= -1 ;
+1 x4 +1 x5 +1 x6 >= 1 ;
-1 x4 -1 x5 -1 x6 >= -1 ;
-1 x1 -1 x4 >= -1 ;
-1 x2 -1 x5 >= -1 ;
-1 x3 -1 x6 >= -1 ;
";

/// The format of two graphs, the graphs, whether the copy is to be induced, and the text of the encoding in pieces.
struct Encoded {
    kind: LadKind,
    pattern: &'static [u8],
    target: &'static [u8],
    induced: bool,
    text: &'static [&'static [u8]],
}

impl<R> Example<R> for Encoded {
    fn holds(&self, _rt: &R, alloc: Global) -> Result<bool, AllocError> {
        match problem(alloc, self.pattern, self.target, self.kind, self.induced) {
            Some(q) => is_text(alloc, &q, self.text),
            None => Ok(false),
        }
    }
}

static ENCODED: [Encoded; 11] = [
    // an edge into an edge
    Encoded {
        kind: LadKind::Lad,
        pattern: EDGE,
        target: EDGE,
        induced: false,
        text: &[EDGE_INTO_EDGE],
    },
    // nothing into nothing
    Encoded {
        kind: LadKind::Lad,
        pattern: b"0",
        target: b"0",
        induced: false,
        text: &[b"* #variable= 0 #constraint= 0\n"],
    },
    // a vertex into nothing
    Encoded {
        kind: LadKind::Lad,
        pattern: b"1 0",
        target: b"0",
        induced: false,
        text: &[b"* #variable= 0 #constraint= 2\n>= 1 ;\n>= -1 ;\n"],
    },
    // three vertices into two
    Encoded {
        kind: LadKind::Lad,
        pattern: b"3 0 0 0",
        target: b"2 0 0",
        induced: false,
        text: &[THREE_INTO_TWO],
    },
    // a loop into two vertices
    Encoded {
        kind: LadKind::Lad,
        pattern: b"1 1 0",
        target: SECOND_WITH_LOOP,
        induced: false,
        text: &[LOOP_INTO_TWO],
    },
    // a vertex into the same, induced
    Encoded {
        kind: LadKind::Lad,
        pattern: b"1 0",
        target: SECOND_WITH_LOOP,
        induced: true,
        text: &[
            b"* #variable= 2 #constraint= 5\n+1 x1 +1 x2 >= 1 ;\n-1 x1 -1 x2 >= -1 ;\n\
                -1 x1 >= -1 ;\n-1 x2 >= -1 ;\n-1 x2 >= 0 ;\n",
        ],
    },
    // two vertices into an edge, induced
    Encoded {
        kind: LadKind::Lad,
        pattern: b"2 0 0",
        target: EDGE,
        induced: true,
        text: &[
            b"* #variable= 4 #constraint= 10\n",
            TWO_TO_TWO,
            b"-1 x1 >= 0 ;\n-1 x2 >= 0 ;\n-1 x3 >= 0 ;\n-1 x4 >= 0 ;\n",
        ],
    },
    // an edge one way into the same
    Encoded {
        kind: LadKind::DirectedLad,
        pattern: b"2 1 1 0",
        target: b"2 1 1 0",
        induced: false,
        text: &[ONE_WAY],
    },
    // an edge one way into two vertices with an edge both ways and a third with one from the first, induced
    Encoded {
        kind: LadKind::DirectedLad,
        pattern: b"2 1 1 0",
        target: b"3 2 1 2 1 0 0",
        induced: true,
        text: &[
            b"* #variable= 6 #constraint= 13\n",
            TWO_TO_THREE,
            b"-1 x1 +1 x6 >= 0 ;\n-1 x2 >= 0 ;\n-1 x3 >= 0 ;\n-1 x4 >= 0 ;\n-1 x5 >= 0 ;\n\
                +1 x1 -1 x6 >= 0 ;\n",
        ],
    },
    // two vertices into an edge one way and a third vertex, induced
    Encoded {
        kind: LadKind::DirectedLad,
        pattern: b"2 0 0",
        target: b"3 1 1 0 0",
        induced: true,
        text: &[
            b"* #variable= 6 #constraint= 13\n",
            TWO_TO_THREE,
            b"-1 x1 +1 x6 >= 0 ;\n-1 x2 +1 x6 >= 0 ;\n-1 x3 +1 x4 +1 x5 >= 0 ;\n\
                +1 x3 -1 x4 >= 0 ;\n+1 x3 -1 x5 >= 0 ;\n+1 x1 +1 x2 -1 x6 >= 0 ;\n",
        ],
    },
    // a loop and an edge with labels into two such loops and three such edges
    Encoded {
        kind: LadKind::LabelledLad,
        pattern: b"2 0 2 0 3 1 7 0 0",
        target: b"3 0 3 0 3 1 7 2 8 0 0 0 2 1 7 2 4",
        induced: false,
        text: &[
            b"* #variable= 6 #constraint= 15\n",
            TWO_TO_THREE,
            b"-1 x2 >= 0 ;\n-1 x3 >= 0 ;\n-1 x1 +1 x5 >= 0 ;\n-1 x2 >= 0 ;\n\
                -1 x3 +1 x5 >= 0 ;\n-1 x4 >= 0 ;\n+1 x1 +1 x3 -1 x5 >= 0 ;\n-1 x6 >= 0 ;\n",
        ],
    },
];

#[test]
fn makes_each_line(rt: HostRuntime) -> Result<(), Fail> {
    all_hold(&rt, rt.alloc(), &ENCODED)
}

/// An edge into the same, where each end has a label of its own.
static OTHER_LABELS: [Encoded; 1] = [Encoded {
    kind: LadKind::VertexLabelledLad,
    pattern: b"2 1 1 1 2 1 0",
    target: b"2 1 1 1 2 1 0",
    induced: false,
    text: &[
        b"* #variable= 4 #constraint= 12\n",
        TWO_TO_TWO,
        b"-1 x2 >= 0 ;\n-1 x3 >= 0 ;\n-1 x1 +1 x4 >= 0 ;\n-1 x2 +1 x3 >= 0 ;\n\
            +1 x2 -1 x3 >= 0 ;\n+1 x1 -1 x4 >= 0 ;\n",
    ],
}];

#[test]
fn refuses_other_labels(rt: HostRuntime) -> Result<(), Fail> {
    all_hold(&rt, rt.alloc(), &OTHER_LABELS)
}

/// The number of the line of a pair with an edge, where there is one.
fn edge_of(encoding: &Encoding, q: &Problem, p: u16, r: u16, t: u16) -> Option<u64>
    requires { encoding.now ≡ q.now }
{
    let vertices = q.pattern().size();
    let targets = q.target().size();
    if p < vertices && r < vertices && t < targets && is_edge_pair(q, p, r) {
        Some(encoding.edge(p, r, t))
    } else {
        None
    }
}

/// The number of the line of a pair without an edge, where there is one.
fn non_edge_of(encoding: &Encoding, q: &Problem, p: u16, r: u16, t: u16) -> Option<u64>
    requires { encoding.now ≡ q.now }
{
    let vertices = q.pattern().size();
    let targets = q.target().size();
    if p < vertices && r < vertices && t < targets && is_non_edge_pair(q, p, r) {
        Some(encoding.non_edge(p, r, t))
    } else {
        None
    }
}

/// The numbers of the lines of `p` at `t` by injective maps: at least, at most, at most for the target vertex, and the refusal.
fn lines_of(
    encoding: &Encoding,
    q: &Problem,
    p: u16,
    t: u16,
) -> Option<(u64, u64, u64, Option<u64>)>
    requires { encoding.now ≡ q.now }
{
    match q.maps() {
        Maps::Injective => {
            if p < q.pattern().size() && t < q.target().size() {
                Some((
                    encoding.at_least(p),
                    encoding.at_most(p),
                    encoding.at_most_in(None, t),
                    encoding.refused(p, t),
                ))
            } else {
                None
            }
        }
        Maps::Local | Maps::Any => None,
    }
}

/// What has a number in an encoding.
enum Line {
    /// The lines of a vertex at a value, and their numbers.
    Of(u16, u16, (u64, u64, u64, Option<u64>)),
    /// The line of two vertices with an edge at a value of the first.
    Edge(u16, u16, u16, Option<u64>),
    /// The same of two without an edge.
    NonEdge(u16, u16, u16, Option<u64>),
}

impl Line {
    /// Whether it has this number.
    fn is_numbered(&self, encoding: &Encoding, q: &Problem) -> bool
        requires { encoding.now ≡ q.now }
    {
        match *self {
            Line::Of(p, t, numbers) => lines_of(encoding, q, p, t) == Some(numbers),
            Line::Edge(p, r, t, number) => edge_of(encoding, q, p, r, t) == number,
            Line::NonEdge(p, r, t, number) => non_edge_of(encoding, q, p, r, t) == number,
        }
    }
}

/// Whether each has its number.
fn are_numbered(encoding: &Encoding, q: &Problem, lines: &[Line]) -> bool
    requires { encoding.now ≡ q.now }
{
    for line in lines {
        if !line.is_numbered(encoding, q) {
            return false;
        }
    }
    true
}

/// The format of two graphs, the graphs, whether the copy is to be induced, how many lines the encoding has, and numbers of lines.
struct Numbered {
    kind: LadKind,
    pattern: &'static [u8],
    target: &'static [u8],
    induced: bool,
    len: u64,
    lines: &'static [Line],
}

impl Numbered {
    /// Whether the encoding of the problem has these numbers.
    fn is_of(&self, alloc: Global, q: &Problem) -> Result<bool, AllocError> {
        let encoding = Encoding::new(alloc, q)?;
        Ok(encoding.len() == self.len && are_numbered(&encoding, q, self.lines))
    }
}

impl<R> Example<R> for Numbered {
    fn holds(&self, _rt: &R, alloc: Global) -> Result<bool, AllocError> {
        match problem(alloc, self.pattern, self.target, self.kind, self.induced) {
            Some(q) => self.is_of(alloc, &q),
            None => Ok(false),
        }
    }
}

static NUMBERED: [Numbered; 3] = [
    // a triangle into a cycle of four
    Numbered {
        kind: LadKind::Lad,
        pattern: TRIANGLE,
        target: FOUR_CYCLE,
        induced: false,
        len: 34,
        lines: &[
            Line::Of(2, 3, (5, 6, 10, None)),
            Line::Edge(0, 2, 0, Some(15)),
            Line::Edge(1, 2, 1, Some(24)),
            Line::Edge(2, 1, 3, Some(34)),
            Line::Edge(1, 1, 0, None),
        ],
    },
    // an induced copy
    Numbered {
        kind: LadKind::Lad,
        pattern: b"3 1 1 1 0 0",
        target: SECOND_WITH_LOOP,
        induced: true,
        len: 23,
        lines: &[
            Line::Of(2, 1, (5, 6, 8, Some(11))),
            Line::Edge(1, 0, 1, Some(15)),
            Line::NonEdge(0, 2, 0, Some(16)),
            Line::NonEdge(2, 1, 1, Some(23)),
        ],
    },
    // an edge one way
    Numbered {
        kind: LadKind::DirectedLad,
        pattern: b"2 1 1 0",
        target: b"2 1 1 0",
        induced: false,
        len: 10,
        lines: &[Line::Edge(0, 1, 1, Some(8)), Line::Edge(1, 0, 0, Some(9))],
    },
];

#[test]
fn numbers_lines(rt: HostRuntime) -> Result<(), Fail> {
    all_hold(&rt, rt.alloc(), &NUMBERED)
}
