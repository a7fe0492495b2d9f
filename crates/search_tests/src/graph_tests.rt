//! Worked problems, on which the test over bit rows and the plain program must agree, and worked texts of mappings.

use crate::asked::{AskedOfProblem, Texts, all_problems_are_so};
use graph_rows::{Graph, Problem, read_mapping, write_mapping};
use graph_theory::listed_graph::ListedGraph;
use graph_theory::mapping_text::MapFault;
use graph_theory::plain_lad::vertices_in;
use graph_theory::trial::ListedProblem;
use lad_reader::LadKind;
use outer_io::MemorySink;
use std::alloc::{AllocError, Global};
use std::test::Fail;
use test_support::{Example, all_hold, graph_in};

const PLAIN: LadKind = LadKind::Lad;

const LABELLED: LadKind = LadKind::VertexLabelledLad;

const TRIANGLE: &[u8] = b"3 2 1 2 2 0 2 2 0 1";

const PATH: &[u8] = b"3 1 1 2 0 2 1 1";

const EDGE: &[u8] = b"2 1 1 1 0";

const POINT_AND_LOOP: &[u8] = b"2 0 1 1";

/// The graph of a text, kept as its lists.
fn listed_text(alloc: Global, text: &[u8], kind: LadKind) -> Option<ListedGraph> {
    let Ok(vertices) = vertices_in(alloc, text, kind, 1024) else {
        return None;
    };
    if vertices.len() < 8192 {
        Some(ListedGraph::new(kind, vertices))
    } else {
        None
    }
}

/// The problem of two texts, kept as their lists.
fn listed_problem(
    alloc: Global,
    pattern: &[u8],
    target: &[u8],
    kind: LadKind,
    induced: bool,
) -> Option<ListedProblem> {
    let pattern = listed_text(alloc, pattern, kind)?;
    let target = listed_text(alloc, target, kind)?;
    Some(ListedProblem::new(pattern, target, induced))
}

/// Two texts, a map, and whether it is an embedding.
struct Decided {
    pattern: &'static [u8],
    target: &'static [u8],
    kind: LadKind,
    induced: bool,
    map: &'static [u32],
    embeds: bool,
}

impl Decided {
    /// Whether the plain program decides so.
    fn holds_plainly(&self, alloc: Global) -> bool {
        match listed_problem(alloc, self.pattern, self.target, self.kind, self.induced) {
            Some(q) => q.is_embedding(self.map) == self.embeds,
            None => false,
        }
    }
}

impl AskedOfProblem for Decided {
    fn texts(&self) -> Texts {
        Texts(
            (self.kind, self.pattern),
            (self.kind, self.target),
            self.induced,
        )
    }

    /// Whether the plain program decides so, and the test over bit rows does.
    fn is_so(&self, alloc: Global, q: &Problem) -> bool {
        self.holds_plainly(alloc) && q.is_embedding(self.map) == self.embeds
    }
}

const LABELLED_EDGE: &[u8] = b"2 1 1 1 2 1 0";

const LABELLED_PATH: &[u8] = b"3 2 1 1 1 2 0 2 3 1 1";

static DECIDED: [Decided; 16] = [
    // labels are kept
    Decided {
        pattern: LABELLED_EDGE,
        target: LABELLED_PATH,
        kind: LABELLED,
        induced: false,
        map: &[1, 0],
        embeds: true,
    },
    // a label is not
    Decided {
        pattern: LABELLED_EDGE,
        target: LABELLED_PATH,
        kind: LABELLED,
        induced: false,
        map: &[0, 1],
        embeds: false,
    },
    // no vertex
    Decided {
        pattern: b"0",
        target: b"0",
        kind: PLAIN,
        induced: true,
        map: &[],
        embeds: true,
    },
    // more images than vertices
    Decided {
        pattern: b"0",
        target: b"1 0",
        kind: PLAIN,
        induced: false,
        map: &[0],
        embeds: false,
    },
    // no target vertex
    Decided {
        pattern: b"1 0",
        target: b"0",
        kind: PLAIN,
        induced: false,
        map: &[0],
        embeds: false,
    },
    // fewer images than vertices
    Decided {
        pattern: EDGE,
        target: EDGE,
        kind: PLAIN,
        induced: false,
        map: &[0],
        embeds: false,
    },
    // a path in a triangle
    Decided {
        pattern: PATH,
        target: TRIANGLE,
        kind: PLAIN,
        induced: false,
        map: &[2, 0, 1],
        embeds: true,
    },
    // a path in a triangle, induced
    Decided {
        pattern: PATH,
        target: TRIANGLE,
        kind: PLAIN,
        induced: true,
        map: &[2, 0, 1],
        embeds: false,
    },
    // a triangle in a path
    Decided {
        pattern: TRIANGLE,
        target: PATH,
        kind: PLAIN,
        induced: false,
        map: &[0, 1, 2],
        embeds: false,
    },
    // a loop at a loop
    Decided {
        pattern: b"1 1 0",
        target: POINT_AND_LOOP,
        kind: PLAIN,
        induced: false,
        map: &[1],
        embeds: true,
    },
    // a loop at none
    Decided {
        pattern: b"1 1 0",
        target: POINT_AND_LOOP,
        kind: PLAIN,
        induced: false,
        map: &[0],
        embeds: false,
    },
    // no loop at a loop
    Decided {
        pattern: b"1 0",
        target: POINT_AND_LOOP,
        kind: PLAIN,
        induced: false,
        map: &[1],
        embeds: true,
    },
    // no loop at a loop, induced
    Decided {
        pattern: b"1 0",
        target: POINT_AND_LOOP,
        kind: PLAIN,
        induced: true,
        map: &[1],
        embeds: false,
    },
    // one end lists the edge
    Decided {
        pattern: EDGE,
        target: b"2 1 1 0",
        kind: PLAIN,
        induced: true,
        map: &[1, 0],
        embeds: true,
    },
    // both ends at one vertex
    Decided {
        pattern: EDGE,
        target: EDGE,
        kind: PLAIN,
        induced: false,
        map: &[0, 0],
        embeds: false,
    },
    // an image past the target
    Decided {
        pattern: EDGE,
        target: EDGE,
        kind: PLAIN,
        induced: false,
        map: &[2, 0],
        embeds: false,
    },
];

#[test]
fn decides_embeddings_as_the_plain_program(rt: HostRuntime) -> Result<(), Fail> {
    all_problems_are_so(rt.alloc(), &DECIDED)
}

/// A text that is no mapping, and its first faulty line.
struct Faulty {
    text: &'static [u8],
    line: u64,
}

impl<R> Example<R> for Faulty {
    fn holds(&self, _rt: &R, alloc: Global) -> Result<bool, AllocError> {
        match read_mapping(alloc, self.text) {
            Err(MapFault::Line { line }) => Ok(line == self.line),
            _ => Ok(false),
        }
    }
}

static FAULTY: [Faulty; 4] = [
    // the line `yes` is missing
    Faulty {
        text: b"0 -> 1\n",
        line: 1,
    },
    // vertices out of order
    Faulty {
        text: b"yes\n1 -> 0\n",
        line: 2,
    },
    // a leading zero
    Faulty {
        text: b"yes\n0 -> 0\n1 -> 01\n",
        line: 3,
    },
    // no last line feed
    Faulty {
        text: b"yes\n0 -> 1",
        line: 2,
    },
];

/// A mapping's text.
const MAPPING: &[u8] = b"yes\n0 -> 1\n1 -> 4294967295\n";

/// Whether a text is read as these images, and written from them.
fn is_read_and_written(alloc: Global, text: &[u8], images: &[u32]) -> Result<bool, AllocError> {
    let Ok(found) = read_mapping(alloc, text) else {
        return Ok(false);
    };
    let mut sink = MemorySink::new(alloc, 64, Vec::new(alloc))?;
    let is_written = write_mapping(&found, &mut sink).is_ok() && sink.bytes() == text;
    Ok(is_written && found.as_slice() == images)
}

#[test]
fn reads_and_writes_mappings(rt: HostRuntime) -> Result<(), Fail> {
    assert!(rt; is_read_and_written(rt.alloc(), MAPPING, &[1, 4294967295])?);
    all_hold(&rt, rt.alloc(), &FAULTY)
}

/// Whether a graph of three vertices has labels, degrees and one loop, at 1.
fn has_a_loop_at_one(graph: &Graph) -> bool {
    graph.loops() == [0b010u64].as_slice()
        && graph.labels() == [5u32, 5, 6].as_slice()
        && graph.degrees() == [2u16, 1, 1].as_slice()
        && graph.size() > 1
        && graph.loop_at(1) == Some(0)
        && graph.loop_at(0).is_none()
}

#[test]
fn loops_and_degrees_lie_beside_the_rows(rt: HostRuntime) -> Result<(), Fail> {
    let text = b"3 5 2 1 2 5 2 1 0 6 1 0";
    let graph = graph_in(rt.alloc(), text, LABELLED).ok_or("no graph")?;
    assert!(rt; has_a_loop_at_one(&graph));
    Ok(())
}
