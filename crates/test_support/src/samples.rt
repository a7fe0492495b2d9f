//! Small graphs for worked cases: texts that the cases of several crates share, and the graphs of texts.

ghost use Rattle.std.specs.Prelude.{◌≡◌, ◌≤◌, IfSome};
ghost use Rattle.graph_theory.specs.Graph.{size};
ghost use Rattle.graph_theory.specs.Plain.{IsPlain, IsUndirected};
ghost use Rattle.graph_theory.specs.declared.lad_text.LadKind.TheVariants.{Lad};
ghost use Rattle.test_support.specs.Samples.{IsGraphOf};

use graph_rows::Graph;
use lad_reader::{LadKind, read_lad};
use std::alloc::Global;

/// Three vertices, each two of which are neighbours.
pub const TRIANGLE: &[u8] = b"3 2 1 2 2 0 2 2 0 1";

/// A cycle of four vertices.
pub const FOUR_CYCLE: &[u8] = b"4 2 1 3 2 0 2 2 1 3 2 0 2";

/// A path of three vertices, the second in its middle.
pub const PATH: &[u8] = b"3 1 1 2 0 2 1 1";

/// Two neighbours.
pub const EDGE: &[u8] = b"2 1 1 1 0";

/// Two vertices that are none.
pub const APART: &[u8] = b"2 0 0";

/// The graph of a text of this kind of at most 64 vertices; none where the text is no such graph's, or memory is refused.
pub fn graph_in(alloc: Global, text: &[u8], kind: LadKind) -> Option<Graph>
    ensures few { IfSome result (λ g. size g ≤ 64) }
    ensures read { IfSome result (IsGraphOf text.now kind 64) }
    ensures plain { IsUndirected kind → IfSome result IsPlain }
{
    let Ok(parts) = read_lad(alloc, text, kind, 64) else {
        return None;
    };
    let Ok(graph) = Graph::new(alloc, &parts) else {
        return None;
    };
    if graph.size() > 64 {
        return None;
    }
    Some(graph)
}

/// The same of a text without labels.
pub fn graph(alloc: Global, text: &[u8]) -> Option<Graph>
    ensures few { IfSome result (λ g. size g ≤ 64) }
    ensures read { IfSome result (IsGraphOf text.now Lad 64) }
    ensures plain { IfSome result IsPlain }
{
    graph_in(alloc, text, LadKind::Lad)
}

/// The same of a text of this many vertices.
pub fn graph_of_size(alloc: Global, text: &[u8], vertices: u16) -> Option<Graph>
    ensures exact { IfSome result (λ g. size g ≡ vertices) }
    ensures read { IfSome result (IsGraphOf text.now Lad 64) }
    ensures plain { IfSome result IsPlain }
{
    let graph = graph(alloc, text)?;
    if graph.size() != vertices {
        return None;
    }
    Some(graph)
}
