//! How many neighbours a vertex has in either direction, by which vertices and values are chosen.

ghost use Rattle.std.specs.Prelude.{◌≡◌, ◌<◌};
ghost use Rattle.graph_theory.specs.Graph.{size as size_of};
ghost use Rattle.restart_search.specs.Degrees.{either_degree as either_degree_of};

use bit_rows::count_both;
use graph_rows::Graph;

/// How many other vertices have an edge from `a` or to it. Cost: a few steps where edges are known to stand both ways, else one for each
/// word of a row.
pub(crate) fn either_degree(graph: &Graph, a: u16) -> u16
    requires { a < size_of graph.now }
    ensures { result ≡ either_degree_of graph.now a }
{
    if graph.is_mutual() {
        return graph.degree(a);
    }
    let size = usize::from(graph.size());
    let both = count_both(graph.row(a), graph.in_row(a), size) as u16;
    let itself = u16::from(graph.has_edge(a, a));
    graph.degree(a) + graph.in_degree(a) + itself - both
}
