//! Graphs from a test of two vertices.

ghost use Rattle.std.specs.Prelude.{◌≡◌, ℕ, ◌<◌, ◌≤◌, Bool, IfOk};
ghost use Rattle.graph_theory.specs.Plain.{IsPlain};
ghost use Rattle.demo_instances.specs.Shapes.{IsMadeOf};
ghost use Rattle.demo_instances.specs.Listing.{ListsThose};

use graph_rows::Graph;
use lad_reader::{EdgeLabels, GraphParts, Labels, LadKind, NeighbourLists};
use std::alloc::{AllocError, Global};

/// A test of two vertices, in this order.
pub(crate) trait Pairs {
    /// How many vertices there are.
    ghost size: { Self → ℕ };

    /// Whether the test holds of two of them.
    ghost pair: { Self → ℕ → ℕ → Bool };

    /// What the test itself needs.
    ghost good: { Self → Type 0 };

    /// Whether the test holds of `a` and `b`.
    fn has(&self, a: usize, b: usize) -> bool
        requires good { good self.now }
        requires from { a < size self.now }
        requires to { b < size self.now }
        ensures { result ≡ pair self.now a b };
}

/// The vertices of which the test holds with `a` before them.
fn listed<P: Pairs>(alloc: Global, pairs: &P, a: usize, size: usize) -> Result<Vec<u32>, AllocError>
    requires good { P.good pairs.now }
    requires size { size ≡ P.size pairs.now }
    requires few { size ≤ 8192 }
    requires from { a < size }
    ensures { IfOk result (λ list. ListsThose size size (P.pair pairs.now a) list.items) }
{
    let mut list = Vec::new(alloc);
    for b in 0..size {
        if pairs.has(a, b) {
            list.push(b as u32)?;
        }
    }
    Ok(list)
}

/// The graph of so many vertices with label 0 in which two have an edge where the test holds of them in one of their two
/// orders. Cost: two tests for each two vertices.
pub(crate) fn graph_by<P: Pairs>(alloc: Global, pairs: &P, size: usize) -> Result<Graph, AllocError>
    requires good { P.good pairs.now }
    requires size { size ≡ P.size pairs.now }
    requires few { size ≤ 8192 }
    ensures made { IfOk result (IsMadeOf size (P.pair pairs.now)) }
    ensures plain { IfOk result IsPlain }
{
    let mut lists = Vec::new(alloc);
    for a in 0..size {
        let list = listed(alloc, pairs, a, size)?;
        lists.push(list)?;
    }
    let labels = vec![in alloc; 0u32; size]?;
    let neighbours = NeighbourLists::from_vecs(alloc, &lists)?;
    let parts = GraphParts {
        kind: LadKind::Lad,
        labels: Labels::from_vec(labels),
        neighbours,
        edge_labels: EdgeLabels::none(alloc),
    };
    Graph::new(alloc, &parts)
}
