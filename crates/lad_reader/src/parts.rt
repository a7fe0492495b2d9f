//! The parts of a graph as its text lists them.

ghost use Rattle.std.specs.Prelude.{◌≡◌, ◌<◌, [], length, map, slice_get, slice_index_or, Some, IfOk};

use graph_theory::lad_text::LadKind;
use packed_lists::PackedLists;
use std::alloc::{AllocError, Global};
use std::marker::Model;

/// The labels of a graph's vertices, in order.
#[derive(Drop)]
pub struct Labels {
    labels: Vec<u32>,
}

impl Model for Labels {
    ghost use Rattle.std.specs.Prelude.{ℕ, List};

    ghost Value = { List ℕ };

    ghost view = { λ l. l.labels.items };
}

impl Labels {
    /// The labels of this vector. It takes no memory.
    pub fn from_vec(labels: Vec<u32>) -> Labels
        ensures { result ≡ labels.items }
    {
        Labels { labels }
    }

    /// The labels as a slice.
    pub fn as_slice(&self) -> &[u32]
        ensures { result.now ≡ self.now }
    {
        &self.labels
    }
}

/// The neighbours that each vertex of a graph lists, in the text's order, repeats included, in one block.
#[derive(Drop)]
pub struct NeighbourLists {
    lists: PackedLists<u32>,
}

impl Model for NeighbourLists {
    ghost use Rattle.std.specs.Prelude.{ℕ, List};

    ghost Value = { List (List ℕ) };

    ghost view = { λ n. n.lists.lists };
}

impl NeighbourLists {
    /// The lists that are closed. It takes no memory.
    pub fn from_lists(lists: PackedLists<u32>) -> NeighbourLists
        ensures { result ≡ lists.lists }
    {
        NeighbourLists { lists }
    }

    /// The lists of these vectors, copied. Cost: one step for each number.
    pub fn from_vecs(alloc: Global, vecs: &[Vec<u32>]) -> Result<NeighbourLists, AllocError>
        ensures { IfOk result (λ n. n ≡ map (λ bs. bs.items) vecs.now) }
    {
        let mut lists = PackedLists::new(alloc);
        for i in 0..vecs.len() {
            lists.push_all(&vecs[i])?;
            lists.close()?;
        }
        Ok(NeighbourLists { lists })
    }

    /// How many vertices there are.
    pub fn len(&self) -> usize
        ensures { result ≡ length self.now }
    {
        self.lists.len()
    }

    /// The neighbours that a vertex lists.
    pub fn of(&self, a: usize) -> &[u32]
        requires { a < length self.now }
        ensures { slice_get self.now a ≡ Some result.now }
    {
        self.lists.of(a)
    }
}

/// The labels of the edges to the neighbours that each vertex lists, in the same order, in one block.
#[derive(Drop)]
pub struct EdgeLabels {
    lists: PackedLists<u32>,
}

impl Model for EdgeLabels {
    ghost use Rattle.std.specs.Prelude.{ℕ, List};

    ghost Value = { List (List ℕ) };

    ghost view = { λ n. n.lists.lists };
}

impl EdgeLabels {
    /// No labels, as in a format that writes none. It takes no memory.
    pub fn none(alloc: Global) -> EdgeLabels
        ensures { result ≡ [] }
    {
        EdgeLabels {
            lists: PackedLists::new(alloc),
        }
    }

    /// The lists that are closed. It takes no memory.
    pub fn from_lists(lists: PackedLists<u32>) -> EdgeLabels
        ensures { result ≡ lists.lists }
    {
        EdgeLabels { lists }
    }

    /// The labels of the edges from a vertex, none where it has no list.
    pub fn of(&self, a: usize) -> &[u32]
        ensures { result.now ≡ slice_index_or self.now a [] }
    {
        if a >= self.lists.len() {
            return &[];
        }
        self.lists.of(a)
    }
}

/// What a graph's text says: its format, a label for each vertex, 0 where the text has none, the neighbours that it lists, and the
/// labels of the edges to these, which are 0 where none are given.
pub struct GraphParts {
    /// The format.
    pub kind: LadKind,
    /// The labels.
    pub labels: Labels,
    /// The neighbours.
    pub neighbours: NeighbourLists,
    /// The labels of the edges to them; they count in a format with such labels alone.
    pub edge_labels: EdgeLabels,
}

impl Drop for GraphParts {
    /// In one call, for whoever lets one go.
    fn drop(self) {
        let GraphParts {
            kind: _,
            labels: _,
            neighbours: _,
            edge_labels: _,
        } = self;
    }
}
