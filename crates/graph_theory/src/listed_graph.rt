//! A graph kept as the lists of its text, part of the plain program beside the definitions. It is for small inputs,
//! and serves as the reference for every faster body.

ghost use Rattle.std.specs.Prelude.{◌≡◌, ◌<◌, ◌^◌, length, map};
ghost use Rattle.graph_theory.specs.Graph.{size, label as label_of, edge as edge_of, lists as lists_of, either_lists};
ghost use Rattle.graph_theory.specs.GraphText.{text_edge as text_edge_of, text_graph};

use crate::lad_text::LadKind;
use crate::plain_lad::{ListedVertex, listed_label};
use std::marker::Model;

/// A graph as its text lists it; in a format without directions an edge that one end lists counts for both.
#[derive(Drop)]
pub struct ListedGraph {
    kind: LadKind,
    vertices: Vec<ListedVertex>,
}

impl Model for ListedGraph {
    ghost use Rattle.std.specs.Prelude.{◌^◌, ◌<◌, length};
    ghost use Rattle.graph_theory.specs.Graph.{Graph};
    ghost use Rattle.graph_theory.specs.GraphText.{text_graph};

    ghost Value = { Graph };

    ghost view = { λ g. text_graph g.kind g.vertices.items };

    ghost invariant = { λ g. length g.vertices.items < 2 ^ 32 };
}

impl ListedGraph {
    /// The graph of these vertices in a format; there are fewer than 2^32 of them.
    pub fn new(kind: LadKind, vertices: Vec<ListedVertex>) -> ListedGraph
        requires { length vertices.items < 2 ^ 32 }
        ensures { result ≡ text_graph kind vertices.items }
    {
        ListedGraph { kind, vertices }
    }

    /// The number of vertices.
    pub fn size(&self) -> usize
        ensures size { result ≡ size self.now }
        ensures few { result < 2 ^ 32 }
    {
        self.vertices.len()
    }

    /// The label of a vertex.
    pub fn label(&self, a: usize) -> u32
        requires { a < size self.now }
        ensures { result ≡ label_of self.now a }
    {
        label_among(self.kind, &self.vertices, a)
    }

    /// The label of the edge from `a` to `b`, or none. It costs the length of both lists.
    pub fn edge(&self, a: usize, b: usize) -> Option<u32>
        requires from { a < size self.now }
        requires to { b < size self.now }
        ensures { result ≡ edge_of self.now a b }
    {
        edge_among(self.kind, &self.vertices, a, b)
    }
}

/// The label of vertex `a`.
fn label_among(kind: LadKind, vertices: &[ListedVertex], a: usize) -> u32
    requires { a < length vertices.now }
    ensures { result ≡ label_of (text_graph kind vertices.now) a }
{
    vertices[a].label()
}

/// The label with which vertex `a` lists `b`.
fn lists(vertices: &[ListedVertex], a: usize, b: usize) -> Option<u32>
    requires { a < length vertices.now }
    ensures { result ≡ lists_of vertices.now a b }
{
    listed_label(vertices[a].listed(), b)
}

/// The label of the edge that one of the ends lists.
fn either(vertices: &[ListedVertex], a: usize, b: usize) -> Option<u32>
    requires from { a < length vertices.now }
    requires to { b < length vertices.now }
    ensures { result ≡ either_lists vertices.now a b }
{
    match lists(vertices, a, b) {
        Some(label) => Some(label),
        None => lists(vertices, b, a),
    }
}

/// The label of the edge from `a` to `b` in a format.
fn edge_among(kind: LadKind, vertices: &[ListedVertex], a: usize, b: usize) -> Option<u32>
    requires from { a < length vertices.now }
    requires to { b < length vertices.now }
    ensures { result ≡ text_edge_of kind vertices.now a b }
{
    match kind {
        LadKind::Lad | LadKind::VertexLabelledLad => either(vertices, a, b),
        LadKind::DirectedLad | LadKind::LabelledLad => lists(vertices, a, b),
    }
}
