//! Graphs as bit rows: an edge is one bit, and the vertices to which edges lead from one are one row of words. (Ullmann 2010.)

ghost use Rattle.std.specs.Prelude.{◌≡◌, ℕ, ◌^◌, ◌<◌, ◌≤◌, ◌↔◌, true, false, length, is_some, Some, IsTrue, IfOk, slice_index};
ghost use Rattle.graph_theory.specs.Graph.{size as size_of, label as label_of, edge as edge_of};
ghost use Rattle.graph_theory.specs.GraphText.{text_graph};
ghost use Rattle.graph_theory.specs.Plain.{IsPlain, IsUndirected};
ghost use Rattle.graph_theory.specs.Neighbours.{degree as degree_of, in_degree as in_degree_of, is_neighbour};
ghost use Rattle.graph_theory.specs.Graph.{graph_of};
ghost use Rattle.graph_theory.specs.Reversed.{turned, IsMutual};
ghost use Rattle.lad_reader.specs.Parts.{vertices_of, vertices_from, AllBelow};
ghost use Rattle.bit_rows.specs.BitRows.{has, words_for};
ghost use Rattle.graph_rows.specs.Held.{AreTurned, AreBack};
ghost use Rattle.graph_rows.specs.Labels.{HasZeroLabels};

use crate::edge_labels::{EdgeLabels, labels_beside};
use crate::marks::{gather_loops, is_marked, mark_all, mark_all_in, mark_all_out};
use bit_rows::{count_both, has_bit, words_for};
use graph_theory::direction::Direction;
use lad_reader::{GraphParts, LadKind};
use std::alloc::{AllocError, Global};
use std::marker::Model;

/// A graph of at most 8,192 vertices, of which each ordered two have an edge or none, and each edge a label.
///
/// Beside a bit row for each vertex a graph with an edge that has none back has another for the edges that lead in, which costs as much again, and one
/// with labels of edges four bytes for each edge and each vertex. Other graphs pay for neither.
pub struct Graph {
    labels: Vec<u32>,
    words: Vec<u64>,
    width: usize,
    degrees: Vec<u16>,
    back: Vec<u64>,
    in_degrees: Vec<u16>,
    loops: Vec<u64>,
    edge_labels: EdgeLabels,
}

impl Drop for Graph {
    /// In one call, for whoever lets one go.
    fn drop(self) {
        let Graph {
            labels: _,
            words: _,
            width: _,
            degrees: _,
            back: _,
            in_degrees: _,
            loops: _,
            edge_labels: _,
        } = self;
    }
}

impl Model for Graph {
    ghost use Rattle.graph_theory.specs.Graph.{Graph as TheGraph};
    ghost use Rattle.std.specs.Prelude.{length};
    ghost use Rattle.graph_rows.specs.Held.{graph_held, label_kept, AreMarks, AreBack, AreLoops, AreBeside};

    ghost Value = { TheGraph };

    ghost view = { λ g. graph_held g.labels.items g.words.items
        (label_kept g.edge_labels.starts.items g.edge_labels.labels.items g.words.items g.width)
        g.width };

    ghost invariant = { λ g. AreMarks
        (length g.labels.items) g.width g.words.items g.degrees.items
        × AreBack (length g.labels.items) g.width g.words.items g.back.items g.in_degrees.items
        × AreLoops (length g.labels.items) g.width g.words.items g.loops.items
        × AreBeside (length g.labels.items) g.width g.words.items g.edge_labels.starts.items
        g.edge_labels.labels.items };
}

impl Graph {
    /// The graph of a text's parts. Cost: linear in the parts and in the words of the rows.
    pub fn new(alloc: Global, parts: &GraphParts) -> Result<Graph, AllocError>
        requires lengths { length parts.now.labels ≡ length parts.now.neighbours }
        requires few { length parts.now.labels ≤ 8192 }
        requires below { AllBelow (length parts.now.labels) parts.now.neighbours }
        ensures graph { IfOk result (λ g. g ≡ text_graph parts.now.kind (vertices_of parts.now)) }
        ensures plain { IsUndirected parts.now.kind → IfOk result IsPlain }
    {
        match parts.kind {
            LadKind::Lad => Graph::undirected(alloc, parts),
            LadKind::VertexLabelledLad => Graph::undirected(alloc, parts),
            LadKind::DirectedLad => Graph::directed(alloc, parts),
            LadKind::LabelledLad => Graph::directed(alloc, parts),
        }
    }

    /// The graph of parts without directions: an edge that one end lists counts for both.
    fn undirected(alloc: Global, parts: &GraphParts) -> Result<Graph, AllocError>
        requires kind { IsUndirected parts.now.kind }
        requires lengths { length parts.now.labels ≡ length parts.now.neighbours }
        requires few { length parts.now.labels ≤ 8192 }
        requires below { AllBelow (length parts.now.labels) parts.now.neighbours }
        ensures graph { IfOk result
            (λ g. g ≡ graph_of (vertices_from parts.now.labels parts.now.neighbours)) }
        ensures plain { IfOk result IsPlain }
    {
        let labels = Vec::from_slice(alloc, parts.labels.as_slice())?;
        let size = labels.len();
        let width = words_for(size);
        let mut words = vec![in alloc; 0u64; size * width]?;
        let mut degrees = vec![in alloc; 0u16; size]?;
        let mut loops = vec![in alloc; 0u64; width]?;
        mark_all(&mut words, &mut degrees, width, &parts.neighbours);
        gather_loops(&words, width, size, &mut loops);
        Ok(Graph {
            labels,
            words,
            width,
            degrees,
            back: Vec::new(alloc),
            in_degrees: Vec::new(alloc),
            loops,
            edge_labels: EdgeLabels::none(alloc),
        })
    }

    /// The graph of parts with directions: an edge leads from a vertex to each that it lists. Where each has one back, the rows of those that lead in
    /// are let go, being the same.
    fn directed(alloc: Global, parts: &GraphParts) -> Result<Graph, AllocError>
        requires lengths { length parts.now.labels ≡ length parts.now.neighbours }
        requires few { length parts.now.labels ≤ 8192 }
        requires below { AllBelow (length parts.now.labels) parts.now.neighbours }
        ensures graph { (IsUndirected parts.now.kind → ⊥)
            → IfOk result (λ g. g ≡ text_graph parts.now.kind (vertices_of parts.now)) }
    {
        let labels = Vec::from_slice(alloc, parts.labels.as_slice())?;
        let size = labels.len();
        let width = words_for(size);
        let mut words = vec![in alloc; 0u64; size * width]?;
        let mut degrees = vec![in alloc; 0u16; size]?;
        let mut back = vec![in alloc; 0u64; size * width]?;
        let mut in_degrees = vec![in alloc; 0u16; size]?;
        let mut loops = vec![in alloc; 0u64; width]?;
        mark_all_out(&mut words, &mut degrees, width, &parts.neighbours);
        mark_all_in(&mut back, &mut in_degrees, width, &parts.neighbours);
        gather_loops(&words, width, size, &mut loops);
        let edge_labels = labels_beside(alloc, parts, &words, width)?;
        let (back, in_degrees) = unless_mutual(alloc, &words, width, back, in_degrees);
        Ok(Graph {
            labels,
            words,
            width,
            degrees,
            back,
            in_degrees,
            loops,
            edge_labels,
        })
    }

    /// The number of vertices.
    pub fn size(&self) -> u16
        ensures size { result ≡ size_of self.now }
        ensures few { result ≤ 8192 }
    {
        self.labels.len() as u16
    }

    /// The label of a vertex.
    pub fn label(&self, a: u16) -> u32
        requires { a < size_of self.now }
        ensures { result ≡ label_of self.now a }
    {
        self.labels[usize::from(a)]
    }

    /// The label of the edge from `a` to `b`, or none where no edge leads there. Cost: one word; where an edge has a label, one step for each
    /// word of a row up to `b`.
    pub fn edge(&self, a: u16, b: u16) -> Option<u32>
        requires from { a < size_of self.now }
        requires to { b < size_of self.now }
        ensures { result ≡ edge_of self.now a b }
    {
        if is_marked(&self.words, self.width, usize::from(a), usize::from(b)) {
            Some(self.edge_label(a, b))
        } else {
            None
        }
    }

    /// The label of the edge from `a` to `b` in the graph turned in this direction, or none where no edge leads there. Cost: as `edge`.
    pub fn edge_by(&self, direction: Direction, a: u16, b: u16) -> Option<u32>
        requires from { a < size_of self.now }
        requires to { b < size_of self.now }
        ensures { result ≡ edge_of (turned direction self.now) a b }
    {
        match direction {
            Direction::Out => self.edge(a, b),
            Direction::In => self.edge(b, a),
        }
    }

    /// Whether labels of edges are kept. Where none are, each edge has label 0. Cost: one step.
    pub fn keeps_edge_labels(&self) -> bool
        ensures { result ≡ false → HasZeroLabels self.now }
    {
        !self.edge_labels.starts.is_empty()
    }

    /// The label of the edge that leads from `a` to `b`: as many labels after the first of those of `a` as edges lead to vertices before `b`.
    fn edge_label(&self, a: u16, b: u16) -> u32
        requires from { a < size_of self.now }
        requires to { b < size_of self.now }
        requires stands { is_some (edge_of self.now a b) ≡ true }
        ensures { Some result ≡ edge_of self.now a b }
    {
        let kept = &self.edge_labels;
        if kept.starts.is_empty() {
            return 0;
        }
        let row = self.row(a);
        let before = count_both(row, row, usize::from(b));
        kept.labels[kept.starts[usize::from(a)] as usize + before]
    }

    /// The label of the edge from `a` to itself, or none. Whether there is one is kept beside the rows. Cost: as `edge`.
    pub fn loop_at(&self, a: u16) -> Option<u32>
        requires { a < size_of self.now }
        ensures { result ≡ edge_of self.now a a }
    {
        if has_bit(&self.loops, usize::from(a)) {
            Some(self.edge_label(a, a))
        } else {
            None
        }
    }

    /// The vertices from which an edge leads to themselves, as a bit row.
    pub fn loops(&self) -> &[u64]
        ensures long { length result.now ≡ words_for (size_of self.now) }
        ensures loops { (a : ℕ) → has result.now a ≡ is_some (edge_of self.now a a) }
        ensures within { (a : ℕ) → has result.now a ≡ true → a < size_of self.now }
    {
        &self.loops
    }

    /// The labels of all vertices, in order.
    pub fn labels(&self) -> &[u32]
        ensures { result.now ≡ self.now.labels }
    {
        &self.labels
    }

    /// Whether an edge leads from `a` to `b`. Cost: one word.
    pub fn has_edge(&self, a: u16, b: u16) -> bool
        requires from { a < size_of self.now }
        requires to { b < size_of self.now }
        ensures { result ≡ is_some (edge_of self.now a b) }
    {
        is_marked(&self.words, self.width, usize::from(a), usize::from(b))
    }

    /// How many other vertices an edge leads to from `a`, which in a graph without directions are its neighbours. It was counted when
    /// the graph was made.
    pub fn degree(&self, a: u16) -> u16
        requires { a < size_of self.now }
        ensures { result ≡ degree_of self.now a }
    {
        self.degrees[usize::from(a)]
    }

    /// How many other vertices an edge leads to from `a`.
    pub fn out_degree(&self, a: u16) -> u16
        requires { a < size_of self.now }
        ensures { result ≡ degree_of self.now a }
    {
        self.degree(a)
    }

    /// How many other vertices an edge leads from to `a`. It was counted when the graph was made.
    pub fn in_degree(&self, a: u16) -> u16
        requires { a < size_of self.now }
        ensures { result ≡ in_degree_of self.now a }
    {
        if self.back.is_empty() {
            self.degrees[usize::from(a)]
        } else {
            self.in_degrees[usize::from(a)]
        }
    }

    /// The degrees of all vertices, in order.
    pub fn degrees(&self) -> &[u16]
        ensures long { length result.now ≡ size_of self.now }
        ensures degrees { (a : ℕ) → a < size_of self.now
            → slice_index result.now a ≡ degree_of self.now a }
    {
        &self.degrees
    }

    /// The vertices to which an edge leads from `a`, as a bit row.
    pub fn row(&self, a: u16) -> &[u64]
        requires { a < size_of self.now }
        ensures long { length result.now ≡ words_for (size_of self.now) }
        ensures neighbours { (b : ℕ) → has result.now b ≡ is_some (edge_of self.now a b) }
        ensures within { (b : ℕ) → has result.now b ≡ true → b < size_of self.now }
    {
        let from = usize::from(a) * self.width;
        &self.words[from..from + self.width]
    }

    /// The vertices to which an edge leads from `a`, as a bit row.
    pub fn out_row(&self, a: u16) -> &[u64]
        requires { a < size_of self.now }
        ensures long { length result.now ≡ words_for (size_of self.now) }
        ensures neighbours { (b : ℕ) → has result.now b ≡ is_some (edge_of self.now a b) }
        ensures within { (b : ℕ) → has result.now b ≡ true → b < size_of self.now }
    {
        self.row(a)
    }

    /// The vertices from which an edge leads to `a`, as a bit row.
    pub fn in_row(&self, a: u16) -> &[u64]
        requires { a < size_of self.now }
        ensures long { length result.now ≡ words_for (size_of self.now) }
        ensures neighbours { (b : ℕ) → has result.now b ≡ is_some (edge_of self.now b a) }
        ensures within { (b : ℕ) → has result.now b ≡ true → b < size_of self.now }
    {
        let from = usize::from(a) * self.width;
        if self.back.is_empty() {
            &self.words[from..from + self.width]
        } else {
            &self.back[from..from + self.width]
        }
    }

    /// Whether edges are known to stand both ways, since no rows are kept of those that lead in. It says so of each graph of a text in which each edge
    /// has one back, whose labels may be two. Cost: two steps.
    pub fn is_mutual(&self) -> bool
        ensures { IsTrue result → IsMutual self.now }
    {
        self.back.is_empty()
    }

    /// The row of `a` in the graph turned in this direction: `row` or `in_row`.
    pub fn row_by(&self, direction: Direction, a: u16) -> &[u64]
        requires { a < size_of self.now }
        ensures long { length result.now ≡ words_for (size_of self.now) }
        ensures neighbours { (b : ℕ)
            → has result.now b ≡ is_some (edge_of (turned direction self.now) a b) }
        ensures within { (b : ℕ) → has result.now b ≡ true → b < size_of self.now }
    {
        match direction {
            Direction::Out => self.row(a),
            Direction::In => self.in_row(a),
        }
    }

    /// The vertices from which an edge leads to `a` in the graph turned in this direction: `in_row` or `row`.
    pub fn in_row_by(&self, direction: Direction, a: u16) -> &[u64]
        requires { a < size_of self.now }
        ensures long { length result.now ≡ words_for (size_of self.now) }
        ensures neighbours { (b : ℕ)
            → has result.now b ≡ is_some (edge_of (turned direction self.now) b a) }
        ensures within { (b : ℕ) → has result.now b ≡ true → b < size_of self.now }
    {
        match direction {
            Direction::Out => self.in_row(a),
            Direction::In => self.row(a),
        }
    }

    /// The degree of `a` in the graph turned in this direction: `degree` or `in_degree`.
    pub fn degree_by(&self, direction: Direction, a: u16) -> u16
        requires { a < size_of self.now }
        ensures { result ≡ degree_of (turned direction self.now) a }
    {
        match direction {
            Direction::Out => self.degree(a),
            Direction::In => self.in_degree(a),
        }
    }

    /// How many other vertices an edge leads from to `a` in the graph turned in this direction: `in_degree` or `degree`.
    pub fn in_degree_by(&self, direction: Direction, a: u16) -> u16
        requires { a < size_of self.now }
        ensures { result ≡ in_degree_of (turned direction self.now) a }
    {
        match direction {
            Direction::Out => self.in_degree(a),
            Direction::In => self.degree(a),
        }
    }

    /// The degrees of all vertices in the graph turned in this direction, in order.
    pub fn degrees_by(&self, direction: Direction) -> &[u16]
        ensures long { length result.now ≡ size_of self.now }
        ensures degrees { (a : ℕ) → a < size_of self.now
            → slice_index result.now a ≡ degree_of (turned direction self.now) a }
    {
        match direction {
            Direction::Out => self.degrees(),
            Direction::In => self.all_in_degrees(),
        }
    }

    /// How many other vertices an edge leads from to each vertex, in order.
    fn all_in_degrees(&self) -> &[u16]
        ensures long { length result.now ≡ size_of self.now }
        ensures degrees { (a : ℕ) → a < size_of self.now
            → slice_index result.now a ≡ in_degree_of self.now a }
    {
        if self.back.is_empty() {
            &self.degrees
        } else {
            &self.in_degrees
        }
    }

    /// In a graph without directions each vertex is a neighbour of its neighbours. It changes nothing; the fact is what it is called for.
    pub fn neighbours_are_mutual(&self)
        requires { IsPlain self.now }
        ensures { (a b : ℕ) → is_neighbour self.now a b ≡ is_neighbour self.now b a }
    {
        let _width = self.width;
    }

    /// Whether the other graph has the same labels and edges. Cost: the words of the rows and the labels of edges; only where edges stand
    /// alike and their labels are others, or one graph keeps none, `edge` for each two vertices up to the first difference.
    pub fn same(&self, other: &Graph) -> bool
        ensures { IsTrue result ↔ (self.now ≡ other.now) }
    {
        if !same_lists(&self.labels, &other.labels, &self.words, &other.words) {
            return false;
        }
        if same_edge_labels(&self.edge_labels, &other.edge_labels) {
            return true;
        }
        self.has_edges_of(other)
    }

    /// Whether each two vertices have the edge that they have in another graph of as many.
    fn has_edges_of(&self, other: &Graph) -> bool
        requires { size_of other.now ≡ size_of self.now }
        ensures { IsTrue result
            ↔ ((a b : ℕ) → a < size_of self.now → b < size_of self.now
            → edge_of self.now a b ≡ edge_of other.now a b) }
    {
        for a in 0..self.size() {
            if !self.has_row_of(other, a) {
                return false;
            }
        }
        true
    }

    /// Whether `a` has the edges that it has in another graph of as many vertices.
    fn has_row_of(&self, other: &Graph, a: u16) -> bool
        requires same { size_of other.now ≡ size_of self.now }
        requires from { a < size_of self.now }
        ensures { IsTrue result
            ↔ ((b : ℕ) → b < size_of self.now → edge_of self.now a b ≡ edge_of other.now a b) }
    {
        for b in 0..self.size() {
            if self.edge(a, b) != other.edge(a, b) {
                return false;
            }
        }
        true
    }
}

/// The rows of the edges that lead in, and how many lead to each vertex; nothing of both where these rows are the vertices' own.
fn unless_mutual(
    alloc: Global,
    words: &[u64],
    width: usize,
    back: Vec<u64>,
    in_degrees: Vec<u16>,
) -> (Vec<u64>, Vec<u16>)
    requires { AreTurned (length in_degrees.items) width words.now back.items in_degrees.items }
    ensures { AreBack (length in_degrees.items) width words.now result.0.items result.1.items }
{
    if words == back.as_slice() {
        return (Vec::new(alloc), Vec::new(alloc));
    }
    (back, in_degrees)
}

/// Whether labels of edges are kept alike.
fn same_edge_labels(kept: &EdgeLabels, others: &EdgeLabels) -> bool
    ensures starts { IsTrue result → kept.now.starts.items ≡ others.now.starts.items }
    ensures labels { IsTrue result → kept.now.labels.items ≡ others.now.labels.items }
{
    kept.starts == others.starts && kept.labels == others.labels
}

/// Whether labels are the same, and words are.
fn same_lists(labels: &[u32], other_labels: &[u32], words: &[u64], other_words: &[u64]) -> bool
    ensures same { IsTrue result
        ↔ ((labels.now ≡ other_labels.now) × (words.now ≡ other_words.now)) }
    ensures fit { (k : ℕ) → slice_index words.now k < 2 ^ 64 }
    ensures others_fit { (k : ℕ) → slice_index other_words.now k < 2 ^ 64 }
{
    labels == other_labels && words == other_words
}
