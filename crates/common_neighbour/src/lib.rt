//! Common neighbours: how many vertices are neighbours of both of two vertices.
//!
//! An embedding by an injective map sends the common neighbours of two pattern vertices to common neighbours of their images, one to one, so
//! a pair of images with fewer of them lies in none (C. McCreesh, P. Prosser, "A parallel, backjumping subgraph
//! isomorphism algorithm using supplemental graphs", 2015). It does so in each direction of the edges, and each has counts of its
//! own, which are those of the graph turned so; where edges stand both ways one of them is enough. Nothing is kept beside the graph, and the layers above keep
//! what they need of the counts. One count is made by the bits of two rows of neighbours; those of a vertex with all
//! others by a walk over its neighbours and theirs where that is fewer steps, as in sparse graphs, else by the rows.
#![tactic(auto)]

ghost use Rattle.std.specs.Prelude.{◌≡◌, ℕ, ◌+◌, ◌*◌, ◌<◌, ◌==◌, ◌&&◌, not, nat_lt, length, slice_index, IfOk};
ghost use Rattle.graph_theory.specs.Graph.{size as size_of};
ghost use Rattle.graph_theory.specs.Neighbours.{common, is_neighbour};
ghost use Rattle.graph_theory.specs.Reversed.{turned};
ghost use Rattle.std.specs.Int.{from_bool};
ghost use Rattle.bit_rows.specs.BitRows.{has, words_for};
ghost use Rattle.common_neighbour.specs.Sharing.{shares, TooFewAreDead};

mod threads;

use bit_rows::{clear, count_both, count_members, has_bit, next_member, set_bit};
use graph_rows::Graph;
use graph_theory::direction::Direction;
use std::alloc::{AllocError, Global};
use std::marker::Model;

/// The numbers of common neighbours of a graph's vertices, in one direction. Contracts see the graph that is turned so.
#[derive(Drop)]
pub struct Counts<'a> {
    graph: &'a Graph,
    direction: Direction,
}

impl<'a> Model for Counts<'a> {
    ghost use Rattle.graph_theory.specs.Graph.{Graph as TheGraph};
    ghost use Rattle.graph_theory.specs.Reversed.{turned};

    ghost Value = { TheGraph };

    ghost view = { λ c. turned c.direction c.graph.now };
}

impl<'a> Counts<'a> {
    /// The counts of this graph's neighbours in this direction. Nothing is counted yet, and no memory is taken.
    pub fn new(
        _alloc: Global,
        graph: &'a Graph,
        direction: Direction,
    ) -> Result<Counts<'a>, AllocError>
        ensures { IfOk result (λ c. c ≡ turned direction graph.entry.now) }
    {
        Ok(Counts { graph, direction })
    }

    /// How many vertices are neighbours of both. Cost: one step for each word of a row.
    pub fn count(&self, a: u16, b: u16) -> u16
        requires a_in { a < size_of self.now }
        requires b_in { b < size_of self.now }
        requires apart { a ≡ b → ⊥ }
        ensures { result ≡ common self.now a b }
    {
        shared(self.graph, self.direction, a, b)
    }

    /// Writes the number of neighbours that each other vertex shares with `t`; what stands at `t` itself is left. Cost: one step
    /// for each word of the rows of `t` and of its neighbours, and for each neighbour of one of these, where this is less than one step for
    /// each word of the graph; else that.
    pub fn fill_counts(&self, t: u16, counts: &mut [u16])
        requires t_in { t < size_of self.now }
        requires long { length counts.old ≡ size_of self.now }
        ensures exact { (u : ℕ) → u < size_of self.now → (t ≡ u → ⊥)
            → slice_index counts.new u ≡ common self.now t u }
        ensures itself { slice_index counts.new t ≡ slice_index counts.old t }
    {
        if is_short_walk(self.graph, self.direction, t) {
            fill_by_walk(self.graph, self.direction, t, counts);
        } else {
            fill_by_rows(self.graph, self.direction, t, counts);
        }
    }

    /// Writes the set of the other vertices that share at least `c` neighbours with `t`. Cost: one step for each word of the graph.
    pub fn fill_at_least(&self, t: u16, c: u16, row: &mut [u64])
        requires t_in { t < size_of self.now }
        requires long { length row.old ≡ words_for (size_of self.now) }
        ensures { (u : ℕ) → has row.new u ≡ shares self.now t c u }
    {
        let (graph, direction) = (self.graph, self.direction);
        clear(row);
        for u in 0..graph.size() {
            if is_near(graph, direction, t, c, u) {
                set_bit(row, usize::from(u));
            }
        }
    }
}

/// A pair of values that share fewer neighbours than is asked of their vertices lies in no embedding.
pub fn too_few_are_dead()
    ensures { TooFewAreDead }
{}

/// Whether the neighbours of t's neighbours are fewer than the words of the graph. Cost: one step for each neighbour of `t` and
/// for each word of a row.
fn is_short_walk(graph: &Graph, direction: Direction, t: u16) -> bool
    requires t_in { t < size_of graph.now }
{
    let size = usize::from(graph.size());
    let near = graph.row_by(direction, t);
    let mut steps = 0;
    let mut c = next_member(near, 0);
    while c < 64 * near.len() {
        steps += usize::from(graph.in_degree_by(direction, c as u16));
        c = next_member(near, c + 1);
    }
    steps < size * near.len()
}

/// Writes the counts of the other vertices one by one. Cost: one step for each word of the graph.
fn fill_by_rows(graph: &Graph, direction: Direction, t: u16, counts: &mut [u16])
    requires t_in { t < size_of graph.now }
    requires long { length counts.old ≡ size_of graph.now }
    ensures exact { (u : ℕ) → u < size_of graph.now → (t ≡ u → ⊥)
        → slice_index counts.new u ≡ common (turned direction graph.now) t u }
    ensures itself { slice_index counts.new t ≡ slice_index counts.old t }
{
    for u in 0..graph.size() {
        if u != t {
            counts[usize::from(u)] = shared(graph, direction, t, u);
        }
    }
}

/// Writes the counts of the other vertices by a walk over the neighbours of t's neighbours. Cost: one step for each of them, and for each
/// word of the rows of `t` and of its neighbours.
fn fill_by_walk(graph: &Graph, direction: Direction, t: u16, counts: &mut [u16])
    requires t_in { t < size_of graph.now }
    requires long { length counts.old ≡ size_of graph.now }
    ensures exact { (u : ℕ) → u < size_of graph.now → (t ≡ u → ⊥)
        → slice_index counts.new u ≡ common (turned direction graph.now) t u }
    ensures itself { slice_index counts.new t ≡ slice_index counts.old t }
{
    let itself = counts[usize::from(t)];
    zero(counts);
    walk(graph, direction, t, counts);
    counts[usize::from(t)] = itself;
}

/// Sets all counts to 0.
fn zero(counts: &mut [u16])
    ensures { (v : ℕ) → slice_index counts.new v ≡ 0 }
{
    for count in counts.iter_mut() {
        *count = 0;
    }
}

/// Counts each vertex, from 0 on, once for each neighbour that it shares with `t`.
fn walk(graph: &Graph, direction: Direction, t: u16, counts: &mut [u16])
    requires t_in { t < size_of graph.now }
    requires long { length counts.old ≡ size_of graph.now }
    requires zero { (v : ℕ) → slice_index counts.old v ≡ 0 }
    ensures { (u : ℕ) → u < size_of graph.now
        → slice_index counts.new u ≡ common (turned direction graph.now) t u }
{
    let _size = graph.size();
    let near = graph.row_by(direction, t);
    let mut c = next_member(near, 0);
    while c < 64 * near.len() {
        count_neighbours(graph, direction, t, c as u16, counts);
        c = next_member(near, c + 1);
    }
}

/// Counts the vertices from which an edge leads to `c` once more, unless it is `t`. Cost: one step for each of them, and for each word of
/// a row.
fn count_neighbours(graph: &Graph, direction: Direction, t: u16, c: u16, counts: &mut [u16])
    requires c_in { c < size_of graph.now }
    requires long { length counts.old ≡ size_of graph.now }
    requires room { (v : ℕ) → slice_index counts.old v < 65535 }
    ensures { (u : ℕ)
        → slice_index counts.new u ≡ slice_index counts.old u
        + from_bool (not (t == c) && is_neighbour (turned direction graph.now) u c) }
{
    if c == t {
        return;
    }
    let _size = graph.size();
    let itself = counts[usize::from(c)];
    count_members(graph.in_row_by(direction, c), counts);
    counts[usize::from(c)] = itself;
}

/// Whether `u` is another vertex than `t` and shares at least `c` neighbours with it.
fn is_near(graph: &Graph, direction: Direction, t: u16, c: u16, u: u16) -> bool
    requires t_in { t < size_of graph.now }
    requires u_in { u < size_of graph.now }
    ensures { result
        ≡ (not (u == t) && not (nat_lt (common (turned direction graph.now) t u) c)) }
{
    u != t && shared(graph, direction, t, u) >= c
}

/// How many vertices are neighbours of both: what their rows share, without the two themselves.
fn shared(graph: &Graph, direction: Direction, a: u16, b: u16) -> u16
    requires a_in { a < size_of graph.now }
    requires b_in { b < size_of graph.now }
    requires apart { a ≡ b → ⊥ }
    ensures { result ≡ common (turned direction graph.now) a b }
{
    let (xs, ys) = (graph.row_by(direction, a), graph.row_by(direction, b));
    let both = count_both(xs, ys, usize::from(graph.size()));
    let itself = in_both(xs, ys, usize::from(a));
    let other = in_both(xs, ys, usize::from(b));
    (both - usize::from(itself) - usize::from(other)) as u16
}

/// Whether both rows hold the value.
fn in_both(xs: &[u64], ys: &[u64], value: usize) -> bool
    requires x_in { value < 64 * length xs.now }
    requires y_in { value < 64 * length ys.now }
    ensures { result ≡ (has xs.now value && has ys.now value) }
{
    has_bit(xs, value) && has_bit(ys, value)
}
