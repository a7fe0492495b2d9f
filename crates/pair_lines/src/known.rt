//! A problem with its encoding, as its edges lead or with both graphs turned round: the tests that the lines go by, and the references that
//! they make. The encoding is the same either way.

ghost use Rattle.std.specs.Prelude.{◌≡◌, ◌<◌, ◌≤◌, ◌*◌, ◌==◌, ◌&&◌, not, true, length, IfOk, Some};
ghost use Rattle.graph_theory.specs.Graph.{size};
ghost use Rattle.graph_theory.specs.Neighbours.{is_neighbour, common, degree as degree_of};
ghost use Rattle.graph_theory.specs.Embedding.{is_injective, near_both};
ghost use Rattle.graph_theory.specs.Blocks.{has_block};
ghost use Rattle.graph_theory.specs.Reversed.{turned, turned_problem};
ghost use Rattle.bit_rows.specs.BitRows.{has};
ghost use Rattle.encoding_theory.specs.Pairs.{is_edge_pair as is_edge, is_non_edge_pair as is_non_edge};
ghost use Rattle.explanation_theory.specs.Reasons.{not_there};
ghost use Rattle.pair_line_theory.specs.Laws.{IsPlace};
ghost use Rattle.pair_line_theory.specs.Rows.{at_least_line, at_most_line, block_line, target_line, edge_line, non_edge_line, is_shared as is_shared_by, is_paired as is_paired_by, there as there_at, weight as weight_at};
ghost use Rattle.pair_lines.specs.Choices.{IsNext, IsWithin, IsMeeting, alone_line};

use crate::meeting::Meeting;
use crate::placed_pair::PlacedPair;
use bit_rows::{has_bit, next_member};
use common_neighbour::Counts;
use graph_rows::near::is_near;
use graph_rows::{Graph, Problem};
use graph_theory::direction::Direction;
use graph_theory::embedding::Maps;
use log_theory::Ref;
use pb_encoding::{Encoding, is_edge_pair, is_non_edge_pair};
use proof_theory::Literal;
use std::alloc::{AllocError, Global};
use std::marker::Model;

/// A problem, the numbers of its encoding's lines, and the direction in which edges are followed. Contracts see the problem turned so.
#[derive(Drop)]
pub(crate) struct Known<'a, 'b> {
    q: &'a Problem,
    lines: &'a Encoding<'b>,
    direction: Direction,
}

impl<'a, 'b> Model for Known<'a, 'b> {
    ghost use Rattle.std.specs.Prelude.{◌≡◌};
    ghost use Rattle.graph_theory.specs.Embedding.{Problem as TheProblem};
    ghost use Rattle.graph_theory.specs.Reversed.{turned_problem};

    ghost Value = { TheProblem };

    ghost view = { λ k. turned_problem k.direction k.q.now };

    ghost invariant = { λ k. k.lines.now ≡ k.q.now };
}

/// Whether `b` is another vertex, and a neighbour of `a` in the graph turned in this direction. Cost: one word.
fn are_neighbours(g: &Graph, direction: Direction, a: u16, b: u16) -> bool
    requires from { a < size g.now }
    requires to { b < size g.now }
    ensures { result ≡ is_neighbour (turned direction g.now) a b }
{
    a != b && has_bit(g.row_by(direction, a), usize::from(b))
}

/// The first member of a row from a value on that is not this one, or the number of the row's bits where there is none. Cost: a step for
/// each word on the way.
fn next_other(row: &[u64], itself: usize, from: usize) -> usize
    requires short { length row.now ≤ 1024 }
    requires itself { itself < 64 * length row.now }
    requires from { from ≤ 64 * length row.now }
    ensures { IsNext (λ v. not (itself == v) && has row.now v) from (64 * length row.now) result }
{
    let first = next_member(row, from);
    if first == itself {
        return next_member(row, first + 1);
    }
    first
}

/// The first neighbour of `a` from a vertex on in the graph turned in this direction, or the number of vertices where there is none. Cost:
/// a step for each word on the way.
fn next_neighbour(g: &Graph, direction: Direction, a: u16, from: u16) -> u16
    requires vertex { a < size g.now }
    requires from { from ≤ size g.now }
    ensures { IsNext (is_neighbour (turned direction g.now) a) from (size g.now) result }
{
    let size = g.size();
    let next = next_other(g.row_by(direction, a), usize::from(a), usize::from(from));
    if next < usize::from(size) {
        return next as u16;
    }
    size
}

/// The first vertex from one on that is a neighbour of both in the graph turned in this direction, or the number of vertices where there is none.
/// Cost: a step for each neighbour of `a` on the way, and for each word.
fn next_of_both(g: &Graph, direction: Direction, a: u16, b: u16, from: u16) -> u16
    requires a_in { a < size g.now }
    requires b_in { b < size g.now }
    requires from { from ≤ size g.now }
    ensures { IsNext (is_shared_by (turned direction g.now) a b) from (size g.now) result }
{
    let mut m = next_neighbour(g, direction, a, from);
    while m < g.size() {
        if are_neighbours(g, direction, b, m) {
            return m;
        }
        m = next_neighbour(g, direction, a, m + 1);
    }
    m
}

impl<'a, 'b> Known<'a, 'b> {
    pub(crate) fn new(
        q: &'a Problem,
        lines: &'a Encoding<'b>,
        direction: Direction,
    ) -> Known<'a, 'b>
        requires encoding { lines.now ≡ q.now }
        ensures { result ≡ turned_problem direction q.entry.now }
    {
        Known {
            q,
            lines,
            direction,
        }
    }

    pub(crate) fn vertices(&self) -> u16
        ensures size { result ≡ size self.now.pattern }
        ensures few { result ≤ 1024 }
    {
        self.q.pattern().size()
    }

    pub(crate) fn targets(&self) -> u16
        ensures size { result ≡ size self.now.target }
        ensures few { result ≤ 8192 }
    {
        self.q.target().size()
    }

    /// How many neighbours two others share. Cost: one step for each word of a row.
    pub(crate) fn count_shared(&self, alloc: Global, p: u16, r: u16) -> Result<u16, AllocError>
        requires p_in { p < size self.now.pattern }
        requires r_in { r < size self.now.pattern }
        requires others { p ≡ r → ⊥ }
        ensures { IfOk result (λ n. n ≡ common self.now.pattern p r) }
    {
        Ok(Counts::new(alloc, self.q.pattern(), self.direction)?.count(p, r))
    }

    /// Which images have to differ.
    pub(crate) fn maps(&self) -> Maps
        ensures { result ≡ self.now.maps }
    {
        self.q.maps()
    }

    /// Whether `c` is near both. Cost: a few words.
    pub(crate) fn is_near_both(&self, c: u16, p: u16, r: u16) -> bool
        requires c_in { c < size self.now.pattern }
        requires p_in { p < size self.now.pattern }
        requires r_in { r < size self.now.pattern }
        ensures { result ≡ near_both self.now.pattern p r c }
    {
        let near = is_near(self.q.pattern(), c, p);
        let other = is_near(self.q.pattern(), c, r);
        near && other
    }

    /// The graphs, and the pairs that are to be in order, are within their limits. It changes nothing; the fact is what it is called for.
    pub(crate) fn in_limits(&self)
        ensures { IsWithin self.now }
    {
        let _less = self.q.less();
        let pattern = self.q.pattern();
        let target = self.q.target();
        let _vertices = pattern.size();
        let _targets = target.size();
    }

    /// The first neighbour of both from a vertex on, or the number of vertices where there is none. Cost: a step for each neighbour of `p` on the
    /// way, and for each word.
    pub(crate) fn next_shared(&self, p: u16, r: u16, from: u16) -> u16
        requires p_in { p < size self.now.pattern }
        requires r_in { r < size self.now.pattern }
        requires from { from ≤ size self.now.pattern }
        ensures { IsNext (is_shared_by self.now.pattern p r) from (size self.now.pattern) result }
    {
        next_of_both(self.q.pattern(), self.direction, p, r, from)
    }

    /// The first neighbour of `t` from a target vertex on, or the number of these where there is none. Cost: a step for each word on the way.
    pub(crate) fn next_near(&self, t: u16, from: u16) -> u16
        requires t_in { t < size self.now.target }
        requires from { from ≤ size self.now.target }
        ensures { IsNext (is_neighbour self.now.target t) from (size self.now.target) result }
    {
        next_neighbour(self.q.target(), self.direction, t, from)
    }

    pub(crate) fn is_edge_pair(&self, p: u16, r: u16) -> bool
        requires p_in { p < size self.now.pattern }
        requires r_in { r < size self.now.pattern }
        ensures { result ≡ is_edge self.now p r }
    {
        is_edge_pair(self.q, p, r)
    }

    pub(crate) fn is_non_edge_pair(&self, p: u16, r: u16) -> bool
        requires p_in { p < size self.now.pattern }
        requires r_in { r < size self.now.pattern }
        ensures { result ≡ is_non_edge self.now p r }
    {
        is_non_edge_pair(self.q, p, r)
    }

    /// Whether the two have lines of their own.
    pub(crate) fn is_paired(&self, p: u16, r: u16) -> bool
        requires p_in { p < size self.now.pattern }
        requires r_in { r < size self.now.pattern }
        ensures { result ≡ is_paired_by self.now p r }
    {
        self.is_edge_pair(p, r) || self.is_non_edge_pair(p, r)
    }

    pub(crate) fn at_least(&self, r: u16) -> Ref
        requires { r < size self.now.pattern }
        ensures { result ≡ at_least_line self.now r }
    {
        Ref::Line(self.lines.at_least(r))
    }

    pub(crate) fn at_most(&self, r: u16) -> Ref
        requires { r < size self.now.pattern }
        ensures { result ≡ at_most_line self.now r }
    {
        Ref::Line(self.lines.at_most(r))
    }

    /// That of a block at `t`.
    fn block(&self, block: Option<u16>, t: u16) -> Ref
        requires t_in { t < size self.now.target }
        requires exists { has_block self.now block ≡ true }
        ensures { result ≡ block_line self.now block t }
    {
        Ref::Line(self.lines.at_most_in(block, t))
    }

    /// That of all vertices.
    pub(crate) fn target(&self, t: u16) -> Ref
        requires t_in { t < size self.now.target }
        requires injective { is_injective self.now.maps ≡ true }
        ensures { result ≡ target_line self.now t }
    {
        self.block(None, t)
    }

    /// That of the block around `c`.
    pub(crate) fn around(&self, c: u16, t: u16) -> Ref
        requires t_in { t < size self.now.target }
        requires exists { has_block self.now (Some c) ≡ true }
        ensures { result ≡ block_line self.now (Some c) t }
    {
        self.block(Some(c), t)
    }

    /// The line of the encoding that serves two vertices without one of their own.
    pub(crate) fn alone(&self, meeting: Meeting, pair: PlacedPair) -> Ref
        requires placed { IsPlace self.now pair.p pair.t pair.r }
        requires meets { IsMeeting self.now pair.p pair.r meeting }
        ensures { result ≡ alone_line self.now meeting pair.t pair.r }
    {
        match meeting {
            Meeting::Never => self.target(pair.t),
            Meeting::Around(c) => self.around(c, pair.t),
            Meeting::May => self.at_most(pair.r),
        }
    }

    pub(crate) fn edge(&self, p: u16, r: u16, t: u16) -> Ref
        requires p_in { p < size self.now.pattern }
        requires r_in { r < size self.now.pattern }
        requires t_in { t < size self.now.target }
        requires exists { is_edge self.now p r ≡ true }
        ensures { result ≡ edge_line self.now p r t }
    {
        Ref::Line(self.lines.edge(p, r, t))
    }

    pub(crate) fn non_edge(&self, p: u16, r: u16, t: u16) -> Ref
        requires p_in { p < size self.now.pattern }
        requires r_in { r < size self.now.pattern }
        requires t_in { t < size self.now.target }
        requires exists { is_non_edge self.now p r ≡ true }
        ensures { result ≡ non_edge_line self.now p r t }
    {
        Ref::Line(self.lines.non_edge(p, r, t))
    }

    /// That `v` is at `w`.
    pub(crate) fn there(&self, w: u16, v: u16) -> Literal
        requires v_in { v < size self.now.pattern }
        requires w_in { w < size self.now.target }
        ensures { result ≡ there_at self.now w v }
    {
        let _vertices = self.vertices();
        Literal {
            variable: u32::from(v) * u32::from(self.targets()) + u32::from(w) + 1,
            negated: false,
        }
    }

    /// That it is not.
    pub(crate) fn not_there(&self, w: u16, v: u16) -> Literal
        requires v_in { v < size self.now.pattern }
        requires w_in { w < size self.now.target }
        ensures { result ≡ not_there self.now (v, w) }
    {
        Literal {
            negated: true,
            ..self.there(w, v)
        }
    }

    /// How many neighbours `t` has.
    pub(crate) fn degree(&self, t: u16) -> u16
        requires { t < size self.now.target }
        ensures { result ≡ degree_of self.now.target t }
    {
        self.q.target().degree_by(self.direction, t)
    }

    /// One more than `t` has neighbours.
    pub(crate) fn weight(&self, t: u16) -> u64
        requires { t < size self.now.target }
        ensures { result ≡ weight_at self.now t }
    {
        u64::from(self.degree(t)) + 1
    }
}
