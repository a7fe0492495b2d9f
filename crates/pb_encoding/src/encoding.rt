//! The encoding of a problem: how many lines it has, and the number of each. (Gocht, McCreesh, Nordström, "Subgraph
//! isomorphism meets cutting planes", 2020.)

ghost use Rattle.std.specs.Prelude.{◌≡◌, ℕ, ◌<◌, ◌≤◌, ◌+◌, ◌-◌, ◌*◌, ◌^◌, true, length, slice_get, is_some, IfOk, IfSome, Some};
ghost use Rattle.graph_theory.specs.Graph.{size};
ghost use Rattle.encoding_theory.specs.Variables.{variables as variables_of};
ghost use Rattle.encoding_theory.specs.Pairs.{is_edge_pair, is_non_edge_pair};
ghost use Rattle.encoding_theory.specs.Encoding.{encoding as encoding_of, at_least as at_least_form, at_most as at_most_form, at_most_in as at_most_in_form, is_refused, refusal, pair_form, less_from as less_from_form, less_to as less_to_form};
ghost use Rattle.encoding_theory.specs.Places.{at_least_place, at_most_place, at_most_place_in, refused_start, refused_place, edge_start, edge_place, non_edge_start, non_edge_place, less_start, less_from_place, less_to_place};
ghost use Rattle.graph_theory.specs.Blocks.{has_block};
ghost use Rattle.pb_encoding.specs.Numbers.{block_count};

use crate::line::{block_count_of, line_at};
use crate::numbers::{
    centres, edge_numbers, non_edge_numbers, place_in, place_of, refused_numbers,
};
use crate::terms::{Room, constraint_of};
use graph_rows::Problem;
use pb_terms::Constraint;
use std::alloc::{AllocError, Global};
use std::marker::Model;

/// The encoding of a problem, which it is seen as. It keeps the problem's sizes, the numbers of the pairs that have lines of their own, and
/// the centres of blocks, and makes each line from these and the problem's graphs when it is asked for.
pub struct Encoding<'a> {
    problem: &'a Problem,
    vertices: u32,
    targets: u32,
    refused: Vec<u32>,
    edges: Vec<u32>,
    non_edges: Vec<u32>,
    centres: Vec<u32>,
}

impl Drop for Encoding<'_> {
    /// In one call, for whoever lets one go.
    fn drop(self) {
        let Encoding {
            problem: _,
            vertices: _,
            targets: _,
            refused: _,
            edges: _,
            non_edges: _,
            centres: _,
        } = self;
    }
}

impl<'a> Model for Encoding<'a> {
    ghost use Rattle.graph_theory.specs.Embedding.{Problem as TheProblem};
    ghost use Rattle.pb_encoding.specs.Numbers.{IsKept};

    ghost Value = { TheProblem };

    ghost view = { λ e. e.problem.now };

    ghost invariant = { λ e. IsKept e.problem.now e.vertices e.targets e.refused.items
        e.edges.items e.non_edges.items e.centres.items };
}

/// The number of a line: so many lines before its group, so many pairs before its own with a line for each target
/// vertex, and its place among these.
fn line_number(start: u64, pairs: u64, targets: u32, t: u16) -> u64
    requires start { start ≤ 2 ^ 35 }
    requires pairs { pairs ≤ 2 ^ 20 }
    requires targets { targets ≤ 8192 }
    ensures { result ≡ start + (pairs * targets + t) + 1 }
{
    start + pairs * u64::from(targets) + u64::from(t) + 1
}

/// How many lines the pairs have, one for each target vertex.
fn lines_of(pairs: &[u32], targets: u32) -> u64
    requires pairs { length pairs.now ≤ 2 ^ 20 }
    requires targets { targets ≤ 8192 }
    ensures lines { result ≡ length pairs.now * targets }
    ensures few { result ≤ 2 ^ 33 }
{
    pairs.len() as u64 * u64::from(targets)
}

/// How many lines so many pairs have that are to be in order, two for each target vertex.
fn order_lines(pairs: u64, targets: u32) -> u64
    requires pairs { pairs ≤ 64 }
    requires targets { targets ≤ 8192 }
    ensures lines { result ≡ pairs * (2 * targets) }
    ensures few { result ≤ 2 ^ 20 }
{
    pairs * (2 * u64::from(targets))
}

impl<'a> Encoding<'a> {
    /// The encoding of a problem. Cost: one test for each pair of a pattern vertex and a target vertex, and two for each
    /// pair of pattern vertices, or three where the maps are local.
    pub fn new(alloc: Global, q: &'a Problem) -> Result<Encoding<'a>, AllocError>
        ensures { IfOk result (λ e. e ≡ q.now) }
    {
        let vertices = u32::from(q.pattern().size());
        let targets = u32::from(q.target().size());
        let refused = refused_numbers(alloc, q)?;
        let edges = edge_numbers(alloc, q)?;
        let non_edges = non_edge_numbers(alloc, q)?;
        let centres = centres(alloc, q)?;
        Ok(Encoding {
            problem: q,
            vertices,
            targets,
            refused,
            edges,
            non_edges,
            centres,
        })
    }

    /// The problem that it is the encoding of.
    pub fn problem(&self) -> &'a Problem
        ensures { result.now ≡ self.now }
    {
        self.problem
    }

    /// The number of variables.
    pub fn variables(&self) -> u32
        ensures { result ≡ variables_of self.now }
    {
        self.vertices * self.targets
    }

    /// The number of lines.
    pub fn len(&self) -> u64
        ensures { result ≡ length (encoding_of self.now) }
    {
        let pairs = self.problem.less();
        self.less_start() + order_lines(pairs.len() as u64, self.targets)
    }

    /// The number of the line by which `p` goes somewhere. Cost: constant.
    pub fn at_least(&self, p: u16) -> u64
        requires { p < size self.now.pattern }
        ensures line { result ≡ at_least_place self.now p + 1 }
        ensures form { slice_get (encoding_of self.now) (result - 1)
            ≡ Some (at_least_form self.now p) }
    {
        2 * u64::from(p) + 1
    }

    /// The number of the line by which `p` goes to one place at most. Cost: constant.
    pub fn at_most(&self, p: u16) -> u64
        requires { p < size self.now.pattern }
        ensures line { result ≡ at_most_place self.now p + 1 }
        ensures form { slice_get (encoding_of self.now) (result - 1)
            ≡ Some (at_most_form self.now p) }
    {
        2 * u64::from(p) + 2
    }

    /// The number of the line by which one vertex at most of a block goes to `t`: of the block of all vertices, or of that of a centre. Cost:
    /// constant, or logarithmic.
    pub fn at_most_in(&self, block: Option<u16>, t: u16) -> u64
        requires t_in { t < size self.now.target }
        requires exists { has_block self.now block ≡ true }
        ensures line { result ≡ at_most_place_in self.now block t + 1 }
        ensures form { slice_get (encoding_of self.now) (result - 1)
            ≡ Some (at_most_in_form self.now block t) }
    {
        match block {
            None => line_number(self.block_start(), 0, self.targets, t),
            Some(centre) => {
                let before = place_in(&self.centres, u32::from(centre));
                line_number(self.block_start(), before, self.targets, t)
            }
        }
    }

    /// The number of the line by which the second vertex of pair `k` of those that are to be in order, counted from 1, goes past `t` where
    /// the first goes there. Cost: constant.
    pub fn less_from(&self, k: u16, t: u16) -> u64
        requires first { 1 ≤ k }
        requires last { k ≤ length self.now.less }
        requires t_in { t < size self.now.target }
        ensures line { (x : ℕ × ℕ) → slice_get self.now.less (k - 1) ≡ Some x
            → result ≡ less_from_place self.now (k - 1) x t + 1 }
        ensures form { (x : ℕ × ℕ) → slice_get self.now.less (k - 1) ≡ Some x
            → slice_get (encoding_of self.now) (result - 1) ≡ Some (less_from_form self.now x t) }
    {
        let _less = self.problem.less();
        self.less_start() + order_lines(u64::from(k - 1), self.targets) + u64::from(t) + 1
    }

    /// The number of the line by which the first vertex of pair `k` goes below `t` where the second goes there. Cost: constant.
    pub fn less_to(&self, k: u16, t: u16) -> u64
        requires first { 1 ≤ k }
        requires last { k ≤ length self.now.less }
        requires t_in { t < size self.now.target }
        ensures line { (x : ℕ × ℕ) → slice_get self.now.less (k - 1) ≡ Some x
            → result ≡ less_to_place self.now (k - 1) x t + 1 }
        ensures form { (x : ℕ × ℕ) → slice_get self.now.less (k - 1) ≡ Some x
            → slice_get (encoding_of self.now) (result - 1) ≡ Some (less_to_form self.now x t) }
    {
        let _less = self.problem.less();
        let before = order_lines(u64::from(k - 1), self.targets) + u64::from(self.targets);
        self.less_start() + before + u64::from(t) + 1
    }

    /// The number of the line by which `p` does not go to `t`, or none where the pair is allowed by itself. Cost:
    /// logarithmic.
    pub fn refused(&self, p: u16, t: u16) -> Option<u64>
        requires p_in { p < size self.now.pattern }
        requires t_in { t < size self.now.target }
        ensures exists { is_some result ≡ is_refused self.now p t }
        ensures line { IfSome result (λ line. line ≡ refused_place self.now p t + 1) }
        ensures form { IfSome result
            (λ line. slice_get (encoding_of self.now) (line - 1) ≡ Some (refusal self.now p t)) }
    {
        let number = u32::from(p) * self.targets + u32::from(t);
        match place_of(&self.refused, number) {
            Some(place) => Some(self.refused_start() + place as u64 + 1),
            None => None,
        }
    }

    /// The number of the line of `p` and `r`, two vertices with an edge between them in either direction, where `p` goes
    /// to `t`. Cost: logarithmic.
    pub fn edge(&self, p: u16, r: u16, t: u16) -> u64
        requires p_in { p < size self.now.pattern }
        requires r_in { r < size self.now.pattern }
        requires t_in { t < size self.now.target }
        requires exists { is_edge_pair self.now p r ≡ true }
        ensures line { result ≡ edge_place self.now p r t + 1 }
        ensures form { slice_get (encoding_of self.now) (result - 1)
            ≡ Some (pair_form self.now p r t) }
    {
        let number = u32::from(p) * self.vertices + u32::from(r);
        let before = place_in(&self.edges, number);
        line_number(self.edge_start(), before, self.targets, t)
    }

    /// The number of the line of `p` and `r`, two vertices without an edge between them, where `p` goes to `t`, in the
    /// induced kind. Cost: logarithmic.
    pub fn non_edge(&self, p: u16, r: u16, t: u16) -> u64
        requires p_in { p < size self.now.pattern }
        requires r_in { r < size self.now.pattern }
        requires t_in { t < size self.now.target }
        requires exists { is_non_edge_pair self.now p r ≡ true }
        ensures line { result ≡ non_edge_place self.now p r t + 1 }
        ensures form { slice_get (encoding_of self.now) (result - 1)
            ≡ Some (pair_form self.now p r t) }
    {
        let number = u32::from(p) * self.vertices + u32::from(r);
        let before = place_in(&self.non_edges, number);
        line_number(self.non_edge_start(), before, self.targets, t)
    }

    /// The constraint of line `i`, counted from 1. Cost: a few steps for each of its terms, and for that of a pair of pattern vertices a few for
    /// each word of a row; where a graph keeps labels of edges and one joins the pair, also one test for each place to which edges lead as
    /// they have to. The memory is four words for each target vertex.
    pub fn constraint(&self, alloc: Global, i: u64) -> Result<Constraint, AllocError>
        requires first { 1 ≤ i }
        requires last { i ≤ length (encoding_of self.now) }
        ensures { IfOk result (λ c. slice_get (encoding_of self.now) (i - 1) ≡ Some c) }
    {
        self.constraint_in(alloc, i, &mut Room::new(alloc))
    }

    /// The same in room that the next line uses again.
    pub(crate) fn constraint_in(
        &self,
        alloc: Global,
        i: u64,
        room: &mut Room,
    ) -> Result<Constraint, AllocError>
        requires first { 1 ≤ i }
        requires last { i ≤ length (encoding_of self.now) }
        ensures { IfOk result (λ c. slice_get (encoding_of self.now) (i - 1) ≡ Some c) }
    {
        let line = line_at(
            self.problem,
            &self.refused,
            &self.edges,
            &self.non_edges,
            &self.centres,
            i - 1,
        );
        constraint_of(alloc, self.problem, line, room)
    }

    /// How many lines stand before those of blocks.
    fn block_start(&self) -> u64
        ensures start { result ≡ 2 * size self.now.pattern }
        ensures few { result ≤ 2 ^ 11 }
    {
        2 * u64::from(self.vertices)
    }

    /// How many lines blocks have.
    fn block_lines(&self) -> u64
        ensures lines { result ≡ block_count self.now * size self.now.target }
        ensures few { result ≤ 2 ^ 23 }
    {
        block_count_of(self.problem, &self.centres) * u64::from(self.targets)
    }

    /// How many lines stand before the refusals.
    fn refused_start(&self) -> u64
        ensures start { result ≡ refused_start self.now }
        ensures few { result ≤ 2 ^ 24 }
    {
        self.block_start() + self.block_lines()
    }

    /// How many lines stand before those of the pairs with an edge.
    fn edge_start(&self) -> u64
        ensures start { result ≡ edge_start self.now }
        ensures few { result ≤ 2 ^ 25 }
    {
        let refused = self.refused.as_slice();
        self.refused_start() + refused.len() as u64
    }

    /// How many lines stand before those of the pairs without one.
    fn non_edge_start(&self) -> u64
        ensures start { result ≡ non_edge_start self.now }
        ensures few { result ≤ 2 ^ 34 }
    {
        self.edge_start() + lines_of(&self.edges, self.targets)
    }

    /// How many lines stand before those of the pairs that are to be in order.
    fn less_start(&self) -> u64
        ensures start { result ≡ less_start self.now }
        ensures few { result ≤ 2 ^ 35 }
    {
        self.non_edge_start() + lines_of(&self.non_edges, self.targets)
    }
}
