//! A problem and its encoding, as those of the problem with its graphs turned in a direction: the lines are the same.

ghost use Rattle.std.specs.Prelude.{◌≡◌, ◌<◌, ◌≤◌, ◌+◌, ◌-◌, ◌↔◌, true, false, slice_get, is_some, IsTrue, IfOk, IfSome, Some};
ghost use Rattle.graph_theory.specs.Graph.{size};
ghost use Rattle.graph_theory.specs.Asked.{asked_degree, room};
ghost use Rattle.graph_theory.specs.Blocks.{has_block};
ghost use Rattle.graph_theory.specs.Embedding.{is_injective};
ghost use Rattle.graph_theory.specs.Reversed.{turned_problem};
ghost use Rattle.encoding_theory.specs.Variables.{variable as variable_of};
ghost use Rattle.encoding_theory.specs.Pairs.{is_edge_pair};
ghost use Rattle.encoding_theory.specs.Encoding.{encoding as encoding_of, is_refused, refusal};
ghost use Rattle.encoding_theory.specs.Places.{at_most_place_in, refused_place, edge_place};
ghost use Rattle.domain_line_theory.specs.Crowds.{crowd_block as crowd_block_of};
ghost use Rattle.graph_rows.specs.Orders.{IsOrder};
ghost use Rattle.nds_filter.specs.Sequences.{sequences};
ghost use Rattle.domain_lines.specs.Choosing.{chosen as chosen_of};

use crate::choosing::chosen;
use degree_filter::keeps_by;
use graph_rows::Problem;
use graph_theory::direction::Direction;
use graph_theory::embedding::Maps;
use nds_filter::Sequences;
use pb_encoding::Encoding;
use std::alloc::{AllocError, Global};
use std::marker::Model;

/// A problem, its encoding, and the direction in which edges are followed. Contracts see the problem of the graphs that are turned so.
#[derive(Drop)]
pub(crate) struct Turned<'a> {
    problem: &'a Problem,
    lines: &'a Encoding<'a>,
    direction: Direction,
}

impl<'a> Model for Turned<'a> {
    ghost use Rattle.std.specs.Prelude.{◌≡◌};
    ghost use Rattle.graph_theory.specs.Embedding.{Problem as TheProblem};
    ghost use Rattle.graph_theory.specs.Reversed.{turned_problem};

    ghost Value = { TheProblem };

    ghost view = { λ t. turned_problem t.direction t.problem.now };

    ghost invariant = { λ t. t.lines.now ≡ t.problem.now };
}

impl<'a> Turned<'a> {
    /// This problem in this direction. It takes no memory.
    pub(crate) fn new(
        problem: &'a Problem,
        lines: &'a Encoding<'a>,
        direction: Direction,
    ) -> Turned<'a>
        requires { lines.now ≡ problem.now }
        ensures { result ≡ turned_problem direction problem.now }
    {
        Turned {
            problem,
            lines,
            direction,
        }
    }

    /// The number of target vertices. It also tells that the graphs are small, and the pairs that are to be in order few.
    pub(crate) fn targets(&self) -> u16
        ensures size { result ≡ size self.now.target }
        ensures few_pattern { size self.now.pattern ≤ 1024 }
        ensures few_target { size self.now.target ≤ 8192 }
        ensures order { IsOrder (size self.now.pattern) self.now.less }
    {
        let _pattern = self.problem.pattern();
        let _less = self.problem.less();
        self.problem.target().size()
    }

    /// The variable of `p` and `u`.
    pub(crate) fn variable(&self, p: u16, u: u16) -> u32
        requires p_in { p < size self.now.pattern }
        requires u_in { u < size self.now.target }
        ensures { result ≡ variable_of self.now p u }
    {
        u32::from(p) * u32::from(self.targets()) + u32::from(u) + 1
    }

    /// The number of the line by which `p` does not go to `u`, or none where the pair is allowed by itself. Cost: logarithmic.
    pub(crate) fn refused(&self, p: u16, u: u16) -> Option<u64>
        requires p_in { p < size self.now.pattern }
        requires u_in { u < size self.now.target }
        ensures exists { is_some result ≡ is_refused self.now p u }
        ensures line { IfSome result (λ line. line ≡ refused_place self.now p u + 1) }
        ensures form { IfSome result
            (λ line. slice_get (encoding_of self.now) (line - 1) ≡ Some (refusal self.now p u)) }
    {
        self.lines.refused(p, u)
    }

    /// The number of the line of `p` and `r`, two vertices with an edge between them in either direction, where `p` goes to `u`. Cost:
    /// logarithmic.
    pub(crate) fn edge(&self, p: u16, r: u16, u: u16) -> u64
        requires p_in { p < size self.now.pattern }
        requires r_in { r < size self.now.pattern }
        requires u_in { u < size self.now.target }
        requires exists { is_edge_pair self.now p r ≡ true }
        ensures { result ≡ edge_place self.now p r u + 1 }
    {
        self.lines.edge(p, r, u)
    }

    /// The number of the line by which one vertex at most of a block goes to `w`. Cost: constant, or logarithmic.
    pub(crate) fn at_most_in(&self, block: Option<u16>, w: u16) -> u64
        requires w_in { w < size self.now.target }
        requires exists { has_block self.now block ≡ true }
        ensures { result ≡ at_most_place_in self.now block w + 1 }
    {
        self.lines.at_most_in(block, w)
    }

    /// Which images have to differ.
    pub(crate) fn maps(&self) -> Maps
        ensures { result ≡ self.now.maps }
    {
        self.problem.maps()
    }

    /// Whether any two images have to.
    fn is_injective(&self) -> bool
        ensures { result ≡ is_injective self.now.maps }
    {
        match self.maps() {
            Maps::Injective => true,
            Maps::Local => false,
            Maps::Any => false,
        }
    }

    /// The block that the neighbours of `p` are counted in.
    pub(crate) fn crowd_block(&self, p: u16) -> Option<u16>
        ensures { result ≡ crowd_block_of self.now p }
    {
        match self.maps() {
            Maps::Injective => None,
            Maps::Local => Some(p),
            Maps::Any => None,
        }
    }

    /// Whether `u` has room for the neighbours of `p`. Cost: a few steps.
    pub(crate) fn keeps_degree(&self, p: u16, u: u16) -> bool
        requires p_in { p < size self.now.pattern }
        requires u_in { u < size self.now.target }
        ensures { IsTrue result ↔ (asked_degree self.now p ≤ room self.now u) }
    {
        keeps_by(self.problem, self.direction, p, u)
    }

    /// The sequences of the pattern's vertices. Cost: that of `Sequences::new`.
    pub(crate) fn pattern_sequences(&self, alloc: Global) -> Result<Sequences, AllocError>
        ensures { IfOk result (λ s. s ≡ sequences self.now.pattern) }
    {
        Sequences::new(alloc, self.problem.pattern(), self.direction)
    }

    /// Those of the target's. Cost: that of `Sequences::new`.
    pub(crate) fn target_sequences(&self, alloc: Global) -> Result<Sequences, AllocError>
        ensures { IfOk result (λ s. s ≡ sequences self.now.target) }
    {
        Sequences::new(alloc, self.problem.target(), self.direction)
    }

    /// The neighbours of `p` of degree `d` and more. Cost: a step for each neighbour, and for each word of a row.
    pub(crate) fn vertices(&self, alloc: Global, p: u16, d: u16) -> Result<Vec<u16>, AllocError>
        requires { p < size self.now.pattern }
        ensures { IfOk result (λ v. v.items ≡ chosen_of true self.now.pattern p d false) }
    {
        chosen(
            alloc,
            self.problem.pattern(),
            self.direction,
            true,
            p,
            d,
            false,
        )
    }

    /// The places for neighbours beside `u` of a degree below `d`, or the others. Cost: a step for each place, and for each word of a row.
    pub(crate) fn values(
        &self,
        alloc: Global,
        u: u16,
        d: u16,
        low: bool,
    ) -> Result<Vec<u16>, AllocError>
        requires { u < size self.now.target }
        ensures { IfOk result
            (λ v. v.items
            ≡ chosen_of (is_injective self.now.maps) self.now.target u d low) }
    {
        let apart = self.is_injective();
        chosen(
            alloc,
            self.problem.target(),
            self.direction,
            apart,
            u,
            d,
            low,
        )
    }
}
