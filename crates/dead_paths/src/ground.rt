//! What the lines of dead paths stand on: an encoding, and rows by which what a vertex at its value takes is quickly told.

ghost use Rattle.std.specs.Prelude.{◌≡◌, ℕ, ◌+◌, ◌-◌, ◌<◌, true, length, slice_get, Some};
ghost use Rattle.graph_theory.specs.Graph.{size};
ghost use Rattle.encoding_theory.specs.Pairs.{is_edge_pair};
ghost use Rattle.encoding_theory.specs.Encoding.{encoding as encoding_of, at_least as at_least_form};
ghost use Rattle.graph_theory.specs.Blocks.{has_block};
ghost use Rattle.encoding_theory.specs.Places.{at_least_place, at_most_place, at_most_place_in, edge_place};
ghost use Rattle.dead_paths.specs.Lines.{order_ref};

use graph_rows::Problem;
use log_theory::Ref;
use needed_values::Sharers;
use pb_encoding::Encoding;
use recorder::Side;
use std::alloc::Global;
use std::marker::Model;

/// The encoding of a problem, with the rows of the values that share neighbours. Contracts see the problem. One serves all who keep lines over
/// the encoding, in several threads too.
#[derive(Drop)]
pub struct Ground<'a> {
    encoding: &'a Encoding<'a>,
    sharers: Sharers<'a>,
}

impl<'a> Model for Ground<'a> {
    ghost use Rattle.std.specs.Prelude.{◌≡◌};
    ghost use Rattle.graph_theory.specs.Embedding.{Problem as TheProblem};

    ghost Value = { TheProblem };

    ghost view = { λ g. g.encoding.now };

    ghost invariant = { λ g. g.sharers ≡ g.encoding.now };
}

impl<'a> Ground<'a> {
    /// The encoding, and the rows of its problem; none where memory is refused or they would be too large, which costs time and changes no line.
    /// Cost: that of `Sharers::new`.
    pub fn new(alloc: Global, encoding: &'a Encoding<'a>) -> Ground<'a>
        ensures { result ≡ encoding.now }
    {
        Ground {
            encoding,
            sharers: Sharers::new(alloc, encoding.problem()),
        }
    }

    /// The encoding.
    pub fn encoding(&self) -> &'a Encoding<'a>
        ensures { result.now ≡ self.now }
    {
        self.encoding
    }

    /// The rows of the values that share neighbours.
    pub fn sharers(&self) -> &Sharers<'a>
        ensures { result.now ≡ self.now }
    {
        &self.sharers
    }

    /// The problem that it is the encoding of.
    pub fn problem(&self) -> &'a Problem
        ensures { result.now ≡ self.now }
    {
        self.encoding.problem()
    }

    /// The number of the line by which a vertex goes somewhere.
    #[inline(always)]
    pub fn at_least(&self, p: u16) -> u64
        requires { p < size self.now.pattern }
        ensures line { result ≡ at_least_place self.now p + 1 }
        ensures form { slice_get (encoding_of self.now) (result - 1)
            ≡ Some (at_least_form self.now p) }
    {
        self.encoding.at_least(p)
    }

    /// The number of the line by which a vertex goes to one value at most.
    #[inline(always)]
    pub(crate) fn at_most(&self, p: u16) -> u64
        requires { p < size self.now.pattern }
        ensures line { result ≡ at_most_place self.now p + 1 }
    {
        self.encoding.at_most(p)
    }

    /// The number of the line by which one vertex at most of a block goes to a value. Cost: constant, or logarithmic.
    #[inline(always)]
    pub(crate) fn at_most_in(&self, centre: Option<u16>, t: u16) -> u64
        requires t_in { t < size self.now.target }
        requires exists { has_block self.now centre ≡ true }
        ensures line { result ≡ at_most_place_in self.now centre t + 1 }
    {
        self.encoding.at_most_in(centre, t)
    }

    /// The line by which, where the vertex at this end of pair `k` is at `t`, the other goes past `t`, or below it. Cost: constant.
    pub(crate) fn order(&self, k: u16, side: Side, t: u16) -> Ref
        requires k_in { k < length self.now.less }
        requires t_in { t < size self.now.target }
        ensures line { (x : ℕ × ℕ) → slice_get self.now.less k ≡ Some x
            → result ≡ order_ref self.now k x side t }
    {
        let _less = self.problem().less();
        match side {
            Side::Lesser => Ref::Line(self.encoding.less_from(k + 1, t)),
            Side::Greater => Ref::Line(self.encoding.less_to(k + 1, t)),
        }
    }

    /// The number of the line by which, where `p` is at `t`, `r` goes where its edge leads. Cost: logarithmic.
    #[inline(always)]
    pub(crate) fn edge(&self, p: u16, r: u16, t: u16) -> u64
        requires p_in { p < size self.now.pattern }
        requires r_in { r < size self.now.pattern }
        requires t_in { t < size self.now.target }
        requires exists { is_edge_pair self.now p r ≡ true }
        ensures line { result ≡ edge_place self.now p r t + 1 }
    {
        self.encoding.edge(p, r, t)
    }
}
