//! The kinds of a problem's pairs: what any number of searches over the problem reads and none of them changes.

ghost use Rattle.std.specs.Prelude.{◌≡◌, ℕ, ◌<◌, true, false, is_some, Some, IsTrue, IfOk, IfSome, slice_get};
ghost use Rattle.graph_theory.specs.Graph.{size};
ghost use Rattle.graph_theory.specs.Neighbours.{is_neighbour};
ghost use Rattle.graph_theory.specs.Embedding.{differ};
ghost use Rattle.graph_rows.specs.Held.{stands_in};
ghost use Rattle.search_theory.specs.Consistency.{AreConsistent};
ghost use Rattle.pair_supports.specs.Near.{is_listed};
ghost use Rattle.pair_supports.specs.declared.kinds.PairKind.{PairKind};

use crate::asks::asks_nothing;
use crate::kinds::{PairKind, classify};
use crate::near::NearLists;
use bit_rows::words_for;
use common_neighbour::Counts;
use graph_rows::Problem;
use graph_theory::direction::Direction;
use std::alloc::{AllocError, Global};
use std::marker::Model;

/// The kinds of the pattern's pairs, and the neighbours of target vertices that have few. Contracts see what the rows are held by.
pub struct PairKinds<'a> {
    pub(crate) problem: &'a Problem,
    pub(crate) vertices: usize,
    pub(crate) width: usize,
    pub(crate) kinds: Vec<PairKind>,
    pub(crate) places: Vec<u32>,
    pub(crate) sharing: Counts<'a>,
    pub(crate) in_sharing: Counts<'a>,
    pub(crate) both_ways: bool,
    pub(crate) asks_shared: bool,
    pub(crate) asks_in_shared: bool,
    near: NearLists<'a>,
}

impl Drop for PairKinds<'_> {
    /// In one call, for whoever lets one go.
    fn drop(self) {
        let PairKinds {
            problem: _,
            vertices: _,
            width: _,
            kinds: _,
            places: _,
            sharing: _,
            in_sharing: _,
            both_ways: _,
            asks_shared: _,
            asks_in_shared: _,
            near: _,
        } = self;
    }
}

impl<'a> Model for PairKinds<'a> {
    ghost use Rattle.std.specs.Prelude.{◌≡◌};
    ghost use Rattle.pair_supports.specs.Kinds.{AskAs};
    ghost use Rattle.pair_supports.specs.Shape.{Shape, Shaped};

    ghost Value = { Shape };

    ghost view = { λ k. record {
      problem = k.problem.now;
      vertices = k.vertices;
      width = k.width;
      kinds = k.kinds.items;
      places = k.places.items;
      counted = k.sharing;
      in_counted = k.in_sharing;
      both_ways = k.both_ways;
      asks_shared = k.asks_shared;
      asks_in_shared = k.asks_in_shared;
    } };

    ghost invariant = { λ k. Shaped k.problem.now k.vertices k.width k.kinds.items k.places.items
        k.sharing k.in_sharing k.both_ways × (k.near ≡ k.problem.now)
        × AskAs k.kinds.items k.asks_shared k.asks_in_shared };
}

impl<'a> PairKinds<'a> {
    /// The kinds of the pairs of a problem. Cost: one step for each pattern pair, for each kind, and in the induced kind for each word of
    /// the target's rows.
    pub fn new(alloc: Global, problem: &'a Problem) -> Result<PairKinds<'a>, AllocError>
        ensures { IfOk result (λ k. k.problem ≡ problem.entry.now) }
    {
        let vertices = usize::from(problem.pattern().size());
        let (kinds, places) = classify(alloc, problem)?;
        let width = words_for(usize::from(problem.target().size()));
        let sharing = Counts::new(alloc, problem.target(), Direction::Out)?;
        let in_sharing = Counts::new(alloc, problem.target(), Direction::In)?;
        let both_ways = problem.target().is_mutual();
        let asks_shared = ask_for_shared(&kinds);
        let asks_in_shared = ask_for_in_shared(&kinds);
        let near = NearLists::new(alloc, problem)?;
        Ok(PairKinds {
            problem,
            vertices,
            width,
            kinds,
            places,
            sharing,
            in_sharing,
            both_ways,
            asks_shared,
            asks_in_shared,
            near,
        })
    }

    /// Whether `p` and `r` are asked nothing but distinct images, if these, so that no row is needed: the copy is not to be an induced one,
    /// no edge leads from one to the other in either direction, and their images need share no neighbour. Cost: two steps.
    pub fn is_free(&self, p: u16, r: u16) -> bool
        requires p_in { p < size self.now.problem.pattern }
        requires r_in { r < size self.now.problem.pattern }
        requires apart { p ≡ r → ⊥ }
        ensures { IsTrue result → (t u : ℕ) → (differ self.now.problem p r ≡ true → t ≡ u → ⊥)
            → AreConsistent self.now.problem p t r u }
    {
        let pair = usize::from(p) * self.vertices + usize::from(r);
        asks_nothing(self.problem, &self.kinds[self.places[pair] as usize])
    }

    /// The neighbours of `t`, rising, where they are listed: in the induced kind, for a vertex with less than twice as many as a row has
    /// words. Cost: a few steps.
    pub fn neighbours(&self, t: u16) -> Option<&[u16]>
        requires t_in { t < size self.now.problem.target }
        ensures few { is_some result ≡ is_listed self.now.problem t }
        ensures listed { IfSome result
            (λ us. (u : ℕ) → stands_in us.now u ≡ is_neighbour self.now.problem.target t u) }
        ensures within { IfSome result
            (λ us. (u : ℕ) → stands_in us.now u ≡ true → u < size self.now.problem.target) }
    {
        self.near.of(t)
    }
}

/// Whether a kind asks for vertices to which edges lead from both. Cost: one step for each kind.
fn ask_for_shared(kinds: &[PairKind]) -> bool
    ensures { result ≡ false → (i : ℕ) (k : PairKind) → slice_get kinds.now i ≡ Some k
        → k.shared ≡ 0 }
{
    for i in 0..kinds.len() {
        if kinds[i].shared > 0 {
            return true;
        }
    }
    false
}

/// Whether a kind asks for vertices from which edges lead to both. Cost: one step for each kind.
fn ask_for_in_shared(kinds: &[PairKind]) -> bool
    ensures { result ≡ false → (i : ℕ) (k : PairKind) → slice_get kinds.now i ≡ Some k
        → k.in_shared ≡ 0 }
{
    for i in 0..kinds.len() {
        if kinds[i].in_shared > 0 {
            return true;
        }
    }
    false
}
