//! The rows of one pattern vertex at one value, as they are read where its consequences are taken.

ghost use Rattle.std.specs.Prelude.{◌≡◌, ℕ, ◌<◌, ◌↔◌, true, false, length, IsTrue, IfSome};
ghost use Rattle.graph_theory.specs.Graph.{size};
ghost use Rattle.graph_theory.specs.Embedding.{differ};
ghost use Rattle.bit_rows.specs.BitRows.{has, words_for};
ghost use Rattle.graph_rows.specs.Held.{stands_in};
ghost use Rattle.search_theory.specs.Consistency.{AreConsistent};

use crate::asks::{asks_no_edge, asks_nothing};
use crate::pair_kinds::PairKinds;
use std::marker::Model;

/// What goes together with `t` of `p`: the part of the kinds' places that is of `p`, and the block of rows that is of `t`, so that a walk over
/// the other vertices finds each row by one step and one multiplication. Contracts see the problem, the vertex and its value.
#[derive(Drop)]
pub struct RowsAt<'a> {
    pub(crate) kinds: &'a PairKinds<'a>,
    pub(crate) p: u16,
    pub(crate) t: u16,
    pub(crate) places: &'a [u32],
    pub(crate) block: &'a [u64],
}

impl<'a> Model for RowsAt<'a> {
    ghost use Rattle.pair_supports.specs.Rows.{At};
    ghost use Rattle.pair_supports.specs.Held.{HeldAt};

    ghost Value = { At };

    ghost view = { λ r. record {
      problem = r.kinds.now.problem;
      vertex = r.p;
      value = r.t;
    } };

    ghost invariant = { λ r. HeldAt r.kinds.now.problem r.kinds.now.width r.kinds.now.kinds
        r.p r.t r.places.now r.block.now };
}

impl<'a> RowsAt<'a> {
    /// The values u of `r` that go together with the value of the vertex, as a bit row. Cost: two steps.
    #[inline(always)]
    pub fn row(&self, r: u16) -> &[u64]
        requires r_in { r < size self.now.problem.pattern }
        requires apart { self.now.vertex ≡ r → ⊥ }
        ensures long { length result.now ≡ words_for (size self.now.problem.target) }
        ensures right { (u : ℕ) → has result.now u ≡ true
            → AreConsistent self.now.problem self.now.vertex self.now.value r u }
        ensures within { (u : ℕ) → has result.now u ≡ true → u < size self.now.problem.target }
        ensures complete { (u : ℕ)
            → AreConsistent self.now.problem self.now.vertex self.now.value r u
            → u < size self.now.problem.target → has result.now u ≡ true }
    {
        let kinds = self.kinds;
        let from = self.places[usize::from(r)] as usize * kinds.width;
        &self.block[from..from + kinds.width]
    }

    /// Whether `r` is asked nothing but another image, if that, as `PairKinds::is_free` says of two vertices. Cost: three steps.
    #[inline(always)]
    pub fn is_free(&self, r: u16) -> bool
        requires r_in { r < size self.now.problem.pattern }
        requires apart { self.now.vertex ≡ r → ⊥ }
        ensures { IsTrue result → (u : ℕ)
            → (differ self.now.problem self.now.vertex r ≡ true → self.now.value ≡ u → ⊥)
            → AreConsistent self.now.problem self.now.vertex self.now.value r u }
    {
        let kinds = self.kinds;
        let place = self.places[usize::from(r)] as usize;
        asks_nothing(kinds.problem, &kinds.kinds[place])
    }

    /// Whether `r` is asked another image. Cost: three steps.
    #[inline(always)]
    pub fn is_apart(&self, r: u16) -> bool
        requires r_in { r < size self.now.problem.pattern }
        requires apart { self.now.vertex ≡ r → ⊥ }
        ensures { result ≡ differ self.now.problem self.now.vertex r }
    {
        let kinds = self.kinds;
        let place = self.places[usize::from(r)] as usize;
        kinds.kinds[place].apart
    }

    /// The neighbours of the value, where `r` is asked nothing but an image that is none of them nor the value: the copy is to be an induced
    /// one, the target's edges are known to stand both ways, no edge leads from one of the two vertices to the other, they are asked no shared
    /// neighbour, and the value's neighbours are listed. Cost: a few steps.
    #[inline(always)]
    pub fn near_alone(&self, r: u16) -> Option<&[u16]>
        requires r_in { r < size self.now.problem.pattern }
        requires apart { self.now.vertex ≡ r → ⊥ }
        ensures asked { IfSome result (λ us. (u : ℕ) → u < size self.now.problem.target
            → AreConsistent self.now.problem self.now.vertex self.now.value r u
            ↔ ((self.now.value ≡ u → ⊥) × (stands_in us.now u ≡ false))) }
        ensures within { IfSome result
            (λ us. (u : ℕ) → stands_in us.now u ≡ true → u < size self.now.problem.target) }
    {
        let kinds = self.kinds;
        let place = self.places[usize::from(r)] as usize;
        if asks_no_edge(kinds.problem, &kinds.kinds[place], kinds.both_ways) {
            kinds.neighbours(self.t)
        } else {
            None
        }
    }

    /// The vertex.
    pub fn vertex(&self) -> u16
        ensures { result ≡ self.now.vertex }
    {
        self.p
    }

    /// Its value.
    pub fn value(&self) -> u16
        ensures { result ≡ self.now.value }
    {
        self.t
    }
}
