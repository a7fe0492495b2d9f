//! What a pair of a kind is asked, as far as the way to take what is not consistent differs by it.

ghost use Rattle.std.specs.Prelude.{◌≡◌, ℕ, ◌<◌, ◌↔◌, ◌||◌, true, false, is_some, IsTrue};
ghost use Rattle.graph_theory.specs.Graph.{size};
ghost use Rattle.graph_theory.specs.Neighbours.{is_neighbour};
ghost use Rattle.graph_theory.specs.Reversed.{IsMutual};
ghost use Rattle.pair_supports.specs.Kinds.{Joins};

use crate::kinds::PairKind;
use graph_rows::Problem;

/// Whether a pair of the kind has an edge, in one direction or the other.
pub(crate) fn has_edge(kind: &PairKind) -> bool
    ensures { result ≡ (is_some kind.now.out || is_some kind.now.back) }
{
    kind.out.is_some() || kind.back.is_some()
}

/// Whether a pair of the kind is asked no shared neighbour, in either direction.
fn shares_none(kind: &PairKind) -> bool
    ensures { IsTrue result → (kind.now.shared ≡ 0) × (kind.now.in_shared ≡ 0) }
{
    kind.shared == 0 && kind.in_shared == 0
}

/// Whether a pair of the kind is asked nothing but distinct images, if these.
pub(crate) fn asks_nothing(q: &Problem, kind: &PairKind) -> bool
    ensures { IsTrue result → (t u : ℕ) → (kind.now.apart ≡ true → t ≡ u → ⊥)
        → Joins q.now kind.now t u }
{
    !q.induced() && !has_edge(kind) && shares_none(kind)
}

/// Whether a pair of the kind is asked nothing but distinct images without an edge, in the induced kind, and edges are known to stand
/// both ways.
pub(crate) fn asks_no_edge(q: &Problem, kind: &PairKind, both_ways: bool) -> bool
    requires { IsTrue both_ways → IsMutual q.now.target }
    ensures { IsTrue result → (t u : ℕ) → t < size q.now.target → u < size q.now.target
        → Joins q.now kind.now t u ↔ ((t ≡ u → ⊥) × (is_neighbour q.now.target t u ≡ false)) }
{
    both_ways && q.induced() && kind.apart && !has_edge(kind) && shares_none(kind)
}
