//! A small problem that is known to have no embedding.

ghost use Rattle.std.specs.Prelude.{◌≡◌, ◌<◌, ℕ, [], ◌∷◌, true, IfSome};
ghost use Rattle.graph_theory.specs.Graph.{size};
ghost use Rattle.graph_theory.specs.Embedding.{Embeds, HasNone};

use crate::{FOUR_CYCLE, TRIANGLE, graph_of_size};
use graph_rows::Problem;
use std::alloc::Global;

/// Whether no map of three vertices embeds that begins with these two.
fn none_with(q: &Problem, a: u32, b: u32) -> bool
    ensures { result ≡ true → (c : ℕ) → c < size q.now.target → Embeds q.now (a ∷ b ∷ c ∷ []) → ⊥ }
{
    for c in 0..u32::from(q.target().size()) {
        if q.is_embedding(&[a, b, c]) {
            return false;
        }
    }
    true
}

/// Whether none embeds that begins with this one.
fn none_at(q: &Problem, a: u32) -> bool
    ensures { result ≡ true → (b c : ℕ) → b < size q.now.target → c < size q.now.target
        → Embeds q.now (a ∷ b ∷ c ∷ []) → ⊥ }
{
    for b in 0..u32::from(q.target().size()) {
        if !none_with(q, a, b) {
            return false;
        }
    }
    true
}

/// Whether three vertices have no embedding.
fn has_none(q: &Problem) -> bool
    requires { size q.now.pattern ≡ 3 }
    ensures { result ≡ true → HasNone q.now }
{
    for a in 0..u32::from(q.target().size()) {
        if !none_at(q, a) {
            return false;
        }
    }
    true
}

/// The problem of a triangle into a cycle of four vertices, of which all 64 maps are tried; none where one embeds, or memory is refused.
pub fn triangle_into_cycle(alloc: Global) -> Option<Problem>
    ensures sizes { IfSome result (λ q. (size q.pattern ≡ 3) × (size q.target ≡ 4)) }
    ensures none { IfSome result (λ q. HasNone q) }
{
    let pattern = graph_of_size(alloc, TRIANGLE, 3)?;
    let target = graph_of_size(alloc, FOUR_CYCLE, 4)?;
    let q = Problem::new(pattern, target, false);
    if !has_none(&q) {
        return None;
    }
    Some(q)
}
