//! Vertices that are near one another: other vertices with an edge between them, in either direction.

ghost use Rattle.std.specs.Prelude.{◌≡◌, ℕ, ◌<◌, ◌≤◌, true, false, length, nat_lt};
ghost use Rattle.graph_theory.specs.Graph.{size};
ghost use Rattle.graph_theory.specs.Neighbours.{count, is_near};
ghost use Rattle.graph_theory.specs.Embedding.{near_both};
ghost use Rattle.bit_rows.specs.BitRows.{has};
ghost use Rattle.graph_rows.specs.Near.{IsNearInRow};

use crate::graph::Graph;
use bit_rows::next_member;

/// Whether an edge stands between `a` and another vertex `b`. Cost: two words.
pub fn is_near(g: &Graph, a: u16, b: u16) -> bool
    requires a_in { a < size g.now }
    requires b_in { b < size g.now }
    ensures { result ≡ is_near g.now a b }
{
    a != b && (g.has_edge(a, b) || g.has_edge(b, a))
}

/// Whether some vertex is near both. Cost: one step for each neighbour of `p` up to the first that is, and for each word of its rows.
pub fn is_one_near_both(g: &Graph, p: u16, r: u16) -> bool
    requires p_in { p < size g.now }
    requires r_in { r < size g.now }
    ensures { result ≡ nat_lt 0 (count (near_both g.now p r) (size g.now)) }
{
    let _size = g.size();
    is_one_in_row(g, g.row(p), p, r) || is_one_in_row(g, g.in_row(p), p, r)
}

/// Whether another vertex of the row than `p` is near `r`.
fn is_one_in_row(g: &Graph, row: &[u64], p: u16, r: u16) -> bool
    requires r_in { r < size g.now }
    requires short { length row.now ≤ 128 }
    requires within { (v : ℕ) → has row.now v ≡ true → v < size g.now }
    ensures found { result ≡ true → (c : ℕ) × IsNearInRow g.now row.now p r c }
    ensures none { result ≡ false → (c : ℕ) → IsNearInRow g.now row.now p r c → ⊥ }
{
    let _size = g.size();
    let mut c = next_member(row, 0);
    while c < 64 * row.len() {
        if is_near_other(g, p, r, c as u16) {
            return true;
        }
        c = next_member(row, c + 1);
    }
    false
}

/// Whether `c` is another vertex than `p`, and near `r`.
fn is_near_other(g: &Graph, p: u16, r: u16, c: u16) -> bool
    requires r_in { r < size g.now }
    requires c_in { c < size g.now }
    ensures yes { result ≡ true → (p ≡ c → ⊥) × (is_near g.now c r ≡ true) }
    ensures no { result ≡ false → (p ≡ c → ⊥) → is_near g.now c r ≡ false }
{
    p != c && is_near(g, c, r)
}
