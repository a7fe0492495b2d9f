//! The places that are right for one vertex where another has its own, as a row of words. A few operations on words tell them; labels of
//! edges alone are not told by bits.

ghost use Rattle.std.specs.Prelude.{◌≡◌, ◌<◌, ◌&&◌, ℕ, nat_lt, false, length};
ghost use Rattle.graph_theory.specs.Graph.{size};
ghost use Rattle.bit_rows.specs.BitRows.{has, words_for};
ghost use Rattle.graph_rows.specs.Labels.{HasZeroLabels, agree};
ghost use Rattle.encoding_theory.specs.Pairs.{is_open, is_compatible, is_linked};
ghost use Rattle.pb_encoding.specs.Agreement.{may_go};

use bit_rows::{and_into, and_not_into, fill_below, unset_bit};
use graph_rows::Problem;
use graph_theory::embedding::Maps;

/// Keeps of a row of places those whose edge, which `near` tells, agrees with whether the pattern edge stands. Cost: one step for four words.
fn keep_agreeing(row: &mut [u64], induced: bool, stands: bool, near: &[u64])
    requires same_length { length row.old ≡ length near.now }
    ensures { (u : ℕ)
        → has row.new u ≡ (has row.old u && agree induced stands (has near.now u)) }
{
    if stands {
        and_into(row, near);
    } else if induced {
        and_not_into(row, near);
    }
}

/// Keeps of a row of places those that are open where another vertex is at `t`. Cost: one word.
fn keep_open(q: &Problem, t: u16, row: &mut [u64])
    requires t_in { t < size q.now.target }
    requires long { length row.old ≡ words_for (size q.now.target) }
    ensures { (u : ℕ) → has row.new u ≡ (has row.old u && is_open q.now t u) }
{
    match q.maps() {
        Maps::Injective => unset_bit(row, usize::from(t)),
        Maps::Local => {}
        Maps::Any => {}
    }
}

/// Makes the row that of the places of `r` that are right, labels of edges aside, where `p` goes to `t`. Cost: three steps for each word at
/// most.
pub(crate) fn fill_right(q: &Problem, p: u16, t: u16, r: u16, row: &mut [u64])
    requires p_in { p < size q.now.pattern }
    requires t_in { t < size q.now.target }
    requires r_in { r < size q.now.pattern }
    requires long { length row.old ≡ words_for (size q.now.target) }
    ensures { (u : ℕ)
        → has row.new u ≡ (nat_lt u (size q.now.target) && may_go q.now p t r u) }
{
    let (pattern, target, induced) = (q.pattern(), q.target(), q.induced());
    fill_below(row, usize::from(target.size()));
    keep_agreeing(row, induced, pattern.has_edge(p, r), target.row(t));
    keep_agreeing(row, induced, pattern.has_edge(r, p), target.in_row(t));
    keep_open(q, t, row);
}

/// Whether one of the graphs keeps labels of edges. Cost: two steps.
fn keeps_labels(q: &Problem) -> bool
    ensures pattern { result ≡ false → HasZeroLabels q.now.pattern }
    ensures target { result ≡ false → HasZeroLabels q.now.target }
{
    q.pattern().keeps_edge_labels() || q.target().keeps_edge_labels()
}

/// Whether an edge leads from one pattern vertex to the other. Cost: two words.
fn are_linked(q: &Problem, p: u16, r: u16) -> bool
    requires p_in { p < size q.now.pattern }
    requires r_in { r < size q.now.pattern }
    ensures { result ≡ is_linked q.now.pattern p r }
{
    q.pattern().has_edge(p, r) || q.pattern().has_edge(r, p)
}

/// Whether labels of edges may tell places of `r` apart where `p` has its own: an edge joins the two, and one of the graphs keeps labels.
/// Cost: at most four steps.
pub(crate) fn asks_labels(q: &Problem, p: u16, r: u16) -> bool
    requires p_in { p < size q.now.pattern }
    requires r_in { r < size q.now.pattern }
    ensures { result ≡ false → (t u : ℕ) → t < size q.now.target → u < size q.now.target
        → is_compatible q.now p t r u ≡ may_go q.now p t r u }
{
    keeps_labels(q) && are_linked(q, p, r)
}
