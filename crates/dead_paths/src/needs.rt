//! What is needed before a change, or at an end: all values of a vertex but the one it is at, or those that a set of vertices has not.

ghost use Rattle.std.specs.Prelude.{◌≡◌, ℕ, ◌*◌, ◌<◌, ◌≤◌, true, false, List, length, is_some, OnOk, slice_get, Some};
ghost use Rattle.recorder.specs.Telling.{end_beside, is_beside};
ghost use Rattle.graph_theory.specs.Graph.{size, edge};
ghost use Rattle.graph_theory.specs.Reversed.{turned};
ghost use Rattle.log_theory.specs.Lookups.{is_among};
ghost use Rattle.bit_rows.specs.BitRows.{has, words_for};
ghost use Rattle.nogood_watch.specs.Nogoods.{literal};
ghost use Rattle.nogood_book.specs.Rows.{Sound, path_at};
ghost use Rattle.nogood_book.specs.Places.{IsNogoodRow};
ghost use Rattle.needed_values.specs.Needed.{needs, AreRows, StaysNeeded};
ghost use Rattle.dead_theory.specs.Changes.{IsUpheld, AreUpheld, AreKeptIn};
ghost use Rattle.dead_theory.specs.Walks.{IsWithin};
ghost use Rattle.dead_paths.specs.Choosing.{values_of, AreAt};

use crate::known::{holds_at, is_left_out};
use bit_rows::{and_into, and_not_into, fill_below, unset_bit};
use graph_rows::Problem;
use graph_theory::direction::Direction;
use needed_values::{Sharers, need_but, need_set};
use nogood_book::{Row, push_path};
use recorder::Side;
use smallvec::SmallVec;
use std::alloc::{AllocError, Global};

/// What a walk back reads: the problem, its rows of values that share neighbours, the book's rows, the numbers of sets, and the path's values at
/// their vertices.
#[derive(Clone, Copy)]
pub(crate) struct WalkBack<'a> {
    pub(crate) alloc: Global,
    pub(crate) q: &'a Problem,
    pub(crate) sharers: &'a Sharers<'a>,
    pub(crate) rows: &'a [Row],
    pub(crate) numbers: &'a [u16],
    pub(crate) at: &'a [u16],
}

/// How many values there are.
pub(crate) fn count_values(q: &Problem) -> usize
    ensures is { result ≡ size q.now.target }
    ensures few { result ≤ 8192 }
{
    usize::from(q.target().size())
}

/// All values of the pair's vertex but its own are needed, unless the path has the pair, or the vertex is left out.
pub(crate) fn uphold(
    walk: &WalkBack<'_>,
    but: Option<u16>,
    x: (u16, u16),
    marked: &mut [bool],
    needed: &mut [u64],
    spare: &mut [u64],
)
    requires held { AreRows (size walk.now.q.now.target) marked.old needed.old }
    requires vertex { x.0 < length marked.old }
    requires value { x.1 < size walk.now.q.now.target }
    requires spare { length spare.old ≡ words_for (size walk.now.q.now.target) }
    ensures upheld { (path : List (ℕ × ℕ)) → AreAt walk.now.at.now path
        → IsUpheld path but (values_of (size walk.now.q.now.target) marked.new needed.new) x }
    ensures more { IsWithin (values_of (size walk.now.q.now.target) marked.old needed.old)
        (values_of (size walk.now.q.now.target) marked.new needed.new) }
{
    if is_left_out(but, x.0) {
        return;
    }
    if holds_at(walk.at, x.0, x.1) {
        return;
    }
    need_but(marked, needed, count_values(walk.q), x.0, x.1, spare);
}

/// The same for each of these pairs.
fn uphold_all(
    walk: &WalkBack<'_>,
    but: Option<u16>,
    pairs: &[(u16, u16)],
    marked: &mut [bool],
    needed: &mut [u64],
    spare: &mut [u64],
)
    requires held { AreRows (size walk.now.q.now.target) marked.old needed.old }
    requires vertices { (k : ℕ) → k < length pairs.now
        → (literal pairs.now k).0 < length marked.old }
    requires values { (k : ℕ) → k < length pairs.now
        → (literal pairs.now k).1 < size walk.now.q.now.target }
    requires spare { length spare.old ≡ words_for (size walk.now.q.now.target) }
    ensures upheld { (path : List (ℕ × ℕ)) → AreAt walk.now.at.now path
        → AreUpheld path but (values_of (size walk.now.q.now.target) marked.new needed.new)
        pairs.now }
    ensures more { IsWithin (values_of (size walk.now.q.now.target) marked.old needed.old)
        (values_of (size walk.now.q.now.target) marked.new needed.new) }
{
    for x in pairs {
        uphold(walk, but, *x, marked, needed, spare);
    }
}

/// The same for the pairs of a nogood row.
pub(crate) fn uphold_row(
    walk: &WalkBack<'_>,
    name: u32,
    but: Option<u16>,
    marked: &mut [bool],
    needed: &mut [u64],
    spare: &mut [u64],
    pairs: &mut SmallVec<(u16, u16), 8>,
) -> Result<(), AllocError>
    requires sound { Sound walk.now.q.now walk.now.rows.now }
    requires nogood { IsNogoodRow walk.now.rows.now name }
    requires held { AreRows (size walk.now.q.now.target) marked.old needed.old }
    requires size { length marked.old ≡ size walk.now.q.now.pattern }
    requires spare { length spare.old ≡ words_for (size walk.now.q.now.target) }
    ensures upheld { (path : List (ℕ × ℕ)) → AreAt walk.now.at.now path
        → OnOk result (AreUpheld path but
        (values_of (size walk.now.q.now.target) marked.new needed.new)
        (path_at walk.now.rows.now name)) }
    ensures more { OnOk result (IsWithin (values_of (size walk.now.q.now.target) marked.old
        needed.old)
        (values_of (size walk.now.q.now.target) marked.new needed.new)) }
{
    pairs.clear();
    push_path(walk.q, walk.rows, name, pairs)?;
    uphold_all(walk, but, pairs, marked, needed, spare);
    Ok(())
}

/// The row of all values but these.
pub(crate) fn fill_without(q: &Problem, values: &[u16], row: &mut [u64])
    requires long { length row.old ≡ words_for (size q.now.target) }
    requires values { (u : ℕ) → is_among u values.now ≡ true → u < size q.now.target }
    ensures out { (u : ℕ) → is_among u values.now ≡ true → has row.new u ≡ false }
    ensures rest { (u : ℕ) → u < size q.now.target → is_among u values.now ≡ false
        → has row.new u ≡ true }
{
    fill_below(row, count_values(q));
    take_out(values, row);
}

/// The row of all values past `u`, or below it: those that the other vertex of a pair that is to be in order may have with `u` at this end.
pub(crate) fn fill_on_side(q: &Problem, side: Side, u: u16, row: &mut [u64], spare: &mut [u64])
    requires u_in { u < size q.now.target }
    requires long { length row.old ≡ words_for (size q.now.target) }
    requires spare { length spare.old ≡ words_for (size q.now.target) }
    ensures { (w : ℕ) → w < size q.now.target → is_beside side u w ≡ true
        → has row.new w ≡ true }
{
    match side {
        Side::Lesser => {
            let _size = q.target().size();
            fill_below(row, count_values(q));
            fill_below(spare, usize::from(u) + 1);
            and_not_into(row, spare);
        }
        Side::Greater => fill_below(row, usize::from(u)),
    }
}

/// The vertex at the other end of pair `k`.
pub(crate) fn end_beside_of(q: &Problem, k: u16, side: Side) -> u16
    requires { k < length q.now.less }
    ensures { (x : ℕ × ℕ) → slice_get q.now.less k ≡ Some x → result ≡ end_beside side x }
{
    let (lesser, greater) = q.less()[usize::from(k)];
    match side {
        Side::Lesser => greater,
        Side::Greater => lesser,
    }
}

/// The row of all values to which an edge leads from `t`, in the direction, `t` itself and these aside.
pub(crate) fn fill_beside(
    q: &Problem,
    t: u16,
    direction: Direction,
    values: &[u16],
    row: &mut [u64],
)
    requires t_in { t < size q.now.target }
    requires long { length row.old ≡ words_for (size q.now.target) }
    requires values { (u : ℕ) → is_among u values.now ≡ true → u < size q.now.target }
    ensures { (u : ℕ) → u < size q.now.target → (t ≡ u → ⊥)
        → is_some (edge (turned direction q.now.target) t u) ≡ true
        → is_among u values.now ≡ false → has row.new u ≡ true }
{
    fill_without(q, values, row);
    and_into(row, q.target().row_by(direction, t));
    unset_bit(row, usize::from(t));
}

/// Takes these values out of the row.
fn take_out(values: &[u16], row: &mut [u64])
    requires { (u : ℕ) → is_among u values.now ≡ true → u < 64 * length row.old }
    ensures out { (u : ℕ) → is_among u values.now ≡ true → has row.new u ≡ false }
    ensures rest { (u : ℕ) → is_among u values.now ≡ false → has row.new u ≡ has row.old u }
{
    for u in values {
        unset_bit(row, usize::from(*u));
    }
}

/// The values of a row are needed of each of these vertices.
pub(crate) fn need_each(
    q: &Problem,
    vertices: &[u16],
    set: &[u64],
    marked: &mut [bool],
    needed: &mut [u64],
    spare: &mut [u64],
)
    requires held { AreRows (size q.now.target) marked.old needed.old }
    requires vertices { (p : ℕ) → is_among p vertices.now ≡ true → p < length marked.old }
    requires set { length set.now ≡ words_for (size q.now.target) }
    requires spare { length spare.old ≡ words_for (size q.now.target) }
    ensures needed { (r u : ℕ) → is_among r vertices.now ≡ true → u < size q.now.target
        → has set.now u ≡ true → needs (size q.now.target) marked.new needed.new r u ≡ true }
    ensures stays { StaysNeeded (size q.now.target)
        (needs (size q.now.target) marked.old needed.old)
        (needs (size q.now.target) marked.new needed.new) }
{
    for p in vertices {
        need_set(marked, needed, count_values(q), *p, set, spare);
    }
}

/// Of each of these vertices all values but these are needed.
pub(crate) fn need_out(
    q: &Problem,
    vertices: &[u16],
    values: &[u16],
    marked: &mut [bool],
    needed: &mut [u64],
    set: &mut [u64],
    spare: &mut [u64],
)
    requires held { AreRows (size q.now.target) marked.old needed.old }
    requires vertices { (p : ℕ) → is_among p vertices.now ≡ true → p < length marked.old }
    requires values { (u : ℕ) → is_among u values.now ≡ true → u < size q.now.target }
    requires set { length set.old ≡ words_for (size q.now.target) }
    requires spare { length spare.old ≡ words_for (size q.now.target) }
    ensures { AreKeptIn vertices.now values.now
        (values_of (size q.now.target) marked.new needed.new) }
{
    fill_without(q, values, set);
    need_each(q, vertices, set, marked, needed, spare);
}
