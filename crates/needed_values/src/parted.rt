//! Needed values of a vertex, parted by what edges leave of them.

ghost use Rattle.std.specs.Prelude.{◌≡◌, ℕ, ◌+◌, ◌*◌, ◌<◌, ◌≤◌, ◌==◌, ◌&&◌, ◌⊎◌, not, nat_lt, true, false, is_some, length};
ghost use Rattle.graph_theory.specs.Graph.{size, edge};
ghost use Rattle.graph_theory.specs.Embedding.{differ};
ghost use Rattle.graph_theory.specs.Reversed.{AreMutual};
ghost use Rattle.bit_rows.specs.BitRows.{has, is_set, words_for};
ghost use Rattle.needed_values.specs.Consistent.{agree, are_joined, HaveZeroLabels, IsParted};

use crate::consistent::{asks_labels, keep_compatible};
use crate::sharers::is_within;
use bit_rows::{and_into, fill_below, has_bit, unset_bit};
use graph_rows::Problem;

/// The word at a place of the row of all values less than `below`.
#[inline(always)]
fn word_below(place: usize, below: usize) -> u64
    ensures { (b : ℕ) → b < 64 → is_set result b ≡ nat_lt (64 * place + b) below }
{
    if place < below / 64 {
        u64::MAX
    } else if place == below / 64 {
        (1 << (below % 64)) - 1
    } else {
        0
    }
}

/// What is left of a word of values, by the same word of a row of neighbours: neighbours where an edge is asked for, others where none may be.
#[inline(always)]
fn left_word(joined: bool, induced: bool, word: u64, near: u64) -> u64
    ensures { (b : ℕ) → b < 64
        → is_set result b ≡ (is_set word b && agree joined induced (is_set near b)) }
{
    if joined {
        word & near
    } else if induced {
        word & !near
    } else {
        word
    }
}

/// What is asked of the edges of a value's image: whether there has to be one, and whether there may be one where there need not.
#[derive(Clone, Copy)]
struct Asked {
    joined: bool,
    induced: bool,
}

/// Writes the values of a row that are less than `below`, and those of them that edges leave; tells whether these are all. Cost: one step for each word.
#[inline(always)]
fn part_words(
    asked: Asked,
    row: &[u64],
    near: &[u64],
    below: usize,
    other: &mut [u64],
    left: &mut [u64],
) -> bool
    requires near { length near.now ≡ length row.now }
    requires other { length other.old ≡ length row.now }
    requires left { length left.old ≡ length row.now }
    ensures bits { (v : ℕ) → has other.new v ≡ (has row.now v && nat_lt v below) }
    ensures left { (v : ℕ) → has left.new v
        ≡ (has other.new v && agree asked.joined asked.induced (has near.now v)) }
    ensures same { result ≡ true → (v : ℕ) → has other.new v ≡ true → has left.new v ≡ true }
{
    let mut lost = 0;
    for place in 0..row.len() {
        let word = row[place] & word_below(place, below);
        let kept = left_word(asked.joined, asked.induced, word, near[place]);
        other[place] = word;
        left[place] = kept;
        lost |= word & !kept;
    }
    lost == 0
}

/// What is asked of the images of edges from `p` to `r`. Cost: one word.
#[inline(always)]
fn asked_of(q: &Problem, p: u16, r: u16) -> Asked
    requires p_in { p < size q.now.pattern }
    requires r_in { r < size q.now.pattern }
    ensures joined { result.joined ≡ is_some (edge q.now.pattern p r) }
    ensures induced { result.induced ≡ q.now.induced }
{
    Asked {
        joined: has_bit(q.pattern().row(p), usize::from(r)),
        induced: q.induced(),
    }
}

/// Writes the values of a row of `r`, and those of them that go together with `p` at `t`; tells whether these are all. Cost: a few steps for each
/// word, in one pass where edges are known to stand both ways and no label is asked; else also that of `keep_compatible`.
#[inline(always)]
pub fn part_compatible(
    q: &Problem,
    p: u16,
    t: u16,
    r: u16,
    row: &[u64],
    other: &mut [u64],
    left: &mut [u64],
) -> bool
    requires p_in { p < size q.now.pattern }
    requires t_in { t < size q.now.target }
    requires r_in { r < size q.now.pattern }
    requires row { length row.now ≡ words_for (size q.now.target) }
    requires other { length other.old ≡ words_for (size q.now.target) }
    requires left { length left.old ≡ words_for (size q.now.target) }
    ensures { IsParted q.now p t r row.now other.new left.new result }
{
    if !q.is_mutual() || asks_labels(q, p, r) {
        return part_slowly(q, p, t, r, row, other, left);
    }
    part_at_once(q, p, t, r, row, other, left)
}

/// The same in one pass, where edges stand both ways and no label is asked.
#[inline(always)]
fn part_at_once(
    q: &Problem,
    p: u16,
    t: u16,
    r: u16,
    row: &[u64],
    other: &mut [u64],
    left: &mut [u64],
) -> bool
    requires mutual { AreMutual q.now }
    requires free { (are_joined q.now p r ≡ false) ⊎ HaveZeroLabels q.now }
    requires row { length row.now ≡ words_for (size q.now.target) }
    requires other { length other.old ≡ words_for (size q.now.target) }
    requires left { length left.old ≡ words_for (size q.now.target) }
    requires p_in { p < size q.now.pattern }
    requires r_in { r < size q.now.pattern }
    requires t_in { t < size q.now.target }
    ensures { IsParted q.now p t r row.now other.new left.new result }
{
    let asked = asked_of(q, p, r);
    let target = q.target();
    let values = usize::from(target.size());
    let same = part_words(asked, row, target.row(t), values, other, left);
    let itself = take_apart(q, p, t, r, left);
    same && !itself
}

/// Takes `t` out of a row of values of `r`, where the images of `p` and `r` have to differ, and tells whether it was there then.
#[inline(always)]
fn take_apart(q: &Problem, p: u16, t: u16, r: u16, row: &mut [u64]) -> bool
    requires p_in { p < size q.now.pattern }
    requires t_in { t < size q.now.target }
    requires r_in { r < size q.now.pattern }
    requires long { length row.old ≡ words_for (size q.now.target) }
    ensures taken { result ≡ (differ q.now p r && has row.old t) }
    ensures left { (u : ℕ) → has row.new u ≡ (has row.old u && not (differ q.now p r && (t == u))) }
{
    if q.differ(p, r) {
        let itself = has_bit(row, usize::from(t));
        unset_bit(row, usize::from(t));
        return itself;
    }
    false
}

/// The same in any problem, one pass after another.
fn part_slowly(
    q: &Problem,
    p: u16,
    t: u16,
    r: u16,
    row: &[u64],
    other: &mut [u64],
    left: &mut [u64],
) -> bool
    requires left { length left.old ≡ words_for (size q.now.target) }
    requires other { length other.old ≡ words_for (size q.now.target) }
    requires row { length row.now ≡ words_for (size q.now.target) }
    requires p_in { p < size q.now.pattern }
    requires t_in { t < size q.now.target }
    requires r_in { r < size q.now.pattern }
    ensures { IsParted q.now p t r row.now other.new left.new result }
{
    keep_below(row, usize::from(q.target().size()), other);
    left.copy_from_slice(other);
    keep_compatible(q, p, t, r, left);
    is_within(other, left)
}

/// Writes the values of a row that are less than `below`. Cost: two steps for each word.
fn keep_below(row: &[u64], below: usize, into: &mut [u64])
    requires long { length into.old ≡ length row.now }
    requires room { below ≤ 64 * length row.now }
    ensures { (u : ℕ) → has into.new u ≡ (has row.now u && nat_lt u below) }
{
    fill_below(into, below);
    and_into(into, row);
}
