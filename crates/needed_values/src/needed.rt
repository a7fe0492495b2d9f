//! The rows of needed values.

ghost use Rattle.std.specs.Prelude.{◌≡◌, ℕ, ◌*◌, ◌+◌, ◌<◌, ◌≤◌, true, false, get_or, length, drop, IfNone, IfSome};
ghost use Rattle.bit_rows.specs.BitRows.{has, words_for};
ghost use Rattle.needed_values.specs.Needed.{needs, AreRows, StaysNeeded, AreOthers};

use bit_rows::{and_into, clear, fill_below, has_bit, next_member, or_into, unset_bit, words_for};

/// No vertex has a mark any more. Cost: one step for each vertex.
pub fn unmark_all(marked: &mut [bool])
    ensures { (r : ℕ) → get_or marked.new r false ≡ false }
{
    for r in 0..marked.len() {
        marked[r] = false;
    }
}

/// No value of the vertex is needed any more. Cost: one step.
pub fn unmark(marked: &mut [bool], rows: &[u64], values: usize, r: u16)
    requires r_in { r < length marked.old }
    ensures gone { (u : ℕ) → needs values marked.new rows.now r u ≡ false }
    ensures others { AreOthers values r (needs values marked.old rows.now)
        (needs values marked.new rows.now) }
{
    marked[usize::from(r)] = false;
}

/// The row of a vertex.
fn row_of(rows: &[u64], values: usize, r: u16) -> &[u64]
    requires few { values ≤ 8192 }
    requires room { r * words_for values + words_for values ≤ length rows.now }
    ensures long { length result.now ≡ words_for values }
    ensures bits { (u : ℕ) → u < values
        → has result.now u ≡ has (drop (r * words_for values) rows.now) u }
{
    let width = words_for(values);
    let from = usize::from(r) * width;
    &rows[from..from + width]
}

/// Whether the vertex has a mark, and a value in its row. Cost: one step for each word up to the first value.
pub fn is_any_needed(marked: &[bool], rows: &[u64], values: usize, r: u16) -> bool
    requires held { AreRows values marked.now rows.now }
    requires r_in { r < length marked.now }
    ensures { result ≡ false → (u : ℕ) → u < values → needs values marked.now rows.now r u ≡ false }
{
    needed_row(marked, rows, values, r).is_some()
}

/// The row of a vertex that has a mark, and a value in its row; it may have values past the last. Cost: one step for each word up to the first value.
#[inline(always)]
pub fn needed_row<'a>(marked: &[bool], rows: &'a [u64], values: usize, r: u16) -> Option<&'a [u64]>
    requires held { AreRows values marked.now rows.now }
    requires r_in { r < length marked.now }
    ensures none { IfNone result
        ((u : ℕ) → u < values → needs values marked.now rows.now r u ≡ false) }
    ensures long { IfSome result (λ row. length row.now ≡ words_for values) }
    ensures bits { IfSome result (λ row. (u : ℕ) → u < values
        → has row.now u ≡ needs values marked.now rows.now r u) }
{
    if !marked[usize::from(r)] {
        return None;
    }
    let row = row_of(rows, values, r);
    if next_member(row, 0) >= 64 * row.len() {
        return None;
    }
    Some(row)
}

/// Writes the needed values of a vertex. Cost: two steps for each word of a row.
pub fn copy_needed(marked: &[bool], rows: &[u64], values: usize, r: u16, into: &mut [u64])
    requires held { AreRows values marked.now rows.now }
    requires r_in { r < length marked.now }
    requires long { length into.old ≡ words_for values }
    ensures bits { (u : ℕ) → u < values → has into.new u ≡ needs values marked.now rows.now r u }
    ensures within { (u : ℕ) → has into.new u ≡ true → u < values }
{
    if !marked[usize::from(r)] {
        clear(into);
        return;
    }
    fill_below(into, values);
    and_into(into, row_of(rows, values, r));
}

/// Writes the row of a vertex.
fn write_row(rows: &mut [u64], values: usize, r: u16, row: &[u64])
    requires few { values ≤ 8192 }
    requires room { r * words_for values + words_for values ≤ length rows.old }
    requires row { length row.now ≡ words_for values }
    ensures bits { (u : ℕ) → u < values
        → has (drop (r * words_for values) rows.new) u ≡ has row.now u }
    ensures others { (s u : ℕ) → (s ≡ r → ⊥) → u < values
        → has (drop (s * words_for values) rows.new) u
        ≡ has (drop (s * words_for values) rows.old) u }
{
    let width = words_for(values);
    let from = usize::from(r) * width;
    rows[from..from + width].copy_from_slice(row);
}

/// These values of a vertex are needed, and no other. Cost: one step for each word of a row.
pub fn put_needed(marked: &mut [bool], rows: &mut [u64], values: usize, r: u16, row: &[u64])
    requires held { AreRows values marked.old rows.old }
    requires r_in { r < length marked.old }
    requires row { length row.now ≡ words_for values }
    ensures bits { (u : ℕ) → u < values
        → needs values marked.new rows.new r u ≡ has row.now u }
    ensures others { AreOthers values r (needs values marked.old rows.old)
        (needs values marked.new rows.new) }
{
    write_row(rows, values, r, row);
    marked[usize::from(r)] = true;
}

/// All values of a vertex are needed. Cost: two steps for each word of a row.
pub fn need_all(marked: &mut [bool], rows: &mut [u64], values: usize, r: u16, spare: &mut [u64])
    requires held { AreRows values marked.old rows.old }
    requires r_in { r < length marked.old }
    requires spare { length spare.old ≡ words_for values }
    ensures needed { (u : ℕ) → u < values → needs values marked.new rows.new r u ≡ true }
    ensures stays { StaysNeeded values (needs values marked.old rows.old)
        (needs values marked.new rows.new) }
{
    fill_below(spare, values);
    put_needed(marked, rows, values, r, spare);
}

/// The row of all values, without one of them if it is to be left out.
fn fill_but(row: &mut [u64], values: usize, leaves: bool, t: u16)
    requires long { length row.old ≡ words_for values }
    requires t_in { t < values }
    ensures other { (u : ℕ) → u < values → (u ≡ t → ⊥) → has row.new u ≡ true }
    ensures all { leaves ≡ false → (u : ℕ) → u < values → has row.new u ≡ true }
{
    fill_below(row, values);
    if leaves {
        unset_bit(row, usize::from(t));
    }
}

/// Whether a value of a vertex is needed. Cost: one step.
pub fn is_needed(marked: &[bool], rows: &[u64], values: usize, r: u16, t: u16) -> bool
    requires held { AreRows values marked.now rows.now }
    requires r_in { r < length marked.now }
    requires t_in { t < values }
    ensures { result ≡ needs values marked.now rows.now r t }
{
    if !marked[usize::from(r)] {
        return false;
    }
    has_bit(row_of(rows, values, r), usize::from(t))
}

/// All values of a vertex but one are needed, and that one if it was before. Cost: two steps for each word of a row.
pub fn need_but(
    marked: &mut [bool],
    rows: &mut [u64],
    values: usize,
    r: u16,
    t: u16,
    spare: &mut [u64],
)
    requires held { AreRows values marked.old rows.old }
    requires r_in { r < length marked.old }
    requires t_in { t < values }
    requires spare { length spare.old ≡ words_for values }
    ensures needed { (u : ℕ) → u < values → (u ≡ t → ⊥)
        → needs values marked.new rows.new r u ≡ true }
    ensures stays { StaysNeeded values (needs values marked.old rows.old)
        (needs values marked.new rows.new) }
{
    let leaves = !is_needed(marked, rows, values, r, t);
    fill_but(spare, values, leaves, t);
    put_needed(marked, rows, values, r, spare);
}

/// These values of a vertex are needed too. Cost: four steps for each word of a row.
pub fn need_set(
    marked: &mut [bool],
    rows: &mut [u64],
    values: usize,
    r: u16,
    set: &[u64],
    spare: &mut [u64],
)
    requires held { AreRows values marked.old rows.old }
    requires r_in { r < length marked.old }
    requires set { length set.now ≡ words_for values }
    requires spare { length spare.old ≡ words_for values }
    ensures needed { (u : ℕ) → u < values → has set.now u ≡ true
        → needs values marked.new rows.new r u ≡ true }
    ensures stays { StaysNeeded values (needs values marked.old rows.old)
        (needs values marked.new rows.new) }
{
    copy_needed(marked, rows, values, r, spare);
    or_into(spare, set);
    put_needed(marked, rows, values, r, spare);
}
