//! What a set of vertices that were counted takes from all others.

ghost use Rattle.std.specs.Prelude.{◌≡◌, ℕ, ◌<◌, ◌⊎◌, true, false, List, length};
ghost use Rattle.graph_theory.specs.Graph.{size};
ghost use Rattle.log_theory.specs.Lookups.{is_among};
ghost use Rattle.bit_rows.specs.BitRows.{has, words_for};
ghost use Rattle.nogood_book.specs.declared.row.Row.{Row as TheRow};
ghost use Rattle.recorder.specs.Recording.{LeftOthers};
ghost use Rattle.needed_values.specs.Needed.{needs, AreRows, StaysNeeded};
ghost use Rattle.graph_theory.specs.Blocks.{in_block, has_block};
ghost use Rattle.dead_theory.specs.Changes.{IsSetIn};
ghost use Rattle.dead_paths.specs.Choosing.{values_of, IsStep, is_other, AreLeft, AreInside};

use crate::beside::BlockSet;
use crate::lookups::holds;
use crate::needs::{count_values, fill_without, need_each};
use bit_rows::and_into;
use graph_rows::Problem;
use graph_rows::near::is_near;
use needed_values::{copy_needed, is_any_needed, put_needed};

/// Whether two rows are the same.
fn is_same(row: &[u64], other: &[u64]) -> bool
    ensures { result ≡ true → row.now ≡ other.now }
{
    row == other
}

/// Keeps of the needed values of a vertex those that the row has, and tells whether it had others.
fn take_row(
    q: &Problem,
    r: u16,
    set: &[u64],
    marked: &mut [bool],
    needed: &mut [u64],
    spare: &mut [u64],
    other: &mut [u64],
) -> bool
    requires held { AreRows (size q.now.target) marked.old needed.old }
    requires r_in { r < length marked.old }
    requires set { length set.now ≡ words_for (size q.now.target) }
    requires spare { length spare.old ≡ words_for (size q.now.target) }
    requires other { length other.old ≡ words_for (size q.now.target) }
    ensures inside { result ≡ false → (u : ℕ) → u < size q.now.target
        → needs (size q.now.target) marked.old needed.old r u ≡ true → has set.now u ≡ true }
    ensures stays { result ≡ false → StaysNeeded (size q.now.target)
        (needs (size q.now.target) marked.old needed.old)
        (needs (size q.now.target) marked.new needed.new) }
    ensures left { (s u : ℕ) → u < size q.now.target
        → needs (size q.now.target) marked.old needed.old s u ≡ true
        → (needs (size q.now.target) marked.new needed.new s u ≡ true)
        ⊎ ((s ≡ r) × (has set.now u ≡ false)) }
{
    let values = count_values(q);
    if !is_any_needed(marked, needed, values, r) {
        return false;
    }
    copy_needed(marked, needed, values, r, other);
    spare.copy_from_slice(other);
    and_into(spare, set);
    if is_same(other, spare) {
        return false;
    }
    put_needed(marked, needed, values, r, spare);
    true
}

/// Vertices of a block that were counted together, and the row of all values but theirs.
#[derive(Clone, Copy)]
struct Apart<'a> {
    q: &'a Problem,
    centre: Option<u16>,
    vertices: &'a [u16],
    row: &'a [u64],
}

/// Whether a vertex is in the block of a centre, or of all vertices. Cost: two words.
fn is_member(q: &Problem, centre: Option<u16>, r: u16) -> bool
    requires r_in { r < size q.now.pattern }
    requires exists { has_block q.now centre ≡ true }
    ensures { result ≡ in_block q.now centre r }
{
    match centre {
        None => true,
        Some(c) => is_near(q.pattern(), c, r),
    }
}

/// Whether a vertex of the block is none of these.
fn is_other_of(apart: &Apart<'_>, r: u16) -> bool
    requires r_in { r < size apart.now.q.now.pattern }
    requires exists { has_block apart.now.q.now apart.now.centre ≡ true }
    ensures { result ≡ is_other apart.now.q.now apart.now.centre apart.now.vertices.now r }
{
    is_member(apart.q, apart.centre, r) && !holds(apart.vertices, usize::from(r))
}

/// The same, of a vertex of the block that is none of these.
fn take_other(
    apart: &Apart<'_>,
    r: u16,
    marked: &mut [bool],
    needed: &mut [u64],
    spare: &mut [u64],
    other: &mut [u64],
) -> bool
    requires held { AreRows (size apart.now.q.now.target) marked.old needed.old }
    requires r_in { r < length marked.old }
    requires size { length marked.old ≡ size apart.now.q.now.pattern }
    requires exists { has_block apart.now.q.now apart.now.centre ≡ true }
    requires row { length apart.now.row.now ≡ words_for (size apart.now.q.now.target) }
    requires spare { length spare.old ≡ words_for (size apart.now.q.now.target) }
    requires other { length other.old ≡ words_for (size apart.now.q.now.target) }
    ensures inside { result ≡ false
        → is_other apart.now.q.now apart.now.centre apart.now.vertices.now r ≡ true → (u : ℕ)
        → u < size apart.now.q.now.target
        → needs (size apart.now.q.now.target) marked.old needed.old r u ≡ true
        → has apart.now.row.now u ≡ true }
    ensures stays { result ≡ false → StaysNeeded (size apart.now.q.now.target)
        (needs (size apart.now.q.now.target) marked.old needed.old)
        (needs (size apart.now.q.now.target) marked.new needed.new) }
    ensures left { AreLeft (size apart.now.q.now.target)
        (is_other apart.now.q.now apart.now.centre apart.now.vertices.now) apart.now.row.now
        (needs (size apart.now.q.now.target) marked.old needed.old)
        (needs (size apart.now.q.now.target) marked.new needed.new) }
{
    if !is_other_of(apart, r) {
        return false;
    }
    take_row(apart.q, r, apart.row, marked, needed, spare, other)
}

/// Keeps of the needed values of all vertices of the block but these those that the row has, and tells whether there were others.
fn take_others(
    apart: &Apart<'_>,
    marked: &mut [bool],
    needed: &mut [u64],
    spare: &mut [u64],
    other: &mut [u64],
) -> bool
    requires held { AreRows (size apart.now.q.now.target) marked.old needed.old }
    requires size { length marked.old ≡ size apart.now.q.now.pattern }
    requires exists { has_block apart.now.q.now apart.now.centre ≡ true }
    requires row { length apart.now.row.now ≡ words_for (size apart.now.q.now.target) }
    requires spare { length spare.old ≡ words_for (size apart.now.q.now.target) }
    requires other { length other.old ≡ words_for (size apart.now.q.now.target) }
    ensures inside { result ≡ false
        → AreInside (size apart.now.q.now.target)
        (is_other apart.now.q.now apart.now.centre apart.now.vertices.now) apart.now.row.now
        (needs (size apart.now.q.now.target) marked.old needed.old) }
    ensures stays { result ≡ false → StaysNeeded (size apart.now.q.now.target)
        (needs (size apart.now.q.now.target) marked.old needed.old)
        (needs (size apart.now.q.now.target) marked.new needed.new) }
    ensures left { AreLeft (size apart.now.q.now.target)
        (is_other apart.now.q.now apart.now.centre apart.now.vertices.now) apart.now.row.now
        (needs (size apart.now.q.now.target) marked.old needed.old)
        (needs (size apart.now.q.now.target) marked.new needed.new) }
{
    let mut taken = false;
    for r in 0..marked.len() {
        let here = take_other(apart, r as u16, marked, needed, spare, other);
        taken = taken || here;
    }
    taken
}

/// A set of vertices of a block takes its values from all others of it.
pub(crate) fn by_set(
    q: &Problem,
    counted: &BlockSet<'_>,
    marked: &mut [bool],
    needed: &mut [u64],
    set: &mut [u64],
    spare: &mut [u64],
    other: &mut [u64],
) -> bool
    requires held { AreRows (size q.now.target) marked.old needed.old }
    requires size { length marked.old ≡ size q.now.pattern }
    requires in_problem { IsSetIn q.now counted.now.centre counted.now.vertices.now
        counted.now.values.now }
    requires set { length set.old ≡ words_for (size q.now.target) }
    requires spare { length spare.old ≡ words_for (size q.now.target) }
    requires other { length other.old ≡ words_for (size q.now.target) }
    ensures { (rows : List TheRow) (path : List (ℕ × ℕ)) (from : ℕ)
        → IsStep result q.now rows path
        (LeftOthers counted.now.centre counted.now.vertices.now counted.now.values.now from)
        (values_of (size q.now.target) marked.old needed.old)
        (values_of (size q.now.target) marked.new needed.new) }
{
    fill_without(q, counted.values, set);
    let apart = Apart {
        q,
        centre: counted.centre,
        vertices: counted.vertices,
        row: set,
    };
    if !take_others(&apart, marked, needed, spare, other) {
        return false;
    }
    need_each(q, counted.vertices, set, marked, needed, spare);
    true
}
