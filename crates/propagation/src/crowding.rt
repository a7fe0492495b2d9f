//! Neighbours that would have too few values: a look at one vertex and a value of it. What is found is certified by two counts, whatever the order in which
//! neighbours were taken up.

ghost use Rattle.std.specs.Prelude.{◌≡◌, ℕ, ◌*◌, ◌<◌, ◌≤◌, true, length};
ghost use Rattle.bit_rows.specs.BitRows.{has, words_for};
ghost use Rattle.propagation.specs.Crowding.{AreRowsOf, Gathers, IsShort, LooksAt};

use bit_rows::{and_into, clear, count_both, count_ones, next_member, or_into, set_bit, unset_bit};
use domain_bits::{Domains, Trail};

/// The count of a vertex that is not looked at.
const NOT_COUNTED: u16 = 65535;

/// A vertex, a value of it, the rows of what edges lead to from the one and from the other, and how many of the values each vertex has.
#[derive(Drop)]
pub(crate) struct Look<'a> {
    /// The vertex.
    pub p: u16,
    /// The value.
    pub t: u16,
    /// The vertices to which edges lead from `p`.
    pub near: &'a [u64],
    /// The values to which they lead from `t`.
    pub images: &'a [u64],
    /// How many of these each vertex has.
    pub counts: &'a [u16],
}

/// How many of the images are left for `r`, where it is another vertex than `p`, and not decided. Cost: one step for each word of a row.
fn count_at<T: Trail>(d: &Domains<T>, p: u16, r: u16, images: &[u64]) -> u16
    requires r_in { r < d.now.vertices }
    requires images { length images.now ≡ words_for d.now.values }
{
    if r == p || d.size(r) < 2 {
        return NOT_COUNTED;
    }
    count_both(d.row(r), images, usize::from(d.values())) as u16
}

/// Counts the images that are left for each vertex of a row, and says for how many it did, and the least count. Cost: that of `count_at` for each.
pub(crate) fn count_near<T: Trail>(
    d: &Domains<T>,
    p: u16,
    near: &[u64],
    images: &[u64],
    counts: &mut [u16],
) -> (u16, u16)
    requires short { length near.now ≤ 1024 }
    requires near_in { (r : ℕ) → has near.now r ≡ true → r < d.now.vertices }
    requires images { length images.now ≡ words_for d.now.values }
    requires counts { length counts.old ≡ d.now.vertices }
{
    let mut many: u16 = 0;
    let mut least = NOT_COUNTED;
    let mut r = next_member(near, 0);
    while r < 64 * near.len() {
        let count = count_at(d, p, r as u16, images);
        counts[r] = count;
        if count != NOT_COUNTED {
            many = many.saturating_add(1);
        }
        least = least.min(count);
        r = next_member(near, r + 1);
    }
    (many, least)
}

/// The least count above the level. Cost: one step for each neighbour.
fn next_level(look: &Look<'_>, level: u16) -> u16
    requires short { length look.now.near.now ≤ 1024 }
    requires near_in { (r : ℕ) → has look.now.near.now r ≡ true → r < length look.now.counts.now }
    requires level { level < 65535 }
    ensures { level < result }
{
    let near = look.near;
    let mut next = NOT_COUNTED;
    let mut r = next_member(near, 0);
    while r < 64 * near.len() {
        let count = look.counts[r];
        if level < count && count < next {
            next = count;
        }
        r = next_member(near, r + 1);
    }
    next
}

/// Whether `r` has so many images, and is another vertex. Cost: one step.
fn is_at(look: &Look<'_>, r: usize, level: u16) -> bool
    requires { r < length look.now.counts.now }
    ensures { result ≡ true → look.now.p ≡ r → ⊥ }
{
    usize::from(look.p) != r && look.counts[r] == level
}

/// One neighbour more, and the images left for it. Cost: a few steps for each word of a row.
fn add_one<T: Trail>(
    d: &Domains<T>,
    look: &Look<'_>,
    r: u16,
    row: &mut [u64],
    chosen: &mut [u64],
    union: &mut [u64],
)
    requires r_in { r < d.now.vertices }
    requires near { has look.now.near.now r ≡ true }
    requires apart { look.now.p ≡ r → ⊥ }
    requires t_in { look.now.t < d.now.values }
    requires images { length look.now.images.now ≡ words_for d.now.values }
    requires rows { AreRowsOf d.now row.old chosen.old union.old }
    ensures { Gathers d.now look.now.p look.now.t look.now.near.now look.now.images.now chosen.old
        union.old → Gathers d.now look.now.p look.now.t look.now.near.now look.now.images.now
        chosen.new union.new }
{
    row.copy_from_slice(d.row(r));
    and_into(row, look.images);
    unset_bit(row, usize::from(look.t));
    or_into(union, row);
    set_bit(chosen, usize::from(r));
}

/// Whether the second row has fewer members than the first. Cost: one step for each word.
fn is_short(chosen: &[u64], union: &[u64]) -> bool
    requires chosen { length chosen.now ≤ 1024 }
    requires union { length union.now ≤ 1024 }
    ensures { result ≡ true → IsShort chosen.now union.now }
{
    count_ones(union) < count_ones(chosen)
}

/// Adds the neighbours that have so many images, up to where those that there are have too few together: the answer is true then. Cost: one step for each
/// neighbour, and a few for each word of a row for those that are added.
fn add_level<T: Trail>(
    d: &Domains<T>,
    look: &Look<'_>,
    level: u16,
    row: &mut [u64],
    chosen: &mut [u64],
    union: &mut [u64],
) -> bool
    requires look { LooksAt d.now look.now.t look.now.near.now look.now.images.now
        look.now.counts.now }
    requires rows { AreRowsOf d.now row.old chosen.old union.old }
    ensures gathers { Gathers d.now look.now.p look.now.t look.now.near.now look.now.images.now
        chosen.old union.old → Gathers d.now look.now.p look.now.t look.now.near.now
        look.now.images.now chosen.new union.new }
    ensures short { result ≡ true → IsShort chosen.new union.new }
{
    let near = look.near;
    let _values = d.values();
    let _vertices = d.vertices();
    let mut r = next_member(near, 0);
    while r < 64 * near.len() {
        if is_at(look, r, level) {
            add_one(d, look, r as u16, row, chosen, union);
            if is_short(chosen, union) {
                return true;
            }
        }
        r = next_member(near, r + 1);
    }
    false
}

/// Gathers neighbours, those with fewest images first, up to where they have too few together, and says whether they do. `levels` is how many neighbours
/// there are, and the least count: with as many images as there are neighbours none of them is crowded. Cost: that of `add_level` for each level.
pub(crate) fn gather<T: Trail>(
    d: &Domains<T>,
    look: &Look<'_>,
    levels: (u16, u16),
    row: &mut [u64],
    chosen: &mut [u64],
    union: &mut [u64],
) -> bool
    requires look { LooksAt d.now look.now.t look.now.near.now look.now.images.now
        look.now.counts.now }
    requires rows { AreRowsOf d.now row.old chosen.old union.old }
    ensures gathers { Gathers d.now look.now.p look.now.t look.now.near.now look.now.images.now
        chosen.new union.new }
    ensures short { result ≡ true → IsShort chosen.new union.new }
{
    let (many, least) = levels;
    clear(chosen);
    clear(union);
    let mut level = least;
    while level < many {
        if add_level(d, look, level, row, chosen, union) {
            return true;
        }
        level = next_level(look, level);
    }
    false
}
