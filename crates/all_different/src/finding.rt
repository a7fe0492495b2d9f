//! What a look at the first domains finds: a set that has too few values, or one that has just enough and shares them.

ghost use Rattle.std.specs.Prelude.{◌≡◌, ℕ, ◌+◌, ◌*◌, ◌≤◌, true, false, length};
ghost use Rattle.bit_rows.specs.BitRows.{has, words_for};
ghost use Rattle.graph_theory.specs.Neighbours.{count};
ghost use Rattle.all_different.specs.Prefixes.{in_union, First, Tight};
ghost use Rattle.all_different.specs.Pruning.{DecidedApart};
ghost use Rattle.all_different.specs.Steps.{Apart, BalancedTo, Counted, Finds, Ordered, Shares, TightWithin, in_rest};

use crate::family::Family;
use crate::looking::{Scan, first_short, later_meets, look};
use crate::ordering::{begin_sizes, count_decided, count_sizes, place_vertices};
use crate::uniting::{meets, unite_first, unite_rest};
use bit_rows::{count_ones, or_into};

/// What the first domains show. Nothing has changed yet.
#[derive(Clone, Copy)]
pub(crate) enum Found {
    /// No prefix has too few values, and none just enough and one of them elsewhere.
    Nothing,
    /// So many have too few values, and no fewer have.
    Short(usize),
    /// No prefix has too few values; so many have just enough, which a later domain has one of, and of no fewer is this so.
    Tight(usize),
}

/// Looks at all first domains. The union of those found stands in `union`, where they have just enough values.
pub(crate) fn find_all<F: Family>(
    d: &F,
    starts: &mut [u16],
    order: &mut [u16],
    union: &mut [u64],
    keep: &mut [u64],
) -> Found
    requires starts { length starts.old ≡ (F.state d.now).vertices + 1 }
    requires order { length order.old ≡ (F.state d.now).vertices }
    requires union { length union.old ≡ words_for (F.state d.now).values }
    requires keep { length keep.old ≡ words_for (F.state d.now).values }
    ensures { Finds result (F.state d.now) order.new union.new }
{
    count_sizes(d, starts);
    find_from(d, 0, starts, order, union, keep)
}

/// Looks at the first domains behind those of one value, where each such value has left the others.
pub(crate) fn find_others<F: Family>(
    d: &F,
    starts: &mut [u16],
    order: &mut [u16],
    union: &mut [u64],
    keep: &mut [u64],
) -> Found
    requires apart { DecidedApart (F.state d.now) }
    requires starts { length starts.old ≡ (F.state d.now).vertices + 1 }
    requires order { length order.old ≡ (F.state d.now).vertices }
    requires union { length union.old ≡ words_for (F.state d.now).values }
    requires keep { length keep.old ≡ words_for (F.state d.now).values }
    ensures { Finds result (F.state d.now) order.new union.new }
{
    count_sizes(d, starts);
    let from = count_decided(d, starts);
    find_from(d, from, starts, order, union, keep)
}

/// Looks at the first domains once their sizes are counted, where up to `from` of them have neither too few values nor just enough and
/// one of them elsewhere. Where no more can have, no vertex is placed and no row read.
fn find_from<F: Family>(
    d: &F,
    from: usize,
    starts: &mut [u16],
    order: &mut [u16],
    union: &mut [u64],
    keep: &mut [u64],
) -> Found
    requires begun { BalancedTo (F.state d.now) from }
    requires counted { Counted (F.state d.now) (F.state d.now).vertices starts.old }
    requires order { length order.old ≡ (F.state d.now).vertices }
    requires union { length union.old ≡ words_for (F.state d.now).values }
    requires keep { length keep.old ≡ words_for (F.state d.now).values }
    ensures { Finds result (F.state d.now) order.new union.new }
{
    let few = usize::from(begin_sizes(d, starts));
    if few <= from {
        return Found::Nothing;
    }
    place_vertices(d, few, starts, order);
    find_ordered(d, from, &order[..few], union, keep)
}

/// Looks at the first domains in their order.
fn find_ordered<F: Family>(
    d: &F,
    from: usize,
    order: &[u16],
    union: &mut [u64],
    keep: &mut [u64],
) -> Found
    requires begun { BalancedTo (F.state d.now) from }
    requires within { from ≤ length order.now }
    requires ordered { Ordered (F.state d.now) order.now }
    requires union { length union.old ≡ words_for (F.state d.now).values }
    requires keep { length keep.old ≡ words_for (F.state d.now).values }
    ensures { Finds result (F.state d.now) order.now union.new }
{
    match look(d, from, order, union, keep) {
        Scan::Short(n) => Found::Short(n),
        Scan::Clear(last) => {
            if last == 0 {
                return Found::Nothing;
            }
            if !later_meets(d, order[last - 1], keep) {
                return Found::Nothing;
            }
            Found::Tight(find_tight(d, from, order, order.len(), union, keep))
        }
        Scan::Met(k) => {
            if let Some(n) = first_short(d, from, order, k, union) {
                return Found::Short(n);
            }
            Found::Tight(find_tight(d, from, order, k, union, keep))
        }
    }
}

/// Finds the first prefix with just enough values that a later domain has one of, which is none of at most `from` domains. Gives the
/// size of the prefix, and leaves its union in `union`.
fn find_tight<F: Family>(
    d: &F,
    from: usize,
    order: &[u16],
    k: usize,
    union: &mut [u64],
    keep: &mut [u64],
) -> usize
    requires begun { BalancedTo (F.state d.now) from }
    requires from { from ≤ length order.now }
    requires ordered { Ordered (F.state d.now) order.now }
    requires within { k ≤ length order.now }
    requires apart { Apart (F.state d.now) order.now k }
    requires some { TightWithin (F.state d.now) k }
    requires union { length union.old ≡ words_for (F.state d.now).values }
    requires keep { length keep.old ≡ words_for (F.state d.now).values }
    ensures first { First (Tight (F.state d.now)) result }
    ensures within { result ≤ length order.now }
    ensures union { (t : ℕ) → has union.new t ≡ in_union (F.state d.now) result t }
{
    unite_rest(d, order[k - 1], keep);
    first_tight(d, from, order, k, union, keep)
}

/// The first prefix with just enough values that a later domain has one of; only domains from place `k` on, whose union is `rest`, can
/// have one, and it is none of at most `from` domains. Its union is left in `union`.
fn first_tight<F: Family>(
    d: &F,
    from: usize,
    order: &[u16],
    k: usize,
    union: &mut [u64],
    rest: &[u64],
) -> usize
    requires begun { BalancedTo (F.state d.now) from }
    requires from { from ≤ length order.now }
    requires ordered { Ordered (F.state d.now) order.now }
    requires within { k ≤ length order.now }
    requires apart { Apart (F.state d.now) order.now k }
    requires some { TightWithin (F.state d.now) k }
    requires long { length union.old ≡ words_for (F.state d.now).values }
    requires rest_long { length rest.now ≡ words_for (F.state d.now).values }
    requires rest { (t : ℕ) → has rest.now t ≡ in_rest (F.state d.now) k t }
    ensures first { First (Tight (F.state d.now)) result }
    ensures within { result ≤ length order.now }
    ensures union { (t : ℕ) → has union.new t ≡ in_union (F.state d.now) result t }
{
    unite_first(d, order, from, union);
    for n in from..k {
        or_into(union, d.row(order[n]));
        if is_tight(union, rest, n + 1) {
            return n + 1;
        }
    }
    unreachable!()
}

/// Whether a union has just `n` values and shares one with the rest.
fn is_tight(union: &[u64], rest: &[u64], n: usize) -> bool
    requires long { length union.now ≡ length rest.now }
    requires short { length union.now ≤ 1024 }
    ensures full { result ≡ true → count (has union.now) (64 * length union.now) ≡ n }
    ensures found { result ≡ true → Shares union.now rest.now }
    ensures none { result ≡ false → count (has union.now) (64 * length union.now) ≡ n → (t : ℕ)
        → has union.now t ≡ true → has rest.now t ≡ true → ⊥ }
{
    if count_ones(union) != n as u64 {
        return false;
    }
    meets(union, rest)
}
