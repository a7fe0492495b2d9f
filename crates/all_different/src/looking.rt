//! The look at the unions of the first domains: where one has too few values, and where one has just enough.

ghost use Rattle.std.specs.Prelude.{◌≡◌, ℕ, ◌+◌, ◌*◌, ◌<◌, ◌≤◌, true, false, length, IfSome, IfNone};
ghost use Rattle.graph_theory.specs.Neighbours.{count};
ghost use Rattle.bit_rows.specs.BitRows.{has, words_for};
ghost use Rattle.domain_bits.specs.Removals.{size_of};
ghost use Rattle.all_different.specs.Ranks.{rank};
ghost use Rattle.all_different.specs.Prefixes.{in_union, First, Short};
ghost use Rattle.all_different.specs.Steps.{BalancedTo, Meets, MissesAt, Ordered, Scans, Shares, in_later};

use crate::family::Family;
use crate::ordering::is_later;
use crate::uniting::{add_domains, meets};
use bit_rows::{clear, count_ones, or_into};

/// How far the first domains were looked at.
#[derive(Clone, Copy)]
pub(crate) enum Scan {
    /// All: no prefix has too few values, and how many domains the last one has that has just enough; 0 where none beyond those that
    /// were passed over has.
    Clear(usize),
    /// Up to the first prefix with too few values.
    Short(usize),
    /// Up to a domain that has a value of a prefix before it which has just enough.
    Met(usize),
}

/// Looks at the unions of the first domains in turn, from place `from` on. Those before have as many values as they are, which are in no
/// domain behind them, so that these are counted without them. The last union of a prefix with as many values as members is
/// kept in `full`, and the next domain is held against it, so that one look at each domain is enough. Cost: one step for each word of
/// these domains, another once one is kept, and two where the union may have as few values as members; where one is kept at the end, that
/// of `add_domains` for those before.
pub(crate) fn look<F: Family>(
    d: &F,
    from: usize,
    order: &[u16],
    union: &mut [u64],
    full: &mut [u64],
) -> Scan
    requires begun { BalancedTo (F.state d.now) from }
    requires within { from ≤ length order.now }
    requires ordered { Ordered (F.state d.now) order.now }
    requires long { length union.old ≡ words_for (F.state d.now).values }
    requires full { length full.old ≡ words_for (F.state d.now).values }
    ensures { Scans result (F.state d.now) from order.now union.new full.new }
{
    begin_union(union);
    let mut last = 0;
    let mut least = 0;
    for k in from..order.len() {
        let row = d.row(order[k]);
        if meets_last(full, last, row) {
            return Scan::Met(k);
        }
        or_into(union, row);
        let members = (k - from) as u64 + 1;
        let size = size_up_to(union, least, members);
        least = size;
        if size < members {
            return Scan::Short(k + 1);
        }
        if size == members {
            full.copy_from_slice(union);
            last = k + 1;
        }
    }
    if last != 0 {
        add_domains(d, &order[..from], full);
    }
    Scan::Clear(last)
}

/// Empties a union. Cost: one step for each word; one word, the union of at most 64 values, is written without a call of the system's
/// library.
#[inline(always)]
fn begin_union(union: &mut [u64])
    ensures { (t : ℕ) → has union.new t ≡ false }
{
    if union.len() == 1 {
        union[0] = 0;
        return;
    }
    clear(union);
}

/// Whether a row has a value of the union of the last prefix that was kept, of `last` domains. Where none was kept no word is read.
fn meets_last(full: &[u64], last: usize, row: &[u64]) -> bool
    requires long { length full.now ≡ length row.now }
    ensures found { result ≡ true → (0 < last) × Shares full.now row.now }
    ensures none { result ≡ false → 0 < last → (t : ℕ) → has full.now t ≡ true
        → has row.now t ≡ true → ⊥ }
{
    if last == 0 {
        return false;
    }
    meets(full, row)
}

/// How many values a row has, if they are no more than `few`, and else a number of them that is more. It has `least` at any rate: where
/// these are more than `few`, no word is read.
fn size_up_to(row: &[u64], least: u64, few: u64) -> u64
    requires short { length row.now ≤ 1024 }
    requires least { least ≤ count (has row.now) (64 * length row.now) }
    ensures within { result ≤ count (has row.now) (64 * length row.now) }
    ensures exact { result ≤ few → result ≡ count (has row.now) (64 * length row.now) }
{
    if few < least {
        return least;
    }
    count_ones(row)
}

/// The first prefix with too few values, where none of at most `k` domains has, as `look` left it: `union` has what these have and the
/// first `from` have not. Cost: two steps for each word of the domains from place `k` on, up to the last one that is looked at.
pub(crate) fn first_short<F: Family>(
    d: &F,
    from: usize,
    order: &[u16],
    k: usize,
    union: &mut [u64],
) -> Option<usize>
    requires begun { BalancedTo (F.state d.now) from }
    requires ordered { Ordered (F.state d.now) order.now }
    requires after { from ≤ k }
    requires within { k ≤ length order.now }
    requires long { length union.old ≡ words_for (F.state d.now).values }
    requires union { (t : ℕ) → has union.old t ≡ in_later (F.state d.now) from k t }
    requires none { (m : ℕ) → m ≤ k → Short (F.state d.now) m → ⊥ }
    ensures some { IfSome result (λ n. First (Short (F.state d.now)) n) }
    ensures within { IfSome result (λ n. n ≤ length order.now) }
    ensures none { IfNone result ((n : ℕ) → Short (F.state d.now) n → ⊥) }
{
    for j in k..order.len() {
        or_into(union, d.row(order[j]));
        if count_ones(union) < (j - from) as u64 + 1 {
            return Some(j + 1);
        }
    }
    None
}

/// Whether a domain after those of a prefix meets their union.
pub(crate) fn later_meets<F: Family>(d: &F, last: u16, union: &[u64]) -> bool
    requires last_in { last < (F.state d.now).vertices }
    requires long { length union.now ≡ words_for (F.state d.now).values }
    requires union { (t : ℕ)
        → has union.now t ≡ in_union (F.state d.now)
        (rank (size_of (F.state d.now)) (F.state d.now).vertices last + 1) t }
    ensures found { result ≡ true → Meets (F.state d.now)
        (rank (size_of (F.state d.now)) (F.state d.now).vertices last + 1) }
    ensures none { result ≡ false → Meets (F.state d.now)
        (rank (size_of (F.state d.now)) (F.state d.now).vertices last + 1) → ⊥ }
{
    for p in 0..d.vertices() {
        if meets_after(d, last, p, union) {
            return true;
        }
    }
    false
}

/// Whether one domain is after those of a prefix and meets their union.
fn meets_after<F: Family>(d: &F, last: u16, p: u16, union: &[u64]) -> bool
    requires last_in { last < (F.state d.now).vertices }
    requires p_in { p < (F.state d.now).vertices }
    requires long { length union.now ≡ words_for (F.state d.now).values }
    requires union { (t : ℕ)
        → has union.now t ≡ in_union (F.state d.now)
        (rank (size_of (F.state d.now)) (F.state d.now).vertices last + 1) t }
    ensures found { result ≡ true → Meets (F.state d.now)
        (rank (size_of (F.state d.now)) (F.state d.now).vertices last + 1) }
    ensures none { result ≡ false
        → MissesAt (F.state d.now)
        (rank (size_of (F.state d.now)) (F.state d.now).vertices last + 1) p }
{
    if !is_later(d, last, p) {
        return false;
    }
    meets(union, d.row(p))
}
