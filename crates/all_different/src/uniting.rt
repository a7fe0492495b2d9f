//! Unions of domains, as rows of bits.

ghost use Rattle.std.specs.Prelude.{◌≡◌, ℕ, ◌+◌, ◌<◌, ◌≤◌, ◌&&◌, ◌||◌, true, false, not, length, slice_index};
ghost use Rattle.bit_rows.specs.BitRows.{has, words_for};
ghost use Rattle.domain_bits.specs.Removals.{in_domain, size_of};
ghost use Rattle.all_different.specs.Pruning.{in_one_of};
ghost use Rattle.all_different.specs.Ranks.{rank};
ghost use Rattle.all_different.specs.Prefixes.{in_prefix, in_union};
ghost use Rattle.all_different.specs.Steps.{Ordered, Shares, in_rest};

use crate::family::Family;
use crate::ordering::is_later;
use bit_rows::{WORDS, are_apart, blocks_of, clear, or_into, set_bit};

/// Adds a domain to the row. Cost: one step for a domain of one value, else one for each word.
fn add_domain<F: Family>(d: &F, p: u16, row: &mut [u64])
    requires p_in { p < (F.state d.now).vertices }
    requires long { length row.old ≡ words_for (F.state d.now).values }
    ensures { (t : ℕ) → has row.new t ≡ (has row.old t || in_domain (F.state d.now) p t) }
{
    match d.only(p) {
        Some(t) => set_bit(row, usize::from(t)),
        None => or_into(row, d.row(p)),
    }
}

/// Adds the domains of a list of vertices to the row. Cost: that of `add_domain` for each of them.
pub(crate) fn add_domains<F: Family>(d: &F, list: &[u16], row: &mut [u64])
    requires inside { (k : ℕ) → k < length list.now
        → slice_index list.now k < (F.state d.now).vertices }
    requires long { length row.old ≡ words_for (F.state d.now).values }
    ensures { (t : ℕ) → has row.new t ≡ (has row.old t || in_one_of (F.state d.now) list.now t) }
{
    for k in 0..list.len() {
        add_domain(d, list[k], row);
    }
}

/// The union of the domains of a list of vertices. Cost: one step for each word, and that of `add_domain` for each vertex.
pub(crate) fn unite<F: Family>(d: &F, list: &[u16], row: &mut [u64])
    requires inside { (k : ℕ) → k < length list.now
        → slice_index list.now k < (F.state d.now).vertices }
    requires long { length row.old ≡ words_for (F.state d.now).values }
    ensures { (t : ℕ) → has row.new t ≡ in_one_of (F.state d.now) list.now t }
{
    clear(row);
    add_domains(d, list, row);
}

/// The union of the first `n` domains in the order. Cost: that of `unite`.
pub(crate) fn unite_first<F: Family>(d: &F, order: &[u16], n: usize, row: &mut [u64])
    requires ordered { Ordered (F.state d.now) order.now }
    requires within { n ≤ length order.now }
    requires long { length row.old ≡ words_for (F.state d.now).values }
    ensures { (t : ℕ) → has row.new t ≡ in_union (F.state d.now) n t }
{
    unite(d, &order[..n], row);
}

/// Adds a domain to the row, if it is after those of a prefix.
fn add_later<F: Family>(d: &F, last: u16, p: u16, row: &mut [u64])
    requires last_in { last < (F.state d.now).vertices }
    requires p_in { p < (F.state d.now).vertices }
    requires long { length row.old ≡ words_for (F.state d.now).values }
    ensures { (t : ℕ)
        → has row.new t ≡ (has row.old t
        || (not (in_prefix (F.state d.now)
        (rank (size_of (F.state d.now)) (F.state d.now).vertices last + 1) p)
        && in_domain (F.state d.now) p t)) }
{
    if is_later(d, last, p) {
        or_into(row, d.row(p));
    }
}

/// The union of the domains after those of a prefix.
pub(crate) fn unite_rest<F: Family>(d: &F, last: u16, row: &mut [u64])
    requires last_in { last < (F.state d.now).vertices }
    requires long { length row.old ≡ words_for (F.state d.now).values }
    ensures { (t : ℕ)
        → has row.new t ≡ in_rest (F.state d.now)
        (rank (size_of (F.state d.now)) (F.state d.now).vertices last + 1) t }
{
    clear(row);
    for p in 0..d.vertices() {
        add_later(d, last, p, row);
    }
}

/// Whether two rows have a value in common.
pub(crate) fn meets(row: &[u64], other: &[u64]) -> bool
    requires { length row.now ≡ length other.now }
    ensures found { result ≡ true → Shares row.now other.now }
    ensures none { result ≡ false → (t : ℕ) → has row.now t ≡ true → has other.now t ≡ true → ⊥ }
{
    let fours = blocks_of(row.len());
    for block in 0..fours {
        if are_apart(row, other, WORDS * block) {
            continue;
        }
        for k in WORDS * block..WORDS * block + WORDS {
            if row[k] & other[k] != 0 {
                return true;
            }
        }
    }
    for place in WORDS * fours..row.len() {
        if row[place] & other[place] != 0 {
            return true;
        }
    }
    false
}
