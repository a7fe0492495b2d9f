//! Taking the union of the domains found from all later ones.

ghost use Rattle.std.specs.Prelude.{◌≡◌, ℕ, ◌+◌, ◌*◌, ◌<◌, ◌≤◌, not, length, take, if◌then◌else◌};
ghost use Rattle.bit_rows.specs.BitRows.{has, words_for};
ghost use Rattle.domain_bits.specs.Removals.{intersected, size_of};
ghost use Rattle.all_different.specs.Prefixes.{in_union};
ghost use Rattle.all_different.specs.Pruning.{Prunes, without_union};
ghost use Rattle.all_different.specs.Ranks.{before, rank};
ghost use Rattle.all_different.specs.Steps.{Begins, Finds};

use crate::Pruned;
use crate::finding::Found;
use crate::ordering::is_later;
use domain_bits::{Domains, Trail};

/// Answers as `prune` does what was found of the domains of all vertices. Gives the size of the set found too.
#[inline(always)]
pub(crate) fn take_found<T: Trail>(
    d: &mut Domains<T>,
    found: Found,
    order: &[u16],
    union: &[u64],
    keep: &mut [u64],
) -> (Pruned, usize)
    requires finds { Finds found d.old order.now union.now }
    requires union { length union.now ≡ words_for d.old.values }
    requires keep { length keep.old ≡ words_for d.old.values }
    ensures prunes { Prunes result.0 d.old d.new (take result.1 order.now) union.now }
    ensures within { result.1 ≤ length order.now }
{
    match found {
        Found::Nothing => (Pruned::Quiet, 0),
        Found::Short(n) => (Pruned::Fail, n),
        Found::Tight(n) => {
            take_values(d, order, n, union, keep);
            (Pruned::Hall, n)
        }
    }
}

/// Takes the union of the first `n` domains from all later ones.
#[inline(never)]
fn take_values<T: Trail>(
    d: &mut Domains<T>,
    order: &[u16],
    n: usize,
    union: &[u64],
    keep: &mut [u64],
)
    requires begins { Begins d.old n order.now }
    requires some { 0 < n }
    requires long { length union.now ≡ words_for d.old.values }
    requires keep { length keep.old ≡ words_for d.old.values }
    requires union { (t : ℕ) → has union.now t ≡ in_union d.old n t }
    ensures { d.new ≡ without_union d.old n }
{
    complement(union, keep);
    clear_later(d, order[n - 1], keep);
}

/// Writes into `keep` all that is not in the row.
pub(crate) fn complement(row: &[u64], keep: &mut [u64])
    requires { length keep.old ≡ length row.now }
    ensures { (t : ℕ) → t < 64 * length row.now → has keep.new t ≡ not (has row.now t) }
{
    for place in 0..row.len() {
        keep[place] = !row[place];
    }
}

/// Takes the values that are not in the row from one domain, if it is after those of a prefix.
fn clear_vertex<T: Trail>(d: &mut Domains<T>, last: u16, p: u16, keep: &[u64])
    requires last_in { last < d.old.vertices }
    requires p_in { p < d.old.vertices }
    requires long { length keep.now ≡ words_for d.old.values }
    ensures { d.new ≡ (if before (size_of d.old) last p then intersected d.old p keep.now
        else d.old) }
{
    if !is_later(d, last, p) {
        return;
    }
    d.intersect(p, keep);
}

/// Takes the values that are not in the row from all domains after those of a prefix, by rising vertex. Cost: one step for each word of
/// these domains and for each value removed.
fn clear_later<T: Trail>(d: &mut Domains<T>, last: u16, keep: &[u64])
    requires last_in { last < d.old.vertices }
    requires long { length keep.now ≡ words_for d.old.values }
    requires keep { (t : ℕ) → t < d.old.values
        → has keep.now t ≡ not (in_union d.old (rank (size_of d.old) d.old.vertices last + 1) t) }
    ensures { d.new ≡ without_union d.old (rank (size_of d.old) d.old.vertices last + 1) }
{
    for p in 0..d.vertices() {
        clear_vertex(d, last, p, keep);
    }
}
