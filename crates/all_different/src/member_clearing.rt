//! Taking the union of the members' domains found from those of all later members.

ghost use Rattle.std.specs.Prelude.{◌≡◌, ℕ, ◌+◌, ◌^◌, ◌<◌, ◌≤◌, not, length, slice_index, take, if◌then◌else◌};
ghost use Rattle.bit_rows.specs.BitRows.{has, words_for};
ghost use Rattle.domain_bits.specs.Removals.{intersected, size_of};
ghost use Rattle.all_different.specs.Members.{AreMembers, PrunesOf, part, without_union_of};
ghost use Rattle.all_different.specs.Prefixes.{in_union};
ghost use Rattle.all_different.specs.Ranks.{before, rank};
ghost use Rattle.all_different.specs.Steps.{Begins, Finds};

use crate::Pruned;
use crate::clearing::complement;
use crate::family::Part;
use crate::finding::Found;
use crate::ordering::is_later;
use domain_bits::{Domains, Trail};

/// Answers as `prune_of` does what was found of the members' domains, and writes for each place of the set found its member. Gives the
/// size of that set too.
#[inline(always)]
pub(crate) fn take_found_of<T: Trail>(
    d: &mut Domains<T>,
    members: &[u16],
    found: Found,
    order: &mut [u16],
    union: &[u64],
    keep: &mut [u64],
) -> (Pruned, usize)
    requires are_members { AreMembers d.old.vertices members.now }
    requires finds { Finds found (part d.old members.now) order.old union.now }
    requires union { length union.now ≡ words_for d.old.values }
    requires keep { length keep.old ≡ words_for d.old.values }
    ensures prunes { PrunesOf members.now result.0 d.old d.new (take result.1 order.new) union.now }
    ensures within { result.1 ≤ length order.new }
{
    match found {
        Found::Nothing => (Pruned::Quiet, 0),
        Found::Short(n) => {
            name_members(members, &mut order[..n]);
            (Pruned::Fail, n)
        }
        Found::Tight(n) => {
            take_members_values(d, members, order, n, union, keep);
            name_members(members, &mut order[..n]);
            (Pruned::Hall, n)
        }
    }
}

/// Writes for each place the member that stands there. Cost: one step for each.
fn name_members(members: &[u16], places: &mut [u16])
    requires { (k : ℕ) → k < length places.old → slice_index places.old k < length members.now }
    ensures { (k : ℕ) → k < length places.old
        → slice_index places.new k ≡ slice_index members.now (slice_index places.old k) }
{
    for at in 0..places.len() {
        places[at] = members[usize::from(places[at])];
    }
}

/// Takes the union of the first `n` members' domains from those of all later members.
#[inline(never)]
fn take_members_values<T: Trail>(
    d: &mut Domains<T>,
    members: &[u16],
    order: &[u16],
    n: usize,
    union: &[u64],
    keep: &mut [u64],
)
    requires are_members { AreMembers d.old.vertices members.now }
    requires begins { Begins (part d.old members.now) n order.now }
    requires some { 0 < n }
    requires long { length union.now ≡ words_for d.old.values }
    requires keep { length keep.old ≡ words_for d.old.values }
    requires union { (t : ℕ) → has union.now t ≡ in_union (part d.old members.now) n t }
    ensures { d.new ≡ without_union_of d.old members.now n }
{
    complement(union, keep);
    clear_later_members(d, members, order[n - 1], keep);
}

/// Takes the values that are not in the row from the domain of the member at one place, if it is after those of a prefix.
fn clear_member<T: Trail>(d: &mut Domains<T>, members: &[u16], last: u16, place: u16, keep: &[u64])
    requires are_members { AreMembers d.old.vertices members.now }
    requires last_in { last < length members.now }
    requires place_in { place < length members.now }
    requires long { length keep.now ≡ words_for d.old.values }
    ensures { d.new ≡ (if before (size_of (part d.old members.now)) last place
        then intersected d.old (slice_index members.now place) keep.now else d.old) }
{
    let _vertices = d.vertices();
    if !is_later(
        &Part {
            domains: d,
            members,
        },
        last,
        place,
    ) {
        return;
    }
    d.intersect(members[usize::from(place)], keep);
}

/// Takes the values that are not in the row from the domains of all members after those of a prefix, by rising vertex. Cost: one step
/// for each word of these domains and for each value removed.
fn clear_later_members<T: Trail>(d: &mut Domains<T>, members: &[u16], last: u16, keep: &[u64])
    requires are_members { AreMembers d.old.vertices members.now }
    requires last_in { last < length members.now }
    requires long { length keep.now ≡ words_for d.old.values }
    requires keep { (t : ℕ) → t < d.old.values
        → has keep.now t ≡ not (in_union (part d.old members.now)
        (rank (size_of (part d.old members.now)) (length members.now) last + 1) t) }
    ensures { d.new ≡ without_union_of d.old members.now
        (rank (size_of (part d.old members.now)) (length members.now) last + 1) }
{
    let _vertices = d.vertices();
    for place in 0..members.len() as u16 {
        clear_member(d, members, last, place, keep);
    }
}
