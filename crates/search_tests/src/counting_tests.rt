//! Domains that are counted together.

ghost use Rattle.std.specs.Prelude.{◌≡◌, ℕ, ◌-◌, ◌<◌, true, length, slice_index, IfOk};
ghost use Rattle.domain_bits.specs.Removals.{in_domain};
ghost use Rattle.all_different.specs.Members.{AreMembers};
ghost use Rattle.all_different.specs.Pruning.{DecidedApart};

use all_different::{Pruned, Scratch, prune, prune_of, prune_undecided};
use domain_bits::Domains;
use std::alloc::{AllocError, Global};
use std::test::Fail;
use test_support::{Example, all_hold};

/// Whether a set is what counting left in its scratch: these vertices, and their values as one word.
fn is_left(scratch: &Scratch, set: &[u16], values: u64) -> bool {
    scratch.set() == set && scratch.values() == [values].as_slice()
}

/// Whether each of these is a vertex.
fn are_vertices(set: &[u16], vertices: u16) -> bool
    ensures { result ≡ true → (k : ℕ) → k < length set.now → slice_index set.now k < vertices }
{
    for k in 0..set.len() {
        if set[k] >= vertices {
            return false;
        }
    }
    true
}

/// Whether two domains of the same two values empty a third of these, once.
fn empty_a_third(alloc: Global) -> Result<bool, AllocError> {
    let mut domains = Domains::new(alloc, 3, 3)?;
    let mut scratch = Scratch::new(alloc, 3, 3)?;
    domains.intersect(0, &[0b011]);
    domains.intersect(1, &[0b011]);
    let first = prune(&mut domains, &mut scratch);
    let is_told = is_left(&scratch, &[0, 1], 0b011);
    let is_emptied = domains.row(2) == [0b100].as_slice();
    let second = prune(&mut domains, &mut scratch);
    Ok(first == Pruned::Hall && is_told && is_emptied && second == Pruned::Quiet)
}

#[test]
fn two_domains_of_two_values_empty_a_third(rt: HostRuntime) -> Result<(), Fail> {
    assert!(rt; empty_a_third(rt.alloc())?);
    Ok(())
}

/// Whether three domains of two values fail, and lose none.
fn have_no_choice(alloc: Global) -> Result<bool, AllocError> {
    let mut domains = Domains::new(alloc, 3, 2)?;
    let mut scratch = Scratch::new(alloc, 3, 2)?;
    let answer = prune(&mut domains, &mut scratch);
    if !are_vertices(scratch.set(), 3) {
        return Ok(false);
    }
    scratch.unite(&domains);
    let is_told = is_left(&scratch, &[0, 1, 2], 0b11);
    Ok(answer == Pruned::Fail && is_told && domains.trail().is_empty())
}

#[test]
fn three_domains_of_two_values_have_no_choice(rt: HostRuntime) -> Result<(), Fail> {
    assert!(rt; have_no_choice(rt.alloc())?);
    Ok(())
}

/// Domains of four vertices and six values that have just the values of these rows.
fn domains_of(alloc: Global, rows: [u64; 4]) -> Result<Domains, AllocError>
    ensures vertices { IfOk result (λ d. d.vertices ≡ 4) }
    ensures values { IfOk result (λ d. d.values ≡ 6) }
{
    let mut domains = Domains::new(alloc, 4, 6)?;
    domains.intersect(0, &[rows[0]]);
    domains.intersect(1, &[rows[1]]);
    domains.intersect(2, &[rows[2]]);
    domains.intersect(3, &[rows[3]]);
    Ok(domains)
}

/// Whether no other domain has the value of `p`.
fn stands_alone(d: &Domains, p: u16, t: u16) -> bool
    requires { t < d.now.values }
    ensures { result ≡ true → (r : ℕ) → r < d.now.vertices → (p ≡ r → ⊥)
        → in_domain d.now r t ≡ true → ⊥ }
{
    for r in 0..d.vertices() {
        if r != p && d.has(r, t) {
            return false;
        }
    }
    true
}

/// Whether each value that is all of a domain is in no other.
fn are_apart(d: &Domains) -> bool
    ensures { result ≡ true → DecidedApart d.now }
{
    for p in 0..d.vertices() {
        if let Some(t) = d.only(p) {
            if !stands_alone(d, p, t) {
                return false;
            }
        }
    }
    true
}

/// The rows of four domains, what counting them answers, and how many vertices it tells.
struct Counted([u64; 4], Pruned, usize);

/// Whether both ways to count domains answer this, tell the same set of so many vertices, and leave the same domains.
fn answer_alike(
    alloc: Global,
    plain: &mut Domains,
    undecided: &mut Domains,
    answer: Pruned,
    set: usize,
) -> Result<bool, AllocError>
    requires vertices { plain.old.vertices ≡ 4 }
    requires values { plain.old.values ≡ 6 }
    requires other_vertices { undecided.old.vertices ≡ 4 }
    requires other_values { undecided.old.values ≡ 6 }
    requires apart { DecidedApart undecided.old }
{
    let mut scratch = Scratch::new(alloc, 4, 6)?;
    let mut sister = Scratch::new(alloc, 4, 6)?;
    let first = prune(plain, &mut scratch);
    let second = prune_undecided(undecided, &mut sister);
    Ok(
        first == answer
            && second == answer
            && sister.set().len() == set
            && sister.set() == scratch.set()
            && undecided.trail() == plain.trail(),
    )
}

impl<R> Example<R> for Counted {
    fn holds(&self, _rt: &R, alloc: Global) -> Result<bool, AllocError> {
        let Counted(rows, answer, set) = *self;
        let mut plain = domains_of(alloc, rows)?;
        let mut undecided = domains_of(alloc, rows)?;
        if !are_apart(&undecided) {
            return Ok(false);
        }
        answer_alike(alloc, &mut plain, &mut undecided, answer, set)
    }
}

static COUNTED: [Counted; 6] = [
    // no more than the decided
    Counted([0b1, 0b10, 0b111100, 0b111100], Pruned::Quiet, 0),
    // two that keep to themselves
    Counted([0b1, 0b110, 0b110, 0b111000], Pruned::Quiet, 0),
    // two behind a decided one
    Counted([0b1, 0b110, 0b110, 0b1110], Pruned::Hall, 3),
    // one left by two
    Counted([0b111110, 0b1, 0b1010, 0b1010], Pruned::Hall, 3),
    // three of two values
    Counted([0b1, 0b110, 0b110, 0b110], Pruned::Fail, 4),
    // an empty one
    Counted([0b1, 0b0, 0b111110, 0b111110], Pruned::Fail, 1),
];

#[test]
fn both_answer_alike_on_domains_at_rest(rt: HostRuntime) -> Result<(), Fail> {
    all_hold(&rt, rt.alloc(), &COUNTED)
}

/// Whether the number at place `k` is more than the one before it.
fn follows(list: &[u16], k: usize) -> bool
    requires { k < length list.now }
    ensures { result ≡ true → 0 < k → slice_index list.now (k - 1) < slice_index list.now k }
{
    k == 0 || list[k - 1] < list[k]
}

/// Whether these are vertices, each once and rising.
fn are_members(list: &[u16], vertices: u16) -> bool
    ensures { result ≡ true → AreMembers vertices list.now }
{
    for k in 0..list.len() {
        if list[k] >= vertices {
            return false;
        }
        if !follows(list, k) {
            return false;
        }
    }
    true
}

/// Domains of five vertices and six values that have just the values of these rows.
fn five_domains(alloc: Global, rows: [u64; 5]) -> Result<Domains, AllocError>
    ensures vertices { IfOk result (λ d. d.vertices ≡ 5) }
    ensures values { IfOk result (λ d. d.values ≡ 6) }
{
    let mut domains = Domains::new(alloc, 5, 6)?;
    domains.intersect(0, &[rows[0]]);
    domains.intersect(1, &[rows[1]]);
    domains.intersect(2, &[rows[2]]);
    domains.intersect(3, &[rows[3]]);
    domains.intersect(4, &[rows[4]]);
    Ok(domains)
}

/// Whether the domains have just these rows.
fn have_rows(d: &Domains, rows: [u64; 5]) -> bool
    requires { d.now.vertices ≡ 5 }
{
    d.row(0) == [rows[0]].as_slice()
        && d.row(1) == [rows[1]].as_slice()
        && d.row(2) == [rows[2]].as_slice()
        && d.row(3) == [rows[3]].as_slice()
        && d.row(4) == [rows[4]].as_slice()
}

/// The rows of five domains and the members that are counted; what this answers, the set that it tells with the values of that set, and
/// the rows that it leaves.
struct CountedOf {
    rows: [u64; 5],
    members: &'static [u16],
    answer: Pruned,
    set: &'static [u16],
    values: u64,
    left: [u64; 5],
}

impl<R> Example<R> for CountedOf {
    fn holds(&self, _rt: &R, alloc: Global) -> Result<bool, AllocError> {
        if !are_members(self.members, 5) {
            return Ok(false);
        }
        let mut domains = five_domains(alloc, self.rows)?;
        let mut scratch = Scratch::new(alloc, 5, 6)?;
        let answer = prune_of(&mut domains, &mut scratch, self.members);
        if answer != self.answer || scratch.set() != self.set || !have_rows(&domains, self.left) {
            return Ok(false);
        }
        if answer == Pruned::Fail && are_vertices(scratch.set(), 5) {
            scratch.unite(&domains);
        }
        Ok(answer == Pruned::Quiet || is_left(&scratch, self.set, self.values))
    }
}

static COUNTED_OF: [CountedOf; 5] = [
    // two empty a third beside others, one of which has a value of theirs alone
    CountedOf {
        rows: [0b11, 0b1, 0b11, 0b111111, 0b111],
        members: &[0, 2, 4],
        answer: Pruned::Hall,
        set: &[0, 2],
        values: 0b11,
        left: [0b11, 0b1, 0b11, 0b111111, 0b100],
    },
    // three of two values, by size and then by number
    CountedOf {
        rows: [0b111111, 0b11, 0b1, 0b1000, 0b11],
        members: &[1, 2, 4],
        answer: Pruned::Fail,
        set: &[2, 1, 4],
        values: 0b11,
        left: [0b111111, 0b11, 0b1, 0b1000, 0b11],
    },
    // two at rest beside three of two values
    CountedOf {
        rows: [0b11, 0b11, 0b11, 0b11, 0b110],
        members: &[3, 4],
        answer: Pruned::Quiet,
        set: &[],
        values: 0,
        left: [0b11, 0b11, 0b11, 0b11, 0b110],
    },
    // no members
    CountedOf {
        rows: [0b1, 0b1, 0b0, 0b1, 0b1],
        members: &[],
        answer: Pruned::Quiet,
        set: &[],
        values: 0,
        left: [0b1, 0b1, 0b0, 0b1, 0b1],
    },
    // an empty one
    CountedOf {
        rows: [0b1, 0b0, 0b1, 0b111, 0b1],
        members: &[1, 3],
        answer: Pruned::Fail,
        set: &[1],
        values: 0,
        left: [0b1, 0b0, 0b1, 0b111, 0b1],
    },
];

#[test]
fn members_are_counted_beside_others(rt: HostRuntime) -> Result<(), Fail> {
    all_hold(&rt, rt.alloc(), &COUNTED_OF)
}
