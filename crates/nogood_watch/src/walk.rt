//! One walk along the watches of a literal that has been assigned.

ghost use Rattle.std.specs.Prelude.{◌≡◌, ℕ, ◌+◌, ◌-◌, ◌*◌, ◌<◌, ◌≤◌, ◌↔◌, [], length, IfSome, IfNone, IsTrue, slice_index, slice_set, vec_capacity};
ghost use Rattle.nogood_watch.specs.Inside.{Kept, cell, nogoods_of, entry, Within};
ghost use Rattle.nogood_watch.specs.Lists.{Chained, moved, no_watch};
ghost use Rattle.nogood_watch.specs.Nogoods.{AreLiterals, literal, partner};
ghost use Rattle.nogood_watch.specs.Walking.{IsFreeLiteral, NoneFree, Ready, Tells, Visited, Walked};
ghost use Rattle.nogood_watch.specs.Watching.{IsAssigned, forced_at};

use crate::lists::{END, relink, take_list};
use crate::watched::{Entry, WatchAnswer};
use domain_bits::{Domains, Trail};

/// Where the list of a literal begins.
pub(crate) fn cell_of(values: u16, literal: (u16, u16)) -> usize
    ensures { result ≡ cell values literal }
{
    usize::from(literal.0) * usize::from(values) + usize::from(literal.1)
}

/// Whether the literal's value is all of its vertex's domain. Cost: one step.
fn is_assigned<T: Trail>(d: &Domains<T>, literal: (u16, u16)) -> bool
    requires vertex { literal.0 < d.now.vertices }
    requires value { literal.1 < d.now.values }
    ensures { IsTrue result ↔ IsAssigned d.now literal }
{
    d.size(literal.0) == 1 && d.has(literal.0, literal.1)
}

/// The first literal of another vertex than `p` and `q` that is not assigned. Cost: one step for each literal before it.
fn free_literal<T: Trail>(
    d: &Domains<T>,
    literals: &[(u16, u16)],
    p: u16,
    q: u16,
) -> Option<(u16, u16)>
    requires { AreLiterals d.now.vertices d.now.values literals.now }
    ensures some { IfSome result (λ l. IsFreeLiteral d.now literals.now p q l) }
    ensures none { IfNone result (NoneFree d.now literals.now p q) }
{
    for k in 0..literals.len() {
        let literal = literals[k];
        if literal.0 == p || literal.0 == q {
            continue;
        }
        if !is_assigned(d, literal) {
            return Some(literal);
        }
    }
    None
}

/// Moves the first watch of a list to another literal. Cost: one step.
fn move_watch(
    values: u16,
    watches: &mut [(u16, u16)],
    heads: &mut [u32],
    next: &mut [u32],
    x: u32,
    from: usize,
    literal: (u16, u16),
)
    requires from_in { from < length heads.old }
    requires to_in { cell values literal < length heads.old }
    requires x_in { x < length next.old }
    requires long { length next.old ≡ length watches.old }
    requires first { slice_index heads.old from ≡ x }
    ensures watches { watches.new ≡ slice_set watches.old x literal }
    ensures chained { (home : ℕ → ℕ) → Chained home heads.old next.old → home x ≡ from
        → Chained (moved home x (cell values literal)) heads.new next.new }
    ensures heads_long { length heads.new ≡ length heads.old }
    ensures next_long { length next.new ≡ length next.old }
{
    watches[x as usize] = literal;
    relink(heads, next, from, cell_of(values, literal), x);
}

/// The other watch of the same nogood.
fn partner_of(x: u32) -> u32
    requires { x < 4294967294 }
    ensures { result ≡ partner x }
{
    x + 1 - 2 * (x % 2)
}

/// The nogoods that are kept: their literals one after another, an entry for each, and whether it is live.
#[derive(Drop)]
pub(crate) struct NogoodList<'a> {
    pub(crate) literals: &'a [(u16, u16)],
    pub(crate) entries: &'a [Entry],
    pub(crate) live: &'a [bool],
}

/// Looks at one nogood whose watch `x` is assigned and the first one in hand. It moves to a literal that is not assigned, also where the
/// other watch has left its domain: a watch that stays is met again at each later assignment of its literal, and on hard refutations
/// these were nine in ten of all visits. Its other watch stays where it is. Cost: at most two steps for each literal of the nogood.
fn visit<T: Trail>(
    d: &Domains<T>,
    nogoods: &NogoodList<'_>,
    watches: &mut [(u16, u16)],
    heads: &mut [u32],
    next: &mut [u32],
    forced: &mut Vec<(u16, u16, u32)>,
    x: u32,
)
    requires ready { Ready d.now
        (nogoods_of nogoods.now.literals.now nogoods.now.entries.now) watches.old heads.old
        next.old x }
    requires within { (i : ℕ) → i < length nogoods.now.entries.now
        → Within nogoods.now.literals.now (entry nogoods.now.entries.now i) }
    requires room { length forced.old.items < vec_capacity forced.old }
    ensures visited { Visited d.now
        (nogoods_of nogoods.now.literals.now nogoods.now.entries.now) watches.old watches.new
        forced.old.items forced.new.items x }
    ensures chained { (home : ℕ → ℕ) → Chained home heads.old next.old
        → home x ≡ d.now.vertices * d.now.values
        → Chained (moved home x (cell d.now.values (literal watches.new x))) heads.new next.new }
    ensures heads_long { length heads.new ≡ length heads.old }
    ensures next_long { length next.new ≡ length next.old }
    ensures room { vec_capacity forced.new ≡ vec_capacity forced.old }
{
    let entry = &nogoods.entries[x as usize / 2];
    let nogood = &nogoods.literals[entry.start as usize..entry.end as usize];
    let hand = heads.len() - 1;
    let own = watches[x as usize];
    let other = watches[partner_of(x) as usize];
    match free_literal(d, nogood, own.0, other.0) {
        Some(free) => move_watch(d.values(), watches, heads, next, x, hand, free),
        None => {
            relink(heads, next, hand, cell_of(d.values(), own), x);
            if !d.has(other.0, other.1) {
                return;
            }
            forced.push_reserved((other.0, other.1, entry.name));
        }
    }
}

/// Visits the live nogoods that are watched at the literal, each once. Cost: that of the visits.
pub(crate) fn walk<T: Trail>(
    d: &Domains<T>,
    nogoods: &NogoodList<'_>,
    watches: &mut [(u16, u16)],
    heads: &mut [u32],
    next: &mut [u32],
    forced: &mut Vec<(u16, u16, u32)>,
    literal: (u16, u16),
)
    requires kept { Kept d.now.vertices d.now.values nogoods.now.literals.now
        nogoods.now.entries.now nogoods.now.live.now
        watches.old heads.old
        next.old (vec_capacity forced.old) }
    requires none { forced.old.items ≡ [] }
    requires vertex { literal.0 < d.now.vertices }
    requires assigned { IsAssigned d.now literal }
    ensures kept { Kept d.now.vertices d.now.values nogoods.now.literals.now nogoods.now.entries.now
        nogoods.now.live.now
        watches.new heads.new
        next.new (vec_capacity forced.new) }
    ensures walked { Walked d.now
        (nogoods_of nogoods.now.literals.now nogoods.now.entries.now) nogoods.now.live.now
        watches.old watches.new literal forced.new.items }
{
    let hand = heads.len() - 1;
    take_list(heads, cell_of(d.values(), literal), hand);
    while heads[hand] != END {
        let x = heads[hand];
        visit(d, nogoods, watches, heads, next, forced, x);
    }
}

/// The name at the first forced pair that is assigned itself. Cost: one step for each pair before it.
fn first_whole<T: Trail>(d: &Domains<T>, forced: &[(u16, u16, u32)]) -> Option<u32>
    requires vertices { (k : ℕ) → k < length forced.now
        → (forced_at forced.now k).0 < d.now.vertices }
    requires values { (k : ℕ) → k < length forced.now → (forced_at forced.now k).1 < d.now.values }
    ensures some { IfSome result
        (λ name. (k : ℕ) × (k < length forced.now) × ((forced_at forced.now k).2 ≡ name)
        × IsAssigned d.now ((forced_at forced.now k).0, (forced_at forced.now k).1)) }
    ensures none { IfNone result
        ((k : ℕ) → k < length forced.now
        → IsAssigned d.now ((forced_at forced.now k).0, (forced_at forced.now k).1) → ⊥) }
{
    for k in 0..forced.len() {
        let (q, u, name) = forced[k];
        if is_assigned(d, (q, u)) {
            return Some(name);
        }
    }
    None
}

/// What the forced pairs say. Cost: at most one step for each.
pub(crate) fn answer_of<T: Trail>(d: &Domains<T>, forced: &[(u16, u16, u32)]) -> WatchAnswer
    requires vertices { (k : ℕ) → k < length forced.now
        → (forced_at forced.now k).0 < d.now.vertices }
    requires values { (k : ℕ) → k < length forced.now → (forced_at forced.now k).1 < d.now.values }
    ensures { Tells result d.now forced.now }
{
    if forced.is_empty() {
        return WatchAnswer::Quiet;
    }
    match first_whole(d, forced) {
        Some(name) => WatchAnswer::Fail(name),
        None => WatchAnswer::Forced,
    }
}
