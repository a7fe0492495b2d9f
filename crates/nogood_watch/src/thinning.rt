//! Nogoods that a shorter one has overtaken.
//!
//! A later run often refutes what stands above a nogood. The shorter nogood that it leaves says all that the longer one
//! says, and says it earlier, so the longer one needs no watch: this is subsumption, as Eén and Biere (2005) have it
//! for clauses. By rising length each nogood is looked at once. One in which no other lies is listed at its last
//! literal, which tends to be its rarest; so each is held only against those that are listed at its own literals.

ghost use Rattle.std.specs.Prelude.{◌≡◌, ℕ, ◌+◌, ◌*◌, ◌<◌, ◌≤◌, false, true, length};
ghost use Rattle.nogood_watch.specs.Covering.{has_literal, lies_in, AreCovered, IsOvertaken};
ghost use Rattle.nogood_watch.specs.Inside.{cell, entry, home_of, nogoods_of, HaveLists, Within};
ghost use Rattle.nogood_watch.specs.Lists.{no_watch, Chained};
ghost use Rattle.nogood_watch.specs.Nogoods.{literal, nogood};

use crate::lists::{END, link};
use crate::walk::cell_of;
use crate::watched::Entry;

/// So many of a list are held against a nogood at most. Where few are overtaken the lists are long, and without an end
/// the cost would grow with the square of the nogoods.
const MOST_HELD: usize = 16;

/// Whether the literal is one of these. Cost: one step for each before it.
fn is_among(literals: &[(u16, u16)], literal: (u16, u16)) -> bool
    ensures { result ≡ has_literal literals.now literal }
{
    for k in 0..literals.len() {
        if literals[k].0 == literal.0 && literals[k].1 == literal.1 {
            return true;
        }
    }
    false
}

/// Whether each of the first literals is one of the second. Cost: one step for each pair of them at most.
fn are_among(part: &[(u16, u16)], literals: &[(u16, u16)]) -> bool
    ensures { result ≡ lies_in part.now literals.now }
{
    for k in 0..part.len() {
        if !is_among(literals, part[k]) {
            return false;
        }
    }
    true
}

/// The nogoods that are held against one another, and how many values there are, by which the list of a literal is
/// found.
#[derive(Drop)]
pub(crate) struct Nogoods<'a> {
    pub(crate) values: u16,
    pub(crate) literals: &'a [(u16, u16)],
    pub(crate) entries: &'a [Entry],
}

impl Nogoods<'_> {
    /// The literals of nogood `i`.
    fn literals_of(&self, i: usize) -> &[(u16, u16)]
        requires i_in { i < length self.now.entries.now }
        requires within { (j : ℕ) → j < length self.now.entries.now
            → Within self.now.literals.now (entry self.now.entries.now j) }
        ensures { result.now
            ≡ (nogood (nogoods_of self.now.literals.now self.now.entries.now) i).literals }
    {
        let entry = &self.entries[i];
        &self.literals[entry.start as usize..entry.end as usize]
    }

    /// Whether `j` is another nogood than `i`, which is live, and whose literals lie in those of `i`.
    fn overtakes(&self, live: &[bool], j: usize, i: usize) -> bool
        requires i_in { i < length self.now.entries.now }
        requires within { (k : ℕ) → k < length self.now.entries.now
            → Within self.now.literals.now (entry self.now.entries.now k) }
        requires long { length live.now ≡ length self.now.entries.now }
        ensures { result ≡ true
            → IsOvertaken (nogoods_of self.now.literals.now self.now.entries.now) live.now i }
    {
        if j >= self.entries.len() {
            return false;
        }
        if j == i {
            return false;
        }
        if !live[j] {
            return false;
        }
        are_among(self.literals_of(j), self.literals_of(i))
    }

    /// Whether one of the first `MOST_HELD` that are listed at the literal overtakes nogood `i`. Cost: that of holding
    /// each against it.
    fn is_overtaken_at(
        &self,
        live: &[bool],
        heads: &[u32],
        next: &[u32],
        literal: (u16, u16),
        i: usize,
    ) -> bool
        requires i_in { i < length self.now.entries.now }
        requires within { (k : ℕ) → k < length self.now.entries.now
            → Within self.now.literals.now (entry self.now.entries.now k) }
        requires long { length live.now ≡ length self.now.entries.now }
        requires next_long { length self.now.entries.now ≤ length next.now }
        requires in_range { cell self.now.values literal < length heads.now }
        ensures { result ≡ true
            → IsOvertaken (nogoods_of self.now.literals.now self.now.entries.now) live.now i }
    {
        let mut j = heads[cell_of(self.values, literal)] as usize;
        for _ in 0..MOST_HELD {
            if j >= self.entries.len() {
                return false;
            }
            if self.overtakes(live, j, i) {
                return true;
            }
            j = next[j] as usize;
        }
        false
    }

    /// Whether one of those that are listed at its literals overtakes nogood `i`.
    fn is_overtaken(&self, live: &[bool], heads: &[u32], next: &[u32], i: usize) -> bool
        requires i_in { i < length self.now.entries.now }
        requires within { (k : ℕ) → k < length self.now.entries.now
            → Within self.now.literals.now (entry self.now.entries.now k) }
        requires long { length live.now ≡ length self.now.entries.now }
        requires next_long { length self.now.entries.now ≤ length next.now }
        requires lists { HaveLists self.now.values
            (nogoods_of self.now.literals.now self.now.entries.now) (length heads.now) }
        ensures { result ≡ true
            → IsOvertaken (nogoods_of self.now.literals.now self.now.entries.now) live.now i }
    {
        let literals = self.literals_of(i);
        for k in 0..literals.len() {
            if self.is_overtaken_at(live, heads, next, literals[k], i) {
                return true;
            }
        }
        false
    }

    /// Looks at nogood `i`: it is overtaken, and then live no longer, or is listed at its last literal.
    fn look_at(&self, live: &mut [bool], heads: &mut [u32], next: &mut [u32], i: usize)
        requires i_in { i < length self.now.entries.now }
        requires within { (k : ℕ) → k < length self.now.entries.now
            → Within self.now.literals.now (entry self.now.entries.now k) }
        requires long { length live.old ≡ length self.now.entries.now }
        requires next_long { length self.now.entries.now ≤ length next.old }
        requires few { length next.old ≤ no_watch }
        requires lists { HaveLists self.now.values
            (nogoods_of self.now.literals.now self.now.entries.now) (length heads.old) }
        requires some { 0 < length (nogood
            (nogoods_of self.now.literals.now self.now.entries.now) i).literals }
        requires covered { AreCovered (nogoods_of self.now.literals.now self.now.entries.now)
            live.old }
        ensures covered { AreCovered (nogoods_of self.now.literals.now self.now.entries.now)
            live.new }
        ensures live_long { length live.new ≡ length live.old }
        ensures heads_long { length heads.new ≡ length heads.old }
        ensures next_long { length next.new ≡ length next.old }
    {
        if self.is_overtaken(live, heads, next, i) {
            live[i] = false;
            return;
        }
        let literals = self.literals_of(i);
        let last = literals[literals.len() - 1];
        link(heads, next, cell_of(self.values, last), i as u32);
    }

    /// Looks at the live nogoods of so many literals.
    fn thin_length(&self, live: &mut [bool], heads: &mut [u32], next: &mut [u32], size: usize)
        requires within { (k : ℕ) → k < length self.now.entries.now
            → Within self.now.literals.now (entry self.now.entries.now k) }
        requires long { length live.old ≡ length self.now.entries.now }
        requires next_long { length self.now.entries.now ≤ length next.old }
        requires few { length next.old ≤ no_watch }
        requires lists { HaveLists self.now.values
            (nogoods_of self.now.literals.now self.now.entries.now) (length heads.old) }
        requires some { 0 < size }
        requires covered { AreCovered (nogoods_of self.now.literals.now self.now.entries.now)
            live.old }
        ensures covered { AreCovered (nogoods_of self.now.literals.now self.now.entries.now)
            live.new }
        ensures live_long { length live.new ≡ length live.old }
        ensures heads_long { length heads.new ≡ length heads.old }
        ensures next_long { length next.new ≡ length next.old }
    {
        for i in 0..self.entries.len() {
            if !live[i] {
                continue;
            }
            if self.literals_of(i).len() != size {
                continue;
            }
            self.look_at(live, heads, next, i);
        }
    }

    /// The most literals of one.
    fn longest(&self) -> usize
        requires within { (k : ℕ) → k < length self.now.entries.now
            → Within self.now.literals.now (entry self.now.entries.now k) }
    {
        let mut most = 0;
        for i in 0..self.entries.len() {
            most = most.max(self.literals_of(i).len());
        }
        most
    }

    /// Each nogood that another one overtakes is live no longer. What the lists were is lost.
    fn thin_all(&self, live: &mut [bool], heads: &mut [u32], next: &mut [u32])
        requires within { (k : ℕ) → k < length self.now.entries.now
            → Within self.now.literals.now (entry self.now.entries.now k) }
        requires long { length live.old ≡ length self.now.entries.now }
        requires next_long { length self.now.entries.now ≤ length next.old }
        requires few { length next.old ≤ no_watch }
        requires lists { HaveLists self.now.values
            (nogoods_of self.now.literals.now self.now.entries.now) (length heads.old) }
        requires covered { AreCovered (nogoods_of self.now.literals.now self.now.entries.now)
            live.old }
        ensures covered { AreCovered (nogoods_of self.now.literals.now self.now.entries.now)
            live.new }
        ensures live_long { length live.new ≡ length live.old }
        ensures heads_long { length heads.new ≡ length heads.old }
        ensures next_long { length next.new ≡ length next.old }
    {
        heads.fill(END);
        for shorter in 0..self.longest() {
            self.thin_length(live, heads, next, shorter + 1);
        }
    }

    /// Each nogood that another one overtakes is live no longer, and the watches of the others are linked anew. Cost:
    /// one step for each nogood and each length, for each watch and each list, and for each literal of a live one that
    /// of holding it against up to `MOST_HELD` shorter ones whose last literal this is.
    pub(crate) fn thin(
        &self,
        watches: &[(u16, u16)],
        live: &mut [bool],
        heads: &mut [u32],
        next: &mut [u32],
    )
        requires within { (k : ℕ) → k < length self.now.entries.now
            → Within self.now.literals.now (entry self.now.entries.now k) }
        requires long { length live.old ≡ length self.now.entries.now }
        requires two { length watches.now ≡ 2 * length live.old }
        requires next_long { length next.old ≡ length watches.now }
        requires few { length next.old ≤ no_watch }
        requires lists { HaveLists self.now.values
            (nogoods_of self.now.literals.now self.now.entries.now) (length heads.old) }
        requires in_range { (x : ℕ) → x < length watches.now
            → cell self.now.values (literal watches.now x) < length heads.old }
        requires covered { AreCovered (nogoods_of self.now.literals.now self.now.entries.now)
            live.old }
        ensures covered { AreCovered (nogoods_of self.now.literals.now self.now.entries.now)
            live.new }
        ensures chained { Chained (home_of (length heads.old) self.now.values live.new watches.now)
            heads.new next.new }
        ensures live_long { length live.new ≡ length live.old }
        ensures heads_long { length heads.new ≡ length heads.old }
        ensures next_long { length next.new ≡ length next.old }
    {
        self.thin_all(live, heads, next);
        link_live(self.values, watches, live, heads, next);
    }
}

/// Links each watch of a live nogood in the list of its literal, and no other. Cost: one step for each watch and each
/// list.
fn link_live(
    values: u16,
    watches: &[(u16, u16)],
    live: &[bool],
    heads: &mut [u32],
    next: &mut [u32],
)
    requires few { length next.old ≤ no_watch }
    requires next_long { length next.old ≡ length watches.now }
    requires live_long { length watches.now ≡ 2 * length live.now }
    requires in_range { (x : ℕ) → x < length watches.now
        → cell values (literal watches.now x) < length heads.old }
    ensures chained { Chained (home_of (length heads.old) values live.now watches.now) heads.new
        next.new }
    ensures heads_long { length heads.new ≡ length heads.old }
    ensures next_long { length next.new ≡ length next.old }
{
    heads.fill(END);
    for x in 0..watches.len() {
        if live[x / 2] {
            link(heads, next, cell_of(values, watches[x]), x as u32);
        }
    }
}

/// How many nogoods are live. Cost: one step for each nogood.
pub(crate) fn count_live(live: &[bool]) -> usize {
    let mut count: usize = 0;
    for i in 0..live.len() {
        if live[i] {
            count = count.saturating_add(1);
        }
    }
    count
}
