#![tactic(auto)]
//! Sets of small numbers that lose their members one by one, and get them back in the opposite order.
//!
//! The layer keeps all numbers in one list, those that were removed in front and in the order of removal, and for each number its place.
//! A layer above sees neither: it sees how many numbers there are and the list of the removed ones. So to undo is to cut that list, and
//! the members come as a slice, to be walked over without a look at any other number.
//!
//! The pair of lists is the sparse set of Briggs and Torczon (1993, "An efficient representation for sparse sets"); that a set of
//! variables of a search is given back by one number is long known in constraint solvers.

mod shared;

ghost use Rattle.std.specs.Prelude.{◌≡◌, ℕ, ◌+◌, ◌<◌, ◌≤◌, true, length, IfOk, if◌then◌else◌, slice_index, slice_set};
ghost use Rattle.sparse_set.specs.Inside.{Held};
ghost use Rattle.sparse_set.specs.Removals.{State, has, undone, whole, without};

use std::alloc::{AllocError, Global};
use std::marker::Model;

/// A set of numbers below a count. All of them are members at first.
///
/// `items` has each number once, the `gone` removed ones first; `places[p]` is where `p` stands in it.
pub struct SparseSet {
    items: Vec<u16>,
    places: Vec<u16>,
    gone: usize,
}

impl Drop for SparseSet {
    /// In one call, for whoever lets one go.
    fn drop(self) {
        let SparseSet {
            items: _,
            places: _,
            gone: _,
        } = self;
    }
}

impl Model for SparseSet {
    ghost use Rattle.sparse_set.specs.Inside.{Held, state};
    ghost use Rattle.sparse_set.specs.Removals.{State};

    ghost Value = { State };

    ghost view = { λ s. state s.items.items s.gone };

    ghost invariant = { λ s. Held s.items.items s.places.items s.gone };
}

impl SparseSet {
    /// The set of all numbers below `n`. Cost: one step for each.
    pub fn new(alloc: Global, n: u16) -> Result<SparseSet, AllocError>
        ensures { IfOk result (λ s. s ≡ whole n) }
    {
        let mut items = Vec::with_capacity(alloc, usize::from(n))?;
        for p in 0..n {
            items.push(p)?;
        }
        let places = Vec::from_slice(alloc, &items)?;
        Ok(SparseSet {
            items,
            places,
            gone: 0,
        })
    }

    /// Whether `p` is a member. Cost: one step.
    pub fn has(&self, p: u16) -> bool
        requires { p < self.now.count }
        ensures { result ≡ has self.now p }
    {
        usize::from(self.places[usize::from(p)]) >= self.gone
    }

    /// The members, in an order of no meaning. Cost: one step.
    pub fn members(&self) -> &[u16]
        ensures member { (k : ℕ) → k < length result.now
            → has self.now (slice_index result.now k) ≡ true }
        ensures all { (p : ℕ) → has self.now p ≡ true → (k : ℕ) × (k < length result.now)
            × (slice_index result.now k ≡ p) }
        ensures once { (j k : ℕ) → j < length result.now → k < length result.now
            → slice_index result.now j ≡ slice_index result.now k → j ≡ k }
        ensures long { length result.now + length self.now.removed ≡ self.now.count }
    {
        &self.items[self.gone..]
    }

    /// How many numbers were removed: the present mark, to which later removals can be undone. Cost: one step.
    pub fn mark(&self) -> usize
        ensures length { result ≡ length self.now.removed }
        ensures within { result ≤ self.now.count }
    {
        self.gone
    }

    /// Takes `p` out, if it is a member, and says whether it was. Cost: one step.
    pub fn remove(&mut self, p: u16) -> bool
        requires { p < self.old.count }
        ensures found { result ≡ has self.old p }
        ensures after { self.new ≡ (if result then without self.old p else self.old) }
        ensures count { self.new.count ≡ self.old.count }
    {
        if !self.has(p) {
            return false;
        }
        let place = self.places[usize::from(p)];
        let first = self.items[self.gone];
        self.items[usize::from(place)] = first;
        self.items[self.gone] = p;
        self.places[usize::from(first)] = place;
        self.places[usize::from(p)] = self.gone as u16;
        self.gone += 1;
        true
    }

    /// Takes in again all numbers that were removed since the mark. Cost: one step.
    pub fn undo_to(&mut self, mark: usize)
        requires { mark ≤ length self.old.removed }
        ensures after { self.new ≡ undone self.old mark }
        ensures count { self.new.count ≡ self.old.count }
    {
        self.gone = mark;
    }
}
