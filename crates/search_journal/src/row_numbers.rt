//! Which line of the owner is the clause of which row, and the names of nogood rows by that.

ghost use Rattle.std.specs.Prelude.{◌≡◌, ℕ, ◌+◌, ◌^◌, ◌<◌, ◌≤◌, [], ◌∷◌, ◌++◌, true, false, OnOk, IfSome};
ghost use Rattle.log_theory.specs.LogText.{IsRef};
ghost use Rattle.journal_theory.specs.Journals.{note_of};
ghost use Rattle.search_journal.specs.Numbers.{RowsBelow, row_ref};

use dead_paths::RowNames;
use log_theory::{Name, Ref};
use nogood_book::Row;
use std::alloc::{AllocError, Global};
use std::marker::Model;

/// The number of the line of each row that was noted, the rows rising.
#[derive(Drop)]
pub(crate) struct RowNumbers {
    owner: u8,
    notes: Vec<(u32, u64)>,
}

impl Model for RowNumbers {
    ghost use Rattle.std.specs.Prelude.{◌≤◌, ◌-◌, length, vec_capacity};
    ghost use Rattle.search_journal.specs.Numbers.{Numbering, RowsRise, NumbersFit};

    ghost Value = { Numbering };

    ghost view = { λ n. record {
      owner = n.owner;
      notes = n.notes.items;
      spare = vec_capacity n.notes - length n.notes.items;
    } };

    ghost invariant = { λ n. (n.owner ≤ 64) × RowsRise n.notes.items × NumbersFit n.notes.items };
}

impl RowNumbers {
    /// No row yet. It takes no memory.
    pub(crate) fn new(alloc: Global, owner: u8) -> RowNumbers
        requires { owner ≤ 64 }
        ensures owner { result.owner ≡ owner }
        ensures notes { result.notes ≡ [] }
    {
        RowNumbers {
            owner,
            notes: Vec::new(alloc),
        }
    }

    /// Whose rows they are.
    pub(crate) fn owner(&self) -> u8
        ensures is { result ≡ self.now.owner }
        ensures fits { result ≤ 64 }
    {
        self.owner
    }

    /// Makes room for one more.
    pub(crate) fn room(&mut self) -> Result<(), AllocError>
        ensures made { OnOk result (1 ≤ self.new.spare) }
        ensures owner { self.new.owner ≡ self.old.owner }
        ensures notes { self.new.notes ≡ self.old.notes }
    {
        self.notes.reserve(1)
    }

    /// Takes up the number of a row's line, if the row is behind all others.
    pub(crate) fn push(&mut self, row: u32, number: u64)
        requires room { 1 ≤ self.old.spare }
        requires from_one { 1 ≤ number }
        requires fits { number < 2 ^ 63 }
        ensures owner { self.new.owner ≡ self.old.owner }
        ensures pushed { RowsBelow row self.old.notes
            → self.new.notes ≡ self.old.notes ++ (row, number) ∷ [] }
    {
        if !self.is_past(row) {
            return;
        }
        self.notes.push_reserved((row, number));
    }

    /// Whether the row is behind all others.
    fn is_past(&self, row: u32) -> bool
        ensures yes { result ≡ true → RowsBelow row self.now.notes }
        ensures no { result ≡ false → RowsBelow row self.now.notes → ⊥ }
    {
        let count = self.notes.len();
        count == 0 || self.notes[count - 1].0 < row
    }

    /// The number of the row's line. Cost: logarithmic in how many rows there are.
    fn number(&self, row: u32) -> Option<u64>
        ensures is { result ≡ note_of self.now.notes row }
        ensures fits { IfSome result (λ n. (1 ≤ n) × (n < 2 ^ 63)) }
    {
        let mut low = 0;
        let mut high = self.notes.len();
        while low < high {
            let middle = low + (high - low) / 2;
            let note = self.notes[middle];
            if note.0 == row {
                return Some(note.1);
            }
            if note.0 < row {
                low = middle + 1;
            } else {
                high = middle;
            }
        }
        None
    }
}

/// Names of the nogood rows of a book: an owner's own ones by their lines, all others by the names under which they are shared.
#[derive(Clone, Copy)]
pub(crate) struct OwnNames<'a> {
    pub(crate) rows: &'a [Row],
    pub(crate) numbers: &'a RowNumbers,
}

impl<'a> RowNames for OwnNames<'a> {
    ghost names = { λ n. row_ref n.rows.now n.numbers.now.owner n.numbers.now.notes };

    fn name(&self, k: u32) -> Ref {
        if k as usize >= self.rows.len() {
            return Ref::Shared(k);
        }
        let owner = self.numbers.owner();
        if self.rows[k as usize].owner != owner {
            return Ref::Shared(k);
        }
        match self.numbers.number(k) {
            None => Ref::Shared(k),
            Some(number) => Ref::Made(Name { owner, number }),
        }
    }
}
