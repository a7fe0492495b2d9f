//! The logger that keeps the lines of a search.

ghost use Rattle.std.specs.Prelude.{◌≡◌, ℕ, ◌^◌, ◌≤◌, [], List, length, drop, min, ◌-◌, ◌<◌, slice_get, Some, IfOk, IfSome, IfNone};
ghost use Rattle.search_theory.specs.Account.{Honest, fresh};
ghost use Rattle.log_theory.specs.LogText.{IsName, AreRefs};
ghost use Rattle.nogood_book.specs.declared.row.Row.{Row as TheRow};
ghost use Rattle.nogood_book.specs.Rows.{Sound};
ghost use Rattle.recorder.specs.Recording.{changes_of, set_at};
ghost use Rattle.log_growth.specs.Frames.{Frame, IsFrameOf};
ghost use Rattle.proof_logger.specs.Logging.{IsNogoodBy, EndsPath};
ghost use Rattle.dead_paths.specs.Explaining.{IsLastOf};
ghost use Rattle.search_journal.specs.Lines.{Steps, Refutes};
ghost use Rattle.search_journal.specs.Entries.{entry_refs, Writes};
ghost use Rattle.search_journal.specs.Closing.{IsLined};

use crate::entries::{count_above, entry_of, refs_of};
use crate::refuted::Refuted;
use crate::row_numbers::{OwnNames, RowNumbers};
use dead_paths::{Basis, DeadPath, Ground, LineMaker, Scratch, explain};
use fail_account::Account;
use graph_rows::Problem;
use journals::{Journal, Keeper};
use log_theory::{Name, Ref};
use nogood_book::Row;
use proof_logger::ProofLogger;
use recorder::{Causes, DeadEnd, KeptChanges};
use std::alloc::{AllocError, Global};

/// A book, with the rows that a seat keeps behind it, has no more rows.
const MOST_ROWS: usize = 4194304;

/// The last pair, if there is one.
fn last_pair(path: &[(u16, u16)]) -> Option<(u16, u16)>
    ensures some { IfSome result
        (λ x. (0 < length path.now) × (slice_get path.now (length path.now - 1) ≡ Some x)) }
    ensures none { IfNone result (length path.now ≡ 0) }
{
    let length = path.len();
    if length == 0 {
        return None;
    }
    Some(path[length - 1])
}

/// Keeps the lines of one owner over the encoding of a problem, and for each refuted value of the position the number of
/// its line. Cost beside the lines: an entry for each of these values, and a number for each row that was noted.
pub struct SearchJournal<'a, M: LineMaker> {
    lines: &'a Ground<'a>,
    journal: Journal,
    numbers: RowNumbers,
    entries: Vec<Refuted>,
    maker: M,
    scratch: Scratch,
}

impl<M: LineMaker> Drop for SearchJournal<'_, M> {
    /// In one call, for whoever lets one go.
    fn drop(self) {
        let SearchJournal {
            lines: _,
            journal: _,
            numbers: _,
            entries: _,
            maker: _,
            scratch: _,
        } = self;
    }
}

impl<'a, M: LineMaker> SearchJournal<'a, M> {
    /// No line yet. It takes no memory.
    pub fn new(alloc: Global, lines: &'a Ground<'a>, owner: u8, maker: M) -> SearchJournal<'a, M>
        requires owner { owner ≤ 64 }
        requires knows { (w : Frame) → IsFrameOf lines.now owner w → M.knows maker lines.now w [] }
        ensures owner { result.journal.owner ≡ owner }
        ensures writes { (rows : List TheRow) (pattern target budget : ℕ)
            → ((k : ℕ) → IsNogoodBy owner rows k → ⊥)
            → Writes (M.knows result.maker) result.lines.now result.journal result.numbers.owner
            result.numbers.notes result.entries.items lines.now rows (fresh pattern target budget) }
    {
        SearchJournal {
            lines,
            journal: Journal::new(alloc, owner),
            numbers: RowNumbers::new(alloc, owner),
            entries: Vec::new(alloc),
            maker,
            scratch: Scratch::new(alloc),
        }
    }

    /// The lines and notes.
    pub fn into_journal(self) -> Journal
        ensures { result ≡ self.entry.journal }
    {
        let SearchJournal {
            lines: _,
            journal,
            numbers: _,
            entries: _,
            maker: _,
            scratch: _,
        } = self;
        journal
    }

    /// Gives the line of the account's path, which ended so after these changes. The references are those of the entries of the level after
    /// it, and those stand from a place on.
    fn dead_line(
        &mut self,
        alloc: Global,
        rows: &[Row],
        account: &Account,
        ended: (DeadEnd, KeptChanges<'_>),
        above: usize,
        refuted: &[Ref],
    ) -> Result<Option<Name>, AllocError>
        requires honest { Honest self.old.lines.now account.now }
        requires sound { Sound self.old.lines.now rows.now }
        requires few { length rows.now ≤ 2 ^ 22 }
        requires ends { EndsPath self.old.lines.now rows.now
            (Some (changes_of ended.1.numbers.now ended.1.entries.now))
            (set_at ended.1.numbers.now ended.1.short) account.now ended.0 }
        requires refuted { refuted.now ≡ entry_refs self.old.numbers.owner
            (drop above self.old.entries.items) }
        requires fits { AreRefs refuted.now }
        ensures lined { IsLined (M.knows self.old.maker) (M.knows self.new.maker) self.old.lines.now
            self.old.journal self.new.journal
            self.old.numbers.owner self.old.numbers.notes self.old.entries.items
            self.old.lines.now rows.now account.now above result }
        ensures name { IfOk result (λ o. IfSome o IsName) }
        ensures last { IfOk result (λ o. IfSome o (IsLastOf (Some self.new.journal.steps))) }
        ensures owner { self.new.journal.owner ≡ self.old.journal.owner }
        ensures notes { self.new.journal.notes ≡ self.old.journal.notes }
        ensures entries { self.new.entries ≡ self.old.entries }
        ensures numbers { self.new.numbers ≡ self.old.numbers }
        ensures same { self.new.lines.now ≡ self.old.lines.now }
    {
        let (end, kept) = ended;
        let names = OwnNames {
            rows,
            numbers: &self.numbers,
        };
        let basis = Basis {
            alloc,
            lines: self.lines,
            rows,
            names: &names,
            numbers: kept.numbers,
        };
        let dead = DeadPath {
            path: account.path(),
            entries: kept.entries,
            end,
            short: kept.short,
            refuted,
        };
        explain(
            &basis,
            &dead,
            &mut self.maker,
            &mut self.journal,
            &mut self.scratch,
        )
    }
}

impl<'a, M: LineMaker> ProofLogger for SearchJournal<'a, M> {
    type Told = Causes;

    ghost owner = { λ j. j.journal.owner };

    ghost spare = { λ j. min j.journal.spare j.numbers.spare };

    ghost writes = { λ j q rows a. Writes
        (M.knows j.maker) j.lines.now j.journal j.numbers.owner j.numbers.notes j.entries.items q
        rows a };

    ghost steps = { λ j q rows. Steps j.lines.now j.journal q rows };

    ghost refutes = { λ j q rows. Refutes j.lines.now j.journal q rows };

    fn close(
        &mut self,
        alloc: Global,
        q: &Problem,
        rows: &[Row],
        told: &Causes,
        account: &Account,
        end: DeadEnd,
    ) -> Result<(), AllocError> {
        let kept = match told.kept() {
            None => return Err(AllocError),
            Some(kept) => kept,
        };
        if rows.len() > MOST_ROWS {
            return Err(AllocError);
        }
        self.entries.reserve(1)?;
        let length = account.path().len();
        let above = count_above(&self.entries, length);
        let refuted = refs_of(alloc, self.numbers.owner(), &self.entries[above..])?;
        let answer = self.dead_line(alloc, rows, account, (end, kept), above, &refuted)?;
        let name = match answer {
            None => return Err(AllocError),
            Some(name) => name,
        };
        let last = match last_pair(account.path()) {
            None => return Ok(()),
            Some(last) => last,
        };
        self.entries.truncate(above);
        self.entries.push_reserved(Refuted {
            level: length - 1,
            value: last.1,
            number: name.number,
        });
        Ok(())
    }

    fn room(&mut self) -> Result<(), AllocError> {
        self.journal.room()?;
        self.numbers.room()
    }

    fn note(&mut self, _account: &Account, level: u16, value: u16, row: u32) {
        let entry = match entry_of(&self.entries, usize::from(level), value) {
            None => return,
            Some(entry) => entry,
        };
        let name = Name {
            owner: self.numbers.owner(),
            number: entry.number,
        };
        self.journal.note(row, name);
        self.numbers.push(row, entry.number);
    }

    fn restart(&mut self) {
        self.entries.clear();
    }

    fn stays(&self) {}
}
