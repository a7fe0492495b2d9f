//! The log of one owner.

ghost use Rattle.std.specs.Prelude.{◌≡◌, min};
ghost use Rattle.search_journal.specs.Lines.{Steps, Refutes};
ghost use Rattle.search_journal.specs.Entries.{Writes};
ghost use Rattle.proof_collection.specs.Logs.{IsKnown};

use fail_account::Account;
use graph_rows::Problem;
use journals::Journal;
use line_cache::LineCache;
use nogood_book::Row;
use proof_logger::ProofLogger;
use recorder::{Causes, DeadEnd};
use search_journal::SearchJournal;
use std::alloc::{AllocError, Global};

/// Keeps the lines of one owner, and makes each line that they name once.
#[derive(Drop)]
pub struct OwnerLog<'a> {
    pub(crate) kept: SearchJournal<'a, LineCache<'a>>,
}

impl<'a> OwnerLog<'a> {
    /// The lines and notes.
    pub fn into_journal(self) -> Journal
        ensures { result ≡ self.entry.kept.journal }
    {
        let OwnerLog { kept } = self;
        kept.into_journal()
    }
}

impl<'a> ProofLogger for OwnerLog<'a> {
    type Told = Causes;

    ghost owner = { λ l. l.kept.journal.owner };

    ghost spare = { λ l. min l.kept.journal.spare l.kept.numbers.spare };

    ghost writes = { λ l q rows a. Writes (IsKnown l.kept.maker) l.kept.lines.now l.kept.journal
        l.kept.numbers.owner l.kept.numbers.notes l.kept.entries.items q rows a };

    ghost steps = { λ l q rows. Steps l.kept.lines.now l.kept.journal q rows };

    ghost refutes = { λ l q rows. Refutes l.kept.lines.now l.kept.journal q rows };

    fn close(
        &mut self,
        alloc: Global,
        q: &Problem,
        rows: &[Row],
        told: &Causes,
        account: &Account,
        end: DeadEnd,
    ) -> Result<(), AllocError> {
        self.kept.close(alloc, q, rows, told, account, end)
    }

    fn room(&mut self) -> Result<(), AllocError> {
        self.kept.room()
    }

    fn note(&mut self, account: &Account, level: u16, value: u16, row: u32) {
        self.kept.note(account, level, value, row);
    }

    fn restart(&mut self) {
        self.kept.restart();
    }

    fn stays(&self) {
        self.kept.stays();
    }
}
