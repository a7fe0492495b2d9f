//! What a search tells, and what its teller may rely on.

ghost use Rattle.std.specs.Prelude.{◌≡◌, ℕ, ◌<◌, ◌≤◌, ◌^◌, List, length, OnOk};
ghost use Rattle.graph_theory.specs.Embedding.{Problem};
ghost use Rattle.search_theory.specs.Account.{Account, Honest, IsAt, deepened, restarted};
ghost use Rattle.nogood_book.specs.declared.row.Row.{Row};
ghost use Rattle.nogood_book.specs.Rows.{Sound};

use fail_account::Account;
use graph_rows::Problem;
use nogood_book::Row;
use recorder::{DeadEnd, Recorder, Silent};
use std::alloc::{AllocError, Global};

/// Hears of a search, and writes the lines of its proof.
pub trait ProofLogger: Drop {
    ghost use Rattle.search_theory.specs.Account.{Account};
    ghost use Rattle.nogood_book.specs.declared.row.Row.{Row};
    ghost use Rattle.proof_logger.specs.Logging.{Closed, EndsInOwn, EndsPath, GrowsBeside, Publishes};

    /// Who is told of each change of the domains.
    type Told: Recorder;

    /// Whose rows of the book are noted.
    ghost owner: { Self → ℕ };

    /// For how many more notes there is room.
    ghost spare: { Self → ℕ };

    /// Lines stand for all that the account has refuted, beside these rows: those of the book, and then the owner's own.
    ghost writes: { Self → Problem → List Row → Account → Type 0 };

    /// The lines follow from the problem, each from those before it, beside these rows.
    ghost steps: { Self → Problem → List Row → Type 0 };

    /// So they do, and the last one is false.
    ghost refutes: { Self → Problem → List Row → Type 0 };

    /// The path is dead: its line is written, which for the empty path is false. The account and what was told are those at the dead end.
    fn close(
        &mut self,
        alloc: Global,
        q: &Problem,
        rows: &[Row],
        told: &Self::Told,
        account: &Account,
        end: DeadEnd,
    ) -> Result<(), AllocError>
        requires honest { Honest q.now account.now }
        requires sound { Sound q.now rows.now }
        requires few { length rows.now < 2 ^ 32 }
        requires writes { writes self.old q.now rows.now account.now }
        requires ends { EndsPath q.now rows.now (Self.Told.changes told.now)
            (Self.Told.short told.now) account.now end }
        ensures owner { owner self.new ≡ owner self.old }
        ensures steps { steps self.new q.now rows.now }
        ensures closed { OnOk result (Closed (writes self.new q.now rows.now)
            (refutes self.new q.now rows.now) account.now) };

    /// Makes room for a note, which then takes no memory.
    fn room(&mut self) -> Result<(), AllocError>
        ensures made { OnOk result (1 ≤ spare self.new) }
        ensures owner { owner self.new ≡ owner self.old }
        ensures writes { (q : Problem) (rows : List Row) (a : Account)
            → writes self.old q rows a → writes self.new q rows a };

    /// Notes that the row is the nogood of a value that was refuted at a level.
    fn note(&mut self, account: &Account, level: u16, value: u16, row: u32)
        requires { 1 ≤ spare self.old }
        ensures owner { owner self.new ≡ owner self.old }
        ensures noted { (q : Problem) (rows more : List Row) → writes self.old q rows account.now
            → Publishes account.now (owner self.old) level value rows more row
            → writes self.new q more account.now };

    /// A run ends, and the next begins at the root.
    fn restart(&mut self)
        ensures owner { owner self.new ≡ owner self.old }
        ensures restarted { (q : Problem) (rows : List Row) (a : Account)
            → writes self.old q rows a → writes self.new q rows (restarted a) };

    /// What stays while nothing is written: as rows of others come, and without the rows at the end that the owner keeps for itself.
    /// Cost: none.
    fn stays(&self)
        ensures guess { (q : Problem) (rows : List Row) (a : Account) (p t : ℕ) → IsAt a.vertex p
            → writes self.now q rows a → writes self.now q rows (deepened a p t) }
        ensures grown { (q : Problem) (rows more : List Row) (a : Account)
            → GrowsBeside (owner self.now) rows more
            → writes self.now q rows a → writes self.now q more a }
        ensures steps { (q : Problem) (rows : List Row) (a : Account)
            → writes self.now q rows a → steps self.now q rows }
        ensures steps_grown { (q : Problem) (rows more : List Row)
            → GrowsBeside (owner self.now) rows more
            → steps self.now q rows → steps self.now q more }
        ensures refutes_grown { (q : Problem) (rows more : List Row)
            → GrowsBeside (owner self.now) rows more
            → refutes self.now q rows → refutes self.now q more }
        ensures steps_without_own { (q : Problem) (rows whole : List Row)
            → EndsInOwn (owner self.now) rows whole
            → steps self.now q whole → steps self.now q rows }
        ensures refutes_without_own { (q : Problem) (rows whole : List Row)
            → EndsInOwn (owner self.now) rows whole
            → refutes self.now q whole → refutes self.now q rows }
        ensures refuted { (q : Problem) (rows : List Row)
            → refutes self.now q rows → steps self.now q rows };
}

/// Writes nothing.
#[derive(Drop)]
pub struct Unlogged {
    owner: u8,
}

impl Unlogged {
    /// A logger that writes nothing of this owner.
    pub fn new(owner: u8) -> Unlogged
        ensures { result.owner ≡ owner }
    {
        Unlogged { owner }
    }
}

impl ProofLogger for Unlogged {
    type Told = Silent;

    ghost owner = { λ u. u.owner };

    ghost spare = { λ _. 1 };

    ghost writes = { λ _ q rows a. Unit {0} };

    ghost steps = { λ _ q rows. Unit {0} };

    ghost refutes = { λ _ q rows. Unit {0} };

    fn close(
        &mut self,
        _alloc: Global,
        _q: &Problem,
        _rows: &[Row],
        _told: &Silent,
        _account: &Account,
        _end: DeadEnd,
    ) -> Result<(), AllocError> {
        Ok(())
    }

    fn room(&mut self) -> Result<(), AllocError> {
        Ok(())
    }

    fn note(&mut self, _account: &Account, _level: u16, _value: u16, _row: u32) {}

    fn restart(&mut self) {}

    fn stays(&self) {}
}
