//! What a search gives its lines to.

ghost use Rattle.std.specs.Prelude.{◌≡◌, ℕ, ◌≤◌, List, [], Option, None, OnOk, IfOk, is_some};
ghost use Rattle.log_theory.specs.declared.step.Step.{Step};
ghost use Rattle.log_theory.specs.LogText.{IsName};
ghost use Rattle.journals.specs.Keeping.{IsLine, Keeps, KeepsRest, Notes};

use log_theory::{Name, Step};
use std::alloc::AllocError;

/// Keeps lines under the names of their owner, and notes of rows.
pub trait Keeper: Drop {
    ghost use Rattle.log_theory.specs.declared.step.Step.{Step};

    /// Whose lines they are.
    ghost owner: { Self → ℕ };

    /// The lines so far, or none where lines are not kept.
    ghost kept: { Self → Option (List Step) };

    /// For each row that was noted the number of its line.
    ghost notes: { Self → List (ℕ × ℕ) };

    /// For how many more notes there is room.
    ghost spare: { Self → ℕ };

    /// Whether lines are kept, so that they need to be made. It is always the same for one type.
    fn is_on(&self) -> bool
        ensures { result ≡ is_some (kept self.now) };

    /// Keeps a line, whatever name it bears, under the next name of the owner, which is the answer. At a refusal all is as it was.
    fn keep(&mut self, step: Step) -> Result<Name, AllocError>
        requires { IsLine step }
        ensures kept { Keeps result (owner self.old) (kept self.old) (kept self.new) step }
        ensures name { IfOk result IsName }
        ensures rest { KeepsRest owner notes spare self.old self.new };

    /// Makes room for a note, which then takes no memory.
    fn room(&mut self) -> Result<(), AllocError>
        ensures made { OnOk result (1 ≤ spare self.new) }
        ensures kept { kept self.new ≡ kept self.old }
        ensures owner { owner self.new ≡ owner self.old }
        ensures notes { notes self.new ≡ notes self.old };

    /// Notes that the line of this name is the clause of the row.
    fn note(&mut self, row: u32, name: Name)
        requires { 1 ≤ spare self.old }
        ensures noted { Notes (kept self.old) (notes self.old) (notes self.new) row name.number }
        ensures kept { kept self.new ≡ kept self.old }
        ensures owner { owner self.new ≡ owner self.old };
}

/// Keeps nothing. Its names all have one number, since nobody reads them.
#[derive(Drop)]
pub struct NoLog {
    owner: u8,
    ghost few: { owner ≤ 64 },
}

impl NoLog {
    /// Nothing kept of this owner.
    pub fn new(owner: u8) -> NoLog
        requires { owner ≤ 64 }
        ensures { result.owner ≡ owner }
    {
        NoLog { owner }
    }
}

impl Keeper for NoLog {
    ghost owner = { λ k. k.owner };

    ghost kept = { λ k. None };

    ghost notes = { λ k. [] };

    ghost spare = { λ k. 1 };

    fn is_on(&self) -> bool {
        false
    }

    fn keep(&mut self, _step: Step) -> Result<Name, AllocError> {
        Ok(Name {
            owner: self.owner,
            number: 1,
        })
    }

    fn room(&mut self) -> Result<(), AllocError> {
        Ok(())
    }

    fn note(&mut self, _row: u32, _name: Name) {}
}
