//! Who makes the loggers of a search, and of what they kept a proof.

ghost use Rattle.std.specs.Prelude.{◌≡◌, ℕ, ◌≤◌, Bool, true, false, [], List, length, All, IfOk};
ghost use Rattle.graph_theory.specs.Embedding.{Problem};
ghost use Rattle.search_theory.specs.Account.{fresh};
ghost use Rattle.nogood_book.specs.declared.row.Row.{Row as TheRow};
ghost use Rattle.proof_collection.specs.Proofs.{IsFinishedBy, IsProven};
ghost use Rattle.proof_collection.specs.Making.{HasNone, AreBy, AreOfOwners, IsFinisher};

use crate::proof::Proof;
use nogood_book::Row;
use proof_logger::{ProofLogger, Unlogged};
use std::alloc::{AllocError, Global};

/// Makes the loggers of a search, one for each owner, and of what they kept a proof.
pub trait ProofMaker<L: ProofLogger> {
    /// Of which problem.
    ghost problem: { Self → Problem };

    /// Whether a log was asked for.
    ghost logged: { Self → Bool };

    /// A logger that has been told nothing.
    fn logger(&self, alloc: Global, owner: u8) -> Result<L, AllocError>
        requires { owner ≤ 64 }
        ensures owner { IfOk result (λ l. L.owner l ≡ owner) }
        ensures writes { IfOk result (λ l. (rows : List TheRow) (pattern target budget : ℕ)
            → HasNone owner rows
            → L.writes l (problem self.now) rows (fresh pattern target budget)) };

    /// The proof where the root is refuted, of owner 0's log alone.
    fn of_root(&self, alloc: Global, log: L) -> Result<Proof, AllocError>
        requires owner { L.owner log ≡ 0 }
        requires refutes { L.refutes log (problem self.now) [] }
        ensures { IfOk result (IsProven (logged self.now) (problem self.now)) };

    /// The proof where a worker, the finisher, has refuted the problem, of the logs of all owners from 1 on and the rows that they share.
    fn of_workers(
        &self,
        alloc: Global,
        rows: &[Row],
        logs: Vec<L>,
        finisher: u8,
    ) -> Result<Proof, AllocError>
        requires few { length logs.items ≤ 64 }
        requires fit { length rows.now ≤ 4194304 }
        requires owners { AreOfOwners L.owner logs.items }
        requires authors { AreBy (length logs.items) rows.now }
        requires steps { All (λ l. L.steps l (problem self.now) rows.now) logs.items }
        requires some { 1 ≤ finisher }
        requires there { finisher ≤ length logs.items }
        requires refutes { IsFinisher (λ l. L.refutes l (problem self.now) rows.now)
            logs.items finisher }
        ensures proven { IfOk result (IsProven (logged self.now) (problem self.now)) }
        ensures finisher { IfOk result (IsFinishedBy finisher) };
}

/// Makes loggers that keep nothing.
#[derive(Drop)]
pub struct KeepsNothing<'a> {
    problem: &'a graph_rows::Problem,
}

impl<'a> KeepsNothing<'a> {
    /// For this problem.
    pub fn new(problem: &'a graph_rows::Problem) -> KeepsNothing<'a>
        ensures { result.problem.now ≡ problem.now }
    {
        KeepsNothing { problem }
    }
}

impl<'a> ProofMaker<Unlogged> for KeepsNothing<'a> {
    ghost problem = { λ m. m.problem.now };

    ghost logged = { λ m. false };

    fn logger(&self, _alloc: Global, owner: u8) -> Result<Unlogged, AllocError> {
        Ok(Unlogged::new(owner))
    }

    fn of_root(&self, _alloc: Global, _log: Unlogged) -> Result<Proof, AllocError> {
        Ok(Proof::Unlogged)
    }

    fn of_workers(
        &self,
        _alloc: Global,
        _rows: &[Row],
        _logs: Vec<Unlogged>,
        finisher: u8,
    ) -> Result<Proof, AllocError>
        ensures proven { IfOk result (IsProven false self.now.problem.now) }
        ensures finisher { IfOk result (IsFinishedBy finisher) }
    {
        Ok(Proof::Unlogged)
    }
}
