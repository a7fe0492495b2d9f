//! Loggers that keep the lines of a log.

ghost use Rattle.std.specs.Prelude.{◌≡◌, ◌≤◌, true, length, All, IfOk};
ghost use Rattle.search_journal.specs.Lines.{Steps, Refutes};
ghost use Rattle.proof_collection.specs.Making.{AreBy, AreOfOwners, IsFinisher, AreOfLogs};
ghost use Rattle.proof_collection.specs.Parts.{ArePartsOf};
ghost use Rattle.proof_collection.specs.Proofs.{IsFinishedBy, IsProven};

use crate::maker::ProofMaker;
use crate::owner_log::OwnerLog;
use crate::proof::{Logged, Proof};
use dead_paths::Ground;
use graph_rows::Problem;
use journals::Journal;
use line_cache::LineCache;
use merged_log::may_be_merged;
use nogood_book::Row;
use search_journal::SearchJournal;
use std::alloc::{AllocError, Global};

/// Makes loggers that keep the lines of a log over the encoding of a problem, all with the same rows of values that share neighbours.
#[derive(Drop)]
pub struct KeepsLines<'a> {
    problem: &'a Problem,
    lines: &'a Ground<'a>,
    ghost same: { lines.now ≡ problem.now },
}

impl<'a> KeepsLines<'a> {
    /// For this problem, and its encoding with its rows.
    pub fn new(problem: &'a Problem, lines: &'a Ground<'a>) -> KeepsLines<'a>
        requires encoding { lines.now ≡ problem.now }
        ensures { result.problem.now ≡ problem.now }
    {
        KeepsLines { problem, lines }
    }
}

/// The journals of all owners, from 0 on, where owner 0 wrote nothing and the others these logs.
fn journals_of<'a>(alloc: Global, logs: Vec<OwnerLog<'a>>) -> Result<Vec<Journal>, AllocError>
    requires { length logs.items ≤ 64 }
    ensures { IfOk result (λ journals. AreOfLogs (λ l. l.kept.journal)
        logs.entry.items journals.items) }
{
    let mut journals = Vec::with_capacity(alloc, logs.len() + 1)?;
    journals.push_reserved(Journal::new(alloc, 0));
    for log in logs {
        journals.push_reserved(log.into_journal());
    }
    Ok(journals)
}

/// The proof that the parts of a log are. Cost: two looks at each journal.
fn proof_of(problem: &Problem, parts: Logged) -> Proof
    requires { ArePartsOf problem.now parts }
    ensures proven { IsProven true problem.now result }
    ensures finisher { IsFinishedBy parts.finisher result }
{
    let _pattern = problem.pattern();
    let _target = problem.target();
    let _less = problem.less();
    may_be_merged(&parts.journals);
    Proof::Logged(parts)
}

impl<'a> ProofMaker<OwnerLog<'a>> for KeepsLines<'a> {
    ghost problem = { λ m. m.problem.now };

    ghost logged = { λ m. true };

    fn logger(&self, alloc: Global, owner: u8) -> Result<OwnerLog<'a>, AllocError> {
        let maker = LineCache::new(alloc, self.problem, self.lines.encoding())?;
        let kept = SearchJournal::new(alloc, self.lines, owner, maker);
        Ok(OwnerLog { kept })
    }

    fn of_root(&self, alloc: Global, log: OwnerLog<'a>) -> Result<Proof, AllocError> {
        let journal = log.into_journal();
        let mut journals = Vec::with_capacity(alloc, 1)?;
        journals.push_reserved(journal);
        let parts = Logged {
            rows: Vec::new(alloc),
            journals,
            finisher: 0,
        };
        Ok(proof_of(self.problem, parts))
    }

    fn of_workers(
        &self,
        alloc: Global,
        rows: &[Row],
        logs: Vec<OwnerLog<'a>>,
        finisher: u8,
    ) -> Result<Proof, AllocError>
        requires few { length logs.items ≤ 64 }
        requires fit { length rows.now ≤ 4194304 }
        requires owners { AreOfOwners (λ l. l.kept.journal.owner) logs.items }
        requires authors { AreBy (length logs.items) rows.now }
        requires steps { All (λ l. Steps l.kept.lines.now l.kept.journal
            self.now.problem.now rows.now) logs.items }
        requires some { 1 ≤ finisher }
        requires there { finisher ≤ length logs.items }
        requires refutes { IsFinisher (λ l. Refutes l.kept.lines.now l.kept.journal
            self.now.problem.now rows.now) logs.items finisher }
        ensures proven { IfOk result (IsProven true self.now.problem.now) }
        ensures finisher { IfOk result (IsFinishedBy finisher) }
    {
        let rows = Vec::from_slice(alloc, rows)?;
        let journals = journals_of(alloc, logs)?;
        let parts = Logged {
            rows,
            journals,
            finisher,
        };
        Ok(proof_of(self.problem, parts))
    }
}
