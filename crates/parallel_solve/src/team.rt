//! The workers of one solve, and what they share, as they are before they run.

ghost use Rattle.std.specs.Prelude.{◌≡◌, [], ◌≤◌, ◌+◌, None, length, All, IfOk, OnOk, vec_capacity};
ghost use Rattle.graph_theory.specs.Graph.{size};
ghost use Rattle.search_theory.specs.Account.{fresh};
ghost use Rattle.recorder.specs.Telling.{IsOf};
ghost use Rattle.nogood_book.specs.Seats.{IsSeatOf};
ghost use Rattle.restart_search.specs.Searching.{AtRest};
ghost use Rattle.restart_search.specs.Logging.{IsTold};
ghost use Rattle.proof_collection.specs.Making.{AreOfOwners};
ghost use Rattle.parallel_solve.specs.Gathering.{HasMade};
ghost use Rattle.parallel_solve.specs.Solving.{IsWithinBounds};
ghost use Rattle.parallel_solve.specs.Teaming.{IsJob};
ghost use Rattle.parallel_solve.specs.Teams.{IsTeam};

use crate::answers::Settings;
use domain_bits::{Domains, WordTrail};
use fail_account::Account;
use graph_rows::Problem;
use nogood_book::{BookSeat, RowBook};
use pair_supports::{MOST_WORDS, PairKinds};
use proof_collection::ProofMaker;
use proof_logger::ProofLogger;
use propagation::Filters;
use recorder::Recorder;
use restart_search::{Equipment, Worker, WorkerSettings};
use std::alloc::{AllocError, Global};

/// What a solve reads from its root on: the problem with the kinds of its pairs, the maker of logs, and what was asked for.
#[derive(Drop)]
pub(crate) struct Root<'r, 'a, M> {
    pub(crate) alloc: Global,
    pub(crate) q: &'a Problem,
    pub(crate) kinds: &'a PairKinds<'a>,
    pub(crate) maker: &'r M,
    pub(crate) settings: &'r Settings,
}

/// The workers of a solve before they run, the book that they share with its first seat, and room for the account and the log of each.
#[derive(Drop)]
pub(crate) struct Team<'a, L: ProofLogger> {
    pub(crate) book: RowBook,
    pub(crate) first: BookSeat,
    pub(crate) jobs: Vec<Worker<'a, BookSeat, WordTrail, L>>,
    pub(crate) accounts: Vec<Account>,
    pub(crate) logs: Vec<L>,
}

/// What the worker of this number works with: domains and a record of what was told of its own, and its part of the room for rows of pairs.
fn equip<'a, M, R: Recorder>(
    root: &Root<'_, 'a, M>,
    domains: &Domains<WordTrail>,
    told: &R,
    number: u8,
) -> Result<Equipment<'a, WordTrail, R>, AllocError>
    requires kinds { root.now.kinds.now.problem ≡ root.now.q.now }
    requires is_of { IsOf root.now.q.now domains.now }
    requires rest { AtRest root.now.q.now [] domains.now }
    requires told { IsTold root.now.q.now None domains.now [] [] (R.changes told.now) }
    requires bounds { IsWithinBounds root.now.settings.now }
    requires some { 1 ≤ number }
    requires few { number ≤ 64 }
    ensures problem { IfOk result (λ e. e.problem ≡ root.now.q.now) }
    ensures number { IfOk result (λ e. e.number ≡ number) }
    ensures account { IfOk result
        (λ e. e.account
        ≡ fresh (size root.now.q.now.pattern) (size root.now.q.now.target)
        root.now.settings.now.budget) }
{
    let alloc = root.alloc;
    let copy = domains.copy(alloc)?;
    let words = MOST_WORDS / root.settings.threads as usize;
    let filters = Filters::new(alloc, root.q, root.kinds, words)?;
    let settings = WorkerSettings {
        number,
        seed: root.settings.seed,
        budget: root.settings.budget,
    };
    Equipment::new(alloc, root.q, copy, told.copy(alloc), filters, settings)
}

/// The worker of this number, its seat split from the first one. Where memory is refused behind that, nobody writes rows under this number.
fn make_job<'a, L: ProofLogger, M: ProofMaker<L>>(
    root: &Root<'_, 'a, M>,
    domains: &Domains<WordTrail>,
    told: &L::Told,
    number: u8,
    book: &RowBook,
    first: &mut BookSeat,
) -> Result<Worker<'a, BookSeat, WordTrail, L>, AllocError>
    requires kinds { root.now.kinds.now.problem ≡ root.now.q.now }
    requires is_of { IsOf root.now.q.now domains.now }
    requires rest { AtRest root.now.q.now [] domains.now }
    requires told { IsTold root.now.q.now None domains.now [] [] (L.Told.changes told.now) }
    requires maker { M.problem root.now.maker.now ≡ root.now.q.now }
    requires bounds { IsWithinBounds root.now.settings.now }
    requires some { 1 ≤ number }
    requires few { number ≤ 64 }
    requires book { book.now.problem ≡ root.now.q.now }
    requires of { IsSeatOf book.now first.old }
    requires made { HasMade number first.old }
    requires unseen { first.old.view.seen ≡ [] }
    ensures job { IfOk result
        (λ w. IsJob L.owner book.now root.now.q.now root.now.settings.now.budget w) }
    ensures number { IfOk result (λ w. w.number ≡ number) }
    ensures of { IsSeatOf book.now first.new }
    ensures unseen { first.new.view.seen ≡ [] }
    ensures made { OnOk result (HasMade (number + 1) first.new) }
{
    let alloc = root.alloc;
    let log = root.maker.logger(alloc, number)?;
    let seat = book.split(alloc, first, number)?;
    let equipment = equip(root, domains, told, number)?;
    Ok(Worker::new(equipment, seat, log))
}

/// Adds the workers of a solve. Where memory is refused, those that were made so far are there.
fn make_jobs<'a, L: ProofLogger, M: ProofMaker<L>>(
    root: &Root<'_, 'a, M>,
    domains: &Domains<WordTrail>,
    told: &L::Told,
    book: &RowBook,
    first: &mut BookSeat,
    jobs: &mut Vec<Worker<'a, BookSeat, WordTrail, L>>,
) -> Result<(), AllocError>
    requires kinds { root.now.kinds.now.problem ≡ root.now.q.now }
    requires is_of { IsOf root.now.q.now domains.now }
    requires rest { AtRest root.now.q.now [] domains.now }
    requires told { IsTold root.now.q.now None domains.now [] [] (L.Told.changes told.now) }
    requires maker { M.problem root.now.maker.now ≡ root.now.q.now }
    requires bounds { IsWithinBounds root.now.settings.now }
    requires book { book.now.problem ≡ root.now.q.now }
    requires of { IsSeatOf book.now first.old }
    requires made { HasMade 1 first.old }
    requires unseen { first.old.view.seen ≡ [] }
    requires none { jobs.old.items ≡ [] }
    ensures jobs { All
        (λ w. IsJob L.owner book.now root.now.q.now root.now.settings.now.budget w)
        jobs.new.items }
    ensures numbers { AreOfOwners (λ w. w.number) jobs.new.items }
    ensures count { OnOk result (length jobs.new.items ≡ root.now.settings.now.threads) }
    ensures of { IsSeatOf book.now first.new }
    ensures made { OnOk result (HasMade (root.now.settings.now.threads + 1) first.new) }
{
    for worker in 0..root.settings.threads {
        jobs.reserve(1)?;
        let job = make_job(root, domains, told, worker as u8 + 1, book, first)?;
        jobs.push_reserved(job);
    }
    Ok(())
}

/// Room for an account and a log of each of so many workers.
fn rooms<L: ProofLogger>(alloc: Global, threads: u32) -> Result<(Vec<Account>, Vec<L>), AllocError>
    ensures accounts { IfOk result (λ r. (r.0.items ≡ []) × (threads ≤ vec_capacity r.0)) }
    ensures logs { IfOk result (λ r. (r.1.items ≡ []) × (threads ≤ vec_capacity r.1)) }
{
    let accounts = Vec::with_capacity(alloc, threads as usize)?;
    let logs = Vec::with_capacity(alloc, threads as usize)?;
    Ok((accounts, logs))
}

/// The team of a solve, from the domains of the root, with what was told of them: each worker takes a copy, and they are dropped.
pub(crate) fn make_team<'a, L: ProofLogger, M: ProofMaker<L>>(
    root: &Root<'_, 'a, M>,
    domains: Domains<WordTrail>,
    told: L::Told,
) -> Result<Team<'a, L>, AllocError>
    requires kinds { root.now.kinds.now.problem ≡ root.now.q.now }
    requires is_of { IsOf root.now.q.now domains }
    requires rest { AtRest root.now.q.now [] domains }
    requires told { IsTold root.now.q.now None domains [] [] (L.Told.changes told) }
    requires maker { M.problem root.now.maker.now ≡ root.now.q.now }
    requires bounds { IsWithinBounds root.now.settings.now }
    ensures { IfOk result (IsTeam L.owner root.now.q.now root.now.settings.now.threads
        root.now.settings.now.budget) }
{
    let (accounts, logs) = rooms(root.alloc, root.settings.threads)?;
    let (book, mut first) = RowBook::new(root.alloc, root.q, root.settings.rows)?;
    let mut jobs = Vec::new(root.alloc);
    make_jobs(root, &domains, &told, &book, &mut first, &mut jobs)?;
    Ok(Team {
        book,
        first,
        jobs,
        accounts,
        logs,
    })
}
