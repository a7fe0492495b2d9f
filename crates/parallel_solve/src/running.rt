//! The runs of the workers of one solve: beside each other or in turn, and the further runs of those that were stopped.

ghost use Rattle.std.specs.Prelude.{◌≡◌, true, false, length, All, IfErr, IfOk};
ghost use Rattle.std.specs.List.{Any};
ghost use Rattle.restart_search.specs.Searching.{IsNotStopped};
ghost use Rattle.proof_collection.specs.Making.{AreOfOwners};
ghost use Rattle.parallel_solve.specs.Teaming.{IsJob, HasRun, HasRunAt, HaveEnded, Decides, IsInterrupted, AreSettled};

use crate::job::{Job, run_all};
use domain_bits::WordTrail;
use graph_rows::Problem;
use nogood_book::{BookSeat, RowBook};
use proof_logger::ProofLogger;
use restart_search::{Outcome, Worker};
use std::alloc::Global;
use std::thread::Threads;
use worker_gate::{AnswerCell, Gate};

/// What all workers of a solve read.
#[derive(Drop)]
struct Shared<'r, 'a, G: Gate> {
    alloc: Global,
    book: &'r RowBook,
    cell: &'r AnswerCell<'a>,
    gate: &'r G,
    problem: &'a Problem,
    budget: u64,
}

/// A worker that has run, and how its run ended.
#[derive(Drop)]
pub(crate) struct Done<'a, L: ProofLogger> {
    pub(crate) worker: Worker<'a, BookSeat, WordTrail, L>,
    pub(crate) outcome: Outcome<'a>,
}

/// Why the runs of workers are not heard.
#[derive(Clone, Copy, PartialEq, Eq, Debug)]
pub(crate) enum Unheard {
    /// Memory was refused.
    NoMemory,
    /// A closed gate ended one of them, and none decides the problem.
    Interrupted,
}

impl<'r, 'a, G: Gate, L: ProofLogger> Job<Shared<'r, 'a, G>>
    for Worker<'a, BookSeat, WordTrail, L> {
    type Done = Done<'a, L>;

    ghost ready = { λ c w. IsJob L.owner c.book.now c.problem.now c.budget w };

    ghost ran = { λ c w d. HasRunAt L.owner L.steps L.refutes (G.may_close c.gate.now) c.book.now
        c.problem.now c.budget d.worker d.outcome
        × (d.worker.number ≡ w.number) };

    fn go(self, shared: &Shared<'r, 'a, G>) -> Done<'a, L> {
        let mut worker = self;
        let outcome = worker.run(shared.alloc, shared.book, Some(shared.cell), shared.gate);
        Done { worker, outcome }
    }
}

/// Whether the outcome decides the problem.
fn decides(outcome: &Outcome) -> bool
    ensures yes { result ≡ true → Decides outcome.now }
    ensures no { result ≡ false → Decides outcome.now → ⊥ }
{
    match outcome {
        Outcome::Found(_) => true,
        Outcome::Refuted => true,
        Outcome::Spent => false,
        Outcome::Stopped(_) => false,
        Outcome::Interrupted => false,
        Outcome::NoMemory => false,
    }
}

/// Whether the run was interrupted.
fn was_interrupted(outcome: &Outcome) -> bool
    ensures yes { result ≡ true → IsInterrupted outcome.now }
    ensures no { result ≡ false → IsInterrupted outcome.now → ⊥ }
{
    match outcome {
        Outcome::Found(_) => false,
        Outcome::Refuted => false,
        Outcome::Spent => false,
        Outcome::Stopped(_) => false,
        Outcome::Interrupted => true,
        Outcome::NoMemory => false,
    }
}

/// Whether one of the workers decides the problem.
fn is_decided<'a, L: ProofLogger>(done: &[Done<'a, L>]) -> bool
    ensures { result ≡ true → Any (λ d. Decides d.outcome) done.now }
{
    for place in 0..done.len() {
        if decides(&done[place].outcome) {
            return true;
        }
    }
    false
}

/// Whether a closed gate ended one of the runs, and none decides the problem.
fn is_interrupted<'a, L: ProofLogger>(done: &[Done<'a, L>]) -> bool
    requires { AreSettled (λ d. d.outcome) done.now }
    ensures yes { result ≡ true → Any (λ d. IsInterrupted d.outcome) done.now }
    ensures no { result ≡ false → HaveEnded (λ d. d.outcome) done.now }
{
    if is_decided(done) {
        return false;
    }
    for place in 0..done.len() {
        if was_interrupted(&done[place].outcome) {
            return true;
        }
    }
    false
}

/// Runs a stopped worker again, without a cell, and says whether it decides the problem.
fn go_on<'a, G: Gate, L: ProofLogger>(
    alloc: Global,
    q: &Problem,
    budget: u64,
    book: &RowBook,
    gate: &G,
    one: &mut Done<'a, L>,
) -> bool
    requires { HasRunAt L.owner L.steps L.refutes (G.may_close gate.now) book.now q.now budget
        one.old.worker one.old.outcome }
    ensures ran { HasRunAt L.owner L.steps L.refutes (G.may_close gate.now) book.now q.now budget
        one.new.worker one.new.outcome }
    ensures number { one.new.worker.number ≡ one.old.worker.number }
    ensures alone { IsNotStopped one.new.outcome }
    ensures decided { result ≡ true → Decides one.new.outcome }
{
    match &one.outcome {
        Outcome::Stopped(_) => (),
        Outcome::Found(_) => return false,
        Outcome::Refuted => return false,
        Outcome::Spent => return false,
        Outcome::Interrupted => return false,
        Outcome::NoMemory => return false,
    }
    one.outcome = one.worker.run(alloc, book, None, gate);
    decides(&one.outcome)
}

/// Where no worker has decided the problem, runs those that were stopped again, in their order, until one decides.
fn finish<'a, G: Gate, L: ProofLogger>(
    alloc: Global,
    q: &Problem,
    budget: u64,
    book: &RowBook,
    gate: &G,
    done: &mut Vec<Done<'a, L>>,
)
    requires ran { All (λ d. HasRunAt L.owner L.steps L.refutes (G.may_close gate.now) book.now
        q.now budget d.worker d.outcome) done.old.items }
    requires numbers { AreOfOwners (λ d. d.worker.number) done.old.items }
    ensures ran { All (λ d. HasRunAt L.owner L.steps L.refutes (G.may_close gate.now) book.now
        q.now budget d.worker d.outcome) done.new.items }
    ensures numbers { AreOfOwners (λ d. d.worker.number) done.new.items }
    ensures count { length done.new.items ≡ length done.old.items }
    ensures settled { AreSettled (λ d. d.outcome) done.new.items }
{
    if is_decided(done) {
        return;
    }
    for place in 0..done.len() {
        if go_on(alloc, q, budget, book, gate, &mut done[place]) {
            return;
        }
    }
}

/// Runs all workers beside each other; where none of them has decided the problem, then those that were stopped, one after another.
/// Whoever comes to a closed gate ends its run.
pub(crate) fn run_beside<'a, R: Threads + Sync, G: Gate + Sync, L: ProofLogger + Send>(
    rt: &R,
    alloc: Global,
    q: &'a Problem,
    budget: u64,
    book: &RowBook,
    gate: &G,
    jobs: Vec<Worker<'a, BookSeat, WordTrail, L>>,
) -> Result<Vec<Done<'a, L>>, Unheard>
where
    L::Told: Send,
    requires jobs { All (λ w. IsJob L.owner book.now q.now budget w) jobs.items }
    requires numbers { AreOfOwners (λ w. w.number) jobs.items }
    ensures ran { IfOk result (λ v. All
        (λ d. HasRun L.owner L.steps L.refutes book.now q.entry.now budget d.worker d.outcome)
        v.items) }
    ensures numbers { IfOk result (λ v. AreOfOwners (λ d. d.worker.number) v.items) }
    ensures count { IfOk result (λ v. length v.items ≡ length jobs.entry.items) }
    ensures ended { IfOk result (λ v. HaveEnded (λ d. d.outcome) v.items) }
    ensures closed { IfErr result (λ why. why ≡ Unheard.Interrupted → G.may_close gate.now) }
{
    let cell = AnswerCell::new(alloc);
    let shared = Shared {
        alloc,
        book,
        cell: &cell,
        gate,
        problem: q,
        budget,
    };
    let Ok(mut done) = run_all(rt, &shared, jobs) else {
        return Err(Unheard::NoMemory);
    };
    finish(alloc, q, budget, book, gate, &mut done);
    if is_interrupted(&done) {
        return Err(Unheard::Interrupted);
    }
    Ok(done)
}

/// Runs a worker by itself, to its end or to a closed gate.
fn run_to_end<'a, G: Gate, L: ProofLogger>(
    alloc: Global,
    q: &Problem,
    budget: u64,
    book: &RowBook,
    gate: &G,
    job: Worker<'a, BookSeat, WordTrail, L>,
) -> Done<'a, L>
    requires { IsJob L.owner book.now q.now budget job }
    ensures ran { HasRunAt L.owner L.steps L.refutes (G.may_close gate.now) book.now q.now budget
        result.worker result.outcome }
    ensures number { result.worker.number ≡ job.entry.number }
    ensures alone { IsNotStopped result.outcome }
{
    let mut worker = job;
    let outcome = worker.run(alloc, book, None, gate);
    Done { worker, outcome }
}

/// Runs all workers in turn, each to its end or to a closed gate.
pub(crate) fn run_in_turn<'a, G: Gate, L: ProofLogger>(
    alloc: Global,
    q: &Problem,
    budget: u64,
    book: &RowBook,
    gate: &G,
    jobs: Vec<Worker<'a, BookSeat, WordTrail, L>>,
) -> Result<Vec<Done<'a, L>>, Unheard>
    requires jobs { All (λ w. IsJob L.owner book.now q.now budget w) jobs.items }
    requires numbers { AreOfOwners (λ w. w.number) jobs.items }
    ensures ran { IfOk result (λ v. All
        (λ d. HasRun L.owner L.steps L.refutes book.now q.now budget d.worker d.outcome)
        v.items) }
    ensures numbers { IfOk result (λ v. AreOfOwners (λ d. d.worker.number) v.items) }
    ensures count { IfOk result (λ v. length v.items ≡ length jobs.entry.items) }
    ensures ended { IfOk result (λ v. HaveEnded (λ d. d.outcome) v.items) }
    ensures closed { IfErr result (λ why. why ≡ Unheard.Interrupted → G.may_close gate.now) }
{
    let Ok(mut done) = Vec::with_capacity(alloc, jobs.len()) else {
        return Err(Unheard::NoMemory);
    };
    for job in jobs {
        done.push_reserved(run_to_end(alloc, q, budget, book, gate, job));
    }
    if is_interrupted(&done) {
        return Err(Unheard::Interrupted);
    }
    Ok(done)
}
