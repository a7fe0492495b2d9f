//! A worker: one search beside others over the same problem, which share a book of nogoods and a cell for the first answer.

ghost use Rattle.std.specs.Prelude.{◌≡◌, ℕ, [], ◌^◌, ◌<◌, ◌≤◌, ◌≢◌, None, IfOk, IfSome, length, vec_capacity};
ghost use Rattle.graph_theory.specs.Graph.{size};
ghost use Rattle.graph_theory.specs.Embedding.{Embeds};
ghost use Rattle.domain_bits.specs.Removals.{in_domain};
ghost use Rattle.bit_rows.specs.BitRows.{words_for};
ghost use Rattle.search_theory.specs.Account.{fresh, Honest};
ghost use Rattle.search_theory.specs.Claims.{Quiet};
ghost use Rattle.recorder.specs.Telling.{IsOf};
ghost use Rattle.propagation.specs.Learning.{unlearned};
ghost use Rattle.propagation.specs.Propagation.{LeavesPast};
ghost use Rattle.restart_search.specs.Sharing.{IsSeatFor, LearnedInRuns, LearnedPart};
ghost use Rattle.restart_search.specs.Logging.{IsTold, IfRefuted};
ghost use Rattle.restart_search.specs.Searching.{AtRest, Ends, IfInterrupted, IfMemory, IfStopped, IsNotStopped, IsPaused, IsTrueFor, Leaves, stage_after};

use crate::outcome::{Outcome, Stage, stage_of};
use crate::position::{Moment, Position, Propagator, present};
use crate::search::{Signals, Walk, run};
use crate::sharing::Author;
use crate::value_choice::ValueChoice;
use bit_rows::words_for;
use domain_bits::{Domains, Trail};
use fail_account::Account;
use graph_rows::Problem;
use nogood_book::{Book, RowSeat};
use proof_logger::ProofLogger;
use propagation::Filters;
use recorder::Recorder;
use sparse_set::SparseSet;
use std::alloc::{AllocError, Global};
use std::marker::Model;
use worker_gate::{Answer, AnswerCell, Gate, Point};

/// What tells one worker from another, and what it may spend.
#[derive(Clone, Copy, Debug)]
pub struct WorkerSettings {
    /// The worker's number, from 1.
    pub number: u8,
    /// Where all streams of words begin: a worker takes that of its number.
    pub seed: u64,
    /// How many fails it may count.
    pub budget: u64,
}

/// What a worker searches with, before it has a seat: all of its memory.
#[derive(Drop)]
pub struct Equipment<'a, T: Trail, R: Recorder> {
    problem: &'a Problem,
    number: u8,
    walk: Walk<'a, T, R>,
}

impl<'a, T: Trail, R: Recorder> Model for Equipment<'a, T, R> {
    ghost use Rattle.std.specs.Prelude.{◌≡◌};
    ghost use Rattle.restart_search.specs.Positions.{IsFresh, ToldAt};
    ghost use Rattle.restart_search.specs.Working.{Equipped, Outfit};

    ghost Value = { Outfit };

    ghost view = { λ e. record {
      problem = e.problem.now;
      number = e.number;
      domains = e.walk.position.domains;
      account = e.walk.position.account;
    } };

    ghost invariant = { λ e. Equipped e.problem.now e.number e.walk
        × IsFresh e.problem.now e.walk.propagator.filters.nogoods e.walk.position
        × ToldAt e.problem.now e.walk.propagator.filters.nogoods e.walk.position
        (R.changes e.walk.position.told) };
}

/// The set of the vertices that have more than one value in domains at rest. Cost: one step for each vertex.
fn undecided_of<T: Trail>(
    alloc: Global,
    q: &Problem,
    d: &Domains<T>,
) -> Result<SparseSet, AllocError>
    requires is_of { IsOf q.now d.now }
    requires quiet { Quiet q.now (in_domain d.now) }
    ensures { IfOk result (LeavesPast q.now d.now) }
{
    let mut undecided = SparseSet::new(alloc, d.vertices())?;
    for p in 0..d.vertices() {
        if d.size(p) != 1 {
            continue;
        }
        undecided.remove(p);
    }
    Ok(undecided)
}

/// What a walk has beside its domains and its filters, as it is before the first guess.
#[derive(Drop)]
struct WalkRoom {
    /// What is spent, with an empty path.
    account: Account,
    /// Room for a mark of each level.
    marks: Vec<Moment>,
    /// For each vertex whether it waits for its consequences: none does.
    waiting: Vec<bool>,
    /// A row of values, to be filled at each turn.
    untried: Vec<u64>,
    /// How values are chosen.
    choice: ValueChoice,
    /// The vertices that are not past.
    undecided: SparseSet,
}

/// Room for a walk that begins with these domains. Cost: that of its account and of its choice of values, and one step for each vertex.
fn walk_room<T: Trail>(
    alloc: Global,
    q: &Problem,
    d: &Domains<T>,
    settings: WorkerSettings,
) -> Result<WalkRoom, AllocError>
    requires is_of { IsOf q.now d.now }
    requires quiet { Quiet q.now (in_domain d.now) }
    requires some { 1 ≤ settings.number }
    requires budget { settings.budget < 2 ^ 63 }
    ensures account { IfOk result
        (λ r. r.account ≡ fresh (size q.now.pattern) (size q.now.target) settings.budget) }
    ensures honest { IfOk result (λ r. Honest q.now r.account) }
    ensures none { IfOk result (λ r. r.marks.items ≡ []) }
    ensures room { IfOk result (λ r. size q.now.pattern ≤ vec_capacity r.marks) }
    ensures long { IfOk result (λ r. length r.waiting.items ≡ size q.now.pattern) }
    ensures words { IfOk result (λ r. length r.untried.items ≡ words_for (size q.now.target)) }
    ensures degrees { IfOk result (λ r. r.choice ≡ size q.now.target) }
    ensures left { IfOk result (λ r. LeavesPast q.now d.now r.undecided) }
{
    let account = Account::new(alloc, q, settings.budget)?;
    let vertices = usize::from(q.pattern().size());
    let marks = Vec::with_capacity(alloc, vertices)?;
    let waiting = vec![in alloc; false; vertices]?;
    let words = words_for(usize::from(q.target().size()));
    let untried = vec![in alloc; 0u64; words]?;
    let choice = ValueChoice::new(alloc, q, settings.seed, settings.number)?;
    let undecided = undecided_of(alloc, q, d)?;
    Ok(WalkRoom {
        account,
        marks,
        waiting,
        untried,
        choice,
        undecided,
    })
}

impl<'a, T: Trail, R: Recorder> Equipment<'a, T, R> {
    /// The equipment of one worker, with what was told of the domains. It reserves a mark for each pattern vertex; the worker's choices of
    /// values are those of its own stream.
    pub fn new(
        alloc: Global,
        q: &'a Problem,
        domains: Domains<T>,
        told: R,
        filters: Filters<'a>,
        settings: WorkerSettings,
    ) -> Result<Equipment<'a, T, R>, AllocError>
        requires is_of { IsOf q.now domains }
        requires rest { AtRest q.now [] domains }
        requires told { IsTold q.now None domains [] [] (R.changes told) }
        requires filters { filters ≡ unlearned q.now }
        requires some { 1 ≤ settings.number }
        requires few { settings.number ≤ 64 }
        requires budget { settings.budget < 2 ^ 63 }
        ensures problem { IfOk result (λ e. e.problem ≡ q.entry.now) }
        ensures number { IfOk result (λ e. e.number ≡ settings.number) }
        ensures account { IfOk result
            (λ e. e.account
            ≡ fresh (size q.entry.now.pattern) (size q.entry.now.target) settings.budget) }
    {
        let WalkRoom {
            account,
            marks,
            waiting,
            untried,
            choice,
            undecided,
        } = walk_room(alloc, q, &domains, settings)?;
        let root = present(&domains, &undecided);
        let position = Position {
            domains,
            undecided,
            account,
            marks,
            root,
            told,
        };
        let walk = Walk {
            position,
            propagator: Propagator { filters, waiting },
            untried,
            choice,
        };
        Ok(Equipment {
            problem: q,
            number: settings.number,
            walk,
        })
    }
}

/// One search, with where it stands, its seat at the book, and who is told of it.
pub struct Worker<'a, S: RowSeat + Drop, T: Trail, L: ProofLogger> {
    problem: &'a Problem,
    number: u8,
    seat: S,
    log: L,
    walk: Walk<'a, T, L::Told>,
    stage: Stage,
}

impl<S: RowSeat + Drop, T: Trail, L: ProofLogger> Drop for Worker<'_, S, T, L> {
    /// In one call, for whoever lets one go.
    fn drop(self) {
        let Worker {
            problem: _,
            number: _,
            seat: _,
            log: _,
            walk: _,
            stage: _,
        } = self;
    }
}

impl<'a, S: RowSeat + Drop, T: Trail, L: ProofLogger> Model for Worker<'a, S, T, L> {
    ghost use Rattle.std.specs.Prelude.{◌≡◌};
    ghost use Rattle.restart_search.specs.Searching.{Search};
    ghost use Rattle.restart_search.specs.Sharing.{IsSeatFor};
    ghost use Rattle.restart_search.specs.Logging.{LoggedAt};
    ghost use Rattle.restart_search.specs.Positions.{IsAtStage, LogsAt};
    ghost use Rattle.restart_search.specs.Working.{Equipped};

    ghost Value = { Search S L };

    ghost view = { λ w. record {
      problem = w.problem.now;
      number = w.number;
      seat = w.seat;
      facts = S.shows w.seat;
      log = w.log;
      domains = w.walk.position.domains;
      account = w.walk.position.account;
      stage = w.stage;
    } };

    ghost invariant = { λ w. Equipped w.problem.now w.number w.walk
        × IsSeatFor w.problem.now w.number (S.shows w.seat)
        × IsAtStage w.stage w.problem.now w.walk.propagator.filters.nogoods w.walk.position
        (S.shows w.seat) × (L.owner w.log ≡ w.number)
        × LoggedAt w.stage (LogsAt w.problem.now
        (S.shows w.seat).seen w.walk.propagator.filters.nogoods w.walk.position
        (L.Told.changes w.walk.position.told) (L.writes w.log)) (L.steps w.log w.problem.now
        (S.shows w.seat).seen) };
}

impl<'a, S: RowSeat + Drop, T: Trail, L: ProofLogger> Worker<'a, S, T, L> {
    /// A worker that has not begun, at this seat of its own. It takes no memory.
    pub fn new(equipment: Equipment<'a, T, L::Told>, seat: S, log: L) -> Worker<'a, S, T, L>
        requires seat { IsSeatFor equipment.problem equipment.number (S.shows seat) }
        requires owner { L.owner log ≡ equipment.number }
        requires writes { L.writes log equipment.problem (S.shows seat).seen equipment.account }
        ensures problem { result.problem ≡ equipment.entry.problem }
        ensures number { result.number ≡ equipment.entry.number }
        ensures seat { result.seat ≡ seat }
        ensures facts { result.facts ≡ S.shows seat }
        ensures log { result.log ≡ log }
        ensures account { result.account ≡ equipment.entry.account }
        ensures stage { result.stage ≡ Stage.Fresh }
    {
        let Equipment {
            problem,
            number,
            walk,
        } = equipment;
        Worker {
            problem,
            number,
            seat,
            log,
            walk,
            stage: Stage::Fresh,
        }
    }

    /// The worker's number, from 1, which is also the owner of its seat.
    pub fn number(&self) -> u8
        ensures { result ≡ self.now.number }
    {
        self.number
    }

    /// Searches to an outcome, and offers what it decides to the cell; a refused offer changes nothing. Before each guess it looks at
    /// the cell, then at its budget, then at the gate. After `Stopped` and `Interrupted` it may run again, from the guess that was
    /// due. At each restart it publishes all that its position has refuted, in order, and at no other
    /// moment anything; the rest is lacking only where the seat takes no further row, or memory was refused at the last restart.
    pub fn run<B: Book<Seat = S>, G: Gate>(
        &mut self,
        alloc: Global,
        book: &B,
        cell: Option<&AnswerCell<'a>>,
        gate: &G,
    ) -> Outcome<'a>
        requires fits { B.fits book.now self.old.seat }
        requires open { self.old.stage ≢ Stage.Over }
        ensures fits { B.fits book.now self.new.seat }
        ensures facts { self.new.facts ≡ S.shows self.new.seat }
        ensures seat { IsSeatFor self.new.problem self.new.number self.new.facts }
        ensures ends { Ends result self.new.problem self.new.account }
        ensures alone { cell.entry ≡ None → IsNotStopped result }
        ensures cell { IfStopped result (λ n. IfSome cell.entry (λ c. n.cell ≡ c.now)) }
        ensures closed { IfInterrupted result (G.may_close gate.now) }
        ensures problem { self.new.problem ≡ self.old.problem }
        ensures number { self.new.number ≡ self.old.number }
        ensures owner { L.owner self.new.log ≡ L.owner self.old.log }
        ensures steps { L.steps self.new.log self.new.problem self.new.facts.seen }
        ensures writes { Leaves result
            (L.writes self.new.log self.new.problem self.new.facts.seen self.new.account) }
        ensures refutes { IfRefuted result
            (L.refutes self.new.log self.new.problem self.new.facts.seen) }
        ensures budget { self.new.account.budget ≡ self.old.account.budget }
        ensures honest { Honest self.new.problem self.new.account }
        ensures stage { self.new.stage ≡ stage_after result }
        ensures paused { Leaves result (IsPaused self.new) }
        ensures learned { IfMemory result
            (LearnedInRuns self.new.problem self.old.account self.new.account self.old.facts
            self.new.facts)
            (LearnedPart self.new.problem self.old.account self.new.account self.old.facts
            self.new.facts) }
    {
        let author = Author {
            problem: self.problem,
            owner: self.number,
            book,
        };
        let signals = Signals { cell, gate };
        gate.at(u32::from(self.number), Point::Start);
        let outcome = run(
            alloc,
            &author,
            &signals,
            self.stage,
            &mut self.seat,
            &mut self.walk,
            &mut self.log,
        );
        self.stage = stage_of(&outcome);
        offer(alloc, self.problem, cell, &outcome);
        outcome
    }

    /// The account, which tells where the search stands and how often it failed, the seat, and the log.
    pub fn into_parts(self) -> (Account, S, L)
        ensures account { result.0 ≡ self.entry.account }
        ensures seat { result.1 ≡ self.entry.seat }
        ensures log { result.2 ≡ self.entry.log }
    {
        let Worker {
            problem: _,
            number: _,
            seat,
            log,
            walk,
            stage: _,
        } = self;
        (walk.into_account(), seat, log)
    }
}

/// Offers what was decided to the cell, if there is one.
fn offer<'a>(alloc: Global, q: &'a Problem, cell: Option<&AnswerCell<'a>>, outcome: &Outcome<'a>)
    requires { IsTrueFor q.now outcome.now }
{
    let Some(cell) = cell else {
        return;
    };
    match outcome {
        Outcome::Found(map) => offer_map(alloc, q, cell, map),
        Outcome::Refuted => give(alloc, cell, Answer::no_embedding(q)),
        Outcome::Spent => (),
        Outcome::Stopped(_) => (),
        Outcome::Interrupted => (),
        Outcome::NoMemory => (),
    }
}

/// Offers a copy of the embedding, if there is memory for it.
fn offer_map<'a>(alloc: Global, q: &'a Problem, cell: &AnswerCell<'a>, map: &[u32])
    requires { Embeds q.now map.now }
{
    match Vec::from_slice(alloc, map) {
        Ok(copy) => give(alloc, cell, Answer::embedding(q, copy)),
        Err(_) => (),
    }
}

/// Gives an answer to the cell, which keeps it if it has none and there is memory for it.
fn give<'a>(alloc: Global, cell: &AnswerCell<'a>, answer: Answer<'a>) {
    let mut note = cell.note();
    let _offered = cell.offer(alloc, &mut note, answer);
}
