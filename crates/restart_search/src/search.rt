//! The loop of a search: down a path of guesses, back where one fails, and to the root at each cutoff.

ghost use Rattle.std.specs.Prelude.{◌≡◌, ◌≢◌, ℕ, ◌<◌, ◌≤◌, ◌^◌, true, length, None, OnOk, IfSome, vec_capacity};
ghost use Rattle.graph_theory.specs.Graph.{size};
ghost use Rattle.bit_rows.specs.BitRows.{words_for};
ghost use Rattle.domain_bits.specs.Removals.{in_domain};
ghost use Rattle.search_theory.specs.Account.{Honest, MayGuess};
ghost use Rattle.search_theory.specs.Bounds.{cutoff};
ghost use Rattle.search_theory.specs.Claims.{Ordered, Quiet, Single};
ghost use Rattle.search_theory.specs.Remaining.{remaining};
ghost use Rattle.nogood_book.specs.Rows as book;
ghost use Rattle.recorder.specs.Holding.{HoldsRows, KeepsSame};
ghost use Rattle.recorder.specs.Telling.{IsOf};
ghost use Rattle.restart_search.specs.Logging.{IfRefuted};
ghost use Rattle.restart_search.specs.Positions.{Acts, GoesOn, IsAtStage, IsSound, LogsAt};
ghost use Rattle.restart_search.specs.Searching.{Ends, FoundOf, IfInterrupted, IfMemory, IfStopped, IsNotStopped, Knows, Leaves};
ghost use Rattle.restart_search.specs.Sharing.{GoesWithinRun, IsSeatFor, LearnedInRuns, LearnedPart};
ghost use Rattle.restart_search.specs.Working.{IsWalkOf};

use crate::outcome::{Outcome, Stage};
use crate::position::{Position, Propagator, present};
use crate::restarting::{begin, begin_again};
use crate::sharing::Author;
use crate::value_choice::{ValueChoice, fill_untried, has_value};
use crate::vertex_choice::level_vertex;
use domain_bits::{Domains, Trail};
use fail_account::Account;
use graph_rows::Problem;
use nogood_book::{Book, Row, RowSeat};
use proof_logger::ProofLogger;
use propagation::{give, lower, propagate};
use recorder::{DeadEnd, Recorder};
use std::alloc::{AllocError, Global};
use worker_gate::{AnswerCell, Gate, Note, Point};

/// All that a search owns: where it stands, what consequences are taken with, and how values are chosen.
pub(crate) struct Walk<'a, T: Trail, R: Recorder> {
    /// Where it stands.
    pub position: Position<T, R>,
    /// What consequences are taken with.
    pub propagator: Propagator<'a>,
    /// The values of the level's vertex that are not refuted, as a row: filled anew at each turn.
    pub untried: Vec<u64>,
    /// How one of these is chosen.
    pub choice: ValueChoice,
}

impl<T: Trail, R: Recorder> Drop for Walk<'_, T, R> {
    /// In one call, for whoever lets one go.
    fn drop(self) {
        let Walk {
            position: _,
            propagator: _,
            untried: _,
            choice: _,
        } = self;
    }
}

impl<'a, T: Trail, R: Recorder> Walk<'a, T, R> {
    /// Its account; the rest is let go.
    pub(crate) fn into_account(self) -> Account
        ensures { result ≡ self.entry.position.account }
    {
        let Walk {
            position,
            propagator: _,
            untried: _,
            choice: _,
        } = self;
        let Position {
            domains: _,
            undecided: _,
            account,
            marks: _,
            root: _,
            told: _,
        } = position;
        account
    }
}

/// What a run looks to between its guesses: a cell for the first answer, if there is one, and a gate.
#[derive(Drop)]
pub(crate) struct Signals<'r, 'a, G: Gate> {
    /// The cell.
    pub cell: Option<&'r AnswerCell<'a>>,
    /// The gate, which is told of each guess and each restart, and asked whether it is closed.
    pub gate: &'r G,
}

/// Guesses the second of the pair for the first, and takes the consequences; where no embedding is left, logs the dead path and refutes
/// the guess.
fn guess<T: Trail, L: ProofLogger>(
    alloc: Global,
    q: &Problem,
    rows: &[Row],
    position: &mut Position<T, L::Told>,
    propagator: &mut Propagator,
    log: &mut L,
    pair: (u16, u16),
) -> Result<(), AllocError>
    requires problem { propagator.old.filters.problem ≡ q.now }
    requires sound { IsSound q.now position.old }
    requires acting { Acts propagator.old.filters.nogoods position.old }
    requires rows { book.Sound q.now rows.now }
    requires few { length rows.now < 2 ^ 32 }
    requires holds { HoldsRows rows.now propagator.old.filters.nogoods }
    requires logged { LogsAt q.now rows.now propagator.old.filters.nogoods position.old
        (L.Told.changes position.old.told) (L.writes log.old) }
    requires unspent { position.old.account.all < position.old.account.budget }
    requires before_cutoff { position.old.account.count < cutoff position.old.account.run }
    requires may { MayGuess q.now position.old.account pair.0 pair.1 }
    requires here { in_domain position.old.domains pair.0 pair.1 ≡ true }
    requires long { length propagator.old.waiting.items ≡ size q.now.pattern }
    requires room { size q.now.pattern ≤ vec_capacity position.old.marks }
    ensures problem { propagator.new.filters.problem ≡ q.now }
    ensures sound { OnOk result (IsSound q.now position.new) }
    ensures acting { OnOk result (Acts propagator.new.filters.nogoods position.new) }
    ensures kept { KeepsSame propagator.old.filters.nogoods propagator.new.filters.nogoods }
    ensures logged { OnOk result
        (LogsAt q.now rows.now propagator.new.filters.nogoods position.new
        (L.Told.changes position.new.told) (L.writes log.new)) }
    ensures owner { L.owner log.new ≡ L.owner log.old }
    ensures steps { L.steps log.new q.now rows.now }
    ensures went { GoesWithinRun q.now position.old.account position.new.account }
    ensures honest { Honest q.now position.new.account }
    ensures nearer { OnOk result
        (remaining position.new.account < remaining position.old.account) }
    ensures budget { position.new.account.budget ≡ position.old.account.budget }
    ensures run { position.new.account.run ≡ position.old.account.run }
    ensures root { position.new.root ≡ position.old.root }
    ensures room { vec_capacity position.old.marks ≤ vec_capacity position.new.marks }
    ensures long { length propagator.new.waiting.items ≡ size q.now.pattern }
{
    log.stays();
    let (p, t) = pair;
    let moment = present(&position.domains, &position.undecided);
    position.account.deepen(q, p, t);
    position.marks.push_reserved(moment);
    give(&mut position.domains, &mut position.told, p, t);
    propagator.waiting[usize::from(p)] = true;
    let depth = position.account.path().len();
    let members = position.undecided.members();
    propagator.filters.enter(depth, members.len());
    match propagate(
        q,
        &mut propagator.filters,
        &mut position.domains,
        &mut propagator.waiting,
        &mut position.undecided,
        &mut position.told,
    ) {
        Ok(()) => {
            let members = position.undecided.members();
            propagator.filters.count(members.len(), false);
            Ok(())
        }
        Err(failure) => {
            let members = position.undecided.members();
            propagator.filters.count(members.len(), true);
            lower(&mut propagator.waiting);
            let end = DeadEnd::Failed(failure);
            log.close(alloc, q, rows, &position.told, &position.account, end)?;
            position.take_back(q);
            Ok(())
        }
    }
}

/// The embedding that domains of one value are, which are in order.
fn found<'a, T: Trail>(alloc: Global, q: &Problem, d: &Domains<T>) -> Outcome<'a>
    requires is_of { IsOf q.now d.now }
    requires quiet { Quiet q.now (in_domain d.now) }
    requires ordered { Ordered q.now (in_domain d.now) }
    requires single { (p : ℕ) → p < size q.now.pattern → (t : ℕ) × Single (in_domain d.now) p t }
    ensures { FoundOf q.now result }
{
    let mut map: Vec<u32> = Vec::new(alloc);
    for p in 0..d.vertices() {
        match d.only(p) {
            Some(t) => {
                if map.push(u32::from(t)).is_err() {
                    return Outcome::NoMemory;
                }
            }
            None => unreachable!(),
        }
    }
    Outcome::Found(map)
}

/// A note of the cell that knows an answer to the problem, if the cell has one. Where it has an answer to another problem, it is
/// looked at no more. Cost: one load while the cell is empty; once there is an answer, that of `Problem::same`.
fn stop_at<'a>(cell: Option<&AnswerCell<'a>>, asks: &mut bool, q: &Problem) -> Option<Note<'a>>
    ensures knows { IfSome result (Knows q.now) }
    ensures alone { cell.entry ≡ None → result ≡ None }
    ensures cell { IfSome result (λ n. IfSome cell.entry (λ c. n.cell ≡ c.now)) }
{
    if !*asks {
        return None;
    }
    let cell = cell?;
    let mut note = cell.note();
    let answer = cell.seen(&mut note)?;
    if answer.answers(q) {
        return Some(note);
    }
    *asks = false;
    None
}

/// Searches from where the worker stands, until an embedding is found, none is left, the cell shows an answer, the budget is spent, or
/// the gate is closed.
pub(crate) fn run<'a, T: Trail, B: Book, L: ProofLogger, G: Gate>(
    alloc: Global,
    author: &Author<B>,
    signals: &Signals<'_, 'a, G>,
    stage: Stage,
    seat: &mut B::Seat,
    walk: &mut Walk<T, L::Told>,
    log: &mut L,
) -> Outcome<'a>
    requires fits { B.fits author.now.book.now seat.old }
    requires open { stage ≢ Stage.Over }
    requires seat { IsSeatFor author.now.problem.now author.now.owner (B.Seat.shows seat.old) }
    requires narrow { author.now.owner < 128 }
    requires walk { IsWalkOf author.now.problem.now walk.old }
    requires stands { IsAtStage stage author.now.problem.now walk.old.propagator.filters.nogoods
        walk.old.position (B.Seat.shows seat.old) }
    requires owner { L.owner log.old ≡ author.now.owner }
    requires logged { LogsAt author.now.problem.now (B.Seat.shows seat.old).seen
        walk.old.propagator.filters.nogoods walk.old.position
        (L.Told.changes walk.old.position.told) (L.writes log.old) }
    ensures fits { B.fits author.now.book.now seat.new }
    ensures seat { IsSeatFor author.now.problem.now author.now.owner (B.Seat.shows seat.new) }
    ensures ends { Ends result author.now.problem.now walk.new.position.account }
    ensures alone { signals.now.cell ≡ None → IsNotStopped result }
    ensures cell { IfStopped result (λ n. IfSome signals.now.cell (λ c. n.cell ≡ c.now)) }
    ensures closed { IfInterrupted result (G.may_close signals.now.gate.now) }
    ensures budget { walk.new.position.account.budget ≡ walk.old.position.account.budget }
    ensures honest { Honest author.now.problem.now walk.new.position.account }
    ensures learned { IfMemory result
        (LearnedInRuns author.now.problem.now walk.old.position.account walk.new.position.account
        (B.Seat.shows seat.old) (B.Seat.shows seat.new))
        (LearnedPart author.now.problem.now walk.old.position.account walk.new.position.account
        (B.Seat.shows seat.old) (B.Seat.shows seat.new)) }
    ensures begun { Leaves result
        (GoesOn author.now.problem.now walk.new.propagator.filters.nogoods walk.new.position
        (B.Seat.shows seat.new)) }
    ensures owner { L.owner log.new ≡ L.owner log.old }
    ensures logged { Leaves result
        (LogsAt author.now.problem.now (B.Seat.shows seat.new).seen
        walk.new.propagator.filters.nogoods walk.new.position
        (L.Told.changes walk.new.position.told) (L.writes log.new)) }
    ensures steps { L.steps log.new author.now.problem.now (B.Seat.shows seat.new).seen }
    ensures refutes { IfRefuted result
        (L.refutes log.new author.now.problem.now (B.Seat.shows seat.new).seen) }
    ensures walk { IsWalkOf author.now.problem.now walk.new }
{
    let q = author.problem;
    let number = u32::from(author.owner);
    let mut asks = true;
    match begin(
        alloc,
        author,
        stage,
        seat,
        &mut walk.position,
        &mut walk.propagator,
        log,
    ) {
        Ok(true) => (),
        Ok(false) => return Outcome::Refuted,
        Err(_) => return Outcome::NoMemory,
    }
    loop {
        log.stays();
        let Some(p) = level_vertex(
            q,
            &walk.position.domains,
            &walk.position.undecided,
            &walk.position.account,
        ) else {
            return found(alloc, q, &walk.position.domains);
        };
        fill_untried(
            &walk.position.domains,
            &walk.position.account,
            p,
            &mut walk.untried,
        );
        let rows = seat.rows();
        if !has_value(&walk.untried) {
            let end = DeadEnd::Exhausted(p);
            let told = &walk.position.told;
            let Ok(()) = log.close(alloc, q, rows, told, &walk.position.account, end) else {
                return Outcome::NoMemory;
            };
            if walk.position.account.path().is_empty() {
                return Outcome::Refuted;
            }
            walk.position.take_back(q);
            continue;
        }
        if let Some(note) = stop_at(signals.cell, &mut asks, q) {
            return Outcome::Stopped(note);
        }
        if walk.position.account.spent() {
            return Outcome::Spent;
        }
        if signals.gate.is_closed() {
            return Outcome::Interrupted;
        }
        if walk.position.account.at_cutoff() {
            signals.gate.at(number, Point::Restart);
            match begin_again(
                alloc,
                author,
                seat,
                &mut walk.position,
                &mut walk.propagator,
                log,
            ) {
                Ok(true) => continue,
                Ok(false) => return Outcome::Refuted,
                Err(_) => return Outcome::NoMemory,
            }
        }
        signals.gate.at(number, Point::Guess);
        let t = walk.choice.choose(&walk.untried);
        let Ok(()) = guess(
            alloc,
            q,
            seat.rows(),
            &mut walk.position,
            &mut walk.propagator,
            log,
            (p, t),
        ) else {
            return Outcome::NoMemory;
        };
    }
}
