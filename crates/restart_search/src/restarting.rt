//! How a run begins: what the position has refuted goes to the book, and what the book has is taken up at the root.

ghost use Rattle.std.specs.Prelude.{◌≡◌, ◌≢◌, ◌<◌, ◌≤◌, ◌⊎◌, length, take, IfOk, OnOk, vec_capacity};
ghost use Rattle.graph_theory.specs.Graph.{size};
ghost use Rattle.search_theory.specs.Account.{Honest, restarted};
ghost use Rattle.search_theory.specs.Bounds.{cutoff};
ghost use Rattle.search_theory.specs.Remaining.{remaining};
ghost use Rattle.nogood_book.specs.Facts.{CaughtUp, Grew};
ghost use Rattle.recorder.specs.Holding.{HoldsRows};
ghost use Rattle.restart_search.specs.Positions.{BeginsAt, GoesOn, IsAtStage, LogsAt, LogsOnAt, StandsAtRoot, TookUpAt};
ghost use Rattle.restart_search.specs.Sharing.{IsSeatFor, HasLearned, LearnsFirst, learned_by, refuted_in};

use crate::outcome::Stage;
use crate::position::{Position, Propagator, present};
use crate::sharing::{Author, publish_position};
use domain_bits::Trail;
use nogood_book::{Book, RowSeat};
use proof_logger::ProofLogger;
use propagation::{lower, propagate_again};
use recorder::{DeadEnd, Recorder};
use std::alloc::{AllocError, Global};

/// Takes up what the book has: the nogoods among the rows from a place on, those before it being kept, and what follows at the root.
/// False where no embedding is left. Cost: that of `Filters::take_rows` and of the propagation.
fn take_up_book<T: Trail, B: Book, L: ProofLogger>(
    alloc: Global,
    author: &Author<B>,
    seat: &mut B::Seat,
    taken: usize,
    position: &mut Position<T, L::Told>,
    propagator: &mut Propagator,
    log: &mut L,
) -> Result<bool, AllocError>
    requires fits { B.fits author.now.book.now seat.old }
    requires seat { (B.Seat.shows seat.old).problem ≡ author.now.problem.now }
    requires owner { L.owner log.old ≡ (B.Seat.shows seat.old).owner }
    requires logged { LogsAt author.now.problem.now (B.Seat.shows seat.old).seen
        propagator.old.filters.nogoods position.old (L.Told.changes position.old.told)
        (L.writes log.old) }
    requires begun { taken ≤ length (B.Seat.shows seat.old).seen }
    requires problem { propagator.old.filters.problem ≡ author.now.problem.now }
    requires holds { HoldsRows (take taken (B.Seat.shows seat.old).seen)
        propagator.old.filters.nogoods }
    requires at_root { StandsAtRoot author.now.problem.now position.old }
    requires long { length propagator.old.waiting.items ≡ size author.now.problem.now.pattern }
    ensures fits { B.fits author.now.book.now seat.new }
    ensures caught { CaughtUp (B.Seat.shows seat.old) (B.Seat.shows seat.new) }
    ensures problem { propagator.new.filters.problem ≡ author.now.problem.now }
    ensures took { IfOk result
        (λ some. TookUpAt some author.now.problem.now propagator.new.filters.nogoods position.new
        (B.Seat.shows seat.new).seen) }
    ensures owner { L.owner log.new ≡ L.owner log.old }
    ensures logged { IfOk result
        (λ some. LogsOnAt some author.now.problem.now (B.Seat.shows seat.new).seen
        propagator.new.filters.nogoods position.new (L.Told.changes position.new.told)
        (L.writes log.new) (L.refutes log.new)) }
    ensures steps { L.steps log.new author.now.problem.now (B.Seat.shows seat.new).seen }
    ensures account { position.new.account ≡ position.old.account }
    ensures marks { position.new.marks ≡ position.old.marks }
    ensures long { length propagator.new.waiting.items ≡ size author.now.problem.now.pattern }
{
    let q = author.problem;
    author.book.catch_up(seat);
    log.stays();
    let rows = seat.rows();
    propagator.filters.take_rows(alloc, q, rows, taken)?;
    match propagate_again(
        q,
        &mut propagator.filters,
        &mut position.domains,
        &mut propagator.waiting,
        &mut position.undecided,
        &mut position.told,
    ) {
        Ok(()) => {
            position.root = present(&position.domains, &position.undecided);
            Ok(true)
        }
        Err(failure) => {
            lower(&mut propagator.waiting);
            let end = DeadEnd::Failed(failure);
            log.close(alloc, q, rows, &position.told, &position.account, end)?;
            Ok(false)
        }
    }
}

/// Begins the next run: what the position has refuted is published, and what the book has is taken up at the root. False where that
/// leaves no embedding. Cost: that of `publish_position`, of `restart` and of taking up the book.
pub(crate) fn begin_again<T: Trail, B: Book, L: ProofLogger>(
    alloc: Global,
    author: &Author<B>,
    seat: &mut B::Seat,
    position: &mut Position<T, L::Told>,
    propagator: &mut Propagator,
    log: &mut L,
) -> Result<bool, AllocError>
    requires fits { B.fits author.now.book.now seat.old }
    requires seat { IsSeatFor author.now.problem.now author.now.owner (B.Seat.shows seat.old) }
    requires owner { L.owner log.old ≡ author.now.owner }
    requires logged { LogsAt author.now.problem.now (B.Seat.shows seat.old).seen
        propagator.old.filters.nogoods position.old (L.Told.changes position.old.told)
        (L.writes log.old) }
    requires narrow { author.now.owner < 128 }
    requires problem { propagator.old.filters.problem ≡ author.now.problem.now }
    requires begun { GoesOn author.now.problem.now propagator.old.filters.nogoods position.old
        (B.Seat.shows seat.old) }
    requires due { position.old.account.count ≡ cutoff position.old.account.run }
    requires long { length propagator.old.waiting.items ≡ size author.now.problem.now.pattern }
    ensures fits { B.fits author.now.book.now seat.new }
    ensures seat { IsSeatFor author.now.problem.now author.now.owner (B.Seat.shows seat.new) }
    ensures problem { propagator.new.filters.problem ≡ author.now.problem.now }
    ensures begun { IfOk result
        (λ some. BeginsAt some author.now.problem.now propagator.new.filters.nogoods position.new
        (B.Seat.shows seat.new)) }
    ensures learned { OnOk result
        (HasLearned position.old.account (B.Seat.shows seat.old) (B.Seat.shows seat.new)) }
    ensures part { LearnsFirst author.now.owner (B.Seat.shows seat.old).seen
        (B.Seat.shows seat.new).seen (refuted_in position.old.account) }
    ensures grew { Grew (B.Seat.shows seat.old) (B.Seat.shows seat.new) }
    ensures restarted { OnOk result
        (position.new.account ≡ restarted position.old.account) }
    ensures account { (position.new.account ≡ position.old.account)
        ⊎ (position.new.account ≡ restarted position.old.account) }
    ensures honest { Honest author.now.problem.now position.new.account }
    ensures owner { L.owner log.new ≡ L.owner log.old }
    ensures logged { IfOk result
        (λ some. LogsOnAt some author.now.problem.now (B.Seat.shows seat.new).seen
        propagator.new.filters.nogoods position.new (L.Told.changes position.new.told)
        (L.writes log.new) (L.refutes log.new)) }
    ensures steps { L.steps log.new author.now.problem.now (B.Seat.shows seat.new).seen }
    ensures nearer { OnOk result
        (remaining position.new.account < remaining position.old.account) }
    ensures budget { position.new.account.budget ≡ position.old.account.budget }
    ensures room { vec_capacity position.old.marks ≤ vec_capacity position.new.marks }
    ensures long { length propagator.new.waiting.items ≡ size author.now.problem.now.pattern }
{
    let taken = seat.rows().len();
    let published = publish_position(author, seat, &position.account, log);
    log.stays();
    let _seen = seat.rows();
    let _whole = published?;
    position.restart(author.problem);
    log.restart();
    take_up_book(alloc, author, seat, taken, position, propagator, log)
}

/// Begins a run from where the worker stands: one that has not begun takes up what the book has, as at a restart, and one that was
/// stopped goes on. False where no embedding is left. Cost: that of taking up the book.
pub(crate) fn begin<T: Trail, B: Book, L: ProofLogger>(
    alloc: Global,
    author: &Author<B>,
    stage: Stage,
    seat: &mut B::Seat,
    position: &mut Position<T, L::Told>,
    propagator: &mut Propagator,
    log: &mut L,
) -> Result<bool, AllocError>
    requires fits { B.fits author.now.book.now seat.old }
    requires open { stage ≢ Stage.Over }
    requires seat { IsSeatFor author.now.problem.now author.now.owner (B.Seat.shows seat.old) }
    requires owner { L.owner log.old ≡ author.now.owner }
    requires problem { propagator.old.filters.problem ≡ author.now.problem.now }
    requires stands { IsAtStage stage author.now.problem.now propagator.old.filters.nogoods
        position.old (B.Seat.shows seat.old) }
    requires logged { LogsAt author.now.problem.now (B.Seat.shows seat.old).seen
        propagator.old.filters.nogoods position.old (L.Told.changes position.old.told)
        (L.writes log.old) }
    requires long { length propagator.old.waiting.items ≡ size author.now.problem.now.pattern }
    ensures fits { B.fits author.now.book.now seat.new }
    ensures seat { IsSeatFor author.now.problem.now author.now.owner (B.Seat.shows seat.new) }
    ensures problem { propagator.new.filters.problem ≡ author.now.problem.now }
    ensures begun { IfOk result
        (λ some. BeginsAt some author.now.problem.now propagator.new.filters.nogoods position.new
        (B.Seat.shows seat.new)) }
    ensures owner { L.owner log.new ≡ L.owner log.old }
    ensures logged { IfOk result
        (λ some. LogsOnAt some author.now.problem.now (B.Seat.shows seat.new).seen
        propagator.new.filters.nogoods position.new (L.Told.changes position.new.told)
        (L.writes log.new) (L.refutes log.new)) }
    ensures steps { L.steps log.new author.now.problem.now (B.Seat.shows seat.new).seen }
    ensures learned { learned_by author.now.owner (B.Seat.shows seat.new).seen
        ≡ learned_by author.now.owner (B.Seat.shows seat.old).seen }
    ensures account { position.new.account ≡ position.old.account }
    ensures marks { position.new.marks ≡ position.old.marks }
    ensures long { length propagator.new.waiting.items ≡ size author.now.problem.now.pattern }
{
    log.stays();
    match stage {
        Stage::Over => unreachable!(),
        Stage::Halfway => Ok(true),
        Stage::Fresh => take_up_book(alloc, author, seat, 0, position, propagator, log),
    }
}
