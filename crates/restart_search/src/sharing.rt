//! Publishing a position: what a run has refuted goes to the book as rows, before the next run begins. Where the book is full the rows
//! stand at the worker's own seat.
//!
//! For each level in order there is one nogood for each value refuted there, and then a step for the level's guess, below which the
//! rows of the next level stand. So the guesses above a nogood are written once, however many nogoods stand below them.

ghost use Rattle.std.specs.Prelude.{◌≡◌, ℕ, [], ◌∷◌, ◌++◌, ◌+◌, ◌<◌, ◌≤◌, true, false, length, take, Contains, IfOk, Some, None, IfSome, IfNone};
ghost use Rattle.graph_theory.specs.Graph.{size};
ghost use Rattle.graph_theory.specs.Path.{NotOn, IsPath, Dead};
ghost use Rattle.bit_rows.specs.BitRows.{has, words_for};
ghost use Rattle.graph_theory.specs.Neighbours.{members};
ghost use Rattle.search_theory.specs.Account.{InRange, Honest, path, level_at};
ghost use Rattle.proof_logger.specs.Logging.{GrowsBeside};
ghost use Rattle.nogood_book.specs.Facts.{HasEnded};
ghost use Rattle.nogood_book.specs.Reaching.{Reaches, MayStand};
ghost use Rattle.restart_search.specs.Sharing.{IsSeatFor, IsRowOf, IsPublished, LearnsFirst, Went, learned_by, refuted_at, refuted_in};

use bit_rows::next_member;
use fail_account::Account;
use graph_rows::Problem;
use nogood_book::{Book, Published, Row, RowKind, RowSeat};
use proof_logger::ProofLogger;
use std::alloc::AllocError;

/// Whose rows are written, which problem they are about, and the book that they go to.
#[derive(Drop)]
pub(crate) struct Author<'q, B: Book> {
    /// The problem.
    pub problem: &'q Problem,
    /// The worker's number.
    pub owner: u8,
    /// The book.
    pub book: &'q B,
}

/// Where the rows of one level stand.
#[derive(Drop)]
struct Level<'p> {
    /// The level's number, from 0.
    number: u16,
    /// The row of the last guess above it, if there is one.
    parent: Option<u32>,
    /// The guesses above it.
    above: &'p [(u16, u16)],
}

/// Publishes one nogood: that no embedding has the pairs above and this one, which the account has refuted at the level; and notes it.
/// False where there is no room for its row, nor for any that follows.
fn publish_nogood<B: Book, L: ProofLogger>(
    author: &Author<B>,
    seat: &mut B::Seat,
    account: &Account,
    level: &Level,
    pair: (u16, u16),
    log: &mut L,
) -> bool
    requires fits { B.fits author.now.book.now seat.old }
    requires seat { IsSeatFor author.now.problem.now author.now.owner (B.Seat.shows seat.old) }
    requires narrow { author.now.owner < 128 }
    requires parent { Reaches (B.Seat.shows seat.old).seen level.now.parent level.now.above.now }
    requires stands { MayStand author.now.problem.now level.now.above.now pair }
    requires dead { Dead author.now.problem.now (level.now.above.now ++ pair ∷ []) }
    requires level { (level_at account.now level.now.number).vertex ≡ Some pair.0 }
    requires refuted { Contains (level_at account.now level.now.number).refuted pair.1 }
    requires above { level.now.above.now ≡ take level.now.number (path account.now) }
    requires spare { 1 ≤ L.spare log.old }
    requires owner { L.owner log.old ≡ author.now.owner }
    requires writes { L.writes log.old author.now.problem.now (B.Seat.shows seat.old).seen
        account.now }
    ensures owner { L.owner log.new ≡ L.owner log.old }
    ensures writes { L.writes log.new author.now.problem.now (B.Seat.shows seat.new).seen
        account.now }
    ensures fits { B.fits author.now.book.now seat.new }
    ensures went { Went (B.Seat.shows seat.old) (B.Seat.shows seat.new) }
    ensures row { result ≡ true
        → IsRowOf author.now.owner (length (B.Seat.shows seat.old).seen)
        (B.Seat.shows seat.new).seen (level.now.above.now ++ pair ∷ []) }
    ensures learned { result ≡ true
        → learned_by author.now.owner (B.Seat.shows seat.new).seen
        ≡ learned_by author.now.owner (B.Seat.shows seat.old).seen
        ++ (level.now.above.now ++ pair ∷ []) ∷ [] }
    ensures kept { result ≡ false
        → learned_by author.now.owner (B.Seat.shows seat.new).seen
        ≡ learned_by author.now.owner (B.Seat.shows seat.old).seen }
    ensures full { result ≡ false
        → HasEnded (B.Seat.shows seat.new) }
{
    let _pattern = author.problem.pattern();
    let _target = author.problem.target();
    let row = Row {
        kind: RowKind::Nogood,
        owner: author.owner,
        parent: level.parent,
        vertex: pair.0,
        value: pair.1,
    };
    log.stays();
    match author.book.place(seat, row) {
        Published::At(place) => {
            log.note(account, level.number, pair.1, place);
            true
        }
        Published::Full => false,
    }
}

/// Publishes one guess, and answers its place, below which the next level's rows stand; none where it has no room.
fn publish_step<B: Book>(
    author: &Author<B>,
    seat: &mut B::Seat,
    parent: Option<u32>,
    above: &[(u16, u16)],
    pair: (u16, u16),
) -> Option<u32>
    requires fits { B.fits author.now.book.now seat.old }
    requires seat { IsSeatFor author.now.problem.now author.now.owner (B.Seat.shows seat.old) }
    requires narrow { author.now.owner < 128 }
    requires parent { Reaches (B.Seat.shows seat.old).seen parent above.now }
    requires stands { MayStand author.now.problem.now above.now pair }
    ensures fits { B.fits author.now.book.now seat.new }
    ensures went { Went (B.Seat.shows seat.old) (B.Seat.shows seat.new) }
    ensures beside { GrowsBeside author.now.owner (B.Seat.shows seat.old).seen
        (B.Seat.shows seat.new).seen }
    ensures next { IfSome result
        (λ at. Reaches (B.Seat.shows seat.new).seen (Some at) (above.now ++ pair ∷ [])) }
    ensures learned { learned_by author.now.owner (B.Seat.shows seat.new).seen
        ≡ learned_by author.now.owner (B.Seat.shows seat.old).seen }
    ensures full { IfNone result
        (HasEnded (B.Seat.shows seat.new)) }
{
    let _pattern = author.problem.pattern();
    let _target = author.problem.target();
    let row = Row {
        kind: RowKind::Step,
        owner: author.owner,
        parent,
        vertex: pair.0,
        value: pair.1,
    };
    match author.book.place(seat, row) {
        Published::At(place) => Some(place),
        Published::Full => None,
    }
}

/// Publishes a nogood for each value of the row, which the account has refuted at the level, with the pairs above. False where one
/// has no room. Cost: a row for each value, and one step for each word.
fn publish_level<B: Book, L: ProofLogger>(
    author: &Author<B>,
    seat: &mut B::Seat,
    account: &Account,
    level: &Level,
    p: u16,
    refuted: &[u64],
    log: &mut L,
) -> Result<bool, AllocError>
    requires fits { B.fits author.now.book.now seat.old }
    requires seat { IsSeatFor author.now.problem.now author.now.owner (B.Seat.shows seat.old) }
    requires narrow { author.now.owner < 128 }
    requires parent { Reaches (B.Seat.shows seat.old).seen level.now.parent level.now.above.now }
    requires fresh { NotOn level.now.above.now p }
    requires vertex { p < size author.now.problem.now.pattern }
    requires long { length refuted.now ≡ words_for (size author.now.problem.now.target) }
    requires refuted { (t : ℕ) → has refuted.now t ≡ true → (t < size author.now.problem.now.target)
        × Dead author.now.problem.now (level.now.above.now ++ (p, t) ∷ []) }
    requires level { (level_at account.now level.now.number).vertex ≡ Some p }
    requires row { members (has refuted.now) account.now.target
        ≡ (level_at account.now level.now.number).refuted }
    requires target { account.now.target ≡ size author.now.problem.now.target }
    requires above { level.now.above.now ≡ take level.now.number (path account.now) }
    requires owner { L.owner log.old ≡ author.now.owner }
    requires writes { L.writes log.old author.now.problem.now (B.Seat.shows seat.old).seen
        account.now }
    ensures owner { L.owner log.new ≡ L.owner log.old }
    ensures writes { L.writes log.new author.now.problem.now (B.Seat.shows seat.new).seen
        account.now }
    ensures fits { B.fits author.now.book.now seat.new }
    ensures went { Went (B.Seat.shows seat.old) (B.Seat.shows seat.new) }
    ensures all { IfOk result
        (λ whole. whole ≡ true → (t : ℕ) → has refuted.now t ≡ true
        → IsRowOf author.now.owner (length (B.Seat.shows seat.old).seen)
        (B.Seat.shows seat.new).seen (level.now.above.now ++ (p, t) ∷ [])) }
    ensures learned { IfOk result (λ whole. whole ≡ true
        → learned_by author.now.owner (B.Seat.shows seat.new).seen
        ≡ learned_by author.now.owner (B.Seat.shows seat.old).seen
        ++ refuted_at level.now.above.now (Some p) (members (has refuted.now) account.now.target)) }
    ensures part { LearnsFirst author.now.owner (B.Seat.shows seat.old).seen
        (B.Seat.shows seat.new).seen
        (refuted_at level.now.above.now (Some p) (members (has refuted.now) account.now.target)) }
    ensures full { IfOk result
        (λ whole. whole ≡ false
        → HasEnded (B.Seat.shows seat.new)) }
{
    let _few = author.problem.target().size();
    let _rows = seat.rows();
    let mut t = next_member(refuted, 0);
    while t < 64 * refuted.len() {
        log.room()?;
        let pair = (p, t as u16);
        if !publish_nogood(author, seat, account, level, pair, log) {
            return Ok(false);
        }
        t = next_member(refuted, t + 1);
    }
    Ok(true)
}

/// Publishes the guess of level `at`, where the path has one, and makes it the parent of what follows. False where it has no
/// room.
fn publish_guess<B: Book>(
    author: &Author<B>,
    seat: &mut B::Seat,
    parent: &mut Option<u32>,
    path: &[(u16, u16)],
    at: usize,
) -> bool
    requires fits { B.fits author.now.book.now seat.old }
    requires seat { IsSeatFor author.now.problem.now author.now.owner (B.Seat.shows seat.old) }
    requires narrow { author.now.owner < 128 }
    requires parent { Reaches (B.Seat.shows seat.old).seen parent.old (take at path.now) }
    requires path { IsPath path.now }
    requires range { InRange (size author.now.problem.now.pattern)
        (size author.now.problem.now.target) path.now }
    ensures fits { B.fits author.now.book.now seat.new }
    ensures went { Went (B.Seat.shows seat.old) (B.Seat.shows seat.new) }
    ensures beside { GrowsBeside author.now.owner (B.Seat.shows seat.old).seen
        (B.Seat.shows seat.new).seen }
    ensures next { result ≡ true
        → Reaches (B.Seat.shows seat.new).seen parent.new (take (at + 1) path.now) }
    ensures learned { learned_by author.now.owner (B.Seat.shows seat.new).seen
        ≡ learned_by author.now.owner (B.Seat.shows seat.old).seen }
    ensures full { result ≡ false
        → HasEnded (B.Seat.shows seat.new) }
{
    let _rows = seat.rows();
    if at >= path.len() {
        return true;
    }
    match publish_step(author, seat, *parent, &path[..at], path[at]) {
        None => false,
        Some(place) => {
            *parent = Some(place);
            true
        }
    }
}

/// Publishes what the position of the account has refuted: for each level in order, a nogood for each value refuted there, rising, and
/// then the level's guess. False where a row has no room, which ends it. Cost: a row for each of these, and the words of the levels'
/// rows.
pub(crate) fn publish_position<B: Book, L: ProofLogger>(
    author: &Author<B>,
    seat: &mut B::Seat,
    account: &Account,
    log: &mut L,
) -> Result<bool, AllocError>
    requires fits { B.fits author.now.book.now seat.old }
    requires seat { IsSeatFor author.now.problem.now author.now.owner (B.Seat.shows seat.old) }
    requires narrow { author.now.owner < 128 }
    requires honest { Honest author.now.problem.now account.now }
    requires owner { L.owner log.old ≡ author.now.owner }
    requires writes { L.writes log.old author.now.problem.now (B.Seat.shows seat.old).seen
        account.now }
    ensures owner { L.owner log.new ≡ L.owner log.old }
    ensures writes { L.writes log.new author.now.problem.now (B.Seat.shows seat.new).seen
        account.now }
    ensures fits { B.fits author.now.book.now seat.new }
    ensures went { Went (B.Seat.shows seat.old) (B.Seat.shows seat.new) }
    ensures all { IfOk result
        (λ whole. whole ≡ true
        → IsPublished account.now author.now.owner (length (B.Seat.shows seat.old).seen)
        (B.Seat.shows seat.new).seen) }
    ensures learned { IfOk result (λ whole. whole ≡ true
        → learned_by author.now.owner (B.Seat.shows seat.new).seen
        ≡ learned_by author.now.owner (B.Seat.shows seat.old).seen ++ refuted_in account.now) }
    ensures part { LearnsFirst author.now.owner (B.Seat.shows seat.old).seen
        (B.Seat.shows seat.new).seen (refuted_in account.now) }
    ensures full { IfOk result
        (λ whole. whole ≡ false
        → HasEnded (B.Seat.shows seat.new)) }
{
    let _vertex = account.vertex();
    let _rows = seat.rows();
    let path = account.path();
    let mut parent = None;
    for i in 0..author.problem.pattern().size() {
        let (vertex, refuted) = account.level(i);
        let Some(p) = vertex else {
            return Ok(true);
        };
        let at = usize::from(i);
        let above = &path[..at];
        let level = Level {
            number: i,
            parent,
            above,
        };
        let whole = publish_level(author, seat, account, &level, p, refuted, log)?;
        if !whole {
            return Ok(false);
        }
        log.stays();
        if !publish_guess(author, seat, &mut parent, path, at) {
            return Ok(false);
        }
    }
    Ok(true)
}
