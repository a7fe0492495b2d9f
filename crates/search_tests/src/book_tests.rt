//! Books of two nogoods for a triangle into a cycle of four: one over words, one under a lock, books with no room, a row that a seat keeps for
//! itself, and one seat at another book of the same problem.

ghost use Rattle.std.specs.Prelude.{◌≡◌, ◌<◌};
ghost use Rattle.graph_theory.specs.Graph.{size};
ghost use Rattle.graph_theory.specs.Embedding.{HasNone};

use graph_rows::Problem;
use locked_shelf::{LockedShelf, ShelfSeat};
use nogood_book::{Book, Published, Row, RowBook, RowKind, RowSeat};
use std::alloc::{AllocError, Global};
use std::sync::Wait;
use std::test::Fail;
use test_support::triangle_into_cycle;

/// The nogood of this owner that takes vertex 0 to the value.
fn nogood(owner: u8, value: u16) -> Row
    ensures { result ≡ record {
      kind = RowKind.Nogood;
      owner = owner;
      parent = None;
      vertex = 0;
      value = value;
    } }
{
    Row {
        kind: RowKind::Nogood,
        owner,
        parent: None,
        vertex: 0,
        value,
    }
}

/// Publishes that vertex 0 goes not to the value, for a problem without embeddings.
fn publish<B: Book>(book: &B, seat: &mut B::Seat, q: &Problem, owner: u8, value: u16) -> Published
    requires fits { B.fits book.now seat.old }
    requires problem { (B.Seat.shows seat.old).problem ≡ q.now }
    requires owner { (B.Seat.shows seat.old).owner ≡ owner }
    requires few { owner < 128 }
    requires none { HasNone q.now }
    requires vertex { 0 < size q.now.pattern }
    requires value { value < size q.now.target }
    ensures fits { B.fits book.now seat.new }
    ensures problem { (B.Seat.shows seat.new).problem ≡ q.now }
    ensures owner { (B.Seat.shows seat.new).owner ≡ owner }
{
    let _patterns = q.pattern().size();
    let _targets = q.target().size();
    book.publish(seat, nogood(owner, value))
}

/// The same at a seat that keeps for itself what its book has no room for.
fn place<B: Book>(book: &B, seat: &mut B::Seat, q: &Problem, owner: u8, value: u16) -> Published
    requires fits { B.fits book.now seat.old }
    requires problem { (B.Seat.shows seat.old).problem ≡ q.now }
    requires owner { (B.Seat.shows seat.old).owner ≡ owner }
    requires few { owner < 128 }
    requires none { HasNone q.now }
    requires vertex { 0 < size q.now.pattern }
    requires value { value < size q.now.target }
    ensures fits { B.fits book.now seat.new }
    ensures problem { (B.Seat.shows seat.new).problem ≡ q.now }
    ensures owner { (B.Seat.shows seat.new).owner ≡ owner }
{
    let _patterns = q.pattern().size();
    let _targets = q.target().size();
    book.place(seat, nogood(owner, value))
}

/// Whether two seats of owners 1 and 2 at an empty book of two rows come to know each other's
/// nogoods, and it is full then.
fn is_shared<B: Book>(book: &B, one: &mut B::Seat, two: &mut B::Seat, q: &Problem) -> bool
    requires fits_one { B.fits book.now one.old }
    requires fits_two { B.fits book.now two.old }
    requires problem_one { (B.Seat.shows one.old).problem ≡ q.now }
    requires problem_two { (B.Seat.shows two.old).problem ≡ q.now }
    requires owner_one { (B.Seat.shows one.old).owner ≡ 1 }
    requires owner_two { (B.Seat.shows two.old).owner ≡ 2 }
    requires none { HasNone q.now }
    requires vertex { size q.now.pattern ≡ 3 }
    requires value { size q.now.target ≡ 4 }
    ensures fits_one { B.fits book.now one.new }
    ensures fits_two { B.fits book.now two.new }
    ensures problem { (B.Seat.shows one.new).problem ≡ q.now }
    ensures owner { (B.Seat.shows one.new).owner ≡ 1 }
{
    let first = publish(book, one, q, 1, 0);
    let is_unseen = two.rows().is_empty();
    book.catch_up(two);
    let is_seen = two.rows() == [nogood(1, 0)].as_slice();
    let second = publish(book, two, q, 2, 1);
    book.catch_up(one);
    let are_seen = one.rows() == [nogood(1, 0), nogood(2, 1)].as_slice();
    let third = publish(book, one, q, 1, 2);
    is_unseen
        && is_seen
        && are_seen
        && first == Published::At(0)
        && second == Published::At(1)
        && third == Published::Full
}

/// Whether a seat of owner 1 keeps a third nogood for itself, behind those of a full book of two rows: its owner sees it, a seat of owner 2
/// does not.
fn is_kept<B: Book>(book: &B, one: &mut B::Seat, two: &mut B::Seat, q: &Problem) -> bool
    requires fits_one { B.fits book.now one.old }
    requires fits_two { B.fits book.now two.old }
    requires problem { (B.Seat.shows one.old).problem ≡ q.now }
    requires owner { (B.Seat.shows one.old).owner ≡ 1 }
    requires none { HasNone q.now }
    requires vertex { size q.now.pattern ≡ 3 }
    requires value { size q.now.target ≡ 4 }
    ensures fits_one { B.fits book.now one.new }
    ensures fits_two { B.fits book.now two.new }
{
    let kept = place(book, one, q, 1, 2);
    book.catch_up(two);
    let is_unseen = two.rows() == [nogood(1, 0), nogood(2, 1)].as_slice();
    let is_seen = one.rows() == [nogood(1, 0), nogood(2, 1), nogood(1, 2)].as_slice();
    kept == Published::At(2) && is_unseen && is_seen
}

/// Whether a book of words is shared so, a seat keeps one nogood more for itself, and who gathers the seats sees the two of the book.
fn is_shared_and_gathered(alloc: Global, q: &Problem) -> Result<bool, AllocError>
    requires sizes { (size q.now.pattern ≡ 3) × (size q.now.target ≡ 4) }
    requires none { HasNone q.now }
{
    let (book, mut first) = RowBook::new(alloc, q, 2)?;
    let mut one = book.split(alloc, &mut first, 1)?;
    let mut two = book.split(alloc, &mut first, 2)?;
    let is_shared = is_shared(&book, &mut one, &mut two, q);
    let is_kept = is_kept(&book, &mut one, &mut two, q);
    book.gather(&mut first, one);
    book.gather(&mut first, two);
    let are_gathered = first.rows() == [nogood(1, 0), nogood(2, 1)].as_slice();
    Ok(is_shared && is_kept && are_gathered)
}

#[test]
fn a_book_of_words_is_shared(rt: HostRuntime) -> Result<(), Fail> {
    let Some(q) = triangle_into_cycle(rt.alloc()) else {
        panic!(rt; "the texts are graphs, and none embeds")
    };
    assert!(rt; is_shared_and_gathered(rt.alloc(), &q)?);
    Ok(())
}

/// Whether nothing is published at a seat of owner 1, since the book is full.
fn is_full<B: Book>(book: &B, one: &mut B::Seat, q: &Problem) -> bool
    requires fits { B.fits book.now one.old }
    requires problem { (B.Seat.shows one.old).problem ≡ q.now }
    requires owner { (B.Seat.shows one.old).owner ≡ 1 }
    requires none { HasNone q.now }
    requires vertex { size q.now.pattern ≡ 3 }
    requires value { size q.now.target ≡ 4 }
{
    book.catch_up(one);
    publish(book, one, q, 1, 0) == Published::Full && one.rows().is_empty()
}

/// Whether a book without room is full at once.
fn is_full_at_once(alloc: Global, q: &Problem) -> Result<bool, AllocError>
    requires sizes { (size q.now.pattern ≡ 3) × (size q.now.target ≡ 4) }
    requires none { HasNone q.now }
{
    let (book, mut first) = RowBook::new(alloc, q, 0)?;
    let mut one = book.split(alloc, &mut first, 1)?;
    Ok(is_full(&book, &mut one, q))
}

#[test]
fn a_book_of_no_rows_is_full(rt: HostRuntime) -> Result<(), Fail> {
    let Some(q) = triangle_into_cycle(rt.alloc()) else {
        panic!(rt; "the texts are graphs, and none embeds")
    };
    assert!(rt; is_full_at_once(rt.alloc(), &q)?);
    Ok(())
}

/// Whether a book under a lock is shared.
fn is_shared_under_a_lock<R: Wait + Sync>(
    rt: &R,
    alloc: Global,
    q: &Problem,
) -> Result<bool, AllocError>
    requires sizes { (size q.now.pattern ≡ 3) × (size q.now.target ≡ 4) }
    requires none { HasNone q.now }
{
    let book = LockedShelf::new(rt, alloc, q, 2)?;
    let mut one = book.seat(alloc, 1)?;
    let mut two = book.seat(alloc, 2)?;
    Ok(is_shared(&book, &mut one, &mut two, q))
}

#[test]
fn a_book_under_a_lock_is_shared(rt: HostRuntime) -> Result<(), Fail> {
    let Some(q) = triangle_into_cycle(rt.alloc()) else {
        panic!(rt; "the texts are graphs, and none embeds")
    };
    assert!(rt; is_shared_under_a_lock(&rt, rt.alloc(), &q)?);
    Ok(())
}

/// Whether a seat of another book of the same room, that looks at this one, sees its own nogood
/// alone.
fn keeps_to_itself<'a, R: Wait + Sync>(
    book: &LockedShelf<'a, R>,
    other: &LockedShelf<'a, R>,
    one: &mut ShelfSeat<'a>,
    two: &mut ShelfSeat<'a>,
    q: &Problem,
) -> bool
    requires fits_one { one.old.most ≡ book.now.size }
    requires fits_two { two.old.most ≡ other.now.size }
    requires same { other.now.size ≡ book.now.size }
    requires problem_one { one.old.problem ≡ q.now }
    requires problem_two { two.old.problem ≡ q.now }
    requires owner_one { one.old.owner ≡ 1 }
    requires owner_two { two.old.owner ≡ 2 }
    requires none { HasNone q.now }
    requires vertex { size q.now.pattern ≡ 3 }
    requires value { size q.now.target ≡ 4 }
{
    let first = publish(book, one, q, 1, 0);
    let second = publish(other, two, q, 2, 1);
    book.catch_up(two);
    first == Published::At(0)
        && second == Published::At(0)
        && two.rows() == [nogood(2, 1)].as_slice()
}

/// Whether a seat of another book does so.
fn others_keep_to_themselves<R: Wait + Sync>(
    rt: &R,
    alloc: Global,
    q: &Problem,
) -> Result<bool, AllocError>
    requires sizes { (size q.now.pattern ≡ 3) × (size q.now.target ≡ 4) }
    requires none { HasNone q.now }
{
    let book = LockedShelf::new(rt, alloc, q, 2)?;
    let other = LockedShelf::new(rt, alloc, q, 2)?;
    let mut one = book.seat(alloc, 1)?;
    let mut two = book.seat(alloc, 2)?;
    Ok(keeps_to_itself(&book, &other, &mut one, &mut two, q))
}

#[test]
fn a_seat_of_another_book_keeps_to_itself(rt: HostRuntime) -> Result<(), Fail> {
    let Some(q) = triangle_into_cycle(rt.alloc()) else {
        panic!(rt; "the texts are graphs, and none embeds")
    };
    assert!(rt; others_keep_to_themselves(&rt, rt.alloc(), &q)?);
    Ok(())
}
