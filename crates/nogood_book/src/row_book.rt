//! The book over words that change in single steps: nobody waits in it.
//!
//! Row k is word k + 1 of a table, 0 until it is written. A seat reads the next word by a load, and writes its row there by an
//! exchange with 0; where another was faster, the exchange shows the other's row, which the seat then has seen. So each try of a
//! write ends with the row in its place or with one row more in sight. Once all words are used and seen, a seat keeps its row for itself.

ghost use Rattle.std.specs.Prelude.{◌≡◌, ◌<◌, ◌≤◌, true, false, [], length, IfOk, OnOk, OnErr, vec_capacity};
ghost use Rattle.nogood_book.specs.Rows.{MayFollow};
ghost use Rattle.nogood_book.specs.Facts.{CaughtUp, IsPlaced, IsPublished, MayWrite};
ghost use Rattle.nogood_book.specs.Seats.{facts_of, HasLooked, HasTried, IsHonest, IsSeatOf, IsSeatWith};
ghost use Rattle.nogood_book.specs.Seats.{IsAfterLook, IsAfterPlacing, IsAfterWrite, Gathered, without_own};
ghost use Rattle.nogood_book.specs.Views.{HasNumber, first_view, maker, newcomer};

use crate::book::Book;
use crate::row::{Published, Row};
use crate::seat::BookSeat;
use crate::view::{Add, BookKey, BookRule, Check, Cut, Gathering, Look, Naming, View};
use crate::word::{decode, encode};
use atomic_table::Table;
use graph_rows::Problem;
use std::alloc::{AllocError, Global};
use std::marker::{Brand, Model};
use std::snapshot::Snapshot;

/// A book of at most 4,194,304 rows for one problem, which threads share by reference.
#[derive(Drop)]
pub struct RowBook {
    table: Table<u8, View, BookKey, BookRule, Global>,
    rows: u32,
}

impl Model for RowBook {
    ghost use Rattle.nogood_book.specs.Seats.{BookName, HasRows};

    ghost Value = { BookName };

    ghost view = { λ b. record {
      table = b.table.shared.table_id;
      problem = b.table.shared.key.problem.value;
      size = b.rows;
    } };

    ghost invariant = { λ b. HasRows b.table.shared.table_id b.table.shared.key.rows b.rows };
}

impl RowBook {
    /// A book with no row written, and its first seat, of owner 0, from which all others are split. Memory: 8 bytes a row, and the
    /// seat's copy.
    pub fn new(alloc: Global, q: &Problem, rows: u32) -> Result<(RowBook, BookSeat), AllocError>
        requires { rows ≤ 4194304 }
        ensures book { IfOk result (λ b. (b.0.problem ≡ q.now) × (b.0.size ≡ rows)) }
        ensures seat { IfOk result (λ b. IsSeatOf b.0 b.1 × (b.1.view ≡ first_view q.now)) }
        ensures own { IfOk result (λ b. (b.1.own ≡ []) × (b.1.ended ≡ false)) }
    {
        let seen = Vec::with_capacity(alloc, rows as usize)?;
        let words = vec![in alloc; 0u64; rows as usize + 1]?;
        let key = BookKey {
            problem: Snapshot::of(q),
            rows,
        };
        let (table, seat) = Table::of_words(alloc, &words, &key)?;
        let seat = BookSeat {
            seat,
            rows: seen,
            most: rows,
            owner: 0,
            ended: false,
        };
        Ok((RowBook { table, rows }, seat))
    }

    /// A seat of a further owner, numbers from 1 to 64, made by the first. It has seen what the first has, and keeps no row for itself.
    pub fn split(
        &self,
        alloc: Global,
        seat: &mut BookSeat,
        owner: u8,
    ) -> Result<BookSeat, AllocError>
        requires of { IsSeatOf self.now seat.old }
        requires first { seat.old.view.first ≡ true }
        requires new_ { HasNumber owner seat.old.view.made → ⊥ }
        ensures of { IfOk result (λ s. IsSeatOf self.now s) }
        ensures view { IfOk result (λ s. s.view ≡ newcomer owner seat.old.view) }
        ensures own { IfOk result (λ s. (s.own ≡ []) × (s.ended ≡ false)) }
        ensures made { OnOk result (IsSeatWith seat.old seat.new (maker owner seat.old.view)) }
        ensures refused { OnErr result (seat.new ≡ seat.old) }
    {
        let mut rows = Vec::with_capacity(alloc, self.rows as usize)?;
        rows.extend_from_slice(&seat.rows[..seat.len()])?;
        Ok(self.cut::<Brand>(seat, owner, rows))
    }

    /// The step of a split, with the copy of the rows made.
    fn cut<N: Naming>(&self, seat: &mut BookSeat, owner: u8, rows: Vec<Row>) -> BookSeat
        requires of { IsSeatOf self.now seat.old }
        requires first { seat.old.view.first ≡ true }
        requires new_ { HasNumber owner seat.old.view.made → ⊥ }
        requires name { owner ≡ N.owner }
        requires rows { rows.items ≡ seat.old.view.seen }
        requires room { self.now.size ≤ vec_capacity rows }
        ensures of { IsSeatOf self.now result }
        ensures view { result.view ≡ newcomer owner seat.old.view }
        ensures own { (result.own ≡ []) × (result.ended ≡ false) }
        ensures kept { IsSeatWith seat.old seat.new (maker owner seat.old.view) }
    {
        let made = self.table.shared.split_seat::<Cut<N>>(&mut seat.seat);
        BookSeat {
            seat: made,
            rows,
            most: self.rows,
            owner,
            ended: false,
        }
    }

    /// Takes a seat in, without the rows that either keeps for itself: what the first has then are rows of the book. It takes no memory.
    pub fn gather(&self, into: &mut BookSeat, from: BookSeat)
        requires into { IsSeatOf self.now into.old }
        requires from { IsSeatOf self.now from }
        ensures same { IsSeatWith (without_own into.old) into.new into.new.view }
        ensures gathered { Gathered into.old.view from.view into.new.view }
    {
        let most = self.rows as usize;
        let is_longer = into.len() <= from.len();
        let BookSeat {
            seat,
            rows,
            most: _,
            owner: _,
            ended: _,
        } = from;
        self.table
            .shared
            .join_seat::<Gathering>(&mut into.seat, seat);
        self.table.shared.load::<Check>(&mut into.seat, 0);
        if is_longer {
            into.rows = rows;
        }
        into.rows.truncate(most);
        into.ended = false;
    }

    /// Reads the next word. True: a row was there.
    fn look(&self, seat: &mut BookSeat) -> bool
        requires of { IsSeatOf self.now seat.old }
        requires more { length seat.old.view.seen < self.now.size }
        ensures same { IsSeatWith seat.old seat.new seat.new.view }
        ensures told { HasLooked result seat.old.view seat.new.view }
        ensures honest { IsHonest seat.new }
    {
        let next = seat.len() + 1;
        let found = self.table.shared.load::<Look>(&mut seat.seat, next);
        if found == 0 {
            return false;
        }
        seat.rows.push_reserved(decode(found));
        true
    }

    /// Tries to write a row into the next word. False: another row was there.
    fn add(&self, seat: &mut BookSeat, row: &Row) -> bool
        requires of { IsSeatOf self.now seat.old }
        requires more { length seat.old.view.seen < self.now.size }
        requires owner { row.now.owner ≡ seat.old.view.owner }
        requires row { MayFollow seat.old.view.problem seat.old.view.seen row.now }
        ensures same { IsSeatWith seat.old seat.new seat.new.view }
        ensures told { HasTried row.now result seat.old.view seat.new.view }
        ensures honest { IsHonest seat.new }
    {
        let next = seat.len() + 1;
        let word = encode(row);
        let found = self
            .table
            .shared
            .compare_exchange::<Add>(&mut seat.seat, next, 0, word);
        if found == 0 {
            seat.rows.push_reserved(*row);
            return true;
        }
        seat.rows.push_reserved(decode(found));
        false
    }
}

impl Book for RowBook {
    type Seat = BookSeat;

    ghost fits = { λ b s. IsSeatOf b s };

    /// It returns when it has found a word unused, or has seen all. It takes no memory.
    fn catch_up(&self, seat: &mut BookSeat)
        requires { IsSeatOf self.now seat.old }
        ensures fits { IsSeatOf self.now seat.new }
        ensures caught { CaughtUp (facts_of seat.old) (facts_of seat.new) }
        ensures rest { IsAfterLook seat.old seat.new }
    {
        for _seen in seat.len()..self.rows as usize {
            if !self.look(seat) {
                return;
            }
        }
    }

    /// It returns within as many tries as rows of the book are left. It takes no memory.
    fn publish(&self, seat: &mut BookSeat, row: Row) -> Published
        requires of { IsSeatOf self.now seat.old }
        requires owner { row.owner ≡ (facts_of seat.old).owner }
        requires row { MayWrite (facts_of seat.old) row }
        ensures fits { IsSeatOf self.now seat.new }
        ensures few { (facts_of seat.new).size ≤ 4194304 }
        ensures published { IsPublished row (facts_of seat.old) (facts_of seat.new) result }
        ensures rest { IsAfterWrite seat.old seat.new result }
    {
        for at in seat.len() as u32..self.rows {
            if self.add(seat, &row) {
                return Published::At(at);
            }
        }
        Published::Full
    }

    /// A row that the seat keeps for itself takes 16 bytes. `Full` says that 4,194,304 rows are there, with those of the book, or that memory
    /// was refused, here or before.
    fn place(&self, seat: &mut BookSeat, row: Row) -> Published
        requires of { IsSeatOf self.now seat.old }
        requires owner { row.owner ≡ (facts_of seat.old).owner }
        requires row { MayWrite (facts_of seat.old) row }
        ensures fits { IsSeatOf self.now seat.new }
        ensures few { (facts_of seat.new).size ≤ 4194304 }
        ensures placed { IsPlaced row (facts_of seat.old) (facts_of seat.new) result }
        ensures rest { IsAfterPlacing row seat.old seat.new result }
    {
        match self.publish(seat, row) {
            Published::At(at) => Published::At(at),
            Published::Full => seat.keep(row),
        }
    }
}
