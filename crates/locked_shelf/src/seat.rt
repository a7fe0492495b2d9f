//! A seat at a book under a lock: its own copy of the rows.

ghost use Rattle.std.specs.Prelude.{◌≡◌, ◌≤◌, ◌<◌, ◌↔◌, [], IsTrue, length, vec_capacity};
ghost use Rattle.nogood_book.specs.Rows.{MayFollow, Sound};
ghost use Rattle.nogood_book.specs.Places.{StartsWith};
ghost use Rattle.nogood_book.specs.Facts.{IsPublished};
ghost use Rattle.locked_shelf.specs.Shelf.{facts_of, fresh, IsKept};

use graph_rows::Problem;
use nogood_book::{Published, Row, RowSeat};
use std::marker::Model;

/// One owner's place at a `LockedShelf`. It has a copy of the rows that it has seen, with room for all rows of the book.
#[derive(Drop)]
pub struct ShelfSeat<'a> {
    problem: &'a Problem,
    owner: u8,
    most: u32,
    rows: Vec<Row>,
}

impl<'a> Model for ShelfSeat<'a> {
    ghost use Rattle.locked_shelf.specs.Shelf.{ShelfView, IsSeat, view_of};

    ghost Value = { ShelfView };

    ghost view = { λ s. view_of s.problem.now s.owner s.most s.rows.items };

    ghost invariant = { λ s. IsSeat s.problem.now s.owner s.most s.rows };
}

impl<'a> ShelfSeat<'a> {
    /// A seat that has seen nothing, with the room of a list.
    pub(crate) fn new(problem: &'a Problem, owner: u8, most: u32, room: Vec<Row>) -> ShelfSeat<'a>
        requires empty { room.items ≡ [] }
        requires limit { most ≤ 4194304 }
        requires room { most ≤ vec_capacity room }
        ensures { result ≡ fresh problem.now owner most }
    {
        ShelfSeat {
            problem,
            owner,
            most,
            rows: room,
        }
    }

    /// The problem of its rows.
    pub(crate) fn problem(&self) -> &Problem
        ensures { result.now ≡ self.now.problem }
    {
        self.problem
    }

    /// Whose rows it writes.
    pub(crate) fn owner(&self) -> u8
        ensures { result ≡ self.now.owner }
    {
        self.owner
    }

    /// How many rows its book has room for.
    pub(crate) fn room(&self) -> usize
        ensures { result ≡ self.now.most }
    {
        self.most as usize
    }

    /// The rows that it has seen.
    pub(crate) fn seen(&self) -> &[Row]
        ensures seen { result.now ≡ self.now.seen }
        ensures kept { IsKept self.now }
    {
        self.rows.as_slice()
    }

    /// Takes further rows up.
    pub(crate) fn take_up(&mut self, rows: &[Row])
        requires few { length rows.now ≤ self.old.most }
        requires seen { StartsWith rows.now self.old.seen }
        requires sound { Sound self.old.problem rows.now }
        ensures { self.new ≡ record self.old { seen = rows.now } }
    {
        for k in self.rows.len()..rows.len() {
            self.rows.push_reserved(rows[k]);
        }
    }

    /// Whether it has seen fewer rows than its book has room for.
    pub(crate) fn has_room(&self) -> bool
        ensures { IsTrue result ↔ (length self.now.seen < self.now.most) }
    {
        self.rows.len() < self.most as usize
    }

    /// Adds a row of its own behind what it has seen, if its book has room for one more.
    pub(crate) fn write(&mut self, row: Row) -> Published
        requires owner { row.owner ≡ self.old.owner }
        requires row { MayFollow self.old.problem self.old.seen row }
        ensures most { self.new.most ≡ self.old.most }
        ensures published { IsPublished row (facts_of self.old) (facts_of self.new) result }
    {
        if !self.has_room() {
            return Published::Full;
        }
        let at = self.rows.len() as u32;
        self.rows.push_reserved(row);
        Published::At(at)
    }
}

impl<'a> RowSeat for ShelfSeat<'a> {
    ghost shows = { λ s. facts_of s };

    fn rows(&self) -> &[Row]
        ensures seen { result.now ≡ (facts_of self.now).seen }
        ensures few { length result.now ≤ 4194304 }
        ensures size { (facts_of self.now).size ≤ 4194304 }
        ensures sound { Sound (facts_of self.now).problem (facts_of self.now).seen }
    {
        self.rows.as_slice()
    }
}
