//! The book under a lock.

ghost use Rattle.std.specs.Prelude.{◌≡◌, ◌≤◌, [], length, IfOk};
ghost use Rattle.nogood_book.specs.Rows.{MayFollow};
ghost use Rattle.nogood_book.specs.Facts.{CaughtUp, IsPlaced, IsPublished};
ghost use Rattle.locked_shelf.specs.Shelf.{facts_of, fresh};

use crate::bundle::Bundle;
use crate::seat::ShelfSeat;
use graph_rows::Problem;
use nogood_book::{Book, Published, Row};
use std::alloc::{AllocError, Global};
use std::marker::Model;
use std::sync::{Mutex, Wait};

/// A book of at most 4,194,304 rows for one problem, under a lock. It keeps the handle that taking the lock asks for.
pub struct LockedShelf<'a, R: Wait + Sync> {
    rt: &'a R,
    problem: &'a Problem,
    most: u32,
    bundle: Mutex<Bundle<'a>>,
}

impl<'a, R: Wait + Sync> Model for LockedShelf<'a, R> {
    ghost use Rattle.std.specs.Prelude.{◌≤◌};
    ghost use Rattle.locked_shelf.specs.Shelf.{ShelfName};

    ghost Value = { ShelfName };

    ghost view = { λ b. record { problem = b.problem.now; size = b.most } };

    ghost invariant = { λ b. b.most ≤ 4194304 };
}

impl<'a, R: Wait + Sync> Drop for LockedShelf<'a, R> {
    /// In one call, for whoever lets one go.
    fn drop(self) {
        let LockedShelf {
            rt: _,
            problem: _,
            most: _,
            bundle: _,
        } = self;
    }
}

impl<'a, R: Wait + Sync> LockedShelf<'a, R> {
    /// A book with no row written.
    pub fn new(
        rt: &'a R,
        alloc: Global,
        q: &'a Problem,
        rows: u32,
    ) -> Result<LockedShelf<'a, R>, AllocError>
        requires { rows ≤ 4194304 }
        ensures { IfOk result (λ b. b ≡ record { problem = q.now; size = rows }) }
    {
        let room = Vec::with_capacity(alloc, rows as usize)?;
        Ok(LockedShelf {
            rt,
            problem: q,
            most: rows,
            bundle: Mutex::new(Bundle::new(q, room)),
        })
    }

    /// A seat of this owner, which has seen nothing yet.
    pub fn seat(&self, alloc: Global, owner: u8) -> Result<ShelfSeat<'a>, AllocError>
        ensures { IfOk result (λ s. s ≡ fresh self.now.problem owner self.now.size) }
    {
        let room = Vec::with_capacity(alloc, self.most as usize)?;
        Ok(ShelfSeat::new(self.problem, owner, self.most, room))
    }
}

impl<'a, R: Wait + Sync> Book for LockedShelf<'a, R> {
    type Seat = ShelfSeat<'a>;

    ghost fits = { λ b s. s.most ≡ b.size };

    fn catch_up(&self, seat: &mut ShelfSeat<'a>) {
        let bundle = self.bundle.lock(self.rt);
        bundle.show(seat);
    }

    fn publish(&self, seat: &mut ShelfSeat<'a>, row: Row) -> Published {
        let mut bundle = self.bundle.lock(self.rt);
        let serves = bundle.show(seat);
        if serves && seat.has_room() {
            bundle.write(row);
        }
        seat.write(row)
    }

    /// A seat at the shelf keeps no rows that are not the shelf's: this is `publish`.
    fn place(&self, seat: &mut ShelfSeat<'a>, row: Row) -> Published {
        match self.publish(seat, row) {
            Published::At(at) => Published::At(at),
            Published::Full => Published::Full,
        }
    }
}
