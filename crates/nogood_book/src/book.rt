//! What a worker needs of a book: a seat that shows rows, and the two calls that bring more.

ghost use Rattle.std.specs.Prelude.{◌≡◌, ◌≤◌, length};
ghost use Rattle.nogood_book.specs.Rows.{Sound};
ghost use Rattle.nogood_book.specs.Facts.{Facts, CaughtUp, IsPlaced, IsPublished, MayWrite};

use crate::row::{Published, Row};

/// A seat at a book, from which one owner reads and writes.
pub trait RowSeat {
    ghost shows: { Self → Facts };

    /// The rows that this seat has, from the first on: those of the book that it has seen, and behind them those that it keeps for
    /// itself. It takes no memory.
    fn rows(&self) -> &[Row]
        ensures seen { result.now ≡ (shows self.now).seen }
        ensures few { length result.now ≤ 4194304 }
        ensures size { (shows self.now).size ≤ 4194304 }
        ensures sound { Sound (shows self.now).problem (shows self.now).seen };
}

/// One list of rows that several seats read and write.
pub trait Book {
    type Seat: RowSeat;

    /// The seat is one of this book's.
    ghost fits: { Self → Self.Seat → Type 0 };

    /// Brings the rows that others have written into sight. It takes no memory.
    fn catch_up(&self, seat: &mut Self::Seat)
        requires { fits self.now seat.old }
        ensures fits { fits self.now seat.new }
        ensures caught { CaughtUp (Self.Seat.shows seat.old) (Self.Seat.shows seat.new) };

    /// Writes a row behind all others of the book: `Full` exactly where the seat has seen every row of it used. Rows of others may come
    /// into sight. It takes no memory.
    fn publish(&self, seat: &mut Self::Seat, row: Row) -> Published
        requires of { fits self.now seat.old }
        requires owner { row.owner ≡ (Self.Seat.shows seat.old).owner }
        requires row { MayWrite (Self.Seat.shows seat.old) row }
        ensures fits { fits self.now seat.new }
        ensures few { (Self.Seat.shows seat.new).size ≤ 4194304 }
        ensures published { IsPublished row (Self.Seat.shows seat.old) (Self.Seat.shows seat.new)
            result };

    /// Publishes a row, or where the book is full keeps it at this seat alone. `Full` says that the row is nowhere, and that none will be
    /// from then on: the seat has as many rows as it may have, or memory was refused, or it keeps none.
    fn place(&self, seat: &mut Self::Seat, row: Row) -> Published
        requires of { fits self.now seat.old }
        requires owner { row.owner ≡ (Self.Seat.shows seat.old).owner }
        requires row { MayWrite (Self.Seat.shows seat.old) row }
        ensures fits { fits self.now seat.new }
        ensures few { (Self.Seat.shows seat.new).size ≤ 4194304 }
        ensures placed { IsPlaced row (Self.Seat.shows seat.old) (Self.Seat.shows seat.new)
            result };
}
