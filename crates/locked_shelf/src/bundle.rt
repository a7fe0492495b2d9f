//! What is under the lock.

ghost use Rattle.std.specs.Prelude.{◌≡◌, ◌≢◌, [], true};
ghost use Rattle.std.specs.List.{All};
ghost use Rattle.nogood_book.specs.Rows.{MayFollow};
ghost use Rattle.nogood_book.specs.Places.{StartsWith};
ghost use Rattle.nogood_book.specs.Facts.{CaughtUp};
ghost use Rattle.locked_shelf.specs.Shelf.{HasSeenAll, IsKept, IsWritten, Serves, facts_of};

use crate::seat::ShelfSeat;
use graph_rows::Problem;
use nogood_book::Row;
use std::marker::Model;

/// Rows, and the problem that they are about.
#[derive(Drop)]
pub struct Bundle<'a> {
    problem: &'a Problem,
    rows: Vec<Row>,
}

impl<'a> Model for Bundle<'a> {
    ghost use Rattle.nogood_book.specs.Rows.{Sound};
    ghost use Rattle.locked_shelf.specs.Shelf.{Held};

    ghost Value = { Held };

    ghost view = { λ b. record { problem = b.problem.now; rows = b.rows.items } };

    ghost invariant = { λ b. Sound b.problem.now b.rows.items };
}

impl<'a> Bundle<'a> {
    /// No row of this problem, with the room of a list.
    pub(crate) fn new(problem: &'a Problem, room: Vec<Row>) -> Bundle<'a>
        requires { room.items ≡ [] }
        ensures { (result.problem ≡ problem.now) × (result.rows ≡ []) }
    {
        Bundle {
            problem,
            rows: room,
        }
    }

    /// Shows a seat the rows, if they serve it: then the seat has seen all of them. Else it has its own.
    pub(crate) fn show(&self, seat: &mut ShelfSeat<'a>) -> bool
        ensures caught { CaughtUp (facts_of seat.old) (facts_of seat.new) }
        ensures served { result ≡ true → HasSeenAll self.now seat.new }
    {
        if !self.serves(seat) {
            return false;
        }
        seat.take_up(&self.rows);
        true
    }

    /// Whether the rows serve this seat. Cost: the words of both graphs, and the rows.
    fn serves(&self, seat: &ShelfSeat<'a>) -> bool
        ensures serves { result ≡ true → Serves self.now seat.now }
        ensures kept { IsKept seat.now }
    {
        let seen = seat.seen();
        if !self.problem.same(seat.problem()) {
            return false;
        }
        if self.rows.len() > seat.room() {
            return false;
        }
        if !begins(&self.rows, seen) {
            return false;
        }
        are_of_others(&self.rows[seen.len()..], seat.owner())
    }

    /// Writes a row behind the others, where the list has room for it without growing.
    pub(crate) fn write(&mut self, row: Row)
        requires { MayFollow self.old.problem self.old.rows row }
        ensures problem { self.new.problem ≡ self.old.problem }
        ensures rows { IsWritten row self.old.rows self.new.rows }
    {
        if self.rows.len() < self.rows.capacity() {
            self.rows.push_reserved(row);
        }
    }
}

/// Whether the rows begin with those that were seen.
fn begins(rows: &[Row], seen: &[Row]) -> bool
    ensures { result ≡ true → StartsWith rows.now seen.now }
{
    if seen.len() > rows.len() {
        return false;
    }
    for k in 0..seen.len() {
        if rows[k] != seen[k] {
            return false;
        }
    }
    true
}

/// Whether no row is of this owner.
fn are_of_others(rows: &[Row], owner: u8) -> bool
    ensures { result ≡ true → All (λ r. r.owner ≢ owner) rows.now }
{
    rows.iter().all(|row| row.owner != owner)
}
