//! A seat at the book over words: the rows that it has seen and those that it keeps for itself, and the token with which it steps.

ghost use Rattle.std.specs.Prelude.{◌≡◌, ◌≤◌, ◌++◌, length};
ghost use Rattle.nogood_book.specs.Rows.{MayFollow, Sound};
ghost use Rattle.nogood_book.specs.Seats.{facts_of, HasKept, HasSeenAll, IsHonest};

use crate::book::RowSeat;
use crate::row::{Published, Row};
use crate::view::View;
use atomic_table::Seat;
use std::marker::Model;

/// The most rows that a seat has, of the book and its own together.
const MOST: usize = 4_194_304;

/// One owner's place at a `RowBook`. It has a copy of the rows that it has seen, with room for all rows of the book: 16 bytes each.
/// Behind them stand the rows that it keeps for itself, once each row of the book is used and seen, until one of these has no room.
#[derive(Drop)]
pub struct BookSeat {
    pub(crate) seat: Seat<u8, View>,
    pub(crate) rows: Vec<Row>,
    pub(crate) most: u32,
    pub(crate) owner: u8,
    pub(crate) ended: bool,
}

impl Model for BookSeat {
    ghost use Rattle.nogood_book.specs.Seats.{SeatName, IsSeat, behind};

    ghost Value = { SeatName };

    ghost view = { λ s. record {
      table = s.seat.table_id;
      id = s.seat.id;
      view = s.seat.me.0;
      own = behind s.seat.me.0 s.rows.items;
      ended = s.ended;
    } };

    ghost invariant = { λ s. IsSeat s.seat.table_id s.seat.me s.rows s.most s.owner
        s.ended };
}

impl BookSeat {
    /// How many rows of the book it has seen.
    pub(crate) fn len(&self) -> usize
        ensures len { result ≡ length self.now.view.seen }
        ensures honest { IsHonest self.now }
    {
        self.rows.len().min(self.most as usize)
    }

    /// Keeps a row for itself, behind all that it has. Where these are as many as it may have, or memory is refused, it does not, and
    /// keeps none from then on.
    pub(crate) fn keep(&mut self, row: Row) -> Published
        requires all { HasSeenAll self.old }
        requires owner { row.owner ≡ self.old.view.owner }
        requires row { MayFollow self.old.view.problem (self.old.view.seen ++ self.old.own) row }
        ensures kept { HasKept row self.old self.new result }
        ensures honest { IsHonest self.new }
    {
        if self.ended {
            return Published::Full;
        }
        let at = self.rows.len();
        if at >= MOST {
            self.ended = true;
            return Published::Full;
        }
        match self.rows.push(row) {
            Ok(()) => Published::At(at as u32),
            Err(_) => {
                self.ended = true;
                Published::Full
            }
        }
    }
}

impl RowSeat for BookSeat {
    ghost shows = { λ s. facts_of s };

    fn rows(&self) -> &[Row]
        ensures seen { result.now ≡ (facts_of self.now).seen }
        ensures few { length result.now ≤ 4194304 }
        ensures size { (facts_of self.now).size ≤ 4194304 }
        ensures sound { Sound (facts_of self.now).problem (facts_of self.now).seen }
        ensures honest { IsHonest self.now }
    {
        self.rows.as_slice()
    }
}
