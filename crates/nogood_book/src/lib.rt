#![tactic(auto)]
//! The book of nogoods that workers share: one list of rows, which only grows.
//!
//! Several threads add rows to it and catch up with what others have added. In `RowBook` none of them waits.
//!
//! It keeps rows. A row is a guess or a nogood: a pair of a vertex and a value, below the path of its parent row. No
//! embedding extends the path of a nogood, whoever wrote it. It offers the trait `Book` with `catch_up`, `publish`
//! and `place`, and the type `RowBook`. A seat shows the rows that its owner has seen and those that it keeps, and `push_path` tells the path of a row.
//!
//! A full book ends no learning. Once each of its rows is used and seen, `place` has a seat keep its owner's further rows for itself, behind
//! those of the book, where no other seat sees them: up to 4,194,304 rows with the book's. So with one seat the rows are the same,
//! however few of them are the book's, where memory for them is given.
//!
//! Nogoods at restarts are those of Lecoutre, Sais, Tabary and Vidal (2007). Each row for which a `RowBook` has room takes 8
//! bytes, and 16 more for each seat. A row that a seat keeps for itself takes 16 to 32
//! bytes, since the list doubles; where memory is refused the row is left out, and those that follow. To add a row to the book takes one
//! try, and one more for each row that others add first.

mod book;
mod laws;
mod path;
mod row;
mod row_book;
mod seat;
mod shared;
mod view;
mod word;

pub use book::{Book, RowSeat};
pub use laws::row_laws;
pub use path::push_path;
pub use row::{Published, Row, RowKind};
pub use row_book::RowBook;
pub use seat::BookSeat;
