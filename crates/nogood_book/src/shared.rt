//! A book is read from several threads, and its seats may be sent to them.

use crate::row::{Published, Row};
use crate::row_book::RowBook;
use crate::seat::BookSeat;

/// Takes a type that may be sent and shared.
const fn is_shared<T: Send + Sync>() {}

/// Takes a type that may be sent.
const fn is_sent<T: Send>() {}

/// Rows and books may be sent and shared, and seats sent.
const fn are_shared() {
    is_shared::<Row>();
    is_shared::<Published>();
    is_shared::<RowBook>();
    is_sent::<BookSeat>();
}
