#![tactic(auto)]
//! A book of nogoods under one lock, the plainest one that threads can share.
//!
//! The rows stand in a list beside the problem that they are about. The type of what is locked keeps each nogood true of that
//! problem, and nothing more is known when the lock is taken: so a seat looks whether the list begins with what it has seen, and
//! works on its own copy of the rows where it does not.
//!
//! Its calls wait for the lock. A layer above that is not to wait takes `nogood_book::RowBook`; both are a `Book`.

mod bundle;
mod seat;
mod shared;
mod shelf;

pub use seat::ShelfSeat;
pub use shelf::LockedShelf;
