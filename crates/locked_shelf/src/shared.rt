//! A book under a lock is read from several threads, and its seats may be sent to them.

use crate::bundle::Bundle;
use crate::seat::ShelfSeat;
use crate::shelf::LockedShelf;
use std::sync::Wait;

/// Takes a type that may be sent and shared.
const fn is_shared<T: Send + Sync>() {}

/// A book and its seats may be sent and shared.
fn are_shared<'a, R: Wait + Sync + 'a>() {
    is_shared::<Bundle<'a>>();
    is_shared::<ShelfSeat<'a>>();
    is_shared::<LockedShelf<'a, R>>();
}
