//! What lines stand on is shared by workers: it may be sent to another thread, and read from several at once.

use crate::ground::Ground;

/// Takes a type that may be sent and shared.
const fn is_shared<T: Send + Sync>() {}

/// What lines stand on may be sent and shared.
const fn grounds_are_shared() {
    is_shared::<Ground<'static>>();
}
