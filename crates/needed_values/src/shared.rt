//! Rows of values that share neighbours are read by workers: they may be sent to another thread, and read from several at once.

use crate::sharers::Sharers;

/// Takes a type that may be sent and shared.
const fn is_shared<T: Send + Sync>() {}

/// The rows may be sent and shared.
const fn sharers_are_shared() {
    is_shared::<Sharers<'static>>();
}
