//! Counts may be sent to another thread, and read from several at once.

use crate::Counts;

/// Takes a type that may be sent and shared.
const fn is_shared<T: Send + Sync>() {}

/// Counts may be sent and shared.
const fn are_shared() {
    is_shared::<Counts>();
}
