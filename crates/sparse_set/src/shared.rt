//! A worker takes its sets to its thread, so they may be sent to another thread, and read from several.

use crate::SparseSet;

/// Takes a type that may be sent and shared.
const fn is_shared<T: Send + Sync>() {}

/// A set may be sent and shared.
const fn is_set_shared() {
    is_shared::<SparseSet>();
}
