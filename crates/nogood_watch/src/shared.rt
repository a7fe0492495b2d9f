//! A worker takes its nogoods to its thread, so they may be sent to another thread, and read from several.

use crate::watched::Watched;

/// Takes a type that may be sent and shared.
const fn is_shared<T: Send + Sync>() {}

/// Watched nogoods may be sent and shared.
const fn are_shared() {
    is_shared::<Watched>();
}
