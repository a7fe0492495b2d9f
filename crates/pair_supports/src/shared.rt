//! Rows of consistent values may be sent to another thread, and read from several at once.

use crate::pair_kinds::PairKinds;
use crate::rows::PairSupports;

/// Takes a type that may be sent and shared.
const fn is_shared<T: Send + Sync>() {}

/// Rows of consistent values may be sent and shared.
const fn are_shared() {
    is_shared::<PairKinds>();
    is_shared::<PairSupports>();
}
