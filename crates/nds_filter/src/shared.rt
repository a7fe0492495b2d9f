//! Sequences and the rows made of them may be sent to another thread, and read from several at once.

use crate::kept::KeptRows;
use crate::sequences::Sequences;

/// Takes a type that may be sent and shared.
const fn is_shared<T: Send + Sync>() {}

/// Sequences and the rows made of them may be sent and shared.
const fn are_shared() {
    is_shared::<Sequences>();
    is_shared::<KeptRows>();
}
