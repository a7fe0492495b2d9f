//! What a search is told to goes with it to its thread, so it may be sent to another thread, and read from several.

use crate::causes::{Causes, KeptChanges};
use crate::recorder::Silent;

/// Takes a type that may be sent and shared.
const fn is_shared<T: Send + Sync>() {}

/// Recorders, and what they keep, may be sent and shared.
const fn are_shared<'a>() {
    is_shared::<Causes>();
    is_shared::<KeptChanges<'a>>();
    is_shared::<Silent>();
}
