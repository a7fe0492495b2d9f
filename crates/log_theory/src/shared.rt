//! Workers keep lines of a log and hand them back from their threads, so lines may be sent to another thread and read from several.

use crate::step::{Cause, Step, Verdict};

/// Takes a type that may be sent and shared.
const fn is_shared<T: Send + Sync>() {}

/// Lines, causes and verdicts may be sent and shared.
const fn are_shared() {
    is_shared::<Step>();
    is_shared::<Cause>();
    is_shared::<Verdict>();
}
