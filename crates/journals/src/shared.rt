//! A journal goes to the thread of its owner and back, so it may be sent to another thread, and read from several.

use crate::journal::Journal;
use crate::keeper::NoLog;

/// Takes a type that may be sent and shared.
const fn is_shared<T: Send + Sync>() {}

/// Who keeps lines may be sent and shared.
const fn keepers_are_shared() {
    is_shared::<Journal>();
    is_shared::<NoLog>();
}
