//! A worker takes its generator to its thread, so it may be sent to another thread, and read from several.

use crate::Chooser;

/// Takes a type that may be sent and shared.
const fn is_shared<T: Send + Sync>() {}

/// A generator may be sent and shared.
const fn chooser_is_shared() {
    is_shared::<Chooser>();
}
