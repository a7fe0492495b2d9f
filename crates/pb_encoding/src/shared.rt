//! Encodings are shared by workers: one may be sent to another thread, and read from several at once.

use crate::encoding::Encoding;

/// Takes a type that may be sent and shared.
const fn is_shared<T: Send + Sync>() {}

/// An encoding may be sent and shared.
const fn encodings_are_shared() {
    is_shared::<Encoding<'static>>();
}
