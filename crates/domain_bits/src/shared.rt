//! Domains may be sent to another thread, and read from several at once, whichever trail they keep.

use crate::domains::{Domains, Mark};
use crate::trail::PairTrail;
use crate::word_trail::WordTrail;

/// Takes a type that may be sent and shared.
const fn is_shared<T: Send + Sync>() {}

/// Domains and their marks may be sent and shared.
const fn are_shared() {
    is_shared::<Domains<PairTrail>>();
    is_shared::<Domains<WordTrail>>();
    is_shared::<Mark>();
}
