//! The lines that were made go with their keeper to the thread of a worker and back.

use crate::pair_lines::PairLines;
use crate::turned_names::Spreads;

/// Takes a type that may be sent.
const fn is_sent<T: Send>() {}

/// What names the lines may be sent.
const fn names_are_sent() {
    is_sent::<PairLines>();
    is_sent::<Spreads>();
}
