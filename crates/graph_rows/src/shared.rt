//! Graphs and problems are shared by workers: both may be sent to another thread, and read from several at once.

use crate::graph::Graph;
use crate::problem::Problem;

/// Takes a type that may be sent and shared.
const fn is_shared<T: Send + Sync>() {}

/// A graph and a problem may be sent and shared.
const fn are_shared() {
    is_shared::<Graph>();
    is_shared::<Problem>();
}
