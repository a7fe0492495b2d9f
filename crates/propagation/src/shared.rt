//! What a worker propagates with goes to its thread, so it may be sent to another thread, and read from several.

use crate::filters::Filters;
use crate::nogoods::Nogoods;

/// Takes a type that may be sent and shared.
const fn is_shared<T: Send + Sync>() {}

/// Filters and nogoods may be sent and shared.
const fn are_shared<'a>() {
    is_shared::<Filters<'a>>();
    is_shared::<Nogoods>();
}
