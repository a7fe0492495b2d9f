//! Whether the numbers of a call are in range.

ghost use Rattle.std.specs.Prelude.{◌≡◌, ◌<◌, ◌≤◌, ◌^◌, None};
ghost use Rattle.std.specs.List.{list_any};
ghost use Rattle.subgraph_c.specs.Asking.{bad_question, bad_search, is_one, AreInRange};

use crate::passed::{Options, Pair};
use crate::refusal::OutOfRange;

/// How many pairs are to be in order at most.
const MOST_PAIRS: usize = 64;

/// The budget up to which none is too large.
const BUDGET_END: u64 = 1 << 63;

/// How many rows there are at most.
const MOST_ROWS: u32 = 4_194_304;

/// Whether a pair names one vertex twice.
fn names_one(less: &[Pair]) -> bool
    ensures { result ≡ list_any is_one less.now }
{
    less.iter().any(|x| x.first == x.second)
}

/// The first number out of range among those that choose the problem.
pub(crate) fn first_bad(options: &Options, less: &[Pair]) -> Option<OutOfRange>
    ensures first { result ≡ bad_question options.now less.now }
    ensures in_range { result ≡ None → AreInRange options.now less.now }
{
    if options.format > 3 {
        return Some(OutOfRange::Format);
    }
    if options.maps > 2 {
        return Some(OutOfRange::Maps);
    }
    if options.induced > 1 {
        return Some(OutOfRange::Induced);
    }
    if options.induced > 0 && options.maps > 0 {
        return Some(OutOfRange::InducedMaps);
    }
    if less.len() > MOST_PAIRS {
        return Some(OutOfRange::ManyPairs);
    }
    if names_one(less) {
        return Some(OutOfRange::OneVertex);
    }
    None
}

/// The first number out of range among those that choose the search.
pub(crate) fn first_bad_search(options: &Options) -> Option<OutOfRange>
    ensures first { result ≡ bad_search options.now }
    ensures budget { result ≡ None → options.now.budget < 2 ^ 63 }
    ensures rows { result ≡ None → options.now.rows ≤ 4194304 }
{
    if options.budget >= BUDGET_END {
        return Some(OutOfRange::Budget);
    }
    if options.rows > MOST_ROWS {
        return Some(OutOfRange::Rows);
    }
    None
}
