//! What tests share: tables of worked examples, small graphs, files in memory and texts of models.
//!
//! A table's row is a type of its own that tells whether it holds. One loop goes over the rows of every table, since a loop is the costly
//! part of a test's proof; and one function tells which row does not hold, since an assertion that formats what it compares takes five
//! seconds of each test's proof. No part of the program stands on this crate.
#![tactic(auto)]

mod files;
pub mod models;
mod orders;
mod samples;
mod triangle;

pub use files::{InMemory, files_in_memory};
pub use orders::order_of;
pub use samples::{APART, EDGE, FOUR_CYCLE, PATH, TRIANGLE, graph, graph_in, graph_of_size};
use std::alloc::{AllocError, Global};
use std::test::Fail;
pub use triangle::triangle_into_cycle;

/// A worked example: a row of a table. `R` is what it runs with.
pub trait Example<R> {
    /// Whether it comes out as it tells.
    fn holds(&self, rt: &R, alloc: Global) -> Result<bool, AllocError>;
}

/// The place, from 0, of the first row that does not hold. Cost: that of the rows up to it.
pub fn first_wrong<R, E: Example<R>>(
    rt: &R,
    alloc: Global,
    rows: &[E],
) -> Result<Option<usize>, AllocError> {
    for (at, row) in rows.iter().enumerate() {
        if !row.holds(rt, alloc)? {
            return Ok(Some(at));
        }
    }
    Ok(None)
}

/// That no row was found to be wrong, or which one was, as the failure of a test.
pub fn none_wrong(found: Option<usize>) -> Result<(), Fail> {
    match found {
        None => Ok(()),
        Some(at) => Err(Fail::new(format_args!("row {at} does not hold"))),
    }
}

/// That all rows hold, or which is the first that does not, as the failure of a test.
pub fn all_hold<R, E: Example<R>>(rt: &R, alloc: Global, rows: &[E]) -> Result<(), Fail> {
    none_wrong(first_wrong(rt, alloc, rows)?)
}

#[cfg(test)]
mod tests;
