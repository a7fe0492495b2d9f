//! Rows of consistent values: which values of one vertex go together with a value of another.
//!
//! A pair of pattern vertices is of a kind: its edges in both directions, whether its images have to differ, and how many neighbours
//! these have to share in each. There are few kinds, and for each kind and target vertex t one bit row of the u that go with t. The
//! layer above cuts a domain by one row at each assignment, and knows of a row only that it holds exactly the consistent
//! values. Rows are made for all kinds at a target vertex when it is first needed, into memory that was taken before.
//! (A table of compatible values is that of Ullmann's bit-vector algorithms, 2010; shared neighbours as rows are
//! McCreesh's and Prosser's supplemental graphs, 2015.)
#![tactic(auto)]

mod asks;
mod kind_places;
mod kinds;
mod near;
mod pair_kinds;
mod rows;
mod rows_at;
mod shared;

pub use pair_kinds::PairKinds;
pub use rows::{MOST_WORDS, PairSupports};
pub use rows_at::RowsAt;
