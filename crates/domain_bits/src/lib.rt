#![tactic(auto)]
//! Domains of values for the vertices of a pattern: which target vertices each may still go to.
//!
//! The layer keeps a bit row and a size for each vertex, and a trail of what was removed. A layer above sees none of these: it
//! sees the sizes of the problem and the list of the removed pairs in their order, and a domain is what the trail has not removed.
//! So to undo is to cut the trail, and two domains with equal trails are equal. A layer above may rely on `assign` and `intersect`
//! entering what they remove by rising value, and on nothing being allocated once the domains are made.
//!
//! The rows are those of bit-parallel filtering (Ullmann 2010, McCreesh and Prosser 2015), the trail that of backtracking solvers.

mod domains;
mod row_filters;
mod shared;
mod trail;
mod word_trail;

pub use bit_rows::{and_into, and_not_into, count_ones, or_into};
pub use domains::{Domains, Mark};
pub use trail::{PairTrail, Run, Trail};
pub use word_trail::WordTrail;
