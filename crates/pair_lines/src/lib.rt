//! The lines of a log for a pair of pattern vertices, given to a keeper.
//!
//! For a vertex at one place and another vertex one line takes from the other all values that are not consistent with this. Where shared
//! neighbours are asked for it rests on a line for each neighbour of the place; that line names neither the place nor a value, so that all places of
//! the two vertices rest on the same ones, and a table remembers their names. Where edges have directions and shared neighbours are asked along them and
//! against them there is such a line of either direction, and the line that is answered follows from both. The layers above name the answer in the clauses of dead paths.
//! (Gocht, McCreesh, Nordström, "Subgraph isomorphism meets cutting planes", 2020, derive such counts by cutting planes.)
#![tactic(auto)]

mod both_ways;
mod known;
mod meeting;
mod ops;
mod pair_lines;
mod pair_names;
mod placed_pair;
mod row;
mod shared;
mod sharing;
mod spreads;
mod turned_names;

pub use pair_lines::PairLines;
pub use placed_pair::PlacedPair;
pub use row::{row_line, row_line_with};
pub use turned_names::Spreads;
