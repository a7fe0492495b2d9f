//! Tests of the layers that a search stands on, over what they offer to the layers above.
//!
//! What they show is what no clause says: worked graphs, rows and domains to the bit, each filter on a few vertices, and that an
//! account lives through a small search.
#![tactic(auto)]

#[cfg(test)]
mod account_tests;
#[cfg(test)]
mod asked;
#[cfg(test)]
mod book_tests;
#[cfg(test)]
mod choice_tests;
#[cfg(test)]
mod counting_tests;
#[cfg(test)]
mod degree_tests;
#[cfg(test)]
mod direction_tests;
#[cfg(test)]
mod domain_tests;
#[cfg(test)]
mod first_row_tests;
#[cfg(test)]
mod graph_tests;
#[cfg(test)]
mod neighbour_tests;
#[cfg(test)]
mod row_tests;
#[cfg(test)]
mod sequence_tests;
#[cfg(test)]
mod set_tests;
#[cfg(test)]
mod small_tests;
#[cfg(test)]
mod watch_tests;
