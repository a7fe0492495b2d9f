//! Tests of the lines of a log: those of pairs of vertices, of first domains, of sets and of dead paths.
//!
//! Each is over a small problem, has the lines to the letter, and has a log with them that a checker accepts. The texts come from the forms that
//! lines have, line number by line number of the encoding, as the document on formats shows them.
#![tactic(auto)]

#[cfg(test)]
mod checked;
#[cfg(test)]
mod dead_path_tests;
#[cfg(test)]
mod first_line_tests;
#[cfg(test)]
mod logs;
#[cfg(test)]
mod map_tests;
#[cfg(test)]
mod nogood_tests;
#[cfg(test)]
mod row_line_tests;
