//! The pseudo-Boolean encoding of a problem: 0/1 constraints whose solutions are the embeddings.
//!
//! It makes the constraint of a line when it is asked for, tells the number of a line, and writes the whole as OPB text.
//!
//! It keeps no list of constraints, only the problem's sizes and the numbers of the pairs that have lines of their own. It
//! offers `Encoding`, by whose numbers a log names a line for each value that is removed. A law of `encoding_theory` says
//! that its solutions are the embeddings.
//!
//! The encoding is that of Gocht, McCreesh and Nordström (2020), and the order of its lines this project's. To make an
//! `Encoding` costs a test for each pattern vertex and target vertex, and two for each pair of pattern vertices. A number
//! costs at most a logarithmic search, and a constraint a few steps for each term. One about two pattern vertices also costs
//! the words of a few rows, and with labels of edges a test for each place to which edges lead.
#![tactic(auto)]

pub mod encoding;
mod line;
pub mod model;
mod numbers;
mod pair_tests;
mod right_row;
mod shared;
mod terms;
mod writer;

pub use encoding::Encoding;
pub use pair_tests::{is_edge_pair, is_non_edge_pair};
