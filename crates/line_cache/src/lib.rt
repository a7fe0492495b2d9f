//! All lines for first domains, for pairs of vertices and for sets of vertices, each made when it is first asked for.
//!
//! A walk back from a dead path asks for the lines that it names, and most of them it has asked for before. This layer remembers the name
//! of each: of the line for the first domain of a vertex, of the clauses against single values below it, of the line for a vertex at its
//! place and another, and of the line of a set that was counted together, whatever the order of its vertices. What it remembers means the
//! same however many lines follow, and however many rows come.
#![tactic(auto)]

mod maker;
mod set_lines;
mod set_names;

pub use maker::LineCache;
