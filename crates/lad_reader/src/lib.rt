//! The reader of graphs: it turns LAD text into the parts of a graph, or names the first fault.
//!
//! It reads four formats: plain, with labels of vertices, with directions, and with directions and labels of vertices and
//! edges.
//!
//! It keeps nothing. The parts are the labels, the listed neighbours and the labels of edges, in the order of the text. It
//! offers `read_lad`, whose contract is the grammar: the answer is the one reading that a text has, or its first faulty word
//! and the cause.
//!
//! The plain format is that of Solnon (2010), and the formats with labels or directions are this project's. It passes once
//! over the bytes. It takes memory for words that it has read, and some bytes for each vertex that the text announces. The
//! neighbours of all vertices lie in one block.
#![tactic(auto)]

mod labelled;
pub mod parts;
pub mod reader;
mod words_left;

pub use graph_theory::lad_text::{LadCause, LadFault, LadKind};
pub use parts::{EdgeLabels, GraphParts, Labels, NeighbourLists};
pub use reader::read_lad;
