//! Graphs as bit rows, problems of two graphs, and mappings as text.
//!
//! The crate makes a graph from the parts of a text, tests whether a mapping is an embedding, and reads and writes mappings.
//!
//! It keeps for each vertex a label, a degree and a bit row of its neighbours. Directions add a row and a degree for each
//! vertex, and labels of edges a label for each edge. A problem says which images have to differ and which pairs of images
//! are to be in order. The crate offers `Graph` with `edge`, `label`, degrees and rows, `Problem`
//! with the tests `allowed` and `compatible`, and `read_mapping` and `write_mapping`.
//!
//! By bit rows a search cuts domains by whole words (Ullmann 2010). A graph of n vertices takes n rows of n bits, or twice as
//! many with directions. `has_edge` costs one word, and `is_embedding` one test for each two pattern vertices.
#![tactic(auto)]

mod edge_labels;
pub(crate) mod gathered;
pub mod graph;
pub mod mapping;
mod marks;
pub mod near;
pub mod problem;
mod shared;

pub use graph::Graph;
pub use graph_theory::mapping_text::MapFault;
pub use mapping::{read_mapping, write_mapping};
pub use problem::Problem;
