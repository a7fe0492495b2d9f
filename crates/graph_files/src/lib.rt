//! Graphs from files.
//!
//! This layer loads a file, reads its text and makes the graph, or says why the file is refused. The layer above may
//! use the graph that the file's bytes are, and knows which call on the files failed where one did.
#![tactic(auto)]

pub mod graph_file;

pub use graph_file::{GraphFault, load_graph};
