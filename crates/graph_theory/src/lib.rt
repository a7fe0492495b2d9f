//! What the solver's answers mean.
//!
//! This layer is the lowest of the graph side, and the one to read first: the words of a text and the graphs that
//! they write, embeddings of a pattern into a target, dead paths, and the text of a mapping. It holds definitions,
//! the laws over them, and a plain program that decides them on small inputs and serves as the reference for every
//! faster body above. It knows nothing of bit rows, domains or search.
#![tactic(auto)]

pub mod direction;
pub mod embedding;
pub mod lad_text;
pub mod listed_graph;
pub mod mapping_lines;
pub mod mapping_text;
pub mod neighbours;
pub mod path;
pub mod plain;
pub mod plain_lad;
pub mod text_words;
pub mod trial;
