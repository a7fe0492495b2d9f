//! Who is told of a search, so that a proof of its answer can be written.
//!
//! A search that refutes tells a logger each dead path, with all that was told of its domains, before it goes back; what rows of a
//! shared book, or of its own behind that, the refuted values became; and when a run ends. A logger that writes a line for each dead path has, once the empty path
//! is dead, a proof that no embedding exists. `Unlogged` is told and does nothing, at no cost.
#![tactic(auto)]

mod logger;

pub use logger::{ProofLogger, Unlogged};
