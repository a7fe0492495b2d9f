//! Pseudo-Boolean constraints as OPB text, written and read.
//!
//! This layer puts the text of a model to a sink, a term at a time and without memory, and reads a text in one pass to
//! the model that it tells, or to its first faulty line with the cause. What is written and what is read are the
//! definitions' text and answer, so what is written is read back. The format is the linear one of the pseudo-Boolean
//! competitions (Roussel, Manquinho, 2006), one constraint a line, without objectives, equalities and products.
#![tactic(auto)]

mod bound;
mod constraint_line;
mod fault;
mod head;
mod line_words;
mod misplaced;
mod model;
mod numbers;
mod reader;
mod terms;
mod word_kinds;
mod writer;

pub use fault::OpbFault;
pub use log_theory::OpbCause;
pub use model::Model;
pub use reader::read_opb;
pub use writer::{append_line, write_head, write_line, write_opb};
