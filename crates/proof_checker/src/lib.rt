//! The checker: a model and a log go in, and a verdict comes out.
//!
//! It checks a log of any origin line by line, and tells the claim of the last line, or the first faulty line with its first
//! cause. It knows no graph and shares no code with a search.
//!
//! It keeps the constraints of the model and those of the log that stand, and of the text only the line that has not ended.
//! It offers `check` for a log in memory, `check_file` for one in a file, `Checker` for one in pieces, `LineChecker` for
//! single lines, and `evaluate` for the operations of one.
//!
//! The lines are those of pseudo-Boolean proof logs (Gocht, McCreesh and Nordström 2020): cutting planes in reverse Polish
//! notation, and clauses by unit propagation. A clause names the constraints that it needs. If the first line says that there
//! are no hints, all constraints so far are used. A line costs its bytes and the terms that it touches, and `check_file`
//! reads pieces of 64 KiB.
#![tactic(auto)]

mod checker;
mod closing;
mod cutting;
mod line_checker;
mod lines;
mod log_file;
mod ones;
mod ranges;
mod stack;
mod whole_log;

pub use checker::Checker;
pub use line_checker::LineChecker;
pub use lines::Turn;
pub use log_file::{Checked, check_file};
pub use pb_propagation::LineFault;
pub use stack::evaluate;
pub use whole_log::check;
