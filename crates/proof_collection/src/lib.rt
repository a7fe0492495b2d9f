//! The proof that a search by several workers leaves.
//!
//! Each worker tells a logger of its own what it does. This layer makes these loggers, and once a worker has refuted the problem brings what
//! they keep together: the rows of the workers' book and each owner's journal, from which the log of the refutation is written. Where no
//! log is asked for nothing is kept, and nothing is to be brought together. The layer above runs the workers and needs not know which of
//! the two it is.
#![tactic(auto)]

mod lines;
mod maker;
mod owner_log;
mod proof;
mod shared;

pub use lines::KeepsLines;
pub use maker::{KeepsNothing, ProofMaker};
pub use owner_log::OwnerLog;
pub use proof::{Logged, Proof};
