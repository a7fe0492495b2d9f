//! Several workers decide one problem.
//!
//! The crate propagates the root once. Then 1 to 64 searches run in parallel and share what they refute in one book. They end
//! when one of them has an answer, or when all have spent their budgets.
//!
//! It keeps nothing between calls. If a log is asked for, the answer carries it. It offers `solve`, and `solve_alone`, one
//! search that needs no leave to make threads; `solve_with` and `solve_alone_with` are the same at a gate, which each worker passes
//! and by which the caller may end the call, and `solve_alone_beside` takes sequences that are kept of a target. What an answer
//! means is the same for every number of workers. Which embedding is found can differ.
//!
//! Workers that differ in their random choices and share nogoods at restarts are those of Archibald et al. (2019). Each
//! worker takes memory for its domains, its nogoods, 16 bytes for each row of the book and for each row that it keeps for itself
//! once the book is full, and its part of 64 MiB of rows. A log also takes the encoding and the lines of each dead path.
#![tactic(auto)]

pub mod answers;
pub mod job;
mod running;
pub mod solving;
mod tally;
mod team;

pub use answers::{Interrupted, Settings, Solved};
pub use proof_collection::{Logged, Proof};
pub use solving::{solve, solve_alone, solve_alone_beside, solve_alone_with, solve_with};
