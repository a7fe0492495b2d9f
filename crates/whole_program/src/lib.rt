//! The whole program: `run` takes words and files, and gives an answer and an exit status.
//!
//! It decides the jobs of a batch, which a file lists, beside each other, and hands all other words to `run_single`. It keeps
//! nothing between calls, and works over any files and sinks. It offers `run`, whose contract says what each status means,
//! and `batch`.
//!
//! A batch keeps all its problems in memory, and the answers until the last is there. Each job is searched by one worker,
//! so its answer is that of a `solve` by itself. A batch may wait for other threads; `run_single` never does.
#![tactic(auto)]

pub mod batch;
mod deciding;
mod jobs;
mod lines;
mod list;
pub mod program;
pub mod verdict;
mod work;

pub use program::run;
