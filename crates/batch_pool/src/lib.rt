#![tactic(auto)]
//! A pool of workers that share out the jobs of a batch.
//!
//! The numbers of the jobs stand in a queue that is filled before the workers begin. Each worker takes numbers until the queue is
//! empty, and hands back what it did; the caller puts that in order, takes what is left, and does each job whose answer is still
//! missing. So every job gets its answer, however few workers come to run.
//!
//! The queue is ruled: what it holds and what its passes have taken are together each number once. So no job is taken twice, and
//! none is lost. A pass carries parts of a fixed whole, as the shares of a ledger do, and whoever holds all of them knows the whole.
//!
//! Offered: `Work`, what a job is and which answers are right for it; `JobGate`, which is told who took which job; `run_jobs`.
//!
//! Cost: what the jobs cost, a thread for each worker, and two words a job. A call may wait for other threads.

mod bench;
mod caller;
mod entries;
mod gate;
mod numbers;
mod pool;
mod work;
mod worker;

pub use gate::{JobGate, OpenJobGate};
pub use pool::{Ran, run_jobs};
pub use work::Work;
