#![tactic(auto)]
//! The text that lists the jobs of a batch.
//!
//! A line names a pattern's file and a target's file with a blank between, and may end in ` induced`. Names have no blank of any kind
//! in them, so a line says one job at most. A line feed ends a line; at the end of the text it may be missing.
//!
//! Offered: `read_jobs`, which gives the jobs of a text or its first fault, and one of both for every text while memory lasts.
//!
//! Cost: linear in the bytes, and the names of the jobs in memory.

mod fault;
mod job;
#[cfg(test)]
mod list_tests;
mod names;
mod parts;
mod reader;

pub use fault::{ListCause, ListFault};
pub use job::Job;
pub use reader::read_jobs;
