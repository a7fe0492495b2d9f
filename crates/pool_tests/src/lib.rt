#![tactic(auto)]
//! Tests of the pool of workers, apart since a crate with tests is proved twice.
//!
//! They show what no clause says: that workers run beside each other and are named, that the caller does a job again where a worker
//! was refused memory, that the gate is told once of each job, and that a batch without workers or without jobs comes to its end.

#[cfg(test)]
mod pool_tests;
