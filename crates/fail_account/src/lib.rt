//! The account of a search: the path where it stands, the values that each level has refuted, and its fails.
//!
//! This layer keeps the position in one vector of pairs and one bit row a level, and the counts of fails against the
//! run's cutoff and the budget. It keeps that every count is within its bound, so that a budget is spent only where it is
//! below the one that is enough. The layer above learns from each call which event has happened, and that the search is
//! nearer to its end. Restarts after 128 fails times the terms of the Luby sequence (Luby, Sinclair, Zuckerman 1993).
#![tactic(auto)]

pub mod account;
pub mod cutoffs;
mod rows;
mod shared;

pub use account::Account;
pub use cutoffs::luby;
