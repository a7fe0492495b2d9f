//! The search of one worker: it guesses, propagates, takes back, and restarts.
//!
//! A worker guesses a value for a vertex of a smallest domain, propagates, and takes the guess back if it fails. At a restart
//! it publishes what its position has refuted, and takes up the nogoods of the book.
//!
//! It keeps a position (the path of guesses, the domains, an account of its fails) and the nogoods that it has taken up. It
//! offers `root`, which propagates the first domains, and `Worker`, whose `run` ends with an embedding, a refutation, a spent
//! budget, another worker's answer, a closed gate, or no memory.
//!
//! The search is that of the Glasgow subgraph solver (McCreesh, Prosser and Trimble 2020), with restarts and biased values of
//! Archibald et al. (2019). A guess costs a propagation, and to take it back costs what was removed since. A restart costs a
//! row for each refuted value, in the book or behind it, and a propagation from the root.
#![tactic(auto)]

mod degrees;
pub mod outcome;
pub mod position;
mod restarting;
pub mod root;
mod search;
mod shared;
mod sharing;
mod value_choice;
mod vertex_choice;
pub mod worker;

pub use outcome::{Outcome, Stage};
pub use worker::{Equipment, Worker, WorkerSettings};
