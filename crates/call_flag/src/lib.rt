//! A flag by which one thread ends a search of another, kept behind addresses that C can hold.
//!
//! A flag begins down and can be put up once. It has two owners: one for who searches, one for who ends the search. No type of
//! Rattle's that shares memory may cross to C, so each owner stands in a box of its own behind a handle, as a target does. What is read
//! of a flag says nothing in a contract: it may be put up at any time.
#![tactic(auto)]

pub mod gate;
pub mod handle;
pub mod opening;
pub mod owner;
