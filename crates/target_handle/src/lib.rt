//! A target that was read, kept behind an address that C can hold.
//!
//! No type of Rattle's that holds a `Vec` may cross to C. So a handle is two words that mean nothing there: an address, and whether a
//! target is there. What stands at the address is a box, which is put together again for each call and taken apart behind it, without
//! memory. Proofs by hand, since the borrow checker does not follow addresses, are those of `handle` alone.
#![tactic(auto)]

pub mod handle;
pub mod open_target;
mod opening;
