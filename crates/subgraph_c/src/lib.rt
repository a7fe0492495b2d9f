//! The solver as a static library for C, C++ and Python.
//!
//! Each export reads its texts from memory, judges the numbers that it uses, and answers by a status. It keeps nothing
//! between calls but the targets and the flags that are open, starts no thread, and gives back all other memory that it
//! takes. The exports have no `requires`: what C owes beside them is that its pointers are good.
#![tactic(auto)]

mod asking;
pub mod calls;
pub mod checking;
pub mod deciding;
pub mod encoding;
pub mod flags;
pub mod handles;
mod holding;
mod numbers;
pub mod passed;
pub mod refusal;
mod reports;
pub mod verifying;
