//! A box as its pointer, and back.
//!
//! Who keeps a box behind a pointer that code in C holds takes it apart here and makes it again: the pointer owns what the box owned.
#![tactic(auto)]

pub mod loose;
