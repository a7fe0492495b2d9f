//! Who keeps the lines that a search gives its proof log.
//!
//! A search tells a keeper each line and gets the line's name; beside it notes which of its lines is the clause of which row of a shared
//! book. `Journal` keeps the lines as their text, so that a reference takes a few bytes and writing the log is copying; contracts
//! see the list of steps. `NoLog` keeps nothing, at no cost. The text is this project's own (proof logs: S. Gocht, C. McCreesh,
//! J. Nordström 2020).
#![tactic(auto)]

mod journal;
mod keeper;
mod shared;

pub use journal::Journal;
pub use keeper::{Keeper, NoLog};
