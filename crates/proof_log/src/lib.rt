//! The lines of a proof log, to and from text.
//!
//! `read_step` gives the step that a line of any origin tells, or says that it tells none; `write_step` puts the line of a
//! step to a sink. Both take the profile of the log, which has hints or not; `plain` drops a step's hints. All are exact against
//! the definition of the text in `log_theory`, so that the layers above need nothing of how a line is read, and what is written
//! is read as the same step. The definition reads operations from the right; the reader goes from the left and looks one word
//! ahead, as a number is an operand exactly where `*` or `d` follows it. The text is this project's own, after the proof logs of Gocht,
//! McCreesh and Nordström (2020).
#![tactic(auto)]

pub mod dropping;
pub mod fault;
pub(crate) mod gathering;
pub(crate) mod items;
pub(crate) mod lists;
pub(crate) mod pieces;
pub mod reading;
pub(crate) mod word_buffer;
pub mod writing;

pub use dropping::plain;
pub use fault::StepFault;
pub use reading::read_step;
pub use writing::write_step;
