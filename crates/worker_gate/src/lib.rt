//! Where workers meet beside the book of nogoods: a gate at which each may be held, and a cell for the first answer.
//!
//! A worker tells its gate when it starts, when a guess is due and when it restarts; the open gate lets it go on at once, and
//! a gate of the caller's own may wait, which is how a test shows that two workers run beside each other. Before each guess the
//! worker asks whether the gate is closed, by which its caller may end a search that is not decided. An answer is true of
//! the problem that it carries, whoever gives it. The cell keeps the first answer that comes, and a note of it never loses
//! what it has seen, so the layer above may stop on what a note knows. The cell is set once by one exchange of a pointer.
#![tactic(auto)]

pub mod answer;
pub mod cell;
pub mod gate;
mod shared;

pub use answer::{Answer, Said};
pub use cell::{AnswerCell, Note};
pub use gate::{Gate, OpenGate, Point};
