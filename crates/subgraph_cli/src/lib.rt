//! The program for one problem: `run_single` takes words and files, and gives an answer and an exit status.
//!
//! It reads the words, runs the command that they name, and writes the answer. With `--prove` it writes the two files of the
//! proof first.
//!
//! It keeps nothing between calls, and works over any files and sinks, so tests run it over memory. It offers `run_single`, whose
//! contract says what each status means, and a function for each of `solve`, `verify`, `encode`, `check`, `trim` and
//! `demo`.
//!
//! The search and the logs come from the crates below, whose heads name the authors. The commands are this project's own.
//! `solve` keeps both graphs in memory while it searches, `encode` the graphs and one constraint, `check` the encoding and
//! what the log makes, and `trim` the encoding and both logs.
#![tactic(auto)]

mod accepting;
pub mod check;
pub mod deciding;
pub mod demo;
pub mod encode;
mod kept;
mod out_file;
pub mod program;
mod proving;
pub mod question;
pub mod solve;
pub mod stop;
pub mod telling;
pub mod trim;
pub mod verify;

pub use program::run_single;
