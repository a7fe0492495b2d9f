//! The command line: which command a list of words is, or that it is none.
//!
//! This layer turns the program's words into a command with its names, options and numbers, and knows nothing of
//! files or graphs. A word list is first read by one `clap` command with a level of subcommands; then the project's
//! own tests follow: the length of a name, the range of a number, the name of a format, the form of a list of pairs. What counts as a command for one
//! problem is one definition, `command`, of the words alone, and what counts as a batch of them another, `batch`; no words are both. The
//! layer above may rest on them: a command that is given out is that definition's, and a list of words is refused only
//! where the definition has none. A command's names are within their length, and what it asks of a map is sound, by their types, and its numbers within their
//! ranges by a clause.
#![tactic(auto)]

pub mod asking;
pub mod batch;
pub mod commands;
pub mod file_name;
mod grammar;
pub mod pairs;
pub mod reading;

pub use asking::AskWords;
pub use batch::{BatchWords, batch_of};
pub use commands::{
    CheckWords, Command, DemoWords, EncodeWords, ProveWords, SolveWords, TrimWords, VerifyWords,
};
pub use file_name::FileName;
pub use pairs::Pairs;
pub use reading::{Refusal, command_of};
