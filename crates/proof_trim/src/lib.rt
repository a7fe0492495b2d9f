//! Parts of a trimmer of proof logs: where the line of each name stands among the lines that make constraints, which of these lines the
//! last one needs and which one names each of them last, how many needed lines stand before each, and what references and operations
//! become under the new names. What is needed is found by going back from the last line, as in E. Goldberg and Y. Novikov (2003). A name
//! is found by hash. No step is kept: a line is read again where it is asked for.
#![tactic(auto)]

mod forward;
mod hints;
mod index;
mod lines;
mod marks;
mod ranks;
mod reading;
mod references;
mod renaming;
mod renewed;
mod scanning;
mod text;
mod trimmer;

pub use trimmer::{Kept, Trimmed, trim};
