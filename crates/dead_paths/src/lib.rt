//! The line of a log that refutes a dead path.
//!
//! The crate walks back over the changes that a search recorded, and chooses those on which the end of the path rests. Then
//! it has the lines made that these need, and adds one line: the clause that not all pairs of the path hold.
//!
//! It keeps `Ground`, the encoding with the rows of values that share neighbours, which all workers read, and `Scratch`,
//! memory that one path leaves to the next. It offers `explain`, which does this, and the traits `LineMaker` and `RowNames`,
//! by which it asks for lines. `keep_set` makes the line of vertices that were counted together.
//!
//! Changes that are explained only when needed are those of Ohrimenko, Stuckey and Codish (2009), and the lines those of
//! Gocht, McCreesh and Nordström (2020). A path costs one step back for each change since the domains were full, and for each
//! chosen change its lines. The log gets a few lines, whatever else was removed.
#![tactic(auto)]

mod beside;
mod dead_line;
mod ground;
mod known;
mod lines;
mod lookups;
mod maker;
mod needs;
mod pushes;
mod room;
mod sets;
mod shared;
mod takes;
mod walk;

pub use beside::{Beside, BlockSet};
pub use dead_line::{DeadPath, explain};
pub use ground::Ground;
pub use lines::keep_set;
pub use maker::{Basis, LineMaker, RowNames};
pub use room::Scratch;
