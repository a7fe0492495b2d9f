//! One proof log of the journals of several owners, and the logs of a solution and of no answer.
//!
//! The log of a refutation is merged after the search: owner 0's lines, then for each nogood of a shared book in order its owner's
//! lines up to its clause and the line that shares this, then the finisher's further lines. A journal is its text already, so that
//! merging copies parts of texts to a sink and takes no memory; a clause says that the log is accepted wherever the journals are
//! journals over the model. The other two logs are a head and one line. The layer above gathers the journals and chooses the file.
//! (Proof logs: S. Gocht, C. McCreesh, J. Nordström 2020.)
#![tactic(auto)]

mod answers;
mod head;
mod laws;
mod notes;
mod ones;
mod parts;
mod refutation;
mod rows;

pub use answers::{write_solution, write_undecided};
pub use laws::premise_laws;
pub use notes::note_laws;
pub use ones::ones_of;
pub use refutation::{may_be_merged, write_refutation};
