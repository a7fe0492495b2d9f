//! The two files that show what a search found: the encoding of its problem, and a log over this.
//!
//! This layer writes the encoding whole and then the log, and promises what the files hold whatever call on them fails. After an embedding
//! the log claims the solution that belongs to it, after a refutation it is the merged log of the journals, and after a search that found
//! nothing it claims nothing; each is accepted by a checker of logs over the encoding, with this verdict. The layers below write the texts;
//! the layer above searches, names the files and tells its user of faults.
#![tactic(auto)]

mod files;
mod finding;
mod log;

pub use files::write_proof;
pub use finding::Finding;
pub use log::write_refuted;
