//! The filter by neighbours' degrees: a vertex goes to none whose neighbours have lesser degrees, place by place.
//!
//! The degrees of a vertex's neighbours in falling order are its sequence. An embedding by an injective map keeps degrees and sends
//! neighbours to neighbours, so the image's sequence goes on as long and is nowhere less (S. Zampelli, Y. Deville,
//! C. Solnon, "Solving subgraph isomorphism problems with constraint programming", 2010). Sequences are made once for
//! each graph, and two of them are compared without memory. The layer above takes for each pattern vertex the row of the
//! values that are kept; vertices of equal sequences share it. All this is done in one direction of the edges, against which neighbours are
//! those from which an edge leads; where edges stand both ways one direction is enough. Whoever looks for many patterns in one target keeps the
//! sequences of that.
#![tactic(auto)]

mod kept;
mod sequences;
mod shared;
mod target;

pub use kept::KeptRows;
pub use sequences::{SequenceAnswer, Sequences, keeps, lesser_sequences_are_dead};
pub use target::TargetSequences;
