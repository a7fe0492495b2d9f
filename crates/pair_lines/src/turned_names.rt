//! The names of the lines that count shared neighbours, a table for each direction.

ghost use Rattle.std.specs.Prelude.{◌≡◌, [], List};
ghost use Rattle.graph_theory.specs.Embedding.{Problem as TheProblem};
ghost use Rattle.proof_theory.specs.Forms.{Form};
ghost use Rattle.log_growth.specs.Frames.{Frame};
ghost use Rattle.pair_lines.specs.Claims.{AreTurned};

use crate::pair_names::PairNames;
use std::alloc::Global;

/// The names of the lines that count neighbours as edges lead to them, and as edges lead from them.
pub struct Spreads {
    pub(crate) out: PairNames,
    pub(crate) back: PairNames,
}

impl Drop for Spreads {
    /// In one call, for whoever lets one go.
    fn drop(self) {
        let Spreads { out: _, back: _ } = self;
    }
}

impl Spreads {
    /// No name. It takes no memory.
    pub fn new(alloc: Global) -> Spreads
        ensures names { (w : Frame) (q : TheProblem) (forms : List Form)
            → AreTurned w q result forms }
    {
        Spreads {
            out: PairNames::new(alloc),
            back: PairNames::new(alloc),
        }
    }
}
