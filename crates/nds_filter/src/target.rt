//! The sequences of a target that many patterns are looked for in.

ghost use Rattle.std.specs.Prelude.{◌≡◌, IfOk, IfSome};
ghost use Rattle.graph_theory.specs.Graph.{Graph as TheGraph};
ghost use Rattle.graph_theory.specs.Reversed.{turned};
ghost use Rattle.nds_filter.specs.Sequences.{sequences};
ghost use Rattle.nds_filter.specs.Target.{AreOf};

use crate::sequences::Sequences;
use graph_rows::Graph;
use graph_theory::direction::Direction;
use std::alloc::{AllocError, Global};
use std::marker::Model;

/// The sequences of a graph in both directions, made once for whoever looks for many patterns in it. Where its edges are known to stand both ways,
/// those of one direction are all.
pub struct TargetSequences {
    out: Sequences,
    back: Option<Sequences>,
}

impl Drop for TargetSequences {
    /// In one call, for whoever lets one go.
    fn drop(self) {
        let TargetSequences { out: _, back: _ } = self;
    }
}

impl Model for TargetSequences {
    ghost use Rattle.nds_filter.specs.Target.{Kept};

    ghost Value = { Kept };

    ghost view = { λ k. record {
      out = k.out;
      back = k.back;
    } };
}

impl TargetSequences {
    /// Those of this graph. Cost: that of `Sequences::new`, twice where edges are not known to stand both ways.
    pub fn new(alloc: Global, graph: &Graph) -> Result<TargetSequences, AllocError>
        ensures { IfOk result (λ k. AreOf k graph.now) }
    {
        let out = Sequences::new(alloc, graph, Direction::Out)?;
        let back = sequences_back(alloc, graph)?;
        Ok(TargetSequences { out, back })
    }

    /// Those in this direction, if they are kept.
    pub(crate) fn by(&self, direction: Direction) -> Option<&Sequences>
        ensures { (g : TheGraph) → AreOf self.now g
            → IfSome result (λ s. s.now ≡ sequences (turned direction g)) }
    {
        match direction {
            Direction::Out => Some(&self.out),
            Direction::In => self.back.as_ref(),
        }
    }
}

/// Those of the edges that lead in, where edges are not known to stand both ways.
fn sequences_back(alloc: Global, graph: &Graph) -> Result<Option<Sequences>, AllocError>
    ensures { IfOk result (λ s. IfSome s (λ b. b ≡ sequences (turned Direction.In graph.now))) }
{
    if graph.is_mutual() {
        return Ok(None);
    }
    let back = Sequences::new(alloc, graph, Direction::In)?;
    Ok(Some(back))
}
