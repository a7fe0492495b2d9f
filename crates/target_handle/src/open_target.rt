//! A target that was read, and the place where it stands while no call has it.

ghost use Rattle.std.specs.Prelude.{◌≡◌, ◌≤◌, IfOk};
ghost use Rattle.graph_theory.specs.Graph.{size};
ghost use Rattle.nds_filter.specs.Target.{AreOf};

use graph_rows::graph::Graph;
use graph_theory::lad_text::LadKind;
use nds_filter::TargetSequences;
use std::alloc::{AllocError, Global};
use std::marker::Model;

/// A graph of at most 8,192 vertices, the format of the text that it was read from, and the sequences of its vertices, which each search in it asks for.
#[derive(Drop)]
pub struct OpenTarget {
    kind: LadKind,
    graph: Graph,
    sequences: TargetSequences,
}

impl Model for OpenTarget {
    ghost use Rattle.std.specs.Prelude.{◌≤◌};
    ghost use Rattle.graph_theory.specs.Graph.{size as size_of};
    ghost use Rattle.nds_filter.specs.Target.{AreOf};
    ghost use Rattle.target_handle.specs.Target.{Target};

    ghost Value = { Target };

    ghost view = { λ t. record {
      kind = t.kind;
      graph = t.graph;
    } };

    ghost invariant = { λ t. (size_of t.graph ≤ 8192) × AreOf t.sequences t.graph };
}

impl OpenTarget {
    /// The target of this graph, whose text was in this format. It takes memory for the sequences. Cost: that of `TargetSequences::new`.
    pub fn new(alloc: Global, kind: LadKind, graph: Graph) -> Result<OpenTarget, AllocError>
        requires few { size graph ≤ 8192 }
        ensures { IfOk result (λ t. t ≡ record {
          kind = kind;
          graph = graph;
        }) }
    {
        let sequences = TargetSequences::new(alloc, &graph)?;
        Ok(OpenTarget {
            kind,
            graph,
            sequences,
        })
    }

    /// The target of this graph, whose sequences are these. It takes no memory.
    pub fn of(kind: LadKind, graph: Graph, sequences: TargetSequences) -> OpenTarget
        requires few { size graph ≤ 8192 }
        requires sequences { AreOf sequences graph }
        ensures { result ≡ record {
          kind = kind;
          graph = graph;
        } }
    {
        OpenTarget {
            kind,
            graph,
            sequences,
        }
    }

    /// The format of the text.
    pub fn kind(&self) -> LadKind
        ensures { result ≡ self.now.kind }
    {
        self.kind
    }

    /// The graph and its sequences, taken out.
    pub fn into_parts(self) -> (Graph, TargetSequences)
        ensures graph { result.0 ≡ self.graph }
        ensures few { size result.0 ≤ 8192 }
        ensures sequences { AreOf result.1 self.graph }
    {
        let OpenTarget {
            kind: _,
            graph,
            sequences,
        } = self;
        (graph, sequences)
    }
}

/// The place of a target: empty while a call has it.
#[derive(Drop)]
pub struct Kept {
    pub(crate) target: Option<OpenTarget>,
}
