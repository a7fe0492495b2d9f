//! The two ways in which edges are followed, and the laws of graphs whose edges are turned round.

ghost use Rattle.graph_theory.specs.Reversed.{ReversedLaws};

/// A way in which edges are followed.
#[derive(Clone, Copy, PartialEq, Eq)]
pub enum Direction {
    /// Along them, from a vertex to those to which an edge leads from it.
    Out,
    /// Against them, from a vertex to those from which an edge leads to it.
    In,
}

/// In the reversed graph each edge leads back; what embeds still does; and where edges stand both ways nothing that is
/// counted of neighbours changes.
pub fn reversed_laws()
    ensures { ReversedLaws }
{}
