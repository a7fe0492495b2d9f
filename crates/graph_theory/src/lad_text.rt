//! LAD texts (C. Solnon, "AllDifferent-based filtering for subgraph isomorphism", 2010), with this project's formats
//! that have labels of vertices, directions, and labels of edges.
ghost use Rattle.std.specs.Prelude.{◌≡◌, Some};
ghost use Rattle.graph_theory.specs.LadFault.{refused_at, TextLaws};

use std::alloc::{AllocError, AllocFailed};

/// A format of a graph's text.
#[derive(Clone, Copy, PartialEq, Eq, Debug)]
pub enum LadKind {
    /// The number of vertices; then for each vertex its number of neighbours and these, numbered from 0.
    Lad,
    /// The same, with each vertex's label before its number of neighbours.
    VertexLabelledLad,
    /// As the first, but a listed neighbour is an edge from the vertex to that neighbour alone.
    DirectedLad,
    /// The same with each vertex's label before its number of neighbours, and after each neighbour the label of the edge to it.
    LabelledLad,
}

/// Why a word of a text is refused.
#[derive(Clone, Copy, PartialEq, Eq, Debug)]
pub enum LadCause {
    /// The word is no number below 2^32.
    NotNumber,
    /// The number of vertices is above the limit.
    TooMany,
    /// The text has no word where one is due.
    EndsEarly,
    /// A neighbour is no vertex of the graph.
    NoSuchVertex,
    /// The label of an edge that the same vertex listed before with another label.
    LabelClash,
    /// A word follows the last one due.
    WordsLeft,
}

/// Why a text gives no graph.
#[derive(Clone, Copy, PartialEq, Eq, Debug)]
pub enum LadFault {
    /// The text's first faulty word, counted from 1, and why it is refused.
    Word { word: u64, cause: LadCause },
    /// Memory was refused.
    NoMemory,
}

impl From<AllocError> for LadFault {
    ghost use Rattle.graph_theory.specs.declared.lad_text.LadFault.TheVariants.{NoMemory};

    ghost from_gives = { λ _ e. e ≡ NoMemory };

    fn from(_: AllocError) -> Self {
        LadFault::NoMemory
    }
}

impl<T: Drop> From<AllocFailed<T>> for LadFault {
    ghost use Rattle.graph_theory.specs.declared.lad_text.LadFault.TheVariants.{NoMemory};

    ghost from_gives = { λ _ e. e ≡ NoMemory };

    fn from(_: AllocFailed<T>) -> Self {
        LadFault::NoMemory
    }
}

/// What is due in a place of a text.
#[derive(Clone, Copy, PartialEq, Eq, Debug)]
pub enum Place {
    /// The number of vertices, which has this limit.
    Size(u32),
    /// A label or a number of neighbours.
    Number,
    /// A neighbour, in a graph of this many vertices.
    Neighbour(u32),
    /// The label of an edge, with the label that the same vertex gave the same neighbour before.
    EdgeLabel(Option<u32>),
    /// Nothing more.
    End,
}

/// Why a number is refused in a place, or none where it is what is due.
pub fn refusal(due: Place, number: u32) -> Option<LadCause>
    ensures { result ≡ refused_at due (Some (Some number)) }
{
    match due {
        Place::Size(most) => (number > most).then_some(LadCause::TooMany),
        Place::Number => None,
        Place::Neighbour(size) => (number >= size).then_some(LadCause::NoSuchVertex),
        Place::EdgeLabel(None) => None,
        Place::EdgeLabel(Some(label)) => (label != number).then_some(LadCause::LabelClash),
        Place::End => Some(LadCause::WordsLeft),
    }
}

/// Every list of words has one reading or one first fault, and never both.
pub fn text_laws()
    ensures { TextLaws }
{}
