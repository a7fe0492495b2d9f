//! Why a call decides nothing.

use graph_theory::lad_text::LadCause;

/// The first number of a call that is out of its range.
#[derive(Clone, Copy, PartialEq, Eq, Debug)]
pub enum OutOfRange {
    /// The format is none.
    Format,
    /// The kind of maps is none.
    Maps,
    /// Whether the copy is to be an induced one is neither 0 nor 1.
    Induced,
    /// Induced copies are asked for by maps that are not injective.
    InducedMaps,
    /// There are more than 64 pairs.
    ManyPairs,
    /// A pair names one vertex twice.
    OneVertex,
    /// The budget is 2^63 or more.
    Budget,
    /// There are more than 4,194,304 rows.
    Rows,
    /// The pattern has more vertices than there is room for images.
    Room,
    /// The handle has a target already, or has none.
    Handle,
}

/// Why a call asks no problem.
#[derive(Clone, Copy, PartialEq, Eq, Debug)]
pub enum Refusal {
    /// A number is out of its range.
    Number(OutOfRange),
    /// The first faulty word of the pattern's text, from 1, and its cause.
    Pattern { word: u64, cause: LadCause },
    /// The first faulty word of the target's text, from 1, and its cause.
    Target { word: u64, cause: LadCause },
    /// The first pair that names a vertex which the pattern has not, from 1.
    Vertex { number: u32 },
    /// Memory was refused.
    NoMemory,
}
