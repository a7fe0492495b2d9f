//! A change of the domains, as it is told.

use domain_bits::Mark;
use graph_theory::direction::Direction;

/// An end of a pair of vertices whose images are to be in order.
#[derive(Clone, Copy)]
pub enum Side {
    /// The vertex that is to have the lesser image.
    Lesser,
    /// The vertex that is to have the greater one.
    Greater,
}

/// Why values left the domain of one vertex.
#[derive(Clone, Copy)]
pub enum Cause {
    /// They are not in its first domain.
    First,
    /// It was given this value.
    Guess(u16),
    /// They do not go together with this vertex at this value, the only one left for it.
    Vertex(u16, u16),
    /// The nogood of this name has the value, and its other pairs are decided.
    Nogood(u32),
    /// It is this value, the second: in this direction of the pattern's edge from the vertex, the first, no value left for that has an edge
    /// to it.
    Edge(u16, u16, Direction),
    /// It is this value, the second: the vertex is at this end of the pair of this number, the first, whose images are to be in order, and
    /// no value left for the other end is on its side of the value.
    Order(u16, u16, Side),
}

/// Where a set of domains that were counted together stands in a list of numbers: its vertices, and its values behind them.
#[derive(Clone, Copy)]
pub struct Place {
    /// Where the vertices begin.
    pub start: usize,
    /// Where the vertices end and the values begin.
    pub middle: usize,
    /// Where the values end.
    pub end: usize,
}

/// What changed.
#[derive(Clone, Copy)]
pub enum What {
    /// Values left the domain of this vertex.
    One(u16, Cause),
    /// The values of a set left all other domains of the block of a centre, or of all vertices.
    Others(Option<u16>, Place),
    /// The domain of this vertex, the first, lost this value: the vertices of the set, to which edges lead from the vertex in this direction, have
    /// none but the set's values among those to which edges lead from this value, and these are too few.
    Over(u16, u16, Direction, Place),
}

/// A change as it is kept.
#[derive(Clone, Copy)]
pub struct Entry {
    /// What changed.
    pub what: What,
    /// The mark of the domains before it.
    pub from: Mark,
}

/// Why no embedding is within the domains.
#[derive(Clone, Copy, PartialEq, Eq, Debug)]
pub enum Failure {
    /// This vertex has no value.
    Empty(u16),
    /// All pairs of the nogood of this name are decided.
    Whole(u32),
    /// So many domains of a block, the first of it by size and number, have fewer values together.
    Short(u16),
}

/// How a path has died.
#[derive(Clone, Copy, PartialEq, Eq, Debug)]
pub enum DeadEnd {
    /// Propagation found no embedding within the domains.
    Failed(Failure),
    /// All values of this vertex, which is that of the level after the path, are refuted there or have left its domain.
    Exhausted(u16),
}
