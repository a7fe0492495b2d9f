//! A vertex at a value with another one beside it, or with several.

use graph_theory::direction::Direction;

/// The first vertex, its value, and the other vertex.
#[derive(Clone, Copy)]
pub struct Beside {
    pub p: u16,
    pub t: u16,
    pub r: u16,
}

/// A vertex and its value, with vertices to which edges lead from it in the direction, and the values that are left for these beside it.
#[derive(Clone, Copy)]
pub(crate) struct Crowd<'a> {
    pub(crate) p: u16,
    pub(crate) t: u16,
    pub(crate) direction: Direction,
    pub(crate) vertices: &'a [u16],
    pub(crate) values: &'a [u16],
}

/// Vertices of the block of a centre, or of that of all vertices, and the values that they have together.
#[derive(Clone, Copy)]
pub struct BlockSet<'a> {
    pub centre: Option<u16>,
    pub vertices: &'a [u16],
    pub values: &'a [u16],
}
