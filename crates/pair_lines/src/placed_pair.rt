//! What a line is about.

/// A pattern vertex `p` at its place `t`, and another pattern vertex `r`, from which the line for them takes values.
#[derive(Clone, Copy, PartialEq, Eq, Debug)]
pub struct PlacedPair {
    pub p: u16,
    pub t: u16,
    pub r: u16,
}
