//! A refuted value of a position, with the number of its line.

ghost use Rattle.std.specs.Prelude.{ℕ, ◌^◌, ◌<◌, ◌≤◌};

/// A value that was refuted at a level, with the number of the line that says so.
#[derive(Clone, Copy)]
pub struct Refuted {
    /// The level, from 0.
    pub level: usize,
    /// The value.
    pub value: u16,
    /// The number of the line.
    pub number: u64,
    ghost fits: { (1 ≤ number) × (number < 2 ^ 63) },
}
