//! What was found of a problem.

use proof_collection::Logged;

/// What was found of a problem, which a log is to tell.
#[derive(Drop)]
pub enum Finding<'a> {
    /// This map embeds the pattern.
    Embedding(&'a [u32]),
    /// No embedding exists: a log of these parts shows it.
    Refutation(&'a Logged),
    /// Neither an embedding nor that none exists.
    Nothing,
}
