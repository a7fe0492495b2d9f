//! Verdicts of jobs.

/// What was decided of a job.
#[derive(Drop)]
pub enum JobVerdict {
    /// An embedding: the target vertex of each pattern vertex in order.
    Yes(Vec<u32>),
    /// No embedding exists.
    Nothing,
    /// The budget was spent before.
    Unknown,
}
