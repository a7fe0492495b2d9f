//! A job of a batch.

/// Which pattern is looked for in which target, by the names of their files, and whether as an induced subgraph.
#[derive(Drop)]
pub struct Job {
    pub pattern: String,
    pub target: String,
    pub induced: bool,
}
