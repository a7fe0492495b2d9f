//! Who is told of each job that is taken.

/// A gate that a worker passes with each job before it does it. It may hold the worker up.
pub trait JobGate {
    /// This worker took this job, counted from 0. Worker 0 is the caller. It is told once of each job.
    fn taken(&self, worker: u32, job: u32);
}

/// The gate that holds nobody up.
#[derive(Drop)]
pub struct OpenJobGate;

impl JobGate for OpenJobGate {
    fn taken(&self, _worker: u32, _job: u32) {}
}
