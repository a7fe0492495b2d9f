//! What a job is, and what answers it.

ghost use Rattle.std.specs.Prelude.{IfOk};

use std::alloc::AllocError;

/// A kind of work. Its value is shared by all workers.
pub trait Work {
    type Job;

    type Out;

    /// This is a right answer to the job.
    ghost answers: { Self → Self.Job → Self.Out → Type 0 };

    /// Does a job. It may be called again for a job that was refused memory.
    fn does(&self, job: &Self::Job) -> Result<Self::Out, AllocError>
        ensures { IfOk result (λ out. answers self.now job.now out) };
}
