//! Jobs that run beside each other, each in a thread where one can be made.

ghost use Rattle.std.specs.Prelude.{◌≡◌, length, All, IfOk};
ghost use Rattle.parallel_solve.specs.Jobs.{AreRun};

use std::alloc::AllocError;
use std::thread::{self, Threads};

/// A piece of work over what all jobs share.
pub trait Job<C> {
    type Done;

    /// It may be done.
    ghost ready: { C → Self → Type 0 };

    /// This is what it leaves.
    ghost ran: { C → Self → Self.Done → Type 0 };

    /// Does it.
    fn go(self, shared: &C) -> Self::Done
        requires { ready shared.now self }
        ensures { ran shared.now self result };
}

/// Does all jobs beside each other, and gives what they left in their order. Where a thread cannot be made, jobs run one after another.
pub fn run_all<R: Threads + Sync, C: Sync, J: Job<C> + Send + Drop>(
    rt: &R,
    shared: &C,
    jobs: Vec<J>,
) -> Result<Vec<J::Done>, AllocError>
where
    J::Done: Send + Drop,
    requires jobs { All (λ j. J.ready shared.now j) jobs.items }
    ensures run { IfOk result (λ v. AreRun (J.ran shared.now) jobs.items v.items) }
    ensures count { IfOk result (λ v. length v.items ≡ length jobs.items) }
{
    thread::map_vec(
        rt,
        jobs,
        &|job| -> J::Done
            requires { J.ready shared.now job }
            ensures { J.ran shared.entry.now job result }
        { job.go(shared) },
    )
}
