//! What all workers of a batch share.

ghost use Rattle.std.specs.Prelude.{◌<◌, length, IfOk};
ghost use Rattle.batch_pool.specs.Placing.{IsAnswerAt};

use crate::gate::JobGate;
use crate::numbers::Numbers;
use crate::work::Work;
use std::alloc::AllocError;

/// The queue of numbers, the jobs, the work, the gate, and how many workers there are beside the caller.
pub(crate) struct Bench<'a, W: Work, G> {
    pub queue: &'a Numbers,
    pub jobs: &'a [W::Job],
    pub work: &'a W,
    pub gate: &'a G,
    pub workers: u32,
}

impl<'a, W: Work, G> Drop for Bench<'a, W, G> {
    /// It owns nothing.
    fn drop(self) {
        let Bench {
            queue: _,
            jobs: _,
            work: _,
            gate: _,
            workers: _,
        } = self;
    }
}

impl<'a, W: Work, G: JobGate> Bench<'a, W, G> {
    /// Tells the gate that a worker took a job, and does it.
    pub(crate) fn does(&self, worker: u32, number: u32) -> Result<W::Out, AllocError>
        requires { number < length self.now.jobs.now }
        ensures { IfOk result (λ out. IsAnswerAt (W.answers self.now.work.now) self.now.jobs.now
            number out) }
    {
        self.gate.taken(worker, number);
        self.work.does(&self.jobs[number as usize])
    }
}
