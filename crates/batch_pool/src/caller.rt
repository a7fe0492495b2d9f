//! What the caller does with what the workers hand back.

ghost use Rattle.std.specs.Prelude.{◌≡◌, ◌+◌, ◌<◌, ◌≤◌, Some, length, IfOk, IfSome, OnOk, slice_get};
ghost use Rattle.std.specs.List.{All};
ghost use Rattle.crossbeam_queue.specs.Passes.{view, IsSamePass, IsPassOf};
ghost use Rattle.batch_pool.specs.Rule.{all_parts, AreBelow};
ghost use Rattle.batch_pool.specs.Placing.{ArePlaced, AreDone, AreTakers, HasHanded, HasWorked, IsAnswerAt, IsNamed};

use crate::bench::Bench;
use crate::entries::{Entries, Entry};
use crate::gate::JobGate;
use crate::numbers::{Compares, Cut, Hand, Takes};
use crate::pool::Ran;
use crate::work::Work;
use crate::worker::Done;
use crossbeam_queue::Pass;
use std::alloc::{AllocError, Global};
use std::sync::Wait;

impl<'a, W: Work, G: JobGate> Bench<'a, W, G>
where
    W::Out: Drop,
{
    /// Takes back a worker's pass, and puts what it did in place. The slots that it fills are free, since no number was taken twice.
    fn gather(&self, pass: &mut Pass<u32, Hand>, entries: &mut Entries<W::Out>, done: Done<W::Out>)
        requires queue { IsPassOf self.now.queue.now pass.old }
        requires part { 0 < (view pass.old).parts }
        requires theirs { IsPassOf self.now.queue.now done.pass }
        requires worker { done.worker ≤ self.now.workers }
        requires worked { HasWorked (W.answers self.now.work.now) self.now.jobs.now (view done.pass)
            done.taken.items }
        requires placed { ArePlaced (W.answers self.now.work.now) self.now.jobs.now self.now.workers
            (view pass.old).taken entries.old.slots.items }
        ensures queue { IsSamePass pass.old pass.new }
        ensures parts { (view pass.new).parts ≡ (view pass.old).parts + 1 }
        ensures pushed { (view pass.new).pushed ≡ (view pass.old).pushed }
        ensures named { All (λ t. IsNamed done.worker t.number entries.new.slots.items)
            done.taken.items }
        ensures placed { ArePlaced (W.answers self.now.work.now) self.now.jobs.now self.now.workers
            (view pass.new).taken entries.new.slots.items }
    {
        let Done {
            worker,
            pass: theirs,
            taken,
        } = done;
        self.queue.absorb::<Cut>(pass, theirs);
        self.queue.learn_as::<Compares>(pass);
        entries.place_all(worker, taken);
    }

    /// Takes back each worker's pass.
    pub(crate) fn gather_all(
        &self,
        pass: &mut Pass<u32, Hand>,
        entries: &mut Entries<W::Out>,
        all: Vec<Done<W::Out>>,
    )
        requires queue { IsPassOf self.now.queue.now pass.old }
        requires part { 0 < (view pass.old).parts }
        requires done { All (λ d. HasHanded (W.answers self.now.work.now) self.now.jobs.now
            self.now.queue.now self.now.workers d) all.items }
        requires placed { ArePlaced (W.answers self.now.work.now) self.now.jobs.now self.now.workers
            (view pass.old).taken entries.old.slots.items }
        ensures queue { IsSamePass pass.old pass.new }
        ensures parts { (view pass.new).parts ≡ (view pass.old).parts + length all.items }
        ensures pushed { (view pass.new).pushed ≡ (view pass.old).pushed }
        ensures placed { ArePlaced (W.answers self.now.work.now) self.now.jobs.now self.now.workers
            (view pass.new).taken entries.new.slots.items }
    {
        for done in all {
            self.gather(pass, entries, done);
        }
    }

    /// Takes what is left in the queue, and does it. Then each number was taken.
    pub(crate) fn take_rest<R: Wait>(
        &self,
        rt: &R,
        pass: &mut Pass<u32, Hand>,
        entries: &mut Entries<W::Out>,
    ) -> Result<(), AllocError>
        requires queue { IsPassOf self.now.queue.now pass.old }
        requires whole { (view pass.old).parts ≡ all_parts }
        requires pushed { (view pass.old).pushed ≡ length self.now.jobs.now }
        requires placed { ArePlaced (W.answers self.now.work.now) self.now.jobs.now self.now.workers
            (view pass.old).taken entries.old.slots.items }
        ensures all { OnOk result (AreBelow (length self.now.jobs.now) (view pass.new).taken) }
        ensures placed { OnOk result (ArePlaced (W.answers self.now.work.now) self.now.jobs.now
            self.now.workers (view pass.new).taken entries.new.slots.items) }
    {
        for _ in rt.forever() {
            let Some(number) = self.queue.pop_as::<Takes, R>(rt, pass) else {
                return Ok(());
            };
            let out = self.does(0, number)?;
            entries.place(number, 0, Some(out));
        }
        unreachable!()
    }

    /// The answer to a job: the one that is there, or else the caller does the job.
    fn out_of(&self, place: usize, out: Option<W::Out>) -> Result<W::Out, AllocError>
        requires below { place < length self.now.jobs.now }
        requires answer { IfSome out
            (λ o. IsAnswerAt (W.answers self.now.work.now) self.now.jobs.now place o) }
        ensures { IfOk result
            (λ o. IsAnswerAt (W.answers self.now.work.now) self.now.jobs.now place o) }
    {
        match out {
            Some(out) => Ok(out),
            None => self.work.does(&self.jobs[place]),
        }
    }

    /// The answers and the takers in the order of the jobs. The caller's pass, which took each number once, ends here.
    pub(crate) fn finish(
        &self,
        alloc: Global,
        pass: Pass<u32, Hand>,
        entries: Entries<W::Out>,
    ) -> Result<Ran<W::Out>, AllocError>
        requires all { AreBelow (length self.now.jobs.now) (view pass).taken }
        requires placed { ArePlaced (W.answers self.now.work.now) self.now.jobs.now self.now.workers
            (view pass).taken entries.slots.items }
        ensures outs { IfOk result (λ r. AreDone (W.answers self.now.work.now) self.now.jobs.now
            r.outs.items) }
        ensures by { IfOk result (λ r. AreTakers (length self.now.jobs.now) self.now.workers
            r.by.items) }
    {
        drop(pass);
        let Entries { slots } = entries;
        let mut outs = Vec::with_capacity(alloc, self.jobs.len())?;
        let mut by = Vec::with_capacity(alloc, self.jobs.len())?;
        for slot in slots {
            let Some(entry) = slot else {
                unreachable!();
            };
            let Entry { worker, out } = entry;
            by.push(worker)?;
            let out = self.out_of(outs.len(), out)?;
            outs.push(out)?;
        }
        Ok(Ran { outs, by })
    }
}
