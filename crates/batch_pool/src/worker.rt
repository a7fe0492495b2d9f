//! A worker: it takes numbers until the queue is empty, or until it is refused memory.

ghost use Rattle.std.specs.Prelude.{◌≡◌, [], length};
ghost use Rattle.crossbeam_queue.specs.Passes.{view, IsSamePass, IsPassOf};
ghost use Rattle.batch_pool.specs.Rule.{hand};
ghost use Rattle.batch_pool.specs.Placing.{HasWorked};

use crate::bench::Bench;
use crate::gate::JobGate;
use crate::numbers::{Hand, Takes};
use crate::work::Work;
use crossbeam_queue::Pass;
use std::alloc::Global;
use std::sync::Wait;

/// A worker before it begins: its number from 1, and its pass.
#[derive(Drop)]
pub(crate) struct Worker {
    pub number: u32,
    pub pass: Pass<u32, Hand>,
}

/// A job that was taken, with its answer where memory was granted.
#[derive(Drop)]
pub(crate) struct Taken<O> {
    pub number: u32,
    pub out: Option<O>,
}

/// What a worker hands back: its number, its pass, and what it took in that order.
#[derive(Drop)]
pub(crate) struct Done<O> {
    pub worker: u32,
    pub pass: Pass<u32, Hand>,
    pub taken: Vec<Taken<O>>,
}

impl<'a, W: Work, G: JobGate> Bench<'a, W, G>
where
    W::Out: Drop,
{
    /// Takes the next number and does its job. False where the worker is to end. Room for what it hands back is made first.
    fn take_next<R: Wait>(
        &self,
        rt: &R,
        worker: u32,
        pass: &mut Pass<u32, Hand>,
        taken: &mut Vec<Taken<W::Out>>,
    ) -> bool
        requires queue { IsPassOf self.now.queue.now pass.old }
        requires worked { HasWorked (W.answers self.now.work.now) self.now.jobs.now (view pass.old)
            taken.old.items }
        ensures queue { IsSamePass pass.old pass.new }
        ensures worked { HasWorked (W.answers self.now.work.now) self.now.jobs.now (view pass.new)
            taken.new.items }
    {
        if taken.reserve(1).is_err() {
            return false;
        }
        let Some(number) = self.queue.pop_as::<Takes, R>(rt, pass) else {
            return false;
        };
        let out = self.does(worker, number).ok();
        let goes_on = out.is_some();
        taken.push_reserved(Taken { number, out });
        goes_on
    }

    /// Works until the queue is empty.
    pub(crate) fn work_off<R: Wait>(&self, rt: &R, alloc: Global, worker: Worker) -> Done<W::Out>
        requires queue { IsPassOf self.now.queue.now worker.pass }
        requires begins { view worker.pass ≡ hand 1 (length self.now.jobs.now) [] }
        ensures number { result.worker ≡ worker.number }
        ensures queue { IsPassOf self.now.queue.now result.pass }
        ensures worked { HasWorked (W.answers self.now.work.now) self.now.jobs.now
            (view result.pass) result.taken.items }
    {
        let Worker { number, mut pass } = worker;
        let mut taken = Vec::new(alloc);
        for _ in rt.forever() {
            if !self.take_next(rt, number, &mut pass, &mut taken) {
                break;
            }
        }
        Done {
            worker: number,
            pass,
            taken,
        }
    }
}
