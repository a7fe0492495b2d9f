//! The pool.

ghost use Rattle.std.specs.Prelude.{◌≡◌, ◌-◌, ◌^◌, ◌<◌, [], length, map, IfOk, OnOk};
ghost use Rattle.std.specs.List.{All, range_with_len};
ghost use Rattle.crossbeam_queue.specs.Passes.{view, IsSamePass, IsPassOf};
ghost use Rattle.batch_pool.specs.Rule.{hand, all_parts};
ghost use Rattle.batch_pool.specs.Placing.{AreDone, AreTakers, HasHanded, IsHired};

use crate::bench::Bench;
use crate::entries::Entries;
use crate::gate::JobGate;
use crate::numbers::{Cut, Hand, filled};
use crate::work::Work;
use crate::worker::{Done, Worker};
use crossbeam_queue::Pass;
use std::alloc::{AllocError, Global};
use std::sync::Wait;
use std::thread::{self, Threads};

/// What a batch left, by place: the answer to each job, and the number of the worker that took it; 0 is the caller.
#[derive(Drop)]
pub struct Ran<O> {
    pub outs: Vec<O>,
    pub by: Vec<u32>,
}

impl<'a, W: Work, G: JobGate> Bench<'a, W, G>
where
    W::Out: Drop,
{
    /// The workers, each with a pass that is made of the caller's. They are numbered from 1.
    fn hire(&self, alloc: Global, pass: &mut Pass<u32, Hand>) -> Result<Vec<Worker>, AllocError>
        requires queue { IsPassOf self.now.queue.now pass.old }
        requires whole { view pass.old ≡ hand all_parts (length self.now.jobs.now) [] }
        ensures queue { IsSamePass pass.old pass.new }
        ensures left { OnOk result (view pass.new ≡ hand (all_parts - self.now.workers)
            (length self.now.jobs.now) []) }
        ensures numbers { IfOk result (λ v. map (λ w. w.number) v.items ≡ range_with_len 1
            self.now.workers) }
        ensures hired { IfOk result (λ v. All (λ w. IsHired self.now.queue.now
            (length self.now.jobs.now) self.now.workers w) v.items) }
    {
        let mut staff = Vec::with_capacity(alloc, self.workers as usize)?;
        for k in 0..self.workers {
            let theirs = self.queue.another::<Cut>(pass);
            staff.push(Worker {
                number: k + 1,
                pass: theirs,
            })?;
        }
        Ok(staff)
    }
}

/// Lets all workers work beside each other.
fn run_all<R: Threads + Wait + Sync, W: Work + Sync, G: JobGate + Sync>(
    rt: &R,
    alloc: Global,
    bench: &Bench<W, G>,
    staff: Vec<Worker>,
) -> Result<Vec<Done<W::Out>>, AllocError>
where
    W::Job: Sync,
    W::Out: Send + Drop,
    requires hired { All (λ w. IsHired bench.now.queue.now (length bench.now.jobs.now)
        bench.now.workers w) staff.items }
    ensures count { IfOk result (λ v. length v.items ≡ length staff.items) }
    ensures handed { IfOk result (λ v. All (λ d. HasHanded (W.answers bench.now.work.now)
        bench.now.jobs.now bench.now.queue.now bench.now.workers d) v.items) }
{
    thread::map_vec(
        rt,
        staff,
        &|worker| -> Done<W::Out>
            requires { IsHired bench.now.queue.now (length bench.now.jobs.now)
                bench.now.workers worker }
            ensures { HasHanded (W.answers bench.entry.now.work.now) bench.entry.now.jobs.now
                bench.entry.now.queue.now bench.entry.now.workers result }
        { bench.work_off(rt, alloc, worker) },
    )
}

/// Does all jobs, each once or, where a worker was refused memory, a second time. The workers run beside each other where threads can
/// be made; with none the caller does all. A batch ends with want of memory where the caller is refused it.
///
/// `outs` has the answers in the order of the jobs, and `by` who took each from the queue, also where that worker was refused memory.
pub fn run_jobs<R: Threads + Wait + Sync, W: Work + Sync, G: JobGate + Sync>(
    rt: &R,
    alloc: Global,
    jobs: Vec<W::Job>,
    workers: u32,
    work: &W,
    gate: &G,
) -> Result<Ran<W::Out>, AllocError>
where
    W::Job: Sync + Drop,
    W::Out: Send + Drop,
    requires few { length jobs.items < 2 ^ 32 }
    ensures outs { IfOk result (λ r. AreDone (W.answers work.now) jobs.items r.outs.items) }
    ensures by { IfOk result (λ r. AreTakers (length jobs.items) workers r.by.items) }
{
    if jobs.is_empty() {
        return Ok(Ran {
            outs: Vec::new(alloc),
            by: Vec::new(alloc),
        });
    }
    let mut entries = Entries::new(alloc, jobs.len())?;
    let (queue, mut pass) = filled(rt, alloc, jobs.len() as u32)?;
    let bench = Bench {
        queue: &queue,
        jobs: jobs.as_slice(),
        work,
        gate,
        workers,
    };
    let staff = bench.hire(alloc, &mut pass)?;
    let done = run_all(rt, alloc, &bench, staff)?;
    bench.gather_all(&mut pass, &mut entries, done);
    bench.take_rest(rt, &mut pass, &mut entries)?;
    bench.finish(alloc, pass, entries)
}
