//! Batches of a few numbers, to each of which one is added.

ghost use Rattle.std.specs.Prelude.{◌^◌, ◌<◌, length};

use batch_pool::{JobGate, OpenJobGate, Ran, Work, run_jobs};
use std::alloc::{AllocError, Global};
use std::sync::Wait;
use std::sync::atomic::{AtomicU64, Ordering};
use std::test::Fail;
use std::thread::{self, Threads};

/// For how many turns a worker waits for another.
const MOST_TURNS: u32 = 10_000_000;

/// Adds one.
#[derive(Drop)]
struct AddOne;

impl Work for AddOne {
    type Job = u32;

    type Out = u64;

    ghost use Rattle.std.specs.Prelude.{◌≡◌, ◌+◌};

    ghost answers = { λ work job out. out ≡ job + 1 };

    fn does(&self, job: &u32) -> Result<u64, AllocError> {
        Ok(u64::from(*job) + 1)
    }
}

/// Adds one, and is refused memory as often as it says.
#[derive(Drop)]
struct Refused {
    left: AtomicU64,
}

impl Work for Refused {
    type Job = u32;

    type Out = u64;

    ghost use Rattle.std.specs.Prelude.{◌≡◌, ◌+◌};

    ghost answers = { λ work job out. out ≡ job + 1 };

    fn does(&self, job: &u32) -> Result<u64, AllocError> {
        if self.left.swap(0, Ordering::SeqCst) > 0 {
            return Err(AllocError);
        }
        Ok(u64::from(*job) + 1)
    }
}

/// Holds whoever took a job until two jobs were taken, for so many turns at most.
#[derive(Drop)]
struct UntilTwo {
    taken: AtomicU64,
    late: AtomicU64,
}

impl JobGate for UntilTwo {
    fn taken(&self, _worker: u32, _job: u32) {
        self.taken.fetch_add(1, Ordering::SeqCst);
        for _ in 0..MOST_TURNS {
            if self.taken.load(Ordering::SeqCst) >= 2 {
                return;
            }
            thread::yield_now();
        }
        self.late.store(1, Ordering::SeqCst);
    }
}

/// Counts how often it is told of each of the first three jobs, with a digit to the base 256 for each.
#[derive(Drop)]
struct Told {
    digits: AtomicU64,
}

impl JobGate for Told {
    fn taken(&self, _worker: u32, job: u32) {
        let digit = match job {
            0 => 1,
            1 => 1 << 8,
            2 => 1 << 16,
            _ => 1 << 24,
        };
        self.digits.fetch_add(digit, Ordering::SeqCst);
    }
}

/// What a batch of these numbers leaves.
fn ran<R: Threads + Wait + Sync, W: Work<Job = u32, Out = u64> + Sync, G: JobGate + Sync>(
    rt: &R,
    alloc: Global,
    jobs: &[u32],
    workers: u32,
    work: &W,
    gate: &G,
) -> Result<Ran<u64>, AllocError>
    requires few { length jobs.now < 2 ^ 32 }
{
    let jobs = Vec::from_slice(alloc, jobs)?;
    run_jobs(rt, alloc, jobs, workers, work, gate)
}

/// Whether a batch left these answers, taken by these workers.
fn has(ran: &Ran<u64>, outs: &[u64], by: &[u32]) -> bool {
    ran.outs.as_slice() == outs && ran.by.as_slice() == by
}

/// Whether two jobs were taken by two workers of numbers 1 and 2.
fn took_one_each(by: &[u32]) -> bool {
    by == [1, 2].as_slice() || by == [2, 1].as_slice()
}

#[test]
fn two_workers_run_beside_each_other(rt: HostRuntime) -> Result<(), Fail> {
    let gate = UntilTwo {
        taken: AtomicU64::new(0),
        late: AtomicU64::new(0),
    };
    let ran = ran(&rt, rt.alloc(), &[6, 7], 2, &AddOne, &gate)?;
    assert!(rt; gate.late.load(Ordering::SeqCst) == 0);
    assert!(rt; took_one_each(&ran.by));
    Ok(())
}

#[test]
fn the_caller_looks_again(rt: HostRuntime) -> Result<(), Fail> {
    let work = Refused {
        left: AtomicU64::new(1),
    };
    let gate = Told {
        digits: AtomicU64::new(0),
    };
    let ran = ran(&rt, rt.alloc(), &[10, 20, 30], 1, &work, &gate)?;
    assert!(rt; has(&ran, &[11, 21, 31], &[1, 0, 0]));
    assert!(rt; gate.digits.load(Ordering::SeqCst) == 0x01_0101);
    Ok(())
}

#[test]
fn no_worker_is_needed(rt: HostRuntime) -> Result<(), Fail> {
    let ran = ran(&rt, rt.alloc(), &[1, 2], 0, &AddOne, &OpenJobGate)?;
    assert!(rt; has(&ran, &[2, 3], &[0, 0]));
    Ok(())
}

#[test]
fn no_job_is_needed(rt: HostRuntime) -> Result<(), Fail> {
    let ran = ran(&rt, rt.alloc(), &[], 3, &AddOne, &OpenJobGate)?;
    assert!(rt; has(&ran, &[], &[]));
    Ok(())
}
