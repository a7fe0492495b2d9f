//! Problems as the jobs of a batch.

ghost use Rattle.std.specs.Prelude.{◌≡◌, ◌<◌, ◌≤◌, ◌^◌, length, IfOk};
ghost use Rattle.batch_pool.specs.Placing.{AreDone};
ghost use Rattle.whole_program.specs.Answers.{IsJobAnswer};

use batch_pool::{OpenJobGate, Work, run_jobs};
use graph_rows::Problem;
use parallel_solve::{Solved, solve_alone};
use std::alloc::{AllocError, Global};
use std::marker::Model;
use std::sync::Wait;
use std::thread::Threads;

/// How each problem of a batch is decided: by one worker with this seed, within this budget of failed guesses, with a book of so many rows.
#[derive(Drop)]
pub(crate) struct Deciding {
    alloc: Global,
    seed: u64,
    budget: u64,
    rows: u32,
}

impl Model for Deciding {
    ghost use Rattle.std.specs.Prelude.{ℕ, ◌<◌, ◌≤◌, ◌^◌};

    ghost Value = { ℕ };

    ghost view = { λ d. d.budget };

    ghost invariant = { λ d. (d.budget < 2 ^ 63) × (d.rows ≤ 4194304) };
}

impl Deciding {
    /// Deciding with these options.
    pub(crate) fn new(alloc: Global, seed: u64, budget: u64, rows: u32) -> Deciding
        requires budget { budget < 2 ^ 63 }
        requires rows { rows ≤ 4194304 }
        ensures { result ≡ budget }
    {
        Deciding {
            alloc,
            seed,
            budget,
            rows,
        }
    }
}

impl Work for Deciding {
    type Job = Problem;

    type Out = Solved;

    ghost use Rattle.whole_program.specs.Answers.{IsJobAnswer};

    ghost answers = { λ budget q answer. IsJobAnswer answer q budget };

    /// That memory was refused is no answer, so that the pool can try again.
    fn does(&self, job: &Problem) -> Result<Solved, AllocError> {
        match solve_alone(self.alloc, job, self.seed, self.budget, self.rows) {
            Solved::NoMemory => Err(AllocError),
            answer => Ok(answer),
        }
    }
}

/// The answers to problems, which so many workers of a pool decide beside each other.
pub(crate) fn answers_to<R: Threads + Wait + Sync>(
    rt: &R,
    alloc: Global,
    problems: Vec<Problem>,
    workers: u32,
    work: &Deciding,
) -> Result<Vec<Solved>, AllocError>
    requires few { length problems.items < 2 ^ 32 }
    ensures { IfOk result (λ v. AreDone (λ q a. IsJobAnswer a q work.now) problems.items
        v.items) }
{
    let ran = run_jobs(rt, alloc, problems, workers, work, &OpenJobGate)?;
    Ok(ran.outs)
}
