//! One pass over a text, line by line.

ghost use Rattle.std.specs.Prelude.{◌≡◌, ◌<◌, ℕ, List, ◌∷◌, length, map, IfOk, IfErr, MatchOption, MatchResult};
ghost use Rattle.job_list.specs.Jobs.{JobText, Says, text_of, lines, IsList, FirstBad, OnLine};
ghost use Rattle.job_list.specs.declared.fault.ListCause.{ListCause};

use crate::fault::{ListCause, ListFault};
use crate::job::Job;
use crate::names::{owned, split_at_byte};
use crate::parts::parts_in;
use std::alloc::{AllocError, Global};

/// The most jobs of a list.
const MOST_JOBS: usize = 1000;

/// The first line of a text, and what follows it.
fn first_line(text: &[u8]) -> (&[u8], &[u8])
    requires { 0 < length text.now }
    ensures line { lines text.now ≡ result.0.now ∷ lines result.1.now }
    ensures shorter { length result.1.now < length text.now }
{
    match split_at_byte(text, b'\n') {
        Some((line, rest)) => (line, rest),
        None => (text, &[]),
    }
}

/// The job that a line says.
fn job_in(alloc: Global, line: &[u8]) -> Result<Option<Job>, AllocError>
    ensures { IfOk result (λ o. MatchOption o ((j : JobText) → ¬ (Says line.now j))
        (λ job. Says line.now (text_of job))) }
{
    let Some((pattern, target, induced)) = parts_in(line) else {
        return Ok(None);
    };
    let pattern = owned(alloc, pattern)?;
    let target = owned(alloc, target)?;
    Ok(Some(Job {
        pattern,
        target,
        induced,
    }))
}

/// The jobs of a text, or its first fault.
fn jobs_in(alloc: Global, text: &[u8]) -> Result<Vec<Job>, ListFault>
    ensures found { IfOk result (λ jobs. IsList text.now (map text_of jobs.items)) }
    ensures fault { IfErr result (λ e. OnLine e (FirstBad text.now)) }
{
    let mut jobs = Vec::new(alloc);
    let mut rest = text;
    while !rest.is_empty() {
        let line = jobs.len() as u64 + 1;
        if jobs.len() == MOST_JOBS {
            let cause = ListCause::TooMany;
            return Err(ListFault::Line { line, cause });
        }
        let (first, more) = first_line(rest);
        let Some(job) = job_in(alloc, first)? else {
            let cause = ListCause::Form;
            return Err(ListFault::Line { line, cause });
        };
        jobs.push(job)?;
        rest = more;
    }
    Ok(jobs)
}

/// The jobs that a text lists, at most 1,000, or its first faulty line. At line 1,001 its form is not looked at.
pub fn read_jobs(alloc: Global, text: &[u8]) -> Result<Vec<Job>, ListFault>
    ensures found { IfOk result (λ jobs. IsList text.now (map text_of jobs.items)) }
    ensures fault { IfErr result (λ e. OnLine e (FirstBad text.now)) }
    ensures only { (jobs : List JobText) → IsList text.now jobs
        → MatchResult result (λ r. map text_of r.items ≡ jobs) (λ e. e ≡ ListFault.NoMemory) }
    ensures fault_only { (n : ℕ) (cause : ListCause) → FirstBad text.now n cause
        → MatchResult result (λ _. ⊥) (λ e. OnLine e (λ m c. (m ≡ n) × (c ≡ cause))) }
{
    jobs_in(alloc, text)
}
