//! The problems of the jobs of a batch.

ghost use Rattle.std.specs.Prelude.{◌≡◌, ◌≤◌, ◌+◌, IsTrue, IfOk, IfErr, length, map, string_bytes};
ghost use Rattle.job_list.specs.Jobs.{text_of};
ghost use Rattle.whole_program.specs.Jobs.{JobSays, JobsSay, HasNames, AreJobs, IsFaultOfJobs, job_ask, stop_of_job};
ghost use Rattle.subgraph_cli.specs.Questions.{IsFaultOfTwo};
ghost use Rattle.subgraph_cli.specs.Stops.{IsOfFiles};
ghost use Rattle.subgraph_cli.specs.Leaving.{OnlyReads};

use command_line::{AskWords, FileName};
use graph_rows::problem::Problem;
use graph_theory::lad_text::LadKind;
use job_list::Job;
use outer_io::files::Files;
use std::alloc::Global;
use subgraph_cli::question::load_problem;
use subgraph_cli::stop::{Role, Stop};

/// Why a batch stops where the problem of a job was not loaded.
fn job_stop(job: u32, stop: Stop) -> Stop
    ensures { result ≡ stop_of_job job stop }
{
    match stop {
        Stop::Refused {
            role: Role::Pattern,
            fault,
        } => Stop::Refused {
            role: Role::JobPattern(job),
            fault,
        },
        Stop::Refused {
            role: Role::Target,
            fault,
        } => Stop::Refused {
            role: Role::JobTarget(job),
            fault,
        },
        other => other,
    }
}

/// A name of a list as a file's name.
fn file_named(name: &str) -> FileName
    requires { length name.now ≤ 4095 }
    ensures { result ≡ name.entry.now }
{
    match FileName::new(name) {
        Some(file) => file,
        None => unreachable!(),
    }
}

/// The problem of the job of this number, from 1: its pattern is loaded and read, and then its target.
fn load_job<F: Files>(
    alloc: Global,
    files: &mut F,
    job: &Job,
    number: u32,
    kind: LadKind,
) -> Result<Problem, Stop>
    requires { HasNames (text_of job.now) }
    ensures says { IsTrue (F.tells files.old)
        → JobSays result number (text_of job.now) (F.content files.old) kind }
    ensures loading { IfErr result IsOfFiles }
    ensures files { OnlyReads F.tells F.content F.faults F.fault_at (IsFaultOfTwo (string_bytes
        job.now.pattern) (string_bytes job.now.target) (job_ask kind (text_of job.now))) result
        files.old files.new }
{
    let pattern = file_named(&job.pattern);
    let target = file_named(&job.target);
    let ask = AskWords::plain(job.induced, kind);
    match load_problem(alloc, files, &pattern, &target, &ask) {
        Ok(problem) => Ok(problem),
        Err(stop) => Err(job_stop(number, stop)),
    }
}

/// The problems of the jobs, in their order: those of a job are loaded and read before any file of the next is looked at.
pub(crate) fn load_jobs<F: Files>(
    alloc: Global,
    files: &mut F,
    jobs: &[Job],
    kind: LadKind,
) -> Result<Vec<Problem>, Stop>
    requires { AreJobs (map text_of jobs.now) }
    ensures says { IsTrue (F.tells files.old)
        → JobsSay result (map text_of jobs.now) (F.content files.old) kind }
    ensures few { IfOk result (λ v. length v.items ≤ 1000) }
    ensures loading { IfErr result IsOfFiles }
    ensures files { OnlyReads F.tells F.content F.faults F.fault_at (IsFaultOfJobs (map text_of
        jobs.now) kind) result files.old files.new }
{
    let mut problems = Vec::new(alloc);
    for i in 0..jobs.len() {
        let problem = match load_job(alloc, files, &jobs[i], i as u32 + 1, kind) {
            Ok(problem) => problem,
            Err(stop) => return Err(stop),
        };
        match problems.push(problem) {
            Ok(()) => {}
            Err(_) => return Err(Stop::NoMemory),
        }
    }
    Ok(problems)
}
