//! The command `batch`.

ghost use Rattle.std.specs.Prelude.{◌≡◌, [], IsTrue};
ghost use Rattle.command_line.specs.Batch.{IsBatchInRange};
ghost use Rattle.whole_program.specs.Batches.{is_decided, are_decided, batch_status, BatchSays, IsFaultOfBatch, DecidesAsAlone, TellingBatch};
ghost use Rattle.subgraph_cli.specs.Stops.{SparesOutput, TellsStop};
ghost use Rattle.subgraph_cli.specs.Streams.{stream, IsSameSink};
ghost use Rattle.subgraph_cli.specs.Leaving.{OnlyReads, OnlyPrints};

use crate::deciding::decide_all;
use crate::jobs::load_jobs;
use crate::lines::put_verdicts;
use crate::list::load_list;
use crate::verdict::JobVerdict;
use command_line::BatchWords;
use fail_account::account::Account;
use graph_theory::lad_text::text_laws;
use outer_io::files::Files;
use outer_io::sink::Sink;
use std::alloc::Global;
use std::sync::Wait;
use std::thread::Threads;
use subgraph_cli::stop::Stop;
use subgraph_cli::telling::tell_stop;

/// What a batch comes to.
#[derive(Clone, Copy, PartialEq, Eq, Debug)]
pub enum Batched {
    /// Each job was decided.
    AllDecided,
    /// The budget was spent on one of them or more.
    SomeUnknown,
}

/// Whether a job was decided.
fn is_decided(verdict: &JobVerdict) -> bool
    ensures { result ≡ is_decided verdict.now }
{
    match verdict {
        JobVerdict::Yes(_) | JobVerdict::Nothing => true,
        JobVerdict::Unknown => false,
    }
}

/// Whether each job was decided.
fn are_decided(verdicts: &[JobVerdict]) -> bool
    ensures { result ≡ are_decided verdicts.now }
{
    verdicts.iter().all(|verdict| is_decided(verdict))
}

/// Writes a line for each job.
fn tell<O: Sink>(verdicts: &[JobVerdict], out: &mut O) -> Result<Batched, Stop>
    ensures says { TellingBatch result verdicts.now
        (stream O.spot O.contents O.faults out.old out.new) }
    ensures output { OnlyPrints O.spot O.contents O.rest O.faults SparesOutput result
        out.old out.new }
{
    let batched = if are_decided(verdicts) {
        Batched::AllDecided
    } else {
        Batched::SomeUnknown
    };
    match put_verdicts(verdicts, out) {
        Ok(()) => Ok(batched),
        Err(_) => Err(Stop::OutputFault),
    }
}

/// Decides the problems of all jobs that a file lists: the list is loaded and read, then each job's pattern and target, job by job, then the
/// problems are decided beside each other, and then a line for each is written, in the list's order. All problems are in memory at once. It
/// may wait for other threads.
pub fn batch<R: Threads + Wait + Sync, F: Files, O: Sink>(
    rt: &R,
    alloc: Global,
    words: &BatchWords,
    files: &mut F,
    out: &mut O,
    spent: &mut Vec<Account>,
) -> Result<Batched, Stop>
    requires ranges { IsBatchInRange words.now }
    requires empty { spent.old.items ≡ [] }
    ensures says { IsTrue (F.tells files.old)
        → BatchSays result words.now (F.content files.old) spent.new.items
        (stream O.spot O.contents O.faults out.old out.new) }
    ensures files { OnlyReads F.tells F.content F.faults F.fault_at (IsFaultOfBatch words.now)
        result files.old files.new }
    ensures output { OnlyPrints O.spot O.contents O.rest O.faults SparesOutput result
        out.old out.new }
{
    let jobs = match load_list(alloc, files, &words.list) {
        Ok(jobs) => jobs,
        Err(stop) => return Err(stop),
    };
    let problems = match load_jobs(alloc, files, &jobs, words.format) {
        Ok(problems) => problems,
        Err(stop) => return Err(stop),
    };
    match decide_all(rt, alloc, problems, words, spent) {
        Ok(verdicts) => tell(&verdicts, out),
        Err(_) => Err(Stop::NoMemory),
    }
}

/// The status of a batch; where it stopped the error stream is told.
pub fn end_batch<E: Sink>(ended: Result<Batched, Stop>, err: &mut E) -> u8
    ensures status { result ≡ batch_status ended }
    ensures line { TellsStop ended (stream E.spot E.contents E.faults err.old err.new) }
    ensures sink { IsSameSink E.spot E.rest E.faults err.old err.new }
{
    match ended {
        Ok(Batched::AllDecided) => 0,
        Ok(Batched::SomeUnknown) => 2,
        Err(stop) => tell_stop(stop, err),
    }
}

/// A line that is decided tells what a `solve` of its job by itself decides.
pub fn decides_as_alone()
    ensures { DecidesAsAlone }
{
    text_laws();
}
