//! The command `solve`.

ghost use Rattle.std.specs.Prelude.{◌≡◌, [], IsTrue};
ghost use Rattle.command_line.specs.CommandLine.{IsSolveInRange};
ghost use Rattle.subgraph_cli.specs.Disk.{disk};
ghost use Rattle.subgraph_cli.specs.Deciding.{TellingSays};
ghost use Rattle.subgraph_cli.specs.Proving.{IsOfProof, IsFaultOfSolve};
ghost use Rattle.subgraph_cli.specs.Questions.{Asks};
ghost use Rattle.subgraph_cli.specs.Solving.{SolveSays, OneVerdict};
ghost use Rattle.subgraph_cli.specs.Stops.{SparesOutput};
ghost use Rattle.subgraph_cli.specs.Streams.{stream};
ghost use Rattle.subgraph_cli.specs.Leaving.{OnlyWrites, OnlyPrints};

use crate::deciding::{Answer, decide};
use crate::proving::leave_proof;
use crate::question::load_problem;
use crate::stop::Stop;
use command_line::SolveWords;
use fail_account::account::Account;
use graph_rows::mapping::write_mapping;
use graph_rows::problem::Problem;
use outer_io::files::Files;
use outer_io::sink::Sink;
use std::alloc::Global;
use std::thread::Threads;

/// What a solve decides.
#[derive(Clone, Copy, PartialEq, Eq, Debug)]
pub enum Decision {
    /// An embedding was found and written.
    Yes,
    /// No embedding exists.
    Nothing,
    /// Each worker spent its budget before.
    Unknown,
}

/// Writes what was decided.
fn tell<O: Sink>(answer: &Answer, out: &mut O) -> Result<Decision, Stop>
    ensures says { TellingSays result answer.now
        (stream O.spot O.contents O.faults out.old out.new) }
    ensures output { OnlyPrints O.spot O.contents O.rest O.faults SparesOutput result
        out.old out.new }
{
    let (written, decision) = match answer {
        Answer::Yes(map) => (write_mapping(map, out), Decision::Yes),
        Answer::Nothing(_) => (out.put(b"none\n"), Decision::Nothing),
        Answer::Unknown => (out.put(b"unknown\n"), Decision::Unknown),
    };
    match written {
        Ok(()) => Ok(decision),
        Err(_) => Err(Stop::OutputFault),
    }
}

/// Decides the problem that the files ask, which was loaded: a proof is written where one is asked for, and then the answer.
fn solve_problem<R: Threads + Sync, F: Files, O: Sink>(
    rt: &R,
    alloc: Global,
    q: &Problem,
    words: &SolveWords,
    files: &mut F,
    out: &mut O,
    spent: &mut Vec<Account>,
) -> Result<Decision, Stop>
    requires ranges { IsSolveInRange words.now }
    requires empty { spent.old.items ≡ [] }
    requires asks { IsTrue (F.tells files.old)
        → Asks (F.content files.old words.now.pattern) (F.content files.old words.now.target)
        words.now.ask q.now }
    ensures files { OnlyWrites F.tells F.content F.faults F.fault_at (IsOfProof words.now.prove)
        (IsFaultOfSolve words.now) result files.old files.new }
    ensures output { OnlyPrints O.spot O.contents O.rest O.faults SparesOutput result
        out.old out.new }
    ensures says { IsTrue (F.tells files.old)
        → SolveSays result words.now (F.content files.old words.now.pattern)
        (F.content files.old words.now.target) spent.new.items
        (disk F.tells F.content F.faults F.fault_at files.old files.new)
        (stream O.spot O.contents O.faults out.old out.new) }
{
    let answer = decide(rt, alloc, q, words, spent)?;
    leave_proof(alloc, q, &answer, words, files)?;
    tell(&answer, out)
}

/// Decides the problem of the files: both are loaded and read, the problem is decided, a proof is written where one is asked for, the
/// encoding whole and then the log, and then the answer is written.
pub fn solve<R: Threads + Sync, F: Files, O: Sink>(
    rt: &R,
    alloc: Global,
    words: &SolveWords,
    files: &mut F,
    out: &mut O,
    spent: &mut Vec<Account>,
) -> Result<Decision, Stop>
    requires ranges { IsSolveInRange words.now }
    requires empty { spent.old.items ≡ [] }
    ensures says { IsTrue (F.tells files.old)
        → SolveSays result words.now (F.content files.old words.now.pattern)
        (F.content files.old words.now.target) spent.new.items
        (disk F.tells F.content F.faults F.fault_at files.old files.new)
        (stream O.spot O.contents O.faults out.old out.new) }
    ensures files { OnlyWrites F.tells F.content F.faults F.fault_at (IsOfProof words.now.prove)
        (IsFaultOfSolve words.now) result files.old files.new }
    ensures output { OnlyPrints O.spot O.contents O.rest O.faults SparesOutput result
        out.old out.new }
{
    let SolveWords {
        pattern,
        target,
        ask,
        ..
    } = words;
    let q = load_problem(alloc, files, pattern, target, ask)?;
    solve_problem(rt, alloc, &q, words, files, out, spent)
}

/// Two runs over the same files with the same options that choose the problem decide alike, whatever their threads, seeds, budgets, books and
/// proofs.
pub fn one_verdict()
    ensures { OneVerdict }
{}
