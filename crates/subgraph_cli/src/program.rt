//! The program for one problem, over any files and sinks.

ghost use Rattle.std.specs.Prelude.{◌≡◌, [], List, None, Some, map, string_bytes};
ghost use Rattle.search_theory.specs.Account.{Account as TheAccount};
ghost use Rattle.command_line.specs.CommandLine as line;
ghost use Rattle.command_line.specs.declared.commands.Command.{Command as TheCommand};
ghost use Rattle.subgraph_cli.specs.Disk.{Disk, disk, KeepsFiles, KeepsAllBut};
ghost use Rattle.subgraph_cli.specs.Outcomes.{outcome};
ghost use Rattle.subgraph_cli.specs.Proving.{IsOfProof};
ghost use Rattle.subgraph_cli.specs.Running.{Ran, EndsWithout, IsWritten};
ghost use Rattle.subgraph_cli.specs.Streams.{stream, IsSameSink};

use crate::check::check;
use crate::demo::demo;
use crate::encode::encode;
use crate::solve::solve;
use crate::stop::Stop;
use crate::telling::{
    end_check, end_demo, end_encode, end_solve, end_trim, end_verify, tell_no_command, tell_stop,
};
use crate::trim::trim;
use crate::verify::verify;
use command_line::{
    CheckWords, Command, DemoWords, EncodeWords, Refusal, SolveWords, TrimWords, VerifyWords,
    command_of,
};
use fail_account::account::Account;
use graph_theory::lad_text::text_laws;
use graph_theory::mapping_text::mapping_laws;
use log_theory::answer_laws;
use outer_io::files::Files;
use outer_io::sink::Sink;
use std::alloc::Global;
use std::thread::Threads;

/// The program but for batches, whose words are no command here: reads the words, the program's name first among them, does what they
/// say, and answers the status to end with. Where a search ends undecided, the accounts of its workers are left in `spent`, in their order. Where a proof is asked for,
/// its two files are written before the answer of `solve`. The trimmed log is written before the answer of `trim`.
///
/// | status | what it means |
/// |---|---|
/// | 0 | `solve` wrote `yes` and an embedding; `verify` wrote `embedding`; `encode` wrote the encoding; `check` wrote what the log claims; `trim` wrote how much is kept; `demo` wrote that both problems are decided, and that the log of the second is accepted |
/// | 1 | `solve` wrote `none`: no embedding exists |
/// | 2 | `solve` wrote `unknown`: each worker spent its budget; `demo` wrote `unknown` of one of its problems or both |
/// | 3 | the words are no command |
/// | 4 | a text is refused, or a pair of `--less` names a vertex that the pattern has not |
/// | 5 | a call on the files or the output failed |
/// | 6 | memory was refused |
/// | 7 | the mapping is no embedding; the log is not accepted |
pub fn run_single<R: Threads + Sync, F: Files, O: Sink, E: Sink>(
    rt: &R,
    alloc: Global,
    words: &[String],
    files: &mut F,
    out: &mut O,
    err: &mut E,
    spent: &mut Vec<Account>,
) -> u8
    requires { spent.old.items ≡ [] }

    // Status 3 comes exactly where the words are no command, unless memory was refused.
    ensures words { result ≡ 3 → line.command (map string_bytes words.now) ≡ None }
    ensures no_command { line.command (map string_bytes words.now) ≡ None
        → EndsWithout (outcome result spent.new.items
        (disk F.tells F.content F.faults F.fault_at files.old files.new)
        (stream O.spot O.contents O.faults out.old out.new)
        (stream E.spot E.contents E.faults err.old err.new)) }
    // What a run of the words' command says, by its status, and that it is complete without a fault.
    ensures ran { (c : TheCommand) → line.command (map string_bytes words.now) ≡ Some c
        → Ran c (outcome result spent.new.items
        (disk F.tells F.content F.faults F.fault_at files.old files.new)
        (stream O.spot O.contents O.faults out.old out.new)
        (stream E.spot E.contents E.faults err.old err.new)) }

    // No file is written but those that the words' command writes.
    ensures files { KeepsAllBut F.tells F.content F.faults
        (IsWritten (line.command (map string_bytes words.now))) files.old files.new }
    ensures output { IsSameSink O.spot O.rest O.faults out.old out.new }
    ensures error { IsSameSink E.spot E.rest E.faults err.old err.new }
{
    match command_of(alloc, words) {
        Ok(command) => run_command(rt, alloc, &command, files, out, err, spent),
        Err(Refusal::NotACommand) => tell_no_command(err),
        Err(Refusal::NoMemory) => tell_stop(Stop::NoMemory, err),
    }
}

/// Runs a command.
fn run_command<R: Threads + Sync, F: Files, O: Sink, E: Sink>(
    rt: &R,
    alloc: Global,
    command: &Command,
    files: &mut F,
    out: &mut O,
    err: &mut E,
    spent: &mut Vec<Account>,
) -> u8
    requires ranges { line.IsInRange command.now }
    requires empty { spent.old.items ≡ [] }
    ensures ran { Ran command.now (outcome result spent.new.items
        (disk F.tells F.content F.faults F.fault_at files.old files.new)
        (stream O.spot O.contents O.faults out.old out.new)
        (stream E.spot E.contents E.faults err.old err.new)) }
    ensures files { KeepsAllBut F.tells F.content F.faults (IsWritten (Some command.now))
        files.old files.new }
    ensures output { IsSameSink O.spot O.rest O.faults out.old out.new }
    ensures error { IsSameSink E.spot E.rest E.faults err.old err.new }
{
    match command {
        Command::Solve(asked) => run_solve(rt, alloc, asked, files, out, err, spent),
        Command::Verify(asked) => run_verify(alloc, asked, files, out, err),
        Command::Encode(asked) => run_encode(alloc, asked, files, out, err),
        Command::Check(asked) => run_check(alloc, asked, files, out, err),
        Command::Trim(asked) => run_trim(alloc, asked, files, out, err),
        Command::Demo(asked) => run_demo(rt, alloc, asked, out, err, spent),
    }
}

/// Solves, and tells where that stopped.
fn run_solve<R: Threads + Sync, F: Files, O: Sink, E: Sink>(
    rt: &R,
    alloc: Global,
    asked: &SolveWords,
    files: &mut F,
    out: &mut O,
    err: &mut E,
    spent: &mut Vec<Account>,
) -> u8
    requires ranges { line.IsSolveInRange asked.now }
    requires empty { spent.old.items ≡ [] }
    ensures ran { Ran (TheCommand.Solve asked.now) (outcome result spent.new.items
        (disk F.tells F.content F.faults F.fault_at files.old files.new)
        (stream O.spot O.contents O.faults out.old out.new)
        (stream E.spot E.contents E.faults err.old err.new)) }
    ensures files { KeepsAllBut F.tells F.content F.faults (IsOfProof asked.now.prove)
        files.old files.new }
    ensures output { IsSameSink O.spot O.rest O.faults out.old out.new }
    ensures error { IsSameSink E.spot E.rest E.faults err.old err.new }
{
    text_laws();
    let ended = solve(rt, alloc, asked, files, out, spent);
    end_solve(ended, err)
}

/// Verifies, and tells where that stopped.
fn run_verify<F: Files, O: Sink, E: Sink>(
    alloc: Global,
    asked: &VerifyWords,
    files: &mut F,
    out: &mut O,
    err: &mut E,
) -> u8
    ensures ran { (accounts : List TheAccount)
        → Ran (TheCommand.Verify asked.now) (outcome result accounts
        (disk F.tells F.content F.faults F.fault_at files.old files.new)
        (stream O.spot O.contents O.faults out.old out.new)
        (stream E.spot E.contents E.faults err.old err.new)) }
    ensures files { KeepsFiles F.tells F.content F.faults files.old files.new }
    ensures output { IsSameSink O.spot O.rest O.faults out.old out.new }
    ensures error { IsSameSink E.spot E.rest E.faults err.old err.new }
{
    text_laws();
    mapping_laws();
    let ended = verify(alloc, asked, files, out);
    end_verify(ended, err)
}

/// Encodes, and tells where that stopped.
fn run_encode<F: Files, O: Sink, E: Sink>(
    alloc: Global,
    asked: &EncodeWords,
    files: &mut F,
    out: &mut O,
    err: &mut E,
) -> u8
    requires { line.IsEncodeInRange asked.now }
    ensures ran { (accounts : List TheAccount)
        → Ran (TheCommand.Encode asked.now) (outcome result accounts
        (disk F.tells F.content F.faults F.fault_at files.old files.new)
        (stream O.spot O.contents O.faults out.old out.new)
        (stream E.spot E.contents E.faults err.old err.new)) }
    ensures files { KeepsFiles F.tells F.content F.faults files.old files.new }
    ensures output { IsSameSink O.spot O.rest O.faults out.old out.new }
    ensures error { IsSameSink E.spot E.rest E.faults err.old err.new }
{
    text_laws();
    let ended = encode(alloc, asked, files, out);
    end_encode(ended, err)
}

/// Checks, and tells where that stopped.
fn run_check<F: Files, O: Sink, E: Sink>(
    alloc: Global,
    asked: &CheckWords,
    files: &mut F,
    out: &mut O,
    err: &mut E,
) -> u8
    ensures ran { (accounts : List TheAccount)
        → Ran (TheCommand.Check asked.now) (outcome result accounts
        (disk F.tells F.content F.faults F.fault_at files.old files.new)
        (stream O.spot O.contents O.faults out.old out.new)
        (stream E.spot E.contents E.faults err.old err.new)) }
    ensures files { KeepsFiles F.tells F.content F.faults files.old files.new }
    ensures output { IsSameSink O.spot O.rest O.faults out.old out.new }
    ensures error { IsSameSink E.spot E.rest E.faults err.old err.new }
{
    let ended = check(alloc, asked, files, out);
    end_check(ended, err)
}

/// Trims, and tells where that stopped.
fn run_trim<F: Files, O: Sink, E: Sink>(
    alloc: Global,
    asked: &TrimWords,
    files: &mut F,
    out: &mut O,
    err: &mut E,
) -> u8
    ensures ran { (accounts : List TheAccount)
        → Ran (TheCommand.Trim asked.now) (outcome result accounts
        (disk F.tells F.content F.faults F.fault_at files.old files.new)
        (stream O.spot O.contents O.faults out.old out.new)
        (stream E.spot E.contents E.faults err.old err.new)) }
    ensures files { KeepsAllBut F.tells F.content F.faults (λ file. file ≡ asked.now.out)
        files.old files.new }
    ensures output { IsSameSink O.spot O.rest O.faults out.old out.new }
    ensures error { IsSameSink E.spot E.rest E.faults err.old err.new }
{
    answer_laws();
    let ended = trim(alloc, asked, files, out);
    end_trim(ended, err)
}

/// Decides the two problems of a seed, and tells where that stopped. It looks at no file.
fn run_demo<R: Threads + Sync, O: Sink, E: Sink>(
    rt: &R,
    alloc: Global,
    asked: &DemoWords,
    out: &mut O,
    err: &mut E,
    spent: &mut Vec<Account>,
) -> u8
    requires ranges { line.IsDemoInRange asked.now }
    requires empty { spent.old.items ≡ [] }
    ensures ran { (d : Disk) → d.faults_after ≡ d.faults_before → Ran (TheCommand.Demo asked.now)
        (outcome result spent.new.items d
        (stream O.spot O.contents O.faults out.old out.new)
        (stream E.spot E.contents E.faults err.old err.new)) }
    ensures output { IsSameSink O.spot O.rest O.faults out.old out.new }
    ensures error { IsSameSink E.spot E.rest E.faults err.old err.new }
{
    let ended = demo(rt, alloc, asked, out, spent);
    end_demo(ended, err)
}
