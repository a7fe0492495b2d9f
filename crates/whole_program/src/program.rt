//! The whole program, over any files and sinks.

ghost use Rattle.std.specs.Prelude.{◌≡◌, [], None, Some, map, string_bytes};
ghost use Rattle.command_line.specs.Batch as many;
ghost use Rattle.command_line.specs.CommandLine as line;
ghost use Rattle.command_line.specs.declared.batch.BatchWords.{BatchWords as TheBatch};
ghost use Rattle.command_line.specs.declared.commands.Command.{Command as TheCommand};
ghost use Rattle.whole_program.specs.Batches.{BatchRan};
ghost use Rattle.subgraph_cli.specs.Disk.{disk, KeepsFiles, KeepsAllBut};
ghost use Rattle.subgraph_cli.specs.Outcomes.{outcome};
ghost use Rattle.subgraph_cli.specs.Running.{Ran, EndsWithout, IsWritten};
ghost use Rattle.subgraph_cli.specs.Streams.{stream, IsSameSink};

use crate::batch::{batch, end_batch};
use command_line::{BatchWords, Refusal, batch_of};
use fail_account::account::Account;
use graph_theory::lad_text::text_laws;
use outer_io::files::Files;
use outer_io::sink::Sink;
use std::alloc::Global;
use std::sync::Wait;
use std::thread::Threads;
use subgraph_cli::run_single;
use subgraph_cli::stop::Stop;
use subgraph_cli::telling::tell_stop;

/// The program: reads the words, the program's name first among them, does what they say, and answers the status to
/// end with. Where the words are no batch, all is handed to `run_single`. Of a batch, `spent` gets one account for each line
/// `unknown`, in the order of the lines. A batch may wait for other threads, and that it returns is not promised.
///
/// | status | what it means for `batch` |
/// |---|---|
/// | 0 | a line for each job was written, and each job is decided |
/// | 2 | a line for each job was written, one or more of them `unknown` |
/// | 4 | the list or a file that it names is refused |
/// | 5 | a call on the files or the output failed |
/// | 6 | memory was refused |
pub fn run<R: Threads + Wait + Sync, F: Files, O: Sink, E: Sink>(
    rt: &R,
    alloc: Global,
    words: &[String],
    files: &mut F,
    out: &mut O,
    err: &mut E,
    spent: &mut Vec<Account>,
) -> u8
    requires { spent.old.items ≡ [] }

    // Status 3 comes exactly where the words are no command and no batch, unless memory was refused.
    ensures words { result ≡ 3 → (line.command (map string_bytes words.now) ≡ None)
        × (many.batch (map string_bytes words.now) ≡ None) }
    ensures no_command { line.command (map string_bytes words.now) ≡ None
        → many.batch (map string_bytes words.now) ≡ None
        → EndsWithout (outcome result spent.new.items
        (disk F.tells F.content F.faults F.fault_at files.old files.new)
        (stream O.spot O.contents O.faults out.old out.new)
        (stream E.spot E.contents E.faults err.old err.new)) }
    // What a run of the words' command says, by its status, and that it is complete without a fault.
    ensures ran { (c : TheCommand) → line.command (map string_bytes words.now) ≡ Some c
        → Ran c (outcome result spent.new.items
        (disk F.tells F.content F.faults F.fault_at files.old files.new)
        (stream O.spot O.contents O.faults out.old out.new)
        (stream E.spot E.contents E.faults err.old err.new)) }
    // The same of a batch.
    ensures batch { (w : TheBatch) → many.batch (map string_bytes words.now) ≡ Some w
        → BatchRan w (outcome result spent.new.items
        (disk F.tells F.content F.faults F.fault_at files.old files.new)
        (stream O.spot O.contents O.faults out.old out.new)
        (stream E.spot E.contents E.faults err.old err.new)) }

    // No file is written but those that the words' command writes; a batch writes none.
    ensures files { KeepsAllBut F.tells F.content F.faults
        (IsWritten (line.command (map string_bytes words.now))) files.old files.new }
    ensures output { IsSameSink O.spot O.rest O.faults out.old out.new }
    ensures error { IsSameSink E.spot E.rest E.faults err.old err.new }
{
    text_laws();
    match batch_of(alloc, words) {
        Ok(asked) => run_batch(rt, alloc, &asked, files, out, err, spent),
        Err(Refusal::NotACommand) => run_single(rt, alloc, words, files, out, err, spent),
        Err(Refusal::NoMemory) => tell_stop(Stop::NoMemory, err),
    }
}

/// Decides the jobs of a list, and tells where that stopped.
fn run_batch<R: Threads + Wait + Sync, F: Files, O: Sink, E: Sink>(
    rt: &R,
    alloc: Global,
    asked: &BatchWords,
    files: &mut F,
    out: &mut O,
    err: &mut E,
    spent: &mut Vec<Account>,
) -> u8
    requires ranges { many.IsBatchInRange asked.now }
    requires empty { spent.old.items ≡ [] }
    ensures ran { BatchRan asked.now (outcome result spent.new.items
        (disk F.tells F.content F.faults F.fault_at files.old files.new)
        (stream O.spot O.contents O.faults out.old out.new)
        (stream E.spot E.contents E.faults err.old err.new)) }
    ensures files { KeepsFiles F.tells F.content F.faults files.old files.new }
    ensures output { IsSameSink O.spot O.rest O.faults out.old out.new }
    ensures error { IsSameSink E.spot E.rest E.faults err.old err.new }
{
    text_laws();
    let ended = batch(rt, alloc, asked, files, out, spent);
    end_batch(ended, err)
}
