//! The command `trim`. It knows nothing of graphs: a model, a log, and the trimmed log.

ghost use Rattle.std.specs.Prelude.{◌≡◌, IsTrue, IfErr, IfOk};
ghost use Rattle.outer_io.specs.KnownText.{Wrote};
ghost use Rattle.outer_io.specs.Sinks.{HasBlame};
ghost use Rattle.subgraph_cli.specs.Disk.{disk, IsReadingOf};
ghost use Rattle.subgraph_cli.specs.Stops.{IsOfFiles, SparesOutput};
ghost use Rattle.subgraph_cli.specs.Streams.{stream};
ghost use Rattle.subgraph_cli.specs.Checking.{Holds, HoldsLog};
ghost use Rattle.subgraph_cli.specs.Trimming.{kept_text, NoLog, NotBoth, IsReadingOfTwo, IsWritingOf, IsFaultOfTrim, TrimSays, KeepsWhenShort, CountSays, LeftSays};
ghost use Rattle.subgraph_cli.specs.Leaving.{OnlyReads, OnlyWrites, OnlyPrints};

use crate::check::{PROOF_LIMIT, load_model, refused};
use crate::out_file::leave_text;
use crate::stop::{Role, Stop, TextFault};
use command_line::{FileName, TrimWords};
use itoa::Buffer;
use log_theory::{Cause, answer_laws};
use opb_text::Model;
use outer_io::fault::{Failed, LoadFault};
use outer_io::files::Files;
use outer_io::put::put_all;
use outer_io::reading::load;
use outer_io::sink::Sink;
use proof_trim::{Kept, Trimmed, trim as trim_log};
use std::alloc::Global;

/// What a trim tells.
#[derive(Clone, Copy, PartialEq, Eq, Debug)]
pub enum Trimming {
    /// So many lines that make a constraint are kept, of so many.
    Shortened { kept: u64, made: u64 },
    /// The log is refused at its first faulty line, from 1, for its first cause.
    NotAccepted { line: u64, cause: Cause },
}

/// The log in a file.
fn load_log<F: Files>(alloc: Global, files: &mut F, name: &FileName) -> Result<Vec<u8>, Stop>
    ensures held { IfOk result (λ log. IsTrue (F.tells files.old)
        → HoldsLog (F.content files.old name.now) log.items) }
    ensures refused { IfErr result (λ stop. IsTrue (F.tells files.old)
        → NoLog stop (F.content files.old name.now)) }
    ensures loading { IfErr result IsOfFiles }
    ensures files { OnlyReads F.tells F.content F.faults F.fault_at (IsReadingOf name.now) result
        files.old files.new }
{
    match load(alloc, files, name.as_str(), PROOF_LIMIT) {
        Ok(bytes) => Ok(bytes),
        Err(LoadFault::Failed) => Err(Stop::FilesFault),
        Err(LoadFault::TooLong) => Err(refused(Role::Log, TextFault::TooLong)),
        Err(LoadFault::NoMemory) => Err(Stop::NoMemory),
    }
}

/// The model and the log in their files: the log is loaded where the model is good.
fn load_both<F: Files>(
    alloc: Global,
    words: &TrimWords,
    files: &mut F,
) -> Result<(Model, Vec<u8>), Stop>
    ensures held { IfOk result (λ both. IsTrue (F.tells files.old)
        → Holds (F.content files.old words.now.encoding) (F.content files.old words.now.log)
        both.0 both.1.items) }
    ensures refused { IfErr result (λ stop. IsTrue (F.tells files.old)
        → NotBoth stop (F.content files.old words.now.encoding)
        (F.content files.old words.now.log)) }
    ensures loading { IfErr result IsOfFiles }
    ensures files { OnlyReads F.tells F.content F.faults F.fault_at (IsReadingOfTwo words.now)
        result files.old files.new }
{
    let model = load_model(alloc, files, &words.encoding)?;
    let log = load_log(alloc, files, &words.log)?;
    Ok((model, log))
}

/// Puts the line that tells how much is kept.
fn put_kept<O: Sink>(kept: u64, made: u64, out: &mut O) -> Result<(), Failed>
    ensures text { Wrote (O.spot out.old).steady (O.contents out.old) (O.contents out.new) result
        (kept_text kept made) }
    ensures cause { HasBlame O.spot O.rest O.faults O.blamed out.old out.new result }
{
    let mut first = Buffer::new();
    let mut second = Buffer::new();
    let part = first.format(kept).as_bytes();
    let whole = second.format(made).as_bytes();
    put_all(&[b"kept ", part, b" of ", whole, b"\n"], out)
}

/// Tells how much is kept.
fn tell_kept<O: Sink>(kept: u64, made: u64, out: &mut O) -> Result<(), Stop>
    ensures says { CountSays result kept made
        (stream O.spot O.contents O.faults out.old out.new) }
    ensures output { OnlyPrints O.spot O.contents O.rest O.faults SparesOutput result
        out.old out.new }
{
    match put_kept(kept, made, out) {
        Ok(()) => Ok(()),
        Err(_) => Err(Stop::OutputFault),
    }
}

/// Writes the trimmed log to its file, and then tells how much is kept.
fn leave<F: Files, O: Sink>(
    alloc: Global,
    words: &TrimWords,
    kept: &Kept,
    files: &mut F,
    out: &mut O,
) -> Result<(), Stop>
    ensures says { IsTrue (F.tells files.old) → LeftSays result words.now kept.now.text.bytes
        kept.now.kept kept.now.made (disk F.tells F.content F.faults F.fault_at files.old files.new)
        (stream O.spot O.contents O.faults out.old out.new) }
    ensures files { OnlyWrites F.tells F.content F.faults F.fault_at (λ file. file ≡ words.now.out)
        (IsWritingOf words.now.out) result files.old files.new }
    ensures output { OnlyPrints O.spot O.contents O.rest O.faults SparesOutput result
        out.old out.new }
{
    leave_text(alloc, kept.text.as_slice(), words.out.as_str(), files)?;
    tell_kept(kept.kept as u64, kept.made as u64, out)
}

/// Trims the log in a file over the model in another, writes the trimmed log to a third where it is accepted, and tells how many of its
/// lines that make a constraint are kept. The encoding is loaded and read before the log is loaded. The third file is touched only then, and
/// written in pieces of 65,536 bytes. The memory taken is that of the files of the encoding and of the log, and of what trimming
/// takes.
pub fn trim<F: Files, O: Sink>(
    alloc: Global,
    words: &TrimWords,
    files: &mut F,
    out: &mut O,
) -> Result<Trimming, Stop>
    ensures says { IsTrue (F.tells files.old)
        → TrimSays result words.now (F.content files.old words.now.encoding)
        (F.content files.old words.now.log)
        (disk F.tells F.content F.faults F.fault_at files.old files.new)
        (stream O.spot O.contents O.faults out.old out.new) }
    ensures refused { KeepsWhenShort result (stream O.spot O.contents O.faults out.old out.new) }
    ensures files { OnlyWrites F.tells F.content F.faults F.fault_at (λ file. file ≡ words.now.out)
        (IsFaultOfTrim words.now) result files.old files.new }
    ensures output { OnlyPrints O.spot O.contents O.rest O.faults SparesOutput result
        out.old out.new }
{
    answer_laws();
    let (model, log) = load_both(alloc, words, files)?;
    match trim_log(alloc, &model, &log) {
        Trimmed::Kept(kept) => {
            leave(alloc, words, &kept, files, out)?;
            Ok(Trimming::Shortened {
                kept: kept.kept as u64,
                made: kept.made as u64,
            })
        }
        Trimmed::Refused { line, cause } => Ok(Trimming::NotAccepted { line, cause }),
        Trimmed::NoMemory => Err(Stop::NoMemory),
    }
}
