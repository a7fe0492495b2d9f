//! One text written to a file.

ghost use Rattle.std.specs.Prelude.{◌≡◌, ◌≤◌, false, length, IsTrue, OnOk, OnErr, IfErr, Some};
ghost use Rattle.outer_io.specs.KnownText.{Wrote};
ghost use Rattle.proof_files.specs.OneFile.{IsCutShort, FailsAt, KeepsAllBut};
ghost use Rattle.subgraph_cli.specs.Disk.{disk};
ghost use Rattle.subgraph_cli.specs.Deciding.{IsOfWriting};
ghost use Rattle.subgraph_cli.specs.Trimming.{OutSays, IsWritingOf};
ghost use Rattle.subgraph_cli.specs.Leaving.{OnlyWrites};

use crate::stop::Stop;
use outer_io::fault::Failed;
use outer_io::files::Files;
use outer_io::sink::Sink;
use outer_io::{PieceRoom, Pieces};
use std::alloc::Global;

/// Adds a text to its file, which is begun, in pieces.
fn add_text<F: Files>(
    text: &[u8],
    name: &str,
    room: &mut PieceRoom,
    files: &mut F,
) -> Result<(), Failed>
    requires { F.begun files.old ≡ Some name.now }
    ensures text { Wrote false (F.content files.old name.now) (F.content files.new name.now) result
        text.now }
    ensures fault { OnErr result (FailsAt name.now (F.faults files.old) (F.faults files.new)
        (F.fault_at files.new)) }
    ensures quiet { OnOk result (F.faults files.new ≡ F.faults files.old) }
    ensures files { KeepsAllBut F.tells F.content F.faults name.now files.old files.new }
{
    let mut sink = Pieces::new(files, name, room);
    sink.put(text)?;
    sink.flush()
}

/// Writes a text to its file.
#[tactic(auto, using(crate::proofs::Cutting::cut_short_at))]
fn put_text<F: Files>(
    text: &[u8],
    name: &str,
    room: &mut PieceRoom,
    files: &mut F,
) -> Result<(), Failed>
    requires { length name.now ≤ 4095 }
    ensures whole { OnOk result (IsTrue (F.tells files.old)
        → F.content files.new name.now ≡ Some text.now) }
    ensures cut { OnErr result (IsTrue (F.tells files.old)
        → IsCutShort (F.content files.old name.now) (F.content files.new name.now) text.now) }
    ensures fault { OnErr result (FailsAt name.now (F.faults files.old) (F.faults files.new)
        (F.fault_at files.new)) }
    ensures quiet { OnOk result (F.faults files.new ≡ F.faults files.old) }
    ensures files { KeepsAllBut F.tells F.content F.faults name.now files.old files.new }
{
    files.begin(name)?;
    add_text(text, name, room, files)
}

/// Writes a text to its file, in pieces of 65,536 bytes and a last one. The memory for a piece is taken before the file is touched.
pub(crate) fn leave_text<F: Files>(
    alloc: Global,
    text: &[u8],
    name: &str,
    files: &mut F,
) -> Result<(), Stop>
    requires { length name.now ≤ 4095 }
    ensures says { IsTrue (F.tells files.old) → OutSays result name.now text.now
        (disk F.tells F.content F.faults F.fault_at files.old files.new) }
    ensures writing { IfErr result IsOfWriting }
    ensures files { OnlyWrites F.tells F.content F.faults F.fault_at (λ file. file ≡ name.now)
        (IsWritingOf name.now) result files.old files.new }
{
    let Ok(mut room) = PieceRoom::new(alloc) else {
        return Err(Stop::NoMemory);
    };
    match put_text(text, name, &mut room, files) {
        Ok(()) => Ok(()),
        Err(_) => Err(Stop::FilesFault),
    }
}
