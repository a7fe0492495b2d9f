//! Writing the two files.

ghost use Rattle.std.specs.Prelude.{◌≡◌, ◌≢◌, ◌≤◌, ◌⊎◌, false, length, IsTrue, OnOk, OnErr, IsErrOf, Some};
ghost use Rattle.outer_io.specs.KnownText.{Wrote};
ghost use Rattle.log_theory.specs.Acceptance.{Accepts};
ghost use Rattle.pb_encoding.specs.Writing.{encoding_text};
ghost use Rattle.merged_log.specs.Profiles.{in_profile};
ghost use Rattle.merged_log.specs.Steps.{log_text};
ghost use Rattle.encoding_theory.specs.Variables.{variables};
ghost use Rattle.encoding_theory.specs.Encoding.{encoding as encoding_of};
ghost use Rattle.proof_files.specs.Findings.{IsFound, IsAccepted, texts};
ghost use Rattle.proof_files.specs.Parts.{MayBeWritten, part_steps, part_texts, part_verdict};
ghost use Rattle.proof_files.specs.OneFile.{IsCutShort, FailsAt, KeepsAllBut};
ghost use Rattle.proof_files.specs.TwoFiles.{two_files, WritingSays, KeepsOthers};

use crate::finding::Finding;
use crate::log::{Parts, parts_of, write_log};
use graph_rows::Problem;
use log_theory::Profile;
use outer_io::{Failed, Files, PieceRoom, Pieces, PutFault};
use pb_encoding::Encoding;
use std::alloc::Global;

/// Adds the encoding to its file, which is begun, in pieces.
fn add_encoding<F: Files>(
    alloc: Global,
    encoding: &Encoding,
    name: &str,
    room: &mut PieceRoom,
    files: &mut F,
) -> Result<(), PutFault>
    requires { F.begun files.old ≡ Some name.now }
    ensures text { Wrote false (F.content files.old name.now) (F.content files.new name.now) result
        (encoding_text encoding.now) }
    ensures fault { IsErrOf result PutFault.Failed
        → FailsAt name.now (F.faults files.old) (F.faults files.new) (F.fault_at files.new) }
    ensures quiet { IsErrOf result PutFault.Failed ⊎ (F.faults files.new ≡ F.faults files.old) }
    ensures files { KeepsAllBut F.tells F.content F.faults name.now files.old files.new }
{
    let mut sink = Pieces::new(files, name, room);
    encoding.write_lines(alloc, &mut sink)?;
    sink.flush()?;
    Ok(())
}

/// Writes the encoding to its file.
#[tactic(auto, using(crate::proofs::Cutting::cut_short_at))]
fn put_encoding<F: Files>(
    alloc: Global,
    encoding: &Encoding,
    name: &str,
    room: &mut PieceRoom,
    files: &mut F,
) -> Result<(), PutFault>
    requires { length name.now ≤ 4095 }
    ensures whole { OnOk result (IsTrue (F.tells files.old)
        → F.content files.new name.now ≡ Some (encoding_text encoding.now)) }
    ensures cut { OnErr result (IsTrue (F.tells files.old)
        → IsCutShort (F.content files.old name.now) (F.content files.new name.now)
        (encoding_text encoding.now)) }
    ensures fault { IsErrOf result PutFault.Failed
        → FailsAt name.now (F.faults files.old) (F.faults files.new) (F.fault_at files.new) }
    ensures quiet { IsErrOf result PutFault.Failed ⊎ (F.faults files.new ≡ F.faults files.old) }
    ensures files { KeepsAllBut F.tells F.content F.faults name.now files.old files.new }
{
    files.begin(name)?;
    add_encoding(alloc, encoding, name, room, files)
}

/// Adds the log of these parts to its file, which is begun: its head, and then the rest in pieces.
fn add_log<F: Files>(
    profile: Profile,
    q: &Problem,
    encoding: &Encoding,
    parts: Parts,
    name: &str,
    room: &mut PieceRoom,
    files: &mut F,
) -> Result<(), Failed>
    requires same { encoding.now ≡ q.now }
    requires ready { MayBeWritten q.now parts }
    requires begun { F.begun files.old ≡ Some name.now }
    ensures text { Wrote false (F.content files.old name.now) (F.content files.new name.now) result
        (in_profile profile (log_text (part_steps q.now parts.entry))) }
    ensures fault { OnErr result (FailsAt name.now (F.faults files.old) (F.faults files.new)
        (F.fault_at files.new)) }
    ensures quiet { OnOk result (F.faults files.new ≡ F.faults files.old) }
    ensures files { KeepsAllBut F.tells F.content F.faults name.now files.old files.new }
    ensures accepted { Accepts (variables q.now) (encoding_of q.now)
        (in_profile profile (log_text (part_steps q.now parts.entry))) (part_verdict parts.entry) }
{
    let mut sink = Pieces::headed(files, name, room);
    write_log(profile, q, encoding, parts, &mut sink)?;
    sink.flush()
}

/// Writes the log of these parts to its file.
#[tactic(auto, using(crate::proofs::Cutting::cut_short_at))]
fn put_log<F: Files>(
    profile: Profile,
    q: &Problem,
    encoding: &Encoding,
    parts: Parts,
    name: &str,
    room: &mut PieceRoom,
    files: &mut F,
) -> Result<(), Failed>
    requires same { encoding.now ≡ q.now }
    requires ready { MayBeWritten q.now parts }
    requires name { length name.now ≤ 4095 }
    ensures whole { OnOk result (IsTrue (F.tells files.old)
        → F.content files.new name.now
        ≡ Some (in_profile profile (log_text (part_steps q.now parts.entry)))) }
    ensures cut { OnErr result (IsTrue (F.tells files.old)
        → IsCutShort (F.content files.old name.now) (F.content files.new name.now)
        (in_profile profile (log_text (part_steps q.now parts.entry)))) }
    ensures fault { OnErr result (FailsAt name.now (F.faults files.old) (F.faults files.new)
        (F.fault_at files.new)) }
    ensures quiet { OnOk result (F.faults files.new ≡ F.faults files.old) }
    ensures files { KeepsAllBut F.tells F.content F.faults name.now files.old files.new }
    ensures accepted { OnOk result (Accepts (variables q.now) (encoding_of q.now)
        (in_profile profile (log_text (part_steps q.now parts.entry))) (part_verdict parts.entry)) }
{
    files.begin(name)?;
    add_log(profile, q, encoding, parts, name, room, files)
}

/// How a proof is written: in which profile, and the names of its two files.
#[derive(Drop)]
struct Order<'n> {
    profile: Profile,
    encoding: &'n str,
    log: &'n str,
}

/// Writes the encoding, and then the log of these parts. All memory but that of a constraint is there.
fn write_both<F: Files>(
    alloc: Global,
    q: &Problem,
    lines: &Encoding,
    parts: Parts,
    order: &Order,
    room: &mut PieceRoom,
    files: &mut F,
) -> Result<(), PutFault>
    requires same { lines.now ≡ q.now }
    requires ready { MayBeWritten q.now parts }
    requires encoding { length order.now.encoding.now ≤ 4095 }
    requires log { length order.now.log.now ≤ 4095 }
    requires apart { order.now.encoding.now ≢ order.now.log.now }
    ensures says { WritingSays result (two_files F.tells F.content F.faults F.fault_at
        order.now.encoding.now order.now.log.now files.old files.new)
        (part_texts order.now.profile q.now parts.entry) }
    ensures accepted { OnOk result (Accepts (variables q.now) (encoding_of q.now)
        (in_profile order.now.profile (log_text (part_steps q.now parts.entry)))
        (part_verdict parts.entry)) }
    ensures quiet { IsErrOf result PutFault.Failed ⊎ (F.faults files.new ≡ F.faults files.old) }
    ensures files { KeepsOthers F.tells F.content F.faults order.now.encoding.now
        order.now.log.now files.old files.new }
{
    put_encoding(alloc, lines, order.encoding, room, files)?;
    put_log(order.profile, q, lines, parts, order.log, room, files)?;
    Ok(())
}

/// Writes the encoding of the problem whole, and then the log of what was found of it in a profile, each in pieces of 65,536 bytes and a last one. The
/// first piece that is added to the log's file is the log's two head lines alone. Neither text is whole in memory.
///
/// The memory for a solution, for what the encoding keeps, and for a piece is taken before the first file is touched; the log
/// wants no other, so that memory is refused only before it is begun. Cost: that of making each constraint once, and of the texts' bytes.
pub fn write_proof<F: Files>(
    alloc: Global,
    q: &Problem,
    finding: &Finding,
    profile: Profile,
    encoding: &str,
    log: &str,
    files: &mut F,
) -> Result<(), PutFault>
    requires encoding { length encoding.now ≤ 4095 }
    requires log { length log.now ≤ 4095 }
    requires apart { encoding.now ≢ log.now }
    requires found { IsFound q.now finding.now }
    ensures says { WritingSays result (two_files F.tells F.content F.faults F.fault_at
        encoding.now log.now files.old files.new) (texts profile q.now finding.now) }
    ensures accepted { OnOk result (IsAccepted profile q.now finding.now) }
    ensures quiet { IsErrOf result PutFault.Failed ⊎ (F.faults files.new ≡ F.faults files.old) }
    ensures files { KeepsOthers F.tells F.content F.faults encoding.now log.now files.old
        files.new }
{
    let lines = Encoding::new(alloc, q)?;
    let mut room = PieceRoom::new(alloc)?;
    let parts = parts_of(alloc, q, finding)?;
    let order = Order {
        profile,
        encoding,
        log,
    };
    write_both(alloc, q, &lines, parts, &order, &mut room, files)
}
