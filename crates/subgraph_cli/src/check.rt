//! The command `check`. It knows nothing of graphs: a model, a log, and the verdict of one over the other.

ghost use Rattle.std.specs.Prelude.{◌≡◌, IsTrue, IfErr};
ghost use Rattle.subgraph_cli.specs.Accepted.{ProofsAreAccepted};
ghost use Rattle.subgraph_cli.specs.Disk.{IsReadingOf};
ghost use Rattle.subgraph_cli.specs.Checking.{CheckSays, ModelSays, JudgedSays, TellsVerdict, ToldSays, KeepsWhenRefused, IsFaultOfCheck, claim_text};
ghost use Rattle.subgraph_cli.specs.Stops.{IsOfFiles, SparesOutput};
ghost use Rattle.subgraph_cli.specs.Streams.{stream};
ghost use Rattle.subgraph_cli.specs.Leaving.{OnlyReads, OnlyPrints};

use crate::stop::{Role, Stop, TextFault};
use command_line::{CheckWords, FileName};
use log_theory::{Cause, Verdict, answer_laws, log_laws, opb_law};
use opb_text::{Model, OpbFault, read_opb};
use outer_io::fault::LoadFault;
use outer_io::files::Files;
use outer_io::reading::load;
use outer_io::sink::Sink;
use pb_encoding::model::encodings_are_models;
use proof_checker::{Checked as CheckedFile, check_file};
use std::alloc::Global;

/// How many bytes an encoding and a log have at most.
pub(crate) const PROOF_LIMIT: u64 = 1_099_511_627_776;

/// What the last line of an accepted log claims.
#[derive(Clone, Copy, PartialEq, Eq, Debug)]
pub enum Claim {
    /// No 0/1 list satisfies the model.
    Unsatisfiable,
    /// One does.
    Satisfiable,
    /// Nothing.
    Undecided,
}

/// What a check tells.
#[derive(Clone, Copy, PartialEq, Eq, Debug)]
pub enum Checked {
    /// The log is accepted with this claim.
    Accepted { claim: Claim },
    /// The log is refused at its first faulty line, from 1, for its first cause.
    NotAccepted { line: u64, cause: Cause },
}

/// A text of a role is refused.
pub(crate) fn refused(role: Role, fault: TextFault) -> Stop
    ensures { result ≡ Stop.Refused role fault }
{
    Stop::Refused { role, fault }
}

/// The model in a file.
pub(crate) fn load_model<F: Files>(
    alloc: Global,
    files: &mut F,
    name: &FileName,
) -> Result<Model, Stop>
    ensures says { IsTrue (F.tells files.old) → ModelSays result (F.content files.old name.now) }
    ensures loading { IfErr result IsOfFiles }
    ensures files { OnlyReads F.tells F.content F.faults F.fault_at (IsReadingOf name.now) result
        files.old files.new }
{
    let bytes = match load(alloc, files, name.as_str(), PROOF_LIMIT) {
        Ok(bytes) => bytes,
        Err(LoadFault::Failed) => return Err(Stop::FilesFault),
        Err(LoadFault::TooLong) => return Err(refused(Role::Encoding, TextFault::TooLong)),
        Err(LoadFault::NoMemory) => return Err(Stop::NoMemory),
    };
    match read_opb(alloc, &bytes) {
        Ok(model) => Ok(model),
        Err(OpbFault::Line { line, cause }) => {
            Err(refused(Role::Encoding, TextFault::Opb { line, cause }))
        }
        Err(OpbFault::NoMemory) => Err(Stop::NoMemory),
    }
}

/// What a verdict tells.
fn told(verdict: Verdict) -> Result<Checked, Stop>
    ensures { TellsVerdict result verdict }
{
    match verdict {
        Verdict::Unsatisfiable => Ok(Checked::Accepted {
            claim: Claim::Unsatisfiable,
        }),
        Verdict::Satisfiable => Ok(Checked::Accepted {
            claim: Claim::Satisfiable,
        }),
        Verdict::Undecided => Ok(Checked::Accepted {
            claim: Claim::Undecided,
        }),
        Verdict::Refused { line, cause } => Ok(Checked::NotAccepted { line, cause }),
        Verdict::NoMemory => Err(Stop::NoMemory),
    }
}

/// What the log in a file shows over a model. It is checked as it is read.
fn judge<F: Files>(
    alloc: Global,
    model: &Model,
    files: &mut F,
    name: &FileName,
) -> Result<Checked, Stop>
    ensures says { IsTrue (F.tells files.old)
        → JudgedSays result model.now (F.content files.old name.now) }
    ensures loading { IfErr result IsOfFiles }
    ensures files { OnlyReads F.tells F.content F.faults F.fault_at (IsReadingOf name.now) result
        files.old files.new }
{
    log_laws();
    answer_laws();
    match check_file(alloc, model, files, name.as_str(), PROOF_LIMIT) {
        CheckedFile::Verdict(verdict) => told(verdict),
        CheckedFile::Failed => Err(Stop::FilesFault),
        CheckedFile::TooLong => Err(refused(Role::Log, TextFault::TooLong)),
    }
}

/// The line of a claim.
fn claim_line(claim: Claim) -> &'static [u8]
    ensures { result.now ≡ claim_text claim }
{
    match claim {
        Claim::Unsatisfiable => b"accepted unsatisfiable\n",
        Claim::Satisfiable => b"accepted satisfiable\n",
        Claim::Undecided => b"accepted undecided\n",
    }
}

/// Writes what an accepted log claims.
fn tell_claim<O: Sink>(checked: Checked, out: &mut O) -> Result<(), Stop>
    ensures says { ToldSays result checked (stream O.spot O.contents O.faults out.old out.new) }
    ensures output { OnlyPrints O.spot O.contents O.rest O.faults SparesOutput result
        out.old out.new }
{
    match checked {
        Checked::NotAccepted { .. } => Ok(()),
        Checked::Accepted { claim } => match out.put(claim_line(claim)) {
            Ok(()) => Ok(()),
            Err(_) => Err(Stop::OutputFault),
        },
    }
}

/// Checks the log in a file over the model in another, and writes what it claims where it is accepted: the encoding is
/// loaded and read before the log is looked at, and the log is checked as it is read. The memory taken is that of the
/// encoding's file, of the model, of what the log's lines make and of the longest line.
pub fn check<F: Files, O: Sink>(
    alloc: Global,
    words: &CheckWords,
    files: &mut F,
    out: &mut O,
) -> Result<Checked, Stop>
    ensures says { IsTrue (F.tells files.old)
        → CheckSays result (F.content files.old words.now.encoding)
        (F.content files.old words.now.log) (stream O.spot O.contents O.faults out.old out.new) }
    ensures refused { KeepsWhenRefused result (stream O.spot O.contents O.faults out.old out.new) }
    ensures files { OnlyReads F.tells F.content F.faults F.fault_at (IsFaultOfCheck words.now)
        result files.old files.new }
    ensures output { OnlyPrints O.spot O.contents O.rest O.faults SparesOutput result
        out.old out.new }
{
    let model = load_model(alloc, files, &words.encoding)?;
    let checked = judge(alloc, &model, files, &words.log)?;
    tell_claim(checked, out)?;
    Ok(checked)
}

/// The files that `solve` leaves as a proof are accepted by a check, which knows nothing of the search.
pub fn proofs_are_accepted()
    ensures { ProofsAreAccepted }
{
    opb_law();
    answer_laws();
    encodings_are_models();
}
