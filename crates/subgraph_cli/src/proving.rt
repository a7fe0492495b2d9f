//! The files that show an answer of `solve`.

ghost use Rattle.std.specs.Prelude.{true, is_some, IsTrue, IfErr};
ghost use Rattle.command_line.specs.CommandLine.{IsSolveInRange};
ghost use Rattle.proof_files.specs.Findings.{IsFound};
ghost use Rattle.subgraph_cli.specs.Deciding.{IsRight, IsFindingOf, LeavingSays, IsOfWriting};
ghost use Rattle.subgraph_cli.specs.Disk.{disk};
ghost use Rattle.subgraph_cli.specs.Proving.{IsOfProof, IsWritingOfProof};
ghost use Rattle.subgraph_cli.specs.Leaving.{OnlyWrites};

use crate::deciding::Answer;
use crate::stop::Stop;
use command_line::SolveWords;
use graph_rows::problem::Problem;
use outer_io::fault::PutFault;
use outer_io::files::Files;
use proof_collection::Proof;
use proof_files::{Finding, write_proof};
use std::alloc::Global;

/// What a log is to tell of an answer, which comes with the lines of a refutation where it is one.
fn finding_of<'a>(q: &Problem, answer: &'a Answer) -> Finding<'a>
    requires { IsRight answer.now q.now true }
    ensures found { IsFound q.now result }
    ensures answer { IsFindingOf result answer.entry.now }
{
    match answer {
        Answer::Yes(map) => Finding::Embedding(map),
        Answer::Nothing(Proof::Logged(parts)) => Finding::Refutation(parts),
        Answer::Nothing(Proof::Unlogged) => unreachable!(),
        Answer::Unknown => Finding::Nothing,
    }
}

/// Writes the files that show the answer, where they are asked for: the encoding whole, and then the log.
pub(crate) fn leave_proof<F: Files>(
    alloc: Global,
    q: &Problem,
    answer: &Answer,
    words: &SolveWords,
    files: &mut F,
) -> Result<(), Stop>
    requires ranges { IsSolveInRange words.now }
    requires right { IsRight answer.now q.now (is_some words.now.prove) }
    ensures says { IsTrue (F.tells files.old)
        → LeavingSays result answer.now q.now words.now.prove
        (disk F.tells F.content F.faults F.fault_at files.old files.new) }
    ensures writing { IfErr result IsOfWriting }
    ensures files { OnlyWrites F.tells F.content F.faults F.fault_at (IsOfProof words.now.prove)
        (IsWritingOfProof words.now.prove) result files.old files.new }
{
    let Some(names) = &words.prove else {
        return Ok(());
    };
    let finding = finding_of(q, answer);
    let (encoding, log) = (names.encoding.as_str(), names.log.as_str());
    match write_proof(alloc, q, &finding, names.profile, encoding, log, files) {
        Ok(()) => Ok(()),
        Err(PutFault::Failed) => Err(Stop::FilesFault),
        Err(PutFault::NoMemory) => Err(Stop::NoMemory),
    }
}
