//! The command `verify`.

ghost use Rattle.std.specs.Prelude.{◌≡◌, IsTrue, IfErr};
ghost use Rattle.subgraph_cli.specs.Disk.{IsReadingOf};
ghost use Rattle.subgraph_cli.specs.Verifying.{VerifySays, MappingSays, IsFaultOfThree, KeepsWhenBad};
ghost use Rattle.subgraph_cli.specs.Stops.{IsOfFiles, SparesOutput};
ghost use Rattle.subgraph_cli.specs.Streams.{stream};
ghost use Rattle.subgraph_cli.specs.Leaving.{OnlyReads, OnlyPrints};

use crate::question::load_problem;
use crate::stop::{Role, Stop, TextFault};
use command_line::{FileName, VerifyWords};
use graph_files::graph_file::FILE_LIMIT;
use graph_rows::mapping::read_mapping;
use graph_theory::mapping_text::MapFault;
use outer_io::fault::LoadFault;
use outer_io::files::Files;
use outer_io::reading::load;
use outer_io::sink::Sink;
use std::alloc::Global;

/// What a verify tells.
#[derive(Clone, Copy, PartialEq, Eq, Debug)]
pub enum Tested {
    /// The mapping is an embedding, and that was written.
    Embedding,
    /// It is none.
    NotAnEmbedding,
}

/// A text fault of the mapping.
fn refused(fault: TextFault) -> Stop
    ensures { result ≡ Stop.Refused Role.Mapping fault }
{
    Stop::Refused {
        role: Role::Mapping,
        fault,
    }
}

/// The mapping in a file.
fn load_map<F: Files>(alloc: Global, files: &mut F, name: &FileName) -> Result<Vec<u32>, Stop>
    ensures says { IsTrue (F.tells files.old) → MappingSays result (F.content files.old name.now) }
    ensures loading { IfErr result IsOfFiles }
    ensures files { OnlyReads F.tells F.content F.faults F.fault_at (IsReadingOf name.now) result
        files.old files.new }
{
    let bytes = match load(alloc, files, name.as_str(), FILE_LIMIT) {
        Ok(bytes) => bytes,
        Err(LoadFault::Failed) => return Err(Stop::FilesFault),
        Err(LoadFault::TooLong) => return Err(refused(TextFault::TooLong)),
        Err(LoadFault::NoMemory) => return Err(Stop::NoMemory),
    };
    match read_mapping(alloc, &bytes) {
        Ok(map) => Ok(map),
        Err(MapFault::Line { line }) => Err(refused(TextFault::Line { line })),
        Err(MapFault::NoMemory) => Err(Stop::NoMemory),
    }
}

/// Tests the mapping in a file against the problem of two others, and writes where it embeds: the pattern, the target
/// and the mapping are each loaded and read before the next is looked at.
pub fn verify<F: Files, O: Sink>(
    alloc: Global,
    words: &VerifyWords,
    files: &mut F,
    out: &mut O,
) -> Result<Tested, Stop>
    ensures says { IsTrue (F.tells files.old)
        → VerifySays result words.now (F.content files.old words.now.pattern)
        (F.content files.old words.now.target) (F.content files.old words.now.mapping)
        (stream O.spot O.contents O.faults out.old out.new) }
    ensures bad { KeepsWhenBad result (stream O.spot O.contents O.faults out.old out.new) }
    ensures files { OnlyReads F.tells F.content F.faults F.fault_at (IsFaultOfThree words.now)
        result files.old files.new }
    ensures output { OnlyPrints O.spot O.contents O.rest O.faults SparesOutput result
        out.old out.new }
{
    let VerifyWords {
        pattern,
        target,
        mapping,
        ask,
    } = words;
    let q = load_problem(alloc, files, pattern, target, ask)?;
    let map = load_map(alloc, files, mapping)?;
    let is_embedding = q.is_embedding(&map);
    drop(map);
    drop(q);
    if !is_embedding {
        return Ok(Tested::NotAnEmbedding);
    }
    match out.put(b"embedding\n") {
        Ok(()) => Ok(Tested::Embedding),
        Err(_) => Err(Stop::OutputFault),
    }
}
