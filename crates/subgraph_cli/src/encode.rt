//! The command `encode`.

ghost use Rattle.std.specs.Prelude.{IsTrue};
ghost use Rattle.subgraph_cli.specs.Encoded.{EncodeSays, WritingSays};
ghost use Rattle.subgraph_cli.specs.Questions.{IsFaultOfTwo};
ghost use Rattle.subgraph_cli.specs.Stops.{SparesInParts};
ghost use Rattle.subgraph_cli.specs.Streams.{stream};
ghost use Rattle.subgraph_cli.specs.Leaving.{OnlyReads, OnlyPrints};

use crate::question::load_problem;
use crate::stop::Stop;
use command_line::EncodeWords;
use graph_rows::problem::Problem;
use outer_io::fault::PutFault;
use outer_io::files::Files;
use outer_io::sink::Sink;
use pb_encoding::Encoding;
use std::alloc::Global;

/// Writes the encoding of a problem, a line at a time.
fn write_encoding<O: Sink>(alloc: Global, q: &Problem, out: &mut O) -> Result<(), Stop>
    ensures says { WritingSays result q.now (stream O.spot O.contents O.faults out.old out.new) }
    ensures output { OnlyPrints O.spot O.contents O.rest O.faults SparesInParts result
        out.old out.new }
{
    let Ok(encoding) = Encoding::new(alloc, q) else {
        return Err(Stop::NoMemory);
    };
    match encoding.write(alloc, out) {
        Ok(()) => Ok(()),
        Err(PutFault::Failed) => Err(Stop::OutputFault),
        Err(PutFault::NoMemory) => Err(Stop::NoMemory),
    }
}

/// Writes the encoding of the problem of the files: both are loaded and read, and then the text is written, so that the
/// memory taken is that of the graphs and one constraint.
pub fn encode<F: Files, O: Sink>(
    alloc: Global,
    words: &EncodeWords,
    files: &mut F,
    out: &mut O,
) -> Result<(), Stop>
    ensures says { IsTrue (F.tells files.old)
        → EncodeSays result words.now (F.content files.old words.now.pattern)
        (F.content files.old words.now.target) (stream O.spot O.contents O.faults out.old out.new) }
    ensures files { OnlyReads F.tells F.content F.faults F.fault_at (IsFaultOfTwo words.now.pattern
        words.now.target words.now.ask) result files.old files.new }
    ensures output { OnlyPrints O.spot O.contents O.rest O.faults SparesInParts result
        out.old out.new }
{
    let EncodeWords {
        pattern,
        target,
        ask,
    } = words;
    let q = load_problem(alloc, files, pattern, target, ask)?;
    write_encoding(alloc, &q, out)
}
