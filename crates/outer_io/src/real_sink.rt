//! The system's streams: the trusted edge.
ghost use Rattle.std.specs.Prelude.{◌≡◌};

use crate::fault::Failed;
use crate::sink::Sink;
use std::io::Write;

/// A stream of the system, as standard output. Nothing is told of what was put; a call fails where the system does, as at a
/// closed pipe or a full device, and is counted. The writer is to be one that keeps nothing back.
#[derive(Drop)]
pub struct RealSink<W: Write + Drop> {
    writer: W,
    faults: u64,
}

impl<W: Write + Drop> RealSink<W> {
    pub fn new(writer: W) -> RealSink<W>
        ensures { result.faults ≡ 0 }
    {
        RealSink { writer, faults: 0 }
    }
}

impl<W: Write + Drop> Sink for RealSink<W> {
    ghost use Rattle.std.specs.Prelude.{None};
    ghost use Rattle.outer_io.specs.RealEdge.{untold_file, stream_spot};

    ghost contents = { λ _. None };

    ghost spot = { λ _. stream_spot };

    ghost rest = { λ _. untold_file };

    ghost faults = { λ s. s.faults };

    ghost blamed = { λ _. Unit {0} };

    fn put(&mut self, piece: &[u8]) -> Result<(), Failed> {
        if self.writer.write_all(piece).is_err() {
            self.faults = self.faults.saturating_add(1);
            return Err(Failed);
        }
        Ok(())
    }
}
