//! A file of several as a sink.
ghost use Rattle.std.specs.Prelude.{◌≡◌, Some};

use crate::fault::Failed;
use crate::files::Files;
use crate::sink::Sink;

/// The file that was begun, as a sink: one `put` is one `add`. Making it takes no memory.
///
/// A call here that fails is blamed on this file, written. When the sink ends, the files are as its last call left them, since
/// its spot names the reference that it stands over.
#[derive(Drop)]
pub struct FileSink<'a, F: Files> {
    files: &'a mut F,
    name: &'a str,
    ghost is_begun: { F.begun files.now ≡ Some name.now },
}

impl<'a, F: Files> FileSink<'a, F> {
    /// A sink over the file that is chosen for writing.
    pub fn new(files: &'a mut F, name: &'a str) -> FileSink<'a, F>
        requires { F.begun files.now ≡ Some name.now }
        ensures files { result.files.now ≡ files.entry.now }
        ensures name { result.name.now ≡ name.entry.now }
        ensures same { result.files.ghost_name ≡ files.entry.ghost_name }
    {
        FileSink { files, name }
    }
}

impl<'a, F: Files> Sink for FileSink<'a, F> {
    ghost use Rattle.std.specs.Prelude.{◌≡◌, true, Some};
    ghost use Rattle.outer_io.specs.declared.fault.Purpose.TheVariants.{Writing};
    ghost use Rattle.outer_io.specs.Sinks.{other_content};

    ghost contents = { λ s. F.content s.files.now s.name.now };

    ghost spot = { λ s. record {
      over = s.files.ghost_name;
      file = s.name.now;
      told = F.tells s.files.now;
      steady = true;
    } };

    ghost rest = { λ s. other_content (F.content s.files.now) s.name.now };

    ghost faults = { λ s. F.faults s.files.now };

    ghost blamed = { λ s. F.fault_at s.files.now ≡ Some (s.name.now, Writing) };

    fn put(&mut self, piece: &[u8]) -> Result<(), Failed> {
        self.files.add(piece)
    }
}
