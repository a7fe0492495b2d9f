//! A file of several as a sink that keeps bytes back.
ghost use Rattle.std.specs.Prelude.{◌≡◌, ◌<◌, false, [], Some, length};
ghost use Rattle.std.specs.Io.KnownBytes.{append_known};
ghost use Rattle.outer_io.specs.KnownText.{Wrote};
ghost use Rattle.outer_io.specs.FileCauses.{HasFileCause};

use crate::fault::Failed;
use crate::file_sink::FileSink;
use crate::files::Files;
use crate::gathering::{gather_or_put, put_rest};
use crate::piece_room::PieceRoom;
use crate::sink::Sink;

/// The file that was begun, as a sink that keeps bytes back: each `add` holds 65,536 bytes, but for that of a flush and that
/// of a head.
///
/// What was put is what the file holds followed by what is kept back. Where an `add` fails, nothing is kept back any longer, so
/// that the file holds a front part of what was put. Without a last `flush` the file lacks what is kept back.
#[derive(Drop)]
pub struct Pieces<'a, F: Files> {
    files: &'a mut F,
    name: &'a str,
    held: &'a mut PieceRoom,
    is_headed: bool,
    ghost is_begun: { F.begun files.now ≡ Some name.now },
    ghost short: { length held.now < 65536 },
}

impl<'a, F: Files> Pieces<'a, F> {
    /// A sink over the file that is chosen for writing. It takes no memory: that of the room was taken before, so that nothing
    /// is refused once a file is begun.
    pub fn new(files: &'a mut F, name: &'a str, held: &'a mut PieceRoom) -> Pieces<'a, F>
        requires { F.begun files.now ≡ Some name.now }
        ensures files { result.files.now ≡ files.entry.now }
        ensures name { result.name.now ≡ name.entry.now }
        ensures same { result.files.ghost_name ≡ files.entry.ghost_name }
        ensures empty { result.held.now ≡ [] }
    {
        Pieces::over(files, name, held, false)
    }

    /// The same for a text that has a head: what is put first goes out at once.
    pub fn headed(files: &'a mut F, name: &'a str, held: &'a mut PieceRoom) -> Pieces<'a, F>
        requires { F.begun files.now ≡ Some name.now }
        ensures files { result.files.now ≡ files.entry.now }
        ensures name { result.name.now ≡ name.entry.now }
        ensures same { result.files.ghost_name ≡ files.entry.ghost_name }
        ensures empty { result.held.now ≡ [] }
    {
        Pieces::over(files, name, held, true)
    }

    /// A sink over the file with nothing kept back.
    fn over(
        files: &'a mut F,
        name: &'a str,
        held: &'a mut PieceRoom,
        is_headed: bool,
    ) -> Pieces<'a, F>
        requires { F.begun files.now ≡ Some name.now }
        ensures files { result.files.now ≡ files.entry.now }
        ensures name { result.name.now ≡ name.entry.now }
        ensures same { result.files.ghost_name ≡ files.entry.ghost_name }
        ensures empty { result.held.now ≡ [] }
    {
        held.clear();
        Pieces {
            files,
            name,
            held,
            is_headed,
        }
    }

    /// Adds what is kept back to the file, where that is something; then nothing is, whatever the answer.
    pub fn flush(&mut self) -> Result<(), Failed>
        ensures text { Wrote false
            (append_known (F.content self.old.files.now self.old.name.now) self.old.held.now)
            (append_known (F.content self.new.files.now self.new.name.now) self.new.held.now) result
            [] }
        ensures empty { self.new.held.now ≡ [] }
        ensures cause { HasFileCause F.tells F.content F.faults F.fault_at self.old.name.now
            self.old.files.now self.new.files.now result }
        ensures name { self.new.name.now ≡ self.old.name.now }
        ensures same { self.new.files.ghost_name ≡ self.old.files.ghost_name }
    {
        let mut sink = FileSink::new(self.files, self.name);
        put_rest(self.held, &mut sink)
    }
}

impl<'a, F: Files> Sink for Pieces<'a, F> {
    ghost use Rattle.std.specs.Prelude.{◌≡◌, false, Some};
    ghost use Rattle.std.specs.Io.KnownBytes.{append_known};
    ghost use Rattle.outer_io.specs.declared.fault.Purpose.TheVariants.{Writing};
    ghost use Rattle.outer_io.specs.Sinks.{other_content};

    ghost contents = { λ s. append_known (F.content s.files.now s.name.now) s.held.now };

    ghost spot = { λ s. record {
      over = s.files.ghost_name;
      file = s.name.now;
      told = F.tells s.files.now;
      steady = false;
    } };

    ghost rest = { λ s. other_content (F.content s.files.now) s.name.now };

    ghost faults = { λ s. F.faults s.files.now };

    ghost blamed = { λ s. F.fault_at s.files.now ≡ Some (s.name.now, Writing) };

    fn put(&mut self, piece: &[u8]) -> Result<(), Failed> {
        let mut sink = FileSink::new(self.files, self.name);
        let put = gather_or_put(self.is_headed, piece, self.held, &mut sink);
        self.is_headed = false;
        put
    }
}
