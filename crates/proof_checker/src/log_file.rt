//! The verdict of a log in a file, which is read piece by piece and never held whole.

ghost use Rattle.std.specs.Prelude.{◌≡◌, ◌≤◌, ◌⊎◌, ℕ, List, length, IsTrue, IsSome, Some};
ghost use Rattle.log_theory.specs.Verdicts.{verdict_of};
ghost use Rattle.outer_io.specs.Faults.{Rose};
ghost use Rattle.outer_io.specs.NamedFiles.{SameFiles};
ghost use Rattle.proof_checker.specs.Feeding.{verdict_with};
ghost use Rattle.proof_checker.specs.Filed.{FileSays};

use super::checker::Checker;
use log_theory::Verdict;
use opb_text::Model;
use outer_io::{Files, NAME_LIMIT, Purpose};
use std::alloc::Global;

/// How many bytes one read asks for at most.
const PIECE: usize = 65_536;

/// What is told of a log in a file.
#[derive(Clone, Copy, PartialEq, Eq, Debug)]
pub enum Checked {
    /// The verdict of the whole file, or that memory was refused, which says nothing of it.
    Verdict(Verdict),
    /// A call on the files failed.
    Failed,
    /// The file holds more bytes than were asked for.
    TooLong,
}

/// Feeds a checker the rest of the file that is chosen for reading, of which so many bytes may come.
fn read_through<F: Files>(alloc: Global, mut checker: Checker, files: &mut F, most: u64) -> Checked
    requires { IsSome (F.chosen files.old) }

    ensures says { IsSome (F.left files.old)
        → FileSays result (verdict_with checker) most (F.left files.old) }

    ensures rose { result ≡ Checked.Failed → Rose (F.faults files.old) (F.faults files.new) }
    ensures fault_at { (file : List ℕ) → F.chosen files.old ≡ Some file
        → result ≡ Checked.Failed → F.fault_at files.new ≡ Some (file, Purpose.Reading) }
    ensures quiet { (result ≡ Checked.Failed) ⊎ (F.faults files.new ≡ F.faults files.old) }
    ensures later { F.faults files.old ≤ F.faults files.new }

    ensures same { SameFiles (F.content files.old) (F.content files.new) }
    ensures tells { F.tells files.new ≡ F.tells files.old }
    ensures begun { F.begun files.new ≡ F.begun files.old }
{
    let mut buffer = [0u8; PIECE];
    let mut left = most;
    loop {
        let Ok(count) = files.next(&mut buffer) else {
            return Checked::Failed;
        };
        if count == 0 {
            return Checked::Verdict(checker.finish());
        }
        if count as u64 > left {
            return Checked::TooLong;
        }
        left -= count as u64;
        if checker.feed(alloc, &buffer[..count]).is_err() {
            return Checked::Verdict(Verdict::NoMemory);
        }
    }
}

/// What the log in a file of at most `most` bytes shows over a model, as `check` tells it of the file's content.
///
/// It reads by pieces of 64 KiB into one buffer, and stops at the end, or at the piece that passes `most`. Behind a refused line the rest is read
/// and only counted, so that `TooLong` and `Failed` come whatever the lines say. Beside the buffer the memory taken is that of what the
/// lines make, and of a line that goes over the end of a piece.
pub fn check_file<F: Files>(
    alloc: Global,
    model: &Model,
    files: &mut F,
    name: &str,
    most: u64,
) -> Checked
    requires { length name.now ≤ NAME_LIMIT }

    ensures says { IsTrue (F.tells files.old)
        → FileSays result (verdict_of model.now.variables model.now.constraints) most
        (F.content files.old name.now) }

    ensures rose { result ≡ Checked.Failed → Rose (F.faults files.old) (F.faults files.new) }
    ensures fault_at { result ≡ Checked.Failed
        → F.fault_at files.new ≡ Some (name.now, Purpose.Reading) }
    ensures quiet { (result ≡ Checked.Failed) ⊎ (F.faults files.new ≡ F.faults files.old) }
    ensures later { F.faults files.old ≤ F.faults files.new }

    ensures same { SameFiles (F.content files.old) (F.content files.new) }
    ensures tells { F.tells files.new ≡ F.tells files.old }
    ensures begun { F.begun files.new ≡ F.begun files.old }
{
    if files.start(name).is_err() {
        return Checked::Failed;
    }
    match Checker::new(alloc, model) {
        Ok(checker) => read_through(alloc, checker, files, most),
        Err(_) => Checked::Verdict(Verdict::NoMemory),
    }
}
