//! Named files, one of them chosen for reading and one for writing.
ghost use Rattle.std.specs.Prelude.{◌≡◌, ◌≤◌, ◌⊎◌, ℕ, Bool, true, List, [], Option, Some, None, length, IsTrue, IsSome, OnOk, OnErr, MatchResult};
ghost use Rattle.std.specs.Io.{ReadsAtMost};
ghost use Rattle.outer_io.specs.Faults.{Use, HasCause, TellsFault};
ghost use Rattle.outer_io.specs.KnownText.{Wrote};
ghost use Rattle.outer_io.specs.NamedFiles.{SameFiles, SameOthers, TakesFront};

use crate::fault::{Failed, Purpose};

/// How many bytes a file's name has at most.
pub const NAME_LIMIT: usize = 4095;

/// Named files. A name has at most 4,095 bytes.
///
/// A choice for reading and one for writing stand side by side. Calls that fail count a fault and say which file it was of.
pub trait Files {
    /// Whether the contents of files are told.
    ghost tells: { Self → Bool };

    /// What the file of a name holds, where it is there and contents are told.
    ghost content: { Self → List ℕ → Option (List ℕ) };

    /// How many calls have failed. The count stands still at the last value of 64 bits.
    ghost faults: { Self → ℕ };

    /// The file of the last call that failed, and whether it was read or written.
    ghost fault_at: { Self → Option Use };

    /// The name of the file chosen for reading.
    ghost chosen: { Self → Option (List ℕ) };

    /// What is left to read of it, where contents are told.
    ghost left: { Self → Option (List ℕ) };

    /// The name of the file chosen for writing.
    ghost begun: { Self → Option (List ℕ) };

    /// Chooses the file to read, from its first byte. A file that is not there is a fault.
    fn start(&mut self, name: &str) -> Result<(), Failed>
        requires { length name.now ≤ NAME_LIMIT }
        ensures chosen { MatchResult result (λ _. chosen self.new ≡ Some name.now)
            (λ _. chosen self.new ≡ None) }
        ensures left { OnOk result (left self.new ≡ content self.old name.now) }
        ensures there { OnOk result (IsTrue (tells self.old) → IsSome (content self.old name.now)) }

        ensures cause { HasCause (faults self.old) (faults self.new) result }
        ensures fault_at { TellsFault (name.now, Purpose.Reading) (fault_at self.old)
            (fault_at self.new) result }

        ensures same { SameFiles (content self.old) (content self.new) }
        ensures tells { tells self.new ≡ tells self.old }
        ensures begun { begun self.new ≡ begun self.old };

    /// Fills a front part of the buffer with the next bytes of the file chosen for reading, and answers how many. No byte
    /// for a buffer that is not empty is the end. A call that fails takes no byte.
    fn next(&mut self, buffer: &mut [u8]) -> Result<usize, Failed>
        requires { IsSome (chosen self.old) }
        ensures bound { ReadsAtMost result buffer.new }
        ensures bytes { TakesFront (left self.old) (left self.new) result buffer.new }
        ensures chosen { chosen self.new ≡ chosen self.old }

        ensures cause { HasCause (faults self.old) (faults self.new) result }
        ensures fault_at { (file : List ℕ) → chosen self.old ≡ Some file
            → TellsFault (file, Purpose.Reading) (fault_at self.old) (fault_at self.new) result }

        ensures same { SameFiles (content self.old) (content self.new) }
        ensures tells { tells self.new ≡ tells self.old }
        ensures begun { begun self.new ≡ begun self.old };

    /// Empties the file, which it makes where it is not there, and chooses it for writing. A call that fails leaves the file
    /// as it was or empty.
    fn begin(&mut self, name: &str) -> Result<(), Failed>
        requires { length name.now ≤ NAME_LIMIT }
        ensures begun { MatchResult result (λ _. begun self.new ≡ Some name.now)
            (λ _. begun self.new ≡ None) }
        ensures empty { OnOk result
            (IsTrue (tells self.old) → content self.new name.now ≡ Some []) }
        ensures at_fault { OnErr result ((content self.new name.now ≡ content self.old name.now)
            ⊎ (content self.new name.now ≡ Some [])) }

        ensures cause { HasCause (faults self.old) (faults self.new) result }
        ensures fault_at { TellsFault (name.now, Purpose.Writing) (fault_at self.old)
            (fault_at self.new) result }

        ensures others { SameOthers name.now (content self.old) (content self.new) }
        ensures tells { tells self.new ≡ tells self.old }
        ensures chosen { chosen self.new ≡ chosen self.old };

    /// Appends the whole piece to the file chosen for writing. A call that fails may have appended a front part of it.
    fn add(&mut self, piece: &[u8]) -> Result<(), Failed>
        requires { IsSome (begun self.old) }
        ensures text { (file : List ℕ) → begun self.old ≡ Some file
            → Wrote true (content self.old file) (content self.new file) result piece.now }
        ensures begun { begun self.new ≡ begun self.old }

        ensures cause { HasCause (faults self.old) (faults self.new) result }
        ensures fault_at { (file : List ℕ) → begun self.old ≡ Some file
            → TellsFault (file, Purpose.Writing) (fault_at self.old) (fault_at self.new) result }

        ensures others { (file : List ℕ) → begun self.old ≡ Some file
            → SameOthers file (content self.old) (content self.new) }
        ensures tells { tells self.new ≡ tells self.old }
        ensures chosen { chosen self.new ≡ chosen self.old };
}
