//! What bytes are put to.
ghost use Rattle.std.specs.Prelude.{ℕ, List, Option};
ghost use Rattle.outer_io.specs.KnownText.{Wrote};
ghost use Rattle.outer_io.specs.Sinks.{Spot, HasBlame};

use crate::fault::Failed;

/// What bytes are put to, in order.
///
/// A sink that is steady loses nothing at a call that fails: it holds what it held and a front part of the piece. One that
/// is not, since it keeps bytes back, holds a front part of the old bytes followed by the piece.
pub trait Sink {
    /// The bytes put so far, where they are told.
    ghost contents: { Self → Option (List ℕ) };

    /// Which sink it is, whether its contents are told and whether it is steady. No call changes it.
    ghost spot: { Self → Spot };

    /// What stands beside it: the contents of the other files where it is one of several.
    ghost rest: { Self → List ℕ → Option (List ℕ) };

    /// How many calls have failed. The count stands still at the last value of 64 bits.
    ghost faults: { Self → ℕ };

    /// That the last fault was of this sink, where more than one are counted together.
    ghost blamed: { Self → Type 0 };

    /// Appends the whole piece. At an `Err` a front part of it may have been appended.
    fn put(&mut self, piece: &[u8]) -> Result<(), Failed>
        ensures text { Wrote (spot self.old).steady (contents self.old) (contents self.new) result
            piece.now }
        ensures cause { HasBlame spot rest faults blamed self.old self.new result };
}
