//! The memory for one piece.
ghost use Rattle.std.specs.Prelude.{◌≡◌, ◌+◌, ◌≤◌, ◌++◌, [], length, IfOk};

use crate::bounded::BoundedBytes;
use std::alloc::{AllocError, Global};
use std::marker::Model;

/// How many bytes a whole piece has.
pub(crate) const PIECE: usize = 65_536;

/// The memory for one piece of 65,536 bytes, taken when it is made, and the bytes in it.
#[derive(Drop)]
pub struct PieceRoom {
    held: BoundedBytes,
}

impl Model for PieceRoom {
    ghost use Rattle.std.specs.Prelude.{◌≡◌, ℕ, List};

    ghost Value = { List ℕ };

    ghost view = { λ r. r.held.bytes };

    ghost invariant = { λ r. r.held.limit ≡ 65536 };
}

impl PieceRoom {
    /// Room with no byte in it.
    pub fn new(alloc: Global) -> Result<PieceRoom, AllocError>
        ensures { IfOk result (λ room. room ≡ []) }
    {
        let held = BoundedBytes::new(Vec::new(alloc), PIECE as u64)?;
        Ok(PieceRoom { held })
    }

    pub(crate) fn as_slice(&self) -> &[u8]
        ensures { result.now ≡ self.now }
    {
        self.held.as_slice()
    }

    pub(crate) fn clear(&mut self)
        ensures { self.new ≡ [] }
    {
        self.held.clear();
    }

    /// Appends what has room.
    pub(crate) fn append(&mut self, piece: &[u8])
        requires { length self.old + length piece.now ≤ PIECE }
        ensures { self.new ≡ self.old ++ piece.now }
    {
        let _ = self.held.append(piece);
    }
}
