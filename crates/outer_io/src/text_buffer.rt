//! Bytes in memory that a writer appends to: a sink whose text is then read where it stands.

ghost use Rattle.std.specs.Prelude.{◌≡◌, [], length, take};
ghost use Rattle.outer_io.specs.KnownText.{Wrote};
ghost use Rattle.outer_io.specs.Sinks.{HasBlame};
ghost use Rattle.outer_io.specs.Buffers.{buffer_contents, buffer_spot, buffer_rest, buffer_faults, buffer_blamed};

use crate::fault::Failed;
use crate::sink::Sink;
use std::alloc::Global;
use std::marker::Model;

/// A text that grows at its end. A put fails only where memory is refused.
#[derive(Drop)]
pub struct TextBuffer {
    bytes: Vec<u8>,
    refused: u64,
}

impl Model for TextBuffer {
    ghost use Rattle.outer_io.specs.Buffers.{Buffered};

    ghost Value = { Buffered };

    ghost view = { λ b. record { bytes = b.bytes.items; refused = b.refused } };
}

impl TextBuffer {
    /// An empty text. It takes no memory.
    pub fn new(alloc: Global) -> TextBuffer
        ensures { result.bytes ≡ [] }
    {
        TextBuffer {
            bytes: Vec::new(alloc),
            refused: 0,
        }
    }

    /// The text so far.
    pub fn as_slice(&self) -> &[u8]
        ensures { result.now ≡ self.now.bytes }
    {
        &self.bytes
    }

    /// How many bytes it has.
    pub fn len(&self) -> usize
        ensures { result ≡ length self.now.bytes }
    {
        self.bytes.len()
    }

    /// Lets go of all bytes but the first so many.
    pub fn truncate(&mut self, len: usize)
        ensures { self.new.bytes ≡ take len self.old.bytes }
    {
        self.bytes.truncate(len);
    }
}

impl Sink for TextBuffer {
    ghost contents = { buffer_contents };

    ghost spot = { buffer_spot };

    ghost rest = { buffer_rest };

    ghost faults = { buffer_faults };

    ghost blamed = { buffer_blamed };

    fn put(&mut self, piece: &[u8]) -> Result<(), Failed>
        ensures text { Wrote (buffer_spot self.old).steady (buffer_contents self.old)
            (buffer_contents self.new) result piece.now }
        ensures cause { HasBlame buffer_spot buffer_rest buffer_faults buffer_blamed self.old
            self.new result }
    {
        if self.bytes.extend_from_slice(piece).is_err() {
            self.refused = self.refused.saturating_add(1);
            return Err(Failed);
        }
        Ok(())
    }
}
