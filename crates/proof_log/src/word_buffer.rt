//! A short text that is written from its end to its front, so that each digit is written once, where it stays.

ghost use Rattle.std.specs.Prelude.{◌≡◌, ◌≤◌, ◌<◌, ◌+◌, ◌∷◌, ◌++◌, [], length};
ghost use Rattle.std.specs.Fmt.{decimal};
ghost use Rattle.log_theory.specs.LogText.{name_text, ref_text};

use itoa::write_digits;
use log_theory::{Name, Ref};
use std::marker::Model;

/// How many bytes there is room for.
const ROOM: usize = 64;

/// The end of a word, or all of it.
#[derive(Drop)]
pub(crate) struct WordBuffer {
    bytes: [u8; ROOM],
    at: usize,
}

impl Model for WordBuffer {
    ghost use Rattle.std.specs.Prelude.{◌≡◌, ◌≤◌, ℕ, List, length, drop};

    ghost Value = { List ℕ };

    ghost view = { λ b. drop b.at b.bytes };

    ghost invariant = { λ b. (length b.bytes ≡ 64) × (b.at ≤ 64) };
}

impl WordBuffer {
    /// No byte yet.
    pub(crate) fn new() -> WordBuffer
        ensures { result ≡ [] }
    {
        WordBuffer {
            bytes: [0; ROOM],
            at: ROOM,
        }
    }

    /// What was written.
    pub(crate) fn as_slice(&self) -> &[u8]
        ensures { result.now ≡ self.now }
    {
        &self.bytes[self.at..]
    }

    /// Writes a number in front of what was written. Cost: one step for each four digits.
    pub(crate) fn number(&mut self, number: u64)
        requires room { length self.old ≤ 44 }
        ensures text { self.new ≡ decimal number ++ self.old }
        ensures short { length self.new ≤ length self.old + 20 }
    {
        self.at = write_digits(number, &mut self.bytes, self.at);
    }

    /// Writes a byte in front of what was written.
    pub(crate) fn byte(&mut self, byte: u8)
        requires room { length self.old < 64 }
        ensures text { self.new ≡ byte ∷ self.old }
        ensures short { length self.new ≤ length self.old + 1 }
    {
        self.at -= 1;
        self.bytes[self.at] = byte;
    }
}

/// A name as a word.
pub(crate) fn name_word(name: Name) -> WordBuffer
    ensures text { result ≡ name_text name }
    ensures short { length result ≤ 41 }
{
    let mut word = WordBuffer::new();
    word.number(name.number);
    word.byte(b'.');
    word.number(u64::from(name.owner));
    word
}

/// A reference as a word.
pub(crate) fn ref_word(reference: Ref) -> WordBuffer
    ensures text { result ≡ ref_text reference }
    ensures short { length result ≤ 41 }
{
    match reference {
        Ref::Line(number) => number_word(number),
        Ref::Made(name) => name_word(name),
        Ref::Shared(row) => shared_word(row),
    }
}

/// A number as a word.
fn number_word(number: u64) -> WordBuffer
    ensures text { result ≡ decimal number }
    ensures short { length result ≤ 20 }
{
    let mut word = WordBuffer::new();
    word.number(number);
    word
}

/// The row of a book as a word.
fn shared_word(row: u32) -> WordBuffer
    ensures text { result ≡ 35 ∷ decimal row }
    ensures short { length result ≤ 41 }
{
    let mut word = number_word(u64::from(row));
    word.byte(b'#');
    word
}
