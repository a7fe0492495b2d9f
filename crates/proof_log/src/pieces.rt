//! A text cut into pieces from its front: the words of a line, the two numbers of a name.
ghost use Rattle.std.specs.Prelude.{◌≡◌, ℕ, true, false, ◌==◌, List, [], ◌∷◌, length, MatchOption};
ghost use Rattle.log_theory.specs.Words.{pieces, same_word};
ghost use Rattle.proof_log.specs.Pieces.{pieces_left, none_left, first_is};

use std::marker::Model;

/// Whether the word is this one byte.
pub(crate) fn is_byte(word: &[u8], byte: u8) -> bool
    ensures { result ≡ same_word word.now (byte ∷ []) }
{
    match word {
        [b] => *b == byte,
        [_, _, ..] => false,
        _ => false,
    }
}

/// Whether the word is this text.
pub(crate) fn is_word(word: &[u8], text: &[u8]) -> bool
    ensures { result ≡ same_word word.now text.now }
{
    word == text
}

/// Whether the first piece of a text is this one byte.
fn starts_with_piece(text: &[u8], byte: u8, separator: u8) -> bool
    ensures { result ≡ first_is (byte ∷ []) (pieces (λ b. b == separator) text.now) }
{
    match text {
        [b] => *b == byte && *b != separator,
        [b, c, ..] => *b == byte && *b != separator && *c == separator,
        _ => false,
    }
}

/// The first piece of a text, and what follows the byte that ends it, if one does.
fn first_piece(text: &[u8], separator: u8) -> (&[u8], Option<&[u8]>)
    ensures { pieces (λ b. b == separator) text.now
        ≡ result.0.now ∷ pieces_left separator result.1 }
{
    for (i, b) in text.iter().enumerate() {
        if *b == separator {
            return (&text[..i], Some(&text[i + 1..]));
        }
    }
    (text, None)
}

/// What is left of a text that is cut at each separator. Contracts see its pieces.
#[derive(Drop)]
pub(crate) struct Pieces<'a> {
    separator: u8,
    rest: Option<&'a [u8]>,
}

impl<'a> Model for Pieces<'a> {
    ghost Value = { List (List ℕ) };

    ghost view = { λ s. pieces_left s.separator s.rest };
}

impl<'a> Pieces<'a> {
    /// All pieces of a text.
    pub(crate) fn new(text: &'a [u8], separator: u8) -> Self
        ensures { result ≡ pieces (λ b. b == separator) text.entry.now }
    {
        Pieces {
            separator,
            rest: Some(text),
        }
    }

    /// Takes the first piece. It goes over the bytes of this piece alone.
    pub(crate) fn next(&mut self) -> Option<&'a [u8]>
        ensures { MatchOption result ((self.old ≡ []) × (self.new ≡ []))
            (λ piece. self.old ≡ piece.now ∷ self.new) }
    {
        match self.rest {
            None => None,
            Some(text) => {
                let (piece, rest) = first_piece(text, self.separator);
                self.rest = rest;
                Some(piece)
            }
        }
    }

    /// Whether the first piece is this one byte, in constant time.
    fn next_is(&self, byte: u8) -> bool
        ensures { result ≡ first_is (byte ∷ []) self.now }
    {
        match self.rest {
            None => false,
            Some(text) => starts_with_piece(text, byte, self.separator),
        }
    }

    /// Takes the first piece where it is this one byte, in constant time.
    pub(crate) fn take_byte(&mut self, byte: u8) -> bool
        ensures taken { result ≡ true → self.old ≡ (byte ∷ []) ∷ self.new }
        ensures left { result ≡ false → (first_is (byte ∷ []) self.old ≡ false)
            × (self.new ≡ self.old) }
    {
        if self.next_is(byte) {
            let _piece = self.next();
            true
        } else {
            false
        }
    }

    /// Whether no piece is left.
    pub(crate) fn is_done(&self) -> bool
        ensures { result ≡ none_left self.now }
    {
        match self.rest {
            None => true,
            Some(_) => false,
        }
    }
}
