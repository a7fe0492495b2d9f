//! The words of a text and the numbers that they write: the first word alone, for a reader that goes on from there, and
//! the list of all of them, for a plain one.
ghost use Rattle.std.specs.Prelude.{◌≡◌, ℕ, ◌+◌, ◌<◌, ◌≤◌, ◌^◌, List, [], ◌∷◌, ◌++◌, length, map, IfOk, IfSome, MatchOption};
ghost use Rattle.graph_theory.specs.Text.{words, number_of};

use byte_words::Blanks;
use std::alloc::{AllocError, Global};

/// The blanks of a text.
enum TextBlanks {}

impl Blanks for TextBlanks {
    ghost use Rattle.graph_theory.specs.Text.{is_blank as is_text_blank};

    ghost blank = { is_text_blank };

    fn is_blank(byte: u8) -> bool {
        byte == b' ' || byte == b'\t' || byte == b'\r' || byte == b'\n'
    }
}

/// The first word of a text and what follows it, in time linear in the bytes up to the word's end.
pub fn first_word(bytes: &[u8]) -> Option<(&[u8], &[u8])>
    ensures words { MatchOption result (words bytes.now ≡ [])
        (λ parts. words bytes.now ≡ parts.0.now ∷ words parts.1.now) }
    ensures shorter { IfSome result (λ parts. length parts.1.now < length bytes.now) }
{
    byte_words::first_word::<TextBlanks>(bytes)
}

/// The words of a text, in order.
pub fn words_in<'a>(alloc: Global, bytes: &'a [u8]) -> Result<Vec<&'a [u8]>, AllocError>
    ensures { IfOk result (λ found. map (λ w. w.now) found.items ≡ words bytes.now) }
{
    let mut found = Vec::new(alloc);
    let mut rest = bytes;
    while let Some((word, after)) = first_word(rest) {
        found.push(word)?;
        rest = after;
    }
    Ok(found)
}

/// The number below 2^32 that a word writes, if it writes one: decimal digits alone, leading zeros allowed.
pub fn number_in(word: &[u8]) -> Option<u32>
    ensures { result ≡ number_of word.now }
{
    if word.is_empty() {
        return None;
    }
    let mut value = 0u64;
    for b in word {
        if !b.is_ascii_digit() {
            return None;
        }
        value = value * 10 + u64::from(*b - b'0');
        if value > u64::from(u32::MAX) {
            return None;
        }
    }
    Some(value as u32)
}

/// The numbers that the words of a text write, in order, with none where a word writes no number.
pub fn numbers_in(alloc: Global, bytes: &[u8]) -> Result<Vec<Option<u32>>, AllocError>
    ensures { IfOk result (λ numbers. numbers.items ≡ map number_of (words bytes.now)) }
{
    let found = words_in(alloc, bytes)?;
    found.iter().map(|word| number_in(word)).collect(alloc)
}
