//! What a word of a constraint's line is.

ghost use Rattle.std.specs.Prelude.{◌≡◌, ◌==◌, option_map};
ghost use Rattle.log_theory.specs.Words.{pieces, number_after};
ghost use Rattle.log_theory.specs.OpbReading.{plain_word, ended_word, number_word, word_of};
ghost use Rattle.opb_text.specs.Kinds.{capped, capped_word, shown};

use crate::line_words::{cut, is_same};
use crate::numbers::{number_in, signed_number_in};

/// A word of a constraint's line: a number, one with `;` directly behind it, a variable, `>=`, `=`, `;` or none of these.
#[derive(Clone, Copy, PartialEq, Eq, Debug)]
pub enum Word {
    Number(i128),
    Ended(i128),
    Variable(u128),
    Relation,
    Equals,
    Semicolon,
    Other,
}

/// The word of a number.
fn plain(number: Option<i128>) -> Word
    ensures { shown result ≡ plain_word number }
{
    match number {
        Some(c) => Word::Number(c),
        None => Word::Other,
    }
}

/// The word of a number with `;` directly behind it.
fn ended(number: Option<i128>) -> Word
    ensures { shown result ≡ ended_word number }
{
    match number {
        Some(c) => Word::Ended(c),
        None => Word::Other,
    }
}

/// A number, which may have `;` directly behind it, or another word.
fn number_kind(word: &[u8]) -> Word
    ensures { shown result ≡ capped_word (number_word (pieces (λ b. b == 59) word.now)) }
{
    let Some((front, rest)) = cut(word, b';') else {
        return plain(signed_number_in(word));
    };
    if rest.is_empty() {
        ended(signed_number_in(front))
    } else {
        Word::Other
    }
}

/// The number of a variable.
fn variable_in(word: &[u8]) -> Option<u128>
    ensures { result ≡ option_map capped (number_after 120 word.now) }
{
    match word {
        [b'x', digits @ ..] => number_in(digits),
        _ => None,
    }
}

/// What the word is, in time linear in its bytes.
pub fn kind_of(word: &[u8]) -> Word
    ensures { shown result ≡ capped_word (word_of word.now) }
{
    if is_same(word, b">=") {
        return Word::Relation;
    }
    if is_same(word, b"=") {
        return Word::Equals;
    }
    if is_same(word, b";") {
        return Word::Semicolon;
    }
    match variable_in(word) {
        Some(variable) => Word::Variable(variable),
        None => number_kind(word),
    }
}
