//! The words of a log's lines, plainly.

use crate::plain_stops::{Stop, of_form};
use crate::plain_words::{cut_at, number_of};
use log_theory::{Name, Op, Ref};
use proof_theory::Literal;
use std::alloc::Global;

/// The greatest number.
const MOST: i128 = (1 << 63) - 1;

/// The greatest number of a row that is shared.
const LAST_ROW: i128 = 4_194_303;

/// The number from least to most that a word writes without leading zeros.
fn numeral_from(word: &[u8], least: i128, most: i128) -> Option<u64> {
    let number = number_of(word)?;
    if word.len() > 1 && word.starts_with(b"0") || number < least || number > most {
        return None;
    }
    u64::try_from(number).ok()
}

/// A number.
pub fn numeral_of(word: &[u8]) -> Option<u64> {
    numeral_from(word, 0, MOST)
}

/// The number of a row that is shared.
pub fn row_number_of(word: &[u8]) -> Option<u32> {
    u32::try_from(numeral_from(word, 0, LAST_ROW)?).ok()
}

/// A name.
pub fn name_of(word: &[u8]) -> Option<Name> {
    let (owner, number) = cut_at(word, b'.')?;
    Some(Name {
        owner: u8::try_from(numeral_from(owner, 0, 64)?).ok()?,
        number: numeral_from(number, 1, MOST)?,
    })
}

/// A reference.
pub fn reference_of(word: &[u8]) -> Option<Ref> {
    if let [b'#', row @ ..] = word {
        return Some(Ref::Shared(row_number_of(row)?));
    }
    match name_of(word) {
        Some(name) => Some(Ref::Made(name)),
        None => Some(Ref::Line(numeral_of(word)?)),
    }
}

/// A variable of so many.
pub fn variable_of(word: &[u8], variables: u32) -> Option<u32> {
    match word {
        [b'x', digits @ ..] => {
            u32::try_from(numeral_from(digits, 1, i128::from(variables))?).ok()
        }
        _ => None,
    }
}

/// A literal of so many variables.
pub fn literal_of(word: &[u8], variables: u32) -> Option<Literal> {
    let (rest, negated) = match word {
        [b'~', rest @ ..] => (rest, true),
        rest => (rest, false),
    };
    Some(Literal {
        variable: variable_of(rest, variables)?,
        negated,
    })
}

/// The operation of a word, with the one behind it, which it takes where that is `*` or `d`.
fn operation_of(word: &[u8], after: &[u8], variables: u32) -> Option<Op> {
    match (word, after) {
        (b"+", _) => Some(Op::Add),
        (b"s", _) => Some(Op::Saturate),
        (number, b"*") => Some(Op::Times(numeral_of(number)?)),
        (number, b"d") => Some(Op::Divide(numeral_of(number)?)),
        (other, _) => match literal_of(other, variables) {
            Some(literal) => Some(Op::Axiom(literal)),
            None => Some(Op::Push(reference_of(other)?)),
        },
    }
}

/// Operations, if all words are of their form.
pub fn operations_of(alloc: Global, words: &[&[u8]], variables: u32) -> Result<Vec<Op>, Stop> {
    let mut operations = Vec::new(alloc);
    let mut is_taken = false;
    for i in 0..words.len() {
        if is_taken {
            is_taken = false;
            continue;
        }
        let after = words.get(i + 1).copied().unwrap_or(b"");
        let operation = of_form(operation_of(words[i], after, variables))?;
        is_taken = matches!(operation, Op::Times(_) | Op::Divide(_));
        operations.push(operation)?;
    }
    Ok(operations)
}

/// What a single word writes.
pub trait Item: Sized {
    /// What it writes where there are so many variables.
    fn in_word(word: &[u8], variables: u32) -> Option<Self>;
}

impl Item for Ref {
    fn in_word(word: &[u8], _variables: u32) -> Option<Ref> {
        reference_of(word)
    }
}

impl Item for Literal {
    fn in_word(word: &[u8], variables: u32) -> Option<Literal> {
        literal_of(word, variables)
    }
}

impl Item for u32 {
    fn in_word(word: &[u8], variables: u32) -> Option<u32> {
        variable_of(word, variables)
    }
}

/// What the words write, if all are of their form.
pub fn all_of<T: Item + Drop>(
    alloc: Global,
    words: &[&[u8]],
    variables: u32,
) -> Result<Vec<T>, Stop> {
    let mut found = Vec::new(alloc);
    for word in words {
        found.push(of_form(T::in_word(word, variables))?)?;
    }
    Ok(found)
}

/// The words in front of the first `;`, and those behind it.
pub fn parted<'a, 'b>(words: &'b [&'a [u8]]) -> Option<(&'b [&'a [u8]], &'b [&'a [u8]])> {
    for i in 0..words.len() {
        if words[i] == b";".as_slice() {
            return Some((&words[..i], &words[i + 1..]));
        }
    }
    None
}
