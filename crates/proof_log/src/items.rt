//! The words of a line: numbers, names, references and literals.
ghost use Rattle.std.specs.Prelude.{◌≡◌, ◌≤◌, ◌^◌, [], ◌∷◌, MatchOption};
ghost use Rattle.log_theory.specs.LogText.{numeral_below as numeral_told, numeral_of, name_of, name_from as name_told, ref_of, variable_of, literal_of};
ghost use Rattle.proof_log.specs.Pieces.{is_led, value_below as value_told};

use crate::pieces::Pieces;
use log_theory::{Name, Ref};
use proof_theory::Literal;

/// Numbers of a line are below this.
const NUMBERS: u64 = 1 << 63;

/// Rows are below this.
const ROWS: u64 = 1 << 22;

/// Variables are below this.
const VARIABLES: u64 = 1 << 32;

/// Whether the word begins as a number does, without a leading zero.
fn is_led(word: &[u8]) -> bool
    ensures { result ≡ is_led word.now }
{
    match word {
        [] => false,
        [_] => true,
        [first, _, ..] => *first != b'0',
    }
}

/// The number below `most` that digits write, leading zeros allowed.
fn value_below(word: &[u8], most: u64) -> Option<u64>
    requires some { 1 ≤ most }
    requires fits { most ≤ 2 ^ 63 }
    ensures { result ≡ value_told most word.now }
{
    let mut value = 0u64;
    for b in word {
        if !b.is_ascii_digit() {
            return None;
        }
        let next = u128::from(value) * 10 + u128::from(*b - b'0');
        if next >= u128::from(most) {
            return None;
        }
        value = next as u64;
    }
    Some(value)
}

/// The number below `most` that a word writes.
pub(crate) fn numeral_below(word: &[u8], most: u64) -> Option<u64>
    requires some { 1 ≤ most }
    requires fits { most ≤ 2 ^ 63 }
    ensures { result ≡ numeral_told most word.now }
{
    if is_led(word) {
        value_below(word, most)
    } else {
        None
    }
}

/// The number that a word writes.
pub(crate) fn numeral_in(word: &[u8]) -> Option<u64>
    ensures { result ≡ numeral_of word.now }
{
    numeral_below(word, NUMBERS)
}

/// The row that a word writes.
pub(crate) fn row_in(word: &[u8]) -> Option<u32>
    ensures { result ≡ numeral_told (2 ^ 22) word.now }
{
    match numeral_below(word, ROWS) {
        Some(row) => Some(row as u32),
        None => None,
    }
}

/// The name that an owner and a number make.
fn name_from(owner: Option<u64>, number: Option<u64>) -> Option<Name>
    ensures { result ≡ name_told owner number }
{
    match (owner, number) {
        (Some(owner), Some(number)) => {
            if owner <= 64 && 1 <= number {
                Some(Name {
                    owner: owner as u8,
                    number,
                })
            } else {
                None
            }
        }
        _ => None,
    }
}

/// The two pieces round the only dot of a word.
fn round_dot(word: &[u8]) -> Option<(&[u8], &[u8])>
    ensures { MatchOption result (name_of word.now ≡ None)
        (λ parts. name_of word.now ≡ name_told (numeral_of parts.0.now) (numeral_of parts.1.now)) }
{
    let mut parts = Pieces::new(word, b'.');
    let Some(owner) = parts.next() else {
        return None;
    };
    let Some(number) = parts.next() else {
        return None;
    };
    if parts.is_done() {
        Some((owner, number))
    } else {
        None
    }
}

/// The name that a word tells.
pub(crate) fn name_in(word: &[u8]) -> Option<Name>
    ensures { result ≡ name_of word.now }
{
    match round_dot(word) {
        Some((owner, number)) => name_from(numeral_in(owner), numeral_in(number)),
        None => None,
    }
}

/// The reference that a word tells.
pub(crate) fn ref_in(word: &[u8]) -> Option<Ref>
    ensures { result ≡ ref_of word.now }
{
    if let [b'#', row @ ..] = word {
        return row_in(row).map(Ref::Shared);
    }
    if let Some(line) = numeral_in(word) {
        return Some(Ref::Line(line));
    }
    name_in(word).map(Ref::Made)
}

/// The variable that a word tells.
pub(crate) fn variable_in(word: &[u8]) -> Option<u32>
    ensures { result ≡ variable_of word.now }
{
    match word {
        [b'x', digits @ ..] => match numeral_below(digits, VARIABLES) {
            Some(variable) => Some(variable as u32),
            None => None,
        },
        _ => None,
    }
}

/// The literal that a word tells.
pub(crate) fn literal_in(word: &[u8]) -> Option<Literal>
    ensures { result ≡ literal_of word.now }
{
    let (word, negated) = match word {
        [b'~', rest @ ..] => (rest, true),
        _ => (word, false),
    };
    match variable_in(word) {
        Some(variable) => Some(Literal { variable, negated }),
        None => None,
    }
}
