//! Pieces of a text and the numbers that they write, plainly.

use std::alloc::{AllocError, Global};

/// What stands in front of the first such byte, and what behind it.
pub fn cut_at(text: &[u8], byte: u8) -> Option<(&[u8], &[u8])> {
    for i in 0..text.len() {
        if text[i] == byte {
            return Some((&text[..i], &text[i + 1..]));
        }
    }
    None
}

/// The text cut at each of these bytes: one piece more than there are.
pub fn pieces_of<'a>(
    alloc: Global,
    text: &'a [u8],
    between: &[u8],
) -> Result<Vec<&'a [u8]>, AllocError> {
    let mut pieces = Vec::new(alloc);
    let mut start: usize = 0;
    for i in 0..text.len() {
        if between.contains(&text[i]) {
            pieces.push(text.get(start..i).unwrap_or(&[]))?;
            start = i.wrapping_add(1);
        }
    }
    pieces.push(text.get(start..).unwrap_or(&[]))?;
    Ok(pieces)
}

/// The pieces that are not empty.
pub fn words_of<'a>(alloc: Global, line: &'a [u8]) -> Result<Vec<&'a [u8]>, AllocError> {
    let mut words = pieces_of(alloc, line, b" \t")?;
    words.retain(|word| !word.is_empty());
    Ok(words)
}

/// The number that digits write, leading zeros or not. All that is above the limits of every format is alike.
pub fn number_of(word: &[u8]) -> Option<i128> {
    let mut number: i128 = 0;
    for byte in word {
        if !byte.is_ascii_digit() {
            return None;
        }
        let digit = i128::from(byte.wrapping_sub(b'0'));
        number = number.saturating_mul(10).saturating_add(digit);
    }
    if word.is_empty() { None } else { Some(number) }
}
