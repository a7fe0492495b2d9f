//! Edits of texts, at random.

use std::alloc::{AllocError, Global};
use std::test::Fail;

/// A generator of numbers that look random, by multiplying and adding.
#[derive(Clone, Copy)]
pub struct Random {
    state: u64,
}

impl Random {
    /// The generator of a seed.
    pub fn new(seed: u64) -> Random {
        Random {
            state: seed.wrapping_mul(6364136223846793005).wrapping_add(1),
        }
    }

    /// A number below this one, or 0 where it is 0.
    pub fn below(&mut self, most: usize) -> usize {
        let state = self.state.wrapping_mul(6364136223846793005);
        self.state = state.wrapping_add(1442695040888963407);
        let upper = (self.state >> 33) as usize;
        upper.checked_rem(most).unwrap_or(0)
    }
}

/// Numbers at the limits of the formats and one past them, and what is none or one only to other readers.
pub static NUMBERS: [&[u8]; 24] = [
    b"0",
    b"1",
    b"2",
    b"3",
    b"00",
    b"01",
    b"0000000001",
    b"1023",
    b"1024",
    b"1025",
    b"8192",
    b"8193",
    b"65536",
    b"4294967295",
    b"4294967296",
    b"18446744073709551615",
    b"18446744073709551616",
    b"-1",
    b"+1",
    b"1.0",
    b"0x1",
    b"1e1",
    b"",
    b"\xff",
];

/// What stands between two words.
const WORDS: &[u8] = b" \n";

/// What stands between two lines.
const LINES: &[u8] = b"\n";

/// Bytes that some reader takes for a blank, the end of a line or of a text, a digit or a sign, and ones that are no text.
const BYTES: &[u8] = b" \t\n\r\x0b\x0c\x00\x1a\x7f\x80\xc0\xff+-~#;.*>x019";

/// How many pieces stand between these bytes.
fn pieces_in(text: &[u8], between: &[u8]) -> usize {
    let mut pieces: usize = 1;
    for byte in text {
        if between.contains(byte) {
            pieces = pieces.wrapping_add(1);
        }
    }
    pieces
}

/// A text as one piece, what stands in front of it and what behind it.
#[derive(Clone, Copy)]
struct Parted<'a> {
    front: &'a [u8],
    piece: &'a [u8],
    behind: &'a [u8],
}

/// A text whose piece stands from one place to another.
fn around(text: &[u8], start: usize, end: usize) -> Parted<'_> {
    if start > end || end > text.len() {
        return Parted {
            front: text,
            piece: &[],
            behind: &[],
        };
    }
    Parted {
        front: &text[..start],
        piece: &text[start..end],
        behind: &text[end..],
    }
}

/// The text about its piece in that place, from 0.
fn around_piece<'a>(text: &'a [u8], between: &[u8], at: usize) -> Parted<'a> {
    let mut piece: usize = 0;
    let mut start: usize = 0;
    for i in 0..text.len() {
        if between.contains(&text[i]) {
            if piece == at {
                return around(text, start, i);
            }
            piece = piece.wrapping_add(1);
            start = i + 1;
        }
    }
    around(text, start, text.len())
}

/// The text that these parts make.
fn joined(alloc: Global, parts: &[&[u8]]) -> Result<Vec<u8>, AllocError> {
    let mut made = Vec::new(alloc);
    for part in parts {
        made.extend_from_slice(part)?;
    }
    Ok(made)
}

/// The text with one piece doubled, the first of the bytes between pieces in front of it.
fn with_double<'a>(
    alloc: Global,
    random: &mut Random,
    text: &'a [u8],
    between: &'a [u8],
) -> Result<Vec<u8>, AllocError> {
    let at = random.below(pieces_in(text, between));
    let found = around_piece(text, between, at);
    let first = between.get(..1).unwrap_or(&[]);
    joined(
        alloc,
        &[found.front, found.piece, first, found.piece, found.behind],
    )
}

/// The text without one piece and what stands right in front of it.
fn with_drop(
    alloc: Global,
    random: &mut Random,
    text: &[u8],
    between: &[u8],
) -> Result<Vec<u8>, AllocError> {
    let at = random.below(pieces_in(text, between));
    let found = around_piece(text, between, at);
    let front = match found.front {
        [front @ .., _] => front,
        [] => &[],
    };
    joined(alloc, &[front, found.behind])
}

/// The text with two pieces exchanged.
fn with_exchange(
    alloc: Global,
    random: &mut Random,
    text: &[u8],
    between: &[u8],
) -> Result<Vec<u8>, AllocError> {
    let pieces = pieces_in(text, between);
    let (one, other) = (random.below(pieces), random.below(pieces));
    let first = around_piece(text, between, one);
    let second = around_piece(text, between, other);
    let half = joined(alloc, &[first.front, second.piece, first.behind])?;
    let rest = around_piece(&half, between, other);
    joined(alloc, &[rest.front, first.piece, rest.behind])
}

/// The text with one of these words for one of its own.
fn with_word(
    alloc: Global,
    random: &mut Random,
    text: &[u8],
    words: &[&[u8]],
) -> Result<Vec<u8>, AllocError> {
    let at = random.below(pieces_in(text, WORDS));
    let found = around_piece(text, WORDS, at);
    let mut made = Vec::from_slice(alloc, found.front)?;
    if let Some(word) = words.get(random.below(words.len())) {
        made.extend_from_slice(word)?;
    }
    made.extend_from_slice(found.behind)?;
    Ok(made)
}

/// A byte that is good for an edit.
fn any_byte(random: &mut Random) -> u8 {
    match BYTES.get(random.below(BYTES.len())) {
        Some(byte) => *byte,
        None => 0,
    }
}

/// The text with one byte changed, put in or dropped, or cut at one.
fn with_other_byte(alloc: Global, random: &mut Random, text: &[u8]) -> Result<Vec<u8>, AllocError> {
    let at = random.below(text.len());
    let edit = random.below(5);
    let other = if edit < 3 { any_byte(random) } else { 0 };
    let found = around(text, at, at.saturating_add(1));
    match edit {
        _ if text.is_empty() => Ok(Vec::new(alloc)),
        0 | 1 => joined(alloc, &[found.front, &[other], found.behind]),
        2 => joined(alloc, &[found.front, &[other], found.piece, found.behind]),
        3 => joined(alloc, &[found.front, found.behind]),
        _ => Vec::from_slice(alloc, found.front),
    }
}

/// The text after one edit, which may put in one of these words.
fn edited(
    alloc: Global,
    random: &mut Random,
    text: &[u8],
    words: &[&[u8]],
) -> Result<Vec<u8>, AllocError> {
    match random.below(11) {
        0 | 1 | 2 => with_other_byte(alloc, random, text),
        3 | 4 => with_word(alloc, random, text, words),
        5 => with_double(alloc, random, text, WORDS),
        6 => with_exchange(alloc, random, text, WORDS),
        7 => with_double(alloc, random, text, LINES),
        8 => with_exchange(alloc, random, text, LINES),
        9 => with_drop(alloc, random, text, WORDS),
        _ => with_drop(alloc, random, text, LINES),
    }
}

/// One of these texts after one to three edits, which may put in these words.
pub fn spoilt(
    alloc: Global,
    random: &mut Random,
    texts: &[&[u8]],
    words: &[&[u8]],
) -> Result<Vec<u8>, AllocError> {
    let mut text = match texts.get(random.below(texts.len())) {
        Some(good) => Vec::from_slice(alloc, good)?,
        None => Vec::new(alloc),
    };
    let edits = random.below(3);
    for i in 0..3usize {
        if i <= edits {
            text = edited(alloc, random, &text, words)?;
        }
    }
    Ok(text)
}

/// That no text was found to be read otherwise, or which one was, as the failure of a test.
pub fn none_differs(found: Option<u64>) -> Result<(), Fail> {
    match found {
        None => Ok(()),
        Some(number) => Err(Fail::new(format_args!("text {number} is read otherwise"))),
    }
}
