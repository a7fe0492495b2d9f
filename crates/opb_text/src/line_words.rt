//! The lines of a text and the words of a line, one after another.

ghost use Rattle.std.specs.Prelude.{◌≡◌, ◌<◌, ◌≤◌, ◌∷◌, ◌++◌, [], List, ℕ, length, take, drop, true, IfSome, MatchOption};
ghost use Rattle.log_theory.specs.Words.{begins_with, same_word};
ghost use Rattle.log_theory.specs.OpbReading.{without_returns, opb_lines, opb_words};
ghost use Rattle.opb_text.specs.Cutting.{HasNo};

use byte_words::Blanks;

/// What stands before the first of these bytes and what follows it, where there is one.
pub fn cut(bytes: &[u8], end: u8) -> Option<(&[u8], &[u8])>
    ensures parts { MatchOption result (HasNo end bytes.now)
        (λ parts. bytes.now ≡ parts.0.now ++ end ∷ parts.1.now) }
    ensures first { MatchOption result (HasNo end bytes.now) (λ parts. HasNo end parts.0.now) }
{
    for (i, b) in bytes.iter().enumerate() {
        if *b == end {
            return Some((&bytes[..i], &bytes[i + 1..]));
        }
    }
    None
}

/// A line in front of an LF, without a CR at its end.
fn without_return(line: &[u8]) -> &[u8]
    requires { HasNo 10 line.now }
    ensures none { HasNo 10 result.now }
    ensures same { (rest : List ℕ)
        → without_returns (line.now ++ 10 ∷ rest) ≡ result.now ++ 10 ∷ without_returns rest }
{
    match line.strip_suffix(b"\r") {
        Some(front) => front,
        None => line,
    }
}

/// The first line of a text and what follows it.
pub fn first_line(text: &[u8]) -> Option<(&[u8], &[u8])>
    ensures lines { MatchOption result (opb_lines text.now ≡ [])
        (λ parts. opb_lines text.now ≡ parts.0.now ∷ opb_lines parts.1.now) }
    ensures shorter { IfSome result (λ parts. length parts.1.now < length text.now) }
{
    if text.is_empty() {
        return None;
    }
    match cut(text, b'\n') {
        Some((line, rest)) => Some((without_return(line), rest)),
        None => Some((text, &text[text.len()..])),
    }
}

/// The blanks of a line.
enum LineBlanks {}

impl Blanks for LineBlanks {
    ghost use Rattle.opb_text.specs.Cutting.{is_blank as is_line_blank};

    ghost blank = { is_line_blank };

    fn is_blank(byte: u8) -> bool {
        byte == b' ' || byte == b'\t'
    }
}

/// The first word of a line and what follows it, in time linear in the bytes up to the word's end.
pub fn first_word(line: &[u8]) -> Option<(&[u8], &[u8])>
    ensures words { MatchOption result (opb_words line.now ≡ [])
        (λ parts. opb_words line.now ≡ parts.0.now ∷ opb_words parts.1.now) }
    ensures shorter { IfSome result (λ parts. length parts.1.now < length line.now) }
{
    byte_words::first_word::<LineBlanks>(line)
}

/// Whether two words are the same.
pub fn is_same(word: &[u8], other: &[u8]) -> bool
    ensures { result ≡ same_word word.now other.now }
{
    word == other
}

/// Whether a word begins with these bytes.
pub fn begins_with(word: &[u8], front: &[u8]) -> bool
    ensures { result ≡ begins_with front.now word.now }
{
    word.starts_with(front)
}
