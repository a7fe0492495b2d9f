//! The words of a text: what stands between blanks, whatever bytes are the blanks.
//!
//! This layer takes a text's first word and what follows it, for a reader that goes on from there. The readers above say which bytes are
//! blanks and what the words write.
#![tactic(auto)]

ghost use Rattle.std.specs.Prelude.{◌≡◌, ℕ, ◌<◌, ◌≤◌, Bool, List, [], ◌∷◌, length, take, drop, true, IfSome, MatchOption};
ghost use Rattle.byte_words.specs.Words.{begins_word, words_between};

/// Which bytes stand between words.
pub trait Blanks {
    /// Whether a byte does.
    ghost blank: { ℕ → Bool };

    /// Whether a byte stands between words.
    fn is_blank(byte: u8) -> bool
        ensures { result ≡ blank byte };
}

/// The text from its first word on.
fn without_blanks<B: Blanks>(text: &[u8]) -> &[u8]
    ensures same { words_between B.blank result.now ≡ words_between B.blank text.now }
    ensures begins { 0 < length result.now → begins_word B.blank result.now ≡ true }
    ensures shorter { length result.now ≤ length text.now }
{
    for (i, b) in text.iter().enumerate() {
        if !B::is_blank(*b) {
            return &text[i..];
        }
    }
    &text[text.len()..]
}

/// Where the word ends with which a text begins.
fn word_end<B: Blanks>(text: &[u8]) -> usize
    requires { begins_word B.blank text.now ≡ true }
    ensures some { 0 < result }
    ensures within { result ≤ length text.now }
    ensures word { words_between B.blank text.now
        ≡ take result text.now ∷ words_between B.blank (drop result text.now) }
{
    for (i, b) in text.iter().enumerate() {
        if B::is_blank(*b) {
            return i;
        }
    }
    text.len()
}

/// The first word of a text and what follows it, in time linear in the bytes up to the word's end.
pub fn first_word<B: Blanks>(text: &[u8]) -> Option<(&[u8], &[u8])>
    ensures words { MatchOption result (words_between B.blank text.now ≡ [])
        (λ parts. words_between B.blank text.now
        ≡ parts.0.now ∷ words_between B.blank parts.1.now) }
    ensures shorter { IfSome result (λ parts. length parts.1.now < length text.now) }
{
    let words = without_blanks::<B>(text);
    if words.is_empty() {
        return None;
    }
    Some(words.split_at(word_end::<B>(words)))
}
