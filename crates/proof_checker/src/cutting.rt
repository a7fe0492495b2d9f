//! A text cut at its first line end.

ghost use Rattle.std.specs.Prelude.{◌≡◌, ◌≢◌, ◌<◌, ℕ, length, slice_index, MatchOption, None, Some};
ghost use Rattle.proof_checker.specs.Turns.{FirstFeed, Splits};

/// Where the first LF stands.
fn feed_at(text: &[u8]) -> Option<usize>
    ensures { FirstFeed text.now result }
{
    text.iter().position(|b| *b == b'\n')
}

/// The first line, without its LF, and the text behind it, if there is an LF.
pub fn first_line(text: &[u8]) -> Option<(&[u8], &[u8])>
    ensures { MatchOption result (Splits text.now None)
        (λ p. Splits text.now (Some (p.0.now, p.1.now))) }
{
    match feed_at(text) {
        Some(at) => Some((&text[..at], &text[at + 1..])),
        None => None,
    }
}
