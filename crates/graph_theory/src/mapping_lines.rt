//! How a mapping's text is cut: what follows a front that is known, and the first line.
ghost use Rattle.std.specs.Prelude.{◌≡◌, ◌≢◌, ℕ, List, ◌∷◌, ◌++◌, MatchOption};
ghost use Rattle.graph_theory.specs.Mapping.{HasNoLineFeed};

/// What follows the front of a text, where it has this front.
pub fn after<'a>(bytes: &'a [u8], front: &[u8]) -> Option<&'a [u8]>
    ensures { MatchOption result ((more : List ℕ) → bytes.now ≢ front.now ++ more)
        (λ rest. bytes.now ≡ front.now ++ rest.now) }
{
    bytes.strip_prefix(front)
}

/// The first line of a text and what follows its line feed.
pub fn first_line(bytes: &[u8]) -> Option<(&[u8], &[u8])>
    ensures split { MatchOption result (HasNoLineFeed bytes.now)
        (λ parts. bytes.now ≡ parts.0.now ++ 10 ∷ parts.1.now) }
    ensures first { MatchOption result (HasNoLineFeed bytes.now)
        (λ parts. HasNoLineFeed parts.0.now) }
{
    for (i, b) in bytes.iter().enumerate() {
        if *b == b'\n' {
            return Some((&bytes[..i], &bytes[i + 1..]));
        }
    }
    None
}
