//! The pairs of vertices that a word names.

ghost use Rattle.std.specs.Prelude.{◌≡◌, ◌≢◌, ◌≤◌, ◌⊎◌, ℕ, ◌∷◌, ◌++◌, [], length, IfSome, MatchBool, Some, None};
ghost use Rattle.command_line.specs.Pairs as spec;

use crate::reading::small_number_of;
use arrayvec::ArrayVec;
use std::marker::Model;

/// The most pairs.
const MOST_PAIRS: usize = 64;

/// The most digits of a vertex.
const MOST_DIGITS: usize = 10;

/// At most 64 pairs of vertices, each of two that are not one, in the order in which they are named. It takes no memory.
#[derive(Drop)]
pub struct Pairs {
    items: ArrayVec<(u32, u32), 64>,
}

impl Model for Pairs {
    ghost use Rattle.std.specs.Prelude.{ℕ, List};
    ghost use Rattle.command_line.specs.Pairs.{AreNamed};

    ghost Value = { List (ℕ × ℕ) };

    ghost view = { λ p. p.items.items };

    ghost invariant = { λ p. AreNamed p.items.items };
}

/// The vertex that a text is.
fn vertex(text: &str) -> Option<u32>
    ensures { result ≡ spec.vertex text.now }
{
    if text.len() > MOST_DIGITS {
        return None;
    }
    small_number_of(text, 0, u32::MAX)
}

/// The pair that a text is.
fn pair(text: &str) -> Option<(u32, u32)>
    ensures pair { result ≡ spec.pair text.now }
    ensures two { IfSome result (λ x. x.0 ≢ x.1) }
{
    let Some((first, second)) = text.split_once(',') else {
        return None;
    };
    let (a, b) = (vertex(first)?, vertex(second)?);
    if a == b {
        return None;
    }
    Some((a, b))
}

/// Adds the pair that a text is, where it is one and there is room.
fn add(pairs: &mut Pairs, text: &str) -> bool
    ensures added { MatchBool result
        ((x : ℕ × ℕ) × (spec.pair text.now ≡ Some x) × (pairs.new ≡ pairs.old ++ x ∷ []))
        ((spec.pair text.now ≡ None) ⊎ (64 ≤ length pairs.old)) }
    ensures few { length pairs.new ≤ 64 }
{
    match pair(text) {
        Some(pair) => pairs.items.try_push(pair).is_ok(),
        None => false,
    }
}

impl Pairs {
    /// No pairs.
    pub fn none() -> Pairs
        ensures { result ≡ [] }
    {
        Pairs {
            items: ArrayVec::new(),
        }
    }

    /// The pairs that a word names, one to 64 with colons between them.
    pub fn named(text: &str) -> Option<Pairs>
        ensures { result ≡ spec.pairs text.now }
    {
        let mut pairs = Pairs::none();
        let mut rest = text;
        'pieces: while let Some((first, more)) = rest.split_once(':') {
            if !add(&mut pairs, first) {
                return None;
            }
            rest = more;
        }
        if !add(&mut pairs, rest) {
            return None;
        }
        Some(pairs)
    }

    /// The pairs, in order.
    pub fn as_slice(&self) -> &[(u32, u32)]
        ensures pairs { result.now ≡ self.now }
        ensures named { spec.AreNamed result.now }
    {
        self.items.as_slice()
    }
}
