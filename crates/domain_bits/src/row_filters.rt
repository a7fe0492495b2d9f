//! What leaves a row of a domain, with a trail that is told of it.

ghost use Rattle.std.specs.Prelude.{◌≡◌, ℕ, ◌+◌, ◌*◌, ◌<◌, ◌≤◌, ◌==◌, ◌&&◌, ◌++◌, ◌∷◌, [], not, true, length, bit_and, count_ones, slice_index, slice_set};
ghost use Rattle.std.specs.Int.{bit_not, w64};
ghost use Rattle.bit_rows.specs.BitRows.{has, is_set, word_values};
ghost use Rattle.graph_theory.specs.Neighbours.{count, members};
ghost use Rattle.domain_bits.specs.Removals.{at_vertex};

use crate::trail::{Run, Trail};
use bit_rows::{WORDS, are_within, blocks_of};

/// Filters a row by another one. A row of one word, as where there are no more than 64 values, goes by no loop and no call.
#[inline(always)]
pub(crate) fn filter_row<T: Trail>(p: u16, domain: &mut [u64], keep: &[u64], trail: &mut T) -> u32
    requires long { length keep.now ≡ length domain.old }
    requires short { length domain.old ≤ 1024 }
    requires room { length (T.removed trail.old) + count (has domain.old) (64 * length domain.old)
        ≤ T.capacity trail.old }
    ensures row { (t : ℕ) → t < 64 * length domain.old
        → has domain.new t ≡ (has domain.old t && has keep.now t) }
    ensures trail { T.removed trail.new ≡ T.removed trail.old
        ++ at_vertex p (members (λ u. has domain.old u && not (has keep.now u))
        (64 * length domain.old)) }
    ensures room { T.capacity trail.new ≡ T.capacity trail.old }
    ensures count { result
        ≡ count (λ u. has domain.old u && not (has keep.now u)) (64 * length domain.old) }
{
    if domain.len() == 1 {
        return filter_word(p, 0, domain, keep[0], trail);
    }
    filter_words(p, domain, keep, trail)
}

/// Filters a row of any number of words by another one.
#[inline(never)]
fn filter_words<T: Trail>(p: u16, domain: &mut [u64], keep: &[u64], trail: &mut T) -> u32
    requires long { length keep.now ≡ length domain.old }
    requires short { length domain.old ≤ 1024 }
    requires room { length (T.removed trail.old) + count (has domain.old) (64 * length domain.old)
        ≤ T.capacity trail.old }
    ensures row { (t : ℕ) → t < 64 * length domain.old
        → has domain.new t ≡ (has domain.old t && has keep.now t) }
    ensures trail { T.removed trail.new ≡ T.removed trail.old
        ++ at_vertex p (members (λ u. has domain.old u && not (has keep.now u))
        (64 * length domain.old)) }
    ensures room { T.capacity trail.new ≡ T.capacity trail.old }
    ensures count { result
        ≡ count (λ u. has domain.old u && not (has keep.now u)) (64 * length domain.old) }
{
    let mut gone = 0;
    let fours = blocks_of(domain.len());
    for block in 0..fours {
        if are_within(domain, keep, WORDS * block) {
            continue;
        }
        for k in WORDS * block..WORDS * block + WORDS {
            gone += filter_word(p, k, domain, keep[k], trail);
        }
    }
    for place in WORDS * fours..domain.len() {
        gone += filter_word(p, place, domain, keep[place], trail);
    }
    gone
}

/// Filters a row by one value.
pub(crate) fn filter_value<T: Trail>(p: u16, domain: &mut [u64], t: u16, trail: &mut T) -> u32
    requires short { length domain.old ≤ 1024 }
    requires room { length (T.removed trail.old) + count (has domain.old) (64 * length domain.old)
        ≤ T.capacity trail.old }
    ensures row { (u : ℕ) → u < 64 * length domain.old
        → has domain.new u ≡ (has domain.old u && u == t) }
    ensures trail { T.removed trail.new ≡ T.removed trail.old
        ++ at_vertex p (members (λ u. has domain.old u && not (u == t)) (64 * length domain.old)) }
    ensures room { T.capacity trail.new ≡ T.capacity trail.old }
    ensures count { result
        ≡ count (λ u. has domain.old u && not (u == t)) (64 * length domain.old) }
{
    let mut gone = 0;
    for place in 0..domain.len() {
        gone += filter_word(p, place, domain, word_of(t, place), trail);
    }
    gone
}

/// Takes one value from a row.
pub(crate) fn take_value<T: Trail>(p: u16, domain: &mut [u64], t: u16, trail: &mut T)
    requires short { length domain.old ≤ 1024 }
    requires inside { t < 64 * length domain.old }
    requires here { has domain.old t ≡ true }
    requires room { length (T.removed trail.old) < T.capacity trail.old }
    ensures row { (u : ℕ) → u < 64 * length domain.old
        → has domain.new u ≡ (has domain.old u && not (u == t)) }
    ensures trail { T.removed trail.new ≡ T.removed trail.old ++ at_vertex p (t ∷ []) }
    ensures room { T.capacity trail.new ≡ T.capacity trail.old }
{
    let word = 1 << (t % 64);
    domain[usize::from(t / 64)] ^= word;
    trail.push(Run {
        vertex: p,
        place: t / 64,
        word,
    });
}

/// The word of the row of one value.
fn word_of(t: u16, place: usize) -> u64
    ensures { (b : ℕ) → b < 64 → is_set result b ≡ (64 * place + b == t) }
{
    if usize::from(t / 64) == place {
        1 << (t % 64)
    } else {
        0
    }
}

/// Keeps of one word of a domain what `keep` has, and records the rest. Gives how many values left.
fn filter_word<T: Trail>(p: u16, place: usize, domain: &mut [u64], keep: u64, trail: &mut T) -> u32
    requires inside { place < length domain.old }
    requires in_range { place < 1024 }
    requires room { length (T.removed trail.old)
        + count_ones (bit_and (slice_index domain.old place) (bit_not w64 keep))
        ≤ T.capacity trail.old }
    ensures word { domain.new
        ≡ slice_set domain.old place (bit_and (slice_index domain.old place) keep) }
    ensures trail { T.removed trail.new ≡ T.removed trail.old
        ++ at_vertex p (word_values place
        (bit_and (slice_index domain.old place) (bit_not w64 keep))) }
    ensures room { T.capacity trail.new ≡ T.capacity trail.old }
    ensures count { result
        ≡ count_ones (bit_and (slice_index domain.old place) (bit_not w64 keep)) }
{
    let word = domain[place];
    let gone = word & !keep;
    if gone == 0 {
        return 0;
    }
    domain[place] = word & keep;
    trail.push(Run {
        vertex: p,
        place: place as u16,
        word: gone,
    });
    gone.count_ones()
}
