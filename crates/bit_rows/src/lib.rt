//! Rows of words: single bits, the walk from member to member, counts of the values, and operations on whole rows.
//!
//! A row of words is a set of numbers: value v is bit v % 64 of word v / 64. The layers above keep graphs and domains in such rows:
//! they fill rows value by value, walk over the members of one, keep of one what a count allows, combine whole rows word by
//! word, and look at long ones four words at a time. (Sets of values as words: J. R. Ullmann, "Bit-vector algorithms for binary constraint satisfaction and subgraph
//! isomorphism", 2010.)
#![tactic(auto)]

ghost use Rattle.std.specs.Prelude.{◌≡◌, ℕ, ◌+◌, ◌*◌, ◌^◌, ◌<◌, ◌≤◌, ◌==◌, ◌&&◌, ◌||◌, not, nat_lt, false, length};
ghost use Rattle.bit_rows.specs.BitRows.{has, is_set, words_for};
ghost use Rattle.graph_theory.specs.Neighbours.{count};

mod counts;
mod fours;
mod kernels;
mod members;
mod numbers;

pub use counts::{count_members, keep_counted};
pub use fours::{WORDS, are_apart, are_within, blocks_of};
pub use kernels::{and_into, and_not_into, count_ones, or_into};
pub use members::next_member;
pub use numbers::keep_equal;

/// How many words a row of so many values has. Cost: one step.
pub fn words_for(values: usize) -> usize
    ensures { result ≡ words_for values }
{
    values.div_ceil(64)
}

/// Whether the value is in the set that the row holds. Cost: one word.
pub fn has_bit(row: &[u64], value: usize) -> bool
    requires { value < 64 * length row.now }
    ensures { result ≡ has row.now value }
{
    (row[value / 64] >> (value % 64)) & 1 == 1
}

/// Puts the value into the set that the row holds. Cost: one word.
pub fn set_bit(row: &mut [u64], value: usize)
    requires { value < 64 * length row.old }
    ensures { (v : ℕ) → has row.new v ≡ (has row.old v || value == v) }
{
    row[value / 64] |= 1 << (value % 64);
}

/// Takes the value out of the set that the row holds. Cost: one word.
pub fn unset_bit(row: &mut [u64], value: usize)
    requires { value < 64 * length row.old }
    ensures { (v : ℕ) → has row.new v ≡ (has row.old v && not (value == v)) }
{
    row[value / 64] &= !(1 << (value % 64));
}

/// Makes the row the set of all values less than `below`. Cost: one step for each word.
pub fn fill_below(row: &mut [u64], below: usize)
    requires { below ≤ 64 * length row.old }
    ensures { (v : ℕ) → has row.new v ≡ nat_lt v below }
{
    for place in 0..row.len() {
        row[place] = word_below(place, below);
    }
}

/// The word at a place of the row of all values less than `below`.
fn word_below(place: usize, below: usize) -> u64
    ensures { (b : ℕ) → b < 64 → is_set result b ≡ nat_lt (64 * place + b) below }
{
    if place < below / 64 {
        u64::MAX
    } else if place == below / 64 {
        (1 << (below % 64)) - 1
    } else {
        0
    }
}

/// Takes all values out of the set that the row holds. Cost: one step for each word.
pub fn clear(row: &mut [u64])
    ensures { (v : ℕ) → has row.new v ≡ false }
{
    for word in row.iter_mut() {
        *word = 0;
    }
}

/// How many values less than `below` both rows hold. Cost: one step for each two words up to there.
pub fn count_both(xs: &[u64], ys: &[u64], below: usize) -> usize
    requires long { below ≤ 64 * length xs.now }
    requires same_length { length xs.now ≡ length ys.now }
    ensures shared { result ≡ count (λ v. has xs.now v && has ys.now v) below }
    ensures few { result ≤ below }
{
    let whole = below / 64;
    let rest = below % 64;
    let first = count_words(xs, ys, whole);
    if rest == 0 {
        return first;
    }
    let last = (xs[whole] & ys[whole]) & ((1 << rest) - 1);
    first + last.count_ones() as usize
}

/// How many values of the first words both rows hold.
fn count_words(xs: &[u64], ys: &[u64], words: usize) -> usize
    requires long { words ≤ length xs.now }
    requires same_length { length xs.now ≡ length ys.now }
    requires few { 64 * words < 2 ^ 64 }
    ensures shared { result ≡ count (λ v. has xs.now v && has ys.now v) (64 * words) }
    ensures few { result ≤ 64 * words }
{
    let mut total: usize = 0;
    for i in 0..words {
        let word = xs[i] & ys[i];
        total += word.count_ones() as usize;
    }
    total
}
