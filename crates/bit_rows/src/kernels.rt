//! Operations on whole rows of words, the inner loops of filtering by bit sets (after Ullmann 2010): four words at a time in lanes, and
//! what is left one by one.

ghost use Rattle.std.specs.Prelude.{◌≡◌, ℕ, ◌+◌, ◌*◌, ◌%◌, ◌^◌, ◌<◌, ◌≤◌, ◌&&◌, ◌||◌, not, length, bit_and, bit_or};
ghost use Rattle.bit_rows.specs.BitRows.{has, without, AreChanged};
ghost use Rattle.graph_theory.specs.Neighbours.{count};

use std::simd::prelude::*;

/// How many words are taken at a time.
const LANES: usize = 4;

/// Keeps of the four words of `into` from `at` on what is in those of `from`.
#[inline(always)]
fn and_four(into: &mut [u64], from: &[u64], at: usize)
    requires room { at + LANES ≤ length into.old }
    requires same_length { length into.old ≡ length from.now }
    ensures { AreChanged bit_and at (at + LANES) into.old from.now into.new }
{
    let row = u64x4::from_slice(&into[at..]) & u64x4::from_slice(&from[at..]);
    row.copy_to_slice(&mut into[at..]);
}

/// Keeps of the four words of `into` from `at` on what is not in those of `from`.
#[inline(always)]
fn and_not_four(into: &mut [u64], from: &[u64], at: usize)
    requires room { at + LANES ≤ length into.old }
    requires same_length { length into.old ≡ length from.now }
    ensures { AreChanged without at (at + LANES) into.old from.now into.new }
{
    let row = u64x4::from_slice(&into[at..]) & !u64x4::from_slice(&from[at..]);
    row.copy_to_slice(&mut into[at..]);
}

/// Adds to the four words of `into` from `at` on what is in those of `from`.
#[inline(always)]
fn or_four(into: &mut [u64], from: &[u64], at: usize)
    requires room { at + LANES ≤ length into.old }
    requires same_length { length into.old ≡ length from.now }
    ensures { AreChanged bit_or at (at + LANES) into.old from.now into.new }
{
    let row = u64x4::from_slice(&into[at..]) | u64x4::from_slice(&from[at..]);
    row.copy_to_slice(&mut into[at..]);
}

/// Keeps of `into` what is in `from` too. Cost: one step for four words, and one for each word left.
pub fn and_into(into: &mut [u64], from: &[u64])
    requires same_length { length into.old ≡ length from.now }
    ensures members { (v : ℕ) → has into.new v ≡ (has into.old v && has from.now v) }
{
    let fours = into.len() / LANES;
    for block in 0..fours {
        and_four(into, from, LANES * block);
    }
    let start = LANES * fours;
    for i in 0..into.len() % LANES {
        into[start + i] &= from[start + i];
    }
}

/// Keeps of `into` what is not in `from`. Cost: one step for four words, and one for each word left.
pub fn and_not_into(into: &mut [u64], from: &[u64])
    requires same_length { length into.old ≡ length from.now }
    ensures members { (v : ℕ) → has into.new v ≡ (has into.old v && not (has from.now v)) }
{
    let fours = into.len() / LANES;
    for block in 0..fours {
        and_not_four(into, from, LANES * block);
    }
    let start = LANES * fours;
    for i in 0..into.len() % LANES {
        into[start + i] &= !from[start + i];
    }
}

/// Adds to `into` what is in `from`. Cost: one step for four words, and one for each word left.
pub fn or_into(into: &mut [u64], from: &[u64])
    requires same_length { length into.old ≡ length from.now }
    ensures members { (v : ℕ) → has into.new v ≡ (has into.old v || has from.now v) }
{
    let fours = into.len() / LANES;
    for block in 0..fours {
        or_four(into, from, LANES * block);
    }
    let start = LANES * fours;
    for i in 0..into.len() % LANES {
        into[start + i] |= from[start + i];
    }
}

/// How many values the row holds, modulo 2^64 (only a row of 2^58 words could hold more). Cost: one step for each word.
pub fn count_ones(row: &[u64]) -> u64
    ensures members { 64 * length row.now < 2 ^ 64
        → result ≡ count (has row.now) (64 * length row.now) }
    ensures exact { result ≡ count (has row.now) (64 * length row.now) % 2 ^ 64 }
{
    let mut total: u64 = 0;
    for word in row {
        total = total.wrapping_add(u64::from(word.count_ones()));
    }
    total
}
