#![tactic(auto)]
//! Biased choice of a value: one of greater degree is the more likely, by a factor of two for each degree.
//!
//! The layer keeps one generator for each worker. A layer above may rely on the value being the one that the definition gives for
//! the next word of the worker's stream, so that runs can be repeated. The bias is that of solution-biased search (Archibald, Dunlop,
//! Hoffmann, McCreesh, Prosser and Trimble 2019), the generator xoshiro256++ (Blackman and Vigna 2021).

mod shared;

ghost use Rattle.std.specs.Prelude.{◌≡◌, ℕ, ◌+◌, ◌-◌, ◌*◌, ◌^◌, ◌<◌, ◌≤◌, true, length, slice_index};
ghost use Rattle.bit_rows.specs.BitRows.{has};
ghost use Rattle.graph_theory.specs.Neighbours.{count};
ghost use Rattle.biased_choice.specs.Bias.{Bias, BiasLaws, below, greatest, top_degree, total_weight, weight};
ghost use Rattle.biased_choice.specs.Streams.{jumps, seeded};
ghost use Rattle.biased_choice.specs.Words.{Passes};
ghost use Rattle.rand_xoshiro.specs.Xoshiro256.{plus_plus};

use rand_core::SeedableRng;
use rand_core::utils::NextWord;
use rand_xoshiro::Xoshiro256PlusPlus;
use std::marker::Model;

/// That a word chooses one member, and that the weights of 8,192 values are at most 2^53 together.
pub fn bias_laws()
    ensures { BiasLaws }
{}

/// The generator of one worker.
#[derive(Drop)]
pub struct Chooser {
    words: Xoshiro256PlusPlus,
}

impl Model for Chooser {
    ghost use Rattle.std.specs.Prelude.{ℕ, List};

    ghost Value = { List ℕ };

    ghost view = { λ c. c.words };
}

impl Chooser {
    /// The stream of the seed, after a jump for each worker before this one; workers count from 1.
    pub fn new(seed: u64, worker: u32) -> Chooser
        requires { 1 ≤ worker }
        ensures { result ≡ jumps (worker - 1) (seeded seed) }
    {
        let mut words = Xoshiro256PlusPlus::seed_from_u64(seed);
        for _before in 0..worker - 1 {
            words.jump();
        }
        Chooser { words }
    }

    /// The value that the next word of the stream chooses.
    pub fn choose(&mut self, row: &[u64], degrees: &[u16]) -> u16
        requires some { 0 < count (has row.now) (64 * length row.now) }
        requires short { length row.now ≤ 1024 }
        requires degrees { (v : ℕ) → has row.now v ≡ true → v < length degrees.now }
        ensures bias { Bias row.now degrees.now (plus_plus self.old).0 result }
        ensures next { self.new ≡ (plus_plus self.old).1 }
    {
        let word = self.words.next_word();
        pick(row, degrees, word)
    }
}

/// The value that a word chooses among the members of the row. Cost: three steps for each member and for each word of the row.
pub fn pick(row: &[u64], degrees: &[u16], word: u64) -> u16
    requires some { 0 < count (has row.now) (64 * length row.now) }
    requires short { length row.now ≤ 1024 }
    requires degrees { (v : ℕ) → has row.now v ≡ true → v < length degrees.now }
    ensures { Bias row.now degrees.now word result }
{
    let top = greatest_degree(row, degrees);
    let mut rest = word % all_weights(row, degrees, top);
    for place in 0..row.len() {
        match pick_in_word(row, place, degrees, top, rest) {
            WordEnd::Chosen(v) => return v,
            WordEnd::Left(left) => rest = left,
        }
    }
    unreachable!()
}

/// What the weights of the members of one word of a row came to.
enum WordEnd {
    /// With this member they pass what was left.
    Chosen(u16),
    /// So much is left for the words behind.
    Left(u64),
}

/// Takes the weights of the members of one word of the row from what is left, up to the member with which they pass it. Cost: a step for
/// each member. (The lowest bit of what is left of the word is cleared at each, so that no step waits for the number of the member before.)
#[inline(always)]
fn pick_in_word(row: &[u64], place: usize, degrees: &[u16], top: u16, mut rest: u64) -> WordEnd
    requires short { length row.now ≤ 1024 }
    requires place { place < length row.now }
    requires degrees { (u : ℕ) → has row.now u ≡ true → u < length degrees.now }
    requires top { top ≡ top_degree row.now degrees.now }
    ensures { Passes result row.now degrees.now place rest }
{
    let mut left = row[place];
    while left != 0 {
        let v = 64 * place + left.trailing_zeros() as usize;
        let own = weight_of_degree(top, degrees[v]);
        if rest < own {
            return WordEnd::Chosen(v as u16);
        }
        rest -= own;
        left &= left - 1;
    }
    WordEnd::Left(rest)
}

/// The greatest degree of a member. Cost: a step for each member and for each word.
fn greatest_degree(row: &[u64], degrees: &[u16]) -> u16
    requires short { length row.now ≤ 1024 }
    requires degrees { (u : ℕ) → has row.now u ≡ true → u < length degrees.now }
    ensures { result ≡ top_degree row.now degrees.now }
{
    let mut top = 0;
    for place in 0..row.len() {
        top = greatest_in_word(row, place, degrees, top);
    }
    top
}

/// The greatest degree of the members before one word of the row, which is given, and of that word's. Cost: a step for each of the word's.
#[inline(always)]
fn greatest_in_word(row: &[u64], place: usize, degrees: &[u16], mut top: u16) -> u16
    requires short { length row.now ≤ 1024 }
    requires place { place < length row.now }
    requires degrees { (u : ℕ) → has row.now u ≡ true → u < length degrees.now }
    requires top { top ≡ greatest (has row.now) (slice_index degrees.now) (64 * place) }
    ensures { result ≡ greatest (has row.now) (slice_index degrees.now) (64 * (place + 1)) }
{
    let mut left = row[place];
    while left != 0 {
        let v = 64 * place + left.trailing_zeros() as usize;
        top = top.max(degrees[v]);
        left &= left - 1;
    }
    top
}

/// The weight of a degree.
fn weight_of_degree(top: u16, degree: u16) -> u64
    ensures exact { result ≡ weight top degree }
    ensures small { result ≤ 2 ^ 40 }
    ensures some { 0 < result }
{
    let behind = top.saturating_sub(degree);
    if behind < 40 { 1 << (40 - behind) } else { 1 }
}

/// The weights of all members. Cost: a step for each member and for each word.
fn all_weights(row: &[u64], degrees: &[u16], top: u16) -> u64
    requires some { 0 < count (has row.now) (64 * length row.now) }
    requires short { length row.now ≤ 1024 }
    requires degrees { (u : ℕ) → has row.now u ≡ true → u < length degrees.now }
    requires top { top ≡ top_degree row.now degrees.now }
    ensures exact { result ≡ total_weight row.now degrees.now }
    ensures some { 0 < result }
{
    let mut sum = 0;
    for place in 0..row.len() {
        sum = weights_in_word(row, place, degrees, top, sum);
    }
    sum
}

/// The weights of the members before one word of the row, which are given, and of that word's. Cost: a step for each of the word's.
#[inline(always)]
fn weights_in_word(row: &[u64], place: usize, degrees: &[u16], top: u16, mut sum: u64) -> u64
    requires short { length row.now ≤ 1024 }
    requires place { place < length row.now }
    requires degrees { (u : ℕ) → has row.now u ≡ true → u < length degrees.now }
    requires top { top ≡ top_degree row.now degrees.now }
    requires sum { sum ≡ below row.now degrees.now (64 * place) }
    ensures { result ≡ below row.now degrees.now (64 * (place + 1)) }
{
    let mut left = row[place];
    while left != 0 {
        let v = 64 * place + left.trailing_zeros() as usize;
        sum += weight_of_degree(top, degrees[v]);
        left &= left - 1;
    }
    sum
}
