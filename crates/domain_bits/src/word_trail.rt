//! A trail with one entry for each word of a row that changed. What it lists is the same as that of single pairs: the values
//! of an entry are the bits of its word, rising.

ghost use Rattle.std.specs.Prelude.{◌≡◌, ℕ, ◌+◌, ◌*◌, ◌^◌, ◌<◌, ◌≤◌, ◌++◌, ◌∷◌, [], List, length, IfOk, IfSome, IfNone, vec_capacity, bit_xor, count_ones};
ghost use Rattle.bit_rows.specs.BitRows.{word_values};
ghost use Rattle.domain_bits.specs.Removals.{at_vertex};

use crate::trail::{Run, Trail};
use std::alloc::{AllocError, Global};
use std::marker::Model;

/// A trail of words. Cost: one entry of 16 bytes for the values that leave one word together, so much less than a trail
/// of pairs where rows lose many values at once; room for all pairs is reserved all the same, since each may leave alone.
#[derive(Drop)]
pub struct WordTrail {
    runs: Vec<Run>,
    pairs: usize,
}

impl Model for WordTrail {
    ghost use Rattle.std.specs.Prelude.{◌≡◌, ℕ, vec_capacity, bit_xor, count_ones};
    ghost use Rattle.domain_bits.specs.Runs.{Runs, AreRuns, pairs_of};

    ghost Value = { Runs };

    ghost view = { λ t. record { listed = pairs_of t.runs.items; room = vec_capacity t.runs } };

    ghost invariant = { λ t. AreRuns t.runs.items t.pairs };
}

impl Trail for WordTrail {
    ghost removed = { λ t. t.listed };

    ghost capacity = { λ t. t.room };

    fn with_room(alloc: Global, pairs: usize) -> Result<WordTrail, AllocError> {
        let runs = Vec::with_capacity(alloc, pairs)?;
        Ok(WordTrail { runs, pairs: 0 })
    }

    fn copy(&self, alloc: Global, pairs: usize) -> Result<WordTrail, AllocError> {
        let mut runs = Vec::with_capacity(alloc, pairs)?;
        runs.extend_from_slice(&self.runs)?;
        Ok(WordTrail {
            runs,
            pairs: self.pairs,
        })
    }

    fn len(&self) -> usize {
        self.pairs
    }

    fn push(&mut self, run: Run) {
        self.pairs += values_in(run.word);
        self.runs.push_reserved(run);
    }

    fn pop(&mut self, mark: usize) -> Option<Run> {
        if self.pairs <= mark {
            return None;
        }
        let Some(run) = self.runs.pop() else {
            unreachable!()
        };
        let count = values_in(run.word);
        if count <= self.pairs - mark {
            self.pairs -= count;
            return Some(run);
        }
        let top = top_bit(run.word);
        self.pairs -= 1;
        self.runs.push_reserved(Run {
            word: run.word ^ top,
            ..run
        });
        Some(Run { word: top, ..run })
    }
}

/// How many values a word stands for.
fn values_in(word: u64) -> usize
    ensures count { result ≡ count_ones word }
    ensures fits { word < 2 ^ 64 }
{
    word.count_ones() as usize
}

/// The greatest bit of a word that is not 0, alone.
fn top_bit(word: u64) -> u64
    requires { 0 < word }
    ensures last { (place : ℕ)
        → word_values place word ≡ word_values place (bit_xor word result)
        ++ word_values place result }
    ensures one { count_ones result ≡ 1 }
    ensures others { count_ones (bit_xor word result) + 1 ≡ count_ones word }
{
    1 << (63 - word.leading_zeros())
}
