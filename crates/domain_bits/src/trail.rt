//! Trails: what was removed from the domains, in order, so that it can be given back. Keeping only the changes in place of
//! copies of the domains is the usual way of backtracking solvers (Aggoun and Beldiceanu 1991, "time stamps and trails").

ghost use Rattle.std.specs.Prelude.{◌≡◌, ℕ, ◌+◌, ◌*◌, ◌^◌, ◌<◌, ◌≤◌, List, [], ◌++◌, length, IfOk, IfSome, IfNone, take, vec_capacity, OnOk};
ghost use Rattle.bit_rows.specs.BitRows.{word_values};
ghost use Rattle.domain_bits.specs.Removals.{at_vertex};

use std::alloc::{AllocError, Global};

/// Values of one vertex, all in one word of its row.
#[derive(Clone, Copy)]
pub struct Run {
    /// The vertex.
    pub vertex: u16,
    /// Which word of the vertex's row.
    pub place: u16,
    /// The values, as bits of that word.
    pub word: u64,
}

/// What was removed, in order. It is made with all the room that it will need.
pub trait Trail: Drop {
    ghost removed: { Self → List (ℕ × ℕ) };

    ghost capacity: { Self → ℕ };

    /// An empty trail with room for so many pairs.
    fn with_room(alloc: Global, pairs: usize) -> Result<Self, AllocError>
        ensures empty { IfOk result (λ t. removed t ≡ []) }
        ensures room { IfOk result (λ t. pairs ≤ capacity t) };

    /// A trail of the same pairs, with room for so many in all.
    fn copy(&self, alloc: Global, pairs: usize) -> Result<Self, AllocError>
        requires { length (removed self.now) ≤ pairs }
        ensures same { IfOk result (λ t. removed t ≡ removed self.now) }
        ensures room { IfOk result (λ t. pairs ≤ capacity t) };

    /// How many pairs the trail holds.
    fn len(&self) -> usize
        ensures { result ≡ length (removed self.now) };

    /// Adds the values of a word that is not 0, rising.
    fn push(&mut self, run: Run)
        requires some { 0 < run.word }
        requires in_range { run.place < 1024 }
        requires room { length (removed self.old) + length (word_values run.place run.word)
            ≤ capacity self.old }
        ensures after { removed self.new ≡ removed self.old
            ++ at_vertex run.vertex (word_values run.place run.word) }
        ensures room { capacity self.new ≡ capacity self.old };

    /// Takes off the last values, as many as stand in one word and come after the first `mark` pairs.
    fn pop(&mut self, mark: usize) -> Option<Run>
        ensures some { IfSome result
            (λ run. removed self.old ≡ removed self.new
            ++ at_vertex run.vertex (word_values run.place run.word)) }
        ensures word { IfSome result (λ run. run.word < 2 ^ 64) }
        ensures fewer { IfSome result
            (λ run. length (removed self.new) < length (removed self.old)) }
        ensures above { IfSome result (λ run. mark ≤ length (removed self.new)) }
        ensures none { IfNone result (length (removed self.old) ≤ mark) }
        ensures unchanged { IfNone result (removed self.new ≡ removed self.old) }
        ensures room { capacity self.new ≡ capacity self.old };
}

/// A trail of single pairs of vertex and value. Cost: one entry for each removed value.
#[derive(Drop)]
pub struct PairTrail {
    pairs: Vec<(u16, u16)>,
}

impl PairTrail {
    /// The pairs, in the order of their removal.
    pub fn pairs(&self) -> &[(u16, u16)]
        ensures { result.now ≡ self.now.pairs.items }
    {
        &self.pairs
    }
}

impl Trail for PairTrail {
    ghost removed = { λ t. t.pairs.items };

    ghost capacity = { λ t. vec_capacity t.pairs };

    fn with_room(alloc: Global, pairs: usize) -> Result<PairTrail, AllocError> {
        let pairs = Vec::with_capacity(alloc, pairs)?;
        Ok(PairTrail { pairs })
    }

    fn copy(&self, alloc: Global, pairs: usize) -> Result<PairTrail, AllocError> {
        let mut copied = Vec::with_capacity(alloc, pairs)?;
        copied.extend_from_slice(&self.pairs)?;
        Ok(PairTrail { pairs: copied })
    }

    fn len(&self) -> usize {
        self.pairs.len()
    }

    fn push(&mut self, run: Run) {
        push_pairs(&mut self.pairs, run.vertex, run.place, run.word);
    }

    fn pop(&mut self, mark: usize) -> Option<Run> {
        let (run, rest) = last_run(&self.pairs, mark)?;
        self.pairs.truncate(rest);
        Some(run)
    }
}

/// Adds a pair for each bit of the word, rising. Cost: one step for each bit.
fn push_pairs(pairs: &mut Vec<(u16, u16)>, p: u16, place: u16, word: u64)
    requires in_range { place < 1024 }
    requires room { length pairs.old.items + length (word_values place word)
        ≤ vec_capacity pairs.old }
    ensures after { pairs.new.items ≡ pairs.old.items ++ at_vertex p (word_values place word) }
    ensures room { vec_capacity pairs.new ≡ vec_capacity pairs.old }
{
    let mut left = word;
    while left != 0 {
        let bit = left.trailing_zeros();
        pairs.push_reserved((p, 64 * place + bit as u16));
        left ^= 1 << bit;
    }
}

/// The last pairs after the first `mark` that belong to one word, and how many stand before them. Cost: one step for each of them.
fn last_run(pairs: &[(u16, u16)], mark: usize) -> Option<(Run, usize)>
    ensures some { IfSome result
        (λ r. pairs.now ≡ take r.1 pairs.now
        ++ at_vertex r.0.vertex (word_values r.0.place r.0.word)) }
    ensures word { IfSome result (λ r. r.0.word < 2 ^ 64) }
    ensures fewer { IfSome result (λ r. r.1 < length pairs.now) }
    ensures above { IfSome result (λ r. mark ≤ r.1) }
    ensures none { IfNone result (length pairs.now ≤ mark) }
{
    if pairs.len() <= mark {
        return None;
    }
    let mut rest = pairs.len() - 1;
    let (vertex, last) = pairs[rest];
    let place = last / 64;
    let mut low = last % 64;
    let mut word = 1 << low;
    while rest > mark {
        let (p, t) = pairs[rest - 1];
        if p != vertex || t / 64 != place || t % 64 >= low {
            break;
        }
        rest -= 1;
        low = t % 64;
        word |= 1 << low;
    }
    Some((
        Run {
            vertex,
            place,
            word,
        },
        rest,
    ))
}
