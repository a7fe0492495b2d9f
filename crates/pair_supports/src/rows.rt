//! Rows of consistent values, made at a target vertex when it is first needed.

ghost use Rattle.std.specs.Prelude.{◌≡◌, ℕ, ◌<◌, ◌≤◌, ◌==◌, ◌||◌, ◌&&◌, ◌++◌, ◌∷◌, ◌*◌, [], true, false, length, IfOk, OnOk, slice_index};
ghost use Rattle.graph_theory.specs.Graph.{size};
ghost use Rattle.graph_theory.specs.Neighbours.{common};
ghost use Rattle.graph_theory.specs.Reversed.{reversed};
ghost use Rattle.pair_supports.specs.Rows.{IsMade};
ghost use Rattle.pair_supports.specs.Held.{owns, IsAdded};
ghost use Rattle.pair_supports.specs.Kinds.{ServeAll};

use crate::kinds::{SharedCounts, fill_block};
use crate::pair_kinds::PairKinds;
use crate::rows_at::RowsAt;
use graph_theory::direction::reversed_laws;
use std::alloc::{AllocError, Global};
use std::marker::Model;

/// The most words that rows take where nobody says less: 64 MiB.
pub const MOST_WORDS: usize = 8388608;

/// The owner of a block that has none.
const NO_OWNER: u16 = 65535;

/// Rows of consistent values of a problem. Contracts see the problem, and for which target vertices the rows are made.
///
/// A block is the rows of all kinds at one target vertex. `block_of[t]` is the block of `t` where `owners` says so. Blocks are added as
/// they are needed, in memory that was taken before and not touched till then; once there are `most` they are taken again in turn, so that
/// the rows made last stay longest. The kinds are only read, so that the rows of several searches over one problem can share them.
pub struct PairSupports<'a> {
    kinds: &'a PairKinds<'a>,
    block_of: Vec<u32>,
    owners: Vec<u16>,
    most: usize,
    next: usize,
    counts: Vec<u16>,
    in_counts: Vec<u16>,
    pool: Vec<u64>,
}

impl Drop for PairSupports<'_> {
    /// In one call, for whoever lets one go.
    fn drop(self) {
        let PairSupports {
            kinds: _,
            block_of: _,
            owners: _,
            most: _,
            next: _,
            counts: _,
            in_counts: _,
            pool: _,
        } = self;
    }
}

impl<'a> Model for PairSupports<'a> {
    ghost use Rattle.pair_supports.specs.Rows.{Rows};
    ghost use Rattle.pair_supports.specs.Held.{made_in, Held};

    ghost Value = { Rows };

    ghost view = { λ r. record {
      problem = r.kinds.now.problem;
      made = made_in r.block_of.items r.owners.items;
    } };

    ghost invariant = { λ r. Held r.kinds.now.problem r.kinds.now.vertices r.kinds.now.width
        r.kinds.now.kinds r.kinds.now.places r.most r.block_of.items r.owners.items r.counts.items
        r.in_counts.items r.pool.items r.kinds.now.both_ways };
}

impl<'a> PairSupports<'a> {
    /// No rows yet, and the memory for them: a block for each target vertex, but not more than `most` words in all unless one block
    /// has more. Of this memory no more is touched than rows are made in. Cost: one step for each target vertex and for each word of a block.
    pub fn new(
        alloc: Global,
        kinds: &'a PairKinds<'a>,
        most: usize,
    ) -> Result<PairSupports<'a>, AllocError>
        ensures { IfOk result (λ r. r.problem ≡ kinds.entry.now.problem) }
    {
        let size = usize::from(kinds.problem.target().size());
        let block = kinds.kinds.len() * kinds.width;
        let most = blocks_for(size, block, most);
        let block_of = vec![in alloc; 0u32; size]?;
        let (owners, pool) = begin_blocks(alloc, most, block, most * block)?;
        let counts = vec![in alloc; 0u16; size]?;
        let in_counts = vec![in alloc; 0u16; in_counts_for(kinds, size)]?;
        Ok(PairSupports {
            kinds,
            block_of,
            owners,
            most,
            next: 0,
            counts,
            in_counts,
            pool,
        })
    }

    /// Makes the rows at `t`, unless they are made. They take a block that is added; once there are as many as there is memory for, the
    /// block that was taken longest ago, and the vertex that had it has its rows no longer. It takes no memory beside that which
    /// `new` took. Cost where they are made already: two steps; else the counts
    /// of `t` in the directions in which a kind asks for them, one of which serves for both where the target's edges are known to stand both
    /// ways, and for each kind one step for each word of a row,
    /// with one for each neighbour of `t` in a direction that the kind has an edge in, or for each target vertex where it has none and
    /// asks for shared neighbours.
    #[inline(always)]
    pub fn make(&mut self, t: u16)
        requires t_in { t < size self.old.problem.target }
        ensures problem { self.new.problem ≡ self.old.problem }
        ensures made { IsMade self.new t }
    {
        if is_owner(&self.block_of, &self.owners, t) {
            return;
        }
        self.make_block(t)
    }

    /// Makes the rows at `t` in the block that is taken next. Cost: that of `make` where they are not made already.
    #[inline(never)]
    fn make_block(&mut self, t: u16)
        requires t_in { t < size self.old.problem.target }
        ensures problem { self.new.problem ≡ self.old.problem }
        ensures made { IsMade self.new t }
    {
        let kinds = self.kinds;
        let block = take_block(
            &mut self.owners,
            &mut self.pool,
            self.most,
            kinds.kinds.len() * kinds.width,
            self.next,
        );
        count_shared(kinds, t, &mut self.counts, &mut self.in_counts);
        let counts = shared_counts(kinds, t, &self.counts, &self.in_counts);
        fill_block(
            kinds.problem,
            &kinds.kinds,
            t,
            &counts,
            kinds.width,
            block * kinds.kinds.len(),
            &mut self.pool,
        );
        self.owners[block] = t;
        self.block_of[usize::from(t)] = block as u32;
        self.next = block + 1;
    }

    /// The rows of `p` at `t`: what the other pattern vertices have that goes together with it. Cost: a few steps.
    #[inline(always)]
    pub fn at(&self, p: u16, t: u16) -> RowsAt<'_>
        requires p_in { p < size self.now.problem.pattern }
        requires t_in { t < size self.now.problem.target }
        requires made { IsMade self.now t }
        ensures problem { result.problem ≡ self.now.problem }
        ensures vertex { result.vertex ≡ p }
        ensures value { result.value ≡ t }
    {
        let kinds = self.kinds;
        let from = usize::from(p) * kinds.vertices;
        let words = kinds.kinds.len() * kinds.width;
        let block = self.block_of[usize::from(t)] as usize * words;
        RowsAt {
            kinds,
            p,
            t,
            places: &kinds.places[from..from + kinds.vertices],
            block: &self.pool[block..block + words],
        }
    }
}

/// How many counts are kept of shared neighbours against the direction of edges: none where edges are known to stand both ways.
fn in_counts_for(kinds: &PairKinds, size: usize) -> usize
    ensures { kinds.now.both_ways ≡ false → result ≡ size }
{
    if kinds.both_ways { 0 } else { size }
}

/// Counts how many neighbours the other target vertices share with `t`, in each direction in which a kind asks for them. Where edges are
/// known to stand both ways the counts along edges are those against them too.
fn count_shared(kinds: &PairKinds, t: u16, counts: &mut [u16], in_counts: &mut [u16])
    requires t_in { t < size kinds.now.problem.target }
    requires long { length counts.old ≡ size kinds.now.problem.target }
    requires in_long { kinds.now.both_ways ≡ false
        → length in_counts.old ≡ size kinds.now.problem.target }
    ensures counted { (kinds.now.asks_shared || kinds.now.both_ways && kinds.now.asks_in_shared)
        ≡ true → (u : ℕ) → u < size kinds.now.problem.target → (t ≡ u → ⊥)
        → slice_index counts.new u ≡ common kinds.now.problem.target t u }
    ensures in_counted { kinds.now.both_ways ≡ false → kinds.now.asks_in_shared ≡ true → (u : ℕ)
        → u < size kinds.now.problem.target → (t ≡ u → ⊥)
        → slice_index in_counts.new u ≡ common (reversed kinds.now.problem.target) t u }
{
    if kinds.asks_shared || kinds.both_ways && kinds.asks_in_shared {
        kinds.sharing.fill_counts(t, counts);
    }
    if !kinds.both_ways && kinds.asks_in_shared {
        kinds.in_sharing.fill_counts(t, in_counts);
    }
}

/// The counts in both directions, which are the same where edges are known to stand both ways. They serve all kinds.
fn shared_counts<'a>(
    kinds: &PairKinds,
    t: u16,
    counts: &'a [u16],
    in_counts: &'a [u16],
) -> SharedCounts<'a>
    requires t_in { t < size kinds.now.problem.target }
    requires long { length counts.now ≡ size kinds.now.problem.target }
    requires in_long { kinds.now.both_ways ≡ false
        → length in_counts.now ≡ size kinds.now.problem.target }
    requires counted { (kinds.now.asks_shared || kinds.now.both_ways && kinds.now.asks_in_shared)
        ≡ true → (u : ℕ) → u < size kinds.now.problem.target → (t ≡ u → ⊥)
        → slice_index counts.now u ≡ common kinds.now.problem.target t u }
    requires in_counted { kinds.now.both_ways ≡ false → kinds.now.asks_in_shared ≡ true → (u : ℕ)
        → u < size kinds.now.problem.target → (t ≡ u → ⊥)
        → slice_index in_counts.now u ≡ common (reversed kinds.now.problem.target) t u }
    ensures { ServeAll kinds.now.problem kinds.now.kinds t result.out.now result.back.now
        result.both_ways }
{
    reversed_laws();
    SharedCounts {
        out: counts,
        back: if kinds.both_ways { counts } else { in_counts },
        both_ways: kinds.both_ways,
    }
}

/// Whether the block of `t` is its own.
fn is_owner(block_of: &[u32], owners: &[u16], t: u16) -> bool
    requires t_in { t < length block_of.now }
    requires block_in { slice_index block_of.now t < length owners.now }
    ensures { result ≡ owns block_of.now owners.now t }
{
    owners[block_of[usize::from(t)] as usize] == t
}

/// Memory for so many blocks and for all their words, and the first block, where there is to be one. Cost: one step for each word of it.
fn begin_blocks(
    alloc: Global,
    most: usize,
    words: usize,
    all: usize,
) -> Result<(Vec<u16>, Vec<u64>), AllocError>
    ensures some { IfOk result (λ b. 0 < most → 0 < length b.0.items) }
    ensures few { IfOk result (λ b. length b.0.items ≤ most) }
    ensures nobody { IfOk result
        (λ b. (k : ℕ) → k < length b.0.items → slice_index b.0.items k ≡ 65535) }
    ensures room { IfOk result (λ b. length b.0.items * words ≤ length b.1.items) }
{
    let mut owners = Vec::with_capacity(alloc, most)?;
    let mut pool = Vec::with_capacity(alloc, all)?;
    if most != 0 {
        add_block(&mut owners, &mut pool, words)?;
    }
    Ok((owners, pool))
}

/// Adds a block of so many words that has no owner. Cost: one step for each word.
fn add_block(owners: &mut Vec<u16>, pool: &mut Vec<u64>, words: usize) -> Result<(), AllocError>
    requires room { length owners.old.items * words ≤ length pool.old.items }
    ensures more { IsAdded owners.old.items pool.old.items owners.new.items pool.new.items }
    ensures added { OnOk result (owners.new.items ≡ owners.old.items ++ 65535 ∷ []) }
    ensures room { length owners.new.items * words ≤ length pool.new.items }
{
    for _word in 0..words {
        pool.push(0)?;
    }
    owners.push(NO_OWNER)?;
    Ok(())
}

/// The block that is taken next: one that is added where there are less than `most`; else the one in turn, where that is `next`, and else
/// the first.
fn take_block(
    owners: &mut Vec<u16>,
    pool: &mut Vec<u64>,
    most: usize,
    words: usize,
    next: usize,
) -> usize
    requires some { 0 < length owners.old.items }
    requires room { length owners.old.items * words ≤ length pool.old.items }
    ensures more { IsAdded owners.old.items pool.old.items owners.new.items pool.new.items }
    ensures few { length owners.old.items ≤ most → length owners.new.items ≤ most }
    ensures room { length owners.new.items * words ≤ length pool.new.items }
    ensures within { result < length owners.new.items }
{
    let blocks = owners.len();
    if blocks < most && add_block(owners, pool, words).is_ok() {
        return blocks;
    }
    if next < blocks { next } else { 0 }
}

/// How many blocks of so many words are made room for, where all take no more than `most` unless one alone does.
fn blocks_for(size: usize, block: usize, most: usize) -> usize
    ensures few { result ≤ size }
    ensures some { 0 < size → 0 < result }
{
    size.min((most / block.max(1)).max(1))
}
