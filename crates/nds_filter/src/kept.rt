//! For each pattern vertex the target vertices whose sequences keep its own, as a bit row. Vertices of equal sequences are of one
//! class and share a row, which is made once.

ghost use Rattle.std.specs.Prelude.{◌≡◌, ℕ, ◌*◌, ◌<◌, ◌≤◌, ◌↔◌, true, [], length, IsTrue, IfOk, OnOk, IfSome, slice_index};
ghost use Rattle.graph_theory.specs.Graph.{Graph as TheGraph, size};
ghost use Rattle.graph_theory.specs.Neighbours.{degree, sequence, IsKeptBy};
ghost use Rattle.graph_theory.specs.Reversed.{turned, turned_problem};
ghost use Rattle.bit_rows.specs.BitRows.{has, words_for};
ghost use Rattle.nds_filter.specs.Sequences.{sequences, sequence_at};
ghost use Rattle.nds_filter.specs.Target.{AreOf};
ghost use Rattle.nds_filter.specs.Kept.{KeptRow, row_at, AreFirsts, RowsStay, AreKept};

use crate::sequences::{SequenceAnswer, Sequences, compare};
use crate::target::TargetSequences;
use bit_rows::{fill_below, next_member, unset_bit, words_for};
use degree_filter::keep_large;
use graph_rows::Problem;
use graph_theory::direction::Direction;
use packed_lists::PackedLists;
use std::alloc::{AllocError, Global};
use std::marker::Model;

/// A problem, and the direction in which its edges are followed. Contracts see the problem of the graphs that are turned so.
#[derive(Drop)]
struct Turned<'a> {
    problem: &'a Problem,
    direction: Direction,
}

impl<'a> Model for Turned<'a> {
    ghost use Rattle.graph_theory.specs.Embedding.{Problem as TheProblem};
    ghost use Rattle.graph_theory.specs.Reversed.{turned_problem};

    ghost Value = { TheProblem };

    ghost view = { λ q. turned_problem q.direction q.problem.now };
}

impl<'a> Turned<'a> {
    /// The number of target vertices.
    fn target_size(&self) -> u16
        ensures size { result ≡ size self.now.target }
        ensures few { result ≤ 8192 }
    {
        self.problem.target().size()
    }

    /// Keeps of a row of target vertices those with as many neighbours as `p`, at least.
    fn keep_large(&self, p: u16, row: &mut [u64])
        requires p_in { p < size self.now.pattern }
        requires long { length row.old ≡ words_for (size self.now.target) }
        requires within { (t : ℕ) → has row.old t ≡ true → t < size self.now.target }
        ensures right { (t : ℕ) → has row.new t ≡ true → (has row.old t ≡ true)
            × (degree self.now.pattern p ≤ degree self.now.target t) }
        ensures complete { (t : ℕ) → has row.old t ≡ true
            → degree self.now.pattern p ≤ degree self.now.target t → has row.new t ≡ true }
    {
        keep_large(self.problem, self.direction, p, row);
    }
}

/// The target vertices whose sequences keep those of pattern vertices, in one direction. Contracts see the problem of the graphs that are
/// turned so.
///
/// `classes[p]` is the class of `p`, and `rows` has a row for each class.
pub struct KeptRows<'a> {
    turned: Turned<'a>,
    classes: Vec<usize>,
    rows: PackedLists<u64>,
}

impl Drop for KeptRows<'_> {
    /// In one call, for whoever lets one go.
    fn drop(self) {
        let KeptRows {
            turned: _,
            classes: _,
            rows: _,
        } = self;
    }
}

impl<'a> Model for KeptRows<'a> {
    ghost use Rattle.graph_theory.specs.Graph.{size as size_of};
    ghost use Rattle.graph_theory.specs.Embedding.{Problem as TheProblem};
    ghost use Rattle.nds_filter.specs.Kept.{AreKept};

    ghost Value = { TheProblem };

    ghost view = { λ k. k.turned };

    ghost invariant = { λ k. AreKept k.turned k.classes.items k.rows.lists
        (size_of k.turned.pattern) };
}

impl<'a> KeptRows<'a> {
    /// The rows of a problem in a direction. Cost: that of the sequences of both graphs; for each pattern vertex a comparison with the first
    /// vertex of each class; and for each class one step for each target vertex, and the comparison of two sequences for each with as many
    /// neighbours.
    pub fn new(
        alloc: Global,
        problem: &'a Problem,
        direction: Direction,
    ) -> Result<KeptRows<'a>, AllocError>
        ensures { IfOk result (λ k. k ≡ turned_problem direction problem.entry.now) }
    {
        let ts = Sequences::new(alloc, problem.target(), direction)?;
        KeptRows::with_target(alloc, problem, direction, &ts)
    }

    /// The same, where sequences of the target may be kept. Cost: that of `new`, without the target's sequences where those in this direction are kept.
    pub fn beside(
        alloc: Global,
        problem: &'a Problem,
        direction: Direction,
        kept: Option<&TargetSequences>,
    ) -> Result<KeptRows<'a>, AllocError>
        requires { IfSome kept (λ k. AreOf k.now problem.now.target) }
        ensures { IfOk result (λ k. k ≡ turned_problem direction problem.entry.now) }
    {
        match sequences_of(kept, direction) {
            Some(ts) => KeptRows::with_target(alloc, problem, direction, ts),
            None => KeptRows::new(alloc, problem, direction),
        }
    }

    /// The same, where the sequences of the target in this direction are there already. Cost: that of `new` without them.
    fn with_target(
        alloc: Global,
        problem: &'a Problem,
        direction: Direction,
        ts: &Sequences,
    ) -> Result<KeptRows<'a>, AllocError>
        requires { ts.now ≡ sequences (turned direction problem.now.target) }
        ensures { IfOk result (λ k. k ≡ turned_problem direction problem.entry.now) }
    {
        let ps = Sequences::new(alloc, problem.pattern(), direction)?;
        let turned = Turned { problem, direction };
        let count = usize::from(problem.pattern().size());
        let mut row = vec![in alloc; 0u64; words_for(usize::from(turned.target_size()))]?;
        let mut classes = Vec::with_capacity(alloc, count)?;
        let mut firsts = Vec::with_capacity(alloc, count)?;
        let mut rows = PackedLists::with_capacity(alloc, count, count)?;
        for p in 0..problem.pattern().size() {
            let class = class_of(&turned, &ps, ts, p, &mut row, &mut firsts, &mut rows)?;
            classes.push(class)?;
        }
        Ok(KeptRows {
            turned,
            classes,
            rows,
        })
    }

    /// The target vertices whose sequence keeps that of `p`, as a bit row. Cost: two steps.
    pub fn row(&self, p: u16) -> &[u64]
        requires p_in { p < size self.now.pattern }
        ensures long { length result.now ≡ words_for (size self.now.target) }
        ensures within { (t : ℕ) → has result.now t ≡ true → t < size self.now.target }
        ensures right { (t : ℕ) → has result.now t ≡ true
            → IsKeptBy (sequence self.now.pattern p) (sequence self.now.target t) }
        ensures degrees { (t : ℕ) → has result.now t ≡ true
            → degree self.now.pattern p ≤ degree self.now.target t }
        ensures complete { (t : ℕ) → t < size self.now.target
            → IsKeptBy (sequence self.now.pattern p) (sequence self.now.target t)
            → has result.now t ≡ true }
    {
        let class = self.classes[usize::from(p)];
        self.rows.of(class)
    }
}

/// The sequences in a direction of what may be kept of a target, if they are.
fn sequences_of<'k>(
    kept: Option<&'k TargetSequences>,
    direction: Direction,
) -> Option<&'k Sequences>
    ensures { (g : TheGraph) → IfSome kept.entry (λ k. AreOf k.now g)
        → IfSome result (λ s. s.now ≡ sequences (turned direction g)) }
{
    match kept {
        Some(target) => target.by(direction),
        None => None,
    }
}

/// The class of `p`; a new one, with its row, where no vertex before had its sequence. The row that is passed is room to write in.
fn class_of(
    q: &Turned,
    ps: &Sequences,
    ts: &Sequences,
    p: u16,
    row: &mut [u64],
    firsts: &mut Vec<u16>,
    rows: &mut PackedLists<u64>,
) -> Result<usize, AllocError>
    requires p_in { p < size q.now.pattern }
    requires pattern { ps.now ≡ sequences q.now.pattern }
    requires target { ts.now ≡ sequences q.now.target }
    requires long { length row.old ≡ words_for (size q.now.target) }
    requires before { AreFirsts q.now firsts.old.items rows.old.lists }
    requires begun { rows.old.rest ≡ [] }
    ensures firsts { OnOk result (AreFirsts q.now firsts.new.items rows.new.lists) }
    ensures stay { OnOk result (RowsStay rows.old.lists rows.new.lists) }
    ensures begun { OnOk result (rows.new.rest ≡ []) }
    ensures inside { IfOk result (λ k. k < length rows.new.lists) }
    ensures class { IfOk result (λ k. KeptRow q.now p (row_at rows.new.lists k)) }
{
    if let Some(class) = find_class(ps, firsts, p) {
        return Ok(class);
    }
    let class = rows.len();
    fill_kept(q, ps, ts, p, row);
    rows.push_all(row)?;
    rows.close()?;
    firsts.push(p)?;
    Ok(class)
}

/// The class whose first vertex has the sequence of `p`, if there is one. Cost: one step for each class, and for each with as many
/// neighbours a comparison.
fn find_class(ps: &Sequences, firsts: &[u16], p: u16) -> Option<usize>
    requires p_in { p < length ps.now }
    requires firsts_in { (k : ℕ) → k < length firsts.now
        → slice_index firsts.now k < length ps.now }
    ensures inside { IfSome result (λ k. k < length firsts.now) }
    ensures same { IfSome result
        (λ k. sequence_at ps.now (slice_index firsts.now k) ≡ sequence_at ps.now p) }
{
    let sequence = ps.of(p);
    for k in 0..firsts.len() {
        if ps.of(firsts[k]) == sequence {
            return Some(k);
        }
    }
    None
}

/// Writes the row of `p`: of the target vertices with as many neighbours those whose sequences keep its own.
fn fill_kept(q: &Turned, ps: &Sequences, ts: &Sequences, p: u16, row: &mut [u64])
    requires p_in { p < size q.now.pattern }
    requires pattern { ps.now ≡ sequences q.now.pattern }
    requires target { ts.now ≡ sequences q.now.target }
    requires long { length row.old ≡ words_for (size q.now.target) }
    ensures { KeptRow q.now p row.new }
{
    fill_below(row, usize::from(q.target_size()));
    q.keep_large(p, row);
    keep_sequences(ps.of(p), ts, row);
}

/// Keeps of a row of target vertices those whose sequences keep this one. Cost: one step for each word and each member, and their
/// comparisons.
fn keep_sequences(sequence: &[u16], ts: &Sequences, row: &mut [u64])
    requires short { length sequence.now ≤ 8192 }
    requires few { length row.old ≤ 128 }
    requires within { (t : ℕ) → has row.old t ≡ true → t < length ts.now }
    ensures right { (t : ℕ) → has row.new t ≡ true → (has row.old t ≡ true)
        × IsKeptBy sequence.now (sequence_at ts.now t) }
    ensures complete { (t : ℕ) → has row.old t ≡ true → IsKeptBy sequence.now (sequence_at ts.now t)
        → has row.new t ≡ true }
{
    let mut t = next_member(row, 0);
    while t < 64 * row.len() {
        if !is_kept(sequence, ts.of(t as u16)) {
            unset_bit(row, t);
        }
        t = next_member(row, t + 1);
    }
}

/// Whether the second list goes on at least as long as the first, and is nowhere less.
fn is_kept(ps: &[u16], ts: &[u16]) -> bool
    requires { length ps.now ≤ 8192 }
    ensures { IsTrue result ↔ IsKeptBy ps.now ts.now }
{
    match compare(ps, ts) {
        SequenceAnswer::Kept => true,
        SequenceAnswer::FailsAt(_) => false,
    }
}
