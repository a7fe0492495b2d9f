//! First domains: the values that a vertex may have before anything is assigned.
//!
//! A value stands in the first domain of a vertex where it has the vertex's label, its loop is allowed, and in neither direction
//! of edges it has too little room for the vertex's neighbours, or neighbours of too small degrees. By maps that are not injective
//! the degrees of neighbours ask nothing, and no rows are kept of them. The layer above fills its root's domains with these rows and
//! knows that each image in an embedding stands in them. (Filtering at the root by degrees and by neighbours' degrees:
//! S. Zampelli, Y. Deville, C. Solnon, 2010.)
#![tactic(auto)]

ghost use Rattle.std.specs.Prelude.{◌≡◌, ℕ, ◌<◌, ◌≤◌, ◌↔◌, true, false, length, IsTrue, IfOk, IfSome, IfNone};
ghost use Rattle.graph_theory.specs.Graph.{size, label};
ghost use Rattle.graph_theory.specs.Embedding.{is_injective, Allowed};
ghost use Rattle.graph_theory.specs.Neighbours.{sequence, IsKeptBy};
ghost use Rattle.graph_theory.specs.Asked.{asked_degree, room, asked_sequence};
ghost use Rattle.graph_theory.specs.Reversed.{reversed, reversed_problem, AreMutual};
ghost use Rattle.bit_rows.specs.BitRows.{has, words_for};
ghost use Rattle.nds_filter.specs.Sequences.{sequences, sequence_at};
ghost use Rattle.nds_filter.specs.Target.{AreOf};
ghost use Rattle.search_theory.specs.Consistency.{IsFirstValue};
ghost use Rattle.initial_domains.specs.Degrees.{KeepsNeighbours, KeepsDegrees, KeepsSequences};

use bit_rows::{and_into, and_not_into, fill_below, keep_equal, next_member, unset_bit};
use degree_filter::keep_degrees;
use graph_rows::Problem;
use graph_theory::direction::Direction;
use graph_theory::embedding::Maps;
use nds_filter::{KeptRows, SequenceAnswer, Sequences, TargetSequences};
use std::alloc::{AllocError, Global};
use std::marker::Model;

/// For each pattern vertex the values whose degree and whose neighbours' degrees are not too small, in each direction of edges. Contracts
/// see the problem. Where edges are known to stand both ways, those of one direction are all.
struct SequenceRows<'a> {
    problem: &'a Problem,
    out: KeptRows<'a>,
    back: Option<KeptRows<'a>>,
}

impl Drop for SequenceRows<'_> {
    /// In one call, for whoever lets one go.
    fn drop(self) {
        let SequenceRows {
            problem: _,
            out: _,
            back: _,
        } = self;
    }
}

impl<'a> Model for SequenceRows<'a> {
    ghost use Rattle.std.specs.Prelude.{◌≡◌, IfSome, IfNone};
    ghost use Rattle.graph_theory.specs.Embedding.{Problem as TheProblem};
    ghost use Rattle.graph_theory.specs.Reversed.{reversed_problem, AreMutual};

    ghost Value = { TheProblem };

    ghost view = { λ k. k.problem.now };

    ghost invariant = { λ k. (k.out ≡ k.problem.now)
        × IfSome k.back (λ b. b ≡ reversed_problem k.problem.now)
        × IfNone k.back (AreMutual k.problem.now) };
}

impl<'a> SequenceRows<'a> {
    /// The rows of a problem. Cost: that of `KeptRows::beside`, twice where edges are not known to stand both ways.
    fn beside(
        alloc: Global,
        problem: &'a Problem,
        kept: Option<&TargetSequences>,
    ) -> Result<SequenceRows<'a>, AllocError>
        requires { IfSome kept (λ k. AreOf k.now problem.now.target) }
        ensures { IfOk result (λ k. k ≡ problem.entry.now) }
    {
        let out = KeptRows::beside(alloc, problem, Direction::Out, kept)?;
        let back = rows_back(alloc, problem, kept)?;
        Ok(SequenceRows { problem, out, back })
    }
}

/// What is kept of a problem for its first domains: by injective maps rows of values for each pattern vertex, by others nothing. Contracts
/// see the problem.
pub struct InitialDomains<'a> {
    problem: &'a Problem,
    rows: Option<SequenceRows<'a>>,
}

impl Drop for InitialDomains<'_> {
    /// In one call, for whoever lets one go.
    fn drop(self) {
        let InitialDomains {
            problem: _,
            rows: _,
        } = self;
    }
}

impl<'a> Model for InitialDomains<'a> {
    ghost use Rattle.std.specs.Prelude.{◌≡◌, true, false, IfSome, IfNone};
    ghost use Rattle.graph_theory.specs.Embedding.{Problem as TheProblem, is_injective};

    ghost Value = { TheProblem };

    ghost view = { λ k. k.problem.now };

    ghost invariant = { λ k. IfSome k.rows (λ r. r ≡ k.problem.now)
        × IfSome k.rows (λ r. is_injective k.problem.now.maps ≡ true)
        × IfNone k.rows (is_injective k.problem.now.maps ≡ false) };
}

impl<'a> InitialDomains<'a> {
    /// What is kept of this problem. Cost: where its maps are injective that of `KeptRows::new`, twice where edges are not known to stand both ways;
    /// else nothing.
    pub fn new(alloc: Global, problem: &'a Problem) -> Result<InitialDomains<'a>, AllocError>
        ensures { IfOk result (λ k. k ≡ problem.entry.now) }
    {
        InitialDomains::beside(alloc, problem, None)
    }

    /// The same, where sequences of the target may be kept. Cost: that of `new`, less that of the sequences that are.
    pub fn beside(
        alloc: Global,
        problem: &'a Problem,
        kept: Option<&TargetSequences>,
    ) -> Result<InitialDomains<'a>, AllocError>
        requires { IfSome kept (λ k. AreOf k.now problem.now.target) }
        ensures { IfOk result (λ k. k ≡ problem.entry.now) }
    {
        let rows = sequence_rows(alloc, problem, kept)?;
        Ok(InitialDomains { problem, rows })
    }
}

/// The rows of a problem, where its maps are injective.
fn sequence_rows<'a>(
    alloc: Global,
    problem: &'a Problem,
    kept: Option<&TargetSequences>,
) -> Result<Option<SequenceRows<'a>>, AllocError>
    requires { IfSome kept (λ k. AreOf k.now problem.now.target) }
    ensures some { IfOk result (λ rows. IfSome rows (λ k. k ≡ problem.entry.now)) }
    ensures injective { IfOk result
        (λ rows. IfSome rows (λ k. is_injective problem.entry.now.maps ≡ true)) }
    ensures none { IfOk result
        (λ rows. IfNone rows (is_injective problem.entry.now.maps ≡ false)) }
{
    match problem.maps() {
        Maps::Injective => {}
        Maps::Local => return Ok(None),
        Maps::Any => return Ok(None),
    }
    let rows = SequenceRows::beside(alloc, problem, kept)?;
    Ok(Some(rows))
}

/// The rows of the edges that lead in, where edges are not known to stand both ways.
fn rows_back<'a>(
    alloc: Global,
    problem: &'a Problem,
    kept: Option<&TargetSequences>,
) -> Result<Option<KeptRows<'a>>, AllocError>
    requires { IfSome kept (λ k. AreOf k.now problem.now.target) }
    ensures some { IfOk result (λ rows. IfSome rows (λ k. k ≡ reversed_problem problem.entry.now)) }
    ensures none { IfOk result (λ rows. IfNone rows (AreMutual problem.entry.now)) }
{
    if problem.is_mutual() {
        return Ok(None);
    }
    let rows = KeptRows::beside(alloc, problem, Direction::In, kept)?;
    Ok(Some(rows))
}

/// Writes the set of values in the first domain of `p`, where `kept` has the values whose neighbours' degrees are not too small. It
/// takes no memory. Cost: a few steps for each word of the row and one for each target vertex, whose label is looked at; where `p` has
/// a loop also one for each value that is left then.
pub fn fill_first(q: &Problem, kept: &InitialDomains, p: u16, row: &mut [u64])
    requires p_in { p < size q.now.pattern }
    requires problem { kept.now ≡ q.now }
    requires long { length row.old ≡ words_for (size q.now.target) }
    ensures right { (t : ℕ) → has row.new t ≡ true → IsFirstValue q.now p t }
    ensures within { (t : ℕ) → has row.new t ≡ true → t < size q.now.target }
    ensures complete { (t : ℕ) → IsFirstValue q.now p t → t < size q.now.target
        → has row.new t ≡ true }
{
    let target = q.target();
    fill_kept(kept, p, row);
    keep_equal(row, target.labels(), q.pattern().label(p));
    keep_loops(q, p, row);
}

/// Writes the set of values with room for the neighbours of `p`, whose neighbours' degrees are not too small. Cost: where rows are kept a
/// step for each word of the row, or two; else that of `keep_degrees` in each direction.
fn fill_kept(kept: &InitialDomains, p: u16, row: &mut [u64])
    requires p_in { p < size kept.now.pattern }
    requires long { length row.old ≡ words_for (size kept.now.target) }
    ensures within { (t : ℕ) → has row.new t ≡ true → t < size kept.now.target }
    ensures right { (t : ℕ) → has row.new t ≡ true → KeepsDegrees kept.now p t }
    ensures complete { (t : ℕ) → t < size kept.now.target → KeepsDegrees kept.now p t
        → has row.new t ≡ true }
{
    match &kept.rows {
        Some(rows) => fill_by_rows(rows, p, row),
        None => fill_roomy(kept.problem, p, row),
    }
}

/// Writes the set of values whose degree and whose neighbours' degrees are not too small for `p`. Cost: a step for each word of the row, or two.
fn fill_by_rows(kept: &SequenceRows, p: u16, row: &mut [u64])
    requires p_in { p < size kept.now.pattern }
    requires long { length row.old ≡ words_for (size kept.now.target) }
    ensures within { (t : ℕ) → has row.new t ≡ true → t < size kept.now.target }
    ensures right { (t : ℕ) → has row.new t ≡ true → KeepsNeighbours kept.now p t }
    ensures complete { (t : ℕ) → t < size kept.now.target → KeepsNeighbours kept.now p t
        → has row.new t ≡ true }
{
    row.copy_from_slice(kept.out.row(p));
    if let Some(rows) = &kept.back {
        and_into(row, rows.row(p));
    }
}

/// Writes the set of values with room for the neighbours of `p` in each direction.
fn fill_roomy(q: &Problem, p: u16, row: &mut [u64])
    requires p_in { p < size q.now.pattern }
    requires long { length row.old ≡ words_for (size q.now.target) }
    ensures within { (t : ℕ) → has row.new t ≡ true → t < size q.now.target }
    ensures out { (t : ℕ) → has row.new t ≡ true → asked_degree q.now p ≤ room q.now t }
    ensures back { (t : ℕ) → has row.new t ≡ true
        → asked_degree (reversed_problem q.now) p ≤ room (reversed_problem q.now) t }
    ensures complete { (t : ℕ) → t < size q.now.target → asked_degree q.now p ≤ room q.now t
        → asked_degree (reversed_problem q.now) p ≤ room (reversed_problem q.now) t
        → has row.new t ≡ true }
{
    fill_below(row, usize::from(q.target().size()));
    keep_degrees(q, Direction::Out, p, row);
    keep_degrees(q, Direction::In, p, row);
}

/// Keeps of a row of values with the label of `p` those whose loops let it go there. Cost: in the induced kind one step for each word,
/// and where `p` has a loop one for each value.
fn keep_loops(q: &Problem, p: u16, row: &mut [u64])
    requires p_in { p < size q.now.pattern }
    requires long { length row.old ≡ words_for (size q.now.target) }
    requires within { (t : ℕ) → has row.old t ≡ true → t < size q.now.target }
    requires labels { (t : ℕ) → has row.old t ≡ true
        → label q.now.target t ≡ label q.now.pattern p }
    ensures right { (t : ℕ) → has row.new t ≡ true → (has row.old t ≡ true) × Allowed q.now p t }
    ensures complete { (t : ℕ) → has row.old t ≡ true → Allowed q.now p t → has row.new t ≡ true }
{
    if q.pattern().loop_at(p).is_some() {
        keep_allowed(q, p, row);
    } else if q.induced() {
        and_not_into(row, q.target().loops());
    }
}

/// Keeps of a row of values those that are allowed. Cost: one step for each word, and two words for each value.
fn keep_allowed(q: &Problem, p: u16, row: &mut [u64])
    requires p_in { p < size q.now.pattern }
    requires long { length row.old ≡ words_for (size q.now.target) }
    requires within { (t : ℕ) → has row.old t ≡ true → t < size q.now.target }
    ensures right { (t : ℕ) → has row.new t ≡ true → (has row.old t ≡ true) × Allowed q.now p t }
    ensures complete { (t : ℕ) → has row.old t ≡ true → Allowed q.now p t → has row.new t ≡ true }
{
    let _values = q.target().size();
    let mut t = next_member(row, 0);
    while t < 64 * row.len() {
        if !q.allowed(p, t as u16) {
            unset_bit(row, t);
        }
        t = next_member(row, t + 1);
    }
}

/// Whether `t` stands in the first domain of `p`, where `ps` and `ts` are the sequences of both graphs and `in_ps` and `in_ts` those
/// of the edges that lead in.
pub fn is_first(
    q: &Problem,
    ps: &Sequences,
    ts: &Sequences,
    in_ps: &Sequences,
    in_ts: &Sequences,
    p: u16,
    t: u16,
) -> bool
    requires p_in { p < size q.now.pattern }
    requires t_in { t < size q.now.target }
    requires pattern { ps.now ≡ sequences q.now.pattern }
    requires target { ts.now ≡ sequences q.now.target }
    requires in_pattern { in_ps.now ≡ sequences (reversed q.now.pattern) }
    requires in_target { in_ts.now ≡ sequences (reversed q.now.target) }
    ensures { IsTrue result ↔ IsFirstValue q.now p t }
{
    if !degree_filter::keeps(q, p, t) {
        return false;
    }
    if !q.allowed(p, t) {
        return false;
    }
    match q.maps() {
        Maps::Injective => keeps_sequences(q, ps, ts, in_ps, in_ts, p, t),
        Maps::Local => true,
        Maps::Any => true,
    }
}

/// Whether the sequences of `t` keep those of `p` in each direction.
fn keeps_sequences(
    q: &Problem,
    ps: &Sequences,
    ts: &Sequences,
    in_ps: &Sequences,
    in_ts: &Sequences,
    p: u16,
    t: u16,
) -> bool
    requires p_in { p < size q.now.pattern }
    requires t_in { t < size q.now.target }
    requires pattern { ps.now ≡ sequences q.now.pattern }
    requires target { ts.now ≡ sequences q.now.target }
    requires in_pattern { in_ps.now ≡ sequences (reversed q.now.pattern) }
    requires in_target { in_ts.now ≡ sequences (reversed q.now.target) }
    ensures { IsTrue result ↔ KeepsSequences q.now p t }
{
    keeps_sequence(ps, ts, p, t) && keeps_sequence(in_ps, in_ts, p, t)
}

/// Whether the sequence of `t` keeps that of `p`.
fn keeps_sequence(ps: &Sequences, ts: &Sequences, p: u16, t: u16) -> bool
    requires p_in { p < length ps.now }
    requires t_in { t < length ts.now }
    ensures { IsTrue result ↔ IsKeptBy (sequence_at ps.now p) (sequence_at ts.now t) }
{
    match nds_filter::keeps(ps, ts, p, t) {
        SequenceAnswer::Kept => true,
        SequenceAnswer::FailsAt(_) => false,
    }
}
