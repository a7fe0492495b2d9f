//! The root: the first domains of all vertices, and what follows from them before any guess.

ghost use Rattle.std.specs.Prelude.{◌≡◌, ℕ, [], ◌<◌, ◌≤◌, length, true, false, None, IfOk, IfErr, IfSome};
ghost use Rattle.std.specs.Result.{is_ok};
ghost use Rattle.graph_theory.specs.Graph.{size};
ghost use Rattle.bit_rows.specs.BitRows.{words_for};
ghost use Rattle.nds_filter.specs.Target.{AreOf};
ghost use Rattle.domain_bits.specs.Removals.{full};
ghost use Rattle.sparse_set.specs.Removals.{whole};
ghost use Rattle.recorder.specs.Recording.{NoNewGuess};
ghost use Rattle.recorder.specs.Telling.{IsOf, Fails, IsEmptied, Tells, TellsOn};
ghost use Rattle.propagation.specs.Learning.{unlearned};
ghost use Rattle.restart_search.specs.Searching.{Begins, Roots, RootSays};

use bit_rows::words_for;
use domain_bits::{Domains, Trail};
use graph_rows::Problem;
use initial_domains::{InitialDomains, fill_first};
use nds_filter::TargetSequences;
use pair_supports::PairKinds;
use propagation::{Filters, narrow_first, propagate};
use recorder::{Failure, Recorder};
use sparse_set::SparseSet;
use std::alloc::{AllocError, Global};

/// What the root answers.
#[derive(Drop)]
pub enum Rooted<T: Trail, R: Recorder> {
    /// Domains at rest that hold every embedding, for workers to begin with, and what was told of them.
    Quiet(Domains<T>, R),
    /// No embedding exists; how this was found, and what was told of the domains then.
    Failed(Failure, R),
    /// Memory was refused.
    NoMemory,
}

/// What the root is settled with, beside the filters.
struct RootRoom<'a> {
    /// What is kept of the problem's vertices for `fill_first`.
    kept: InitialDomains<'a>,
    /// The row that a first domain is written to.
    row: Vec<u64>,
    /// Which vertices wait for their consequences.
    waiting: Vec<bool>,
    /// Those not yet past.
    undecided: SparseSet,
}

impl Drop for RootRoom<'_> {
    /// In one call, for whoever lets one go.
    fn drop(self) {
        let RootRoom {
            kept: _,
            row: _,
            waiting: _,
            undecided: _,
        } = self;
    }
}

/// Room for the root of a problem, of whose target sequences may be kept: no vertex waits, and none is past. Cost: that of `InitialDomains::beside`.
fn root_room<'a>(
    alloc: Global,
    q: &'a Problem,
    kept: Option<&TargetSequences>,
) -> Result<RootRoom<'a>, AllocError>
    requires kept { IfSome kept (λ k. AreOf k.now q.now.target) }
    ensures rows { IfOk result (λ r. r.kept ≡ q.entry.now) }
    ensures words { IfOk result
        (λ r. length r.row.items ≡ words_for (size q.entry.now.target)) }
    ensures long { IfOk result (λ r. length r.waiting.items ≡ size q.entry.now.pattern) }
    ensures whole { IfOk result (λ r. r.undecided ≡ whole (size q.entry.now.pattern)) }
{
    let vertices = q.pattern().size();
    let waiting = vec![in alloc; false; usize::from(vertices)]?;
    let row = vec![in alloc; 0u64; words_for(usize::from(q.target().size()))]?;
    let undecided = SparseSet::new(alloc, vertices)?;
    let kept = InitialDomains::beside(alloc, q, kept)?;
    Ok(RootRoom {
        kept,
        row,
        waiting,
        undecided,
    })
}

/// Leaves each vertex its first domain; fails where one is empty. Cost: for each vertex that of `fill_first`, and the values that leave.
fn begin<T: Trail, R: Recorder>(
    q: &Problem,
    kept: &InitialDomains,
    d: &mut Domains<T>,
    waiting: &mut [bool],
    told: &mut R,
    row: &mut [u64],
) -> Result<(), Failure>
    requires rows { kept.now ≡ q.now }
    requires is_full { d.old ≡ full (size q.now.pattern) (size q.now.target) }
    requires long { length waiting.old ≡ size q.now.pattern }
    requires words { length row.old ≡ words_for (size q.now.target) }
    ensures begins { Begins (is_ok result) q.now d.old d.new waiting.new }
    ensures none { IfErr result (IsEmptied q.now d.new) }
    ensures told { TellsOn q.now d.old (R.changes told.old) d.new (R.changes told.new) }
    ensures guesses { NoNewGuess (R.changes told.old) (R.changes told.new) }
    ensures is_of { IsOf q.now d.new }
{
    for p in 0..d.vertices() {
        fill_first(q, kept, p, row);
        if !narrow_first(d, waiting, told, row, p) {
            return Err(Failure::Empty(p));
        }
    }
    Ok(())
}

/// Leaves each vertex its first domain, and takes the consequences; fails where no embedding is left.
fn settle_root<T: Trail, R: Recorder>(
    q: &Problem,
    room: &mut RootRoom,
    filters: &mut Filters,
    d: &mut Domains<T>,
    told: &mut R,
) -> Result<(), Failure>
    requires rows { room.old.kept ≡ q.now }
    requires words { length room.old.row.items ≡ words_for (size q.now.target) }
    requires long { length room.old.waiting.items ≡ size q.now.pattern }
    requires whole { room.old.undecided ≡ whole (size q.now.pattern) }
    requires filters { filters.old ≡ unlearned q.now }
    requires is_full { d.old ≡ full (size q.now.pattern) (size q.now.target) }
    ensures roots { Roots (is_ok result) q.now d.new }
    ensures filters { filters.new ≡ unlearned q.now }
    ensures is_of { IsOf q.now d.new }
    ensures fails { IfErr result (Fails q.now None d.new (R.changes told.new) (R.short told.new)) }
    ensures told { Tells q.now None d.old (R.changes told.old)
        → Tells q.now None d.new (R.changes told.new) }
    ensures guesses { NoNewGuess (R.changes told.old) (R.changes told.new) }
{
    begin(q, &room.kept, d, &mut room.waiting, told, &mut room.row)?;
    propagate(q, filters, d, &mut room.waiting, &mut room.undecided, told)
}

/// The same, by filters that are made for it, with at most so many words of rows of pairs. Cost: that of `Filters::new` beside it.
fn settle_filtered<T: Trail, R: Recorder>(
    alloc: Global,
    q: &Problem,
    kinds: &PairKinds,
    most: usize,
    room: &mut RootRoom,
    d: &mut Domains<T>,
    told: &mut R,
) -> Result<Result<(), Failure>, AllocError>
    requires kinds { kinds.now.problem ≡ q.now }
    requires rows { room.old.kept ≡ q.now }
    requires words { length room.old.row.items ≡ words_for (size q.now.target) }
    requires long { length room.old.waiting.items ≡ size q.now.pattern }
    requires whole { room.old.undecided ≡ whole (size q.now.pattern) }
    requires is_full { d.old ≡ full (size q.now.pattern) (size q.now.target) }
    ensures roots { IfOk result (λ settled. Roots (is_ok settled) q.now d.new) }
    ensures is_of { IfOk result (λ _. IsOf q.now d.new) }
    ensures fails { IfOk result (λ settled. IfErr settled
        (Fails q.now None d.new (R.changes told.new) (R.short told.new))) }
    ensures told { IfOk result (λ _. Tells q.now None d.old (R.changes told.old)
        → Tells q.now None d.new (R.changes told.new)) }
    ensures guesses { IfOk result (λ _. NoNewGuess (R.changes told.old) (R.changes told.new)) }
{
    let mut filters = Filters::new(alloc, q, kinds, most)?;
    Ok(settle_root(q, room, &mut filters, d, told))
}

/// The same, in room that is made for it too. Cost: that of `InitialDomains::beside` beside it.
fn settle_full<T: Trail, R: Recorder>(
    alloc: Global,
    q: &Problem,
    kinds: &PairKinds,
    most: usize,
    kept: Option<&TargetSequences>,
    d: &mut Domains<T>,
    told: &mut R,
) -> Result<Result<(), Failure>, AllocError>
    requires kinds { kinds.now.problem ≡ q.now }
    requires kept { IfSome kept (λ k. AreOf k.now q.now.target) }
    requires is_full { d.old ≡ full (size q.now.pattern) (size q.now.target) }
    ensures roots { IfOk result (λ settled. Roots (is_ok settled) q.now d.new) }
    ensures is_of { IfOk result (λ _. IsOf q.now d.new) }
    ensures fails { IfOk result (λ settled. IfErr settled
        (Fails q.now None d.new (R.changes told.new) (R.short told.new))) }
    ensures told { IfOk result (λ _. Tells q.now None d.old (R.changes told.old)
        → Tells q.now None d.new (R.changes told.new)) }
    ensures guesses { IfOk result (λ _. NoNewGuess (R.changes told.old) (R.changes told.new)) }
{
    let mut room = root_room(alloc, q, kept)?;
    settle_filtered(alloc, q, kinds, most, &mut room, d, told)
}

/// The first domains and what follows from them, with at most so many words of rows of pairs; all changes are told. Sequences of the target may be kept
/// from before. Cost: that of `InitialDomains::beside`, for each vertex that of `fill_first`, and the propagation.
pub fn root<T: Trail, R: Recorder>(
    alloc: Global,
    q: &Problem,
    kinds: &PairKinds,
    most: usize,
    kept: Option<&TargetSequences>,
    told: R,
) -> Rooted<T, R>
    requires kinds { kinds.now.problem ≡ q.now }
    requires kept { IfSome kept (λ k. AreOf k.now q.now.target) }
    requires told { Tells q.now None (full (size q.now.pattern) (size q.now.target))
        (R.changes told) }
    ensures { RootSays R.changes R.short result q.now }
{
    match take_root::<T, R>(alloc, q, kinds, most, kept, told) {
        Ok(answer) => answer,
        Err(_) => Rooted::NoMemory,
    }
}

/// The same, where memory suffices.
fn take_root<T: Trail, R: Recorder>(
    alloc: Global,
    q: &Problem,
    kinds: &PairKinds,
    most: usize,
    kept: Option<&TargetSequences>,
    told: R,
) -> Result<Rooted<T, R>, AllocError>
    requires kinds { kinds.now.problem ≡ q.now }
    requires kept { IfSome kept (λ k. AreOf k.now q.now.target) }
    requires told { Tells q.now None (full (size q.now.pattern) (size q.now.target))
        (R.changes told) }
    ensures { IfOk result (λ answer. RootSays R.changes R.short answer q.now) }
{
    let vertices = q.pattern().size();
    let values = q.target().size();
    let mut told = told;
    let mut domains = Domains::<T>::with_trail(alloc, vertices, values)?;
    let settled = settle_full(alloc, q, kinds, most, kept, &mut domains, &mut told)?;
    match settled {
        Ok(()) => Ok(Rooted::Quiet(domains, told)),
        Err(failure) => Ok(Rooted::Failed(failure, told)),
    }
}
