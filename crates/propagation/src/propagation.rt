//! Propagation. A vertex whose domain has one value takes its consequences: what is not consistent with it, this value itself
//! where two images have to differ, leaves the other domains. A vertex waits while its consequences are to be taken; the others are
//! at rest. One row of consistent values for each pair of vertices makes this one AND of words for each other vertex (Ullmann 2010); a
//! pair that is asked nothing but distinct images, or not even these, as nearly all are in a large sparse pattern, needs no row; in the
//! induced kind the image's neighbours are taken too, one by one where they are few. Once none waits, what the order of images leaves
//! no room for leaves, and the domains of each block are counted together, which may decide further vertices.
//!
//! A vertex that has taken its consequences is past (the word is that of Haralick and Elliott 1980): it leaves the set of
//! the vertices that are still looked at, since nothing is left to be taken from its domain. Who undoes the domains gives
//! back these vertices too.

ghost use Rattle.std.specs.Prelude.{◌≡◌, ℕ, ◌+◌, ◌*◌, ◌<◌, ◌≤◌, true, false, length, IfSome, IfNone, IfErr};
ghost use Rattle.std.specs.Result.{is_ok};
ghost use Rattle.graph_theory.specs.Graph.{size};
ghost use Rattle.domain_bits.specs.Removals.{in_domain};
ghost use Rattle.search_theory.specs.Claims.{Single, First, Quiet};
ghost use Rattle.pair_supports.specs.Rows.{IsMade};
ghost use Rattle.recorder.specs.Recording.{NoNewGuess};
ghost use Rattle.recorder.specs.Telling.{IsOf, Fails, IsEmptied, Tells, TellsOn};
ghost use Rattle.propagation.specs.Learning.{AreKept, Forces};
ghost use Rattle.propagation.specs.Acting.{ActedAfter, HaveMoved, InForceAfter, WaitAfter, WatchesWait, WatchesWaitBut};
ghost use Rattle.propagation.specs.Propagation.{waits_at, HaveValues, LeavesPast, Fewer, Ready, ReadyBut, Sweeps, Settles, Visited, TakenUp, Propagates};

use crate::counting::{filter_more, raise_decided};
use crate::filters::Filters;
use crate::nogoods::Nogoods;
use crate::removal::keep_consistent;
use domain_bits::{Domains, Trail};
use graph_rows::Problem;
use pair_supports::{PairSupports, RowsAt};
use recorder::{Failure, Recorder};
use sparse_set::SparseSet;

/// How many flags are looked at together.
const FLAGS: usize = 8;

/// In how many blocks flags are looked at: few flags, as a small pattern has, are sooner looked at one by one.
fn blocks_of(flags: usize) -> usize
    ensures { 8 * result ≤ flags }
{
    if flags < 2 * FLAGS { 0 } else { flags / FLAGS }
}

/// A vertex that waits, the least one. Cost: one step for eight vertices below it, and where there are few one for each.
fn next_waiting(waiting: &[bool]) -> Option<usize>
    ensures some { IfSome result (λ p. (p < length waiting.now) × (waits_at waiting.now p ≡ true)) }
    ensures none { IfNone result
        ((p : ℕ) → p < length waiting.now → waits_at waiting.now p ≡ false) }
{
    let blocks = blocks_of(waiting.len());
    for block in 0..blocks {
        if are_at_rest(waiting, FLAGS * block) {
            continue;
        }
        for k in FLAGS * block..FLAGS * block + FLAGS {
            if waiting[k] {
                return Some(k);
            }
        }
    }
    for p in FLAGS * blocks..waiting.len() {
        if waiting[p] {
            return Some(p);
        }
    }
    None
}

/// Whether none of the eight vertices from `at` on waits. Cost: one step.
fn are_at_rest(waiting: &[bool], at: usize) -> bool
    requires room { at + FLAGS ≤ length waiting.now }
    ensures { result ≡ true → (k : ℕ) → at ≤ k → k < at + FLAGS
        → waits_at waiting.now k ≡ false }
{
    let first = waiting[at];
    let second = waiting[at + 1];
    let third = waiting[at + 2];
    let fourth = waiting[at + 3];
    let fifth = waiting[at + 4];
    let sixth = waiting[at + 5];
    let seventh = waiting[at + 6];
    let eighth = waiting[at + 7];
    !first && !second && !third && !fourth && !fifth && !sixth && !seventh && !eighth
}

/// Takes from the domain of `r` what is not consistent with the vertex at its value. A vertex that is decided and does not wait has
/// taken its consequences, so that nothing is to be done there.
#[inline(always)]
fn settle_at<T: Trail, R: Recorder>(
    at: &RowsAt<'_>,
    d: &mut Domains<T>,
    waiting: &mut [bool],
    told: &mut R,
    r: u16,
) -> bool
    requires is_of { IsOf at.now.problem d.old }
    requires ready { ReadyBut at.now.problem d.old waiting.old at.now.vertex }
    requires vertex_in { at.now.vertex < size at.now.problem.pattern }
    requires value_in { at.now.value < size at.now.problem.target }
    requires r_in { r < size at.now.problem.pattern }
    requires single { Single (in_domain d.old) at.now.vertex at.now.value }
    requires bounded { length d.old.removed ≤ d.old.vertices * d.old.values }
    ensures sweeps { Sweeps result at.now.problem d.old waiting.old d.new waiting.new
        at.now.vertex at.now.value r }
    ensures told { TellsOn at.now.problem d.old (R.changes told.old) d.new (R.changes told.new) }
    ensures guesses { NoNewGuess (R.changes told.old) (R.changes told.new) }
{
    let p = at.vertex();
    if r == p {
        return true;
    }
    if !waiting[usize::from(r)] && d.size(r) == 1 {
        return true;
    }
    keep_consistent(at, d, waiting, told, r)
}

/// Takes from each other domain what is not consistent with `p` at `t`, up to the first domain that becomes empty, where this fails.
/// Cost: one step for each vertex that is not past, and a row for each that is asked more than a distinct image.
fn settle<T: Trail, R: Recorder>(
    rows: &PairSupports,
    d: &mut Domains<T>,
    waiting: &mut [bool],
    undecided: &SparseSet,
    told: &mut R,
    p: u16,
    t: u16,
) -> Result<(), Failure>
    requires is_of { IsOf rows.now.problem d.old }
    requires ready { ReadyBut rows.now.problem d.old waiting.old p }
    requires left { LeavesPast rows.now.problem d.old undecided.now }
    requires p_in { p < size rows.now.problem.pattern }
    requires t_in { t < size rows.now.problem.target }
    requires made { IsMade rows.now t }
    requires single { Single (in_domain d.old) p t }
    requires bounded { length d.old.removed ≤ d.old.vertices * d.old.values }
    ensures settles { Settles (is_ok result) rows.now.problem d.old waiting.old
        d.new waiting.new p t }
    ensures none { IfErr result (IsEmptied rows.now.problem d.new) }
    ensures told { TellsOn rows.now.problem d.old (R.changes told.old) d.new (R.changes told.new) }
    ensures guesses { NoNewGuess (R.changes told.old) (R.changes told.new) }
{
    let at = rows.at(p, t);
    let members = undecided.members();
    for k in 0..members.len() {
        if !settle_at(&at, d, waiting, told, members[k]) {
            return Err(Failure::Empty(members[k]));
        }
    }
    Ok(())
}

/// Looks at the nogoods that have `p` at `t`, if any are kept, and takes out what they force; fails where no embedding is left.
fn force<T: Trail, R: Recorder>(
    rows: &PairSupports,
    nogoods: &mut Option<Nogoods>,
    d: &mut Domains<T>,
    waiting: &mut [bool],
    told: &mut R,
    p: u16,
    t: u16,
) -> Result<(), Failure>
    requires kept { AreKept rows.now.problem nogoods.old }
    requires is_of { IsOf rows.now.problem d.old }
    requires long { length waiting.old ≡ size rows.now.problem.pattern }
    requires some { HaveValues rows.now.problem d.old }
    requires wait { IfSome nogoods.old (WatchesWaitBut d.old waiting.old p) }
    requires p_in { p < size rows.now.problem.pattern }
    requires single { Single (in_domain d.old) p t }
    requires bounded { length d.old.removed ≤ d.old.vertices * d.old.values }
    ensures kept { AreKept rows.now.problem nogoods.new }
    ensures forces { Forces (is_ok result) rows.now.problem d.old waiting.old d.new waiting.new }
    ensures fails { IfErr result (Fails rows.now.problem nogoods.new d.new (R.changes told.new)
        (R.short told.new)) }
    ensures wait { WaitAfter (is_ok result) d.new waiting.new nogoods.new }
    ensures moved { HaveMoved d.old nogoods.old nogoods.new }
    ensures told { Tells rows.now.problem nogoods.old d.old (R.changes told.old)
        → Tells rows.now.problem nogoods.new d.new (R.changes told.new) }
    ensures guesses { NoNewGuess (R.changes told.old) (R.changes told.new) }
{
    match nogoods {
        None => Ok(()),
        Some(table) => table.force(rows, d, waiting, told, p, t),
    }
}

/// Takes up a vertex that waits; where it is decided, it is past from then on.
fn visit<T: Trail, R: Recorder>(
    rows: &mut PairSupports,
    nogoods: &mut Option<Nogoods>,
    d: &mut Domains<T>,
    waiting: &mut [bool],
    undecided: &mut SparseSet,
    told: &mut R,
    p: u16,
) -> Result<(), Failure>
    requires is_of { IsOf rows.old.problem d.old }
    requires kept { AreKept rows.old.problem nogoods.old }
    requires ready { Ready rows.old.problem d.old waiting.old }
    requires left { LeavesPast rows.old.problem d.old undecided.old }
    requires first { First rows.old.problem (in_domain d.old) }
    requires wait { IfSome nogoods.old (WatchesWait d.old waiting.old) }
    requires p_in { p < size rows.old.problem.pattern }
    requires waits { waits_at waiting.old p ≡ true }
    ensures problem { rows.new.problem ≡ rows.old.problem }
    ensures kept { AreKept rows.old.problem nogoods.new }
    ensures wait { WaitAfter (is_ok result) d.new waiting.new nogoods.new }
    ensures moved { HaveMoved d.old nogoods.old nogoods.new }
    ensures visited { Visited (is_ok result) rows.old.problem d.old waiting.old d.new waiting.new }
    ensures fails { IfErr result (Fails rows.old.problem nogoods.new d.new (R.changes told.new)
        (R.short told.new)) }
    ensures told { Tells rows.old.problem nogoods.old d.old (R.changes told.old)
        → Tells rows.old.problem nogoods.new d.new (R.changes told.new) }
    ensures guesses { NoNewGuess (R.changes told.old) (R.changes told.new) }
    ensures left { LeavesPast rows.old.problem d.new undecided.new }
    ensures fewer { Fewer undecided.old undecided.new }
{
    waiting[usize::from(p)] = false;
    match d.only(p) {
        Some(t) => {
            let _removed = d.mark();
            rows.make(t);
            settle(rows, d, waiting, undecided, told, p, t)?;
            force(rows, nogoods, d, waiting, told, p, t)?;
            undecided.remove(p);
            Ok(())
        }
        None => {
            let _removed = d.mark();
            if d.size(p) == 0 {
                return Err(Failure::Empty(p));
            }
            Ok(())
        }
    }
}

/// Takes up all vertices that wait. Cost: for each vertex that is decided on the way, one row for each that is not, a look at the
/// nogoods that have its value, and the values that leave.
fn take_up<T: Trail, R: Recorder>(
    rows: &mut PairSupports,
    nogoods: &mut Option<Nogoods>,
    d: &mut Domains<T>,
    waiting: &mut [bool],
    undecided: &mut SparseSet,
    told: &mut R,
) -> Result<(), Failure>
    requires is_of { IsOf rows.old.problem d.old }
    requires kept { AreKept rows.old.problem nogoods.old }
    requires ready { Ready rows.old.problem d.old waiting.old }
    requires left { LeavesPast rows.old.problem d.old undecided.old }
    requires first { First rows.old.problem (in_domain d.old) }
    requires wait { IfSome nogoods.old (WatchesWait d.old waiting.old) }
    ensures problem { rows.new.problem ≡ rows.old.problem }
    ensures kept { AreKept rows.old.problem nogoods.new }
    ensures in_force { InForceAfter (is_ok result) d.new nogoods.new }
    ensures moved { HaveMoved d.old nogoods.old nogoods.new }
    ensures taken { TakenUp (is_ok result) rows.old.problem d.old d.new }
    ensures fails { IfErr result (Fails rows.old.problem nogoods.new d.new (R.changes told.new)
        (R.short told.new)) }
    ensures told { Tells rows.old.problem nogoods.old d.old (R.changes told.old)
        → Tells rows.old.problem nogoods.new d.new (R.changes told.new) }
    ensures guesses { NoNewGuess (R.changes told.old) (R.changes told.new) }
    ensures left { LeavesPast rows.old.problem d.new undecided.new }
    ensures fewer { Fewer undecided.old undecided.new }
{
    let _vertices = d.vertices();
    while let Some(p) = next_waiting(waiting) {
        visit(rows, nogoods, d, waiting, undecided, told, p as u16)?;
    }
    Ok(())
}

/// Takes all consequences, or finds why no embedding is within the domains; each vertex that is decided on the way is past
/// then. Cost: for each of these one row for each vertex that is not past, and the values that leave; once for each time that values leave by
/// counting or by edges, the cost of `filter_more`.
pub fn propagate<T: Trail, R: Recorder>(
    q: &Problem,
    filters: &mut Filters,
    d: &mut Domains<T>,
    waiting: &mut [bool],
    undecided: &mut SparseSet,
    told: &mut R,
) -> Result<(), Failure>
    requires problem { filters.old.problem ≡ q.now }
    requires is_of { IsOf q.now d.old }
    requires ready { Ready q.now d.old waiting.old }
    requires left { LeavesPast q.now d.old undecided.old }
    requires first { First q.now (in_domain d.old) }
    requires wait { IfSome filters.old.nogoods (WatchesWait d.old waiting.old) }
    ensures problem { filters.new.problem ≡ q.now }
    ensures propagated { Propagates (is_ok result) q.now d.old d.new }
    ensures fails { IfErr result (Fails q.now filters.new.nogoods d.new (R.changes told.new)
        (R.short told.new)) }
    ensures in_force { InForceAfter (is_ok result) d.new filters.new.nogoods }
    ensures moved { HaveMoved d.old filters.old.nogoods filters.new.nogoods }
    ensures told { Tells q.now filters.old.nogoods d.old (R.changes told.old)
        → Tells q.now filters.new.nogoods d.new (R.changes told.new) }
    ensures guesses { NoNewGuess (R.changes told.old) (R.changes told.new) }
    ensures left { LeavesPast q.now d.new undecided.new }
    ensures fewer { Fewer undecided.old undecided.new }
{
    loop {
        take_up(
            &mut filters.rows,
            &mut filters.nogoods,
            d,
            waiting,
            undecided,
            told,
        )?;
        let have_left = filter_more(
            d,
            waiting,
            undecided,
            &mut filters.counting,
            &mut filters.edges,
            told,
            q,
        )?;
        if !have_left {
            return Ok(());
        }
    }
}

/// Takes the nogoods of one pair out of domains at rest, and all consequences of them and of the other nogoods, for which each vertex
/// that is decided is looked at again; or finds why no embedding is within the domains. A run begins with it. Cost: that of `propagate`.
pub fn propagate_again<T: Trail, R: Recorder>(
    q: &Problem,
    filters: &mut Filters,
    d: &mut Domains<T>,
    waiting: &mut [bool],
    undecided: &mut SparseSet,
    told: &mut R,
) -> Result<(), Failure>
    requires problem { filters.old.problem ≡ q.now }
    requires is_of { IsOf q.now d.old }
    requires left { LeavesPast q.now d.old undecided.old }
    requires long { length waiting.old ≡ size q.now.pattern }
    requires quiet { Quiet q.now (in_domain d.old) }
    ensures problem { filters.new.problem ≡ q.now }
    ensures propagated { Propagates (is_ok result) q.now d.old d.new }
    ensures fails { IfErr result (Fails q.now filters.new.nogoods d.new (R.changes told.new)
        (R.short told.new)) }
    ensures acted { ActedAfter (is_ok result) d.new filters.new.nogoods }
    ensures moved { HaveMoved d.old filters.old.nogoods filters.new.nogoods }
    ensures told { Tells q.now filters.old.nogoods d.old (R.changes told.old)
        → Tells q.now filters.new.nogoods d.new (R.changes told.new) }
    ensures guesses { NoNewGuess (R.changes told.old) (R.changes told.new) }
    ensures left { LeavesPast q.now d.new undecided.new }
    ensures fewer { Fewer undecided.old undecided.new }
{
    filters.begin_run();
    raise_decided(d, waiting);
    let _removed = d.mark();
    filters.take_units(d, waiting, told)?;
    propagate(q, filters, d, waiting, undecided, told)
}
