//! Where values leave domains pair by pair, and a recorder is told why. What counting takes, `all_different` takes.
//!
//! Each function notes how many values are left: a vertex of one value waits from then on. What has left is told once for each call,
//! whatever left, and before anybody looks whether a domain is empty.

ghost use Rattle.std.specs.Prelude.{◌≡◌, ℕ, ◌*◌, ◌<◌, ◌≤◌, ◌==◌, ◌&&◌, ◌⊎◌, ◌↔◌, true, false, not, length, slice_index, Option, IfSome, IfErr};
ghost use Rattle.graph_theory.specs.Graph.{size};
ghost use Rattle.graph_theory.specs.Embedding.{Problem};
ghost use Rattle.graph_theory.specs.declared.embedding.Maps.TheVariants.{Injective};
ghost use Rattle.graph_rows.specs.Held.{stands_in};
ghost use Rattle.bit_rows.specs.BitRows.{has, words_for};
ghost use Rattle.domain_bits.specs.Changes as changes;
ghost use Rattle.domain_bits.specs.Changes.{Keeps};
ghost use Rattle.domain_bits.specs.Removals.{State, in_domain};
ghost use Rattle.search_theory.specs.Claims.{Single};
ghost use Rattle.search_theory.specs.Consistency.{AreConsistent};
ghost use Rattle.all_different.specs.Pruning.{DecidedApart};
ghost use Rattle.nogood_watch.specs.Nogoods as watched;
ghost use Rattle.recorder.specs.declared.change.Cause.TheVariants as cause;
ghost use Rattle.recorder.specs.Recording.{KeepsSame, KeepsUnited, LeftOne, LeftOver, MayTake, NoNewGuess, members_of};
ghost use Rattle.recorder.specs.Telling.{IsOf, HasFirst, IsCrowded, Leaves, RefusesBy, StandsBy, Tells, TellsOn, Fails};
ghost use Rattle.propagation.specs.Propagation.{AreBalanced, Counts, IsFor, waits_at, NotesSize, NotesTaken, Sweeps};
ghost use Rattle.propagation.specs.Taking.{AreFlagged, Meets};

use all_different::{Pruned, Scratch, prune_undecided};
use domain_bits::{Domains, Mark, Trail};
use graph_rows::Problem;
use graph_theory::direction::Direction;
use pair_supports::RowsAt;
use recorder::{Cause, Failure, Recorder};

/// Tells that values have left by the cause since the mark, if any have. Cost: one step, and that of `took`.
fn tell<T: Trail, R: Recorder>(d: &Domains<T>, told: &mut R, vertex: u16, cause: Cause, from: Mark)
    ensures told { (q : Problem) (s : Option watched.State) (old : State)
        → Leaves q s old d.now (LeftOne vertex cause from) → Tells q s old (R.changes told.old)
        → Tells q s d.now (R.changes told.new) }
    ensures took { MayTake (R.changes told.old) (R.changes told.new) (LeftOne vertex cause from) }
{
    if from.is_before(d.mark()) {
        told.took(vertex, cause, from);
    }
}

/// A value of a vertex, vertices to which edges lead from the vertex in the direction, and values to which edges lead from the value, both as rows.
#[derive(Drop)]
pub(crate) struct Crowd<'a> {
    /// The vertex.
    pub p: u16,
    /// The value that it has.
    pub t: u16,
    /// In which direction the edges lead.
    pub direction: Direction,
    /// The vertices to which they lead from `p`.
    pub vertices: &'a [u64],
    /// The values to which they lead from `t`: all that is left for these vertices.
    pub values: &'a [u64],
}

/// Tells that the value of a crowd has left since the mark, if it has. Cost: one step, and that of `crowded`.
fn tell_crowd<T: Trail, R: Recorder>(d: &Domains<T>, told: &mut R, crowd: &Crowd<'_>, from: Mark)
    requires vertices { length crowd.now.vertices.now ≤ 1024 }
    requires values { length crowd.now.values.now ≤ 1024 }
    ensures told { (q : Problem) (s : Option watched.State) (old : State)
        → Leaves q s old d.now (LeftOver crowd.now.p crowd.now.t crowd.now.direction
        (members_of crowd.now.vertices.now) (members_of crowd.now.values.now) from)
        → Tells q s old (R.changes told.old) → Tells q s d.now (R.changes told.new) }
    ensures took { MayTake (R.changes told.old) (R.changes told.new) (LeftOver crowd.now.p
        crowd.now.t crowd.now.direction (members_of crowd.now.vertices.now)
        (members_of crowd.now.values.now) from) }
{
    if from.is_before(d.mark()) {
        told.crowded(
            crowd.p,
            crowd.t,
            crowd.direction,
            crowd.vertices,
            crowd.values,
            from,
        );
    }
}

/// Keeps of the domain of `r` what the row has. Where one value is left, `r` waits; where none is, the answer is false.
/// Cost: the words of a row, and the values that leave.
#[inline(always)]
pub fn narrow<T: Trail>(d: &mut Domains<T>, waiting: &mut [bool], row: &[u64], r: u16) -> bool
    requires r_in { r < d.old.vertices }
    requires flags { r < length waiting.old }
    requires long { length row.now ≡ words_for d.old.values }
    ensures keeps { Keeps d.old d.new r (has row.now) }
    ensures notes { NotesSize result d.new waiting.old waiting.new r }
    ensures bounded { length d.new.removed ≤ d.new.vertices * d.new.values }
{
    d.intersect(r, row);
    let _removed = d.mark();
    note_size(d, waiting, r)
}

/// Notes how many values `r` has: with one only it waits, and with none the answer is false. Cost: one step.
fn note_size<T: Trail>(d: &Domains<T>, waiting: &mut [bool], r: u16) -> bool
    requires r_in { r < d.now.vertices }
    requires flags { r < length waiting.old }
    ensures { NotesSize result d.now waiting.old waiting.new r }
{
    let size = d.size(r);
    if size == 0 {
        return false;
    }
    if size == 1 {
        waiting[usize::from(r)] = true;
    }
    true
}

/// Takes `u` from the domain of `r`. Where one value is left, `r` waits; where none is, the answer is false. Cost: one step.
#[inline(always)]
fn take_value<T: Trail>(d: &mut Domains<T>, waiting: &mut [bool], r: u16, u: u16) -> bool
    requires r_in { r < d.old.vertices }
    requires u_in { u < d.old.values }
    requires flags { r < length waiting.old }
    requires bounded { length d.old.removed ≤ d.old.vertices * d.old.values }
    ensures keeps { Keeps d.old d.new r (λ v. not (v == u)) }
    ensures taken { NotesTaken result d.old waiting.old d.new waiting.new r u }
    ensures bounded { length d.new.removed ≤ d.new.vertices * d.new.values }
{
    if !d.remove(r, u) {
        return true;
    }
    let _removed = d.mark();
    note_size(d, waiting, r)
}

/// Takes `t` and the values of a list from the domain of `r`. Cost: one step for each of them.
fn take_values<T: Trail>(d: &mut Domains<T>, r: u16, t: u16, near: &[u16])
    requires r_in { r < d.old.vertices }
    requires t_in { t < d.old.values }
    requires near_in { (u : ℕ) → stands_in near.now u ≡ true → u < d.old.values }
    ensures { Keeps d.old d.new r (λ v. not (v == t) && not (stands_in near.now v)) }
{
    let _was_there = d.remove(r, t);
    for u in near {
        let _was_near = d.remove(r, *u);
    }
}

/// Takes `t` and the values of a list from the domain of `r`. Where one value is left, `r` waits; where none is, the answer is
/// false. Cost: one step for each of them.
#[inline(never)]
fn take_near<T: Trail>(
    d: &mut Domains<T>,
    waiting: &mut [bool],
    r: u16,
    t: u16,
    near: &[u16],
) -> bool
    requires r_in { r < d.old.vertices }
    requires t_in { t < d.old.values }
    requires near_in { (u : ℕ) → stands_in near.now u ≡ true → u < d.old.values }
    requires flags { r < length waiting.old }
    ensures keeps { Keeps d.old d.new r (λ v. not (v == t) && not (stands_in near.now v)) }
    ensures notes { NotesSize result d.new waiting.old waiting.new r }
    ensures bounded { length d.new.removed ≤ d.new.vertices * d.new.values }
{
    take_values(d, r, t, near);
    let _removed = d.mark();
    note_size(d, waiting, r)
}

/// Takes from the domain of `r` what is not consistent with the vertex at its value: where `r` is asked no edge besides another image and the
/// value has few neighbours, the value and these, and no row is read. Cost: a few steps there, with one for each of these neighbours, and
/// else a row and the values that leave.
#[inline(always)]
fn take_inconsistent<T: Trail>(
    at: &RowsAt<'_>,
    d: &mut Domains<T>,
    waiting: &mut [bool],
    r: u16,
) -> bool
    requires flagged { AreFlagged at.now.problem d.old waiting.old }
    requires meets { Meets at.now.problem d.old waiting.old at.now.vertex at.now.value r }
    ensures { Sweeps result at.now.problem d.old waiting.old d.new waiting.new
        at.now.vertex at.now.value r }
{
    match at.near_alone(r) {
        Some(near) => take_near(d, waiting, r, at.value(), near),
        None => narrow(d, waiting, at.row(r), r),
    }
}

/// Takes from the domain of `r` what is not consistent with the vertex at its value, and tells it. Where `r` is asked nothing but another
/// image, as nearly all pairs of a sparse pattern are, this is the value alone, and no row is read; where it is not asked even that, nothing leaves.
/// Cost: that of the removal.
#[inline(always)]
pub(crate) fn keep_consistent<T: Trail, R: Recorder>(
    at: &RowsAt<'_>,
    d: &mut Domains<T>,
    waiting: &mut [bool],
    told: &mut R,
    r: u16,
) -> bool
    requires flagged { AreFlagged at.now.problem d.old waiting.old }
    requires meets { Meets at.now.problem d.old waiting.old at.now.vertex at.now.value r }
    ensures sweeps { Sweeps result at.now.problem d.old waiting.old d.new waiting.new
        at.now.vertex at.now.value r }
    ensures told { TellsOn at.now.problem d.old (R.changes told.old) d.new (R.changes told.new) }
    ensures guesses { NoNewGuess (R.changes told.old) (R.changes told.new) }
{
    let from = d.mark();
    let t = at.value();
    let cause = Cause::Vertex(at.vertex(), t);
    if at.is_free(r) {
        if !at.is_apart(r) {
            let _removed = d.mark();
            return true;
        }
        let some = take_value(d, waiting, r, t);
        tell(d, told, r, cause, from);
        return some;
    }
    let some = take_inconsistent(at, d, waiting, r);
    tell(d, told, r, cause, from);
    some
}

/// Takes `u` from the domain of `r` by this cause, which refuses it, and tells it. Where one value is left, `r` waits; where none is, the answer is false.
/// Cost: one step.
pub(crate) fn take_by<T: Trail, R: Recorder>(
    d: &mut Domains<T>,
    waiting: &mut [bool],
    told: &mut R,
    r: u16,
    u: u16,
    cause: Cause,
) -> bool
    requires r_in { r < d.old.vertices }
    requires u_in { u < d.old.values }
    requires flags { r < length waiting.old }
    requires bounded { length d.old.removed ≤ d.old.vertices * d.old.values }
    ensures keeps { Keeps d.old d.new r (λ v. not (v == u)) }
    ensures taken { NotesTaken result d.old waiting.old d.new waiting.new r u }
    ensures bounded { length d.new.removed ≤ d.new.vertices * d.new.values }
    ensures told { (q : Problem) (s : Option watched.State) → StandsBy cause q d.old r
        → RefusesBy cause q s d.old r u
        → Tells q s d.old (R.changes told.old) → Tells q s d.new (R.changes told.new) }
    ensures took { MayTake (R.changes told.old) (R.changes told.new)
        (LeftOne r cause (length d.old.removed)) }
{
    let from = d.mark();
    let some = take_value(d, waiting, r, u);
    tell(d, told, r, cause, from);
    some
}

/// Takes the value of a crowd from the domain of its vertex: the vertices would not all have a value beside it. It is told. Where one value is left, the
/// vertex waits; where none is, the answer is false. Cost: one step, and that of `crowded`.
pub(crate) fn take_crowded<T: Trail, R: Recorder>(
    d: &mut Domains<T>,
    waiting: &mut [bool],
    told: &mut R,
    crowd: &Crowd<'_>,
) -> bool
    requires p_in { crowd.now.p < d.old.vertices }
    requires t_in { crowd.now.t < d.old.values }
    requires flags { crowd.now.p < length waiting.old }
    requires bounded { length d.old.removed ≤ d.old.vertices * d.old.values }
    requires vertices { length crowd.now.vertices.now ≤ 1024 }
    requires values { length crowd.now.values.now ≤ 1024 }
    ensures keeps { Keeps d.old d.new crowd.now.p (λ v. not (v == crowd.now.t)) }
    ensures taken { NotesTaken result d.old waiting.old d.new waiting.new crowd.now.p crowd.now.t }
    ensures bounded { length d.new.removed ≤ d.new.vertices * d.new.values }
    ensures told { (q : Problem) (s : Option watched.State)
        → IsCrowded q d.old crowd.now.direction crowd.now.p crowd.now.t
        (members_of crowd.now.vertices.now) (members_of crowd.now.values.now)
        → Tells q s d.old (R.changes told.old) → Tells q s d.new (R.changes told.new) }
    ensures guesses { NoNewGuess (R.changes told.old) (R.changes told.new) }
{
    let from = d.mark();
    let some = take_value(d, waiting, crowd.p, crowd.t);
    tell_crowd(d, told, crowd, from);
    some
}

/// Leaves `p` its first domain, which is the row, and tells it. Where one value is left, `p` waits; where none is, the answer is false.
/// Cost: the words of a row, and the values that leave.
pub fn narrow_first<T: Trail, R: Recorder>(
    d: &mut Domains<T>,
    waiting: &mut [bool],
    told: &mut R,
    row: &[u64],
    p: u16,
) -> bool
    requires p_in { p < d.old.vertices }
    requires flags { p < length waiting.old }
    requires long { length row.now ≡ words_for d.old.values }
    ensures keeps { Keeps d.old d.new p (has row.now) }
    ensures notes { NotesSize result d.new waiting.old waiting.new p }
    ensures bounded { length d.new.removed ≤ d.new.vertices * d.new.values }
    ensures told { (q : Problem) (s : Option watched.State) → IsOf q d.old → HasFirst q p row.now
        → Tells q s d.old (R.changes told.old) → Tells q s d.new (R.changes told.new) }
    ensures guesses { NoNewGuess (R.changes told.old) (R.changes told.new) }
{
    let from = d.mark();
    let some = narrow(d, waiting, row, p);
    tell(d, told, p, Cause::First, from);
    some
}

/// Gives `p` the value `t`, and tells it. Cost: the words of a row, and the values that leave.
pub fn give<T: Trail, R: Recorder>(d: &mut Domains<T>, told: &mut R, p: u16, t: u16)
    requires p_in { p < d.old.vertices }
    requires t_in { in_domain d.old p t ≡ true }
    ensures keeps { Keeps d.old d.new p (λ u. u == t) }
    ensures single { changes.Single d.new p t }
    ensures told { (q : Problem) (s : Option watched.State) → IsOf q d.old
        → Tells q s d.old (R.changes told.old) → Tells q s d.new (R.changes told.new) }
    ensures guesses { MayTake (R.changes told.old) (R.changes told.new)
        (LeftOne p (cause.Guess t) (length d.old.removed)) }
{
    let from = d.mark();
    d.assign(p, t);
    tell(d, told, p, Cause::Guess(t), from);
}

/// Tells the set of the block of a centre, or of all vertices, that was found to have too few values. Its values are united for who listens alone. Cost: one step, and where somebody
/// listens those of `Scratch::unite` and `found_short`.
pub(crate) fn tell_short<T: Trail, R: Recorder>(
    d: &Domains<T>,
    scratch: &mut Scratch,
    told: &mut R,
    centre: Option<u16>,
)
    requires vertices { scratch.old.vertices ≡ d.now.vertices }
    requires values { scratch.old.values ≡ d.now.values }
    requires inside { (k : ℕ) → k < length scratch.old.set
        → slice_index scratch.old.set k < d.now.vertices }
    ensures kept { KeepsUnited (R.changes told.new) (R.short told.new) d.now centre
        scratch.old.set }
    ensures same { KeepsSame (R.changes told.old) (R.changes told.new) }
    ensures set { scratch.new.set ≡ scratch.old.set }
    ensures same_vertices { scratch.new.vertices ≡ scratch.old.vertices }
    ensures same_values { scratch.new.values ≡ scratch.old.values }
{
    if !told.listens() {
        return;
    }
    scratch.unite(d);
    told.found_short(centre, scratch.set(), scratch.values());
}

/// Counts the values of the first of all domains together, where any two images have to differ and each value that is all of a domain has left the others, and tells what leaves:
/// whether any has, or that some domains have fewer values than there are of them. Cost: that of `prune_undecided`.
pub(crate) fn prune<T: Trail, R: Recorder>(
    q: &Problem,
    d: &mut Domains<T>,
    scratch: &mut Scratch,
    told: &mut R,
) -> Result<bool, Failure>
    requires is_of { IsOf q.now d.old }
    requires is_for { IsFor q.now scratch.old }
    requires injective { q.now.maps ≡ Injective }
    requires apart { DecidedApart d.old }
    ensures counts { Counts (AreBalanced q.now) result q.now d.old d.new }
    ensures fails { (s : Option watched.State)
        → IfErr result (Fails q.now s d.new (R.changes told.new) (R.short told.new)) }
    ensures told { TellsOn q.now d.old (R.changes told.old) d.new (R.changes told.new) }
    ensures guesses { NoNewGuess (R.changes told.old) (R.changes told.new) }
    ensures is_for { IsFor q.now scratch.new }
{
    let _vertices = d.vertices();
    let from = d.mark();
    match prune_undecided(d, scratch) {
        Pruned::Quiet => Ok(false),
        Pruned::Hall => {
            told.counted(None, scratch.set(), scratch.values(), from);
            Ok(true)
        }
        Pruned::Fail => {
            tell_short(d, scratch, told, None);
            Err(Failure::Short(scratch.set().len() as u16))
        }
    }
}
