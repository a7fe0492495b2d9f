//! One step back from a change: whether it may have taken a needed value, which ones, and what it rests on.

ghost use Rattle.std.specs.Prelude.{◌≡◌, ℕ, ◌<◌, true, false, List, length, OnOk, IfOk};
ghost use Rattle.graph_theory.specs.Graph.{size};
ghost use Rattle.bit_rows.specs.BitRows.{has, words_for};
ghost use Rattle.nogood_book.specs.declared.row.Row.{Row as TheRow};
ghost use Rattle.nogood_book.specs.Rows.{Sound};
ghost use Rattle.recorder.specs.declared.change.Cause.TheVariants as cause;
ghost use Rattle.recorder.specs.Recording.{LeftOne, LeftOver, change_of};
ghost use Rattle.recorder.specs.Telling.{Joins};
ghost use Rattle.encoding_theory.specs.Pairs.{is_compatible};
ghost use Rattle.needed_values.specs.Needed.{needs, AreRows, StaysNeeded};
ghost use Rattle.needed_values.specs.Consistent.{Goes, AllConsistent};
ghost use Rattle.dead_theory.specs.Changes.{IsInProblem, IsEndOf};
ghost use Rattle.dead_paths.specs.Choosing.{values_of, AreAt, IsStep, IsMade, AreLeftBut};
ghost use Rattle.dead_paths.specs.Rooms.{IsFit};
ghost use Rattle.dead_paths.specs.declared.takes.Choice.TheVariants.{Passed, AsTold, ByEdges};

use crate::beside::{Beside, BlockSet, Crowd};
use crate::lookups::{is_nogood_row, part};
use crate::needs::{
    WalkBack, count_values, end_beside_of, fill_beside, fill_on_side, need_each, uphold, uphold_row,
};
use crate::room::Room;
use crate::sets::by_set;
use bit_rows::{has_bit, set_bit, unset_bit};
use graph_rows::Problem;
use graph_theory::direction::Direction;
use needed_values::{
    are_all_consistent, copy_needed, is_any_needed, is_needed, keep_consistent, need_set,
    needed_row, part_compatible, put_needed, unmark,
};
use recorder::{Cause, Entry, Side, What};
use smallvec::SmallVec;
use std::alloc::AllocError;

/// What comes of a step back from a change.
#[derive(Clone, Copy, PartialEq, Eq)]
pub(crate) enum Choice {
    /// It took no needed value.
    Passed,
    /// It is chosen as it was told.
    AsTold,
    /// It is chosen, and of what a vertex at its value takes only what edges refuse is asked.
    ByEdges,
}

/// As it was told, if it is chosen.
fn told_if(chosen: bool) -> Choice
    ensures yes { chosen ≡ true → result ≡ AsTold }
    ensures no { chosen ≡ false → result ≡ Passed }
{
    if chosen {
        Choice::AsTold
    } else {
        Choice::Passed
    }
}

/// A guess that took a needed value takes all of them.
fn by_guess(q: &Problem, r: u16, t: u16, marked: &mut [bool], needed: &[u64]) -> bool
    requires held { AreRows (size q.now.target) marked.old needed.now }
    requires r_in { r < length marked.old }
    ensures { (rows : List TheRow) (path : List (ℕ × ℕ)) (from : ℕ)
        → IsStep result q.now rows path (LeftOne r (cause.Guess t) from)
        (values_of (size q.now.target) marked.old needed.now)
        (values_of (size q.now.target) marked.new needed.now) }
{
    let values = count_values(q);
    if !is_any_needed(marked, needed, values, r) {
        return false;
    }
    unmark(marked, needed, values, r);
    true
}

/// Of the needed values edges leave only such as are consistent: what they refuse is needed no more, and that the first vertex is at its value
/// is. The one row has the needed values of the other vertex, the other those of them that edges leave.
fn take_by_edges(
    walk: &WalkBack<'_>,
    beside: Beside,
    marked: &mut [bool],
    needed: &mut [u64],
    left: &[u64],
    other: &mut [u64],
)
    requires held { AreRows (size walk.now.q.now.target) marked.old needed.old }
    requires size { length marked.old ≡ size walk.now.q.now.pattern }
    requires p_in { beside.p < size walk.now.q.now.pattern }
    requires t_in { beside.t < size walk.now.q.now.target }
    requires r_in { beside.r < size walk.now.q.now.pattern }
    requires apart { beside.p ≡ beside.r → ⊥ }
    requires left { length left.now ≡ words_for (size walk.now.q.now.target) }
    requires other { length other.old ≡ words_for (size walk.now.q.now.target) }
    requires bits { (u : ℕ) → u < size walk.now.q.now.target → has other.old u
        ≡ needs (size walk.now.q.now.target) marked.old needed.old beside.r u }
    requires goes { Goes walk.now.q.now beside.p beside.t beside.r other.old left.now }
    requires all { AllConsistent true walk.now.q.now beside.p beside.t beside.r left.now }
    ensures { (path : List (ℕ × ℕ)) (from : ℕ) → AreAt walk.now.at.now path
        → IsMade ByEdges walk.now.q.now walk.now.rows.now path
        (LeftOne beside.r (cause.Vertex beside.p beside.t) from)
        (values_of (size walk.now.q.now.target) marked.old needed.old)
        (values_of (size walk.now.q.now.target) marked.new needed.new) }
{
    put_needed(marked, needed, count_values(walk.q), beside.r, left);
    uphold(walk, None, (beside.p, beside.t), marked, needed, other);
}

/// The same where more than edges is asked: what is not consistent is needed no more, as far as that is quickly told.
fn take_all(
    walk: &WalkBack<'_>,
    beside: Beside,
    marked: &mut [bool],
    needed: &mut [u64],
    left: &mut [u64],
    other: &mut [u64],
    counts: &mut [u16],
) -> Result<(), AllocError>
    requires held { AreRows (size walk.now.q.now.target) marked.old needed.old }
    requires size { length marked.old ≡ size walk.now.q.now.pattern }
    requires p_in { beside.p < size walk.now.q.now.pattern }
    requires t_in { beside.t < size walk.now.q.now.target }
    requires r_in { beside.r < size walk.now.q.now.pattern }
    requires apart { beside.p ≡ beside.r → ⊥ }
    requires left { length left.old ≡ words_for (size walk.now.q.now.target) }
    requires within { (u : ℕ) → has left.old u ≡ true → u < size walk.now.q.now.target }
    requires other { length other.old ≡ words_for (size walk.now.q.now.target) }
    requires counts { length counts.old ≡ size walk.now.q.now.target }
    requires bits { (u : ℕ) → u < size walk.now.q.now.target → has other.old u
        ≡ needs (size walk.now.q.now.target) marked.old needed.old beside.r u }
    requires goes { Goes walk.now.q.now beside.p beside.t beside.r other.old left.old }
    ensures { (path : List (ℕ × ℕ)) (from : ℕ) → AreAt walk.now.at.now path
        → OnOk result (IsMade AsTold walk.now.q.now walk.now.rows.now path
        (LeftOne beside.r (cause.Vertex beside.p beside.t) from)
        (values_of (size walk.now.q.now.target) marked.old needed.old)
        (values_of (size walk.now.q.now.target) marked.new needed.new)) }
{
    let _all = keep_consistent(
        walk.alloc, walk.q, beside.p, beside.t, beside.r, left, counts,
    )?;
    put_needed(marked, needed, count_values(walk.q), beside.r, left);
    uphold(walk, None, (beside.p, beside.t), marked, needed, other);
    Ok(())
}

/// A vertex at its value takes from another what is not consistent with this. Where each needed value that edges do not refuse is consistent,
/// edges alone are asked.
fn by_vertex(
    walk: &WalkBack<'_>,
    beside: Beside,
    marked: &mut [bool],
    needed: &mut [u64],
    spare: &mut [u64],
    other: &mut [u64],
    counts: &mut [u16],
) -> Result<Choice, AllocError>
    requires sharers { walk.now.sharers.now ≡ walk.now.q.now }
    requires held { AreRows (size walk.now.q.now.target) marked.old needed.old }
    requires size { length marked.old ≡ size walk.now.q.now.pattern }
    requires p_in { beside.p < size walk.now.q.now.pattern }
    requires t_in { beside.t < size walk.now.q.now.target }
    requires r_in { beside.r < size walk.now.q.now.pattern }
    requires apart { beside.p ≡ beside.r → ⊥ }
    requires spare { length spare.old ≡ words_for (size walk.now.q.now.target) }
    requires other { length other.old ≡ words_for (size walk.now.q.now.target) }
    requires counts { length counts.old ≡ size walk.now.q.now.target }
    ensures { (path : List (ℕ × ℕ)) (from : ℕ) → AreAt walk.now.at.now path
        → IfOk result (λ b. IsMade b walk.now.q.now walk.now.rows.now path
        (LeftOne beside.r (cause.Vertex beside.p beside.t) from)
        (values_of (size walk.now.q.now.target) marked.old needed.old)
        (values_of (size walk.now.q.now.target) marked.new needed.new)) }
{
    let row = match needed_row(marked, needed, count_values(walk.q), beside.r) {
        None => return Ok(Choice::Passed),
        Some(row) => row,
    };
    let same = part_compatible(walk.q, beside.p, beside.t, beside.r, row, other, spare);
    let all = are_all_consistent(
        walk.alloc,
        walk.sharers,
        beside.p,
        beside.t,
        beside.r,
        spare,
    )?;
    if all && same {
        return Ok(Choice::Passed);
    }
    if all {
        take_by_edges(walk, beside, marked, needed, spare, other);
        return Ok(Choice::ByEdges);
    }
    take_all(walk, beside, marked, needed, spare, other, counts)?;
    Ok(Choice::AsTold)
}

/// A nogood takes the value of its pair.
fn by_nogood(
    walk: &WalkBack<'_>,
    name: u32,
    r: u16,
    marked: &mut [bool],
    needed: &mut [u64],
    spare: &mut [u64],
    pairs: &mut SmallVec<(u16, u16), 8>,
) -> Result<bool, AllocError>
    requires sound { Sound walk.now.q.now walk.now.rows.now }
    requires held { AreRows (size walk.now.q.now.target) marked.old needed.old }
    requires size { length marked.old ≡ size walk.now.q.now.pattern }
    requires r_in { r < size walk.now.q.now.pattern }
    requires spare { length spare.old ≡ words_for (size walk.now.q.now.target) }
    ensures { (path : List (ℕ × ℕ)) (from : ℕ) → AreAt walk.now.at.now path
        → IfOk result (λ b. IsStep b walk.now.q.now walk.now.rows.now path
        (LeftOne r (cause.Nogood name) from)
        (values_of (size walk.now.q.now.target) marked.old needed.old)
        (values_of (size walk.now.q.now.target) marked.new needed.new)) }
{
    let values = count_values(walk.q);
    if !is_any_needed(marked, needed, values, r) {
        return Ok(false);
    }
    if !is_nogood_row(walk.rows, name) {
        return Ok(false);
    }
    uphold_row(walk, name, Some(r), marked, needed, spare, pairs)?;
    Ok(true)
}

/// Whether a vertex needs a value; if it does, it needs that no more.
fn take_value(
    q: &Problem,
    x: (u16, u16),
    marked: &mut [bool],
    needed: &mut [u64],
    other: &mut [u64],
) -> bool
    requires held { AreRows (size q.now.target) marked.old needed.old }
    requires vertex { x.0 < length marked.old }
    requires value { x.1 < size q.now.target }
    requires other { length other.old ≡ words_for (size q.now.target) }
    ensures none { result ≡ false
        → needs (size q.now.target) marked.old needed.old x.0 x.1 ≡ false }
    ensures stays { result ≡ false → StaysNeeded (size q.now.target)
        (needs (size q.now.target) marked.old needed.old)
        (needs (size q.now.target) marked.new needed.new) }
    ensures left { AreLeftBut (size q.now.target) x.0 x.1
        (needs (size q.now.target) marked.old needed.old)
        (needs (size q.now.target) marked.new needed.new) }
{
    let values = count_values(q);
    if !is_needed(marked, needed, values, x.0, x.1) {
        return false;
    }
    copy_needed(marked, needed, values, x.0, other);
    unset_bit(other, usize::from(x.1));
    put_needed(marked, needed, values, x.0, other);
    true
}

/// A value of `r` to which no value of `p` has an edge as that from `p` to `r`, which leads in this direction.
#[derive(Clone, Copy)]
struct Lost {
    p: u16,
    r: u16,
    u: u16,
    direction: Direction,
}

/// Writes the values of `p` beside which the line of this pair lets `r` go to `u`. Where labels of edges are kept these are all that go together with
/// it, and `u` itself if it has a loop, which local maps may leave out of these and the line does not; else all from which an edge leads to it.
fn fill_support(q: &Problem, lost: Lost, set: &mut [u64], spare: &mut [u64])
    requires joins { Joins q.now lost.direction lost.p lost.r }
    requires u_in { lost.u < size q.now.target }
    requires set { length set.old ≡ words_for (size q.now.target) }
    requires spare { length spare.old ≡ words_for (size q.now.target) }
    ensures { (w : ℕ) → w < size q.now.target
        → is_compatible q.now lost.r lost.u lost.p w ≡ true → has set.new w ≡ true }
{
    let support = q.target().in_row_by(lost.direction, lost.u);
    if !q.pattern().keeps_edge_labels() {
        set.copy_from_slice(support);
        return;
    }
    part_compatible(q, lost.r, lost.u, lost.p, support, spare, set);
    if has_bit(support, usize::from(lost.u)) {
        set_bit(set, usize::from(lost.u));
    }
}

/// An edge takes one value, since all that may stand beside it are gone: these are needed where it is.
fn by_edge(
    q: &Problem,
    lost: Lost,
    marked: &mut [bool],
    needed: &mut [u64],
    set: &mut [u64],
    spare: &mut [u64],
    other: &mut [u64],
) -> bool
    requires held { AreRows (size q.now.target) marked.old needed.old }
    requires size { length marked.old ≡ size q.now.pattern }
    requires joins { Joins q.now lost.direction lost.p lost.r }
    requires u_in { lost.u < size q.now.target }
    requires set { length set.old ≡ words_for (size q.now.target) }
    requires spare { length spare.old ≡ words_for (size q.now.target) }
    requires other { length other.old ≡ words_for (size q.now.target) }
    ensures { (rows : List TheRow) (path : List (ℕ × ℕ)) (from : ℕ)
        → IsStep result q.now rows path
        (LeftOne lost.r (cause.Edge lost.p lost.u lost.direction) from)
        (values_of (size q.now.target) marked.old needed.old)
        (values_of (size q.now.target) marked.new needed.new) }
{
    if !take_value(q, (lost.r, lost.u), marked, needed, other) {
        return false;
    }
    fill_support(q, lost, set, spare);
    need_set(marked, needed, count_values(q), lost.p, set, spare);
    true
}

/// A value of the vertex at this end of pair `k`, beside which the other vertex has none on its side.
#[derive(Clone, Copy)]
struct OutOfOrder {
    k: u16,
    r: u16,
    u: u16,
    side: Side,
}

/// A pair that is to be in order takes one value, since all on its side are gone for the other vertex: these are needed where it is.
fn by_order(
    q: &Problem,
    lost: OutOfOrder,
    marked: &mut [bool],
    needed: &mut [u64],
    set: &mut [u64],
    spare: &mut [u64],
    other: &mut [u64],
) -> bool
    requires held { AreRows (size q.now.target) marked.old needed.old }
    requires size { length marked.old ≡ size q.now.pattern }
    requires end { IsEndOf q.now lost.k lost.side lost.r }
    requires u_in { lost.u < size q.now.target }
    requires set { length set.old ≡ words_for (size q.now.target) }
    requires spare { length spare.old ≡ words_for (size q.now.target) }
    requires other { length other.old ≡ words_for (size q.now.target) }
    ensures { (rows : List TheRow) (path : List (ℕ × ℕ)) (from : ℕ)
        → IsStep result q.now rows path
        (LeftOne lost.r (cause.Order lost.k lost.u lost.side) from)
        (values_of (size q.now.target) marked.old needed.old)
        (values_of (size q.now.target) marked.new needed.new) }
{
    if !take_value(q, (lost.r, lost.u), marked, needed, other) {
        return false;
    }
    fill_on_side(q, lost.side, lost.u, set, spare);
    let beside = end_beside_of(q, lost.k, lost.side);
    need_set(marked, needed, count_values(q), beside, set, spare);
    true
}

/// A crowd takes the value of its vertex: where that is needed, so are the other values of the crowd's vertices to which an edge leads from it.
fn by_crowd(
    q: &Problem,
    crowd: &Crowd<'_>,
    marked: &mut [bool],
    needed: &mut [u64],
    set: &mut [u64],
    spare: &mut [u64],
    other: &mut [u64],
) -> bool
    requires held { AreRows (size q.now.target) marked.old needed.old }
    requires size { length marked.old ≡ size q.now.pattern }
    requires in_problem { IsInProblem q.now (LeftOver crowd.now.p crowd.now.t
        crowd.now.direction crowd.now.vertices.now crowd.now.values.now 0) }
    requires set { length set.old ≡ words_for (size q.now.target) }
    requires spare { length spare.old ≡ words_for (size q.now.target) }
    requires other { length other.old ≡ words_for (size q.now.target) }
    ensures { (rows : List TheRow) (path : List (ℕ × ℕ)) (from : ℕ)
        → IsStep result q.now rows path
        (LeftOver crowd.now.p crowd.now.t crowd.now.direction crowd.now.vertices.now
        crowd.now.values.now from)
        (values_of (size q.now.target) marked.old needed.old)
        (values_of (size q.now.target) marked.new needed.new) }
{
    if !take_value(q, (crowd.p, crowd.t), marked, needed, other) {
        return false;
    }
    fill_beside(q, crowd.t, crowd.direction, crowd.values, set);
    need_each(q, crowd.vertices, set, marked, needed, spare);
    true
}

/// One step back from a change. It is chosen where it may have taken a needed value; then what it takes by itself is needed no more, and what
/// it rests on is. Cost: for a change of one vertex a few steps for each word of a row, and what `are_all_consistent` and `keep_consistent`
/// cost; for a value taken by an edge or a crowd one step where it is not needed; for a set the words of each marked vertex's row, with a look
/// for the vertex among the set's.
pub(crate) fn go_back(
    walk: &WalkBack<'_>,
    entry: &Entry,
    marked: &mut [bool],
    needed: &mut [u64],
    room: &mut Room,
) -> Result<Choice, AllocError>
    requires sound { Sound walk.now.q.now walk.now.rows.now }
    requires sharers { walk.now.sharers.now ≡ walk.now.q.now }
    requires in_problem { IsInProblem walk.now.q.now (change_of walk.now.numbers.now entry.now) }
    requires held { AreRows (size walk.now.q.now.target) marked.old needed.old }
    requires size { length marked.old ≡ size walk.now.q.now.pattern }
    requires fit { IsFit (size walk.now.q.now.target) room.old }
    ensures step { (path : List (ℕ × ℕ)) → AreAt walk.now.at.now path
        → IfOk result (λ b. IsMade b walk.now.q.now walk.now.rows.now path
        (change_of walk.now.numbers.now entry.now)
        (values_of (size walk.now.q.now.target) marked.old needed.old)
        (values_of (size walk.now.q.now.target) marked.new needed.new)) }
    ensures fit { OnOk result (IsFit (size walk.now.q.now.target) room.new) }
{
    let values = count_values(walk.q);
    match entry.what {
        What::One(r, cause) => match cause {
            Cause::First => Ok(told_if(is_any_needed(marked, needed, values, r))),
            Cause::Guess(t) => Ok(told_if(by_guess(walk.q, r, t, marked, needed))),
            Cause::Vertex(p, t) => by_vertex(
                walk,
                Beside { p, t, r },
                marked,
                needed,
                &mut room.spare,
                &mut room.other,
                &mut room.counts,
            ),
            Cause::Nogood(name) => {
                let chosen = by_nogood(
                    walk,
                    name,
                    r,
                    marked,
                    needed,
                    &mut room.spare,
                    &mut room.pairs,
                )?;
                Ok(told_if(chosen))
            }
            Cause::Edge(p, u, direction) => Ok(told_if(by_edge(
                walk.q,
                Lost { p, r, u, direction },
                marked,
                needed,
                &mut room.set,
                &mut room.spare,
                &mut room.other,
            ))),
            Cause::Order(k, u, side) => Ok(told_if(by_order(
                walk.q,
                OutOfOrder { k, r, u, side },
                marked,
                needed,
                &mut room.set,
                &mut room.spare,
                &mut room.other,
            ))),
        },
        What::Others(centre, place) => Ok(told_if(by_set(
            walk.q,
            &BlockSet {
                centre,
                vertices: part(walk.numbers, place.start, place.middle),
                values: part(walk.numbers, place.middle, place.end),
            },
            marked,
            needed,
            &mut room.set,
            &mut room.spare,
            &mut room.other,
        ))),
        What::Over(p, t, direction, place) => Ok(told_if(by_crowd(
            walk.q,
            &Crowd {
                p,
                t,
                direction,
                vertices: part(walk.numbers, place.start, place.middle),
                values: part(walk.numbers, place.middle, place.end),
            },
            marked,
            needed,
            &mut room.set,
            &mut room.spare,
            &mut room.other,
        ))),
    }
}
