//! The line of a dead path.

ghost use Rattle.std.specs.Prelude.{◌≡◌, ℕ, ◌^◌, ◌≤◌, ◌<◌, [], List, length, map, OnOk, IfOk, IfSome};
ghost use Rattle.graph_theory.specs.Graph.{size};
ghost use Rattle.log_theory.specs.LogText.{IsName, AreRefs, AreLiterals};
ghost use Rattle.explanation_theory.specs.Reasons.{not_there};
ghost use Rattle.nogood_book.specs.Rows.{Sound, AreInRange};
ghost use Rattle.recorder.specs.Recording.{changes_of, set_at};
ghost use Rattle.needed_values.specs.Needed.{AreRows};
ghost use Rattle.dead_theory.specs.Changes.{known_after, AreGuessed, AreInProblem};
ghost use Rattle.dead_theory.specs.Ends.{EndNeeds};
ghost use Rattle.dead_theory.specs.Laws.{Dies};
ghost use Rattle.journals.specs.Keeping.{KeepsRest};
ghost use Rattle.log_growth.specs.Frames.{Frame, IsFrameOf, Goes};
ghost use Rattle.dead_paths.specs.Rooms.{IsFit};
ghost use Rattle.dead_paths.specs.Making.{AreRowsNamed};
ghost use Rattle.dead_paths.specs.Choosing.{values_of, AreAt, chosen_in, AreNameable};
ghost use Rattle.dead_paths.specs.Explaining.{IsLimited, Knowing, AreChangesPushed, IsEndPushed, end_by, IsEndIn, IsChosenFor, IsBegun, AreGathered, IsDeadName, IsLastOf};

use crate::beside::BlockSet;
use crate::known::fill_at;
use crate::lines::push_at_least;
use crate::lookups::part;
use crate::maker::{Basis, LineMaker, RowNames};
use crate::needs::{WalkBack, count_values, need_out, uphold_row};
use crate::pushes::{push_change, push_nogood, push_set};
use crate::room::{ChosenEntry, Room, Scratch, fit_rows};
use crate::walk::choose;
use graph_rows::Problem;
use journals::Keeper;
use log_theory::{Clause, Name, Ref, Refs, Step};
use needed_values::{need_all, unmark_all};
use proof_theory::Literal;
use recorder::{DeadEnd, Entry, Failure, Place};
use smallvec::SmallVec;
use std::alloc::{AllocError, Global};

/// A dead path, as a search tells of it.
#[derive(Clone, Copy)]
pub struct DeadPath<'a> {
    /// Its pairs, in their order.
    pub path: &'a [(u16, u16)],
    /// The changes since the domains were full, in their order.
    pub entries: &'a [Entry],
    /// How it ended.
    pub end: DeadEnd,
    /// The set that was found short, with the centre of its block, where that is the end.
    pub short: Option<(Option<u16>, Place)>,
    /// Names of the lines of the values that were refuted below the path, in their order.
    pub refuted: &'a [Ref],
}

/// The name of a step that is given to a keeper, which gives it the next one.
const NO_NAME: Name = Name {
    owner: 0,
    number: 0,
};

/// The values that the end rests on are needed.
fn mark_end(
    walk: &WalkBack<'_>,
    short: Option<(Option<u16>, Place)>,
    end: DeadEnd,
    marked: &mut [bool],
    needed: &mut [u64],
    room: &mut Room,
) -> Result<(), AllocError>
    requires sound { Sound walk.now.q.now walk.now.rows.now }
    requires end { IsEndIn walk.now.q.now walk.now.rows.now
        (end_by end (set_at walk.now.numbers.now short) []) }
    requires held { AreRows (size walk.now.q.now.target) marked.old needed.old }
    requires size { length marked.old ≡ size walk.now.q.now.pattern }
    requires fit { IsFit (size walk.now.q.now.target) room.old }
    ensures needs { (path : List (ℕ × ℕ)) → AreAt walk.now.at.now path
        → OnOk result (EndNeeds walk.now.rows.now path (end_by end
        (set_at walk.now.numbers.now short) [])
        (values_of (size walk.now.q.now.target) marked.new needed.new)) }
    ensures fit { OnOk result (IsFit (size walk.now.q.now.target) room.new) }
{
    let values = count_values(walk.q);
    match end {
        DeadEnd::Failed(failure) => match failure {
            Failure::Empty(p) => {
                need_all(marked, needed, values, p, &mut room.spare);
                Ok(())
            }
            Failure::Whole(name) => uphold_row(
                walk,
                name,
                None,
                marked,
                needed,
                &mut room.spare,
                &mut room.pairs,
            ),
            Failure::Short(_) => {
                if let Some((_, place)) = short {
                    need_out(
                        walk.q,
                        part(walk.numbers, place.start, place.middle),
                        part(walk.numbers, place.middle, place.end),
                        marked,
                        needed,
                        &mut room.set,
                        &mut room.spare,
                    );
                }
                Ok(())
            }
        },
        DeadEnd::Exhausted(p) => {
            need_all(marked, needed, values, p, &mut room.spare);
            Ok(())
        }
    }
}

/// Puts references to forms that explain the chosen changes, the last one first, after lines were kept that they need.
fn push_chosen<M: LineMaker, N: RowNames, K: Keeper>(
    basis: &Basis<'_, N>,
    chosen: &[ChosenEntry],
    at: &mut [u16],
    maker: &mut M,
    keeper: &mut K,
    pairs: &mut SmallVec<(u16, u16), 8>,
    refs: &mut Vec<Ref>,
) -> Result<(), AllocError>
    requires limited { IsLimited basis.now.lines.now }
    requires sound { Sound basis.now.lines.now basis.now.rows.now }
    requires few { length basis.now.rows.now ≤ 2 ^ 22 }
    requires nameable { AreNameable basis.now.lines.now basis.now.rows.now
        (chosen_in basis.now.numbers.now chosen.now) }
    requires long { size basis.now.lines.now.pattern ≤ length at.old }
    requires none { refs.old.items ≡ [] }
    ensures goes { (w : Frame) (path : List (ℕ × ℕ)) → AreAt at.old path
        → IsFrameOf basis.now.lines.now (K.owner keeper.old) w
        → Goes w (K.kept keeper.old) (K.kept keeper.new)
        (Knowing (M.knows maker.old basis.now.lines.now w)
        (AreRowsNamed basis.now.lines.now basis.now.rows.now w (N.names basis.now.names.now)))
        (AreChangesPushed basis.now.lines.now basis.now.rows.now path w
        (N.names basis.now.names.now) (chosen_in basis.now.numbers.now chosen.now)
        refs.new.items (M.knows maker.new basis.now.lines.now w) result) }
    ensures known { (path : List (ℕ × ℕ)) → AreAt at.old path → OnOk result
        (AreAt at.new (known_after path (chosen_in basis.now.numbers.now chosen.now))) }
    ensures fits { OnOk result (AreRefs refs.new.items) }
    ensures rest { KeepsRest K.owner K.notes K.spare keeper.old keeper.new }
{
    let mut left = chosen.len();
    while left > 0 {
        left -= 1;
        push_change(basis, &chosen[left], at, maker, keeper, pairs, refs)?;
    }
    Ok(())
}

/// Puts references to the forms that an end comes to.
fn push_end<M: LineMaker, N: RowNames, K: Keeper>(
    basis: &Basis<'_, N>,
    dead: &DeadPath<'_>,
    at: &[u16],
    maker: &mut M,
    keeper: &mut K,
    pairs: &mut SmallVec<(u16, u16), 8>,
    refs: &mut Vec<Ref>,
) -> Result<(), AllocError>
    requires limited { IsLimited basis.now.lines.now }
    requires sound { Sound basis.now.lines.now basis.now.rows.now }
    requires few { length basis.now.rows.now ≤ 2 ^ 22 }
    requires end { IsEndIn basis.now.lines.now basis.now.rows.now
        (end_by dead.now.end (set_at basis.now.numbers.now dead.now.short) []) }
    requires refuted { AreRefs dead.now.refuted.now }
    requires fits { AreRefs refs.old.items }
    ensures goes { (w : Frame) (values : List ℕ) (known : List (ℕ × ℕ)) → AreAt at.now known
        → IsFrameOf basis.now.lines.now (K.owner keeper.old) w
        → Goes w (K.kept keeper.old) (K.kept keeper.new)
        (Knowing (M.knows maker.old basis.now.lines.now w)
        (IsBegun basis.now.lines.now basis.now.rows.now w (N.names basis.now.names.now)
        dead.now.path.now
        (end_by dead.now.end (set_at basis.now.numbers.now dead.now.short) values)
        dead.now.refuted.now))
        (IsEndPushed basis.now.lines.now basis.now.rows.now dead.now.path.now known
        (end_by dead.now.end (set_at basis.now.numbers.now dead.now.short) values) w
        refs.old.items refs.new.items (M.knows maker.new basis.now.lines.now w) result) }
    ensures fits { OnOk result (AreRefs refs.new.items) }
    ensures rest { KeepsRest K.owner K.notes K.spare keeper.old keeper.new }
{
    match dead.end {
        DeadEnd::Failed(failure) => match failure {
            Failure::Empty(p) => push_at_least(basis.lines, &[p], refs),
            Failure::Whole(name) => push_nogood(basis, name, None, at, pairs, refs),
            Failure::Short(_) => match dead.short {
                Some((centre, place)) => push_set(
                    basis.alloc,
                    basis.lines,
                    maker,
                    keeper,
                    &BlockSet {
                        centre,
                        vertices: part(basis.numbers, place.start, place.middle),
                        values: part(basis.numbers, place.middle, place.end),
                    },
                    refs,
                ),
                None => Ok(()),
            },
        },
        DeadEnd::Exhausted(p) => {
            refs.extend_from_slice(dead.refuted)?;
            push_at_least(basis.lines, &[p], refs)
        }
    }
}

/// The literals of the negated path.
fn literals_of(alloc: Global, q: &Problem, path: &[(u16, u16)]) -> Result<Clause, AllocError>
    requires limited { IsLimited q.now }
    requires path { AreInRange q.now path.now }
    ensures literals { IfOk result (λ lits. lits ≡ map (not_there q.now) path.now) }
    ensures fits { IfOk result AreLiterals }
{
    let targets = u32::from(q.target().size());
    let mut literals = Vec::with_capacity(alloc, path.len())?;
    for x in path {
        literals.push(Literal {
            variable: u32::from(x.0) * targets + u32::from(x.1) + 1,
            negated: true,
        })?;
    }
    Ok(Clause::new(literals))
}

/// How many vertices the pattern has.
fn size_of(q: &Problem) -> usize
    ensures size { result ≡ size q.now.pattern }
    ensures limited { IsLimited q.now }
{
    let _target = q.target();
    let _less = q.less();
    usize::from(q.pattern().size())
}

/// Chooses the changes that the end rests on.
fn choose_in(
    walk: &WalkBack<'_>,
    entries: &[Entry],
    end: (DeadEnd, Option<(Option<u16>, Place)>),
    marked: &mut [bool],
    needed: &mut [u64],
    room: &mut Room,
    chosen: &mut Vec<ChosenEntry>,
) -> Result<(), AllocError>
    requires sound { Sound walk.now.q.now walk.now.rows.now }
    requires sharers { walk.now.sharers.now ≡ walk.now.q.now }
    requires in_problem { AreInProblem walk.now.q.now (changes_of walk.now.numbers.now
        entries.now) }
    requires end { IsEndIn walk.now.q.now walk.now.rows.now
        (end_by end.0 (set_at walk.now.numbers.now end.1) []) }
    requires held { AreRows (size walk.now.q.now.target) marked.old needed.old }
    requires size { length marked.old ≡ size walk.now.q.now.pattern }
    ensures choice { (path : List (ℕ × ℕ)) → AreAt walk.now.at.now path
        → OnOk result (IsChosenFor walk.now.q.now walk.now.rows.now path
        (changes_of walk.now.numbers.now entries.now) (chosen_in walk.now.numbers.now
        chosen.new.items)
        (end_by end.0 (set_at walk.now.numbers.now end.1) [])) }
    ensures nameable { (path : List (ℕ × ℕ)) → AreAt walk.now.at.now path
        → OnOk result (AreNameable walk.now.q.now walk.now.rows.now
        (chosen_in walk.now.numbers.now chosen.new.items)) }
{
    room.fit(count_values(walk.q))?;
    unmark_all(marked);
    mark_end(walk, end.1, end.0, marked, needed, room)?;
    choose(walk, entries, marked, needed, room, chosen)
}

/// The same under a path, by what stands in the scratch.
fn choose_for(
    walk: &WalkBack<'_>,
    entries: &[Entry],
    end: (DeadEnd, Option<(Option<u16>, Place)>),
    marked: &mut Vec<bool>,
    needed: &mut Vec<u64>,
    room: &mut Room,
    chosen: &mut Vec<ChosenEntry>,
) -> Result<(), AllocError>
    requires sound { Sound walk.now.q.now walk.now.rows.now }
    requires sharers { walk.now.sharers.now ≡ walk.now.q.now }
    requires in_problem { AreInProblem walk.now.q.now (changes_of walk.now.numbers.now
        entries.now) }
    requires end { IsEndIn walk.now.q.now walk.now.rows.now
        (end_by end.0 (set_at walk.now.numbers.now end.1) []) }
    ensures choice { (path : List (ℕ × ℕ)) → AreAt walk.now.at.now path
        → OnOk result (IsChosenFor walk.now.q.now walk.now.rows.now path
        (changes_of walk.now.numbers.now entries.now) (chosen_in walk.now.numbers.now
        chosen.new.items)
        (end_by end.0 (set_at walk.now.numbers.now end.1) [])) }
    ensures nameable { (path : List (ℕ × ℕ)) → AreAt walk.now.at.now path
        → OnOk result (AreNameable walk.now.q.now walk.now.rows.now
        (chosen_in walk.now.numbers.now chosen.new.items)) }
{
    let size = size_of(walk.q);
    fit_rows(marked, needed, size, count_values(walk.q))?;
    choose_in(walk, entries, end, marked, needed, room, chosen)
}

/// Puts references to the forms that explain the changes that were chosen, and then to those that the end comes to. Both the changes and the
/// path's values at their vertices stand in the scratch.
fn gather<M: LineMaker, N: RowNames, K: Keeper>(
    basis: &Basis<'_, N>,
    dead: &DeadPath<'_>,
    scratch: &mut Scratch,
    maker: &mut M,
    keeper: &mut K,
    refs: &mut Vec<Ref>,
) -> Result<(), AllocError>
    requires limited { IsLimited basis.now.lines.now }
    requires sound { Sound basis.now.lines.now basis.now.rows.now }
    requires few { length basis.now.rows.now ≤ 2 ^ 22 }
    requires long { size basis.now.lines.now.pattern ≤ length scratch.old.at.items }
    requires known { AreAt scratch.old.at.items dead.now.path.now }
    requires nameable { AreNameable basis.now.lines.now basis.now.rows.now
        (chosen_in basis.now.numbers.now scratch.old.chosen.items) }
    requires end { IsEndIn basis.now.lines.now basis.now.rows.now
        (end_by dead.now.end (set_at basis.now.numbers.now dead.now.short) []) }
    requires refuted { AreRefs dead.now.refuted.now }
    requires none { refs.old.items ≡ [] }
    ensures goes { (w : Frame) (values : List ℕ)
        → IsFrameOf basis.now.lines.now (K.owner keeper.old) w
        → Goes w (K.kept keeper.old) (K.kept keeper.new)
        (Knowing (M.knows maker.old basis.now.lines.now w)
        (IsBegun basis.now.lines.now basis.now.rows.now w (N.names basis.now.names.now)
        dead.now.path.now
        (end_by dead.now.end (set_at basis.now.numbers.now dead.now.short) values)
        dead.now.refuted.now))
        (AreGathered basis.now.lines.now basis.now.rows.now w dead.now.path.now
        (chosen_in basis.now.numbers.now scratch.old.chosen.items)
        (end_by dead.now.end (set_at basis.now.numbers.now dead.now.short) values)
        refs.new.items (M.knows maker.new basis.now.lines.now w) result) }
    ensures fits { OnOk result (AreRefs refs.new.items) }
    ensures rest { KeepsRest K.owner K.notes K.spare keeper.old keeper.new }
{
    let chosen = scratch.chosen.as_slice();
    let at = scratch.at.as_mut_slice();
    push_chosen(
        basis,
        chosen,
        at,
        maker,
        keeper,
        &mut scratch.room.pairs,
        refs,
    )?;
    push_end(
        basis,
        dead,
        at,
        maker,
        keeper,
        &mut scratch.room.pairs,
        refs,
    )
}

/// Keeps the line of a dead path, the clause that not all pairs of the path hold, and before it those lines that it needs and that are not
/// there yet. The answer is the line's name, or none where lines are not kept. Cost: one step for each change, and for each chosen one its
/// lines.
pub fn explain<M: LineMaker, N: RowNames, K: Keeper>(
    basis: &Basis<'_, N>,
    dead: &DeadPath<'_>,
    maker: &mut M,
    keeper: &mut K,
    scratch: &mut Scratch,
) -> Result<Option<Name>, AllocError>
    requires sound { Sound basis.now.lines.now basis.now.rows.now }
    requires few { length basis.now.rows.now ≤ 2 ^ 22 }
    requires in_problem { AreInProblem basis.now.lines.now
        (changes_of basis.now.numbers.now dead.now.entries.now) }
    requires path { AreInRange basis.now.lines.now dead.now.path.now }
    requires end { IsEndIn basis.now.lines.now basis.now.rows.now
        (end_by dead.now.end (set_at basis.now.numbers.now dead.now.short) []) }
    requires refuted { AreRefs dead.now.refuted.now }
    ensures goes { (w : Frame) (values : List ℕ)
        → IsFrameOf basis.now.lines.now (K.owner keeper.old) w
        → Dies basis.now.lines.now basis.now.rows.now dead.now.path.now
        (changes_of basis.now.numbers.now dead.now.entries.now)
        (end_by dead.now.end (set_at basis.now.numbers.now dead.now.short) values)
        → AreGuessed dead.now.path.now
        (changes_of basis.now.numbers.now dead.now.entries.now)
        → Goes w (K.kept keeper.old) (K.kept keeper.new)
        (Knowing (M.knows maker.old basis.now.lines.now w)
        (IsBegun basis.now.lines.now basis.now.rows.now w (N.names basis.now.names.now)
        dead.now.path.now
        (end_by dead.now.end (set_at basis.now.numbers.now dead.now.short) values)
        dead.now.refuted.now))
        (IsDeadName basis.now.lines.now dead.now.path.now w
        (M.knows maker.new basis.now.lines.now w) result) }
    ensures name { IfOk result (λ o. IfSome o IsName) }
    ensures last { IfOk result (λ o. IfSome o (IsLastOf (K.kept keeper.new))) }
    ensures rest { KeepsRest K.owner K.notes K.spare keeper.old keeper.new }
{
    if !keeper.is_on() {
        return Ok(None);
    }
    let q = basis.lines.problem();
    let size = size_of(q);
    fill_at(&mut scratch.at, size, dead.path)?;
    let walk = WalkBack {
        alloc: basis.alloc,
        q,
        sharers: basis.lines.sharers(),
        rows: basis.rows,
        numbers: basis.numbers,
        at: &scratch.at,
    };
    choose_for(
        &walk,
        dead.entries,
        (dead.end, dead.short),
        &mut scratch.marked,
        &mut scratch.needed,
        &mut scratch.room,
        &mut scratch.chosen,
    )?;
    let mut refs = Vec::new(basis.alloc);
    gather(basis, dead, scratch, maker, keeper, &mut refs)?;
    let lits = literals_of(basis.alloc, q, dead.path)?;
    let name = keeper.keep(Step::U {
        name: NO_NAME,
        lits,
        refs: Refs::new(refs),
    })?;
    Ok(Some(name))
}
