//! References to the forms that explain a change, and to those that an end comes to.

ghost use Rattle.std.specs.Prelude.{◌≡◌, ℕ, ◌^◌, ◌≤◌, ◌<◌, List, Some, length, OnOk, IfOk};
ghost use Rattle.graph_theory.specs.Graph.{size};
ghost use Rattle.log_theory.specs.LogText.{IsRef, AreRefs};
ghost use Rattle.nogood_book.specs.Rows.{Sound};
ghost use Rattle.nogood_book.specs.Places.{IsNogoodRow};
ghost use Rattle.recorder.specs.Recording.{LeftOver, change_of};
ghost use Rattle.dead_theory.specs.Changes.{shown_of, IsInProblem, IsSetIn};
ghost use Rattle.journals.specs.Keeping.{KeepsRest};
ghost use Rattle.log_growth.specs.Frames.{Frame, IsFrameOf, AnyForms, Goes};
ghost use Rattle.dead_paths.specs.Making.{AreRowsNamed};
ghost use Rattle.dead_paths.specs.Choosing.{AreAt, IsOfRow, chosen_of};
ghost use Rattle.dead_paths.specs.Explaining.{IsLimited, Knowing, AddsNogood, IsSetPushed, IsCrowdPushed, IsChangePushed};

use crate::beside::{Beside, BlockSet, Crowd};
use crate::ground::Ground;
use crate::known::{push_bearing_all, push_decided};
use crate::lines::keep_crowd;
use crate::lookups::part;
use crate::maker::{Basis, LineMaker, RowNames};
use crate::room::ChosenEntry;
use journals::Keeper;
use log_theory::Ref;
use nogood_book::push_path;
use recorder::{Cause, What};
use smallvec::SmallVec;
use std::alloc::{AllocError, Global};

/// Puts references to the lines that a nogood row needs: those by which its vertices go somewhere, but where a pair is known to hold or the
/// vertex is left out, and its own.
pub(crate) fn push_nogood<N: RowNames>(
    basis: &Basis<'_, N>,
    name: u32,
    but: Option<u16>,
    at: &[u16],
    pairs: &mut SmallVec<(u16, u16), 8>,
    refs: &mut Vec<Ref>,
) -> Result<(), AllocError>
    requires limited { IsLimited basis.now.lines.now }
    requires sound { Sound basis.now.lines.now basis.now.rows.now }
    requires few { length basis.now.rows.now ≤ 2 ^ 22 }
    requires nogood { IsNogoodRow basis.now.rows.now name }
    requires fits { AreRefs refs.old.items }
    ensures pushed { (known : List (ℕ × ℕ)) → AreAt at.now known
        → OnOk result (AddsNogood basis.now.lines.now basis.now.rows.now
        (N.names basis.now.names.now) known but name refs.old.items refs.new.items) }
    ensures fits { OnOk result (AreRefs refs.new.items) }
{
    pairs.clear();
    push_path(basis.lines.problem(), basis.rows, name, pairs)?;
    push_bearing_all(basis.lines, at, but, pairs, refs)?;
    refs.push(basis.names.name(name))?;
    Ok(())
}

/// Puts the reference to the line of a set, if it has a vertex.
pub(crate) fn push_set<M: LineMaker, K: Keeper>(
    alloc: Global,
    lines: &Ground<'_>,
    maker: &mut M,
    keeper: &mut K,
    set: &BlockSet<'_>,
    refs: &mut Vec<Ref>,
) -> Result<(), AllocError>
    requires limited { IsLimited lines.now }
    requires in_problem { IsSetIn lines.now set.now.centre set.now.vertices.now
        set.now.values.now }
    requires fits { AreRefs refs.old.items }
    ensures goes { (w : Frame) → IsFrameOf lines.now (K.owner keeper.old) w
        → Goes w (K.kept keeper.old) (K.kept keeper.new) (M.knows maker.old lines.now w)
        (IsSetPushed lines.now set.now.centre set.now.vertices.now set.now.values.now w
        refs.old.items refs.new.items (M.knows maker.new lines.now w) result) }
    ensures fits { OnOk result (AreRefs refs.new.items) }
    ensures rest { KeepsRest K.owner K.notes K.spare keeper.old keeper.new }
{
    if set.vertices.is_empty() {
        return Ok(());
    }
    let name = maker.set(alloc, lines, keeper, set)?;
    refs.push(Ref::Made(name))?;
    Ok(())
}

/// Keeps the line of a crowd and puts the reference to it, if the crowd has a vertex. It is kept anew for each path that rests on it.
fn push_crowd<K: Keeper>(
    alloc: Global,
    lines: &Ground<'_>,
    keeper: &mut K,
    crowd: &Crowd<'_>,
    refs: &mut Vec<Ref>,
) -> Result<(), AllocError>
    requires limited { IsLimited lines.now }
    requires in_problem { IsInProblem lines.now (LeftOver crowd.now.p crowd.now.t
        crowd.now.direction crowd.now.vertices.now crowd.now.values.now 0) }
    requires fits { AreRefs refs.old.items }
    ensures goes { (w : Frame) → IsFrameOf lines.now (K.owner keeper.old) w
        → Goes w (K.kept keeper.old) (K.kept keeper.new) AnyForms
        (IsCrowdPushed lines.now crowd.now.p crowd.now.t crowd.now.vertices.now
        crowd.now.values.now w refs.old.items refs.new.items result) }
    ensures fits { OnOk result (AreRefs refs.new.items) }
    ensures rest { KeepsRest K.owner K.notes K.spare keeper.old keeper.new }
{
    if crowd.vertices.is_empty() {
        return Ok(());
    }
    let name = keep_crowd(alloc, lines, keeper, crowd)?;
    refs.push(Ref::Made(name))?;
    Ok(())
}

/// Puts references to forms that explain a change, after lines were kept that it needs.
pub(crate) fn push_change<M: LineMaker, N: RowNames, K: Keeper>(
    basis: &Basis<'_, N>,
    chosen: &ChosenEntry,
    at: &mut [u16],
    maker: &mut M,
    keeper: &mut K,
    pairs: &mut SmallVec<(u16, u16), 8>,
    refs: &mut Vec<Ref>,
) -> Result<(), AllocError>
    requires limited { IsLimited basis.now.lines.now }
    requires sound { Sound basis.now.lines.now basis.now.rows.now }
    requires few { length basis.now.rows.now ≤ 2 ^ 22 }
    requires in_problem { IsInProblem basis.now.lines.now
        (change_of basis.now.numbers.now chosen.now.entry) }
    requires of_row { IsOfRow basis.now.rows.now
        (change_of basis.now.numbers.now chosen.now.entry) }
    requires long { size basis.now.lines.now.pattern ≤ length at.old }
    requires fits { AreRefs refs.old.items }
    ensures goes { (w : Frame) (known : List (ℕ × ℕ)) → AreAt at.old known
        → IsFrameOf basis.now.lines.now (K.owner keeper.old) w
        → Goes w (K.kept keeper.old) (K.kept keeper.new)
        (Knowing (M.knows maker.old basis.now.lines.now w)
        (AreRowsNamed basis.now.lines.now basis.now.rows.now w (N.names basis.now.names.now)))
        (IsChangePushed basis.now.lines.now basis.now.rows.now known
        (chosen_of basis.now.numbers.now chosen.now) w refs.old.items refs.new.items
        (M.knows maker.new basis.now.lines.now w) result) }
    ensures shown { (known : List (ℕ × ℕ)) → AreAt at.old known → OnOk result
        (AreAt at.new (shown_of (change_of basis.now.numbers.now chosen.now.entry) known)) }
    ensures fits { OnOk result (AreRefs refs.new.items) }
    ensures rest { KeepsRest K.owner K.notes K.spare keeper.old keeper.new }
{
    match chosen.entry.what {
        What::One(r, cause) => match cause {
            Cause::First => {
                let line = maker.first(basis.alloc, basis.lines, keeper, r)?;
                refs.push(line)?;
                Ok(())
            }
            Cause::Guess(_) => {
                refs.push(Ref::Line(basis.lines.at_most(r)))?;
                Ok(())
            }
            Cause::Vertex(p, t) => {
                push_decided(basis.lines, at, p, t, refs)?;
                let (alloc, lines, by_edges) = (basis.alloc, basis.lines, chosen.by_edges);
                let line = maker.row(alloc, lines, keeper, by_edges, Beside { p, t, r })?;
                refs.push(line)?;
                Ok(())
            }
            Cause::Nogood(name) => push_nogood(basis, name, Some(r), at, pairs, refs),
            Cause::Edge(p, u, _) => {
                refs.push(Ref::Line(basis.lines.edge(r, p, u)))?;
                Ok(())
            }
            Cause::Order(k, u, side) => {
                refs.push(basis.lines.order(k, side, u))?;
                Ok(())
            }
        },
        What::Others(centre, place) => push_set(
            basis.alloc,
            basis.lines,
            maker,
            keeper,
            &BlockSet {
                centre,
                vertices: part(basis.numbers, place.start, place.middle),
                values: part(basis.numbers, place.middle, place.end),
            },
            refs,
        ),
        What::Over(p, t, direction, place) => push_crowd(
            basis.alloc,
            basis.lines,
            keeper,
            &Crowd {
                p,
                t,
                direction,
                vertices: part(basis.numbers, place.start, place.middle),
                values: part(basis.numbers, place.middle, place.end),
            },
            refs,
        ),
    }
}
