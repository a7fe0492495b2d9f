//! Walking back over the changes from an end, and choosing those that it rests on.

ghost use Rattle.std.specs.Prelude.{◌≡◌, ℕ, ◌∷◌, ◌++◌, [], Bool, List, length, OnOk};
ghost use Rattle.graph_theory.specs.Graph.{size};
ghost use Rattle.nogood_book.specs.Rows.{Sound};
ghost use Rattle.recorder.specs.Recording.{Change, change_of, changes_of};
ghost use Rattle.needed_values.specs.Needed.{AreRows};
ghost use Rattle.dead_theory.specs.Changes.{IsInProblem, AreInProblem};
ghost use Rattle.dead_theory.specs.Walks.{IsChoice};
ghost use Rattle.dead_paths.specs.Rooms.{IsFit};
ghost use Rattle.dead_paths.specs.Choosing.{values_of, AreAt, chosen_in, AreNameable, HasCome};

use crate::needs::WalkBack;
use crate::room::{ChosenEntry, Room};
use crate::takes::{Choice, go_back};
use recorder::Entry;
use std::alloc::AllocError;

/// Puts a chosen change behind the others.
fn put_chosen(chosen: &mut Vec<ChosenEntry>, entry: Entry, by_edges: bool) -> Result<(), AllocError>
    ensures { OnOk result (chosen.new.items ≡ chosen.old.items
        ++ (record { entry = entry; by_edges = by_edges }) ∷ []) }
{
    chosen.push(ChosenEntry { entry, by_edges })?;
    Ok(())
}

/// One step back: the change is chosen if it may have taken a needed value.
fn step_back(
    walk: &WalkBack<'_>,
    entry: &Entry,
    marked: &mut [bool],
    needed: &mut [u64],
    room: &mut Room,
    chosen: &mut Vec<ChosenEntry>,
) -> Result<(), AllocError>
    requires sound { Sound walk.now.q.now walk.now.rows.now }
    requires sharers { walk.now.sharers.now ≡ walk.now.q.now }
    requires in_problem { IsInProblem walk.now.q.now (change_of walk.now.numbers.now entry.now) }
    requires held { AreRows (size walk.now.q.now.target) marked.old needed.old }
    requires size { length marked.old ≡ size walk.now.q.now.pattern }
    requires fit { IsFit (size walk.now.q.now.target) room.old }
    ensures come { (path : List (ℕ × ℕ)) (seen : List Change) (first : ℕ → ℕ → Bool)
        → AreAt walk.now.at.now path
        → HasCome walk.now.q.now walk.now.rows.now path seen (chosen_in walk.now.numbers.now
        chosen.old.items)
        first (values_of (size walk.now.q.now.target) marked.old needed.old)
        → OnOk result (HasCome walk.now.q.now walk.now.rows.now path
        (seen ++ change_of walk.now.numbers.now entry.now ∷ [])
        (chosen_in walk.now.numbers.now chosen.new.items) first
        (values_of (size walk.now.q.now.target) marked.new needed.new)) }
    ensures fit { OnOk result (IsFit (size walk.now.q.now.target) room.new) }
{
    let choice = go_back(walk, entry, marked, needed, room)?;
    match choice {
        Choice::Passed => Ok(()),
        Choice::AsTold => put_chosen(chosen, *entry, false),
        Choice::ByEdges => put_chosen(chosen, *entry, true),
    }
}

/// Chooses of the changes those that the needed values rest on, the last one first. Cost: a step back from each change.
pub(crate) fn choose(
    walk: &WalkBack<'_>,
    entries: &[Entry],
    marked: &mut [bool],
    needed: &mut [u64],
    room: &mut Room,
    chosen: &mut Vec<ChosenEntry>,
) -> Result<(), AllocError>
    requires sound { Sound walk.now.q.now walk.now.rows.now }
    requires sharers { walk.now.sharers.now ≡ walk.now.q.now }
    requires in_problem { AreInProblem walk.now.q.now (changes_of walk.now.numbers.now
        entries.now) }
    requires held { AreRows (size walk.now.q.now.target) marked.old needed.old }
    requires size { length marked.old ≡ size walk.now.q.now.pattern }
    requires fit { IsFit (size walk.now.q.now.target) room.old }
    ensures choice { (path : List (ℕ × ℕ)) → AreAt walk.now.at.now path
        → OnOk result (IsChoice walk.now.q.now walk.now.rows.now path
        (changes_of walk.now.numbers.now entries.now) (chosen_in walk.now.numbers.now
        chosen.new.items)
        (values_of (size walk.now.q.now.target) marked.old needed.old)) }
    ensures nameable { (path : List (ℕ × ℕ)) → AreAt walk.now.at.now path
        → OnOk result (AreNameable walk.now.q.now walk.now.rows.now
        (chosen_in walk.now.numbers.now chosen.new.items)) }
{
    chosen.clear();
    let mut left = entries.len();
    while left > 0 {
        left -= 1;
        step_back(walk, &entries[left], marked, needed, room, chosen)?;
    }
    Ok(())
}
