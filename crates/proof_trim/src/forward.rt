//! The needed lines under their new names, each with its deletions behind it, as text.

ghost use Rattle.std.specs.Prelude.{◌≡◌, ◌≢◌, ℕ, ◌+◌, ◌<◌, ◌≤◌, ◌^◌, ◌++◌, ◌∷◌, List, [], length, map, get_or, replicate, Some, slice_get, IfOk, OnOk};
ghost use Rattle.log_theory.specs.declared.step.Step.{Step as TheStep};
ghost use Rattle.log_theory.specs.LogText.{IsStep};
ghost use Rattle.trim_theory.specs.Marking.{rank, new_line, marked_deletions, marked_log};
ghost use Rattle.proof_trim.specs.Lined.{AreAt};
ghost use Rattle.proof_trim.specs.Ranks.{mark_at, renamed, places_with, AreListed};
ghost use Rattle.proof_trim.specs.Texts.{steps_text, next_lines};

use crate::lines::Lines;
use crate::renaming::Renaming;
use crate::text::put_step;
use log_theory::Step;
use outer_io::TextBuffer;
use std::alloc::{AllocError, Global};

/// So many lists, all without an item.
fn no_lists(alloc: Global, count: usize) -> Result<Vec<Vec<usize>>, AllocError>
    ensures { IfOk result (λ lists. map (λ v. v.items) lists.items ≡ replicate count []) }
{
    let mut lists = Vec::with_capacity(alloc, count)?;
    for _ in 0..count {
        lists.push(Vec::new(alloc))?;
    }
    Ok(lists)
}

/// Puts a place behind the others of its mark.
fn put_place(lists: &mut Vec<Vec<usize>>, mark: usize, place: usize) -> Result<(), AllocError>
    requires { mark < length lists.old.items }
    ensures listed { OnOk result ((marks : List ℕ) → get_or marks place 0 ≡ mark → mark ≢ 0
        → AreListed marks place (map (λ v. v.items) lists.old.items)
        → AreListed marks (place + 1) (map (λ v. v.items) lists.new.items)) }
    ensures long { length lists.new.items ≡ length lists.old.items }
{
    lists[mark].push(place)?;
    Ok(())
}

/// Puts a needed line and its deletions.
fn put_line(
    alloc: Global,
    renaming: &Renaming,
    text: &mut TextBuffer,
    place: usize,
    step: &Step,
    named: &[usize],
) -> Result<(), AllocError>
    requires within { place < length renaming.now.marks.now }
    requires fits { IsStep step.now }
    requires named { named.now ≡ places_with (mark_at renaming.now.marks.now) (place + 1) place }
    ensures { OnOk result (text.new.bytes ≡ text.old.bytes ++ steps_text
        (new_line (renamed renaming.now.index.now renaming.now.marks.now)
        (rank (mark_at renaming.now.marks.now) place) step.now
        ∷ marked_deletions (mark_at renaming.now.marks.now) (place + 1) place)) }
{
    let line = renaming.new_line(alloc, place, step)?;
    put_step(text, &line)?;
    renaming.put_deletions(text, named)?;
    Ok(())
}

/// Goes on behind the next line: puts it with its deletions if it is needed, and its place to those of its mark.
fn put_next(
    alloc: Global,
    renaming: &Renaming,
    text: &mut TextBuffer,
    lists: &mut Vec<Vec<usize>>,
    lines: &Lines,
    place: usize,
) -> Result<(), AllocError>
    requires within { place < length lines.now.places.items }
    requires long { length renaming.now.marks.now ≡ length lines.now.places.items }
    requires next { length lists.old.items ≡ length lines.now.places.items + 2 }
    requires low { get_or renaming.now.marks.now place 0 < length lists.old.items }
    requires listed { AreListed renaming.now.marks.now place (map (λ v. v.items) lists.old.items) }
    ensures put { OnOk result ((made : List TheStep)
        → AreAt lines.now.text.now lines.now.places.items made → (s : TheStep)
        → slice_get made place ≡ Some s → text.new.bytes ≡ text.old.bytes ++ steps_text
        (next_lines (renamed renaming.now.index.now renaming.now.marks.now)
        (mark_at renaming.now.marks.now) place s)) }
    ensures listed { OnOk result
        (AreListed renaming.now.marks.now (place + 1) (map (λ v. v.items) lists.new.items)) }
    ensures long { length lists.new.items ≡ length lists.old.items }
{
    let mark = renaming.marks[place];
    if mark != 0 {
        let step = lines.step_at(alloc, place)?;
        put_line(alloc, renaming, text, place, &step, &lists[place + 1])?;
        put_place(lists, mark, place)?;
    }
    Ok(())
}

/// Puts all needed lines, in order. Some 30 bytes for each line that makes a constraint, beside what is given.
pub(crate) fn put_kept(
    alloc: Global,
    renaming: &Renaming,
    text: &mut TextBuffer,
    lines: &Lines,
) -> Result<(), AllocError>
    requires few { length lines.now.places.items < 2 ^ 63 }
    requires long { length renaming.now.marks.now ≡ length lines.now.places.items }
    requires low { (i : ℕ)
        → get_or renaming.now.marks.now i 0 ≤ length lines.now.places.items + 1 }
    ensures { OnOk result ((made : List TheStep)
        → AreAt lines.now.text.now lines.now.places.items made
        → text.new.bytes ≡ text.old.bytes ++ steps_text
        (marked_log (renamed renaming.now.index.now renaming.now.marks.now)
        (mark_at renaming.now.marks.now) 0 made)) }
{
    let mut lists = no_lists(alloc, lines.len() + 2)?;
    let mut place = 0;
    while place < lines.len() {
        put_next(alloc, renaming, text, &mut lists, lines, place)?;
        place += 1;
    }
    Ok(())
}
