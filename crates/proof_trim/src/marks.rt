//! Marks: which line names the line of each place last, of all that are needed.

ghost use Rattle.std.specs.Prelude.{◌≡◌, ◌≢◌, ℕ, ◌+◌, ◌-◌, ◌^◌, ◌<◌, ◌≤◌, List, length, replicate, IfOk, OnOk};
ghost use Rattle.log_theory.specs.declared.step.Step.{Step as TheStep};
ghost use Rattle.journal_theory.specs.Referring.{step_refs};
ghost use Rattle.proof_trim.specs.Places.{place_in};
ghost use Rattle.proof_trim.specs.Lined.{AreAt};
ghost use Rattle.proof_trim.specs.Marks.{MarksOne, MarksRefs, IsMarked};

use crate::index::Index;
use crate::lines::Lines;
use crate::references::take_refs;
use log_theory::{Ref, Step};
use std::alloc::{AllocError, Global};

/// Marks a place below a limit, unless it is marked.
fn mark_place(marks: &mut Vec<usize>, place: Option<usize>, limit: usize, mark: usize)
    requires limit { limit ≤ length marks.old.items }
    ensures { MarksOne place limit mark marks.old.items marks.new.items }
{
    if let Some(place) = place {
        if place < limit && marks[place] == 0 {
            marks[place] = mark;
        }
    }
}

/// Marks the places of references below a limit, those that are not marked.
fn mark_refs(index: &Index, marks: &mut Vec<usize>, refs: &[Ref], limit: usize, mark: usize)
    requires limit { limit ≤ length marks.old.items }
    requires some { mark ≢ 0 }
    ensures { MarksRefs (place_in index.now) refs.now limit mark marks.old.items marks.new.items }
{
    for at in refs {
        mark_place(marks, index.place_of(*at), limit, mark);
    }
}

/// Marks what the line at a place names, where it is needed itself.
fn mark_line(
    alloc: Global,
    index: &Index,
    marks: &mut Vec<usize>,
    refs: &mut Vec<Ref>,
    lines: &Lines,
    at: usize,
) -> Result<(), AllocError>
    requires within { at < length lines.now.places.items }
    requires long { length marks.old.items ≡ length lines.now.places.items }
    ensures marked { OnOk result ((made : List TheStep) (last : TheStep)
        → AreAt lines.now.text.now lines.now.places.items made
        → IsMarked (place_in index.now) made last (at + 1) marks.old.items
        → IsMarked (place_in index.now) made last at marks.new.items) }
    ensures long { length marks.new.items ≡ length marks.old.items }
{
    if marks[at] != 0 {
        let step = lines.step_at(alloc, at)?;
        take_refs(refs, &step)?;
        mark_refs(index, marks, refs, at, at + 1);
    }
    Ok(())
}

/// The marks before any line: what the last one names is marked as named behind all lines.
fn first_marks(
    alloc: Global,
    index: &Index,
    refs: &mut Vec<Ref>,
    lines: usize,
    last: &Step,
) -> Result<Vec<usize>, AllocError>
    requires { lines < 2 ^ 64 - 1 }
    ensures { IfOk result (λ marks. MarksRefs (place_in index.now) (step_refs last.now) lines
        (lines + 1) (replicate lines 0) marks.items) }
{
    take_refs(refs, last)?;
    let mut marks = Vec::new(alloc);
    marks.resize(lines, 0)?;
    mark_refs(index, &mut marks, refs, lines, lines + 1);
    Ok(marks)
}

/// The marks of all lines that make a constraint, by going back from the last line of the log. Cost: the bytes of each line that is needed,
/// and one step for each of its references.
pub(crate) fn marks_of(
    alloc: Global,
    index: &Index,
    lines: &Lines,
    last: &Step,
) -> Result<Vec<usize>, AllocError>
    requires { length lines.now.places.items < 2 ^ 64 - 1 }
    ensures { IfOk result (λ marks. (made : List TheStep)
        → AreAt lines.now.text.now lines.now.places.items made
        → IsMarked (place_in index.now) made last.now 0 marks.items) }
{
    let mut refs = Vec::new(alloc);
    let mut marks = first_marks(alloc, index, &mut refs, lines.len(), last)?;
    let mut at = lines.len();
    while at > 0 {
        at -= 1;
        mark_line(alloc, index, &mut marks, &mut refs, lines, at)?;
    }
    Ok(marks)
}
