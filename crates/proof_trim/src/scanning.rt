//! A log with hints read once, line by line.

ghost use Rattle.std.specs.Prelude.{◌≡◌, ◌++◌, ◌∷◌, [], List, length, cond, nat_lt, IfOk, OnOk};
ghost use Rattle.log_theory.specs.declared.step.Step.{Step as TheStep};
ghost use Rattle.trim_theory.specs.Marking.{made_lines};
ghost use Rattle.proof_trim.specs.Places.{IsIndexOf};
ghost use Rattle.proof_trim.specs.Lined.{IsScanned};

use crate::index::Index;
use crate::lines::Lines;
use crate::reading::{first_line, step_in};
use log_theory::{Profile, Step};
use std::alloc::{AllocError, Global};

/// Where each name stands, where the lines stand that make a constraint, and the last line.
#[derive(Drop)]
pub(crate) struct Scanned<'a> {
    pub(crate) index: Index,
    pub(crate) lines: Lines<'a>,
    pub(crate) last: Step,
}

/// Takes a line that begins at a place into the index, and the place if the line makes a constraint.
fn take_line(
    index: &mut Index,
    places: &mut Vec<usize>,
    step: &Step,
    place: usize,
) -> Result<(), AllocError>
    ensures { OnOk result ((log : List TheStep) → IsIndexOf index.old log
        → length places.old.items ≡ length (made_lines log)
        → IsIndexOf index.new (log ++ step.now ∷ []) × (places.new.items
        ≡ cond (nat_lt (length (made_lines log)) (length (made_lines (log ++ step.now ∷ []))))
        (places.old.items ++ place ∷ []) places.old.items)) }
{
    let count = places.len();
    let next = index.take(step, count)?;
    if count < next {
        places.push(place)?;
    }
    Ok(())
}

/// Reads all lines: the last one, and into the index and the places what the others tell.
fn scan_lines(
    alloc: Global,
    text: &[u8],
    index: &mut Index,
    places: &mut Vec<usize>,
) -> Result<Step, AllocError>
    requires none { places.old.items ≡ [] }
    requires known { IsIndexOf index.old [] }
    ensures { IfOk result (λ last. IsScanned text.now index.new places.new.items last) }
{
    let mut left = text;
    while !left.is_empty() {
        let Some((line, behind)) = first_line(left) else {
            return Err(AllocError);
        };
        let step = step_in(alloc, Profile::Hinted, line)?;
        if behind.is_empty() {
            return Ok(step);
        }
        let place = text.len() - left.len();
        take_line(index, places, &step, place)?;
        left = behind;
    }
    Err(AllocError)
}

/// What the lines of an accepted log with hints are. No step is kept but the last. One pass.
pub(crate) fn scan(alloc: Global, text: &[u8]) -> Result<Scanned, AllocError>
    ensures scanned { IfOk result
        (λ s. IsScanned text.now s.index s.lines.places.items s.last) }
    ensures text { IfOk result (λ s. s.lines.text.now ≡ text.now) }
{
    let mut index = Index::new(alloc);
    let mut places = Vec::new(alloc);
    let last = scan_lines(alloc, text, &mut index, &mut places)?;
    Ok(Scanned {
        index,
        lines: Lines { text, places },
        last,
    })
}
