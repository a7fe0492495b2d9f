//! The line of a constraint.

ghost use Rattle.std.specs.Prelude.{◌≤◌, ◌^◌, unsigned_abs, IfOk, IfSome};
ghost use Rattle.log_theory.specs.OpbText.{AreVariables};
ghost use Rattle.opb_text.specs.Lines.{TermsSay, FormSays, ConstraintSays, LineSays, IsWithin};

use crate::bound::read_bound;
use crate::fault::LineFault;
use crate::line_words::{begins_with, first_word};
use crate::terms::{Part, next_part};
use log_theory::OpbCause;
use pb_terms::{Constraint, PbFault};
use std::alloc::Global;

/// Puts the terms of a line into the list, in the place of what it holds, and gives what follows `>=`.
fn read_terms<'a>(
    line: &'a [u8],
    variables: u32,
    terms: &mut Vec<(u32, i128)>,
) -> Result<&'a [u8], LineFault>
    ensures says { TermsSay variables line.now terms.new.items result }
    ensures variables { IfOk result (λ _. AreVariables variables terms.new.items) }
{
    terms.clear();
    let mut rest = line;
    loop {
        let (part, more) = next_part(rest, variables, terms.is_empty())?;
        match part {
            Part::Term(variable, coefficient) => {
                terms.push((variable, coefficient))?;
                rest = more;
            }
            Part::Bound => return Ok(more),
        }
    }
}

/// The constraint of terms and a bound.
fn constraint_of(alloc: Global, terms: &[(u32, i128)], bound: i128) -> Result<Constraint, LineFault>
    requires { unsigned_abs bound ≤ 2 ^ 125 }
    ensures { FormSays terms.now bound result }
{
    match Constraint::new(alloc, terms, bound) {
        Ok(constraint) => Ok(constraint),
        Err(PbFault::Wide) => Err(LineFault::Faulty(OpbCause::Wide)),
        Err(PbFault::NoMemory) => Err(LineFault::NoMemory),
    }
}

/// The constraint of a line over the variables from 1 to `variables`. The list is room for its terms.
fn read_constraint(
    alloc: Global,
    line: &[u8],
    variables: u32,
    terms: &mut Vec<(u32, i128)>,
) -> Result<Constraint, LineFault>
    ensures says { ConstraintSays variables line.now result }
    ensures within { IfOk result (λ f. IsWithin variables f) }
{
    let rest = read_terms(line, variables, terms)?;
    let bound = read_bound(rest, variables)?;
    constraint_of(alloc, terms, bound)
}

/// The constraint of a line after the first, or none where the line is blank or a comment. The list is room for terms.
pub fn read_line(
    alloc: Global,
    line: &[u8],
    variables: u32,
    terms: &mut Vec<(u32, i128)>,
) -> Result<Option<Constraint>, LineFault>
    ensures says { LineSays variables line.now result }
    ensures within { IfOk result (λ f. IfSome f (λ g. IsWithin variables g)) }
{
    let Some((word, _)) = first_word(line) else {
        return Ok(None);
    };
    if begins_with(word, b"*") {
        return Ok(None);
    }
    if begins_with(word, b"min:") || begins_with(word, b"max:") {
        return Err(LineFault::Faulty(OpbCause::Objective));
    }
    let constraint = read_constraint(alloc, line, variables, terms)?;
    Ok(Some(constraint))
}
