//! The terms of a constraint's line.

ghost use Rattle.std.specs.Prelude.{◌<◌, ◌^◌, length, IfOk};
ghost use Rattle.opb_text.specs.Parts.{place_of, PartSays, VariableSays};

use crate::line_words::first_word;
use crate::misplaced::{is_variable, misplaced};
use crate::numbers::MOST;
use crate::word_kinds::{Word, kind_of};
use log_theory::OpbCause;

/// What comes next in a constraint's line: a term, or `>=`, which the bound follows.
#[derive(Clone, Copy, PartialEq, Eq, Debug)]
pub enum Part {
    Term(u32, i128),
    Bound,
}

/// The variable that is due, from 1 to `variables`, and what follows it.
fn variable_due(line: &[u8], variables: u32) -> Result<(u32, &[u8]), OpbCause>
    ensures says { VariableSays variables line.now result }
    ensures shorter { IfOk result (λ parts. length parts.1.now < length line.now) }
{
    let Some((word, rest)) = first_word(line) else {
        return Err(OpbCause::Form);
    };
    match kind_of(word) {
        Word::Variable(v) => {
            if is_variable(v, variables) {
                Ok((v as u32, rest))
            } else {
                Err(OpbCause::NoSuchVariable)
            }
        }
        other => Err(misplaced(other, variables)),
    }
}

/// What comes next, behind a term or at the line's beginning, and what follows it.
pub fn next_part(line: &[u8], variables: u32, first: bool) -> Result<(Part, &[u8]), OpbCause>
    ensures says { PartSays variables (place_of first) line.now result }
    ensures shorter { IfOk result (λ parts. length parts.1.now < length line.now) }
{
    let Some((word, rest)) = first_word(line) else {
        return Err(OpbCause::Form);
    };
    match kind_of(word) {
        Word::Number(c) => {
            if c.unsigned_abs() > MOST {
                return Err(OpbCause::Wide);
            }
            let (variable, rest) = variable_due(rest, variables)?;
            Ok((Part::Term(variable, c), rest))
        }
        Word::Relation => Ok((Part::Bound, rest)),
        Word::Equals => Err(OpbCause::Equality),
        Word::Variable(v) => {
            if first {
                Err(misplaced(Word::Variable(v), variables))
            } else {
                Err(OpbCause::Product)
            }
        }
        other => Err(misplaced(other, variables)),
    }
}
