//! The bound at the end of a constraint's line.

ghost use Rattle.std.specs.Prelude.{◌≤◌, ◌^◌, unsigned_abs, IfOk};
ghost use Rattle.opb_text.specs.Parts.{EndSays, ClosingSays, BoundSays};

use crate::line_words::first_word;
use crate::misplaced::misplaced;
use crate::numbers::MOST;
use crate::word_kinds::{Word, kind_of};
use log_theory::OpbCause;

/// Whether no word is left, else what is wrong with the first.
fn read_end(line: &[u8], variables: u32) -> Result<(), OpbCause>
    ensures { EndSays variables line.now result }
{
    match first_word(line) {
        Some((word, _)) => Err(misplaced(kind_of(word), variables)),
        None => Ok(()),
    }
}

/// Whether `;` alone is left, else what is wrong with the first faulty word.
fn read_closing(line: &[u8], variables: u32) -> Result<(), OpbCause>
    ensures { ClosingSays variables line.now result }
{
    let Some((word, rest)) = first_word(line) else {
        return Err(OpbCause::Form);
    };
    match kind_of(word) {
        Word::Semicolon => read_end(rest, variables),
        other => Err(misplaced(other, variables)),
    }
}

/// The bound, of what follows `>=`.
pub fn read_bound(line: &[u8], variables: u32) -> Result<i128, OpbCause>
    ensures says { BoundSays variables line.now result }
    ensures narrow { IfOk result (λ b. unsigned_abs b ≤ 2 ^ 125) }
{
    let Some((word, rest)) = first_word(line) else {
        return Err(OpbCause::Form);
    };
    match kind_of(word) {
        Word::Number(b) => {
            if b.unsigned_abs() > MOST {
                return Err(OpbCause::Wide);
            }
            match read_closing(rest, variables) {
                Ok(()) => Ok(b),
                Err(cause) => Err(cause),
            }
        }
        Word::Ended(b) => {
            if b.unsigned_abs() > MOST {
                return Err(OpbCause::Wide);
            }
            match read_end(rest, variables) {
                Ok(()) => Ok(b),
                Err(cause) => Err(cause),
            }
        }
        other => Err(misplaced(other, variables)),
    }
}
