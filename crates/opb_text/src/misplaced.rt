//! Words that stand where their kind is not due.

ghost use Rattle.std.specs.Prelude.{◌≡◌, ◌&&◌, nat_lt, nat_le, Err};
ghost use Rattle.log_theory.specs.OpbReading.{misplaced};
ghost use Rattle.opb_text.specs.Kinds.{shown};

use crate::numbers::MOST;
use crate::word_kinds::Word;
use log_theory::OpbCause;

/// Whether a number is a variable's.
pub fn is_variable(v: u128, variables: u32) -> bool
    ensures { result ≡ (nat_lt 0 v && nat_le v variables) }
{
    0 < v && v <= u128::from(variables)
}

/// What is wrong with a word that stands where its kind is not due: its own fault, if it has one.
pub fn misplaced(word: Word, variables: u32) -> OpbCause
    ensures { misplaced variables (shown word) ≡ Err result }
{
    match word {
        Word::Variable(v) if !is_variable(v, variables) => OpbCause::NoSuchVariable,
        Word::Number(c) if c.unsigned_abs() > MOST => OpbCause::Wide,
        Word::Ended(c) if c.unsigned_abs() > MOST => OpbCause::Wide,
        _ => OpbCause::Form,
    }
}
