//! The lists of a line: operations, literals, references and variables.
ghost use Rattle.std.specs.Prelude.{◌≡◌, ◌≤◌, false, [], ◌∷◌, length, MatchOption, Some};
ghost use Rattle.log_theory.specs.Words.{same_word};
ghost use Rattle.log_theory.specs.LogText.{literal_of, ref_of, variable_of, all_of};
ghost use Rattle.proof_log.specs.Reading.{one_more, items_told, ops_told, plain_op, IsListed, IsTold};

use crate::fault::StepFault;
use crate::items::{literal_in, numeral_in, ref_in, variable_in};
use crate::pieces::{Pieces, is_byte};
use log_theory::{Clause, Op, Ops, Refs, Variables};
use std::alloc::Global;

/// The operation of a word that is no operand.
fn plain_op(word: &[u8]) -> Option<Op>
    ensures { result ≡ plain_op word.now }
{
    if is_byte(word, b'+') {
        return Some(Op::Add);
    }
    if is_byte(word, b's') {
        return Some(Op::Saturate);
    }
    if let Some(literal) = literal_in(word) {
        return Some(Op::Axiom(literal));
    }
    ref_in(word).map(Op::Push)
}

/// The operation that begins with this word; it takes the word behind it where this one is an operand.
fn operation<'a>(word: &[u8], words: &mut Pieces<'a>) -> Option<Op>
    requires { same_word word.now (59 ∷ []) ≡ false }
    ensures told { MatchOption result (ops_told (word.now ∷ words.old) ≡ None)
        (λ op. ops_told (word.now ∷ words.old) ≡ one_more (Some op) (ops_told words.new)) }
    ensures shorter { length words.new ≤ length words.old }
{
    if words.take_byte(b'*') {
        match numeral_in(word) {
            Some(number) => Some(Op::Times(number)),
            None => None,
        }
    } else if words.take_byte(b'd') {
        match numeral_in(word) {
            Some(number) => Some(Op::Divide(number)),
            None => None,
        }
    } else {
        plain_op(word)
    }
}

/// The operations up to the first `;`.
pub(crate) fn read_ops<'a>(alloc: Global, words: &mut Pieces<'a>) -> Result<Ops, StepFault>
    ensures { IsListed result words.new (ops_told words.old) }
{
    let mut items = Vec::new(alloc);
    while let Some(word) = words.next() {
        if is_byte(word, b';') {
            return Ok(Ops::new(items));
        }
        let Some(op) = operation(word, words) else {
            return Err(StepFault::Form);
        };
        items.push(op)?;
    }
    Err(StepFault::Form)
}

/// The literals up to the first `;`.
pub(crate) fn read_literals<'a>(alloc: Global, words: &mut Pieces<'a>) -> Result<Clause, StepFault>
    ensures { IsListed result words.new (items_told literal_of words.old) }
{
    let mut items = Vec::new(alloc);
    while let Some(word) = words.next() {
        if is_byte(word, b';') {
            return Ok(Clause::new(items));
        }
        let Some(literal) = literal_in(word) else {
            return Err(StepFault::Form);
        };
        items.push(literal)?;
    }
    Err(StepFault::Form)
}

/// The references up to the first `;`.
pub(crate) fn read_refs<'a>(alloc: Global, words: &mut Pieces<'a>) -> Result<Refs, StepFault>
    ensures { IsListed result words.new (items_told ref_of words.old) }
{
    let mut items = Vec::new(alloc);
    while let Some(word) = words.next() {
        if is_byte(word, b';') {
            return Ok(Refs::new(items));
        }
        let Some(reference) = ref_in(word) else {
            return Err(StepFault::Form);
        };
        items.push(reference)?;
    }
    Err(StepFault::Form)
}

/// The variables up to the end.
pub(crate) fn read_ones<'a>(alloc: Global, words: &mut Pieces<'a>) -> Result<Variables, StepFault>
    ensures { IsTold result (all_of variable_of words.old) }
{
    let mut items = Vec::new(alloc);
    while let Some(word) = words.next() {
        let Some(variable) = variable_in(word) else {
            return Err(StepFault::Form);
        };
        items.push(variable)?;
    }
    Ok(Variables::new(items))
}
