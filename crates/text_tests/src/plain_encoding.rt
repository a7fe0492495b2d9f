//! An encoding's text read plainly, by the page on the formats.

use crate::plain_rows::{WIDEST, size};
use crate::plain_words::{number_of, pieces_of, words_of};
use opb_text::{OpbCause, OpbFault};
use std::alloc::{AllocError, Global};

/// The terms of a constraint as they are written, and its bound.
#[derive(Drop)]
pub struct Terms {
    pub terms: Vec<(u32, i128)>,
    pub bound: i128,
}

/// A number of variables, and constraints over them.
#[derive(Drop)]
pub struct Encoding {
    pub variables: u32,
    pub constraints: Vec<Terms>,
}

/// What a word of a constraint can be. A number has `;` right behind it or not.
#[derive(Clone, Copy)]
enum Word {
    Number(i128, bool),
    Variable(i128),
    Relation,
    Equals,
    Semicolon,
    Other,
}

/// The number of digits behind a sign or none.
fn signed_number(word: &[u8]) -> Option<i128> {
    match word {
        [b'-', digits @ ..] => Some(0i128.saturating_sub(number_of(digits)?)),
        [b'+', digits @ ..] => number_of(digits),
        digits => number_of(digits),
    }
}

/// What a word is that may be a number.
fn number_word(word: &[u8]) -> Word {
    let (digits, is_ended) = match word {
        [digits @ .., b';'] => (digits, true),
        digits => (digits, false),
    };
    match signed_number(digits) {
        Some(number) => Word::Number(number, is_ended),
        None => Word::Other,
    }
}

/// What a word is.
fn word_of(word: &[u8]) -> Word {
    match word {
        b">=" => Word::Relation,
        b"=" => Word::Equals,
        b";" => Word::Semicolon,
        [b'x', digits @ ..] => match number_of(digits) {
            Some(variable) => Word::Variable(variable),
            None => Word::Other,
        },
        other => number_word(other),
    }
}

/// What is due in a constraint: a coefficient or `>=`, at first or behind a term; a variable; the bound; `;`; nothing more.
#[derive(Clone, Copy)]
enum Due {
    First,
    Later,
    Variable,
    Bound,
    End,
    Nothing,
}

/// What is due behind a number.
fn behind_number(due: Due, number: i128, is_ended: bool) -> Result<Due, OpbCause> {
    if size(number) > WIDEST {
        return Err(OpbCause::Wide);
    }
    match (due, is_ended) {
        (Due::First | Due::Later, false) => Ok(Due::Variable),
        (Due::Bound, false) => Ok(Due::End),
        (Due::Bound, true) => Ok(Due::Nothing),
        _ => Err(OpbCause::Form),
    }
}

/// What is due behind a variable.
fn behind_variable(due: Due, variable: i128, variables: u32) -> Result<Due, OpbCause> {
    if let Due::Later = due {
        return Err(OpbCause::Product);
    }
    if variable < 1 || variable > i128::from(variables) {
        return Err(OpbCause::NoSuchVariable);
    }
    match due {
        Due::Variable => Ok(Due::Later),
        _ => Err(OpbCause::Form),
    }
}

/// What is due behind a word, or what is wrong with it.
fn behind(due: Due, word: Word, variables: u32) -> Result<Due, OpbCause> {
    match (word, due) {
        (Word::Number(number, is_ended), _) => behind_number(due, number, is_ended),
        (Word::Variable(variable), _) => behind_variable(due, variable, variables),
        (Word::Relation, Due::First | Due::Later) => Ok(Due::Bound),
        (Word::Equals, Due::First | Due::Later) => Err(OpbCause::Equality),
        (Word::Semicolon, Due::End) => Ok(Due::Nothing),
        _ => Err(OpbCause::Form),
    }
}

/// Whether the words are of the form.
fn judge_form(words: &[&[u8]], variables: u32) -> Result<(), OpbCause> {
    let mut due = Due::First;
    for word in words {
        due = behind(due, word_of(word), variables)?;
    }
    match due {
        Due::Nothing => Ok(()),
        _ => Err(OpbCause::Form),
    }
}

/// The terms and the bound of words that are of the form: each number stands before its variable, and the last one is the bound.
fn terms_in(alloc: Global, words: &[&[u8]]) -> Result<Terms, AllocError> {
    let mut terms = Vec::new(alloc);
    let mut last: i128 = 0;
    for word in words {
        match word_of(word) {
            Word::Number(number, _) => last = number,
            Word::Variable(variable) => {
                terms.push((u32::try_from(variable).unwrap_or(0), last))?;
            }
            _ => (),
        }
    }
    Ok(Terms { terms, bound: last })
}

/// Whether the sum of the coefficients, without their signs, of words that are of the form is too
/// great.
fn is_wide(words: &[&[u8]]) -> bool {
    let mut sum: i128 = 0;
    let mut last: i128 = 0;
    for word in words {
        match word_of(word) {
            Word::Number(number, _) => last = number,
            Word::Variable(_) => sum = sum.saturating_add(size(last)),
            _ => (),
        }
    }
    sum > WIDEST
}

/// Whether a line is no constraint: it is blank or a comment.
fn is_passed_over(words: &[&[u8]]) -> bool {
    match words.first() {
        Some(word) => word.starts_with(b"*"),
        None => true,
    }
}

/// The fault of a line.
fn fault(line: u64, cause: OpbCause) -> OpbFault {
    OpbFault::Line { line, cause }
}

/// Whether a line tells what is to be least or greatest.
fn is_objective(words: &[&[u8]]) -> bool {
    match words.first() {
        Some(word) => word.starts_with(b"min:") || word.starts_with(b"max:"),
        None => false,
    }
}

/// Whether the words are a constraint that is not too wide.
fn judge(words: &[&[u8]], variables: u32) -> Result<(), OpbCause> {
    if is_objective(words) {
        return Err(OpbCause::Objective);
    }
    judge_form(words, variables)?;
    if is_wide(words) {
        return Err(OpbCause::Wide);
    }
    Ok(())
}

/// Puts the constraint of a line behind these, if it is one and not passed over.
fn add_constraint(
    alloc: Global,
    constraints: &mut Vec<Terms>,
    words: &[&[u8]],
    variables: u32,
    line: u64,
) -> Result<(), OpbFault> {
    if is_passed_over(words) {
        return Ok(());
    }
    if let Err(cause) = judge(words, variables) {
        return Err(fault(line, cause));
    }
    constraints.push(terms_in(alloc, words)?)?;
    Ok(())
}

/// The numbers of variables and of constraints that the first line tells.
fn head_in(words: &[&[u8]]) -> Option<(u32, u64)> {
    let [star, variable, n, constraint, m, ..] = words else {
        return None;
    };
    let are_there = *star == b"*".as_slice()
        && *variable == b"#variable=".as_slice()
        && *constraint == b"#constraint=".as_slice();
    let (variables, count) = (number_of(n)?, number_of(m)?);
    if !are_there || count >= 1 << 63 {
        return None;
    }
    Some((u32::try_from(variables).ok()?, u64::try_from(count).ok()?))
}

/// Takes the CR at the end off each piece but the last.
fn strip_ends(pieces: &mut [&[u8]]) {
    let ends = pieces.len().saturating_sub(1);
    for piece in pieces.iter_mut().take(ends) {
        if let [front @ .., b'\r'] = *piece {
            *piece = front;
        }
    }
}

/// The lines of a text: a CR right before an LF is none of the line, and the last line may lack its LF.
fn lines_of<'a>(alloc: Global, text: &'a [u8]) -> Result<Vec<&'a [u8]>, AllocError> {
    let mut lines = pieces_of(alloc, text, b"\n")?;
    strip_ends(&mut lines);
    if let Some([]) = lines.last() {
        lines.pop();
    }
    Ok(lines)
}

/// The numbers that the first of these lines tells.
fn head_of(alloc: Global, lines: &[&[u8]]) -> Result<(u32, u64), OpbFault> {
    let words = words_of(alloc, lines.first().copied().unwrap_or(b""))?;
    head_in(&words).ok_or(fault(1, OpbCause::Header))
}

/// Puts the constraints of the lines behind the first one behind these.
fn read_constraints(
    alloc: Global,
    constraints: &mut Vec<Terms>,
    lines: &[&[u8]],
    variables: u32,
) -> Result<(), OpbFault> {
    let mut number: u64 = 0;
    for line in lines {
        number = number.wrapping_add(1);
        if number > 1 {
            let words = words_of(alloc, line)?;
            add_constraint(alloc, constraints, &words, variables, number)?;
        }
    }
    Ok(())
}

/// What the lines of a text say, or the first faulty one.
fn encoding_of(alloc: Global, lines: &[&[u8]]) -> Result<Encoding, OpbFault> {
    let (variables, count) = head_of(alloc, lines)?;
    let mut read = Encoding {
        variables,
        constraints: Vec::new(alloc),
    };
    read_constraints(alloc, &mut read.constraints, lines, variables)?;
    if read.constraints.len() as u64 != count {
        let end = (lines.len() as u64).wrapping_add(1);
        return Err(fault(end, OpbCause::Count));
    }
    Ok(read)
}

/// What a text says, or its first faulty line.
pub fn encoding_in(alloc: Global, text: &[u8]) -> Result<Encoding, OpbFault> {
    let lines = lines_of(alloc, text)?;
    encoding_of(alloc, &lines)
}
