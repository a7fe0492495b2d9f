//! A log judged plainly, by the page on the formats: whatever was made is kept under its name, and looked for from the first on.

use crate::plain_encoding::Terms;
use crate::plain_items::{
    all_of, name_of, numeral_of, operations_of, parted, reference_of, row_number_of,
};
use crate::plain_rows::{
    Row, divided, is_false, is_wide, row_of, row_of_literals, saturated, sum, times,
};
use crate::plain_stops::{Stop, of_form, refuse_if};
use crate::plain_values::{holds, is_contradicted, values_without};
use crate::plain_words::pieces_of;
use log_theory::{Cause, Name, Op, Ref, Verdict};
use proof_theory::Literal;
use std::alloc::{AllocError, Global};

/// What stands while a log is gone through: the constraints by all that refers to them, those of the encoding in front. What was
/// deleted leaves its name without one.
#[derive(Drop)]
pub struct Log {
    variables: u32,
    constraints: usize,
    is_hinted: bool,
    named: Vec<(Ref, Option<Row>)>,
}

/// Where a name is among those that were given.
fn place_of(log: &Log, reference: Ref) -> Option<usize> {
    for at in 0..log.named.len() {
        if log.named[at].0 == reference {
            return Some(at);
        }
    }
    None
}

/// What a reference names.
fn find<'a>(log: &'a Log, reference: Ref) -> Result<&'a Row, Stop> {
    for (name, row) in &log.named {
        if let Some(row) = row
            && *name == reference
        {
            return Ok(row);
        }
    }
    Err(Stop::Cause(Cause::NoSuchName))
}

/// Whether what one name refers to bears on the order of the other: it was made by the same owner, or is a row of a greater number.
fn bears_on(one: Ref, other: Ref) -> bool {
    match (one, other) {
        (Ref::Made(one), Ref::Made(other)) => one.owner == other.owner,
        (Ref::Shared(one), Ref::Shared(other)) => one > other,
        _ => false,
    }
}

/// How many names bear on the order of this one.
fn bearing_on(log: &Log, reference: Ref) -> u64 {
    let mut found: u64 = 0;
    for (name, _) in &log.named {
        if bears_on(*name, reference) {
            found = found.wrapping_add(1);
        }
    }
    found
}

/// Refuses a name that is given, or out of order where so many have to bear on it.
fn expect_new(log: &Log, reference: Ref, bearing: u64) -> Result<(), Stop> {
    refuse_if(place_of(log, reference).is_some(), Cause::NameUsed)?;
    refuse_if(bearing_on(log, reference) != bearing, Cause::Order)
}

/// Refuses a name that is given, or is not the next one of its owner.
fn expect_next(log: &Log, name: Name) -> Result<(), Stop> {
    expect_new(log, Ref::Made(name), name.number.wrapping_sub(1))
}

/// Keeps a row under its name; a line that has one kept claims nothing.
fn keep(log: &mut Log, reference: Ref, row: Row) -> Result<Option<Verdict>, Stop> {
    log.named.push((reference, Some(row)))?;
    Ok(None)
}

/// The row that one operation makes of the upper ones of a stack.
fn made_of(alloc: Global, log: &Log, stack: &[Row], op: Op) -> Result<Row, Stop> {
    match (op, stack) {
        (Op::Push(reference), _) => times(alloc, find(log, reference)?, 1),
        (Op::Axiom(literal), _) => row_of_literals(alloc, log.variables, &[literal], 0),
        (Op::Times(0) | Op::Divide(0), _) => Err(Stop::Cause(Cause::Zero)),
        (Op::Add, [.., lower, upper]) => sum(alloc, lower, upper),
        (Op::Times(n), [.., upper]) => times(alloc, upper, i128::from(n)),
        (Op::Divide(n), [.., upper]) => divided(alloc, upper, i128::from(n)),
        (Op::Saturate, [.., upper]) => saturated(alloc, upper),
        _ => Err(Stop::Cause(Cause::Stack)),
    }
}

/// How many rows of a stack an operation takes.
fn taken_by(op: Op) -> usize {
    match op {
        Op::Push(_) | Op::Axiom(_) => 0,
        Op::Times(_) | Op::Divide(_) | Op::Saturate => 1,
        Op::Add => 2,
    }
}

/// Puts a row on a stack, in place of its upper ones, and refuses one that is too wide.
fn put(stack: &mut Vec<Row>, taken: usize, row: Row) -> Result<(), Stop> {
    let is_wide = is_wide(&row);
    stack.truncate(stack.len().saturating_sub(taken));
    stack.push(row)?;
    refuse_if(is_wide, Cause::Wide)
}

/// Leaves on a stack what operations make.
fn operate(alloc: Global, log: &Log, stack: &mut Vec<Row>, operations: &[Op]) -> Result<(), Stop> {
    for op in operations {
        let row = made_of(alloc, log, stack, *op)?;
        put(stack, taken_by(*op), row)?;
    }
    refuse_if(stack.len() != 1, Cause::Stack)
}

/// The one row that operations leave, to be known by this name.
fn calculated(alloc: Global, log: &Log, name: Name, operations: &[Op]) -> Result<Row, Stop> {
    expect_next(log, name)?;
    let mut stack = Vec::new(alloc);
    operate(alloc, log, &mut stack, operations)?;
    stack.pop().ok_or(Stop::Cause(Cause::Stack))
}

/// The row of a name and `OPERATIONS ;`.
fn calculated_in(alloc: Global, log: &Log, name: Name, words: &[&[u8]]) -> Result<Row, Stop> {
    let (front, behind) = of_form(parted(words))?;
    refuse_if(!behind.is_empty(), Cause::Form)?;
    let operations = operations_of(alloc, front, log.variables)?;
    calculated(alloc, log, name, &operations)
}

/// `p NAME OPERATIONS ;`, from the name on.
fn calculate(alloc: Global, log: &mut Log, words: &[&[u8]]) -> Result<Option<Verdict>, Stop> {
    let (word, rest) = of_form(words.split_first())?;
    let name = of_form(name_of(word))?;
    let row = calculated_in(alloc, log, name, rest)?;
    keep(log, Ref::Made(name), row)
}

/// Whether a variable stands twice among literals.
fn is_twice(literals: &[Literal]) -> bool {
    let mut number: u64 = 0;
    for literal in literals {
        for other in literals {
            if literal.variable == other.variable {
                number = number.wrapping_add(1);
            }
        }
    }
    number != literals.len() as u64
}

/// Whether the references, one after another, come to a contradiction under these values.
fn contradict(log: &Log, values: &mut [Option<bool>], references: &[Ref]) -> Result<bool, Stop> {
    let mut is_found = false;
    for reference in references {
        let row = find(log, *reference)?;
        is_found = is_found || is_contradicted(row, values);
    }
    Ok(is_found)
}

/// Whether one of all constraints is contradicted, when they are gone through once.
fn is_any_contradicted(log: &Log, values: &mut [Option<bool>]) -> bool {
    for (_, row) in &log.named {
        if let Some(row) = row
            && is_contradicted(row, values)
        {
            return true;
        }
    }
    false
}

/// Whether all constraints, in whatever order, come to a contradiction under these values. Each
/// time that they are gone through and anything follows, one variable more has a value.
fn spread(log: &Log, values: &mut [Option<bool>]) -> bool {
    for _ in 0..=log.variables {
        if is_any_contradicted(log, values) {
            return true;
        }
    }
    false
}

/// Whether there is a contradiction where the literals are false, by the references in a log with
/// hints.
fn is_implied(
    alloc: Global,
    log: &Log,
    literals: &[Literal],
    references: &[Ref],
) -> Result<bool, Stop> {
    let mut values = values_without(alloc, log.variables, literals)?;
    if log.is_hinted {
        contradict(log, &mut values, references)
    } else {
        Ok(spread(log, &mut values))
    }
}

/// The words of references behind those of literals, in a log without hints none.
fn references_in<'a, 'b>(log: &Log, behind: &'b [&'a [u8]]) -> Result<&'b [&'a [u8]], Stop> {
    match (log.is_hinted, parted(behind)) {
        (true, Some((front, []))) => Ok(front),
        (false, _) if behind.is_empty() => Ok(behind),
        _ => Err(Stop::Cause(Cause::Form)),
    }
}

/// The row of literals that follow, to be known by this name.
fn followed(
    alloc: Global,
    log: &Log,
    name: Name,
    literals: &[Literal],
    references: &[Ref],
) -> Result<Row, Stop> {
    expect_next(log, name)?;
    refuse_if(is_twice(literals), Cause::Twice)?;
    let is_found = is_implied(alloc, log, literals, references)?;
    refuse_if(!is_found, Cause::NoConflict)?;
    row_of_literals(alloc, log.variables, literals, 1)
}

/// The row of a name and `LITERALS ; REFERENCES ;`, or `LITERALS ;` in a log without hints.
fn followed_in(alloc: Global, log: &Log, name: Name, words: &[&[u8]]) -> Result<Row, Stop> {
    let (front, behind) = of_form(parted(words))?;
    let behind = references_in(log, behind)?;
    let literals = all_of(alloc, front, log.variables)?;
    let references = all_of(alloc, behind, log.variables)?;
    followed(alloc, log, name, &literals, &references)
}

/// `u NAME LITERALS ; REFERENCES ;`, or `u NAME LITERALS ;` in a log without hints, from the name on.
fn follow(alloc: Global, log: &mut Log, words: &[&[u8]]) -> Result<Option<Verdict>, Stop> {
    let (word, rest) = of_form(words.split_first())?;
    let name = of_form(name_of(word))?;
    let row = followed_in(alloc, log, name, rest)?;
    keep(log, Ref::Made(name), row)
}

/// `n K NAME`, from K on.
fn rename(alloc: Global, log: &mut Log, words: &[&[u8]]) -> Result<Option<Verdict>, Stop> {
    let [row, name] = words else {
        return Err(Stop::Cause(Cause::Form));
    };
    let row = of_form(row_number_of(row))?;
    let name = of_form(name_of(name))?;
    expect_new(log, Ref::Shared(row), 0)?;
    let named = times(alloc, find(log, Ref::Made(name))?, 1)?;
    keep(log, Ref::Shared(row), named)
}

/// Takes the row from a name that one stands under.
fn take_from(log: &mut Log, reference: Ref) -> Result<Option<Verdict>, Stop> {
    find(log, reference)?;
    if let Some(at) = place_of(log, reference)
        && at < log.named.len()
    {
        log.named[at].1 = None;
    }
    Ok(None)
}

/// `d REFERENCE`, from the reference on.
fn delete(log: &mut Log, words: &[&[u8]]) -> Result<Option<Verdict>, Stop> {
    let [word] = words else {
        return Err(Stop::Cause(Cause::Form));
    };
    let reference = of_form(reference_of(word))?;
    refuse_if(matches!(reference, Ref::Line(_)), Cause::Form)?;
    take_from(log, reference)
}

/// Whether a variable stands twice.
fn is_one_twice(ones: &[u32]) -> bool {
    for i in 0..ones.len() {
        if ones[..i].contains(&ones[i]) {
            return true;
        }
    }
    false
}

/// Whether each constraint of the encoding holds where exactly these variables are 1.
fn do_hold(log: &Log, ones: &[u32]) -> bool {
    for (name, row) in &log.named {
        if let (Ref::Line(_), Some(row)) = (name, row)
            && !holds(row, ones)
        {
            return false;
        }
    }
    true
}

/// `e REFERENCE`, from the reference on.
fn claim_none(log: &Log, words: &[&[u8]]) -> Result<Option<Verdict>, Stop> {
    let [word] = words else {
        return Err(Stop::Cause(Cause::Form));
    };
    let row = find(log, of_form(reference_of(word))?)?;
    refuse_if(!is_false(row), Cause::NotFalse)?;
    Ok(Some(Verdict::Unsatisfiable))
}

/// `y VARIABLES`, from the variables on.
fn claim_solution(alloc: Global, log: &Log, words: &[&[u8]]) -> Result<Option<Verdict>, Stop> {
    let ones = all_of(alloc, words, log.variables)?;
    refuse_if(is_one_twice(&ones), Cause::Twice)?;
    refuse_if(!do_hold(log, &ones), Cause::NotSolution)?;
    Ok(Some(Verdict::Satisfiable))
}

/// What a last line claims, by its kind and the words behind that.
fn claim(alloc: Global, log: &Log, kind: &[u8], words: &[&[u8]]) -> Result<Option<Verdict>, Stop> {
    match kind {
        b"e" => claim_none(log, words),
        b"y" => claim_solution(alloc, log, words),
        b"q" if words.is_empty() => Ok(Some(Verdict::Undecided)),
        _ => Err(Stop::Cause(Cause::Form)),
    }
}

/// Does what the words of a line behind the second say; what a last line claims.
fn take_words(alloc: Global, log: &mut Log, all: &[&[u8]]) -> Result<Option<Verdict>, Stop> {
    let (kind, words) = of_form(all.split_first())?;
    match *kind {
        b"p" => calculate(alloc, log, words),
        b"u" => follow(alloc, log, words),
        b"n" => rename(alloc, log, words),
        b"d" => delete(log, words),
        _ => claim(alloc, log, kind, words),
    }
}

/// Does what a line behind the second says; what a last line claims.
fn take(alloc: Global, log: &mut Log, line: &[u8]) -> Result<Option<Verdict>, Stop> {
    let all = pieces_of(alloc, line, b" ")?;
    take_words(alloc, log, &all)
}

/// Does what a line says that has this number, from 1.
fn take_line(
    alloc: Global,
    log: &mut Log,
    number: u64,
    line: &[u8],
) -> Result<Option<Verdict>, Stop> {
    if number == 1 {
        log.is_hinted = line == b"embedding proof 1".as_slice();
        let is_second = line == b"embedding proof 2".as_slice();
        refuse_if(!log.is_hinted && !is_second, Cause::Form)?;
        return Ok(None);
    }
    if number > 2 {
        return take(alloc, log, line);
    }
    let count = match line {
        [b'm', b' ', count @ ..] => of_form(numeral_of(count))?,
        _ => return Err(Stop::Cause(Cause::Form)),
    };
    refuse_if(count != log.constraints as u64, Cause::Form)?;
    Ok(None)
}

/// What a piece of a log comes to: the claim of its last line stands already or not, and the text ends behind the piece or not.
fn take_piece(
    alloc: Global,
    log: &mut Log,
    shown: Option<Verdict>,
    number: u64,
    piece: &[u8],
    is_last: bool,
) -> Result<Option<Verdict>, Stop> {
    match shown {
        Some(verdict) => {
            refuse_if(!is_last || !piece.is_empty(), Cause::Form)?;
            Ok(Some(verdict))
        }
        None => {
            refuse_if(is_last, Cause::EndsEarly)?;
            take_line(alloc, log, number, piece)
        }
    }
}

/// What a log shows.
pub fn verdict_of(alloc: Global, log: &mut Log, text: &[u8]) -> Result<Verdict, AllocError> {
    let pieces = pieces_of(alloc, text, b"\n")?;
    let mut shown = None;
    let mut line: u64 = 0;
    for piece in &pieces {
        line = line.wrapping_add(1);
        let is_last = line == pieces.len() as u64;
        match take_piece(alloc, log, shown, line, piece, is_last) {
            Ok(next) => shown = next,
            Err(Stop::Cause(cause)) => return Ok(Verdict::Refused { line, cause }),
            Err(Stop::NoMemory) => return Ok(Verdict::NoMemory),
        }
    }
    Ok(shown.unwrap_or(Verdict::NoMemory))
}

/// A log over constraints of an encoding before its first line.
pub fn begun(alloc: Global, variables: u32, constraints: &[Terms]) -> Result<Log, AllocError> {
    let mut named = Vec::new(alloc);
    let mut number: u64 = 0;
    for terms in constraints {
        number = number.wrapping_add(1);
        let row = row_of(alloc, variables, &terms.terms, terms.bound)?;
        named.push((Ref::Line(number), Some(row)))?;
    }
    Ok(Log {
        variables,
        constraints: named.len(),
        is_hinted: true,
        named,
    })
}
