//! The text of a model, put piece by piece.

ghost use Rattle.std.specs.Prelude.{◌≡◌, ◌++◌, OnOk, IfSome, codes};
ghost use Rattle.std.specs.Fmt.{signed_decimal};
ghost use Rattle.std.specs.List.{flat_map};
ghost use Rattle.outer_io.specs.KnownText.{Wrote};
ghost use Rattle.outer_io.specs.Sinks.{HasBlame};
ghost use Rattle.log_theory.specs.Words.{line_text};
ghost use Rattle.log_theory.specs.OpbText.{head_words, coefficient_word, form_words, opb_text};
ghost use Rattle.opb_text.specs.Pieces.{term_text, end_text};

use itoa::Buffer;
use outer_io::{Failed, Sink, put_all};
use pb_terms::Constraint;
use std::alloc::AllocError;

/// Puts the first line, for so many variables and constraints: five calls of `put`. It takes no memory.
pub fn write_head<S: Sink>(variables: u32, count: u64, sink: &mut S) -> Result<(), Failed>
    ensures text { Wrote (S.spot sink.old).steady (S.contents sink.old) (S.contents sink.new) result
        (line_text (head_words variables count)) }
    ensures cause { HasBlame S.spot S.rest S.faults S.blamed sink.old sink.new result }
{
    let mut variable_digits = Buffer::new();
    let mut count_digits = Buffer::new();
    put_all(
        &[
            b"* #variable= ",
            variable_digits.format(variables).as_bytes(),
            b" #constraint= ",
            count_digits.format(count).as_bytes(),
            b"\n",
        ],
        sink,
    )
}

/// The sign that stands in front of a coefficient's digits, where they have none of their own.
fn sign_of(coefficient: i128) -> &'static [u8]
    ensures { result.now ++ signed_decimal coefficient ≡ coefficient_word coefficient }
{
    if coefficient < 0 { b"" } else { b"+" }
}

/// Puts a term and a blank.
fn write_term<S: Sink>(variable: u32, coefficient: i128, sink: &mut S) -> Result<(), Failed>
    ensures text { Wrote (S.spot sink.old).steady (S.contents sink.old) (S.contents sink.new) result
        (term_text (variable, coefficient)) }
    ensures cause { HasBlame S.spot S.rest S.faults S.blamed sink.old sink.new result }
{
    let mut digits = Buffer::new();
    let mut variable_digits = Buffer::new();
    put_all(
        &[
            sign_of(coefficient),
            digits.format(coefficient).as_bytes(),
            b" x",
            variable_digits.format(variable).as_bytes(),
            b" ",
        ],
        sink,
    )
}

/// Puts the terms, each with a blank behind it.
fn write_terms<S: Sink>(terms: &[(u32, i128)], sink: &mut S) -> Result<(), Failed>
    ensures text { Wrote (S.spot sink.old).steady (S.contents sink.old) (S.contents sink.new) result
        (flat_map term_text terms.now) }
    ensures cause { HasBlame S.spot S.rest S.faults S.blamed sink.old sink.new result }
{
    for &(variable, coefficient) in terms {
        write_term(variable, coefficient, sink)?;
    }
    Ok(())
}

/// Puts what follows the terms.
fn write_end<S: Sink>(bound: i128, sink: &mut S) -> Result<(), Failed>
    ensures text { Wrote (S.spot sink.old).steady (S.contents sink.old) (S.contents sink.new) result
        (end_text bound) }
    ensures cause { HasBlame S.spot S.rest S.faults S.blamed sink.old sink.new result }
{
    let mut digits = Buffer::new();
    put_all(&[b">= ", digits.format(bound).as_bytes(), b" ;\n"], sink)
}

/// Puts the line of a constraint: five calls of `put` for each term and three for the bound. It takes no memory.
pub fn write_line<S: Sink>(constraint: &Constraint, sink: &mut S) -> Result<(), Failed>
    ensures text { Wrote (S.spot sink.old).steady (S.contents sink.old) (S.contents sink.new) result
        (line_text (form_words constraint.now)) }
    ensures cause { HasBlame S.spot S.rest S.faults S.blamed sink.old sink.new result }
{
    write_terms(constraint.terms(), sink)?;
    write_end(constraint.bound(), sink)
}

/// Puts the lines of some constraints.
fn write_lines<S: Sink>(constraints: &[Constraint], sink: &mut S) -> Result<(), Failed>
    ensures text { Wrote (S.spot sink.old).steady (S.contents sink.old) (S.contents sink.new) result
        (flat_map (λ f. line_text (form_words f)) constraints.now) }
    ensures cause { HasBlame S.spot S.rest S.faults S.blamed sink.old sink.new result }
{
    for constraint in constraints {
        write_line(constraint, sink)?;
    }
    Ok(())
}

/// What stands in front of a term's variable, for the two coefficients that nearly all terms have.
fn unit_front(coefficient: i128) -> Option<&'static [u8]>
    ensures { IfSome result (λ front. front.now ≡ coefficient_word coefficient ++ codes " x") }
{
    if coefficient == 1 {
        return Some(b"+1 x");
    }
    if coefficient == -1 {
        return Some(b"-1 x");
    }
    None
}

/// Appends what stands in front of a term's variable.
fn append_front(coefficient: i128, text: &mut Vec<u8>) -> Result<(), AllocError>
    ensures { OnOk result
        (text.new.items ≡ text.old.items ++ (coefficient_word coefficient ++ codes " x")) }
{
    if let Some(front) = unit_front(coefficient) {
        return text.extend_from_slice(front);
    }
    let mut digits = Buffer::new();
    text.extend_from_slice(sign_of(coefficient))?;
    text.extend_from_slice(digits.format(coefficient).as_bytes())?;
    text.extend_from_slice(b" x")
}

/// Appends a term and a blank to a text.
fn append_term(variable: u32, coefficient: i128, text: &mut Vec<u8>) -> Result<(), AllocError>
    ensures { OnOk result (text.new.items ≡ text.old.items ++ term_text (variable, coefficient)) }
{
    append_front(coefficient, text)?;
    let mut digits = Buffer::new();
    text.extend_from_slice(digits.format(variable).as_bytes())?;
    text.push(b' ')?;
    Ok(())
}

/// Appends the terms, each with a blank behind it.
fn append_terms(terms: &[(u32, i128)], text: &mut Vec<u8>) -> Result<(), AllocError>
    ensures { OnOk result (text.new.items ≡ text.old.items ++ flat_map term_text terms.now) }
{
    for &(variable, coefficient) in terms {
        append_term(variable, coefficient, text)?;
    }
    Ok(())
}

/// Appends what follows the terms.
fn append_end(bound: i128, text: &mut Vec<u8>) -> Result<(), AllocError>
    ensures { OnOk result (text.new.items ≡ text.old.items ++ end_text bound) }
{
    let mut digits = Buffer::new();
    text.extend_from_slice(b">= ")?;
    text.extend_from_slice(digits.format(bound).as_bytes())?;
    text.extend_from_slice(b" ;\n")
}

/// Appends the line of a constraint to a text, the line that `write_line` puts, for a caller that puts many lines at once.
/// Cost: that of its bytes, and of the text's growth. Where memory is refused a part of the line may stand in the text.
pub fn append_line(constraint: &Constraint, text: &mut Vec<u8>) -> Result<(), AllocError>
    ensures { OnOk result
        (text.new.items ≡ text.old.items ++ line_text (form_words constraint.now)) }
{
    append_terms(constraint.terms(), text)?;
    append_end(constraint.bound(), text)
}

/// Puts the text of a model of so many variables: the first line, then a line for each constraint. It takes no memory.
pub fn write_opb<S: Sink>(
    variables: u32,
    constraints: &[Constraint],
    sink: &mut S,
) -> Result<(), Failed>
    ensures text { Wrote (S.spot sink.old).steady (S.contents sink.old) (S.contents sink.new) result
        (opb_text (record { variables = variables; constraints = constraints.now })) }
    ensures cause { HasBlame S.spot S.rest S.faults S.blamed sink.old sink.new result }
{
    write_head(variables, constraints.len() as u64, sink)?;
    write_lines(constraints, sink)
}
