//! One pass over the bytes of a text, a line at a time.

ghost use Rattle.std.specs.Prelude.{◌≡◌, ◌++◌, IfOk, OnOk};
ghost use Rattle.log_theory.specs.OpbReading.{opb_answer};
ghost use Rattle.log_theory.specs.OpbText.{AreConstraints};
ghost use Rattle.opb_text.specs.Lines.{Answers, LinesSay, as_list};

use crate::constraint_line::read_line;
use crate::fault::{LineFault, OpbFault};
use crate::head::read_head;
use crate::line_words::first_line;
use crate::model::Model;
use log_theory::OpbCause;
use pb_terms::Constraint;
use std::alloc::{AllocError, Global};

/// Puts a constraint at the end, where there is one.
fn push_found(
    constraints: &mut Vec<Constraint>,
    found: Option<Constraint>,
) -> Result<(), AllocError>
    ensures { OnOk result (constraints.new.items ≡ constraints.old.items ++ as_list found) }
{
    match found {
        Some(constraint) => constraints.push(constraint)?,
        None => {}
    }
    Ok(())
}

/// The constraints of the lines from the second on, and the number of the line after the last.
fn read_lines(
    alloc: Global,
    text: &[u8],
    variables: u32,
) -> Result<(Vec<Constraint>, u64), OpbFault>
    ensures says { LinesSay variables text.now result }
    ensures within { IfOk result (λ r. AreConstraints variables r.0.items) }
{
    let mut constraints = Vec::new(alloc);
    let mut terms = Vec::new(alloc);
    let mut rest = text;
    let mut number: u64 = 2;
    while let Some((line, more)) = first_line(rest) {
        match read_line(alloc, line, variables, &mut terms) {
            Ok(found) => push_found(&mut constraints, found)?,
            Err(LineFault::Faulty(cause)) => {
                return Err(OpbFault::Line {
                    line: number,
                    cause,
                });
            }
            Err(LineFault::NoMemory) => return Err(OpbFault::NoMemory),
        }
        rest = more;
        number += 1;
    }
    Ok((constraints, number))
}

/// The model that a text tells, or its first faulty line, counted from 1, with the cause.
///
/// It goes over the bytes a few times, line by line, in time linear in their number, but for a line whose terms do not
/// rise by variable, which are sorted. It takes memory for the constraints alone, with one list for the terms of a line.
/// What `write_opb` puts for a model within the limits of the format is read as that model, by `opb_law` of `log_theory`;
/// each model that is read is within them.
pub fn read_opb(alloc: Global, bytes: &[u8]) -> Result<Model, OpbFault>
    ensures { Answers result (opb_answer bytes.now) }
{
    let Some((line, rest)) = first_line(bytes) else {
        return Err(OpbFault::Line {
            line: 1,
            cause: OpbCause::Header,
        });
    };
    let Some((variables, count)) = read_head(line) else {
        return Err(OpbFault::Line {
            line: 1,
            cause: OpbCause::Header,
        });
    };
    let (constraints, end) = read_lines(alloc, rest, variables)?;
    if constraints.len() as u64 == count {
        Ok(Model::new(variables, constraints))
    } else {
        Err(OpbFault::Line {
            line: end,
            cause: OpbCause::Count,
        })
    }
}
