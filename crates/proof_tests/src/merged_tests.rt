//! Logs to the letter: a triangle into a cycle of four, whose refutation two owners share, and an edge into an edge.

ghost use Rattle.std.specs.Prelude.{◌≡◌, ◌+◌, ◌≤◌, [], ◌∷◌, length, IsTrue, IfOk, OnOk};
ghost use Rattle.journals.specs.Keeping.{IsLine};
ghost use Rattle.log_theory.specs.LogText.{IsStep};

use crate::checker_tests::Expected::{Is, Stops};
use crate::checker_tests::Whole;
use crate::file_tests::sink_of;
use journals::{Journal, Keeper};
use log_theory::{Cause, Name, Profile, Step, Variables, Verdict};
use merged_log::{write_refutation, write_solution, write_undecided};
use nogood_book::{Row, RowKind};
use outer_io::MemorySink;
use proof_log::read_step;
use std::alloc::{AllocError, Global};
use std::test::Fail;
use test_support::all_hold;
use test_support::models::TRIANGLE_INTO_CYCLE;

/// Whether a step is a line that a journal can keep.
fn is_line(step: &Step) -> bool
    ensures { IsTrue result → IsStep step.now → IsLine step.now }
{
    match step {
        Step::P { .. } => true,
        Step::U { .. } => true,
        _ => false,
    }
}

/// Keeps the line that a text tells.
fn keep(alloc: Global, journal: &mut Journal, line: &[u8]) -> Result<(), AllocError>
    ensures owner { journal.new.owner ≡ journal.old.owner }
    ensures notes { journal.new.notes ≡ journal.old.notes }
    ensures lines { OnOk result (length journal.new.steps ≡ length journal.old.steps + 1) }
{
    let Ok(step) = read_step(alloc, Profile::Hinted, line) else {
        return Err(AllocError);
    };
    if !is_line(&step) {
        return Err(AllocError);
    }
    journal.keep(step)?;
    Ok(())
}

/// A journal of some lines, one of which is noted for a row.
fn journal(
    alloc: Global,
    owner: u8,
    lines: &[&[u8]],
    row: u32,
    number: u64,
) -> Result<Journal, AllocError>
    requires { owner ≤ 64 }
    ensures owner { IfOk result (λ j. j.owner ≡ owner) }
    ensures notes { IfOk result (λ j. j.notes ≡ (row, number) ∷ []) }
    ensures lines { IfOk result (λ j. length j.steps ≡ length lines.now) }
{
    let mut journal = Journal::new(alloc, owner);
    for line in lines {
        keep(alloc, &mut journal, line)?;
    }
    journal.room()?;
    journal.note(row, Name { owner, number });
    Ok(journal)
}

/// That vertex 0 of the triangle does not go to 0.
const FIRST: [&[u8]; 3] = [
    b"p 0.1 15 24 + 6 + ;",
    b"p 0.1 15 26 + 6 + ;",
    b"u 0.1 ~x1 ; 1.1 1.2 11 ;",
];

/// That it does not go to 1, and since it does not go to 0 either, nowhere.
const SECOND: [&[u8]; 10] = [
    b"p 0.1 16 23 + 6 + ;",
    b"p 0.1 16 25 + 6 + ;",
    b"u 0.1 ~x2 ; 2.1 2.2 12 ;",
    b"p 0.1 17 24 + 6 + ;",
    b"p 0.1 17 26 + 6 + ;",
    b"u 0.1 ~x3 ; 2.4 2.5 13 ;",
    b"p 0.1 18 23 + 6 + ;",
    b"p 0.1 18 25 + 6 + ;",
    b"u 0.1 ~x4 ; 2.7 2.8 14 ;",
    b"u 0.1 ; #0 2.3 2.6 2.9 1 ;",
];

const MERGED: &[u8] =
    b"embedding proof 1\nm 34\np 1.1 15 24 + 6 + ;\np 1.2 15 26 + 6 + ;\nu 1.3 ~x1 ; 1.1 1.2 11 ;\nn 0 1.3\n\
p 2.1 16 23 + 6 + ;\np 2.2 16 25 + 6 + ;\nu 2.3 ~x2 ; 2.1 2.2 12 ;\nn 1 2.3\np 2.4 17 24 + 6 + ;\np 2.5 17 26 + 6 + ;\n\
u 2.6 ~x3 ; 2.4 2.5 13 ;\np 2.7 18 23 + 6 + ;\np 2.8 18 25 + 6 + ;\nu 2.9 ~x4 ; 2.7 2.8 14 ;\nu 2.10 ; #0 2.3 2.6 2.9 1 ;\ne 2.10\n";

fn nogood(owner: u8, value: u16) -> Row
    ensures { result.owner ≡ owner }
{
    Row {
        kind: RowKind::Nogood,
        owner,
        parent: None,
        vertex: 0,
        value,
    }
}

/// Whether the lines of both owners, of which each notes one row, are put as one log.
fn are_put(
    alloc: Global,
    first: Journal,
    second: Journal,
    sink: &mut MemorySink,
) -> Result<bool, AllocError>
    requires first_owner { first.owner ≡ 1 }
    requires first_notes { first.notes ≡ (0, 3) ∷ [] }
    requires first_lines { length first.steps ≡ 3 }
    requires second_owner { second.owner ≡ 2 }
    requires second_notes { second.notes ≡ (1, 3) ∷ [] }
    requires second_lines { length second.steps ≡ 10 }
{
    let mut journals = Vec::with_capacity(alloc, 3)?;
    journals.push_reserved(Journal::new(alloc, 0));
    journals.push_reserved(first);
    journals.push_reserved(second);
    let rows = [nogood(1, 0), nogood(2, 1)];
    Ok(write_refutation(Profile::Hinted, 34, &journals, &rows, 2, sink).is_ok())
}

/// Whether the lines of both owners are merged as this text.
fn are_merged(alloc: Global, text: &[u8]) -> Result<bool, AllocError> {
    let mut sink = sink_of(alloc, 4096)?;
    let first = journal(alloc, 1, &FIRST, 0, 3)?;
    let second = journal(alloc, 2, &SECOND, 1, 3)?;
    Ok(are_put(alloc, first, second, &mut sink)? && sink.bytes() == text)
}

#[test]
fn journals_of_two_owners_are_merged(rt: HostRuntime) -> Result<(), Fail> {
    assert!(rt; are_merged(rt.alloc(), MERGED)?);
    Ok(())
}

/// Whether a log of a search that was not decided is this text.
fn is_undecided_log(alloc: Global, text: &[u8]) -> Result<bool, AllocError> {
    let mut sink = sink_of(alloc, 4096)?;
    let is_written = write_undecided(Profile::Hinted, 34, &mut sink).is_ok();
    Ok(is_written && sink.bytes() == text)
}

/// Whether a log of a solution in which `x1` and `x4` are one is this text.
fn is_solution_log(alloc: Global, text: &[u8]) -> Result<bool, AllocError> {
    let mut sink = sink_of(alloc, 4096)?;
    let ones = Variables::new(Vec::from_slice(alloc, &[1u32, 4])?);
    let is_written = write_solution(Profile::Hinted, 10, ones, &mut sink).is_ok();
    Ok(is_written && sink.bytes() == text)
}

#[test]
fn a_log_of_nothing_is_a_head_and_a_line(rt: HostRuntime) -> Result<(), Fail> {
    assert!(rt; is_undecided_log(rt.alloc(), b"embedding proof 1\nm 34\nq\n")?);
    Ok(())
}

#[test]
fn a_log_of_a_solution_is_a_head_and_a_line(rt: HostRuntime) -> Result<(), Fail> {
    assert!(rt; is_solution_log(rt.alloc(), b"embedding proof 1\nm 10\ny x1 x4\n")?);
    Ok(())
}

/// The merged log with the lines of the two owners, up to what they share, in the other order.
const EXCHANGED: &[u8] =
    b"embedding proof 1\nm 34\np 2.1 16 23 + 6 + ;\np 2.2 16 25 + 6 + ;\nu 2.3 ~x2 ; 2.1 2.2 12 ;\nn 1 2.3\n\
p 1.1 15 24 + 6 + ;\np 1.2 15 26 + 6 + ;\nu 1.3 ~x1 ; 1.1 1.2 11 ;\nn 0 1.3\np 2.4 17 24 + 6 + ;\np 2.5 17 26 + 6 + ;\n\
u 2.6 ~x3 ; 2.4 2.5 13 ;\np 2.7 18 23 + 6 + ;\np 2.8 18 25 + 6 + ;\nu 2.9 ~x4 ; 2.7 2.8 14 ;\nu 2.10 ; #0 2.3 2.6 2.9 1 ;\ne 2.10\n";

/// Constraint 1 alone, of two variables.
const ONE_OF_TWO: &[u8] = b"* #variable= 2 #constraint= 1\n+1 x1 +1 x2 >= 1 ;\n";

static JUDGED: [Whole; 4] = [
    Whole {
        model: TRIANGLE_INTO_CYCLE,
        log: MERGED,
        verdict: Is(Verdict::Unsatisfiable),
    },
    Whole {
        model: TRIANGLE_INTO_CYCLE,
        log: EXCHANGED,
        verdict: Stops(10, Cause::Order),
    },
    Whole {
        model: TRIANGLE_INTO_CYCLE,
        log: b"embedding proof 1\nm 34\nq\n",
        verdict: Is(Verdict::Undecided),
    },
    Whole {
        model: ONE_OF_TWO,
        log: b"embedding proof 1\nm 1\ny x2\n",
        verdict: Is(Verdict::Satisfiable),
    },
];

#[test]
fn the_checker_goes_by_the_order_of_the_rows(rt: HostRuntime) -> Result<(), Fail> {
    all_hold(&rt, rt.alloc(), &JUDGED)
}
