//! Judging a proof log over an encoding. No graph is known here.

ghost use Rattle.std.specs.Prelude.{◌≡◌};
ghost use Rattle.subgraph_c.specs.Checking.{opb_cause, log_cause, verdict_told, told, IsTold};
ghost use Rattle.subgraph_c.specs.Reports.{fault_report};

use crate::passed::Report;
use crate::reports::{report_fault, report_images};
use log_theory::{Cause, OpbCause, Verdict};
use opb_text::{OpbFault, read_opb};
use proof_checker::check;
use std::alloc::Global;

/// A status with its report.
#[derive(Clone, Copy)]
pub struct Told {
    pub status: u32,
    pub report: Report,
}

/// The number of a cause for which a line of an encoding is refused.
fn number_of_opb(cause: OpbCause) -> u32
    ensures { result ≡ opb_cause cause }
{
    match cause {
        OpbCause::Header => 1,
        OpbCause::Objective => 2,
        OpbCause::Equality => 3,
        OpbCause::Product => 4,
        OpbCause::NoSuchVariable => 5,
        OpbCause::Wide => 6,
        OpbCause::Form => 7,
        OpbCause::Count => 8,
    }
}

/// The number of a cause for which a line of a log is refused.
fn number_of_line(cause: Cause) -> u32
    ensures { result ≡ log_cause cause }
{
    match cause {
        Cause::EndsEarly => 1,
        Cause::Form => 2,
        Cause::NameUsed => 3,
        Cause::Order => 4,
        Cause::Twice => 5,
        Cause::NoSuchName => 6,
        Cause::Stack => 7,
        Cause::Zero => 8,
        Cause::Wide => 9,
        Cause::NoConflict => 10,
        Cause::NotFalse => 11,
        Cause::NotSolution => 12,
    }
}

/// What is told of a log that is accepted with the claim of this number.
fn accepted(claim: u32) -> Told
    ensures { result ≡ told 0 (fault_report 0 0 claim) }
{
    Told {
        status: 0,
        report: report_fault(0, 0, claim),
    }
}

/// What is told of a verdict.
fn tell_verdict(verdict: Verdict) -> Told
    ensures { result ≡ verdict_told verdict }
{
    match verdict {
        Verdict::Unsatisfiable => accepted(1),
        Verdict::Satisfiable => accepted(2),
        Verdict::Undecided => accepted(3),
        Verdict::Refused { line, cause } => Told {
            status: 7,
            report: report_fault(2, line, number_of_line(cause)),
        },
        Verdict::NoMemory => Told {
            status: 6,
            report: report_images(0),
        },
    }
}

/// What is told of an encoding that is none.
fn tell_fault(line: u64, cause: OpbCause) -> Told
    ensures { result ≡ told 4 (fault_report 1 line (opb_cause cause)) }
{
    Told {
        status: 4,
        report: report_fault(1, line, number_of_opb(cause)),
    }
}

/// What a log shows over an encoding. Cost: as `check` of `proof_checker` has it, and linear in the encoding.
pub(crate) fn judge(alloc: Global, encoding: &[u8], log: &[u8]) -> Told
    ensures { IsTold result encoding.now log.now }
{
    match read_opb(alloc, encoding) {
        Ok(model) => tell_verdict(check(alloc, &model, log)),
        Err(OpbFault::Line { line, cause }) => tell_fault(line, cause),
        Err(OpbFault::NoMemory) => tell_verdict(Verdict::NoMemory),
    }
}
