//! The log of what was found.

ghost use Rattle.std.specs.Prelude.{◌≡◌, ◌<◌, ◌^◌, length, IfOk};
ghost use Rattle.outer_io.specs.KnownText.{Wrote};
ghost use Rattle.outer_io.specs.Sinks.{HasBlame};
ghost use Rattle.encoding_theory.specs.Variables.{variables};
ghost use Rattle.encoding_theory.specs.Encoding.{encoding as encoding_of};
ghost use Rattle.log_theory.specs.declared.step.Verdict.TheVariants.{Unsatisfiable};
ghost use Rattle.log_theory.specs.Acceptance.{Accepts};
ghost use Rattle.merged_log.specs.Profiles.{in_profile};
ghost use Rattle.merged_log.specs.Steps.{log_text, refutation};
ghost use Rattle.proof_collection.specs.Proofs.{IsProof};
ghost use Rattle.proof_files.specs.Findings.{IsFound, steps_of, verdict_on};
ghost use Rattle.proof_files.specs.Parts.{MayBeWritten, part_steps, part_verdict};

use crate::finding::Finding;
use graph_rows::Problem;
use log_theory::{Profile, Variables};
use merged_log::{ones_of, write_refutation, write_solution, write_undecided};
use outer_io::{Failed, Sink};
use pb_encoding::Encoding;
use pb_encoding::model::encodings_are_models;
use proof_collection::Logged;
use std::alloc::{AllocError, Global};

/// What a log is written of: all memory for it is taken.
#[derive(Drop)]
pub(crate) enum Parts<'a> {
    /// The variables that are one in a solution.
    Solution(Variables),
    /// The parts of a refutation.
    Refutation(&'a Logged),
    /// Nothing.
    Nothing,
}

/// What the log of a finding is written of.
pub(crate) fn parts_of<'a>(
    alloc: Global,
    q: &Problem,
    finding: &Finding<'a>,
) -> Result<Parts<'a>, AllocError>
    requires { IsFound q.now finding.now }
    ensures ready { IfOk result (λ parts. MayBeWritten q.now parts) }
    ensures steps { IfOk result (λ parts. part_steps q.now parts ≡ steps_of q.now finding.now) }
    ensures verdict { IfOk result (λ parts. part_verdict parts ≡ verdict_on finding.now) }
{
    match finding {
        Finding::Embedding(map) => Ok(Parts::Solution(ones_of(alloc, q, map)?)),
        Finding::Refutation(parts) => Ok(Parts::Refutation(parts)),
        Finding::Nothing => Ok(Parts::Nothing),
    }
}

/// The number of lines of an encoding.
fn lines_of(q: &Problem, encoding: &Encoding) -> u64
    requires { encoding.now ≡ q.now }
    ensures lines { result ≡ length (encoding_of q.now) }
    ensures few { result < 2 ^ 63 }
{
    encodings_are_models();
    let _pattern = q.pattern();
    let _target = q.target();
    let _less = q.less();
    encoding.len()
}

/// Puts the log of a refutation over the encoding of its problem. Its two head lines are one call of the sink. It takes no memory.
pub fn write_refuted<S: Sink>(
    profile: Profile,
    q: &Problem,
    encoding: &Encoding,
    parts: &Logged,
    sink: &mut S,
) -> Result<(), Failed>
    requires same { encoding.now ≡ q.now }
    requires proof { IsProof q.now parts.now }
    ensures text { Wrote (S.spot sink.old).steady (S.contents sink.old) (S.contents sink.new) result
        (in_profile profile (log_text (refutation (length (encoding_of q.now))
        parts.now.journals.items parts.now.rows.items parts.now.finisher))) }
    ensures cause { HasBlame S.spot S.rest S.faults S.blamed sink.old sink.new result }
    ensures accepted { Accepts (variables q.now) (encoding_of q.now)
        (in_profile profile (log_text (refutation (length (encoding_of q.now))
        parts.now.journals.items parts.now.rows.items parts.now.finisher))) Unsatisfiable }
{
    write_refutation(
        profile,
        lines_of(q, encoding),
        parts.journals.as_slice(),
        parts.rows.as_slice(),
        parts.finisher,
        sink,
    )
}

/// Puts the log of these parts. Its two head lines are one call of the sink. It takes no memory.
pub(crate) fn write_log<S: Sink>(
    profile: Profile,
    q: &Problem,
    encoding: &Encoding,
    parts: Parts,
    sink: &mut S,
) -> Result<(), Failed>
    requires same { encoding.now ≡ q.now }
    requires ready { MayBeWritten q.now parts }
    ensures text { Wrote (S.spot sink.old).steady (S.contents sink.old) (S.contents sink.new) result
        (in_profile profile (log_text (part_steps q.now parts.entry))) }
    ensures cause { HasBlame S.spot S.rest S.faults S.blamed sink.old sink.new result }
    ensures accepted { Accepts (variables q.now) (encoding_of q.now)
        (in_profile profile (log_text (part_steps q.now parts.entry))) (part_verdict parts.entry) }
{
    match parts {
        Parts::Solution(ones) => write_solution(profile, lines_of(q, encoding), ones, sink),
        Parts::Refutation(parts) => write_refuted(profile, q, encoding, parts, sink),
        Parts::Nothing => write_undecided(profile, lines_of(q, encoding), sink),
    }
}
