//! The definitions of OPB texts and of proof logs, and the laws that follow from them alone: the written text of a model and its
//! lenient reading, with the first faulty line and its cause; the words of a log's lines and the step that words tell; what a step
//! makes, as a function of a lookup of references; the table of what was made; and the verdict of a whole log. The log's text and
//! rules are this project's own, in the manner of pseudo-Boolean proof logging (Gocht, McCreesh, Nordström 2020). The crate keeps
//! only plain types for lines, causes and verdicts: the layers above cite its definitions in their contracts, and take its laws from
//! the contracts of functions with empty bodies. It names no graph.
#![tactic(auto)]

ghost use Rattle.log_theory.specs.TextLaws.{AnswerLaws, LogLaws, OpbLaw, ProfileLaws, StepLaw};

pub mod opb;
pub mod profile;
mod shared;
pub mod step;

pub use opb::OpbCause;
pub use profile::Profile;
pub use step::{Cause, Clause, Name, Op, Ops, Ref, Refs, Step, Variables, Verdict};

/// What is written as OPB text is read back.
pub fn opb_law()
    ensures { OpbLaw }
{}

/// What the verdict of a log means for its model; every log has one answer, and a proper front of an accepted log ends early.
pub fn log_laws()
    ensures { LogLaws }
{}

/// A log's verdict says exactly how it is accepted or refused, so each log has exactly one answer.
pub fn answer_laws()
    ensures { AnswerLaws }
{}

/// The line of a step is read as that step.
pub fn step_law()
    ensures { StepLaw }
{}

/// The lines of a log without hints are read as those with hints are, and a log that is accepted with its hints is accepted without them.
pub fn profile_laws()
    ensures { ProfileLaws }
{}
