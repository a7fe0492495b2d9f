//! The logs of a solution and of no answer.

ghost use Rattle.std.specs.Prelude.{◌≡◌, ℕ, ◌^◌, ◌<◌, ◌++◌, List, [], ◌∷◌, length};
ghost use Rattle.outer_io.specs.KnownText.{Wrote};
ghost use Rattle.outer_io.specs.Sinks.{HasBlame};
ghost use Rattle.log_theory.specs.declared.step.Verdict.TheVariants.{Satisfiable, Undecided};
ghost use Rattle.log_theory.specs.Acceptance.{Accepts};
ghost use Rattle.log_theory.specs.LogText.{AreOnes};
ghost use Rattle.proof_theory.specs.Forms.{Form};
ghost use Rattle.merged_log.specs.Steps.{log_text};
ghost use Rattle.merged_log.specs.Profiles.{in_profile};
ghost use Rattle.merged_log.specs.Answers.{undecided, solution, Solves};

use crate::head::write_head;
use journal_theory::line_laws;
use log_theory::{Profile, Step, Variables};
use outer_io::{Failed, Sink};
use proof_log::write_step;

/// Puts the log that claims nothing of a model of so many constraints: the head, in one call of the sink, and a last line. It takes
/// no memory.
pub fn write_undecided<S: Sink>(profile: Profile, lines: u64, sink: &mut S) -> Result<(), Failed>
    requires { lines < 2 ^ 63 }
    ensures text { Wrote (S.spot sink.old).steady (S.contents sink.old) (S.contents sink.new) result
        (in_profile profile (log_text (undecided lines))) }
    ensures cause { HasBlame S.spot S.rest S.faults S.blamed sink.old sink.new result }
    ensures accepted { (n : ℕ) (model : List Form) → length model ≡ lines
        → Accepts n model (in_profile profile (log_text (undecided lines))) Undecided }
{
    line_laws();
    write_head(profile, lines, sink)?;
    write_step(Profile::Hinted, &Step::Q, sink)
}

/// Puts the log of a solution: the head, in one call of the sink, and a last line with the variables that are one in it. It takes no
/// memory.
pub fn write_solution<S: Sink>(
    profile: Profile,
    lines: u64,
    ones: Variables,
    sink: &mut S,
) -> Result<(), Failed>
    requires model { lines < 2 ^ 63 }
    requires ones { AreOnes ones }
    ensures text { Wrote (S.spot sink.old).steady (S.contents sink.old) (S.contents sink.new) result
        (in_profile profile (log_text (solution lines ones))) }
    ensures cause { HasBlame S.spot S.rest S.faults S.blamed sink.old sink.new result }
    ensures accepted { (n : ℕ) (model : List Form) → length model ≡ lines → Solves n model ones
        → Accepts n model (in_profile profile (log_text (solution lines ones))) Satisfiable }
{
    line_laws();
    write_head(profile, lines, sink)?;
    write_step(Profile::Hinted, &Step::Y { ones }, sink)
}
