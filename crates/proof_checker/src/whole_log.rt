//! The verdict of a whole log.

ghost use Rattle.std.specs.Prelude.{◌≡◌, ℕ, Bool, List, IfOk};
ghost use Rattle.proof_theory.specs.Forms.{HasNoSolution, IsSolution};
ghost use Rattle.log_theory.specs.declared.step.Cause.{Cause as Reason};
ghost use Rattle.log_theory.specs.declared.step.Verdict.TheVariants.{Unsatisfiable, Satisfiable, Refused};
ghost use Rattle.log_theory.specs.Acceptance.{Accepts, Refuses};
ghost use Rattle.log_theory.specs.Verdicts.{IsClaim, verdict_of};
ghost use Rattle.proof_checker.specs.Turns.{Answers};

use super::checker::Checker;
use log_theory::{Verdict, answer_laws, log_laws};
use opb_text::Model;
use pb_terms::Constraint;
use std::alloc::{AllocError, Global};

/// The verdict of a log that is fed to a checker as one piece.
fn verdict_by(
    alloc: Global,
    variables: u32,
    constraints: &[Constraint],
    log: &[u8],
) -> Result<Verdict, AllocError>
    ensures { IfOk result
        (λ verdict. Answers verdict (verdict_of variables constraints.now log.now)) }
{
    let mut checker = Checker::over(alloc, variables, constraints)?;
    checker.feed(alloc, log)?;
    Ok(checker.finish())
}

/// What a log shows over constraints with so many variables.
fn check_parts(alloc: Global, variables: u32, constraints: &[Constraint], log: &[u8]) -> Verdict
    ensures { Answers result (verdict_of variables constraints.now log.now) }
{
    match verdict_by(alloc, variables, constraints, log) {
        Ok(verdict) => verdict,
        Err(_) => Verdict::NoMemory,
    }
}

/// What a log shows over a model: exactly the definition's verdict, or `NoMemory`, which says nothing of the log. Each line costs its
/// bytes and the terms that it touches; the first line of unit propagation makes one array of the model's variables, and a claim of a
/// solution costs the model's terms and one array up to the greatest variable that it names.
pub fn check(alloc: Global, model: &Model, log: &[u8]) -> Verdict
    ensures exact { Answers result (verdict_of model.now.variables model.now.constraints log.now) }
    ensures unsatisfiable { result ≡ Unsatisfiable
        → HasNoSolution model.now.variables model.now.constraints }
    ensures satisfiable { result ≡ Satisfiable → (a : List Bool)
        × IsSolution model.now.variables model.now.constraints a }
    ensures accepted { IsClaim result
        → Accepts model.now.variables model.now.constraints log.now result }
    ensures refused { (k : ℕ) (cause : Reason) → result ≡ Refused k cause
        → Refuses model.now.variables model.now.constraints log.now k cause }
{
    log_laws();
    answer_laws();
    check_parts(alloc, model.variables(), model.constraints(), log)
}
