//! A log trimmed.

ghost use Rattle.std.specs.Prelude.{ℕ, ◌<◌, ◌^◌, List, length, IfOk};
ghost use Rattle.log_theory.specs.declared.step.Verdict.{Verdict as Shown};
ghost use Rattle.log_theory.specs.Verdicts.{IsClaim};
ghost use Rattle.log_theory.specs.Acceptance.{Accepts};
ghost use Rattle.proof_trim.specs.Trimmed.{IsTrimmed};
ghost use Rattle.proof_trim.specs.Lined.{IsReplayedText, IsRenewedFrom};
ghost use Rattle.proof_trim.specs.Says.{TrimSays};

use crate::hints::replayed;
use crate::reading::open_log;
use crate::renewed::{Renewed, renew};
use journal_theory::line_laws;
use log_theory::{Cause, Profile, Verdict, profile_laws};
use opb_text::Model;
use outer_io::TextBuffer;
use pb_terms::Constraint;
use proof_checker::check;
use std::alloc::{AllocError, Global};
use trim_theory::{code_laws, trim_law};

/// A trimmed log, and how many lines make a constraint before and after.
#[derive(Drop)]
pub struct Kept {
    /// The text of the trimmed log: it has hints.
    pub text: TextBuffer,
    /// How many `p` and `u` lines the log has.
    pub made: usize,
    /// How many of them are kept.
    pub kept: usize,
}

/// What trimming a log gives.
#[derive(Drop)]
pub enum Trimmed {
    /// The log is accepted, and this is left of it.
    Kept(Kept),
    /// The log is refused at a line, counted from 1, for a cause, exactly as a check refuses it.
    Refused { line: u64, cause: Cause },
    /// Memory was refused, which says nothing of the log.
    NoMemory,
}

/// What is left of a log with hints, behind its head.
fn trim_hinted(alloc: Global, constraints: u64, lines: &[u8]) -> Result<Kept, AllocError>
    requires { constraints < 2 ^ 63 }
    ensures { IfOk result (λ k. IsRenewedFrom constraints lines.now k.text.bytes k.made k.kept) }
{
    if lines.len() >= 1 << 63 {
        return Err(AllocError);
    }
    let Renewed { text, made, kept } = renew(alloc, constraints, lines)?;
    Ok(Kept { text, made, kept })
}

/// What is left of a log without hints, behind its head.
fn trim_plain(alloc: Global, model: &[Constraint], lines: &[u8]) -> Result<Kept, AllocError>
    requires { length model.now < 2 ^ 63 }
    ensures { IfOk result (λ k. (hinted : List ℕ) × IsReplayedText model.now lines.now hinted
        × IsRenewedFrom (length model.now) hinted k.text.bytes k.made k.kept) }
{
    let hinted = replayed(alloc, model, lines)?;
    let kept = trim_hinted(alloc, model.len() as u64, hinted.as_slice())?;
    Ok(kept)
}

/// What is left of a log that is accepted.
fn trim_accepted(alloc: Global, model: &Model, log: &[u8]) -> Result<Kept, AllocError>
    requires { (claim : Shown)
        × Accepts model.now.variables model.now.constraints log.now claim }
    ensures { IfOk result
        (λ k. IsTrimmed model.now.constraints log.now k.text.bytes k.made k.kept) }
{
    code_laws();
    line_laws();
    profile_laws();
    let constraints = model.constraints();
    let Some((profile, lines)) = open_log(log) else {
        return Err(AllocError);
    };
    match profile {
        Profile::Hinted => Ok(trim_hinted(alloc, constraints.len() as u64, lines)?),
        Profile::Plain => Ok(trim_plain(alloc, constraints, lines)?),
    }
}

/// What is left of a log that is accepted, or that memory was refused.
fn left_of(alloc: Global, model: &Model, log: &[u8]) -> Trimmed
    requires { (claim : Shown) × IsClaim claim
        × Accepts model.now.variables model.now.constraints log.now claim }
    ensures { TrimSays result model.now.variables model.now.constraints log.now }
{
    trim_law();
    let _constraints = model.constraints();
    match trim_accepted(alloc, model, log) {
        Ok(kept) => Trimmed::Kept(kept),
        Err(_) => Trimmed::NoMemory,
    }
}

/// The trimmed log of a log over a model: of the lines that make a constraint those that its last line rests on, under new names and with
/// hints, each deleted behind the line that names it last. It is accepted with the same claim. A log that a check refuses is refused
/// at the same line for the same cause. It checks the log first; then it reads the text once, and what is needed of it twice more, a line at
/// a time. It keeps some 150 bytes for each line that makes a constraint, and what is left. For a log without hints the lines are replayed
/// with passes over all constraints so far, which costs their terms as often as a pass sets a variable, and the text with hints is kept
/// too. (Going back from the end: E. Goldberg, Y. Novikov 2003; N. Wetzler, M. Heule, W. Hunt 2014.)
pub fn trim(alloc: Global, model: &Model, log: &[u8]) -> Trimmed
    ensures { TrimSays result model.now.variables model.now.constraints log.now }
{
    match check(alloc, model, log) {
        Verdict::Refused { line, cause } => Trimmed::Refused { line, cause },
        Verdict::NoMemory => Trimmed::NoMemory,
        _ => left_of(alloc, model, log),
    }
}
