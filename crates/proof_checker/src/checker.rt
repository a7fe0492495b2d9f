//! A checker of a proof log that is fed the log's text piece by piece, and keeps of it only the line that has not ended yet.

ghost use Rattle.std.specs.Prelude.{◌≡◌, ◌+◌, ◌↔◌, ◌∷◌, ◌++◌, ◌==◌, ℕ, List, [], false, IfOk, OnOk, IsErr, IsTrue};
ghost use Rattle.log_theory.specs.Acceptance.{NoFeed};
ghost use Rattle.log_theory.specs.Words.{pieces};
ghost use Rattle.log_theory.specs.Verdicts.{at_end, verdict_of};
ghost use Rattle.log_theory.specs.declared.step.Verdict.TheVariants.{NoMemory as Unanswered};
ghost use Rattle.proof_checker.specs.Feeding.{verdict_on, verdict_with};
ghost use Rattle.proof_checker.specs.Turns.{Answers, Checking, verdict_at};

use super::cutting::first_line;
use super::line_checker::LineChecker;
use super::lines::Turn;
use log_theory::{Cause, Verdict};
use opb_text::Model as OpbModel;
use pb_propagation::LineFault;
use pb_terms::Constraint;
use std::alloc::{AllocError, Global};
use std::marker::Model;

/// What the lines that have ended say of the log.
#[derive(Clone, Copy, Debug)]
pub(crate) enum Standing {
    /// Each was lawful, and the next one decides.
    Open,
    /// The last one was lawful and claims this, if nothing follows.
    Claimed(Verdict),
    /// One was refused, and nothing that follows changes that.
    Refused(u64, Cause),
}

/// A model, and a log over it of which a front part was fed. It keeps the lines' constraints, and of the text only the line that has not
/// ended. Contracts speak of the verdict of that front part with each text behind it (`verdict_with`), and of whether memory was refused.
pub struct Checker {
    lines: LineChecker,
    standing: Standing,
    number: u64,
    tail: Vec<u8>,
    is_dead: bool,
}

impl Drop for Checker {
    /// In one call, for whoever lets one go.
    fn drop(self) {
        let Checker {
            lines: _,
            standing: _,
            number: _,
            tail: _,
            is_dead: _,
        } = self;
    }
}

impl Model for Checker {
    ghost use Rattle.log_theory.specs.Acceptance.{NoFeed};
    ghost use Rattle.proof_checker.specs.Feeding.{Fed};

    ghost Value = { Fed };

    ghost view = { λ c. record {
      is_dead = c.is_dead;
      standing = c.standing;
      lines = c.lines;
      number = c.number;
      tail = c.tail.items;
    } };

    ghost invariant = { λ c. NoFeed c.tail.items };
}

/// How the log stands behind its next line, which is this one.
fn behind_line(
    alloc: Global,
    lines: &mut LineChecker,
    number: u64,
    line: &[u8],
) -> Result<Standing, AllocError>
    requires { NoFeed line.now }
    ensures { IfOk result (λ next. (rest : List ℕ)
        → verdict_on next lines.new (number + 1) [] rest
        ≡ verdict_at lines.old number (line.now ++ 10 ∷ rest)) }
{
    match lines.step(alloc, line) {
        Ok(Turn::Goes) => Ok(Standing::Open),
        Ok(Turn::Ends(claim)) => Ok(Standing::Claimed(claim)),
        Err(LineFault::Cause(cause)) => Ok(Standing::Refused(number, cause)),
        Err(LineFault::NoMemory) => Err(AllocError),
    }
}

/// Goes on with a line that has not ended.
fn extend(tail: &mut Vec<u8>, text: &[u8]) -> Result<(), AllocError>
    requires tail { NoFeed tail.old.items }
    requires text { NoFeed text.now }
    ensures grown { OnOk result (tail.new.items ≡ tail.old.items ++ text.now) }
    ensures no_feed { NoFeed tail.new.items }
{
    tail.extend_from_slice(text)
}

/// How the log stands behind the claim of its last line where this text follows; the next line would be `number`.
fn behind_claim(number: u64, claim: Verdict, text: &[u8]) -> Standing
    ensures { (lines : Checking) (tail rest : List ℕ)
        → verdict_on result lines number tail rest
        ≡ at_end number claim (pieces (λ b. b == 10) (text.now ++ rest)) }
{
    if text.is_empty() {
        Standing::Claimed(claim)
    } else {
        Standing::Refused(number, Cause::Form)
    }
}

/// How the log stands behind its next line, which is the one in `tail` and goes on with this end; it is not copied where it is whole.
fn behind_end(
    alloc: Global,
    lines: &mut LineChecker,
    number: u64,
    tail: &mut Vec<u8>,
    end: &[u8],
) -> Result<Standing, AllocError>
    requires tail { NoFeed tail.old.items }
    requires end { NoFeed end.now }
    ensures says { IfOk result (λ next. (rest : List ℕ)
        → verdict_on next lines.new (number + 1) tail.new.items rest
        ≡ verdict_at lines.old number (tail.old.items ++ (end.now ++ 10 ∷ rest))) }
    ensures tail { NoFeed tail.new.items }
{
    if tail.is_empty() {
        return behind_line(alloc, lines, number, end);
    }
    extend(tail, end)?;
    let next = behind_line(alloc, lines, number, tail)?;
    tail.clear();
    Ok(next)
}

impl Checker {
    /// A checker of a log over a model, of which nothing was fed yet.
    pub fn new(alloc: Global, model: &OpbModel) -> Result<Checker, AllocError>
        ensures empty { IfOk result (λ c. (rest : List ℕ)
            → verdict_with c rest ≡ verdict_of model.now.variables model.now.constraints rest) }
        ensures alive { IfOk result (λ c. c.is_dead ≡ false) }
    {
        Checker::over(alloc, model.variables(), model.constraints())
    }

    /// The same over constraints with so many variables.
    pub(crate) fn over(
        alloc: Global,
        variables: u32,
        constraints: &[Constraint],
    ) -> Result<Checker, AllocError>
        ensures empty { IfOk result (λ c. (rest : List ℕ)
            → verdict_with c rest ≡ verdict_of variables constraints.now rest) }
        ensures alive { IfOk result (λ c. c.is_dead ≡ false) }
    {
        Ok(Checker {
            lines: LineChecker::new(alloc, variables, constraints)?,
            standing: Standing::Open,
            number: 1,
            tail: Vec::new(alloc),
            is_dead: false,
        })
    }

    /// Takes the end of a line, without its LF.
    fn end_line(&mut self, alloc: Global, end: &[u8]) -> Result<(), AllocError>
        requires { NoFeed end.now }
        ensures { OnOk result ((rest : List ℕ)
            → verdict_with self.new rest ≡ verdict_with self.old (end.now ++ 10 ∷ rest)) }
    {
        match self.standing {
            Standing::Open => {
                if self.number == u64::MAX {
                    return Err(AllocError);
                }
                self.standing = behind_end(
                    alloc,
                    &mut self.lines,
                    self.number,
                    &mut self.tail,
                    end,
                )?;
                self.number += 1;
            }
            Standing::Claimed(_) => self.standing = Standing::Refused(self.number, Cause::Form),
            Standing::Refused(..) => {}
        }
        Ok(())
    }

    /// Takes text without an LF.
    fn begin_line(&mut self, text: &[u8]) -> Result<(), AllocError>
        requires { NoFeed text.now }
        ensures { OnOk result ((rest : List ℕ)
            → verdict_with self.new rest ≡ verdict_with self.old (text.now ++ rest)) }
    {
        match self.standing {
            Standing::Open => extend(&mut self.tail, text)?,
            Standing::Claimed(claim) => {
                self.standing = behind_claim(self.number, claim, text);
            }
            Standing::Refused(..) => {}
        }
        Ok(())
    }

    /// Whether a line was refused, so that nothing that follows changes the verdict.
    pub fn is_refused(&self) -> bool
        ensures { IsTrue result → (rest text : List ℕ)
            → verdict_with self.now rest ≡ verdict_with self.now text }
    {
        matches!(self.standing, Standing::Refused(..))
    }

    /// Takes a piece, line by line.
    fn take(&mut self, alloc: Global, piece: &[u8]) -> Result<(), AllocError>
        ensures { OnOk result ((rest : List ℕ)
            → verdict_with self.new rest ≡ verdict_with self.old (piece.now ++ rest)) }
    {
        let mut left = piece;
        while let Some((end, behind)) = first_line(left) {
            self.end_line(alloc, end)?;
            left = behind;
        }
        self.begin_line(left)
    }

    /// Takes the next piece of the log, cut anywhere. Costs the piece, the unfinished line before it where it ends here, and the terms that
    /// the lines ended here touch; behind a refused line nothing. Memory counts as refused too where the lines are 2^64 - 1. Once memory
    /// was refused, it is refused at every call.
    pub fn feed(&mut self, alloc: Global, piece: &[u8]) -> Result<(), AllocError>
        ensures taken { OnOk result ((rest : List ℕ)
            → verdict_with self.new rest ≡ verdict_with self.old (piece.now ++ rest)) }
        ensures dead { IsTrue self.new.is_dead ↔ IsErr result }
        ensures stays_dead { IsTrue self.old.is_dead → IsErr result }
    {
        if self.is_dead {
            return Err(AllocError);
        }
        if self.is_refused() {
            return Ok(());
        }
        let taken = self.take(alloc, piece);
        self.is_dead = taken.is_err();
        taken
    }

    /// The verdict of all that was fed. It takes no memory.
    pub fn finish(self) -> Verdict
        ensures exact { Answers result (verdict_with self []) }
        ensures dead { IsTrue self.is_dead → result ≡ Unanswered }
    {
        if self.is_dead {
            return Verdict::NoMemory;
        }
        match self.standing {
            Standing::Open => Verdict::Refused {
                line: self.number,
                cause: Cause::EndsEarly,
            },
            Standing::Claimed(claim) => claim,
            Standing::Refused(line, cause) => Verdict::Refused { line, cause },
        }
    }
}
