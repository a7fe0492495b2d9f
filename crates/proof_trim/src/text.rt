//! Lines put as text.

ghost use Rattle.std.specs.Prelude.{◌≡◌, ◌<◌, ◌^◌, ◌++◌, ◌∷◌, [], IfOk, OnOk};
ghost use Rattle.log_theory.specs.Words.{line_text};
ghost use Rattle.log_theory.specs.LogText.{IsStep, step_words};
ghost use Rattle.log_theory.specs.declared.step.Step.TheVariants.{Head, Model};
ghost use Rattle.proof_trim.specs.Texts.{steps_text};

use log_theory::{Profile, Step};
use outer_io::TextBuffer;
use proof_log::write_step;
use std::alloc::{AllocError, Global};

/// Puts the line of a step.
pub(crate) fn put_step(text: &mut TextBuffer, step: &Step) -> Result<(), AllocError>
    requires { IsStep step.now }
    ensures { OnOk result
        (text.new.bytes ≡ text.old.bytes ++ line_text (step_words step.now)) }
{
    match write_step(Profile::Hinted, step, text) {
        Ok(()) => Ok(()),
        Err(_) => Err(AllocError),
    }
}

/// The first two lines of a log with hints over so many constraints.
pub(crate) fn head_text(alloc: Global, constraints: u64) -> Result<TextBuffer, AllocError>
    requires { constraints < 2 ^ 63 }
    ensures { IfOk result (λ text. text.bytes ≡ steps_text (Head ∷ Model constraints ∷ [])) }
{
    let mut text = TextBuffer::new(alloc);
    put_step(&mut text, &Step::Head)?;
    put_step(&mut text, &Step::Model(constraints))?;
    Ok(text)
}
