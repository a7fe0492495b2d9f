//! The lines of a log with hints that make a constraint, read again wherever one is asked for.

ghost use Rattle.std.specs.Prelude.{◌≡◌, ◌<◌, List, length, Some, slice_get, IfOk};
ghost use Rattle.log_theory.specs.declared.step.Step.{Step as TheStep};
ghost use Rattle.log_theory.specs.LogText.{IsStep};
ghost use Rattle.proof_trim.specs.Lined.{AreAt};

use crate::reading::{first_line, step_in};
use log_theory::{Profile, Step};
use std::alloc::{AllocError, Global};

/// The text of a log behind its head, and where in it the lines begin that make a constraint. So a line takes eight bytes beside its text.
#[derive(Drop)]
pub(crate) struct Lines<'a> {
    pub(crate) text: &'a [u8],
    pub(crate) places: Vec<usize>,
}

impl<'a> Lines<'a> {
    /// How many there are.
    pub(crate) fn len(&self) -> usize
        ensures { result ≡ length self.now.places.items }
    {
        self.places.len()
    }

    /// The step of one of them. Costs its bytes.
    pub(crate) fn step_at(&self, alloc: Global, at: usize) -> Result<Step, AllocError>
        requires { at < length self.now.places.items }
        ensures told { IfOk result (λ s. (made : List TheStep)
            → AreAt self.now.text.now self.now.places.items made → slice_get made at ≡ Some s) }
        ensures fits { IfOk result (λ s. IsStep s) }
    {
        let place = self.places[at];
        if place > self.text.len() {
            return Err(AllocError);
        }
        let Some((line, _)) = first_line(&self.text[place..]) else {
            return Err(AllocError);
        };
        let step = step_in(alloc, Profile::Hinted, line)?;
        Ok(step)
    }
}
