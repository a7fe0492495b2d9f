//! What stands under a name or a row: a constraint, which several of them may share, or nothing once a line has deleted it.

ghost use Rattle.std.specs.Prelude.{◌≡◌, Some, None, IfOk, option_copied};

use packed_terms::PackedConstraint;
use std::alloc::{AllocError, Global};
use std::marker::Model;
use std::rc::Rc;

/// The constraint that stands here, if one does. Its terms are freed with the last slot that has it; an empty slot has none.
#[derive(Drop)]
pub struct Slot {
    held: Option<Rc<PackedConstraint>>,
}

impl Model for Slot {
    ghost use Rattle.std.specs.Prelude.{Option};
    ghost use Rattle.proof_theory.specs.Forms.{Form};
    ghost use Rattle.std.specs.Prelude.{option_map};

    ghost Value = { Option Form };

    ghost view = { λ s. option_map (λ r. r.value) s.held };
}

impl Slot {
    /// A slot with a constraint, in memory of its own.
    pub fn new(alloc: Global, made: PackedConstraint) -> Result<Slot, AllocError>
        ensures { IfOk result (λ s. s ≡ Some made) }
    {
        match Rc::new(alloc, made) {
            Ok(held) => Ok(Slot { held: Some(held) }),
            Err(_) => Err(AllocError),
        }
    }

    /// A slot with none.
    pub fn empty() -> Slot
        ensures { result ≡ None }
    {
        Slot { held: None }
    }

    /// The constraint.
    pub fn constraint(&self) -> Option<&PackedConstraint>
        ensures { option_copied result ≡ self.now }
    {
        match &self.held {
            Some(held) => Some(held.as_ref()),
            None => None,
        }
    }

    /// A second slot with the same constraint, which is not copied.
    pub fn share(&self) -> Result<Slot, AllocError>
        ensures { IfOk result (λ s. s ≡ self.now) }
    {
        match &self.held {
            Some(held) => Ok(Slot {
                held: Some(held.clone()?),
            }),
            None => Ok(Slot::empty()),
        }
    }
}
