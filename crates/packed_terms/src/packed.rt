//! A constraint as it is kept: in short terms where it is light, else in wide ones.

ghost use Rattle.std.specs.Prelude.{◌≡◌, ◌↔◌, IsTrue, IfOk, IfSome};
ghost use Rattle.proof_theory.specs.Forms.{Holds, assignment};
ghost use Rattle.proof_theory.specs.Rules.{is_contradiction};
ghost use Rattle.packed_terms.specs.Keeping.{kept_form};

use super::constraint::ShortConstraint;
use super::short::{LIMIT, is_light, shortened};
use pb_terms::Constraint;
use std::alloc::{AllocError, Global};
use std::marker::Model;

/// The two ways in which a constraint is kept.
#[derive(Drop)]
pub enum Kept {
    Short(ShortConstraint),
    Wide(Constraint),
}

/// A constraint that is kept in eight bytes for each term, if its absolute coefficients sum to less than 2^31 and its bound is as small.
/// Contracts see the form.
#[derive(Drop)]
pub struct PackedConstraint {
    kept: Kept,
}

impl Model for PackedConstraint {
    ghost use Rattle.proof_theory.specs.Forms.{Form};
    ghost use Rattle.packed_terms.specs.Keeping.{kept_form};

    ghost Value = { Form };

    ghost view = { λ c. kept_form c.kept };
}

/// A constraint in short terms, if it is light. A few passes.
fn short_of(alloc: Global, constraint: &Constraint) -> Result<Option<ShortConstraint>, AllocError>
    ensures { IfOk result (λ made. IfSome made (λ short. short ≡ constraint.now)) }
{
    let bound = constraint.bound();
    if bound.unsigned_abs() >= LIMIT || !is_light(constraint.terms()) {
        return Ok(None);
    }
    let terms = shortened(alloc, constraint.terms())?;
    Ok(Some(ShortConstraint::from_terms(terms, bound as i32)?))
}

impl PackedConstraint {
    /// A constraint of short terms.
    pub fn from_short(constraint: ShortConstraint) -> PackedConstraint
        ensures { result ≡ constraint }
    {
        PackedConstraint {
            kept: Kept::Short(constraint),
        }
    }

    /// The constraint, whose terms are copied if they become short, and else kept.
    pub fn from_constraint(
        alloc: Global,
        constraint: Constraint,
    ) -> Result<PackedConstraint, AllocError>
        ensures { IfOk result (λ made. made ≡ constraint) }
    {
        match short_of(alloc, &constraint)? {
            Some(short) => Ok(PackedConstraint::from_short(short)),
            None => Ok(PackedConstraint {
                kept: Kept::Wide(constraint),
            }),
        }
    }

    /// A copy of a constraint.
    pub fn copied(alloc: Global, constraint: &Constraint) -> Result<PackedConstraint, AllocError>
        ensures { IfOk result (λ made. made ≡ constraint.now) }
    {
        match short_of(alloc, constraint)? {
            Some(short) => Ok(PackedConstraint::from_short(short)),
            None => Ok(PackedConstraint {
                kept: Kept::Wide(constraint.copy(alloc)?),
            }),
        }
    }

    /// How it is kept, which it gives up.
    pub(crate) fn into_kept(self) -> Kept
        ensures { kept_form result ≡ self }
    {
        self.kept
    }

    /// How it is kept.
    pub fn kept(&self) -> &Kept
        ensures { kept_form result.now ≡ self.now }
    {
        &self.kept
    }

    /// Whether the normal form has no term and a degree above 0.
    pub fn is_false(&self) -> bool
        ensures { result ≡ is_contradiction self.now }
    {
        match &self.kept {
            Kept::Short(short) => short.is_false(),
            Kept::Wide(wide) => wide.is_false(),
        }
    }

    /// Whether the constraint holds under a 0/1 list, place 0 being the variable 1; variables without a place are 0. One pass.
    pub fn holds(&self, values: &[bool]) -> bool
        ensures { IsTrue result ↔ Holds self.now (assignment values.now) }
    {
        match &self.kept {
            Kept::Short(short) => short.holds(values),
            Kept::Wide(wide) => wide.holds(values),
        }
    }
}
