//! Sums of many constraints, put in order once at their end.

ghost use Rattle.std.specs.Prelude.{◌≡◌, ◌+◌, ◌++◌, IfOk};
ghost use Rattle.proof_theory.specs.Forms.{Form, size, sorted};
ghost use Rattle.proof_theory.specs.Rules.{sum_of};
ghost use Rattle.pb_terms.specs.Faults.{Gives};

use super::constraint::Constraint;
use super::fault::PbFault;
use super::width::{LIMIT, size_of};
use std::alloc::{AllocError, Global};
use std::marker::Model;

/// How many terms may stand in no order, whatever there was before.
const ROOM: usize = 4_096;

/// A constraint as a sum of others, whose terms stand one behind the other until there are many, or `constraint` puts them in order.
/// Contracts see the form. So a sum of many costs their terms, and not for each `+` the terms so far. Kept beside are the sum of the
/// absolute coefficients as they stand, and how many terms there were when they were last in order.
#[derive(Drop)]
pub struct Sum {
    terms: Vec<(u32, i128)>,
    bound: i128,
    weight: u128,
    ordered: usize,
}

impl Model for Sum {
    ghost use Rattle.proof_theory.specs.Forms.{Form, form_of};
    ghost use Rattle.pb_terms.specs.Sums.{IsWeighed};

    ghost Value = { Form };

    ghost view = { λ s. form_of s.terms.items s.bound };

    ghost invariant = { λ s. IsWeighed s.terms.items s.bound s.weight };
}

/// The sum where its terms as they stand could be too wide: both are put in order first.
fn add_in_order(alloc: Global, a: Sum, b: Sum) -> Result<Sum, PbFault>
    ensures { Gives result (sum_of a b) }
{
    let first = a.constraint(alloc)?;
    let second = b.constraint(alloc)?;
    let made = first.add(alloc, &second)?;
    Ok(Sum::of(alloc, &made)?)
}

/// The terms of the second behind those of the first.
fn joined(
    mut first: Vec<(u32, i128)>,
    second: &[(u32, i128)],
) -> Result<Vec<(u32, i128)>, AllocError>
    ensures { IfOk result (λ v. v.items ≡ first.items ++ second.now) }
{
    first.extend_from_slice(second)?;
    Ok(first)
}

/// The terms of both, the fewer behind the others.
fn both(a: Vec<(u32, i128)>, b: Vec<(u32, i128)>) -> Result<Vec<(u32, i128)>, AllocError>
    ensures sized { IfOk result (λ v. size v.items ≡ size a.items + size b.items) }
    ensures sums { IfOk result (λ v. sorted v.items ≡ sorted (a.items ++ b.items)) }
{
    if a.len() < b.len() {
        joined(b, &a)
    } else {
        joined(a, &b)
    }
}

impl Sum {
    /// A constraint by itself. Copies its terms.
    pub fn of(alloc: Global, constraint: &Constraint) -> Result<Sum, AllocError>
        ensures { IfOk result (λ made. made ≡ constraint.now) }
    {
        let (terms, bound) = constraint.parts();
        let weight = size_of(terms);
        let ordered = terms.len();
        let terms = Vec::from_slice(alloc, terms)?;
        Ok(Sum {
            terms,
            bound,
            weight,
            ordered,
        })
    }

    /// A constraint by itself, whose terms it takes. One pass.
    pub fn from_constraint(constraint: Constraint) -> Sum
        ensures { result ≡ constraint }
    {
        let (terms, bound) = constraint.into_parts();
        let weight = size_of(&terms);
        let ordered = terms.len();
        Sum {
            terms,
            bound,
            weight,
            ordered,
        }
    }

    /// The terms of both one behind the other, or `Wide`. Moves the terms of the one with fewer; where the two could be too wide
    /// together, both are put in order first.
    fn with(self, alloc: Global, other: Sum) -> Result<Sum, PbFault>
        ensures { Gives result (sum_of self other) }
    {
        let weight = self.weight + other.weight;
        if weight > LIMIT {
            return add_in_order(alloc, self, other);
        }
        let bound = self.bound + other.bound;
        if bound.unsigned_abs() > LIMIT {
            return Err(PbFault::Wide);
        }
        let ordered = self.ordered.max(other.ordered);
        let terms = both(self.terms, other.terms)?;
        Ok(Sum {
            terms,
            bound,
            weight,
            ordered,
        })
    }

    /// The same, put in order where there are far more terms than when they were last in order, so that like terms are added.
    fn kept_short(self, alloc: Global) -> Result<Sum, AllocError>
        ensures { IfOk result (λ made. made ≡ self) }
    {
        if self.terms.len() / 4 <= self.ordered.max(ROOM / 4) {
            return Ok(self);
        }
        Ok(Sum::from_constraint(self.constraint(alloc)?))
    }

    /// The sum of both. Moves the terms of the one with fewer, so that a sum of n terms, however it is nested, costs n times its
    /// logarithm; it holds about four times the terms that are left of it in the end, and some more where these are few.
    pub fn add(self, alloc: Global, other: Sum) -> Result<Sum, PbFault>
        ensures { Gives result (sum_of self other) }
    {
        let made = self.with(alloc, other)?;
        Ok(made.kept_short(alloc)?)
    }

    /// The sum put in order. A sort of the terms that takes what rises already as it is, and one pass; one pass alone where all rises.
    pub fn constraint(self, alloc: Global) -> Result<Constraint, AllocError>
        ensures { IfOk result (λ made. made ≡ self) }
    {
        let Sum { terms, bound, .. } = self;
        Constraint::from_terms(alloc, terms, bound)
    }
}
