//! A constraint of short terms.

ghost use Rattle.std.specs.Prelude.{◌≡◌, ◌<◌, ◌^◌, ◌↔◌, IsTrue, IfOk, unsigned_abs};
ghost use Rattle.proof_theory.specs.Forms.{Form, Holds, IsNarrow, Rises, assignment, form_of, size};
ghost use Rattle.proof_theory.specs.Rules.{is_contradiction};
ghost use Rattle.proof_theory.specs.Slack.{setting, slack};
ghost use Rattle.packed_terms.specs.Light.{IsLight};

use super::ordered::sorted_terms;
use super::short::{greatest_of, value_at, weight_of, widened};
use pb_terms::{Constraint, Literals, PbFault};
use std::alloc::{AllocError, Global};
use std::marker::Model;

/// A constraint whose terms have eight bytes each, by rising variable. Contracts see the form. Its absolute coefficients sum to its weight,
/// which is below 2^31, as is the size of its bound.
#[derive(Drop)]
pub struct ShortConstraint {
    terms: Vec<(u32, i32)>,
    bound: i32,
    weight: u32,
}

impl Model for ShortConstraint {
    ghost use Rattle.proof_theory.specs.Forms.{Form};
    ghost use Rattle.packed_terms.specs.Light.{IsLight};

    ghost Value = { Form };

    ghost view = { λ c. record { terms = c.terms.items; bound = c.bound } };

    ghost invariant = { λ c. IsLight c.terms.items c.bound c.weight };
}

/// The constraint of wide terms as they are.
fn constraint_of(
    alloc: Global,
    terms: &[(u32, i128)],
    bound: i128,
) -> Result<Constraint, AllocError>
    requires { IsNarrow terms.now bound }
    ensures { IfOk result (λ made. made ≡ form_of terms.now bound) }
{
    match Constraint::new(alloc, terms, bound) {
        Ok(made) => Ok(made),
        Err(PbFault::Wide) => unreachable!(),
        Err(PbFault::NoMemory) => Err(AllocError),
    }
}

impl ShortConstraint {
    /// The constraint of light terms in any order: like terms are added, and zeros vanish. One pass or two where the terms rise already,
    /// else a sort.
    pub(crate) fn from_terms(
        terms: Vec<(u32, i32)>,
        bound: i32,
    ) -> Result<ShortConstraint, AllocError>
        requires light { size terms.items < 2 ^ 31 }
        requires bound { unsigned_abs bound < 2 ^ 31 }
        ensures { IfOk result (λ made. made ≡ form_of terms.items bound) }
    {
        let terms = sorted_terms(terms)?;
        let weight = weight_of(&terms);
        Ok(ShortConstraint {
            terms,
            bound,
            weight,
        })
    }

    /// The terms, the bound and the weight, of which the terms are moved.
    pub(crate) fn into_parts(self) -> (Vec<(u32, i32)>, i32, u32)
        ensures parts { (result.0.items ≡ self.terms) × (result.1 ≡ self.bound) }
        ensures light { IsLight result.0.items result.1 result.2 }
    {
        (self.terms, self.bound, self.weight)
    }

    /// The terms, the bound and the weight.
    pub(crate) fn parts(&self) -> (&[(u32, i32)], i32, u32)
        ensures parts { (result.0.now ≡ self.now.terms) × (result.1 ≡ self.now.bound) }
        ensures light { IsLight result.0.now result.1 result.2 }
    {
        (&self.terms, self.bound, self.weight)
    }

    /// The terms, by rising variable.
    pub fn terms(&self) -> &[(u32, i32)]
        ensures exact { result.now ≡ self.now.terms }
        ensures rises { Rises 0 result.now }
        ensures light { size result.now < 2 ^ 31 }
    {
        &self.terms
    }

    /// The bound.
    pub fn bound(&self) -> i64
        ensures exact { result ≡ self.now.bound }
        ensures small { unsigned_abs result < 2 ^ 31 }
    {
        i64::from(self.bound)
    }

    /// The sum of the absolute coefficients. Constant.
    pub fn weight(&self) -> u32
        ensures { result ≡ size self.now.terms }
    {
        self.weight
    }

    /// The same constraint as `pb_terms` keeps it. A few passes.
    pub fn widened(&self, alloc: Global) -> Result<Constraint, AllocError>
        ensures { IfOk result (λ made. made ≡ self.now) }
    {
        let terms = widened(alloc, &self.terms)?;
        constraint_of(alloc, &terms, i128::from(self.bound))
    }

    /// By how much the sum of what can still be true exceeds the degree. One pass.
    pub fn slack(&self, set: &Literals) -> i64
        ensures exact { result ≡ slack (setting set.now) self.now }
        ensures small { unsigned_abs result < 2 ^ 32 }
    {
        greatest_of(set.values(), &self.terms) - i64::from(self.bound)
    }

    /// Whether the normal form has no term and a degree above 0.
    pub fn is_false(&self) -> bool
        ensures { result ≡ is_contradiction self.now }
    {
        self.terms.is_empty() && self.bound > 0
    }

    /// Whether the constraint holds under a 0/1 list, place 0 being the variable 1; variables without a place are 0. One pass.
    pub fn holds(&self, values: &[bool]) -> bool
        ensures { IsTrue result ↔ Holds self.now (assignment values.now) }
    {
        value_at(values, &self.terms) >= i64::from(self.bound)
    }
}
