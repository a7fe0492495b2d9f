//! Sums of kept constraints, put in order once at their end.

ghost use Rattle.std.specs.Prelude.{◌≡◌, ◌+◌, ◌++◌, IfOk};
ghost use Rattle.proof_theory.specs.Forms.{Form, size, sorted};
ghost use Rattle.proof_theory.specs.Rules.{sum_of};
ghost use Rattle.pb_terms.specs.Faults.{Gives};

use super::constraint::ShortConstraint;
use super::packed::{Kept, PackedConstraint};
use super::short::LIMIT;
use pb_terms::{Constraint, PbFault, Sum};
use std::alloc::{AllocError, Global};
use std::marker::Model;

/// How many terms may stand in no order, whatever there was before.
const ROOM: usize = 4_096;

/// A sum of constraints in short terms, which stand one behind the other until there are many, or `constraint` puts them in order.
/// Contracts see the form. So a sum of many costs their terms, and not for each `+` the terms so far. Kept beside are the sum of the
/// absolute coefficients as they stand, and how many terms there were when they were last in order.
#[derive(Drop)]
struct ShortSum {
    terms: Vec<(u32, i32)>,
    bound: i32,
    weight: u32,
    ordered: usize,
}

impl Model for ShortSum {
    ghost use Rattle.proof_theory.specs.Forms.{Form, form_of};
    ghost use Rattle.packed_terms.specs.Light.{IsWeighed};

    ghost Value = { Form };

    ghost view = { λ s. form_of s.terms.items s.bound };

    ghost invariant = { λ s. IsWeighed s.terms.items s.bound s.weight };
}

/// The two ways in which a sum goes on.
#[derive(Drop)]
enum Running {
    Short(ShortSum),
    Wide(Sum),
}

/// A constraint as a sum of others, in short terms while their absolute coefficients, as they stand, sum to less than 2^31 and the bound is
/// as small; then in wide ones. Contracts see the form.
#[derive(Drop)]
pub struct PackedSum {
    running: Running,
}

impl Model for PackedSum {
    ghost use Rattle.proof_theory.specs.Forms.{Form};
    ghost use Rattle.packed_terms.specs.Running.{running_form};

    ghost Value = { Form };

    ghost view = { λ s. running_form s.running };
}

/// The terms of the second behind those of the first.
fn joined(mut first: Vec<(u32, i32)>, second: &[(u32, i32)]) -> Result<Vec<(u32, i32)>, AllocError>
    ensures { IfOk result (λ v. v.items ≡ first.items ++ second.now) }
{
    first.extend_from_slice(second)?;
    Ok(first)
}

/// The terms of both, the fewer behind the others.
fn both(a: Vec<(u32, i32)>, b: Vec<(u32, i32)>) -> Result<Vec<(u32, i32)>, AllocError>
    ensures sized { IfOk result (λ v. size v.items ≡ size a.items + size b.items) }
    ensures sums { IfOk result (λ v. sorted v.items ≡ sorted (a.items ++ b.items)) }
{
    if a.len() < b.len() {
        joined(b, &a)
    } else {
        joined(a, &b)
    }
}

impl ShortSum {
    /// A constraint by itself. Copies its terms.
    fn of(alloc: Global, constraint: &ShortConstraint) -> Result<ShortSum, AllocError>
        ensures { IfOk result (λ made. made ≡ constraint.now) }
    {
        let (terms, bound, weight) = constraint.parts();
        let ordered = terms.len();
        let terms = Vec::from_slice(alloc, terms)?;
        Ok(ShortSum {
            terms,
            bound,
            weight,
            ordered,
        })
    }

    /// A constraint by itself, whose terms it takes. Constant.
    fn from_constraint(constraint: ShortConstraint) -> ShortSum
        ensures { result ≡ constraint }
    {
        let (terms, bound, weight) = constraint.into_parts();
        let ordered = terms.len();
        ShortSum {
            terms,
            bound,
            weight,
            ordered,
        }
    }

    /// The sum put in order. A sort of the terms that takes what rises already as it is, and one pass; one pass alone where all rises.
    fn constraint(self) -> Result<ShortConstraint, AllocError>
        ensures { IfOk result (λ made. made ≡ self) }
    {
        let ShortSum { terms, bound, .. } = self;
        ShortConstraint::from_terms(terms, bound)
    }

    /// The same, put in order where there are far more terms than when they were last in order, so that like terms are added.
    fn kept_short(self) -> Result<ShortSum, AllocError>
        ensures { IfOk result (λ made. made ≡ self) }
    {
        if self.terms.len() / 4 <= self.ordered.max(ROOM / 4) {
            return Ok(self);
        }
        Ok(ShortSum::from_constraint(self.constraint()?))
    }

    /// The same in wide terms.
    fn widened(self, alloc: Global) -> Result<Sum, AllocError>
        ensures { IfOk result (λ made. made ≡ self) }
    {
        let made = self.constraint()?;
        Ok(Sum::from_constraint(made.widened(alloc)?))
    }

    /// The terms of both one behind the other. Moves the terms of the one with fewer; where the two could be too heavy together, both go
    /// over to wide terms.
    fn with(self, alloc: Global, other: ShortSum) -> Result<PackedSum, PbFault>
        ensures { Gives result (sum_of self other) }
    {
        let weight = u64::from(self.weight) + u64::from(other.weight);
        let bound = i64::from(self.bound) + i64::from(other.bound);
        if u128::from(weight) >= LIMIT || u128::from(bound.unsigned_abs()) >= LIMIT {
            let first = self.widened(alloc)?;
            let second = other.widened(alloc)?;
            return Ok(PackedSum::from_sum(first.add(alloc, second)?));
        }
        let ordered = self.ordered.max(other.ordered);
        let terms = both(self.terms, other.terms)?;
        Ok(PackedSum::from_short(ShortSum {
            terms,
            bound: bound as i32,
            weight: weight as u32,
            ordered,
        }))
    }
}

impl PackedSum {
    /// A sum in short terms.
    fn from_short(sum: ShortSum) -> PackedSum
        ensures { result ≡ sum }
    {
        PackedSum {
            running: Running::Short(sum),
        }
    }

    /// A sum in wide terms.
    fn from_sum(sum: Sum) -> PackedSum
        ensures { result ≡ sum }
    {
        PackedSum {
            running: Running::Wide(sum),
        }
    }

    /// A constraint by itself. Copies its terms.
    pub fn of(alloc: Global, constraint: &PackedConstraint) -> Result<PackedSum, AllocError>
        ensures { IfOk result (λ made. made ≡ constraint.now) }
    {
        match constraint.kept() {
            Kept::Short(short) => Ok(PackedSum::from_short(ShortSum::of(alloc, short)?)),
            Kept::Wide(wide) => Ok(PackedSum::from_sum(Sum::of(alloc, wide)?)),
        }
    }

    /// A constraint by itself, whose terms it takes. At most one pass.
    pub fn from_constraint(constraint: PackedConstraint) -> PackedSum
        ensures { result ≡ constraint }
    {
        match constraint.into_kept() {
            Kept::Short(short) => PackedSum::from_short(ShortSum::from_constraint(short)),
            Kept::Wide(wide) => PackedSum::from_sum(Sum::from_constraint(wide)),
        }
    }

    /// The same in wide terms.
    fn widened(self, alloc: Global) -> Result<Sum, AllocError>
        ensures { IfOk result (λ made. made ≡ self) }
    {
        match self.running {
            Running::Short(short) => short.widened(alloc),
            Running::Wide(wide) => Ok(wide),
        }
    }

    /// The same, put in order where there are far more short terms than when they were last in order.
    fn kept_short(self) -> Result<PackedSum, AllocError>
        ensures { IfOk result (λ made. made ≡ self) }
    {
        match self.running {
            Running::Short(short) => Ok(PackedSum::from_short(short.kept_short()?)),
            Running::Wide(wide) => Ok(PackedSum::from_sum(wide)),
        }
    }

    /// The sum of both as their terms stand.
    fn with(self, alloc: Global, other: PackedSum) -> Result<PackedSum, PbFault>
        ensures { Gives result (sum_of self other) }
    {
        match (self.running, other.running) {
            (Running::Short(first), Running::Short(second)) => first.with(alloc, second),
            (Running::Short(first), Running::Wide(second)) => {
                let first = first.widened(alloc)?;
                Ok(PackedSum::from_sum(first.add(alloc, second)?))
            }
            (Running::Wide(first), Running::Short(second)) => {
                let second = second.widened(alloc)?;
                Ok(PackedSum::from_sum(first.add(alloc, second)?))
            }
            (Running::Wide(first), Running::Wide(second)) => {
                Ok(PackedSum::from_sum(first.add(alloc, second)?))
            }
        }
    }

    /// The sum of both. Moves the terms of the one with fewer, so that a sum of n terms, however it is nested, costs n times its
    /// logarithm; it holds about four times the terms that are left of it in the end, and some more where these are few.
    pub fn add(self, alloc: Global, other: PackedSum) -> Result<PackedSum, PbFault>
        ensures { Gives result (sum_of self other) }
    {
        let made = self.with(alloc, other)?;
        Ok(made.kept_short()?)
    }

    /// The sum put in order, as `pb_terms` keeps it. A sort of the terms that takes what rises already as it is, and a few passes.
    pub fn constraint(self, alloc: Global) -> Result<Constraint, AllocError>
        ensures { IfOk result (λ made. made ≡ self) }
    {
        self.widened(alloc)?.constraint(alloc)
    }

    /// The sum put in order, to be kept. A sort of the terms that takes what rises already as it is, and a pass or two.
    pub fn packed(self, alloc: Global) -> Result<PackedConstraint, AllocError>
        ensures { IfOk result (λ made. made ≡ self) }
    {
        match self.running {
            Running::Short(short) => Ok(PackedConstraint::from_short(short.constraint()?)),
            Running::Wide(wide) => {
                PackedConstraint::from_constraint(alloc, wide.constraint(alloc)?)
            }
        }
    }
}
