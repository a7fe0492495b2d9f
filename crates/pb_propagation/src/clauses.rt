//! Constraints of literals: the axiom of one, and the clause of many.

ghost use Rattle.std.specs.Prelude.{◌≡◌, ◌∷◌, ◌≤◌, [], ℕ, ℤ, pos, neg_ℤ, cond, List, length, map, IfOk};
ghost use Rattle.proof_theory.specs.Slack.{axiom_form, clause_form, literal_term, negated_count};

use packed_terms::PackedConstraint;
use pb_terms::{Constraint, Literal, PbFault};
use std::alloc::{AllocError, Global};

/// The literal's variable with its coefficient in a clause.
fn term(literal: Literal) -> (u32, i128)
    ensures { result ≡ literal_term literal }
{
    (literal.variable, if literal.negated { -1 } else { 1 })
}

/// The axiom of a literal in wide terms.
fn wide_axiom(alloc: Global, literal: Literal) -> Result<Constraint, AllocError>
    ensures { IfOk result (λ made. made ≡ axiom_form literal) }
{
    let bound = if literal.negated { -1 } else { 0 };
    match Constraint::new(alloc, &[term(literal)], bound) {
        Ok(made) => Ok(made),
        Err(PbFault::Wide) => unreachable!(),
        Err(PbFault::NoMemory) => Err(AllocError),
    }
}

/// The axiom of a literal: it is at least 0. Constant.
pub fn axiom(alloc: Global, literal: Literal) -> Result<PackedConstraint, AllocError>
    ensures { IfOk result (λ made. made ≡ axiom_form literal) }
{
    let made = wide_axiom(alloc, literal)?;
    PackedConstraint::from_constraint(alloc, made)
}

/// How many of the literals are negated. One pass.
fn negated_count(literals: &[Literal]) -> u64
    ensures { result ≡ negated_count literals.now }
{
    let mut count = 0;
    for literal in literals {
        if literal.negated {
            count += 1;
        }
    }
    count
}

/// The literals' variables with their coefficients in a clause. One pass.
fn terms(alloc: Global, literals: &[Literal]) -> Result<Vec<(u32, i128)>, AllocError>
    ensures { IfOk result (λ v. v.items ≡ map literal_term literals.now) }
{
    literals.iter().map(|literal| term(*literal)).collect(alloc)
}

/// The clause of the literals in wide terms.
fn wide_clause(alloc: Global, literals: &[Literal]) -> Result<Constraint, AllocError>
    ensures { IfOk result (λ made. made ≡ clause_form literals.now) }
{
    let terms = terms(alloc, literals)?;
    let bound = 1 - i128::from(negated_count(literals));
    match Constraint::new(alloc, &terms, bound) {
        Ok(made) => Ok(made),
        Err(PbFault::Wide) => unreachable!(),
        Err(PbFault::NoMemory) => Err(AllocError),
    }
}

/// The clause of the literals: their sum is at least 1. A few passes where their variables rise, else a sort.
pub fn clause(alloc: Global, literals: &[Literal]) -> Result<PackedConstraint, AllocError>
    ensures { IfOk result (λ made. made ≡ clause_form literals.now) }
{
    let made = wide_clause(alloc, literals)?;
    PackedConstraint::from_constraint(alloc, made)
}
