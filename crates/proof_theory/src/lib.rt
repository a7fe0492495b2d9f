//! The definitions of linear forms over 0/1 variables, `sum of c_v x_v >= b`, for everything that speaks of pseudo-Boolean
//! constraints and proofs, and the laws that follow from them alone: satisfaction, the rules of the cutting planes proof system
//! (Cook, Coullard, Turan 1987), slack (Chai, Kuehlmann 2003), refutation along a list of forms and unit propagation over all of
//! them, as pseudo-Boolean proof logging uses them (Gocht, McCreesh, Nordström 2020). This crate keeps nothing: the layers above cite
//! its definitions in their contracts and take its laws from the contracts of functions with empty bodies.
#![tactic(auto)]

ghost use Rattle.proof_theory.specs.FormLaws.{SortLaws, RuleLaws, RefutationLaws, PropagationLaws, ClosureLaws};

pub mod literal;

pub use literal::Literal;

/// Sorted terms are canonical: there is one sorted list for given coefficients.
pub fn sort_laws()
    ensures { SortLaws }
{}

/// Each rule keeps every 0/1 list that satisfies its operands.
pub fn rule_laws()
    ensures { RuleLaws }
{}

/// A clause whose negations are refuted along forms holds wherever these forms hold.
pub fn refutation_laws()
    ensures { RefutationLaws }
{}

/// What unit propagation over all of some forms comes to, whatever its order.
pub fn propagation_laws()
    ensures { PropagationLaws }
{}

/// Unit propagation over all forms comes to every conflict that a refutation along some of them shows, and to no other.
pub fn closure_laws()
    ensures { ClosureLaws }
{}
