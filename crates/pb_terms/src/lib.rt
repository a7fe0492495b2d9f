//! Exact arithmetic of pseudo-Boolean constraints, `sum of c_v x_v >= b` in i128, for the rules of the cutting planes proof system
//! (Cook, Coullard, Turan 1987) as pseudo-Boolean proof logging uses them (Gocht, McCreesh, Nordström 2020). A constraint keeps its
//! terms sorted by variable, without zero coefficients, and no wider than 2^125; every rule gives exactly its definition's form, or
//! answers `Wide` exactly where that form is wider. Slack and forced literals follow Chai and Kuehlmann (2003). The layers above
//! read a constraint as the form of its definition, and never see how it is kept.
#![tactic(auto)]

mod constraint;
mod fault;
mod literals;
mod rules;
mod slack;
mod sum;
mod sums;
mod width;

pub use constraint::Constraint;
pub use fault::PbFault;
pub use literals::Literals;
pub use proof_theory::Literal;
pub use slack::{forcing_law, is_one, value_of};
pub use sum::Sum;
