//! Constraints that are kept by the million, in a quarter of the memory: where the absolute coefficients sum to less than 2^31, and the
//! bound is as small, a term has eight bytes, and what is read of it is read in machine words. Any other constraint is kept as
//! `pb_terms` makes it, so that nothing is ever cut. Sums of kept constraints are made in the same terms, and go over to wide ones where
//! they grow too heavy. The layers above read a kept constraint as the form of its definition.
#![tactic(auto)]

mod constraint;
mod ordered;
mod packed;
mod short;
mod sum;

pub use constraint::ShortConstraint;
pub use packed::{Kept, PackedConstraint};
pub use short::greatest;
pub use sum::PackedSum;
