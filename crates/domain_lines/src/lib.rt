//! Lines for the first domains of a problem, and for the single values that are not in them.
//!
//! A value may be missing from a first domain because the encoding refuses it, because it has too little room for the neighbours of its vertex,
//! or, by injective maps, because the degrees of its own neighbours are too small, place by place. In graphs with directions this is compared
//! along the edges and against them; what shows it against them are lines of the same encoding, which is also that of the graphs turned round. For
//! each there is one clause, made by a sum and a line that names it; the clauses of a vertex are summed into one line, which a dead path can name for all of
//! them. Clauses are made once for an owner, and shared: the sums of neighbours' degrees rest on clauses of pairs of neighbours. (Filters by
//! degrees and neighbours' degrees: S. Zampelli, Y. Deville, C. Solnon, 2010; their proofs in cutting planes: S. Gocht, C. McCreesh,
//! J. Nordström, 2020.)
#![tactic(auto)]

mod choosing;
mod domain_lines;
mod operands;
mod turned;
mod units;
mod value_clauses;

pub use domain_lines::DomainLines;
pub use units::Units;
