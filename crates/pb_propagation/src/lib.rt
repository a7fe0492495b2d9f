//! Unit propagation over the constraints of a proof log, and the table of the constraints that stand.
//!
//! A log makes constraints, each under its owner and number, and shares some under rows. The table keeps them and finds what a reference names.
//! A clause may be made where unit propagation from its negation comes to a conflict: along references, each looked at once in its order,
//! which is done here, or over all constraints so far, which is told here. For these there are watches, counters and two levels of literals:
//! what is forced without assumptions stays from line to line. Watches and counters find a conflict or find none, and the second is no
//! answer: a layer above that has to know that there is none takes the steps of a pass itself, one constraint after the other. How a line is
//! read, which may come next and what the last one claims, this layer does not know; what it cannot do it answers by the first fault that the
//! definition tells. (Moskewicz and others 2001; Chai, Kuehlmann 2003; Elffers, Nordström 2018; Devriendt 2020.)
#![tactic(auto)]

mod clauses;
mod counters;
mod fault;
mod following;
mod levels;
mod propagate;
mod propagator;
pub mod reach;
mod short_following;
mod short_propagate;
mod slot;
mod table;
mod uses;
mod watches;

// What stands, and what keeps a line from being taken.
pub use fault::LineFault;
pub use slot::Slot;
pub use table::Table;

// Constraints of literals.
pub use clauses::{axiom, clause};

// Along references.
pub use propagate::derive;

// Over all constraints so far, by watches and counters; true where there is a conflict.
pub use propagator::{Propagator, is_closed};

// The steps of a pass: room for variables (`reach::reach` and `above` tell how much), the negation of a clause, one constraint.
pub use propagate::{above, clear, follow, negate_all};
