#![tactic(auto)]
//! Watched nogoods. A nogood is a list of literals, pairs of a vertex and a value, that never all hold. It has something to say only
//! where all its literals but one are assigned, so it is enough to look at two of them: while neither is assigned, nothing follows.
//!
//! The layer keeps the nogoods that it was given, each with its two watches, and a list of watches for each literal. When a vertex is
//! assigned, the list of this literal is walked once: a watch moves to a literal that is not assigned, or the other watch is forced out.
//! The other watch never moves there: where it is assigned too, its own vertex is still to be looked at.
//! A nogood in which a shorter one lies needs no watch: the shorter one says the same earlier.
//! Nothing has to be undone when domains grow again. A layer above may rely on nothing being allocated but where a nogood is added.
//!
//! Watched literals are those of the solver Chaff (Moskewicz, Madigan, Zhao, Zhang, Malik 2001); nogoods of restarts are watched so by
//! Lecoutre, Sais, Tabary and Vidal (2007).

mod in_force;
mod lists;
mod shared;
mod thinning;
mod walk;
mod watched;

pub use in_force::watch_laws;
pub use watched::{WatchAnswer, Watched};
