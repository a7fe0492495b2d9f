//! Who is told why values left the domains of a search, and which set of domains had too few.
//!
//! Whoever takes values tells a recorder of each change: whose values left, or which set took them, why, and how much had left before.
//! A recorder that keeps what it is told has a history of the domains in which every step has its reason, from full domains on; it is
//! cut where domains are undone. So a dead path is explained after the fact, by as few of the changes as it rests on, and a search
//! that writes no proof pays nothing (lazily explained changes are those of Ohrimenko, Stuckey and Codish 2009).
//!
//! Here stand the words in which changes and failures are told, what makes them true of a problem, its domains and its nogoods
//! (`specs/Telling.antt`), what a recorder has to keep (`specs/Recording.antt`), and which rows of a book the nogoods are that a cause names
//! (`specs/Holding.antt`). The layer above takes values and tells; the layers that write proofs read what was kept. Neither has to know
//! the other.
#![tactic(auto)]

mod causes;
mod change;
mod recorder;
mod sets;
mod shared;

// What is told.
pub use change::{Cause, DeadEnd, Entry, Failure, Place, Side, What};

// Who is told: any recorder, none, or one that keeps the changes, with what is read of it.
pub use causes::{Causes, KeptChanges};
pub use recorder::{Recorder, Silent};

// That it stays true.
pub use recorder::telling_laws;
