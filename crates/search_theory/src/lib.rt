//! What a search by guesses and restarts means, and the laws that it stands on.
//!
//! This layer holds definitions alone: what domains claim of the embeddings, when a value fits a path, the account of a
//! search (its path, what it has refuted, its fails, its restarts), how many fails there can be, and which budget is enough.
//! The layers above keep domains and accounts in bits and counters, and speak of them in these words. The laws are the
//! contracts of empty functions. Restarts follow the Luby sequence (Luby, Sinclair, Zuckerman 1993), as in the
//! constraint solvers that restart with nogoods (Lecoutre, Sais, Tabary, Vidal 2007; Archibald et al. 2019).
#![tactic(auto)]

pub mod account_laws;
pub mod bound_laws;
pub mod domain_laws;
