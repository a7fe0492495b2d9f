//! What several workers are asked, and what they answer.

use fail_account::account::Account;
use proof_collection::Proof;

/// How a problem is to be decided.
#[derive(Clone, Copy, PartialEq, Eq, Debug)]
pub struct Settings {
    /// How many workers search, from 1 to 64.
    pub threads: u32,
    /// Where the choices of values begin; the workers' are different.
    pub seed: u64,
    /// How many fails each worker may spend, below 2^63.
    pub budget: u64,
    /// How many rows of nogoods the workers share, up to 4,194,304.
    pub rows: u32,
    /// Whether a log is kept of what a refutation rests on.
    pub prove: bool,
}

/// What the workers decide.
#[derive(Drop)]
pub enum Solved {
    /// An embedding: the target vertex of each pattern vertex in order.
    Yes(Vec<u32>),
    /// No embedding exists.
    NoEmbedding(Proof),
    /// Each worker spent its budget where a further guess is due: their accounts, in the workers' order.
    Unknown(Vec<Account>),
    /// Memory was refused.
    NoMemory,
}

/// The gate was closed before the workers decided the problem or spent their budgets.
#[derive(Clone, Copy, PartialEq, Eq, Debug)]
pub struct Interrupted;
