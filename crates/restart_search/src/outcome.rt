//! How the run of a worker ends, and where the worker stands then.

ghost use Rattle.std.specs.Prelude.{◌≡◌};
ghost use Rattle.restart_search.specs.Searching.{stage_after};

use worker_gate::Note;

/// How a run ends.
#[derive(Drop)]
pub enum Outcome<'a> {
    /// An embedding: the target vertex of each pattern vertex in order.
    Found(Vec<u32>),
    /// No embedding exists.
    Refuted,
    /// The budget is spent, and a further guess is due.
    Spent,
    /// The cell holds an answer to the same problem, which the note knows.
    Stopped(Note<'a>),
    /// The gate was closed where a further guess is due.
    Interrupted,
    /// Memory was refused.
    NoMemory,
}

/// Where a worker stands between its runs.
#[derive(Clone, Copy, Debug, PartialEq, Eq)]
pub enum Stage {
    /// No run has begun.
    Fresh,
    /// A run was stopped or interrupted before a guess, and another may go on from there.
    Halfway,
    /// A run has come to an end.
    Over,
}

/// Where a worker stands after an outcome.
pub(crate) fn stage_of(outcome: &Outcome) -> Stage
    ensures { result ≡ stage_after outcome.now }
{
    match outcome {
        Outcome::Stopped(_) => Stage::Halfway,
        Outcome::Interrupted => Stage::Halfway,
        Outcome::Found(_) => Stage::Over,
        Outcome::Refuted => Stage::Over,
        Outcome::Spent => Stage::Over,
        Outcome::NoMemory => Stage::Over,
    }
}
