//! What is decided of the problem, before it is shown and told.

ghost use Rattle.std.specs.Prelude.{◌≡◌, [], is_some, IsTrue, IfOk, IfErr};
ghost use Rattle.command_line.specs.CommandLine.{IsSolveInRange};
ghost use Rattle.subgraph_cli.specs.Deciding.{IsRight, AreKept};

use crate::kept::keep;
use crate::stop::Stop;
use command_line::SolveWords;
use fail_account::account::Account;
use graph_rows::problem::Problem;
use parallel_solve::{Settings, Solved, solve};
use proof_collection::Proof;
use std::alloc::Global;
use std::thread::Threads;

/// What was decided of a problem.
#[derive(Drop)]
pub enum Answer {
    /// An embedding: the target vertex of each pattern vertex in order.
    Yes(Vec<u32>),
    /// No embedding exists; with the parts of a log where one was asked for.
    Nothing(Proof),
    /// Each worker spent its budget before.
    Unknown,
}

/// How the words ask for their problem to be decided.
fn settings_of(words: &SolveWords) -> Settings
    ensures threads { result.threads ≡ words.now.threads }
    ensures budget { result.budget ≡ words.now.budget }
    ensures rows { result.rows ≡ words.now.book }
    ensures prove { result.prove ≡ is_some words.now.prove }
{
    Settings {
        threads: words.threads,
        seed: words.seed,
        budget: words.budget,
        rows: words.book,
        prove: words.prove.is_some(),
    }
}

/// Decides the problem. The accounts of an undecided one go to `spent`.
pub(crate) fn decide<R: Threads + Sync>(
    rt: &R,
    alloc: Global,
    q: &Problem,
    words: &SolveWords,
    spent: &mut Vec<Account>,
) -> Result<Answer, Stop>
    requires ranges { IsSolveInRange words.now }
    requires empty { spent.old.items ≡ [] }
    ensures right { IfOk result (λ a. IsRight a q.now (is_some words.now.prove)) }
    ensures kept { IfOk result (λ a. AreKept a q.now words.now spent.new.items) }
    ensures memory { IfErr result (λ stop. stop ≡ Stop.NoMemory) }
{
    match solve(rt, alloc, q, &settings_of(words)) {
        Solved::Yes(map) => Ok(Answer::Yes(map)),
        Solved::NoEmbedding(proof) => Ok(Answer::Nothing(proof)),
        Solved::Unknown(accounts) => match keep(accounts, spent) {
            Ok(()) => Ok(Answer::Unknown),
            Err(_) => Err(Stop::NoMemory),
        },
        Solved::NoMemory => Err(Stop::NoMemory),
    }
}
