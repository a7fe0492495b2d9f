//! The command `demo`.

ghost use Rattle.std.specs.Prelude.{◌≡◌, ◌++◌, false, [], IfOk, IfErr};
ghost use Rattle.command_line.specs.CommandLine.{IsDemoInRange};
ghost use Rattle.demo_instances.specs.SeedProblems.{IsPlanted, IsCycle};
ghost use Rattle.subgraph_cli.specs.Demonstrating.{ShowsOne, IsLogged, DemoSays, shown_text};
ghost use Rattle.subgraph_cli.specs.Stops.{SparesOutput};
ghost use Rattle.subgraph_cli.specs.Streams.{stream};
ghost use Rattle.subgraph_cli.specs.Leaving.{OnlyPrints};

use crate::accepting::accept;
use crate::kept::keep;
use crate::stop::Stop;
use command_line::DemoWords;
use demo_instances::{Words, cycle_has_none, cycle_problem, planted_embeds, planted_problem};
use fail_account::account::Account;
use graph_rows::Problem;
use outer_io::sink::Sink;
use parallel_solve::{Settings, Solved, solve};
use proof_collection::Proof;
use std::alloc::Global;
use std::thread::Threads;

/// How many rows of nogoods the workers of a demo share.
const ROWS: u32 = 65_536;

/// Which of the two problems were decided.
#[derive(Clone, Copy, PartialEq, Eq, Debug)]
pub struct Shown {
    /// Whether an embedding of the planted pattern was found.
    pub planted: bool,
    /// Whether it was shown that the cycle has none, by a log that is accepted.
    pub cycle: bool,
}

/// Keeps the accounts of a problem that ended undecided.
fn keep_undecided(accounts: Vec<Account>, spent: &mut Vec<Account>) -> Result<bool, Stop>
    ensures kept { IfOk result (λ decided. (decided ≡ false)
        × (spent.new.items ≡ spent.old.items ++ accounts.items)) }
    ensures memory { IfErr result (λ stop. stop ≡ Stop.NoMemory) }
{
    match keep(accounts, spent) {
        Ok(()) => Ok(false),
        Err(_) => Err(Stop::NoMemory),
    }
}

/// How the workers of a demo decide one of the two, and whether a log is kept.
fn settings_of(asked: &DemoWords, prove: bool) -> Settings
    ensures threads { result.threads ≡ asked.now.threads }
    ensures budget { result.budget ≡ asked.now.budget }
    ensures rows { result.rows ≡ ROWS }
    ensures prove { result.prove ≡ prove }
{
    Settings {
        threads: asked.threads,
        seed: asked.seed,
        budget: asked.budget,
        rows: ROWS,
        prove,
    }
}

/// Decides a planted problem, and says whether it was decided within the budget. It embeds, so that no other answer can
/// come. A mapping is tested before it counts.
fn decide_planted<R: Threads + Sync>(
    rt: &R,
    alloc: Global,
    q: &Problem,
    asked: &DemoWords,
    spent: &mut Vec<Account>,
) -> Result<bool, Stop>
    requires ranges { IsDemoInRange asked.now }
    requires planted { IsPlanted asked.now.seed q.now }
    ensures shows { ShowsOne result
        (IsPlanted asked.now.seed) asked.now spent.old.items spent.new.items }
    ensures memory { IfErr result (λ stop. stop ≡ Stop.NoMemory) }
{
    planted_embeds();
    match solve(rt, alloc, q, &settings_of(asked, false)) {
        Solved::Yes(map) => {
            if q.is_embedding(&map) {
                Ok(true)
            } else {
                unreachable!()
            }
        }
        Solved::NoEmbedding(_) => unreachable!(),
        Solved::Unknown(accounts) => keep_undecided(accounts, spent),
        Solved::NoMemory => Err(Stop::NoMemory),
    }
}

/// Decides a cycle's problem, and says whether it was decided within the budget. It does not embed, so that no other
/// answer can come. The log that shows this is written to memory and checked before the answer counts.
fn decide_cycle<R: Threads + Sync>(
    rt: &R,
    alloc: Global,
    q: &Problem,
    asked: &DemoWords,
    spent: &mut Vec<Account>,
) -> Result<bool, Stop>
    requires ranges { IsDemoInRange asked.now }
    requires cycle { IsCycle asked.now.seed q.now }
    ensures shows { ShowsOne result
        (IsCycle asked.now.seed) asked.now spent.old.items spent.new.items }
    ensures logged { IfOk result (λ decided. IsLogged decided asked.now) }
    ensures memory { IfErr result (λ stop. stop ≡ Stop.NoMemory) }
{
    cycle_has_none();
    match solve(rt, alloc, q, &settings_of(asked, true)) {
        Solved::NoMemory => Err(Stop::NoMemory),
        Solved::Unknown(accounts) => keep_undecided(accounts, spent),
        Solved::Yes(_) => unreachable!(),
        Solved::NoEmbedding(Proof::Unlogged) => unreachable!(),
        Solved::NoEmbedding(Proof::Logged(parts)) => match accept(alloc, q, &parts) {
            Ok(()) => Ok(true),
            Err(_) => Err(Stop::NoMemory),
        },
    }
}

/// Makes the planted problem of the seed, and decides it.
fn show_planted<R: Threads + Sync>(
    rt: &R,
    alloc: Global,
    words: &Words,
    asked: &DemoWords,
    spent: &mut Vec<Account>,
) -> Result<bool, Stop>
    requires ranges { IsDemoInRange asked.now }
    requires words { words.now ≡ asked.now.seed }
    ensures shows { ShowsOne result
        (IsPlanted asked.now.seed) asked.now spent.old.items spent.new.items }
    ensures memory { IfErr result (λ stop. stop ≡ Stop.NoMemory) }
{
    let Ok(q) = planted_problem(alloc, words) else {
        return Err(Stop::NoMemory);
    };
    decide_planted(rt, alloc, &q, asked, spent)
}

/// Makes the cycle's problem of the seed, and decides it.
fn show_cycle<R: Threads + Sync>(
    rt: &R,
    alloc: Global,
    words: &Words,
    asked: &DemoWords,
    spent: &mut Vec<Account>,
) -> Result<bool, Stop>
    requires ranges { IsDemoInRange asked.now }
    requires words { words.now ≡ asked.now.seed }
    ensures shows { ShowsOne result
        (IsCycle asked.now.seed) asked.now spent.old.items spent.new.items }
    ensures logged { IfOk result (λ decided. IsLogged decided asked.now) }
    ensures memory { IfErr result (λ stop. stop ≡ Stop.NoMemory) }
{
    let Ok(q) = cycle_problem(alloc, words) else {
        return Err(Stop::NoMemory);
    };
    decide_cycle(rt, alloc, &q, asked, spent)
}

/// The lines of both.
fn lines_of(shown: Shown) -> &'static [u8]
    ensures { result.now ≡ shown_text shown.planted shown.cycle }
{
    match (shown.planted, shown.cycle) {
        (true, true) => b"planted yes\ncycle none\nlog accepted\n",
        (true, false) => b"planted yes\ncycle unknown\n",
        (false, true) => b"planted unknown\ncycle none\nlog accepted\n",
        (false, false) => b"planted unknown\ncycle unknown\n",
    }
}

/// Decides the two problems of a seed, and then writes of each whether it was decided. The accounts of those that were not
/// go to `spent`, before anything is written.
pub fn demo<R: Threads + Sync, O: Sink>(
    rt: &R,
    alloc: Global,
    asked: &DemoWords,
    out: &mut O,
    spent: &mut Vec<Account>,
) -> Result<Shown, Stop>
    requires ranges { IsDemoInRange asked.now }
    requires empty { spent.old.items ≡ [] }
    ensures says { DemoSays result asked.now spent.new.items
        (stream O.spot O.contents O.faults out.old out.new) }
    ensures output { OnlyPrints O.spot O.contents O.rest O.faults SparesOutput result
        out.old out.new }
{
    let Ok(words) = Words::new(alloc, asked.seed) else {
        return Err(Stop::NoMemory);
    };
    let planted = show_planted(rt, alloc, &words, asked, spent)?;
    let cycle = show_cycle(rt, alloc, &words, asked, spent)?;
    let shown = Shown { planted, cycle };
    match out.put(lines_of(shown)) {
        Ok(()) => Ok(shown),
        Err(_) => Err(Stop::OutputFault),
    }
}
