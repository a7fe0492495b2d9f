//! Deciding a problem by several workers, or by one alone.

ghost use Rattle.std.specs.Prelude.{◌≡◌, [], ◌≤◌, ◌<◌, ◌^◌, false, true, None, IfErr, IfOk, IfSome};
ghost use Rattle.graph_theory.specs.Graph.{size};
ghost use Rattle.graph_theory.specs.Embedding.{HasNone};
ghost use Rattle.nds_filter.specs.Target.{AreOf};
ghost use Rattle.domain_bits.specs.Removals.{full};
ghost use Rattle.recorder.specs.Telling.{Tells};
ghost use Rattle.restart_search.specs.Searching.{RootFails};
ghost use Rattle.proof_collection.specs.Proofs.{IsProven};
ghost use Rattle.parallel_solve.specs.Solving.{IsShortOf, IsSolved, IsWithinBounds};
ghost use Rattle.parallel_solve.specs.Teams.{IsTeam};

use crate::answers::{Interrupted, Settings, Solved};
use crate::running::{Unheard, run_beside, run_in_turn};
use crate::tally::conclude;
use crate::team::{Root, Team, make_team};
use dead_paths::Ground;
use domain_bits::WordTrail;
use fail_account::Account;
use graph_rows::Problem;
use nds_filter::TargetSequences;
use pair_supports::{MOST_WORDS, PairKinds};
use pb_encoding::Encoding;
use proof_collection::{KeepsLines, KeepsNothing, OwnerLog, Proof, ProofMaker};
use proof_logger::{ProofLogger, Unlogged};
use recorder::{Causes, DeadEnd, Failure, Silent};
use restart_search::root::{Rooted, root as take_root};
use small_search::{SmallAnswer, search_small};
use std::alloc::{AllocError, Global};
use std::thread::Threads;
use worker_gate::{Gate, OpenGate};

/// The pairs of a pattern vertex and a target vertex up to which a problem is small: most of these are decided before a book could help.
const SMALL: u32 = 16_384;

/// The fails of the short search with which one worker begins at a small problem. It is below the 128 of a run, so the search never
/// restarts, and what it decides, the search with a book would have decided in the same way.
const SHORT_BUDGET: u64 = 64;

/// The steps of the search for small problems, which is asked before any table of the general search is made. So many cost about as much
/// as these tables do, so what it leaves open costs twice as much at most.
const SMALL_STEPS: u32 = 200;

/// Whether the problem has so few pairs of a pattern vertex and a target vertex that one worker begins with a short search.
fn is_small(q: &Problem) -> bool {
    u32::from(q.pattern().size()) * u32::from(q.target().size()) <= SMALL
}

/// The settings of the short search with which one worker begins at a small problem.
fn short_of(q: &Problem, s: &Settings) -> Option<Settings>
    ensures { IfSome result (λ short. IsShortOf short s.now) }
{
    if s.threads != 1 || s.budget <= SHORT_BUDGET || !is_small(q) {
        return None;
    }
    Some(Settings {
        budget: SHORT_BUDGET,
        rows: 0,
        ..*s
    })
}

/// The answer of the search for small problems, where it has one, no log is asked for, and no seed: it makes no random choices.
fn small_answer(alloc: Global, q: &Problem, s: &Settings) -> Option<Solved>
    ensures { IfSome result
        (λ solved. IsSolved solved q.now s.now.threads s.now.budget s.now.prove) }
{
    let asks_log = s.prove;
    if asks_log || s.seed != 0 {
        return None;
    }
    match search_small(alloc, q, SMALL_STEPS) {
        SmallAnswer::Yes(map) => Some(Solved::Yes(map)),
        SmallAnswer::NoEmbedding => Some(Solved::NoEmbedding(Proof::Unlogged)),
        SmallAnswer::Open => None,
    }
}

/// Decides a problem by the workers that the settings ask for, which search beside each other and share what they refute. One worker alone
/// begins at a small problem with a search of 64 fails, for which no book is made; where no log is asked for, `search_small` comes before it, and where
/// that decides the problem no memory is taken but the map's. Memory: beside the target's own, for each
/// worker its domains, the watches of its nogoods, 16 bytes for each row of the book, as much to twice as much for each row that it keeps
/// behind a full book, and its part of 64 MiB for rows of pairs;
/// where a log is kept, also the encoding, the rows of values that share neighbours, and the lines of each dead path.
pub fn solve<R: Threads + Sync>(rt: &R, alloc: Global, q: &Problem, s: &Settings) -> Solved
    requires bounds { IsWithinBounds s.now }
    ensures { IsSolved result q.now s.now.threads s.now.budget s.now.prove }
{
    if let Some(short) = short_of(q, s) {
        if let Some(decided) = small_answer(alloc, q, s) {
            return decided;
        }
        match solve_open(rt, alloc, q, &short) {
            Solved::Unknown(_) => (),
            decided => return decided,
        }
    }
    solve_open(rt, alloc, q, s)
}

/// Decides a problem as `solve` does by one worker without a log, a small one first by `search_small`. It needs no leave to make threads.
pub fn solve_alone(alloc: Global, q: &Problem, seed: u64, budget: u64, rows: u32) -> Solved
    requires budget { budget < 2 ^ 63 }
    requires rows { rows ≤ 4194304 }
    ensures { IsSolved result q.now 1 budget false }
{
    match solve_alone_with(alloc, q, seed, budget, rows, &OpenGate) {
        Ok(solved) => solved,
        Err(_) => unreachable!(),
    }
}

/// The same at a gate, to which the worker comes at its start, before each guess and at each restart. An error where the gate
/// was closed before a guess, and then nothing is decided. All that precedes the first guess is done also at a closed gate: the search for small
/// problems, which may decide one there, and the root's propagation.
pub fn solve_alone_with<G: Gate>(
    alloc: Global,
    q: &Problem,
    seed: u64,
    budget: u64,
    rows: u32,
    gate: &G,
) -> Result<Solved, Interrupted>
    requires budget { budget < 2 ^ 63 }
    requires rows { rows ≤ 4194304 }
    ensures solved { IfOk result (λ solved. IsSolved solved q.now 1 budget false) }
    ensures closed { IfErr result (λ _. G.may_close gate.now) }
{
    solve_alone_beside(alloc, q, None, seed, budget, rows, gate)
}

/// The same, where sequences of the target may be kept from problems before, which are most of what precedes the first guess in a large target.
pub fn solve_alone_beside<G: Gate>(
    alloc: Global,
    q: &Problem,
    kept: Option<&TargetSequences>,
    seed: u64,
    budget: u64,
    rows: u32,
    gate: &G,
) -> Result<Solved, Interrupted>
    requires kept { IfSome kept (λ k. AreOf k.now q.now.target) }
    requires budget { budget < 2 ^ 63 }
    requires rows { rows ≤ 4194304 }
    ensures solved { IfOk result (λ solved. IsSolved solved q.now 1 budget false) }
    ensures closed { IfErr result (λ _. G.may_close gate.now) }
{
    let s = Settings {
        threads: 1,
        seed,
        budget,
        rows,
        prove: false,
    };
    if let Some(short) = short_of(q, &s) {
        if let Some(decided) = small_answer(alloc, q, &s) {
            return Ok(decided);
        }
        match search_alone(alloc, q, kept, &short, gate) {
            Ok(Solved::Unknown(_)) => (),
            ended => return ended,
        }
    }
    search_alone(alloc, q, kept, &s, gate)
}

/// Decides a problem as `solve` does, but without a short search before; each worker comes to the gate at its start, before each guess and
/// at each restart. An error where the gate was closed before a guess of one worker, and none has decided the problem.
pub fn solve_with<R: Threads + Sync, G: Gate + Sync>(
    rt: &R,
    alloc: Global,
    q: &Problem,
    s: &Settings,
    gate: &G,
) -> Result<Solved, Interrupted>
    requires bounds { IsWithinBounds s.now }
    ensures solved { IfOk result
        (λ solved. IsSolved solved q.now s.now.threads s.now.budget s.now.prove) }
    ensures closed { IfErr result (λ _. G.may_close gate.now) }
{
    if s.prove {
        return solve_with_proof(rt, alloc, q, s, gate);
    }
    let maker = KeepsNothing::new(q);
    search_beside::<R, G, Unlogged, KeepsNothing>(rt, alloc, q, s, gate, &maker, Silent)
}

/// The same at the open gate.
fn solve_open<R: Threads + Sync>(rt: &R, alloc: Global, q: &Problem, s: &Settings) -> Solved
    requires bounds { IsWithinBounds s.now }
    ensures { IsSolved result q.now s.now.threads s.now.budget s.now.prove }
{
    match solve_with(rt, alloc, q, s, &OpenGate) {
        Ok(solved) => solved,
        Err(_) => unreachable!(),
    }
}

/// Decides a problem as `solve_with` does, with a proof where no embedding exists.
fn solve_with_proof<R: Threads + Sync, G: Gate + Sync>(
    rt: &R,
    alloc: Global,
    q: &Problem,
    s: &Settings,
    gate: &G,
) -> Result<Solved, Interrupted>
    requires bounds { IsWithinBounds s.now }
    ensures solved { IfOk result
        (λ solved. IsSolved solved q.now s.now.threads s.now.budget true) }
    ensures closed { IfErr result (λ _. G.may_close gate.now) }
{
    let Ok(lines) = Encoding::new(alloc, q) else {
        return Ok(Solved::NoMemory);
    };
    let ground = Ground::new(alloc, &lines);
    let maker = KeepsLines::new(q, &ground);
    let told = Causes::new(alloc);
    search_beside::<R, G, OwnerLog, KeepsLines>(rt, alloc, q, s, gate, &maker, told)
}

/// Has the workers search beside each other, with loggers and a proof by this maker, and a recorder that was told nothing. All of them
/// share the kinds of pairs.
fn search_beside<R: Threads + Sync, G: Gate + Sync, L: ProofLogger + Send, M: ProofMaker<L>>(
    rt: &R,
    alloc: Global,
    q: &Problem,
    s: &Settings,
    gate: &G,
    maker: &M,
    told: L::Told,
) -> Result<Solved, Interrupted>
where
    L::Told: Send,
    requires maker { M.problem maker.now ≡ q.now }
    requires told { Tells q.now None (full (size q.now.pattern) (size q.now.target))
        (L.Told.changes told) }
    requires bounds { IsWithinBounds s.now }
    ensures solved { IfOk result
        (λ solved. IsSolved solved q.now s.now.threads s.now.budget (M.logged maker.now)) }
    ensures closed { IfErr result (λ _. G.may_close gate.now) }
{
    let Ok(kinds) = PairKinds::new(alloc, q) else {
        return Ok(Solved::NoMemory);
    };
    let root = Root {
        alloc,
        q,
        kinds: &kinds,
        maker,
        settings: s,
    };
    match team_of(&root, None, told) {
        Ok(team) => decide_beside(rt, &root, team, gate),
        Err(answer) => Ok(answer),
    }
}

/// Has one worker search, without a log.
fn search_alone<G: Gate>(
    alloc: Global,
    q: &Problem,
    kept: Option<&TargetSequences>,
    s: &Settings,
    gate: &G,
) -> Result<Solved, Interrupted>
    requires kept { IfSome kept (λ k. AreOf k.now q.now.target) }
    requires one { s.now.threads ≡ 1 }
    requires unlogged { s.now.prove ≡ false }
    requires bounds { IsWithinBounds s.now }
    ensures solved { IfOk result (λ solved. IsSolved solved q.now 1 s.now.budget false) }
    ensures closed { IfErr result (λ _. G.may_close gate.now) }
{
    let maker = KeepsNothing::new(q);
    let Ok(kinds) = PairKinds::new(alloc, q) else {
        return Ok(Solved::NoMemory);
    };
    let root = Root {
        alloc,
        q,
        kinds: &kinds,
        maker: &maker,
        settings: s,
    };
    match team_of::<Unlogged, KeepsNothing>(&root, kept, Silent) {
        Ok(team) => decide_in_turn(&root, team, gate),
        Err(answer) => Ok(answer),
    }
}

/// The team that is to search below the root, with a recorder that was told nothing; or the answer, where the root gives it or memory was
/// refused. Sequences of the target may be kept from before.
fn team_of<'a, L: ProofLogger, M: ProofMaker<L>>(
    root: &Root<'_, 'a, M>,
    kept: Option<&TargetSequences>,
    told: L::Told,
) -> Result<Team<'a, L>, Solved>
    requires kinds { root.now.kinds.now.problem ≡ root.now.q.now }
    requires kept { IfSome kept (λ k. AreOf k.now root.now.q.now.target) }
    requires maker { M.problem root.now.maker.now ≡ root.now.q.now }
    requires told { Tells root.now.q.now None
        (full (size root.now.q.now.pattern) (size root.now.q.now.target)) (L.Told.changes told) }
    requires bounds { IsWithinBounds root.now.settings.now }
    ensures team { IfOk result (IsTeam L.owner root.now.q.now root.now.settings.now.threads
        root.now.settings.now.budget) }
    ensures answer { IfErr result (λ answer. IsSolved answer root.now.q.now
        root.now.settings.now.threads root.now.settings.now.budget (M.logged root.now.maker.now)) }
{
    match take_root::<WordTrail, L::Told>(root.alloc, root.q, root.kinds, MOST_WORDS, kept, told) {
        Rooted::Quiet(domains, told) => match make_team(root, domains, told) {
            Ok(team) => Ok(team),
            Err(_) => Err(Solved::NoMemory),
        },
        Rooted::Failed(failure, told) => Err(answer_of_root(root, &told, failure)),
        Rooted::NoMemory => Err(Solved::NoMemory),
    }
}

/// The answer where the root's domains failed so, with what was told of them.
fn answer_of_root<L: ProofLogger, M: ProofMaker<L>>(
    root: &Root<'_, '_, M>,
    told: &L::Told,
    failure: Failure,
) -> Solved
    requires maker { M.problem root.now.maker.now ≡ root.now.q.now }
    requires none { HasNone root.now.q.now }
    requires fails { RootFails root.now.q.now (L.Told.changes told.now) (L.Told.short told.now)
        failure }
    ensures { IsSolved result root.now.q.now root.now.settings.now.threads
        root.now.settings.now.budget (M.logged root.now.maker.now) }
{
    match root_proof(root.alloc, root.q, told, failure, root.maker) {
        Ok(proof) => Solved::NoEmbedding(proof),
        Err(_) => Solved::NoMemory,
    }
}

/// The proof where the root's domains failed so, with what was told of them: the log of owner 0, which has no path but the empty one.
fn root_proof<L: ProofLogger, M: ProofMaker<L>>(
    alloc: Global,
    q: &Problem,
    told: &L::Told,
    failure: Failure,
    maker: &M,
) -> Result<Proof, AllocError>
    requires maker { M.problem maker.now ≡ q.now }
    requires fails { RootFails q.now (L.Told.changes told.now) (L.Told.short told.now) failure }
    ensures { IfOk result (IsProven (M.logged maker.now) q.now) }
{
    let account = Account::new(alloc, q, 0)?;
    let mut log = maker.logger(alloc, 0)?;
    log.close(alloc, q, &[], told, &account, DeadEnd::Failed(failure))?;
    maker.of_root(alloc, log)
}

/// Runs the workers of a team beside each other, and answers what they say together, unless a closed gate ended them.
fn decide_beside<'a, R: Threads + Sync, G: Gate + Sync, L: ProofLogger + Send, M: ProofMaker<L>>(
    rt: &R,
    root: &Root<'_, 'a, M>,
    team: Team<'a, L>,
    gate: &G,
) -> Result<Solved, Interrupted>
where
    L::Told: Send,
    requires maker { M.problem root.now.maker.now ≡ root.now.q.now }
    requires bounds { IsWithinBounds root.now.settings.now }
    requires team { IsTeam L.owner root.now.q.now root.now.settings.now.threads
        root.now.settings.now.budget team }
    ensures solved { IfOk result (λ solved. IsSolved solved root.now.q.now
        root.now.settings.now.threads root.now.settings.now.budget (M.logged root.now.maker.now)) }
    ensures closed { IfErr result (λ _. G.may_close gate.now) }
{
    let Team {
        book,
        mut first,
        jobs,
        accounts,
        logs,
    } = team;
    let budget = root.settings.budget;
    match run_beside(rt, root.alloc, root.q, budget, &book, gate, jobs) {
        Ok(done) => Ok(conclude(root, &book, &mut first, accounts, logs, done)),
        Err(Unheard::NoMemory) => Ok(Solved::NoMemory),
        Err(Unheard::Interrupted) => Err(Interrupted),
    }
}

/// Runs the workers of a team in turn, and answers what they say together, unless a closed gate ended them.
fn decide_in_turn<'a, G: Gate, L: ProofLogger, M: ProofMaker<L>>(
    root: &Root<'_, 'a, M>,
    team: Team<'a, L>,
    gate: &G,
) -> Result<Solved, Interrupted>
    requires maker { M.problem root.now.maker.now ≡ root.now.q.now }
    requires bounds { IsWithinBounds root.now.settings.now }
    requires team { IsTeam L.owner root.now.q.now root.now.settings.now.threads
        root.now.settings.now.budget team }
    ensures solved { IfOk result (λ solved. IsSolved solved root.now.q.now
        root.now.settings.now.threads root.now.settings.now.budget (M.logged root.now.maker.now)) }
    ensures closed { IfErr result (λ _. G.may_close gate.now) }
{
    let Team {
        book,
        mut first,
        jobs,
        accounts,
        logs,
    } = team;
    let budget = root.settings.budget;
    match run_in_turn(root.alloc, root.q, budget, &book, gate, jobs) {
        Ok(done) => Ok(conclude(root, &book, &mut first, accounts, logs, done)),
        Err(Unheard::NoMemory) => Ok(Solved::NoMemory),
        Err(Unheard::Interrupted) => Err(Interrupted),
    }
}
