//! Deciding the problem that a call asks.

ghost use Rattle.std.specs.Prelude.{◌≡◌, ◌<◌, ◌≤◌, ◌^◌, false, None, IfOk, IfErr, IfSome, length};
ghost use Rattle.graph_theory.specs.Graph.{size};
ghost use Rattle.nds_filter.specs.Target.{AreOf};
ghost use Rattle.parallel_solve.specs.Solving.{IsSolved};
ghost use Rattle.subgraph_c.specs.Asking.{call};
ghost use Rattle.subgraph_c.specs.Deciding.{ProblemSays, RoomSays, DecisionSays, EndSays, Fits};

use crate::asking::{Asked, ask};
use crate::numbers::{first_bad, first_bad_search};
use crate::passed::Options;
use crate::refusal::{OutOfRange, Refusal};
use graph_rows::problem::Problem;
use nds_filter::TargetSequences;
use parallel_solve::{Interrupted, Solved, solve_alone_beside};
use std::alloc::Global;
use worker_gate::{Gate, OpenGate};

/// What a call decides.
#[derive(Drop)]
pub enum Decision {
    /// An embedding: the target vertex of each pattern vertex in order.
    Yes(Vec<u32>),
    /// No embedding exists.
    Nothing,
    /// The search spent its budget before.
    Unknown,
    /// Nothing is decided.
    Refused(Refusal),
}

/// What a solve of the problem by one worker decides, where there is room for an image of each pattern vertex.
fn decision_of(solved: Solved, q: &Problem, budget: u64, room: usize) -> Decision
    requires solved { IsSolved solved q.now 1 budget false }
    requires fits { size q.now.pattern ≤ room }
    ensures says { ProblemSays result q.now budget }
    ensures fits { Fits result room }
{
    match solved {
        Solved::Yes(map) => Decision::Yes(map),
        Solved::NoEmbedding(_) => Decision::Nothing,
        Solved::Unknown(_) => Decision::Unknown,
        Solved::NoMemory => Decision::Refused(Refusal::NoMemory),
    }
}

/// Decides a problem at a gate, of whose target sequences may be kept, if there is room for an image of each pattern vertex,
/// by one worker.
pub(crate) fn decide_in_room_at<G: Gate>(
    alloc: Global,
    q: &Problem,
    kept: Option<&TargetSequences>,
    options: &Options,
    room: usize,
    gate: &G,
) -> Result<Decision, Interrupted>
    requires kept { IfSome kept (λ k. AreOf k.now q.now.target) }
    requires budget { options.now.budget < 2 ^ 63 }
    requires rows { options.now.rows ≤ 4194304 }
    ensures says { IfOk result (λ d. RoomSays d q.now options.now.budget room) }
    ensures fits { IfOk result (λ d. Fits d room) }
    ensures closed { IfErr result (λ _. G.may_close gate.now) }
    ensures asked { IfErr result (λ _. size q.now.pattern ≤ room) }
{
    if usize::from(q.pattern().size()) > room {
        return Ok(Decision::Refused(Refusal::Number(OutOfRange::Room)));
    }
    let Options {
        seed,
        budget,
        rows,
        ..
    } = *options;
    match solve_alone_beside(alloc, q, kept, seed, budget, rows, gate) {
        Ok(solved) => Ok(decision_of(solved, q, budget, room)),
        Err(closed) => Err(closed),
    }
}

/// Decides what a call asks at a gate, where there is room for so many images: its numbers are judged, then its texts
/// are read, then the room is held against the pattern, and then the problem is decided.
pub(crate) fn decide_at<G: Gate>(
    alloc: Global,
    asked: &Asked,
    room: usize,
    gate: &G,
) -> Result<Decision, Interrupted>
    ensures says { EndSays result (call asked.now.pattern.now asked.now.target.now
        asked.now.options.now asked.now.less.now) room }
    ensures fits { IfOk result (λ d. Fits d room) }
    ensures closed { IfErr result (λ _. G.may_close gate.now) }
{
    if let Some(bad) = first_bad(asked.options, asked.less) {
        return Ok(Decision::Refused(Refusal::Number(bad)));
    }
    if let Some(bad) = first_bad_search(asked.options) {
        return Ok(Decision::Refused(Refusal::Number(bad)));
    }
    match ask(alloc, asked) {
        Ok(q) => decide_in_room_at(alloc, &q, None, asked.options, room, gate),
        Err(refusal) => Ok(Decision::Refused(refusal)),
    }
}

/// Decides what a call asks, where there is room for so many images.
pub(crate) fn decide(alloc: Global, asked: &Asked, room: usize) -> Decision
    ensures says { DecisionSays result (call asked.now.pattern.now asked.now.target.now
        asked.now.options.now asked.now.less.now) room }
    ensures fits { Fits result room }
{
    match decide_at(alloc, asked, room, &OpenGate) {
        Ok(decision) => decision,
        Err(_) => unreachable!(),
    }
}
