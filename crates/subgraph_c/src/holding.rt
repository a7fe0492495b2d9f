//! Targets that are read once and asked many times.

ghost use Rattle.std.specs.Prelude.{◌≡◌, ◌≤◌, ◌↔◌, IsTrue, IfOk, IfErr, length};
ghost use Rattle.graph_theory.specs.Graph.{size};
ghost use Rattle.target_handle.specs.Opened.{opened};
ghost use Rattle.subgraph_c.specs.Asking.{call, format_of};
ghost use Rattle.subgraph_c.specs.Deciding.{DecisionSays, Fits};
ghost use Rattle.subgraph_c.specs.Holding.{IsTextOf, ReadSays, HoldSays, OpenSays, HasFormat, Premises, PremisesSay, HeldSays};
ghost use Rattle.subgraph_c.specs.Reports.{refusal_report};
ghost use Rattle.subgraph_c.specs.Stopping.{HeldEndSays};

use crate::asking::{
    Asked, TARGET_LIMIT, format_named, graph_in, pairs_in, pattern_of, problem_of,
};
use crate::deciding::{Decision, decide_in_room_at};
use crate::numbers::{first_bad, first_bad_search};
use crate::passed::{Options, Report};
use crate::refusal::{OutOfRange, Refusal};
use crate::reports::{report_of, status_of};
use graph_rows::graph::Graph;
use graph_theory::lad_text::LadKind;
use lad_reader::LadFault;
use parallel_solve::Interrupted;
use std::alloc::Global;
use target_handle::handle::TargetHandle;
use target_handle::open_target::OpenTarget;
use worker_gate::{Gate, OpenGate};

/// How many formats there are.
const FORMATS: u32 = 4;

/// The target whose text the bytes are, in the format of this number.
fn read_target(alloc: Global, text: &[u8], format: u32) -> Result<OpenTarget, Refusal>
    ensures { ReadSays result text.now format }
{
    if format >= FORMATS {
        return Err(Refusal::Number(OutOfRange::Format));
    }
    let kind = format_named(format);
    match graph_in(alloc, text, kind, TARGET_LIMIT) {
        Ok(graph) => keep_target(alloc, kind, graph),
        Err(LadFault::Word { word, cause }) => Err(Refusal::Target { word, cause }),
        Err(LadFault::NoMemory) => Err(Refusal::NoMemory),
    }
}

/// The target of this graph, whose text was in this format, with what is kept of it for searches.
fn keep_target(alloc: Global, kind: LadKind, graph: Graph) -> Result<OpenTarget, Refusal>
    requires few { size graph ≤ 8192 }
    ensures target { IfOk result (λ t. t ≡ record { kind = kind; graph = graph }) }
    ensures refusal { IfErr result (λ refusal. refusal ≡ Refusal.NoMemory) }
{
    match OpenTarget::new(alloc, kind, graph) {
        Ok(target) => Ok(target),
        Err(_) => Err(Refusal::NoMemory),
    }
}

/// A handle that holds the target whose text the bytes are.
fn hold(alloc: Global, text: &[u8], format: u32) -> Result<TargetHandle, Refusal>
    ensures { HoldSays result text.now format }
{
    let target = read_target(alloc, text, format)?;
    match TargetHandle::with(alloc, target) {
        Ok(handle) => Ok(handle),
        Err(_) => Err(Refusal::NoMemory),
    }
}

/// Opens a target: it goes into a handle that holds none.
pub(crate) fn open(
    alloc: Global,
    text: &[u8],
    format: u32,
    target: &mut TargetHandle,
) -> Result<(), Refusal>
    ensures { OpenSays result text.now format (opened target.old) (opened target.new) }
{
    match target.take(alloc) {
        Some((held, place)) => {
            target.put(place, held);
            Err(Refusal::Number(OutOfRange::Handle))
        }
        None => {
            *target = hold(alloc, text, format)?;
            Ok(())
        }
    }
}

/// Whether the options name the format of the target's text.
fn has_format(options: &Options, target: &OpenTarget) -> bool
    ensures { IsTrue result ↔ HasFormat options.now target.now }
{
    options.format < FORMATS && format_named(options.format) == target.kind()
}

/// What is read of a call beside its target: the numbers are judged, then the pattern's text is read, and then the
/// pairs are looked at.
fn premises(alloc: Global, asked: &Asked) -> Result<(Graph, Vec<(u16, u16)>), Refusal>
    ensures says { PremisesSay result asked.now.pattern.now asked.now.options.now
        asked.now.less.now }
    ensures few { IfOk result (λ p. size p.0 ≤ 1024) }
{
    if let Some(bad) = first_bad(asked.options, asked.less) {
        return Err(Refusal::Number(bad));
    }
    if let Some(bad) = first_bad_search(asked.options) {
        return Err(Refusal::Number(bad));
    }
    let pattern = pattern_of(alloc, asked)?;
    let pairs = pairs_in(alloc, &pattern, asked.less)?;
    Ok((pattern, pairs))
}

/// Decides at a gate a question whose pattern and pairs were read, of a target that is open, and gives the target back.
fn decide_read_at<G: Gate>(
    alloc: Global,
    asked: &Asked,
    pattern: Graph,
    pairs: Vec<(u16, u16)>,
    target: OpenTarget,
    room: usize,
    gate: &G,
) -> (Result<Decision, Interrupted>, OpenTarget)
    requires few { size pattern ≤ 1024 }
    requires premises { Premises pattern pairs.items asked.now.pattern.now asked.now.options.now
        asked.now.less.now }
    requires format { HasFormat asked.now.options.now target }
    ensures says { HeldEndSays result.0 target asked.now.pattern.now asked.now.options.now
        asked.now.less.now room }
    ensures fits { IfOk result.0 (λ d. Fits d room) }
    ensures closed { IfErr result.0 (λ _. G.may_close gate.now) }
    ensures same { result.1 ≡ target }
{
    let kind = target.kind();
    let (graph, sequences) = target.into_parts();
    let q = problem_of(pattern, graph, asked.options, asked.less, pairs);
    let ended = decide_in_room_at(alloc, &q, Some(&sequences), asked.options, room, gate);
    (ended, OpenTarget::of(kind, q.into_target(), sequences))
}

/// Decides at a gate a question of a target that is open, where there is room for so many images, and gives the target
/// back. The format that the options name is held against the target's, and then all goes as where the target is a text.
pub(crate) fn decide_held_at<G: Gate>(
    alloc: Global,
    asked: &Asked,
    target: OpenTarget,
    room: usize,
    gate: &G,
) -> (Result<Decision, Interrupted>, OpenTarget)
    ensures says { HeldEndSays result.0 target asked.now.pattern.now asked.now.options.now
        asked.now.less.now room }
    ensures fits { IfOk result.0 (λ d. Fits d room) }
    ensures closed { IfErr result.0 (λ _. G.may_close gate.now) }
    ensures same { result.1 ≡ target }
{
    if !has_format(asked.options, &target) {
        return (
            Ok(Decision::Refused(Refusal::Number(OutOfRange::Format))),
            target,
        );
    }
    match premises(alloc, asked) {
        Ok((pattern, pairs)) => decide_read_at(alloc, asked, pattern, pairs, target, room, gate),
        Err(refusal) => (Ok(Decision::Refused(refusal)), target),
    }
}

/// Decides a question of a target that is open, where there is room for so many images, and gives the target back.
pub(crate) fn decide_held(
    alloc: Global,
    asked: &Asked,
    target: OpenTarget,
    room: usize,
) -> (Decision, OpenTarget)
    ensures says { HeldSays result.0 target asked.now.pattern.now asked.now.options.now
        asked.now.less.now room }
    ensures fits { Fits result.0 room }
    ensures same { result.1 ≡ target }
{
    let (ended, target) = decide_held_at(alloc, asked, target, room, &OpenGate);
    match ended {
        Ok(decision) => (decision, target),
        Err(_) => unreachable!(),
    }
}

/// Tells that no target is held: the status is returned, and the report is written.
pub(crate) fn tell_closed(report: &mut Report) -> u32
    ensures status { result ≡ 3 }
    ensures report { report.new ≡ refusal_report (Refusal.Number OutOfRange.Handle) }
{
    let refusal = Refusal::Number(OutOfRange::Handle);
    *report = report_of(refusal);
    status_of(refusal)
}
