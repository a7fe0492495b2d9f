//! The problem that a call asks.

ghost use Rattle.std.specs.Prelude.{◌≡◌, ◌≤◌, ◌<◌, None, [], length, IfOk};
ghost use Rattle.graph_theory.specs.Graph.{size};
ghost use Rattle.subgraph_c.specs.Asking.{call, bad_question, format_of, maps_of, pairs_of, AreInRange, HaveVertices, problem_of as asked_of, TextSays, PatternSays, TargetSays, PairsSay, AskSays};

use crate::passed::{Options, Pair};
use crate::refusal::Refusal;
use graph_rows::graph::Graph;
use graph_rows::problem::Problem;
use graph_theory::embedding::Maps;
use lad_reader::{LadFault, LadKind, read_lad};
use std::alloc::Global;

/// How many vertices a pattern has at most.
const PATTERN_LIMIT: u32 = 1024;

/// How many vertices a target has at most.
pub(crate) const TARGET_LIMIT: u32 = 8192;

/// The texts of a call, how the question is asked, and the pairs that are to be in order.
#[derive(Clone, Copy)]
pub(crate) struct Asked<'a> {
    pub(crate) pattern: &'a [u8],
    pub(crate) target: &'a [u8],
    pub(crate) options: &'a Options,
    pub(crate) less: &'a [Pair],
}

/// The format of this number.
pub(crate) fn format_named(number: u32) -> LadKind
    ensures { result ≡ format_of number }
{
    match number {
        0 => LadKind::Lad,
        1 => LadKind::VertexLabelledLad,
        2 => LadKind::DirectedLad,
        _ => LadKind::LabelledLad,
    }
}

/// The kind of maps of this number.
fn maps_named(number: u32) -> Maps
    ensures { result ≡ maps_of number }
{
    match number {
        0 => Maps::Injective,
        1 => Maps::Local,
        _ => Maps::Any,
    }
}

/// The graph that the bytes are the text of. Cost: linear in the bytes, and the bit rows of the graph.
pub(crate) fn graph_in(
    alloc: Global,
    bytes: &[u8],
    kind: LadKind,
    most: u32,
) -> Result<Graph, LadFault>
    requires { most ≤ 8192 }
    ensures says { TextSays result bytes.now kind most }
    ensures few { IfOk result (λ g. size g ≤ most) }
{
    let parts = read_lad(alloc, bytes, kind, most)?;
    Ok(Graph::new(alloc, &parts)?)
}

/// The pattern of a call.
pub(crate) fn pattern_of(alloc: Global, asked: &Asked) -> Result<Graph, Refusal>
    ensures says { PatternSays result (call asked.now.pattern.now asked.now.target.now
        asked.now.options.now asked.now.less.now) }
    ensures few { IfOk result (λ g. size g ≤ 1024) }
{
    let kind = format_named(asked.options.format);
    match graph_in(alloc, asked.pattern, kind, PATTERN_LIMIT) {
        Ok(graph) => Ok(graph),
        Err(LadFault::Word { word, cause }) => Err(Refusal::Pattern { word, cause }),
        Err(LadFault::NoMemory) => Err(Refusal::NoMemory),
    }
}

/// The target of a call.
fn target_of(alloc: Global, asked: &Asked) -> Result<Graph, Refusal>
    ensures says { TargetSays result (call asked.now.pattern.now asked.now.target.now
        asked.now.options.now asked.now.less.now) }
    ensures few { IfOk result (λ g. size g ≤ 8192) }
{
    let kind = format_named(asked.options.format);
    match graph_in(alloc, asked.target, kind, TARGET_LIMIT) {
        Ok(graph) => Ok(graph),
        Err(LadFault::Word { word, cause }) => Err(Refusal::Target { word, cause }),
        Err(LadFault::NoMemory) => Err(Refusal::NoMemory),
    }
}

/// The pairs as pairs of vertices of the pattern, or the first that names a vertex which the pattern has not.
pub(crate) fn pairs_in(
    alloc: Global,
    pattern: &Graph,
    less: &[Pair],
) -> Result<Vec<(u16, u16)>, Refusal>
    requires { length less.now ≤ 64 }
    ensures { PairsSay result pattern.now less.now }
{
    let size = u32::from(pattern.size());
    let mut pairs = Vec::new(alloc);
    for i in 0..less.len() {
        let Pair { first, second } = less[i];
        if first >= size || second >= size {
            return Err(Refusal::Vertex {
                number: i as u32 + 1,
            });
        }
        match pairs.push((first as u16, second as u16)) {
            Ok(()) => {}
            Err(_) => return Err(Refusal::NoMemory),
        }
    }
    Ok(pairs)
}

/// The problem that is asked of two graphs, with no order of images.
fn unordered(pattern: Graph, target: Graph, options: &Options) -> Problem
    requires pattern { size pattern ≤ 1024 }
    requires target { size target ≤ 8192 }
    requires kind { 0 < options.now.induced → maps_of options.now.maps ≡ Maps.Injective }
    ensures { result ≡ asked_of pattern target options.now [] }
{
    if options.induced > 0 {
        Problem::new(pattern, target, true)
    } else {
        Problem::mapped(pattern, target, maps_named(options.maps))
    }
}

/// The problem that is asked of two graphs, with the pairs as pairs of vertices of the pattern.
pub(crate) fn problem_of(
    pattern: Graph,
    target: Graph,
    options: &Options,
    less: &[Pair],
    pairs: Vec<(u16, u16)>,
) -> Problem
    requires pattern { size pattern ≤ 1024 }
    requires target { size target ≤ 8192 }
    requires in_range { AreInRange options.now less.now }
    requires pairs { pairs.items ≡ pairs_of less.now }
    requires vertices { HaveVertices pattern less.now }
    ensures { result ≡ asked_of pattern target options.now less.now }
{
    unordered(pattern, target, options).with_less(pairs)
}

/// The problem that a call asks, or why it asks none: the pattern's text is read, then the pairs are looked at, and
/// then the target's text is read.
pub(crate) fn ask(alloc: Global, asked: &Asked) -> Result<Problem, Refusal>
    requires in_range { AreInRange asked.now.options.now asked.now.less.now }
    requires good { bad_question asked.now.options.now asked.now.less.now ≡ None }
    ensures { AskSays result (call asked.now.pattern.now asked.now.target.now
        asked.now.options.now asked.now.less.now) }
{
    let pattern = pattern_of(alloc, asked)?;
    let pairs = pairs_in(alloc, &pattern, asked.less)?;
    let target = target_of(alloc, asked)?;
    Ok(problem_of(pattern, target, asked.options, asked.less, pairs))
}
