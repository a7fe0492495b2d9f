//! Small problems.

ghost use Rattle.std.specs.Prelude.{IfSome};
ghost use Rattle.graph_theory.specs.Plain.{ArePlain};

use graph_rows::Problem;
use lad_reader::LadKind;
use std::alloc::Global;
use test_support::{graph, graph_in};

/// The problem of two texts.
pub fn problem(alloc: Global, pattern: &[u8], target: &[u8], induced: bool) -> Option<Problem>
    ensures { IfSome result ArePlain }
{
    let pattern = graph(alloc, pattern)?;
    let target = graph(alloc, target)?;
    Some(Problem::new(pattern, target, induced))
}

/// The problem of two texts of this format.
pub fn problem_of(
    alloc: Global,
    kind: LadKind,
    pattern: &[u8],
    target: &[u8],
    induced: bool,
) -> Option<Problem> {
    let pattern = graph_in(alloc, pattern, kind)?;
    let target = graph_in(alloc, target, kind)?;
    Some(Problem::new(pattern, target, induced))
}
