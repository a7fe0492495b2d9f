//! The ends of a vertex's edges on one side of a degree, in a direction of edges.

ghost use Rattle.std.specs.Prelude.{◌≡◌, ◌<◌, ◌∷◌, ◌++◌, [], true, is_some, OnOk, IfOk};
ghost use Rattle.graph_theory.specs.Graph.{size, edge};
ghost use Rattle.graph_theory.specs.Reversed.{turned};
ghost use Rattle.encoding_theory.specs.Variables.{when};
ghost use Rattle.domain_lines.specs.Choosing.{is_chosen, chosen as chosen_of};

use bit_rows::next_member;
use graph_rows::Graph;
use graph_theory::direction::Direction;
use std::alloc::{AllocError, Global};

/// Puts the number at the end where the test is passed.
fn push_where(out: &mut Vec<u16>, passes: bool, number: u16) -> Result<(), AllocError>
    ensures { OnOk result (out.new.items ≡ out.old.items ++ when passes (number ∷ [])) }
{
    if passes {
        out.push(number)?;
    }
    Ok(())
}

/// Whether `b`, to which an edge leads from `a` in this direction, is on this side of the degree `d`, and not `a` where they are to be apart.
/// Cost: a few steps.
fn is_chosen(
    graph: &Graph,
    direction: Direction,
    apart: bool,
    a: u16,
    d: u16,
    low: bool,
    b: u16,
) -> bool
    requires a_in { a < size graph.now }
    requires b_in { b < size graph.now }
    requires leads { is_some (edge (turned direction graph.now) a b) ≡ true }
    ensures { result ≡ is_chosen apart (turned direction graph.now) a d low b }
{
    !(apart && a == b) && (graph.degree_by(direction, b) < d) == low
}

/// The ends of the edges of `a` in this direction whose degrees there are below `d`, or the others; without `a` itself where they are to be
/// apart. Cost: a step for each edge, and for each word of a row.
pub(crate) fn chosen(
    alloc: Global,
    graph: &Graph,
    direction: Direction,
    apart: bool,
    a: u16,
    d: u16,
    low: bool,
) -> Result<Vec<u16>, AllocError>
    requires { a < size graph.now }
    ensures { IfOk result
        (λ v. v.items ≡ chosen_of apart (turned direction graph.now) a d low) }
{
    let _size = graph.size();
    let near = graph.row_by(direction, a);
    let mut out = Vec::new(alloc);
    let mut b = next_member(near, 0);
    while b < 64 * near.len() {
        let passes = is_chosen(graph, direction, apart, a, d, low, b as u16);
        push_where(&mut out, passes, b as u16)?;
        b = next_member(near, b + 1);
    }
    Ok(out)
}
