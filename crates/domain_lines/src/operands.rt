//! The lines of the encoding that a crowd's sum names.

ghost use Rattle.std.specs.Prelude.{◌≡◌, ◌<◌, ◌++◌, OnOk, IfOk};
ghost use Rattle.graph_theory.specs.Graph.{size};
ghost use Rattle.domain_line_theory.specs.Crowds.{crowd_block};
ghost use Rattle.domain_lines.specs.Operands.{beside_refs, value_refs, crowd_refs as crowd_refs_of, AreBeside, AreValues, HasBlockFor};

use crate::turned::Turned;
use log_theory::Ref;
use std::alloc::{AllocError, Global};

/// Names the edge lines of `p` with these vertices where `p` is at `u`.
fn push_beside(
    lines: &Turned,
    p: u16,
    u: u16,
    vertices: &[u16],
    refs: &mut Vec<Ref>,
) -> Result<(), AllocError>
    requires p_in { p < size lines.now.pattern }
    requires u_in { u < size lines.now.target }
    requires beside { AreBeside lines.now p vertices.now }
    ensures { OnOk result
        (refs.new.items ≡ refs.old.items ++ beside_refs lines.now p u vertices.now) }
{
    for r in vertices {
        refs.push(Ref::Line(lines.edge(p, *r, u)))?;
    }
    Ok(())
}

/// Names the lines by which one vertex of a block at most has each of these values.
fn push_values(
    lines: &Turned,
    block: Option<u16>,
    values: &[u16],
    refs: &mut Vec<Ref>,
) -> Result<(), AllocError>
    requires values { AreValues lines.now values.now }
    requires there { HasBlockFor lines.now block values.now }
    ensures { OnOk result
        (refs.new.items ≡ refs.old.items ++ value_refs lines.now block values.now) }
{
    for w in values {
        refs.push(Ref::Line(lines.at_most_in(block, *w)))?;
    }
    Ok(())
}

/// The lines of a crowd. Cost: a step for each, and for an edge line a search by halves.
pub(crate) fn crowd_refs(
    alloc: Global,
    lines: &Turned,
    p: u16,
    u: u16,
    vertices: &[u16],
    values: &[u16],
) -> Result<Vec<Ref>, AllocError>
    requires p_in { p < size lines.now.pattern }
    requires u_in { u < size lines.now.target }
    requires beside { AreBeside lines.now p vertices.now }
    requires values { AreValues lines.now values.now }
    requires there { HasBlockFor lines.now (crowd_block lines.now p) values.now }
    ensures { IfOk result
        (λ v. v.items
        ≡ crowd_refs_of lines.now (crowd_block lines.now p) p u vertices.now values.now) }
{
    let mut refs = Vec::new(alloc);
    push_beside(lines, p, u, vertices, &mut refs)?;
    push_values(lines, lines.crowd_block(p), values, &mut refs)?;
    Ok(refs)
}
