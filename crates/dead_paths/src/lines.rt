//! References to lines of the encoding, and the lines of sets and of crowds.

ghost use Rattle.std.specs.Prelude.{◌≡◌, ◌<◌, ◌++◌, true, length, map, OnOk, IfOk};
ghost use Rattle.graph_theory.specs.Graph.{size};
ghost use Rattle.log_theory.specs.LogText.{IsName};
ghost use Rattle.recorder.specs.Recording.{LeftOver};
ghost use Rattle.graph_theory.specs.Blocks.{has_block};
ghost use Rattle.dead_theory.specs.Changes.{IsInProblem, IsSetIn};
ghost use Rattle.journals.specs.Keeping.{KeepsRest};
ghost use Rattle.log_growth.specs.Frames.{Frame, IsFrameOf, AnyForms, Goes};
ghost use Rattle.dead_paths.specs.Lines.{at_least_refs, block_ref, beside_refs, AreVertices, AreValues, ArePairs, IsSetKept, IsCrowdKept};
ghost use Rattle.dead_paths.specs.Explaining.{IsLimited};

use crate::beside::{BlockSet, Crowd};
use crate::ground::Ground;
use journals::Keeper;
use log_growth::keep_sum;
use log_theory::{Name, Ref};
use std::alloc::{AllocError, Global};

/// Puts references to the lines by which these vertices go somewhere.
pub(crate) fn push_at_least(
    lines: &Ground<'_>,
    vertices: &[u16],
    refs: &mut Vec<Ref>,
) -> Result<(), AllocError>
    requires { AreVertices lines.now vertices.now }
    ensures { OnOk result
        (refs.new.items ≡ refs.old.items ++ at_least_refs lines.now vertices.now) }
{
    for p in vertices {
        refs.push(Ref::Line(lines.at_least(*p)))?;
    }
    Ok(())
}

/// Puts references to the lines by which one vertex at most of a block goes to each of these values.
pub(crate) fn push_at_most(
    lines: &Ground<'_>,
    centre: Option<u16>,
    values: &[u16],
    refs: &mut Vec<Ref>,
) -> Result<(), AllocError>
    requires values { AreValues lines.now values.now }
    requires exists { has_block lines.now centre ≡ true }
    ensures { OnOk result (refs.new.items ≡ refs.old.items ++ map (block_ref lines.now centre)
        values.now) }
{
    for t in values {
        refs.push(Ref::Line(lines.at_most_in(centre, *t)))?;
    }
    Ok(())
}

/// Puts references to the lines by which, beside `p` at `t`, these vertices go to places that are compatible with it.
fn push_beside(
    lines: &Ground<'_>,
    p: u16,
    t: u16,
    vertices: &[u16],
    refs: &mut Vec<Ref>,
) -> Result<(), AllocError>
    requires p_in { p < size lines.now.pattern }
    requires t_in { t < size lines.now.target }
    requires vertices { AreVertices lines.now vertices.now }
    requires pairs { ArePairs lines.now p vertices.now }
    ensures { OnOk result
        (refs.new.items ≡ refs.old.items ++ beside_refs lines.now p t vertices.now) }
{
    for r in vertices {
        refs.push(Ref::Line(lines.edge(p, *r, t)))?;
    }
    Ok(())
}

/// Keeps the line of a crowd: that its vertices go where the edges lead, and that one vertex at most goes to each of its values, summed. Cost: a
/// reference for each vertex and value, and a logarithmic look for each vertex.
pub(crate) fn keep_crowd<K: Keeper>(
    alloc: Global,
    lines: &Ground<'_>,
    keeper: &mut K,
    crowd: &Crowd<'_>,
) -> Result<Name, AllocError>
    requires limited { IsLimited lines.now }
    requires some { 0 < length crowd.now.vertices.now }
    requires in_problem { IsInProblem lines.now (LeftOver crowd.now.p crowd.now.t
        crowd.now.direction crowd.now.vertices.now crowd.now.values.now 0) }
    ensures goes { (w : Frame) → IsFrameOf lines.now (K.owner keeper.old) w
        → Goes w (K.kept keeper.old) (K.kept keeper.new) AnyForms
        (IsCrowdKept lines.now crowd.now.p crowd.now.t crowd.now.vertices.now crowd.now.values.now
        w result) }
    ensures name { IfOk result IsName }
    ensures rest { KeepsRest K.owner K.notes K.spare keeper.old keeper.new }
{
    let mut refs = Vec::new(alloc);
    push_beside(lines, crowd.p, crowd.t, crowd.vertices, &mut refs)?;
    push_at_most(lines, None, crowd.values, &mut refs)?;
    keep_sum(alloc, keeper, &refs)
}

/// Keeps the line of a set: that its vertices go somewhere and that one vertex at most of its block goes to each of its values, summed. Cost: a
/// reference for each vertex and value.
pub fn keep_set<K: Keeper>(
    alloc: Global,
    lines: &Ground<'_>,
    keeper: &mut K,
    set: &BlockSet<'_>,
) -> Result<Name, AllocError>
    requires limited { IsLimited lines.now }
    requires some { 0 < length set.now.vertices.now }
    requires in_problem { IsSetIn lines.now set.now.centre set.now.vertices.now
        set.now.values.now }
    ensures goes { (w : Frame) → IsFrameOf lines.now (K.owner keeper.old) w
        → Goes w (K.kept keeper.old) (K.kept keeper.new) AnyForms
        (IsSetKept lines.now set.now.centre set.now.vertices.now set.now.values.now w result) }
    ensures name { IfOk result IsName }
    ensures rest { KeepsRest K.owner K.notes K.spare keeper.old keeper.new }
{
    let mut refs = Vec::new(alloc);
    push_at_least(lines, set.vertices, &mut refs)?;
    push_at_most(lines, set.centre, set.values, &mut refs)?;
    keep_sum(alloc, keeper, &refs)
}
