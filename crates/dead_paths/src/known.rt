//! Pairs that are known to hold, by their vertices: those of the path, and those that a line has shown.

ghost use Rattle.std.specs.Prelude.{◌≡◌, ℕ, ◌<◌, ◌+◌, ◌∷◌, [], List, Option, true, false, length, OnOk};
ghost use Rattle.graph_theory.specs.Graph.{size};
ghost use Rattle.log_theory.specs.LogText.{AreRefs};
ghost use Rattle.nogood_watch.specs.Nogoods.{literal};
ghost use Rattle.dead_theory.specs.Changes.{IsOneOf, IsLeftOut};
ghost use Rattle.dead_paths.specs.Choosing.{AreAt};
ghost use Rattle.dead_paths.specs.Explaining.{IsLimited, MayAdd, AddsBorne};

use crate::ground::Ground;
use log_theory::Ref;
use std::alloc::AllocError;

/// Where a vertex has no value.
const NO_VALUE: u16 = 65535;

/// Whether the vertex is the one that is left out.
pub(crate) fn is_left_out(but: Option<u16>, p: u16) -> bool
    ensures yes { result ≡ true → IsLeftOut but p }
{
    match but {
        None => false,
        Some(r) => p == r,
    }
}

/// Whether the pair is known to hold.
pub(crate) fn holds_at(at: &[u16], p: u16, t: u16) -> bool
    ensures { result ≡ true → (known : List (ℕ × ℕ)) → AreAt at.now known → IsOneOf known (p, t) }
{
    usize::from(p) < at.len() && at[usize::from(p)] == t && t != NO_VALUE
}

/// So many vertices, all without a value.
fn clear_at(at: &mut Vec<u16>, size: usize) -> Result<(), AllocError>
    ensures long { OnOk result (length at.new.items ≡ size) }
    ensures none { OnOk result (AreAt at.new.items []) }
{
    at.clear();
    for _ in 0..size {
        at.push(NO_VALUE)?;
    }
    Ok(())
}

/// Puts the values of these pairs at their vertices.
fn put_all(at: &mut [u16], path: &[(u16, u16)])
    requires vertices { (k : ℕ) → k < length path.now → (literal path.now k).0 < length at.old }
    requires none { AreAt at.old [] }
    ensures { AreAt at.new path.now }
{
    for x in path {
        at[usize::from(x.0)] = x.1;
    }
}

/// The pairs of a path, for so many vertices.
pub(crate) fn fill_at(at: &mut Vec<u16>, size: usize, path: &[(u16, u16)]) -> Result<(), AllocError>
    requires vertices { (k : ℕ) → k < length path.now → (literal path.now k).0 < size }
    ensures long { OnOk result (length at.new.items ≡ size) }
    ensures known { OnOk result (AreAt at.new.items path.now) }
{
    clear_at(at, size)?;
    put_all(at, path);
    Ok(())
}

/// Puts the reference to the line by which the vertex goes somewhere, unless its pair is known to hold. From then on it is.
pub(crate) fn push_decided(
    lines: &Ground<'_>,
    at: &mut [u16],
    p: u16,
    t: u16,
    refs: &mut Vec<Ref>,
) -> Result<(), AllocError>
    requires limited { IsLimited lines.now }
    requires vertex { p < size lines.now.pattern }
    requires long { p < length at.old }
    requires fits { AreRefs refs.old.items }
    ensures added { (known : List (ℕ × ℕ)) → AreAt at.old known
        → OnOk result (MayAdd lines.now known p t refs.old.items refs.new.items) }
    ensures known { (known : List (ℕ × ℕ)) → AreAt at.old known
        → OnOk result (AreAt at.new ((p, t) ∷ known)) }
    ensures fits { OnOk result (AreRefs refs.new.items) }
{
    if holds_at(at, p, t) {
        return Ok(());
    }
    refs.push(Ref::Line(lines.at_least(p)))?;
    at[usize::from(p)] = t;
    Ok(())
}

/// Puts the reference to the line by which the vertex of the pair goes somewhere, unless the pair is known to hold, or the vertex is left out.
fn push_bearing(
    lines: &Ground<'_>,
    at: &[u16],
    but: Option<u16>,
    x: (u16, u16),
    refs: &mut Vec<Ref>,
) -> Result<(), AllocError>
    requires limited { IsLimited lines.now }
    requires vertex { x.0 < size lines.now.pattern }
    requires fits { AreRefs refs.old.items }
    ensures borne { (known pairs : List (ℕ × ℕ)) (count : ℕ) (old : List Ref) → AreAt at.now known
        → literal pairs count ≡ x
        → AddsBorne lines.now known but pairs count old refs.old.items
        → OnOk result (AddsBorne lines.now known but pairs (count + 1) old refs.new.items) }
    ensures fits { OnOk result (AreRefs refs.new.items) }
{
    if is_left_out(but, x.0) {
        return Ok(());
    }
    if holds_at(at, x.0, x.1) {
        return Ok(());
    }
    refs.push(Ref::Line(lines.at_least(x.0)))?;
    Ok(())
}

/// The same for each of these pairs.
pub(crate) fn push_bearing_all(
    lines: &Ground<'_>,
    at: &[u16],
    but: Option<u16>,
    pairs: &[(u16, u16)],
    refs: &mut Vec<Ref>,
) -> Result<(), AllocError>
    requires limited { IsLimited lines.now }
    requires vertices { (k : ℕ) → k < length pairs.now
        → (literal pairs.now k).0 < size lines.now.pattern }
    requires fits { AreRefs refs.old.items }
    ensures borne { (known : List (ℕ × ℕ)) → AreAt at.now known
        → OnOk result (AddsBorne lines.now known but pairs.now (length pairs.now) refs.old.items
        refs.new.items) }
    ensures fits { OnOk result (AreRefs refs.new.items) }
{
    for x in pairs {
        push_bearing(lines, at, but, *x, refs)?;
    }
    Ok(())
}
