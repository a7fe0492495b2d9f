//! How many shared neighbours are asked for of two pattern vertices.

ghost use Rattle.std.specs.Prelude.{◌≡◌, ◌<◌, ℕ, true, IfOk, IfSome};
ghost use Rattle.graph_theory.specs.Graph.{size};
ghost use Rattle.graph_theory.specs.Embedding.{Problem as TheProblem, is_injective};
ghost use Rattle.graph_theory.specs.Asked.{asked_shared};
ghost use Rattle.graph_theory.specs.Neighbours.{common};
ghost use Rattle.pair_line_theory.specs.Rows.{is_shared as is_shared_by};
ghost use Rattle.pair_line_theory.specs.Laws.{AreTwoShared};
ghost use Rattle.pair_lines.specs.Choices.{IsSharing, IsFirstShared};
ghost use Rattle.graph_theory.specs.Reversed.{reversed_problem};
ghost use Rattle.pair_lines.specs.Choices.{IsAsked};

use crate::known::Known;
use graph_rows::Problem;
use graph_theory::embedding::Maps;
use std::alloc::{AllocError, Global};

/// The shared neighbours that are asked for of two vertices: none, this one alone, or so many.
#[derive(Clone, Copy, PartialEq, Eq, Debug)]
pub(crate) enum Sharing {
    Nothing,
    One(u16),
    Many(u16),
}

impl Sharing {
    /// How many there are.
    pub(crate) fn count(self) -> u16
        ensures { (q : TheProblem) (p r : ℕ) → IsSharing q p r self
            → result ≡ asked_shared q p r }
    {
        match self {
            Sharing::Nothing => 0,
            Sharing::One(_) => 1,
            Sharing::Many(count) => count,
        }
    }
}

/// In which directions a line has to count shared neighbours, and which there are: in one where edges are known to stand both ways or the
/// other asks for none.
#[derive(Clone, Copy, PartialEq, Eq, Debug)]
pub(crate) enum Asked {
    Out(Sharing),
    In(Sharing),
    Both(Sharing, Sharing),
}

/// Two pattern vertices, and how many neighbours they share.
#[derive(Clone, Copy)]
pub(crate) struct Sharers {
    pub(crate) p: u16,
    pub(crate) r: u16,
    pub(crate) count: u16,
}

/// The first shared neighbour. Cost: a step for each neighbour of `p` up to it.
fn first_shared(known: &Known, p: u16, r: u16) -> Option<u16>
    requires p_in { p < size known.now.pattern }
    requires r_in { r < size known.now.pattern }
    ensures { IsFirstShared known.now p r result }
{
    let m = known.next_shared(p, r, 0);
    if m < known.vertices() {
        return Some(m);
    }
    None
}

/// The first shared neighbour behind `m`.
fn next_shared(known: &Known, p: u16, r: u16, m: u16) -> Option<u16>
    requires p_in { p < size known.now.pattern }
    requires r_in { r < size known.now.pattern }
    requires m_in { m < size known.now.pattern }
    ensures { IfSome result
        (λ n. (m < n) × (n < size known.now.pattern)
        × (is_shared_by known.now.pattern p r n ≡ true)) }
{
    let _vertices = known.vertices();
    let n = known.next_shared(p, r, m + 1);
    if n < known.vertices() {
        return Some(n);
    }
    None
}

/// The two shared neighbours, where there are two. Cost: a step for each neighbour of `p` up to the second.
pub(crate) fn two_shared(known: &Known, pair: Sharers) -> Option<(u16, u16)>
    requires p_in { pair.p < size known.now.pattern }
    requires r_in { pair.r < size known.now.pattern }
    requires counted { common known.now.pattern pair.p pair.r ≡ pair.count }
    ensures { IfSome result
        (λ two. AreTwoShared known.now.pattern pair.p pair.r two.0 two.1) }
{
    if pair.count != 2 {
        return None;
    }
    let m = match first_shared(known, pair.p, pair.r) {
        Some(m) => m,
        None => return None,
    };
    match next_shared(known, pair.p, pair.r, m) {
        Some(n) => Some((m, n)),
        None => None,
    }
}

/// How many neighbours the two share, where the maps are injective. Cost: two words for each word of a row, and only where it is one alone, a
/// step for each neighbour of `p` up to it.
fn counted_sharing(alloc: Global, known: &Known, p: u16, r: u16) -> Result<Sharing, AllocError>
    requires p_in { p < size known.now.pattern }
    requires r_in { r < size known.now.pattern }
    requires others { p ≡ r → ⊥ }
    requires injective { is_injective known.now.maps ≡ true }
    ensures { IfOk result (IsSharing known.now p r) }
{
    let count = known.count_shared(alloc, p, r)?;
    if count > 1 {
        return Ok(Sharing::Many(count));
    }
    if count == 0 {
        return Ok(Sharing::Nothing);
    }
    match first_shared(known, p, r) {
        Some(m) => Ok(Sharing::One(m)),
        None => Ok(Sharing::Nothing),
    }
}

/// How many shared neighbours are asked for of the two. Cost: where the maps are injective that of `counted_sharing`, else nothing.
pub(crate) fn sharing_of(
    alloc: Global,
    known: &Known,
    p: u16,
    r: u16,
) -> Result<Sharing, AllocError>
    requires p_in { p < size known.now.pattern }
    requires r_in { r < size known.now.pattern }
    requires others { p ≡ r → ⊥ }
    ensures { IfOk result (IsSharing known.now p r) }
{
    match known.maps() {
        Maps::Injective => counted_sharing(alloc, known, p, r),
        Maps::Local => Ok(Sharing::Nothing),
        Maps::Any => Ok(Sharing::Nothing),
    }
}

/// What is asked of the two, of a problem as its edges lead and of it turned round. Cost: twice that of `sharing_of`.
pub(crate) fn asked_of(
    alloc: Global,
    q: &Problem,
    out: &Known,
    back: &Known,
    p: u16,
    r: u16,
) -> Result<Asked, AllocError>
    requires out { out.now ≡ q.now }
    requires back { back.now ≡ reversed_problem q.now }
    requires p_in { p < size q.now.pattern }
    requires r_in { r < size q.now.pattern }
    requires others { p ≡ r → ⊥ }
    ensures { IfOk result (IsAsked q.now p r) }
{
    let shared = sharing_of(alloc, out, p, r)?;
    if q.is_mutual() {
        return Ok(Asked::Out(shared));
    }
    match sharing_of(alloc, back, p, r)? {
        Sharing::Nothing => Ok(Asked::Out(shared)),
        in_shared => match shared {
            Sharing::Nothing => Ok(Asked::In(in_shared)),
            shared => Ok(Asked::Both(shared, in_shared)),
        },
    }
}
