//! The line of two directions: a clause that follows from a line of each, and what is made of it.

ghost use Rattle.std.specs.Prelude.{◌≡◌, ◌<◌, ◌++◌, ◌∷◌, [], ℕ, true, not, nat_lt, List, OnOk, IfOk};
ghost use Rattle.graph_theory.specs.Graph.{size};
ghost use Rattle.graph_theory.specs.Neighbours.{common};
ghost use Rattle.graph_theory.specs.Embedding.{is_injective};
ghost use Rattle.graph_theory.specs.Asked.{asked_shared};
ghost use Rattle.graph_theory.specs.Reversed.{turned, turned_problem};
ghost use Rattle.proof_theory.specs.Forms.{Form};
ghost use Rattle.log_theory.specs.declared.step.Ref.TheVariants.{Made as MadeRef};
ghost use Rattle.log_theory.specs.LogText.{IsName};
ghost use Rattle.encoding_theory.specs.Variables.{when};
ghost use Rattle.pair_line_theory.specs.Laws.{IsPlace};
ghost use Rattle.pair_line_theory.specs.Rows.{at_least_line, there as there_at, is_consistent as is_consistent_by, consistent_places, consistent_clause, beside_ops};
ghost use Rattle.journals.specs.Keeping.{KeepsRest};
ghost use Rattle.log_growth.specs.Frames.{Frame, IsFrameOf, IsNamed, Goes};
ghost use Rattle.pair_lines.specs.Claims.{AreBothLines, IsRowLine};

use crate::known::Known;
use crate::placed_pair::PlacedPair;
use crate::spreads::NO_NAME;
use common_neighbour::Counts;
use graph_rows::Problem;
use graph_theory::direction::Direction;
use journals::Keeper;
use log_theory::{Clause, Name, Op, Ops, Ref, Refs, Step};
use proof_theory::Literal;
use std::alloc::{AllocError, Global};

/// Whether the place and `u` share as many neighbours as is asked of the two vertices in a direction. Cost: one step for each word of two rows.
fn share_enough(
    alloc: Global,
    q: &Problem,
    direction: Direction,
    pair: PlacedPair,
    u: u16,
) -> Result<bool, AllocError>
    requires placed { IsPlace q.now pair.p pair.t pair.r }
    requires u_in { u < size q.now.target }
    requires apart { pair.t ≡ u → ⊥ }
    requires injective { is_injective q.now.maps ≡ true }
    ensures { IfOk result
        (λ b. b ≡ not (nat_lt (common (turned direction q.now.target) pair.t u)
        (asked_shared (turned_problem direction q.now) pair.p pair.r))) }
{
    let asked = Counts::new(alloc, q.pattern(), direction)?.count(pair.p, pair.r);
    let there = Counts::new(alloc, q.target(), direction)?.count(pair.t, u);
    Ok(!(there < asked))
}

/// Whether the other vertex at `u` is consistent with the first at its place. Cost: four words, and where edges agree one step for each word of
/// eight rows.
fn is_consistent(alloc: Global, q: &Problem, pair: PlacedPair, u: u16) -> Result<bool, AllocError>
    requires placed { IsPlace q.now pair.p pair.t pair.r }
    requires u_in { u < size q.now.target }
    requires injective { is_injective q.now.maps ≡ true }
    ensures { IfOk result (λ b. b ≡ is_consistent_by q.now pair.p pair.t pair.r u) }
{
    if !q.compatible(pair.p, pair.t, pair.r, u) {
        return Ok(false);
    }
    let out = share_enough(alloc, q, Direction::Out, pair, u)?;
    let back = share_enough(alloc, q, Direction::In, pair, u)?;
    Ok(out && back)
}

/// Adds that `r` is at `u`, where it is wanted.
fn add_place(
    known: &Known,
    lits: &mut Vec<Literal>,
    wanted: bool,
    u: u16,
    r: u16,
) -> Result<(), AllocError>
    requires r_in { r < size known.now.pattern }
    requires u_in { u < size known.now.target }
    ensures { OnOk result
        (lits.new.items ≡ lits.old.items ++ when wanted (there_at known.now u r ∷ [])) }
{
    if wanted {
        lits.push(known.there(u, r))?;
    }
    Ok(())
}

/// The literals that the first vertex is not at its place, or the other at one of the values that are consistent with this. Cost: that of
/// `is_consistent` for each target vertex.
fn places(alloc: Global, q: &Problem, known: &Known, pair: PlacedPair) -> Result<Clause, AllocError>
    requires same { known.now ≡ q.now }
    requires placed { IsPlace q.now pair.p pair.t pair.r }
    requires injective { is_injective q.now.maps ≡ true }
    ensures { IfOk result (λ lits. lits ≡ consistent_places q.now pair.p pair.t pair.r) }
{
    let mut lits = Vec::new(alloc);
    lits.push(known.not_there(pair.t, pair.p))?;
    for u in 0..known.targets() {
        let wanted = is_consistent(alloc, q, pair, u)?;
        add_place(known, &mut lits, wanted, u, pair.r)?;
    }
    Ok(Clause::new(lits))
}

/// The lines that their clause follows from: one of each direction, and that `r` goes somewhere.
fn clause_refs(
    alloc: Global,
    known: &Known,
    lines: (Name, Name),
    r: u16,
) -> Result<Refs, AllocError>
    requires { r < size known.now.pattern }
    ensures { IfOk result
        (λ refs. refs
        ≡ MadeRef lines.0 ∷ MadeRef lines.1 ∷ at_least_line known.now r ∷ []) }
{
    let mut refs = Vec::new(alloc);
    refs.push(Ref::Made(lines.0))?;
    refs.push(Ref::Made(lines.1))?;
    refs.push(known.at_least(r))?;
    Ok(Refs::new(refs))
}

/// The operations of the line that is made of it.
fn clause_ops(alloc: Global, known: &Known, clause: Name, r: u16) -> Result<Ops, AllocError>
    requires { r < size known.now.pattern }
    ensures { IfOk result (λ ops. ops ≡ beside_ops known.now (MadeRef clause) r) }
{
    let mut ops = Vec::new(alloc);
    ops.push(Op::Push(Ref::Made(clause)))?;
    ops.push(Op::Push(known.at_most(r)))?;
    ops.push(Op::Add)?;
    Ok(Ops::new(ops))
}

/// Keeps that line.
fn keep_of_clause<K: Keeper>(
    alloc: Global,
    known: &Known,
    keeper: &mut K,
    clause: Name,
    pair: PlacedPair,
) -> Result<Name, AllocError>
    requires clause { IsName clause }
    requires placed { IsPlace known.now pair.p pair.t pair.r }
    requires injective { is_injective known.now.maps ≡ true }
    ensures goes { (w : Frame) → IsFrameOf known.now (K.owner keeper.old) w
        → Goes w (K.kept keeper.old) (K.kept keeper.new)
        (λ forms. IsNamed w forms (MadeRef clause)
        (consistent_clause known.now pair.p pair.t pair.r))
        (IsRowLine w known.now pair.p pair.t pair.r result) }
    ensures name { IfOk result IsName }
    ensures rest { KeepsRest K.owner K.notes K.spare keeper.old keeper.new }
{
    known.in_limits();
    let ops = clause_ops(alloc, known, clause, pair.r)?;
    keeper.keep(Step::P { name: NO_NAME, ops })
}

/// Keeps the line that follows from a line of each direction, and the clause between.
pub(crate) fn both_line<K: Keeper>(
    alloc: Global,
    q: &Problem,
    known: &Known,
    keeper: &mut K,
    lines: (Name, Name),
    pair: PlacedPair,
) -> Result<Name, AllocError>
    requires same { known.now ≡ q.now }
    requires first { IsName lines.0 }
    requires second { IsName lines.1 }
    requires placed { IsPlace q.now pair.p pair.t pair.r }
    requires injective { is_injective q.now.maps ≡ true }
    ensures goes { (w : Frame) → IsFrameOf q.now (K.owner keeper.old) w
        → Goes w (K.kept keeper.old) (K.kept keeper.new)
        (AreBothLines w q.now pair.p pair.t pair.r lines.0 lines.1)
        (IsRowLine w q.now pair.p pair.t pair.r result) }
    ensures name { IfOk result IsName }
    ensures rest { KeepsRest K.owner K.notes K.spare keeper.old keeper.new }
{
    known.in_limits();
    let lits = places(alloc, q, known, pair)?;
    let refs = clause_refs(alloc, known, lines, pair.r)?;
    let clause = keeper.keep(Step::U {
        name: NO_NAME,
        lits,
        refs,
    })?;
    keep_of_clause(alloc, known, keeper, clause, pair)
}
