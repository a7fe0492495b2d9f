//! The operations of the lines.

ghost use Rattle.std.specs.Prelude.{◌≡◌, ◌<◌, ◌≤◌, ◌+◌, ◌++◌, ◌∷◌, [], true, not, OnOk, IfOk};
ghost use Rattle.graph_theory.specs.Graph.{size};
ghost use Rattle.graph_theory.specs.Embedding.{is_injective};
ghost use Rattle.graph_theory.specs.Neighbours.{is_neighbour};
ghost use Rattle.log_theory.specs.declared.step.Op.TheVariants.{Push as PushOp, Axiom as AxiomOp, Add as AddOp};
ghost use Rattle.log_theory.specs.declared.step.Ref.TheVariants.{Made as MadeRef};
ghost use Rattle.encoding_theory.specs.Variables.{when};
ghost use Rattle.encoding_theory.specs.Pairs.{is_edge_pair};
ghost use Rattle.pair_line_theory.specs.Laws.{IsPlace};
ghost use Rattle.pair_line_theory.specs.Operations.{adds_where};
ghost use Rattle.pair_line_theory.specs.Rows.{edge_line, is_shared as is_shared_by, there as there_at, spread_ops as spread_ops_of, two_ops as two_ops_of, not_both as not_both_of, target_line};
ghost use Rattle.pair_lines.specs.Choices.{IsSharing, IsMeeting, begin_of, own_line as own_line_of, spread_ref as spread_ref_of, own_ops as own_ops_of, alone_line, block_ops, plain_ops as plain_ops_of, counted_ops as counted_ops_of, row_ops as row_ops_of};

use crate::known::Known;
use crate::meeting::Meeting;
use crate::pair_names::PairNames;
use crate::placed_pair::PlacedPair;
use crate::sharing::Sharing;
use log_theory::{Clause, Name, Op, Ops, Ref, Refs};
use std::alloc::{AllocError, Global};

/// Adds the line of two vertices at `t`.
fn add_edge(known: &Known, ops: &mut Vec<Op>, a: u16, b: u16, t: u16) -> Result<(), AllocError>
    requires a_in { a < size known.now.pattern }
    requires b_in { b < size known.now.pattern }
    requires t_in { t < size known.now.target }
    requires pair { is_edge_pair known.now a b ≡ true }
    ensures { OnOk result
        (ops.new.items ≡ ops.old.items ++ PushOp (edge_line known.now a b t) ∷ AddOp ∷ []) }
{
    ops.push(Op::Push(known.edge(a, b, t)))?;
    ops.push(Op::Add)?;
    Ok(())
}

/// Adds the line of `p` and each shared neighbour, at `t`. Cost: a step for each neighbour of `p`.
#[tactic(auto, using(crate::proofs::Pairs::shared_first))]
fn add_shared(known: &Known, ops: &mut Vec<Op>, p: u16, t: u16, r: u16) -> Result<(), AllocError>
    requires p_in { p < size known.now.pattern }
    requires r_in { r < size known.now.pattern }
    requires t_in { t < size known.now.target }
    ensures { OnOk result
        (ops.new.items ≡ ops.old.items
        ++ adds_where (is_shared_by known.now.pattern p r)
        (λ m. PushOp (edge_line known.now p m t)) (size known.now.pattern)) }
{
    let mut m = known.next_shared(p, r, 0);
    while m < known.vertices() {
        add_edge(known, ops, p, m, t)?;
        m = known.next_shared(p, r, m + 1);
    }
    Ok(())
}

/// Adds the line of each shared neighbour and `r`, at `w`. Cost: a step for each neighbour of `p`.
#[tactic(auto, using(crate::proofs::Pairs::shared_second))]
fn add_backs(known: &Known, ops: &mut Vec<Op>, p: u16, r: u16, w: u16) -> Result<(), AllocError>
    requires p_in { p < size known.now.pattern }
    requires r_in { r < size known.now.pattern }
    requires w_in { w < size known.now.target }
    ensures { OnOk result
        (ops.new.items ≡ ops.old.items
        ++ adds_where (is_shared_by known.now.pattern p r)
        (λ m. PushOp (edge_line known.now m r w)) (size known.now.pattern)) }
{
    let mut m = known.next_shared(p, r, 0);
    while m < known.vertices() {
        add_edge(known, ops, m, r, w)?;
        m = known.next_shared(p, r, m + 1);
    }
    Ok(())
}

/// Adds that `v` is at `w`.
fn add_there(known: &Known, ops: &mut Vec<Op>, w: u16, v: u16) -> Result<(), AllocError>
    requires v_in { v < size known.now.pattern }
    requires w_in { w < size known.now.target }
    ensures { OnOk result
        (ops.new.items ≡ ops.old.items ++ AxiomOp (there_at known.now w v) ∷ AddOp ∷ []) }
{
    ops.push(Op::Axiom(known.there(w, v)))?;
    ops.push(Op::Add)?;
    Ok(())
}

/// Adds that each vertex which is not shared is at `w`. Cost: two operations for each of these.
fn add_others(known: &Known, ops: &mut Vec<Op>, p: u16, r: u16, w: u16) -> Result<(), AllocError>
    requires p_in { p < size known.now.pattern }
    requires r_in { r < size known.now.pattern }
    requires w_in { w < size known.now.target }
    ensures { OnOk result
        (ops.new.items ≡ ops.old.items
        ++ adds_where (λ v. not (is_shared_by known.now.pattern p r v))
        (λ v. AxiomOp (there_at known.now w v)) (size known.now.pattern)) }
{
    let mut shared = known.next_shared(p, r, 0);
    for v in 0..known.vertices() {
        if v == shared {
            shared = known.next_shared(p, r, v + 1);
            continue;
        }
        add_there(known, ops, w, v)?;
    }
    Ok(())
}

/// The operations of the line that counts those shared at `w`, one more than `less`. Cost: two operations for each vertex.
pub(crate) fn spread_ops(
    alloc: Global,
    known: &Known,
    p: u16,
    r: u16,
    w: u16,
    less: u16,
) -> Result<Ops, AllocError>
    requires p_in { p < size known.now.pattern }
    requires r_in { r < size known.now.pattern }
    requires w_in { w < size known.now.target }
    requires injective { is_injective known.now.maps ≡ true }
    ensures { IfOk result (λ ops. ops ≡ spread_ops_of known.now p r w less) }
{
    let mut ops = Vec::with_capacity(alloc, 2 * usize::from(known.vertices()) + 3)?;
    ops.push(Op::Push(known.target(w)))?;
    add_others(known, &mut ops, p, r, w)?;
    ops.push(Op::Times(u64::from(less)))?;
    add_backs(known, &mut ops, p, r, w)?;
    ops.push(Op::Divide(u64::from(less) + 1))?;
    Ok(Ops::new(ops))
}

/// The operations of that line where two are shared, of which `clause` says that they are not both at `w`.
pub(crate) fn two_ops(
    alloc: Global,
    known: &Known,
    clause: Name,
    p: u16,
    r: u16,
    w: u16,
) -> Result<Ops, AllocError>
    requires p_in { p < size known.now.pattern }
    requires r_in { r < size known.now.pattern }
    requires w_in { w < size known.now.target }
    ensures { IfOk result (λ ops. ops ≡ two_ops_of known.now (MadeRef clause) p r w) }
{
    let mut ops = Vec::with_capacity(alloc, 6)?;
    ops.push(Op::Push(Ref::Made(clause)))?;
    add_backs(known, &mut ops, p, r, w)?;
    ops.push(Op::Divide(2))?;
    Ok(Ops::new(ops))
}

/// The literals of the clause that `m` and `n` are not both at `w`.
pub(crate) fn not_both(
    alloc: Global,
    known: &Known,
    m: u16,
    n: u16,
    w: u16,
) -> Result<Clause, AllocError>
    requires m_in { m < size known.now.pattern }
    requires n_in { n < size known.now.pattern }
    requires w_in { w < size known.now.target }
    ensures { IfOk result (λ lits. lits ≡ not_both_of known.now m n w) }
{
    let mut lits = Vec::new(alloc);
    lits.push(known.not_there(w, m))?;
    lits.push(known.not_there(w, n))?;
    Ok(Clause::new(lits))
}

/// The line that such a clause follows from.
pub(crate) fn target_refs(alloc: Global, known: &Known, w: u16) -> Result<Refs, AllocError>
    requires w_in { w < size known.now.target }
    requires injective { is_injective known.now.maps ≡ true }
    ensures { IfOk result (λ refs. refs ≡ target_line known.now w ∷ []) }
{
    let mut refs = Vec::new(alloc);
    refs.push(known.target(w))?;
    Ok(Refs::new(refs))
}

/// The line that counts those shared at `w`.
fn spread_ref(known: &Known, spreads: &PairNames, sharing: Sharing, p: u16, r: u16, w: u16) -> Ref
    requires p_in { p < size known.now.pattern }
    requires r_in { r < size known.now.pattern }
    requires w_in { w < size known.now.target }
    requires sharing { IsSharing known.now p r sharing }
    ensures { result ≡ spread_ref_of known.now spreads.now sharing p r w }
{
    match sharing {
        Sharing::Nothing => Ref::Line(0),
        Sharing::One(m) => known.edge(m, r, w),
        Sharing::Many(_) => match spreads.find(p, r, w) {
            Some(name) => Ref::Made(name),
            None => Ref::Line(0),
        },
    }
}

/// Adds that line.
fn add_spread(
    known: &Known,
    spreads: &PairNames,
    ops: &mut Vec<Op>,
    sharing: Sharing,
    pair: PlacedPair,
    w: u16,
) -> Result<(), AllocError>
    requires placed { IsPlace known.now pair.p pair.t pair.r }
    requires w_in { w < size known.now.target }
    requires sharing { IsSharing known.now pair.p pair.r sharing }
    ensures { OnOk result
        (ops.new.items ≡ ops.old.items
        ++ PushOp (spread_ref_of known.now spreads.now sharing pair.p pair.r w) ∷ AddOp ∷ []) }
{
    ops.push(Op::Push(spread_ref(known, spreads, sharing, pair.p, pair.r, w)))?;
    ops.push(Op::Add)?;
    Ok(())
}

/// Adds it for each neighbour of the place. Cost: where more than one is shared that of finding a name, for each of these.
fn add_spreads(
    known: &Known,
    spreads: &PairNames,
    ops: &mut Vec<Op>,
    sharing: Sharing,
    pair: PlacedPair,
) -> Result<(), AllocError>
    requires placed { IsPlace known.now pair.p pair.t pair.r }
    requires sharing { IsSharing known.now pair.p pair.r sharing }
    ensures { OnOk result
        (ops.new.items ≡ ops.old.items
        ++ adds_where (is_neighbour known.now.target pair.t)
        (λ w. PushOp (spread_ref_of known.now spreads.now sharing pair.p pair.r w))
        (size known.now.target)) }
{
    let mut w = known.next_near(pair.t, 0);
    while w < known.targets() {
        add_spread(known, spreads, ops, sharing, pair, w)?;
        w = known.next_near(pair.t, w + 1);
    }
    Ok(())
}

/// The pair's own line at `t`, if there is one.
pub(crate) fn own_line(known: &Known, p: u16, r: u16, t: u16) -> Option<Ref>
    requires p_in { p < size known.now.pattern }
    requires r_in { r < size known.now.pattern }
    requires t_in { t < size known.now.target }
    ensures { result ≡ own_line_of known.now p r t }
{
    if known.is_edge_pair(p, r) {
        Some(known.edge(p, r, t))
    } else if known.is_non_edge_pair(p, r) {
        Some(known.non_edge(p, r, t))
    } else {
        None
    }
}

/// Adds the line of a block that has both, where there is one that is to be added.
fn add_block(
    known: &Known,
    ops: &mut Vec<Op>,
    meeting: Meeting,
    pair: PlacedPair,
) -> Result<(), AllocError>
    requires placed { IsPlace known.now pair.p pair.t pair.r }
    requires meets { IsMeeting known.now pair.p pair.r meeting }
    ensures { OnOk result
        (ops.new.items ≡ ops.old.items ++ block_ops known.now meeting pair.t) }
{
    match meeting {
        Meeting::Around(c) => {
            ops.push(Op::Push(known.around(c, pair.t)))?;
            ops.push(Op::Add)?;
            Ok(())
        }
        Meeting::Never => Ok(()),
        Meeting::May => Ok(()),
    }
}

/// The operations of the pair's own line and that of `r`, and of a block where one is needed.
pub(crate) fn own_ops(
    alloc: Global,
    known: &Known,
    meeting: Meeting,
    own: Ref,
    pair: PlacedPair,
) -> Result<Ops, AllocError>
    requires placed { IsPlace known.now pair.p pair.t pair.r }
    requires meets { IsMeeting known.now pair.p pair.r meeting }
    ensures { IfOk result (λ ops. ops ≡ own_ops_of known.now meeting own pair.t pair.r) }
{
    let mut ops = Vec::with_capacity(alloc, 3)?;
    ops.push(Op::Push(own))?;
    ops.push(Op::Push(known.at_most(pair.r)))?;
    ops.push(Op::Add)?;
    add_block(known, &mut ops, meeting, pair)?;
    Ok(Ops::new(ops))
}

/// The operation that names one line of the encoding.
fn alone_ops(
    alloc: Global,
    known: &Known,
    meeting: Meeting,
    pair: PlacedPair,
) -> Result<Ops, AllocError>
    requires placed { IsPlace known.now pair.p pair.t pair.r }
    requires meets { IsMeeting known.now pair.p pair.r meeting }
    ensures { IfOk result
        (λ ops. ops ≡ PushOp (alone_line known.now meeting pair.t pair.r) ∷ []) }
{
    let mut ops = Vec::new(alloc);
    ops.push(Op::Push(known.alone(meeting, pair)))?;
    Ok(Ops::new(ops))
}

/// The operations where no shared neighbour is asked for: one line, two or three.
fn plain_ops(
    alloc: Global,
    known: &Known,
    meeting: Meeting,
    own: Option<Ref>,
    pair: PlacedPair,
) -> Result<Ops, AllocError>
    requires placed { IsPlace known.now pair.p pair.t pair.r }
    requires meets { IsMeeting known.now pair.p pair.r meeting }
    ensures { IfOk result (λ ops. ops ≡ plain_ops_of known.now meeting own pair.t pair.r) }
{
    match own {
        Some(own) => own_ops(alloc, known, meeting, own, pair),
        None => alone_ops(alloc, known, meeting, pair),
    }
}

/// What comes before the lines round a place: what refuses the values that are not compatible, often enough.
fn begin(
    known: &Known,
    ops: &mut Vec<Op>,
    own: Option<Ref>,
    t: u16,
    r: u16,
) -> Result<(), AllocError>
    requires r_in { r < size known.now.pattern }
    requires t_in { t < size known.now.target }
    requires injective { is_injective known.now.maps ≡ true }
    ensures { OnOk result (ops.new.items ≡ ops.old.items ++ begin_of known.now own t r) }
{
    ops.push(Op::Push(known.at_most(r)))?;
    match own {
        Some(own) => {
            ops.push(Op::Times(2))?;
            ops.push(Op::Push(own))?;
        }
        None => ops.push(Op::Push(known.target(t)))?,
    }
    ops.push(Op::Add)?;
    ops.push(Op::Times(known.weight(t)))?;
    Ok(())
}

/// How many operations are made where shared neighbours are asked for, at most. It is the room that is taken for them at once.
fn operations(known: &Known, sharing: Sharing, t: u16) -> usize
    requires { t < size known.now.target }
{
    2 * usize::from(sharing.count()) + 2 * usize::from(known.degree(t)) + 5
}

/// The operations where shared neighbours are asked for: a line for each, and one for each neighbour of the place. Cost: two operations for
/// each of these, and that of `add_spreads`.
fn counted_ops(
    alloc: Global,
    known: &Known,
    spreads: &PairNames,
    sharing: Sharing,
    own: Option<Ref>,
    pair: PlacedPair,
) -> Result<Ops, AllocError>
    requires placed { IsPlace known.now pair.p pair.t pair.r }
    requires sharing { IsSharing known.now pair.p pair.r sharing }
    requires injective { is_injective known.now.maps ≡ true }
    ensures { IfOk result
        (λ ops. ops ≡ counted_ops_of known.now spreads.now sharing own pair.p pair.t pair.r) }
{
    let mut ops = Vec::with_capacity(alloc, operations(known, sharing, pair.t))?;
    begin(known, &mut ops, own, pair.t, pair.r)?;
    add_shared(known, &mut ops, pair.p, pair.t, pair.r)?;
    add_spreads(known, spreads, &mut ops, sharing, pair)?;
    Ok(Ops::new(ops))
}

/// The operations of the line for the pair.
pub(crate) fn row_ops(
    alloc: Global,
    known: &Known,
    spreads: &PairNames,
    sharing: Sharing,
    meeting: Meeting,
    pair: PlacedPair,
) -> Result<Ops, AllocError>
    requires placed { IsPlace known.now pair.p pair.t pair.r }
    requires sharing { IsSharing known.now pair.p pair.r sharing }
    requires meets { IsMeeting known.now pair.p pair.r meeting }
    ensures { IfOk result
        (λ ops. ops ≡ row_ops_of known.now spreads.now sharing meeting
        (own_line_of known.now pair.p pair.r pair.t) pair.p pair.t pair.r) }
{
    let own = own_line(known, pair.p, pair.r, pair.t);
    match sharing {
        Sharing::Nothing => plain_ops(alloc, known, meeting, own, pair),
        Sharing::One(_) => counted_ops(alloc, known, spreads, sharing, own, pair),
        Sharing::Many(_) => counted_ops(alloc, known, spreads, sharing, own, pair),
    }
}
