//! The lines that count shared neighbours at a place. Where there are two, the line rests on the clause that they are not both there, which
//! is kept once for all vertices that share these two.

ghost use Rattle.std.specs.Prelude.{◌≡◌, ◌<◌, true, OnOk, IfOk, IsSome};
ghost use Rattle.graph_theory.specs.Graph.{size};
ghost use Rattle.graph_theory.specs.Embedding.{is_injective};
ghost use Rattle.log_theory.specs.LogText.{IsName, AreOps};
ghost use Rattle.pair_line_theory.specs.Rows.{not_both_form};
ghost use Rattle.pair_line_theory.specs.Laws.{AreTwoShared};
ghost use Rattle.journals.specs.Keeping.{KeepsRest};
ghost use Rattle.log_growth.specs.Frames.{Frame, Goes, AnyForms, IsKept};
ghost use Rattle.pair_lines.specs.declared.sharing.Sharing.TheVariants.{Many as ManyShared};
ghost use Rattle.pair_lines.specs.Choices.{AreSharers, pair_name};
ghost use Rattle.pair_lines.specs.Claims.{HasEncoding, AreSpreads, HasAround, Stay, IsNotBoth, HasSpreadOps};

use crate::known::Known;
use crate::ops::{not_both, spread_ops, target_refs, two_ops};
use crate::pair_names::PairNames;
use crate::sharing::{Sharers, two_shared};
use journals::Keeper;
use log_theory::{Name, Ops, Step};
use std::alloc::{AllocError, Global};

/// The name of a step that is given to a keeper, which gives it the next one.
pub(crate) const NO_NAME: Name = Name {
    owner: 0,
    number: 0,
};

/// Makes the clause that `m` and `n` are not both at `w`.
fn make_not_both<K: Keeper>(
    alloc: Global,
    known: &Known,
    keeper: &mut K,
    m: u16,
    n: u16,
    w: u16,
) -> Result<Name, AllocError>
    requires order { m < n }
    requires n_in { n < size known.now.pattern }
    requires w_in { w < size known.now.target }
    requires injective { is_injective known.now.maps ≡ true }
    ensures goes { (f : Frame) → HasEncoding known.now (K.owner keeper.old) f
        → Goes f (K.kept keeper.old) (K.kept keeper.new) AnyForms
        (IsKept f result (not_both_form known.now m n w)) }
    ensures name { IfOk result IsName }
    ensures rest { KeepsRest K.owner K.notes K.spare keeper.old keeper.new }
{
    known.in_limits();
    let lits = not_both(alloc, known, m, n, w)?;
    let refs = target_refs(alloc, known, w)?;
    keeper.keep(Step::U {
        name: NO_NAME,
        lits,
        refs,
    })
}

/// The name of that clause, which is made unless the table has it.
fn keep_not_both<K: Keeper>(
    alloc: Global,
    known: &Known,
    spreads: &mut PairNames,
    keeper: &mut K,
    m: u16,
    n: u16,
    w: u16,
) -> Result<Name, AllocError>
    requires order { m < n }
    requires n_in { n < size known.now.pattern }
    requires w_in { w < size known.now.target }
    requires injective { is_injective known.now.maps ≡ true }
    ensures goes { (f : Frame) → HasEncoding known.now (K.owner keeper.old) f
        → Goes f (K.kept keeper.old) (K.kept keeper.new) (AreSpreads f known.now spreads.old)
        (IsNotBoth f known.now m n w spreads.new result) }
    ensures name { IfOk result IsName }
    ensures stay { Stay spreads.old spreads.new }
    ensures rest { KeepsRest K.owner K.notes K.spare keeper.old keeper.new }
{
    known.in_limits();
    let _vertices = known.vertices();
    if let Some(name) = spreads.find_not_both(m, n, w) {
        return Ok(name);
    }
    let name = make_not_both(alloc, known, keeper, m, n, w)?;
    spreads.add_not_both(m, n, w, name)?;
    Ok(name)
}

/// The operations of the line that counts two shared neighbours at `w`, whose clause is kept.
fn ops_of_two<K: Keeper>(
    alloc: Global,
    known: &Known,
    spreads: &mut PairNames,
    keeper: &mut K,
    pair: Sharers,
    two: (u16, u16),
    w: u16,
) -> Result<Ops, AllocError>
    requires pair { AreSharers known.now pair }
    requires two { AreTwoShared known.now.pattern pair.p pair.r two.0 two.1 }
    requires w_in { w < size known.now.target }
    ensures goes { (f : Frame) → HasEncoding known.now (K.owner keeper.old) f
        → Goes f (K.kept keeper.old) (K.kept keeper.new) (AreSpreads f known.now spreads.old)
        (HasSpreadOps f known.now pair.p pair.r w spreads.new result) }
    ensures ops { IfOk result AreOps }
    ensures stay { Stay spreads.old spreads.new }
    ensures rest { KeepsRest K.owner K.notes K.spare keeper.old keeper.new }
{
    known.in_limits();
    let clause = keep_not_both(alloc, known, spreads, keeper, two.0, two.1, w)?;
    two_ops(alloc, known, clause, pair.p, pair.r, w)
}

/// The operations of the line that counts those shared at `w`, and what they rest on is kept.
fn ops_at<K: Keeper>(
    alloc: Global,
    known: &Known,
    spreads: &mut PairNames,
    keeper: &mut K,
    pair: Sharers,
    w: u16,
) -> Result<Ops, AllocError>
    requires pair { AreSharers known.now pair }
    requires w_in { w < size known.now.target }
    ensures goes { (f : Frame) → HasEncoding known.now (K.owner keeper.old) f
        → Goes f (K.kept keeper.old) (K.kept keeper.new) (AreSpreads f known.now spreads.old)
        (HasSpreadOps f known.now pair.p pair.r w spreads.new result) }
    ensures ops { IfOk result AreOps }
    ensures stay { Stay spreads.old spreads.new }
    ensures rest { KeepsRest K.owner K.notes K.spare keeper.old keeper.new }
{
    known.in_limits();
    match two_shared(known, pair) {
        Some(two) => ops_of_two(alloc, known, spreads, keeper, pair, two, w),
        None => spread_ops(alloc, known, pair.p, pair.r, w, pair.count - 1),
    }
}

/// Keeps the line that counts those shared at `w`, unless it is there. Cost: where it is there, that of finding its name.
fn keep_spread<K: Keeper>(
    alloc: Global,
    known: &Known,
    spreads: &mut PairNames,
    keeper: &mut K,
    pair: Sharers,
    w: u16,
) -> Result<(), AllocError>
    requires pair { AreSharers known.now pair }
    requires w_in { w < size known.now.target }
    ensures goes { (f : Frame) → HasEncoding known.now (K.owner keeper.old) f
        → Goes f (K.kept keeper.old) (K.kept keeper.new) (AreSpreads f known.now spreads.old)
        (AreSpreads f known.now spreads.new) }
    ensures there { OnOk result (IsSome (pair_name spreads.new pair.p pair.r w)) }
    ensures stay { Stay spreads.old spreads.new }
    ensures rest { KeepsRest K.owner K.notes K.spare keeper.old keeper.new }
{
    if spreads.find(pair.p, pair.r, w).is_some() {
        return Ok(());
    }
    known.in_limits();
    let ops = ops_at(alloc, known, spreads, keeper, pair, w)?;
    let name = keeper.keep(Step::P { name: NO_NAME, ops })?;
    spreads.add(pair.p, pair.r, w, name)
}

/// Keeps it for each neighbour of `t`. Cost: that of finding a name for each of these, beside what is kept.
pub(crate) fn keep_around<K: Keeper>(
    alloc: Global,
    known: &Known,
    spreads: &mut PairNames,
    keeper: &mut K,
    pair: Sharers,
    t: u16,
) -> Result<(), AllocError>
    requires pair { AreSharers known.now pair }
    requires t_in { t < size known.now.target }
    ensures goes { (f : Frame) → HasEncoding known.now (K.owner keeper.old) f
        → Goes f (K.kept keeper.old) (K.kept keeper.new) (AreSpreads f known.now spreads.old)
        (AreSpreads f known.now spreads.new) }
    ensures there { OnOk result
        (HasAround known.now spreads.new (ManyShared pair.count) pair.p t pair.r) }
    ensures rest { KeepsRest K.owner K.notes K.spare keeper.old keeper.new }
{
    let mut w = known.next_near(t, 0);
    while w < known.targets() {
        keep_spread(alloc, known, spreads, keeper, pair, w)?;
        w = known.next_near(t, w + 1);
    }
    Ok(())
}
