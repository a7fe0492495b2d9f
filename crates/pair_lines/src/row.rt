//! The line for a vertex at its place and another vertex, and the lines that it rests on.

ghost use Rattle.std.specs.Prelude.{◌≡◌, ◌<◌, ◌≤◌, ℕ, true, OnOk, IfOk, IsSome, Result};
ghost use Rattle.graph_theory.specs.Graph.{size};
ghost use Rattle.graph_theory.specs.Embedding.{is_injective};
ghost use Rattle.graph_theory.specs.Neighbours.{is_neighbour};
ghost use Rattle.graph_theory.specs.Reversed.{reversed_problem};
ghost use Rattle.log_theory.specs.LogText.{IsName};
ghost use Rattle.pair_line_theory.specs.Laws.{IsPlace};
ghost use Rattle.journals.specs.Keeping.{KeepsRest};
ghost use Rattle.log_growth.specs.Frames.{Frame, IsFrameOf, Goes, AnyForms};
ghost use Rattle.pair_lines.specs.declared.sharing.Sharing.TheVariants.{Many as ManyShared};
ghost use Rattle.pair_lines.specs.Choices.{IsSharing, pair_name};
ghost use Rattle.pair_lines.specs.Claims.{AreSpreads, HasAround, HasEncoding, IsSharedLine, IsSharedRow, AreTurned, IsRowLine, IsRow};

use crate::both_ways::both_line;
use crate::known::Known;
use crate::meeting::meeting_of;
use crate::ops::row_ops;
use crate::pair_names::PairNames;
use crate::placed_pair::PlacedPair;
use crate::sharing::{Asked, Sharers, Sharing, asked_of};
use crate::spreads::{NO_NAME, keep_around};
use crate::turned_names::Spreads;
use graph_rows::Problem;
use graph_theory::direction::Direction;
use journals::Keeper;
use log_theory::{Name, Step};
use pb_encoding::Encoding;
use std::alloc::{AllocError, Global};

/// Keeps those that the line rests on, and that are not there.
fn keep_spreads<K: Keeper>(
    alloc: Global,
    known: &Known,
    spreads: &mut PairNames,
    keeper: &mut K,
    sharing: Sharing,
    pair: PlacedPair,
) -> Result<(), AllocError>
    requires placed { IsPlace known.now pair.p pair.t pair.r }
    requires shared { IsSharing known.now pair.p pair.r sharing }
    ensures goes { (f : Frame) → HasEncoding known.now (K.owner keeper.old) f
        → Goes f (K.kept keeper.old) (K.kept keeper.new) (AreSpreads f known.now spreads.old)
        (AreSpreads f known.now spreads.new) }
    ensures there { OnOk result (HasAround known.now spreads.new sharing pair.p pair.t pair.r) }
    ensures rest { KeepsRest K.owner K.notes K.spare keeper.old keeper.new }
{
    match sharing {
        Sharing::Many(count) => {
            let sharers = Sharers {
                p: pair.p,
                r: pair.r,
                count,
            };
            keep_around(alloc, known, spreads, keeper, sharers, pair.t)
        }
        Sharing::Nothing => Ok(()),
        Sharing::One(_) => Ok(()),
    }
}

/// Keeps the line of one direction itself.
fn keep_row<K: Keeper>(
    alloc: Global,
    known: &Known,
    spreads: &PairNames,
    keeper: &mut K,
    sharing: Sharing,
    pair: PlacedPair,
) -> Result<Name, AllocError>
    requires placed { IsPlace known.now pair.p pair.t pair.r }
    requires shared { IsSharing known.now pair.p pair.r sharing }
    requires there { HasAround known.now spreads.now sharing pair.p pair.t pair.r }
    ensures goes { (f : Frame) → HasEncoding known.now (K.owner keeper.old) f
        → Goes f (K.kept keeper.old) (K.kept keeper.new) (AreSpreads f known.now spreads.now)
        (IsSharedLine f known.now pair.p pair.t pair.r result) }
    ensures name { IfOk result IsName }
    ensures rest { KeepsRest K.owner K.notes K.spare keeper.old keeper.new }
{
    known.in_limits();
    spreads.fit();
    let meeting = meeting_of(known, pair.p, pair.r);
    let ops = row_ops(alloc, known, spreads, sharing, meeting, pair)?;
    keeper.keep(Step::P { name: NO_NAME, ops })
}

/// Keeps the line of one direction, and what it rests on.
fn line_by<K: Keeper>(
    alloc: Global,
    known: &Known,
    spreads: &mut PairNames,
    keeper: &mut K,
    sharing: Sharing,
    pair: PlacedPair,
) -> Result<Name, AllocError>
    requires placed { IsPlace known.now pair.p pair.t pair.r }
    requires shared { IsSharing known.now pair.p pair.r sharing }
    ensures goes { (f : Frame) → HasEncoding known.now (K.owner keeper.old) f
        → Goes f (K.kept keeper.old) (K.kept keeper.new) (AreSpreads f known.now spreads.old)
        (IsSharedRow f known.now pair.p pair.t pair.r spreads.new result) }
    ensures name { IfOk result IsName }
    ensures rest { KeepsRest K.owner K.notes K.spare keeper.old keeper.new }
{
    keep_spreads(alloc, known, spreads, keeper, sharing, pair)?;
    keep_row(alloc, known, spreads, keeper, sharing, pair)
}

/// Keeps a line of each direction, and the line that follows from both.
fn lines_both<K: Keeper>(
    alloc: Global,
    q: &Problem,
    lines: &Encoding,
    spreads: &mut Spreads,
    keeper: &mut K,
    shared: (Sharing, Sharing),
    pair: PlacedPair,
) -> Result<Name, AllocError>
    requires encoding { lines.now ≡ q.now }
    requires placed { IsPlace q.now pair.p pair.t pair.r }
    requires injective { is_injective q.now.maps ≡ true }
    requires shared { IsSharing q.now pair.p pair.r shared.0 }
    requires in_shared { IsSharing (reversed_problem q.now) pair.p pair.r shared.1 }
    ensures goes { (w : Frame) → IsFrameOf q.now (K.owner keeper.old) w
        → Goes w (K.kept keeper.old) (K.kept keeper.new) (AreTurned w q.now spreads.old)
        (IsRow w q.now pair.p pair.t pair.r spreads.new result) }
    ensures name { IfOk result IsName }
    ensures rest { KeepsRest K.owner K.notes K.spare keeper.old keeper.new }
{
    let out = Known::new(q, lines, Direction::Out);
    let back = Known::new(q, lines, Direction::In);
    let first = line_by(alloc, &out, &mut spreads.out, keeper, shared.0, pair)?;
    let second = line_by(alloc, &back, &mut spreads.back, keeper, shared.1, pair)?;
    both_line(alloc, q, &out, keeper, (first, second), pair)
}

/// Gives a keeper the line that takes from `pair.r` each value that is not consistent with `pair.p` at `pair.t`, and those that it rests on and
/// that the table does not name. The line names two others, or one, or by local maps three; where the two share neighbours, and maps are
/// injective, it names one more for each of these and for each neighbour of the place. Each line that it rests on names one for each shared
/// neighbour, and a literal for each other vertex; or where two are shared a clause in place of these literals. Where edges have directions and
/// the two share neighbours in both, there is such a line for each, a clause that follows from these, and the line is the clause with one other.
pub fn row_line_with<K: Keeper>(
    alloc: Global,
    q: &Problem,
    lines: &Encoding,
    spreads: &mut Spreads,
    keeper: &mut K,
    pair: PlacedPair,
) -> Result<Name, AllocError>
    requires encoding { lines.now ≡ q.now }
    requires placed { IsPlace q.now pair.p pair.t pair.r }
    ensures goes { (w : Frame) → IsFrameOf q.now (K.owner keeper.old) w
        → Goes w (K.kept keeper.old) (K.kept keeper.new) (AreTurned w q.now spreads.old)
        (IsRow w q.now pair.p pair.t pair.r spreads.new result) }
    ensures name { IfOk result IsName }
    ensures rest { KeepsRest K.owner K.notes K.spare keeper.old keeper.new }
{
    let out = Known::new(q, lines, Direction::Out);
    let back = Known::new(q, lines, Direction::In);
    match asked_of(alloc, q, &out, &back, pair.p, pair.r)? {
        Asked::Out(shared) => { line_by(alloc, &out, &mut spreads.out, keeper, shared, pair) }
        Asked::In(shared) => { line_by(alloc, &back, &mut spreads.back, keeper, shared, pair) }
        Asked::Both(out_shared, in_shared) => {
            let shared = (out_shared, in_shared);
            lines_both(alloc, q, lines, spreads, keeper, shared, pair)
        }
    }
}

/// The same where no line of another place is remembered.
pub fn row_line<K: Keeper>(
    alloc: Global,
    q: &Problem,
    lines: &Encoding,
    keeper: &mut K,
    pair: PlacedPair,
) -> Result<Name, AllocError>
    requires encoding { lines.now ≡ q.now }
    requires placed { IsPlace q.now pair.p pair.t pair.r }
    ensures goes { (w : Frame) → IsFrameOf q.now (K.owner keeper.old) w
        → Goes w (K.kept keeper.old) (K.kept keeper.new) AnyForms
        (IsRowLine w q.now pair.p pair.t pair.r result) }
    ensures name { IfOk result IsName }
    ensures rest { KeepsRest K.owner K.notes K.spare keeper.old keeper.new }
{
    let mut spreads = Spreads::new(alloc);
    row_line_with(alloc, q, lines, &mut spreads, keeper, pair)
}
