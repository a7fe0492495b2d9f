//! All lines for pairs of vertices that were made, so that each is made once.

ghost use Rattle.std.specs.Prelude.{◌≡◌, ◌<◌, [], List, Some, IfOk, IfSome};
ghost use Rattle.graph_theory.specs.Embedding.{Problem as TheProblem};
ghost use Rattle.proof_theory.specs.Forms.{Form};
ghost use Rattle.log_theory.specs.LogText.{IsName, IsRef};
ghost use Rattle.pair_line_theory.specs.Laws.{IsPlace};
ghost use Rattle.journals.specs.Keeping.{KeepsRest};
ghost use Rattle.log_growth.specs.Frames.{Frame, IsFrameOf, IsKept, Goes, AnyForms};
ghost use Rattle.pair_lines.specs.Choices.{IsAsked, IsMeeting, own_form, own_line as own_line_of};
ghost use Rattle.pair_lines.specs.Claims.{HasEncoding, Knows, IsKnownRow, IsThere};

use crate::known::Known;
use crate::meeting::{Meeting, meeting_of};
use crate::ops::{own_line, own_ops};
use crate::pair_names::PairNames;
use crate::placed_pair::PlacedPair;
use crate::row::row_line_with;
use crate::sharing::{Asked, Sharing, asked_of};
use crate::spreads::NO_NAME;
use crate::turned_names::Spreads;
use graph_rows::Problem;
use graph_theory::direction::Direction;
use journals::Keeper;
use log_theory::{Name, Ref, Step};
use pb_encoding::Encoding;
use std::alloc::{AllocError, Global};

/// The names of the lines for pairs of vertices and places that were made so far, and of those that they rest on.
pub struct PairLines {
    rows: PairNames,
    edge_rows: PairNames,
    spreads: Spreads,
}

impl Drop for PairLines {
    /// In one call, for whoever lets one go.
    fn drop(self) {
        let PairLines {
            rows: _,
            edge_rows: _,
            spreads: _,
        } = self;
    }
}

/// The line of the encoding that serves where nothing but the place itself is refused, or nothing at all.
fn line_there(known: &Known, asked: Asked, pair: PlacedPair) -> Option<Ref>
    requires placed { IsPlace known.now pair.p pair.t pair.r }
    requires asked { IsAsked known.now pair.p pair.r asked }
    ensures there { IsThere known.now pair.p pair.t pair.r result }
    ensures fits { IfSome result IsRef }
{
    known.in_limits();
    match asked {
        Asked::Out(shared) => match shared {
            Sharing::Nothing => {
                if known.is_paired(pair.p, pair.r) {
                    None
                } else {
                    let meeting = meeting_of(known, pair.p, pair.r);
                    Some(known.alone(meeting, pair))
                }
            }
            Sharing::One(_) => None,
            Sharing::Many(_) => None,
        },
        Asked::In(_) => None,
        Asked::Both(_, _) => None,
    }
}

/// Keeps the line of the two vertices at the place, with that of the other one, and of a block where one is needed.
fn keep_edge_row<K: Keeper>(
    alloc: Global,
    known: &Known,
    keeper: &mut K,
    meeting: Meeting,
    own: Ref,
    pair: PlacedPair,
) -> Result<Name, AllocError>
    requires placed { IsPlace known.now pair.p pair.t pair.r }
    requires meets { IsMeeting known.now pair.p pair.r meeting }
    requires own { own_line_of known.now pair.p pair.r pair.t ≡ Some own }
    ensures goes { (w : Frame) → HasEncoding known.now (K.owner keeper.old) w
        → Goes w (K.kept keeper.old) (K.kept keeper.new) AnyForms
        (IsKept w result (own_form known.now meeting pair.p pair.t pair.r)) }
    ensures name { IfOk result IsName }
    ensures rest { KeepsRest K.owner K.notes K.spare keeper.old keeper.new }
{
    known.in_limits();
    let ops = own_ops(alloc, known, meeting, own, pair)?;
    keeper.keep(Step::P { name: NO_NAME, ops })
}

impl PairLines {
    /// No line yet. It takes no memory.
    pub fn new(alloc: Global) -> PairLines
        ensures { (w : Frame) (q : TheProblem) (forms : List Form) → Knows w q result forms }
    {
        PairLines {
            rows: PairNames::new(alloc),
            edge_rows: PairNames::new(alloc),
            spreads: Spreads::new(alloc),
        }
    }

    /// A reference to a line that takes from `pair.r` each value that is not consistent with `pair.p` at `pair.t`, or by edges alone those that
    /// edges, and their labels, do not let go together with it. The first is a line of the encoding where one serves; the second is that of the
    /// encoding for the two at the place and that of `pair.r` summed, by local maps with that of a block that has both; or a line of the
    /// encoding. A line is made when it is first asked for. Cost: where it was made, that of finding its name.
    pub fn row<K: Keeper>(
        &mut self,
        alloc: Global,
        q: &Problem,
        lines: &Encoding<'_>,
        keeper: &mut K,
        by_edges: bool,
        pair: PlacedPair,
    ) -> Result<Ref, AllocError>
        requires encoding { lines.now ≡ q.now }
        requires placed { IsPlace q.now pair.p pair.t pair.r }
        ensures goes { (w : Frame) → IsFrameOf q.now (K.owner keeper.old) w
            → Goes w (K.kept keeper.old) (K.kept keeper.new) (Knows w q.now self.old)
            (IsKnownRow by_edges w q.now pair.p pair.t pair.r self.new result) }
        ensures fits { IfOk result IsRef }
        ensures rest { KeepsRest K.owner K.notes K.spare keeper.old keeper.new }
    {
        let known = Known::new(q, lines, Direction::Out);
        known.in_limits();
        if by_edges {
            if let Some(name) = self.edge_rows.find(pair.p, pair.r, pair.t) {
                return Ok(Ref::Made(name));
            }
            let meeting = meeting_of(&known, pair.p, pair.r);
            let own = match own_line(&known, pair.p, pair.r, pair.t) {
                None => return Ok(known.alone(meeting, pair)),
                Some(own) => own,
            };
            let name = keep_edge_row(alloc, &known, keeper, meeting, own, pair)?;
            self.edge_rows.add(pair.p, pair.r, pair.t, name)?;
            return Ok(Ref::Made(name));
        }
        if let Some(name) = self.rows.find(pair.p, pair.r, pair.t) {
            return Ok(Ref::Made(name));
        }
        let back = Known::new(q, lines, Direction::In);
        let asked = asked_of(alloc, q, &known, &back, pair.p, pair.r)?;
        if let Some(line) = line_there(&known, asked, pair) {
            return Ok(line);
        }
        let name = row_line_with(alloc, q, lines, &mut self.spreads, keeper, pair)?;
        self.rows.add(pair.p, pair.r, pair.t, name)?;
        Ok(Ref::Made(name))
    }
}
