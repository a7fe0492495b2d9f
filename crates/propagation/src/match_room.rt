//! Memory for matching neighbourhoods, and where the last look stopped.
//!
//! A look at all values of all vertices is as dear as a few hundred guesses. So it is made in parts: as far as there is credit, and the next time from
//! there on. Smallest domains and fewest neighbours come first. A round that has changed nothing is the last, until something has. No contract speaks of
//! any of this.

ghost use Rattle.std.specs.Prelude.{◌≡◌, ◌<◌, IfOk, IfSome};
ghost use Rattle.graph_theory.specs.Graph.{size};
ghost use Rattle.propagation.specs.Edges.{IsRoomFor};

use bit_rows::words_for;
use domain_bits::Mark;
use graph_rows::Problem;
use std::alloc::{AllocError, Global};
use std::marker::Model;

/// A turn after which no vertex has one in this round.
pub(crate) const LAST: u64 = 18446744073709551615;

/// Rows to work in, a number for each pattern vertex, and counts of steps.
pub(crate) struct MatchRoom {
    /// Neighbours, as a row of pattern vertices.
    pub(crate) chosen: Vec<u64>,
    /// What they have together, as a row of values.
    pub(crate) union: Vec<u64>,
    /// What one of them has.
    pub(crate) row: Vec<u64>,
    /// How many values each neighbour has.
    pub(crate) counts: Vec<u16>,
    /// How many steps may go into this, from the beginning of the search on.
    pub(crate) most: u64,
    /// How many have.
    pub(crate) spent: u64,
    /// The turn of the vertex that had the last one.
    pub(crate) after: u64,
    /// This vertex, and the value at which it is to go on, or none.
    pub(crate) vertex: u16,
    pub(crate) value: u16,
    /// The mark of the domains when the round began.
    pub(crate) begun: Option<Mark>,
}

impl Drop for MatchRoom {
    /// In one call, for whoever lets one go.
    fn drop(self) {
        let MatchRoom {
            chosen: _,
            union: _,
            row: _,
            counts: _,
            most: _,
            spent: _,
            after: _,
            vertex: _,
            value: _,
            begun: _,
        } = self;
    }
}

impl Model for MatchRoom {
    ghost use Rattle.std.specs.Prelude.{◌≡◌, length};
    ghost use Rattle.bit_rows.specs.BitRows.{words_for};
    ghost use Rattle.propagation.specs.Edges.{RoomSize};

    ghost Value = { RoomSize };

    ghost view = { λ r. record { vertices = length r.counts.items; words = length r.union.items } };

    ghost invariant = { λ r. (length r.row.items ≡ length r.union.items)
        × (length r.chosen.items ≡ words_for (length r.counts.items)) };
}

impl MatchRoom {
    /// Room for this problem. Cost: one step for each word of a row and for each pattern vertex.
    pub(crate) fn new(alloc: Global, q: &Problem) -> Result<MatchRoom, AllocError>
        ensures { IfOk result (IsRoomFor q.now) }
    {
        let vertices = usize::from(q.pattern().size());
        let words = words_for(usize::from(q.target().size()));
        let chosen = vec![in alloc; 0u64; words_for(vertices)]?;
        let union = vec![in alloc; 0u64; words]?;
        let row = vec![in alloc; 0u64; words]?;
        let counts = vec![in alloc; 0u16; vertices]?;
        Ok(MatchRoom {
            chosen,
            union,
            row,
            counts,
            most: 0,
            spent: 0,
            after: LAST,
            vertex: 0,
            value: 0,
            begun: None,
        })
    }

    /// How many steps may go into this now. Cost: a few steps.
    pub(crate) fn left(&self) -> u64 {
        self.most.saturating_sub(self.spent)
    }

    /// Counts so many steps for each of so many words and vertices. Cost: a few steps.
    pub(crate) fn spend(&mut self, each: u64, words: usize, vertices: u16)
        ensures { self.new ≡ self.old }
    {
        let row = (words as u64).saturating_add(4).saturating_mul(each);
        self.spent = self
            .spent
            .saturating_add(row.saturating_mul(u64::from(vertices)));
    }

    /// The vertex that is to go on, if one is. Cost: a few steps.
    pub(crate) fn going(&self) -> Option<u16>
        ensures { IfSome result (λ p. p < self.now.vertices) }
    {
        if self.value != 0 && usize::from(self.vertex) < self.counts.len() {
            return Some(self.vertex);
        }
        None
    }

    /// The vertex of this turn, from its first value on, if there is one. Cost: a few steps.
    pub(crate) fn take_turn(&mut self, turn: u64) -> Option<u16>
        ensures same { self.new ≡ self.old }
        ensures within { IfSome result (λ p. p < self.old.vertices) }
    {
        self.after = turn;
        self.vertex = (turn % 65536) as u16;
        self.value = 0;
        if turn != LAST && usize::from(self.vertex) < self.counts.len() {
            return Some(self.vertex);
        }
        None
    }

    /// The vertex is to go on at this value, or where it is no value, to be left. Cost: one step.
    pub(crate) fn stop_at(&mut self, t: usize, values: u16)
        ensures { self.new ≡ self.old }
    {
        self.value = if t < usize::from(values) { t as u16 } else { 0 };
    }
}
