//! What propagation works with: rows of consistent values, memory for counting and for edges, and nogoods.

ghost use Rattle.std.specs.Prelude.{◌≡◌, ◌*◌, ◌^◌, ◌<◌, ◌≤◌, length, take, IfOk, IfErr, OnOk};
ghost use Rattle.std.specs.Result.{is_ok};
ghost use Rattle.graph_theory.specs.Graph.{size};
ghost use Rattle.nogood_book.specs.Rows.{Sound};
ghost use Rattle.recorder.specs.Recording.{NoNewGuess};
ghost use Rattle.recorder.specs.Telling.{IsOf, IsEmptied, Tells};
ghost use Rattle.recorder.specs.Holding.{HoldsRows};
ghost use Rattle.propagation.specs.Learning.{AreKept, Forces, unlearned};
ghost use Rattle.propagation.specs.Acting.{UnitsOutAfter};

use crate::count_room::CountRoom;
use crate::edge_room::EdgeRoom;
use crate::nogoods::Nogoods;
use bit_rows::words_for;
use domain_bits::{Domains, Trail};
use graph_rows::Problem;
use nogood_book::Row;
use pair_supports::{PairKinds, PairSupports};
use recorder::{Failure, Recorder};
use std::alloc::{AllocError, Global};
use std::marker::Model;

/// What propagation works with, made once: the rows of consistent values, and memory for counting; once rows of a book have come,
/// also the nogoods among them.
pub struct Filters<'a> {
    pub(crate) rows: PairSupports<'a>,
    pub(crate) counting: CountRoom,
    pub(crate) edges: EdgeRoom,
    pub(crate) nogoods: Option<Nogoods>,
}

impl Drop for Filters<'_> {
    /// In one call, for whoever lets one go.
    fn drop(self) {
        let Filters {
            rows: _,
            counting: _,
            edges: _,
            nogoods: _,
        } = self;
    }
}

impl<'a> Model for Filters<'a> {
    ghost use Rattle.propagation.specs.Learning.{Filtering, Works};

    ghost Value = { Filtering };

    ghost view = { λ f. record { problem = f.rows.problem; nogoods = f.nogoods } };

    ghost invariant = { λ f. Works f.rows.problem f.counting.scratch f.counting.near f.edges
        f.nogoods };
}

impl<'a> Filters<'a> {
    /// No rows and no nogoods yet, with memory for counting and for at most so many words of rows, which the kinds of the problem's
    /// pairs are shared for. Cost: that of `PairSupports::new` and of `CountRoom::new`, and 128 steps at most for each pattern vertex.
    pub fn new(
        alloc: Global,
        q: &Problem,
        kinds: &'a PairKinds<'a>,
        most: usize,
    ) -> Result<Filters<'a>, AllocError>
        requires problem { kinds.now.problem ≡ q.now }
        ensures { IfOk result (λ f. f ≡ unlearned q.now) }
    {
        let rows = PairSupports::new(alloc, kinds, most)?;
        let counting = CountRoom::new(alloc, q)?;
        let edges = EdgeRoom::new(alloc, q, pair_cost(q, kinds))?;
        Ok(Filters {
            rows,
            counting,
            edges,
            nogoods: None,
        })
    }

    /// Keeps the nogoods among the rows from a place on, those before it being kept. The table for them is made once some row is there.
    /// Where memory is refused, what was added so far stays. Cost: that of `Nogoods::take_rows`, and the first time that of
    /// `Nogoods::new`.
    pub fn take_rows(
        &mut self,
        alloc: Global,
        q: &Problem,
        rows: &[Row],
        from: usize,
    ) -> Result<(), AllocError>
        requires problem { self.old.problem ≡ q.now }
        requires sound { Sound q.now rows.now }
        requires few { length rows.now < 2 ^ 32 }
        requires begun { from ≤ length rows.now }
        requires holds { HoldsRows (take from rows.now) self.old.nogoods }
        ensures problem { self.new.problem ≡ q.now }
        ensures holds { OnOk result (HoldsRows rows.now self.new.nogoods) }
    {
        if from == rows.len() {
            return Ok(());
        }
        take_into(alloc, q, rows, from, &mut self.nogoods)
    }

    /// A run begins at the root: from the second on, edges are looked at. Cost: one step for each pattern vertex.
    pub(crate) fn begin_run(&mut self)
        ensures { self.new ≡ self.old }
    {
        self.edges.begin_run();
    }

    /// Counts a guess, before its consequences are taken: so many stand, the last of them new, and so many vertices are not past. By what is counted, edges
    /// are looked at or not. Cost: one step for the first guess for each pattern vertex, and else one.
    pub fn enter(&mut self, depth: usize, members: usize)
        ensures { self.new ≡ self.old }
    {
        self.edges.enter(depth, members);
    }

    /// Counts what this guess cost, and whether it was refuted, after its consequences are taken, when so many vertices are not past. Cost: a few steps.
    pub fn count(&mut self, members: usize, refuted: bool)
        ensures { self.new ≡ self.old }
    {
        self.edges.count(members, refuted);
    }

    /// Takes the nogoods of one pair out of the domains; fails where a domain becomes empty. Cost: one step for each.
    pub(crate) fn take_units<T: Trail, R: Recorder>(
        &self,
        d: &mut Domains<T>,
        waiting: &mut [bool],
        told: &mut R,
    ) -> Result<(), Failure>
        requires is_of { IsOf self.now.problem d.old }
        requires long { length waiting.old ≡ size self.now.problem.pattern }
        requires bounded { length d.old.removed ≤ d.old.vertices * d.old.values }
        ensures forces { Forces (is_ok result) self.now.problem d.old waiting.old
            d.new waiting.new }
        ensures none { IfErr result (IsEmptied self.now.problem d.new) }
        ensures out { UnitsOutAfter (is_ok result) d.new self.now.nogoods }
        ensures told { Tells self.now.problem self.now.nogoods d.old (R.changes told.old)
            → Tells self.now.problem self.now.nogoods d.new (R.changes told.new) }
        ensures guesses { NoNewGuess (R.changes told.old) (R.changes told.new) }
        ensures kept { AreKept self.now.problem self.now.nogoods }
    {
        match &self.nogoods {
            None => Ok(()),
            Some(nogoods) => nogoods.take_units(&self.rows, d, waiting, told),
        }
    }
}

/// At most so many pattern vertices are asked what a visit costs, evenly by number.
const MOST_ASKED: u16 = 64;

/// What a pair of pattern vertices costs a visit of one of them, in sixteenths of a step, the mean of all pairs of the vertices that are asked and of
/// a vertex with itself, which costs nothing. Cost: two steps for each pattern vertex and for each one that is asked.
fn pair_cost(q: &Problem, kinds: &PairKinds<'_>) -> u64
    requires { kinds.now.problem ≡ q.now }
{
    let row = words_for(usize::from(q.target().size())) as u64 + 4;
    let vertices = q.pattern().size();
    let apart = vertices / MOST_ASKED + 1;
    let mut sum: u64 = 0;
    let mut asked: u64 = 0;
    for p in 0..vertices {
        if p % apart != 0 {
            continue;
        }
        sum = sum.saturating_add(visit_cost(q, kinds, p, row));
        asked = asked.saturating_add(1);
    }
    let pairs = asked.saturating_mul(u64::from(vertices));
    if pairs == 0 {
        return 16;
    }
    (sum.saturating_mul(16) / pairs).saturating_add(1)
}

/// What all other vertices cost a visit of `p`: one step where they are asked nothing but distinct images, and else so many as a row takes. Cost:
/// two steps for each pattern vertex.
fn visit_cost(q: &Problem, kinds: &PairKinds<'_>, p: u16, row: u64) -> u64
    requires problem { kinds.now.problem ≡ q.now }
    requires p_in { p < size q.now.pattern }
{
    let mut sum: u64 = 0;
    for r in 0..q.pattern().size() {
        if r == p {
            continue;
        }
        let cost = if kinds.is_free(p, r) { 1 } else { row };
        sum = sum.saturating_add(cost);
    }
    sum
}

/// Keeps the nogoods among the rows from a place on, in a table that is made where none is there.
fn take_into(
    alloc: Global,
    q: &Problem,
    rows: &[Row],
    from: usize,
    nogoods: &mut Option<Nogoods>,
) -> Result<(), AllocError>
    requires sound { Sound q.now rows.now }
    requires few { length rows.now < 2 ^ 32 }
    requires begun { from ≤ length rows.now }
    requires kept { AreKept q.now nogoods.old }
    requires holds { HoldsRows (take from rows.now) nogoods.old }
    ensures kept { AreKept q.now nogoods.new }
    ensures holds { OnOk result (HoldsRows rows.now nogoods.new) }
{
    if nogoods.is_none() {
        *nogoods = Some(Nogoods::new(alloc, q)?);
    }
    match nogoods {
        None => Ok(()),
        Some(table) => table.take_rows(q, rows, from),
    }
}
