//! The nogoods of a search. A run that is cut off leaves what its position has refuted: each refuted value is dead with the path above
//! its level, so these pairs are a list that no embedding has, and no later run walks there again. Such lists come as rows of a book,
//! from this search and from others over the same problem. A worker keeps them, and looks at them when a vertex is decided: where all
//! pairs of a list but one are decided, the last one leaves its domain. This is what Lecoutre, Sais, Tabary and Vidal (2007) record at
//! restarts.

ghost use Rattle.std.specs.Prelude.{◌≡◌, ℕ, ◌+◌, ◌*◌, ◌^◌, ◌<◌, ◌≤◌, true, length, take, Option, Some, IfOk, IfErr, OnOk};
ghost use Rattle.std.specs.Result.{is_ok};
ghost use Rattle.graph_theory.specs.Graph.{size};
ghost use Rattle.graph_theory.specs.Embedding.{Problem as TheProblem};
ghost use Rattle.domain_bits.specs.Removals.{in_domain};
ghost use Rattle.search_theory.specs.Claims.{Single};
ghost use Rattle.nogood_watch.specs.Nogoods as watched;
ghost use Rattle.nogood_watch.specs.Nogoods.{empty, added};
ghost use Rattle.nogood_watch.specs.Watching.{forced_at};
ghost use Rattle.propagation.specs.Propagation.{HaveValues};
ghost use Rattle.nogood_book.specs.Rows.{Sound, path_at};
ghost use Rattle.nogood_book.specs.Places.{IsNogoodRow};
ghost use Rattle.recorder.specs.Recording.{NoNewGuess};
ghost use Rattle.recorder.specs.Telling.{IsOf, AreForbidden, Fails, IsEmptied, Tells};
ghost use Rattle.recorder.specs.Holding.{HoldsRows, KeepsSame};
ghost use Rattle.propagation.specs.Learning.{AreNogoods, IsUnused, Forces};
ghost use Rattle.propagation.specs.Acting.{Move, OutAfter, WaitAfter, WatchesWaitBut};

use crate::removal::take_by;
use domain_bits::{Domains, Trail};
use graph_rows::Problem;
use nogood_book::{Row, RowKind, push_path};
use nogood_watch::{WatchAnswer, Watched};
use pair_supports::PairSupports;
use recorder::{Cause, Failure, Recorder};
use smallvec::SmallVec;
use std::alloc::{AllocError, Global};
use std::marker::Model;

/// The nogoods that a search keeps, each named by the place of its row, and memory to put one together. Contracts see them with their
/// watches.
pub struct Nogoods {
    watched: Watched,
    literals: SmallVec<(u16, u16), 8>,
}

impl Drop for Nogoods {
    /// In one call, for whoever lets one go.
    fn drop(self) {
        let Nogoods {
            watched: _,
            literals: _,
        } = self;
    }
}

impl Model for Nogoods {
    ghost use Rattle.nogood_watch.specs.Nogoods.{State};

    ghost Value = { State };

    ghost view = { λ n. n.watched };
}

impl Nogoods {
    /// No nogoods. Cost: one step and four bytes for each pair of a pattern vertex and a target vertex.
    pub fn new(alloc: Global, q: &Problem) -> Result<Nogoods, AllocError>
        ensures { IfOk result (λ n. n ≡ empty (size q.now.pattern) (size q.now.target)) }
    {
        let watched = Watched::new(alloc, q.pattern().size(), q.target().size())?;
        Ok(Nogoods {
            watched,
            literals: SmallVec::new(alloc),
        })
    }

    /// Keeps the nogoods among the rows from a place on; those that a shorter one has overtaken are then watched no
    /// longer, where this is due. Where memory is refused, what was added so far stays. Cost: for each of them a row
    /// for each pair of its path, and that of `Watched::thin`.
    pub fn take_rows(&mut self, q: &Problem, rows: &[Row], from: usize) -> Result<(), AllocError>
        requires sound { Sound q.now rows.now }
        requires few { length rows.now < 2 ^ 32 }
        requires begun { from ≤ length rows.now }
        requires nogoods { AreNogoods q.now self.old }
        requires holds { HoldsRows (take from rows.now) (Some self.old) }
        ensures nogoods { AreNogoods q.now self.new }
        ensures holds { OnOk result (HoldsRows rows.now (Some self.new)) }
    {
        for k in from..rows.len() {
            self.take_row(q, rows, k as u32)?;
        }
        self.thin();
        Ok(())
    }

    /// Lets go the watches of nogoods that a shorter one has overtaken, where this is due. Cost: that of `Watched::thin`.
    fn thin(&mut self)
        ensures nogoods { (q : TheProblem) → AreNogoods q self.old → AreNogoods q self.new }
        ensures same { KeepsSame (Some self.old) (Some self.new) }
    {
        self.watched.thin();
    }

    /// Keeps row `k`, where it is a nogood.
    fn take_row(&mut self, q: &Problem, rows: &[Row], k: u32) -> Result<(), AllocError>
        requires sound { Sound q.now rows.now }
        requires inside { k < length rows.now }
        requires nogoods { AreNogoods q.now self.old }
        requires holds { HoldsRows (take k rows.now) (Some self.old) }
        ensures nogoods { AreNogoods q.now self.new }
        ensures holds { OnOk result (HoldsRows (take (k + 1) rows.now) (Some self.new)) }
    {
        match rows[k as usize].kind {
            RowKind::Step => Ok(()),
            RowKind::Nogood => self.keep(q, rows, k),
        }
    }

    /// Keeps the path of row `k`, under its place.
    fn keep(&mut self, q: &Problem, rows: &[Row], k: u32) -> Result<(), AllocError>
        requires sound { Sound q.now rows.now }
        requires inside { k < length rows.now }
        requires nogoods { AreNogoods q.now self.old }
        requires nogood { IsNogoodRow rows.now k }
        ensures nogoods { AreNogoods q.now self.new }
        ensures kept { OnOk result (self.new ≡ added self.old (path_at rows.now k) k) }
    {
        self.literals.clear();
        push_path(q, rows, k, &mut self.literals)?;
        self.watched.add(&self.literals, k)?;
        Ok(())
    }

    /// Looks at the nogoods that have `p` at `t`, where that is all of the domain of `p`, and takes out what they force; fails where a
    /// nogood is whole, or a domain becomes empty. Cost: that of `on_assign`, and one step for each pair that is forced.
    pub(crate) fn force<T: Trail, R: Recorder>(
        &mut self,
        rows: &PairSupports,
        d: &mut Domains<T>,
        waiting: &mut [bool],
        told: &mut R,
        p: u16,
        t: u16,
    ) -> Result<(), Failure>
        requires nogoods { AreNogoods rows.now.problem self.old }
        requires is_of { IsOf rows.now.problem d.old }
        requires long { length waiting.old ≡ size rows.now.problem.pattern }
        requires some { HaveValues rows.now.problem d.old }
        requires wait { WatchesWaitBut d.old waiting.old p self.old }
        requires p_in { p < size rows.now.problem.pattern }
        requires single { Single (in_domain d.old) p t }
        requires bounded { length d.old.removed ≤ d.old.vertices * d.old.values }
        ensures nogoods { AreNogoods rows.now.problem self.new }
        ensures forces { Forces (is_ok result) rows.now.problem d.old waiting.old
            d.new waiting.new }
        ensures fails { IfErr result (Fails rows.now.problem (Some self.new) d.new
            (R.changes told.new) (R.short told.new)) }
        ensures wait { WaitAfter (is_ok result) d.new waiting.new (Some self.new) }
        ensures moved { Move d.old self.old self.new }
        ensures told { Tells rows.now.problem (Some self.old) d.old (R.changes told.old)
            → Tells rows.now.problem (Some self.new) d.new (R.changes told.new) }
        ensures guesses { NoNewGuess (R.changes told.old) (R.changes told.new) }
    {
        match self.watched.on_assign(d, p, t) {
            WatchAnswer::Quiet => Ok(()),
            WatchAnswer::Fail(name) => Err(Failure::Whole(name)),
            WatchAnswer::Forced => take_out(rows, self.watched.forced(), d, waiting, told),
        }
    }

    /// Takes the nogoods of one pair out of the domains; fails where a domain becomes empty. Cost: one step for each.
    pub(crate) fn take_units<T: Trail, R: Recorder>(
        &self,
        rows: &PairSupports,
        d: &mut Domains<T>,
        waiting: &mut [bool],
        told: &mut R,
    ) -> Result<(), Failure>
        requires nogoods { AreNogoods rows.now.problem self.now }
        requires is_of { IsOf rows.now.problem d.old }
        requires long { length waiting.old ≡ size rows.now.problem.pattern }
        requires bounded { length d.old.removed ≤ d.old.vertices * d.old.values }
        ensures forces { Forces (is_ok result) rows.now.problem d.old waiting.old
            d.new waiting.new }
        ensures none { IfErr result (IsEmptied rows.now.problem d.new) }
        ensures out { OutAfter (is_ok result) d.new self.now.units }
        ensures told { Tells rows.now.problem (Some self.now) d.old (R.changes told.old)
            → Tells rows.now.problem (Some self.now) d.new (R.changes told.new) }
        ensures guesses { NoNewGuess (R.changes told.old) (R.changes told.new) }
    {
        take_out(rows, self.watched.units(), d, waiting, told)
    }
}

/// Takes pairs that no embedding has out of the domains, each as the nogood of its name asks. Where one value is left, its vertex waits;
/// where none is, this fails. Cost: one step for each.
fn take_out<T: Trail, R: Recorder>(
    rows: &PairSupports,
    pairs: &[(u16, u16, u32)],
    d: &mut Domains<T>,
    waiting: &mut [bool],
    told: &mut R,
) -> Result<(), Failure>
    requires is_of { IsOf rows.now.problem d.old }
    requires long { length waiting.old ≡ size rows.now.problem.pattern }
    requires bounded { length d.old.removed ≤ d.old.vertices * d.old.values }
    requires unused { (k : ℕ) → k < length pairs.now
        → IsUnused rows.now.problem d.old (forced_at pairs.now k) }
    ensures forces { Forces (is_ok result) rows.now.problem d.old waiting.old d.new waiting.new }
    ensures none { IfErr result (IsEmptied rows.now.problem d.new) }
    ensures out { OutAfter (is_ok result) d.new pairs.now }
    ensures told { (s : Option watched.State) → AreForbidden s d.old pairs.now
        → Tells rows.now.problem s d.old (R.changes told.old)
        → Tells rows.now.problem s d.new (R.changes told.new) }
    ensures guesses { NoNewGuess (R.changes told.old) (R.changes told.new) }
{
    for k in 0..pairs.len() {
        let (r, u, name) = pairs[k];
        if !take_by(d, waiting, told, r, u, Cause::Nogood(name)) {
            return Err(Failure::Empty(r));
        }
    }
    Ok(())
}
