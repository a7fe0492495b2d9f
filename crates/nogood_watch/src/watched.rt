//! The nogoods that are kept, with their watches.

ghost use Rattle.std.specs.Prelude.{◌≡◌, ℕ, ◌+◌, ◌*◌, ◌<◌, ◌≤◌, [], ◌∷◌, ◌++◌, length, IfOk, OnOk, OnErr, vec_capacity};
ghost use Rattle.domain_bits.specs.Changes.{Single};
ghost use Rattle.nogood_watch.specs.Inside.{cell};
ghost use Rattle.nogood_watch.specs.Lists.{Chained, moved, no_watch};
ghost use Rattle.nogood_watch.specs.Nogoods.{added, empty, AreLiterals, AreWatches};
ghost use Rattle.nogood_watch.specs.Watching.{AllFollow, Answers, GuardsAll, KeepsOthers, MovesToFree, Visits};

use crate::lists::{END, link};
use crate::thinning::{Nogoods, count_live};
use crate::walk::{NogoodList, answer_of, cell_of, walk};
use domain_bits::{Domains, Trail};
use std::alloc::{AllocError, Global};
use std::marker::Model;

/// So many nogoods more have to be there, at least, before it is looked which are overtaken.
const LEAST: usize = 1024;

/// What a call of `on_assign` found.
#[derive(Clone, Copy, PartialEq, Eq, Debug)]
pub enum WatchAnswer {
    /// Nothing is forced.
    Quiet,
    /// Some pairs are forced.
    Forced,
    /// All literals of the nogood of this name are assigned.
    Fail(u32),
}

/// Where the literals of a nogood stand, and its name. Twelve bytes, since a walk reads one for each watch that it meets, and on long
/// refutations from memory far away.
#[derive(Drop)]
pub(crate) struct Entry {
    pub(crate) start: u32,
    pub(crate) end: u32,
    pub(crate) name: u32,
}

/// Nogoods with their watches.
///
/// The literals of all nogoods stand one after the other. Watches 2 i and 2 i + 1 are those of nogood i. There is a list of watches for
/// each literal, at `vertex * values + value` of `heads`, and after these one of the watches that a walk has yet to visit. The watches of
/// a nogood that is not live are in no list: a live one is watched for it, whose literals all lie in its own. From outside its watches
/// are seen as those of this one. Once so many entries are there as `due` says, it is time to look which are overtaken.
pub struct Watched {
    vertices: u16,
    values: u16,
    literals: Vec<(u16, u16)>,
    entries: Vec<Entry>,
    live: Vec<bool>,
    watches: Vec<(u16, u16)>,
    heads: Vec<u32>,
    next: Vec<u32>,
    units: Vec<(u16, u16, u32)>,
    forced: Vec<(u16, u16, u32)>,
    due: usize,
}

impl Drop for Watched {
    /// In one call, for whoever lets one go.
    fn drop(self) {
        let Watched {
            vertices: _,
            values: _,
            literals: _,
            entries: _,
            live: _,
            watches: _,
            heads: _,
            next: _,
            units: _,
            forced: _,
            due: _,
        } = self;
    }
}

impl Model for Watched {
    ghost use Rattle.std.specs.Prelude.{vec_capacity};
    ghost use Rattle.nogood_watch.specs.Nogoods.{State};
    ghost use Rattle.nogood_watch.specs.Inside.{Kept, nogoods_of, watches_of};

    ghost Value = { State };

    ghost view = { λ s. record {
      vertices = s.vertices;
      values = s.values;
      nogoods = nogoods_of s.literals.items s.entries.items;
      watches = watches_of s.literals.items s.entries.items s.live.items s.watches.items;
      units = s.units.items;
      forced = s.forced.items;
    } };

    ghost invariant = { λ s. Kept s.vertices s.values s.literals.items s.entries.items
        s.live.items s.watches.items s.heads.items s.next.items (vec_capacity s.forced) };
}

impl Watched {
    /// No nogoods, for domains of these sizes. Cost: one step and four bytes for each vertex and value.
    pub fn new(alloc: Global, vertices: u16, values: u16) -> Result<Watched, AllocError>
        ensures { IfOk result (λ s. s ≡ empty vertices values) }
    {
        let lists = usize::from(vertices) * usize::from(values) + 1;
        let heads = vec![in alloc; END; lists]?;
        Ok(Watched {
            vertices,
            values,
            literals: Vec::new(alloc),
            entries: Vec::new(alloc),
            live: Vec::new(alloc),
            watches: Vec::new(alloc),
            heads,
            next: Vec::new(alloc),
            units: Vec::new(alloc),
            forced: Vec::new(alloc),
            due: LEAST,
        })
    }

    /// Keeps a nogood more. One literal is a unit; of more the first two are watched. Past 2^31 - 1 nogoods, or 2^32 - 1 literals of all
    /// together, the answer is want of memory. Cost: one step for each literal, and on average for each nogood, since all parts grow by
    /// doubling.
    pub fn add(&mut self, literals: &[(u16, u16)], name: u32) -> Result<(), AllocError>
        requires some { 0 < length literals.now }
        requires are { AreLiterals self.old.vertices self.old.values literals.now }
        ensures ok { OnOk result (self.new ≡ added self.old literals.now name) }
        ensures err { OnErr result (self.new ≡ self.old) }
        ensures watches { AreWatches self.new.nogoods self.new.watches }
    {
        if literals.len() == 1 {
            self.units.push((literals[0].0, literals[0].1, name))?;
            return Ok(());
        }
        let (start, end) = span(self.literals.len(), literals.len())?;
        make_room(
            &mut self.entries,
            &mut self.live,
            &mut self.watches,
            &mut self.next,
            &mut self.forced,
        )?;
        self.literals.extend_from_slice(literals)?;
        self.entries.push_reserved(Entry { start, end, name });
        self.live.push_reserved(true);
        put_watch(
            self.values,
            &mut self.watches,
            &mut self.heads,
            &mut self.next,
            literals[0],
        );
        put_watch(
            self.values,
            &mut self.watches,
            &mut self.heads,
            &mut self.next,
            literals[1],
        );
        Ok(())
    }

    /// Looks at the nogoods that are watched at `p` and `t`, once `t` is all of the domain of `p`. The watch then is at a literal that is
    /// not assigned, or still at `p` and `t`, and then the nogood's other watch has left its domain or is forced. No other watch moves.
    /// Where a forced pair is assigned itself, the answer is `Fail` with the nogood's name.
    ///
    /// Cost: one step, and for each such nogood at most two looks at each of its literals. Nothing is allocated.
    pub fn on_assign<T: Trail>(&mut self, d: &Domains<T>, p: u16, t: u16) -> WatchAnswer
        requires vertices { d.now.vertices ≡ self.old.vertices }
        requires values { d.now.values ≡ self.old.values }
        requires p_in { p < self.old.vertices }
        requires assigned { Single d.now p t }
        ensures guarded { GuardsAll d.now self.old self.new (p, t) }
        ensures others { KeepsOthers self.old self.new (p, t) }
        ensures moves { MovesToFree d.now self.old.watches self.new.watches }
        ensures forced { AllFollow d.now self.old self.new (p, t) }
        ensures answer { Answers result d.now self.new }
        ensures watches { AreWatches self.new.nogoods self.new.watches }
        ensures nogoods { self.new.nogoods ≡ self.old.nogoods }
        ensures units { self.new.units ≡ self.old.units }
        ensures new_vertices { self.new.vertices ≡ self.old.vertices }
        ensures new_values { self.new.values ≡ self.old.values }
    {
        self.forced.clear();
        if self.heads[cell_of(self.values, (p, t))] == END {
            return WatchAnswer::Quiet;
        }
        self.visit_watched(d, p, t)
    }

    /// Visits the nogoods that are watched at `p` and `t`, where nothing is forced yet. It stays a call, so that `on_assign` saves no registers
    /// where no nogood is watched there, as in three of four calls. Cost: that of the visits.
    #[inline(never)]
    fn visit_watched<T: Trail>(&mut self, d: &Domains<T>, p: u16, t: u16) -> WatchAnswer
        requires vertices { d.now.vertices ≡ self.old.vertices }
        requires values { d.now.values ≡ self.old.values }
        requires p_in { p < self.old.vertices }
        requires assigned { Single d.now p t }
        requires none { self.old.forced ≡ [] }
        ensures { Visits d.now self.old self.new (p, t) result }
    {
        let nogoods = NogoodList {
            literals: &self.literals,
            entries: &self.entries,
            live: &self.live,
        };
        walk(
            d,
            &nogoods,
            &mut self.watches,
            &mut self.heads,
            &mut self.next,
            &mut self.forced,
            (p, t),
        );
        answer_of(d, &self.forced)
    }

    /// Lets the watches of the nogoods go in which the literals of a shorter one lie, or the same ones, where this is due: where 1,024 more
    /// have come since the last time, a sixteenth of all, and as many as it left. What is forced is the same without them. They are still
    /// kept: what is seen as their watches are those of the shorter one.
    ///
    /// Cost: one step where it is not due; else one for each nogood and each length, and for each literal of a live one that of holding it
    /// against up to 16 shorter ones whose last literal this is. Nothing is allocated.
    pub fn thin(&mut self)
        ensures nogoods { self.new.nogoods ≡ self.old.nogoods }
        ensures units { self.new.units ≡ self.old.units }
        ensures forced { self.new.forced ≡ self.old.forced }
        ensures new_vertices { self.new.vertices ≡ self.old.vertices }
        ensures new_values { self.new.values ≡ self.old.values }
        ensures watches { AreWatches self.new.nogoods self.new.watches }
    {
        if self.entries.len() < self.due {
            return;
        }
        self.thin_now();
        let all = self.entries.len();
        let more = until_next(all, count_live(&self.live));
        self.due = all.saturating_add(more);
    }

    /// The same, whether it is due or not.
    fn thin_now(&mut self)
        ensures nogoods { self.new.nogoods ≡ self.old.nogoods }
        ensures units { self.new.units ≡ self.old.units }
        ensures forced { self.new.forced ≡ self.old.forced }
        ensures new_vertices { self.new.vertices ≡ self.old.vertices }
        ensures new_values { self.new.values ≡ self.old.values }
        ensures watches { AreWatches self.new.nogoods self.new.watches }
    {
        let nogoods = Nogoods {
            values: self.values,
            literals: &self.literals,
            entries: &self.entries,
        };
        nogoods.thin(
            &self.watches,
            &mut self.live,
            &mut self.heads,
            &mut self.next,
        );
    }

    /// What the last `on_assign` forced: a vertex, a value to take from its domain, and the name of a nogood all of whose other literals
    /// are assigned. Nothing before the first.
    pub fn forced(&self) -> &[(u16, u16, u32)]
        ensures { result.now ≡ self.now.forced }
    {
        &self.forced
    }

    /// The nogoods of one literal: its vertex, its value and the nogood's name, in the order of adding.
    pub fn units(&self) -> &[(u16, u16, u32)]
        ensures { result.now ≡ self.now.units }
    {
        &self.units
    }
}

/// How many nogoods more make it worth while to look again which of `all` are overtaken, where so many are left. A sixteenth of all at
/// least, so that the cost grows with the nogoods and not with their square.
fn until_next(all: usize, left: usize) -> usize {
    left.max(all / 16).max(LEAST)
}

/// Where so many literals more start and end, or want of memory where the numbers of places are used up.
fn span(start: usize, more: usize) -> Result<(u32, u32), AllocError>
    ensures start { IfOk result (λ r. r.0 ≡ start) }
    ensures end { IfOk result (λ r. r.1 ≡ start + more) }
    ensures used_up { OnErr result (4294967295 < start + more) }
{
    let most = u32::MAX as usize;
    if start > most || more > most - start {
        return Err(AllocError);
    }
    Ok((start as u32, (start + more) as u32))
}

/// Makes the room for a nogood more, or answers want of memory, also where the numbers of watches are used up.
fn make_room(
    entries: &mut Vec<Entry>,
    live: &mut Vec<bool>,
    watches: &mut Vec<(u16, u16)>,
    next: &mut Vec<u32>,
    forced: &mut Vec<(u16, u16, u32)>,
) -> Result<(), AllocError>
    ensures entries { entries.new.items ≡ entries.old.items }
    ensures live { live.new.items ≡ live.old.items }
    ensures watches { watches.new.items ≡ watches.old.items }
    ensures next { next.new.items ≡ next.old.items }
    ensures forced { forced.new.items ≡ forced.old.items }
    ensures kept_room { vec_capacity forced.old ≤ vec_capacity forced.new }
    ensures few { OnOk result (length next.old.items + 2 ≤ no_watch) }
    ensures entries_room { OnOk result (length entries.old.items + 1 ≤ vec_capacity entries.new) }
    ensures live_room { OnOk result (length live.old.items + 1 ≤ vec_capacity live.new) }
    ensures watches_room { OnOk result (length watches.old.items + 2 ≤ vec_capacity watches.new) }
    ensures next_room { OnOk result (length next.old.items + 2 ≤ vec_capacity next.new) }
    ensures forced_room { OnOk result (length entries.old.items + 1 ≤ vec_capacity forced.new) }
{
    if next.len() > END as usize - 2 {
        return Err(AllocError);
    }
    let nogoods = entries.len();
    entries.reserve(1)?;
    live.reserve(1)?;
    watches.reserve(2)?;
    next.reserve(2)?;
    forced.reserve((nogoods + 1).saturating_sub(forced.len()))
}

/// Puts a watch more in front of the list of its literal. Cost: one step.
fn put_watch(
    values: u16,
    watches: &mut Vec<(u16, u16)>,
    heads: &mut [u32],
    next: &mut Vec<u32>,
    literal: (u16, u16),
)
    requires few { length next.old.items + 1 ≤ no_watch }
    requires in_range { cell values literal < length heads.old }
    requires watches_room { length watches.old.items < vec_capacity watches.old }
    requires next_room { length next.old.items < vec_capacity next.old }
    ensures watches { watches.new.items ≡ watches.old.items ++ literal ∷ [] }
    ensures chained { (home : ℕ → ℕ) → Chained home heads.old next.old.items
        → Chained (moved home (length next.old.items) (cell values literal)) heads.new
        next.new.items }
    ensures next_long { length next.new.items ≡ length next.old.items + 1 }
    ensures heads_long { length heads.new ≡ length heads.old }
    ensures watches_capacity { vec_capacity watches.new ≡ vec_capacity watches.old }
    ensures next_capacity { vec_capacity next.new ≡ vec_capacity next.old }
{
    let x = next.len() as u32;
    watches.push_reserved(literal);
    next.push_reserved(END);
    link(heads, next, cell_of(values, literal), x);
}
