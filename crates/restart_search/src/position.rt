//! Where a search stands: its domains, the vertices that are not past, its account, and the moments to go back to.
//!
//! A guess puts the present moment on the list of marks, and a failed guess takes the last one off it again, so that the domains and the
//! vertices that are not past are those of the level above. The root has a moment of its own, which a restart goes back to.

ghost use Rattle.std.specs.Prelude.{◌≡◌, ◌<◌, ◌≤◌, length, Option, vec_capacity};
ghost use Rattle.graph_theory.specs.Path.{Dead};
ghost use Rattle.nogood_watch.specs.Nogoods as watched;
ghost use Rattle.search_theory.specs.Account.{path, FailsTo, restarted};
ghost use Rattle.search_theory.specs.Bounds.{cutoff};
ghost use Rattle.search_theory.specs.Remaining.{remaining};
ghost use Rattle.restart_search.specs.Positions.{Acts, ActedBefore, IsBased, IsSound, StandsAtRoot, ToldAt};
ghost use Rattle.restart_search.specs.Searching.{IsNow};

use domain_bits::{Domains, Mark, Trail};
use fail_account::Account;
use graph_rows::Problem;
use propagation::Filters;
use recorder::Recorder;
use sparse_set::SparseSet;

/// A moment of a search: how much had been removed from the domains, and how many vertices were past.
#[derive(Clone, Copy)]
pub struct Moment {
    /// The mark of the domains.
    pub domains: Mark,
    /// The mark of the set of the vertices that are not past.
    pub past: usize,
}

/// Where a search stands, and who is told of it.
#[derive(Drop)]
pub(crate) struct Position<T: Trail, R: Recorder> {
    /// What each vertex may still map to, with all that has left since the first domains.
    pub domains: Domains<T>,
    /// The vertices that are not past.
    pub undecided: SparseSet,
    /// The path, what each level has refuted, and the counts of fails.
    pub account: Account,
    /// For each level of the path the moment of its guess, with room for one of each pattern vertex.
    pub marks: Vec<Moment>,
    /// The moment after the last propagation at the root.
    pub root: Moment,
    /// Who is told of each change of the domains.
    pub told: R,
}

/// What consequences are taken with.
#[derive(Drop)]
pub(crate) struct Propagator<'a> {
    /// The rows of consistent values, the nogoods that are kept, and scratch.
    pub filters: Filters<'a>,
    /// For each pattern vertex whether its consequences have still to be taken.
    pub waiting: Vec<bool>,
}

/// The present moment. Cost: one step.
pub(crate) fn present<T: Trail>(d: &Domains<T>, undecided: &SparseSet) -> Moment
    ensures { IsNow d.now undecided.now result }
{
    Moment {
        domains: d.mark(),
        past: undecided.mark(),
    }
}

impl<T: Trail, R: Recorder> Position<T, R> {
    /// Refutes the last guess, and takes back what followed from it. Cost: what had been removed since.
    pub(crate) fn take_back(&mut self, q: &Problem)
        requires based { IsBased q.now self.old }
        requires some { 0 < length (path self.old.account) }
        requires dead { Dead q.now (path self.old.account) }
        ensures sound { IsSound q.now self.new }
        ensures acting { (nogoods : Option watched.State) → ActedBefore nogoods self.old
            → Acts nogoods self.new }
        ensures told { (nogoods : Option watched.State)
            → ToldAt q.now nogoods self.old (R.changes self.old.told)
            → ToldAt q.now nogoods self.new (R.changes self.new.told) }
        ensures failed { FailsTo self.old.account self.new.account }
        ensures nearer { remaining self.new.account < remaining self.old.account }
        ensures budget { self.new.account.budget ≡ self.old.account.budget }
        ensures run { self.new.account.run ≡ self.old.account.run }
        ensures root { self.new.root ≡ self.old.root }
        ensures room { vec_capacity self.old.marks ≤ vec_capacity self.new.marks }
    {
        self.account.fail(q);
        match self.marks.pop() {
            None => (),
            Some(moment) => {
                let mark = moment.domains;
                self.domains.undo_to(mark);
                self.undecided.undo_to(moment.past);
                self.told.forget_to(mark);
            }
        }
    }

    /// Goes back to the root, and begins the next run. Cost: what had been removed since the root.
    pub(crate) fn restart(&mut self, q: &Problem)
        requires sound { IsSound q.now self.old }
        requires due { self.old.account.count ≡ cutoff self.old.account.run }
        ensures at_root { StandsAtRoot q.now self.new }
        ensures restarted { self.new.account ≡ restarted self.old.account }
        ensures told { (nogoods : Option watched.State)
            → ToldAt q.now nogoods self.old (R.changes self.old.told)
            → ToldAt q.now nogoods self.new (R.changes self.new.told) }
        ensures nearer { remaining self.new.account < remaining self.old.account }
        ensures root { self.new.root ≡ self.old.root }
        ensures room { vec_capacity self.old.marks ≤ vec_capacity self.new.marks }
    {
        self.account.restart(q);
        self.marks.clear();
        let mark = self.root.domains;
        self.domains.undo_to(mark);
        self.undecided.undo_to(self.root.past);
        self.told.forget_to(mark);
    }
}
