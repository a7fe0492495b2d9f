//! Where a search stands, and how often it failed.

ghost use Rattle.std.specs.Prelude.{◌≡◌, ℕ, ◌+◌, ◌-◌, ◌*◌, ◌^◌, ◌<◌, ◌≤◌, ◌&&◌, ◌↔◌, false, nat_lt, if◌then◌else◌, length, IsTrue, IfOk, IfSome};
ghost use Rattle.graph_theory.specs.Graph.{size};
ghost use Rattle.graph_theory.specs.Path.{NotOn, IsPath, Dead};
ghost use Rattle.bit_rows.specs.BitRows.{has, words_for};
ghost use Rattle.search_theory.specs.Bounds.{cutoff, enough};
ghost use Rattle.search_theory.specs.Account.{path, InRange, level_at, fresh, NotAmong, MayGuess, deepened, FailsTo, restarted, Honest};
ghost use Rattle.search_theory.specs.Remaining.{remaining};
ghost use Rattle.graph_theory.specs.Neighbours.{members};
ghost use Rattle.fail_account.specs.Held.{vertex_at};

use crate::cutoffs::luby;
use crate::rows::{clear_words, is_marked, refute};
use bit_rows::words_for;
use graph_rows::Problem;
use std::alloc::{AllocError, Global};
use std::marker::Model;

/// How many fails the shortest run may take; run `i` may take this many times term `i` of the Luby sequence.
const FAILS_PER_TERM: u64 = 128;

/// Where a search stands: a path of guesses, at each of its levels and at the one after it the values that are refuted
/// there, and the counts of its fails. It keeps nothing of its problem but the sizes.
pub struct Account {
    /// The pattern's size.
    pattern: u16,
    /// The target's size.
    target: u16,
    /// How many fails all runs together may take.
    budget: u64,
    /// The guesses, the first one first.
    path: Vec<(u16, u16)>,
    /// The rows of refuted values, one for each level of a path and one more; those after the open level are empty.
    words: Vec<u64>,
    /// How many words a row has.
    width: usize,
    /// The vertex of the level after the path.
    vertex: Option<u16>,
    /// The fails of this run.
    count: u64,
    /// The number of this run, from 1.
    run: u64,
    /// The fails of all runs.
    all: u64,
    /// The cutoff of this run.
    limit: u64,
}

impl Drop for Account {
    /// In one call, for whoever lets one go.
    fn drop(self) {
        let Account {
            pattern: _,
            target: _,
            budget: _,
            path: _,
            words: _,
            width: _,
            vertex: _,
            count: _,
            run: _,
            all: _,
            limit: _,
        } = self;
    }
}

impl Model for Account {
    ghost use Rattle.std.specs.Prelude.{vec_capacity};
    ghost use Rattle.search_theory.specs.Account.{Account as TheAccount};
    ghost use Rattle.fail_account.specs.Held.{held, Kept};

    ghost Value = { TheAccount };

    ghost view = { λ a. held a.pattern a.target a.budget a.path.items a.words.items a.width
        a.vertex a.count a.run a.all };

    ghost invariant = { λ a. Kept a.pattern a.target a.budget a.path.items a.words.items a.width
        a.vertex a.count a.run a.all a.limit (vec_capacity a.path) };
}

impl Account {
    /// The account of a search that has not begun. It reserves a level for each pattern vertex, each with a row.
    pub fn new(alloc: Global, q: &Problem, budget: u64) -> Result<Account, AllocError>
        requires { budget < 2 ^ 63 }
        ensures fresh { IfOk result
            (λ a. a ≡ fresh (size q.now.pattern) (size q.now.target) budget) }
        ensures honest { IfOk result (λ a. Honest q.now a) }
    {
        let pattern = q.pattern().size();
        let target = q.target().size();
        let width = words_for(usize::from(target));
        let path = Vec::with_capacity(alloc, usize::from(pattern))?;
        let words = vec![in alloc; 0u64; (usize::from(pattern) + 1) * width]?;
        Ok(Account {
            pattern,
            target,
            budget,
            path,
            words,
            width,
            vertex: None,
            count: 0,
            run: 1,
            all: 0,
            limit: FAILS_PER_TERM,
        })
    }

    /// The guesses, the first one first.
    pub fn path(&self) -> &[(u16, u16)]
        ensures is { result.now ≡ path self.now }
        ensures vertices { IsPath (path self.now) }
        ensures in_range { InRange self.now.pattern self.now.target (path self.now) }
    {
        &self.path
    }

    /// The vertex of the level after the path, if it has one.
    pub fn vertex(&self) -> Option<u16>
        ensures is { result ≡ self.now.vertex }
        ensures off_path { IfSome result (λ p. (p < self.now.pattern) × NotOn (path self.now) p) }
    {
        self.vertex
    }

    /// Level `i`, from 0: its vertex, if it has one, and the row of its refuted values. The level after the path is the
    /// one that is open; those after it have no vertex and an empty row.
    pub fn level(&self, i: u16) -> (Option<u16>, &[u64])
        requires { i < self.now.pattern }
        ensures vertex { result.0 ≡ (level_at self.now i).vertex }
        ensures long { length result.1.now ≡ words_for self.now.target }
        ensures refuted { members (has result.1.now) self.now.target
            ≡ (level_at self.now i).refuted }
        ensures others { (t : ℕ) → self.now.target ≤ t → has result.1.now t ≡ false }
    {
        let place = usize::from(i);
        let from = place * self.width;
        (
            level_vertex(&self.path, self.vertex, place),
            &self.words[from..from + self.width],
        )
    }

    /// Whether the value is refuted at the level after the path. Cost: one word.
    pub fn is_refuted(&self, t: u16) -> bool
        requires { t < self.now.target }
        ensures { (result ≡ false) ↔ NotAmong self.now.refuted t }
    {
        is_marked(&self.words, self.width, self.path.len(), usize::from(t))
    }

    /// Whether the fails of all runs equal the budget, which then is not enough.
    pub fn spent(&self) -> bool
        ensures exactly { IsTrue result ↔ (self.now.all ≡ self.now.budget) }
        ensures not_enough { IsTrue result
            → self.now.budget < enough self.now.pattern self.now.target }
        ensures within { self.now.all ≤ self.now.budget }
    {
        self.all == self.budget
    }

    /// Whether the fails of this run equal its cutoff.
    pub fn at_cutoff(&self) -> bool
        ensures exactly { IsTrue result ↔ (self.now.count ≡ cutoff self.now.run) }
        ensures within { self.now.count ≤ cutoff self.now.run }
    {
        self.count == self.limit
    }

    /// The fails of all runs.
    pub fn fails(&self) -> u64
        ensures { result ≡ self.now.all }
    {
        self.all
    }

    /// The number of this run, from 1.
    pub fn run_number(&self) -> u64
        ensures { result ≡ self.now.run }
    {
        self.run
    }

    /// Takes the guess of `t` for `p`. Cost: constant.
    pub fn deepen(&mut self, q: &Problem, p: u16, t: u16)
        requires honest { Honest q.now self.old }
        requires unspent { self.old.all < self.old.budget }
        requires before_cutoff { self.old.count < cutoff self.old.run }
        requires may_guess { MayGuess q.now self.old p t }
        ensures deepened { self.new ≡ deepened self.old p t }
        ensures few { length (path self.old) < self.old.pattern }
        ensures honest { Honest q.now self.new }
        ensures nearer { remaining self.new < remaining self.old }
    {
        self.path.push_reserved((p, t));
        self.vertex = None; // the level after the new one is empty
    }

    /// Refutes the last guess, and takes it back. Cost: the words of one row.
    pub fn fail(&mut self, q: &Problem)
        requires honest { Honest q.now self.old }
        requires some { 0 < length (path self.old) }
        requires dead { Dead q.now (path self.old) }
        ensures failed { FailsTo self.old self.new }
        ensures honest { Honest q.now self.new }
        ensures nearer { remaining self.new < remaining self.old }
    {
        let last = self.path.len() - 1;
        let (vertex, value) = self.path[last];
        self.path.truncate(last);
        self.vertex = Some(vertex);
        let (count, all) = counted(self.count, self.all, self.limit, self.budget);
        self.count = count;
        self.all = all;
        refute(&mut self.words, self.width, last, usize::from(value));
    }

    /// Empties the position, and begins the next run. Cost: the words of the levels that were in use.
    pub fn restart(&mut self, q: &Problem)
        requires honest { Honest q.now self.old }
        requires due { self.old.count ≡ cutoff self.old.run }
        ensures restarted { self.new ≡ restarted self.old }
        ensures honest { Honest q.now self.new }
        ensures nearer { remaining self.new < remaining self.old }
    {
        let used = (self.path.len() + 1) * self.width;
        self.path.clear();
        self.vertex = None;
        self.count = 0;
        self.run += 1;
        self.limit = FAILS_PER_TERM * luby(self.run);
        clear_words(&mut self.words, 0, used);
    }
}

/// The vertex of level `i` of a path that is followed by a level of this vertex.
fn level_vertex(path: &[(u16, u16)], after: Option<u16>, i: usize) -> Option<u16>
    ensures { result ≡ vertex_at path.now after i }
{
    if i < path.len() {
        return Some(path[i].0);
    }
    if i == path.len() {
        return after;
    }
    None
}

/// The two counts after one more fail: where one of them stands at its bound both stay.
fn counted(count: u64, all: u64, limit: u64, budget: u64) -> (u64, u64)
    ensures run { result.0
        ≡ (if nat_lt count limit && nat_lt all budget then count + 1 else count) }
    ensures all { result.1 ≡ (if nat_lt count limit && nat_lt all budget then all + 1 else all) }
{
    if count < limit && all < budget {
        (count + 1, all + 1)
    } else {
        (count, all)
    }
}
