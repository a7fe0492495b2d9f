//! Memory for looking at edges, and how much of the search may go into it.
//!
//! A look costs more than it saves on most problems, and on some it saves the whole search. So what it costs is counted against what the search
//! costs beside it: a twentieth of that, with an eighth of what the first run cost, and for each path of one guess that it refutes what such a path
//! costs otherwise. Before the first restart, and below the first guess, it does nothing. No contract speaks of any of this: what the
//! domains hold is sound however often somebody looks.

ghost use Rattle.std.specs.Prelude.{◌≡◌, ◌<◌, IfOk};
ghost use Rattle.graph_theory.specs.Graph.{size};
ghost use Rattle.propagation.specs.Edges.{IsRoomFor};

use crate::match_room::MatchRoom;
use bit_rows::words_for;
use graph_rows::Problem;
use std::alloc::{AllocError, Global};
use std::marker::Model;

/// A size that no domain has: nobody has looked at the vertex.
const NOT_SEEN: u16 = 65535;

/// What a visit costs beside the pairs of its vertex.
const VISIT: u64 = 20;

/// Rows to work in, how large each domain was when its edges were last looked at, on the present path and at the root, and the counts of steps.
pub(crate) struct EdgeRoom {
    pub(crate) union: Vec<u64>,
    pub(crate) wanted: Vec<u64>,
    pub(crate) gone: Vec<u64>,
    seen: Vec<u16>,
    root: Vec<u16>,
    /// What a pair of pattern vertices costs a visit of one of them, in sixteenths of a step.
    pair: u64,
    /// What looking at edges has cost.
    pub(crate) spent: u64,
    /// What else the search has cost.
    steps: u64,
    /// That up to the first restart.
    first: u64,
    /// What paths that were refuted would have cost.
    gains: u64,
    /// Whether a run has begun, and whether another has after it.
    begun: bool,
    on: bool,
    /// How many guesses stood when the last was made, and how many vertices were not past then.
    depth: usize,
    members: usize,
    /// The steps at the last first guess, whether its path is still searched, and whether edges were looked at since.
    entered: u64,
    open: bool,
    looked: bool,
    /// What paths of one guess have cost where they were not, and how many there were.
    below: u64,
    paths: u64,
    /// Memory for matching neighbourhoods.
    pub(crate) matching: MatchRoom,
}

impl Drop for EdgeRoom {
    /// In one call, for whoever lets one go.
    fn drop(self) {
        let EdgeRoom {
            union: _,
            wanted: _,
            gone: _,
            seen: _,
            root: _,
            pair: _,
            spent: _,
            steps: _,
            first: _,
            gains: _,
            begun: _,
            on: _,
            depth: _,
            members: _,
            entered: _,
            open: _,
            looked: _,
            below: _,
            paths: _,
            matching: _,
        } = self;
    }
}

impl Model for EdgeRoom {
    ghost use Rattle.std.specs.Prelude.{◌≡◌, length};
    ghost use Rattle.propagation.specs.Edges.{RoomSize};

    ghost Value = { RoomSize };

    ghost view = { λ r. record { vertices = length r.seen.items; words = length r.union.items } };

    ghost invariant = { λ r. (length r.wanted.items ≡ length r.union.items)
        × (length r.gone.items ≡ length r.union.items)
        × (length r.root.items ≡ length r.seen.items)
        × (r.matching.vertices ≡ length r.seen.items)
        × (r.matching.words ≡ length r.union.items) };
}

impl EdgeRoom {
    /// Room for this problem, a pair of whose vertices costs a visit so many sixteenths of a step. Cost: one step for each word of a row and for
    /// each pattern vertex.
    pub(crate) fn new(alloc: Global, q: &Problem, pair: u64) -> Result<EdgeRoom, AllocError>
        ensures { IfOk result (IsRoomFor q.now) }
    {
        let words = words_for(usize::from(q.target().size()));
        let vertices = usize::from(q.pattern().size());
        let union = vec![in alloc; 0u64; words]?;
        let wanted = vec![in alloc; 0u64; words]?;
        let gone = vec![in alloc; 0u64; words]?;
        let seen = vec![in alloc; NOT_SEEN; vertices]?;
        let root = vec![in alloc; NOT_SEEN; vertices]?;
        let matching = MatchRoom::new(alloc, q)?;
        Ok(EdgeRoom {
            union,
            wanted,
            gone,
            seen,
            root,
            pair,
            spent: 0,
            steps: 0,
            first: 0,
            gains: 0,
            begun: false,
            on: false,
            depth: 0,
            members: 0,
            entered: 0,
            open: false,
            looked: false,
            below: 0,
            paths: 0,
            matching,
        })
    }

    /// How many steps may go into edges now. Cost: a few steps.
    pub(crate) fn left(&self) -> u64 {
        if !self.on || self.depth > 1 {
            return 0;
        }
        let have = (self.steps / 20)
            .saturating_add(self.first / 8)
            .saturating_add(self.gains);
        have.saturating_sub(self.spent)
    }

    /// Gives matching its credit: at the root a fortieth of what the search has cost, with an eighth of what the first run did. Cost: a few steps.
    pub(crate) fn allow_matching(&mut self)
        ensures { self.new ≡ self.old }
    {
        self.matching.most = if self.on && self.depth == 0 {
            (self.steps / 40).saturating_add(self.first / 8)
        } else {
            0
        };
    }

    /// Whether the edges of `p` are to be looked at, its domain being of this size; then it is the size at the last look. Cost: a few steps.
    pub(crate) fn is_due(&mut self, p: u16, size: u16) -> bool
        requires { p < self.old.vertices }
        ensures { self.new ≡ self.old }
    {
        if self.seen[usize::from(p)] == size || self.left() == 0 {
            return false;
        }
        self.seen[usize::from(p)] = size;
        self.looked = true;
        true
    }

    /// After the last guess so many vertices are not past, and it was refuted or not: what this cost is counted, a visit of each vertex that became past,
    /// and one more. Where the guess was the first and edges were looked at, a refutation saves what such a path costs otherwise. Cost: a few steps.
    pub(crate) fn count(&mut self, left: usize, refuted: bool)
        ensures { self.new ≡ self.old }
    {
        let past = self.members.saturating_sub(left) as u64;
        let visits = past.saturating_add(1);
        self.steps = self
            .steps
            .saturating_add(visits.saturating_mul(self.visit(left)));
        if refuted {
            self.gain();
        }
    }

    /// What a visit costs while so many vertices are not past. Cost: a few steps.
    fn visit(&self, left: usize) -> u64 {
        ((left as u64).saturating_mul(self.pair) / 16).saturating_add(VISIT)
    }

    /// A run begins at the root. Cost: one step for each pattern vertex.
    pub(crate) fn begin_run(&mut self)
        ensures { self.new ≡ self.old }
    {
        self.leave();
        self.depth = 0;
        if !self.begun {
            self.begun = true;
            return;
        }
        if !self.on {
            self.on = true;
            self.first = self.steps;
        }
        self.seen.copy_from_slice(&self.root);
    }

    /// Edges were looked at: where that was at the root, what was seen of it is kept for the paths of the run. Cost: one step for each pattern
    /// vertex at the root, and else one.
    pub(crate) fn keep_root(&mut self)
        ensures { self.new ≡ self.old }
    {
        if self.depth != 0 {
            return;
        }
        self.root.copy_from_slice(&self.seen);
    }

    /// So many guesses stand, the last of them new, and so many vertices are not past. Cost: one step for the first guess for each pattern vertex, and
    /// else one.
    pub(crate) fn enter(&mut self, depth: usize, members: usize)
        ensures { self.new ≡ self.old }
    {
        self.depth = depth;
        self.members = members;
        if depth != 1 {
            return;
        }
        self.leave();
        self.entered = self.steps;
        self.open = true;
        self.looked = false;
        if self.on {
            self.seen.copy_from_slice(&self.root);
        }
    }

    /// The last path of one guess is searched no more: what it has cost counts where edges were not looked at on it. Cost: a few steps.
    fn leave(&mut self)
        ensures { self.new ≡ self.old }
    {
        if !self.open {
            return;
        }
        self.open = false;
        if self.looked {
            return;
        }
        self.below = self
            .below
            .saturating_add(self.steps.saturating_sub(self.entered));
        self.paths = self.paths.saturating_add(1);
        if self.paths >= 128 {
            self.below /= 2;
            self.paths /= 2;
        }
    }

    /// The last guess was refuted at once. Cost: a few steps.
    fn gain(&mut self)
        ensures { self.new ≡ self.old }
    {
        if self.depth != 1 {
            return;
        }
        self.open = false;
        if self.looked && self.paths != 0 {
            self.gains = self.gains.saturating_add(self.below / self.paths);
        }
    }
}
