//! What leaves along edges where counting finds nothing: values without support, and values beside which neighbours would be crowded. Either filter looks on
//! as far as its credit goes.

ghost use Rattle.std.specs.Prelude.{◌≡◌, ℕ, ◌*◌, ◌<◌, ◌≤◌, true, length, slice_index};
ghost use Rattle.graph_theory.specs.Graph.{size};
ghost use Rattle.graph_theory.specs.Embedding.{is_injective};
ghost use Rattle.domain_bits.specs.Removals.{in_domain};
ghost use Rattle.search_theory.specs.Claims.{Quiet};
ghost use Rattle.propagation.specs.Edges.{IsRoomFor};
ghost use Rattle.propagation.specs.Propagation.{AreCalm};
ghost use Rattle.propagation.specs.Taking.{AreFlagged, Prunes, Takes};

use crate::edge_room::EdgeRoom;
use crate::edges::support_all;
use crate::matching::{choose, match_vertex};
use domain_bits::{Domains, Trail};
use graph_rows::Problem;
use graph_theory::embedding::Maps;
use recorder::{Failure, Recorder};
use sparse_set::SparseSet;

/// By what values leave along edges.
#[derive(Clone, Copy)]
enum EdgeFilter {
    /// They have no support.
    Support,
    /// Neighbours would be crowded beside them.
    Matching,
}

/// Whether one of these vertices waits. Cost: one step for each of them.
fn any_waits(waiting: &[bool], members: &[u16]) -> bool
    requires { (k : ℕ) → k < length members.now
        → slice_index members.now k < length waiting.now }
{
    for k in 0..members.len() {
        if waiting[usize::from(members[k])] {
            return true;
        }
    }
    false
}

/// How much credit there is for another look, where so much was left and so much there is now: less than before, and none where there is to be no other
/// look. Cost: one step.
fn left_after(now: u64, left: u64, goes_on: bool) -> u64
    requires { 0 < left }
    ensures { result < left }
{
    if !goes_on {
        return 0;
    }
    now.min(left - 1)
}

/// How much credit the filter has. Cost: a few steps.
fn left_for(room: &EdgeRoom, filter: EdgeFilter) -> u64 {
    match filter {
        EdgeFilter::Support => room.left(),
        EdgeFilter::Matching => room.matching.left(),
    }
}

/// Looks for crowded neighbours of the one whose turn it is, and says whether there was one. Cost: that of `choose` and `match_vertex`.
fn look_around<T: Trail, R: Recorder>(
    q: &Problem,
    d: &mut Domains<T>,
    waiting: &mut [bool],
    undecided: &SparseSet,
    room: &mut EdgeRoom,
    told: &mut R,
) -> Result<bool, Failure>
    requires flagged { AreFlagged q.now d.old waiting.old }
    requires count { undecided.now.count ≡ size q.now.pattern }
    requires injective { is_injective q.now.maps ≡ true }
    requires room { IsRoomFor q.now room.old }
    ensures takes { Takes result q.now d.old waiting.old (R.changes told.old)
        d.new waiting.new (R.changes told.new) }
    ensures room { IsRoomFor q.now room.new }
{
    match choose(q, d, undecided, &mut room.matching) {
        None => Ok(false),
        Some(p) => {
            match_vertex(q, d, waiting, &mut room.matching, told, p)?;
            Ok(true)
        }
    }
}

/// Looks once, at all vertices that are due or at the one whose turn it is, and says whether there was one. Neighbours are crowded only
/// where any two images have to differ. Cost: that of `support_all` or of `look_around`.
fn look<T: Trail, R: Recorder>(
    q: &Problem,
    d: &mut Domains<T>,
    waiting: &mut [bool],
    undecided: &SparseSet,
    room: &mut EdgeRoom,
    told: &mut R,
    filter: EdgeFilter,
) -> Result<bool, Failure>
    requires flagged { AreFlagged q.now d.old waiting.old }
    requires count { undecided.now.count ≡ size q.now.pattern }
    requires room { IsRoomFor q.now room.old }
    ensures takes { Takes result q.now d.old waiting.old (R.changes told.old)
        d.new waiting.new (R.changes told.new) }
    ensures room { IsRoomFor q.now room.new }
{
    match filter {
        EdgeFilter::Support => support_all(q, d, waiting, undecided, room, told),
        EdgeFilter::Matching => match q.maps() {
            Maps::Injective => look_around(q, d, waiting, undecided, room, told),
            Maps::Local => Ok(false),
            Maps::Any => Ok(false),
        },
    }
}

/// Looks until there is nothing to look at, or a vertex waits, or the credit is spent. Cost: at most the credit, and what one look costs.
fn look_on<T: Trail, R: Recorder>(
    q: &Problem,
    d: &mut Domains<T>,
    waiting: &mut [bool],
    undecided: &SparseSet,
    room: &mut EdgeRoom,
    told: &mut R,
    filter: EdgeFilter,
) -> Result<(), Failure>
    requires flagged { AreFlagged q.now d.old waiting.old }
    requires count { undecided.now.count ≡ size q.now.pattern }
    requires room { IsRoomFor q.now room.old }
    ensures takes { Takes result q.now d.old waiting.old (R.changes told.old)
        d.new waiting.new (R.changes told.new) }
    ensures room { IsRoomFor q.now room.new }
{
    let mut left = left_for(room, filter);
    while left > 0 {
        let any = look(q, d, waiting, undecided, room, told, filter)?;
        let goes_on = any && !any_waits(waiting, undecided.members());
        left = left_after(left_for(room, filter), left, goes_on);
    }
    Ok(())
}

/// Takes the values that edges leave without support, and where none leave so, those beside which neighbours would be crowded; says whether any have
/// left. Cost: at most the credit of both, and what one look of each costs.
pub(crate) fn prune_along_edges<T: Trail, R: Recorder>(
    d: &mut Domains<T>,
    waiting: &mut [bool],
    undecided: &SparseSet,
    room: &mut EdgeRoom,
    told: &mut R,
    problem: &Problem,
) -> Result<bool, Failure>
    requires flagged { AreFlagged problem.now d.old waiting.old }
    requires count { undecided.now.count ≡ size problem.now.pattern }
    requires room { IsRoomFor problem.now room.old }
    requires quiet { Quiet problem.now (in_domain d.old) }
    requires calm { AreCalm problem.now d.old }
    ensures prunes { Prunes (AreCalm problem.now) result problem.now d.old (R.changes told.old)
        d.new waiting.new (R.changes told.new) (R.short told.new) }
    ensures room { IsRoomFor problem.now room.new }
    ensures bounded { length d.new.removed ≤ d.new.vertices * d.new.values }
{
    let from = d.mark();
    let supported = look_on(
        problem,
        d,
        waiting,
        undecided,
        room,
        told,
        EdgeFilter::Support,
    );
    let after = d.mark();
    supported?;
    room.keep_root();
    if from.is_before(after) {
        return Ok(true);
    }
    room.allow_matching();
    let matched = look_on(
        problem,
        d,
        waiting,
        undecided,
        room,
        told,
        EdgeFilter::Matching,
    );
    let last = d.mark();
    matched?;
    Ok(from.is_before(last))
}
