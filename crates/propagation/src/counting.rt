//! Domains counted together, and the flags of the vertices that this decides.

ghost use Rattle.std.specs.Prelude.{◌≡◌, ℕ, ◌*◌, ◌<◌, ◌≤◌, false, length, IfErr};
ghost use Rattle.std.specs.Result.{is_ok};
ghost use Rattle.graph_theory.specs.Graph.{size};
ghost use Rattle.graph_theory.specs.Embedding.{Problem};
ghost use Rattle.recorder.specs.Telling.{IsOf, IsEmptied};
ghost use Rattle.propagation.specs.Edges.{IsRoomFor};
ghost use Rattle.propagation.specs.Taking.{Prunes};
ghost use Rattle.domain_bits.specs.Removals.{in_domain, size_of};
ghost use Rattle.search_theory.specs.Claims.{Quiet};
ghost use Rattle.propagation.specs.Learning.{DecidedWait};
ghost use Rattle.sparse_set.specs.Removals.{has as is_member};
ghost use Rattle.propagation.specs.Propagation.{AreBalanced, AreCalm, AreNeighbourhoods, IsFor, LeavesPast, UndecidedWait, NotesDecided, Notes};

use crate::along_edges::prune_along_edges;
use crate::blocks::count_domains;
use crate::count_room::CountRoom;
use crate::edge_room::EdgeRoom;
use crate::order::prune_order;
use domain_bits::{Domains, Trail};
use graph_rows::Problem;
use recorder::{Failure, Recorder};
use sparse_set::SparseSet;

/// Lowers all flags.
pub fn lower(waiting: &mut [bool])
    ensures { length waiting.new ≡ length waiting.old }
{
    waiting.fill(false);
}

/// Of the vertices that are not past, raises the flags of those with more than one value, and lowers the others. Cost: one
/// step for each of them.
fn raise_undecided<T: Trail>(d: &Domains<T>, waiting: &mut [bool], undecided: &SparseSet)
    requires long { length waiting.old ≡ d.now.vertices }
    requires count { undecided.now.count ≡ d.now.vertices }
    requires decided { (p : ℕ) → p < d.now.vertices → is_member undecided.now p ≡ false
        → size_of d.now p ≡ 1 }
    ensures { UndecidedWait d.now waiting.new d.now.vertices }
{
    let members = undecided.members();
    for k in 0..members.len() {
        let p = members[k];
        waiting[usize::from(p)] = d.size(p) != 1;
    }
}

/// Raises the flags of the vertices with one value only, and lowers the others. Cost: one step for each vertex.
pub(crate) fn raise_decided<T: Trail>(d: &Domains<T>, waiting: &mut [bool])
    requires long { length waiting.old ≡ d.now.vertices }
    ensures { DecidedWait d.now waiting.new d.now.vertices }
{
    for p in 0..d.vertices() {
        waiting[usize::from(p)] = d.size(p) == 1;
    }
}

/// Lowers the flag of `p` unless it has one value; false where it has none. Cost: one step.
fn note_decided<T: Trail>(d: &Domains<T>, waiting: &mut [bool], p: u16) -> bool
    requires p_in { p < d.now.vertices }
    requires flags { p < length waiting.old }
    ensures { NotesDecided result d.now waiting.old waiting.new p }
{
    let size = d.size(p);
    if size == 0 {
        return false;
    }
    if size != 1 {
        waiting[usize::from(p)] = false;
    }
    true
}

/// Lowers the flags of all vertices that have more than one value; fails where one has none. Cost: one step for each
/// vertex.
fn note_all_decided<T: Trail>(d: &Domains<T>, waiting: &mut [bool]) -> Result<(), Failure>
    requires long { length waiting.old ≡ d.now.vertices }
    ensures notes { Notes (is_ok result) d.now waiting.old waiting.new }
    ensures none { (q : Problem) → d.now.vertices ≡ size q.pattern
        → IfErr result (IsEmptied q d.now) }
{
    for p in 0..d.vertices() {
        if !note_decided(d, waiting, p) {
            return Err(Failure::Empty(p));
        }
    }
    Ok(())
}

/// Counts the values of the first domains of each block together, and says whether any leave. Where values do, the vertices that this decides wait: the
/// flags are raised of those that are undecided before, and lowered of those that still are.
pub(crate) fn prune_noting<T: Trail, R: Recorder>(
    d: &mut Domains<T>,
    waiting: &mut [bool],
    undecided: &SparseSet,
    counting: &mut CountRoom,
    told: &mut R,
    problem: &Problem,
) -> Result<bool, Failure>
    requires is_of { IsOf problem.now d.old }
    requires left { LeavesPast problem.now d.old undecided.now }
    requires is_for { IsFor problem.now counting.old.scratch }
    requires near { AreNeighbourhoods problem.now counting.old.near }
    requires quiet { Quiet problem.now (in_domain d.old) }
    requires long { length waiting.old ≡ size problem.now.pattern }
    ensures prunes { Prunes (AreBalanced problem.now) result problem.now d.old (R.changes told.old)
        d.new waiting.new (R.changes told.new) (R.short told.new) }
    ensures is_for { IsFor problem.now counting.new.scratch }
    ensures near { counting.new.near ≡ counting.old.near }
    ensures bounded { length d.new.removed ≤ d.new.vertices * d.new.values }
{
    raise_undecided(d, waiting, undecided);
    let answer = count_domains(problem, d, counting, told);
    let _removed = d.mark();
    let have_left = answer?;
    if !have_left {
        lower(waiting);
        return Ok(false);
    }
    note_all_decided(d, waiting)?;
    Ok(true)
}

/// Takes the values that the order of images leaves no room for; where none leave so, counts the values of the first domains of each block together;
/// and where none leave so either, takes those that edges do not leave room for. Says whether any have left. Where values do, the vertices that this
/// decides wait. Cost: that of `prune_order`, of `prune_noting`, and of `prune_along_edges`.
pub(crate) fn filter_more<T: Trail, R: Recorder>(
    d: &mut Domains<T>,
    waiting: &mut [bool],
    undecided: &SparseSet,
    counting: &mut CountRoom,
    room: &mut EdgeRoom,
    told: &mut R,
    problem: &Problem,
) -> Result<bool, Failure>
    requires is_of { IsOf problem.now d.old }
    requires left { LeavesPast problem.now d.old undecided.now }
    requires is_for { IsFor problem.now counting.old.scratch }
    requires near { AreNeighbourhoods problem.now counting.old.near }
    requires room { IsRoomFor problem.now room.old }
    requires quiet { Quiet problem.now (in_domain d.old) }
    requires long { length waiting.old ≡ size problem.now.pattern }
    ensures prunes { Prunes (AreCalm problem.now) result problem.now d.old (R.changes told.old)
        d.new waiting.new (R.changes told.new) (R.short told.new) }
    ensures is_for { IsFor problem.now counting.new.scratch }
    ensures near { counting.new.near ≡ counting.old.near }
    ensures room { IsRoomFor problem.now room.new }
    ensures bounded { length d.new.removed ≤ d.new.vertices * d.new.values }
{
    let _removed = d.mark();
    let in_order = prune_order(problem, d, waiting, told)?;
    if in_order {
        return Ok(true);
    }
    let have_left = prune_noting(d, waiting, undecided, counting, told, problem)?;
    if have_left {
        return Ok(true);
    }
    prune_along_edges(d, waiting, undecided, room, told, problem)
}
