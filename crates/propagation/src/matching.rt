//! Neighbourhoods matched: where `p` goes to `t`, the vertices to which edges lead from `p` go to values to which edges lead from `t`, and no two to the
//! same where any two images have to differ. Where some of them have fewer such values together than there are of them, `t` leaves the domain of `p`. (C. Solnon 2010 asks for a matching of
//! all neighbours. Here they are taken up in order of how many values each has, and each time those so far are counted: this finds less, costs less,
//! and needs no proof of how it was found.)

ghost use Rattle.std.specs.Prelude.{◌≡◌, ℕ, ◌<◌, ◌≤◌, true, length, slice_index, IfSome};
ghost use Rattle.graph_theory.specs.Graph.{size};
ghost use Rattle.graph_theory.specs.Embedding.{is_injective};
ghost use Rattle.recorder.specs.Telling.{IsOf};
ghost use Rattle.propagation.specs.Edges.{IsRoomFor};
ghost use Rattle.propagation.specs.Taking.{AreFlagged, Takes};

use crate::crowding::{Look, count_near, gather};
use crate::match_room::{LAST, MatchRoom};
use crate::removal::{Crowd, take_crowded};
use bit_rows::next_member;
use domain_bits::{Domains, Trail};
use graph_rows::Problem;
use graph_theory::direction::Direction;
use recorder::{Failure, Recorder};
use sparse_set::SparseSet;

/// A vertex, a value of it, and the direction of the edges from both.
#[derive(Clone, Copy)]
struct Spot {
    p: u16,
    t: u16,
    direction: Direction,
}

/// Takes the value of the spot from the domain of its vertex, if neighbours would be crowded. Cost: that of `count_near`, and of `gather` where the least
/// count is below the number of neighbours.
fn match_spot<T: Trail, R: Recorder>(
    q: &Problem,
    d: &mut Domains<T>,
    waiting: &mut [bool],
    room: &mut MatchRoom,
    told: &mut R,
    spot: Spot,
) -> Result<(), Failure>
    requires flagged { AreFlagged q.now d.old waiting.old }
    requires p_in { spot.p < size q.now.pattern }
    requires t_in { spot.t < size q.now.target }
    requires injective { is_injective q.now.maps ≡ true }
    requires room { IsRoomFor q.now room.old }
    ensures takes { Takes result q.now d.old waiting.old (R.changes told.old)
        d.new waiting.new (R.changes told.new) }
    ensures room { IsRoomFor q.now room.new }
{
    let p = spot.p;
    let t = spot.t;
    let near = q.pattern().row_by(spot.direction, p);
    let images = q.target().row_by(spot.direction, t);
    let levels = count_near(d, p, near, images, &mut room.counts);
    room.spend(1, images.len(), levels.0);
    if levels.0 <= levels.1 {
        return Ok(());
    }
    room.spend(4, images.len(), levels.0);
    let look = Look {
        p,
        t,
        near,
        images,
        counts: &room.counts,
    };
    if !gather(
        d,
        &look,
        levels,
        &mut room.row,
        &mut room.chosen,
        &mut room.union,
    ) {
        return Ok(());
    }
    let crowd = Crowd {
        p,
        t,
        direction: spot.direction,
        vertices: &room.chosen,
        values: &room.union,
    };
    if !take_crowded(d, waiting, told, &crowd) {
        return Err(Failure::Empty(p));
    }
    Ok(())
}

/// The same along edges in both directions, of which one serves where edges are known to stand both ways.
fn match_value<T: Trail, R: Recorder>(
    q: &Problem,
    d: &mut Domains<T>,
    waiting: &mut [bool],
    room: &mut MatchRoom,
    told: &mut R,
    p: u16,
    t: u16,
) -> Result<(), Failure>
    requires flagged { AreFlagged q.now d.old waiting.old }
    requires p_in { p < size q.now.pattern }
    requires t_in { t < size q.now.target }
    requires injective { is_injective q.now.maps ≡ true }
    requires room { IsRoomFor q.now room.old }
    ensures takes { Takes result q.now d.old waiting.old (R.changes told.old)
        d.new waiting.new (R.changes told.new) }
    ensures room { IsRoomFor q.now room.new }
{
    let out = Spot {
        p,
        t,
        direction: Direction::Out,
    };
    match_spot(q, d, waiting, room, told, out)?;
    if q.is_mutual() {
        return Ok(());
    }
    let back = Spot {
        p,
        t,
        direction: Direction::In,
    };
    match_spot(q, d, waiting, room, told, back)
}

/// The next value left for `p` from `from` on, or how many values there are. Cost: one step for each word up to there.
fn next_left<T: Trail>(d: &Domains<T>, p: u16, from: usize) -> usize
    requires p_in { p < d.now.vertices }
    requires from { from ≤ d.now.values }
    ensures low { from ≤ result }
    ensures high { result ≤ d.now.values }
{
    next_member(d.row(p), from).min(usize::from(d.values()))
}

/// Looks at the values of `p` from the one on at which the last look stopped, as far as credit goes. Cost: that of `match_value` for each.
pub(crate) fn match_vertex<T: Trail, R: Recorder>(
    q: &Problem,
    d: &mut Domains<T>,
    waiting: &mut [bool],
    room: &mut MatchRoom,
    told: &mut R,
    p: u16,
) -> Result<(), Failure>
    requires flagged { AreFlagged q.now d.old waiting.old }
    requires p_in { p < size q.now.pattern }
    requires injective { is_injective q.now.maps ≡ true }
    requires room { IsRoomFor q.now room.old }
    ensures takes { Takes result q.now d.old waiting.old (R.changes told.old)
        d.new waiting.new (R.changes told.new) }
    ensures room { IsRoomFor q.now room.new }
{
    let values = d.values();
    let mut t = next_left(d, p, usize::from(room.value.min(values)));
    while t < usize::from(values) && room.left() > 0 {
        match_value(q, d, waiting, room, told, p, t as u16)?;
        t = next_left(d, p, t + 1);
    }
    room.stop_at(t, values);
    Ok(())
}

/// The turn of a vertex: by its values times its degree, and then by its number. Cost: one step.
fn turn_of<T: Trail>(q: &Problem, d: &Domains<T>, p: u16) -> u64
    requires is_of { IsOf q.now d.now }
    requires p_in { p < size q.now.pattern }
{
    let size = u64::from(d.size(p));
    let degree = u64::from(q.pattern().degree(p));
    if size < 2 || degree < 2 {
        return LAST;
    }
    size.saturating_mul(degree)
        .saturating_mul(65536)
        .saturating_add(u64::from(p))
}

/// The first turn after the last one. Cost: a step for each of the vertices.
fn next_turn<T: Trail>(q: &Problem, d: &Domains<T>, members: &[u16], after: u64) -> u64
    requires is_of { IsOf q.now d.now }
    requires members { (k : ℕ) → k < length members.now
        → slice_index members.now k < size q.now.pattern }
{
    let mut next = LAST;
    for k in 0..members.len() {
        let turn = turn_of(q, d, members[k]);
        if after < turn && turn < next {
            next = turn;
        }
    }
    next
}

/// The vertex to look at now, if there is one: the one that goes on, or the next of the round, or where the round is over and something has changed in it
/// the first of another. Cost: a step for each vertex that is not past.
pub(crate) fn choose<T: Trail>(
    q: &Problem,
    d: &Domains<T>,
    undecided: &SparseSet,
    room: &mut MatchRoom,
) -> Option<u16>
    requires is_of { IsOf q.now d.now }
    requires count { undecided.now.count ≡ size q.now.pattern }
    requires room { IsRoomFor q.now room.old }
    ensures within { IfSome result (λ p. p < size q.now.pattern) }
    ensures room { IsRoomFor q.now room.new }
{
    if let Some(p) = room.going() {
        return Some(p);
    }
    if room.after == LAST {
        if let Some(mark) = room.begun {
            if !d.has_changed(mark) {
                return None;
            }
        }
        room.after = 0;
        room.begun = Some(d.mark());
    }
    let members = undecided.members();
    room.spend(1, members.len(), 1);
    let turn = next_turn(q, d, members, room.after);
    room.take_turn(turn)
}
