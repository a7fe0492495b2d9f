//! Edges between vertices that are not decided: where an edge leads from `p` to `r`, each value left for `r` needs one left for `p` from which an
//! edge with the same label leads to it. What has none leaves. (Arc consistency is that of A. Mackworth 1977; the union of the rows of all values
//! that are left makes it one operation on rows for each neighbour, after J. R. Ullmann 2010. With labels of edges each value is asked by itself.)

ghost use Rattle.std.specs.Prelude.{◌≡◌, ℕ, ◌*◌, ◌<◌, ◌≤◌, ◌↔◌, true, false, is_some, length, slice_index, IsTrue, Some};
ghost use Rattle.graph_theory.specs.Graph.{size, edge};
ghost use Rattle.graph_theory.specs.Reversed.{turned};
ghost use Rattle.bit_rows.specs.BitRows.{has, words_for};
ghost use Rattle.recorder.specs.Telling.{IsOf, Joins};
ghost use Rattle.propagation.specs.Edges.{AreUnsupported, IsRoomFor, LacksSupport, Unites};
ghost use Rattle.propagation.specs.Taking.{AreFlagged, Takes};

use crate::edge_room::EdgeRoom;
use crate::removal::take_by;
use bit_rows::{and_not_into, has_bit, next_member, or_into, unset_bit};
use domain_bits::{Domains, Trail};
use graph_rows::{Graph, Problem};
use graph_theory::direction::Direction;
use recorder::{Cause, Failure, Recorder};
use sparse_set::SparseSet;

/// Two pattern vertices, and the direction of the edge from the first to the second.
#[derive(Clone, Copy)]
pub(crate) struct Link {
    /// The vertex whose values support.
    pub p: u16,
    /// The vertex whose values need support.
    pub r: u16,
    /// In which direction the edge leads.
    pub direction: Direction,
}

/// Whether the row has all wanted values. Cost: one step for each word, up to the first with one that lacks.
fn covers(row: &[u64], wanted: &[u64]) -> bool
    requires same_length { length row.now ≡ length wanted.now }
{
    for place in 0..row.len() {
        if wanted[place] & !row[place] != 0 {
            return false;
        }
    }
    true
}

/// What it costs to unite a row of so many words with others: two steps for each word, and more where a graph's rows are so long that they are not in
/// the cache.
fn row_cost(words: usize) -> u64 {
    let words = words as u64;
    words.saturating_mul(2 + words / 16)
}

/// Makes the row that of all values to which an edge leads, in the direction, from one that is left for `p`; stops where all wanted ones are there
/// before, and is true then. Cost: one step for each word of the row and for each value of `p`, up to there.
fn unite<T: Trail>(
    target: &Graph,
    d: &Domains<T>,
    p: u16,
    direction: Direction,
    wanted: &[u64],
    union: &mut [u64],
    steps: &mut u64,
) -> bool
    requires p_in { p < d.now.vertices }
    requires values { d.now.values ≡ size target.now }
    requires long { length union.old ≡ words_for (size target.now) }
    requires wanted { length wanted.now ≡ words_for (size target.now) }
    ensures unites { result ≡ false → Unites target.now d.now direction p union.new }
{
    union.fill(0);
    let domain = d.row(p);
    let mut w = next_member(domain, 0);
    while w < 64 * domain.len() {
        *steps = steps.wrapping_add(row_cost(union.len()));
        or_into(union, target.row_by(direction, w as u16));
        if covers(union, wanted) {
            return true;
        }
        w = next_member(domain, w + 1);
    }
    false
}

/// Takes the values of the row, none of which has support, from the domain of the second vertex. Where one value is left, it waits; where none
/// is, this fails. Cost: one step for each word of the row and for each value that leaves.
fn take_row<T: Trail, R: Recorder>(
    q: &Problem,
    d: &mut Domains<T>,
    waiting: &mut [bool],
    told: &mut R,
    link: Link,
    row: &[u64],
) -> Result<(), Failure>
    requires flagged { AreFlagged q.now d.old waiting.old }
    requires short { length row.now ≤ 1024 }
    requires joins { Joins q.now link.direction link.p link.r }
    requires unsupported { AreUnsupported q.now d.old link.direction link.p link.r row.now }
    ensures takes { Takes result q.now d.old waiting.old (R.changes told.old)
        d.new waiting.new (R.changes told.new) }
{
    let mut u = next_member(row, 0);
    while u < 64 * row.len() {
        let cause = Cause::Edge(link.p, u as u16, link.direction);
        if !take_by(d, waiting, told, link.r, u as u16, cause) {
            return Err(Failure::Empty(link.r));
        }
        u = next_member(row, u + 1);
    }
    Ok(())
}

/// Takes from the domain of the second vertex what is not in the union, in which all values are that have support. `gone` is room for a row.
/// Cost: a few steps for each word of a row, and one for each value that leaves.
fn support_at<T: Trail, R: Recorder>(
    q: &Problem,
    d: &mut Domains<T>,
    waiting: &mut [bool],
    told: &mut R,
    link: Link,
    union: &[u64],
    gone: &mut [u64],
) -> Result<(), Failure>
    requires flagged { AreFlagged q.now d.old waiting.old }
    requires joins { Joins q.now link.direction link.p link.r }
    requires union { length union.now ≡ words_for (size q.now.target) }
    requires gone { length gone.old ≡ words_for (size q.now.target) }
    requires unites { Unites q.now.target d.old link.direction link.p union.now }
    ensures takes { Takes result q.now d.old waiting.old (R.changes told.old)
        d.new waiting.new (R.changes told.new) }
    ensures gone { length gone.new ≡ words_for (size q.now.target) }
{
    gone.copy_from_slice(d.row(link.r));
    and_not_into(gone, union);
    take_row(q, d, waiting, told, link, gone)
}

/// A vertex whose values support, the direction of its edges, the row of the vertices to which they lead, and the vertices that are not past.
#[derive(Drop)]
struct Source<'a> {
    p: u16,
    direction: Direction,
    near: &'a [u64],
    members: &'a [u16],
}

/// Whether one of the source's edges leads to `r`, another vertex. Cost: one step.
fn leads_to(source: &Source<'_>, r: u16) -> bool
    requires r_in { r < 64 * length source.now.near.now }
    ensures apart { result ≡ true → source.now.p ≡ r → ⊥ }
    ensures near { result ≡ true → has source.now.near.now r ≡ true }
{
    r != source.p && has_bit(source.near, usize::from(r))
}

/// Makes the row that of all values left for the vertices that are not past to which an edge leads, and says whether there are any. Cost: one
/// step for each vertex that is not past, and the words of a row for each to which an edge leads.
fn want<T: Trail>(d: &Domains<T>, source: &Source<'_>, wanted: &mut [u64], steps: &mut u64) -> bool
    requires long { length wanted.old ≡ words_for d.now.values }
    requires members { (k : ℕ) → k < length source.now.members.now
        → slice_index source.now.members.now k < d.now.vertices }
    requires near { d.now.vertices ≤ 64 * length source.now.near.now }
{
    let members = source.members;
    wanted.fill(0);
    *steps = steps.wrapping_add(members.len() as u64);
    let mut some = false;
    for k in 0..members.len() {
        let r = members[k];
        if leads_to(source, r) {
            or_into(wanted, d.row(r));
            *steps = steps.wrapping_add(4 * wanted.len() as u64);
            some = true;
        }
    }
    some
}

/// Takes from the domains of all vertices that are not past to which an edge leads what is not in the union. Cost: a few steps for each word of
/// a row and for each of these vertices, and one for each value that leaves.
fn support_near<T: Trail, R: Recorder>(
    q: &Problem,
    d: &mut Domains<T>,
    waiting: &mut [bool],
    told: &mut R,
    source: &Source<'_>,
    union: &[u64],
    gone: &mut [u64],
) -> Result<(), Failure>
    requires flagged { AreFlagged q.now d.old waiting.old }
    requires p_in { source.now.p < size q.now.pattern }
    requires members { (k : ℕ) → k < length source.now.members.now
        → slice_index source.now.members.now k < size q.now.pattern }
    requires near_long { size q.now.pattern ≤ 64 * length source.now.near.now }
    requires near { (r : ℕ) → has source.now.near.now r
        ≡ is_some (edge (turned source.now.direction q.now.pattern) source.now.p r) }
    requires union { length union.now ≡ words_for (size q.now.target) }
    requires gone { length gone.old ≡ words_for (size q.now.target) }
    requires unites { Unites q.now.target d.old source.now.direction source.now.p union.now }
    ensures takes { Takes result q.now d.old waiting.old (R.changes told.old)
        d.new waiting.new (R.changes told.new) }
    ensures gone { length gone.new ≡ words_for (size q.now.target) }
{
    let members = source.members;
    let p = source.p;
    let direction = source.direction;
    for k in 0..members.len() {
        let r = members[k];
        if !leads_to(source, r) {
            continue;
        }
        support_at(q, d, waiting, told, Link { p, r, direction }, union, gone)?;
    }
    Ok(())
}

/// Whether an edge with this label leads from `w` to `u`. Cost: that of `Graph::edge`.
fn has_label(target: &Graph, direction: Direction, w: u16, u: u16, label: u32) -> bool
    requires from { w < size target.now }
    requires to { u < size target.now }
    ensures { IsTrue result ↔ (edge (turned direction target.now) w u ≡ Some label) }
{
    match target.edge_by(direction, w, u) {
        Some(other) => other == label,
        None => false,
    }
}

/// Whether an edge with this label leads to `u` from a value that is left for the first vertex. Cost: one step for each word of a row and for each
/// value from which an edge leads to `u`, and that of `Graph::edge` for each of these that is left, up to the first with this label.
fn has_support<T: Trail>(
    target: &Graph,
    d: &Domains<T>,
    link: Link,
    u: u16,
    label: u32,
    steps: &mut u64,
) -> bool
    requires p_in { link.p < d.now.vertices }
    requires values { d.now.values ≡ size target.now }
    requires u_in { u < size target.now }
    ensures some { result ≡ true
        → LacksSupport target.now d.now link.direction link.p u label → ⊥ }
    ensures none { result ≡ false → LacksSupport target.now d.now link.direction link.p u label }
{
    let near = target.in_row_by(link.direction, u);
    let domain = d.row(link.p);
    *steps = steps.wrapping_add(row_cost(near.len())).wrapping_add(3);
    let mut w = next_member(near, 0);
    while w < 64 * near.len() {
        if has_bit(domain, w) {
            *steps = steps.wrapping_add(1 + near.len() as u64);
            if has_label(target, link.direction, w as u16, u, label) {
                return true;
            }
        }
        w = next_member(near, w + 1);
    }
    false
}

/// Leaves of a row of values of the second vertex those that have no support by edges with the label of the pattern's. Cost: that of `has_support` for
/// each value.
fn leave_lacking<T: Trail>(
    q: &Problem,
    d: &Domains<T>,
    link: Link,
    label: u32,
    row: &mut [u64],
    steps: &mut u64,
)
    requires is_of { IsOf q.now d.now }
    requires joins { Joins q.now link.direction link.p link.r }
    requires label { edge (turned link.direction q.now.pattern) link.p link.r ≡ Some label }
    requires long { length row.old ≡ words_for (size q.now.target) }
    requires within { (u : ℕ) → has row.old u ≡ true → u < size q.now.target }
    ensures unsupported { AreUnsupported q.now d.now link.direction link.p link.r row.new }
{
    let target = q.target();
    let _size = target.size();
    let mut u = next_member(row, 0);
    while u < 64 * row.len() {
        if has_support(target, d, link, u as u16, label, steps) {
            unset_bit(row, u);
        }
        u = next_member(row, u + 1);
    }
}

/// Takes from the domain of the second vertex what has no support by edges with the label of the pattern's. `gone` is room for a row. Cost: a few steps
/// for each word of a row, that of `has_support` for each value, and one for each value that leaves.
fn support_alike<T: Trail, R: Recorder>(
    q: &Problem,
    d: &mut Domains<T>,
    waiting: &mut [bool],
    told: &mut R,
    link: Link,
    gone: &mut [u64],
    steps: &mut u64,
) -> Result<(), Failure>
    requires flagged { AreFlagged q.now d.old waiting.old }
    requires joins { Joins q.now link.direction link.p link.r }
    requires gone { length gone.old ≡ words_for (size q.now.target) }
    ensures takes { Takes result q.now d.old waiting.old (R.changes told.old)
        d.new waiting.new (R.changes told.new) }
    ensures gone { length gone.new ≡ words_for (size q.now.target) }
{
    match q.pattern().edge_by(link.direction, link.p, link.r) {
        None => Ok(()),
        Some(label) => {
            gone.copy_from_slice(d.row(link.r));
            leave_lacking(q, d, link, label, gone, steps);
            take_row(q, d, waiting, told, link, gone)
        }
    }
}

/// The same for all vertices that are not past to which an edge of the source leads.
fn support_labelled<T: Trail, R: Recorder>(
    q: &Problem,
    d: &mut Domains<T>,
    waiting: &mut [bool],
    told: &mut R,
    source: &Source<'_>,
    gone: &mut [u64],
    steps: &mut u64,
) -> Result<(), Failure>
    requires flagged { AreFlagged q.now d.old waiting.old }
    requires p_in { source.now.p < size q.now.pattern }
    requires members { (k : ℕ) → k < length source.now.members.now
        → slice_index source.now.members.now k < size q.now.pattern }
    requires near_long { size q.now.pattern ≤ 64 * length source.now.near.now }
    requires near { (r : ℕ) → has source.now.near.now r
        ≡ is_some (edge (turned source.now.direction q.now.pattern) source.now.p r) }
    requires gone { length gone.old ≡ words_for (size q.now.target) }
    ensures takes { Takes result q.now d.old waiting.old (R.changes told.old)
        d.new waiting.new (R.changes told.new) }
    ensures gone { length gone.new ≡ words_for (size q.now.target) }
{
    let members = source.members;
    let p = source.p;
    let direction = source.direction;
    *steps = steps.wrapping_add(members.len() as u64);
    for k in 0..members.len() {
        let r = members[k];
        if !leads_to(source, r) {
            continue;
        }
        support_alike(q, d, waiting, told, Link { p, r, direction }, gone, steps)?;
    }
    Ok(())
}

/// Takes what the values left for `p` do not support along its edges in the direction. Cost: the words of a row for each value left for `p`, up to
/// where all have support, and then for each vertex to which an edge leads. With labels of edges: that of `support_labelled`.
fn support_from<T: Trail, R: Recorder>(
    q: &Problem,
    d: &mut Domains<T>,
    waiting: &mut [bool],
    undecided: &SparseSet,
    room: &mut EdgeRoom,
    told: &mut R,
    from: (u16, Direction),
) -> Result<(), Failure>
    requires flagged { AreFlagged q.now d.old waiting.old }
    requires count { undecided.now.count ≡ size q.now.pattern }
    requires p_in { from.0 < size q.now.pattern }
    requires room { IsRoomFor q.now room.old }
    ensures takes { Takes result q.now d.old waiting.old (R.changes told.old)
        d.new waiting.new (R.changes told.new) }
    ensures room { IsRoomFor q.now room.new }
{
    let (p, direction) = from;
    let source = Source {
        p,
        direction,
        near: q.pattern().row_by(direction, p),
        members: undecided.members(),
    };
    let steps = &mut room.spent;
    if q.pattern().keeps_edge_labels() {
        return support_labelled(q, d, waiting, told, &source, &mut room.gone, steps);
    }
    if !want(d, &source, &mut room.wanted, steps) {
        return Ok(());
    }
    if unite(
        q.target(),
        d,
        p,
        direction,
        &room.wanted,
        &mut room.union,
        steps,
    ) {
        return Ok(());
    }
    support_near(q, d, waiting, told, &source, &room.union, &mut room.gone)
}

/// The same along its edges in both directions, of which one serves where edges are known to stand both ways.
fn support_vertex<T: Trail, R: Recorder>(
    q: &Problem,
    d: &mut Domains<T>,
    waiting: &mut [bool],
    undecided: &SparseSet,
    room: &mut EdgeRoom,
    told: &mut R,
    p: u16,
) -> Result<(), Failure>
    requires flagged { AreFlagged q.now d.old waiting.old }
    requires count { undecided.now.count ≡ size q.now.pattern }
    requires p_in { p < size q.now.pattern }
    requires room { IsRoomFor q.now room.old }
    ensures takes { Takes result q.now d.old waiting.old (R.changes told.old)
        d.new waiting.new (R.changes told.new) }
    ensures room { IsRoomFor q.now room.new }
{
    support_from(q, d, waiting, undecided, room, told, (p, Direction::Out))?;
    if q.is_mutual() {
        return Ok(());
    }
    support_from(q, d, waiting, undecided, room, told, (p, Direction::In))
}

/// Looks once at each vertex that is not past and whose domain has changed since the last look, while there is credit, and says whether there was
/// one. Cost: one step for each vertex that is not past, and that of `support_vertex` for each that is looked at.
pub(crate) fn support_all<T: Trail, R: Recorder>(
    q: &Problem,
    d: &mut Domains<T>,
    waiting: &mut [bool],
    undecided: &SparseSet,
    room: &mut EdgeRoom,
    told: &mut R,
) -> Result<bool, Failure>
    requires flagged { AreFlagged q.now d.old waiting.old }
    requires count { undecided.now.count ≡ size q.now.pattern }
    requires room { IsRoomFor q.now room.old }
    ensures takes { Takes result q.now d.old waiting.old (R.changes told.old)
        d.new waiting.new (R.changes told.new) }
    ensures room { IsRoomFor q.now room.new }
{
    let members = undecided.members();
    let mut any = false;
    for k in 0..members.len() {
        let p = members[k];
        if !room.is_due(p, d.size(p)) {
            continue;
        }
        support_vertex(q, d, waiting, undecided, room, told, p)?;
        any = true;
    }
    Ok(any)
}
