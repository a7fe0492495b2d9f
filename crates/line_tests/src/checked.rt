//! Dead paths as tables have them, and the line of one, once its numbers are seen to be in the range of the problem.

ghost use Rattle.std.specs.Prelude.{◌≡◌, ℕ, ◌^◌, ◌<◌, ◌≤◌, [], true, length, is_some, IfOk};
ghost use Rattle.graph_theory.specs.Graph.{size, edge};
ghost use Rattle.graph_theory.specs.Blocks.{in_block, has_near, has_block};
ghost use Rattle.graph_theory.specs.Reversed.{turned};
ghost use Rattle.log_theory.specs.LogText.{AreRefs};
ghost use Rattle.log_theory.specs.Lookups.{is_among};
ghost use Rattle.nogood_book.specs.Rows.{Sound, AreInRange};
ghost use Rattle.nogood_book.specs.Places.{IsNogoodRow};
ghost use Rattle.recorder.specs.Recording.{change_by, changes_of, set_at, IsIn};
ghost use Rattle.recorder.specs.Telling.{Joins};
ghost use Rattle.dead_theory.specs.Changes.{IsEndOf, IsInBy, IsInProblem, AreInProblem};
ghost use Rattle.dead_paths.specs.Explaining.{end_by, IsEndIn};

use bit_rows::has_bit;
use dead_paths::{Basis, DeadPath, LineMaker, RowNames, Scratch, explain};
use domain_bits::{Domains, Mark};
use graph_rows::near::is_near;
use graph_rows::{Graph, Problem};
use graph_theory::direction::Direction;
use graph_theory::embedding::Maps;
use journals::Journal;
use log_theory::{Name, Ref};
use nogood_book::{Row, RowKind};
use recorder::{Cause, DeadEnd, Entry, Failure, Place, Side, What};
use std::alloc::{AllocError, Global};

/// How a path ended, with the place of the set that was found short and the centre of its block, or the numbers of the lines of owner 1 against
/// refuted values.
pub enum Ended {
    Empty(u16),
    Whole(u32),
    Short(Option<u16>, Place),
    Exhausted(u16, &'static [u64]),
}

/// A dead path: its pairs, what changed, and how it ended.
pub struct Dead(pub &'static [(u16, u16)], pub &'static [What], pub Ended);

impl Ended {
    /// The same, as a search tells it.
    fn end(&self) -> DeadEnd {
        match self {
            Ended::Empty(p) => DeadEnd::Failed(Failure::Empty(*p)),
            Ended::Whole(name) => DeadEnd::Failed(Failure::Whole(*name)),
            Ended::Short(_, _) => DeadEnd::Failed(Failure::Short(0)),
            Ended::Exhausted(p, _) => DeadEnd::Exhausted(*p),
        }
    }

    /// The set, with the centre of its block.
    fn short(&self) -> Option<(Option<u16>, Place)> {
        match self {
            Ended::Short(centre, place) => Some((*centre, *place)),
            _ => None,
        }
    }

    /// The numbers of lines.
    fn refuted(&self) -> &'static [u64] {
        match self {
            Ended::Exhausted(_, numbers) => *numbers,
            _ => &[],
        }
    }
}

/// Whether all are below the limit.
fn are_below(numbers: &[u16], limit: u16) -> bool
    ensures { result ≡ true → (p : ℕ) → is_among p numbers.now ≡ true → p < limit }
{
    for x in numbers {
        if *x >= limit {
            return false;
        }
    }
    true
}

/// Whether a set stands among the numbers.
fn is_placed(numbers: &[u16], place: Place) -> bool
    ensures { result ≡ true → IsIn place (length numbers.now) }
{
    place.start <= place.middle && place.middle <= place.end && place.end <= numbers.len()
}

/// Whether two vertices, of which this is one, are near the centre.
fn is_near_with(g: &Graph, c: u16, b: u16) -> bool
    requires c_in { c < size g.now }
    requires b_in { b < size g.now }
    ensures { result ≡ true → has_near g.now c ≡ true }
{
    for a in 0..g.size() {
        if a != b && is_near(g, c, a) && is_near(g, c, b) {
            return true;
        }
    }
    false
}

/// Whether two vertices are near the centre.
fn has_two_near(g: &Graph, c: u16) -> bool
    ensures { result ≡ true → has_near g.now c ≡ true }
{
    if c >= g.size() {
        return false;
    }
    for b in 0..g.size() {
        if is_near_with(g, c, b) {
            return true;
        }
    }
    false
}

/// Whether there is the block of a centre, or of all vertices.
fn is_block(q: &Problem, centre: Option<u16>) -> bool
    ensures { result ≡ true → has_block q.now centre ≡ true }
{
    match centre {
        None => match q.maps() {
            Maps::Injective => true,
            Maps::Local => false,
            Maps::Any => false,
        },
        Some(c) => match q.maps() {
            Maps::Injective => false,
            Maps::Local => has_two_near(q.pattern(), c),
            Maps::Any => false,
        },
    }
}

/// Whether all these are in the block.
fn are_members(q: &Problem, centre: Option<u16>, vertices: &[u16]) -> bool
    requires there { has_block q.now centre ≡ true }
    requires inside { (p : ℕ) → is_among p vertices.now ≡ true → p < size q.now.pattern }
    ensures { result ≡ true → (p : ℕ) → is_among p vertices.now ≡ true
        → in_block q.now centre p ≡ true }
{
    for p in vertices {
        if !is_member(q, centre, *p) {
            return false;
        }
    }
    true
}

/// Whether one is.
fn is_member(q: &Problem, centre: Option<u16>, p: u16) -> bool
    requires there { has_block q.now centre ≡ true }
    requires p_in { p < size q.now.pattern }
    ensures { result ≡ in_block q.now centre p }
{
    match centre {
        None => true,
        Some(c) => is_near(q.pattern(), c, p),
    }
}

/// Whether there are no more vertices than the pattern has, and no more values than these.
fn are_few(q: &Problem, vertices: &[u16], values: &[u16]) -> bool
    ensures vertices { result ≡ true → length vertices.now ≤ size q.now.pattern }
    ensures values { result ≡ true → length values.now ≤ length vertices.now }
{
    vertices.len() <= usize::from(q.pattern().size()) && values.len() <= vertices.len()
}

/// The same of a set, and it is one of vertices of the pattern, in a block that there is, and of values.
fn is_set(q: &Problem, numbers: &[u16], centre: Option<u16>, place: Place) -> bool
    ensures { result ≡ true
        → IsInProblem q.now (change_by numbers.now (What.Others centre place) 0) }
{
    if !is_placed(numbers, place) || !is_block(q, centre) {
        return false;
    }
    let vertices = &numbers[place.start..place.middle];
    let values = &numbers[place.middle..place.end];
    are_below(vertices, q.pattern().size())
        && are_members(q, centre, vertices)
        && are_below(values, q.target().size())
        && are_few(q, vertices, values)
}

/// Whether an edge of the pattern leads from one vertex to the other in this direction.
fn leads(q: &Problem, direction: Direction, p: u16, r: u16) -> bool
    requires p_in { p < size q.now.pattern }
    requires r_in { r < size q.now.pattern }
    ensures { result ≡ is_some (edge (turned direction q.now.pattern) p r) }
{
    has_bit(q.pattern().row_by(direction, p), usize::from(r))
}

/// Whether edges of the pattern lead from a vertex to all of these, in this direction, none of which is itself.
fn leads_to_all(q: &Problem, direction: Direction, p: u16, vertices: &[u16]) -> bool
    requires { p < size q.now.pattern }
    ensures { result ≡ true → (r : ℕ) → is_among r vertices.now ≡ true → Joins q.now direction p r }
{
    for r in vertices {
        if *r >= q.pattern().size() || *r == p || !leads(q, direction, p, *r) {
            return false;
        }
    }
    true
}

/// Whether a set stands among the numbers that may be one of neighbours of the vertex, beside it at the value.
fn is_crowd(
    q: &Problem,
    numbers: &[u16],
    p: u16,
    t: u16,
    direction: Direction,
    place: Place,
) -> bool
    ensures { result ≡ true
        → IsInProblem q.now (change_by numbers.now (What.Over p t direction place) 0) }
{
    if p >= q.pattern().size() || t >= q.target().size() || !is_placed(numbers, place) {
        return false;
    }
    if !is_block(q, None) {
        return false;
    }
    let vertices = &numbers[place.start..place.middle];
    let values = &numbers[place.middle..place.end];
    leads_to_all(q, direction, p, vertices)
        && are_below(values, q.target().size())
        && are_few(q, vertices, values)
}

/// Whether the vertex is at this end of a pair that is to be in order.
fn is_end_of(q: &Problem, k: u16, side: Side, r: u16) -> bool
    requires { r < size q.now.pattern }
    ensures { result ≡ true → IsEndOf q.now k side r }
{
    let less = q.less();
    if usize::from(k) >= less.len() {
        return false;
    }
    let (lesser, greater) = less[usize::from(k)];
    match side {
        Side::Lesser => lesser == r,
        Side::Greater => greater == r,
    }
}

/// Whether the numbers of a cause, and the vertex whose values it took, are in range.
fn is_cause(q: &Problem, cause: Cause, r: u16) -> bool
    ensures { result ≡ true → IsInBy cause q.now r }
{
    if r >= q.pattern().size() {
        return false;
    }
    match cause {
        Cause::First => true,
        Cause::Guess(t) => t < q.target().size(),
        Cause::Vertex(p, t) => p < q.pattern().size() && t < q.target().size() && p != r,
        Cause::Nogood(_) => true,
        Cause::Edge(p, u, direction) => {
            p < q.pattern().size() && u < q.target().size() && p != r && leads(q, direction, p, r)
        }
        Cause::Order(k, u, side) => u < q.target().size() && is_end_of(q, k, side, r),
    }
}

/// Whether a change is of the problem.
fn is_change(q: &Problem, numbers: &[u16], what: What, from: Mark) -> bool
    ensures { result ≡ true → IsInProblem q.now (change_by numbers.now what from) }
{
    match what {
        What::One(r, cause) => is_cause(q, cause, r),
        What::Others(centre, place) => is_set(q, numbers, centre, place),
        What::Over(p, t, direction, place) => is_crowd(q, numbers, p, t, direction, place),
    }
}

/// The changes as they are kept, all from one moment.
fn entries_of(
    alloc: Global,
    q: &Problem,
    numbers: &[u16],
    changes: &[What],
    from: Mark,
) -> Result<Vec<Entry>, AllocError>
    ensures { IfOk result (λ entries. AreInProblem q.now (changes_of numbers.now entries.items)) }
{
    let mut entries = Vec::new(alloc);
    for what in changes {
        if !is_change(q, numbers, *what, from) {
            return Err(AllocError);
        }
        entries.push(Entry { what: *what, from })?;
    }
    Ok(entries)
}

/// The pairs of a path.
fn pairs_of(alloc: Global, q: &Problem, path: &[(u16, u16)]) -> Result<Vec<(u16, u16)>, AllocError>
    ensures { IfOk result (λ pairs. AreInRange q.now pairs.items) }
{
    let mut pairs = Vec::new(alloc);
    for x in path {
        if x.0 >= q.pattern().size() || x.1 >= q.target().size() {
            return Err(AllocError);
        }
        pairs.push(*x)?;
    }
    Ok(pairs)
}

/// References to lines of owner 1 by their numbers.
fn refs_of(alloc: Global, numbers: &[u64]) -> Result<Vec<Ref>, AllocError>
    ensures { IfOk result (λ refs. AreRefs refs.items) }
{
    let mut refs = Vec::new(alloc);
    for number in numbers {
        if *number == 0 || *number >= 1 << 62 {
            return Err(AllocError);
        }
        refs.push(Ref::Made(Name {
            owner: 1,
            number: *number,
        }))?;
    }
    Ok(refs)
}

/// Whether a row of that place is a nogood.
fn is_nogood(rows: &[Row], k: u32) -> bool
    ensures { result ≡ true → IsNogoodRow rows.now k }
{
    if k as usize >= rows.len() {
        return false;
    }
    match rows[k as usize].kind {
        RowKind::Nogood => true,
        RowKind::Step => false,
    }
}

/// Whether an end is one of the problem and these rows.
fn is_end(
    q: &Problem,
    rows: &[Row],
    numbers: &[u16],
    end: DeadEnd,
    short: Option<(Option<u16>, Place)>,
) -> bool
    ensures { result ≡ true → IsEndIn q.now rows.now (end_by end (set_at numbers.now short) []) }
{
    match end {
        DeadEnd::Failed(failure) => match failure {
            Failure::Empty(p) => p < q.pattern().size(),
            Failure::Whole(name) => is_nogood(rows, name),
            Failure::Short(_) => match short {
                Some((centre, place)) => is_set(q, numbers, centre, place),
                None => false,
            },
        },
        DeadEnd::Exhausted(p) => p < q.pattern().size(),
    }
}

/// The mark of full domains.
fn first_mark(alloc: Global) -> Result<Mark, AllocError> {
    let domains = Domains::new(alloc, 1, 1)?;
    Ok(domains.mark())
}

/// Gives the line of a dead path.
pub fn explain_in<M: LineMaker, N: RowNames>(
    basis: &Basis<'_, N>,
    dead: &Dead,
    maker: &mut M,
    journal: &mut Journal,
) -> Result<Option<Name>, AllocError>
    requires sound { Sound basis.now.lines.now basis.now.rows.now }
    requires few { length basis.now.rows.now ≤ 2 ^ 22 }
{
    let q = basis.lines.problem();
    let alloc = basis.alloc;
    let path = pairs_of(alloc, q, dead.0)?;
    let entries = entries_of(alloc, q, basis.numbers, dead.1, first_mark(alloc)?)?;
    let refuted = refs_of(alloc, dead.2.refuted())?;
    let end = dead.2.end();
    let short = dead.2.short();
    if !is_end(q, basis.rows, basis.numbers, end, short) {
        return Err(AllocError);
    }
    let dead = DeadPath {
        path: &path,
        entries: &entries,
        end,
        short,
        refuted: &refuted,
    };
    explain(basis, &dead, maker, journal, &mut Scratch::new(alloc))
}
