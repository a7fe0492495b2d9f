//! The degree filter: a vertex goes to none with room for fewer neighbours.
//!
//! An embedding whose images are apart around each vertex sends the neighbours of a vertex to the ends of its image's edges, one to one, so a
//! value with fewer of them lies in none (J. R. Ullmann, "An algorithm for subgraph isomorphism", 1976). It does the same with those from
//! which an edge leads to it. By injective maps a vertex and its neighbours are apart too, so that a loop gives no room; by local ones
//! it gives one place more; and any maps ask nothing. Degrees are those that the graphs keep: loops do not count.
#![tactic(auto)]

ghost use Rattle.std.specs.Prelude.{◌≡◌, ℕ, ◌<◌, ◌≤◌, ◌↔◌, true, length, IsTrue};
ghost use Rattle.graph_theory.specs.Graph.{size};
ghost use Rattle.graph_theory.specs.Asked.{asked_degree, room};
ghost use Rattle.graph_theory.specs.Neighbours.{degree};
ghost use Rattle.graph_theory.specs.Reversed.{reversed_problem, turned, turned_problem};
ghost use Rattle.bit_rows.specs.BitRows.{has, words_for};
ghost use Rattle.degree_filter.specs.Degrees.{LesserDegreesAreDead};

use bit_rows::{keep_counted, unset_bit};
use graph_rows::Problem;
use graph_theory::direction::Direction;
use graph_theory::embedding::Maps;

/// Whether `t` has room for the neighbours of `p` in each direction. Cost: six steps.
pub fn keeps(q: &Problem, p: u16, t: u16) -> bool
    requires p_in { p < size q.now.pattern }
    requires t_in { t < size q.now.target }
    ensures { IsTrue result
        ↔ ((asked_degree q.now p ≤ room q.now t)
        × (asked_degree (reversed_problem q.now) p ≤ room (reversed_problem q.now) t)) }
{
    keeps_by(q, Direction::Out, p, t) && keeps_by(q, Direction::In, p, t)
}

/// Whether `t` has room for the neighbours of `p` in this direction. Cost: three steps.
pub fn keeps_by(q: &Problem, direction: Direction, p: u16, t: u16) -> bool
    requires p_in { p < size q.now.pattern }
    requires t_in { t < size q.now.target }
    ensures { IsTrue result
        ↔ (asked_degree (turned_problem direction q.now) p
        ≤ room (turned_problem direction q.now) t) }
{
    asked(q, direction, p) <= room_at(q, direction, t)
}

/// Keeps of a row of target vertices those with room for the neighbours of `p` in this direction. Cost: one step for each target
/// vertex, three where the maps are local, and nothing where they are any.
pub fn keep_degrees(q: &Problem, direction: Direction, p: u16, row: &mut [u64])
    requires p_in { p < size q.now.pattern }
    requires long { length row.old ≡ words_for (size q.now.target) }
    requires within { (t : ℕ) → has row.old t ≡ true → t < size q.now.target }
    ensures right { (t : ℕ) → has row.new t ≡ true → (has row.old t ≡ true)
        × (asked_degree (turned_problem direction q.now) p
        ≤ room (turned_problem direction q.now) t) }
    ensures complete { (t : ℕ) → has row.old t ≡ true
        → asked_degree (turned_problem direction q.now) p
        ≤ room (turned_problem direction q.now) t
        → has row.new t ≡ true }
{
    match q.maps() {
        Maps::Injective => keep_large(q, direction, p, row),
        Maps::Local => keep_roomy(q, direction, p, row),
        Maps::Any => {}
    }
}

/// How many neighbours of `p` need room in this direction.
fn asked(q: &Problem, direction: Direction, p: u16) -> u32
    requires { p < size q.now.pattern }
    ensures { result ≡ asked_degree (turned_problem direction q.now) p }
{
    let degree = u32::from(q.pattern().degree_by(direction, p));
    match q.maps() {
        Maps::Injective => degree,
        Maps::Local => degree,
        Maps::Any => 0,
    }
}

/// For how many neighbours `t` has room in this direction.
fn room_at(q: &Problem, direction: Direction, t: u16) -> u32
    requires { t < size q.now.target }
    ensures { result ≡ room (turned_problem direction q.now) t }
{
    let degree = u32::from(q.target().degree_by(direction, t));
    let own = u32::from(q.target().has_edge(t, t));
    match q.maps() {
        Maps::Injective => degree,
        Maps::Local => own + degree,
        Maps::Any => own + degree,
    }
}

/// Keeps of a row of target vertices those with as many neighbours as `p`, at least, in this direction. Cost: one step for each target
/// vertex.
pub fn keep_large(q: &Problem, direction: Direction, p: u16, row: &mut [u64])
    requires p_in { p < size q.now.pattern }
    requires long { length row.old ≡ words_for (size q.now.target) }
    requires within { (t : ℕ) → has row.old t ≡ true → t < size q.now.target }
    ensures right { (t : ℕ) → has row.new t ≡ true → (has row.old t ≡ true)
        × (degree (turned direction q.now.pattern) p
        ≤ degree (turned direction q.now.target) t) }
    ensures complete { (t : ℕ) → has row.old t ≡ true
        → degree (turned direction q.now.pattern) p
        ≤ degree (turned direction q.now.target) t
        → has row.new t ≡ true }
{
    let least = q.pattern().degree_by(direction, p);
    keep_counted(row, q.target().degrees_by(direction), least);
}

/// Keeps those with room, value by value.
fn keep_roomy(q: &Problem, direction: Direction, p: u16, row: &mut [u64])
    requires p_in { p < size q.now.pattern }
    requires long { length row.old ≡ words_for (size q.now.target) }
    requires within { (t : ℕ) → has row.old t ≡ true → t < size q.now.target }
    ensures right { (t : ℕ) → has row.new t ≡ true → (has row.old t ≡ true)
        × (asked_degree (turned_problem direction q.now) p
        ≤ room (turned_problem direction q.now) t) }
    ensures complete { (t : ℕ) → has row.old t ≡ true
        → asked_degree (turned_problem direction q.now) p
        ≤ room (turned_problem direction q.now) t
        → has row.new t ≡ true }
{
    for t in 0..q.target().size() {
        if !keeps_by(q, direction, p, t) {
            unset_bit(row, usize::from(t));
        }
    }
}

/// A value without room for the neighbours of its vertex lies in no embedding.
pub fn lesser_degrees_are_dead()
    ensures { LesserDegreesAreDead }
{}
