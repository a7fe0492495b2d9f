//! What is known of a small problem before anything is placed.

ghost use Rattle.std.specs.Prelude.{◌≡◌, ℕ, ◌<◌, ◌≤◌, true, nat_lt, length, slice_index};
ghost use Rattle.graph_theory.specs.Graph.{size};
ghost use Rattle.graph_theory.specs.Embedding.{is_injective as injective_maps};
ghost use Rattle.graph_theory.specs.Asked.{asked_degree, room};
ghost use Rattle.graph_theory.specs.Reversed.{reversed_problem};
ghost use Rattle.bit_rows.specs.BitRows.{has, is_set, words_for};
ghost use Rattle.small_search.specs.Placing.{IsSmall, AreValues, AreNear};

use bit_rows::{fill_below, keep_equal};
use degree_filter::keep_degrees;
use graph_rows::Problem;
use graph_theory::direction::Direction;
use graph_theory::embedding::Maps;
use std::marker::Model;

/// The most vertices of a graph whose sets of vertices are one word.
pub(crate) const MOST: usize = 64;

/// A small problem, with the values of each of its pattern vertices and those that an edge joins to it.
#[derive(Drop)]
pub(crate) struct Table<'a> {
    pub(crate) problem: &'a Problem,
    pub(crate) values: &'a [u64],
    pub(crate) near: &'a [u64],
    /// All pattern vertices.
    pub(crate) all: u64,
    /// Whether any two images differ.
    pub(crate) injective: bool,
    /// Whether only vertices that an edge joins can have images that do not go together, but for equal ones.
    pub(crate) by_edges: bool,
}

impl<'a> Model for Table<'a> {
    ghost use Rattle.graph_theory.specs.Embedding.{Problem as TheProblem};
    ghost use Rattle.small_search.specs.Placing.{IsTable};

    ghost Value = { TheProblem };

    ghost view = { λ t. t.problem.now };

    ghost invariant = { λ t. IsTable t.problem.now t.values.now t.near.now t.all t.injective
        t.by_edges };
}

impl<'a> Table<'a> {
    /// The table of a problem with these words.
    pub(crate) fn new(problem: &'a Problem, values: &'a [u64], near: &'a [u64]) -> Table<'a>
        requires small { IsSmall problem.now }
        requires values_long { length values.now ≡ 64 }
        requires near_long { length near.now ≡ 64 }
        requires values { (p : ℕ) → p < size problem.now.pattern
            → AreValues problem.now p (slice_index values.now p) }
        requires near { (p : ℕ) → p < size problem.now.pattern
            → AreNear problem.now p (slice_index near.now p) }
        ensures { result ≡ problem.entry.now }
    {
        let injective = is_injective(problem.maps());
        Table {
            problem,
            values,
            near,
            all: word_below(problem.pattern().size()),
            injective,
            by_edges: injective && !problem.induced(),
        }
    }
}

/// Whether maps of this kind are injective.
fn is_injective(maps: Maps) -> bool
    ensures { result ≡ injective_maps maps }
{
    match maps {
        Maps::Injective => true,
        Maps::Local => false,
        Maps::Any => false,
    }
}

/// The word of all numbers less than `below`.
pub(crate) fn word_below(below: u16) -> u64
    requires { below ≤ 64 }
    ensures { (v : ℕ) → is_set result v ≡ nat_lt v below }
{
    if below >= 64 {
        u64::MAX
    } else {
        (1 << below) - 1
    }
}

/// Writes the values of each pattern vertex.
pub(crate) fn fill_values(q: &Problem, values: &mut [u64])
    requires small { IsSmall q.now }
    requires long { length values.old ≡ 64 }
    ensures { (p : ℕ) → p < size q.now.pattern → AreValues q.now p (slice_index values.new p) }
{
    for p in 0..q.pattern().size() {
        values[usize::from(p)] = values_of(q, p);
    }
}

/// The target vertices to which `p` may go, as its label and its degrees tell.
fn values_of(q: &Problem, p: u16) -> u64
    requires small { IsSmall q.now }
    requires p_in { p < size q.now.pattern }
    ensures { AreValues q.now p result }
{
    let mut row = [0u64; 1];
    fill_below(&mut row, usize::from(q.target().size()));
    keep_equal(&mut row, q.target().labels(), q.pattern().label(p));
    keep_degrees(q, Direction::Out, p, &mut row);
    keep_in_degrees(q, p, &mut row);
    first_word(&row)
}

/// The first word of a row.
fn first_word(row: &[u64]) -> u64
    requires { 1 ≤ length row.now }
    ensures { result ≡ slice_index row.now 0 }
{
    row[0]
}

/// Keeps of a row of values those with room for the vertices from which edges lead to `p`, where these are not known
/// to be its neighbours.
fn keep_in_degrees(q: &Problem, p: u16, row: &mut [u64])
    requires p_in { p < size q.now.pattern }
    requires long { length row.old ≡ words_for (size q.now.target) }
    requires within { (t : ℕ) → has row.old t ≡ true → t < size q.now.target }
    ensures right { (t : ℕ) → has row.new t ≡ true → has row.old t ≡ true }
    ensures complete { (t : ℕ) → has row.old t ≡ true
        → asked_degree (reversed_problem q.now) p ≤ room (reversed_problem q.now) t
        → has row.new t ≡ true }
{
    if !q.is_mutual() {
        keep_degrees(q, Direction::In, p, row);
    }
}

/// Writes for each pattern vertex those that an edge joins to it.
pub(crate) fn fill_near(q: &Problem, near: &mut [u64])
    requires small { IsSmall q.now }
    requires long { length near.old ≡ 64 }
    ensures { (p : ℕ) → p < size q.now.pattern → AreNear q.now p (slice_index near.new p) }
{
    for p in 0..q.pattern().size() {
        near[usize::from(p)] = near_of(q, p);
    }
}

/// The pattern vertices that an edge joins to `p`.
fn near_of(q: &Problem, p: u16) -> u64
    requires small { IsSmall q.now }
    requires p_in { p < size q.now.pattern }
    ensures { AreNear q.now p result }
{
    q.pattern().row(p)[0] | q.pattern().in_row(p)[0]
}
