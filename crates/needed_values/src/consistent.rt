//! What a vertex at its place leaves to another.

ghost use Rattle.std.specs.Prelude.{◌≡◌, ℕ, ◌*◌, ◌<◌, ◌≤◌, ◌&&◌, ◌==◌, ◌⊎◌, not, true, false, is_some, length, IfOk, OnOk};
ghost use Rattle.graph_theory.specs.Graph.{size, edge};
ghost use Rattle.graph_theory.specs.Embedding.{differ};
ghost use Rattle.graph_theory.specs.Asked.{asked_shared};
ghost use Rattle.graph_theory.specs.Neighbours.{common};
ghost use Rattle.graph_theory.specs.Reversed.{turned, turned_problem, reversed_problem};
ghost use Rattle.bit_rows.specs.BitRows.{has, words_for};
ghost use Rattle.needed_values.specs.Consistent.{edges_agree, are_joined, HaveZeroLabels, Leaves, AllConsistent, Goes, AllGo, Shares, AllShare};

use crate::sharers::{Sharers, is_within};
use bit_rows::{and_into, and_not_into, count_both, has_bit, keep_counted, next_member, unset_bit};
use common_neighbour::Counts;
use graph_rows::{Graph, Problem};
use graph_theory::direction::Direction;
use graph_theory::embedding::Maps;
use std::alloc::{AllocError, Global};

/// Shared neighbours are counted with no vertex that has more neighbours than these.
const MOST_NEAR: u16 = 12;

/// Keeps of a row of values those whose edges with `t` in a direction are as those of `p` and `r` ask, labels aside. Cost: one step for
/// each word.
fn keep_near(q: &Problem, direction: Direction, p: u16, t: u16, r: u16, row: &mut [u64])
    requires p_in { p < size q.now.pattern }
    requires t_in { t < size q.now.target }
    requires r_in { r < size q.now.pattern }
    requires long { length row.old ≡ words_for (size q.now.target) }
    ensures { (u : ℕ) → has row.new u
        ≡ (has row.old u && edges_agree (turned_problem direction q.now) p t r u) }
{
    if has_bit(q.pattern().row_by(direction, p), usize::from(r)) {
        and_into(row, q.target().row_by(direction, t));
    } else if q.induced() {
        and_not_into(row, q.target().row_by(direction, t));
    }
}

/// Keeps of a row of values, all of which are right along edges, those that are against them. Cost: one step for each word; where edges are
/// known to stand both ways all are, and it takes one step.
fn keep_back(q: &Problem, p: u16, t: u16, r: u16, row: &mut [u64])
    requires p_in { p < size q.now.pattern }
    requires t_in { t < size q.now.target }
    requires r_in { r < size q.now.pattern }
    requires long { length row.old ≡ words_for (size q.now.target) }
    requires within { (u : ℕ) → has row.old u ≡ true → u < size q.now.target }
    requires along { (u : ℕ) → has row.old u ≡ true → edges_agree q.now p t r u ≡ true }
    ensures { (u : ℕ) → has row.new u
        ≡ (has row.old u && edges_agree (reversed_problem q.now) p t r u) }
{
    if q.is_mutual() {
        return;
    }
    keep_near(q, Direction::In, p, t, r, row);
}

/// Keeps of a row of values those that go together with `p` at `t`, each of them tested. Cost: four words for each value.
fn keep_tested(q: &Problem, p: u16, t: u16, r: u16, row: &mut [u64])
    requires p_in { p < size q.now.pattern }
    requires t_in { t < size q.now.target }
    requires r_in { r < size q.now.pattern }
    requires long { length row.old ≡ words_for (size q.now.target) }
    requires within { (u : ℕ) → has row.old u ≡ true → u < size q.now.target }
    ensures goes { Goes q.now p t r row.old row.new }
    ensures all { AllGo q.now p t r row.new }
{
    let _size = q.target().size();
    let mut u = next_member(row, 0);
    while u < 64 * row.len() {
        if !q.compatible(p, t, r, u as u16) {
            unset_bit(row, u);
        }
        u = next_member(row, u + 1);
    }
}

/// Whether an edge leads from one pattern vertex to the other. Cost: two words.
fn are_joined_by(q: &Problem, p: u16, r: u16) -> bool
    requires p_in { p < size q.now.pattern }
    requires r_in { r < size q.now.pattern }
    ensures { result ≡ are_joined q.now p r }
{
    q.pattern().has_edge(p, r) || q.pattern().has_edge(r, p)
}

/// Whether labels of edges may tell values of `r` apart: an edge joins it to `p`, and one of the graphs keeps labels. Cost: at most four
/// words.
pub(crate) fn asks_labels(q: &Problem, p: u16, r: u16) -> bool
    requires p_in { p < size q.now.pattern }
    requires r_in { r < size q.now.pattern }
    ensures { result ≡ false → (are_joined q.now p r ≡ false) ⊎ HaveZeroLabels q.now }
{
    (q.pattern().keeps_edge_labels() || q.target().keeps_edge_labels()) && are_joined_by(q, p, r)
}

/// Keeps of a row of values of `r` those that are not `t`, where the images of `p` and `r` have to differ. Cost: one word, and that of `differ`.
fn keep_apart(q: &Problem, p: u16, t: u16, r: u16, row: &mut [u64])
    requires p_in { p < size q.now.pattern }
    requires t_in { t < size q.now.target }
    requires r_in { r < size q.now.pattern }
    requires long { length row.old ≡ words_for (size q.now.target) }
    ensures { (u : ℕ) → has row.new u ≡ (has row.old u && not (differ q.now p r && (t == u))) }
{
    if q.differ(p, r) {
        unset_bit(row, usize::from(t));
    }
}

/// Keeps of a row of values of `r` those that go together with `p` at `t`. Cost: two steps for each word, and where a graph keeps labels of
/// edges and one joins `p` and `r` four words for each value that these leave.
pub(crate) fn keep_compatible(q: &Problem, p: u16, t: u16, r: u16, row: &mut [u64])
    requires p_in { p < size q.now.pattern }
    requires t_in { t < size q.now.target }
    requires r_in { r < size q.now.pattern }
    requires long { length row.old ≡ words_for (size q.now.target) }
    requires within { (u : ℕ) → has row.old u ≡ true → u < size q.now.target }
    ensures goes { Goes q.now p t r row.old row.new }
    ensures all { AllGo q.now p t r row.new }
{
    keep_near(q, Direction::Out, p, t, r, row);
    keep_back(q, p, t, r, row);
    keep_apart(q, p, t, r, row);
    if asks_labels(q, p, r) {
        keep_tested(q, p, t, r, row);
    }
}

/// How many neighbours two vertices share in a direction. Cost: one step for each word of a row.
fn shared_by(
    alloc: Global,
    pattern: &Graph,
    direction: Direction,
    p: u16,
    r: u16,
) -> Result<u16, AllocError>
    requires p_in { p < size pattern.now }
    requires r_in { r < size pattern.now }
    requires apart { p ≡ r → ⊥ }
    ensures { IfOk result (λ n. n ≡ common (turned direction pattern.now) p r) }
{
    Ok(Counts::new(alloc, pattern, direction)?.count(p, r))
}

/// How many neighbours the images of two vertices have to share in a direction. Cost: one step for each word of a row, by injective maps alone.
fn asked_by(
    alloc: Global,
    q: &Problem,
    direction: Direction,
    p: u16,
    r: u16,
) -> Result<u16, AllocError>
    requires p_in { p < size q.now.pattern }
    requires r_in { r < size q.now.pattern }
    requires apart { p ≡ r → ⊥ }
    ensures { IfOk result (λ n. n ≡ asked_shared (turned_problem direction q.now) p r) }
{
    match q.maps() {
        Maps::Injective => shared_by(alloc, q.pattern(), direction, p, r),
        Maps::Local => Ok(0),
        Maps::Any => Ok(0),
    }
}

/// Keeps of a row of values those that share so many neighbours with `t` in a direction, where these are few enough to be counted, and
/// tells whether it did. Cost: where none need be shared, or `t` has many neighbours, two steps; else one for each value, and for each
/// neighbour of a neighbour of `t`.
fn keep_sharing(
    alloc: Global,
    target: &Graph,
    direction: Direction,
    t: u16,
    shared: u16,
    row: &mut [u64],
    counts: &mut [u16],
) -> Result<bool, AllocError>
    requires t_in { t < size target.now }
    requires long { length row.old ≡ words_for (size target.now) }
    requires within { (u : ℕ) → has row.old u ≡ true → u < size target.now }
    requires other { 0 < shared → has row.old t ≡ false }
    requires counts { length counts.old ≡ size target.now }
    ensures shares { OnOk result (Shares (turned direction target.now) t shared row.old row.new) }
    ensures all { IfOk result (λ b. AllShare b (turned direction target.now) t shared row.new) }
{
    let _size = target.size();
    if shared == 0 {
        return Ok(true);
    }
    if target.degree_by(direction, t) > MOST_NEAR {
        return Ok(false);
    }
    Counts::new(alloc, target, direction)?.fill_counts(t, counts);
    keep_counted(row, counts, shared);
    Ok(true)
}

/// Keeps those that share as many in each direction, where these are few enough to be counted, and tells whether it did. Where edges are
/// known to stand both ways one direction is enough. Cost: that of `keep_sharing`, once or twice.
fn keep_sharing_both(
    alloc: Global,
    q: &Problem,
    p: u16,
    t: u16,
    r: u16,
    row: &mut [u64],
    counts: &mut [u16],
) -> Result<bool, AllocError>
    requires go { AllGo q.now p t r row.old }
    requires counts { length counts.old ≡ size q.now.target }
    requires long { length row.old ≡ words_for (size q.now.target) }
    requires within { (u : ℕ) → has row.old u ≡ true → u < size q.now.target }
    requires p_in { p < size q.now.pattern }
    requires t_in { t < size q.now.target }
    requires r_in { r < size q.now.pattern }
    requires apart { p ≡ r → ⊥ }
    ensures leaves { OnOk result (Leaves q.now p t r row.old row.new) }
    ensures all { IfOk result (λ b. AllConsistent b q.now p t r row.new) }
{
    let target = q.target();
    let out = asked_by(alloc, q, Direction::Out, p, r)?;
    let along = keep_sharing(alloc, target, Direction::Out, t, out, row, counts)?;
    if q.is_mutual() {
        return Ok(along);
    }
    let back = asked_by(alloc, q, Direction::In, p, r)?;
    let against = keep_sharing(alloc, target, Direction::In, t, back, row, counts)?;
    Ok(along && against)
}

/// Keeps of a row of values of `r` those that are consistent with `p` at `t`, as far as is quickly told, and tells whether all that are
/// left are. Cost: a few steps for each word, and where an edge with a label joins `p` and `r` for each value that edges leave; where they share
/// neighbours by injective maps and `t` has at most 12, also one for each value, and for each neighbour of a neighbour of `t`.
pub fn keep_consistent(
    alloc: Global,
    q: &Problem,
    p: u16,
    t: u16,
    r: u16,
    row: &mut [u64],
    counts: &mut [u16],
) -> Result<bool, AllocError>
    requires p_in { p < size q.now.pattern }
    requires t_in { t < size q.now.target }
    requires r_in { r < size q.now.pattern }
    requires apart { p ≡ r → ⊥ }
    requires long { length row.old ≡ words_for (size q.now.target) }
    requires within { (u : ℕ) → has row.old u ≡ true → u < size q.now.target }
    requires counts { length counts.old ≡ size q.now.target }
    ensures leaves { OnOk result (Leaves q.now p t r row.old row.new) }
    ensures all { IfOk result (λ b. AllConsistent b q.now p t r row.new) }
{
    keep_compatible(q, p, t, r, row);
    keep_sharing_both(alloc, q, p, t, r, row, counts)
}

/// Whether both rows hold the value.
fn in_both(xs: &[u64], ys: &[u64], value: usize) -> bool
    requires x_in { value < 64 * length xs.now }
    requires y_in { value < 64 * length ys.now }
    ensures { result ≡ (has xs.now value && has ys.now value) }
{
    has_bit(xs, value) && has_bit(ys, value)
}

/// Whether `u` shares so many neighbours with `t`, whose row of neighbours is `near`. Both rows may hold the two themselves; with two more
/// than need be shared that is not looked at. Cost: one step for each word of a row.
#[inline(always)]
fn shares_enough(
    target: &Graph,
    direction: Direction,
    near: &[u64],
    t: u16,
    u: u16,
    shared: u16,
) -> bool
    requires t_in { t < size target.now }
    requires u_in { u < size target.now }
    requires apart { t ≡ u → ⊥ }
    requires long { length near.now ≡ words_for (size target.now) }
    requires near { (v : ℕ)
        → has near.now v ≡ is_some (edge (turned direction target.now) t v) }
    ensures { result ≡ true → shared ≤ common (turned direction target.now) t u }
{
    let row = target.row_by(direction, u);
    let both = count_both(near, row, usize::from(target.size()));
    let least = usize::from(shared);
    if both >= least + 2 {
        return true;
    }
    let itself = in_both(near, row, usize::from(t));
    let other = in_both(near, row, usize::from(u));
    both >= least + usize::from(itself) + usize::from(other)
}

/// Whether each value of a row shares so many neighbours with `t` in a direction. Cost: where none need be shared one step, else one for each
/// word of a row, for each value up to the first that does not.
fn all_share(target: &Graph, direction: Direction, t: u16, shared: u16, row: &[u64]) -> bool
    requires t_in { t < size target.now }
    requires long { length row.now ≡ words_for (size target.now) }
    requires within { (u : ℕ) → has row.now u ≡ true → u < size target.now }
    requires other { 0 < shared → has row.now t ≡ false }
    ensures { AllShare result (turned direction target.now) t shared row.now }
{
    let _size = target.size();
    if shared == 0 {
        return true;
    }
    let near = target.row_by(direction, t);
    let mut u = next_member(row, 0);
    while u < 64 * row.len() {
        if !shares_enough(target, direction, near, t, u as u16, shared) {
            return false;
        }
        u = next_member(row, u + 1);
    }
    true
}

/// The same along edges, by the row that is kept of those that do; where none is kept they are counted. Cost: where none need be shared, or a row is
/// kept, one step for each word of a row; else that of `all_share`.
#[inline(always)]
fn all_share_along(sharers: &Sharers, t: u16, shared: u16, row: &[u64]) -> bool
    requires t_in { t < size sharers.now.target }
    requires long { length row.now ≡ words_for (size sharers.now.target) }
    requires within { (u : ℕ) → has row.now u ≡ true → u < size sharers.now.target }
    requires other { 0 < shared → has row.now t ≡ false }
    ensures { AllShare result sharers.now.target t shared row.now }
{
    if shared == 0 {
        return true;
    }
    match sharers.row(t, shared) {
        Some(others) => is_within(row, others),
        None => all_share(sharers.problem().target(), Direction::Out, t, shared, row),
    }
}

/// How many neighbours the images of two pattern vertices have to share along edges. Cost: a few steps where that is kept, else that of
/// `asked_by`.
#[inline(always)]
fn asked_along(alloc: Global, sharers: &Sharers, p: u16, r: u16) -> Result<u16, AllocError>
    requires p_in { p < size sharers.now.pattern }
    requires r_in { r < size sharers.now.pattern }
    requires apart { p ≡ r → ⊥ }
    ensures { IfOk result (λ n. n ≡ asked_shared sharers.now p r) }
{
    match sharers.count(p, r) {
        Some(count) => Ok(count),
        None => asked_by(alloc, sharers.problem(), Direction::Out, p, r),
    }
}

/// Whether each value of a row of `r`, all of which go together with `p` at `t`, is consistent with it. Where edges are known to stand both ways
/// one direction is enough. Cost: that of counting what `p` and `r` share, and of `all_share`, once or twice; along edges one step for each word
/// where a row of those that share as many is kept.
pub fn are_all_consistent(
    alloc: Global,
    sharers: &Sharers,
    p: u16,
    t: u16,
    r: u16,
    row: &[u64],
) -> Result<bool, AllocError>
    requires p_in { p < size sharers.now.pattern }
    requires t_in { t < size sharers.now.target }
    requires r_in { r < size sharers.now.pattern }
    requires apart { p ≡ r → ⊥ }
    requires long { length row.now ≡ words_for (size sharers.now.target) }
    requires within { (u : ℕ) → has row.now u ≡ true → u < size sharers.now.target }
    requires go { AllGo sharers.now p t r row.now }
    ensures { IfOk result (λ b. AllConsistent b sharers.now p t r row.now) }
{
    let q = sharers.problem();
    let out = asked_along(alloc, sharers, p, r)?;
    let along = all_share_along(sharers, t, out, row);
    if q.is_mutual() {
        return Ok(along);
    }
    if !along {
        return Ok(false);
    }
    let back = asked_by(alloc, q, Direction::In, p, r)?;
    Ok(all_share(q.target(), Direction::In, t, back, row))
}
