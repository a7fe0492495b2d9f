//! The search: one vertex is placed after another.

ghost use Rattle.std.specs.Prelude.{◌≡◌, ℕ, ◌<◌, ◌≤◌, true, false, IfSome, IfNone, List, length, slice_index};
ghost use Rattle.graph_theory.specs.Graph.{size};
ghost use Rattle.graph_theory.specs.Embedding.{Embeds, Allowed, Compatible, is_injective};
ghost use Rattle.bit_rows.specs.BitRows.{has, is_set};
ghost use Rattle.small_search.specs.Placing.{joins, edges_tell, Fits, AreInUse, Agrees, NoneAgreesAt, IsFree, Ends};

use crate::table::Table;
use graph_rows::Problem;

/// How a search ended.
#[derive(Clone, Copy, PartialEq, Eq)]
pub(crate) enum Ended {
    /// The images are an embedding.
    Found,
    /// No embedding has the images of the placed vertices.
    Refuted,
    /// The steps are spent.
    Spent,
}

/// Places the vertices that are left beside those that are placed.
pub(crate) fn extend(
    table: &Table<'_>,
    images: &mut [u16],
    steps: &mut u32,
    placed: u64,
    used: u64,
    beside: u64,
) -> Ended
    requires long { length images.old ≡ 64 }
    requires fits { Fits table.now (is_set placed) images.old }
    requires used { AreInUse placed used images.old }
    ensures ends { Ends result table.now placed images.old images.new }
    ensures same { Agrees placed images.old images.new }
    ensures steps { steps.new ≤ steps.old }
{
    let Some(p) = next_vertex(table, placed, beside) else {
        return Ended::Found;
    };
    let values = values_beside(table, images, placed, used, p);
    let mut rest = values;
    while rest != 0 {
        let t = rest.trailing_zeros() as u16;
        rest ^= 1 << t;
        if *steps == 0 {
            return Ended::Spent;
        }
        *steps -= 1;
        if goes_with(table, images, placed, p, t) {
            images[usize::from(p)] = t;
            let with_p = placed | (1 << p);
            let with_t = used | (1 << t);
            let around = beside | table.near[usize::from(p)];
            match extend(table, images, steps, with_p, with_t, around) {
                Ended::Found => return Ended::Found,
                Ended::Refuted => (),
                Ended::Spent => return Ended::Spent,
            }
        }
    }
    Ended::Refuted
}

/// The vertex to be placed next: among those beside placed ones, where there are any, the one with most placed
/// neighbours, and of these the one with fewest values.
fn next_vertex(table: &Table<'_>, placed: u64, beside: u64) -> Option<u16>
    ensures vertex { IfSome result (λ p. p < size table.now.pattern) }
    ensures open { IfSome result (λ p. is_set placed p ≡ false) }
    ensures none { IfNone result
        ((p : ℕ) → p < size table.now.pattern → is_set placed p ≡ true) }
{
    let left = table.all & !placed;
    if left == 0 {
        return None;
    }
    let close = left & beside;
    if close == 0 {
        Some(best_of(table, placed, left))
    } else {
        Some(best_of(table, placed, close))
    }
}

/// Of some vertices the one with most placed neighbours, and of these the one with fewest values.
fn best_of(table: &Table<'_>, placed: u64, vertices: u64) -> u16
    requires { 0 < vertices }
    ensures { is_set vertices result ≡ true }
{
    let mut best = vertices.trailing_zeros() as u16;
    let mut most = weight(table, placed, best);
    let mut rest = vertices ^ (1 << best);
    while rest != 0 {
        let p = rest.trailing_zeros() as u16;
        rest ^= 1 << p;
        let own = weight(table, placed, p);
        if own > most {
            best = p;
            most = own;
        }
    }
    best
}

/// A number that rises with the placed neighbours of `p`, and among equals falls with its values.
fn weight(table: &Table<'_>, placed: u64, p: u16) -> u32
    requires { p < 64 }
{
    let p = usize::from(p);
    128 * (table.near[p] & placed).count_ones() + 64 - table.values[p].count_ones()
}

/// The values of `p` beside the placed vertices.
fn values_beside(table: &Table<'_>, images: &[u16], placed: u64, used: u64, p: u16) -> u64
    requires long { length images.now ≡ 64 }
    requires fits { Fits table.now (is_set placed) images.now }
    requires used { AreInUse placed used images.now }
    requires p_in { p < size table.now.pattern }
    requires open { is_set placed p ≡ false }
    ensures right { (t : ℕ) → is_set result t ≡ true → IsFree table.now used t }
    ensures complete { (m : List ℕ) → Embeds table.now m → Agrees placed images.now m
        → is_set result (slice_index m p) ≡ true }
{
    let mut values = free_values(table, used, p);
    let mut rest = table.near[usize::from(p)] & placed;
    while rest != 0 {
        let r = rest.trailing_zeros() as u16;
        rest ^= 1 << r;
        values &= joined(table.problem, p, r, images[usize::from(r)]);
    }
    values
}

/// The values of `p`, where images differ without those in use.
fn free_values(table: &Table<'_>, used: u64, p: u16) -> u64
    requires { p < size table.now.pattern }
    ensures right { (t : ℕ) → is_set result t ≡ true → IsFree table.now used t }
    ensures complete { (m : List ℕ) → Embeds table.now m
        → (is_injective table.now.maps ≡ true → is_set used (slice_index m p) ≡ false)
        → is_set result (slice_index m p) ≡ true }
{
    let values = table.values[usize::from(p)];
    if table.injective {
        values & !used
    } else {
        values
    }
}

/// The target vertices to which `p` may go where `r` is at `u`, as far as edges between the two tell.
fn joined(q: &Problem, p: u16, r: u16, u: u16) -> u64
    requires target { size q.now.target ≤ 64 }
    requires p_in { p < size q.now.pattern }
    requires r_in { r < size q.now.pattern }
    requires u_in { u < size q.now.target }
    ensures { (t : ℕ) → t < size q.now.target → Compatible q.now p t r u
        → is_set result t ≡ true }
{
    let from = word_where(q.pattern().has_edge(p, r), q.target().in_row(u));
    let to = word_where(q.pattern().has_edge(r, p), q.target().row(u));
    from & to
}

/// The word of the row, or of all numbers where it does not count.
fn word_where(counts: bool, row: &[u64]) -> u64
    requires { 1 ≤ length row.now }
    ensures { (t : ℕ) → t < 64 → (counts ≡ true → has row.now t ≡ true) → is_set result t ≡ true }
{
    if counts { row[0] } else { u64::MAX }
}

/// Whether `p` may go to `t` beside the placed vertices.
fn goes_with(table: &Table<'_>, images: &[u16], placed: u64, p: u16, t: u16) -> bool
    requires long { length images.now ≡ 64 }
    requires fits { Fits table.now (is_set placed) images.now }
    requires p_in { p < size table.now.pattern }
    requires open { is_set placed p ≡ false }
    requires t_in { t < size table.now.target }
    requires apart { is_injective table.now.maps ≡ true → (r : ℕ) → is_set placed r ≡ true
        → slice_index images.now r ≡ t → ⊥ }
    ensures alone { result ≡ true → Allowed table.now p t }
    ensures yes { result ≡ true → (r : ℕ) → is_set placed r ≡ true
        → Compatible table.now p t r (slice_index images.now r) }
    ensures no { result ≡ false → NoneAgreesAt table.now placed images.now p t }
{
    if !table.problem.allowed(p, t) {
        return false;
    }
    let mut rest = looked_at(table, placed, p);
    while rest != 0 {
        let r = rest.trailing_zeros() as u16;
        rest ^= 1 << r;
        if !table.problem.compatible(p, t, r, images[usize::from(r)]) {
            return false;
        }
    }
    true
}

/// The placed vertices that may not go with an image of `p`: where edges tell all, those that one joins to `p`.
fn looked_at(table: &Table<'_>, placed: u64, p: u16) -> u64
    requires { p < size table.now.pattern }
    ensures placed { (r : ℕ) → is_set result r ≡ true → is_set placed r ≡ true }
    ensures others { (r : ℕ) → is_set placed r ≡ true → r < size table.now.pattern → is_set result r ≡ false
        → (edges_tell table.now ≡ true) × (joins table.now p r ≡ false) }
{
    if table.by_edges {
        placed & table.near[usize::from(p)]
    } else {
        placed
    }
}
