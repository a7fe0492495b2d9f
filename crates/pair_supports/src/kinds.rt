//! Kinds of pairs of pattern vertices: two pairs of one kind have the same consistent values.

ghost use Rattle.std.specs.Prelude.{◌≡◌, ℕ, ◌+◌, ◌*◌, ◌^◌, ◌<◌, ◌≤◌, ◌↔◌, ◌&&◌, ◌||◌, not, true, false, is_some, IsTrue, IfOk, IfSome, OnOk, Some, drop, length, slice_index, slice_get};
ghost use Rattle.graph_theory.specs.Graph.{size, edge};
ghost use Rattle.graph_theory.specs.Neighbours.{common};
ghost use Rattle.graph_theory.specs.Embedding.{Matches};
ghost use Rattle.graph_theory.specs.Asked.{asked_shared};
ghost use Rattle.graph_theory.specs.Reversed.{reversed, reversed_problem};
ghost use Rattle.graph_theory.specs.declared.embedding.Maps.TheVariants.{Injective};
ghost use Rattle.bit_rows.specs.BitRows.{has, words_for};
ghost use Rattle.graph_rows.specs.Labels.{agree};
ghost use Rattle.pair_supports.specs.Kinds.{kind_of, Joins, Shares, MatchEdges, IsTold, AreTold, Serve, ServeAll, RowIs, HasRow, AreKinds, KindsStay, WordsStay, AreApart};

use crate::asks::has_edge;
use crate::kind_places::{GUESSES, place_of};
use bit_rows::{
    and_into, and_not_into, clear, fill_below, keep_counted, next_member, set_bit, unset_bit,
};
use common_neighbour::Counts;
use graph_rows::{Graph, Problem};
use graph_theory::direction::{Direction, reversed_laws};
use graph_theory::embedding::Maps;
use std::alloc::{AllocError, Global};

/// What two pattern vertices ask of their images.
#[derive(Clone, Copy, PartialEq, Eq)]
pub(crate) struct PairKind {
    /// Whether the two images have to differ.
    pub(crate) apart: bool,
    /// The label of the edge from the first to the second, or none.
    pub(crate) out: Option<u32>,
    /// The label of the edge back, or none.
    pub(crate) back: Option<u32>,
    /// How many vertices edges have to lead to from both images.
    pub(crate) shared: u16,
    /// How many vertices edges have to lead from to both. (Without directions as many.)
    pub(crate) in_shared: u16,
}

/// How many neighbours a target vertex shares with each other one; in a direction in which no kind asks for any they are of no meaning.
#[derive(Clone, Copy)]
pub(crate) struct SharedCounts<'a> {
    /// How many vertices edges lead to from both.
    pub(crate) out: &'a [u16],
    /// How many vertices edges lead from to both; where edges stand both ways these are the same counts.
    pub(crate) back: &'a [u16],
    /// Whether edges are known to stand both ways.
    pub(crate) both_ways: bool,
}

/// How many neighbours the pattern's vertices share.
#[derive(Drop)]
struct PatternCounts<'a> {
    /// How many vertices edges lead to from both.
    out: Counts<'a>,
    /// How many vertices edges lead from to both.
    back: Counts<'a>,
}

/// The kinds that occur, and for each two vertices the place of their kind among them, pair after pair. Cost: one step
/// for each pair, one for each word of a row for each two vertices, and where the first guess of a kind fails one for each kind.
pub(crate) fn classify(alloc: Global, q: &Problem) -> Result<(Vec<PairKind>, Vec<u32>), AllocError>
    requires few { size q.now.pattern ≤ 1024 }
    ensures classes { IfOk result
        (λ c. AreKinds q.now c.0.items c.1.items (size q.now.pattern * size q.now.pattern)) }
{
    let counts = PatternCounts {
        out: Counts::new(alloc, q.pattern(), Direction::Out)?,
        back: Counts::new(alloc, q.pattern(), Direction::In)?,
    };
    let mut guesses = vec![in alloc; 0u32; GUESSES]?;
    let mut kinds = Vec::new(alloc);
    let mut places = Vec::new(alloc);
    classify_all(q, &counts, &mut kinds, &mut places, &mut guesses)?;
    Ok((kinds, places))
}

/// Adds the places of all pairs, and the kinds that occur.
fn classify_all(
    q: &Problem,
    counts: &PatternCounts,
    kinds: &mut Vec<PairKind>,
    places: &mut Vec<u32>,
    guesses: &mut [u32],
) -> Result<(), AllocError>
    requires few { size q.now.pattern ≤ 1024 }
    requires same { counts.now.out ≡ q.now.pattern }
    requires in_same { counts.now.back ≡ reversed q.now.pattern }
    requires before { AreKinds q.now kinds.old.items places.old.items 0 }
    requires guesses { length guesses.old ≡ 256 }
    ensures { OnOk result (AreKinds
        q.now kinds.new.items places.new.items (size q.now.pattern * size q.now.pattern)) }
{
    for p in 0..q.pattern().size() {
        classify_from(q, counts, p, kinds, places, guesses)?;
    }
    Ok(())
}

/// Adds the places of the pairs whose first vertex is `p`, and the kinds that are new.
fn classify_from(
    q: &Problem,
    counts: &PatternCounts,
    p: u16,
    kinds: &mut Vec<PairKind>,
    places: &mut Vec<u32>,
    guesses: &mut [u32],
) -> Result<(), AllocError>
    requires few { size q.now.pattern ≤ 1024 }
    requires same { counts.now.out ≡ q.now.pattern }
    requires in_same { counts.now.back ≡ reversed q.now.pattern }
    requires p_in { p < size q.now.pattern }
    requires before { AreKinds q.now kinds.old.items places.old.items (p * size q.now.pattern) }
    requires guesses { length guesses.old ≡ 256 }
    ensures { IfOk result
        (λ _. AreKinds q.now kinds.new.items places.new.items ((p + 1) * size q.now.pattern)) }
{
    for r in 0..q.pattern().size() {
        let place = place_for(q, counts, p, r, kinds, places, guesses)?;
        places.push(place)?;
    }
    Ok(())
}

/// The place of a pair's kind, which is added where it is new; for a vertex and itself any number.
fn place_for(
    q: &Problem,
    counts: &PatternCounts,
    p: u16,
    r: u16,
    kinds: &mut Vec<PairKind>,
    places: &[u32],
    guesses: &mut [u32],
) -> Result<u32, AllocError>
    requires same { counts.now.out ≡ q.now.pattern }
    requires in_same { counts.now.back ≡ reversed q.now.pattern }
    requires p_in { p < size q.now.pattern }
    requires r_in { r < size q.now.pattern }
    requires few { length kinds.old.items < 2 ^ 32 }
    requires before { AreKinds q.now kinds.old.items places.now (p * size q.now.pattern + r) }
    requires guesses { length guesses.old ≡ 256 }
    ensures found { IfOk result
        (λ i. (p ≡ r → ⊥) → slice_get kinds.new.items i ≡ Some (kind_of q.now p r)) }
    ensures stay { KindsStay kinds.old.items kinds.new.items }
    ensures more { length kinds.new.items ≤ length kinds.old.items + 1 }
{
    if p == r {
        return Ok(0);
    }
    let kind = pair_kind(q, counts, p, r, kinds, places);
    place_of(kinds, kind, guesses)
}

/// The kind of a pair.
fn pair_kind(
    q: &Problem,
    counts: &PatternCounts,
    p: u16,
    r: u16,
    kinds: &[PairKind],
    places: &[u32],
) -> PairKind
    requires same { counts.now.out ≡ q.now.pattern }
    requires in_same { counts.now.back ≡ reversed q.now.pattern }
    requires p_in { p < size q.now.pattern }
    requires r_in { r < size q.now.pattern }
    requires apart { p ≡ r → ⊥ }
    requires before { AreKinds q.now kinds.now places.now (p * size q.now.pattern + r) }
    ensures { result ≡ kind_of q.now p r }
{
    let (shared, in_shared) = asked_by(q, counts, p, r, kinds, places);
    PairKind {
        apart: q.differ(p, r),
        out: q.pattern().edge(p, r),
        back: q.pattern().edge(r, p),
        shared,
        in_shared,
    }
}

/// How many neighbours the images of a pair have to share in each direction: none where maps need not be injective.
fn asked_by(
    q: &Problem,
    counts: &PatternCounts,
    p: u16,
    r: u16,
    kinds: &[PairKind],
    places: &[u32],
) -> (u16, u16)
    requires same { counts.now.out ≡ q.now.pattern }
    requires in_same { counts.now.back ≡ reversed q.now.pattern }
    requires p_in { p < size q.now.pattern }
    requires r_in { r < size q.now.pattern }
    requires apart { p ≡ r → ⊥ }
    requires before { AreKinds q.now kinds.now places.now (p * size q.now.pattern + r) }
    ensures out { result.0 ≡ asked_shared q.now p r }
    ensures back { result.1 ≡ asked_shared (reversed_problem q.now) p r }
{
    match q.maps() {
        Maps::Injective => shared_by(q, counts, p, r, kinds, places),
        Maps::Local => (0, 0),
        Maps::Any => (0, 0),
    }
}

/// How many neighbours a pair shares in each direction: as many as the pair turned round, where that one has its kind already.
fn shared_by(
    q: &Problem,
    counts: &PatternCounts,
    p: u16,
    r: u16,
    kinds: &[PairKind],
    places: &[u32],
) -> (u16, u16)
    requires same { counts.now.out ≡ q.now.pattern }
    requires in_same { counts.now.back ≡ reversed q.now.pattern }
    requires p_in { p < size q.now.pattern }
    requires r_in { r < size q.now.pattern }
    requires apart { p ≡ r → ⊥ }
    requires injective { q.now.maps ≡ Injective }
    requires before { AreKinds q.now kinds.now places.now (p * size q.now.pattern + r) }
    ensures out { result.0 ≡ common q.now.pattern p r }
    ensures back { result.1 ≡ common (reversed q.now.pattern) p r }
{
    if r < p {
        let pair = usize::from(r) * usize::from(q.pattern().size()) + usize::from(p);
        let turned = kinds[places[pair] as usize];
        return (turned.shared, turned.in_shared);
    }
    let shared = counts.out.count(p, r);
    (shared, in_shared(q, &counts.back, p, r, shared))
}

/// How many vertices edges lead from to both, where edges lead to so many from both: nothing is counted where edges stand both ways.
fn in_shared(q: &Problem, in_counts: &Counts, p: u16, r: u16, shared: u16) -> u16
    requires in_same { in_counts.now ≡ reversed q.now.pattern }
    requires p_in { p < size q.now.pattern }
    requires r_in { r < size q.now.pattern }
    requires apart { p ≡ r → ⊥ }
    requires counted { shared ≡ common q.now.pattern p r }
    ensures { result ≡ common (reversed q.now.pattern) p r }
{
    reversed_laws();
    if q.pattern().is_mutual() {
        shared
    } else {
        in_counts.count(p, r)
    }
}

/// Whether a kind has an edge and `t` so few neighbours that testing each costs less than some steps for each word of a row. Cost: two steps.
fn has_few(q: &Problem, kind: &PairKind, t: u16, words: usize) -> bool
    requires t_in { t < size q.now.target }
    ensures { IsTrue result → (is_some kind.now.out || is_some kind.now.back) ≡ true }
{
    has_edge(kind) && 4 * usize::from(q.target().degree(t)) < words
}

/// Makes the rows of all kinds at `t`, one after another from row `first` on; the other rows stay. Cost: for each kind some steps for
/// each word of a row, and where it asks for shared neighbours one for each value that edges leave; where labels of edges are compared, one for
/// each neighbour of `t` in a direction that the kind has an edge in.
pub(crate) fn fill_block(
    q: &Problem,
    kinds: &[PairKind],
    t: u16,
    counts: &SharedCounts<'_>,
    width: usize,
    first: usize,
    pool: &mut [u64],
)
    requires width_is { width ≡ words_for (size q.now.target) }
    requires t_in { t < size q.now.target }
    requires few { size q.now.target ≤ 8192 }
    requires counted { ServeAll q.now kinds.now t counts.now.out.now counts.now.back.now
        counts.now.both_ways }
    requires room { (first + length kinds.now) * width ≤ length pool.old }
    ensures rows { (i : ℕ)
        → HasRow q.now kinds.now width t i (drop ((first + i) * width) pool.new) }
    ensures others { WordsStay (first * width) ((first + length kinds.now) * width) pool.old
        pool.new }
{
    for i in 0..kinds.len() {
        let from = (first + i) * width;
        fill_row(q, &kinds[i], t, counts, &mut pool[from..from + width]);
    }
}

/// Makes the row of a kind at `t`.
fn fill_row(q: &Problem, kind: &PairKind, t: u16, counts: &SharedCounts<'_>, row: &mut [u64])
    requires t_in { t < size q.now.target }
    requires counted { Serve q.now kind.now t counts.now.out.now counts.now.back.now
        counts.now.both_ways }
    requires long { length row.old ≡ words_for (size q.now.target) }
    ensures { RowIs q.now kind.now t row.new }
{
    if asks_labels(q, kind) || has_few(q, kind, t, row.len()) {
        fill_near(q, kind, t, counts, row);
    } else {
        fill_by_words(q, kind, t, counts, row);
    }
}

/// Whether the label of an edge of a kind, where it has one, may tell images apart: it is not 0, or the target keeps labels. Cost: two steps.
fn asks_label(target: &Graph, edge: Option<u32>) -> bool
    ensures some { IsTrue result → is_some edge ≡ true }
    ensures told { result ≡ false → IsTold target.now edge }
{
    match edge {
        Some(label) => label != 0 || target.keeps_edge_labels(),
        None => false,
    }
}

/// Whether labels of edges may tell images of a pair of the kind apart. Cost: at most four steps.
fn asks_labels(q: &Problem, kind: &PairKind) -> bool
    ensures some { IsTrue result → (is_some kind.now.out || is_some kind.now.back) ≡ true }
    ensures told { result ≡ false → AreTold q.now kind.now }
{
    asks_label(q.target(), kind.out) || asks_label(q.target(), kind.back)
}

/// Makes the row of a kind with an edge: its values are among the neighbours of `t` in the direction of an edge of the kind, of which each
/// is tested, its label too. Cost: one step for each of them and for each word of a row.
fn fill_near(q: &Problem, kind: &PairKind, t: u16, counts: &SharedCounts<'_>, row: &mut [u64])
    requires edge { (is_some kind.now.out || is_some kind.now.back) ≡ true }
    requires t_in { t < size q.now.target }
    requires counted { Serve q.now kind.now t counts.now.out.now counts.now.back.now
        counts.now.both_ways }
    requires long { length row.old ≡ words_for (size q.now.target) }
    ensures { RowIs q.now kind.now t row.new }
{
    let _size = q.target().size();
    let near = near_row(q, kind, t);
    clear(row);
    let mut u = next_member(near, 0);
    while u < 64 * near.len() {
        if joins(q, kind, t, u as u16, counts.out[u], counts.back[u]) {
            set_bit(row, u);
        }
        u = next_member(near, u + 1);
    }
}

/// The vertices among which are all that join `t` in a kind with an edge: those to which edges lead from `t`, or where the kind has an
/// edge back alone those from which edges lead to it.
fn near_row<'a>(q: &'a Problem, kind: &PairKind, t: u16) -> &'a [u64]
    requires edge { (is_some kind.now.out || is_some kind.now.back) ≡ true }
    requires t_in { t < size q.now.target }
    ensures long { length result.now ≡ words_for (size q.now.target) }
    ensures near { (u : ℕ) → Joins q.now kind.now t u → has result.now u ≡ true }
    ensures within { (u : ℕ) → has result.now u ≡ true → u < size q.now.target }
{
    if kind.out.is_some() {
        q.target().row(t)
    } else {
        q.target().in_row(t)
    }
}

/// Makes the row of a kind whose edges bits tell, by whole words. Cost: four steps for each word, and where the kind asks for shared
/// neighbours one for each value that edges leave.
fn fill_by_words(q: &Problem, kind: &PairKind, t: u16, counts: &SharedCounts<'_>, row: &mut [u64])
    requires told { AreTold q.now kind.now }
    requires t_in { t < size q.now.target }
    requires counted { Serve q.now kind.now t counts.now.out.now counts.now.back.now
        counts.now.both_ways }
    requires long { length row.old ≡ words_for (size q.now.target) }
    ensures { RowIs q.now kind.now t row.new }
{
    fill_below(row, usize::from(q.target().size()));
    keep_matching(q, kind, t, row);
    if !kind.apart {
        return;
    }
    keep_shared(q, kind, t, counts, row);
    unset_bit(row, usize::from(t));
}

/// Keeps of a row of vertices those whose edge, which `near` tells, is as the pattern's edge asks. Cost: one step for four words.
fn keep_agreeing(row: &mut [u64], induced: bool, stands: bool, near: &[u64])
    requires same_length { length row.old ≡ length near.now }
    ensures { (u : ℕ)
        → has row.new u ≡ (has row.old u && agree induced stands (has near.now u)) }
{
    if stands {
        and_into(row, near);
    } else if induced {
        and_not_into(row, near);
    }
}

/// Keeps of the row the vertices whose edges from and to `t` match those of the kind, which bits tell. Cost: two steps for four words.
fn keep_matching(q: &Problem, kind: &PairKind, t: u16, row: &mut [u64])
    requires told { AreTold q.now kind.now }
    requires t_in { t < size q.now.target }
    requires long { length row.old ≡ words_for (size q.now.target) }
    requires within { (u : ℕ) → has row.old u ≡ true → u < size q.now.target }
    ensures right { (u : ℕ) → has row.new u ≡ true
        → (has row.old u ≡ true) × MatchEdges q.now kind.now t u }
    ensures complete { (u : ℕ) → has row.old u ≡ true → MatchEdges q.now kind.now t u
        → has row.new u ≡ true }
{
    keep_agreeing(row, q.induced(), kind.out.is_some(), q.target().row(t));
    keep_agreeing(row, q.induced(), kind.back.is_some(), q.target().in_row(t));
}

/// Keeps of the row, beside `t` itself, the vertices that share as many neighbours with `t` as the kind asks for. Cost: one step for each
/// of them where the kind asks for some, and another where it asks for more in the other direction.
fn keep_shared(q: &Problem, kind: &PairKind, t: u16, counts: &SharedCounts<'_>, row: &mut [u64])
    requires t_in { t < size q.now.target }
    requires counted { Serve q.now kind.now t counts.now.out.now counts.now.back.now
        counts.now.both_ways }
    requires long { length row.old ≡ words_for (size q.now.target) }
    requires within { (u : ℕ) → has row.old u ≡ true → u < size q.now.target }
    ensures right { (u : ℕ) → has row.new u ≡ true
        → (has row.old u ≡ true) × ((t ≡ u → ⊥) → Shares q.now kind.now t u) }
    ensures complete { (u : ℕ) → has row.old u ≡ true → (t ≡ u → ⊥)
        → Shares q.now kind.now t u → has row.new u ≡ true }
{
    reversed_laws();
    let _size = q.target().size();
    keep_counted(row, counts.out, kind.shared);
    if !counts.both_ways || kind.in_shared > kind.shared {
        keep_counted(row, counts.back, kind.in_shared);
    }
}

/// Whether `t` and `u` give a pair of the kind what it asks, where so many shared neighbours are as good as theirs for the kind.
fn joins(q: &Problem, kind: &PairKind, t: u16, u: u16, shared: u16, in_shared: u16) -> bool
    requires t_in { t < size q.now.target }
    requires u_in { u < size q.now.target }
    requires told { (t ≡ u → ⊥) → kind.now.shared ≤ shared
        ↔ (kind.now.shared ≤ common q.now.target t u) }
    requires in_told { (t ≡ u → ⊥) → kind.now.in_shared ≤ in_shared
        ↔ (kind.now.in_shared ≤ common (reversed q.now.target) t u) }
    ensures { IsTrue result ↔ Joins q.now kind.now t u }
{
    are_apart(q, kind, t, u, shared, in_shared)
        && matches(q.induced(), kind.out, q.target().edge(t, u))
        && matches(q.induced(), kind.back, q.target().edge(u, t))
}

/// Whether `t` and `u` are two vertices that share enough neighbours, where the kind asks for two.
fn are_apart(_q: &Problem, kind: &PairKind, t: u16, u: u16, shared: u16, in_shared: u16) -> bool
    requires told { (t ≡ u → ⊥) → kind.now.shared ≤ shared
        ↔ (kind.now.shared ≤ common _q.now.target t u) }
    requires in_told { (t ≡ u → ⊥) → kind.now.in_shared ≤ in_shared
        ↔ (kind.now.in_shared ≤ common (reversed _q.now.target) t u) }
    ensures { IsTrue result ↔ AreApart _q.now kind.now t u }
{
    if !kind.apart {
        return true;
    }
    t != u && kind.shared <= shared && kind.in_shared <= in_shared
}

/// Whether a pattern edge and its image match, in the induced kind or the plain one.
fn matches(induced: bool, edge: Option<u32>, image: Option<u32>) -> bool
    ensures { IsTrue result ↔ Matches induced edge image }
{
    match (edge, image) {
        (Some(label), Some(other)) => label == other,
        (Some(_), None) => false,
        (None, Some(_)) => !induced,
        (None, None) => true,
    }
}
