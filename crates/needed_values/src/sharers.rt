//! Which values share enough neighbours with a value, kept as rows, and how many two pattern vertices share.

ghost use Rattle.std.specs.Prelude.{◌≡◌, ℕ, ◌<◌, ◌≤◌, ◌==◌, not, nat_lt, true, length, slice_index, IfOk, OnOk, IfSome};
ghost use Rattle.graph_theory.specs.Graph.{Graph as TheGraph, size};
ghost use Rattle.graph_theory.specs.Embedding.{is_injective};
ghost use Rattle.graph_theory.specs.Asked.{asked_shared};
ghost use Rattle.bit_rows.specs.BitRows.{has, words_for};
ghost use Rattle.common_neighbour.specs.Sharing.{shares};
ghost use Rattle.needed_values.specs.Sharers.{IsSharerRow, AreSharers, AreCounts, IsSharedCount, AreSharedCounts};

use bit_rows::{fill_below, keep_counted, unset_bit, words_for};
use common_neighbour::Counts;
use graph_rows::{Graph, Problem};
use graph_theory::direction::Direction;
use graph_theory::embedding::Maps;
use std::alloc::{AllocError, Global};
use std::marker::Model;

/// Of graphs with more vertices than these nothing is kept.
const MOST_VALUES: u16 = 512;

/// No rows are kept for more shared neighbours than these.
const MOST_SHARED: u16 = 32;

/// The other values that share at least so many neighbours with a value.
#[derive(Drop)]
struct SharerRow {
    t: u16,
    least: u16,
    words: Vec<u64>,
}

/// How many neighbours two pattern vertices share. Of a vertex with itself the count is of no meaning.
#[derive(Clone, Copy)]
struct SharedCount {
    p: u16,
    r: u16,
    count: u16,
}

/// For each value of a problem the rows of the other values that share at least so many neighbours with it along edges, by how many, and for each
/// two pattern vertices how many they share; nothing unless the maps are injective. Contracts see the problem. It takes at most 512 values times
/// 33 rows of eight words and 512 times 512 counts, with lengths less than 5 MiB.
pub struct Sharers<'a> {
    problem: &'a Problem,
    rows: Vec<SharerRow>,
    counts: Vec<SharedCount>,
    most: u16,
}

impl Drop for Sharers<'_> {
    /// In one call, for whoever lets one go.
    fn drop(self) {
        let Sharers {
            problem: _,
            rows: _,
            counts: _,
            most: _,
        } = self;
    }
}

impl<'a> Model for Sharers<'a> {
    ghost use Rattle.std.specs.Prelude.{◌≡◌, ◌<◌, true, length};
    ghost use Rattle.graph_theory.specs.Embedding.{Problem as TheProblem, is_injective};
    ghost use Rattle.needed_values.specs.Sharers.{AreSharers, AreSharedCounts};

    ghost Value = { TheProblem };

    ghost view = { λ s. s.problem.now };

    ghost invariant = { λ s. AreSharers s.problem.now.target s.rows.items
        × AreSharedCounts s.problem.now.pattern s.counts.items
        × (0 < length s.counts.items → is_injective s.problem.now.maps ≡ true) };
}

/// The row of the other values that share at least so many neighbours with `t`, whose counts these are. Cost: that of `keep_counted`.
fn make_row(
    alloc: Global,
    target: &Graph,
    t: u16,
    least: u16,
    counts: &[u16],
) -> Result<SharerRow, AllocError>
    requires t_in { t < size target.now }
    requires counts { AreCounts target.now t counts.now }
    ensures { IfOk result (IsSharerRow target.now) }
{
    let values = usize::from(target.size());
    let mut words = vec![in alloc; 0u64; words_for(values)]?;
    fill_below(&mut words, values);
    unset_bit(&mut words, usize::from(t));
    keep_counted(&mut words, counts, least);
    Ok(SharerRow { t, least, words })
}

/// Puts the rows of a value, by how many neighbours are shared, from none on. Cost: one step for each value and row.
fn push_rows(
    alloc: Global,
    target: &Graph,
    t: u16,
    most: u16,
    counts: &[u16],
    rows: &mut Vec<SharerRow>,
) -> Result<(), AllocError>
    requires t_in { t < size target.now }
    requires counts { AreCounts target.now t counts.now }
    requires rows { AreSharers target.now rows.old.items }
    ensures { OnOk result (AreSharers target.now rows.new.items) }
{
    for least in 0..most {
        rows.push(make_row(alloc, target, t, least, counts)?)?;
    }
    Ok(())
}

/// The same for a value whose neighbours are counted first. What stands in the counts before is of no meaning.
fn push_value(
    alloc: Global,
    target: &Graph,
    t: u16,
    most: u16,
    counts: &mut [u16],
    rows: &mut Vec<SharerRow>,
) -> Result<(), AllocError>
    requires t_in { t < size target.now }
    requires long { length counts.old ≡ size target.now }
    requires rows { AreSharers target.now rows.old.items }
    ensures { OnOk result (AreSharers target.now rows.new.items) }
{
    Counts::new(alloc, target, Direction::Out)?.fill_counts(t, counts);
    push_rows(alloc, target, t, most, counts, rows)
}

/// The rows of all values, by how many neighbours are shared, from none on. Cost: one step for each two values, for each word of a row and for each number.
fn rows_of(alloc: Global, target: &Graph, most: u16) -> Result<Vec<SharerRow>, AllocError>
    ensures { IfOk result (λ rows. AreSharers target.now rows.items) }
{
    let mut rows = Vec::new(alloc);
    let mut counts = vec![in alloc; 0u16; usize::from(target.size())]?;
    for t in 0..target.size() {
        push_value(alloc, target, t, most, &mut counts, &mut rows)?;
    }
    Ok(rows)
}

/// How many neighbours two vertices share. Cost: one step for each word of a row.
fn shared_count(kept: &Counts<'_>, p: u16, r: u16) -> SharedCount
    requires p_in { p < size kept.now }
    requires r_in { r < size kept.now }
    ensures { IsSharedCount kept.now result }
{
    let count = if p == r { 0 } else { kept.count(p, r) };
    SharedCount { p, r, count }
}

/// Puts how many neighbours a vertex shares with each vertex. Cost: one step for each word of the graph.
fn push_counts(
    pattern: &Graph,
    kept: &Counts<'_>,
    p: u16,
    counts: &mut Vec<SharedCount>,
) -> Result<(), AllocError>
    requires of { kept.now ≡ pattern.now }
    requires p_in { p < size pattern.now }
    requires counts { AreSharedCounts pattern.now counts.old.items }
    ensures { OnOk result (AreSharedCounts pattern.now counts.new.items) }
{
    for r in 0..pattern.size() {
        counts.push(shared_count(kept, p, r))?;
    }
    Ok(())
}

/// How many neighbours each two vertices share along edges. Cost: one step for each word of a row, for each two vertices.
fn counts_of(alloc: Global, pattern: &Graph) -> Result<Vec<SharedCount>, AllocError>
    ensures { IfOk result (λ counts. AreSharedCounts pattern.now counts.items) }
{
    let kept = Counts::new(alloc, pattern, Direction::Out)?;
    let mut counts = Vec::new(alloc);
    for p in 0..pattern.size() {
        push_counts(pattern, &kept, p, &mut counts)?;
    }
    Ok(counts)
}

/// The greatest of some counts. Cost: one step for each.
fn most_shared(counts: &[SharedCount]) -> u16 {
    let mut most = 0;
    for shared in counts {
        most = most.max(shared.count);
    }
    most
}

impl<'a> Sharers<'a> {
    /// The counts of a problem, and its rows, for as many shared neighbours as two pattern vertices have, for at most 32; neither where a graph has
    /// more than 512 vertices, where no shared neighbours are asked for since the maps are not injective, or where memory is refused: what they
    /// would tell is then counted, so that the answers are the same. Cost: one step for each word of a row of the pattern, for each two of its
    /// vertices, and for each two values one for each word of a row of the target and for each number of neighbours.
    pub fn new(alloc: Global, problem: &'a Problem) -> Sharers<'a>
        ensures { result ≡ problem.now }
    {
        if problem.target().size() > MOST_VALUES || problem.pattern().size() > MOST_VALUES {
            return Sharers::without_rows(alloc, problem);
        }
        match problem.maps() {
            Maps::Injective => Sharers::of_injective(alloc, problem),
            Maps::Local => Sharers::without_rows(alloc, problem),
            Maps::Any => Sharers::without_rows(alloc, problem),
        }
    }

    /// The rows of a problem whose maps are injective, where there is memory for them.
    fn of_injective(alloc: Global, problem: &'a Problem) -> Sharers<'a>
        requires { is_injective problem.now.maps ≡ true }
        ensures { result ≡ problem.now }
    {
        match Sharers::with_rows(alloc, problem) {
            Ok(sharers) => sharers,
            Err(_) => Sharers::without_rows(alloc, problem),
        }
    }

    /// No rows of a problem. It takes no memory.
    fn without_rows(alloc: Global, problem: &'a Problem) -> Sharers<'a>
        ensures { result ≡ problem.now }
    {
        Sharers {
            problem,
            rows: Vec::new(alloc),
            counts: Vec::new(alloc),
            most: 0,
        }
    }

    /// The rows of all values of a problem. Cost: as `new` says.
    fn with_rows(alloc: Global, problem: &'a Problem) -> Result<Sharers<'a>, AllocError>
        requires { is_injective problem.now.maps ≡ true }
        ensures { IfOk result (λ s. s ≡ problem.now) }
    {
        let target = problem.target();
        let counts = counts_of(alloc, problem.pattern())?;
        let most = most_shared(&counts).min(MOST_SHARED) + 1;
        let rows = rows_of(alloc, target, most)?;
        Ok(Sharers {
            problem,
            rows,
            counts,
            most,
        })
    }

    /// The problem whose rows they are.
    pub fn problem(&self) -> &'a Problem
        ensures { result.now ≡ self.now }
    {
        self.problem
    }

    /// How many neighbours the images of two pattern vertices have to share along edges, where that is kept. Cost: a few steps.
    #[inline(always)]
    pub(crate) fn count(&self, p: u16, r: u16) -> Option<u16>
        requires apart { p ≡ r → ⊥ }
        ensures { IfSome result (λ n. n ≡ asked_shared self.now p r) }
    {
        let place = usize::from(p) * usize::from(self.problem.pattern().size()) + usize::from(r);
        if place >= self.counts.len() {
            return None;
        }
        let shared = self.counts[place];
        if shared.p != p || shared.r != r {
            return None;
        }
        Some(shared.count)
    }

    /// The row of the other values that share at least so many neighbours with `t`, where it is kept. Cost: a few steps.
    #[inline(always)]
    pub(crate) fn row(&self, t: u16, least: u16) -> Option<&[u64]>
        ensures long { IfSome result (λ row. length row.now ≡ words_for (size self.now.target)) }
        ensures bits { IfSome result (λ row.
            (u : ℕ) → has row.now u ≡ shares self.now.target t least u) }
    {
        if least >= self.most {
            return None;
        }
        let place = usize::from(t) * usize::from(self.most) + usize::from(least);
        if place >= self.rows.len() {
            return None;
        }
        let row = &self.rows[place];
        if row.t != t || row.least != least {
            return None;
        }
        Some(&row.words)
    }
}

/// Whether the other row has all that this one has. Cost: one step for each word.
#[inline(always)]
pub(crate) fn is_within(row: &[u64], other: &[u64]) -> bool
    requires long { length other.now ≡ length row.now }
    ensures { result ≡ true → (v : ℕ) → has row.now v ≡ true → has other.now v ≡ true }
{
    let mut lost = 0;
    for place in 0..row.len() {
        lost |= row[place] & !other[place];
    }
    lost == 0
}
