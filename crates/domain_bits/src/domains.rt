//! Domains of values: a bit row and a size for each vertex, and a trail of what was removed.
//!
//! Bit rows for domains are Ullmann's (2010, "Bit-vector algorithms for binary constraint satisfaction and subgraph isomorphism");
//! the trail is that of backtracking solvers since the Warren abstract machine (1983). Nothing is counted anew and nothing is
//! allocated once the domains are made.

ghost use Rattle.std.specs.Prelude.{◌≡◌, ℕ, ◌+◌, ◌-◌, ◌*◌, ◌/◌, ◌^◌, ◌<◌, ◌≤◌, ◌==◌, ◌&&◌, ◌↔◌, ◌++◌, ◌∷◌, [], not, true, List, length, IfOk, IfSome, IfNone, IsTrue, IsSome, nat_lt, drop, if◌then◌else◌, bit_and, bit_or, count_ones, slice_index, slice_set};
ghost use Rattle.std.specs.Bool.{OnTrue};
ghost use Rattle.std.specs.Int.{bit_not, trailing_zeros, w64};
ghost use Rattle.bit_rows.specs.BitRows.{has, is_set, word_values, words_for};
ghost use Rattle.domain_bits.specs.Changes.{Grows, IsEmptyDomain, Keeps, Single};
ghost use Rattle.graph_theory.specs.Neighbours.{count, members};
ghost use Rattle.domain_bits.specs.Removals.{assigned, at_vertex, full, in_domain, intersected, size_of, undone, without};

use crate::row_filters::{filter_row, filter_value, take_value};
use crate::trail::{PairTrail, Run, Trail};
use bit_rows::words_for;
use std::alloc::{AllocError, Global};
use std::marker::Model;

/// How many values had been removed at some moment, so that later removals can be undone.
#[derive(Clone, Copy)]
pub struct Mark {
    length: usize,
}

impl Model for Mark {
    ghost Value = { ℕ };

    ghost view = { λ m. m.length };

    ghost inverse = { λ n. record { length = n } };
}

impl Mark {
    /// Whether less had been removed at this mark than at the other. Cost: one step.
    pub fn is_before(&self, other: Mark) -> bool
        ensures { result ≡ nat_lt self.now other }
    {
        self.length < other.length
    }
}

/// A domain for each vertex. All domains are full at first.
///
/// Row `p` is the words from `p * words` on of `rows`; `sizes[p]` is how many bits it has set. Where that is one bit, `singles[p]`
/// is its value, so that nobody has to look for it; elsewhere `singles[p]` may be anything.
pub struct Domains<T: Trail = PairTrail> {
    vertices: u16,
    values: u16,
    words: usize,
    rows: Vec<u64>,
    sizes: Vec<u16>,
    singles: Vec<u16>,
    trail: T,
}

impl<T: Trail> Drop for Domains<T> {
    /// In one call, for whoever lets one go.
    fn drop(self) {
        let Domains {
            vertices: _,
            values: _,
            words: _,
            rows: _,
            sizes: _,
            singles: _,
            trail: _,
        } = self;
    }
}

impl<T: Trail> Model for Domains<T> {
    ghost use Rattle.std.specs.Prelude.{◌≡◌, ℕ};
    ghost use Rattle.domain_bits.specs.Inside.{Held};
    ghost use Rattle.domain_bits.specs.Removals.{State};

    ghost Value = { State };

    ghost view = { λ d. record {
      vertices = d.vertices;
      values = d.values;
      removed = T.removed d.trail;
    } };

    ghost invariant = { λ d. Held (record {
      vertices = d.vertices;
      values = d.values;
      removed = T.removed d.trail;
    }) d.words d.rows.items d.sizes.items d.singles.items
        (T.capacity d.trail) };
}

impl Domains {
    /// Full domains, with a trail of pairs that has room for all of them. Cost: one step for each word of each row.
    pub fn new(alloc: Global, vertices: u16, values: u16) -> Result<Domains, AllocError>
        ensures full { IfOk result (λ d. d ≡ full vertices values) }
        ensures vertices { IfOk result (λ d. d.vertices ≡ vertices) }
        ensures values { IfOk result (λ d. d.values ≡ values) }
    {
        Domains::with_trail(alloc, vertices, values)
    }

    /// What was removed, in order. Cost: one step.
    pub fn trail(&self) -> &[(u16, u16)]
        ensures { result.now ≡ self.now.removed }
    {
        self.trail.pairs()
    }
}

impl<T: Trail> Domains<T> {
    /// Full domains with a trail of this type. Cost: one step for each word of each row.
    pub fn with_trail(alloc: Global, vertices: u16, values: u16) -> Result<Domains<T>, AllocError>
        ensures full { IfOk result (λ d. d ≡ full vertices values) }
        ensures vertices { IfOk result (λ d. d.vertices ≡ vertices) }
        ensures values { IfOk result (λ d. d.values ≡ values) }
    {
        let words = words_for(usize::from(values));
        let rows = full_rows(alloc, usize::from(vertices), usize::from(values), words)?;
        let sizes = vec![in alloc; values; usize::from(vertices)]?;
        let singles = vec![in alloc; 0; usize::from(vertices)]?;
        let trail = T::with_room(alloc, usize::from(vertices) * usize::from(values))?;
        Ok(Domains {
            vertices,
            values,
            words,
            rows,
            sizes,
            singles,
            trail,
        })
    }

    /// The same domains, with the same trail. Cost: one step for each word of each row and for each entry of the trail.
    pub fn copy(&self, alloc: Global) -> Result<Domains<T>, AllocError>
        ensures same { IfOk result (λ d. d ≡ self.now) }
        ensures vertices { IfOk result (λ d. d.vertices ≡ self.now.vertices) }
        ensures values { IfOk result (λ d. d.values ≡ self.now.values) }
    {
        let rows = Vec::from_slice(alloc, &self.rows)?;
        let sizes = Vec::from_slice(alloc, &self.sizes)?;
        let singles = Vec::from_slice(alloc, &self.singles)?;
        let trail = self.trail.copy(alloc, usize::from(self.vertices) * usize::from(self.values))?;
        Ok(Domains {
            vertices: self.vertices,
            values: self.values,
            words: self.words,
            rows,
            sizes,
            singles,
            trail,
        })
    }

    /// How many vertices there are.
    pub fn vertices(&self) -> u16
        ensures { result ≡ self.now.vertices }
    {
        self.vertices
    }

    /// How many values a full domain has.
    pub fn values(&self) -> u16
        ensures { result ≡ self.now.values }
    {
        self.values
    }

    /// How many values the domain of `p` has. Cost: one step.
    pub fn size(&self, p: u16) -> u16
        requires { p < self.now.vertices }
        ensures size { result ≡ size_of self.now p }
        ensures empty { (result ≡ 0) ↔ IsEmptyDomain self.now p }
    {
        self.sizes[usize::from(p)]
    }

    /// Whether `t` is in the domain of `p`. Cost: one step.
    pub fn has(&self, p: u16, t: u16) -> bool
        requires p_in { p < self.now.vertices }
        requires t_in { t < self.now.values }
        ensures { result ≡ in_domain self.now p t }
    {
        let word = self.rows[usize::from(p) * self.words + usize::from(t / 64)];
        word >> (t % 64) & 1 == 1
    }

    /// The domain of `p` as a row of bits; the bits past the last value are 0. Cost: one step.
    pub fn row(&self, p: u16) -> &[u64]
        requires { p < self.now.vertices }
        ensures long { length result.now ≡ words_for self.now.values }
        ensures short { length result.now ≤ 1024 }
        ensures bits { (t : ℕ) → has result.now t ≡ in_domain self.now p t }
    {
        let at = usize::from(p) * self.words;
        &self.rows[at..at + self.words]
    }

    /// The value of the domain of `p`, where it has one value only. Cost: one step.
    pub fn only(&self, p: u16) -> Option<u16>
        requires { p < self.now.vertices }
        ensures one { IsSome result ↔ (size_of self.now p ≡ 1) }
        ensures some { IfSome result (λ t. Single self.now p t) }
        ensures none { IfNone result ((t : ℕ) → Single self.now p t → ⊥) }
    {
        if self.size(p) != 1 {
            return None;
        }
        Some(self.singles[usize::from(p)])
    }

    /// The present mark. Cost: one step.
    pub fn mark(&self) -> Mark
        ensures length { result ≡ length self.now.removed }
        ensures within { result ≤ self.now.vertices * self.now.values }
    {
        Mark {
            length: self.trail.len(),
        }
    }

    /// Whether values have left since the mark. Cost: one step.
    pub fn has_changed(&self, since: Mark) -> bool
        ensures { result ≡ nat_lt since (length self.now.removed) }
    {
        since.is_before(self.mark())
    }

    /// Takes `t` from the domain of `p`, if it is there, and says whether it was. Cost: one step, and where one value is left one for
    /// each word of the row.
    pub fn remove(&mut self, p: u16, t: u16) -> bool
        requires p_in { p < self.old.vertices }
        requires t_in { t < self.old.values }
        ensures found { result ≡ in_domain self.old p t }
        ensures after { self.new ≡ (if result then without self.old p t else self.old) }
        ensures keeps { Keeps self.old self.new p (λ u. not (u == t)) }
        ensures within { OnTrue result
            (length self.old.removed < self.old.vertices * self.old.values) }
        ensures vertices { self.new.vertices ≡ self.old.vertices }
        ensures values { self.new.values ≡ self.old.values }
    {
        if !self.has(p, t) {
            return false;
        }
        let at = usize::from(p) * self.words;
        let domain = &mut self.rows[at..at + self.words];
        take_value(p, domain, t, &mut self.trail);
        lower_noting(
            &mut self.sizes,
            &mut self.singles,
            usize::from(p),
            1,
            domain,
        );
        true
    }

    /// Takes all values but `t` from the domain of `p`. Cost: one step for each word of a row and for each value removed.
    pub fn assign(&mut self, p: u16, t: u16)
        requires p_in { p < self.old.vertices }
        requires t_in { in_domain self.old p t ≡ true }
        ensures after { self.new ≡ assigned self.old p t }
        ensures keeps { Keeps self.old self.new p (λ u. u == t) }
        ensures single { Single self.new p t }
        ensures vertices { self.new.vertices ≡ self.old.vertices }
        ensures values { self.new.values ≡ self.old.values }
    {
        let at = usize::from(p) * self.words;
        let domain = &mut self.rows[at..at + self.words];
        let gone = filter_value(p, domain, t, &mut self.trail);
        lower(&mut self.sizes, usize::from(p), gone);
        note(&mut self.singles, usize::from(p), t);
    }

    /// Takes from the domain of `p` all values that are not in the row. Cost: one step for each word of the row and for each value removed.
    #[inline(always)]
    pub fn intersect(&mut self, p: u16, row: &[u64])
        requires p_in { p < self.old.vertices }
        requires long { length row.now ≡ words_for self.old.values }
        ensures after { self.new ≡ intersected self.old p row.now }
        ensures keeps { Keeps self.old self.new p (has row.now) }
        ensures vertices { self.new.vertices ≡ self.old.vertices }
        ensures values { self.new.values ≡ self.old.values }
    {
        let at = usize::from(p) * self.words;
        let domain = &mut self.rows[at..at + self.words];
        let gone = filter_row(p, domain, row, &mut self.trail);
        lower_noting(
            &mut self.sizes,
            &mut self.singles,
            usize::from(p),
            gone,
            domain,
        );
    }

    /// Gives back all values that were removed since the mark. Cost: at most one step for each of them.
    pub fn undo_to(&mut self, mark: Mark)
        requires { mark ≤ length self.old.removed }
        ensures after { self.new ≡ undone self.old mark }
        ensures grows { Grows self.old self.new }
        ensures vertices { self.new.vertices ≡ self.old.vertices }
        ensures values { self.new.values ≡ self.old.values }
    {
        let words = self.words;
        let rows = self.rows.as_mut_slice();
        let sizes = self.sizes.as_mut_slice();
        let singles = self.singles.as_mut_slice();
        while let Some(run) = self.trail.pop(mark.length) {
            restore(rows, sizes, singles, words, run);
        }
    }
}

/// Rows that have all values.
fn full_rows(
    alloc: Global,
    vertices: usize,
    values: usize,
    words: usize,
) -> Result<Vec<u64>, AllocError>
    requires few { vertices < 2 ^ 16 }
    requires short { words ≤ 1024 }
    ensures long { IfOk result (λ v. length v.items ≡ vertices * words) }
    ensures bits { IfOk result
        (λ v. (p t : ℕ) → p < vertices → t < 64 * words
        → has (drop (p * words) v.items) t ≡ nat_lt t values) }
{
    let row = full_row(alloc, values, words)?;
    let mut rows = Vec::with_capacity(alloc, vertices * words)?;
    for _p in 0..vertices {
        rows.extend_from_slice(&row)?;
    }
    Ok(rows)
}

/// A row that has all values.
fn full_row(alloc: Global, values: usize, words: usize) -> Result<Vec<u64>, AllocError>
    requires { words ≤ 1024 }
    ensures long { IfOk result (λ v. length v.items ≡ words) }
    ensures bits { IfOk result (λ v. (t : ℕ) → t < 64 * words → has v.items t ≡ nat_lt t values) }
{
    let mut row = Vec::with_capacity(alloc, words)?;
    for place in 0..words {
        row.push(full_word(values.saturating_sub(64 * place)))?;
    }
    Ok(row)
}

/// A word that has the first so many bits set.
fn full_word(bits: usize) -> u64
    ensures { (b : ℕ) → b < 64 → is_set result b ≡ nat_lt b bits }
{
    if bits < 64 { (1 << bits) - 1 } else { u64::MAX }
}

/// The first value of a row that has one.
fn first_value(row: &[u64]) -> u16
    requires short { length row.now ≤ 1024 }
    requires some { 0 < count (has row.now) (64 * length row.now) }
    ensures { has row.now result ≡ true }
{
    for place in 0..row.len() {
        if row[place] != 0 {
            return 64 * place as u16 + row[place].trailing_zeros() as u16;
        }
    }
    unreachable!()
}

/// Takes so many from one size.
fn lower(sizes: &mut [u16], at: usize, by: u32)
    requires inside { at < length sizes.old }
    requires enough { by ≤ slice_index sizes.old at }
    ensures { sizes.new ≡ slice_set sizes.old at (slice_index sizes.old at - by) }
{
    sizes[at] -= by as u16;
}

/// Notes the value of a domain.
fn note(singles: &mut [u16], at: usize, t: u16)
    requires { at < length singles.old }
    ensures { singles.new ≡ slice_set singles.old at t }
{
    singles[at] = t;
}

/// Takes so many from one size, and notes the value that is left in the row where it is the only one. Cost: one step, and where
/// values left all but one, one for each word of the row.
fn lower_noting(sizes: &mut [u16], singles: &mut [u16], at: usize, by: u32, row: &[u64])
    requires inside { at < length sizes.old }
    requires noted { at < length singles.old }
    requires enough { by ≤ slice_index sizes.old at }
    requires short { length row.now ≤ 1024 }
    requires left { count (has row.now) (64 * length row.now) ≡ slice_index sizes.old at - by }
    requires unchanged { by ≡ 0 → slice_index sizes.old at ≡ 1
        → has row.now (slice_index singles.old at) ≡ true }
    ensures sizes { sizes.new ≡ slice_set sizes.old at (slice_index sizes.old at - by) }
    ensures others { singles.new ≡ slice_set singles.old at (slice_index singles.new at) }
    ensures single { slice_index sizes.old at - by ≡ 1
        → has row.now (slice_index singles.new at) ≡ true }
{
    lower(sizes, at, by);
    if by == 0 || sizes[at] != 1 {
        return;
    }
    note(singles, at, first_value(row));
}

/// Gives back a run of values, and notes the value where a domain has it alone now. Cost: one step.
fn restore(rows: &mut [u64], sizes: &mut [u16], singles: &mut [u16], words: usize, run: Run)
    requires row_in { run.vertex * words + run.place < length rows.old }
    requires vertex_in { run.vertex < length sizes.old }
    requires noted { run.vertex < length singles.old }
    requires place_in { run.place < 1024 }
    requires some { 0 < run.word }
    requires fits { slice_index sizes.old run.vertex + count_ones run.word < 2 ^ 16 }
    ensures rows { rows.new
        ≡ slice_set rows.old (run.vertex * words + run.place)
        (bit_or (slice_index rows.old (run.vertex * words + run.place)) run.word) }
    ensures sizes { sizes.new
        ≡ slice_set sizes.old run.vertex (slice_index sizes.old run.vertex + count_ones run.word) }
    ensures others { singles.new
        ≡ slice_set singles.old run.vertex (slice_index singles.new run.vertex) }
    ensures single { slice_index sizes.new run.vertex ≡ 1
        → slice_index singles.new run.vertex ≡ 64 * run.place + trailing_zeros w64 run.word }
{
    rows[usize::from(run.vertex) * words + usize::from(run.place)] |= run.word;
    sizes[usize::from(run.vertex)] += run.word.count_ones() as u16;
    note_restored(sizes, singles, run);
}

/// Notes the value of a run that was given back to a domain, where it is now the only one. Cost: one step.
fn note_restored(sizes: &[u16], singles: &mut [u16], run: Run)
    requires vertex_in { run.vertex < length sizes.now }
    requires noted { run.vertex < length singles.old }
    requires place_in { run.place < 1024 }
    requires some { 0 < run.word }
    ensures others { singles.new
        ≡ slice_set singles.old run.vertex (slice_index singles.new run.vertex) }
    ensures single { slice_index sizes.now run.vertex ≡ 1
        → slice_index singles.new run.vertex ≡ 64 * run.place + trailing_zeros w64 run.word }
{
    let at = usize::from(run.vertex);
    if sizes[at] != 1 {
        return;
    }
    let bit = run.word.trailing_zeros() as u16;
    note(singles, at, 64 * run.place + bit);
}
