//! Memory that a walk back needs, and that the next one uses again.

ghost use Rattle.std.specs.Prelude.{◌≡◌, ◌≤◌, [], length, OnOk};
ghost use Rattle.bit_rows.specs.BitRows.{words_for};
ghost use Rattle.needed_values.specs.Needed.{AreRows};
ghost use Rattle.dead_paths.specs.Rooms.{IsFit};

use bit_rows::words_for;
use recorder::Entry;
use smallvec::SmallVec;
use std::alloc::{AllocError, Global};

/// Rows and lists that are filled anew for each change.
pub(crate) struct Room {
    pub(crate) spare: Vec<u64>,
    pub(crate) other: Vec<u64>,
    pub(crate) set: Vec<u64>,
    pub(crate) counts: Vec<u16>,
    pub(crate) pairs: SmallVec<(u16, u16), 8>,
}

impl Drop for Room {
    /// In one call, for whoever lets one go.
    fn drop(self) {
        let Room {
            spare: _,
            other: _,
            set: _,
            counts: _,
            pairs: _,
        } = self;
    }
}

/// As many words as these.
fn fit_words(words: &mut Vec<u64>, count: usize) -> Result<(), AllocError>
    ensures { OnOk result (length words.new.items ≡ count) }
{
    if words.len() == count {
        return Ok(());
    }
    words.clear();
    words.resize(count, 0)
}

/// As many counts as these.
fn fit_counts(counts: &mut Vec<u16>, count: usize) -> Result<(), AllocError>
    ensures { OnOk result (length counts.new.items ≡ count) }
{
    if counts.len() == count {
        return Ok(());
    }
    counts.clear();
    counts.resize(count, 0)
}

/// As many marks as these.
fn fit_marks(marked: &mut Vec<bool>, count: usize) -> Result<(), AllocError>
    ensures { OnOk result (length marked.new.items ≡ count) }
{
    if marked.len() == count {
        return Ok(());
    }
    marked.clear();
    marked.resize(count, false)
}

impl Room {
    /// Rows for so many values, and a count for each. What stands in them is of no meaning. Cost: four steps where they are there.
    pub(crate) fn fit(&mut self, values: usize) -> Result<(), AllocError>
        requires { values ≤ 8192 }
        ensures { OnOk result (IsFit values self.new) }
    {
        let words = words_for(values);
        fit_words(&mut self.spare, words)?;
        fit_words(&mut self.other, words)?;
        fit_words(&mut self.set, words)?;
        fit_counts(&mut self.counts, values)
    }
}

/// A change that is chosen.
#[derive(Clone, Copy)]
pub(crate) struct ChosenEntry {
    /// The change.
    pub(crate) entry: Entry,
    /// Whether of what a vertex at its value takes only that is asked which edges refuse.
    pub(crate) by_edges: bool,
}

/// Memory that one dead path needs and the next can use again: a byte and a row of values for each pattern vertex, and a few rows.
pub struct Scratch {
    pub(crate) marked: Vec<bool>,
    pub(crate) needed: Vec<u64>,
    pub(crate) at: Vec<u16>,
    pub(crate) chosen: Vec<ChosenEntry>,
    pub(crate) room: Room,
}

impl Drop for Scratch {
    /// In one call, for whoever lets one go.
    fn drop(self) {
        let Scratch {
            marked: _,
            needed: _,
            at: _,
            chosen: _,
            room: _,
        } = self;
    }
}

impl Scratch {
    /// Nothing yet: no vertex is marked, no value needed and no change chosen. It takes no memory.
    pub fn new(alloc: Global) -> Scratch
        ensures marked { result.marked.items ≡ [] }
        ensures needed { result.needed.items ≡ [] }
        ensures chosen { result.chosen.items ≡ [] }
    {
        Scratch {
            marked: Vec::new(alloc),
            needed: Vec::new(alloc),
            at: Vec::new(alloc),
            chosen: Vec::new(alloc),
            room: Room {
                spare: Vec::new(alloc),
                other: Vec::new(alloc),
                set: Vec::new(alloc),
                counts: Vec::new(alloc),
                pairs: SmallVec::new(alloc),
            },
        }
    }
}

/// A mark and a row of values for each vertex. What stands in them is of no meaning.
pub(crate) fn fit_rows(
    marked: &mut Vec<bool>,
    needed: &mut Vec<u64>,
    vertices: usize,
    values: usize,
) -> Result<(), AllocError>
    requires few { vertices ≤ 1024 }
    requires values { values ≤ 8192 }
    ensures size { OnOk result (length marked.new.items ≡ vertices) }
    ensures held { OnOk result (AreRows values marked.new.items needed.new.items) }
{
    fit_marks(marked, vertices)?;
    fit_words(needed, vertices * words_for(values))
}
