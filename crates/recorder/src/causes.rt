//! A recorder that keeps the changes, with the numbers of the sets that were counted together in one list beside them.

ghost use Rattle.std.specs.Prelude.{◌≡◌, [], List, Option, None, Some, IfOk, IfSome, IfNone};

use crate::change::{Cause, Entry, Place, What};
use crate::recorder::Recorder;
use crate::sets::{cut_entries, put_rows, put_set};
use domain_bits::Mark;
use graph_theory::direction::Direction;
use std::alloc::{AllocError, Global};
use std::marker::Model;

/// The changes since the domains were full, or nothing once memory was refused. Cost: one entry for each change, and one number for each
/// vertex and value of a set that was counted.
pub struct Causes {
    /// The changes in order.
    entries: Vec<Entry>,
    /// The vertices and values of sets, one set behind the other.
    numbers: Vec<u16>,
    /// The set that was found short last, with the centre of its block, if nothing has changed since.
    short: Option<(Option<u16>, Place)>,
    /// Whether no memory was refused so far.
    whole: bool,
}

impl Drop for Causes {
    /// In one call, for whoever lets one go.
    fn drop(self) {
        let Causes {
            entries: _,
            numbers: _,
            short: _,
            whole: _,
        } = self;
    }
}

impl Model for Causes {
    ghost use Rattle.recorder.specs.Recording.{Recorded, AreLaid, recorded};

    ghost Value = { Recorded };

    ghost view = { λ c. recorded c.whole c.entries.items c.numbers.items c.short };

    ghost invariant = { λ c. AreLaid c.entries.items c.numbers.items };
}

/// The changes that are kept, in order, with the numbers of their sets, and the set that was found short last.
#[derive(Clone, Copy)]
pub struct KeptChanges<'a> {
    /// The changes.
    pub entries: &'a [Entry],
    /// The numbers in which their sets stand.
    pub numbers: &'a [u16],
    /// The set that has fewer values than vertices, with the centre of its block.
    pub short: Option<(Option<u16>, Place)>,
}

impl Causes {
    ghost use Rattle.recorder.specs.Recording.{AreLaid, changes_of, set_at};

    /// No changes.
    pub fn new(alloc: Global) -> Causes
        ensures { result ≡ record { changes = Some []; short = None } }
    {
        Causes {
            entries: Vec::new(alloc),
            numbers: Vec::new(alloc),
            short: None,
            whole: true,
        }
    }

    /// No changes, and none from now on.
    fn lost(alloc: Global) -> Causes
        ensures { result.changes ≡ None }
    {
        Causes {
            entries: Vec::new(alloc),
            numbers: Vec::new(alloc),
            short: None,
            whole: false,
        }
    }

    /// The changes of these entries, whose sets stand in the numbers.
    fn again(alloc: Global, entries: &[Entry], numbers: &[u16]) -> Result<Causes, AllocError>
        requires { AreLaid entries.now numbers.now }
        ensures { IfOk result (λ c. c.changes ≡ Some (changes_of numbers.now entries.now)) }
    {
        let entries = Vec::from_slice(alloc, entries)?;
        let numbers = Vec::from_slice(alloc, numbers)?;
        Ok(Causes {
            entries,
            numbers,
            short: None,
            whole: true,
        })
    }

    /// The changes, unless memory was refused. Cost: one step.
    pub fn kept(&self) -> Option<KeptChanges<'_>>
        ensures some { IfSome result (λ k. self.now.changes ≡ Some
            (changes_of k.numbers.now k.entries.now)) }
        ensures short { IfSome result (λ k. self.now.short ≡ set_at k.numbers.now k.short) }
        ensures none { IfNone result (self.now.changes ≡ None) }
    {
        if !self.whole {
            return None;
        }
        Some(KeptChanges {
            entries: &self.entries,
            numbers: &self.numbers,
            short: self.short,
        })
    }
}

impl Recorder for Causes {
    ghost changes = { λ c. c.changes };

    ghost short = { λ c. c.short };

    fn listens(&self) -> bool {
        self.whole
    }

    fn took(&mut self, vertex: u16, cause: Cause, from: Mark) {
        self.short = None;
        if !self.whole {
            return;
        }
        let entry = Entry {
            what: What::One(vertex, cause),
            from,
        };
        if self.entries.push(entry).is_err() {
            self.whole = false;
        }
    }

    fn counted(&mut self, centre: Option<u16>, vertices: &[u16], row: &[u64], from: Mark) {
        self.short = None;
        if !self.whole {
            return;
        }
        match put_set(&mut self.numbers, vertices, row) {
            Ok(place) => {
                let entry = Entry {
                    what: What::Others(centre, place),
                    from,
                };
                if self.entries.push(entry).is_err() {
                    self.whole = false;
                }
            }
            Err(_) => self.whole = false,
        }
    }

    fn crowded(
        &mut self,
        vertex: u16,
        value: u16,
        direction: Direction,
        vertices: &[u64],
        values: &[u64],
        from: Mark,
    ) {
        self.short = None;
        if !self.whole {
            return;
        }
        match put_rows(&mut self.numbers, vertices, values) {
            Ok(place) => {
                let entry = Entry {
                    what: What::Over(vertex, value, direction, place),
                    from,
                };
                if self.entries.push(entry).is_err() {
                    self.whole = false;
                }
            }
            Err(_) => self.whole = false,
        }
    }

    fn found_short(&mut self, centre: Option<u16>, vertices: &[u16], row: &[u64]) {
        self.short = None;
        if !self.whole {
            return;
        }
        match put_set(&mut self.numbers, vertices, row) {
            Ok(place) => self.short = Some((centre, place)),
            Err(_) => self.whole = false,
        }
    }

    fn forget_to(&mut self, mark: Mark) {
        self.short = None;
        cut_entries(&mut self.entries, &mut self.numbers, mark);
    }

    fn copy(&self, alloc: Global) -> Causes {
        if !self.whole {
            return Causes::lost(alloc);
        }
        match Causes::again(alloc, &self.entries, &self.numbers) {
            Ok(copy) => copy,
            Err(_) => Causes::lost(alloc),
        }
    }
}
