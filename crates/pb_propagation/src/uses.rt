//! The constraints in which each literal stands, where these have counters, and those that watch it. A literal without either has four bytes,
//! so that a log which names great variables takes little for those below. Like the counters and the watches that it serves this is
//! advice, and no contract speaks of it.

use super::levels::Levels;
use packed_terms::{Kept, PackedConstraint};
use std::alloc::{AllocError, Global};

/// A constraint in which a literal stands, and its coefficient there.
#[derive(Clone, Copy, Debug)]
pub struct Use {
    pub number: u32,
    pub size: u32,
}

impl Use {
    /// The constraint's number.
    pub fn number(&self) -> usize {
        self.number as usize
    }
}

/// The place where a constraint is kept that watches a literal, and a literal: while that one is true nothing follows of it.
#[derive(Clone, Copy, Debug)]
pub struct Watch {
    pub at: u32,
    pub other: u32,
}

/// What concerns a literal: the constraints from whose counters it is taken once it is false, and those that watch it.
#[derive(Drop)]
struct Concerned {
    uses: Vec<Use>,
    watches: Vec<Watch>,
}

/// What concerns each literal that something concerns, and for each literal 0, or the place of that and 1: a literal in use costs two
/// lists, and any other below the greatest variable four bytes.
#[derive(Drop)]
pub struct Uses {
    heads: Vec<u32>,
    lists: Vec<Concerned>,
}

/// The place of the head of the literal that is false where a variable has a value. A constraint that watches keeps a literal as this number.
pub fn place_of(variable: u32, value: bool) -> usize {
    variable as usize * 2 + usize::from(value)
}

/// Whether the literal of a place has this value.
pub fn has_value(set: &Levels, literal: u32, value: bool) -> bool {
    match set.value(literal / 2) {
        Some(held) => held == (value == (literal % 2 == 0)),
        None => false,
    }
}

/// The first watch from one on whose other literal is not true, or how many there are. Constant for each.
fn first_open(set: &Levels, watches: &[Watch], from: usize) -> usize {
    for at in from..watches.len() {
        if !has_value(set, watches[at].other, true) {
            return at;
        }
    }
    watches.len()
}

/// The place of the list of the literal at a place, past all lists where there is none.
fn list_of(heads: &[u32], place: usize) -> usize {
    match heads.get(place) {
        Some(&head) => (head as usize).wrapping_sub(1),
        None => usize::MAX,
    }
}

impl Uses {
    /// No literal is in use.
    pub fn new(alloc: Global) -> Uses {
        Uses {
            heads: Vec::new(alloc),
            lists: Vec::new(alloc),
        }
    }

    /// The uses of the literal that is false where a variable has a value.
    pub fn of(&self, variable: u32, value: bool) -> &[Use] {
        match self
            .lists
            .get(list_of(&self.heads, place_of(variable, value)))
        {
            Some(list) => &list.uses,
            None => &[],
        }
    }

    /// The watches of the literal of a place.
    pub fn watches(&self, place: usize) -> &[Watch] {
        match self.lists.get(list_of(&self.heads, place)) {
            Some(list) => &list.watches,
            None => &[],
        }
    }

    /// The number of the first watch of a literal from one on whose other literal is not true, and the watch.
    pub fn open_watch(&self, set: &Levels, place: usize, from: usize) -> Option<(usize, Watch)> {
        let watches = self.watches(place);
        let at = first_open(set, watches, from);
        match watches.get(at) {
            Some(&watch) => Some((at, watch)),
            None => None,
        }
    }

    /// Lets a constraint watch the literal of a place, which has lists.
    pub fn watch(&mut self, place: usize, next: Watch) -> Result<(), AllocError> {
        let at = list_of(&self.heads, place);
        if at < self.lists.len() {
            self.lists[at].watches.push(next)?;
        }
        Ok(())
    }

    /// Exchanges a watch of a literal.
    pub fn set_watch(&mut self, place: usize, number: usize, next: Watch) {
        let at = list_of(&self.heads, place);
        if at < self.lists.len() && number < self.lists[at].watches.len() {
            self.lists[at].watches[number] = next;
        }
    }

    /// Takes a watch from a literal, whose last one takes its place.
    pub fn take_watch(&mut self, place: usize, number: usize) {
        let at = list_of(&self.heads, place);
        if at < self.lists.len() && number < self.lists[at].watches.len() {
            let _ = self.lists[at].watches.swap_remove(number);
        }
    }

    /// A head for each literal of the variables below a number.
    pub fn make_room(&mut self, variables: u64) -> Result<(), AllocError> {
        let places = variables.saturating_mul(2) as usize;
        if self.heads.len() < places {
            self.heads.resize(places, 0)?;
        }
        Ok(())
    }

    /// Makes the lists of a literal that has a head and none, unless there are 2^32.
    pub fn make_lists(&mut self, alloc: Global, place: usize) -> Result<(), AllocError> {
        if place >= self.heads.len() || self.heads[place] != 0 {
            return Ok(());
        }
        if let Ok(head) = u32::try_from(self.lists.len().saturating_add(1)) {
            self.lists.push(Concerned {
                uses: Vec::new(alloc),
                watches: Vec::new(alloc),
            })?;
            self.heads[place] = head;
        }
        Ok(())
    }

    /// Notes a use of a literal that has a head.
    fn note(&mut self, alloc: Global, place: usize, next: Use) -> Result<(), AllocError> {
        self.make_lists(alloc, place)?;
        let at = list_of(&self.heads, place);
        if at < self.lists.len() {
            self.lists[at].uses.push(next)?;
        }
        Ok(())
    }

    /// Notes the use of a term's literal.
    fn note_term(
        &mut self,
        alloc: Global,
        number: u32,
        variable: u32,
        is_negative: bool,
        size: u32,
    ) -> Result<(), AllocError> {
        let place = place_of(variable, is_negative);
        self.note(alloc, place, Use { number, size })
    }

    /// Notes the uses of a constraint's literals. One pass.
    pub fn note_all(
        &mut self,
        alloc: Global,
        number: u32,
        next: &PackedConstraint,
    ) -> Result<(), AllocError> {
        match next.kept() {
            Kept::Short(short) => {
                for &(variable, coefficient) in short.terms() {
                    let size = coefficient.unsigned_abs();
                    self.note_term(alloc, number, variable, coefficient < 0, size)?;
                }
            }
            Kept::Wide(wide) => {
                for &(variable, coefficient) in wide.terms() {
                    let size = u32::try_from(coefficient.unsigned_abs()).unwrap_or(u32::MAX);
                    self.note_term(alloc, number, variable, coefficient < 0, size)?;
                }
            }
        }
        Ok(())
    }

    /// How many variables have heads: those below the greatest that a constraint names, and this one.
    pub fn reach(&self) -> usize {
        self.heads.len() / 2
    }
}
