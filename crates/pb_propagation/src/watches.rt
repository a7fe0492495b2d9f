//! Constraints that say how many of their literals are true at least, clauses among them. Such a constraint watches one literal more than
//! have to be true (Moskewicz and others 2001 for clauses; Chai, Kuehlmann 2003). While none of these is false nothing follows of it, so that
//! it is looked at only once one of them is, and then it watches another that is not false, if it has one. Undoing costs nothing: a literal
//! that is no longer watched was false before the one that is watched in its place. As counters are, this is advice: what follows of
//! a constraint it says itself (`follow`).

use super::levels::Levels;
use super::uses::{Uses, Watch, has_value, place_of};
use packed_terms::{Kept, PackedConstraint, ShortConstraint};
use std::alloc::{AllocError, Global};

/// The constraints behind one another: of each its number, how many literals it watches, how many it has, how far behind its number the
/// last search ended, and its literals, first those that it watches.
#[derive(Drop)]
pub struct Watches {
    words: Vec<u32>,
}

/// A constraint of which something may follow, and the next watch to look at.
#[derive(Clone, Copy, Debug)]
pub struct Due {
    pub number: usize,
    pub next: usize,
}

/// What became of a watch: another literal has it, it stays and nothing follows, or something may follow of the constraint of a number.
#[derive(Clone, Copy, Debug)]
enum Moved {
    Elsewhere,
    Nowhere,
    Due(usize),
}

/// How many words stand before the literals of a constraint.
const HEAD: usize = 4;

/// The degree of a constraint: what coefficients of true literals have to come to. One pass.
fn degree_of(next: &ShortConstraint) -> i64 {
    let mut degree = next.bound();
    for &(_, coefficient) in next.terms() {
        degree = degree.saturating_sub(i64::from(coefficient.min(0)));
    }
    degree
}

/// How many literals have to be true by a constraint that says so: all its coefficients are 1, or none is below its degree, so that one is
/// enough. Two passes.
fn least_of(next: &ShortConstraint) -> Option<i64> {
    let degree = degree_of(next);
    let mut narrowest = i64::MAX;
    let mut widest: i64 = 0;
    for &(variable, coefficient) in next.terms() {
        if variable >= 1 << 31 {
            return None;
        }
        let size = i64::from(coefficient.unsigned_abs());
        narrowest = narrowest.min(size);
        widest = widest.max(size);
    }
    if narrowest >= degree {
        return Some(degree.min(1));
    }
    if widest > 1 { None } else { Some(degree) }
}

/// How many literals a constraint watches, if it says how many are true. None where nothing ever follows of it, or as much whatever is set,
/// or where it would watch more than a third of them and not all: then a counter costs less than to look for others. Two passes.
fn watched_of(next: &ShortConstraint) -> Option<u32> {
    let Some(least) = least_of(next) else {
        return None;
    };
    let length = next.terms().len() as u64;
    if least < 1 || least.unsigned_abs() >= length {
        return None;
    }
    let watched = least.unsigned_abs().saturating_add(1);
    if least > 1 && watched < length && watched.saturating_mul(3) > length {
        return None;
    }
    u32::try_from(watched).ok()
}

/// Brings the literals of a stretch that are not false to its front. One pass.
fn open_first(words: &mut [u32], set: &Levels, from: usize, end: usize) {
    let mut front = from;
    for at in from..end {
        if at < words.len() && front < words.len() && !has_value(set, words[at], false) {
            words.swap(front, at);
            front = front.saturating_add(1);
        }
    }
}

/// The place of the first literal of a stretch that is not false.
fn open_place(words: &[u32], set: &Levels, from: usize, end: usize) -> Option<usize> {
    for at in from..end.min(words.len()) {
        if !has_value(set, words[at], false) {
            return Some(at);
        }
    }
    None
}

/// The place of a literal in a stretch.
fn place_in(words: &[u32], literal: usize, from: usize, end: usize) -> Option<usize> {
    for at in from..end.min(words.len()) {
        if words[at] as usize == literal {
            return Some(at);
        }
    }
    None
}

/// Whether all literals of a stretch but one are true.
fn are_true(words: &[u32], set: &Levels, but: usize, from: usize, end: usize) -> bool {
    for at in from..end.min(words.len()) {
        if words[at] as usize != but && !has_value(set, words[at], true) {
            return false;
        }
    }
    true
}

impl Watches {
    /// No constraint.
    pub fn new(alloc: Global) -> Watches {
        Watches {
            words: Vec::new(alloc),
        }
    }

    /// A word, or 0 behind the last.
    fn word(&self, at: usize) -> u32 {
        match self.words.get(at) {
            Some(&word) => word,
            None => 0,
        }
    }

    /// Puts a constraint behind the others, and makes lists for its literals. One pass.
    fn push(
        &mut self,
        alloc: Global,
        uses: &mut Uses,
        number: u32,
        watched: u32,
        next: &ShortConstraint,
    ) -> Result<(), AllocError> {
        self.words.push(number)?;
        self.words.push(watched)?;
        self.words
            .push(u32::try_from(next.terms().len()).unwrap_or(0))?;
        self.words.push(0)?;
        for &(variable, coefficient) in next.terms() {
            let place = place_of(variable, coefficient < 0);
            uses.make_lists(alloc, place)?;
            self.words.push(u32::try_from(place).unwrap_or(0))?;
        }
        Ok(())
    }

    /// A watch for the literal at a place. Its other literal is the one that the constraint watches beside it, where these are two: one
    /// that is true is then enough. Else it is the literal itself, which is not true where the watch is looked at.
    fn watch_at(&self, at: u32, place: usize) -> Watch {
        let first = at as usize + HEAD;
        let beside = if place == first { first + 1 } else { first };
        let is_two = self.word(at as usize + 1) == 2;
        let other = self.word(if is_two { beside } else { place });
        Watch { at, other }
    }

    /// Lets a constraint watch its first literals, which are not false as far as it has such.
    fn begin(&mut self, uses: &mut Uses, set: &Levels, at: u32) -> Result<(), AllocError> {
        let from = at as usize + HEAD;
        let end = self.words.len();
        open_first(&mut self.words, set, from, end);
        let watched = self.word(at as usize + 1) as usize;
        for place in from..from.saturating_add(watched) {
            uses.watch(self.word(place) as usize, self.watch_at(at, place))?;
        }
        Ok(())
    }

    /// Keeps a constraint, if it says how many literals are true and there is room in 2^32 words; whether it does. A few passes.
    pub fn keep(
        &mut self,
        alloc: Global,
        uses: &mut Uses,
        set: &Levels,
        number: u32,
        next: &PackedConstraint,
    ) -> Result<bool, AllocError> {
        let Kept::Short(short) = next.kept() else {
            return Ok(false);
        };
        let Ok(at) = u32::try_from(self.words.len()) else {
            return Ok(false);
        };
        let Some(watched) = watched_of(short) else {
            return Ok(false);
        };
        self.push(alloc, uses, number, watched, short)?;
        self.begin(uses, set, at)?;
        Ok(true)
    }

    /// The place of a literal that is not false, from where the last search ended to there again: so that all searches of a line together
    /// go round a few times.
    fn seek(&self, set: &Levels, at: u32, behind: usize, end: usize) -> Option<usize> {
        let base = at as usize;
        let start = base
            .saturating_add(self.word(base + 3) as usize)
            .max(behind);
        match open_place(&self.words, set, start, end) {
            Some(open) => Some(open),
            None => open_place(&self.words, set, behind, start),
        }
    }

    /// Notes where a search ended.
    fn note_end(&mut self, at: u32, open: usize) {
        let base = at as usize;
        if base + 3 < self.words.len() {
            self.words[base + 3] = u32::try_from(open.saturating_sub(base)).unwrap_or(0);
        }
    }

    /// Lets the watch of a literal go on to the one at a place, which is not watched; whether it does, which takes memory.
    fn exchange(&mut self, uses: &mut Uses, gone: usize, at: u32, open: usize) -> bool {
        let from = at as usize + HEAD;
        let Some(place) = place_in(&self.words, gone, from, open) else {
            return false;
        };
        if place >= self.words.len() || open >= self.words.len() {
            return false;
        }
        self.words.swap(place, open);
        if uses
            .watch(self.word(place) as usize, self.watch_at(at, place))
            .is_ok()
        {
            return true;
        }
        if place < self.words.len() && open < self.words.len() {
            self.words.swap(place, open);
        }
        false
    }

    /// Lets the watch of a false literal go on to another that is not false, if its constraint has one that it does not watch. One look
    /// where the constraint watches two and the other one is true, else its literals.
    fn move_on(
        &mut self,
        uses: &mut Uses,
        set: &Levels,
        gone: usize,
        number: usize,
        at: u32,
    ) -> Moved {
        let from = at as usize + HEAD;
        let behind = from.saturating_add(self.word(at as usize + 1) as usize);
        let end = from.saturating_add(self.word(at as usize + 2) as usize);
        let is_first = self.word(from) as usize == gone;
        let stays = self.watch_at(at, if is_first { from } else { from + 1 });
        if behind == from + 2 && has_value(set, stays.other, true) {
            uses.set_watch(gone, number, stays);
            return Moved::Nowhere;
        }
        if let Some(open) = self.seek(set, at, behind, end) {
            self.note_end(at, open);
            if self.exchange(uses, gone, at, open) {
                uses.take_watch(gone, number);
                return Moved::Elsewhere;
            }
        }
        if are_true(&self.words, set, gone, from, behind) {
            return Moved::Nowhere;
        }
        Moved::Due(self.word(at as usize) as usize)
    }

    /// Lets the watches of a false literal, from one on, go on to others, up to a constraint of which something may follow. Constant for
    /// each clause that is known to have a true literal, and the literals of each other constraint.
    pub fn next_due(
        &mut self,
        uses: &mut Uses,
        set: &Levels,
        gone: usize,
        from: usize,
    ) -> Option<Due> {
        let mut from = from;
        for _ in from..uses.watches(gone).len() {
            let Some((number, watch)) = uses.open_watch(set, gone, from) else {
                return None;
            };
            match self.move_on(uses, set, gone, number, watch.at) {
                Moved::Elsewhere => from = number,
                Moved::Nowhere => from = number.saturating_add(1),
                Moved::Due(constraint) => {
                    return Some(Due {
                        number: constraint,
                        next: number.saturating_add(1),
                    });
                }
            }
        }
        None
    }
}
