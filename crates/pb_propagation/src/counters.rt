//! By what unit propagation sees whom a literal concerns. A constraint that says how many of its literals are true has watches (`watches`);
//! any other has a counter of slack (Sheini, Sakallah 2006; Elffers, Nordström 2018; Devriendt 2020). Each constraint has a number, and each
//! literal the list of the counted constraints in which it stands. Once a literal is false its coefficients leave the slacks of these, and
//! a constraint is looked at only where its slack is below its greatest coefficient. What counters and watches say is advice, and no
//! contract speaks of it: whoever takes it looks at the constraint itself before anything follows (`follow`), so that a wrong counter
//! would cost time and no answer.

use super::following::greatest_of;
use super::levels::Levels;
use super::reach::reach;
use super::short_following::excess_of;
use super::slot::Slot;
use super::table::Table;
use super::uses::{Use, Uses, place_of};
use super::watches::{Due, Watches};
use log_theory::{Name, Ref};
use packed_terms::{Kept, PackedConstraint, ShortConstraint};
use pb_terms::Constraint;
use std::alloc::{AllocError, Global};

/// The slack of a constraint under the literals that have been taken from it, and its greatest coefficient.
#[derive(Clone, Copy, Debug)]
pub struct Counter {
    slack: i64,
    widest: i64,
}

/// The counter and the name of each constraint, by its number; what concerns each literal; the constraints that watch; how many constraints
/// of the model and of each owner have a number; up to which number all that they force at the root was set; how many literals of the
/// queue were taken from the counters; whether some were at the root; and how many names and rows were deleted.
pub struct Counters {
    pub slacks: Vec<Counter>,
    pub names: Vec<Ref>,
    pub uses: Uses,
    watches: Watches,
    counted: Vec<usize>,
    pub settled: usize,
    pub taken: usize,
    has_root: bool,
    deleted: usize,
}

impl Drop for Counters {
    /// In one call, for whoever lets one go.
    fn drop(self) {
        let Counters {
            slacks: _,
            names: _,
            uses: _,
            watches: _,
            counted: _,
            settled: _,
            taken: _,
            has_root: _,
            deleted: _,
        } = self;
    }
}

/// The counter of a constraint that watches, from which nothing is taken: it is due wherever all that is due is looked at.
const WATCHED: Counter = Counter {
    slack: 0,
    widest: 1,
};

/// The greatest absolute coefficient. One pass.
fn widest_of(terms: &[(u32, i128)]) -> u128 {
    let mut widest: u128 = 0;
    for &(_, coefficient) in terms {
        widest = widest.max(coefficient.unsigned_abs());
    }
    widest
}

/// The counter of a constraint in short terms. Two passes.
fn short_counter(set: &Levels, next: &ShortConstraint) -> Counter {
    let mut widest: u32 = 0;
    for &(_, coefficient) in next.terms() {
        widest = widest.max(coefficient.unsigned_abs());
    }
    Counter {
        slack: excess_of(set, next),
        widest: i64::from(widest),
    }
}

/// The counter of a constraint in wide terms; one that is due at each change, where its numbers are beyond a counter's.
fn wide_counter(set: &Levels, next: &Constraint) -> Counter {
    let slack = greatest_of(set, next.terms()).saturating_sub(next.bound());
    let widest = widest_of(next.terms());
    if widest > u128::from(u32::MAX) || slack.unsigned_abs() > 1 << 62 {
        return Counter {
            slack: 0,
            widest: i64::MAX,
        };
    }
    Counter {
        slack: i64::try_from(slack).unwrap_or(0),
        widest: i64::try_from(widest).unwrap_or(i64::MAX),
    }
}

/// The counter of a constraint. Two passes.
fn counter_of(set: &Levels, next: &PackedConstraint) -> Counter {
    match next.kept() {
        Kept::Short(short) => short_counter(set, short),
        Kept::Wide(wide) => wide_counter(set, wide),
    }
}

/// Whether a constraint may be in conflict or force something.
pub fn is_due(slacks: &[Counter], number: usize) -> bool {
    match slacks.get(number) {
        Some(counter) => counter.slack < counter.widest,
        None => false,
    }
}

/// Takes a false literal from a counter, and says whether its constraint is due.
pub fn lower(slacks: &mut [Counter], next: Use) -> bool {
    let number = next.number as usize;
    if number >= slacks.len() {
        return false;
    }
    let Counter { slack, widest } = slacks[number];
    let slack = slack.wrapping_sub(i64::from(next.size));
    slacks[number] = Counter { slack, widest };
    slack < widest
}

/// Gives counters back what a literal took from them.
fn raise_all(slacks: &mut [Counter], uses: &[Use]) {
    for next in uses {
        let number = next.number as usize;
        if number < slacks.len() {
            let Counter { slack, widest } = slacks[number];
            let slack = slack.wrapping_add(i64::from(next.size));
            slacks[number] = Counter { slack, widest };
        }
    }
}

/// How many constraints of a list have a number.
fn counted_of(counted: &[usize], list: usize) -> usize {
    match counted.get(list) {
        Some(&count) => count,
        None => 0,
    }
}

/// Notes how many constraints of a list have a number.
fn note_counted(counted: &mut Vec<usize>, list: usize, count: usize) -> Result<(), AllocError> {
    for _ in counted.len()..list.saturating_add(1) {
        counted.push(0)?;
    }
    if list < counted.len() {
        counted[list] = count;
    }
    Ok(())
}

impl Counters {
    /// No constraint.
    pub fn new(alloc: Global) -> Counters {
        Counters {
            slacks: Vec::new(alloc),
            names: Vec::new(alloc),
            uses: Uses::new(alloc),
            watches: Watches::new(alloc),
            counted: Vec::new(alloc),
            settled: 0,
            taken: 0,
            has_root: false,
            deleted: 0,
        }
    }

    /// Notes that a name or a row was deleted, and that what the root had is forgotten.
    pub fn note_deleted(&mut self) {
        self.deleted = self.deleted.saturating_add(1);
    }

    /// Notes whether the root has a literal that the counters may have taken.
    pub fn note_root(&mut self, set: &Levels) {
        self.has_root = self.has_root || set.at(0).is_some();
    }

    /// Begins anew where something was deleted and the root had a literal, which is no longer known to be true; and where as much was
    /// deleted as half of what has a number, so that the uses of what is gone take no more memory than those of what stands.
    pub fn renew(&mut self, alloc: Global) {
        if self.deleted == 0 {
            return;
        }
        if self.has_root || self.deleted.saturating_mul(2) >= self.names.len() {
            *self = Counters::new(alloc);
        }
    }

    /// The counter of a constraint with a number: that of one which watches, or of one whose literals have uses.
    fn begin(
        &mut self,
        alloc: Global,
        set: &Levels,
        number: u32,
        next: &PackedConstraint,
    ) -> Result<Counter, AllocError> {
        if self.watches.keep(alloc, &mut self.uses, set, number, next)? {
            return Ok(WATCHED);
        }
        self.uses.note_all(alloc, number, next)?;
        Ok(counter_of(set, next))
    }

    /// Gives a constraint the next number. A few passes over its terms.
    fn number(
        &mut self,
        alloc: Global,
        set: &Levels,
        name: Ref,
        next: &PackedConstraint,
    ) -> Result<(), AllocError> {
        let Ok(number) = u32::try_from(self.slacks.len()) else {
            return Ok(());
        };
        self.uses.make_room(reach(next))?;
        let counter = self.begin(alloc, set, number, next)?;
        self.names.push(name)?;
        self.slacks.push(counter)?;
        Ok(())
    }

    /// Numbers what the model has that has no number.
    fn number_model(
        &mut self,
        alloc: Global,
        set: &Levels,
        model: &[PackedConstraint],
    ) -> Result<(), AllocError> {
        let from = counted_of(&self.counted, 0);
        for at in from..model.len() {
            let name = Ref::Line((at as u64).saturating_add(1));
            self.number(alloc, set, name, &model[at])?;
        }
        note_counted(&mut self.counted, 0, model.len())
    }

    /// Numbers what an owner has made and stands there without a number.
    fn number_made(
        &mut self,
        alloc: Global,
        set: &Levels,
        owner: u8,
        made: &[Slot],
    ) -> Result<(), AllocError> {
        let list = usize::from(owner) + 1;
        let from = counted_of(&self.counted, list);
        for at in from..made.len() {
            if let Some(next) = made[at].constraint() {
                let number = (at as u64).saturating_add(1);
                let name = Ref::Made(Name { owner, number });
                self.number(alloc, set, name, next)?;
            }
        }
        note_counted(&mut self.counted, list, made.len())
    }

    /// Numbers all that has no number. Constant, and what the new ones cost.
    pub fn take_in(
        &mut self,
        alloc: Global,
        set: &Levels,
        model: &[PackedConstraint],
        table: &Table,
    ) -> Result<(), AllocError> {
        self.number_model(alloc, set, model)?;
        let lists = table.lists();
        for at in 0..lists.len() {
            if let Ok(owner) = u8::try_from(at) {
                self.number_made(alloc, set, owner, &lists[at])?;
            }
        }
        Ok(())
    }

    /// The number after the greatest variable of all constraints.
    pub fn reach(&self) -> usize {
        self.uses.reach()
    }

    /// How many constraints watch the literal that is false where a variable has a value.
    pub fn watching(&self, variable: u32, value: bool) -> usize {
        self.uses.watches(place_of(variable, value)).len()
    }

    /// Lets the watches of the literal that is false where a variable has a value, from one on, go on to others, up to a constraint of
    /// which something may follow.
    pub fn next_due(
        &mut self,
        set: &Levels,
        variable: u32,
        value: bool,
        from: usize,
    ) -> Option<Due> {
        let gone = place_of(variable, value);
        self.watches.next_due(&mut self.uses, set, gone, from)
    }

    /// Gives the counters back all that the queue's literals took from them.
    pub fn undo(&mut self, set: &Levels) {
        for place in 0..self.taken {
            let Some((variable, value)) = set.at(place) else {
                return;
            };
            raise_all(&mut self.slacks, self.uses.of(variable, value));
        }
    }
}
