//! The literals that are true, on two levels: those of the root last from line to line, a line's own end with it. Each variable has a
//! stamp, 0 where its value lasts and else the number of the line that set it, so that a line's level is undone by counting on.

ghost use Rattle.std.specs.Prelude.{◌≡◌, ◌<◌, ◌≤◌, ◌^◌, ℕ, Bool, true, false, cond, ◌==◌, Option, Some, None, List, length, get_or, set, IfOk, OnOk};
ghost use Rattle.proof_theory.specs.Propagation.{Extends};
ghost use Rattle.pb_propagation.specs.Levels.{Keeps, SetTo, now, now_of, root, unset};

use std::alloc::{AllocError, Global};
use std::marker::Model;

/// A variable's value and its stamp.
#[derive(Clone, Copy, Debug)]
struct Mark {
    stamp: u32,
    value: bool,
}

/// What is true, and in which order it was set since `begin` or `leave_root`. Contracts see the two levels; the order is a queue, of which
/// they say nothing.
#[derive(Drop)]
pub struct Levels {
    marks: Vec<Mark>,
    line: u32,
    at_root: bool,
    queue: Vec<(u32, bool)>,
}

impl Model for Levels {
    ghost use Rattle.pb_propagation.specs.Levels.{AreStamped, TwoLevels};

    ghost Value = { TwoLevels };

    ghost view = { λ l. record { marks = l.marks.items; line = l.line; at_root = l.at_root } };

    ghost invariant = { λ l. AreStamped l.line l.marks.items };
}

/// The value that a mark gives its variable in a line.
fn value_of(mark: Mark, line: u32) -> Option<bool>
    ensures { result ≡ now_of line mark }
{
    if mark.stamp == 0 {
        return Some(mark.value);
    }
    if mark.stamp == line {
        return Some(mark.value);
    }
    None
}

/// Marks for all variables below `room`.
fn grow(marks: &mut Vec<Mark>, room: usize) -> Result<(), AllocError>
    ensures { (v : ℕ) → get_or marks.new.items v unset ≡ get_or marks.old.items v unset }
{
    if marks.len() < room {
        marks.resize(
            room,
            Mark {
                stamp: 1,
                value: false,
            },
        )?;
    }
    Ok(())
}

impl Levels {
    /// Nothing is true.
    pub fn new(alloc: Global) -> Levels
        ensures { (v : ℕ) → root result v ≡ None }
    {
        Levels {
            marks: Vec::new(alloc),
            line: 2,
            at_root: true,
            queue: Vec::new(alloc),
        }
    }

    /// Begins the next line at the root: of what is true only that stays which lasts. Constant.
    pub fn begin(&mut self)
        ensures lasts { Extends (root self.old) (root self.new) }
        ensures undone { (v : ℕ) → now self.new v ≡ root self.new v }
        ensures level { self.new.at_root ≡ true }
    {
        self.queue.clear();
        self.at_root = true;
        if self.line == u32::MAX {
            self.marks.clear();
            self.line = 2;
        } else {
            self.line += 1;
        }
    }

    /// Nothing is true any more.
    pub fn forget(&mut self)
        ensures { (v : ℕ) → root self.new v ≡ None }
    {
        self.marks.clear();
        self.queue.clear();
    }

    /// Makes room for the variables below `room`, where memory grows by doubling.
    pub fn grow(&mut self, room: usize) -> Result<(), AllocError>
        ensures level { self.new.at_root ≡ self.old.at_root }
        ensures root { (v : ℕ) → root self.new v ≡ root self.old v }
        ensures now { (v : ℕ) → now self.new v ≡ now self.old v }
    {
        grow(&mut self.marks, room)?;
        self.queue.reserve(room)?;
        Ok(())
    }

    /// From now on what is set ends with the line.
    pub fn leave_root(&mut self)
        ensures level { self.new.at_root ≡ false }
        ensures root { (v : ℕ) → root self.new v ≡ root self.old v }
        ensures now { (v : ℕ) → now self.new v ≡ now self.old v }
    {
        self.queue.clear();
        self.at_root = false;
    }

    /// What lasts is true.
    pub fn has_root(&self)
        ensures { Extends (now self.now) (root self.now) }
    {}

    /// The value of a variable, if it is set.
    pub fn value(&self, variable: u32) -> Option<bool>
        ensures { result ≡ now self.now variable }
    {
        match self.marks.get(variable as usize) {
            Some(&mark) => value_of(mark, self.line),
            None => None,
        }
    }

    /// Whether a variable has a place.
    pub fn is_within(&self, variable: u32) -> bool
        ensures { result ≡ true → variable < length self.now.marks }
    {
        (variable as usize) < self.marks.len()
    }

    /// Sets a variable.
    pub fn set(&mut self, variable: u32, value: bool)
        requires within { variable < length self.old.marks }
        requires unset { now self.old variable ≡ None }
        ensures set { SetTo (now self.old) variable value (now self.new) }
        ensures kept { Keeps self.old self.new }
    {
        let stamp = if self.at_root { 0 } else { self.line };
        self.marks[variable as usize] = Mark { stamp, value };
        let _ = self.queue.push((variable, value));
    }

    /// What was set at a place of the order.
    pub fn at(&self, place: usize) -> Option<(u32, bool)> {
        self.queue.get(place).copied()
    }

    /// How many places the variables have.
    pub fn places(&self) -> usize {
        self.marks.len()
    }
}
