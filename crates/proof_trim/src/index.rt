//! Where the line of each name stands among the lines that make constraints, and which name each row shares.

ghost use Rattle.std.specs.Prelude.{◌≡◌, ◌==◌, ◌<◌, ◌-◌, ◌^◌, ℕ, List, ◌∷◌, ◌++◌, [], length, nat_eq, IfOk, OnOk};
ghost use Rattle.std.specs.HashMap.{get};
ghost use Rattle.log_theory.specs.declared.step.Name.{Name as TheName};
ghost use Rattle.log_theory.specs.declared.step.Step.{Step as TheStep};
ghost use Rattle.trim_theory.specs.Marking.{made_lines, same_name};
ghost use Rattle.proof_trim.specs.Places.{name_place, place_in, only, or_else, IsIndexOf, IsIndexWith};

use log_theory::{Name, Ref, Step};
use std::alloc::{AllocError, Global};
use std::collections::HashMap;

/// The places of names, counted from 0 over all lines that make a constraint, and the names of rows. A name is found by hash.
#[derive(Drop)]
pub(crate) struct Index {
    places: HashMap<(u8, u64), usize>,
    rows: HashMap<u32, Name>,
}

impl Index {
    /// No line yet.
    pub(crate) fn new(alloc: Global) -> Index
        ensures { IsIndexOf result [] }
    {
        Index {
            places: HashMap::new(alloc),
            rows: HashMap::new(alloc),
        }
    }

    /// Takes the name of the line at a place, unless it stands at an earlier one.
    fn put_name(&mut self, name: Name, place: usize) -> Result<(), AllocError>
        ensures names { OnOk result ((other : TheName) → name_place self.new other
            ≡ or_else (name_place self.old other) (only (same_name name other) place)) }
        ensures rows { OnOk result (self.new.rows ≡ self.old.rows) }
    {
        match self.name_place(name) {
            Some(_) => Ok(()),
            None => {
                self.places.insert((name.owner, name.number), place)?;
                Ok(())
            }
        }
    }

    /// Takes the name that a row shares, unless the row has one.
    fn put_row(&mut self, row: u32, name: Name) -> Result<(), AllocError>
        ensures rows { OnOk result ((k : ℕ) → get nat_eq self.new.rows k
            ≡ or_else (get nat_eq self.old.rows k) (only (row == k) name)) }
        ensures names { OnOk result (self.new.places ≡ self.old.places) }
    {
        if self.rows.get(&row).is_none() {
            self.rows.insert(row, name)?;
        }
        Ok(())
    }

    /// Takes the next line of a log, behind so many that make a constraint, and tells how many do then.
    pub(crate) fn take(&mut self, step: &Step, count: usize) -> Result<usize, AllocError>
        requires { count < 2 ^ 64 - 1 }
        ensures { IfOk result (λ next. (log : List TheStep) → IsIndexOf self.old log
            → count ≡ length (made_lines log) → IsIndexWith self.new (log ++ step.now ∷ []) next) }
    {
        match step {
            Step::P { name, ops: _ } => {
                self.put_name(*name, count)?;
                Ok(count + 1)
            }
            Step::U {
                name,
                lits: _,
                refs: _,
            } => {
                self.put_name(*name, count)?;
                Ok(count + 1)
            }
            Step::N { row, name } => {
                self.put_row(*row, *name)?;
                Ok(count)
            }
            _ => Ok(count),
        }
    }

    /// The place of a name.
    fn name_place(&self, name: Name) -> Option<usize>
        ensures { result ≡ name_place self.now name }
    {
        self.places.get(&(name.owner, name.number)).copied()
    }

    /// The place of the line that a reference names, by its name or by a row; a constraint of the model has none.
    pub(crate) fn place_of(&self, at: Ref) -> Option<usize>
        ensures { result ≡ place_in self.now at }
    {
        match at {
            Ref::Line(_) => None,
            Ref::Made(name) => self.name_place(name),
            Ref::Shared(row) => match self.rows.get(&row) {
                Some(name) => self.name_place(*name),
                None => None,
            },
        }
    }
}
