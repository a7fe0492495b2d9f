//! The lines of one owner, kept as their text.

ghost use Rattle.std.specs.Prelude.{◌≡◌, ℕ, ◌+◌, ◌^◌, ◌<◌, ◌≤◌, [], ◌∷◌, ◌++◌, List, length, Some, Ok, Err, OnOk, OnErr, slice_index};
ghost use Rattle.log_theory.specs.LogText.{step_words, IsStep};
ghost use Rattle.log_theory.specs.Words.{line_text};
ghost use Rattle.journal_theory.specs.Journals.{named, own_name};
ghost use Rattle.journals.specs.Keeping.{IsLine, Keeps, Notes, text_of, ends_from, IsText, Keeping, AreSteps, BearNames};

use crate::keeper::Keeper;
use log_theory::{Name, Profile, Step};
use outer_io::TextBuffer;
use proof_log::write_step;
use std::alloc::{AllocError, Global};
use std::marker::Model;

/// The lines of an owner, from its number 1 on, and the notes of its rows. A line takes the bytes of its text and eight more.
pub struct Journal {
    owner: u8,
    text: TextBuffer,
    ends: Vec<usize>,
    notes: Vec<(u32, u64)>,
}

impl Drop for Journal {
    /// In one call, for whoever lets one go.
    fn drop(self) {
        let Journal {
            owner: _,
            text: _,
            ends: _,
            notes: _,
        } = self;
    }
}

impl Model for Journal {
    ghost use Rattle.std.specs.Prelude.{◌≤◌, ◌-◌, length, vec_capacity};
    ghost use Rattle.journals.specs.Keeping.{Keeping, IsText, steps_in, BearNames};

    ghost Value = { Keeping };

    ghost view = { λ j. record {
      owner = j.owner;
      steps = steps_in j.text.bytes;
      notes = j.notes.items;
      spare = vec_capacity j.notes - length j.notes.items;
    } };

    ghost invariant = { λ j. (j.owner ≤ 64) × IsText j.text.bytes j.ends.items
        × BearNames j.owner (steps_in j.text.bytes) };
}

impl Journal {
    /// No line yet. It takes no memory.
    pub fn new(alloc: Global, owner: u8) -> Journal
        requires { owner ≤ 64 }
        ensures owner { result.owner ≡ owner }
        ensures steps { result.steps ≡ [] }
        ensures notes { result.notes ≡ [] }
    {
        Journal {
            owner,
            text: TextBuffer::new(alloc),
            ends: Vec::new(alloc),
            notes: Vec::new(alloc),
        }
    }

    /// The text of all lines, each with its line end. They bear the names of their owner, from its number 1 on, and their numbers are in
    /// the ranges that a line may write.
    pub fn text(&self) -> &[u8]
        ensures text { result.now ≡ text_of self.now.steps }
        ensures names { BearNames self.now.owner self.now.steps }
        ensures ranges { AreSteps self.now.steps }
    {
        self.text.as_slice()
    }

    /// Where in the text each line ends.
    pub fn ends(&self) -> &[usize]
        ensures ends { result.now ≡ ends_from 0 self.now.steps }
        ensures few { length self.now.steps < 2 ^ 63 }
    {
        &self.ends
    }

    /// For each row that was noted the number of its line, in the order of noting.
    pub fn notes(&self) -> &[(u32, u64)]
        ensures { result.now ≡ self.now.notes }
    {
        &self.notes
    }

    /// Appends the line of a step under the owner's next name and its end, or leaves all as it was.
    fn append(&mut self, step: &Step) -> Result<(), AllocError>
        requires ranges { IsStep step.now }
        requires name { named self.old.owner (length self.old.steps) step.now ≡ step.now }
        ensures appended { OnOk result (self.new.steps ≡ self.old.steps ++ step.now ∷ []) }
        ensures refused { OnErr result (self.new.steps ≡ self.old.steps) }
        ensures owner { self.new.owner ≡ self.old.owner }
        ensures notes { self.new.notes ≡ self.old.notes }
        ensures spare { self.new.spare ≡ self.old.spare }
    {
        self.ends.reserve(1)?;
        let before = self.text.len();
        if write_step(Profile::Hinted, step, &mut self.text).is_err() {
            self.text.truncate(before);
            return Err(AllocError);
        }
        self.ends.push_reserved(self.text.len());
        Ok(())
    }
}

/// The line under another name.
fn renamed(step: Step, name: Name) -> Step
    requires { IsLine step }
    ensures { (place : ℕ) → name ≡ own_name name.owner place
        → result ≡ named name.owner place step }
{
    let mut line = step;
    match &mut line {
        Step::P { name: old, .. } => *old = name,
        Step::U { name: old, .. } => *old = name,
        _ => (),
    }
    line
}

impl Keeper for Journal {
    ghost owner = { λ j. j.owner };

    ghost kept = { λ j. Some j.steps };

    ghost notes = { λ j. j.notes };

    ghost spare = { λ j. j.spare };

    fn is_on(&self) -> bool {
        true
    }

    fn keep(&mut self, step: Step) -> Result<Name, AllocError> {
        let name = Name {
            owner: self.owner,
            number: self.ends.len() as u64 + 1,
        };
        let line = renamed(step, name);
        self.append(&line)?;
        Ok(name)
    }

    fn room(&mut self) -> Result<(), AllocError> {
        self.notes.reserve(1)
    }

    fn note(&mut self, row: u32, name: Name) {
        self.notes.push_reserved((row, name.number));
    }
}
