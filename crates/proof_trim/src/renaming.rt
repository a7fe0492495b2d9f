//! What lines become under new names.

ghost use Rattle.std.specs.Prelude.{◌≡◌, ◌≢◌, ℕ, ◌<◌, ◌-◌, ◌^◌, ◌++◌, ◌∷◌, [], length, map, Some, IfOk, OnOk};
ghost use Rattle.log_theory.specs.declared.step.Ref.{Ref as TheRef};
ghost use Rattle.log_theory.specs.declared.step.Ref.TheVariants.{Made};
ghost use Rattle.log_theory.specs.declared.step.Step.TheVariants.{D};
ghost use Rattle.log_theory.specs.LogText.{IsStep};
ghost use Rattle.journal_theory.specs.Journals.{own_name, IsMaking};
ghost use Rattle.trim_theory.specs.Marking.{IsLast, new_op, new_line, new_last, rank, marked_deletions};
ghost use Rattle.proof_trim.specs.Places.{place_in};
ghost use Rattle.proof_trim.specs.Ranks.{mark_at, AreRanks, renamed, AreBelow};
ghost use Rattle.proof_trim.specs.Texts.{steps_text};

use crate::index::Index;
use crate::text::put_step;
use log_theory::{Clause, Name, Op, Ops, Ref, Refs, Step};
use outer_io::TextBuffer;
use proof_log::plain;
use std::alloc::{AllocError, Global};

/// The name of owner 0's line of a place.
fn own_name(place: usize) -> Name
    requires { place < 2 ^ 64 - 1 }
    ensures { result ≡ own_name 0 place }
{
    Name {
        owner: 0,
        number: place as u64 + 1,
    }
}

/// What is needed of a log, and under which numbers: the place of each name, the mark of each place, and how many needed lines stand before it.
#[derive(Drop)]
pub(crate) struct Renaming<'a> {
    pub(crate) index: &'a Index,
    pub(crate) marks: &'a [usize],
    pub(crate) ranks: &'a [usize],
    ghost ranked: { AreRanks marks.now ranks.now },
    ghost few: { length marks.now < 2 ^ 63 },
    ghost within: { (q : TheRef) (i : ℕ) → place_in index.now q ≡ Some i → i < length marks.now },
}

impl<'a> Renaming<'a> {
    /// The new name of the line at a place.
    fn name(&self, place: usize) -> Name
        requires { place < length self.now.marks.now }
        ensures { result ≡ own_name 0 (rank (mark_at self.now.marks.now) place) }
    {
        own_name(self.ranks[place])
    }

    /// What a reference becomes.
    fn new_ref(&self, at: Ref) -> Ref
        ensures { result ≡ renamed self.now.index.now self.now.marks.now at }
    {
        match self.index.place_of(at) {
            Some(place) => Ref::Made(self.name(place)),
            None => at,
        }
    }

    /// What an operation becomes.
    fn new_op(&self, op: Op) -> Op
        ensures { result ≡ new_op (renamed self.now.index.now self.now.marks.now) op }
    {
        match op {
            Op::Push(at) => Op::Push(self.new_ref(at)),
            _ => op,
        }
    }

    /// What operations become.
    fn new_ops(&self, alloc: Global, ops: &[Op]) -> Result<Ops, AllocError>
        ensures { IfOk result
            (λ r. r ≡ map (new_op (renamed self.now.index.now self.now.marks.now)) ops.now) }
    {
        let mut out = Vec::with_capacity(alloc, ops.len())?;
        for op in ops {
            out.push(self.new_op(*op))?;
        }
        Ok(Ops::new(out))
    }

    /// What references become.
    fn new_refs(&self, alloc: Global, refs: &[Ref]) -> Result<Refs, AllocError>
        ensures { IfOk result
            (λ r. r ≡ map (renamed self.now.index.now self.now.marks.now) refs.now) }
    {
        let mut out = Vec::with_capacity(alloc, refs.len())?;
        for at in refs {
            out.push(self.new_ref(*at))?;
        }
        Ok(Refs::new(out))
    }

    /// What a line that makes a constraint becomes; another stays.
    pub(crate) fn new_line(
        &self,
        alloc: Global,
        place: usize,
        step: &Step,
    ) -> Result<Step, AllocError>
        requires { place < length self.now.marks.now }
        ensures { IfOk result
            (λ s. s ≡ new_line (renamed self.now.index.now self.now.marks.now)
            (rank (mark_at self.now.marks.now) place) step.now) }
    {
        match step {
            Step::P { name: _, ops } => Ok(Step::P {
                name: self.name(place),
                ops: self.new_ops(alloc, ops.as_slice())?,
            }),
            Step::U {
                name: _,
                lits,
                refs,
            } => Ok(Step::U {
                name: self.name(place),
                lits: Clause::new(Vec::from_slice(alloc, lits.as_slice())?),
                refs: self.new_refs(alloc, refs.as_slice())?,
            }),
            _ => plain(alloc, step),
        }
    }

    /// What the last line becomes.
    pub(crate) fn new_last(&self, alloc: Global, last: &Step) -> Result<Step, AllocError>
        ensures renamed { IfOk result (λ s. IsLast last.now
            → s ≡ new_last (renamed self.now.index.now self.now.marks.now) last.now) }
        ensures fits { IfOk result (λ s. IsStep last.now → IsStep s) }
    {
        match last {
            Step::E { at } => Ok(Step::E {
                at: self.new_ref(*at),
            }),
            _ => plain(alloc, last),
        }
    }

    /// The deletion of the line at a place, by its new name.
    fn deletion(&self, place: usize) -> Step
        requires { place < length self.now.marks.now }
        ensures { result ≡ D (Made (own_name 0 (rank (mark_at self.now.marks.now) place))) }
    {
        Step::D {
            at: Ref::Made(self.name(place)),
        }
    }

    /// Puts the deletions of the lines at places.
    pub(crate) fn put_deletions(
        &self,
        text: &mut TextBuffer,
        places: &[usize],
    ) -> Result<(), AllocError>
        requires { AreBelow (length self.now.marks.now) places.now }
        ensures { OnOk result (text.new.bytes ≡ text.old.bytes ++ steps_text
            (map (λ i. D (Made (own_name 0 (rank (mark_at self.now.marks.now) i)))) places.now)) }
    {
        for place in places {
            put_step(text, &self.deletion(*place))?;
        }
        Ok(())
    }
}
