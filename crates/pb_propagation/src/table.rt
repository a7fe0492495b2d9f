//! The table of the constraints that a log has made, by owner and number, and of the rows that they are shared under.

ghost use Rattle.std.specs.Prelude.{◌≡◌, ◌<◌, ◌≤◌, ◌∷◌, ◌++◌, [], ℕ, List, length, slice_get, get_or, set, map, replicate, None, IfOk, OnOk, OnErr, MatchResult, option_copied, Ok};
ghost use Rattle.proof_theory.specs.Forms.{Form};
ghost use Rattle.log_theory.specs.Tables.{empty_table, made_by, from_one, standing, shared_at, find, fresh_name, fresh_row, with_made, step_of};
ghost use Rattle.log_theory.specs.declared.step.Ref.TheVariants.{Made, Shared};
ghost use Rattle.log_theory.specs.declared.step.Step.TheVariants.{N, D};
ghost use Rattle.pb_propagation.specs.Told.{Leads, Passes};
ghost use Rattle.pb_propagation.specs.Rows.{StandsAt, WouldStand, grown, replaced};

use super::fault::LineFault;
use super::slot::Slot;
use log_theory::{Cause, Name, Ref};
use packed_terms::PackedConstraint;
use std::alloc::{AllocError, Global};
use std::marker::Model;

/// What each owner made in the order of its numbers, and the shared rows, which rise, with what stands under each. Whatever a line
/// deletes leaves an empty slot, so that numbers stay, and its terms are freed at once where neither its name nor a row has them still. So
/// memory is what stands, and a slot for each made line and each row. Contracts see the table of the definition. A name is looked up
/// in constant time, and a row in a time logarithmic in the number of rows.
pub struct Table {
    made: Vec<Vec<Slot>>,
    rows: Vec<u32>,
    shared: Vec<Slot>,
}

impl Drop for Table {
    /// In one call, for whoever lets one go.
    fn drop(self) {
        let Table {
            made: _,
            rows: _,
            shared: _,
        } = self;
    }
}

impl Model for Table {
    ghost use Rattle.std.specs.Prelude.{map};
    ghost use Rattle.log_theory.specs.Tables.{Table as TheTable};
    ghost use Rattle.pb_propagation.specs.Rows.{AreKept, rows_of};

    ghost Value = { TheTable };

    ghost view = { λ t. record {
      made = map (λ v. v.items) t.made.items;
      shared = rows_of t.rows.items t.shared.items;
    } };

    ghost invariant = { λ t. AreKept t.rows.items t.shared.items };
}

/// How many owners have a list: those from 0 to 64.
const OWNERS: usize = 65;

/// What stands in the slot at an index.
fn item_at(slots: &[Slot], index: usize) -> Option<&PackedConstraint>
    ensures { option_copied result ≡ standing (slice_get slots.now index) }
{
    match slots.get(index) {
        Some(slot) => slot.constraint(),
        None => None,
    }
}

/// What stands under a number that counts from 1.
fn standing_at(slots: &[Slot], number: u64) -> Option<&PackedConstraint>
    ensures { option_copied result ≡ standing (from_one slots.now number) }
{
    if number == 0 {
        return None;
    }
    item_at(slots, (number - 1) as usize)
}

/// The constraint of the model with a number that counts from 1.
fn from_one(model: &[PackedConstraint], number: u64) -> Option<&PackedConstraint>
    ensures { option_copied result ≡ from_one model.now number }
{
    if number == 0 {
        return None;
    }
    model.get((number - 1) as usize)
}

/// A list for each owner, all without an item.
fn no_lists(alloc: Global) -> Result<Vec<Vec<Slot>>, AllocError>
    ensures { IfOk result (λ made. map (λ v. v.items) made.items ≡ replicate 65 []) }
{
    let mut made = Vec::with_capacity(alloc, OWNERS)?;
    for _ in 0..OWNERS {
        made.push(Vec::new(alloc))?;
    }
    Ok(made)
}

/// Puts a constraint behind an owner's others.
fn push_at(
    alloc: Global,
    lists: &mut Vec<Vec<Slot>>,
    owner: usize,
    made: PackedConstraint,
) -> Result<(), AllocError>
    requires { owner < length lists.old.items }
    ensures ok { OnOk result
        (map (λ v. v.items) lists.new.items
        ≡ grown (map (λ v. v.items) lists.old.items) owner made) }
    ensures err { OnErr result
        (map (λ v. v.items) lists.new.items ≡ map (λ v. v.items) lists.old.items) }
{
    let slot = Slot::new(alloc, made)?;
    lists[owner].push(slot)?;
    Ok(())
}

/// Empties a slot of a list.
fn clear_slot(slots: &mut Vec<Slot>, index: usize)
    requires { index < length slots.old.items }
    ensures { slots.new.items ≡ set slots.old.items index None }
{
    slots[index] = Slot::empty();
}

/// Empties a slot of an owner's list.
fn clear_at(lists: &mut Vec<Vec<Slot>>, owner: usize, index: usize)
    requires owner { owner < length lists.old.items }
    requires index { index < length (get_or (map (λ v. v.items) lists.old.items) owner []) }
    ensures { map (λ v. v.items) lists.new.items
        ≡ replaced (map (λ v. v.items) lists.old.items) owner index None }
{
    clear_slot(&mut lists[owner], index);
}

/// Puts a row and its slot behind the others, or neither.
fn push_row(
    rows: &mut Vec<u32>,
    shared: &mut Vec<Slot>,
    row: u32,
    slot: Slot,
) -> Result<(), AllocError>
    ensures ok { OnOk result
        ((rows.new.items ≡ rows.old.items ++ row ∷ [])
        × (shared.new.items ≡ shared.old.items ++ slot ∷ [])) }
    ensures err { OnErr result
        ((rows.new.items ≡ rows.old.items) × (shared.new.items ≡ shared.old.items)) }
{
    rows.reserve(1)?;
    shared.reserve(1)?;
    rows.push_reserved(row);
    shared.push_reserved(slot);
    Ok(())
}

/// Where a row stands among rising ones, or where it would. Logarithmic.
fn seek(rows: &[u32], row: u32) -> Result<usize, usize>
    requires { (i j : ℕ) → i < j → j < length rows.now → get_or rows.now i 0 < get_or rows.now j 0 }
    ensures { MatchResult result (λ i. StandsAt rows.now row i) (λ i. WouldStand rows.now row i) }
{
    rows.binary_search(&row)
}

impl Table {
    /// Nothing made yet.
    pub fn new(alloc: Global) -> Result<Table, AllocError>
        ensures { IfOk result (λ t. t ≡ empty_table) }
    {
        let made = no_lists(alloc)?;
        Ok(Table {
            made,
            rows: Vec::new(alloc),
            shared: Vec::new(alloc),
        })
    }

    /// The slots of an owner.
    fn made_by(&self, owner: u8) -> &[Slot]
        ensures { result.now ≡ made_by self.now owner }
    {
        match self.made.get(owner as usize) {
            Some(slots) => slots,
            None => &[],
        }
    }

    /// The constraint of a row. Logarithmic in the number of rows.
    fn shared_at(&self, row: u32) -> Option<&PackedConstraint>
        ensures { option_copied result ≡ shared_at self.now.shared row }
    {
        match seek(&self.rows, row) {
            Ok(at) => item_at(&self.shared, at),
            Err(_) => None,
        }
    }

    /// The slots of each owner in the order of their numbers.
    pub fn lists(&self) -> &[Vec<Slot>]
        ensures { map (λ v. v.items) result.now ≡ self.now.made }
    {
        &self.made
    }

    /// The slots of the rows, which rise.
    pub fn shared(&self) -> &[Slot]
        ensures { result.now ≡ map (λ s. s.1) self.now.shared }
    {
        &self.shared
    }

    /// What a reference names in a model and the table. Constant, or logarithmic in the number of rows for a row.
    pub fn find<'a>(
        &'a self,
        model: &'a [PackedConstraint],
        at: Ref,
    ) -> Option<&'a PackedConstraint>
        ensures { option_copied result ≡ find model.now self.now at }
    {
        match at {
            Ref::Line(number) => from_one(model, number),
            Ref::Made(name) => standing_at(self.made_by(name.owner), name.number),
            Ref::Shared(row) => self.shared_at(row),
        }
    }

    /// Whether a name is its owner's next, or why not; names that were deleted count.
    pub fn fresh_name(&self, name: Name) -> Result<(), Cause>
        ensures { Passes result (fresh_name self.now name) }
    {
        let made = self.made_by(name.owner).len() as u64;
        if name.number <= made {
            return Err(Cause::NameUsed);
        }
        if name.number - 1 != made {
            return Err(Cause::Order);
        }
        Ok(())
    }

    /// Whether a row lies above all that are used, or why not; rows that were deleted count. Logarithmic in the number of rows.
    pub fn fresh_row(&self, row: u32) -> Result<(), Cause>
        ensures { Passes result (fresh_row self.now row) }
    {
        match seek(&self.rows, row) {
            Ok(_) => Err(Cause::NameUsed),
            Err(at) => {
                if at < self.rows.len() {
                    return Err(Cause::Order);
                }
                Ok(())
            }
        }
    }

    /// Takes a constraint as its owner's next. An owner past 64 has no list, and takes nothing.
    pub fn push_made(
        &mut self,
        alloc: Global,
        name: Name,
        made: PackedConstraint,
    ) -> Result<(), AllocError>
        ensures { OnOk result (self.new ≡ with_made self.old name made) }
    {
        let owner = name.owner as usize;
        if owner < self.made.len() {
            push_at(alloc, &mut self.made, owner, made)?;
        }
        Ok(())
    }

    /// The slot that a name names, with a constraint or without one; none where the owner has not come so far.
    fn slot_of(&self, name: Name) -> Option<&Slot>
        ensures { option_copied result ≡ from_one (made_by self.now name.owner) name.number }
    {
        if name.number == 0 {
            return None;
        }
        self.made_by(name.owner).get((name.number - 1) as usize)
    }

    /// Shares what a name names under a row, as the definition's step of such a line. Logarithmic in the number of rows.
    pub fn share(&mut self, row: u32, name: Name) -> Result<(), LineFault>
        ensures { (model : List Form)
            → Leads result (step_of model self.old (N row name)) self.new }
    {
        self.fresh_row(row)?;
        let Some(slot) = self.slot_of(name) else {
            return Err(LineFault::Cause(Cause::NoSuchName));
        };
        let Some(_) = slot.constraint() else {
            return Err(LineFault::Cause(Cause::NoSuchName));
        };
        let shared = slot.share()?;
        push_row(&mut self.rows, &mut self.shared, row, shared)?;
        Ok(())
    }

    /// Takes a constraint from its name.
    fn delete_made(&mut self, name: Name) -> Result<(), LineFault>
        ensures { (model : List Form)
            → Leads result (step_of model self.old (D (Made name))) self.new }
    {
        let Some(_) = standing_at(self.made_by(name.owner), name.number) else {
            return Err(LineFault::Cause(Cause::NoSuchName));
        };
        clear_at(
            &mut self.made,
            name.owner as usize,
            (name.number - 1) as usize,
        );
        Ok(())
    }

    /// Takes a constraint from its row. Logarithmic in the number of rows.
    fn delete_shared(&mut self, row: u32) -> Result<(), LineFault>
        ensures { (model : List Form)
            → Leads result (step_of model self.old (D (Shared row))) self.new }
    {
        let Ok(at) = seek(&self.rows, row) else {
            return Err(LineFault::Cause(Cause::NoSuchName));
        };
        let Some(_) = item_at(&self.shared, at) else {
            return Err(LineFault::Cause(Cause::NoSuchName));
        };
        clear_slot(&mut self.shared, at);
        Ok(())
    }

    /// Takes a constraint from a name or a row, as the definition's step of such a line; the other names that it has, it keeps, and it is
    /// freed with the last of them. Constant, or logarithmic in the number of rows for a row.
    pub fn delete(&mut self, at: Ref) -> Result<(), LineFault>
        ensures { (model : List Form) → Leads result (step_of model self.old (D at)) self.new }
    {
        match at {
            Ref::Line(_) => Err(LineFault::Cause(Cause::Form)),
            Ref::Made(name) => self.delete_made(name),
            Ref::Shared(row) => self.delete_shared(row),
        }
    }
}
