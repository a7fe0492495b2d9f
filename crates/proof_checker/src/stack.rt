//! The operations of a derivation in reverse Polish notation over a stack of constraints.

ghost use Rattle.std.specs.Prelude.{◌≡◌, ◌∷◌, [], ℕ, List, IfOk, OnOk, OnErr, MatchOption, Result, Ok};
ghost use Rattle.proof_theory.specs.Forms.{Form};
ghost use Rattle.proof_theory.specs.Slack.{axiom_form, clause_form};
ghost use Rattle.pb_terms.specs.Faults.{Gives};
ghost use Rattle.log_theory.specs.Lookups.{Lookup, narrow, operate, only_one, makes};
ghost use Rattle.log_theory.specs.declared.step.Step.TheVariants.{P};
ghost use Rattle.log_theory.specs.declared.step.Op.TheVariants.{Push, Add, Times, Divide, Saturate};
ghost use Rattle.log_theory.specs.Tables.{find};
ghost use Rattle.pb_propagation.specs.Told.{Leads, Told};

use log_theory::{Cause, Name, Op, Ref};
use packed_terms::{PackedConstraint, PackedSum};
use pb_propagation::{LineFault, Table, axiom};
use pb_terms::{Constraint, PbFault};
use std::alloc::{AllocError, Global};
use std::marker::Model;

/// A stack of constraints, each a sum that is put in order where more than a sum is asked of it. Contracts see the list of them, the top
/// one first.
#[derive(Drop)]
struct Stack {
    items: Vec<PackedSum>,
}

impl Model for Stack {
    ghost use Rattle.std.specs.Prelude.{List, reverse};
    ghost use Rattle.proof_theory.specs.Forms.{Form};

    ghost Value = { List Form };

    ghost view = { λ s. reverse s.items.items };
}

/// The answer of a rule as a line's, in short terms again where these do.
fn narrowed(alloc: Global, made: Result<Constraint, PbFault>) -> Result<PackedSum, LineFault>
    ensures { (f : Form) → Gives made f → Told result (narrow f) }
{
    match made {
        Ok(made) => {
            let packed = PackedConstraint::from_constraint(alloc, made)?;
            Ok(PackedSum::from_constraint(packed))
        }
        Err(PbFault::Wide) => Err(LineFault::Cause(Cause::Wide)),
        Err(PbFault::NoMemory) => Err(LineFault::NoMemory),
    }
}

/// The answer of a sum as a line's.
fn summed(made: Result<PackedSum, PbFault>) -> Result<PackedSum, LineFault>
    ensures { (f : Form) → Gives made f → Told result (narrow f) }
{
    match made {
        Ok(made) => Ok(made),
        Err(PbFault::Wide) => Err(LineFault::Cause(Cause::Wide)),
        Err(PbFault::NoMemory) => Err(LineFault::NoMemory),
    }
}

impl Stack {
    /// No constraint.
    fn new(alloc: Global) -> Stack
        ensures { result ≡ [] }
    {
        Stack {
            items: Vec::new(alloc),
        }
    }

    /// Puts one on top.
    fn push(&mut self, top: PackedSum) -> Result<(), AllocError>
        ensures { OnOk result (self.new ≡ top ∷ self.old) }
    {
        self.items.push(top)?;
        Ok(())
    }

    /// Takes the top one.
    fn pop(&mut self) -> Option<PackedSum>
        ensures { MatchOption result (self.old ≡ []) (λ top. self.old ≡ top ∷ self.new) }
    {
        self.items.pop()
    }

    /// The sum of the upper two. Moves the terms of the one with fewer, in no order.
    fn add(&mut self, alloc: Global) -> Result<(), LineFault>
        ensures { (look : Lookup) → Leads result (operate look self.old Add) self.new }
    {
        let Some(upper) = self.pop() else {
            return Err(LineFault::Cause(Cause::Stack));
        };
        let Some(lower) = self.pop() else {
            return Err(LineFault::Cause(Cause::Stack));
        };
        self.push(summed(lower.add(alloc, upper))?)?;
        Ok(())
    }

    /// The top one times n. A few passes over its terms.
    fn times(&mut self, alloc: Global, n: u64) -> Result<(), LineFault>
        ensures { (look : Lookup) → Leads result (operate look self.old (Times n)) self.new }
    {
        if n == 0 {
            return Err(LineFault::Cause(Cause::Zero));
        }
        let Some(top) = self.pop() else {
            return Err(LineFault::Cause(Cause::Stack));
        };
        let made = narrowed(alloc, top.constraint(alloc)?.times(alloc, n))?;
        self.push(made)?;
        Ok(())
    }

    /// The top one divided by n. A few passes over its terms.
    fn divide(&mut self, alloc: Global, n: u64) -> Result<(), LineFault>
        ensures { (look : Lookup) → Leads result (operate look self.old (Divide n)) self.new }
    {
        if n == 0 {
            return Err(LineFault::Cause(Cause::Zero));
        }
        let Some(top) = self.pop() else {
            return Err(LineFault::Cause(Cause::Stack));
        };
        let made = narrowed(alloc, top.constraint(alloc)?.divide(alloc, n))?;
        self.push(made)?;
        Ok(())
    }

    /// The top one saturated. A few passes over its terms.
    fn saturate(&mut self, alloc: Global) -> Result<(), LineFault>
        ensures { (look : Lookup) → Leads result (operate look self.old Saturate) self.new }
    {
        let Some(top) = self.pop() else {
            return Err(LineFault::Cause(Cause::Stack));
        };
        let made = narrowed(alloc, top.constraint(alloc)?.saturate(alloc))?;
        self.push(made)?;
        Ok(())
    }

    /// A copy of what a reference names.
    fn push_named(
        &mut self,
        alloc: Global,
        model: &[PackedConstraint],
        table: &Table,
        at: Ref,
    ) -> Result<(), LineFault>
        ensures { Leads result (operate (find model.now table.now) self.old (Push at)) self.new }
    {
        let Some(named) = table.find(model, at) else {
            return Err(LineFault::Cause(Cause::NoSuchName));
        };
        self.push(PackedSum::of(alloc, named)?)?;
        Ok(())
    }

    /// One operation.
    fn operate(
        &mut self,
        alloc: Global,
        model: &[PackedConstraint],
        table: &Table,
        op: Op,
    ) -> Result<(), LineFault>
        ensures { Leads result (operate (find model.now table.now) self.old op) self.new }
    {
        match op {
            Op::Push(at) => self.push_named(alloc, model, table, at),
            Op::Axiom(literal) => {
                self.push(PackedSum::from_constraint(axiom(alloc, literal)?))?;
                Ok(())
            }
            Op::Add => self.add(alloc),
            Op::Times(n) => self.times(alloc, n),
            Op::Divide(n) => self.divide(alloc, n),
            Op::Saturate => self.saturate(alloc),
        }
    }

    /// The one constraint that is left, put in order.
    fn only_one(&mut self, alloc: Global) -> Result<PackedConstraint, LineFault>
        ensures { Told result (only_one self.old) }
    {
        let Some(top) = self.pop() else {
            return Err(LineFault::Cause(Cause::Stack));
        };
        if self.pop().is_some() {
            return Err(LineFault::Cause(Cause::Stack));
        }
        Ok(top.packed(alloc)?)
    }
}

/// The constraint that operations make, or the first fault, operation by operation. What a reference names is copied once; sums cost the
/// terms that they read times a logarithm, however they are nested, and each other operation the terms that it touches.
pub fn evaluate(
    alloc: Global,
    model: &[PackedConstraint],
    table: &Table,
    ops: &[Op],
) -> Result<PackedConstraint, LineFault>
    ensures { (name : Name) → Told result (makes (find model.now table.now) (P name ops.now)) }
{
    let mut stack = Stack::new(alloc);
    for op in ops {
        stack.operate(alloc, model, table, *op)?;
    }
    stack.only_one(alloc)
}
