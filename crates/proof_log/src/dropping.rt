//! A step without its hints.
ghost use Rattle.std.specs.Prelude.{◌≡◌, IfOk};
ghost use Rattle.log_theory.specs.Profiles.{plain};

use log_theory::{Clause, Ops, Refs, Step, Variables};
use std::alloc::{AllocError, Global};

/// A copy of operations.
fn copied_ops(alloc: Global, ops: &Ops) -> Result<Ops, AllocError>
    ensures { IfOk result (λ r. r ≡ ops.now) }
{
    Ok(Ops::new(Vec::from_slice(alloc, ops.as_slice())?))
}

/// A copy of literals.
fn copied_clause(alloc: Global, lits: &Clause) -> Result<Clause, AllocError>
    ensures { IfOk result (λ r. r ≡ lits.now) }
{
    Ok(Clause::new(Vec::from_slice(alloc, lits.as_slice())?))
}

/// A copy of variables.
fn copied_ones(alloc: Global, ones: &Variables) -> Result<Variables, AllocError>
    ensures { IfOk result (λ r. r ≡ ones.now) }
{
    Ok(Variables::new(Vec::from_slice(alloc, ones.as_slice())?))
}

/// The step as a log without hints has it: a `u` line loses its references, and every other step is as it was. A copy, so it costs the
/// lists of the step.
pub fn plain(alloc: Global, step: &Step) -> Result<Step, AllocError>
    ensures { IfOk result (λ r. r ≡ plain step.now) }
{
    match step {
        Step::Head => Ok(Step::Head),
        Step::Model(constraints) => Ok(Step::Model(*constraints)),
        Step::P { name, ops } => Ok(Step::P {
            name: *name,
            ops: copied_ops(alloc, ops)?,
        }),
        Step::U { name, lits, .. } => Ok(Step::U {
            name: *name,
            lits: copied_clause(alloc, lits)?,
            refs: Refs::new(Vec::new(alloc)),
        }),
        Step::N { row, name } => Ok(Step::N {
            row: *row,
            name: *name,
        }),
        Step::D { at } => Ok(Step::D { at: *at }),
        Step::E { at } => Ok(Step::E { at: *at }),
        Step::Y { ones } => Ok(Step::Y {
            ones: copied_ones(alloc, ones)?,
        }),
        Step::Q => Ok(Step::Q),
    }
}
