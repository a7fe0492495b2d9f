//! What a line refers to.

ghost use Rattle.std.specs.Prelude.{◌≡◌, ◌++◌, OnOk};
ghost use Rattle.journal_theory.specs.Referring.{op_refs, step_refs};

use log_theory::{Op, Ref, Step};
use std::alloc::AllocError;

/// Puts the references that operations push behind others.
fn push_op_refs(refs: &mut Vec<Ref>, ops: &[Op]) -> Result<(), AllocError>
    ensures { OnOk result (refs.new.items ≡ refs.old.items ++ op_refs ops.now) }
{
    for op in ops {
        if let Op::Push(at) = op {
            refs.push(*at)?;
        }
    }
    Ok(())
}

/// Puts all references of a line, in order, in the place of what was there. The memory is used again.
pub(crate) fn take_refs(refs: &mut Vec<Ref>, step: &Step) -> Result<(), AllocError>
    ensures { OnOk result (refs.new.items ≡ step_refs step.now) }
{
    refs.clear();
    match step {
        Step::P { name: _, ops } => push_op_refs(refs, ops.as_slice()),
        Step::U {
            name: _,
            lits: _,
            refs: hints,
        } => refs.extend_from_slice(hints.as_slice()),
        Step::N { row: _, name } => Ok(refs.push(Ref::Made(*name))?),
        Step::D { at } => Ok(refs.push(*at)?),
        Step::E { at } => Ok(refs.push(*at)?),
        _ => Ok(()),
    }
}
