//! What a call does that may give lines to a keeper: one shape of contract for all of them.
//!
//! The lines of an owner stand beside what was there before: the encoding of a problem, and clauses of others. A call that gives lines
//! leads from lines that stand, of whose forms one thing is so, to lines that stand, of whose forms another is so; forms are only ever added,
//! so that what a name meant it means for good. Calls fit together in sequence, what lasts may be carried beside them, and whatever
//! a call answers the lines can go into a log. The coefficients of a form that is added are together at most 2^40 in size, so that a checker
//! that counts in words of 64 bits has room for it. The layers above say in these words which forms their names have.
#![tactic(auto)]

ghost use Rattle.std.specs.Prelude.{◌≡◌, ℕ, ◌<◌, List, [], ◌∷◌, length, IfOk};
ghost use Rattle.proof_theory.specs.Forms.{Form};
ghost use Rattle.log_theory.specs.LogText.{IsName, AreRefs};
ghost use Rattle.forcing_theory.specs.Sums.{sum_from};
ghost use Rattle.journals.specs.Keeping.{KeepsRest};
ghost use Rattle.log_growth.specs.Frames.{Frame, Goes, Named, IsKept, IsAddable, AreSumOf};

use journals::Keeper;
use log_theory::{Name, Op, Ops, Ref, Step};
use std::alloc::{AllocError, Global};

/// The name of a step that is given to a keeper, which gives it the next one.
const NO_NAME: Name = Name {
    owner: 0,
    number: 0,
};

/// The operations that sum references, in order.
fn sum_of(alloc: Global, refs: &[Ref]) -> Result<Ops, AllocError>
    requires { 0 < length refs.now }
    ensures { IfOk result (λ ops. AreSumOf refs.now ops) }
{
    let mut ops = Vec::new(alloc);
    ops.push(Op::Push(refs[0]))?;
    for r in &refs[1..] {
        ops.push(Op::Push(*r))?;
        ops.push(Op::Add)?;
    }
    Ok(Ops::new(ops))
}

/// Keeps the line that sums the forms of these references. Cost: the line's operations, which are let go of when it is kept.
pub fn keep_sum<K: Keeper>(alloc: Global, keeper: &mut K, refs: &[Ref]) -> Result<Name, AllocError>
    requires some { 0 < length refs.now }
    requires fits { AreRefs refs.now }
    ensures goes { (w : Frame) (f : Form) (gs : List Form) → w.owner ≡ K.owner keeper.old
        → IsAddable (f ∷ gs)
        → Goes w (K.kept keeper.old) (K.kept keeper.new) (Named w refs.now (f ∷ gs))
        (IsKept w result (sum_from f gs)) }
    ensures name { IfOk result IsName }
    ensures rest { KeepsRest K.owner K.notes K.spare keeper.old keeper.new }
{
    let ops = sum_of(alloc, refs)?;
    keeper.keep(Step::P { name: NO_NAME, ops })
}
