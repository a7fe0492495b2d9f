//! New places: how many needed lines stand before each line.

ghost use Rattle.std.specs.Prelude.{◌≡◌, ℕ, ◌<◌, ◌≤◌, length, get_or, IfOk};
ghost use Rattle.trim_theory.specs.Marking.{rank};
ghost use Rattle.proof_trim.specs.Ranks.{mark_at, AreRanks};

use std::alloc::{AllocError, Global};

/// The rank of each place. One pass.
pub(crate) fn ranks_of(alloc: Global, marks: &[usize]) -> Result<Vec<usize>, AllocError>
    ensures { IfOk result (λ ranks. AreRanks marks.now ranks.items) }
{
    let mut ranks = Vec::with_capacity(alloc, marks.len())?;
    let mut next = 0;
    for mark in marks {
        ranks.push(next)?;
        if *mark != 0 {
            next += 1;
        }
    }
    Ok(ranks)
}

/// How many places are marked. One pass.
pub(crate) fn count_marked(marks: &[usize]) -> usize
    ensures { result ≡ rank (mark_at marks.now) (length marks.now) }
{
    let mut count = 0;
    for mark in marks {
        if *mark != 0 {
            count += 1;
        }
    }
    count
}
