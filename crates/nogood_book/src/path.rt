//! The path of a row, walked from its last pair up.

ghost use Rattle.std.specs.Prelude.{◌≡◌, ◌++◌, ◌<◌, length, OnOk};
ghost use Rattle.nogood_book.specs.Rows.{Sound, path_at};

use crate::row::Row;
use graph_rows::Problem;
use smallvec::SmallVec;
use std::alloc::AllocError;

/// Adds the path of row `k` behind what is there: the guesses above it in their order, and its own pair last. The problem tells
/// only what the rows are sound for. Cost: a row for each pair.
pub fn push_path(
    q: &Problem,
    rows: &[Row],
    k: u32,
    into: &mut SmallVec<(u16, u16), 8>,
) -> Result<(), AllocError>
    requires sound { Sound q.now rows.now }
    requires inside { k < length rows.now }
    ensures { OnOk result (into.new.items ≡ into.old.items ++ path_at rows.now k) }
{
    let row = rows[k as usize];
    if let Some(parent) = row.parent {
        push_path(q, rows, parent, into)?;
    }
    into.push((row.vertex, row.value))?;
    Ok(())
}
