//! Sets of counted domains in one list of numbers, and the changes that they belong to.

ghost use Rattle.std.specs.Prelude.{◌≡◌, ℕ, ◌+◌, ◌*◌, ◌<◌, ◌≤◌, ◌++◌, length, reverse, IfOk, IfSome, IfNone, OnOk};
ghost use Rattle.recorder.specs.Recording.{Adds, AreLaid, EndsBefore, IsLast, IsPlaced, changes_of, cut, left_by, members_of};

use crate::change::{Entry, Place, What};
use bit_rows::next_member;
use domain_bits::Mark;
use std::alloc::AllocError;

/// Adds the members of a row, rising. Cost: one step for each word and for each member.
fn put_members(numbers: &mut Vec<u16>, row: &[u64]) -> Result<(), AllocError>
    requires { length row.now ≤ 1024 }
    ensures adds { Adds numbers.old.items numbers.new.items }
    ensures all { OnOk result (numbers.new.items ≡ numbers.old.items ++ members_of row.now) }
{
    let mut t = next_member(row, 0);
    while t < 64 * row.len() {
        numbers.push(t as u16)?;
        t = next_member(row, t + 1);
    }
    Ok(())
}

/// Adds a set, its vertices and then the members of the row. Where memory is refused, a part may stand behind the old numbers. Cost: one
/// step for each of them and for each word of the row.
pub(crate) fn put_set(
    numbers: &mut Vec<u16>,
    vertices: &[u16],
    row: &[u64],
) -> Result<Place, AllocError>
    requires { length row.now ≤ 1024 }
    ensures adds { Adds numbers.old.items numbers.new.items }
    ensures placed { IfOk result (IsPlaced numbers.old.items numbers.new.items vertices.now
        (members_of row.now)) }
{
    let start = numbers.len();
    numbers.extend_from_slice(vertices)?;
    let middle = numbers.len();
    put_members(numbers, row)?;
    Ok(Place {
        start,
        middle,
        end: numbers.len(),
    })
}

/// Adds a set, the members of both rows. Where memory is refused, a part may stand behind the old numbers. Cost: one step for each of them and for
/// each word of the rows.
pub(crate) fn put_rows(
    numbers: &mut Vec<u16>,
    vertices: &[u64],
    values: &[u64],
) -> Result<Place, AllocError>
    requires vertices { length vertices.now ≤ 1024 }
    requires values { length values.now ≤ 1024 }
    ensures adds { Adds numbers.old.items numbers.new.items }
    ensures placed { IfOk result (IsPlaced numbers.old.items numbers.new.items
        (members_of vertices.now) (members_of values.now)) }
{
    let start = numbers.len();
    put_members(numbers, vertices)?;
    let middle = numbers.len();
    put_members(numbers, values)?;
    Ok(Place {
        start,
        middle,
        end: numbers.len(),
    })
}

/// The last entry, if it is not before the mark. Cost: one step.
fn last_since(entries: &[Entry], mark: Mark) -> Option<Entry>
    ensures some { IfSome result (λ e. IsLast entries.now e mark) }
    ensures none { IfNone result (EndsBefore (reverse entries.now) mark) }
{
    if entries.is_empty() {
        return None;
    }
    let last = entries[entries.len() - 1];
    if last.from.is_before(mark) {
        return None;
    }
    Some(last)
}

/// How many of so many numbers are left where the last change is forgotten.
fn left_before(what: What, numbers: usize) -> usize
    ensures { result ≡ left_by what numbers }
{
    match what {
        What::One(_, _) => numbers,
        What::Others(_, place) => place.start,
        What::Over(_, _, _, place) => place.start,
    }
}

/// Lets go of the entries that are not before the mark, and of their sets. Cost: one step for each of them.
pub(crate) fn cut_entries(entries: &mut Vec<Entry>, numbers: &mut Vec<u16>, mark: Mark)
    requires laid { AreLaid entries.old.items numbers.old.items }
    ensures laid { AreLaid entries.new.items numbers.new.items }
    ensures cut { changes_of numbers.new.items entries.new.items ≡ cut mark
        (changes_of numbers.old.items entries.old.items) }
{
    while let Some(entry) = last_since(entries, mark) {
        entries.truncate(entries.len() - 1);
        numbers.truncate(left_before(entry.what, numbers.len()));
    }
}
