//! The refuted values of a position, in the order of their levels: where a level begins, and where a value stands.

ghost use Rattle.std.specs.Prelude.{◌≡◌, ℕ, ◌≤◌, drop, take, length, Some, slice_get, IfSome, IfNone, IfOk};
ghost use Rattle.log_theory.specs.LogText.{AreRefs};
ghost use Rattle.search_journal.specs.Entries.{AreFrom, AreBelow, AreRising, HasEntry, entry_refs};

use crate::refuted::Refuted;
use log_theory::{Name, Ref};
use std::alloc::{AllocError, Global};

/// How many entries stand before those of this level and of later ones. Cost: one step for each of these.
pub(crate) fn count_above(entries: &[Refuted], level: usize) -> usize
    ensures bound { result ≤ length entries.now }
    ensures from { AreFrom level (drop result entries.now) }
    ensures below { AreRising entries.now → AreBelow level (take result entries.now) }
{
    let mut place = entries.len();
    while place > 0 {
        if entries[place - 1].level < level {
            return place;
        }
        place -= 1;
    }
    0
}

/// The last entry of this level and value. Cost: one step for each entry behind it.
pub(crate) fn entry_of(entries: &[Refuted], level: usize, value: u16) -> Option<Refuted>
    ensures some { IfSome result (λ e. (e.level ≡ level) × (e.value ≡ value)) }
    ensures among { IfSome result (λ e. (k : ℕ) × (slice_get entries.now k ≡ Some e)) }
    ensures none { IfNone result (HasEntry entries.now level value → ⊥) }
{
    let mut place = entries.len();
    while place > 0 {
        place -= 1;
        let entry = entries[place];
        if entry.level == level && entry.value == value {
            return Some(entry);
        }
    }
    None
}

/// The names of the entries' lines.
pub(crate) fn refs_of(alloc: Global, owner: u8, entries: &[Refuted]) -> Result<Vec<Ref>, AllocError>
    requires { owner ≤ 64 }
    ensures refs { IfOk result (λ refs. refs.items ≡ entry_refs owner entries.now) }
    ensures fits { IfOk result (λ refs. AreRefs refs.items) }
{
    let mut refs = Vec::with_capacity(alloc, entries.len())?;
    for entry in entries {
        refs.push(Ref::Made(Name {
            owner,
            number: entry.number,
        }))?;
    }
    Ok(refs)
}
