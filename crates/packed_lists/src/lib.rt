//! Many short lists in two blocks of memory: the items of all lists, one list after another, and where each list ends.
//!
//! A vector of vectors takes a block for each list, and most of the time of a small question goes into blocks. Here a list
//! is written at the end, item by item, and closed; from then on it is read as a slice. No list is changed or taken out.
#![tactic(auto)]

ghost use Rattle.std.specs.Prelude.{◌≡◌, ◌<◌, ◌≤◌, [], ◌∷◌, ◌++◌, length, slice_get, slice_index, slice_index_or, Some, IfOk, OnOk};

use std::alloc::{AllocError, Global};
use std::marker::Model;

/// Lists one after another, and behind them one that is still written. Contracts see both.
///
/// `ends[a]` is where list `a` ends in `items`; what stands behind the last end is the list that is still written. Each list costs
/// eight bytes beside its items.
pub struct PackedLists<T> {
    items: Vec<T>,
    ends: Vec<usize>,
}

impl<T: Drop> Drop for PackedLists<T> {
    /// In one call, for whoever lets one go.
    fn drop(self) {
        let PackedLists { items: _, ends: _ } = self;
    }
}

impl<T> Model for PackedLists<T> {
    ghost use Rattle.std.specs.Prelude.{length};
    ghost use Rattle.packed_lists.specs.Packed.{Written, written_code, written, AreEnds};

    ghost Value = { Written T };

    ghost coded = { written_code T.code };

    ghost view = { λ l. written l.items.items l.ends.items };

    ghost invariant = { λ l. AreEnds 0 l.ends.items (length l.items.items) };
}

impl<T: Copy> PackedLists<T> {
    /// No list, and nothing behind. It takes no memory.
    pub fn new(alloc: Global) -> PackedLists<T>
        ensures lists { result.lists ≡ [] }
        ensures rest { result.rest ≡ [] }
    {
        PackedLists {
            items: Vec::new(alloc),
            ends: Vec::new(alloc),
        }
    }

    /// The same, with room for so many lists and items before memory is taken again.
    pub fn with_capacity(
        alloc: Global,
        lists: usize,
        items: usize,
    ) -> Result<PackedLists<T>, AllocError>
        ensures lists { IfOk result (λ l. l.lists ≡ []) }
        ensures rest { IfOk result (λ l. l.rest ≡ []) }
    {
        Ok(PackedLists {
            items: Vec::with_capacity(alloc, items)?,
            ends: Vec::with_capacity(alloc, lists)?,
        })
    }

    /// How many lists are closed.
    pub fn len(&self) -> usize
        ensures { result ≡ length self.now.lists }
    {
        self.ends.len()
    }

    /// A list that is closed. Cost: two steps.
    #[inline]
    pub fn of(&self, a: usize) -> &[T]
        requires { a < length self.now.lists }
        ensures list { result.now ≡ slice_index_or self.now.lists a [] }
        ensures some { slice_get self.now.lists a ≡ Some result.now }
    {
        let start = start_of(&self.ends, a);
        let end = self.ends[a];
        &self.items[start..end]
    }

    /// Adds an item to the list that is written.
    #[inline]
    pub fn push(&mut self, x: T) -> Result<(), AllocError>
        ensures rest { OnOk result (self.new.rest ≡ self.old.rest ++ x ∷ []) }
        ensures lists { OnOk result (self.new.lists ≡ self.old.lists) }
    {
        self.items.push(x)?;
        Ok(())
    }

    /// Adds items to the list that is written. Cost: one step for each.
    pub fn push_all(&mut self, xs: &[T]) -> Result<(), AllocError>
        ensures rest { OnOk result (self.new.rest ≡ self.old.rest ++ xs.now) }
        ensures lists { OnOk result (self.new.lists ≡ self.old.lists) }
    {
        self.items.extend_from_slice(xs)?;
        Ok(())
    }

    /// Closes the list that is written, and begins another.
    pub fn close(&mut self) -> Result<(), AllocError>
        ensures lists { OnOk result (self.new.lists ≡ self.old.lists ++ self.old.rest ∷ []) }
        ensures rest { OnOk result (self.new.rest ≡ []) }
    {
        self.ends.push(self.items.len())?;
        Ok(())
    }
}

/// Where list `a` begins: where the one before it ends.
fn start_of(ends: &[usize], a: usize) -> usize
    requires { a ≤ length ends.now }
    ensures { result ≡ slice_index (0 ∷ ends.now) a }
{
    if a == 0 { 0 } else { ends[a - 1] }
}
