//! Owners of a flag go into handles and out of them.

ghost use Rattle.std.specs.Prelude.{◌≡◌, true, false, IfOk, MatchOption};

use crate::handle::FlagHandle;
use crate::owner::Owner;
use loose_box::loose::Loose;
use std::alloc::{AllocError, Global};
use std::mem::replace;
use std::sync::Arc;
use std::sync::atomic::AtomicBool;

/// Two handles on one flag, which is down. It takes three blocks.
pub fn open(alloc: Global) -> Result<(FlagHandle, FlagHandle), AllocError>
    ensures { IfOk result (λ p. (p.0.there ≡ true) × (p.1.there ≡ true)) }
{
    let flag = Arc::new(alloc, AtomicBool::new(false))?;
    let other = Arc::try_clone(&flag)?;
    let first = Box::new(alloc, Owner { flag })?;
    let second = Box::new(alloc, Owner { flag: other })?;
    Ok((FlagHandle::with(first), FlagHandle::with(second)))
}

impl FlagHandle {
    /// A handle that has this owner. It takes no memory.
    pub fn with(owner: Box<Owner>) -> FlagHandle
        ensures { result.there ≡ true }
    {
        FlagHandle::of(Loose::of(owner))
    }

    /// The owner, taken out, if there is one. It takes no memory.
    pub fn take(&mut self, alloc: Global) -> Option<Box<Owner>>
        ensures taken { MatchOption result (self.old.there ≡ false) (λ _. self.old.there ≡ true) }
        ensures closed { self.new.there ≡ false }
    {
        if !self.is_there() {
            return None;
        }
        let kept = replace(self, FlagHandle::closed()).into_loose(alloc);
        Some(kept.into_box())
    }

    /// Puts the flag up, if there is an owner. It takes no memory.
    pub fn raise(&mut self, alloc: Global)
        ensures { self.new.there ≡ self.old.there }
    {
        if let Some(owner) = self.take(alloc) {
            owner.raise();
            *self = FlagHandle::with(owner);
        }
    }

    /// Lets the owner go, if there is one, with the memory that it had.
    pub fn close(&mut self, alloc: Global)
        ensures { self.new.there ≡ false }
    {
        self.take(alloc);
    }
}
