//! A handle that C holds.

ghost use Rattle.std.specs.Prelude.{◌≡◌, true, false};
ghost use Rattle.call_flag.specs.declared.owner.Owner.{Owner};

use crate::owner::Owner;
use loose_box::loose::Loose;
use std::alloc::Global;
use std::marker::Model;
use std::ptr::null_mut;

/// A place for one owner of a flag, of which C sees an address and whether an owner is there. All zeros are a place with none.
///
/// One that is let go while it has an owner gives no memory back: `close` it before.
#[repr(C)]
#[derive(Drop)]
pub struct FlagHandle {
    at: *mut u8,
    there: bool,
    pub ghost kept: { Owner },
}

impl Model for FlagHandle {
    ghost use Rattle.call_flag.specs.Owning.{kept_at};

    ghost also_owns = { λ h. kept_at h.at h.there h.kept };
}

/// A handle may go to another thread: what it owns is a share of a flag that any thread may read and write.
unsafe impl Send for FlagHandle {}

impl FlagHandle {
    /// One with no owner.
    pub(crate) fn closed() -> FlagHandle
        ensures { result.there ≡ false }
    {
        FlagHandle {
            at: null_mut(),
            there: false,
        }
    }

    /// One whose address is that of a box.
    pub(crate) fn of(kept: Loose<Owner, Global>) -> FlagHandle
        ensures kept { result.kept ≡ kept.value }
        ensures there { result.there ≡ true }
    {
        let Loose { at, alloc: _ } = kept;
        FlagHandle {
            at: at as *mut u8,
            there: true,
        }
    }

    /// The box whose address it has.
    pub(crate) fn into_loose(self, alloc: Global) -> Loose<Owner, Global>
        requires { self.there ≡ true }
        ensures { result.value ≡ self.kept }
    {
        let FlagHandle { at, there: _ } = self;
        Loose {
            at: at as *mut Owner,
            alloc,
        }
    }

    /// Whether an owner is there.
    pub fn is_there(&mut self) -> bool
        ensures { (result ≡ self.old.there) × (self.new ≡ self.old) }
    {
        self.there
    }
}
