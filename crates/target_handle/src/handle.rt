//! A handle that C holds.

ghost use Rattle.std.specs.Prelude.{◌≡◌, true, false};
ghost use Rattle.target_handle.specs.declared.open_target.Kept.{Kept};

use crate::open_target::Kept;
use loose_box::loose::Loose;
use std::alloc::Global;
use std::marker::Model;
use std::ptr::null_mut;

/// A place for one target, of which C sees an address and whether a target is there. All zeros are a place with none.
///
/// One that is let go while it has a target gives no memory back: `close` it before.
#[repr(C)]
#[derive(Drop)]
pub struct TargetHandle {
    at: *mut u8,
    there: bool,
    pub ghost kept: { Kept },
}

impl Model for TargetHandle {
    ghost use Rattle.target_handle.specs.Owning.{kept_at};

    ghost also_owns = { λ h. kept_at h.at h.there h.kept };
}

impl TargetHandle {
    /// One with no target.
    pub(crate) fn closed() -> TargetHandle
        ensures { result.there ≡ false }
    {
        TargetHandle {
            at: null_mut(),
            there: false,
        }
    }

    /// One whose address is that of a box.
    pub(crate) fn of(kept: Loose<Kept, Global>) -> TargetHandle
        ensures kept { result.kept ≡ kept.value }
        ensures there { result.there ≡ true }
    {
        let Loose { at, alloc: _ } = kept;
        TargetHandle {
            at: at as *mut u8,
            there: true,
        }
    }

    /// The box whose address it has.
    pub(crate) fn into_loose(self, alloc: Global) -> Loose<Kept, Global>
        requires { self.there ≡ true }
        ensures { result.value ≡ self.kept }
    {
        let TargetHandle { at, there: _ } = self;
        Loose {
            at: at as *mut Kept,
            alloc,
        }
    }

    /// Whether an address is there.
    pub(crate) fn is_there(&mut self) -> bool
        ensures { (result ≡ self.old.there) × (self.new ≡ self.old) }
    {
        self.there
    }
}
