//! What keeps a constraint from being made.

use std::alloc::AllocError;

/// Why there is no constraint: it would be too wide, or there was no memory.
#[derive(Clone, Copy, PartialEq, Eq, Debug)]
pub enum PbFault {
    Wide,
    NoMemory,
}

impl From<AllocError> for PbFault {
    ghost use Rattle.std.specs.Prelude.{◌≡◌};
    ghost use Rattle.pb_terms.specs.declared.fault.PbFault.TheVariants.{NoMemory};

    ghost from_gives = { λ _ e. e ≡ NoMemory };

    fn from(_error: AllocError) -> PbFault {
        PbFault::NoMemory
    }
}
