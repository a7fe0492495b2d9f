//! What keeps a line from being taken.

use log_theory::Cause;
use std::alloc::{AllocError, AllocFailed};

/// Why a line leads nowhere: its first fault, or want of memory, which says nothing of the line.
#[derive(Clone, Copy, PartialEq, Eq, Debug)]
pub enum LineFault {
    Cause(Cause),
    NoMemory,
}

impl From<AllocError> for LineFault {
    ghost use Rattle.std.specs.Prelude.{◌≡◌};
    ghost use Rattle.pb_propagation.specs.declared.fault.LineFault.TheVariants.{NoMemory};

    ghost from_gives = { λ _ e. e ≡ NoMemory };

    fn from(_error: AllocError) -> LineFault {
        LineFault::NoMemory
    }
}

impl<T: Drop> From<AllocFailed<T>> for LineFault {
    ghost use Rattle.std.specs.Prelude.{◌≡◌};
    ghost use Rattle.pb_propagation.specs.declared.fault.LineFault.TheVariants.{NoMemory};

    ghost from_gives = { λ _ e. e ≡ NoMemory };

    fn from(_error: AllocFailed<T>) -> LineFault {
        LineFault::NoMemory
    }
}

impl From<Cause> for LineFault {
    ghost use Rattle.std.specs.Prelude.{◌≡◌};
    ghost use Rattle.pb_propagation.specs.declared.fault.LineFault.TheVariants.{Cause as BadLine};

    ghost from_gives = { λ c e. e ≡ BadLine c };

    fn from(cause: Cause) -> LineFault {
        LineFault::Cause(cause)
    }
}
