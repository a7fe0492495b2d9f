//! What keeps a text from being read.

use log_theory::OpbCause;
use std::alloc::{AllocError, AllocFailed};

/// Why a text gives no model.
#[derive(Clone, Copy, PartialEq, Eq, Debug)]
pub enum OpbFault {
    /// The text's first faulty line, counted from 1, and what is wrong with it.
    Line { line: u64, cause: OpbCause },
    /// Memory was refused.
    NoMemory,
}

impl From<AllocError> for OpbFault {
    ghost use Rattle.std.specs.Prelude.{◌≡◌};
    ghost use Rattle.opb_text.specs.declared.fault.OpbFault.TheVariants.{NoMemory};

    ghost from_gives = { λ _ e. e ≡ NoMemory };

    fn from(_: AllocError) -> Self {
        OpbFault::NoMemory
    }
}

impl<T: Drop> From<AllocFailed<T>> for OpbFault {
    ghost use Rattle.std.specs.Prelude.{◌≡◌};
    ghost use Rattle.opb_text.specs.declared.fault.OpbFault.TheVariants.{NoMemory};

    ghost from_gives = { λ _ e. e ≡ NoMemory };

    fn from(_: AllocFailed<T>) -> Self {
        OpbFault::NoMemory
    }
}

/// Why a line gives no constraint.
#[derive(Clone, Copy, PartialEq, Eq, Debug)]
pub enum LineFault {
    Faulty(OpbCause),
    NoMemory,
}

impl From<OpbCause> for LineFault {
    ghost use Rattle.std.specs.Prelude.{◌≡◌};
    ghost use Rattle.opb_text.specs.declared.fault.LineFault.TheVariants.{Faulty};

    ghost from_gives = { λ cause e. e ≡ Faulty cause };

    fn from(cause: OpbCause) -> Self {
        LineFault::Faulty(cause)
    }
}

impl From<AllocError> for LineFault {
    ghost use Rattle.std.specs.Prelude.{◌≡◌};
    ghost use Rattle.opb_text.specs.declared.fault.LineFault.TheVariants.{NoMemory};

    ghost from_gives = { λ _ e. e ≡ NoMemory };

    fn from(_: AllocError) -> Self {
        LineFault::NoMemory
    }
}

impl<T: Drop> From<AllocFailed<T>> for LineFault {
    ghost use Rattle.std.specs.Prelude.{◌≡◌};
    ghost use Rattle.opb_text.specs.declared.fault.LineFault.TheVariants.{NoMemory};

    ghost from_gives = { λ _ e. e ≡ NoMemory };

    fn from(_: AllocFailed<T>) -> Self {
        LineFault::NoMemory
    }
}
