//! Why a text lists no jobs.

ghost use Rattle.std.specs.Prelude.{◌≡◌};

use std::alloc::{AllocError, AllocFailed};

/// Why a line is refused.
#[derive(Clone, Copy, PartialEq, Eq, Debug)]
pub enum ListCause {
    /// The line says no job.
    Form,
    /// 1,000 jobs stand before the line.
    TooMany,
}

/// Why a text lists no jobs.
#[derive(Clone, Copy, PartialEq, Eq, Debug)]
pub enum ListFault {
    /// The text's first faulty line, counted from 1, and why it is refused.
    Line { line: u64, cause: ListCause },
    /// Memory was refused.
    NoMemory,
}

impl From<AllocError> for ListFault {
    ghost use Rattle.job_list.specs.declared.fault.ListFault.TheVariants.{NoMemory};

    ghost from_gives = { λ _ e. e ≡ NoMemory };

    fn from(_: AllocError) -> Self {
        ListFault::NoMemory
    }
}

impl<T: Drop> From<AllocFailed<T>> for ListFault {
    ghost use Rattle.job_list.specs.declared.fault.ListFault.TheVariants.{NoMemory};

    ghost from_gives = { λ _ e. e ≡ NoMemory };

    fn from(_: AllocFailed<T>) -> Self {
        ListFault::NoMemory
    }
}
