//! What ends the plain reading of a log.

use log_theory::Cause;
use std::alloc::{AllocError, AllocFailed};

/// Why a line is refused.
#[derive(Drop)]
pub enum Stop {
    Cause(Cause),
    NoMemory,
}

impl From<AllocError> for Stop {
    fn from(_: AllocError) -> Stop {
        Stop::NoMemory
    }
}

impl<T: Drop> From<AllocFailed<T>> for Stop {
    fn from(_: AllocFailed<T>) -> Stop {
        Stop::NoMemory
    }
}

/// Refuses the line for this cause where something is wrong.
pub fn refuse_if(is_wrong: bool, cause: Cause) -> Result<(), Stop> {
    if is_wrong {
        Err(Stop::Cause(cause))
    } else {
        Ok(())
    }
}

/// What is there, or a refusal of the line for its form.
pub fn of_form<T: Drop>(found: Option<T>) -> Result<T, Stop> {
    found.ok_or(Stop::Cause(Cause::Form))
}
