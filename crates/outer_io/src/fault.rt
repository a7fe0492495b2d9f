//! What a call that fails says.
ghost use Rattle.std.specs.Prelude.{◌≡◌};
ghost use Rattle.outer_io.specs.declared.fault.LoadFault.TheVariants as loading;
ghost use Rattle.outer_io.specs.declared.fault.PutFault.TheVariants as putting;

use std::alloc::AllocError;

/// A call on files or on a sink failed. The object's count of faults has risen.
#[derive(Clone, Copy, Debug, PartialEq, Eq)]
pub struct Failed;

/// What a file was used for.
#[derive(Clone, Copy, Debug, PartialEq, Eq)]
pub enum Purpose {
    Reading,
    Writing,
}

/// Why a file was not loaded.
#[derive(Clone, Copy, Debug, PartialEq, Eq)]
pub enum LoadFault {
    /// A call on the files failed.
    Failed,
    /// The file holds more bytes than were asked for.
    TooLong,
    /// There is no memory for its bytes.
    NoMemory,
}

impl From<Failed> for LoadFault {
    ghost from_gives = { λ _ fault. fault ≡ loading.Failed };

    fn from(_failed: Failed) -> LoadFault {
        LoadFault::Failed
    }
}

impl From<AllocError> for LoadFault {
    ghost from_gives = { λ _ fault. fault ≡ loading.NoMemory };

    fn from(_error: AllocError) -> LoadFault {
        LoadFault::NoMemory
    }
}

/// Why a text that wants memory was not put.
#[derive(Clone, Copy, Debug, PartialEq, Eq)]
pub enum PutFault {
    /// A call on the sink failed.
    Failed,
    /// There is no memory for a part of the text.
    NoMemory,
}

impl From<Failed> for PutFault {
    ghost from_gives = { λ _ fault. fault ≡ putting.Failed };

    fn from(_failed: Failed) -> PutFault {
        PutFault::Failed
    }
}

impl From<AllocError> for PutFault {
    ghost from_gives = { λ _ fault. fault ≡ putting.NoMemory };

    fn from(_error: AllocError) -> PutFault {
        PutFault::NoMemory
    }
}
