//! The text of a mapping: the line `yes`, then for each pattern vertex a line with its target vertex.
ghost use Rattle.std.specs.Prelude.{◌≡◌};
ghost use Rattle.graph_theory.specs.Mapping.{MappingLaws};

use std::alloc::{AllocError, AllocFailed};

/// Why a text gives no mapping.
#[derive(Clone, Copy, PartialEq, Eq, Debug)]
pub enum MapFault {
    /// The text's first faulty line, counted from 1.
    Line { line: u64 },
    /// Memory was refused.
    NoMemory,
}

impl From<AllocError> for MapFault {
    ghost use Rattle.graph_theory.specs.declared.mapping_text.MapFault.TheVariants.{NoMemory};

    ghost from_gives = { λ _ e. e ≡ NoMemory };

    fn from(_: AllocError) -> Self {
        MapFault::NoMemory
    }
}

impl<T: Drop> From<AllocFailed<T>> for MapFault {
    ghost use Rattle.graph_theory.specs.declared.mapping_text.MapFault.TheVariants.{NoMemory};

    ghost from_gives = { λ _ e. e ≡ NoMemory };

    fn from(_: AllocFailed<T>) -> Self {
        MapFault::NoMemory
    }
}

/// Every text is that of one mapping or has one first faulty line, and never both.
pub fn mapping_laws()
    ensures { MappingLaws }
{}
