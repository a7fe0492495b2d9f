//! An owner of a flag.

use std::alloc::Global;
use std::sync::Arc;
use std::sync::atomic::{AtomicBool, Ordering};

/// An owner of a flag. The last one that goes takes the flag's memory with it.
#[derive(Drop)]
pub struct Owner {
    pub(crate) flag: Arc<AtomicBool, Global>,
}

impl Owner {
    /// Puts the flag up. It stays up. Cost: one store.
    pub fn raise(&self) {
        self.flag.store(true, Ordering::Release);
    }

    /// Whether the flag is up. Cost: one load.
    pub fn is_up(&self) -> bool {
        self.flag.load(Ordering::Relaxed)
    }
}
