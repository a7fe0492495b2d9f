//! The system's files: the trusted edge.
ghost use Rattle.std.specs.Prelude.{◌≡◌, false, None, option_map, IfOk};

use crate::bounded::{FaultCount, StoredName, no_calls};
use crate::fault::{Failed, Purpose};
use crate::files::Files;
use std::alloc::{AllocError, Global};
use std::fs;
use std::io::{Read, Write};
use std::rt::Files as System;

/// The system's files. Nothing is told of their contents; a call fails where the system does, and is counted.
///
/// A name that is a directory is a fault: the first read of it fails, or the call that begins it.
#[derive(Drop)]
pub struct RealFiles<'a, R: System> {
    system: &'a R,
    fault: FaultCount,
    read: Option<R::File>,
    read_name: StoredName,
    written: Option<R::File>,
    write_name: StoredName,
}

impl<'a, R: System> RealFiles<'a, R> {
    /// The files of this system, with no fault yet. It takes the memory for three names.
    pub fn new(alloc: Global, system: &'a R) -> Result<RealFiles<'a, R>, AllocError>
        ensures { IfOk result (λ files. files.fault ≡ record { count = 0; last = None }) }
    {
        let (fault, read_name, write_name) = no_calls(alloc)?;
        Ok(RealFiles {
            system,
            fault,
            read: None,
            read_name,
            written: None,
            write_name,
        })
    }
}

impl<'a, R: System> Files for RealFiles<'a, R> {
    ghost use Rattle.std.specs.Prelude.{false, None, option_map};
    ghost use Rattle.outer_io.specs.RealEdge.{untold_file};

    ghost tells = { λ _. false };

    ghost content = { λ _. untold_file };

    ghost faults = { λ s. s.fault.count };

    ghost fault_at = { λ s. s.fault.last };

    ghost chosen = { λ s. option_map (λ _. s.read_name) s.read };

    ghost left = { λ _. None };

    ghost begun = { λ s. option_map (λ _. s.write_name) s.written };

    fn start(&mut self, name: &str) -> Result<(), Failed> {
        self.read = None;
        let Ok(file) = fs::open(self.system, name) else {
            self.fault.raise(name.as_bytes(), Purpose::Reading);
            return Err(Failed);
        };
        self.read = Some(file);
        self.read_name.set(name.as_bytes());
        Ok(())
    }

    fn next(&mut self, buffer: &mut [u8]) -> Result<usize, Failed> {
        if let Some(file) = &mut self.read {
            if let Ok(count) = file.read(buffer) {
                return Ok(count);
            }
        }
        self.fault
            .raise(self.read_name.as_bytes(), Purpose::Reading);
        Err(Failed)
    }

    fn begin(&mut self, name: &str) -> Result<(), Failed> {
        self.written = None;
        let Ok(file) = fs::create(self.system, name) else {
            self.fault.raise(name.as_bytes(), Purpose::Writing);
            return Err(Failed);
        };
        self.written = Some(file);
        self.write_name.set(name.as_bytes());
        Ok(())
    }

    fn add(&mut self, piece: &[u8]) -> Result<(), Failed> {
        if let Some(file) = &mut self.written {
            if file.write_all(piece).is_ok() {
                return Ok(());
            }
        }
        self.fault
            .raise(self.write_name.as_bytes(), Purpose::Writing);
        Err(Failed)
    }
}
