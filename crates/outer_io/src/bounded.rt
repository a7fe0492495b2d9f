//! Bytes, names and counts in memory that is taken when they are made.
ghost use Rattle.std.specs.Prelude.{◌≡◌, ◌-◌, ◌≤◌, ◌↔◌, [], ◌++◌, Some, None, length, take, min, IsTrue, IfOk, option_map};
ghost use Rattle.outer_io.specs.Bounded.{one_more, counted, IsToFail};

use crate::fault::Purpose;
use crate::files::NAME_LIMIT;
use std::alloc::{AllocError, Global};
use std::marker::Model;

/// Bytes up to a limit.
#[derive(Drop)]
pub(crate) struct BoundedBytes {
    bytes: Vec<u8>,
    limit: u64,
}

impl Model for BoundedBytes {
    ghost use Rattle.std.specs.Prelude.{◌≤◌, vec_capacity};
    ghost use Rattle.outer_io.specs.Bounded.{Bounded};

    ghost Value = { Bounded };

    ghost view = { λ b. record { bytes = b.bytes.items; limit = b.limit } };

    ghost invariant = { λ b. b.limit ≤ vec_capacity b.bytes };
}

impl BoundedBytes {
    /// The bytes given, and room for as many as the limit says.
    pub(crate) fn new(mut bytes: Vec<u8>, limit: u64) -> Result<BoundedBytes, AllocError>
        ensures bytes { IfOk result (λ made. made.bytes ≡ bytes.items) }
        ensures limit { IfOk result (λ made. made.limit ≡ limit) }
    {
        let more = limit.saturating_sub(bytes.len() as u64) as usize;
        bytes.reserve_exact(more)?;
        Ok(BoundedBytes { bytes, limit })
    }

    pub(crate) fn as_slice(&self) -> &[u8]
        ensures { result.now ≡ self.now.bytes }
    {
        &self.bytes
    }

    pub(crate) fn clear(&mut self)
        ensures { self.new ≡ record self.old { bytes = [] } }
    {
        self.bytes.clear();
    }

    /// Appends what there is room for, and says whether that is the whole piece.
    pub(crate) fn append(&mut self, piece: &[u8]) -> bool
        ensures fits { IsTrue result ↔ (length piece.now ≤ self.old.limit - length self.old.bytes) }
        ensures bytes { self.new.bytes
            ≡ self.old.bytes ++ take (self.old.limit - length self.old.bytes) piece.now }
        ensures limit { self.new.limit ≡ self.old.limit }
    {
        let free = self.limit.saturating_sub(self.bytes.len() as u64) as usize;
        if piece.len() <= free {
            let _ = self.bytes.extend_from_slice(piece);
            true
        } else {
            let _ = self.bytes.extend_from_slice(&piece[..free]);
            false
        }
    }
}

/// A name of at most 4,095 bytes, that may be set to another.
#[derive(Drop)]
pub(crate) struct StoredName {
    bytes: BoundedBytes,
}

impl Model for StoredName {
    ghost use Rattle.std.specs.Prelude.{◌≡◌, ◌≤◌, ℕ, List, length};

    ghost Value = { List ℕ };

    ghost view = { λ n. n.bytes.bytes };

    ghost invariant = { λ n. (n.bytes.limit ≡ 4095) × (length n.bytes.bytes ≤ 4095) };
}

impl StoredName {
    pub(crate) fn new(alloc: Global) -> Result<StoredName, AllocError> {
        let bytes = BoundedBytes::new(Vec::new(alloc), NAME_LIMIT as u64)?;
        Ok(StoredName { bytes })
    }

    pub(crate) fn as_bytes(&self) -> &[u8]
        ensures name { result.now ≡ self.now }
        ensures short { length result.now ≤ NAME_LIMIT }
    {
        self.bytes.as_slice()
    }

    pub(crate) fn set(&mut self, name: &[u8])
        requires { length name.now ≤ NAME_LIMIT }
        ensures { self.new ≡ name.now }
    {
        self.bytes.clear();
        let _ = self.bytes.append(name);
    }
}

/// How many calls have failed, and what the last of them was about.
#[derive(Drop)]
pub(crate) struct FaultCount {
    count: u64,
    purpose: Option<Purpose>,
    name: StoredName,
}

impl Model for FaultCount {
    ghost use Rattle.std.specs.Prelude.{option_map};
    ghost use Rattle.outer_io.specs.Bounded.{FaultTold};

    ghost Value = { FaultTold };

    ghost view = { λ f. record {
      count = f.count;
      last = option_map (λ purpose. (f.name, purpose)) f.purpose;
    } };
}

impl FaultCount {
    pub(crate) fn new(alloc: Global) -> Result<FaultCount, AllocError>
        ensures { IfOk result (λ made. made ≡ record { count = 0; last = None }) }
    {
        let name = StoredName::new(alloc)?;
        Ok(FaultCount {
            count: 0,
            purpose: None,
            name,
        })
    }

    /// One more call has failed, on this file.
    pub(crate) fn raise(&mut self, name: &[u8], purpose: Purpose)
        requires { length name.now ≤ NAME_LIMIT }
        ensures count { self.new.count ≡ one_more self.old.count }
        ensures later { self.old.count ≤ self.new.count }
        ensures last { self.new.last ≡ Some (name.now, purpose) }
    {
        self.count = self.count.saturating_add(1);
        self.purpose = Some(purpose);
        self.name.set(name);
    }
}

/// What files keep beside them before any call: no failed one, and two names that are not set. It takes the memory for three names.
pub(crate) fn no_calls(alloc: Global) -> Result<(FaultCount, StoredName, StoredName), AllocError>
    ensures { IfOk result (λ made. made.0 ≡ record { count = 0; last = None }) }
{
    let fault = FaultCount::new(alloc)?;
    let name = StoredName::new(alloc)?;
    let other = StoredName::new(alloc)?;
    Ok((fault, name, other))
}

/// How many calls were made, counted from 1, and the numbers of those that are to fail.
#[derive(Drop)]
pub(crate) struct CallCount {
    made: u64,
    failing: Vec<u64>,
}

impl Model for CallCount {
    ghost use Rattle.outer_io.specs.Bounded.{Calls};

    ghost Value = { Calls };

    ghost view = { λ c. record { made = c.made; failing = c.failing.items } };
}

impl CallCount {
    pub(crate) fn new(failing: Vec<u64>) -> CallCount
        ensures { result ≡ record { made = 0; failing = failing.items } }
    {
        CallCount { made: 0, failing }
    }

    /// Counts a call, and says whether it is to fail.
    pub(crate) fn count(&mut self) -> bool
        ensures counted { self.new ≡ counted self.old }
        ensures fails { IsTrue result ↔ IsToFail self.old }
    {
        self.made = self.made.saturating_add(1);
        self.failing.contains(&self.made)
    }
}
