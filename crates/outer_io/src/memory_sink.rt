//! A sink in memory, which can be made to fail.
ghost use Rattle.std.specs.Prelude.{◌≡◌, ◌-◌, ◌<◌, ◌⊎◌, ◌↔◌, [], length, IsErr, IfOk};
ghost use Rattle.outer_io.specs.KnownText.{Wrote};
ghost use Rattle.outer_io.specs.Sinks.{HasBlame};
ghost use Rattle.outer_io.specs.Bounded.{counted, IsToFail};
ghost use Rattle.outer_io.specs.MemorySinks.{sink_bytes, sink_room, sink_calls, sink_faults, sink_contents, sink_spot, sink_rest, sink_blamed};

use crate::bounded::{BoundedBytes, CallCount};
use crate::fault::Failed;
use crate::sink::Sink;
use std::alloc::{AllocError, Global};

/// A sink that keeps all in memory, which it takes when it is made, and tells all.
///
/// A call fails where its number, counted from 1, is one of those that are to fail: it then appends nothing. It also fails
/// where the piece has no room: then what there is room for is appended.
pub struct MemorySink {
    held: BoundedBytes,
    calls: CallCount,
    faults: u64,
}

impl Drop for MemorySink {
    /// In one call, for whoever lets one go.
    fn drop(self) {
        let MemorySink {
            held: _,
            calls: _,
            faults: _,
        } = self;
    }
}

impl MemorySink {
    /// An empty sink for `room` bytes, and the numbers of the calls that are to fail.
    pub fn new(alloc: Global, room: u64, failing: Vec<u64>) -> Result<MemorySink, AllocError>
        ensures empty { IfOk result (λ sink. sink_bytes sink ≡ []) }
        ensures room { IfOk result (λ sink. sink_room sink ≡ room) }
        ensures failing { IfOk result
            (λ sink. sink_calls sink ≡ record { made = 0; failing = failing.items }) }
        ensures no_fault { IfOk result (λ sink. sink_faults sink ≡ 0) }
    {
        let held = BoundedBytes::new(Vec::new(alloc), room)?;
        Ok(MemorySink {
            held,
            calls: CallCount::new(failing),
            faults: 0,
        })
    }

    /// The bytes put so far.
    pub fn bytes(&self) -> &[u8]
        ensures { result.now ≡ sink_bytes self.now }
    {
        self.held.as_slice()
    }
}

impl Sink for MemorySink {
    ghost use Rattle.outer_io.specs.MemorySinks.{sink_contents, sink_spot, sink_rest, sink_faults, sink_blamed};

    ghost contents = { sink_contents };

    ghost spot = { sink_spot };

    ghost rest = { sink_rest };

    ghost faults = { sink_faults };

    ghost blamed = { sink_blamed };

    fn put(&mut self, piece: &[u8]) -> Result<(), Failed>
        ensures text { Wrote (sink_spot self.old).steady (sink_contents self.old)
            (sink_contents self.new) result piece.now }
        ensures cause { HasBlame sink_spot sink_rest sink_faults sink_blamed self.old self.new
            result }

        ensures fails { IsErr result ↔ (IsToFail (sink_calls self.old)
            ⊎ (sink_room self.old - length (sink_bytes self.old) < length piece.now)) }
        ensures nothing { IsToFail (sink_calls self.old)
            → sink_bytes self.new ≡ sink_bytes self.old }
        ensures counted { sink_calls self.new ≡ counted (sink_calls self.old) }
        ensures room { sink_room self.new ≡ sink_room self.old }
    {
        if self.calls.count() || !self.held.append(piece) {
            self.faults = self.faults.saturating_add(1);
            return Err(Failed);
        }
        Ok(())
    }
}
