//! The gate that a flag closes.

ghost use Rattle.std.specs.Prelude.{◌≡◌, true};

use crate::owner::Owner;
use worker_gate::{Gate, Point};

/// A gate at which nobody waits, and which is closed once a flag is up.
#[derive(Clone, Copy)]
pub struct FlagGate<'a> {
    owner: &'a Owner,
}

impl<'a> FlagGate<'a> {
    /// The gate of an owner's flag.
    pub fn new(owner: &'a Owner) -> FlagGate<'a> {
        FlagGate { owner }
    }
}

impl<'a> Gate for FlagGate<'a> {
    ghost may_close = { λ _. Unit {0} };

    fn at(&self, _worker: u32, _point: Point) {}

    fn is_closed(&self) -> bool {
        self.owner.is_up()
    }
}
