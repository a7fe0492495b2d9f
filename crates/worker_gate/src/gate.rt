//! The gate of a worker: where its caller is told how far it is, may hold it, and may end its run.

ghost use Rattle.std.specs.Prelude.{◌≡◌, true};

/// A point of a worker's run.
#[derive(Clone, Copy, PartialEq, Eq)]
pub enum Point {
    /// The run begins.
    Start,
    /// A guess is due.
    Guess,
    /// The worker has reached its cutoff, and restarts.
    Restart,
}

/// What a worker passes at each point of its run. A gate may make a worker wait, and it may end the run before a guess; it changes
/// nothing else of what a worker does.
pub trait Gate {
    /// It may close.
    ghost may_close: { Self → Type 0 };

    /// The worker of this number, from 1, has come to the point.
    fn at(&self, worker: u32, point: Point);

    /// Whether the gate is closed: each worker that asks then ends its run. A worker asks before each guess, so an answer should
    /// cost no more than a load. A closed gate may open again.
    fn is_closed(&self) -> bool
        ensures { result ≡ true → may_close self.now };
}

/// The gate at which nobody waits, and which never closes.
#[derive(Clone, Copy)]
pub struct OpenGate;

impl Gate for OpenGate {
    ghost may_close = { λ _. ⊥ };

    fn at(&self, _worker: u32, _point: Point) {}

    fn is_closed(&self) -> bool {
        false
    }
}
