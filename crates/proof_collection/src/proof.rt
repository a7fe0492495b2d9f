//! What shows that no embedding exists.

use journals::Journal;
use nogood_book::Row;

/// The parts of a log: the rows of the workers' book, the journal of each owner from 0 on, and the owner whose last line is false. Owner 0
/// has the lines of the root, the others are the workers.
pub struct Logged {
    pub rows: Vec<Row>,
    pub journals: Vec<Journal>,
    pub finisher: u8,
}

impl Drop for Logged {
    /// In one call, for whoever lets one go.
    fn drop(self) {
        let Logged {
            rows: _,
            journals: _,
            finisher: _,
        } = self;
    }
}

/// What shows that no embedding exists.
#[derive(Drop)]
pub enum Proof {
    /// The search alone: no log was asked for.
    Unlogged,
    /// The lines of a log.
    Logged(Logged),
}
