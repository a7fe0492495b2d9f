//! A worker goes to its thread and back, with what it has made; where it stands may be read from several threads.

use crate::outcome::Outcome;
use crate::worker::{Equipment, Worker};
use domain_bits::WordTrail;
use nogood_book::RowSeat;
use proof_logger::ProofLogger;
use recorder::Recorder;

/// Takes a type that may be sent.
const fn is_sent<T: Send>() {}

/// Takes a type that may be sent and shared.
const fn is_shared<T: Send + Sync>() {}

/// What a worker begins with may be sent and shared, where who is told of its domains may.
const fn equipment_is_shared<'a, R: Recorder + Send + Sync>() {
    is_shared::<Equipment<'a, WordTrail, R>>();
}

/// A worker may be sent where its seat, its log and who is told of its domains may.
const fn worker_is_sent<'a, S: RowSeat + Drop + Send, L: ProofLogger + Send>()
where
    L::Told: Send,
{
    is_sent::<Worker<'a, S, WordTrail, L>>();
}

/// An outcome may be sent.
const fn outcome_is_sent<'a>() {
    is_sent::<Outcome<'a>>();
}
