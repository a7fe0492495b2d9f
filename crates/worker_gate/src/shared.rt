//! Workers share the cell with its answer and the gate, and a note goes with its worker to another thread.

use crate::answer::Answer;
use crate::cell::{AnswerCell, Note};
use crate::gate::OpenGate;

/// Takes a type that may be sent and shared.
const fn is_shared<T: Send + Sync>() {}

/// Takes a type that may be sent.
const fn is_sent<T: Send>() {}

/// An answer may be sent and shared.
const fn answer_is_shared<'a>() {
    is_shared::<Answer<'a>>();
}

/// So may a cell.
const fn cell_is_shared<'a>() {
    is_shared::<AnswerCell<'a>>();
}

/// So may the open gate.
const fn gate_is_shared() {
    is_shared::<OpenGate>();
}

/// A note may be sent.
const fn note_is_sent<'a>() {
    is_sent::<Note<'a>>();
}
