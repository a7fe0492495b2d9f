//! Small problems, logs over them, and what a checker says of these.

use graph_rows::Problem;
use graph_theory::embedding::Maps;
use journals::Journal;
use lad_reader::LadKind;
use log_theory::Verdict;
use opb_text::{Model, read_opb};
use outer_io::MemorySink;
use pb_encoding::Encoding;
use proof_checker::check;
use std::alloc::{AllocError, Global};
use test_support::{graph_in, order_of};

/// A small problem: the texts of its pattern and its target, their kind, and whether the copy is to be induced.
pub struct Sample(pub &'static [u8], pub &'static [u8], pub LadKind, pub bool);

/// A small problem whose maps need not be injective, or are to be in order: the texts of its pattern and its target, which images have to differ,
/// and the pairs of vertices whose images are to be in order.
pub struct Mapped(
    pub &'static [u8],
    pub &'static [u8],
    pub Maps,
    pub &'static [(u16, u16)],
);

/// A log: its two first lines, the lines of owner 1, and its last line.
pub struct Log {
    pub head: &'static [u8],
    pub lines: &'static [u8],
    pub end: &'static [u8],
}

impl Sample {
    /// The problem.
    pub fn problem(&self, alloc: Global) -> Option<Problem> {
        let pattern = graph_in(alloc, self.0, self.2)?;
        let target = graph_in(alloc, self.1, self.2)?;
        Some(Problem::new(pattern, target, self.3))
    }
}

impl Mapped {
    /// The problem.
    pub fn problem(&self, alloc: Global) -> Option<Problem> {
        let pattern = graph_in(alloc, self.0, LadKind::Lad)?;
        let target = graph_in(alloc, self.1, LadKind::Lad)?;
        let order = order_of(alloc, self.3, pattern.size()).ok()?;
        Some(Problem::mapped(pattern, target, self.2).with_less(order))
    }
}

/// The model of an encoding, read from its text.
fn model_of(alloc: Global, lines: &Encoding) -> Option<Model> {
    let mut sink = MemorySink::new(alloc, 4096, Vec::new(alloc)).ok()?;
    lines.write(alloc, &mut sink).ok()?;
    read_opb(alloc, sink.bytes()).ok()
}

/// The bytes of a log.
fn bytes_of(alloc: Global, log: &Log) -> Result<Vec<u8>, AllocError> {
    let mut bytes = Vec::from_slice(alloc, log.head)?;
    bytes.extend_from_slice(log.lines)?;
    bytes.extend_from_slice(log.end)?;
    Ok(bytes)
}

/// Adds lines without hints: of a line `u` that is what comes up to its first `;`.
fn push_plain(bytes: &mut Vec<u8>, lines: &[u8]) -> Result<(), AllocError> {
    let mut before = b'\n';
    let mut first = b'\n';
    let mut kept = true;
    for byte in lines {
        if before == b'\n' {
            first = *byte;
        }
        if *byte == b'\n' {
            kept = true;
        }
        if kept {
            bytes.push(*byte)?;
        }
        if first == b'u' && *byte == b';' {
            kept = false;
        }
        before = *byte;
    }
    Ok(())
}

const FIRST_LINE: &[u8] = b"embedding proof 1";

/// The bytes of the log without hints.
fn plain_bytes_of(alloc: Global, log: &Log) -> Result<Vec<u8>, AllocError> {
    let mut bytes = Vec::from_slice(alloc, b"embedding proof 2")?;
    if log.head.len() > FIRST_LINE.len() {
        bytes.extend_from_slice(&log.head[FIRST_LINE.len()..])?;
    }
    push_plain(&mut bytes, log.lines)?;
    push_plain(&mut bytes, log.end)?;
    Ok(bytes)
}

/// What the log's last line says: that nothing is shown, or that there is no solution.
fn verdict_of(log: &Log) -> Verdict {
    if log.end == b"q\n".as_slice() {
        Verdict::Undecided
    } else {
        Verdict::Unsatisfiable
    }
}

/// Whether a checker accepts the log over an encoding, with its hints and without them, as one that shows what its last line says.
pub fn is_accepted(alloc: Global, lines: &Encoding, log: &Log) -> Result<bool, AllocError> {
    let Some(model) = model_of(alloc, lines) else {
        return Ok(false);
    };
    let verdict = verdict_of(log);
    Ok(
        check(alloc, &model, &bytes_of(alloc, log)?) == verdict
            && check(alloc, &model, &plain_bytes_of(alloc, log)?) == verdict,
    )
}

/// Whether the lines of the journal are those of the log, and a checker accepts it.
pub fn is_log(
    alloc: Global,
    lines: &Encoding,
    journal: &Journal,
    log: &Log,
) -> Result<bool, AllocError> {
    Ok(journal.text() == log.lines && is_accepted(alloc, lines, log)?)
}
