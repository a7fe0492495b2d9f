//! Loggers of an edge into an edge, which are told nothing.

ghost use Rattle.std.specs.Prelude.{IfSome};
ghost use Rattle.graph_theory.specs.Plain.{ArePlain};

use dead_paths::Ground;
use graph_rows::Problem;
use pb_encoding::Encoding;
use proof_collection::{KeepsLines, KeepsNothing, Proof, ProofMaker};
use proof_logger::ProofLogger;
use std::alloc::{AllocError, Global};
use std::test::Fail;
use test_support::{EDGE, graph};

/// An edge into an edge.
fn edge_into_edge(alloc: Global) -> Option<Problem>
    ensures { IfSome result ArePlain }
{
    let (pattern, target) = (graph(alloc, EDGE)?, graph(alloc, EDGE)?);
    Some(Problem::new(pattern, target, false))
}

/// A log that a maker gives, whichever it is.
fn log_of<L: ProofLogger, M: ProofMaker<L>>(alloc: Global, maker: &M) -> Result<L, AllocError> {
    maker.logger(alloc, 1)
}

/// Whether what keeps nothing proves an edge into an edge so.
fn keeps_nothing(alloc: Global, q: &Problem) -> Result<bool, AllocError> {
    let maker = KeepsNothing::new(q);
    let _log = log_of(alloc, &maker)?;
    let proof = maker.of_root(alloc, maker.logger(alloc, 0)?)?;
    Ok(matches!(proof, Proof::Unlogged))
}

#[test]
fn nothing_is_kept(rt: HostRuntime) -> Result<(), Fail> {
    let q = edge_into_edge(rt.alloc()).ok_or("no problem")?;
    assert!(rt; keeps_nothing(rt.alloc(), &q)?);
    Ok(())
}

/// Whether the log that a maker gives has neither line nor note.
fn gives_nothing(alloc: Global, maker: &KeepsLines) -> Result<bool, AllocError> {
    let journal = log_of(alloc, maker)?.into_journal();
    Ok(journal.text().is_empty() && journal.notes().is_empty())
}

/// Whether a log over the encoding of a problem begins so.
fn begins_with_nothing(alloc: Global, q: &Problem) -> Result<bool, AllocError> {
    let encoding = Encoding::new(alloc, q)?;
    let ground = Ground::new(alloc, &encoding);
    gives_nothing(alloc, &KeepsLines::new(q, &ground))
}

#[test]
fn a_log_begins_with_no_line(rt: HostRuntime) -> Result<(), Fail> {
    let q = edge_into_edge(rt.alloc()).ok_or("no problem")?;
    assert!(rt; begins_with_nothing(rt.alloc(), &q)?);
    Ok(())
}
