//! The first answer stays, notes keep what they know, and an answer is one to its own problem alone.

ghost use Rattle.std.specs.Prelude.{◌≡◌};

use crate::problems::problem;
use graph_rows::Problem;
use std::alloc::{AllocError, Global};
use test_support::{EDGE, TRIANGLE};
use worker_gate::{Answer, AnswerCell, Gate, Note, OpenGate, Point, Said};

/// The answer that these images are an embedding, where they are one.
fn answer_of<'a>(
    alloc: Global,
    q: &'a Problem,
    images: &[u32],
) -> Result<Option<Answer<'a>>, AllocError> {
    let map = Vec::from_slice(alloc, images)?;
    if !q.is_embedding(&map) {
        return Ok(None);
    }
    Ok(Some(Answer::embedding(q, map)))
}

/// Whether the answer is this map.
fn is_map(answer: Option<&Answer>, images: &[u32]) -> bool {
    match answer {
        None => false,
        Some(answer) => match answer.said() {
            Said::Map(map) => map.as_slice() == images,
            Said::NoEmbedding => false,
        },
    }
}

/// Offers the answer that these images are an embedding, and tells whether they are one and memory was left.
fn offers<'a>(
    alloc: Global,
    q: &'a Problem,
    cell: &AnswerCell<'a>,
    note: &mut Note<'a>,
    images: &[u32],
) -> bool
    requires { note.old.cell ≡ cell.now }
    ensures { note.new.cell ≡ note.old.cell }
{
    match answer_of(alloc, q, images) {
        Ok(Some(answer)) => cell.offer(alloc, note, answer).is_ok(),
        _ => false,
    }
}

/// Whether a cell without an answer takes the one that exchanges two vertices.
fn takes_first<'a>(alloc: Global, q: &'a Problem, cell: &AnswerCell<'a>, own: &mut Note<'a>) -> bool
    requires { own.old.cell ≡ cell.now }
    ensures { own.new.cell ≡ own.old.cell }
{
    cell.seen(own).is_none() && offers(alloc, q, cell, own, &[1, 0])
}

/// Whether a second answer is offered then, and who offered either sees the first.
fn keeps_first<'a>(alloc: Global, q: &'a Problem, cell: &AnswerCell<'a>, own: &mut Note<'a>) -> bool
    requires { own.old.cell ≡ cell.now }
{
    let mut other = cell.note();
    offers(alloc, q, cell, &mut other, &[0, 1])
        && is_map(cell.seen(own), &[1, 0])
        && is_map(cell.seen(&mut other), &[1, 0])
}

/// Whether a fresh note sees the first answer.
fn is_seen_afresh(cell: &AnswerCell) -> bool {
    let mut fresh = cell.note();
    is_map(cell.seen(&mut fresh), &[1, 0])
}

/// Whether two answers can be offered to a cell of a problem of an edge into an edge, and each note sees the first.
fn is_first_seen(alloc: Global, q: &Problem) -> bool {
    let cell = AnswerCell::new(alloc);
    let mut own = cell.note();
    takes_first(alloc, q, &cell, &mut own)
        && keeps_first(alloc, q, &cell, &mut own)
        && is_seen_afresh(&cell)
}

/// Whether images make no answer.
fn make_none(alloc: Global, q: &Problem, images: &[u32]) -> bool {
    match answer_of(alloc, q, images) {
        Ok(None) => true,
        _ => false,
    }
}

/// Whether the first answer to the problem of an edge into an edge stays, and two images that share a vertex make none.
fn are_answers(alloc: Global) -> bool {
    match problem(alloc, EDGE, EDGE, false) {
        Some(q) => is_first_seen(alloc, &q) && make_none(alloc, &q, &[0, 0]),
        None => false,
    }
}

#[test]
fn the_first_answer_stays_and_images_that_share_a_vertex_make_none(rt: HostRuntime) {
    assert!(rt; are_answers(rt.alloc()));
}

/// Whether the answer that exchanges two vertices of one problem is one to another.
fn answers_to(alloc: Global, q: &Problem, asked: &Problem) -> Option<bool> {
    let answer = answer_of(alloc, q, &[1, 0]).ok()??;
    Some(answer.answers(asked))
}

/// Whether it is one to the problem of an edge into this target.
fn answers_into(alloc: Global, q: &Problem, target: &[u8]) -> Option<bool> {
    let asked = problem(alloc, EDGE, target, false)?;
    answers_to(alloc, q, &asked)
}

/// The same, of the problem of an edge into an edge.
fn answers_from_an_edge(alloc: Global, target: &[u8]) -> Option<bool> {
    let q = problem(alloc, EDGE, EDGE, false)?;
    answers_into(alloc, &q, target)
}

#[test]
fn an_answer_is_one_to_an_equal_problem_and_none_to_another(rt: HostRuntime) {
    assert!(rt; answers_from_an_edge(rt.alloc(), EDGE) == Some(true));
    assert!(rt; answers_from_an_edge(rt.alloc(), TRIANGLE) == Some(false));
}

#[test]
fn nobody_waits_at_the_open_gate() {
    OpenGate.at(1, Point::Start);
    OpenGate.at(1, Point::Guess);
    OpenGate.at(1, Point::Restart);
}
