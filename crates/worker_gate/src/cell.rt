//! The cell of the first answer, and the notes of those who look at it.

ghost use Rattle.std.specs.Prelude.{◌≡◌, Some, None, MatchResult, MatchOption};
ghost use Rattle.once_cell.specs.Once.{Agrees};
ghost use Rattle.worker_gate.specs.Answers.{AnswerView};

use crate::answer::Answer;
use once_cell::race::{Note as BoxNote, OnceBox};
use std::alloc::{AllocError, Global};
use std::marker::Model;

/// A cell that keeps the first answer that is offered to it. Nobody waits at it. Contracts see its name.
#[derive(Drop)]
pub struct AnswerCell<'a> {
    answer: OnceBox<Answer<'a>>,
}

impl<'a> Model for AnswerCell<'a> {
    ghost use Rattle.std.specs.Prelude.{ℕ};
    ghost use Rattle.once_cell.specs.Once.{cell_name};

    ghost Value = { ℕ };

    ghost view = { λ c. cell_name c.answer };
}

/// What somebody has seen of one cell. It takes no bytes, and never loses an answer that it knows.
#[derive(Drop)]
pub struct Note<'a> {
    note: BoxNote<Answer<'a>>,
}

impl<'a> Model for Note<'a> {
    ghost use Rattle.worker_gate.specs.Answers.{NoteView};

    ghost Value = { NoteView };

    ghost view = { λ n. record { cell = n.note.cell; known = n.note.known } };
}

impl<'a> AnswerCell<'a> {
    /// A cell without an answer. It takes no memory.
    pub fn new(alloc: Global) -> AnswerCell<'a> {
        AnswerCell {
            answer: OnceBox::new(alloc),
        }
    }

    /// A note that knows nothing yet.
    pub fn note(&self) -> Note<'a>
        ensures cell { result.cell ≡ self.now }
        ensures known { result.known ≡ None }
    {
        Note {
            note: self.answer.note(),
        }
    }

    /// Offers an answer, which the cell keeps where it has none. Afterwards the note knows the cell's answer; where memory is
    /// refused nothing has changed. Cost: one exchange.
    pub fn offer(
        &self,
        alloc: Global,
        note: &mut Note<'a>,
        answer: Answer<'a>,
    ) -> Result<(), AllocError>
        requires { note.old.cell ≡ self.now }
        ensures cell { note.new.cell ≡ note.old.cell }
        ensures known { MatchResult result
            (λ _. (x : AnswerView) × (note.new.known ≡ Some x) × Agrees note.old.known x)
            (λ _. note.new ≡ note.old) }
    {
        let offered = Box::new(alloc, answer)?;
        let _set = self.answer.set_as(offered, &mut note.note);
        Ok(())
    }

    /// The cell's answer, if it has one by now; a note that has seen it always gets it. It takes no memory. Cost: one load.
    pub fn seen<'s>(&'s self, note: &mut Note<'a>) -> Option<&'s Answer<'a>>
        requires { note.old.cell ≡ self.now }
        ensures cell { note.new.cell ≡ note.old.cell }
        ensures known { MatchOption result ((note.old.known ≡ None) × (note.new.known ≡ None))
            (λ r. (note.new.known ≡ Some r.now) × Agrees note.old.known r.now) }
    {
        self.answer.get_as(&mut note.note)
    }
}
