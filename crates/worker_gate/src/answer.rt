//! Answers that are true of the problem that they carry.

ghost use Rattle.std.specs.Prelude.{◌≡◌, ◌↔◌, IsTrue, Some, None};
ghost use Rattle.graph_theory.specs.Embedding.{Embeds, HasNone};
ghost use Rattle.worker_gate.specs.Answers.{IsTrueOf, map_of};

use graph_rows::Problem;
use std::marker::Model;

/// What is said of a problem.
#[derive(Drop)]
pub enum Said {
    /// An embedding: the target vertex of each pattern vertex in order.
    Map(Vec<u32>),
    /// No embedding exists.
    NoEmbedding,
}

/// An answer, beside the problem that it is about. It is true of this problem.
#[derive(Drop)]
pub struct Answer<'a> {
    problem: &'a Problem,
    said: Said,
}

impl<'a> Model for Answer<'a> {
    ghost use Rattle.worker_gate.specs.Answers.{AnswerView, IsTrueOf, map_of};

    ghost Value = { AnswerView };

    ghost view = { λ a. record { problem = a.problem.now; map = map_of a.said } };

    ghost invariant = { λ a. IsTrueOf a.problem.now (map_of a.said) };
}

impl<'a> Answer<'a> {
    /// The answer that this list is an embedding.
    pub fn embedding(problem: &'a Problem, map: Vec<u32>) -> Answer<'a>
        requires { Embeds problem.now map.items }
        ensures { result ≡ record { problem = problem.entry.now; map = Some map.items } }
    {
        Answer {
            problem,
            said: Said::Map(map),
        }
    }

    /// The answer that no embedding exists.
    pub fn no_embedding(problem: &'a Problem) -> Answer<'a>
        requires { HasNone problem.now }
        ensures { result ≡ record { problem = problem.entry.now; map = None } }
    {
        Answer {
            problem,
            said: Said::NoEmbedding,
        }
    }

    /// What is said.
    pub fn said(&self) -> &Said
        ensures is { map_of result.now ≡ self.now.map }
        ensures is_true { IsTrueOf self.now.problem (map_of result.now) }
    {
        &self.said
    }

    /// Whether the answer is one to this problem. Cost: that of `Problem::same`.
    pub fn answers(&self, problem: &Problem) -> bool
        ensures exactly { IsTrue result ↔ (self.now.problem ≡ problem.now) }
        ensures is_true { IsTrueOf self.now.problem self.now.map }
    {
        self.problem.same(problem)
    }
}
