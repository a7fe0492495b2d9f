//! Testing whether a map embeds the problem that a call asks.

ghost use Rattle.subgraph_c.specs.Asking.{call};
ghost use Rattle.subgraph_c.specs.Verifying.{TestSays};

use crate::asking::{Asked, ask};
use crate::numbers::first_bad;
use crate::refusal::Refusal;
use std::alloc::Global;

/// What a test says.
#[derive(Clone, Copy, PartialEq, Eq, Debug)]
pub enum Tested {
    /// The map is an embedding.
    Embedding,
    /// It is none.
    NoEmbedding,
    /// Nothing is tested.
    Refused(Refusal),
}

/// Tests a map against what a call asks: the numbers that choose the problem are judged, then its texts are read, and
/// then the map is looked at. Cost: linear in the texts, and a step for each two pattern vertices.
pub(crate) fn test(alloc: Global, asked: &Asked, map: &[u32]) -> Tested
    ensures { TestSays result (call asked.now.pattern.now asked.now.target.now
        asked.now.options.now asked.now.less.now) map.now }
{
    if let Some(bad) = first_bad(asked.options, asked.less) {
        return Tested::Refused(Refusal::Number(bad));
    }
    match ask(alloc, asked) {
        Ok(q) if q.is_embedding(map) => Tested::Embedding,
        Ok(_) => Tested::NoEmbedding,
        Err(refusal) => Tested::Refused(refusal),
    }
}
