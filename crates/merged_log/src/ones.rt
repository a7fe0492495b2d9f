//! The variables that are one in the solution of an embedding.

ghost use Rattle.std.specs.Prelude.{◌≡◌, ◌<◌, IfOk};
ghost use Rattle.graph_theory.specs.Graph.{size};
ghost use Rattle.graph_theory.specs.Embedding.{Embeds};
ghost use Rattle.log_theory.specs.LogText.{AreOnes};
ghost use Rattle.encoding_theory.specs.Variables.{variable as variable_of, variables};
ghost use Rattle.encoding_theory.specs.Encoding.{encoding};
ghost use Rattle.merged_log.specs.Answers.{embedding_ones, Solves};

use encoding_theory::solutions_are_embeddings;
use graph_rows::Problem;
use log_theory::Variables;
use std::alloc::{AllocError, Global};

/// The variable of `p` and `t`.
fn variable(q: &Problem, p: u16, t: u16) -> u32
    requires p_in { p < size q.now.pattern }
    requires t_in { t < size q.now.target }
    ensures { result ≡ variable_of q.now p t }
{
    let _pattern = q.pattern();
    u32::from(p) * u32::from(q.target().size()) + u32::from(t) + 1
}

/// The variables that are one where a map's vertices go to their images: one for each vertex, rising. They are a solution of the
/// encoding, since the map embeds.
pub fn ones_of(alloc: Global, q: &Problem, map: &[u32]) -> Result<Variables, AllocError>
    requires { Embeds q.now map.now }
    ensures ones { IfOk result (λ ones. ones ≡ embedding_ones q.now map.now) }
    ensures ranges { IfOk result (λ ones. AreOnes ones) }
    ensures solves { IfOk result (λ ones. Solves (variables q.now) (encoding q.now) ones) }
{
    solutions_are_embeddings();
    let _pattern = q.pattern();
    let _target = q.target();
    let mut ones = Vec::with_capacity(alloc, map.len())?;
    for (p, t) in map.iter().enumerate() {
        ones.push(variable(q, p as u16, *t as u16))?;
    }
    Ok(Variables::new(ones))
}
