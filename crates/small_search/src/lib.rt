//! A search for small problems: those whose target has at most 64 vertices.
//!
//! There a set of target vertices is one word, and all that a search keeps lies on its stack: the values of each
//! pattern vertex, its neighbours, and the images of those that are placed. It takes no memory but that of the map
//! that it answers with, so that a problem of a few guesses costs a few thousand steps. What it does not serve, or
//! does not decide within the steps that it is given, it leaves open. It keeps nothing between calls.
//!
//! The search places one vertex after another, beside those that are placed where it can, and of these the one with
//! most placed neighbours and fewest values. A vertex may go where its label, its loop and its degrees let it, to
//! what is joined to the images of its placed neighbours as their edges ask. (Backtracking with bit rows: J. R.
//! Ullmann, 1976 and 2010; the order: V. Bonnici, R. Giugno and others, "A subgraph isomorphism algorithm and its
//! application to biochemical data", 2013.)
#![tactic(auto)]

ghost use Rattle.std.specs.Prelude.{◌≡◌, ℕ, ◌<◌, true, nat_lt, length, slice_index, IfOk};
ghost use Rattle.graph_theory.specs.Graph.{size};
ghost use Rattle.graph_theory.specs.Embedding.{Embeds};
ghost use Rattle.small_search.specs.Small.{IsAnswer};
ghost use Rattle.small_search.specs.Placing.{IsSmall, Fits};

mod placing;
mod table;

use crate::placing::{Ended, extend};
use crate::table::{MOST, Table, fill_near, fill_values};
use graph_rows::Problem;
use std::alloc::{AllocError, Global};

/// What the search of a small problem comes to.
#[derive(Drop)]
pub enum SmallAnswer {
    /// An embedding: the target vertex of each pattern vertex in order.
    Yes(Vec<u32>),
    /// No embedding exists.
    NoEmbedding,
    /// Nothing is known: the problem is not served, the steps were spent, or memory was refused for the map.
    Open,
}

/// Decides a problem whose target has at most 64 vertices, by at most so many steps, each of which tries one value of
/// a vertex. It leaves open what it does not serve: a greater target or pattern, a target without vertices, and an
/// order of images. It takes memory for the map alone, once that is found. Cost: some steps for each two of a pattern
/// vertex and a target vertex, and for each step some for each placed neighbour of the vertex; where copies are
/// induced or maps are not injective, for each placed vertex.
pub fn search_small(alloc: Global, q: &Problem, most: u32) -> SmallAnswer
    ensures { IsAnswer result q.now }
{
    if !is_served(q) {
        return SmallAnswer::Open;
    }
    let mut values = [0u64; MOST];
    let mut near = [0u64; MOST];
    fill_values(q, &mut values);
    fill_near(q, &mut near);
    let table = Table::new(q, &values, &near);
    let mut images = [0u16; MOST];
    let mut steps = most;
    match extend(&table, &mut images, &mut steps, 0, 0, 0) {
        Ended::Found => match map_of(alloc, q, &images) {
            Ok(map) => SmallAnswer::Yes(map),
            Err(_) => SmallAnswer::Open,
        },
        Ended::Refuted => SmallAnswer::NoEmbedding,
        Ended::Spent => SmallAnswer::Open,
    }
}

/// Whether the search serves the problem.
fn is_served(q: &Problem) -> bool
    ensures { result ≡ true → IsSmall q.now }
{
    let targets = usize::from(q.target().size());
    0 < targets && targets <= MOST && usize::from(q.pattern().size()) <= MOST && q.less().is_empty()
}

/// The images of the pattern vertices as a map.
fn map_of(alloc: Global, q: &Problem, images: &[u16]) -> Result<Vec<u32>, AllocError>
    requires small { IsSmall q.now }
    requires long { length images.now ≡ 64 }
    requires fits { Fits q.now (λ p. nat_lt p (size q.now.pattern)) images.now }
    ensures { IfOk result (λ map. Embeds q.now map.items) }
{
    let mut map = Vec::with_capacity(alloc, usize::from(q.pattern().size()))?;
    for p in 0..usize::from(q.pattern().size()) {
        map.push(u32::from(images[p]))?;
    }
    Ok(map)
}
