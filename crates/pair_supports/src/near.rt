//! The neighbours of target vertices that have few, as lists.

ghost use Rattle.std.specs.Prelude.{◌≡◌, ℕ, ◌<◌, ◌*◌, ◌==◌, ◌&&◌, ◌||◌, not, nat_lt, true, map, is_some, IfOk, IfSome};
ghost use Rattle.graph_theory.specs.Graph.{size as size_of};
ghost use Rattle.graph_theory.specs.Neighbours.{degree, is_neighbour};
ghost use Rattle.bit_rows.specs.BitRows.{words_for};
ghost use Rattle.graph_rows.specs.Held.{stands_in};
ghost use Rattle.pair_supports.specs.Near.{is_listed, AreNear};

use bit_rows::{next_member, words_for};
use graph_rows::{Graph, Problem};
use std::alloc::{AllocError, Global};
use std::marker::Model;

/// A list for each target vertex of a problem: in the induced kind its neighbours, where they are less than twice the words of a
/// row, and else nothing. Contracts see the problem.
#[derive(Drop)]
pub(crate) struct NearLists<'a> {
    problem: &'a Problem,
    lists: Vec<Vec<u16>>,
}

impl<'a> Model for NearLists<'a> {
    ghost use Rattle.std.specs.Prelude.{map};
    ghost use Rattle.graph_theory.specs.Graph.{size as size_of};
    ghost use Rattle.graph_theory.specs.Embedding.{Problem as TheProblem};
    ghost use Rattle.pair_supports.specs.Near.{AreNear};

    ghost Value = { TheProblem };

    ghost view = { λ n. n.problem.now };

    ghost invariant = { λ n. AreNear n.problem.now (map (λ us. us.items) n.lists.items)
        (size_of n.problem.now.target) };
}

impl<'a> NearLists<'a> {
    /// The lists of a problem. Cost: in the induced kind one step for each word of a row and for each neighbour that is listed.
    pub(crate) fn new(alloc: Global, problem: &'a Problem) -> Result<NearLists<'a>, AllocError>
        ensures { IfOk result (λ n. n ≡ problem.entry.now) }
    {
        let mut lists = Vec::new(alloc);
        for t in 0..problem.target().size() {
            let list = near_list(alloc, problem, t)?;
            lists.push(list)?;
        }
        Ok(NearLists { problem, lists })
    }

    /// The neighbours of `t`, rising, where they are listed. Cost: a few steps.
    pub(crate) fn of(&self, t: u16) -> Option<&[u16]>
        requires t_in { t < size_of self.now.target }
        ensures few { is_some result ≡ is_listed self.now t }
        ensures listed { IfSome result
            (λ us. (u : ℕ) → stands_in us.now u ≡ is_neighbour self.now.target t u) }
        ensures within { IfSome result
            (λ us. (u : ℕ) → stands_in us.now u ≡ true → u < size_of self.now.target) }
    {
        let _row = self.problem.target().row(t);
        if !has_list(self.problem, t) {
            return None;
        }
        Some(&self.lists[usize::from(t)])
    }
}

/// Whether the neighbours of `t` are listed. Cost: two steps.
fn has_list(q: &Problem, t: u16) -> bool
    requires t_in { t < size_of q.now.target }
    ensures { result ≡ is_listed q.now t }
{
    let words = words_for(usize::from(q.target().size()));
    q.induced() && usize::from(q.target().degree(t)) < 2 * words
}

/// The list of `t`.
fn near_list(alloc: Global, q: &Problem, t: u16) -> Result<Vec<u16>, AllocError>
    requires t_in { t < size_of q.now.target }
    ensures { IfOk result
        (λ us. is_listed q.now t ≡ true → (u : ℕ)
        → stands_in us.items u ≡ is_neighbour q.now.target t u) }
{
    if has_list(q, t) {
        return list_neighbours(alloc, q.target(), t);
    }
    Ok(Vec::new(alloc))
}

/// The neighbours of a vertex, rising. Cost: one step for each of them, and for each word of a row.
fn list_neighbours(alloc: Global, graph: &Graph, a: u16) -> Result<Vec<u16>, AllocError>
    requires a_in { a < size_of graph.now }
    ensures { IfOk result (λ us. (u : ℕ) → stands_in us.items u ≡ is_neighbour graph.now a u) }
{
    let _size = graph.size();
    let near = graph.row(a);
    let mut list = Vec::with_capacity(alloc, usize::from(graph.degree(a)))?;
    let mut u = next_member(near, 0);
    while u < 64 * near.len() {
        push_other(&mut list, a, u as u16)?;
        u = next_member(near, u + 1);
    }
    Ok(list)
}

/// Adds `u`, unless it is `a`.
fn push_other(list: &mut Vec<u16>, a: u16, u: u16) -> Result<(), AllocError>
    ensures { IfOk result
        (λ _. (v : ℕ) → stands_in list.new.items v
        ≡ (stands_in list.old.items v || not (a == u) && u == v)) }
{
    if a != u {
        list.push(u)?;
    }
    Ok(())
}
