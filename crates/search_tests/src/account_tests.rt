//! A small life of an account, on the problem of a triangle into a four-cycle, and the first terms of the sequence.

ghost use Rattle.std.specs.Prelude.{◌≡◌, ◌+◌, ◌<◌, ◌∷◌, [], IfOk};
ghost use Rattle.search_theory.specs.Account.{Honest};
ghost use Rattle.fail_account.specs.Examples.{triangle, four_cycle, triangle_into_four_cycle, after_guesses};

use fail_account::{Account, luby};
use graph_rows::{Graph, Problem};
use lad_reader::{EdgeLabels, GraphParts, Labels, LadKind, NeighbourLists};
use std::alloc::{AllocError, Global};
use std::test::Fail;
use test_support::{Example, all_hold};

/// A list of two vertices.
fn two(alloc: Global, a: u32, b: u32) -> Result<Vec<u32>, AllocError>
    ensures { IfOk result (λ v. v.items ≡ a ∷ b ∷ []) }
{
    Vec::from_slice(alloc, &[a, b])
}

fn triangle_graph(alloc: Global) -> Result<Graph, AllocError>
    ensures { IfOk result (λ g. g ≡ triangle) }
{
    let mut lists = Vec::with_capacity(alloc, 3)?;
    lists.push_reserved(two(alloc, 1, 2)?);
    lists.push_reserved(two(alloc, 0, 2)?);
    lists.push_reserved(two(alloc, 0, 1)?);
    let parts = GraphParts {
        kind: LadKind::Lad,
        labels: Labels::from_vec(Vec::from_slice(alloc, &[0, 0, 0])?),
        neighbours: NeighbourLists::from_vecs(alloc, &lists)?,
        edge_labels: EdgeLabels::none(alloc),
    };
    Graph::new(alloc, &parts)
}

fn four_cycle_graph(alloc: Global) -> Result<Graph, AllocError>
    ensures { IfOk result (λ g. g ≡ four_cycle) }
{
    let mut lists = Vec::with_capacity(alloc, 4)?;
    lists.push_reserved(two(alloc, 1, 3)?);
    lists.push_reserved(two(alloc, 0, 2)?);
    lists.push_reserved(two(alloc, 1, 3)?);
    lists.push_reserved(two(alloc, 0, 2)?);
    let parts = GraphParts {
        kind: LadKind::Lad,
        labels: Labels::from_vec(Vec::from_slice(alloc, &[0, 0, 0, 0])?),
        neighbours: NeighbourLists::from_vecs(alloc, &lists)?,
        edge_labels: EdgeLabels::none(alloc),
    };
    Graph::new(alloc, &parts)
}

fn worked_problem(alloc: Global) -> Result<Problem, AllocError>
    ensures { IfOk result (λ q. q ≡ triangle_into_four_cycle) }
{
    Ok(Problem::new(triangle_graph(alloc)?, four_cycle_graph(alloc)?, false))
}

/// Guesses vertex 0 at `t`, and refutes that: a common neighbour is missing.
fn guess_and_fail(account: &mut Account, q: &Problem, t: u16)
    requires problem { q.now ≡ triangle_into_four_cycle }
    requires honest { Honest q.now account.old }
    requires before { account.old ≡ after_guesses account.old.budget t }
    requires value_in { t < 4 }
    requires unspent { t < account.old.budget }
    ensures honest { Honest q.now account.new }
    ensures after { account.new ≡ after_guesses account.old.budget (t + 1) }
{
    account.deepen(q, 0, t);
    account.fail(q);
}

/// Whether vertex 0 may be guessed at `t`, and the guess fails and is refuted by that.
fn is_guessed_in_vain(account: &mut Account, q: &Problem, t: u16) -> bool
    requires problem { q.now ≡ triangle_into_four_cycle }
    requires honest { Honest q.now account.old }
    requires before { account.old ≡ after_guesses account.old.budget t }
    requires value_in { t < 4 }
    requires unspent { t < account.old.budget }
    ensures honest { Honest q.now account.new }
    ensures after { account.new ≡ after_guesses account.old.budget (t + 1) }
{
    let may_be_guessed = !account.spent() && !account.is_refuted(t);
    guess_and_fail(account, q, t);
    may_be_guessed && account.is_refuted(t) && account.fails() == u64::from(t) + 1
}

/// Whether all four values are.
fn all_are_guessed_in_vain(account: &mut Account, q: &Problem) -> bool
    requires problem { q.now ≡ triangle_into_four_cycle }
    requires honest { Honest q.now account.old }
    requires before { account.old ≡ after_guesses 4 0 }
    ensures pattern { account.new.pattern ≡ 3 }
{
    for t in 0..4 {
        if !is_guessed_in_vain(account, q, t) {
            return false;
        }
    }
    true
}

/// Whether a level is of this vertex and has this row.
fn is_level(account: &Account, i: u16, vertex: Option<u16>, row: u64) -> bool
    requires { i < account.now.pattern }
{
    let (found, values) = account.level(i);
    found == vertex && values == [row].as_slice()
}

/// Whether the account is spent in its first run, with all values of vertex 0 refuted at the root.
fn is_spent_at_the_root(account: &Account) -> bool
    requires { account.now.pattern ≡ 3 }
{
    account.spent()
        && !account.at_cutoff()
        && account.run_number() == 1
        && account.vertex() == Some(0)
        && is_level(account, 0, Some(0), 15)
        && is_level(account, 1, None, 0)
}

/// A place in the sequence, and its term.
struct Term(u64, u64);

impl<R> Example<R> for Term {
    fn holds(&self, _rt: &R, _alloc: Global) -> Result<bool, AllocError> {
        let Term(place, term) = *self;
        Ok(place > 0 && luby(place) == term)
    }
}

static TERMS: [Term; 11] = [
    Term(1, 1),
    Term(2, 1),
    Term(3, 2),
    Term(4, 1),
    Term(5, 1),
    Term(6, 2),
    Term(7, 4),
    Term(8, 1),
    Term(15, 8),
    Term(1 << 40, 1),
    Term(u64::MAX, 1 << 63),
];

#[test]
fn the_sequence_begins(rt: HostRuntime) -> Result<(), Fail> {
    all_hold(&rt, rt.alloc(), &TERMS)
}

/// Whether a fresh account is spent once all four values are guessed in vain.
fn each_guess_fails(alloc: Global, q: &Problem) -> Result<bool, AllocError>
    requires { q.now ≡ triangle_into_four_cycle }
{
    let mut account = Account::new(alloc, q, 4)?;
    let is_fresh = account.path().is_empty() && account.vertex().is_none();
    let all_fail = all_are_guessed_in_vain(&mut account, q);
    Ok(is_fresh && all_fail && is_spent_at_the_root(&account))
}

#[test]
fn each_guess_of_a_triangle_in_a_four_cycle_fails(rt: HostRuntime) -> Result<(), Fail> {
    let q = worked_problem(rt.alloc())?;
    assert!(rt; each_guess_fails(rt.alloc(), &q)?);
    Ok(())
}
