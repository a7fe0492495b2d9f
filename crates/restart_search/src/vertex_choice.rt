//! The choice of the vertex to guess a value for: the smallest domain first, and the most neighbours in either direction among equals.

ghost use Rattle.std.specs.Prelude.{◌≡◌, ℕ, ◌<◌, true, false, None, IfSome, IfNone};
ghost use Rattle.graph_theory.specs.Graph.{size};
ghost use Rattle.graph_theory.specs.Path.{NotOn};
ghost use Rattle.domain_bits.specs.Removals.{in_domain};
ghost use Rattle.search_theory.specs.Account.{path, IsAt};
ghost use Rattle.search_theory.specs.Claims.{Single, Quiet};
ghost use Rattle.recorder.specs.Telling.{IsOf};
ghost use Rattle.propagation.specs.Propagation.{LeavesPast};
ghost use Rattle.restart_search.specs.Searching.{AtRest, IsBest, IsFirstUndecided, IsNextBest, ComesFirst, IsUndecided};

use crate::degrees::either_degree;
use domain_bits::{Domains, Trail};
use fail_account::Account;
use graph_rows::Problem;
use sparse_set::SparseSet;

/// The vertex with the smallest domain of more than one value; of these the one of the most neighbours in either direction, and then
/// the least. Cost: one step for each vertex that is not past.
fn smallest<T: Trail>(q: &Problem, d: &Domains<T>, undecided: &SparseSet) -> Option<u16>
    requires is_of { IsOf q.now d.now }
    requires quiet { Quiet q.now (in_domain d.now) }
    requires left { LeavesPast q.now d.now undecided.now }
    ensures { IsBest q.now d.now result (size q.now.pattern) }
{
    let members = undecided.members();
    let mut best: Option<u16> = None;
    for k in 0..members.len() {
        best = better(q, d, members[k], best);
    }
    best
}

/// The better of the best vertex so far and `p`, which counts only if it is undecided.
fn better<T: Trail>(q: &Problem, d: &Domains<T>, p: u16, best: Option<u16>) -> Option<u16>
    requires is_of { IsOf q.now d.now }
    requires p_in { p < size q.now.pattern }
    requires so_far { IfSome best (IsUndecided d.now) }
    ensures some { IfSome result (IsUndecided d.now) }
    ensures next { IfSome result (IsNextBest q.now d.now p best) }
    ensures none { IfNone result ((best ≡ None) × ((t : ℕ) × Single (in_domain d.now) p t)) }
{
    if d.size(p) == 1 {
        return best;
    }
    Some(first_of(q, d, p, best))
}

/// Which of `p` and the best vertex so far comes first; `p` where there is none.
fn first_of<T: Trail>(q: &Problem, d: &Domains<T>, p: u16, best: Option<u16>) -> u16
    requires is_of { IsOf q.now d.now }
    requires undecided { IsUndecided d.now p }
    requires so_far { IfSome best (IsUndecided d.now) }
    ensures undecided { IsUndecided d.now result }
    ensures next { IsNextBest q.now d.now p best result }
{
    match best {
        None => p,
        Some(r) => { if comes_first(q, d, p, r) { p } else { r } }
    }
}

/// Whether `p` has a smaller domain than `r`, or an equal one and more neighbours in either direction, or these alike and the lesser
/// number.
fn comes_first<T: Trail>(q: &Problem, d: &Domains<T>, p: u16, r: u16) -> bool
    requires is_of { IsOf q.now d.now }
    requires p_in { p < size q.now.pattern }
    requires r_in { r < size q.now.pattern }
    ensures first { result ≡ true → ComesFirst q.now d.now p r }
    ensures not_first { result ≡ false → ComesFirst q.now d.now p r → ⊥ }
{
    let size = d.size(p);
    let least = d.size(r);
    if size != least {
        return size < least;
    }
    let degree = either_degree(q.pattern(), p);
    let greatest = either_degree(q.pattern(), r);
    degree > greatest || (degree == greatest && p < r)
}

/// The vertex of the level after the path: the one that it has, or for a fresh level the one of the smallest domain of
/// more than one value; none where each domain has one value.
pub(crate) fn level_vertex<T: Trail>(
    q: &Problem,
    d: &Domains<T>,
    undecided: &SparseSet,
    account: &Account,
) -> Option<u16>
    requires is_of { IsOf q.now d.now }
    requires rest { AtRest q.now (path account.now) d.now }
    requires left { LeavesPast q.now d.now undecided.now }
    requires sizes { account.now.pattern ≡ size q.now.pattern }
    ensures some { IfSome result
        (λ p. (p < size q.now.pattern) × NotOn (path account.now) p × IsAt account.now.vertex p) }
    ensures fresh { account.now.vertex ≡ None → IfSome result (IsFirstUndecided q.now d.now) }
    ensures none { IfNone result
        ((p : ℕ) → p < size q.now.pattern → (t : ℕ) × Single (in_domain d.now) p t) }
{
    match account.vertex() {
        Some(p) => Some(p),
        None => smallest(q, d, undecided),
    }
}
