//! Problems: a pattern, a target, the kind of copy and of map, and an order of images, with the two tests by which a problem is a
//! binary constraint problem, and the test of a whole map. (C. McCreesh, P. Prosser, J. Trimble, "The Glasgow Subgraph Solver", 2020.)

ghost use Rattle.std.specs.Prelude.{◌≡◌, ◌<◌, ◌≤◌, ◌↔◌, ℕ, true, false, IsTrue, [], length, slice_index};
ghost use Rattle.graph_theory.specs.Graph.{size};
ghost use Rattle.graph_theory.specs.Embedding.{injective_problem, is_injective, differ, InOrder, Embeds, Allowed, Compatible, Matches};
ghost use Rattle.graph_theory.specs.Reversed.{AreMutual};
ghost use Rattle.graph_rows.specs.Fitting.{Fits, FitsFirst};
ghost use Rattle.graph_rows.specs.Orders.{IsOrder};
ghost use Rattle.graph_rows.specs.Sameness.{AskTheSame};

use crate::graph::Graph;
use crate::near::is_one_near_both;
use graph_theory::embedding::{Maps, embeds_by_pairs};
use std::marker::Model;

/// A pattern of at most 1,024 vertices, a target of at most 8,192, whether the copy is to be an induced one, which images have to differ
/// (any two in the induced kind), and at most 64 pairs of pattern vertices of which the first is to have the lesser image.
pub struct Problem {
    pattern: Graph,
    target: Graph,
    induced: bool,
    maps: Maps,
    less: Option<Vec<(u16, u16)>>,
}

impl Drop for Problem {
    /// In one call, for whoever lets one go.
    fn drop(self) {
        let Problem {
            pattern: _,
            target: _,
            induced: _,
            maps: _,
            less: _,
        } = self;
    }
}

impl Model for Problem {
    ghost use Rattle.std.specs.Prelude.{◌≤◌, ◌≡◌, true};
    ghost use Rattle.graph_theory.specs.Graph.{size as size_of};
    ghost use Rattle.graph_theory.specs.Embedding.{Problem as TheProblem, is_injective};
    ghost use Rattle.graph_theory.specs.PlainSteps.{pairs_of};
    ghost use Rattle.graph_rows.specs.Orders.{IsOrder};

    ghost Value = { TheProblem };

    ghost view = { λ q. record {
      pattern = q.pattern;
      target = q.target;
      induced = q.induced;
      maps = q.maps;
      less = pairs_of q.less;
    } };

    ghost invariant = { λ q. (size_of q.pattern ≤ 1024) × (size_of q.target ≤ 8192)
        × (q.induced ≡ true → is_injective q.maps ≡ true)
        × IsOrder (size_of q.pattern) (pairs_of q.less) };
}

impl Problem {
    /// The problem of injective maps between these graphs. It takes no memory.
    pub fn new(pattern: Graph, target: Graph, induced: bool) -> Problem
        requires pattern { size pattern ≤ 1024 }
        requires target { size target ≤ 8192 }
        ensures { result ≡ injective_problem pattern target induced }
    {
        Problem {
            pattern,
            target,
            induced,
            maps: Maps::Injective,
            less: None,
        }
    }

    /// The problem of maps of this kind between these graphs, whose copies need not be induced ones. It takes no memory.
    pub fn mapped(pattern: Graph, target: Graph, maps: Maps) -> Problem
        requires pattern { size pattern ≤ 1024 }
        requires target { size target ≤ 8192 }
        ensures { result ≡ record {
          pattern = pattern;
          target = target;
          induced = false;
          maps = maps;
          less = [];
        } }
    {
        Problem {
            pattern,
            target,
            induced: false,
            maps,
            less: None,
        }
    }

    /// The same problem, with these pairs of pattern vertices to be in order in place of those that it had.
    pub fn with_less(self, pairs: Vec<(u16, u16)>) -> Problem
        requires { IsOrder (size self.pattern) pairs.items }
        ensures { result ≡ record {
          pattern = self.pattern;
          target = self.target;
          induced = self.induced;
          maps = self.maps;
          less = pairs.items;
        } }
    {
        let Problem {
            pattern,
            target,
            induced,
            maps,
            less: _,
        } = self;
        Problem {
            pattern,
            target,
            induced,
            maps,
            less: Some(pairs),
        }
    }

    /// The graph that is looked for.
    pub fn pattern(&self) -> &Graph
        ensures pattern { result.now ≡ self.now.pattern }
        ensures few { size result.now ≤ 1024 }
    {
        &self.pattern
    }

    /// The graph that it is looked for in.
    pub fn target(&self) -> &Graph
        ensures target { result.now ≡ self.now.target }
        ensures few { size result.now ≤ 8192 }
    {
        &self.target
    }

    /// The graph that it is looked for in, taken out, for whoever looks for another pattern in it.
    pub fn into_target(self) -> Graph
        ensures target { result ≡ self.target }
        ensures few { size result ≤ 8192 }
    {
        let Problem {
            pattern: _,
            target,
            induced: _,
            maps: _,
            less: _,
        } = self;
        target
    }

    /// Whether the copy is to bring no edge that the pattern has not.
    pub fn induced(&self) -> bool
        ensures { result ≡ self.now.induced }
    {
        self.induced
    }

    /// Which images have to differ.
    pub fn maps(&self) -> Maps
        ensures maps { result ≡ self.now.maps }
        ensures injective { self.now.induced ≡ true → is_injective result ≡ true }
    {
        self.maps
    }

    /// The pairs of pattern vertices of which the first is to have the lesser image.
    pub fn less(&self) -> &[(u16, u16)]
        ensures pairs { result.now ≡ self.now.less }
        ensures order { IsOrder (size self.now.pattern) result.now }
    {
        match &self.less {
            Some(pairs) => pairs,
            None => &[],
        }
    }

    /// Whether the images of `p` and another vertex `r` have to differ. Cost: where the maps are local, that of the search for a vertex
    /// that is near both.
    pub fn differ(&self, p: u16, r: u16) -> bool
        requires p_in { p < size self.now.pattern }
        requires r_in { r < size self.now.pattern }
        ensures { result ≡ differ self.now p r }
    {
        match self.maps {
            Maps::Injective => true,
            Maps::Local => is_one_near_both(&self.pattern, p, r),
            Maps::Any => false,
        }
    }

    /// Whether edges are known to stand both ways in both graphs. Cost: four steps.
    pub fn is_mutual(&self) -> bool
        ensures { IsTrue result → AreMutual self.now }
    {
        self.pattern.is_mutual() && self.target.is_mutual()
    }

    /// Whether pattern vertex `p` may go to `t`, as far as label and loop tell. Cost: two words.
    pub fn allowed(&self, p: u16, t: u16) -> bool
        requires p_in { p < size self.now.pattern }
        requires t_in { t < size self.now.target }
        ensures { IsTrue result ↔ Allowed self.now p t }
    {
        self.target.label(t) == self.pattern.label(p)
            && matches(
                self.induced,
                self.pattern.loop_at(p),
                self.target.loop_at(t),
            )
    }

    /// Whether `p` at `t` and another vertex `r` at `u` go together. Cost: four words; where `t` is `u`, that of `differ` too.
    pub fn compatible(&self, p: u16, t: u16, r: u16, u: u16) -> bool
        requires p_in { p < size self.now.pattern }
        requires t_in { t < size self.now.target }
        requires r_in { r < size self.now.pattern }
        requires u_in { u < size self.now.target }
        ensures { IsTrue result ↔ Compatible self.now p t r u }
    {
        self.may_be_at(p, t, r, u)
            && matches(
                self.induced,
                self.pattern.edge(p, r),
                self.target.edge(t, u),
            )
            && matches(
                self.induced,
                self.pattern.edge(r, p),
                self.target.edge(u, t),
            )
    }

    /// Whether the places are two, or may be one.
    fn may_be_at(&self, p: u16, t: u16, r: u16, u: u16) -> bool
        requires p_in { p < size self.now.pattern }
        requires r_in { r < size self.now.pattern }
        ensures { IsTrue result ↔ (differ self.now p r ≡ true → t ≡ u → ⊥) }
    {
        t != u || !self.differ(p, r)
    }

    /// Whether the images of each pair that is to be in order are so. Cost: one step for each pair.
    fn is_in_order(&self, map: &[u32]) -> bool
        ensures { IsTrue result ↔ InOrder self.now.less map.now }
    {
        match &self.less {
            Some(pairs) => all_rise(map, pairs),
            None => true,
        }
    }

    /// Whether the list of images is an embedding; its length is part of that. It takes no memory, looks at each two
    /// pattern vertices once, and stops at the first that do not go together.
    pub fn is_embedding(&self, map: &[u32]) -> bool
        ensures { IsTrue result ↔ Embeds self.now map.now }
    {
        embeds_by_pairs();
        if map.len() != usize::from(self.pattern.size()) {
            return false;
        }
        if !self.is_in_order(map) {
            return false;
        }
        for p in 0..self.pattern.size() {
            if !self.fits(map, p) {
                return false;
            }
        }
        true
    }

    /// Whether the other problem has the same graphs, and asks the same of a map. Cost: the words of the rows.
    pub fn same(&self, other: &Problem) -> bool
        ensures { IsTrue result ↔ (self.now ≡ other.now) }
    {
        self.asks_the_same(other)
            && self.pattern.same(&other.pattern)
            && self.target.same(&other.target)
    }

    /// Whether the other problem is of the same kind, with the same pairs to be in order.
    fn asks_the_same(&self, other: &Problem) -> bool
        ensures { IsTrue result ↔ AskTheSame self.now other.now }
    {
        self.induced == other.induced
            && self.maps == other.maps
            && same_pairs(self.less(), other.less())
    }

    /// Whether the image of `p` is a target vertex that is allowed and goes together with the images before it.
    fn fits(&self, map: &[u32], p: u16) -> bool
        requires size_is { length map.now ≡ size self.now.pattern }
        requires p_in { p < size self.now.pattern }
        requires before { (r : ℕ) → r < p → slice_index map.now r < size self.now.target }
        ensures { IsTrue result ↔ Fits self.now map.now p }
    {
        let image = map[usize::from(p)];
        if image >= u32::from(self.target.size()) {
            return false;
        }
        let t = image as u16;
        self.allowed(p, t) && self.goes_with_all(map, p, t)
    }

    /// Whether `p` at `t` goes together with each vertex before it at its image.
    fn goes_with_all(&self, map: &[u32], p: u16, t: u16) -> bool
        requires size_is { length map.now ≡ size self.now.pattern }
        requires p_in { p < size self.now.pattern }
        requires t_in { t < size self.now.target }
        requires few { size self.now.target ≤ 8192 }
        requires before { (r : ℕ) → r < p → slice_index map.now r < size self.now.target }
        ensures { IsTrue result ↔ FitsFirst self.now map.now p t p }
    {
        for r in 0..p {
            let u = map[usize::from(r)] as u16;
            if !self.compatible(p, t, r, u) {
                return false;
            }
        }
        true
    }
}

/// Whether the two lists of pairs are one.
fn same_pairs(pairs: &[(u16, u16)], others: &[(u16, u16)]) -> bool
    ensures { IsTrue result ↔ (pairs.now ≡ others.now) }
{
    match (pairs, others) {
        ([], []) => true,
        ([(a, b), rest @ ..], [(c, d), more @ ..]) => a == c && b == d && same_pairs(rest, more),
        _ => false,
    }
}

/// Whether the images of each of these pairs are in order.
fn all_rise(map: &[u32], pairs: &[(u16, u16)]) -> bool
    ensures { IsTrue result ↔ InOrder pairs.now map.now }
{
    match pairs {
        [] => true,
        [(a, b), rest @ ..] => rises(map, usize::from(*a), usize::from(*b)) && all_rise(map, rest),
    }
}

/// Whether the image of `a` is below that of `b`, where both have one.
fn rises(map: &[u32], a: usize, b: usize) -> bool
    ensures { IsTrue result
        ↔ (a < length map.now → b < length map.now
        → slice_index map.now a < slice_index map.now b) }
{
    match (map.get(a), map.get(b)) {
        (Some(t), Some(u)) => t < u,
        _ => true,
    }
}

/// Whether a pattern edge and its image match, in the induced kind or the plain one.
fn matches(induced: bool, edge: Option<u32>, image: Option<u32>) -> bool
    ensures { IsTrue result ↔ Matches induced edge image }
{
    match (edge, image) {
        (Some(label), Some(other)) => label == other,
        (Some(_), None) => false,
        (None, Some(_)) => !induced,
        (None, None) => true,
    }
}
