//! The plain tests of a mapping and of a path: over all pairs of vertices, and over all mappings. For small inputs.

ghost use Rattle.std.specs.Prelude.{◌≡◌, ◌<◌, ◌≤◌, ◌↔◌, ◌++◌, ◌&&◌, ◌||◌, [], IsTrue, IfOk, OnOk, OnErr, true, false, not, is_some, nat_lt, length, slice_index};
ghost use Rattle.graph_theory.specs.Graph.{size, edge};
ghost use Rattle.graph_theory.specs.Neighbours.{count, is_near};
ghost use Rattle.graph_theory.specs.Embedding.{injective_problem, near_both, differ, InOrder, Embeds, Matches};
ghost use Rattle.graph_theory.specs.Path.{Extends, Dead};
ghost use Rattle.graph_theory.specs.PlainSteps.{IsImage, AreImages, PairIsKept, RowIsKept, RowsAreKept, Completes};

use crate::embedding::Maps;
use crate::listed_graph::ListedGraph;
use std::alloc::{AllocError, Global};
use std::marker::Model;

/// A pattern, a target, whether the copy is to be an induced one, which images have to differ, and which are to be in order.
#[derive(Drop)]
pub struct ListedProblem {
    pattern: ListedGraph,
    target: ListedGraph,
    induced: bool,
    maps: Maps,
    less: Option<Vec<(u32, u32)>>,
}

impl Model for ListedProblem {
    ghost use Rattle.graph_theory.specs.Embedding.{Problem};
    ghost use Rattle.graph_theory.specs.PlainSteps.{pairs_of};

    ghost Value = { Problem };

    ghost view = { λ q. record {
      pattern = q.pattern;
      target = q.target;
      induced = q.induced;
      maps = q.maps;
      less = pairs_of q.less;
    } };
}

impl ListedProblem {
    /// The problem of injective maps between these graphs.
    pub fn new(pattern: ListedGraph, target: ListedGraph, induced: bool) -> ListedProblem
        ensures { result ≡ injective_problem pattern target induced }
    {
        ListedProblem {
            pattern,
            target,
            induced,
            maps: Maps::Injective,
            less: None,
        }
    }

    /// The problem of maps of this kind between these graphs. The copy need not be an induced one.
    pub fn mapped(pattern: ListedGraph, target: ListedGraph, maps: Maps) -> ListedProblem
        ensures { result ≡ record {
          pattern = pattern;
          target = target;
          induced = false;
          maps = maps;
          less = [];
        } }
    {
        ListedProblem {
            pattern,
            target,
            induced: false,
            maps,
            less: None,
        }
    }

    /// The same problem, with these pairs of pattern vertices to be in order in place of those that it had.
    pub fn with_less(self, less: Vec<(u32, u32)>) -> ListedProblem
        ensures { result ≡ record {
          pattern = self.pattern;
          target = self.target;
          induced = self.induced;
          maps = self.maps;
          less = less.items;
        } }
    {
        ListedProblem {
            pattern: self.pattern,
            target: self.target,
            induced: self.induced,
            maps: self.maps,
            less: Some(less),
        }
    }

    /// Whether the images of `p` and another vertex `r` have to differ. By local maps it looks at each vertex that both may be near.
    fn differ(&self, p: usize, r: usize) -> bool
        requires p_in { p < size self.now.pattern }
        requires r_in { r < size self.now.pattern }
        ensures { result ≡ differ self.now p r }
    {
        match self.maps {
            Maps::Injective => true,
            Maps::Local => is_one_near_both(&self.pattern, p, r),
            Maps::Any => false,
        }
    }

    /// Whether vertex `p` may go to `t` by its label.
    fn is_image(&self, p: usize, t: usize) -> bool
        requires { p < size self.now.pattern }
        ensures { IsTrue result ↔ IsImage self.now p t }
    {
        t < self.target.size() && self.target.label(t) == self.pattern.label(p)
    }

    /// Whether each vertex has an image of its label.
    fn are_images(&self, map: &[u32]) -> bool
        requires { length map.now ≡ size self.now.pattern }
        ensures { IsTrue result ↔ AreImages self.now map.now }
    {
        for p in 0..self.pattern.size() {
            if !self.is_image(p, map[p] as usize) {
                return false;
            }
        }
        true
    }

    /// Whether the images of `p` and `r` are apart where these are and have to differ, and keep the edge from `p` to `r`.
    fn pair_is_kept(&self, map: &[u32], p: usize, r: usize) -> bool
        requires size_is { length map.now ≡ size self.now.pattern }
        requires images { AreImages self.now map.now }
        requires p_in { p < size self.now.pattern }
        requires r_in { r < size self.now.pattern }
        ensures { IsTrue result ↔ PairIsKept self.now map.now p r }
    {
        let t = map[p] as usize;
        let u = map[r] as usize;
        (p == r || t != u || !self.differ(p, r))
            && matches(
                self.induced,
                self.pattern.edge(p, r),
                self.target.edge(t, u),
            )
    }

    /// Whether the image of `p` is right beside that of each vertex.
    fn row_is_kept(&self, map: &[u32], p: usize) -> bool
        requires size_is { length map.now ≡ size self.now.pattern }
        requires images { AreImages self.now map.now }
        requires p_in { p < size self.now.pattern }
        ensures { IsTrue result ↔ RowIsKept self.now map.now p }
    {
        for r in 0..self.pattern.size() {
            if !self.pair_is_kept(map, p, r) {
                return false;
            }
        }
        true
    }

    /// Whether each image is right beside each.
    fn rows_are_kept(&self, map: &[u32]) -> bool
        requires size_is { length map.now ≡ size self.now.pattern }
        requires images { AreImages self.now map.now }
        ensures { IsTrue result ↔ RowsAreKept self.now map.now }
    {
        for p in 0..self.pattern.size() {
            if !self.row_is_kept(map, p) {
                return false;
            }
        }
        true
    }

    /// Whether the images of each pair that is to be in order are so.
    fn is_in_order(&self, map: &[u32]) -> bool
        ensures { IsTrue result ↔ InOrder self.now.less map.now }
    {
        match &self.less {
            Some(less) => all_rise(map, less),
            None => true,
        }
    }

    /// Whether the list of images is an embedding. It looks at each pair of pattern vertices.
    pub fn is_embedding(&self, map: &[u32]) -> bool
        ensures { IsTrue result ↔ Embeds self.now map.now }
    {
        if map.len() != self.pattern.size() {
            return false;
        }
        if !self.are_images(map) {
            return false;
        }
        self.is_in_order(map) && self.rows_are_kept(map)
    }

    /// Whether some embedding begins with these images and has each pair of the path. It tries all that may follow.
    fn completes(&self, path: &[(u32, u32)], map: &mut Vec<u32>) -> Result<bool, AllocError>
        requires { length map.old.items ≤ size self.now.pattern }
        ensures same { OnOk result (map.new.items ≡ map.old.items) }
        ensures found { IfOk result (λ b. IsTrue b → Completes self.now path.now map.old.items) }
        ensures none { IfOk result
            (λ b. b ≡ false → Completes self.now path.now map.old.items → ⊥) }
    {
        if map.len() == self.pattern.size() {
            return Ok(has_each(map, path) && self.is_embedding(map));
        }
        for t in 0..self.target.size() as u32 {
            map.push(t)?;
            let found = self.completes(path, map)?;
            let _ = map.pop();
            if found {
                return Ok(true);
            }
        }
        Ok(false)
    }

    /// Whether no embedding has each pair of the path. It tries all mappings.
    pub fn is_dead(&self, alloc: Global, path: &[(u32, u32)]) -> Result<bool, AllocError>
        ensures { IfOk result (λ b. IsTrue b ↔ Dead self.now path.now) }
    {
        let mut map = Vec::new(alloc);
        let found = self.completes(path, &mut map)?;
        Ok(!found)
    }
}

/// Whether an edge stands between `a` and another vertex `b`.
fn is_near(g: &ListedGraph, a: usize, b: usize) -> bool
    requires a_in { a < size g.now }
    requires b_in { b < size g.now }
    ensures { result ≡ is_near g.now a b }
{
    a != b && (g.edge(a, b).is_some() || g.edge(b, a).is_some())
}

/// Whether both vertices are near this one.
fn are_near(g: &ListedGraph, p: usize, r: usize, c: usize) -> bool
    requires p_in { p < size g.now }
    requires r_in { r < size g.now }
    requires c_in { c < size g.now }
    ensures { result ≡ near_both g.now p r c }
{
    is_near(g, c, p) && is_near(g, c, r)
}

/// Whether both vertices are near some vertex.
fn is_one_near_both(g: &ListedGraph, p: usize, r: usize) -> bool
    requires p_in { p < size g.now }
    requires r_in { r < size g.now }
    ensures { result ≡ nat_lt 0 (count (near_both g.now p r) (size g.now)) }
{
    for c in 0..g.size() {
        if are_near(g, p, r, c) {
            return true;
        }
    }
    false
}

/// Whether the images of each of these pairs are in order.
fn all_rise(map: &[u32], less: &[(u32, u32)]) -> bool
    ensures { IsTrue result ↔ InOrder less.now map.now }
{
    match less {
        [] => true,
        [(a, b), rest @ ..] => rises(map, *a as usize, *b as usize) && all_rise(map, rest),
    }
}

/// Whether the image of `a` is below that of `b`, where both have one.
fn rises(map: &[u32], a: usize, b: usize) -> bool
    ensures { IsTrue result
        ↔ (a < length map.now → b < length map.now
        → slice_index map.now a < slice_index map.now b) }
{
    match (map.get(a), map.get(b)) {
        (Some(t), Some(u)) => t < u,
        _ => true,
    }
}

/// Whether the list has each pair of the path.
fn has_each(map: &[u32], path: &[(u32, u32)]) -> bool
    ensures { IsTrue result ↔ Extends path.now map.now }
{
    match path {
        [] => true,
        [(p, t), rest @ ..] => image_is(map, *p as usize, *t) && has_each(map, rest),
    }
}

/// Whether the list has `t` at `p`.
fn image_is(map: &[u32], p: usize, t: u32) -> bool
    ensures { IsTrue result ↔ ((p < length map.now) × (slice_index map.now p ≡ t)) }
{
    match map.get(p) {
        Some(image) => *image == t,
        None => false,
    }
}

/// Whether a pattern edge and its image match, in the induced kind or the plain one.
fn matches(induced: bool, edge: Option<u32>, image: Option<u32>) -> bool
    ensures { IsTrue result ↔ Matches induced edge image }
{
    match (edge, image) {
        (Some(label), Some(other)) => label == other,
        (Some(_), None) => false,
        (None, Some(_)) => !induced,
        (None, None) => true,
    }
}
