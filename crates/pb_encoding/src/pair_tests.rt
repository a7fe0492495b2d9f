//! The tests by which the groups of the encoding go, over bit rows.

ghost use Rattle.std.specs.Prelude.{◌≡◌, ◌<◌, ◌&&◌};
ghost use Rattle.graph_theory.specs.Graph.{size, edge};
ghost use Rattle.encoding_theory.specs.Pairs.{is_kept as is_kept_edge, is_match as is_match_edge, is_open as is_open_pair, is_compatible as is_compatible_pair, is_edge_pair as is_edge, is_non_edge_pair as is_non_edge};
ghost use Rattle.encoding_theory.specs.Encoding.{is_refused as is_refused_pair};

use encoding_theory::tests_are_exact;
use graph_rows::Problem;
use graph_theory::embedding::Maps;

/// Whether the pair is not allowed by itself. Cost: two words.
pub(crate) fn is_refused(q: &Problem, p: u16, t: u16) -> bool
    requires p_in { p < size q.now.pattern }
    requires t_in { t < size q.now.target }
    ensures { result ≡ is_refused_pair q.now p t }
{
    tests_are_exact();
    !q.allowed(p, t)
}

/// Whether `u` is right for `r` where `p` goes to `t`. Cost: four words, and with labels of edges those of two edges and
/// their images.
pub(crate) fn is_compatible(q: &Problem, p: u16, t: u16, r: u16, u: u16) -> bool
    requires p_in { p < size q.now.pattern }
    requires t_in { t < size q.now.target }
    requires r_in { r < size q.now.pattern }
    requires u_in { u < size q.now.target }
    ensures { result ≡ is_compatible_pair q.now p t r u }
{
    is_open(q, t, u) && edges_agree(q, p, t, r, u)
}

/// Whether the places are two, or need not be since the maps are not injective.
pub(crate) fn is_open(q: &Problem, t: u16, u: u16) -> bool
    ensures { result ≡ is_open_pair q.now t u }
{
    match q.maps() {
        Maps::Injective => t != u,
        Maps::Local => true,
        Maps::Any => true,
    }
}

/// Whether the edges between `p` and `r` agree with those between `t` and `u`.
fn edges_agree(q: &Problem, p: u16, t: u16, r: u16, u: u16) -> bool
    requires p_in { p < size q.now.pattern }
    requires t_in { t < size q.now.target }
    requires r_in { r < size q.now.pattern }
    requires u_in { u < size q.now.target }
    ensures { result
        ≡ (is_match_edge q.now.induced (edge q.now.pattern p r) (edge q.now.target t u)
        && is_match_edge q.now.induced (edge q.now.pattern r p) (edge q.now.target u t)) }
{
    let induced = q.induced();
    is_match(induced, q.pattern().edge(p, r), q.target().edge(t, u))
        && is_match(induced, q.pattern().edge(r, p), q.target().edge(u, t))
}

/// Whether a pattern edge and its image agree.
fn is_match(induced: bool, edge: Option<u32>, image: Option<u32>) -> bool
    ensures { result ≡ is_match_edge induced edge image }
{
    if induced {
        is_kept(edge, image) && is_kept(image, edge)
    } else {
        is_kept(edge, image)
    }
}

/// Whether the second edge stands where the first does, with its label.
fn is_kept(edge: Option<u32>, image: Option<u32>) -> bool
    ensures { result ≡ is_kept_edge edge image }
{
    match (edge, image) {
        (None, _) => true,
        (Some(_), None) => false,
        (Some(label), Some(other)) => other == label,
    }
}

/// Whether the two vertices have an edge between them, in either direction. Cost: two words.
pub fn is_edge_pair(q: &Problem, p: u16, r: u16) -> bool
    requires p_in { p < size q.now.pattern }
    requires r_in { r < size q.now.pattern }
    ensures { result ≡ is_edge q.now p r }
{
    let pattern = q.pattern();
    p != r && (pattern.has_edge(p, r) || pattern.has_edge(r, p))
}

/// Whether they have none, and are to have none between their images. Cost: two words.
pub fn is_non_edge_pair(q: &Problem, p: u16, r: u16) -> bool
    requires p_in { p < size q.now.pattern }
    requires r_in { r < size q.now.pattern }
    ensures { result ≡ is_non_edge q.now p r }
{
    let pattern = q.pattern();
    q.induced() && p != r && !pattern.has_edge(p, r) && !pattern.has_edge(r, p)
}
