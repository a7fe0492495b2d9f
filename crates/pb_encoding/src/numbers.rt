//! Pairs by number, kept as rising lists: the k-th pair is one read, and how many stand before a pair is one binary search.

ghost use Rattle.std.specs.Prelude.{◌≡◌, ◌<◌, ◌++◌, ◌∷◌, [], if◌then◌else◌, ℕ, ◌≤◌, length, slice_get, slice_index, Contains, IfOk, OnOk, IfSome, IfNone, Some};
ghost use Rattle.graph_theory.specs.Graph.{size};
ghost use Rattle.graph_theory.specs.Neighbours.{count, members, is_near as is_near_to};
ghost use Rattle.graph_theory.specs.Blocks.{has_near as has_near_two};
ghost use Rattle.pb_encoding.specs.Numbers.{refused_numbers as refused_numbers_of, edge_numbers as edge_numbers_of, non_edge_numbers as non_edge_numbers_of, centres as centres_of};

use crate::pair_tests::{is_edge_pair, is_non_edge_pair, is_refused};
use graph_rows::near::is_near;
use graph_rows::{Graph, Problem};
use graph_theory::embedding::Maps;
use std::alloc::{AllocError, Global};

/// Puts the number at the end where the test is passed.
fn push_where(out: &mut Vec<u32>, passes: bool, number: u32) -> Result<(), AllocError>
    ensures { OnOk result (out.new.items ≡ out.old.items ++ (if passes then number ∷ [] else [])) }
{
    if passes {
        out.push(number)?;
    }
    Ok(())
}

/// The numbers of the refused pairs. Cost: one test for each pair.
pub(crate) fn refused_numbers(alloc: Global, q: &Problem) -> Result<Vec<u32>, AllocError>
    ensures { IfOk result (λ v. v.items ≡ refused_numbers_of q.now) }
{
    let width = u32::from(q.target().size());
    let count = u32::from(q.pattern().size()) * width;
    let mut out = Vec::new(alloc);
    for number in 0..count {
        let passes = is_refused(q, (number / width) as u16, (number % width) as u16);
        push_where(&mut out, passes, number)?;
    }
    Ok(out)
}

/// The numbers of the pairs with an edge. Cost: one test for each pair.
pub(crate) fn edge_numbers(alloc: Global, q: &Problem) -> Result<Vec<u32>, AllocError>
    ensures { IfOk result (λ v. v.items ≡ edge_numbers_of q.now) }
{
    let width = u32::from(q.pattern().size());
    let mut out = Vec::new(alloc);
    for number in 0..width * width {
        let passes = is_edge_pair(q, (number / width) as u16, (number % width) as u16);
        push_where(&mut out, passes, number)?;
    }
    Ok(out)
}

/// The numbers of the pairs without one, in the induced kind. Cost: one test for each pair.
pub(crate) fn non_edge_numbers(alloc: Global, q: &Problem) -> Result<Vec<u32>, AllocError>
    ensures { IfOk result (λ v. v.items ≡ non_edge_numbers_of q.now) }
{
    let width = u32::from(q.pattern().size());
    let mut out = Vec::new(alloc);
    for number in 0..width * width {
        let passes = is_non_edge_pair(q, (number / width) as u16, (number % width) as u16);
        push_where(&mut out, passes, number)?;
    }
    Ok(out)
}

/// How many vertices are near `c`. Cost: two words for each vertex.
fn near_count(g: &Graph, c: u16) -> u16
    requires { c < size g.now }
    ensures { result ≡ count (is_near_to g.now c) (size g.now) }
{
    let mut near = 0;
    for b in 0..g.size() {
        if is_near(g, c, b) {
            near += 1;
        }
    }
    near
}

/// Whether two vertices at least are near `c`.
fn has_two_near(g: &Graph, c: u16) -> bool
    requires { c < size g.now }
    ensures { result ≡ has_near_two g.now c }
{
    near_count(g, c) > 1
}

/// The vertices that two at least are near to. Cost: two words for each pair of vertices.
fn near_centres(alloc: Global, g: &Graph) -> Result<Vec<u32>, AllocError>
    ensures { IfOk result (λ v. v.items ≡ members (has_near_two g.now) (size g.now)) }
{
    let mut out = Vec::new(alloc);
    for c in 0..g.size() {
        let passes = has_two_near(g, c);
        push_where(&mut out, passes, u32::from(c))?;
    }
    Ok(out)
}

/// The centres of blocks. Cost: by local maps that of their search, else nothing.
pub(crate) fn centres(alloc: Global, q: &Problem) -> Result<Vec<u32>, AllocError>
    ensures { IfOk result (λ v. v.items ≡ centres_of q.now) }
{
    match q.maps() {
        Maps::Injective => Ok(Vec::new(alloc)),
        Maps::Local => near_centres(alloc, q.pattern()),
        Maps::Any => Ok(Vec::new(alloc)),
    }
}

/// Where the number stands in a rising list, or none where it does not. Cost: logarithmic.
pub(crate) fn place_of(numbers: &[u32], number: u32) -> Option<usize>
    requires { (i j : ℕ) → i ≤ j → j < length numbers.now
        → slice_index numbers.now i ≤ slice_index numbers.now j }
    ensures found { IfSome result (λ k. slice_get numbers.now k ≡ Some number) }
    ensures none { IfNone result ((k : ℕ) → ¬ (slice_get numbers.now k ≡ Some number)) }
{
    numbers.binary_search(&number).ok()
}

/// Where a number that stands in a rising list stands there. Cost: logarithmic.
pub(crate) fn place_in(numbers: &[u32], number: u32) -> u64
    requires rise { (i j : ℕ) → i ≤ j → j < length numbers.now
        → slice_index numbers.now i ≤ slice_index numbers.now j }
    requires there { Contains numbers.now number }
    ensures { slice_get numbers.now result ≡ Some number }
{
    match place_of(numbers, number) {
        Some(place) => place as u64,
        None => unreachable!(),
    }
}
