//! Marks in bit rows: how the rows of a graph are written from the lists of a text.

ghost use Rattle.std.specs.Prelude.{◌≡◌, ℕ, ◌+◌, ◌*◌, ◌<◌, ◌≤◌, false, length};
ghost use Rattle.lad_reader.specs.Parts.{AreBelow};
ghost use Rattle.bit_rows.specs.BitRows.{has, words_for};
ghost use Rattle.graph_rows.specs.Held.{marked, AreMarks, AreUnmarked, AreLoops, AddsMark, AddsListed, AddsOut, AddsIn, said, either_said};

use bit_rows::{has_bit, set_bit};
use lad_reader::NeighbourLists;

/// Whether `b` is marked in the row of `a`.
pub(crate) fn is_marked(words: &[u64], width: usize, a: usize, b: usize) -> bool
    requires narrow { width ≤ 128 }
    requires from { a < 8192 }
    requires to { b < 8192 }
    requires within { a * (64 * width) + b < 64 * length words.now }
    ensures { result ≡ marked words.now width a b }
{
    has_bit(words, a * (64 * width) + b)
}

/// Marks `b` in the row of `a`, and counts it there where it is a new neighbour.
fn mark(words: &mut [u64], degrees: &mut [u16], width: usize, a: usize, b: usize)
    requires marks { AreMarks (length degrees.old) width words.old degrees.old }
    requires from { a < length degrees.old }
    requires to { b < length degrees.old }
    ensures marks { AreMarks (length degrees.old) width words.new degrees.new }
    ensures added { AddsMark width words.old words.new a b }
{
    let place = a * (64 * width) + b;
    let is_new = !has_bit(words, place);
    set_bit(words, place);
    if is_new && a != b {
        degrees[a] += 1;
    }
}

/// Marks an edge between `a` and each vertex that it lists.
fn mark_listed(words: &mut [u64], degrees: &mut [u16], width: usize, a: usize, listed: &[u32])
    requires marks { AreMarks (length degrees.old) width words.old degrees.old }
    requires from { a < length degrees.old }
    requires to { AreBelow (length degrees.old) listed.now }
    ensures marks { AreMarks (length degrees.old) width words.new degrees.new }
    ensures added { AddsListed width words.old words.new a listed.now }
{
    for b in listed {
        mark(words, degrees, width, a, *b as usize);
        mark(words, degrees, width, *b as usize, a);
    }
}

/// Marks the edges that the lists say, in rows without marks.
pub(crate) fn mark_all(
    words: &mut [u64],
    degrees: &mut [u16],
    width: usize,
    neighbours: &NeighbourLists,
)
    requires { AreUnmarked (length degrees.old) width words.old degrees.old neighbours.now }
    ensures marks { AreMarks (length degrees.old) width words.new degrees.new }
    ensures said { (x y : ℕ) → x < 64 * width → y < 64 * width
        → marked words.new width x y ≡ either_said neighbours.now x y }
{
    for a in 0..neighbours.len() {
        mark_listed(words, degrees, width, a, neighbours.of(a));
    }
}

/// Marks an edge from `a` to each vertex that it lists.
fn mark_out(words: &mut [u64], degrees: &mut [u16], width: usize, a: usize, listed: &[u32])
    requires marks { AreMarks (length degrees.old) width words.old degrees.old }
    requires from { a < length degrees.old }
    requires to { AreBelow (length degrees.old) listed.now }
    ensures marks { AreMarks (length degrees.old) width words.new degrees.new }
    ensures added { AddsOut width words.old words.new a listed.now }
{
    for b in listed {
        mark(words, degrees, width, a, *b as usize);
    }
}

/// Marks an edge from each vertex that it lists to `a`.
fn mark_in(words: &mut [u64], degrees: &mut [u16], width: usize, a: usize, listed: &[u32])
    requires marks { AreMarks (length degrees.old) width words.old degrees.old }
    requires from { a < length degrees.old }
    requires to { AreBelow (length degrees.old) listed.now }
    ensures marks { AreMarks (length degrees.old) width words.new degrees.new }
    ensures added { AddsIn width words.old words.new a listed.now }
{
    for near in listed {
        mark(words, degrees, width, *near as usize, a);
    }
}

/// Marks the edges that lead from each vertex to those that it lists, in rows without marks.
pub(crate) fn mark_all_out(
    words: &mut [u64],
    degrees: &mut [u16],
    width: usize,
    neighbours: &NeighbourLists,
)
    requires { AreUnmarked (length degrees.old) width words.old degrees.old neighbours.now }
    ensures marks { AreMarks (length degrees.old) width words.new degrees.new }
    ensures said { (x y : ℕ) → x < 64 * width → y < 64 * width
        → marked words.new width x y ≡ said neighbours.now x y }
{
    for a in 0..neighbours.len() {
        mark_out(words, degrees, width, a, neighbours.of(a));
    }
}

/// Marks in the row of each vertex those that list it, in rows without marks.
pub(crate) fn mark_all_in(
    words: &mut [u64],
    degrees: &mut [u16],
    width: usize,
    neighbours: &NeighbourLists,
)
    requires { AreUnmarked (length degrees.old) width words.old degrees.old neighbours.now }
    ensures marks { AreMarks (length degrees.old) width words.new degrees.new }
    ensures said { (x y : ℕ) → x < 64 * width → y < 64 * width
        → marked words.new width x y ≡ said neighbours.now y x }
{
    for a in 0..neighbours.len() {
        mark_in(words, degrees, width, a, neighbours.of(a));
    }
}

/// Puts the vertices that are marked in their own row into an empty row. Cost: one word for each vertex.
pub(crate) fn gather_loops(words: &[u64], width: usize, size: usize, loops: &mut [u64])
    requires width_is { width ≡ words_for size }
    requires few { size ≤ 8192 }
    requires words_are { length words.now ≡ size * width }
    requires long { length loops.old ≡ width }
    requires empty { (v : ℕ) → has loops.old v ≡ false }
    ensures { AreLoops size width words.now loops.new }
{
    for a in 0..size {
        if is_marked(words, width, a, a) {
            set_bit(loops, a);
        }
    }
}
