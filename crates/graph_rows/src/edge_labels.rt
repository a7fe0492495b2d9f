//! The labels of edges, kept beside those edges that stand: a vertex's in the order of the vertices that its edges lead to.

ghost use Rattle.std.specs.Prelude.{◌≡◌, ℕ, ◌*◌, ◌<◌, ◌≤◌, ◌++◌, [], true, length, map, IfOk, OnOk, slice_index};
ghost use Rattle.graph_theory.specs.Neighbours.{members};
ghost use Rattle.graph_theory.specs.declared.lad_text.LadKind.TheVariants.{LabelledLad};
ghost use Rattle.lad_reader.specs.Parts.{AreBelow, AllBelow, WritesNoEdgeLabels};
ghost use Rattle.bit_rows.specs.BitRows.{has, words_for};
ghost use Rattle.graph_rows.specs.Held.{marked, said, AreBeside, AreFirst, AreListed};

use bit_rows::{count_ones, next_member};
use lad_reader::{GraphParts, LadKind};
use std::alloc::{AllocError, Global};

/// Where the labels of each vertex's edges begin, and all labels, those of one vertex after those of another. Four bytes for each vertex
/// and for each edge; nothing where no labels are kept.
#[derive(Drop)]
pub(crate) struct EdgeLabels {
    pub(crate) starts: Vec<u32>,
    pub(crate) labels: Vec<u32>,
}

impl EdgeLabels {
    /// No labels.
    pub(crate) fn none(alloc: Global) -> EdgeLabels
        ensures starts { result.starts.items ≡ [] }
        ensures labels { result.labels.items ≡ [] }
    {
        EdgeLabels {
            starts: Vec::new(alloc),
            labels: Vec::new(alloc),
        }
    }
}

/// The labels of a text's edges beside their marks, none where its format has none. Cost: linear in the listed neighbours and in the words
/// of the rows.
pub(crate) fn labels_beside(
    alloc: Global,
    parts: &GraphParts,
    words: &[u64],
    width: usize,
) -> Result<EdgeLabels, AllocError>
    requires few { length parts.now.neighbours ≤ 8192 }
    requires width_is { width ≡ words_for (length parts.now.neighbours) }
    requires words_are { length words.now ≡ length parts.now.neighbours * width }
    requires to { AllBelow (length parts.now.neighbours) parts.now.neighbours }
    requires said { (x y : ℕ) → x < 64 * width → y < 64 * width
        → marked words.now width x y ≡ said parts.now.neighbours x y }
    ensures none { WritesNoEdgeLabels parts.now.kind → IfOk result (λ e. e.starts.items ≡ []) }
    ensures no_labels { WritesNoEdgeLabels parts.now.kind
        → IfOk result (λ e. e.labels.items ≡ []) }
    ensures beside { IfOk result (λ e. AreBeside
        (length parts.now.neighbours) width words.now e.starts.items e.labels.items) }
    ensures listed { parts.now.kind ≡ LabelledLad → IfOk result (λ e. AreListed
        (length parts.now.neighbours) width words.now e.starts.items e.labels.items
        parts.now.neighbours parts.now.edge_labels) }
{
    match parts.kind {
        LadKind::LabelledLad => gather(alloc, parts, words, width),
        LadKind::Lad | LadKind::VertexLabelledLad | LadKind::DirectedLad => {
            Ok(EdgeLabels::none(alloc))
        }
    }
}

/// Gathers the labels of all edges, vertex by vertex.
fn gather(
    alloc: Global,
    parts: &GraphParts,
    words: &[u64],
    width: usize,
) -> Result<EdgeLabels, AllocError>
    requires few { length parts.now.neighbours ≤ 8192 }
    requires width_is { width ≡ words_for (length parts.now.neighbours) }
    requires words_are { length words.now ≡ length parts.now.neighbours * width }
    requires to { AllBelow (length parts.now.neighbours) parts.now.neighbours }
    requires said { (x y : ℕ) → x < 64 * width → y < 64 * width
        → marked words.now width x y ≡ said parts.now.neighbours x y }
    ensures beside { IfOk result (λ e. AreBeside
        (length parts.now.neighbours) width words.now e.starts.items e.labels.items) }
    ensures listed { IfOk result (λ e. AreListed
        (length parts.now.neighbours) width words.now e.starts.items e.labels.items
        parts.now.neighbours parts.now.edge_labels) }
{
    let size = parts.neighbours.len();
    let mut found = vec![in alloc; 0u32; size]?;
    let mut starts = Vec::with_capacity(alloc, size)?;
    let mut labels = Vec::with_capacity(alloc, count_ones(words) as usize)?;
    for a in 0..size {
        starts.push(labels.len() as u32)?;
        put_listed(&mut found, parts.neighbours.of(a), parts.edge_labels.of(a));
        let from = a * width;
        add_members(&words[from..from + width], &found, &mut labels)?;
    }
    Ok(EdgeLabels { starts, labels })
}

/// Writes at each listed vertex the label of the edge to it, from the last on, so that the first stays where one is listed again. What stands
/// at other vertices is of no meaning.
fn put_listed(found: &mut [u32], listed: &[u32], labels: &[u32])
    requires to { AreBelow (length found.old) listed.now }
    ensures long { length found.new ≡ length found.old }
    ensures first { AreFirst listed.now labels.now found.new }
{
    let mut i = listed.len();
    while i > 0 {
        i -= 1;
        found[listed[i] as usize] = label_or_zero(labels, i);
    }
}

/// The label at a place, or 0 past the last one.
fn label_or_zero(labels: &[u32], i: usize) -> u32
    ensures { result ≡ slice_index labels.now i }
{
    match labels.get(i) {
        Some(label) => *label,
        None => 0,
    }
}

/// Adds what was found at each member of the row, rising.
fn add_members(row: &[u64], found: &[u32], labels: &mut Vec<u32>) -> Result<(), AllocError>
    requires short { length row.now ≤ 128 }
    requires within { (v : ℕ) → has row.now v ≡ true → v < length found.now }
    ensures { OnOk result (labels.new.items ≡ labels.old.items ++ map
        (λ v. slice_index found.now v) (members (has row.now) (64 * length row.now))) }
{
    let mut v = next_member(row, 0);
    while v < 64 * row.len() {
        labels.push(found[v])?;
        v = next_member(row, v + 1);
    }
    Ok(())
}
