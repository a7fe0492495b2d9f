//! Texts with labels of edges. Beside the words the reader keeps for each vertex who listed it last and with which label, so that a
//! pair that is listed again with another label is found in one step.

ghost use Rattle.std.specs.Prelude.{◌≡◌, ℕ, ◌<◌, [], ◌∷◌, ◌++◌, length, slice_index, IfOk, IfErr, OnOk};
ghost use Rattle.graph_theory.specs.LadFault.{OnWord};
ghost use Rattle.graph_theory.specs.Progress.{WentListed, StopsListed, WentVertex, StopsVertex, WentVertices, StopsVertices};
ghost use Rattle.lad_reader.specs.Parts.{with_labels, labelled_from, vertices_of};
ghost use Rattle.lad_reader.specs.Given.{given_label, AreStamped, IsBegun};

use crate::parts::{EdgeLabels, GraphParts, Labels, NeighbourLists};
use crate::words_left::Words;
use graph_theory::lad_text::{LadFault, LadKind, Place};
use packed_lists::PackedLists;
use std::alloc::{AllocError, Global};

/// The label that the owner of a stamp gave to a vertex, or none.
fn given(stamps: &[u32], labels: &[u32], stamp: u32, b: u32) -> Option<u32>
    requires stamps { b < length stamps.now }
    requires labels { b < length labels.now }
    ensures { result ≡ given_label stamps.now labels.now stamp b }
{
    if stamps[b as usize] == stamp {
        Some(labels[b as usize])
    } else {
        None
    }
}

/// The neighbours that vertices list, and the labels of the edges to them.
struct Listed {
    neighbours: PackedLists<u32>,
    labels: PackedLists<u32>,
}

impl Drop for Listed {
    /// In one call, for whoever lets one go.
    fn drop(self) {
        let Listed {
            neighbours: _,
            labels: _,
        } = self;
    }
}

impl Listed {
    /// Writes a neighbour and the label of the edge to it behind the lists.
    fn push(&mut self, neighbour: u32, label: u32) -> Result<(), AllocError>
        ensures neighbours { OnOk result
            (self.new.neighbours.rest ≡ self.old.neighbours.rest ++ neighbour ∷ []) }
        ensures labels { OnOk result (self.new.labels.rest ≡ self.old.labels.rest ++ label ∷ []) }
        ensures lists { OnOk result (self.new.neighbours.lists ≡ self.old.neighbours.lists) }
        ensures edges { OnOk result (self.new.labels.lists ≡ self.old.labels.lists) }
    {
        self.neighbours.push(neighbour)?;
        self.labels.push(label)?;
        Ok(())
    }

    /// The parts of a text with these labels of vertices and the lists that are closed.
    fn into_parts(self, labels: Vec<u32>) -> GraphParts
        ensures vertices { vertices_of result
            ≡ labelled_from labels.items self.neighbours.lists self.labels.lists }
        ensures kind { result.kind ≡ LadKind.LabelledLad }
        ensures labels { result.labels ≡ labels.items }
        ensures neighbours { result.neighbours ≡ self.neighbours.lists }
    {
        let Listed {
            neighbours,
            labels: edge_labels,
        } = self;
        GraphParts {
            kind: LadKind::LabelledLad,
            labels: Labels::from_vec(labels),
            neighbours: NeighbourLists::from_lists(neighbours),
            edge_labels: EdgeLabels::from_lists(edge_labels),
        }
    }

    /// Closes the lists of a vertex.
    fn close(&mut self) -> Result<(), AllocError>
        ensures lists { OnOk result
            (self.new.neighbours.lists ≡ self.old.neighbours.lists ++ self.old.neighbours.rest ∷ []) }
        ensures edges { OnOk result
            (self.new.labels.lists ≡ self.old.labels.lists ++ self.old.labels.rest ∷ []) }
        ensures begun { OnOk result (IsBegun self.new.neighbours.rest self.new.labels.rest) }
    {
        self.neighbours.close()?;
        self.labels.close()?;
        Ok(())
    }
}

/// Reads the neighbours of the owner of a stamp, and the labels of the edges to them, and writes these behind the lists.
fn read_neighbours(
    words: &mut Words,
    size: u32,
    due: u32,
    stamp: u32,
    stamps: &mut [u32],
    labels: &mut [u32],
    listed: &mut Listed,
) -> Result<(), LadFault>
    requires stamps { length stamps.old ≡ size }
    requires labels { length labels.old ≡ size }
    requires new { (b : ℕ) → slice_index stamps.old b < stamp }
    requires begun { IsBegun listed.old.neighbours.rest listed.old.labels.rest }
    ensures found { OnOk result
        (WentListed LadKind.LabelledLad size due words.old words.new
        (with_labels listed.new.neighbours.rest listed.new.labels.rest)) }
    ensures lists { OnOk result (listed.new.neighbours.lists ≡ listed.old.neighbours.lists) }
    ensures edges { OnOk result (listed.new.labels.lists ≡ listed.old.labels.lists) }
    ensures stamped { OnOk result (AreStamped stamp stamps.new) }
    ensures fault { IfErr result
        (λ e. OnWord e (StopsListed LadKind.LabelledLad size due words.old)) }
{
    for _i in 0..due {
        let neighbour = words.take(Place::Neighbour(size))?;
        let earlier = given(stamps, labels, stamp, neighbour);
        let label = words.take(Place::EdgeLabel(earlier))?;
        stamps[neighbour as usize] = stamp;
        labels[neighbour as usize] = label;
        listed.push(neighbour, label)?;
    }
    Ok(())
}

/// Reads the vertices. Room is taken first for so many as the text can have, with three neighbours each.
fn read_vertices(
    alloc: Global,
    words: &mut Words,
    size: u32,
    stamps: &mut [u32],
    given: &mut [u32],
) -> Result<GraphParts, LadFault>
    requires stamps { length stamps.old ≡ size }
    requires labels { length given.old ≡ size }
    requires new { AreStamped 0 stamps.old }
    ensures found { IfOk result
        (λ p. WentVertices LadKind.LabelledLad size size words.old words.new (vertices_of p)) }
    ensures lengths { IfOk result (λ p. length p.labels ≡ length p.neighbours) }
    ensures kind { IfOk result (λ p. p.kind ≡ LadKind.LabelledLad) }
    ensures fault { IfErr result
        (λ e. OnWord e (StopsVertices LadKind.LabelledLad size size words.old)) }
{
    let count = words.room(size);
    let mut labels = Vec::with_capacity(alloc, count)?;
    let mut listed = Listed {
        neighbours: PackedLists::with_capacity(alloc, count, 3 * count)?,
        labels: PackedLists::with_capacity(alloc, count, 3 * count)?,
    };
    for i in 0..size {
        let label = read_vertex(words, size, i + 1, stamps, given, &mut listed)?;
        labels.push(label)?;
        listed.close()?;
    }
    Ok(listed.into_parts(labels))
}

/// Reads a vertex: its label, its neighbours, and the labels of the edges to these.
fn read_vertex(
    words: &mut Words,
    size: u32,
    stamp: u32,
    stamps: &mut [u32],
    given: &mut [u32],
    listed: &mut Listed,
) -> Result<u32, LadFault>
    requires stamps { length stamps.old ≡ size }
    requires labels { length given.old ≡ size }
    requires new { (b : ℕ) → slice_index stamps.old b < stamp }
    requires begun { IsBegun listed.old.neighbours.rest listed.old.labels.rest }
    ensures found { IfOk result
        (λ label. WentVertex LadKind.LabelledLad size words.old words.new
        (record { label = label; listed = with_labels listed.new.neighbours.rest listed.new.labels.rest })) }
    ensures lists { OnOk result (listed.new.neighbours.lists ≡ listed.old.neighbours.lists) }
    ensures edges { OnOk result (listed.new.labels.lists ≡ listed.old.labels.lists) }
    ensures stamped { OnOk result (AreStamped stamp stamps.new) }
    ensures fault { IfErr result
        (λ e. OnWord e (StopsVertex LadKind.LabelledLad size words.old)) }
{
    let label = words.take(Place::Number)?;
    let due = words.take(Place::Number)?;
    read_neighbours(words, size, due, stamp, stamps, given, listed)?;
    Ok(label)
}

/// Reads the parts of a text with labels of edges. It takes two words for each vertex first.
pub(crate) fn read_labelled(
    alloc: Global,
    words: &mut Words,
    size: u32,
) -> Result<GraphParts, LadFault>
    ensures found { IfOk result
        (λ p. WentVertices LadKind.LabelledLad size size words.old words.new (vertices_of p)) }
    ensures lengths { IfOk result (λ p. length p.labels ≡ length p.neighbours) }
    ensures kind { IfOk result (λ p. p.kind ≡ LadKind.LabelledLad) }
    ensures fault { IfErr result
        (λ e. OnWord e (StopsVertices LadKind.LabelledLad size size words.old)) }
{
    let mut stamps = vec![in alloc; 0u32; size as usize]?;
    let mut given = vec![in alloc; 0u32; size as usize]?;
    read_vertices(alloc, words, size, &mut stamps, &mut given)
}
