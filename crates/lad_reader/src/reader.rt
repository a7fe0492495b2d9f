//! One pass over the bytes of a text. Each call takes the words that are due; a fault carries the word's number.
ghost use Rattle.std.specs.Prelude.{◌≡◌, ℕ, ◌+◌, ◌^◌, ◌<◌, ◌≤◌, List, [], ◌∷◌, length, map, Some, IfOk, IfErr, OnOk, MatchResult};
ghost use Rattle.graph_theory.specs.Text.{words};
ghost use Rattle.graph_theory.specs.Lad.{Vertex, HasLabel, label_numbers, Reads};
ghost use Rattle.graph_theory.specs.LadFault.{Fault, OnWord};
ghost use Rattle.graph_theory.specs.declared.lad_text.LadCause.{LadCause};
ghost use Rattle.graph_theory.specs.Progress.{Went, StopsAt, WentListed, StopsListed, WentVertex, StopsVertex, WentVertices, StopsVertices};
ghost use Rattle.lad_reader.specs.Parts.{unlabelled, vertices_from, vertices_of, WritesNoEdgeLabels, AllBelow};

use crate::labelled::read_labelled;
use crate::parts::{EdgeLabels, GraphParts, Labels, NeighbourLists};
use crate::words_left::Words;
use graph_theory::lad_text::{LadFault, LadKind, Place, text_laws};
use packed_lists::PackedLists;
use std::alloc::Global;

/// Reads the label of a vertex, where the format has one.
fn read_label(words: &mut Words, kind: LadKind) -> Result<u32, LadFault>
    ensures found { IfOk result
        (λ label. HasLabel kind label × Went words.old words.new (label_numbers kind label)) }
    ensures fault { IfErr result (λ e. OnWord e (StopsAt words.old [] Place.Number)) }
{
    match kind {
        LadKind::Lad | LadKind::DirectedLad => Ok(0),
        LadKind::VertexLabelledLad | LadKind::LabelledLad => words.take(Place::Number),
    }
}

/// Reads the neighbours of a vertex in a format without labels of edges, and writes them behind the lists. Further memory is taken for
/// those alone whose words are there.
fn read_neighbours(
    words: &mut Words,
    size: u32,
    due: u32,
    lists: &mut PackedLists<u32>,
) -> Result<(), LadFault>
    requires begun { lists.old.rest ≡ [] }
    ensures found { (kind : LadKind) → WritesNoEdgeLabels kind
        → OnOk result (WentListed kind size due words.old words.new (map unlabelled lists.new.rest)) }
    ensures lists { OnOk result (lists.new.lists ≡ lists.old.lists) }
    ensures fault { (kind : LadKind)
        → WritesNoEdgeLabels kind
        → IfErr result (λ e. OnWord e (StopsListed kind size due words.old)) }
{
    for _i in 0..due {
        let neighbour = words.take(Place::Neighbour(size))?;
        lists.push(neighbour)?;
    }
    Ok(())
}

/// Reads a vertex: its label and its neighbours, which it writes behind the lists.
fn read_vertex(
    words: &mut Words,
    kind: LadKind,
    size: u32,
    lists: &mut PackedLists<u32>,
) -> Result<u32, LadFault>
    requires kind { WritesNoEdgeLabels kind }
    requires begun { lists.old.rest ≡ [] }
    ensures found { IfOk result
        (λ label. WentVertex kind size words.old words.new
        (record { label = label; listed = map unlabelled lists.new.rest })) }
    ensures lists { OnOk result (lists.new.lists ≡ lists.old.lists) }
    ensures fault { IfErr result (λ e. OnWord e (StopsVertex kind size words.old)) }
{
    let label = read_label(words, kind)?;
    let due = words.take(Place::Number)?;
    read_neighbours(words, size, due, lists)?;
    Ok(label)
}

/// Reads the vertices of a text without labels of edges: their labels, and the neighbours that they list. Room is taken first for so
/// many as the text can have, with three neighbours each.
fn read_vertices(
    alloc: Global,
    words: &mut Words,
    kind: LadKind,
    size: u32,
) -> Result<(Vec<u32>, PackedLists<u32>), LadFault>
    requires { WritesNoEdgeLabels kind }
    ensures found { IfOk result
        (λ p. WentVertices kind size size words.old words.new
        (vertices_from p.0.items p.1.lists)) }
    ensures lengths { IfOk result (λ p. length p.0.items ≡ length p.1.lists) }
    ensures fault { IfErr result (λ e. OnWord e (StopsVertices kind size size words.old)) }
{
    let count = words.room(size);
    let mut labels = Vec::with_capacity(alloc, count)?;
    let mut lists = PackedLists::with_capacity(alloc, count, 3 * count)?;
    for _i in 0..size {
        let label = read_vertex(words, kind, size, &mut lists)?;
        labels.push(label)?;
        lists.close()?;
    }
    Ok((labels, lists))
}

/// Reads the parts of a text without labels of edges.
fn read_unlabelled(
    alloc: Global,
    words: &mut Words,
    kind: LadKind,
    size: u32,
) -> Result<GraphParts, LadFault>
    requires { WritesNoEdgeLabels kind }
    ensures found { IfOk result
        (λ p. WentVertices kind size size words.old words.new (vertices_of p)) }
    ensures lengths { IfOk result (λ p. length p.labels ≡ length p.neighbours) }
    ensures kind { IfOk result (λ p. p.kind ≡ kind) }
    ensures fault { IfErr result (λ e. OnWord e (StopsVertices kind size size words.old)) }
{
    let (labels, lists) = read_vertices(alloc, words, kind, size)?;
    Ok(GraphParts {
        kind,
        labels: Labels::from_vec(labels),
        neighbours: NeighbourLists::from_lists(lists),
        edge_labels: EdgeLabels::none(alloc),
    })
}

/// Reads the parts of a text.
fn read_parts(
    alloc: Global,
    words: &mut Words,
    kind: LadKind,
    size: u32,
) -> Result<GraphParts, LadFault>
    ensures found { IfOk result
        (λ p. WentVertices kind size size words.old words.new (vertices_of p)) }
    ensures lengths { IfOk result (λ p. length p.labels ≡ length p.neighbours) }
    ensures kind { IfOk result (λ p. p.kind ≡ kind) }
    ensures fault { IfErr result (λ e. OnWord e (StopsVertices kind size size words.old)) }
{
    match kind {
        LadKind::Lad => read_unlabelled(alloc, words, LadKind::Lad, size),
        LadKind::VertexLabelledLad => {
            read_unlabelled(alloc, words, LadKind::VertexLabelledLad, size)
        }
        LadKind::DirectedLad => read_unlabelled(alloc, words, LadKind::DirectedLad, size),
        LadKind::LabelledLad => read_labelled(alloc, words, size),
    }
}

/// Reads a text.
fn read_text(alloc: Global, bytes: &[u8], kind: LadKind, most: u32) -> Result<GraphParts, LadFault>
    ensures lengths { IfOk result (λ p. length p.labels ≡ length p.neighbours) }
    ensures kind { IfOk result (λ p. p.kind ≡ kind) }
    ensures found { IfOk result (λ p. Reads (words bytes.now) kind most (vertices_of p)) }
    ensures fault { IfErr result (λ e. OnWord e (Fault (words bytes.now) kind most)) }
{
    let mut words = Words::new(bytes);
    let size = words.take(Place::Size(most))?;
    let parts = read_parts(alloc, &mut words, kind, size)?;
    words.finish()?;
    Ok(parts)
}

/// What the text says, or its first faulty word: a graph of at most `most` vertices.
///
/// It goes over the bytes once, in time linear in their number. It takes memory for words that it has read, and first for vertices: 24 bytes for
/// each that the text announces, but no more than 12 for each of its bytes; with labels of edges 44 and 22, and 8 for each that it announces, of
/// which there are at most `most`.
pub fn read_lad(
    alloc: Global,
    bytes: &[u8],
    kind: LadKind,
    most: u32,
) -> Result<GraphParts, LadFault>
    ensures lengths { IfOk result (λ p. length p.labels ≡ length p.neighbours) }
    ensures few { IfOk result (λ p. length p.labels ≤ most) }
    ensures kind { IfOk result (λ p. p.kind ≡ kind) }
    ensures below { IfOk result (λ p. AllBelow (length p.labels) p.neighbours) }

    ensures found { IfOk result (λ p. Reads (words bytes.now) kind most (vertices_of p)) }
    ensures fault { IfErr result (λ e. OnWord e (Fault (words bytes.now) kind most)) }

    // A text has one reading or one first fault, so each is answered where it stands.
    ensures only { (vs : List Vertex) → Reads (words bytes.now) kind most vs
        → MatchResult result (λ p. vertices_of p ≡ vs) (λ e. e ≡ LadFault.NoMemory) }
    ensures fault_only { (w : ℕ) (cause : LadCause) → Fault (words bytes.now) kind most w cause
        → MatchResult result (λ _. ⊥) (λ e. OnWord e (λ v d. (v ≡ w) × (d ≡ cause))) }
{
    text_laws();
    read_text(alloc, bytes, kind, most)
}
