//! A LAD text read plainly, for reference: all its words are made numbers first, and then these are gone over.
ghost use Rattle.std.specs.Prelude.{◌≡◌, ℕ, ◌+◌, ◌≤◌, List, [], ◌∷◌, length, map, drop, Some, None, IfOk, IfErr, MatchResult};
ghost use Rattle.graph_theory.specs.Text.{words, number_of};
ghost use Rattle.graph_theory.specs.Lad.{Vertex, HasLabel, label_numbers, edge_label_numbers, listed_label as listed_label_of, Reads};
ghost use Rattle.graph_theory.specs.LadFault.{refused_at, Fault, OnWord};
ghost use Rattle.graph_theory.specs.Progress.{At, IsOpen, Went, StopsAt, MayFollow, StopsAtLabel, WentListed, StopsListed, WentVertex, StopsVertex, WentVertices, StopsVertices};

use crate::lad_text::{LadCause, LadFault, LadKind, Place, refusal, text_laws};
use crate::text_words::numbers_in;
use std::alloc::Global;
use std::marker::Model;

/// What a text says of a vertex.
#[derive(Drop)]
pub struct ListedVertex {
    label: u32,
    listed: Vec<(u32, u32)>,
}

impl Model for ListedVertex {
    ghost Value = { Vertex };

    ghost view = { λ v. record { label = v.label; listed = v.listed.items } };
}

impl ListedVertex {
    /// The vertex's label, 0 in a format without labels.
    pub fn label(&self) -> u32
        ensures { result ≡ self.now.label }
    {
        self.label
    }

    /// The neighbours as listed, each with the label of the edge to it, 0 in a format without such labels.
    pub fn listed(&self) -> &[(u32, u32)]
        ensures { result.now ≡ self.now.listed }
    {
        &self.listed
    }
}

/// What is left of the numbers of a text.
#[derive(Drop)]
struct NumbersLeft<'a> {
    numbers: &'a [Option<u32>],
    taken: usize,
}

impl<'a> Model for NumbersLeft<'a> {
    ghost Value = { At };

    ghost view = { λ s. (drop s.taken s.numbers.now, s.taken) };

    ghost invariant = { λ s. s.taken ≤ length s.numbers.now };
}

impl<'a> NumbersLeft<'a> {
    fn new(numbers: &'a [Option<u32>]) -> Self
        ensures { result ≡ (numbers.entry.now, 0) }
    {
        NumbersLeft { numbers, taken: 0 }
    }

    /// The fault of the next word.
    fn fault(&self, cause: LadCause) -> LadFault
        ensures { OnWord result (λ w d. (w ≡ self.now.1 + 1) × (d ≡ cause)) }
    {
        LadFault::Word {
            word: self.taken as u64 + 1,
            cause,
        }
    }

    /// Takes the number that is due.
    fn take(&mut self, due: Place) -> Result<u32, LadFault>
        requires { IsOpen due }
        ensures ok { IfOk result
            (λ n. Went self.old self.new (n ∷ []) × (refused_at due (Some (Some n)) ≡ None)) }
        ensures err { IfErr result (λ e. OnWord e (StopsAt self.old [] due)) }
    {
        if self.taken == self.numbers.len() {
            return Err(self.fault(LadCause::EndsEarly));
        }
        let Some(number) = self.numbers[self.taken] else {
            return Err(self.fault(LadCause::NotNumber));
        };
        match refusal(due, number) {
            Some(cause) => Err(self.fault(cause)),
            None => {
                self.taken += 1;
                Ok(number)
            }
        }
    }

    /// Whether nothing is left.
    fn finish(&self) -> Result<(), LadFault>
        ensures ok { IfOk result (λ _. self.now.0 ≡ []) }
        ensures err { IfErr result (λ e. OnWord e (StopsAt self.now [] Place.End)) }
    {
        if self.taken == self.numbers.len() {
            Ok(())
        } else {
            Err(self.fault(LadCause::WordsLeft))
        }
    }
}

/// The label with which `b` stands in a list of neighbours. Cost: the length of the list.
pub(crate) fn listed_label(listed: &[(u32, u32)], b: usize) -> Option<u32>
    ensures { result ≡ listed_label_of listed.now b }
{
    for entry in listed {
        if entry.0 as usize == b {
            return Some(entry.1);
        }
    }
    None
}

/// Reads the label of the edge to a neighbour, which comes after these, where the format has one.
fn read_edge_label(
    left: &mut NumbersLeft,
    kind: LadKind,
    listed: &[(u32, u32)],
    neighbour: u32,
) -> Result<u32, LadFault>
    ensures found { IfOk result
        (λ label. MayFollow kind listed.now neighbour label
        × Went left.old left.new (edge_label_numbers kind label)) }
    ensures fault { IfErr result
        (λ e. OnWord e (StopsAtLabel kind listed.now neighbour left.old)) }
{
    match kind {
        LadKind::Lad | LadKind::VertexLabelledLad | LadKind::DirectedLad => Ok(0),
        LadKind::LabelledLad => {
            left.take(Place::EdgeLabel(listed_label(listed, neighbour as usize)))
        }
    }
}

/// Reads the neighbours of a vertex.
fn read_listed(
    alloc: Global,
    left: &mut NumbersLeft,
    kind: LadKind,
    size: u32,
    due: u32,
) -> Result<Vec<(u32, u32)>, LadFault>
    ensures found { IfOk result
        (λ listed. WentListed kind size due left.old left.new listed.items) }
    ensures fault { IfErr result (λ e. OnWord e (StopsListed kind size due left.old)) }
{
    let mut listed = Vec::new(alloc);
    for _i in 0..due {
        let neighbour = left.take(Place::Neighbour(size))?;
        let label = read_edge_label(left, kind, &listed, neighbour)?;
        listed.push((neighbour, label))?;
    }
    Ok(listed)
}

/// Reads the label of a vertex, where the format has one.
fn read_label(left: &mut NumbersLeft, kind: LadKind) -> Result<u32, LadFault>
    ensures found { IfOk result
        (λ label. HasLabel kind label × Went left.old left.new (label_numbers kind label)) }
    ensures fault { IfErr result (λ e. OnWord e (StopsAt left.old [] Place.Number)) }
{
    match kind {
        LadKind::Lad | LadKind::DirectedLad => Ok(0),
        LadKind::VertexLabelledLad | LadKind::LabelledLad => left.take(Place::Number),
    }
}

/// Reads a vertex.
fn read_vertex(
    alloc: Global,
    left: &mut NumbersLeft,
    kind: LadKind,
    size: u32,
) -> Result<ListedVertex, LadFault>
    ensures found { IfOk result (WentVertex kind size left.old left.new) }
    ensures fault { IfErr result (λ e. OnWord e (StopsVertex kind size left.old)) }
{
    let label = read_label(left, kind)?;
    let due = left.take(Place::Number)?;
    let listed = read_listed(alloc, left, kind, size, due)?;
    Ok(ListedVertex { label, listed })
}

/// Reads the vertices.
fn read_vertices(
    alloc: Global,
    left: &mut NumbersLeft,
    kind: LadKind,
    size: u32,
) -> Result<Vec<ListedVertex>, LadFault>
    ensures found { IfOk result (λ vs. WentVertices kind size size left.old left.new vs.items) }
    ensures fault { IfErr result (λ e. OnWord e (StopsVertices kind size size left.old)) }
{
    let mut vertices = Vec::new(alloc);
    for _i in 0..size {
        vertices.push(read_vertex(alloc, left, kind, size)?)?;
    }
    Ok(vertices)
}

/// Reads a text's numbers.
fn read_text(
    alloc: Global,
    numbers: &[Option<u32>],
    kind: LadKind,
    limit: u32,
) -> Result<Vec<ListedVertex>, LadFault>
    ensures found { (ws : List (List ℕ)) → numbers.now ≡ map number_of ws
        → IfOk result (λ vs. Reads ws kind limit vs.items) }
    ensures fault { (ws : List (List ℕ)) → numbers.now ≡ map number_of ws
        → IfErr result (λ e. OnWord e (Fault ws kind limit)) }
{
    let mut left = NumbersLeft::new(numbers);
    let size = left.take(Place::Size(limit))?;
    let vertices = read_vertices(alloc, &mut left, kind, size)?;
    left.finish()?;
    Ok(vertices)
}

/// The vertices that a text of at most `limit` vertices says, or its first faulty word.
///
/// It holds all words of the text at once; a reader of large files goes over the bytes instead.
pub fn vertices_in(
    alloc: Global,
    bytes: &[u8],
    kind: LadKind,
    limit: u32,
) -> Result<Vec<ListedVertex>, LadFault>
    ensures found { IfOk result (λ vs. Reads (words bytes.now) kind limit vs.items) }
    ensures fault { IfErr result (λ e. OnWord e (Fault (words bytes.now) kind limit)) }
    ensures only { (vs : List Vertex) → Reads (words bytes.now) kind limit vs
        → MatchResult result (λ found. found.items ≡ vs) (λ e. e ≡ LadFault.NoMemory) }
    ensures fault_only { (w : ℕ) (cause : LadCause) → Fault (words bytes.now) kind limit w cause
        → MatchResult result (λ _. ⊥) (λ e. OnWord e (λ v d. (v ≡ w) × (d ≡ cause))) }
{
    text_laws();
    let numbers = numbers_in(alloc, bytes)?;
    read_text(alloc, &numbers, kind, limit)
}
