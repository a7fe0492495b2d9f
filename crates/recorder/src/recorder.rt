//! Who is told of each change of the domains.
//!
//! A recorder hears why values left, once for each domain and cause that took something, and how much had left before. It keeps this
//! until the domains are undone to before it. A search that writes no proof tells `Silent`, which costs nothing; `Causes` keeps the
//! changes, so that a dead path can be explained after the fact by those that it rests on.

ghost use Rattle.std.specs.Prelude.{◌≡◌, ℕ, ◌≤◌, false, List, Option, None, length};
ghost use Rattle.recorder.specs.Telling.{TellingLaws};

use crate::change::Cause;
use domain_bits::Mark;
use graph_theory::direction::Direction;
use std::alloc::Global;

/// Hears of each change of the domains.
pub trait Recorder: Drop {
    ghost use Rattle.recorder.specs.Recording.{Change, CountedSet, LeftOne, LeftOthers, LeftOver, Took, KeepsSame, KeepsShort, cut_at, members_of};

    ghost changes: { Self → Option (List Change) };

    ghost short: { Self → Option CountedSet };

    /// Whether anything is kept of what is told. Who tells a set asks it first, since the values of a set are united for this alone. Cost: one step.
    fn listens(&self) -> bool
        ensures { result ≡ false → changes self.now ≡ None };

    /// Values left the domain of the vertex.
    fn took(&mut self, vertex: u16, cause: Cause, from: Mark)
        ensures { Took (changes self.old) (changes self.new) (LeftOne vertex cause from) };

    /// The values that these vertices have together, as the row holds them, left all other domains of the block of the centre, or of all
    /// vertices.
    fn counted(&mut self, centre: Option<u16>, vertices: &[u16], row: &[u64], from: Mark)
        requires { length row.now ≤ 1024 }
        ensures { Took (changes self.old) (changes self.new) (LeftOthers centre vertices.now
            (members_of row.now) from) };

    /// By injective maps the value left the domain of the vertex, since to the vertices of the one row edges lead from it in the direction, and they have
    /// no other values than those of the second row, too few, among the ones to which edges lead from the value.
    fn crowded(
        &mut self,
        vertex: u16,
        value: u16,
        direction: Direction,
        vertices: &[u64],
        values: &[u64],
        from: Mark,
    )
        requires vertices { length vertices.now ≤ 1024 }
        requires values { length values.now ≤ 1024 }
        ensures { Took (changes self.old) (changes self.new) (LeftOver vertex value direction
            (members_of vertices.now) (members_of values.now) from) };

    /// These vertices, of the block of the centre or of all vertices, have fewer values together, as the row holds them, than there are of
    /// them.
    fn found_short(&mut self, centre: Option<u16>, vertices: &[u16], row: &[u64])
        requires { length row.now ≤ 1024 }
        ensures same { KeepsSame (changes self.old) (changes self.new) }
        ensures kept { KeepsShort (changes self.new) (short self.new)
            (record { centre = centre; vertices = vertices.now; values = members_of row.now }) };

    /// The domains were undone to the mark.
    fn forget_to(&mut self, mark: Mark)
        ensures { changes self.new ≡ cut_at mark (changes self.old) };

    /// Another that was told the same, and hears of other domains from then on. Where memory is refused it keeps nothing. Cost: one step
    /// for each change that is kept.
    fn copy(&self, alloc: Global) -> Self
        ensures { KeepsSame (changes self.now) (changes result) };
}

/// That what is told stays true where domains are undone, and where each nogood keeps its name: where watches move, or others are added.
pub fn telling_laws()
    ensures { TellingLaws }
{}

/// Keeps nothing. Cost: none.
#[derive(Drop)]
pub struct Silent;

impl Recorder for Silent {
    ghost changes = { λ _. None };

    ghost short = { λ _. None };

    fn listens(&self) -> bool {
        false
    }

    fn took(&mut self, _vertex: u16, _cause: Cause, _from: Mark) {}

    fn counted(&mut self, _centre: Option<u16>, _vertices: &[u16], _row: &[u64], _from: Mark) {}

    fn crowded(
        &mut self,
        _vertex: u16,
        _value: u16,
        _direction: Direction,
        _vertices: &[u64],
        _values: &[u64],
        _from: Mark,
    ) {}

    fn found_short(&mut self, _centre: Option<u16>, _vertices: &[u16], _row: &[u64]) {}

    fn forget_to(&mut self, _mark: Mark) {}

    fn copy(&self, _alloc: Global) -> Silent {
        Silent
    }
}
