//! The sets whose lines were made, with their names.

ghost use Rattle.std.specs.Prelude.{◌≡◌, ◌<◌, ◌++◌, ◌∷◌, [], true, length, IfOk, IfSome, OnErr, OnOk};
ghost use Rattle.log_theory.specs.LogText.{IsName};
ghost use Rattle.recorder.specs.Recording.{Adds, IsIn, IsPlaced};
ghost use Rattle.line_cache.specs.Sets.{counted, counted_at, HasName, with_set};

use dead_paths::BlockSet;
use log_theory::Name;
use recorder::Place;
use std::alloc::{AllocError, Global};
use std::collections::HashMap;
use std::marker::Model;

/// The centre of a set's block, where the set stands in the list of numbers, and the name of its line.
#[derive(Clone, Copy)]
pub(crate) struct Seat {
    centre: Option<u16>,
    place: Place,
    name: Name,
}

/// The names of the lines of sets, that is of vertices of a block that were counted together and their values. Contracts see the sets with their names.
/// A set is looked for under a number that is mixed of its members; where two sets have one number, only the later one is found.
pub(crate) struct SetNames {
    numbers: Vec<u16>,
    seats: Vec<Seat>,
    by_mixed: HashMap<u64, usize>,
}

impl Drop for SetNames {
    /// In one call, for whoever lets one go.
    fn drop(self) {
        let SetNames {
            numbers: _,
            seats: _,
            by_mixed: _,
        } = self;
    }
}

impl Model for SetNames {
    ghost use Rattle.std.specs.Prelude.{List, length};
    ghost use Rattle.log_theory.specs.declared.step.Name.{Name as TheName};
    ghost use Rattle.recorder.specs.Recording.{CountedSet};
    ghost use Rattle.line_cache.specs.Sets.{named_sets, AreSeated};

    ghost Value = { List (CountedSet × TheName) };

    ghost view = { λ s. named_sets s.numbers.items s.seats.items };

    ghost invariant = { λ s. AreSeated s.seats.items (length s.numbers.items) };
}

/// A number of a block: 0 of that of all vertices.
fn number_of(centre: Option<u16>) -> u64 {
    match centre {
        None => 0,
        Some(c) => u64::from(c) + 1,
    }
}

/// A number of a set; whatever it is, what is found under it is compared. Cost: one step for each vertex and value.
fn mixed(set: &BlockSet<'_>) -> u64 {
    let mut sum: u64 = 14695981039346656037 ^ number_of(set.centre);
    for p in set.vertices {
        sum = (sum ^ u64::from(*p)).wrapping_mul(1099511628211);
    }
    sum = (sum ^ 65536).wrapping_mul(1099511628211);
    for t in set.values {
        sum = (sum ^ u64::from(*t)).wrapping_mul(1099511628211);
    }
    sum
}

/// Whether the set at the seat is this one. Cost: up to the first difference, one step for each vertex and value.
fn is_there(numbers: &[u16], seat: Seat, set: &BlockSet<'_>) -> bool
    requires { IsIn seat.place (length numbers.now) }
    ensures { result ≡ true → counted_at numbers.now seat.centre seat.place
        ≡ counted set.now.centre set.now.vertices.now set.now.values.now }
{
    let place = seat.place;
    seat.centre == set.centre
        && &numbers[place.start..place.middle] == set.vertices
        && &numbers[place.middle..place.end] == set.values
}

/// Adds a set, its vertices and then its values. Where memory is refused, a part may stand behind the old numbers.
fn put_set(numbers: &mut Vec<u16>, vertices: &[u16], values: &[u16]) -> Result<Place, AllocError>
    ensures adds { Adds numbers.old.items numbers.new.items }
    ensures placed { IfOk result
        (IsPlaced numbers.old.items numbers.new.items vertices.now values.now) }
{
    let start = numbers.len();
    numbers.extend_from_slice(vertices)?;
    let middle = numbers.len();
    numbers.extend_from_slice(values)?;
    Ok(Place {
        start,
        middle,
        end: numbers.len(),
    })
}

impl SetNames {
    /// No set. It takes no memory.
    pub(crate) fn new(alloc: Global) -> SetNames
        ensures { result ≡ [] }
    {
        SetNames {
            numbers: Vec::new(alloc),
            seats: Vec::new(alloc),
            by_mixed: HashMap::new(alloc),
        }
    }

    /// The name of a set's line, where the set is found. Cost: one step for each of its vertices and values, however many sets
    /// there are.
    pub(crate) fn find(&self, set: &BlockSet<'_>) -> Option<Name>
        ensures name { IfSome result (HasName self.now
            (counted set.now.centre set.now.vertices.now set.now.values.now)) }
        ensures fits { IfSome result IsName }
    {
        let at = *self.by_mixed.get(&mixed(set))?;
        if at >= self.seats.len() {
            return None;
        }
        let seat = self.seats[at];
        if is_there(&self.numbers, seat, set) {
            Some(seat.name)
        } else {
            None
        }
    }

    /// Adds the name of a set's line. Cost: as that of `find`, and two bytes for each vertex and value.
    pub(crate) fn add(&mut self, set: &BlockSet<'_>, name: Name) -> Result<(), AllocError>
        requires { IsName name }
        ensures added { OnOk result (self.new ≡ with_set self.old
            (counted set.now.centre set.now.vertices.now set.now.values.now) name) }
        ensures refused { OnErr result (self.new ≡ self.old) }
    {
        let at = self.seats.len();
        let place = put_set(&mut self.numbers, set.vertices, set.values)?;
        self.by_mixed.insert(mixed(set), at)?;
        self.seats.push(Seat {
            centre: set.centre,
            place,
            name,
        })?;
        Ok(())
    }
}
