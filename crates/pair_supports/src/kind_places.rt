//! Where kinds stand among those that occur, with a first guess for each.

ghost use Rattle.std.specs.Prelude.{◌≡◌, ℕ, ◌+◌, ◌^◌, ◌<◌, ◌≤◌, IsTrue, IfOk, IfSome, Some, length, slice_get};
ghost use Rattle.pair_supports.specs.Kinds.{KindsStay};

use crate::kinds::PairKind;
use std::alloc::AllocError;

/// How many first guesses are kept of where a kind stands.
pub(crate) const GUESSES: usize = 256;

/// The place of the kind, which is added where it is new. The guess for it is looked at first, and is that place from then on.
pub(crate) fn place_of(
    kinds: &mut Vec<PairKind>,
    kind: PairKind,
    guesses: &mut [u32],
) -> Result<u32, AllocError>
    requires few { length kinds.old.items < 2 ^ 32 }
    requires guesses { length guesses.old ≡ 256 }
    ensures found { IfOk result (λ i. slice_get kinds.new.items i ≡ Some kind) }
    ensures stay { KindsStay kinds.old.items kinds.new.items }
    ensures more { length kinds.new.items ≤ length kinds.old.items + 1 }
{
    let guess = remainder(kind);
    let first = guesses[guess];
    if is_at(kinds, first, kind) {
        return Ok(first);
    }
    let place = find_or_add(kinds, kind)?;
    guesses[guess] = place;
    Ok(place)
}

/// The number under which the guess for a kind stands: mostly another one for another kind.
fn remainder(kind: PairKind) -> usize
    ensures { result < 256 }
{
    let edges = label_or_none(kind.out) + 61 * label_or_none(kind.back);
    let shared = usize::from(kind.shared) + 16 * usize::from(kind.in_shared);
    (edges + 4 * shared + 128 * usize::from(kind.apart)) % GUESSES
}

/// A number for the label of an edge, and another where there is none.
fn label_or_none(edge: Option<u32>) -> usize
    ensures { result ≤ 4294967296 }
{
    match edge {
        None => 0,
        Some(label) => label as usize + 1,
    }
}

/// Whether the kind stands at the place.
fn is_at(kinds: &[PairKind], place: u32, kind: PairKind) -> bool
    ensures { IsTrue result → slice_get kinds.now place ≡ Some kind }
{
    let i = place as usize;
    i < kinds.len() && kinds[i] == kind
}

/// The place of the kind, which is added where it is new. Cost: one step for each kind.
fn find_or_add(kinds: &mut Vec<PairKind>, kind: PairKind) -> Result<u32, AllocError>
    requires few { length kinds.old.items < 2 ^ 32 }
    ensures found { IfOk result (λ i. slice_get kinds.new.items i ≡ Some kind) }
    ensures stay { KindsStay kinds.old.items kinds.new.items }
    ensures more { length kinds.new.items ≤ length kinds.old.items + 1 }
{
    if let Some(place) = find_kind(kinds, kind) {
        return Ok(place);
    }
    let place = kinds.len() as u32;
    kinds.push(kind)?;
    Ok(place)
}

/// The place of the kind, if it is there. Cost: one step for each kind.
fn find_kind(kinds: &[PairKind], kind: PairKind) -> Option<u32>
    requires few { length kinds.now < 2 ^ 32 }
    ensures { IfSome result (λ i. slice_get kinds.now i ≡ Some kind) }
{
    for i in 0..kinds.len() {
        if kinds[i] == kind {
            return Some(i as u32);
        }
    }
    None
}
