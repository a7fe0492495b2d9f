//! Whether the images of two pattern vertices may be one.

ghost use Rattle.std.specs.Prelude.{◌≡◌, ◌<◌};
ghost use Rattle.graph_theory.specs.Graph.{size};
ghost use Rattle.pair_lines.specs.Choices.{IsNearBoth, IsMeeting};

use crate::known::Known;
use graph_theory::embedding::Maps;

/// Whether the images of two vertices may be one: never since the maps are injective, not since both are near this vertex and maps are local, or
/// they may.
#[derive(Clone, Copy, PartialEq, Eq, Debug)]
pub(crate) enum Meeting {
    Never,
    Around(u16),
    May,
}

/// The first vertex that is near both. Cost: a few words for each vertex up to it.
fn first_near_both(known: &Known, p: u16, r: u16) -> Option<u16>
    requires p_in { p < size known.now.pattern }
    requires r_in { r < size known.now.pattern }
    ensures { IsNearBoth known.now p r result }
{
    for c in 0..known.vertices() {
        if known.is_near_both(c, p, r) {
            return Some(c);
        }
    }
    None
}

/// Whether the images of `p` and another vertex `r` may be one. Cost: where the maps are local that of `first_near_both`.
pub(crate) fn meeting_of(known: &Known, p: u16, r: u16) -> Meeting
    requires p_in { p < size known.now.pattern }
    requires r_in { r < size known.now.pattern }
    requires others { p ≡ r → ⊥ }
    ensures { IsMeeting known.now p r result }
{
    match known.maps() {
        Maps::Injective => Meeting::Never,
        Maps::Local => match first_near_both(known, p, r) {
            Some(c) => Meeting::Around(c),
            None => Meeting::May,
        },
        Maps::Any => Meeting::May,
    }
}
