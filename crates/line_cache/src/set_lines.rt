//! The lines of sets, each made once.

ghost use Rattle.std.specs.Prelude.{◌≡◌, ◌<◌, length, IfOk};
ghost use Rattle.log_theory.specs.LogText.{IsName};
ghost use Rattle.journals.specs.Keeping.{KeepsRest};
ghost use Rattle.log_growth.specs.Frames.{Frame, IsFrameOf, Goes};
ghost use Rattle.dead_theory.specs.Changes.{IsSetIn};
ghost use Rattle.dead_paths.specs.Explaining.{IsLimited};
ghost use Rattle.line_cache.specs.Sets.{AreSets, IsKnownSet};

use crate::set_names::SetNames;
use dead_paths::{BlockSet, Ground, keep_set};
use journals::Keeper;
use log_theory::Name;
use std::alloc::{AllocError, Global};

/// The name of the line of a set, which is made if the set is not found. Cost: of one that is found, that of the search for it.
pub(crate) fn set_line<K: Keeper>(
    alloc: Global,
    lines: &Ground<'_>,
    sets: &mut SetNames,
    keeper: &mut K,
    set: &BlockSet<'_>,
) -> Result<Name, AllocError>
    requires limited { IsLimited lines.now }
    requires some { 0 < length set.now.vertices.now }
    requires in_problem { IsSetIn lines.now set.now.centre set.now.vertices.now
        set.now.values.now }
    ensures goes { (w : Frame) → IsFrameOf lines.now (K.owner keeper.old) w
        → Goes w (K.kept keeper.old) (K.kept keeper.new)
        (AreSets lines.now w sets.old)
        (IsKnownSet lines.now w set.now.centre set.now.vertices.now set.now.values.now sets.new
        result) }
    ensures fits { IfOk result IsName }
    ensures rest { KeepsRest K.owner K.notes K.spare keeper.old keeper.new }
{
    if let Some(name) = sets.find(set) {
        return Ok(name);
    }
    let name = keep_set(alloc, lines, keeper, set)?;
    sets.add(set, name)?;
    Ok(name)
}
