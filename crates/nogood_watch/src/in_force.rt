//! Laws of watches, by which a layer above may say that nothing is left to follow from its nogoods.

ghost use Rattle.nogood_watch.specs.InForce.{WatchLaws};

/// Where of each watch that is assigned the other one has left its domain, no nogood has all its literals assigned, and one that lacks
/// a single literal has lost it. What `on_assign` does to the watches keeps this so in all domains that those of the call are within,
/// which is why nothing has to be undone when domains grow again.
pub fn watch_laws()
    ensures { WatchLaws }
{}
