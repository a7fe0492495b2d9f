//! What the two problems come to.

ghost use Rattle.demo_instances.specs.Shapes.{NoFiveCycle, PartEmbeds};
ghost use Rattle.demo_instances.specs.Claims.{PlantedEmbeds, CycleHasNone};

/// No cycle of five embeds in a graph with two sides.
pub fn no_five_cycle()
    ensures { NoFiveCycle }
{}

/// A part of the target embeds in it.
pub fn part_embeds()
    ensures { PartEmbeds }
{}

/// The planted pattern embeds at the chosen vertices.
pub fn planted_embeds()
    ensures { PlantedEmbeds }
{}

/// The cycle of five does not embed in its target.
pub fn cycle_has_none()
    ensures { CycleHasNone }
{}
