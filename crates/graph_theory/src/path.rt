//! Laws of dead paths, by which a search may give up a guess.

ghost use Rattle.graph_theory.specs.Path.{PathLaws};

/// A path that goes on from a dead one is dead; one is dead where each value of a further vertex makes it so; and the
/// empty path is dead exactly where no embedding exists.
pub fn path_laws()
    ensures { PathLaws }
{}
