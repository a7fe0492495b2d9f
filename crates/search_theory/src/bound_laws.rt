//! Laws of the Luby sequence and of budgets.

ghost use Rattle.search_theory.specs.Laws.{BoundLaws};

/// The Luby sequence by its own recursion, the sum of the cutoffs up to a power of two, and what the budget that is
/// enough is.
pub fn bound_laws()
    ensures { BoundLaws }
{}
