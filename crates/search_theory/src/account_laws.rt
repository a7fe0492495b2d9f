//! Laws of accounts.

ghost use Rattle.search_theory.specs.Laws.{AccountLaws};

/// What lawful events reach holds only dead values refuted, a budget that is spent within the bounds is below the one that
/// is enough, and at its cutoff a run has some value refuted.
pub fn account_laws()
    ensures { AccountLaws }
{}
