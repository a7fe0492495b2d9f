//! What follows of journals from the definitions alone.

ghost use Rattle.merged_log.specs.Premises.{PremiseLaws};

/// What a merge asks for, where the journals are journals beside the rows.
pub fn premise_laws()
    ensures { PremiseLaws }
{}
