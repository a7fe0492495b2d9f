//! Laws of domains, by which a search may answer.

ghost use Rattle.search_theory.specs.Laws.{DomainLaws};

/// Quiet domains in order, of one value each, are an embedding; a path is dead where each value of a vertex's domain is refuted;
/// and a value of such domains fits the path.
pub fn domain_laws()
    ensures { DomainLaws }
{}
