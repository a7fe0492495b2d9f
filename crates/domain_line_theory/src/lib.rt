//! Lines for single values that a vertex cannot have, and for its first domain.
//!
//! With a vertex at a value of lesser degree its neighbours are more than the places for them, which are the value's neighbours, and the value
//! itself where it has a loop and maps need not be injective: the sum of their constraints with those of the places is then in conflict, so that the clause against the value follows from one line. The degrees of neighbours, compared
//! place by place, show the same of the neighbours of high degree, where the pairs of these with neighbours of lesser degree have their
//! clauses already. One line, the sum of such clauses, stands for a first domain. Nothing here needs a division: at the value the plain sum
//! has no slack left. (Degrees and neighbours' degrees: S. Zampelli, Y. Deville, C. Solnon, 2010; in cutting planes: S. Gocht,
//! C. McCreesh, J. Nordström, 2020.)
#![tactic(auto)]

ghost use Rattle.graph_theory.specs.Embedding.{Problem};
ghost use Rattle.domain_line_theory.specs.Laws.{ValueLaws, FirstLaws, DegreeLaws};

/// What makes the clause against a value.
pub fn value_laws()
    ensures { (q : Problem) → ValueLaws q }
{}

/// What makes the line of a first domain, and what it forces.
pub fn first_laws()
    ensures { (q : Problem) → FirstLaws q }
{}

/// Which neighbours are too many.
pub fn degree_laws()
    ensures { (q : Problem) → DegreeLaws q }
{}
