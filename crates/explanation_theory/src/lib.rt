//! Why values leave the domains of a search, in constraints of the encoding of its problem.
//!
//! Each change of a domain has a cause: a first domain, a guess, a decided vertex, a nogood, an edge, the order of images, a set of a block that was
//! counted. For each the layer says which constraints force the removed values once the values missing from the domains that it needs are false,
//! and the same for each end of a dead path. So a log can name a few constraints for a dead path, in place of all that was ever removed: what is
//! kept of the causes is a chain of reasons. One constraint stands for all values that a set takes, whatever the path: the sum of its
//! vertices' constraints and of its values' in the block. (Counting arguments for all-different in cutting planes are those of Gocht, McCreesh and
//! Nordström 2020.)
#![tactic(auto)]

ghost use Rattle.graph_theory.specs.Embedding.{Problem};
ghost use Rattle.explanation_theory.specs.Laws.{ChangeLaws, EndLaws};

/// What each kind of change is explained by.
pub fn change_laws()
    ensures { (q : Problem) → ChangeLaws q }
{}

/// What leads each kind of end to a conflict.
pub fn end_laws()
    ensures { (q : Problem) → EndLaws q }
{}
