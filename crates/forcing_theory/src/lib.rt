//! What forms force beside a setting, and what a chain of reasons refutes.
//!
//! A line of a log that names constraints has to lead to a conflict by what each forces in turn. This layer says when it does without
//! looking at slacks: a form forces what all its solutions beside the setting agree on; a sum of forms that just reach their bounds forces
//! what they say together, so that one line can stand for many; and reasons of changes, of which only those are kept that an end rests
//! on, refute this end. The layer names no graph. (Unit propagation by slack is that of Chai and Kuehlmann 2003; explanations of
//! single changes are those of Ohrimenko, Stuckey and Codish 2009.)
#![tactic(auto)]

ghost use Rattle.forcing_theory.specs.Laws.{ForcingLaws};
ghost use Rattle.forcing_theory.specs.Sums.{SumLaws};

/// A form forces what its solutions agree on, and kept reasons refute the end that rests on them.
pub fn forcing_laws()
    ensures { ForcingLaws }
{}

/// Sums of references make sums of forms, and a sum of tight forms forces what these say together.
pub fn sum_laws()
    ensures { SumLaws }
{}
