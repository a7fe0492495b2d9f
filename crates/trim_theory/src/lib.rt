//! What a trimmed proof log is, and that it is accepted wherever the whole one is.
//!
//! Trimming keeps, of the lines that make a form, those that the end of a log rests on. They are renamed 0.1, 0.2, .. in their order, rows
//! become the names that they share, and each name is deleted behind the line that names it last. A log without hints gets some
//! for each line that is kept. The crate keeps nothing: its definitions say what the trimmed log of a log is, and its laws, taken
//! from the contracts of functions with empty bodies, say that a renamed line makes the same form, that lines step beside their
//! deletions, that the trimmed log is accepted with the same claim, and that a log with hints has one. What is not needed is found by
//! going back from the end, as in E. Goldberg and Y. Novikov (2003) and in N. Wetzler, M. Heule and W. Hunt (2014).
#![tactic(auto)]

ghost use Rattle.trim_theory.specs.Renaming.{RenamingLaw};
ghost use Rattle.trim_theory.specs.Running.{SimulationLaw};
ghost use Rattle.trim_theory.specs.Laws.{CodeLaws, KeepingLaw, OneLaws, TrimLaw};

/// A line whose references find what they found makes the same form under its new name.
pub fn renaming_law()
    ensures { RenamingLaw }
{}

/// Lines that make their forms step with their deletions too.
pub fn simulation_law()
    ensures { SimulationLaw }
{}

/// The kept lines of a log make their forms over the kept ones alone.
pub fn keeping_law()
    ensures { KeepingLaw }
{}

/// The trimmed log is accepted with the same claim wherever the whole one is.
pub fn trim_law()
    ensures { TrimLaw }
{}

/// What whoever makes a trimmed log needs: that marked lines are one, which names are deleted behind a line, when references refute, and
/// when nothing is kept.
pub fn code_laws()
    ensures { CodeLaws }
{}

/// Of a log with hints there is one trimmed log.
pub fn one_laws()
    ensures { OneLaws }
{}
