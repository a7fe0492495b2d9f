//! From what a search was told to a line of a log that refutes its path.
//!
//! A search tells of each change of its domains, and of how its path ended. This layer says which forms explain a change, which vertices'
//! domains each rests on, and how to go back from the end to the first change and choose those that the end rests on: few, whatever
//! else was removed. The forms of these changes, and then the end's, refute that all pairs of the path hold: so a line that names
//! them makes the path's clause. The nogoods that took part are rows of a book, under their places. (Going back from a conflict over what led
//! to it is that of clause learning, Marques Silva and Sakallah 1996; lazily explained changes are those of Ohrimenko, Stuckey and Codish
//! 2009.)
#![tactic(auto)]

ghost use Rattle.dead_theory.specs.Laws.{DeadLaws, WalkLaws, ToldLaws};

/// What is chosen for the end of a dead path refutes the path.
pub fn dead_laws()
    ensures { DeadLaws }
{}

/// How a walk back chooses.
pub fn walk_laws()
    ensures { WalkLaws }
{}

/// The numbers that are told are in range, a failure of propagation is an end, and the names of nogoods are those of rows.
pub fn told_laws()
    ensures { ToldLaws }
{}
