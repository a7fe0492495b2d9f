//! The journals of several owners, and the one log that they are.
//!
//! A journal is the lines that one owner gives a log: each makes its form wherever the log has what the line names, whatever stands
//! beside it. So lines keep stepping as others come, and journals can be merged after the fact: owner 0's lines first, then row by row of a
//! shared book what its owner made up to it, each shared under its row, then what the finisher made last. The laws say that the merged
//! text is accepted, and how a journal grows with its owner's lines, with the rows that come, and with the rows that it notes. The layers
//! above keep journals as bytes, and speak of them in these words. The log's text is this project's own, after the pseudo-Boolean
//! proof logs of Gocht, McCreesh and Nordström (2020).
#![tactic(auto)]

ghost use Rattle.journal_theory.specs.Laws.{GrowthLaws, LineLaws, MergeLaws};

/// What a line makes depends on what it names alone; no line has a line end within it; lines that step are an accepted text where
/// the last one's form is plainly false.
pub fn line_laws()
    ensures { LineLaws }
{}

/// The merged lines of journals step, and where the finisher's last form is plainly false their text is accepted.
pub fn merge_laws()
    ensures { MergeLaws }
{}

/// How a journal stays one: with a further line, with rows that come, with a row that it notes.
pub fn growth_laws()
    ensures { GrowthLaws }
{}
