//! Tests of single layers, from rows of pairs to the files of a proof, over what they offer to the layers above.
//!
//! What they show is what no clause says, with ample memory: what words come to, rows of pairs as worked words, that a fresh note
//! finds an answer, what a recorder keeps of a few changes, whole searches by one worker, whole solves by one to 64, the lines of a
//! log to the letter, and the files of a proof with each call failing in turn.
#![tactic(auto)]

#[cfg(test)]
mod answer_tests;
#[cfg(test)]
mod cause_tests;
#[cfg(test)]
mod choice_tests;
#[cfg(test)]
mod command_tests;
#[cfg(test)]
mod logger_tests;
#[cfg(test)]
mod map_tests;
#[cfg(test)]
mod problems;
#[cfg(test)]
mod proof_file_tests;
#[cfg(test)]
mod row_tests;
#[cfg(test)]
mod search_tests;
#[cfg(test)]
mod worker_tests;
