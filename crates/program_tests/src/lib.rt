//! Tests of whole runs without a proof, over files and sinks in memory.
//!
//! This layer stands above all others and offers nothing. It runs `whole_program::run` on tables of worked examples, with
//! each file missing and each call failing in turn. What an answer means is proved with the program itself; what only
//! these tests show is the text of single answers, and that with ample memory none is a want of it.
#![tactic(auto)]

#[cfg(test)]
mod batch_tests;
#[cfg(test)]
mod demo_tests;
#[cfg(test)]
mod encode_tests;
#[cfg(test)]
mod ends;
#[cfg(test)]
mod fault_tests;
#[cfg(test)]
mod map_tests;
#[cfg(test)]
mod refusal_tests;
#[cfg(test)]
mod solve_tests;
#[cfg(test)]
mod verify_tests;
#[cfg(test)]
mod word_tests;
