//! Tests of whole runs that write a proof or check one, over files and sinks in memory.
//!
//! This layer stands above all others and offers nothing. It runs `subgraph_cli::run` on tables of worked examples, with
//! each call on the files failing in turn. What a log shows is proved with the program itself; what only these tests show is
//! the text of single logs and answers, and that with ample memory none is a want of it.
#![tactic(auto)]

#[cfg(test)]
mod check_tests;
#[cfg(test)]
mod judged;
#[cfg(test)]
mod proof_tests;
#[cfg(test)]
mod shown_tests;
#[cfg(test)]
mod size_tests;
#[cfg(test)]
mod trim_tests;
#[cfg(test)]
mod whole_tests;
