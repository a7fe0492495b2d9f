//! Tests of the layers that write and check proofs, over what they offer to the layers above.
//!
//! What they show is what no clause says: files and sinks that fail where they are told to, forms, models, lines, journals and logs to the
//! letter, and the verdict, line and cause of worked logs.
#![tactic(auto)]

#[cfg(test)]
mod checker_tests;
#[cfg(test)]
mod closing_tests;
#[cfg(test)]
mod encoding_tests;
#[cfg(test)]
mod file_tests;
#[cfg(test)]
mod form_tests;
#[cfg(test)]
mod journal_tests;
#[cfg(test)]
mod log_line_tests;
#[cfg(test)]
mod merged_tests;
#[cfg(test)]
mod model_tests;
#[cfg(test)]
mod plain_tests;
#[cfg(test)]
mod sum_tests;
#[cfg(test)]
mod trim_tests;
