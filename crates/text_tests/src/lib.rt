//! Tests of the readers on worked texts, and on texts that are spoilt at random, each reading held against that of a plain reader, or
//! for mappings against what is written.
//!
//! The readers are proved to read exactly what is defined; what only these tests show is that no text of many takes them anywhere
//! else. A text comes of the seed and its number alone.
#![tactic(auto)]

#[cfg(test)]
mod encoding_tests;
#[cfg(test)]
mod graph_tests;
#[cfg(test)]
mod log_tests;
#[cfg(test)]
mod mapping_tests;
#[cfg(test)]
mod maps_tests;
#[cfg(test)]
mod plain_encoding;
#[cfg(test)]
mod plain_items;
#[cfg(test)]
mod plain_log;
#[cfg(test)]
mod plain_rows;
#[cfg(test)]
mod plain_stops;
#[cfg(test)]
mod plain_values;
#[cfg(test)]
mod plain_words;
#[cfg(test)]
mod problem_tests;
#[cfg(test)]
mod reading_tests;
#[cfg(test)]
mod spoiling;
