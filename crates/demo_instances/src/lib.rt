//! The two problems of the demonstration, made from a seed.
//!
//! Both are made from the words of one generator, xoshiro256++ (Blackman and Vigna, 2021): a random graph of 150 vertices
//! with a pattern of ten that was planted in it, to be found as an induced part, and a random graph of two sides of 30
//! vertices, in which a cycle of five is to be looked for in vain. The layer above may rely on which graphs they are, on
//! the planted pattern embedding, and on the cycle not embedding, whatever the seed.
#![tactic(auto)]

mod chosen;
mod instances;
mod laws;
mod making;
#[cfg(test)]
mod tests;
mod words;

pub use instances::{cycle_problem, planted_problem};
pub use laws::{cycle_has_none, no_five_cycle, part_embeds, planted_embeds};
pub use words::Words;
