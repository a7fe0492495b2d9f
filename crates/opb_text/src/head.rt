//! The first line of a text.

ghost use Rattle.std.specs.Prelude.{◌≡◌, ◌&&◌, codes};
ghost use Rattle.log_theory.specs.Words.{number_of, same_word};
ghost use Rattle.log_theory.specs.OpbReading.{opb_words, head_numbers, head_of};

use crate::line_words::{first_word, is_same};
use crate::numbers::number_in;

/// The numbers of variables and constraints, where they are within their limits.
fn head_numbers(variables: &[u8], constraints: &[u8]) -> Option<(u32, u64)>
    ensures { result ≡ head_numbers (number_of variables.now) (number_of constraints.now) }
{
    match (number_in(variables), number_in(constraints)) {
        (Some(n), Some(m)) => {
            if n < 1 << 32 && m < 1 << 63 {
                Some((n as u32, m as u64))
            } else {
                None
            }
        }
        _ => None,
    }
}

/// Whether the words that are no numbers are those of a first line.
fn are_head_words(star: &[u8], variable: &[u8], constraint: &[u8]) -> bool
    ensures { result ≡ (same_word star.now (codes "*")
        && same_word variable.now (codes "#variable=")
        && same_word constraint.now (codes "#constraint=")) }
{
    is_same(star, b"*") && is_same(variable, b"#variable=") && is_same(constraint, b"#constraint=")
}

/// The numbers of variables and constraints that the first line tells.
pub fn read_head(line: &[u8]) -> Option<(u32, u64)>
    ensures { result ≡ head_of (opb_words line.now) }
{
    let Some((star, rest)) = first_word(line) else {
        return None;
    };
    let Some((variable, rest)) = first_word(rest) else {
        return None;
    };
    let Some((variables, rest)) = first_word(rest) else {
        return None;
    };
    let Some((constraint, rest)) = first_word(rest) else {
        return None;
    };
    let Some((constraints, _)) = first_word(rest) else {
        return None;
    };
    if are_head_words(star, variable, constraint) {
        head_numbers(variables, constraints)
    } else {
        None
    }
}
