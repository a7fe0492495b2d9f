//! The head of a log, and one line of it.

ghost use Rattle.std.specs.Prelude.{◌≡◌, ◌≢◌, ◌<◌, ℕ, ◌++◌, ◌∷◌, [], length, slice_index, IfOk, IfSome};
ghost use Rattle.log_theory.specs.Acceptance.{NoFeed};
ghost use Rattle.log_theory.specs.Words.{same_word};
ghost use Rattle.log_theory.specs.Profiles.{profile_of, read_in, IsStepIn};
ghost use Rattle.proof_trim.specs.Reading.{IsOpened};

use log_theory::{Profile, Step};
use proof_log::read_step;
use std::alloc::{AllocError, Global};

/// Where the first LF stands.
fn feed_at(text: &[u8]) -> Option<usize>
    ensures { IfSome result (λ i. (i < length text.now) × (slice_index text.now i ≡ 10)
        × ((k : ℕ) → k < i → slice_index text.now k ≢ 10)) }
{
    text.iter().position(|b| *b == b'\n')
}

/// The first line, without its LF, and the text behind it, if there is an LF.
pub(crate) fn first_line(text: &[u8]) -> Option<(&[u8], &[u8])>
    ensures { IfSome result (λ p. (text.now ≡ p.0.now ++ 10 ∷ p.1.now) × NoFeed p.0.now) }
{
    match feed_at(text) {
        Some(at) => Some((&text[..at], &text[at + 1..])),
        None => None,
    }
}

/// Whether a line is this text.
fn is_line(line: &[u8], text: &[u8]) -> bool
    ensures { result ≡ same_word line.now text.now }
{
    line == text
}

/// The profile that a log's first line tells, if it is a first line.
fn profile_of(line: &[u8]) -> Option<Profile>
    ensures { result ≡ profile_of line.now }
{
    let hinted = is_line(line, b"embedding proof 1");
    let plain = is_line(line, b"embedding proof 2");
    if hinted {
        return Some(Profile::Hinted);
    }
    if plain {
        return Some(Profile::Plain);
    }
    None
}

/// The step that a line of an accepted log tells.
pub(crate) fn step_in(alloc: Global, profile: Profile, line: &[u8]) -> Result<Step, AllocError>
    ensures { IfOk result
        (λ s. (read_in profile line.now ≡ Some s) × IsStepIn profile s) }
{
    match read_step(alloc, profile, line) {
        Ok(step) => Ok(step),
        Err(_) => Err(AllocError),
    }
}

/// What stands behind the first two lines of an accepted log, and its profile.
pub(crate) fn open_log(text: &[u8]) -> Option<(Profile, &[u8])>
    ensures { IfSome result (λ p. IsOpened p.0 text.now p.1.now) }
{
    let (head, behind) = first_line(text)?;
    let profile = profile_of(head)?;
    let (_, lines) = first_line(behind)?;
    Some((profile, lines))
}
