//! The parts of a line.

ghost use Rattle.std.specs.Prelude.{◌≡◌, ◌≢◌, ◌++◌, ℕ, Bool, List, MatchOption, MatchBool, codes, ◌∷◌};
ghost use Rattle.std.specs.List.{All};
ghost use Rattle.job_list.specs.Jobs.{IsName, job_text, ending, Says, JobText};

use crate::names::{is_name, split_at_byte};

/// The target's name, where nothing follows it.
fn whole_target(rest: &[u8]) -> Option<(&[u8], bool)>
    requires { All (λ b. b ≢ 32) rest.now }
    ensures { MatchOption result
        ((t : List ℕ) (induced : Bool) → IsName t → rest.now ≢ t ++ ending induced)
        (λ p. (rest.now ≡ p.0.now ++ ending p.1) × IsName p.0.now) }
{
    if !is_name(rest) {
        return None;
    }
    Some((rest, false))
}

/// The target's name and whether `induced` follows it, where what stands behind the pattern's name says so.
fn target_in(rest: &[u8]) -> Option<(&[u8], bool)>
    ensures { MatchOption result
        ((t : List ℕ) (induced : Bool) → IsName t → rest.now ≢ t ++ ending induced)
        (λ p. (rest.now ≡ p.0.now ++ ending p.1) × IsName p.0.now) }
{
    let Some((target, last)) = split_at_byte(rest, b' ') else {
        return whole_target(rest);
    };
    if last != b"induced".as_slice() {
        return None;
    }
    if !is_name(target) {
        return None;
    }
    Some((target, true))
}

/// The names of a line, and whether it ends in `induced`; none where the line says no job.
pub(crate) fn parts_in(line: &[u8]) -> Option<(&[u8], &[u8], bool)>
    ensures { MatchOption result ((j : JobText) → ¬ (Says line.now j))
        (λ p. Says line.now (job_text p.0.now p.1.now p.2)) }
{
    let Some((pattern, rest)) = split_at_byte(line, b' ') else {
        return None;
    };
    if !is_name(pattern) {
        return None;
    }
    let Some((target, induced)) = target_in(rest) else {
        return None;
    };
    Some((pattern, target, induced))
}
