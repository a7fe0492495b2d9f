//! The Luby sequence, by which the runs of a search are cut off (Luby, Sinclair, Zuckerman 1993).

ghost use Rattle.std.specs.Prelude.{◌≡◌, ◌<◌};
ghost use Rattle.search_theory.specs.Bounds.{luby as luby_term};
ghost use Rattle.fail_account.specs.Powers.{IsPowerWithin};

/// Term `i` of the Luby sequence, from 1: 1, 1, 2, 1, 1, 2, 4, and so on. Cost: at most 64 steps.
pub fn luby(i: u64) -> u64
    requires { 0 < i }
    ensures { result ≡ luby_term i }
{
    let mut rest = i;
    loop {
        let power = power_within(rest);
        if rest - power == power - 1 {
            return power;
        }
        rest = rest - power + 1;
    }
}

/// The greatest power of two that is not above `i`.
fn power_within(i: u64) -> u64
    requires { 0 < i }
    ensures { IsPowerWithin result i }
{
    1 << i.ilog2()
}
