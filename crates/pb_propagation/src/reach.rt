//! How far a constraint's variables go.

ghost use Rattle.std.specs.Prelude.{◌≤◌, ◌^◌};
ghost use Rattle.proof_theory.specs.Forms.{Rises};
ghost use Rattle.pb_propagation.specs.Reach.{Reaches};

use packed_terms::{Kept, PackedConstraint};

/// The number after the last variable of wide terms that rise.
fn wide_reach(terms: &[(u32, i128)]) -> u64
    requires { Rises 0 terms.now }
    ensures reaches { Reaches result terms.now }
    ensures small { result ≤ 2 ^ 32 }
{
    if terms.is_empty() {
        return 0;
    }
    let (variable, _) = terms[terms.len() - 1];
    u64::from(variable) + 1
}

/// The number after the last variable of short terms that rise.
fn short_reach(terms: &[(u32, i32)]) -> u64
    requires { Rises 0 terms.now }
    ensures reaches { Reaches result terms.now }
    ensures small { result ≤ 2 ^ 32 }
{
    if terms.is_empty() {
        return 0;
    }
    let (variable, _) = terms[terms.len() - 1];
    u64::from(variable) + 1
}

/// The number after a constraint's last variable, or 0 where it has none. Constant.
pub fn reach(next: &PackedConstraint) -> u64
    ensures reaches { Reaches result next.now.terms }
    ensures small { result ≤ 2 ^ 32 }
{
    match next.kept() {
        Kept::Short(short) => short_reach(short.terms()),
        Kept::Wide(wide) => wide_reach(wide.terms()),
    }
}
