//! Short terms in any order as sorted ones, like terms added.

ghost use Rattle.std.specs.Prelude.{◌≡◌, ℕ, ℤ, ◌+◌, ◌<◌, ◌≤◌, ◌^◌, ◌↔◌, ◌++◌, [], drop, length, take, IsTrue, IfOk};
ghost use Rattle.std.specs.List.Sorted.{IsNonDecreasingBy};
ghost use Rattle.proof_theory.specs.Forms.{Rises, keep, size, sorted};

use std::alloc::AllocError;

/// Whether the terms rise strictly by variable and none is zero. One pass.
fn is_rising(terms: &[(u32, i32)]) -> bool
    ensures { IsTrue result ↔ Rises 0 terms.now }
{
    let mut low: u64 = 0;
    for &(variable, coefficient) in terms {
        if u64::from(variable) < low || coefficient == 0 {
            return false;
        }
        low = u64::from(variable) + 1;
    }
    true
}

/// A term at a place, unless it is zero. Returns the place behind.
fn put_term(terms: &mut [(u32, i32)], place: usize, term: (u32, i32)) -> usize
    requires { place + length (keep term.0 term.1 []) ≤ length terms.old }
    ensures behind { result ≡ place + length (keep term.0 term.1 []) }
    ensures put { take result terms.new ≡ take place terms.old ++ keep term.0 term.1 [] }
    ensures rest { (k : ℕ) → result ≤ k → drop k terms.new ≡ drop k terms.old }
{
    if term.1 == 0 {
        return place;
    }
    terms[place] = term;
    place + 1
}

/// Makes the sorted list of terms in the order of their variables where they stand: like terms are added, zeros left out. Returns how many
/// terms it has, which are the first. One pass.
fn combine(terms: &mut [(u32, i32)]) -> usize
    requires order { IsNonDecreasingBy (λ (t : ℕ × ℤ). t.0) terms.old }
    requires fits { size terms.old < 2 ^ 31 }
    ensures { take result terms.new ≡ sorted terms.old }
{
    let mut kept = 0;
    let mut waiting: (u32, i32) = (0, 0);
    for i in 0..terms.len() {
        let next = terms[i];
        if next.0 == waiting.0 {
            waiting.1 += next.1;
        } else {
            kept = put_term(terms, kept, waiting);
            waiting = next;
        }
    }
    put_term(terms, kept, waiting)
}

/// The same terms in no more room than they need.
fn fitted(mut terms: Vec<(u32, i32)>) -> Vec<(u32, i32)>
    ensures { result.items ≡ terms.items }
{
    terms.shrink_to_fit();
    terms
}

/// Terms in any order as sorted ones, like terms added. The sort merges what rises already, so that k sorted lists one behind the other
/// cost their terms times the logarithm of k.
fn ordered(mut terms: Vec<(u32, i32)>) -> Result<Vec<(u32, i32)>, AllocError>
    requires { size terms.items < 2 ^ 31 }
    ensures { IfOk result (λ v. v.items ≡ sorted terms.items) }
{
    terms.sort_by_key(|t| t.0)?;
    let kept = combine(&mut terms);
    terms.truncate(kept);
    Ok(fitted(terms))
}

/// Terms in any order as sorted ones, like terms added. One pass where they rise already.
pub fn sorted_terms(terms: Vec<(u32, i32)>) -> Result<Vec<(u32, i32)>, AllocError>
    requires { size terms.items < 2 ^ 31 }
    ensures { IfOk result (λ v. v.items ≡ sorted terms.items) }
{
    if is_rising(&terms) {
        return Ok(fitted(terms));
    }
    ordered(terms)
}
