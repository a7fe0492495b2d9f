//! A constraint and the rules on it.

ghost use Rattle.std.specs.Prelude.{◌≡◌, ℕ, ℤ, pos, zero, ◌+◌, ◌≤◌, ◌<◌, ◌^◌, ◌↔◌, List, Bool, length, slice_index_or, IsTrue, IfOk};
ghost use Rattle.proof_theory.specs.Forms.{Form, Holds, IsNarrow, Rises, assignment, form_of, size, sorted};
ghost use Rattle.proof_theory.specs.Rules.{sum_of, times_of, divide_of, saturate_of, is_contradiction};
ghost use Rattle.proof_theory.specs.Slack.{setting, slack, Forces};
ghost use Rattle.pb_terms.specs.Faults.{Gives, Makes};

use super::fault::PbFault;
use super::literals::Literals;
use super::rules::{
    cut_terms, degree_of, divided_degree, divided_terms, negatives_of, positive_part, scaled,
    scaled_terms,
};
use super::slack::{greatest_of, is_forced, value_at, value_of};
use super::sums::{combine, is_rising, merge};
use super::width::{is_narrow, is_narrow_times};
use std::alloc::{AllocError, Global};
use std::marker::Model;

/// `sum of c_v x_v >= b`: pairs of a variable and its coefficient, sorted by variable, none of them zero, and the bound. Contracts
/// see the form. Neither the bound nor the sum of the absolute coefficients is above 2^125 in size.
#[derive(Drop)]
pub struct Constraint {
    terms: Vec<(u32, i128)>,
    bound: i128,
}

impl Model for Constraint {
    ghost use Rattle.std.specs.Prelude.{ℕ};
    ghost use Rattle.proof_theory.specs.Forms.{Form, Rises, IsNarrow};

    ghost Value = { Form };

    ghost view = { λ c. record { terms = c.terms.items; bound = c.bound } };

    ghost invariant = { λ c. Rises 0 c.terms.items × IsNarrow c.terms.items c.bound };
}

/// The constraint of terms that rise, if it is narrow, in no more room than they need.
fn finish(mut terms: Vec<(u32, i128)>, bound: i128) -> Result<Constraint, PbFault>
    requires { Rises 0 terms.items }
    ensures { Gives result (record { terms = terms.items; bound = bound }) }
{
    if is_narrow(&terms, bound) {
        terms.shrink_to_fit();
        Ok(Constraint { terms, bound })
    } else {
        Err(PbFault::Wide)
    }
}

/// The same terms in no more room than they need.
fn fitted(mut terms: Vec<(u32, i128)>) -> Vec<(u32, i128)>
    ensures { result.items ≡ terms.items }
{
    terms.shrink_to_fit();
    terms
}

/// Terms in any order as sorted ones, like terms added. The sort merges what rises already, so that k sorted lists one behind the other
/// cost their terms times the logarithm of k.
fn ordered(alloc: Global, mut terms: Vec<(u32, i128)>) -> Result<Vec<(u32, i128)>, AllocError>
    requires { size terms.items ≤ 2 ^ 125 }
    ensures { IfOk result (λ v. v.items ≡ sorted terms.items) }
{
    terms.sort_by_key(|t| t.0)?;
    let made = combine(alloc, &terms)?;
    Ok(fitted(made))
}

/// Terms in any order as sorted ones, like terms added. One pass where they rise already.
fn sorted_terms(alloc: Global, terms: Vec<(u32, i128)>) -> Result<Vec<(u32, i128)>, AllocError>
    requires { size terms.items ≤ 2 ^ 125 }
    ensures { IfOk result (λ v. v.items ≡ sorted terms.items) }
{
    if is_rising(&terms) {
        return Ok(fitted(terms));
    }
    ordered(alloc, terms)
}

impl Constraint {
    /// The constraint of terms in any order: like terms are added, and zeros vanish. One pass where the terms rise already, else a sort.
    pub fn new(alloc: Global, terms: &[(u32, i128)], bound: i128) -> Result<Constraint, PbFault>
        ensures { Makes result terms.now bound }
    {
        if !is_narrow(terms, bound) {
            return Err(PbFault::Wide);
        }
        let copied = Vec::from_slice(alloc, terms)?;
        Ok(Constraint::from_terms(alloc, copied, bound)?)
    }

    /// The constraint of narrow terms in any order, as `new` makes it, without a copy where they rise.
    pub(crate) fn from_terms(
        alloc: Global,
        terms: Vec<(u32, i128)>,
        bound: i128,
    ) -> Result<Constraint, AllocError>
        requires { IsNarrow terms.items bound }
        ensures { IfOk result (λ made. made ≡ form_of terms.items bound) }
    {
        let terms = sorted_terms(alloc, terms)?;
        Ok(Constraint { terms, bound })
    }

    /// The terms and the bound, of which the terms are moved.
    pub(crate) fn into_parts(self) -> (Vec<(u32, i128)>, i128)
        ensures parts { (result.0.items ≡ self.terms) × (result.1 ≡ self.bound) }
        ensures rises { Rises 0 result.0.items }
        ensures narrow { IsNarrow result.0.items result.1 }
    {
        (self.terms, self.bound)
    }

    /// A copy.
    pub fn copy(&self, alloc: Global) -> Result<Constraint, AllocError>
        ensures { IfOk result (λ made. made ≡ self.now) }
    {
        let terms = Vec::from_slice(alloc, &self.terms)?;
        Ok(Constraint {
            terms,
            bound: self.bound,
        })
    }

    /// The sum. One pass over both lists of terms.
    pub fn add(&self, alloc: Global, other: &Constraint) -> Result<Constraint, PbFault>
        ensures { Gives result (sum_of self.now other.now) }
    {
        let terms = merge(alloc, &self.terms, &other.terms)?;
        finish(terms, self.bound + other.bound)
    }

    /// The multiple by n. Two passes.
    pub fn times(&self, alloc: Global, n: u64) -> Result<Constraint, PbFault>
        requires { 0 < n }
        ensures { Gives result (times_of n self.now) }
    {
        if !is_narrow_times(&self.terms, self.bound, n) {
            return Err(PbFault::Wide);
        }
        let terms = scaled_terms(alloc, &self.terms, n)?;
        Ok(Constraint {
            terms,
            bound: scaled(self.bound, n),
        })
    }

    /// The quotient of the normal form by n, coefficients and degree rounded up. A few passes.
    pub fn divide(&self, alloc: Global, n: u64) -> Result<Constraint, PbFault>
        requires { 0 < n }
        ensures { Gives result (divide_of n self.now) }
    {
        let degree = divided_degree(degree_of(&self.terms, self.bound), n);
        let terms = divided_terms(alloc, &self.terms, n)?;
        let bound = degree - negatives_of(&terms) as i128;
        finish(terms, bound)
    }

    /// The coefficients of the normal form cut to the degree, or to 0 where the degree is negative. A few passes.
    pub fn saturate(&self, alloc: Global) -> Result<Constraint, PbFault>
        ensures { Gives result (saturate_of self.now) }
    {
        let degree = degree_of(&self.terms, self.bound);
        let terms = cut_terms(alloc, &self.terms, positive_part(degree))?;
        let bound = degree - negatives_of(&terms) as i128;
        finish(terms, bound)
    }

    /// The terms, by rising variable.
    pub fn terms(&self) -> &[(u32, i128)]
        ensures exact { result.now ≡ self.now.terms }
        ensures rises { Rises 0 result.now }
        ensures narrow { size result.now ≤ 2 ^ 125 }
    {
        &self.terms
    }

    /// The bound.
    pub fn bound(&self) -> i128
        ensures { result ≡ self.now.bound }
    {
        self.bound
    }

    /// The terms and the bound.
    pub(crate) fn parts(&self) -> (&[(u32, i128)], i128)
        ensures parts { (result.0.now ≡ self.now.terms) × (result.1 ≡ self.now.bound) }
        ensures rises { Rises 0 result.0.now }
        ensures narrow { IsNarrow result.0.now result.1 }
    {
        (&self.terms, self.bound)
    }

    /// By how much the sum of what can still be true exceeds the degree. One pass.
    pub fn slack(&self, set: &Literals) -> i128
        ensures { result ≡ slack (setting set.now) self.now }
    {
        greatest_of(set.values(), &self.terms) - self.bound
    }

    /// Whether the literal at a place of the terms is unset and its coefficient exceeds the slack. As long as `slack`.
    pub fn forced(&self, set: &Literals, place: usize) -> bool
        requires { place < length self.now.terms }
        ensures { IsTrue result
            ↔ Forces (setting set.now) self.now (slice_index_or self.now.terms place (0, pos 0)) }
    {
        let terms = self.terms();
        let (variable, coefficient) = terms[place];
        is_forced(
            value_of(set.values(), variable),
            self.slack(set),
            coefficient,
        )
    }

    /// Whether the normal form has no term and a degree above 0.
    pub fn is_false(&self) -> bool
        ensures { result ≡ is_contradiction self.now }
    {
        self.terms.is_empty() && self.bound > 0
    }

    /// Whether the constraint holds under a 0/1 list, place 0 being the variable 1; variables without a place are 0. One pass.
    pub fn holds(&self, values: &[bool]) -> bool
        ensures { IsTrue result ↔ Holds self.now (assignment values.now) }
    {
        value_at(values, &self.terms) >= self.bound
    }
}
