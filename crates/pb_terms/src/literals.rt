//! The set of true literals, a value for some of the variables, as unit propagation keeps it.

ghost use Rattle.std.specs.Prelude.{◌≡◌, ℕ, ◌+◌, ◌≤◌, ◌<◌, Bool, not, List, length, replicate, slice_set, IfOk, OnOk};
ghost use Rattle.proof_theory.specs.Slack.{setting};
ghost use Rattle.pb_terms.specs.Trail.{unset_count};

use proof_theory::Literal;
use std::alloc::{AllocError, Global};
use std::marker::Model;

/// For each variable up to the number given to `new` its value, if it is set. Contracts see the list of these, variable v at
/// place v; place 0 stands for no variable of an encoding. `clear` costs the number of variables set since the last one.
#[derive(Drop)]
pub struct Literals {
    values: Vec<Option<bool>>,
    trail: Vec<u32>,
}

impl Model for Literals {
    ghost use Rattle.std.specs.Prelude.{◌≡◌, ◌≤◌, ◌+◌, Bool, List, Option, length};
    ghost use Rattle.std.specs.Vec.{vec_capacity};
    ghost use Rattle.pb_terms.specs.Trail.{IsTrailOf};

    ghost Value = { List (Option Bool) };

    ghost view = { λ s. s.values.items };

    ghost invariant = { λ s. IsTrailOf s.values.items s.trail.items (vec_capacity s.trail) };
}

impl Literals {
    /// No variable set, of the variables up to `variables`.
    pub fn new(alloc: Global, variables: u32) -> Result<Literals, AllocError>
        ensures { IfOk result (λ s. s ≡ replicate (variables + 1) None) }
    {
        let places = variables as usize + 1;
        let mut values = Vec::new(alloc);
        values.resize(places, None)?;
        let trail = Vec::with_capacity(alloc, places)?;
        Ok(Literals { values, trail })
    }

    /// Makes the literal true.
    pub fn set(&mut self, literal: Literal)
        requires in_range { literal.variable < length self.old }
        requires unset { setting self.old literal.variable ≡ None }
        ensures { self.new ≡ slice_set self.old literal.variable (Some (not literal.negated)) }
    {
        self.values[literal.variable as usize] = Some(!literal.negated);
        let _ = self.trail.push(literal.variable);
    }

    /// Unsets every variable.
    pub fn clear(&mut self)
        ensures { self.new ≡ replicate (length self.old) None }
    {
        while let Some(variable) = self.trail.pop() {
            self.values[variable as usize] = None;
        }
    }

    /// How many variables are set. Constant.
    pub fn count(&self) -> usize
        ensures { result + unset_count self.now ≡ length self.now }
    {
        self.trail.len()
    }

    /// The value of each variable, at its place.
    pub fn values(&self) -> &[Option<bool>]
        ensures { result.now ≡ self.now }
    {
        &self.values
    }
}
