//! A model: so many variables, and constraints over them.

ghost use Rattle.std.specs.Prelude.{◌≡◌, ◌<◌, ◌^◌, length};
ghost use Rattle.log_theory.specs.OpbText.{OpbModel, IsOpbModel, AreConstraints};

use pb_terms::Constraint;

/// A number of variables, numbered from 1, and constraints over them, in order. Contracts see the model.
#[derive(Drop)]
pub struct Model {
    variables: u32,
    constraints: Vec<Constraint>,
}

impl std::marker::Model for Model {
    ghost use Rattle.log_theory.specs.OpbText.{OpbModel, IsOpbModel};

    ghost Value = { OpbModel };

    ghost view = { λ m. record { variables = m.variables; constraints = m.constraints.items } };

    ghost invariant = { λ m. IsOpbModel (record {
      variables = m.variables;
      constraints = m.constraints.items;
    }) };
}

impl Model {
    /// The model of so many variables and these constraints. It takes no memory.
    pub fn new(variables: u32, constraints: Vec<Constraint>) -> Model
        requires sound { AreConstraints variables constraints.items }
        requires few { length constraints.items < 2 ^ 63 }
        ensures { result ≡ record { variables = variables; constraints = constraints.items } }
    {
        Model {
            variables,
            constraints,
        }
    }

    /// How many variables there are.
    pub fn variables(&self) -> u32
        ensures exact { result ≡ self.now.variables }
        ensures within { IsOpbModel self.now }
    {
        self.variables
    }

    /// The constraints, in order. Their text is read back as this model, since it is within the limits of the format.
    pub fn constraints(&self) -> &[Constraint]
        ensures exact { result.now ≡ self.now.constraints }
        ensures within { IsOpbModel self.now }
    {
        &self.constraints
    }
}
