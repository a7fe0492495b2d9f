//! The clauses against single values that an owner has named.

ghost use Rattle.std.specs.Prelude.{◌≡◌, ℕ, ◌==◌, cond, [], Some, OnOk, OnErr, IfSome};
ghost use Rattle.log_theory.specs.LogText.{IsName};
ghost use Rattle.domain_lines.specs.Named.{name_at};

use log_theory::Name;
use std::alloc::{AllocError, Global};
use std::collections::BTreeMap;
use std::marker::Model;

/// For each variable the name of the clause that it is false, where the owner has made one. Contracts see the list of these.
#[derive(Drop)]
pub struct Units {
    named: BTreeMap<u32, Name>,
}

impl Model for Units {
    ghost use Rattle.std.specs.Prelude.{ℕ, List};
    ghost use Rattle.log_theory.specs.declared.step.Name.{Name};
    ghost use Rattle.domain_lines.specs.Named.{AreNames};

    ghost Value = { List (ℕ × Name) };

    ghost view = { λ s. s.named.entries };

    ghost invariant = { λ s. AreNames s.named.entries };
}

impl Units {
    /// No clause yet. It takes no memory.
    pub fn new(alloc: Global) -> Units
        ensures { result ≡ [] }
    {
        Units {
            named: BTreeMap::new(alloc),
        }
    }

    /// The name of the clause that the variable is false. Cost: logarithmic.
    pub fn name_of(&self, variable: u32) -> Option<Name>
        ensures name { result ≡ name_at self.now variable }
        ensures fits { IfSome result IsName }
    {
        self.named.get(&variable).copied()
    }

    /// Keeps the name of the clause that the variable is false. Cost: logarithmic.
    pub fn add(&mut self, variable: u32, name: Name) -> Result<(), AllocError>
        requires { IsName name }
        ensures added { OnOk result
            ((v : ℕ) → name_at self.new v ≡ cond (variable == v) (Some name) (name_at self.old v)) }
        ensures refused { OnErr result (self.new ≡ self.old) }
    {
        self.named.insert(variable, name)?;
        Ok(())
    }
}
