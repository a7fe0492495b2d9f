//! The names of lines for two pattern vertices and a target vertex.

ghost use Rattle.std.specs.Prelude.{◌≡◌, ◌<◌, ◌≤◌, ◌+◌, ◌==◌, [], ℕ, cond, Some, OnOk, OnErr, IfSome};
ghost use Rattle.log_theory.specs.declared.step.Name.{Name as LineName};
ghost use Rattle.log_theory.specs.LogText.{IsName};
ghost use Rattle.pair_lines.specs.Choices.{pair_key, pair_name, not_both_key, not_both_name, entry_at};

use log_theory::Name;
use std::alloc::{AllocError, Global};
use std::collections::HashMap;
use std::marker::Model;

/// What is added to the first vertex of a clause, so that its number is none of another line.
const NOT_BOTH: u16 = 1024;

/// For two pattern vertices and a target vertex the name of a line, as that which counts there what the two share; and the name of
/// the clause that they are not both there. Contracts see the entries.
#[derive(Drop)]
pub struct PairNames {
    names: HashMap<u64, Name>,
}

impl Model for PairNames {
    ghost use Rattle.std.specs.Prelude.{ℕ, ◌≡◌, List, Some};
    ghost use Rattle.log_theory.specs.declared.step.Name.{Name as TheName};
    ghost use Rattle.log_theory.specs.LogText.{IsName};
    ghost use Rattle.pair_lines.specs.Choices.{entry_at};

    ghost Value = { List (ℕ × TheName) };

    ghost view = { λ s. s.names.entries };

    ghost invariant = { λ s. (k : ℕ) (n : TheName) → entry_at s.names.entries k ≡ Some n
        → IsName n };
}

impl PairNames {
    /// No name. It takes no memory.
    pub fn new(alloc: Global) -> PairNames
        ensures { result ≡ [] }
    {
        PairNames {
            names: HashMap::new(alloc),
        }
    }

    /// The name for `p` and `r` at `w`. Cost: a few steps, however many names there are.
    pub(crate) fn find(&self, p: u16, r: u16, w: u16) -> Option<Name>
        ensures name { result ≡ pair_name self.now p r w }
        ensures fits { IfSome result IsName }
    {
        self.names.get(&key(p, r, w)).copied()
    }

    /// The name of the clause that `m` and `n` are not both at `w`. Cost: as that of `find`.
    pub(crate) fn find_not_both(&self, m: u16, n: u16, w: u16) -> Option<Name>
        requires { m < 1024 }
        ensures name { result ≡ not_both_name self.now m n w }
        ensures fits { IfSome result IsName }
    {
        self.find(m + NOT_BOTH, n, w)
    }

    /// Its names are such as a log can have. It changes nothing; the fact is what it is called for.
    pub(crate) fn fit(&self)
        ensures { (k : ℕ) (n : LineName) → entry_at self.now k ≡ Some n → IsName n }
    {
        let _names = &self.names;
    }

    /// Adds the name for `p` and `r` at `w`, which had none. Cost: as that of `find`; where the room is doubled, one step for each name.
    pub(crate) fn add(&mut self, p: u16, r: u16, w: u16, name: Name) -> Result<(), AllocError>
        requires { IsName name }
        ensures added { OnOk result
            ((k : ℕ) → entry_at self.new k
            ≡ cond (k == pair_key p r w) (Some name) (entry_at self.old k)) }
        ensures refused { OnErr result (self.new ≡ self.old) }
    {
        self.names.insert(key(p, r, w), name)?;
        Ok(())
    }

    /// Adds the name of the clause that `m` and `n` are not both at `w`, which had none. Cost: as that of `add`.
    pub(crate) fn add_not_both(
        &mut self,
        m: u16,
        n: u16,
        w: u16,
        name: Name,
    ) -> Result<(), AllocError>
        requires few { m < 1024 }
        requires name { IsName name }
        ensures added { OnOk result
            ((k : ℕ) → entry_at self.new k
            ≡ cond (k == not_both_key m n w) (Some name) (entry_at self.old k)) }
        ensures refused { OnErr result (self.new ≡ self.old) }
    {
        self.add(m + NOT_BOTH, n, w, name)
    }
}

/// The number of a pair of vertices and a target vertex.
fn key(p: u16, r: u16, w: u16) -> u64
    ensures { result ≡ pair_key p r w }
{
    (u64::from(p) * 1024 + u64::from(r)) * 8192 + u64::from(w)
}
