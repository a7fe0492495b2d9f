//! Whether the variables that a line names are the model's, which are numbered from 1.

ghost use Rattle.std.specs.Prelude.{◌≡◌, ◌&&◌, nat_lt, nat_le, List, [], ◌∷◌};
ghost use Rattle.log_theory.specs.Lookups.{variables_of};
ghost use Rattle.log_theory.specs.Verdicts.{in_range, axiom_variables, step_variables};

use log_theory::{Op, Step};
use pb_terms::Literal;

/// Whether a variable is one of the model's.
fn is_variable(variables: u32, variable: u32) -> bool
    ensures { result ≡ (nat_lt 0 variable && nat_le variable variables) }
{
    0 < variable && variable <= variables
}

/// Whether all of these are variables of the model. One pass.
fn are_in_range(variables: u32, named: &[u32]) -> bool
    ensures { result ≡ in_range variables named.now }
{
    for &variable in named {
        if !is_variable(variables, variable) {
            return false;
        }
    }
    true
}

/// Whether all literals are of variables of the model. One pass.
fn literals_in_range(variables: u32, literals: &[Literal]) -> bool
    ensures { result ≡ in_range variables (variables_of literals.now) }
{
    for literal in literals {
        if !is_variable(variables, literal.variable) {
            return false;
        }
    }
    true
}

/// Whether an operation's axiom, if it is one, is of a variable of the model.
fn op_in_range(variables: u32, op: Op) -> bool
    ensures { result ≡ in_range variables (axiom_variables (op ∷ [])) }
{
    match op {
        Op::Axiom(literal) => is_variable(variables, literal.variable),
        _ => true,
    }
}

/// Whether all axioms are of variables of the model. One pass.
fn ops_in_range(variables: u32, ops: &[Op]) -> bool
    ensures { result ≡ in_range variables (axiom_variables ops.now) }
{
    for op in ops {
        if !op_in_range(variables, *op) {
            return false;
        }
    }
    true
}

/// Whether all variables that a line names are the model's. One pass.
pub fn is_in_range(variables: u32, step: &Step) -> bool
    ensures { result ≡ in_range variables (step_variables step.now) }
{
    match step {
        Step::P { ops, .. } => ops_in_range(variables, ops.as_slice()),
        Step::U { lits, .. } => literals_in_range(variables, lits.as_slice()),
        Step::Y { ones } => are_in_range(variables, ones.as_slice()),
        _ => true,
    }
}
