//! Clauses that counters show, over all constraints of a model. A body that never shows one would cost time alone: the checker would take
//! the steps of a pass for each.

use opb_text::read_opb;
use packed_terms::PackedConstraint;
use pb_propagation::{Propagator, Table, is_closed};
use proof_theory::Literal;
use std::alloc::{AllocError, Global};
use std::test::Fail;
use test_support::{Example, all_hold};

/// The constraints of a model's text, packed. A text that is none is told as want of memory.
fn packed(alloc: Global, text: &[u8]) -> Result<Vec<PackedConstraint>, AllocError> {
    let Ok(model) = read_opb(alloc, text) else {
        return Err(AllocError);
    };
    let mut out = Vec::new(alloc);
    for constraint in model.constraints() {
        out.push(PackedConstraint::copied(alloc, constraint)?)?;
    }
    Ok(out)
}

/// Whether counters show the clause of these literals over the model of this text alone.
fn shows(alloc: Global, text: &[u8], literals: &[Literal]) -> Result<bool, AllocError> {
    let model = packed(alloc, text)?;
    let table = Table::new(alloc)?;
    let mut work = Propagator::new(alloc)?;
    is_closed(alloc, &mut work, &model, &table, literals)
}

/// A model's text, the literals of a clause as a variable and whether it is negated, and whether counters show the clause.
struct Shown(&'static [u8], &'static [(u32, bool)], bool);

impl<R> Example<R> for Shown {
    fn holds(&self, _rt: &R, alloc: Global) -> Result<bool, AllocError> {
        let mut literals = Vec::new(alloc);
        for x in self.1 {
            literals.push(Literal {
                variable: x.0,
                negated: x.1,
            })?;
        }
        Ok(shows(alloc, self.0, &literals)? == self.2)
    }
}

const CHAIN: &[u8] =
    b"* #variable= 4 #constraint= 3\n-1 x1 +1 x2 >= 0 ;\n-1 x2 +1 x3 >= 0 ;\n-1 x3 +1 x4 >= 0 ;\n";

const ROOTED: &[u8] =
    b"* #variable= 3 #constraint= 3\n+1 x1 >= 1 ;\n-1 x1 +1 x2 >= 0 ;\n-1 x2 +1 x3 >= 0 ;\n";

const COUNTED: &[u8] =
    b"* #variable= 4 #constraint= 2\n+2 x1 +1 x2 +1 x3 >= 3 ;\n-1 x1 -1 x2 +1 x4 >= -1 ;\n";

static SHOWN: [Shown; 6] = [
    // along a chain, forwards
    Shown(CHAIN, &[(1, true), (4, false)], true),
    // not backwards
    Shown(CHAIN, &[(1, false), (4, true)], false),
    // what the constraints force without assumptions
    Shown(ROOTED, &[(3, false)], true),
    // a model that can be satisfied shows no empty clause
    Shown(ROOTED, &[], false),
    // a constraint whose slack two coefficients pass
    Shown(COUNTED, &[(3, false), (4, false)], true),
    // and one alone does not
    Shown(COUNTED, &[(4, false)], false),
];

#[test]
fn counters_show_what_propagation_shows(rt: HostRuntime) -> Result<(), Fail> {
    all_hold(&rt, rt.alloc(), &SHOWN)
}
