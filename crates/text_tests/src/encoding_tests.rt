//! Encodings' texts.

use crate::plain_encoding::{Encoding, Terms, encoding_in};
use crate::spoiling::{Random, none_differs, spoilt};
use opb_text::{Model, OpbCause, OpbFault, read_opb};
use pb_terms::Constraint;
use std::alloc::{AllocError, Global};
use std::test::Fail;

/// How many texts there are.
const TEXTS: u64 = 10_000;

/// What stands in front of a variable, all its terms together.
fn coefficient_in(terms: &[(u32, i128)], variable: u32) -> i128 {
    let mut sum: i128 = 0;
    for (other, c) in terms {
        if *other == variable {
            sum = sum.saturating_add(*c);
        }
    }
    sum
}

/// Whether each variable of these terms has the same coefficient in both.
fn has_same(terms: &[(u32, i128)], one: &[(u32, i128)], other: &[(u32, i128)]) -> bool {
    for (variable, _) in terms {
        if coefficient_in(one, *variable) != coefficient_in(other, *variable) {
            return false;
        }
    }
    true
}

/// Whether the variables rise, and no coefficient is 0.
fn is_in_order(terms: &[(u32, i128)]) -> bool {
    let mut last: u32 = 0;
    for (variable, c) in terms {
        if *variable <= last || *c == 0 {
            return false;
        }
        last = *variable;
    }
    true
}

/// Whether a constraint is what the terms say.
fn is_same(constraint: &Constraint, plain: &Terms) -> bool {
    let read = constraint.terms();
    is_in_order(read)
        && has_same(read, read, &plain.terms)
        && has_same(&plain.terms, read, &plain.terms)
        && constraint.bound() == plain.bound
}

/// Whether constraints are what the terms say, one by one.
fn are_all_same(constraints: &[Constraint], plain: &[Terms]) -> bool {
    if constraints.len() != plain.len() {
        return false;
    }
    for i in 0..plain.len() {
        if !is_same(&constraints[i], &plain[i]) {
            return false;
        }
    }
    true
}

/// Whether a model is what was read plainly.
fn are_same(model: &Model, plain: &Encoding) -> bool {
    model.variables() == plain.variables
        && are_all_same(model.constraints(), plain.constraints.as_slice())
}

/// Which causes were met, each once.
#[derive(Drop)]
struct Met {
    causes: Vec<OpbCause>,
}

/// Notes a cause.
fn note(met: &mut Met, cause: OpbCause) -> Result<(), AllocError> {
    if !met.causes.contains(&cause) {
        met.causes.push(cause)?;
    }
    Ok(())
}

/// Whether both readers read the same in a text, or find the same fault in it, which is noted.
fn agree(alloc: Global, text: &[u8], met: &mut Met) -> Result<bool, AllocError> {
    match (read_opb(alloc, text), encoding_in(alloc, text)) {
        (Ok(model), Ok(plain)) => Ok(are_same(&model, &plain)),
        (Err(OpbFault::Line { line, cause }), Err(plain)) => {
            note(met, cause)?;
            Ok(plain == OpbFault::Line { line, cause })
        }
        _ => Ok(false),
    }
}

/// The number of the first text on which they do not agree.
fn first_difference(
    alloc: Global,
    texts: &[&[u8]],
    words: &[&[u8]],
    met: &mut Met,
) -> Result<Option<u64>, AllocError> {
    for number in 0..TEXTS {
        let text = spoilt(alloc, &mut Random::new(number), texts, words)?;
        if !agree(alloc, &text, met)? {
            return Ok(Some(number));
        }
    }
    Ok(None)
}

/// One as it is written, ones as they may be read, and one at the limits.
static ENCODINGS: [&[u8]; 6] = [
    b"* #variable= 4 #constraint= 4\n+1 x1 +1 x2 >= 1 ;\n-1 x1 -1 x2 >= -1 ;\n\
        -1 x1 +1 x4 >= 0 ;\n+1 x2 -1 x3 >= 0 ;\n",
    b"* #variable= 3 #constraint= 2 further words\r\n* a comment\r\n\r\n\
        \t3 x1  -2 x3 +01 x2 >= -0;\r\n 2 x2 -2 x2 +1 x2 >= +1 ; \t\n",
    b"* #variable= 2 #constraint= 3\n>= 1 ;\n0 x1 >= 007;\n7 x2 -7 x2 >= -1 ;",
    b"* #variable= 4294967295 #constraint= 1\n\
        +21267647932558653966460912964485513216 x4294967295 \
        -21267647932558653966460912964485513216 x1 >= -42535295865117307932921825928971026432 ;\n",
    b"* #variable= 0 #constraint= 0\n",
    b"\t* #variable= 1  #constraint= 1\n*\n\n1 x1 >= 1 ;\n*x\n",
];

/// Words that mean something in some place, and numbers at the limits and one past them.
static WORDS: [&[u8]; 38] = [
    b"0",
    b"1",
    b"2",
    b"-1",
    b"+3",
    b"+-1",
    b"00",
    b"4294967295",
    b"4294967296",
    b"9223372036854775807",
    b"9223372036854775808",
    b"18446744073709551616",
    b"42535295865117307932921825928971026432",
    b"42535295865117307932921825928971026433",
    b"-42535295865117307932921825928971026432",
    b"-42535295865117307932921825928971026433",
    b"42535295865117307932921825928971026433;",
    b"340282366920938463463374607431768211457",
    b"x0",
    b"x1",
    b"x2",
    b"x03",
    b"x4",
    b"x5",
    b"x4294967296",
    b"x340282366920938463463374607431768211457",
    b"~x1",
    b"x1;",
    b"1;",
    b"-1;",
    b"1;;",
    b";",
    b">=",
    b"=",
    b"<=",
    b"min:",
    b"max:x",
    b"*",
];

#[test]
fn spoilt_encodings(rt: HostRuntime) -> Result<(), Fail> {
    let mut met = Met {
        causes: Vec::new(rt.alloc()),
    };
    let found = first_difference(rt.alloc(), &ENCODINGS, &WORDS, &mut met)?;
    assert!(rt; met.causes.len() == 8);
    none_differs(found)
}
