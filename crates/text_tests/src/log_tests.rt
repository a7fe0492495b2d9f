//! Logs of both profiles.

use crate::plain_encoding::{Encoding, encoding_in};
use crate::plain_log::{begun, verdict_of};
use crate::spoiling::{Random, spoilt};
use log_theory::{Cause, Verdict};
use opb_text::{Model, read_opb};
use proof_checker::check;
use std::alloc::{AllocError, Global};
use std::test::Fail;
use test_support::models::{
    NO_TRIANGLE, NO_TRIANGLE_WITHOUT_HINTS, NOT_BOTH, OPEN, THREE_INTO_TWO, TRIANGLE_INTO_CYCLE,
};

/// An encoding's text, and whole logs over it.
struct Family {
    encoding: &'static [u8],
    logs: &'static [&'static [u8]],
}

/// How many texts there are of each family.
const TEXTS: u64 = 2_500;

/// Which causes were met, each once, and how many logs were accepted.
#[derive(Drop)]
struct Met {
    causes: Vec<Cause>,
    accepted: u64,
}

/// Notes what a log shows.
fn note(met: &mut Met, verdict: Verdict) -> Result<(), AllocError> {
    match verdict {
        Verdict::Refused { cause, .. } => {
            if !met.causes.contains(&cause) {
                met.causes.push(cause)?;
            }
        }
        _ => met.accepted = met.accepted.wrapping_add(1),
    }
    Ok(())
}

/// Whether both say the same of a log, which is noted.
fn agree(
    alloc: Global,
    model: &Model,
    plain: &Encoding,
    text: &[u8],
    met: &mut Met,
) -> Result<bool, AllocError> {
    let mut log = begun(alloc, plain.variables, &plain.constraints)?;
    let expected = verdict_of(alloc, &mut log, text)?;
    note(met, expected)?;
    Ok(expected != Verdict::NoMemory && check(alloc, model, text) == expected)
}

/// The number of the first log over an encoding on which they do not agree.
fn first_difference_over(
    alloc: Global,
    family: &Family,
    seed: u64,
    met: &mut Met,
) -> Result<Option<u64>, AllocError> {
    let (Ok(model), Ok(plain)) = (
        read_opb(alloc, family.encoding),
        encoding_in(alloc, family.encoding),
    ) else {
        return Ok(Some(seed));
    };
    for number in seed..seed.saturating_add(TEXTS) {
        let text = spoilt(alloc, &mut Random::new(number), family.logs, &WORDS)?;
        if !agree(alloc, &model, &plain, &text, met)? {
            return Ok(Some(number));
        }
    }
    Ok(None)
}

/// The number of the first log on which they do not agree.
fn first_difference(
    alloc: Global,
    families: &[Family],
    met: &mut Met,
) -> Result<Option<u64>, AllocError> {
    let mut seed: u64 = 0;
    for family in families {
        let found = first_difference_over(alloc, family, seed, met)?;
        if found.is_some() {
            return Ok(found);
        }
        seed = seed.saturating_add(TEXTS);
    }
    Ok(None)
}

/// Words that mean something in some place, and numbers at the limits and one past them.
static WORDS: [&[u8]; 45] = [
    b"0",
    b"1",
    b"2",
    b"3",
    b"5",
    b"8",
    b"34",
    b"01",
    b"9223372036854775807",
    b"9223372036854775808",
    b"18446744073709551617",
    b"340282366920938463463374607431768211457",
    b"0.1",
    b"0.2",
    b"0.3",
    b"1.1",
    b"64.1",
    b"65.1",
    b"0.0",
    b"0.01",
    b"0.9223372036854775807",
    b"0.9223372036854775808",
    b"0.1.1",
    b"#0",
    b"#7",
    b"#07",
    b"#4194303",
    b"#4194304",
    b"x0",
    b"x1",
    b"x2",
    b"x6",
    b"x13",
    b"x4294967297",
    b"~x1",
    b"~x2",
    b"~~x1",
    b"+",
    b"*",
    b"d",
    b"s",
    b";",
    b"q",
    b"e",
    b"y",
];

static WITH_HINTS: [Family; 4] = [
    Family {
        encoding: NOT_BOTH,
        logs: &[
            b"embedding proof 1\nm 2\nu 0.1 ; 1 2 ;\ne 0.1\n",
            b"embedding proof 1\nm 2\np 3.1 1 ;\nn 7 3.1\np 0.1 #7 2 + ;\ne 0.1\n",
            b"embedding proof 1\nm 2\n\
                p 0.1 1 4611686018427387904 * 4611686018427387904 * 2 * ;\n\
                u 0.2 x1 ; 0.1 ;\nu 0.3 ; 2 0.2 ;\ne 0.3\n",
        ],
    },
    Family {
        encoding: OPEN,
        logs: &[
            b"embedding proof 1\nm 2\ny x1\n",
            b"embedding proof 1\nm 2\nu 0.1 x1 ; 1 2 ;\nu 0.2 x1 x2 ; 0.1 ;\ny x1 x2\n",
            b"embedding proof 1\nm 2\np 0.1 1 2 + 2 d s x2 + 3 * ~x1 + ;\nn 0 0.1\n\
                n 4194303 0.1\nu 64.1 x1 ; #0 2 ;\nq\n",
            b"embedding proof 1\nm 2\np 0.1 1 2 * 3 * 2 d 3 d ;\nq\n",
            b"embedding proof 1\nm 2\np 0.1 1 2 + 2 d ;\nn 7 0.1\nd 0.1\nu 0.2 x1 ; #7 ;\nd #7\n\
                p 0.3 0.2 ;\nd 0.2\ny x1\n",
            b"embedding proof 1\nm 2\np 0.1 1 0 * ;\nq\n",
            b"embedding proof 1\nm 2\np 0.1 1 + ;\nq\n",
            b"embedding proof 1\nm 2\nu 0.1 x1 x1 ; 1 ;\nq\n",
            b"embedding proof 1\nm 2\np 0.1 1 9223372036854775807 * 9223372036854775807 * ;\nq\n",
        ],
    },
    Family {
        encoding: THREE_INTO_TWO,
        logs: &[
            b"embedding proof 1\nm 8\np 0.1 1 3 + 5 + 7 + 8 + 3 d ;\ne 0.1\n",
            b"embedding proof 1\nm 8\np 1.1 1 3 + 5 + ;\nn 0 1.1\np 2.1 7 8 + ;\nn 1 2.1\n\
                p 0.1 #0 #1 + s ;\ne 0.1\n",
            b"embedding proof 1\nm 8\nu 0.1 ~x1 ; 7 3 8 5 ;\nu 0.2 ; 0.1 1 8 3 7 5 ;\ne 0.2\n",
        ],
    },
    Family {
        encoding: TRIANGLE_INTO_CYCLE,
        logs: &[NO_TRIANGLE],
    },
];

static WITHOUT_HINTS: [Family; 4] = [
    Family {
        encoding: NOT_BOTH,
        logs: &[
            b"embedding proof 2\nm 2\nu 0.1 ;\ne 0.1\n",
            b"embedding proof 2\nm 2\np 3.1 1 ;\nn 7 3.1\np 0.1 #7 2 + ;\ne 0.1\n",
            b"embedding proof 2\nm 2\n\
                p 0.1 1 4611686018427387904 * 4611686018427387904 * 2 * ;\n\
                u 0.2 x1 ;\nu 0.3 ;\ne 0.3\n",
        ],
    },
    Family {
        encoding: OPEN,
        logs: &[
            b"embedding proof 2\nm 2\ny x1\n",
            b"embedding proof 2\nm 2\nu 0.1 x1 ;\nu 0.2 x1 x2 ;\ny x1 x2\n",
            b"embedding proof 2\nm 2\np 0.1 1 2 + 2 d s x2 + 3 * ~x1 + ;\nn 0 0.1\n\
                n 4194303 0.1\nu 64.1 x1 ;\nq\n",
            b"embedding proof 2\nm 2\np 0.1 1 2 * 3 * 2 d 3 d ;\nq\n",
            b"embedding proof 2\nm 2\np 0.1 1 2 + 2 d ;\nn 7 0.1\nd 0.1\nu 0.2 x1 ;\nd #7\n\
                p 0.3 0.2 ;\nd 0.2\ny x1\n",
        ],
    },
    Family {
        encoding: THREE_INTO_TWO,
        logs: &[
            b"embedding proof 2\nm 8\np 0.1 1 3 + 5 + 7 + 8 + 3 d ;\ne 0.1\n",
            b"embedding proof 2\nm 8\np 1.1 1 3 + 5 + ;\nn 0 1.1\np 2.1 7 8 + ;\nn 1 2.1\n\
                p 0.1 #0 #1 + s ;\ne 0.1\n",
            b"embedding proof 2\nm 8\nu 0.1 ~x1 ;\nu 0.2 ;\ne 0.2\n",
            b"embedding proof 2\nm 8\nu 0.1 ~x1 ;\nn 7 0.1\nd 0.1\nu 0.2 ;\nd 0.2\nu 0.3 ;\nd #7\n\
                u 0.4 x2 ;\ne 0.3\n",
        ],
    },
    Family {
        encoding: TRIANGLE_INTO_CYCLE,
        logs: &[NO_TRIANGLE_WITHOUT_HINTS],
    },
];

/// How many causes are met on all logs, and how many logs are accepted, where both say the same of
/// each.
fn met_on(alloc: Global, families: &[Family]) -> Result<Option<(usize, u64)>, AllocError> {
    let mut met = Met {
        causes: Vec::new(alloc),
        accepted: 0,
    };
    match first_difference(alloc, families, &mut met)? {
        Some(_) => Ok(None),
        None => Ok(Some((met.causes.len(), met.accepted))),
    }
}

#[test]
fn spoilt_logs_with_hints(rt: HostRuntime) -> Result<(), Fail> {
    let met = met_on(rt.alloc(), &WITH_HINTS)?;
    let (causes, accepted) = met.ok_or("a log is judged otherwise")?;
    assert!(rt; causes == 12 && accepted > 0);
    Ok(())
}

#[test]
fn spoilt_logs_without_hints(rt: HostRuntime) -> Result<(), Fail> {
    let met = met_on(rt.alloc(), &WITHOUT_HINTS)?;
    let (causes, accepted) = met.ok_or("a log is judged otherwise")?;
    assert!(rt; causes == 12 && accepted > 0);
    Ok(())
}
