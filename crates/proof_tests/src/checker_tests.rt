//! Worked logs: what each shows over small models, line and cause of each refusal.

ghost use Rattle.std.specs.Prelude.{◌<◌};

use Expected::{Is, Stops};
use log_theory::{Cause, Verdict};
use opb_text::{Model, read_opb};
use proof_checker::{Checked, Checker, check, check_file};
use std::alloc::{AllocError, Global};
use std::test::Fail;
use test_support::models::{NO_TRIANGLE, NOT_BOTH, THREE_INTO_TWO, TRIANGLE_INTO_CYCLE};
use test_support::{Example, InMemory, all_hold, files_in_memory};

/// What is expected of a log.
#[derive(Clone, Copy)]
pub enum Expected {
    /// This verdict.
    Is(Verdict),
    /// That it is refused at this line for this cause.
    Stops(u64, Cause),
}

/// Whether a verdict is the one expected.
pub fn is_expected(verdict: Verdict, expected: Expected) -> bool {
    match expected {
        Is(other) => verdict == other,
        Stops(line, cause) => verdict == Verdict::Refused { line, cause },
    }
}

/// A log of its first lines and what is behind them.
pub fn with_head(alloc: Global, head: &[u8], rest: &str) -> Result<Vec<u8>, AllocError> {
    let mut log = Vec::from_slice(alloc, head)?;
    log.extend_from_slice(rest.as_bytes())?;
    Ok(log)
}

/// Whether a log over the model of a text is judged as expected.
pub fn is_judged(alloc: Global, model: &[u8], log: &[u8], expected: Expected) -> bool {
    match read_opb(alloc, model) {
        Ok(model) => is_expected(check(alloc, &model, log), expected),
        Err(_) => false,
    }
}

/// What is behind the first two lines of a log over `NOT_BOTH`, and what is expected.
struct Shows(&'static str, Expected);

impl<R> Example<R> for Shows {
    fn holds(&self, _rt: &R, alloc: Global) -> Result<bool, AllocError> {
        let log = with_head(alloc, b"embedding proof 1\nm 2\n", self.0)?;
        Ok(is_judged(alloc, NOT_BOTH, &log, self.1))
    }
}

static OVER_TWO_LINES: [Shows; 36] = [
    Shows("u 0.1 ; 1 2 ;\ne 0.1\n", Is(Verdict::Unsatisfiable)),
    Shows("u 0.1 ; 2 1 ;\ne 0.1\n", Is(Verdict::Unsatisfiable)),
    Shows("p 0.1 1 2 + ;\ne 0.1\n", Is(Verdict::Unsatisfiable)),
    Shows(
        "p 3.1 1 ;\nn 7 3.1\np 0.1 #7 2 + ;\ne 0.1\n",
        Is(Verdict::Unsatisfiable),
    ),
    Shows("q\n", Is(Verdict::Undecided)),
    Shows("u 0.1 ; 2 ;\n", Stops(3, Cause::NoConflict)),
    Shows(
        "u 0.1 ~x1 ; 2 ;\nu 0.2 ; 1 0.1 ;\nq\n",
        Is(Verdict::Undecided),
    ),
    Shows(
        "p 0.1 1 9223372036854775807 * 9223372036854775807 * ;\n",
        Stops(3, Cause::Wide),
    ),
    Shows("p 0.1 0.2 ;\n", Stops(3, Cause::NoSuchName)),
    Shows("p 0.1 1 ;\np 0.1 2 ;\n", Stops(4, Cause::NameUsed)),
    Shows("", Stops(3, Cause::EndsEarly)),
    Shows("p 65.1 1 ;\n", Stops(3, Cause::Form)),
    Shows("p 0.1 01 ;\n", Stops(3, Cause::Form)),
    Shows("p 0.1 1 9223372036854775808 * ;\n", Stops(3, Cause::Form)),
    Shows("n 0 1\n", Stops(3, Cause::Form)),
    Shows("p 0.2 1 ;\n", Stops(3, Cause::Order)),
    Shows("p 0.3 x2 ;\n", Stops(3, Cause::Form)),
    Shows("u 0.1 x1 ~x1 ; 1 ;\n", Stops(3, Cause::Twice)),
    Shows("u 0.1 x1 x1 ; 9 ;\n", Stops(3, Cause::Twice)),
    Shows("u 0.1 ; 1 3 ;\n", Stops(3, Cause::NoSuchName)),
    Shows("p 0.1 3 ;\n", Stops(3, Cause::NoSuchName)),
    Shows("p 0.1 0 ;\n", Stops(3, Cause::NoSuchName)),
    Shows("p 0.1 + ;\n", Stops(3, Cause::Stack)),
    Shows("p 0.1 1 2 ;\n", Stops(3, Cause::Stack)),
    Shows("p 0.1 0 * ;\n", Stops(3, Cause::Zero)),
    Shows("e 1\n", Stops(3, Cause::NotFalse)),
    Shows("y x1\n", Stops(3, Cause::NotSolution)),
    Shows("y\n", Stops(3, Cause::NotSolution)),
    Shows("y x1 x1\n", Stops(3, Cause::Twice)),
    Shows("q\nq\n", Stops(4, Cause::Form)),
    Shows("q\nq", Stops(4, Cause::Form)),
    Shows("q", Stops(3, Cause::EndsEarly)),
    Shows("p 0.1 1 ;\nn 7 0.1\nn 7 0.1\n", Stops(5, Cause::NameUsed)),
    Shows("p 0.1 1 ;\nn 7 0.1\nn 3 0.1\n", Stops(5, Cause::Order)),
    Shows("n 7 0.1\n", Stops(3, Cause::NoSuchName)),
    Shows("p 0.1 #7 ;\n", Stops(3, Cause::NoSuchName)),
];

#[test]
fn logs_over_two_lines(rt: HostRuntime) -> Result<(), Fail> {
    all_hold(&rt, rt.alloc(), &OVER_TWO_LINES)
}

static DELETED: [Shows; 19] = [
    Shows(
        "p 0.1 1 ;\nd 0.1\np 0.2 0.1 ;\n",
        Stops(5, Cause::NoSuchName),
    ),
    Shows(
        "p 0.1 1 ;\nd 0.1\nu 0.2 ; 2 0.1 ;\n",
        Stops(5, Cause::NoSuchName),
    ),
    Shows("p 0.1 1 ;\nd 0.1\nn 7 0.1\n", Stops(5, Cause::NoSuchName)),
    Shows("u 0.1 ; 1 2 ;\nd 0.1\ne 0.1\n", Stops(5, Cause::NoSuchName)),
    Shows("p 0.1 1 ;\nd 0.1\nd 0.1\n", Stops(5, Cause::NoSuchName)),
    Shows("d 0.1\n", Stops(3, Cause::NoSuchName)),
    Shows("d #7\n", Stops(3, Cause::NoSuchName)),
    Shows("d 3\n", Stops(3, Cause::Form)),
    Shows("d 2\n", Stops(3, Cause::Form)),
    Shows("p 0.1 1 ;\nd 0.1\np 0.1 1 ;\n", Stops(5, Cause::NameUsed)),
    Shows("p 0.1 1 ;\nd 0.1\np 0.3 1 ;\n", Stops(5, Cause::Order)),
    Shows(
        "p 0.1 1 ;\nn 7 0.1\nd #7\nn 7 0.1\n",
        Stops(6, Cause::NameUsed),
    ),
    Shows(
        "p 0.1 1 ;\nn 7 0.1\nd #7\nn 3 0.1\n",
        Stops(6, Cause::Order),
    ),
    Shows(
        "p 0.1 1 ;\nn 7 0.1\nd #7\nd #7\n",
        Stops(6, Cause::NoSuchName),
    ),
    Shows(
        "p 0.1 1 ;\nd 0.1\np 0.2 1 2 + ;\ne 0.2\n",
        Is(Verdict::Unsatisfiable),
    ),
    // A row goes on naming what a name no longer names, and the other way round.
    Shows(
        "u 0.1 ; 1 2 ;\nn 7 0.1\nd 0.1\ne #7\n",
        Is(Verdict::Unsatisfiable),
    ),
    Shows(
        "u 0.1 ; 1 2 ;\nn 7 0.1\nd #7\ne 0.1\n",
        Is(Verdict::Unsatisfiable),
    ),
    Shows(
        "u 0.1 ; 1 2 ;\nn 7 0.1\nn 8 0.1\nd 0.1\nd #7\ne #8\n",
        Is(Verdict::Unsatisfiable),
    ),
    Shows(
        "u 0.1 ; 1 2 ;\nn 7 0.1\nd #7\ne #7\n",
        Stops(6, Cause::NoSuchName),
    ),
];

#[test]
fn lines_that_delete(rt: HostRuntime) -> Result<(), Fail> {
    all_hold(&rt, rt.alloc(), &DELETED)
}

/// A model's text, a whole log, and its verdict.
pub struct Whole {
    pub model: &'static [u8],
    pub log: &'static [u8],
    pub verdict: Expected,
}

impl<R> Example<R> for Whole {
    fn holds(&self, _rt: &R, alloc: Global) -> Result<bool, AllocError> {
        Ok(is_judged(alloc, self.model, self.log, self.verdict))
    }
}

/// No constraint.
const NOTHING: &[u8] = b"* #variable= 0 #constraint= 0\n";

/// A constraint that does not hold, and one that does.
const NEVER: &[u8] = b"* #variable= 0 #constraint= 2\n>= 1 ;\n>= -1 ;\n";

/// A model that states all variables there can be, of which a log names two: memory goes by those.
const ALL_VARIABLES: &[u8] =
    b"* #variable= 4294967295 #constraint= 2\n+1 x1 >= 1 ;\n-1 x1 >= 0 ;\n";

static SMALL_MODELS: [Whole; 8] = [
    Whole {
        model: NOT_BOTH,
        log: b"",
        verdict: Stops(1, Cause::EndsEarly),
    },
    Whole {
        model: NOT_BOTH,
        log: b"embedding proof 3\n",
        verdict: Stops(1, Cause::Form),
    },
    Whole {
        model: NOT_BOTH,
        log: b"embedding proof 2\n",
        verdict: Stops(2, Cause::EndsEarly),
    },
    Whole {
        model: NOT_BOTH,
        log: b"embedding proof 1\nm 3\n",
        verdict: Stops(2, Cause::Form),
    },
    Whole {
        model: NOTHING,
        log: b"embedding proof 1\nm 0\ny\n",
        verdict: Is(Verdict::Satisfiable),
    },
    Whole {
        model: NEVER,
        log: b"embedding proof 1\nm 2\ne 1\n",
        verdict: Is(Verdict::Unsatisfiable),
    },
    Whole {
        model: NEVER,
        log: b"embedding proof 1\nm 2\ne 2\n",
        verdict: Stops(3, Cause::NotFalse),
    },
    Whole {
        model: ALL_VARIABLES,
        log: b"embedding proof 1\nm 2\nu 0.1 ; 1 2 ;\nu 0.2 x9 ; 0.1 ;\ne 0.1\n",
        verdict: Is(Verdict::Unsatisfiable),
    },
];

#[test]
fn head_lines_and_small_models(rt: HostRuntime) -> Result<(), Fail> {
    all_hold(&rt, rt.alloc(), &SMALL_MODELS)
}

/// Three vertices go to two: the sum of all constraints, divided by three.
static COUNTED: [Whole; 1] = [Whole {
    model: THREE_INTO_TWO,
    log: b"embedding proof 1\nm 8\np 0.1 1 3 + 5 + 7 + 8 + 3 d ;\ne 0.1\n",
    verdict: Is(Verdict::Unsatisfiable),
}];

#[test]
fn counting_refutes_three_into_two(rt: HostRuntime) -> Result<(), Fail> {
    all_hold(&rt, rt.alloc(), &COUNTED)
}

/// Coefficients that sum to exactly 2^31, and to one less.
const HEAVY: &[u8] = b"* #variable= 2 #constraint= 3
+2147483647 x1 +1 x2 >= 2147483648 ;
-2147483646 x1 -1 x2 >= -2147483646 ;
+1 x1 >= 1 ;
";

/// Constraints whose coefficients sum to 2^31 or more, made by a model, a multiple and a sum, beside lighter ones.
static AROUND_2_31: [Whole; 6] = [
    Whole {
        model: HEAVY,
        log: b"embedding proof 1\nm 3\nu 0.1 ; 1 2 ;\ne 0.1\n",
        verdict: Is(Verdict::Unsatisfiable),
    },
    Whole {
        model: HEAVY,
        log: b"embedding proof 2\nm 3\nu 0.1 ;\ne 0.1\n",
        verdict: Is(Verdict::Unsatisfiable),
    },
    Whole {
        model: HEAVY,
        log: b"embedding proof 1\nm 3\nu 0.1 ; 2 3 ;\n",
        verdict: Stops(3, Cause::NoConflict),
    },
    Whole {
        model: HEAVY,
        log: b"embedding proof 1\nm 3\ny x1 x2\n",
        verdict: Stops(3, Cause::NotSolution),
    },
    Whole {
        model: NOT_BOTH,
        log: b"embedding proof 1\nm 2\np 0.1 1 2147483647 * ;\np 0.2 0.1 1 + ;\np 0.3 2 2147483648 * 0.2 + ;\ne 0.3\n",
        verdict: Is(Verdict::Unsatisfiable),
    },
    Whole {
        model: NOT_BOTH,
        log: b"embedding proof 1\nm 2\np 0.1 1 4294967296 * 4294967296 d 2 + ;\ne 0.1\n",
        verdict: Is(Verdict::Unsatisfiable),
    },
];

#[test]
fn coefficients_around_2_31(rt: HostRuntime) -> Result<(), Fail> {
    all_hold(&rt, rt.alloc(), &AROUND_2_31)
}

/// How many bytes the first front of a log has that does not end early, at the line after its last whole one.
fn first_front_that_ends(alloc: Global, model: &Model, log: &[u8]) -> usize {
    let mut line: u64 = 1;
    for n in 0..log.len() {
        let verdict = check(alloc, model, &log[..n]);
        if !is_expected(verdict, Stops(line, Cause::EndsEarly)) {
            return n;
        }
        if log[n] == b'\n' {
            line = line.wrapping_add(1);
        }
    }
    log.len()
}

/// A model's text, and a log over it that is accepted, of which each front ends early.
struct Fronts(&'static [u8], &'static [u8]);

impl<R> Example<R> for Fronts {
    fn holds(&self, _rt: &R, alloc: Global) -> Result<bool, AllocError> {
        match read_opb(alloc, self.0) {
            Ok(model) => Ok(
                check(alloc, &model, self.1) == Verdict::Unsatisfiable
                    && first_front_that_ends(alloc, &model, self.1) == self.1.len(),
            ),
            Err(_) => Ok(false),
        }
    }
}

static FRONTS: [Fronts; 1] = [Fronts(TRIANGLE_INTO_CYCLE, NO_TRIANGLE)];

#[test]
fn each_front_of_an_accepted_log_ends_early(rt: HostRuntime) -> Result<(), Fail> {
    all_hold(&rt, rt.alloc(), &FRONTS)
}

/// Two logs over two constraints, whole.
static FROM_TEXTS: [Whole; 2] = [
    Whole {
        model: NOT_BOTH,
        log: b"embedding proof 1\nm 2\nu 0.1 ; 1 2 ;\ne 0.1\n",
        verdict: Is(Verdict::Unsatisfiable),
    },
    Whole {
        model: NOT_BOTH,
        log: b"embedding proof 1\nm 2\nu 0.1 ; 2 ;\ne 0.1\n",
        verdict: Stops(3, Cause::NoConflict),
    },
];

#[test]
fn a_model_from_its_text(rt: HostRuntime) -> Result<(), Fail> {
    all_hold(&rt, rt.alloc(), &FROM_TEXTS)
}

/// Feeds a log by pieces of so many bytes.
fn feed_all(alloc: Global, checker: &mut Checker, log: &[u8], size: usize) -> Result<(), AllocError>
    requires { 0 < size }
{
    for piece in log.chunks(size) {
        checker.feed(alloc, piece)?;
    }
    Ok(())
}

/// The verdict of a log that is fed so.
fn fed_by(alloc: Global, model: &Model, log: &[u8], size: usize) -> Result<Verdict, AllocError>
    requires { 0 < size }
{
    let mut checker = Checker::new(alloc, model)?;
    feed_all(alloc, &mut checker, log, size)?;
    Ok(checker.finish())
}

/// Whether a log has this verdict by pieces of one byte, of two and so on.
fn shows_however_cut(
    alloc: Global,
    model: &Model,
    log: &[u8],
    expected: Expected,
) -> Result<bool, AllocError> {
    for less in 0..log.len() {
        let verdict = fed_by(alloc, model, log, less + 1)?;
        if !is_expected(verdict, expected) {
            return Ok(false);
        }
    }
    Ok(true)
}

/// A log that is fed by pieces of every size, and what is expected of each.
struct Cut(Whole);

impl<R> Example<R> for Cut {
    fn holds(&self, _rt: &R, alloc: Global) -> Result<bool, AllocError> {
        match read_opb(alloc, self.0.model) {
            Ok(model) => shows_however_cut(alloc, &model, self.0.log, self.0.verdict),
            Err(_) => Ok(false),
        }
    }
}

static CUT: [Cut; 5] = [
    // so is one that deletes, with its hints and without
    Cut(Whole {
        model: THREE_INTO_TWO,
        log: b"embedding proof 1\nm 8\np 0.1 1 3 + 5 + ;\nn 7 0.1\nd 0.1\np 0.2 #7 7 + 8 + 3 d ;\nd #7\ne 0.2\n",
        verdict: Is(Verdict::Unsatisfiable),
    }),
    Cut(Whole {
        model: THREE_INTO_TWO,
        log: b"embedding proof 2\nm 8\nu 0.1 ~x1 ;\nn 7 0.1\nd 0.1\nu 0.2 ;\nd #7\ne 0.2\n",
        verdict: Is(Verdict::Unsatisfiable),
    }),
    Cut(Whole {
        model: NOT_BOTH,
        log: b"embedding proof 1\nm 2\np 0.1 1 ;\nd 0.1\np 0.2 0.1 ;\n",
        verdict: Stops(5, Cause::NoSuchName),
    }),
    // a log is accepted however it is cut
    Cut(Whole {
        model: TRIANGLE_INTO_CYCLE,
        log: NO_TRIANGLE,
        verdict: Is(Verdict::Unsatisfiable),
    }),
    // text behind a claim is refused however it is cut
    Cut(Whole {
        model: NOT_BOTH,
        log: b"embedding proof 1\nm 2\nq\nq\nx",
        verdict: Stops(4, Cause::Form),
    }),
];

#[test]
fn a_log_is_judged_alike_however_it_is_cut(rt: HostRuntime) -> Result<(), Fail> {
    all_hold(&rt, rt.alloc(), &CUT)
}

/// A log in a file: how many bytes it may have, which call on the files fails (0: none), and what is told.
struct InFile {
    file: &'static [InMemory],
    most: u64,
    failing: u64,
    expected: Checked,
}

const SHORT: &[InMemory] = &[InMemory("l", Some(b"embedding proof 1\nm 2\nq\n"), 0)];

const WRONG: &[InMemory] = &[InMemory("l", Some(b"embedding proof 3\nm 2\nq\n"), 0)];

static IN_FILES: [InFile; 8] = [
    InFile {
        file: SHORT,
        most: 24,
        failing: 0,
        expected: Checked::Verdict(Verdict::Undecided),
    },
    InFile {
        file: SHORT,
        most: u64::MAX,
        failing: 0,
        expected: Checked::Verdict(Verdict::Undecided),
    },
    InFile {
        file: SHORT,
        most: 23,
        failing: 0,
        expected: Checked::TooLong,
    },
    InFile {
        file: WRONG,
        most: 24,
        failing: 0,
        expected: Checked::Verdict(Verdict::Refused {
            line: 1,
            cause: Cause::Form,
        }),
    },
    InFile {
        file: WRONG,
        most: 10,
        failing: 0,
        expected: Checked::TooLong,
    },
    InFile {
        file: SHORT,
        most: 24,
        failing: 1,
        expected: Checked::Failed,
    },
    InFile {
        file: WRONG,
        most: 24,
        failing: 2,
        expected: Checked::Failed,
    },
    InFile {
        file: SHORT,
        most: 24,
        failing: 3,
        expected: Checked::Failed,
    },
];

impl<R> Example<R> for InFile {
    fn holds(&self, _rt: &R, alloc: Global) -> Result<bool, AllocError> {
        let mut files = files_in_memory(alloc, self.file, self.failing)?;
        match read_opb(alloc, NOT_BOTH) {
            Ok(model) => {
                Ok(check_file(alloc, &model, &mut files, "l", self.most) == self.expected)
            }
            Err(_) => Ok(false),
        }
    }
}

#[test]
fn logs_in_files(rt: HostRuntime) -> Result<(), Fail> {
    all_hold(&rt, rt.alloc(), &IN_FILES)
}
