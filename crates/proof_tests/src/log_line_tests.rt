//! Lines of logs, read and written.

ghost use Rattle.log_theory.specs.LogText.{IsStep};

use crate::file_tests::sink_of;
use log_theory::{Profile, Step};
use outer_io::MemorySink;
use proof_log::{StepFault, plain, read_step, write_step};
use std::alloc::{AllocError, Global};
use std::test::Fail;
use test_support::{Example, all_hold};

/// Whether a step is written as this line in a log of this profile.
fn is_written_as(
    alloc: Global,
    profile: Profile,
    step: &Step,
    line: &[u8],
) -> Result<bool, AllocError>
    requires { IsStep step.now }
{
    let mut sink = sink_of(alloc, 256)?;
    let done = write_step(profile, step, &mut sink);
    Ok(done.is_ok() && sink.bytes().strip_suffix(b"\n") == Some(line))
}

/// A line that is read, and whose step is written as it.
struct Kept(&'static [u8]);

impl<R> Example<R> for Kept {
    fn holds(&self, _rt: &R, alloc: Global) -> Result<bool, AllocError> {
        let Ok(step) = read_step(alloc, Profile::Hinted, self.0) else {
            return Ok(false);
        };
        is_written_as(alloc, Profile::Hinted, &step, self.0)
    }
}

static KEPT: [Kept; 50] = [
    // a triangle into a cycle of four
    Kept(b"embedding proof 1"),
    Kept(b"m 34"),
    Kept(b"p 0.1 15 24 + 6 + ;"),
    Kept(b"p 0.2 15 26 + 6 + ;"),
    Kept(b"u 0.3 ~x1 ; 0.1 0.2 11 ;"),
    Kept(b"p 0.4 16 23 + 6 + ;"),
    Kept(b"p 0.5 16 25 + 6 + ;"),
    Kept(b"u 0.6 ~x2 ; 0.4 0.5 12 ;"),
    Kept(b"p 0.7 17 24 + 6 + ;"),
    Kept(b"p 0.8 17 26 + 6 + ;"),
    Kept(b"u 0.9 ~x3 ; 0.7 0.8 13 ;"),
    Kept(b"p 0.10 18 23 + 6 + ;"),
    Kept(b"p 0.11 18 25 + 6 + ;"),
    Kept(b"u 0.12 ~x4 ; 0.10 0.11 14 ;"),
    Kept(b"u 0.13 ; 0.3 0.6 0.9 0.12 1 ;"),
    Kept(b"e 0.13"),
    // short logs, lawful and not
    Kept(b"m 0"),
    Kept(b"y"),
    Kept(b"m 2"),
    Kept(b"e 1"),
    Kept(b"m 8"),
    Kept(b"p 0.1 1 3 + 5 + 7 + 8 + 3 d ;"),
    Kept(b"e 0.1"),
    Kept(b"u 0.1 ; 1 2 ;"),
    Kept(b"u 0.1 ; 2 ;"),
    Kept(b"q"),
    Kept(b"p 0.1 1 9223372036854775807 * 9223372036854775807 * ;"),
    Kept(b"p 0.1 0.2 ;"),
    Kept(b"p 0.1 1 ;"),
    Kept(b"p 0.1 2 ;"),
    Kept(b"p 0.2 1 ;"),
    Kept(b"u 0.1 x1 ~x1 ; 1 ;"),
    Kept(b"p 0.1 + ;"),
    Kept(b"p 0.1 1 2 ;"),
    Kept(b"p 0.1 0 * ;"),
    Kept(b"y x1"),
    // numbers at their limits, empty lists
    Kept(b"p 64.9223372036854775807 ~x4294967295 x0 #4194303 + s ;"),
    Kept(b"p 0.1 ;"),
    Kept(b"p 0.1 0 0 d 1 0 * s 2 ;"),
    Kept(b"u 0.1 ; ;"),
    Kept(b"n 0 1.1"),
    Kept(b"n 4194303 64.1"),
    Kept(b"e #4194303"),
    Kept(b"e 9223372036854775807"),
    Kept(b"y x1 x4294967295 x0"),
    Kept(b"y x7 x7"),
    // deletions
    Kept(b"d 0.1"),
    Kept(b"d 64.9223372036854775807"),
    Kept(b"d #0"),
    Kept(b"d #4194303"),
];

#[test]
fn reads_and_writes_lines(rt: HostRuntime) -> Result<(), Fail> {
    all_hold(&rt, rt.alloc(), &KEPT)
}

/// A line that is no step.
struct Refused(&'static [u8]);

impl<R> Example<R> for Refused {
    fn holds(&self, _rt: &R, alloc: Global) -> Result<bool, AllocError> {
        match read_step(alloc, Profile::Hinted, self.0) {
            Err(fault) => Ok(fault == StepFault::Form),
            Ok(_) => Ok(false),
        }
    }
}

static REFUSED: [Refused; 46] = [
    // an owner out of range
    Refused(b"p 65.1 1 ;"),
    // a leading zero
    Refused(b"p 0.1 01 ;"),
    // an operand of 2^63
    Refused(b"p 0.1 1 9223372036854775808 * ;"),
    // a row without a dot
    Refused(b"n 0 1"),
    // no words
    Refused(b""),
    // a blank
    Refused(b" "),
    // a blank in front
    Refused(b" q"),
    // a blank behind
    Refused(b"q "),
    // two blanks
    Refused(b"e  0.1"),
    // a tab
    Refused(b"e\t0.1"),
    // a carriage return
    Refused(b"q\r"),
    // an unknown word
    Refused(b"x 0.1 1 ;"),
    // a longer kind
    Refused(b"qq"),
    // a byte that is no text
    Refused(b"\xff"),
    // an empty list's second blank
    Refused(b"u 0.1  ; 1 ;"),
    // no end
    Refused(b"p 0.1 1"),
    // no second end
    Refused(b"u 0.1 x1 ;"),
    // a word behind the end
    Refused(b"p 0.1 1 ; 2"),
    // a word behind the second end
    Refused(b"u 0.1 ; 1 ; 2"),
    // an end at a word
    Refused(b"p 0.1 1;"),
    // a row of 2^22
    Refused(b"n 4194304 0.1"),
    // a reference to such a row
    Refused(b"e #4194304"),
    // a row with a leading zero
    Refused(b"e #00"),
    // a row without digits
    Refused(b"e #"),
    // a variable of 2^32
    Refused(b"y x4294967296"),
    // a negated one
    Refused(b"y ~x1"),
    // a variable alone
    Refused(b"y 1"),
    // two signs
    Refused(b"u 0.1 ~~x1 ; ;"),
    // a number for a literal
    Refused(b"u 0.1 1 ; ;"),
    // a literal for a reference
    Refused(b"u 0.1 ; x1 ;"),
    // a number 0
    Refused(b"e 0.0"),
    // two dots
    Refused(b"e 0.1.1"),
    // no owner
    Refused(b"e .1"),
    // a leading zero of the owner
    Refused(b"e 00.1"),
    // a sign without an operand
    Refused(b"p 0.1 * ;"),
    // a sign behind an operation
    Refused(b"p 0.1 1 + * ;"),
    // two signs with one operand
    Refused(b"p 0.1 2 * d ;"),
    // a name as an operand
    Refused(b"p 0.1 0.1 d ;"),
    // a number of twenty digits
    Refused(b"m 99999999999999999999"),
    // a number that wraps to 0
    Refused(b"e 340282366920938463463374607431768211456"),
    // a deletion of a constraint of the encoding
    Refused(b"d 1"),
    // of nothing
    Refused(b"d"),
    // of two
    Refused(b"d 0.1 0.2"),
    // of a row of 2^22
    Refused(b"d #4194304"),
    // of a number 0
    Refused(b"d 0.0"),
    // of a variable
    Refused(b"d x1"),
];

#[test]
fn refuses_lines(rt: HostRuntime) -> Result<(), Fail> {
    all_hold(&rt, rt.alloc(), &REFUSED)
}

/// The line whose writing is to stop.
const LINE: &[u8] = b"u 64.7 ~x3 ; #12 ;";

/// Whether writing the line fails where this call on the sink fails, and leaves a front part of it.
fn stops_at(alloc: Global, call: u64) -> Result<bool, AllocError> {
    let mut sink = MemorySink::new(alloc, 64, Vec::from_slice(alloc, &[call])?)?;
    match read_step(alloc, Profile::Hinted, LINE) {
        Ok(step) => Ok(
            write_step(Profile::Hinted, &step, &mut sink).is_err()
                && LINE.starts_with(sink.bytes()),
        ),
        Err(_) => Ok(false),
    }
}

/// The first call, from 1, whose fault does not stop it so, or 12. The line's kind, a name, a reference or a literal goes to the sink by one call.
fn first_not_stopped(alloc: Global) -> Result<u64, AllocError> {
    for call in 1u64..12 {
        if !stops_at(alloc, call)? {
            return Ok(call);
        }
    }
    Ok(12)
}

#[test]
fn stops_where_the_sink_fails(rt: HostRuntime) -> Result<(), Fail> {
    assert!(rt; first_not_stopped(rt.alloc())? == 7);
    Ok(())
}

/// Whether two steps are written as the same line.
fn are_alike(alloc: Global, one: &Step, other: &Step) -> Result<bool, AllocError>
    requires one { IsStep one.now }
    requires other { IsStep other.now }
{
    let mut first = sink_of(alloc, 256)?;
    let mut second = sink_of(alloc, 256)?;
    Ok(
        write_step(Profile::Hinted, one, &mut first).is_ok()
            && write_step(Profile::Hinted, other, &mut second).is_ok()
            && first.bytes() == second.bytes(),
    )
}

/// Whether a step is written as this line without hints, and is the step that was read in it once its hints are dropped.
fn is_dropped(alloc: Global, step: &Step, read: &Step, line: &[u8]) -> Result<bool, AllocError>
    requires step { IsStep step.now }
    requires read { IsStep read.now }
{
    if !is_written_as(alloc, Profile::Plain, step, line)? {
        return Ok(false);
    }
    let dropped = plain(alloc, step)?;
    are_alike(alloc, read, &dropped)
}

/// A line of a log with hints, and the same line without them.
struct Dropped(&'static [u8], &'static [u8]);

impl<R> Example<R> for Dropped {
    fn holds(&self, _rt: &R, alloc: Global) -> Result<bool, AllocError> {
        let Ok(step) = read_step(alloc, Profile::Hinted, self.0) else {
            return Ok(false);
        };
        let Ok(read) = read_step(alloc, Profile::Plain, self.1) else {
            return Ok(false);
        };
        is_dropped(alloc, &step, &read, self.1)
    }
}

static DROPPED: [Dropped; 11] = [
    Dropped(b"embedding proof 1", b"embedding proof 2"),
    Dropped(b"m 34", b"m 34"),
    Dropped(b"p 0.1 15 24 + 6 + ;", b"p 0.1 15 24 + 6 + ;"),
    Dropped(b"u 0.3 ~x1 ; 0.1 0.2 11 ;", b"u 0.3 ~x1 ;"),
    Dropped(b"u 0.13 ; #3 ;", b"u 0.13 ;"),
    Dropped(b"n 0 1.1", b"n 0 1.1"),
    Dropped(b"d 0.3", b"d 0.3"),
    Dropped(b"d #3", b"d #3"),
    Dropped(b"e 0.13", b"e 0.13"),
    Dropped(b"y x1 x2", b"y x1 x2"),
    Dropped(b"q", b"q"),
];

#[test]
fn reads_and_writes_lines_without_hints(rt: HostRuntime) -> Result<(), Fail> {
    all_hold(&rt, rt.alloc(), &DROPPED)
}

/// A line that is no step in a log of this profile.
struct Other(Profile, &'static [u8]);

impl<R> Example<R> for Other {
    fn holds(&self, _rt: &R, alloc: Global) -> Result<bool, AllocError> {
        match read_step(alloc, self.0, self.1) {
            Err(fault) => Ok(fault == StepFault::Form),
            Ok(_) => Ok(false),
        }
    }
}

static OF_THE_OTHER_PROFILE: [Other; 8] = [
    Other(Profile::Plain, b"embedding proof 1"),
    Other(Profile::Plain, b"u 0.1 ; 2 ;"),
    Other(Profile::Plain, b"u 0.1 ; ;"),
    Other(Profile::Plain, b"u 0.1 x1"),
    Other(Profile::Plain, b"u 0.1 x1 ; 2"),
    Other(Profile::Plain, b"embedding proof 3"),
    Other(Profile::Hinted, b"embedding proof 2"),
    Other(Profile::Hinted, b"u 0.1 ;"),
];

#[test]
fn refuses_lines_of_the_other_profile(rt: HostRuntime) -> Result<(), Fail> {
    all_hold(&rt, rt.alloc(), &OF_THE_OTHER_PROFILE)
}
