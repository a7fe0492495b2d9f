//! Worked texts, read and written again.

use crate::file_tests::sink_of;
use opb_text::{Model, OpbFault, read_opb, write_opb};
use std::alloc::{AllocError, Global};
use std::test::Fail;
use test_support::models::{EDGE_INTO_EDGE, THREE_INTO_TWO};
use test_support::{Example, all_hold};

/// The text that a model is written as.
fn text_of(alloc: Global, model: &Model) -> Result<String, AllocError> {
    let mut sink = sink_of(alloc, 4096)?;
    if write_opb(model.variables(), model.constraints(), &mut sink).is_err() {
        return String::from_str(alloc, "no room");
    }
    match str::from_utf8(sink.bytes()) {
        Ok(text) => String::from_str(alloc, text),
        Err(_) => String::from_str(alloc, "no text"),
    }
}

/// The text that the model is written as, or the line and the cause of its fault.
fn shown(alloc: Global, text: &[u8]) -> Result<String, AllocError> {
    match read_opb(alloc, text) {
        Ok(model) => text_of(alloc, &model),
        Err(OpbFault::Line { line, cause }) => format!(in alloc; "line {line} {cause:?}"),
        Err(OpbFault::NoMemory) => String::from_str(alloc, "no memory"),
    }
}

/// The first line of a model of two variables and one constraint.
const HEAD: &str = "* #variable= 2 #constraint= 1\n";

/// The same of this text behind the first line.
fn shown_behind(alloc: Global, rest: &[u8]) -> Result<String, AllocError> {
    let mut text = Vec::from_slice(alloc, HEAD.as_bytes())?;
    text.extend_from_slice(rest)?;
    shown(alloc, &text)
}

/// Whether this is the first line and the constraint behind it, or the fault.
fn is_told(found: &[u8], told: &str) -> bool {
    if told.starts_with("line") {
        found == told.as_bytes()
    } else {
        found.strip_prefix(HEAD.as_bytes()) == Some(told.as_bytes())
    }
}

/// What follows the first line, and what then is written of the constraint, or the fault.
struct Line(&'static [u8], &'static str);

impl<R> Example<R> for Line {
    fn holds(&self, _rt: &R, alloc: Global) -> Result<bool, AllocError> {
        let found = shown_behind(alloc, self.0)?;
        Ok(is_told(found.as_bytes(), self.1))
    }
}

static LENIENT: [Line; 21] = [
    Line(b"+1 x1 >= 1 ;\n", "+1 x1 >= 1 ;\n"),
    Line(b"+1 x1 >= 1 ;", "+1 x1 >= 1 ;\n"),
    Line(b"+1 x1 >= 1 ;\r\n", "+1 x1 >= 1 ;\n"),
    Line(b"\t +1\t\tx1  >=  1\t;  \n", "+1 x1 >= 1 ;\n"),
    Line(b"1 x1 >= +1 ;\n", "+1 x1 >= 1 ;\n"),
    Line(b"1 x1 >= 1;\n", "+1 x1 >= 1 ;\n"),
    Line(b"+1 x1 >= -1;", "+1 x1 >= -1 ;\n"),
    Line(b">= -1 ;\n", ">= -1 ;\n"),
    Line(b"-2 x2 +03 x01 >= 001 ;\n", "+3 x1 -2 x2 >= 1 ;\n"),
    Line(b"+1 x1 +1 x1 >= 1 ;\n", "+2 x1 >= 1 ;\n"),
    Line(b"+1 x1 -1 x1 +0 x2 >= -0 ;\n", ">= 0 ;\n"),
    Line(
        b"* a comment\n\n \t\n  *x\n+1 x1 >= 1 ;\n\n",
        "+1 x1 >= 1 ;\n",
    ),
    Line(b"*\xff\n+1 x2 >= 1 ;\n", "+1 x2 >= 1 ;\n"),
    Line(
        b"+42535295865117307932921825928971026432 x1 >= 1 ;\n",
        "+42535295865117307932921825928971026432 x1 >= 1 ;\n",
    ),
    Line(
        b"-42535295865117307932921825928971026432 x1 >= -42535295865117307932921825928971026432 ;\n",
        "-42535295865117307932921825928971026432 x1 >= -42535295865117307932921825928971026432 ;\n",
    ),
    Line(
        b"+0000000000000000000000000000000000000000000000000000000001 x1 >= 1 ;\n",
        "+1 x1 >= 1 ;\n",
    ),
    Line(
        b"+1 x00000000000000000000000000000000000000000002 >= 1 ;\n",
        "+1 x2 >= 1 ;\n",
    ),
    Line(b"\n\n+1 x3 >= 1 ;\n", "line 4 NoSuchVariable"),
    Line(b"+1 x1 >= 1 ;\n+1 x1 = 1 ;\n", "line 3 Equality"),
    Line(b"+1 x1 >= 1 ;\n+1 x2 >= 1 ;\n\n", "line 5 Count"),
    Line(b"", "line 2 Count"),
];

#[test]
fn reads_leniently(rt: HostRuntime) -> Result<(), Fail> {
    all_hold(&rt, rt.alloc(), &LENIENT)
}

static FAULTY: [Line; 45] = [
    Line(b"min: +1 x1 ;\n", "line 2 Objective"),
    Line(b"min:+1 x1 ;\n", "line 2 Objective"),
    Line(b" max: +1 x1 ;\n", "line 2 Objective"),
    Line(b"+1 x1 = 1 ;\n", "line 2 Equality"),
    Line(b"= 1 ;\n", "line 2 Equality"),
    Line(b"+1 = 1 ;\n", "line 2 Form"),
    Line(b"+1 x1 x2 >= 1 ;\n", "line 2 Product"),
    Line(b"+1 x1 x3 >= 1 ;\n", "line 2 Product"),
    Line(b"+1 x3 >= 1 ;\n", "line 2 NoSuchVariable"),
    Line(b"+1 x0 >= 1 ;\n", "line 2 NoSuchVariable"),
    Line(
        b"+1 x99999999999999999999999999999999999999999999999999 >= 1 ;\n",
        "line 2 NoSuchVariable",
    ),
    Line(b"+1 x4294967297 >= 1 ;\n", "line 2 NoSuchVariable"),
    Line(
        b"+1 x18446744073709551617 >= 1 ;\n",
        "line 2 NoSuchVariable",
    ),
    Line(b"+1 ~x1 >= 1 ;\n", "line 2 Form"),
    Line(b"x1 >= 1 ;\n", "line 2 Form"),
    Line(b"x5 >= 1 ;\n", "line 2 NoSuchVariable"),
    Line(b"+1 x1 >= 1 ; x0\n", "line 2 NoSuchVariable"),
    Line(
        b"+1 +42535295865117307932921825928971026433 x1 >= 1 ;\n",
        "line 2 Wide",
    ),
    Line(
        b"+1 x1 >= 1 42535295865117307932921825928971026433 ;\n",
        "line 2 Wide",
    ),
    Line(
        b"42535295865117307932921825928971026433; x1 >= 1 ;\n",
        "line 2 Wide",
    ),
    Line(b"+1 x1\n", "line 2 Form"),
    Line(b"+1\n", "line 2 Form"),
    Line(b"+1 x1 +2\n", "line 2 Form"),
    Line(b"+1 +1 x1 >= 1 ;\n", "line 2 Form"),
    Line(b"+1 x1 >=\n", "line 2 Form"),
    Line(b"+1 x1 >= 1\n", "line 2 Form"),
    Line(b"+1 x1 >= ;\n", "line 2 Form"),
    Line(b"+1 x1 >= x1 ;\n", "line 2 Form"),
    Line(b"+1 x1 >= 1 ; ;\n", "line 2 Form"),
    Line(b"+1 x1 >= 1; ;\n", "line 2 Form"),
    Line(b"+1 x1 >= 1;;\n", "line 2 Form"),
    Line(b"+1 x1 >= 1;1\n", "line 2 Form"),
    Line(b"+1 x1 >= 1 ; +1 x2 >= 1 ;\n", "line 2 Form"),
    Line(b"+1; x1 >= 1 ;\n", "line 2 Form"),
    Line(b"+1 x1; >= 1 ;\n", "line 2 Form"),
    Line(b"+ x1 >= 1 ;\n", "line 2 Form"),
    Line(b"+-1 x1 >= 1 ;\n", "line 2 Form"),
    Line(b"+1 x >= 1 ;\n", "line 2 Form"),
    Line(b"+1 x1 > 1 ;\n", "line 2 Form"),
    Line(b"+1 x1 >= 1 ;\r", "line 2 Form"),
    Line(b"+1 x1 >= 1 ;\r\r\n", "line 2 Form"),
    Line(
        b"+42535295865117307932921825928971026433 x1 >= 1 ;\n",
        "line 2 Wide",
    ),
    Line(
        b"+340282366920938463463374607431768211457 x1 >= 1 ;\n",
        "line 2 Wide",
    ),
    Line(
        b"+1 x1 >= -42535295865117307932921825928971026433 x\n",
        "line 2 Wide",
    ),
    Line(
        b"+42535295865117307932921825928971026432 x1 -1 x2 >= 1 ;\n",
        "line 2 Wide",
    ),
];

#[test]
fn tells_the_first_fault(rt: HostRuntime) -> Result<(), Fail> {
    all_hold(&rt, rt.alloc(), &FAULTY)
}

/// A text, and what then is written, or the fault.
struct Read(&'static [u8], &'static str);

impl<R> Example<R> for Read {
    fn holds(&self, _rt: &R, alloc: Global) -> Result<bool, AllocError> {
        let found = shown(alloc, self.0)?;
        Ok(found.as_str() == self.1)
    }
}

static HEADS: [Read; 16] = [
    Read(b"", "line 1 Header"),
    Read(b"\n", "line 1 Header"),
    Read(
        b"* #variable= 0 #constraint= 0\n",
        "* #variable= 0 #constraint= 0\n",
    ),
    Read(
        b"* #variable= 0 #constraint= 0",
        "* #variable= 0 #constraint= 0\n",
    ),
    Read(
        b"\t* #variable=  00 #constraint= 0 and more \xff\r\n",
        "* #variable= 0 #constraint= 0\n",
    ),
    Read(
        b"* #variable= 4294967295 #constraint= 0\n",
        "* #variable= 4294967295 #constraint= 0\n",
    ),
    Read(b"* #variable= 4294967296 #constraint= 0\n", "line 1 Header"),
    Read(
        b"* #variable= 0 #constraint= 9223372036854775808\n",
        "line 1 Header",
    ),
    Read(
        b"* #variable= 0 #constraint= 9223372036854775807\n",
        "line 2 Count",
    ),
    Read(
        b"* #variable= 0 #constraint= 18446744073709551616\n",
        "line 1 Header",
    ),
    Read(b"* #variable= +0 #constraint= 0\n", "line 1 Header"),
    Read(b"* #variable=0 #constraint=0\n", "line 1 Header"),
    Read(b"*#variable= 0 #constraint= 0\n", "line 1 Header"),
    Read(b"* #constraint= 0 #variable= 0\n", "line 1 Header"),
    Read(b"* #variable= 0 #constraint=\n", "line 1 Header"),
    Read(b"+1 x1 >= 1 ;\n", "line 1 Header"),
];

#[test]
fn reads_the_first_line(rt: HostRuntime) -> Result<(), Fail> {
    all_hold(&rt, rt.alloc(), &HEADS)
}

/// A text that is written as it is read.
struct Written(&'static [u8]);

impl<R> Example<R> for Written {
    fn holds(&self, _rt: &R, alloc: Global) -> Result<bool, AllocError> {
        let found = shown(alloc, self.0)?;
        Ok(found.as_bytes() == self.0)
    }
}

static WRITTEN: [Written; 5] = [
    Written(b"* #variable= 0 #constraint= 0\n"),
    Written(b"* #variable= 0 #constraint= 2\n>= 1 ;\n>= -1 ;\n"),
    Written(EDGE_INTO_EDGE),
    Written(THREE_INTO_TWO),
    Written(
        b"* #variable= 2 #constraint= 3\n+3 x1 -2 x2 >= 1 ;\n+5 x1 +1 x2 >= 2 ;\n+2 x1 -1 x2 >= 1 ;\n",
    ),
];

#[test]
fn writes_what_it_reads(rt: HostRuntime) -> Result<(), Fail> {
    all_hold(&rt, rt.alloc(), &WRITTEN)
}

/// The room of a sink that the text of an edge into an edge does not fit into.
struct Room(u64);

impl<R> Example<R> for Room {
    fn holds(&self, _rt: &R, alloc: Global) -> Result<bool, AllocError> {
        let Ok(model) = read_opb(alloc, EDGE_INTO_EDGE) else {
            return Ok(false);
        };
        let mut sink = sink_of(alloc, self.0)?;
        let stops = write_opb(model.variables(), model.constraints(), &mut sink).is_err();
        let bytes = sink.bytes();
        Ok(stops && EDGE_INTO_EDGE.starts_with(bytes) && bytes.len() as u64 == self.0)
    }
}

static ROOMS: [Room; 9] = [
    Room(0),
    Room(1),
    Room(13),
    Room(14),
    Room(29),
    Room(30),
    Room(31),
    Room(49),
    Room(100),
];

#[test]
fn stops_in_the_text_at_a_fault(rt: HostRuntime) -> Result<(), Fail> {
    all_hold(&rt, rt.alloc(), &ROOMS)
}
