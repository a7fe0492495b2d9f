//! The text of an encoding, gathered line by line and put in large pieces.

ghost use Rattle.std.specs.Prelude.{◌≡◌, ◌≤◌, ◌-◌, ◌++◌, length, slice_get, Some, OnOk};
ghost use Rattle.proof_theory.specs.Forms.{Form};
ghost use Rattle.outer_io.specs.KnownText.{Wrote};
ghost use Rattle.outer_io.specs.Sinks.{HasBlame};
ghost use Rattle.log_theory.specs.Words.{line_text};
ghost use Rattle.log_theory.specs.OpbText.{form_words};
ghost use Rattle.encoding_theory.specs.Encoding.{encoding as encoding_of};
ghost use Rattle.pb_encoding.specs.Writing.{encoding_text, forms_text, HasPutCause};
ghost use Rattle.pb_encoding.specs.Gathering.{PutsFront};

use crate::encoding::Encoding;
use crate::terms::Room;
use opb_text::{append_line, write_head};
use outer_io::{Failed, PutFault, Sink};
use std::alloc::{AllocError, Global};

/// How many bytes are gathered before they are put.
const PIECE: usize = 65_536;

/// Puts what the buffer holds where that is so many bytes at least, and empties it.
fn put_piece<S: Sink>(least: usize, buffer: &mut Vec<u8>, sink: &mut S) -> Result<(), Failed>
    ensures text { PutsFront result (S.spot sink.old).steady (S.contents sink.old)
        (S.contents sink.new) buffer.old.items buffer.new.items }
    ensures cause { HasBlame S.spot S.rest S.faults S.blamed sink.old sink.new result }
{
    if buffer.len() < least {
        return Ok(());
    }
    sink.put(buffer.as_slice())?;
    buffer.clear();
    Ok(())
}

impl<'a> Encoding<'a> {
    /// Appends the line of one constraint, counted from 1, to the buffer.
    fn append_constraint(
        &self,
        alloc: Global,
        i: u64,
        room: &mut Room,
        buffer: &mut Vec<u8>,
    ) -> Result<(), AllocError>
        requires first { 1 ≤ i }
        requires last { i ≤ length (encoding_of self.now) }
        ensures { (f : Form) → slice_get (encoding_of self.now) (i - 1) ≡ Some f
            → OnOk result (buffer.new.items ≡ buffer.old.items ++ line_text (form_words f)) }
    {
        let constraint = self.constraint_in(alloc, i, room)?;
        append_line(&constraint, buffer)
    }

    /// Puts the lines of all constraints, so many bytes at least at a time.
    fn write_constraints<S: Sink>(
        &self,
        alloc: Global,
        least: usize,
        sink: &mut S,
    ) -> Result<(), PutFault>
        ensures text { Wrote (S.spot sink.old).steady (S.contents sink.old) (S.contents sink.new)
            result (forms_text (encoding_of self.now)) }
        ensures cause { HasPutCause S.spot S.rest S.faults S.blamed sink.old sink.new result }
    {
        let mut buffer = Vec::new(alloc);
        let mut room = Room::new(alloc);
        for i in 0..self.len() {
            self.append_constraint(alloc, i + 1, &mut room, &mut buffer)?;
            put_piece(least, &mut buffer, sink)?;
        }
        sink.put(buffer.as_slice())?;
        Ok(())
    }

    /// Puts the first line and then those of all constraints, so many bytes at least at a time.
    fn write_by<S: Sink>(&self, alloc: Global, least: usize, sink: &mut S) -> Result<(), PutFault>
        ensures text { Wrote (S.spot sink.old).steady (S.contents sink.old) (S.contents sink.new)
            result (encoding_text self.now) }
        ensures cause { HasPutCause S.spot S.rest S.faults S.blamed sink.old sink.new result }
    {
        write_head(self.variables(), self.len(), sink)?;
        self.write_constraints(alloc, least, sink)
    }

    /// Puts the whole encoding as OPB text. The lines are gathered in one buffer, which is put when it holds 65,536 bytes
    /// and at the end, so that the calls of `put` are few and the memory is that of a piece and one line.
    ///
    /// Cost: that of making each constraint once, and of the text's bytes. Where memory is refused a front part of the
    /// text was put.
    pub fn write<S: Sink>(&self, alloc: Global, sink: &mut S) -> Result<(), PutFault>
        ensures text { Wrote (S.spot sink.old).steady (S.contents sink.old) (S.contents sink.new)
            result (encoding_text self.now) }
        ensures cause { HasPutCause S.spot S.rest S.faults S.blamed sink.old sink.new result }
    {
        self.write_by(alloc, PIECE, sink)
    }

    /// Puts the same text a line at a time, for a sink that gathers bytes itself: the memory is that of one line.
    pub fn write_lines<S: Sink>(&self, alloc: Global, sink: &mut S) -> Result<(), PutFault>
        ensures text { Wrote (S.spot sink.old).steady (S.contents sink.old) (S.contents sink.new)
            result (encoding_text self.now) }
        ensures cause { HasPutCause S.spot S.rest S.faults S.blamed sink.old sink.new result }
    {
        self.write_by(alloc, 1, sink)
    }
}
