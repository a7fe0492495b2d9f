//! Keeping bytes back until they are a whole piece.
ghost use Rattle.std.specs.Prelude.{◌≡◌, ◌+◌, ◌<◌, ◌++◌, false, [], length, OnErr};
ghost use Rattle.std.specs.Io.KnownBytes.{append_known};
ghost use Rattle.outer_io.specs.KnownText.{Wrote};
ghost use Rattle.outer_io.specs.Sinks.{HasBlame};

use crate::fault::Failed;
use crate::piece_room::{PIECE, PieceRoom};
use crate::sink::Sink;

/// Puts what is kept back, whatever the answer: then nothing is.
fn put_held<S: Sink>(held: &mut PieceRoom, sink: &mut S) -> Result<(), Failed>
    ensures text { Wrote (S.spot sink.old).steady (S.contents sink.old) (S.contents sink.new) result
        held.old }
    ensures empty { held.new ≡ [] }
    ensures cause { HasBlame S.spot S.rest S.faults S.blamed sink.old sink.new result }
{
    let put = sink.put(held.as_slice());
    held.clear();
    put
}

/// Puts what is kept back with a front that makes it a whole piece.
fn put_whole<S: Sink>(front: &[u8], held: &mut PieceRoom, sink: &mut S) -> Result<(), Failed>
    requires whole { length held.old + length front.now ≡ PIECE }
    ensures text { Wrote (S.spot sink.old).steady (S.contents sink.old) (S.contents sink.new) result
        (held.old ++ front.now) }
    ensures empty { held.new ≡ [] }
    ensures cause { HasBlame S.spot S.rest S.faults S.blamed sink.old sink.new result }
{
    held.append(front);
    put_held(held, sink)
}

/// Puts a piece behind what is kept back: each whole piece as soon as it is there, and the rest is kept back.
pub(crate) fn gather<S: Sink>(
    piece: &[u8],
    held: &mut PieceRoom,
    sink: &mut S,
) -> Result<(), Failed>
    requires short { length held.old < PIECE }
    ensures text { Wrote false (append_known (S.contents sink.old) held.old)
        (append_known (S.contents sink.new) held.new) result piece.now }
    ensures empty { OnErr result (held.new ≡ []) }
    ensures short { length held.new < PIECE }
    ensures cause { HasBlame S.spot S.rest S.faults S.blamed sink.old sink.new result }
{
    let mut at = 0;
    while piece.len() - at >= PIECE - held.as_slice().len() {
        let end = at + (PIECE - held.as_slice().len());
        put_whole(&piece[at..end], held, sink)?;
        at = end;
    }
    held.append(&piece[at..]);
    Ok(())
}

/// Puts what is kept back, where that is something.
pub(crate) fn put_rest<S: Sink>(held: &mut PieceRoom, sink: &mut S) -> Result<(), Failed>
    ensures text { Wrote false (append_known (S.contents sink.old) held.old)
        (append_known (S.contents sink.new) held.new) result [] }
    ensures empty { held.new ≡ [] }
    ensures cause { HasBlame S.spot S.rest S.faults S.blamed sink.old sink.new result }
{
    if held.as_slice().is_empty() {
        return Ok(());
    }
    put_held(held, sink)
}

/// Puts a piece behind what is kept back, and the rest too where it is to go out at once.
pub(crate) fn gather_or_put<S: Sink>(
    at_once: bool,
    piece: &[u8],
    held: &mut PieceRoom,
    sink: &mut S,
) -> Result<(), Failed>
    requires short { length held.old < PIECE }
    ensures text { Wrote false (append_known (S.contents sink.old) held.old)
        (append_known (S.contents sink.new) held.new) result piece.now }
    ensures empty { OnErr result (held.new ≡ []) }
    ensures short { length held.new < PIECE }
    ensures cause { HasBlame S.spot S.rest S.faults S.blamed sink.old sink.new result }
{
    gather(piece, held, sink)?;
    if !at_once {
        return Ok(());
    }
    put_rest(held, sink)
}
