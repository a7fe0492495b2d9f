//! Putting several pieces in a row.
ghost use Rattle.outer_io.specs.KnownText.{Wrote};
ghost use Rattle.outer_io.specs.Sinks.{HasBlame, joined};

use crate::fault::Failed;
use crate::sink::Sink;

/// Puts the pieces one after another: the whole of their text at `Ok`, a front part of the whole at `Err`. One call of `put`
/// for each piece, and none after one that failed.
pub fn put_all<S: Sink>(pieces: &[&[u8]], sink: &mut S) -> Result<(), Failed>
    ensures text { Wrote (S.spot sink.old).steady (S.contents sink.old) (S.contents sink.new) result
        (joined pieces.now) }
    ensures cause { HasBlame S.spot S.rest S.faults S.blamed sink.old sink.new result }
{
    for piece in pieces {
        sink.put(piece)?;
    }
    Ok(())
}
