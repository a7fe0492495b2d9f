//! Short pieces of a line, put by one call.

ghost use Rattle.std.specs.Prelude.{IfSome, ◌≡◌};
ghost use Rattle.outer_io.specs.KnownText.{Wrote};
ghost use Rattle.outer_io.specs.Sinks.{HasBlame, joined};

use arrayvec::ArrayVec;
use outer_io::{Failed, Sink, put_all};

/// How many bytes are gathered at most. A name with a text in front of it is shorter.
const ROOM: usize = 64;

/// The pieces, one after another, if there is room for them. Cost: one step for each byte.
fn gather(pieces: &[&[u8]]) -> Option<ArrayVec<u8, ROOM>>
    ensures { IfSome result (λ bytes. bytes.items ≡ joined pieces.now) }
{
    let mut bytes = ArrayVec::new();
    for piece in pieces {
        if bytes.try_extend_from_slice(piece).is_err() {
            return None;
        }
    }
    Some(bytes)
}

/// Puts the pieces as one, or one after another where they are long: as `put_all`, with one call of the sink for short ones.
pub(crate) fn put_gathered<S: Sink>(pieces: &[&[u8]], sink: &mut S) -> Result<(), Failed>
    ensures text { Wrote (S.spot sink.old).steady (S.contents sink.old) (S.contents sink.new) result
        (joined pieces.now) }
    ensures cause { HasBlame S.spot S.rest S.faults S.blamed sink.old sink.new result }
{
    match gather(pieces) {
        Some(bytes) => sink.put(bytes.as_slice()),
        None => put_all(pieces, sink),
    }
}
