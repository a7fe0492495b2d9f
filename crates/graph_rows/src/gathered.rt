//! The text of a short mapping, gathered so that it is put by one call.

ghost use Rattle.std.specs.Prelude.{◌≡◌, ◌++◌, IfSome, IsTrue};
ghost use Rattle.graph_theory.specs.Mapping.{mapping_line, yes_text};
ghost use Rattle.outer_io.specs.Sinks.{joined};

use arrayvec::ArrayVec;
use itoa::Buffer;

/// How many bytes are gathered at most: the lines of some hundred images.
const ROOM: usize = 1024;

/// Appends the pieces, one after another, and says whether there was room for them. Cost: one step for each byte.
fn add(pieces: &[&[u8]], text: &mut ArrayVec<u8, ROOM>) -> bool
    ensures { IsTrue result → text.new.items ≡ text.old.items ++ joined pieces.now }
{
    for piece in pieces {
        if text.try_extend_from_slice(piece).is_err() {
            return false;
        }
    }
    true
}

/// Appends the line of vertex `p` at `t`, and says whether there was room for it.
fn add_line(p: usize, t: u32, text: &mut ArrayVec<u8, ROOM>) -> bool
    ensures { IsTrue result → text.new.items ≡ text.old.items ++ mapping_line p t }
{
    let mut vertex = Buffer::new();
    let mut image = Buffer::new();
    add(
        &[
            vertex.format(p).as_bytes(),
            b" -> ",
            image.format(t).as_bytes(),
            b"\n",
        ],
        text,
    )
}

/// The text of the mapping, if it has at most 1,024 bytes. It takes no memory. Cost: one step for each byte.
pub(crate) fn gathered(map: &[u32]) -> Option<ArrayVec<u8, ROOM>>
    ensures { IfSome result (λ text. text.items ≡ yes_text map.now) }
{
    let mut text = ArrayVec::new();
    if text.try_extend_from_slice(b"yes\n").is_err() {
        return None;
    }
    for p in 0..map.len() {
        if !add_line(p, map[p], &mut text) {
            return None;
        }
    }
    Some(text)
}
