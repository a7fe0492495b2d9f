//! The encoding of the problem that a call asks, as text.

ghost use Rattle.std.specs.Prelude.{◌≡◌, IfOk};
ghost use Rattle.pb_encoding.specs.Writing.{encoding_text};
ghost use Rattle.subgraph_c.specs.Asking.{call};
ghost use Rattle.subgraph_c.specs.Encoding.{EncodedSays, HasRoom, MadeOf};

use crate::asking::{Asked, ask};
use crate::numbers::first_bad;
use crate::refusal::Refusal;
use graph_rows::problem::Problem;
use outer_io::TextBuffer;
use pb_encoding::Encoding;
use std::alloc::{AllocError, Global};

/// What is made of a call.
#[derive(Drop)]
pub enum Encoded {
    /// The text of the encoding.
    Text(TextBuffer),
    /// It has so many bytes, which is more than there is room for.
    TooLong { count: u64 },
    /// No problem is asked, or memory was refused.
    Refused(Refusal),
}

/// The text of a problem's encoding.
fn text_of(alloc: Global, q: &Problem) -> Result<TextBuffer, AllocError>
    ensures { IfOk result (λ t. t.bytes ≡ encoding_text q.now) }
{
    let encoding = Encoding::new(alloc, q)?;
    let mut text = TextBuffer::new(alloc);
    match encoding.write_lines(alloc, &mut text) {
        Ok(()) => Ok(text),
        Err(_) => Err(AllocError),
    }
}

/// The encoding of a problem that is asked, where there is room for so many bytes.
fn encode_problem(alloc: Global, q: &Problem, room: usize) -> Encoded
    ensures { MadeOf result q.now room }
{
    match text_of(alloc, q) {
        Ok(text) if text.len() <= room => Encoded::Text(text),
        Ok(text) => Encoded::TooLong {
            count: text.len() as u64,
        },
        Err(_) => Encoded::Refused(Refusal::NoMemory),
    }
}

/// The encoding of what a call asks, where there is room for so many bytes: the numbers that choose the problem are
/// judged, then its texts are read, and then the text is made.
pub(crate) fn encode(alloc: Global, asked: &Asked, room: usize) -> Encoded
    ensures says { EncodedSays result (call asked.now.pattern.now asked.now.target.now
        asked.now.options.now asked.now.less.now) room }
    ensures fits { HasRoom result room }
{
    if let Some(bad) = first_bad(asked.options, asked.less) {
        return Encoded::Refused(Refusal::Number(bad));
    }
    match ask(alloc, asked) {
        Ok(q) => encode_problem(alloc, &q, room),
        Err(refusal) => Encoded::Refused(refusal),
    }
}
