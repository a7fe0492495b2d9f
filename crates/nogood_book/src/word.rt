//! A row as one word, so that it is written in one step.

ghost use Rattle.std.specs.Prelude.{◌≡◌, ◌<◌, ◌^◌};
ghost use Rattle.nogood_book.specs.Rows.{IsNarrow};
ghost use Rattle.nogood_book.specs.Words.{word_of, row_of};

use crate::row::{Row, RowKind};

const VERTEX: u64 = 1 << 13;

const PARENT: u64 = 1 << 23;

const OWNER: u64 = 1 << 47;

const NOGOOD: u64 = 1 << 54;

const USED: u64 = 1 << 55;

/// The word of a row.
pub(crate) fn encode(row: &Row) -> u64
    requires { IsNarrow row.now }
    ensures { result ≡ word_of row.now }
{
    let kind = match row.kind {
        RowKind::Step => 0,
        RowKind::Nogood => NOGOOD,
    };
    let parent = match row.parent {
        Some(parent) => u64::from(parent) + 1,
        None => 0,
    };
    u64::from(row.value)
        + u64::from(row.vertex) * VERTEX
        + parent * PARENT
        + u64::from(row.owner) * OWNER
        + kind
        + USED
}

/// The row of a word.
pub(crate) fn decode(word: u64) -> Row
    ensures { result ≡ row_of word }
{
    let parent = (word / PARENT % (1 << 24)) as u32;
    Row {
        kind: if word / NOGOOD % 2 == 0 {
            RowKind::Step
        } else {
            RowKind::Nogood
        },
        owner: (word / OWNER % (1 << 7)) as u8,
        parent: if parent == 0 { None } else { Some(parent - 1) },
        vertex: (word / VERTEX % (1 << 10)) as u16,
        value: (word % VERTEX) as u16,
    }
}
