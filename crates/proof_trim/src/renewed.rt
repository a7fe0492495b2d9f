//! A log with hints renewed.

ghost use Rattle.std.specs.Prelude.{◌<◌, ◌^◌, length, IfOk};
ghost use Rattle.proof_trim.specs.Lined.{IsRenewedFrom};

use crate::forward::put_kept;
use crate::marks::marks_of;
use crate::ranks::{count_marked, ranks_of};
use crate::renaming::Renaming;
use crate::scanning::{Scanned, scan};
use crate::text::{head_text, put_step};
use outer_io::TextBuffer;
use std::alloc::{AllocError, Global};

/// The text of what is left, how many lines make a constraint, and how many of them are left.
#[derive(Drop)]
pub(crate) struct Renewed {
    pub(crate) text: TextBuffer,
    pub(crate) made: usize,
    pub(crate) kept: usize,
}

/// The needed lines of a log with hints over so many constraints, renamed, with their deletions, as text. Some 150 bytes for each line that
/// makes a constraint, beside the text.
pub(crate) fn renew(alloc: Global, constraints: u64, text: &[u8]) -> Result<Renewed, AllocError>
    requires constraints { constraints < 2 ^ 63 }
    requires few { length text.now < 2 ^ 63 }
    ensures { IfOk result (λ r.
        IsRenewedFrom constraints text.now r.text.bytes r.made r.kept) }
{
    let Scanned { index, lines, last } = scan(alloc, text)?;
    let marks = marks_of(alloc, &index, &lines, &last)?;
    let ranks = ranks_of(alloc, &marks)?;
    let renaming = Renaming {
        index: &index,
        marks: &marks,
        ranks: &ranks,
    };
    let end = renaming.new_last(alloc, &last)?;
    let mut text = head_text(alloc, constraints)?;
    put_kept(alloc, &renaming, &mut text, &lines)?;
    put_step(&mut text, &end)?;
    Ok(Renewed {
        text,
        made: lines.len(),
        kept: count_marked(&marks),
    })
}
