//! What the rows of a book bring, one after another.

ghost use Rattle.std.specs.Prelude.{◌≡◌, ℕ, ◌<◌, ◌≤◌, length, List, [], ◌∷◌, OnOk, slice_get, Some};
ghost use Rattle.outer_io.specs.KnownText.{Wrote};
ghost use Rattle.outer_io.specs.Sinks.{HasBlame};
ghost use Rattle.journal_theory.specs.Merging.{journal_of, noted_at, row_lines, row_done};
ghost use Rattle.merged_log.specs.Profiles.{text_in};
ghost use Rattle.merged_log.specs.Steps.{journals_in, row_in, rows_in, rows_steps, rows_done, StandAtOwners, AllRise, HaveOwners, NotesAreOfLines};

use crate::parts::put_row;
use journals::Journal;
use log_theory::Profile;
use nogood_book::{Row, RowKind};
use outer_io::{Failed, Sink};

/// Puts what one row brings, and counts its owner's lines.
fn put_of_row<S: Sink>(
    profile: Profile,
    journals: &[Journal],
    row: &Row,
    place: u32,
    done: &mut [usize],
    sink: &mut S,
) -> Result<(), Failed>
    requires few { length journals.now ≤ 65 }
    requires owners { StandAtOwners journals.now }
    requires notes { AllRise journals.now }
    requires counts { length done.old ≡ length journals.now }
    requires owned { row.now.owner < length journals.now }
    requires lines { (n : ℕ) → noted_at (journals_in journals.now) place (row_in row.now) ≡ Some n
        → (1 ≤ n) × (n ≤ length (journal_of (journals_in journals.now) row.now.owner).lines) }
    requires place { place < 4194304 }
    ensures text { Wrote (S.spot sink.old).steady (S.contents sink.old) (S.contents sink.new) result
        (text_in profile (row_lines (journals_in journals.now) done.old place row.now.owner
        (noted_at (journals_in journals.now) place (row_in row.now)))) }
    ensures cause { HasBlame S.spot S.rest S.faults S.blamed sink.old sink.new result }
    ensures counts { OnOk result
        (done.new ≡ row_done done.old row.now.owner
        (noted_at (journals_in journals.now) place (row_in row.now))) }
    ensures len { length done.new ≡ length done.old }
{
    match row.kind {
        RowKind::Step => Ok(()),
        RowKind::Nogood => {
            let owner = usize::from(row.owner);
            let count = put_row(
                profile,
                &journals[owner],
                row.owner,
                done[owner],
                place,
                sink,
            )?;
            done[owner] = count;
            Ok(())
        }
    }
}

/// Puts what all rows bring, in order, and counts the lines of each owner.
pub(crate) fn put_rows<S: Sink>(
    profile: Profile,
    journals: &[Journal],
    rows: &[Row],
    done: &mut [usize],
    sink: &mut S,
) -> Result<(), Failed>
    requires few { length journals.now ≤ 65 }
    requires owners { StandAtOwners journals.now }
    requires notes { AllRise journals.now }
    requires counts { length done.old ≡ length journals.now }
    requires owned { HaveOwners journals.now rows.now }
    requires lines { NotesAreOfLines (journals_in journals.now) (rows_in rows.now) }
    requires rows { length rows.now ≤ 4194304 }
    ensures text { Wrote (S.spot sink.old).steady (S.contents sink.old) (S.contents sink.new) result
        (text_in profile (rows_steps (journals_in journals.now) 0 (rows_in rows.now) done.old)) }
    ensures cause { HasBlame S.spot S.rest S.faults S.blamed sink.old sink.new result }
    ensures counts { OnOk result
        (done.new ≡ rows_done (journals_in journals.now) 0 (rows_in rows.now) done.old) }
    ensures len { length done.new ≡ length done.old }
{
    for (place, row) in rows.iter().enumerate() {
        put_of_row(profile, journals, row, place as u32, done, sink)?;
    }
    Ok(())
}
