//! The log of a refutation.

ghost use Rattle.std.specs.Prelude.{◌≡◌, ℕ, ◌^◌, ◌<◌, ◌≤◌, true, List, [], ◌∷◌, ◌++◌, length, replicate, OnOk, slice_get, Some};
ghost use Rattle.outer_io.specs.KnownText.{Wrote};
ghost use Rattle.outer_io.specs.Sinks.{HasBlame};
ghost use Rattle.log_theory.specs.declared.step.Ref.TheVariants.{Made};
ghost use Rattle.log_theory.specs.declared.step.Step.TheVariants.{E};
ghost use Rattle.log_theory.specs.declared.step.Verdict.TheVariants.{Unsatisfiable};
ghost use Rattle.log_theory.specs.Acceptance.{Accepts};
ghost use Rattle.log_theory.specs.Tables.{from_one};
ghost use Rattle.proof_theory.specs.Forms.{Form};
ghost use Rattle.proof_theory.specs.Rules.{is_contradiction};
ghost use Rattle.journal_theory.specs.Merging.{journal_of, merge_from, merged, begun, last_name, AreJournals};
ghost use Rattle.merged_log.specs.Profiles.{in_profile, text_in};
ghost use Rattle.merged_log.specs.Steps.{journals_in, rows_in, rows_steps, rows_done, head_steps, refutation, log_text, StandAtOwners, AllRise, HaveOwners, NotesAreOfLines, AllWritten, AreInRange, StandBeside, IsAloneOrBare, AreOfWorkers, EndsFalse, MayBeMerged};
ghost use Rattle.nogood_book.specs.declared.row.Row.{Row as BookRow};

use crate::head::write_head;
use crate::parts::put_part;
use crate::rows::put_rows;
use journal_theory::{line_laws, merge_laws};
use journals::Journal;
use log_theory::{Name, Profile, Ref, Step};
use nogood_book::Row;
use outer_io::{Failed, Sink};
use proof_log::write_step;

/// How many owners there are at most: those from 0 to 64.
const OWNERS: usize = 65;

/// Asks each journal for its text, which says that the lines bear their names and are in their ranges.
fn ask_all(journals: &[Journal])
    ensures { AllWritten journals.now }
{
    for journal in journals {
        let _text = journal.text();
        let _ends = journal.ends();
    }
}

/// That a log may be written of journals that stand beside the same rows, and is accepted, where the finisher's last form is plainly
/// false. Nothing is written. Cost: two looks at each journal.
pub fn may_be_merged(journals: &[Journal])
    ensures { (n finisher : ℕ) (model : List Form) (rows : List BookRow) (clause : ℕ → Form)
        (fs : List (List Form)) → length model < 2 ^ 63
        → length journals.now ≤ 65 → length rows ≤ 4194304
        → StandBeside n model rows clause journals.now fs → AreOfWorkers journals.now rows
        → IsAloneOrBare rows journals.now fs → EndsFalse journals.now fs finisher
        → MayBeMerged n model journals.now rows finisher }
{
    merge_laws();
    ask_all(journals);
}

/// Puts what the rows bring and then the finisher's further lines, where so many lines of each owner stand already.
fn put_from<S: Sink>(
    profile: Profile,
    journals: &[Journal],
    rows: &[Row],
    finisher: u8,
    done: &mut [usize],
    sink: &mut S,
) -> Result<(), Failed>
    requires few { length journals.now ≤ 65 }
    requires owners { StandAtOwners journals.now }
    requires notes { AllRise journals.now }
    requires counts { length done.old ≡ length journals.now }
    requires owned { HaveOwners journals.now rows.now }
    requires lines { NotesAreOfLines (journals_in journals.now) (rows_in rows.now) }
    requires rows { length rows.now ≤ 4194304 }
    requires finisher { finisher < length journals.now }
    ensures text { Wrote (S.spot sink.old).steady (S.contents sink.old) (S.contents sink.new) result
        (text_in profile (merge_from (journals_in journals.now) finisher 0
        (rows_in rows.now) done.old)) }
    ensures cause { HasBlame S.spot S.rest S.faults S.blamed sink.old sink.new result }
{
    put_rows(profile, journals, rows, done, sink)?;
    let last = &journals[usize::from(finisher)];
    put_part(
        profile,
        last,
        done[usize::from(finisher)],
        last.ends().len(),
        sink,
    )
}

/// Counts all lines of owner 0, and none of the others'.
fn begin(journals: &[Journal], done: &mut [usize])
    requires some { 0 < length journals.now }
    requires none { done.old ≡ replicate (length journals.now) 0 }
    ensures { done.new ≡ begun (journals_in journals.now) }
{
    done[0] = journals[0].ends().len();
}

/// Puts the merged lines.
fn put_merged<S: Sink>(
    profile: Profile,
    journals: &[Journal],
    rows: &[Row],
    finisher: u8,
    done: &mut [usize],
    sink: &mut S,
) -> Result<(), Failed>
    requires few { length journals.now ≤ 65 }
    requires owners { StandAtOwners journals.now }
    requires notes { AllRise journals.now }
    requires none { done.old ≡ replicate (length journals.now) 0 }
    requires owned { HaveOwners journals.now rows.now }
    requires lines { NotesAreOfLines (journals_in journals.now) (rows_in rows.now) }
    requires rows { length rows.now ≤ 4194304 }
    requires finisher { finisher < length journals.now }
    ensures text { Wrote (S.spot sink.old).steady (S.contents sink.old) (S.contents sink.new) result
        (text_in profile (merged (journals_in journals.now) finisher (rows_in rows.now))) }
    ensures cause { HasBlame S.spot S.rest S.faults S.blamed sink.old sink.new result }
{
    begin(journals, done);
    let first = &journals[0];
    put_part(profile, first, 0, first.ends().len(), sink)?;
    put_from(profile, journals, rows, finisher, done, sink)
}

/// Puts the last line, which names the last of an owner's lines.
fn write_end<S: Sink>(
    profile: Profile,
    journal: &Journal,
    owner: u8,
    sink: &mut S,
) -> Result<(), Failed>
    requires owner { owner ≤ 64 }
    requires some { 0 < length journal.now.steps }
    ensures text { Wrote (S.spot sink.old).steady (S.contents sink.old) (S.contents sink.new) result
        (text_in profile (E (Made (record {
          owner = owner;
          number = length journal.now.steps;
        })) ∷ [])) }
    ensures cause { HasBlame S.spot S.rest S.faults S.blamed sink.old sink.new result }
{
    let number = journal.ends().len() as u64;
    let at = Ref::Made(Name { owner, number });
    write_step(Profile::Hinted, &Step::E { at }, sink)
}

/// Puts the merged lines and the last line.
fn put_body<S: Sink>(
    profile: Profile,
    journals: &[Journal],
    rows: &[Row],
    finisher: u8,
    sink: &mut S,
) -> Result<(), Failed>
    requires few { length journals.now ≤ 65 }
    requires owners { StandAtOwners journals.now }
    requires notes { AllRise journals.now }
    requires owned { HaveOwners journals.now rows.now }
    requires lines { NotesAreOfLines (journals_in journals.now) (rows_in rows.now) }
    requires rows { length rows.now ≤ 4194304 }
    requires finisher { finisher < length journals.now }
    requires ends { 0 < length (journal_of (journals_in journals.now) finisher).lines }
    ensures text { Wrote (S.spot sink.old).steady (S.contents sink.old) (S.contents sink.new) result
        (text_in profile (merged (journals_in journals.now) finisher (rows_in rows.now)
        ++ E (Made (last_name (journals_in journals.now) finisher)) ∷ [])) }
    ensures cause { HasBlame S.spot S.rest S.faults S.blamed sink.old sink.new result }
{
    let mut counts = [0usize; OWNERS];
    let done = &mut counts[..journals.len()];
    put_merged(profile, journals, rows, finisher, done, sink)?;
    let last = &journals[usize::from(finisher)];
    write_end(profile, last, finisher, sink)
}

/// Puts the log of a refutation over a model of so many constraints: the head, owner 0's lines, what each nogood of the rows brings in
/// their order, the further lines of the finisher, and a last line that names the finisher's last. In a log without hints these are dropped.
///
/// Where the journals are those of a search over the model and the finisher's last constraint is plainly false, the log is accepted. The
/// parts of a journal's text that stand together are one call of the sink each where they keep their hints, and so are the two lines of
/// the head. It takes no memory. Cost: the bytes of the text, and a search by halves among an owner's notes for each nogood.
pub fn write_refutation<S: Sink>(
    profile: Profile,
    lines: u64,
    journals: &[Journal],
    rows: &[Row],
    finisher: u8,
    sink: &mut S,
) -> Result<(), Failed>
    requires model { lines < 2 ^ 63 }
    requires few { length journals.now ≤ 65 }
    requires owners { StandAtOwners journals.now }
    requires notes { AllRise journals.now }
    requires owned { HaveOwners journals.now rows.now }
    requires lines { NotesAreOfLines (journals_in journals.now) (rows_in rows.now) }
    requires rows { length rows.now ≤ 4194304 }
    requires finisher { finisher < length journals.now }
    requires ends { 0 < length (journal_of (journals_in journals.now) finisher).lines }
    ensures text { Wrote (S.spot sink.old).steady (S.contents sink.old) (S.contents sink.new) result
        (in_profile profile (log_text (refutation lines journals.now rows.now finisher))) }
    ensures cause { HasBlame S.spot S.rest S.faults S.blamed sink.old sink.new result }
    ensures accepted { (n : ℕ) (model : List Form) (clause : ℕ → Form) (forms : ℕ → List Form)
        (last : Form) → length model ≡ lines
        → AreJournals model (rows_in rows.now) clause (journals_in journals.now) forms
        → AreInRange n (journals_in journals.now)
        → from_one (forms finisher) (length (journal_of (journals_in journals.now) finisher).lines)
        ≡ Some last → is_contradiction last ≡ true
        → Accepts n model
        (in_profile profile (log_text (refutation lines journals.now rows.now finisher)))
        Unsatisfiable }
{
    merge_laws();
    line_laws();
    ask_all(journals);
    write_head(profile, lines, sink)?;
    put_body(profile, journals, rows, finisher, sink)
}
