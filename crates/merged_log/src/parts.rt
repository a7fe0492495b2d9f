//! Parts of a journal's text.

ghost use Rattle.std.specs.Prelude.{◌≡◌, ℕ, ◌+◌, ◌<◌, ◌≤◌, List, [], ◌∷◌, ◌++◌, length, take, Some, IfOk};
ghost use Rattle.outer_io.specs.KnownText.{Wrote};
ghost use Rattle.outer_io.specs.Sinks.{HasBlame};
ghost use Rattle.log_theory.specs.declared.step.Step.{Step};
ghost use Rattle.log_theory.specs.declared.profile.Profile.TheVariants.{Plain};
ghost use Rattle.journal_theory.specs.Journals.{note_of as noted};
ghost use Rattle.journals.specs.Keeping.{text_of, ends_from};
ghost use Rattle.merged_log.specs.Profiles.{text_in, without_hints, up_to_mark};
ghost use Rattle.merged_log.specs.Notes.{NotesRise};
ghost use Rattle.merged_log.specs.Lines.{part_of, brought, count_then};

use crate::notes::note_of;
use journals::Journal;
use log_theory::{Name, Profile, Step};
use outer_io::{Failed, Sink};
use proof_log::write_step;

/// Where in a text the first so many lines end.
fn end_of(ends: &[usize], count: usize) -> usize
    requires { count ≤ length ends.now }
    ensures { (steps : List Step) → ends.now ≡ ends_from 0 steps
        → result ≡ length (text_of (take count steps)) }
{
    if count == 0 {
        return 0;
    }
    ends[count - 1]
}

/// Puts the lines of a journal from one count up to another, in one piece.
fn put_hinted<S: Sink>(
    journal: &Journal,
    from: usize,
    to: usize,
    sink: &mut S,
) -> Result<(), Failed>
    requires { to ≤ length journal.now.steps }
    ensures text { Wrote (S.spot sink.old).steady (S.contents sink.old) (S.contents sink.new) result
        (text_of (part_of journal.now from to)) }
    ensures cause { HasBlame S.spot S.rest S.faults S.blamed sink.old sink.new result }
{
    let text = journal.text();
    let ends = journal.ends();
    if from >= to {
        return Ok(());
    }
    sink.put(&text[end_of(ends, from)..end_of(ends, to)])
}

/// Where the first `;` of a line ends, or the line where it has none.
fn mark_end(line: &[u8]) -> usize
    ensures within { result ≤ length line.now }
    ensures text { take result line.now ≡ up_to_mark line.now }
{
    let mut at = 0usize;
    while at < line.len() {
        if line[at] == b';' {
            return at + 1;
        }
        at += 1;
    }
    at
}

/// Puts the front of a line and a line feed.
fn put_cut<S: Sink>(line: &[u8], end: usize, sink: &mut S) -> Result<(), Failed>
    requires { end ≤ length line.now }
    ensures text { Wrote (S.spot sink.old).steady (S.contents sink.old) (S.contents sink.new) result
        (take end line.now ++ 10 ∷ []) }
    ensures cause { HasBlame S.spot S.rest S.faults S.blamed sink.old sink.new result }
{
    sink.put(&line[..end])?;
    sink.put(b"\n")
}

/// Puts a line without its hints.
fn put_line<S: Sink>(line: &[u8], sink: &mut S) -> Result<(), Failed>
    ensures text { Wrote (S.spot sink.old).steady (S.contents sink.old) (S.contents sink.new) result
        (without_hints line.now) }
    ensures cause { HasBlame S.spot S.rest S.faults S.blamed sink.old sink.new result }
{
    if line.is_empty() || line[0] != b'u' {
        return sink.put(line);
    }
    put_cut(line, mark_end(line), sink)
}

/// Puts one line of a journal without its hints.
fn put_step<S: Sink>(journal: &Journal, at: usize, sink: &mut S) -> Result<(), Failed>
    requires { at < length journal.now.steps }
    ensures text { Wrote (S.spot sink.old).steady (S.contents sink.old) (S.contents sink.new) result
        (text_in Plain (part_of journal.now at (at + 1))) }
    ensures cause { HasBlame S.spot S.rest S.faults S.blamed sink.old sink.new result }
{
    let text = journal.text();
    let ends = journal.ends();
    put_line(&text[end_of(ends, at)..end_of(ends, at + 1)], sink)
}

/// Puts the lines of a journal from one count up to another, each without its hints.
fn put_plain<S: Sink>(journal: &Journal, from: usize, to: usize, sink: &mut S) -> Result<(), Failed>
    requires { to ≤ length journal.now.steps }
    ensures text { Wrote (S.spot sink.old).steady (S.contents sink.old) (S.contents sink.new) result
        (text_in Plain (part_of journal.now from to)) }
    ensures cause { HasBlame S.spot S.rest S.faults S.blamed sink.old sink.new result }
{
    let _text = journal.text();
    if from >= to {
        return Ok(());
    }
    for at in from..to {
        put_step(journal, at, sink)?;
    }
    Ok(())
}

/// Puts the lines of a journal from one count up to another, in one piece where they keep their hints, and else line by line.
pub(crate) fn put_part<S: Sink>(
    profile: Profile,
    journal: &Journal,
    from: usize,
    to: usize,
    sink: &mut S,
) -> Result<(), Failed>
    requires { to ≤ length journal.now.steps }
    ensures text { Wrote (S.spot sink.old).steady (S.contents sink.old) (S.contents sink.new) result
        (text_in profile (part_of journal.now from to)) }
    ensures cause { HasBlame S.spot S.rest S.faults S.blamed sink.old sink.new result }
{
    match profile {
        Profile::Hinted => put_hinted(journal, from, to, sink),
        Profile::Plain => put_plain(journal, from, to, sink),
    }
}

/// Puts the lines of a journal up to a number, and the line that shares this under a row.
fn put_shared<S: Sink>(
    profile: Profile,
    journal: &Journal,
    from: usize,
    row: u32,
    name: Name,
    sink: &mut S,
) -> Result<(), Failed>
    requires owner { name.owner ≡ journal.now.owner }
    requires few { name.owner ≤ 64 }
    requires some { 1 ≤ name.number }
    requires line { name.number ≤ length journal.now.steps }
    requires row { row < 4194304 }
    ensures text { Wrote (S.spot sink.old).steady (S.contents sink.old) (S.contents sink.new) result
        (text_in profile (brought journal.now from row (Some name.number))) }
    ensures cause { HasBlame S.spot S.rest S.faults S.blamed sink.old sink.new result }
{
    let _ends = journal.ends();
    put_part(profile, journal, from, name.number as usize, sink)?;
    write_step(Profile::Hinted, &Step::N { row, name }, sink)
}

/// Puts what a row of the journal's owner brings, and gives how many of the lines stand there then.
pub(crate) fn put_row<S: Sink>(
    profile: Profile,
    journal: &Journal,
    owner: u8,
    from: usize,
    row: u32,
    sink: &mut S,
) -> Result<usize, Failed>
    requires owner { owner ≡ journal.now.owner }
    requires few { owner ≤ 64 }
    requires notes { NotesRise journal.now.notes }
    requires line { (n : ℕ) → noted journal.now.notes row ≡ Some n → (1 ≤ n)
        × (n ≤ length journal.now.steps) }
    requires row { row < 4194304 }
    ensures text { Wrote (S.spot sink.old).steady (S.contents sink.old) (S.contents sink.new) result
        (text_in profile (brought journal.now from row (noted journal.now.notes row))) }
    ensures cause { HasBlame S.spot S.rest S.faults S.blamed sink.old sink.new result }
    ensures count { IfOk result (λ n. n ≡ count_then from (noted journal.now.notes row)) }
{
    let Some(number) = note_of(journal.notes(), row) else {
        return Ok(from);
    };
    put_shared(profile, journal, from, row, Name { owner, number }, sink)?;
    Ok(from.max(number as usize))
}
