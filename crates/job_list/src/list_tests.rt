//! Worked lists, and lists of 1,000 lines and more.

use crate::{Job, ListCause, ListFault, read_jobs};
use std::alloc::{AllocError, Global};
use std::test::Fail;

/// Texts, and what is read of each: names with `>` between, `!` where induced, `;` behind each job; or a line's number and its cause.
static LISTS: [(&str, &str); 14] = [
    ("", ""),
    (
        "tri c4\nloop two\npath tri induced",
        "tri>c4;loop>two;path>tri!;",
    ),
    ("tri c4\n", "tri>c4;"),
    ("tri", "1 Form"),
    ("\n", "1 Form"),
    ("a b\n\nc d\n", "2 Form"),
    ("a  b", "1 Form"),
    (" a b", "1 Form"),
    ("a b ", "1 Form"),
    ("a induced", "a>induced;"),
    ("a induced induced\n", "a>induced!;"),
    ("a b Induced", "1 Form"),
    ("a b\r\n", "1 Form"),
    ("a b\nc\td e\nf", "2 Form"),
];

/// A job as the table shows it.
fn put_job(out: &mut String, job: &Job) -> Result<(), AllocError> {
    out.push_str(&job.pattern)?;
    out.push_str(">")?;
    out.push_str(&job.target)?;
    out.push_str(if job.induced { "!;" } else { ";" })
}

/// Jobs as the table shows them.
fn put_jobs(out: &mut String, jobs: &[Job]) -> Result<(), AllocError> {
    for job in jobs {
        put_job(out, job)?;
    }
    Ok(())
}

/// A fault as the table shows it.
fn fault_text(alloc: Global, fault: ListFault) -> Result<String, AllocError> {
    match fault {
        ListFault::NoMemory => Err(AllocError),
        ListFault::Line { line, cause } => {
            let word = match cause {
                ListCause::Form => "Form",
                ListCause::TooMany => "TooMany",
            };
            format!(in alloc; "{line} {word}")
        }
    }
}

/// What is read of a text, as the table shows it.
fn shown(alloc: Global, text: &[u8]) -> Result<String, AllocError> {
    let jobs = match read_jobs(alloc, text) {
        Ok(jobs) => jobs,
        Err(fault) => return fault_text(alloc, fault),
    };
    let mut out = String::new(alloc);
    put_jobs(&mut out, &jobs)?;
    Ok(out)
}

/// Whether this is read of a text.
fn reads(alloc: Global, text: &[u8], what: &str) -> Result<bool, AllocError> {
    Ok(shown(alloc, text)?.as_str() == what)
}

/// The number of the first row that reads otherwise, or how many rows there are.
fn first_wrong(alloc: Global, rows: &[(&str, &str)]) -> Result<usize, AllocError> {
    for i in 0..rows.len() {
        if !reads(alloc, rows[i].0.as_bytes(), rows[i].1)? {
            return Ok(i);
        }
    }
    Ok(rows.len())
}

/// So many lines, and then a text.
fn lines(alloc: Global, count: u32, last: &[u8]) -> Result<Vec<u8>, AllocError> {
    let mut text = Vec::new(alloc);
    for _ in 0..count {
        text.extend_from_slice(b"a b\n")?;
    }
    text.extend_from_slice(last)?;
    Ok(text)
}

/// How many jobs are read of so many lines and then a text; none where a line is faulty.
fn count_of(alloc: Global, count: u32, last: &[u8]) -> Result<Option<usize>, AllocError> {
    let text = lines(alloc, count, last)?;
    match read_jobs(alloc, &text) {
        Ok(jobs) => Ok(Some(jobs.len())),
        Err(_) => Ok(None),
    }
}

/// Whether this is read of so many lines and then a text.
fn reads_lines(alloc: Global, count: u32, last: &[u8], what: &str) -> Result<bool, AllocError> {
    let text = lines(alloc, count, last)?;
    reads(alloc, &text, what)
}

/// How many jobs are read of a line whose target's name has so many bytes.
fn count_of_long(alloc: Global, bytes: usize) -> Result<Option<usize>, AllocError> {
    let name = Vec::from_elem(alloc, b'x', bytes)?;
    let mut line = Vec::from_slice(alloc, b"a ")?;
    line.extend_from_slice(&name)?;
    count_of(alloc, 0, &line)
}

#[test]
fn worked_lists(rt: HostRuntime) -> Result<(), Fail> {
    assert!(rt; first_wrong(rt.alloc(), &LISTS)? == LISTS.len());
    Ok(())
}

#[test]
fn a_thousand_lines(rt: HostRuntime) -> Result<(), Fail> {
    assert!(rt; count_of(rt.alloc(), 999, b"c d")? == Some(1000));
    assert!(rt; reads_lines(rt.alloc(), 1000, b"c d", "1001 TooMany")?);
    assert!(rt; reads_lines(rt.alloc(), 1000, b"c", "1001 TooMany")?);
    assert!(rt; reads_lines(rt.alloc(), 999, b"c\nd\n", "1000 Form")?);
    Ok(())
}

#[test]
fn names_at_their_limits(rt: HostRuntime) -> Result<(), Fail> {
    assert!(rt; count_of_long(rt.alloc(), 4095)? == Some(1));
    assert!(rt; count_of_long(rt.alloc(), 4096)?.is_none());
    assert!(rt; reads(rt.alloc(), b"a \xff", "1 Form")?);
    Ok(())
}
