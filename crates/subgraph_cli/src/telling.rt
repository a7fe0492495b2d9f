//! The lines on the error stream, and the statuses.

ghost use Rattle.std.specs.Prelude.{◌≡◌};
ghost use Rattle.outer_io.specs.KnownText.{Wrote};
ghost use Rattle.outer_io.specs.Sinks.{HasBlame};
ghost use Rattle.subgraph_cli.specs.Lines.{job_text, role_text, cause_text, opb_cause_text, list_cause_text, log_cause_text, log_text, fault_text, refusal_text, stop_text, stop_status, no_command_text};
ghost use Rattle.subgraph_cli.specs.Solving.{solve_status};
ghost use Rattle.subgraph_cli.specs.Verifying.{verify_status, TellsTested};
ghost use Rattle.subgraph_cli.specs.Encoded.{encode_status};
ghost use Rattle.subgraph_cli.specs.Demonstrating.{demo_status, shown_status};
ghost use Rattle.subgraph_cli.specs.Checking.{check_status, TellsChecked};
ghost use Rattle.subgraph_cli.specs.Trimming.{trim_status, TellsTrimming};
ghost use Rattle.subgraph_cli.specs.Stops.{TellsStop};
ghost use Rattle.subgraph_cli.specs.Streams.{stream, IsSameSink, Tells};

use crate::check::Checked;
use crate::demo::Shown;
use crate::solve::Decision;
use crate::stop::{Role, Stop, TextFault};
use crate::trim::Trimming;
use crate::verify::Tested;
use graph_theory::lad_text::LadCause;
use itoa::Buffer;
use job_list::ListCause;
use log_theory::Cause;
use opb_text::OpbCause;
use outer_io::fault::Failed;
use outer_io::put::put_all;
use outer_io::sink::Sink;

/// What a cause of a list's line is called.
fn list_cause_name(cause: ListCause) -> &'static [u8]
    ensures { result.now ≡ list_cause_text cause }
{
    match cause {
        ListCause::Form => b"Form",
        ListCause::TooMany => b"TooMany",
    }
}

/// What a cause is called.
fn cause_name(cause: LadCause) -> &'static [u8]
    ensures { result.now ≡ cause_text cause }
{
    match cause {
        LadCause::NotNumber => b"NotNumber",
        LadCause::TooMany => b"TooMany",
        LadCause::EndsEarly => b"EndsEarly",
        LadCause::NoSuchVertex => b"NoSuchVertex",
        LadCause::LabelClash => b"LabelClash",
        LadCause::WordsLeft => b"WordsLeft",
    }
}

/// What a cause of an encoding's line is called.
fn opb_cause_name(cause: OpbCause) -> &'static [u8]
    ensures { result.now ≡ opb_cause_text cause }
{
    match cause {
        OpbCause::Header => b"Header",
        OpbCause::Objective => b"Objective",
        OpbCause::Equality => b"Equality",
        OpbCause::Product => b"Product",
        OpbCause::NoSuchVariable => b"NoSuchVariable",
        OpbCause::Wide => b"Wide",
        OpbCause::Form => b"Form",
        OpbCause::Count => b"Count",
    }
}

/// What a cause of a log's line is called.
fn log_cause_name(cause: Cause) -> &'static [u8]
    ensures { result.now ≡ log_cause_text cause }
{
    match cause {
        Cause::EndsEarly => b"EndsEarly",
        Cause::Form => b"Form",
        Cause::NameUsed => b"NameUsed",
        Cause::Order => b"Order",
        Cause::Twice => b"Twice",
        Cause::NoSuchName => b"NoSuchName",
        Cause::Stack => b"Stack",
        Cause::Zero => b"Zero",
        Cause::Wide => b"Wide",
        Cause::NoConflict => b"NoConflict",
        Cause::NotFalse => b"NotFalse",
        Cause::NotSolution => b"NotSolution",
    }
}

/// Puts the line of a log that is not accepted.
fn put_log<E: Sink>(line: u64, cause: Cause, err: &mut E) -> Result<(), Failed>
    ensures text { Wrote (E.spot err.old).steady (E.contents err.old) (E.contents err.new) result
        (log_text line cause) }
    ensures cause { HasBlame E.spot E.rest E.faults E.blamed err.old err.new result }
{
    let mut digits = Buffer::new();
    let number = digits.format(line).as_bytes();
    put_all(
        &[b"log: line ", number, b": ", log_cause_name(cause), b"\n"],
        err,
    )
}

/// Puts what the file of a job is called.
fn put_job<E: Sink>(job: u32, part: &[u8], err: &mut E) -> Result<(), Failed>
    ensures text { Wrote (E.spot err.old).steady (E.contents err.old) (E.contents err.new) result
        (job_text job part.now) }
    ensures cause { HasBlame E.spot E.rest E.faults E.blamed err.old err.new result }
{
    let mut digits = Buffer::new();
    put_all(&[b"job ", digits.format(job).as_bytes(), part], err)
}

/// Puts what a text is called after its role.
fn put_role<E: Sink>(role: Role, err: &mut E) -> Result<(), Failed>
    ensures text { Wrote (E.spot err.old).steady (E.contents err.old) (E.contents err.new) result
        (role_text role) }
    ensures cause { HasBlame E.spot E.rest E.faults E.blamed err.old err.new result }
{
    match role {
        Role::Pattern => err.put(b"pattern"),
        Role::Less => err.put(b"less"),
        Role::Target => err.put(b"target"),
        Role::Mapping => err.put(b"mapping"),
        Role::Encoding => err.put(b"encoding"),
        Role::Log => err.put(b"log"),
        Role::JobList => err.put(b"list"),
        Role::JobPattern(job) => put_job(job, b" pattern", err),
        Role::JobTarget(job) => put_job(job, b" target", err),
    }
}

/// Puts why a text is refused, behind what the text is called.
fn put_fault<E: Sink>(fault: TextFault, err: &mut E) -> Result<(), Failed>
    ensures text { Wrote (E.spot err.old).steady (E.contents err.old) (E.contents err.new) result
        (fault_text fault) }
    ensures cause { HasBlame E.spot E.rest E.faults E.blamed err.old err.new result }
{
    let mut digits = Buffer::new();
    match fault {
        TextFault::TooLong => put_all(&[b": too long", b"\n"], err),
        TextFault::Word { word, cause } => {
            let number = digits.format(word).as_bytes();
            put_all(&[b": word ", number, b": ", cause_name(cause), b"\n"], err)
        }
        TextFault::Pair { number } => {
            let place = digits.format(number).as_bytes();
            put_all(&[b": pair ", place, b": NoSuchVertex", b"\n"], err)
        }
        TextFault::Line { line } => {
            let number = digits.format(line).as_bytes();
            put_all(&[b": line ", number, b": Form", b"\n"], err)
        }
        TextFault::Opb { line, cause } => {
            let number = digits.format(line).as_bytes();
            put_all(
                &[b": line ", number, b": ", opb_cause_name(cause), b"\n"],
                err,
            )
        }
        TextFault::Listed { line, cause } => {
            let number = digits.format(line).as_bytes();
            put_all(
                &[b": line ", number, b": ", list_cause_name(cause), b"\n"],
                err,
            )
        }
    }
}

/// Puts the line of a refused text.
fn put_refusal<E: Sink>(role: Role, fault: TextFault, err: &mut E) -> Result<(), Failed>
    ensures text { Wrote (E.spot err.old).steady (E.contents err.old) (E.contents err.new) result
        (refusal_text role fault) }
    ensures cause { HasBlame E.spot E.rest E.faults E.blamed err.old err.new result }
{
    put_role(role, err)?;
    put_fault(fault, err)
}

/// Puts the line of a way to stop.
fn put_stop<E: Sink>(stop: Stop, err: &mut E) -> Result<(), Failed>
    ensures text { Wrote (E.spot err.old).steady (E.contents err.old) (E.contents err.new) result
        (stop_text stop) }
    ensures cause { HasBlame E.spot E.rest E.faults E.blamed err.old err.new result }
{
    match stop {
        Stop::Refused { role, fault } => put_refusal(role, fault, err),
        Stop::FilesFault => err.put(b"files: fault\n"),
        Stop::OutputFault => err.put(b"output: fault\n"),
        Stop::NoMemory => err.put(b"memory: refused\n"),
    }
}

/// The status that the program ends with where a command stopped.
fn status_of(stop: Stop) -> u8
    ensures { result ≡ stop_status stop }
{
    match stop {
        Stop::Refused { .. } => 4,
        Stop::FilesFault | Stop::OutputFault => 5,
        Stop::NoMemory => 6,
    }
}

/// Tells why a command stopped, and answers the status. A fault of the error stream changes nothing.
pub fn tell_stop<E: Sink>(stop: Stop, err: &mut E) -> u8
    ensures status { result ≡ stop_status stop }
    ensures line { Tells (stream E.spot E.contents E.faults err.old err.new) (stop_text stop) }
    ensures sink { IsSameSink E.spot E.rest E.faults err.old err.new }
{
    let _ = put_stop(stop, err);
    status_of(stop)
}

/// Tells that the words are no command, and answers the status.
pub fn tell_no_command<E: Sink>(err: &mut E) -> u8
    ensures status { result ≡ 3 }
    ensures line { Tells (stream E.spot E.contents E.faults err.old err.new) no_command_text }
    ensures sink { IsSameSink E.spot E.rest E.faults err.old err.new }
{
    let _ = err.put(b"words: not a command\n");
    3
}

/// The status of a solve; where it stopped the error stream is told.
pub fn end_solve<E: Sink>(ended: Result<Decision, Stop>, err: &mut E) -> u8
    ensures status { result ≡ solve_status ended }
    ensures line { TellsStop ended (stream E.spot E.contents E.faults err.old err.new) }
    ensures sink { IsSameSink E.spot E.rest E.faults err.old err.new }
{
    match ended {
        Ok(Decision::Yes) => 0,
        Ok(Decision::Nothing) => 1,
        Ok(Decision::Unknown) => 2,
        Err(stop) => tell_stop(stop, err),
    }
}

/// The status of a verify; where the mapping is no embedding, and where it stopped, the error stream is told.
pub fn end_verify<E: Sink>(ended: Result<Tested, Stop>, err: &mut E) -> u8
    ensures status { result ≡ verify_status ended }
    ensures line { TellsTested ended (stream E.spot E.contents E.faults err.old err.new) }
    ensures sink { IsSameSink E.spot E.rest E.faults err.old err.new }
{
    match ended {
        Ok(Tested::Embedding) => 0,
        Ok(Tested::NotAnEmbedding) => {
            let _ = err.put(b"mapping: not an embedding\n");
            7
        }
        Err(stop) => tell_stop(stop, err),
    }
}

/// The status of an encode; where it stopped the error stream is told.
pub fn end_encode<E: Sink>(ended: Result<(), Stop>, err: &mut E) -> u8
    ensures status { result ≡ encode_status ended }
    ensures line { TellsStop ended (stream E.spot E.contents E.faults err.old err.new) }
    ensures sink { IsSameSink E.spot E.rest E.faults err.old err.new }
{
    match ended {
        Ok(()) => 0,
        Err(stop) => tell_stop(stop, err),
    }
}

/// The status of a demo; where it stopped the error stream is told.
pub fn end_demo<E: Sink>(ended: Result<Shown, Stop>, err: &mut E) -> u8
    ensures status { result ≡ demo_status ended }
    ensures line { TellsStop ended (stream E.spot E.contents E.faults err.old err.new) }
    ensures sink { IsSameSink E.spot E.rest E.faults err.old err.new }
{
    match ended {
        Ok(shown) => status_of_shown(shown),
        Err(stop) => tell_stop(stop, err),
    }
}

/// The status of a demo that has answered.
fn status_of_shown(shown: Shown) -> u8
    ensures { result ≡ shown_status shown.planted shown.cycle }
{
    match (shown.planted, shown.cycle) {
        (true, true) => 0,
        (true, false) | (false, true) | (false, false) => 2,
    }
}

/// The status of a check; where the log is not accepted, and where it stopped, the error stream is told.
pub fn end_check<E: Sink>(ended: Result<Checked, Stop>, err: &mut E) -> u8
    ensures status { result ≡ check_status ended }
    ensures line { TellsChecked ended (stream E.spot E.contents E.faults err.old err.new) }
    ensures sink { IsSameSink E.spot E.rest E.faults err.old err.new }
{
    match ended {
        Ok(Checked::Accepted { .. }) => 0,
        Ok(Checked::NotAccepted { line, cause }) => {
            let _ = put_log(line, cause, err);
            7
        }
        Err(stop) => tell_stop(stop, err),
    }
}

/// The status of a trim; where the log is not accepted, and where it stopped, the error stream is told.
pub fn end_trim<E: Sink>(ended: Result<Trimming, Stop>, err: &mut E) -> u8
    ensures status { result ≡ trim_status ended }
    ensures line { TellsTrimming ended (stream E.spot E.contents E.faults err.old err.new) }
    ensures sink { IsSameSink E.spot E.rest E.faults err.old err.new }
{
    match ended {
        Ok(Trimming::Shortened { .. }) => 0,
        Ok(Trimming::NotAccepted { line, cause }) => {
            let _ = put_log(line, cause, err);
            7
        }
        Err(stop) => tell_stop(stop, err),
    }
}
