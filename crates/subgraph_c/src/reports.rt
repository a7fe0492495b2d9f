//! The statuses and reports of refusals.

ghost use Rattle.std.specs.Prelude.{◌≡◌};
ghost use Rattle.subgraph_c.specs.Reports.{word_cause, range_cause, refusal_status, refusal_report, images_report, long_report, fault_report};

use crate::passed::Report;
use crate::refusal::{OutOfRange, Refusal};
use graph_theory::lad_text::LadCause;

/// The number of a cause.
fn number_of_cause(cause: LadCause) -> u32
    ensures { result ≡ word_cause cause }
{
    match cause {
        LadCause::NotNumber => 1,
        LadCause::TooMany => 2,
        LadCause::EndsEarly => 3,
        LadCause::NoSuchVertex => 4,
        LadCause::LabelClash => 5,
        LadCause::WordsLeft => 6,
    }
}

/// The number of what is out of range.
fn number_of_range(range: OutOfRange) -> u32
    ensures { result ≡ range_cause range }
{
    match range {
        OutOfRange::Format => 1,
        OutOfRange::Maps => 2,
        OutOfRange::Induced => 3,
        OutOfRange::InducedMaps => 4,
        OutOfRange::ManyPairs => 5,
        OutOfRange::OneVertex => 6,
        OutOfRange::Budget => 7,
        OutOfRange::Rows => 8,
        OutOfRange::Room => 9,
        OutOfRange::Handle => 10,
    }
}

/// The status of a refusal.
pub(crate) fn status_of(refusal: Refusal) -> u32
    ensures { result ≡ refusal_status refusal }
{
    match refusal {
        Refusal::Number(_) => 3,
        Refusal::Pattern { .. } | Refusal::Target { .. } | Refusal::Vertex { .. } => 4,
        Refusal::NoMemory => 6,
    }
}

/// A report of so many images or bytes.
pub(crate) fn report_images(count: u64) -> Report
    ensures { result ≡ images_report count }
{
    Report {
        word: 0,
        count,
        role: 0,
        cause: 0,
    }
}

/// A report that a text of so many bytes has no room.
pub(crate) fn report_long(count: u64) -> Report
    ensures { result ≡ long_report count }
{
    Report {
        word: 0,
        count,
        role: 0,
        cause: number_of_range(OutOfRange::Room),
    }
}

/// A report of a fault.
pub(crate) fn report_fault(role: u32, word: u64, cause: u32) -> Report
    ensures { result ≡ fault_report role word cause }
{
    Report {
        word,
        count: 0,
        role,
        cause,
    }
}

/// The report of a refusal.
pub(crate) fn report_of(refusal: Refusal) -> Report
    ensures { result ≡ refusal_report refusal }
{
    match refusal {
        Refusal::Number(range) => report_fault(0, 0, number_of_range(range)),
        Refusal::Pattern { word, cause } => report_fault(1, word, number_of_cause(cause)),
        Refusal::Target { word, cause } => report_fault(2, word, number_of_cause(cause)),
        Refusal::Vertex { number } => {
            report_fault(
                3,
                u64::from(number),
                number_of_cause(LadCause::NoSuchVertex),
            )
        }
        Refusal::NoMemory => report_images(0),
    }
}
