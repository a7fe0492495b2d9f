//! The exports.

ghost use Rattle.std.specs.Prelude.{◌≡◌, ◌≤◌, length, IsTrue};
ghost use Rattle.subgraph_c.specs.Asking.{call};
ghost use Rattle.subgraph_c.specs.Checking.{CheckStatus};
ghost use Rattle.subgraph_c.specs.Deciding.{DecideStatus, decision_status, decision_report, images_after, Fits};
ghost use Rattle.subgraph_c.specs.Encoding.{EncodeStatus, HasRoom, encoded_status, encoded_report, bytes_after};
ghost use Rattle.subgraph_c.specs.Verifying.{VerifyStatus, tested_status, tested_report};

use crate::asking::Asked;
use crate::checking::{Told, judge};
use crate::deciding::{Decision, decide};
use crate::encoding::{Encoded, encode};
use crate::passed::{Options, Pair, Report};
use crate::reports::{report_images, report_long, report_of, status_of};
use crate::verifying::{Tested, test};
use graph_theory::lad_text::text_laws;
use log_theory::{answer_laws, log_laws};
use std::alloc::Global;

/// Tells a decision: its status is returned, an embedding is written to the front of `map`, and the report is written.
pub(crate) fn tell(decision: &Decision, map: &mut [u32], report: &mut Report) -> u32
    requires { Fits decision.now (length map.old) }
    ensures status { result ≡ decision_status decision.now }
    ensures images { map.new ≡ images_after decision.now map.old }
    ensures report { report.new ≡ decision_report decision.now }
{
    match decision {
        Decision::Yes(found) => {
            map[..found.len()].copy_from_slice(found);
            *report = report_images(found.len() as u64);
            0
        }
        Decision::Nothing => {
            *report = report_images(0);
            1
        }
        Decision::Unknown => {
            *report = report_images(0);
            2
        }
        Decision::Refused(refusal) => {
            *report = report_of(*refusal);
            status_of(*refusal)
        }
    }
}

/// Tells what a test says.
fn tell_test(tested: Tested, report: &mut Report) -> u32
    ensures status { result ≡ tested_status tested }
    ensures report { report.new ≡ tested_report tested }
{
    match tested {
        Tested::Embedding => {
            *report = report_images(0);
            0
        }
        Tested::NoEmbedding => {
            *report = report_images(0);
            7
        }
        Tested::Refused(refusal) => {
            *report = report_of(refusal);
            status_of(refusal)
        }
    }
}

/// Tells what was made of a call: its status is returned, a text is written to the front of `bytes`, and the report is
/// written.
fn tell_encoded(encoded: &Encoded, bytes: &mut [u8], report: &mut Report) -> u32
    requires { HasRoom encoded.now (length bytes.old) }
    ensures status { result ≡ encoded_status encoded.now }
    ensures bytes { bytes.new ≡ bytes_after encoded.now bytes.old }
    ensures report { report.new ≡ encoded_report encoded.now }
{
    match encoded {
        Encoded::Text(text) => {
            bytes[..text.len()].copy_from_slice(text.as_slice());
            *report = report_images(text.len() as u64);
            0
        }
        Encoded::TooLong { count } => {
            *report = report_long(*count);
            3
        }
        Encoded::Refused(refusal) => {
            *report = report_of(*refusal);
            status_of(*refusal)
        }
    }
}

/// Decides whether the pattern has an embedding into the target, and leaves one in `map`. Its status is 0 where one
/// was found, 1 where none exists, 2 where the budget was spent before, 3 where a number is out of its range, 4 where
/// a text or the pairs are faulty, and 6 where memory was refused.
#[unsafe(no_mangle)]
pub extern "C" fn subgraph_decide(
    alloc: Global,
    pattern: &[u8],
    target: &[u8],
    options: &Options,
    less: &[Pair],
    map: &mut [u32],
    report: &mut Report,
) -> u32
    ensures { DecideStatus result (call pattern.now target.now options.now less.now) map.old map.new
        report.new }
{
    text_laws();
    let asked = Asked {
        pattern,
        target,
        options,
        less,
    };
    let decision = decide(alloc, &asked, map.len());
    tell(&decision, map, report)
}

/// Tests whether the map is an embedding of the pattern into the target; its length is part of that. Its status is 0
/// where it is, 7 where it is not, 3 where a number that chooses the problem is out of its range, 4 where a text or
/// the pairs are faulty, and 6 where memory was refused.
#[unsafe(no_mangle)]
pub extern "C" fn subgraph_verify(
    alloc: Global,
    pattern: &[u8],
    target: &[u8],
    options: &Options,
    less: &[Pair],
    map: &[u32],
    report: &mut Report,
) -> u32
    ensures { VerifyStatus result (call pattern.now target.now options.now less.now) map.now
        report.new }
{
    text_laws();
    let asked = Asked {
        pattern,
        target,
        options,
        less,
    };
    tell_test(test(alloc, &asked, map), report)
}

/// Writes the question as pseudo-Boolean constraints, whose solutions are the embeddings: the text goes to the front
/// of `bytes`. Its status is 0 where it was written, 3 where a number that chooses the problem is out of its range or
/// the text has no room, 4 where a text or the pairs are faulty, and 6 where memory was refused.
#[unsafe(no_mangle)]
pub extern "C" fn subgraph_encode(
    alloc: Global,
    pattern: &[u8],
    target: &[u8],
    options: &Options,
    less: &[Pair],
    bytes: &mut [u8],
    report: &mut Report,
) -> u32
    ensures { EncodeStatus result (call pattern.now target.now options.now less.now) bytes.old
        bytes.new report.new }
{
    text_laws();
    let asked = Asked {
        pattern,
        target,
        options,
        less,
    };
    let encoded = encode(alloc, &asked, bytes.len());
    tell_encoded(&encoded, bytes, report)
}

/// Judges a proof log over an encoding. Its status is 0 where the log is accepted, with the claim of its last line as
/// the report's cause: 1 that no solution exists, 2 that one does, 3 nothing; 7 where the log is refused, 4 where the
/// encoding is faulty, and 6 where memory was refused.
#[unsafe(no_mangle)]
pub extern "C" fn subgraph_check(
    alloc: Global,
    encoding: &[u8],
    log: &[u8],
    report: &mut Report,
) -> u32
    ensures { CheckStatus result encoding.now log.now report.new }
{
    log_laws();
    answer_laws();
    let Told {
        status,
        report: found,
    } = judge(alloc, encoding, log);
    *report = found;
    status
}

/// The version: 10,000 times the first number, 100 times the second and the third together.
#[unsafe(no_mangle)]
pub extern "C" fn subgraph_version() -> u32
    ensures { result ≡ 10100 }
{
    10100
}
