//! The exports that open a target, ask it and close it.

ghost use Rattle.std.specs.Prelude.{◌≡◌, None};
ghost use Rattle.target_handle.specs.Opened.{opened};
ghost use Rattle.subgraph_c.specs.Holding.{OpenStatus, HeldStatus, open_status, open_report};

use crate::asking::Asked;
use crate::calls::tell;
use crate::holding::{decide_held, open, tell_closed};
use crate::passed::{Options, Pair, Report};
use crate::refusal::Refusal;
use crate::reports::{report_images, report_of, status_of};
use graph_theory::lad_text::text_laws;
use std::alloc::Global;
use target_handle::handle::TargetHandle;

/// Tells whether a target was opened: the status is returned, and the report is written.
fn tell_opened(outcome: Result<(), Refusal>, report: &mut Report) -> u32
    ensures status { result ≡ open_status outcome }
    ensures report { report.new ≡ open_report outcome }
{
    match outcome {
        Ok(()) => {
            *report = report_images(0);
            0
        }
        Err(refusal) => {
            *report = report_of(refusal);
            status_of(refusal)
        }
    }
}

/// Reads a target's text in the format of this number, and keeps the target in the handle, which is to hold none. Its
/// status is 0 where it was opened, 3 where the handle holds one or the number names no format, 4 where the text is
/// faulty, and 6 where memory was refused.
#[unsafe(no_mangle)]
pub extern "C" fn subgraph_target_open(
    alloc: Global,
    text: &[u8],
    format: u32,
    target: &mut TargetHandle,
    report: &mut Report,
) -> u32
    ensures { OpenStatus result text.now format (opened target.old) (opened target.new) report.new }
{
    text_laws();
    tell_opened(open(alloc, text, format, target), report)
}

/// Decides whether the pattern has an embedding into the target that the handle holds, as `subgraph_decide` does with a
/// text of the target. Its status is 3 too where the handle holds none, or a target in another format than the
/// options name. The handle holds the same target after it.
#[unsafe(no_mangle)]
pub extern "C" fn subgraph_decide_in(
    alloc: Global,
    pattern: &[u8],
    target: &mut TargetHandle,
    options: &Options,
    less: &[Pair],
    map: &mut [u32],
    report: &mut Report,
) -> u32
    ensures says { HeldStatus result (opened target.old) pattern.now options.now less.now map.old
        map.new report.new }
    ensures held { opened target.new ≡ opened target.old }
{
    text_laws();
    let asked = Asked {
        pattern,
        target: &[],
        options,
        less,
    };
    match target.take(alloc) {
        Some((held, place)) => {
            let (decision, held) = decide_held(alloc, &asked, held, map.len());
            target.put(place, held);
            tell(&decision, map, report)
        }
        None => tell_closed(report),
    }
}

/// Lets go the target that the handle holds, if it holds one, and gives its memory back.
#[unsafe(no_mangle)]
pub extern "C" fn subgraph_target_close(alloc: Global, target: &mut TargetHandle)
    ensures { opened target.new ≡ None }
{
    target.close(alloc);
}
