//! The exports that open a flag, put it up and close it, and those that a flag ends.

ghost use Rattle.std.specs.Prelude.{◌≡◌, ◌≤◌, true, false, IfOk, IfErr, length};
ghost use Rattle.target_handle.specs.Opened.{opened};
ghost use Rattle.subgraph_c.specs.Asking.{call};
ghost use Rattle.subgraph_c.specs.Deciding.{Fits};
ghost use Rattle.subgraph_c.specs.Stopping.{FlagStatus, StopStatus, HeldEndSays, HeldStopStatus, end_status, end_report, images_at_end};

use crate::asking::Asked;
use crate::calls::tell;
use crate::deciding::{Decision, decide, decide_at};
use crate::holding::{decide_held, decide_held_at, tell_closed};
use crate::passed::{Limits, Pair, Report};
use crate::reports::report_images;
use call_flag::gate::FlagGate;
use call_flag::handle::FlagHandle;
use call_flag::opening::open;
use graph_theory::lad_text::text_laws;
use parallel_solve::Interrupted;
use std::alloc::Global;
use target_handle::handle::TargetHandle;
use target_handle::open_target::OpenTarget;

/// Tells a decision as `tell` does, or that a flag ended the call.
fn tell_end(ended: &Result<Decision, Interrupted>, map: &mut [u32], report: &mut Report) -> u32
    requires { IfOk ended.now (λ d. Fits d (length map.old)) }
    ensures status { result ≡ end_status ended.now }
    ensures images { map.new ≡ images_at_end ended.now map.old }
    ensures report { report.new ≡ end_report ended.now }
{
    match ended {
        Ok(decision) => tell(decision, map, report),
        Err(_) => {
            *report = report_images(0);
            8
        }
    }
}

/// Opens a flag, which is down: both handles, which are to have no owner, get one. Its status is 0 where it was opened,
/// 3 where a handle has an owner, and 6 where memory was refused.
#[unsafe(no_mangle)]
pub extern "C" fn subgraph_flag_open(
    alloc: Global,
    first: &mut FlagHandle,
    second: &mut FlagHandle,
) -> u32
    ensures { FlagStatus result first.old second.old first.new second.new }
{
    if first.is_there() || second.is_there() {
        return 3;
    }
    match open(alloc) {
        Ok((one, other)) => {
            *first = one;
            *second = other;
            0
        }
        Err(_) => 6,
    }
}

/// Puts up the flag that the handle has an owner of. Without an owner nothing happens.
#[unsafe(no_mangle)]
pub extern "C" fn subgraph_flag_raise(alloc: Global, flag: &mut FlagHandle)
    ensures { flag.new.there ≡ flag.old.there }
{
    flag.raise(alloc);
}

/// Lets go the owner that the handle has, if it has one. With the last owner of a flag its memory is given back.
#[unsafe(no_mangle)]
pub extern "C" fn subgraph_flag_close(alloc: Global, flag: &mut FlagHandle)
    ensures { flag.new.there ≡ false }
{
    flag.close(alloc);
}

/// Decides as `subgraph_decide` does, until the flag is up. Its status is 8 where the flag was up before a guess and
/// nothing is decided; this can be only where the handle has an owner, which it has after it too.
#[unsafe(no_mangle)]
pub extern "C" fn subgraph_decide_until(
    alloc: Global,
    pattern: &[u8],
    target: &[u8],
    limits: &mut Limits,
    less: &[Pair],
    map: &mut [u32],
    report: &mut Report,
) -> u32
    ensures says { StopStatus result (call pattern.now target.now limits.old.options less.now)
        limits.old.flag.there map.old map.new report.new }
    ensures options { limits.new.options ≡ limits.old.options }
    ensures flag { limits.new.flag.there ≡ limits.old.flag.there }
{
    text_laws();
    let options = limits.options;
    let asked = Asked {
        pattern,
        target,
        options: &options,
        less,
    };
    match limits.flag.take(alloc) {
        Some(owner) => {
            let ended = decide_at(alloc, &asked, map.len(), &FlagGate::new(&owner));
            limits.flag = FlagHandle::with(owner);
            tell_end(&ended, map, report)
        }
        None => {
            let decision = decide(alloc, &asked, map.len());
            tell(&decision, map, report)
        }
    }
}

/// Decides a question of a target that is open until the flag is up, and gives the target back.
fn decide_held_until(
    alloc: Global,
    asked: &Asked,
    target: OpenTarget,
    room: usize,
    flag: &mut FlagHandle,
) -> (Result<Decision, Interrupted>, OpenTarget)
    ensures says { HeldEndSays result.0 target asked.now.pattern.now asked.now.options.now
        asked.now.less.now room }
    ensures fits { IfOk result.0 (λ d. Fits d room) }
    ensures there { IfErr result.0 (λ _. flag.old.there ≡ true) }
    ensures flag { flag.new.there ≡ flag.old.there }
    ensures same { result.1 ≡ target }
{
    match flag.take(alloc) {
        Some(owner) => {
            let ended = decide_held_at(alloc, asked, target, room, &FlagGate::new(&owner));
            *flag = FlagHandle::with(owner);
            ended
        }
        None => {
            let (decision, target) = decide_held(alloc, asked, target, room);
            (Ok(decision), target)
        }
    }
}

/// Decides as `subgraph_decide_in` does, until the flag is up: the status is then 8, as that of `subgraph_decide_until`.
/// The handle holds the same target after it, and the flag's handle has an owner if it had one.
#[unsafe(no_mangle)]
pub extern "C" fn subgraph_decide_in_until(
    alloc: Global,
    pattern: &[u8],
    target: &mut TargetHandle,
    limits: &mut Limits,
    less: &[Pair],
    map: &mut [u32],
    report: &mut Report,
) -> u32
    ensures says { HeldStopStatus result (opened target.old) pattern.now limits.old.options less.now
        limits.old.flag.there map.old map.new report.new }
    ensures held { opened target.new ≡ opened target.old }
    ensures options { limits.new.options ≡ limits.old.options }
    ensures flag { limits.new.flag.there ≡ limits.old.flag.there }
{
    text_laws();
    let options = limits.options;
    let asked = Asked {
        pattern,
        target: &[],
        options: &options,
        less,
    };
    match target.take(alloc) {
        Some((held, place)) => {
            let (ended, held) = decide_held_until(alloc, &asked, held, map.len(), &mut limits.flag);
            target.put(place, held);
            tell_end(&ended, map, report)
        }
        None => tell_closed(report),
    }
}
