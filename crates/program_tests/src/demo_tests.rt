//! What `demo` answers.

use crate::ends::{Ends, all_end};
use memory_runs::{CLEAN, Failing, Judge, Ran, is_judged};
use std::alloc::{AllocError, Global};
use std::sync::Wait;
use std::test::Fail;
use std::thread::Threads;

/// What is told where both problems of a seed are decided.
const DECIDED: &[u8] = b"planted yes\ncycle none\nlog accepted\n";

static SHOWN: [Ends; 3] = [
    Ends("subgraph demo 7 --budget 2000000", &[], 0, DECIDED, "", 0),
    Ends(
        "subgraph demo 7 --threads 4 --budget 2000000",
        &[],
        0,
        DECIDED,
        "",
        0,
    ),
    Ends("subgraph demo", &[], 3, b"", "words: not a command\n", 0),
];

#[test]
fn both_problems_of_a_seed_are_decided(rt: HostRuntime) -> Result<(), Fail> {
    all_end(&rt, rt.alloc(), &SHOWN)
}

/// What a run leaves whose output fails at once.
static CUT_OFF: Ends = Ends(
    "subgraph demo 7 --budget 2000000",
    &[],
    5,
    b"",
    "output: fault\n",
    0,
);

/// Whether it does.
fn is_cut_off<R: Threads + Wait + Sync>(rt: &R, alloc: Global) -> Result<bool, AllocError> {
    let failing = Failing { out: 1, ..CLEAN };
    is_judged(rt, alloc, CUT_OFF.0, Vec::new(alloc), failing, &CUT_OFF)
}

#[test]
fn a_fault_of_the_output_is_told(rt: HostRuntime) -> Result<(), Fail> {
    assert!(rt; is_cut_off(&rt, rt.alloc())?);
    Ok(())
}

/// That the cycle was left unknown by each of three workers, and the planted pattern was found or left unknown too.
#[derive(Drop)]
struct Spent;

impl Judge for Spent {
    fn judges(&self, ran: &Ran) -> bool {
        ran.status == 2
            && ran.out.bytes().ends_with(b"cycle unknown\n")
            && (ran.accounts == 3 || ran.accounts == 6)
    }
}

/// Whether it was, with a budget of one.
fn is_spent<R: Threads + Wait + Sync>(rt: &R, alloc: Global) -> Result<bool, AllocError> {
    let line = "subgraph demo 7 --budget 1 --threads 3";
    is_judged(rt, alloc, line, Vec::new(alloc), CLEAN, &Spent)
}

#[test]
fn a_budget_of_one_leaves_the_cycle_unknown(rt: HostRuntime) -> Result<(), Fail> {
    assert!(rt; is_spent(&rt, rt.alloc())?);
    Ok(())
}
