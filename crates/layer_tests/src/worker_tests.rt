//! Problems that several workers decide.

ghost use Rattle.std.specs.Prelude.{IsTrue};
ghost use Rattle.parallel_solve.specs.Solving.{IsWithinBounds};

use crate::problems::problem;
use graph_rows::Problem;
use parallel_solve::{Proof, Settings, Solved, solve_alone_with, solve_with};
use std::alloc::Global;
use std::sync::atomic::{AtomicU64, Ordering};
use std::thread::{self, Threads};
use test_support::{EDGE, FOUR_CYCLE, TRIANGLE};
use worker_gate::{Gate, OpenGate, Point};

/// Five vertices, each beside all others.
const CLIQUE: &[u8] = b"5 4 1 2 3 4 4 0 2 3 4 4 0 1 3 4 4 0 1 2 4 4 0 1 2 3";

/// Sixteen vertices in four parts, each beside all of the other parts: at most four are beside each other.
const SIDES: &[u8] =
    b"16 12 4 5 6 7 8 9 10 11 12 13 14 15 12 4 5 6 7 8 9 10 11 12 13 14 15 12 4 5 6 7 8 9 10 11 12 13 14 15 12 4 5 6 7 8 9 10 11 12 13 14 15 12 0 1 2 3 8 9 10 11 12 13 14 15 12 0 1 2 3 8 9 10 11 12 13 14 15 12 0 1 2 3 8 9 10 11 12 13 14 15 12 0 1 2 3 8 9 10 11 12 13 14 15 12 0 1 2 3 4 5 6 7 12 13 14 15 12 0 1 2 3 4 5 6 7 12 13 14 15 12 0 1 2 3 4 5 6 7 12 13 14 15 12 0 1 2 3 4 5 6 7 12 13 14 15 12 0 1 2 3 4 5 6 7 8 9 10 11 12 0 1 2 3 4 5 6 7 8 9 10 11 12 0 1 2 3 4 5 6 7 8 9 10 11 12 0 1 2 3 4 5 6 7 8 9 10 11";

/// How a solve ended.
#[derive(Clone, Copy, PartialEq, Eq, Debug)]
enum End {
    /// With an embedding that `Problem::is_embedding` finds to be one.
    Yes,
    /// With none, and no log.
    None,
    /// With none, and the log of a proof.
    Proved,
    /// With so many accounts.
    Unknown(usize),
    /// At a closed gate.
    Interrupted,
    /// In none of these ways.
    Other,
}

/// So many workers, each with this budget and all with a book of so many rows.
fn settings(threads: u32, budget: u64, rows: u32, prove: bool) -> Settings {
    Settings {
        threads,
        seed: 0,
        budget,
        rows,
        prove,
    }
}

/// Whether a solve may be asked so.
fn may_be_asked(s: &Settings) -> bool
    ensures { IsTrue result → IsWithinBounds s.now }
{
    s.threads >= 1 && s.threads <= 64 && s.budget < 1 << 63 && s.rows <= 4194304
}

/// How this answer ends a solve of the problem.
fn end_by(q: &Problem, solved: &Solved) -> End {
    match solved {
        Solved::Yes(map) => {
            if q.is_embedding(map) {
                End::Yes
            } else {
                End::Other
            }
        }
        Solved::NoEmbedding(Proof::Unlogged) => End::None,
        Solved::NoEmbedding(Proof::Logged(_)) => End::Proved,
        Solved::Unknown(accounts) => End::Unknown(accounts.len()),
        Solved::NoMemory => End::Other,
    }
}

/// How a search for the pattern in the target ends.
fn end_of<R: Threads + Sync, G: Gate + Sync>(
    rt: &R,
    alloc: Global,
    pattern: &[u8],
    target: &[u8],
    asked: &Settings,
    gate: &G,
) -> End {
    if !may_be_asked(asked) {
        return End::Other;
    }
    match problem(alloc, pattern, target, false) {
        Some(q) => match solve_with(rt, alloc, &q, asked, gate) {
            Ok(solved) => end_by(&q, &solved),
            Err(_) => End::Interrupted,
        },
        None => End::Other,
    }
}

/// How a search for a triangle in a cycle of four vertices ends.
fn end_of_triangle<R: Threads + Sync>(rt: &R, alloc: Global, asked: &Settings) -> End {
    end_of(rt, alloc, TRIANGLE, FOUR_CYCLE, asked, &OpenGate)
}

/// Whether so many workers over a book of so many rows find an edge in a cycle of four vertices, and no triangle.
fn decide<R: Threads + Sync>(rt: &R, alloc: Global, threads: u32, rows: u32) -> bool {
    let asked = settings(threads, 100, rows, false);
    let found = end_of(rt, alloc, EDGE, FOUR_CYCLE, &asked, &OpenGate);
    let refuted = end_of_triangle(rt, alloc, &settings(threads, 4, rows, false));
    found == End::Yes && refuted == End::None
}

/// Whether one to eight workers do.
fn all_decide<R: Threads + Sync>(rt: &R, alloc: Global, rows: u32) -> bool {
    for threads in 1..9 {
        if !decide(rt, alloc, threads, rows) {
            return false;
        }
    }
    true
}

#[test]
fn any_number_of_workers_decides_alike_over_any_book(rt: HostRuntime) {
    assert!(rt; all_decide(&rt, rt.alloc(), 64));
    assert!(rt; all_decide(&rt, rt.alloc(), 1));
    assert!(rt; all_decide(&rt, rt.alloc(), 0));
}

/// Whether so many workers over a book of so many rows refute five vertices beside each other among four parts, which takes restarts.
fn refute<R: Threads + Sync>(rt: &R, alloc: Global, threads: u32, rows: u32) -> bool {
    let asked = settings(threads, 1000000, rows, false);
    end_of(rt, alloc, CLIQUE, SIDES, &asked, &OpenGate) == End::None
}

#[test]
fn workers_that_restart_refute_over_any_book(rt: HostRuntime) {
    assert!(rt; refute(&rt, rt.alloc(), 1, 65536));
    assert!(rt; refute(&rt, rt.alloc(), 4, 65536));
    assert!(rt; refute(&rt, rt.alloc(), 4, 3));
    assert!(rt; refute(&rt, rt.alloc(), 4, 0));
}

/// Whether so many workers without a fail to spend leave an account each.
fn is_spent<R: Threads + Sync>(rt: &R, alloc: Global, threads: u32) -> bool {
    let end = end_of_triangle(rt, alloc, &settings(threads, 0, 8, false));
    end == End::Unknown(threads as usize)
}

#[test]
fn a_spent_solve_has_an_account_for_each_worker(rt: HostRuntime) {
    assert!(rt; is_spent(&rt, rt.alloc(), 1));
    assert!(rt; is_spent(&rt, rt.alloc(), 3));
    assert!(rt; is_spent(&rt, rt.alloc(), 64));
}

/// A gate that holds each of two workers at its guesses until the other has come to one, for at most ten million turns.
#[derive(Drop)]
struct Meeting {
    first: AtomicU64,
    second: AtomicU64,
    late: AtomicU64,
}

/// Says that a worker has come, and turns until the other has.
fn meet(own: &AtomicU64, other: &AtomicU64, late: &AtomicU64) {
    own.store(1, Ordering::SeqCst);
    for _ in 0..10000000u32 {
        if other.load(Ordering::SeqCst) == 1 {
            return;
        }
        thread::yield_now();
    }
    late.store(1, Ordering::SeqCst);
}

impl Gate for Meeting {
    ghost may_close = { λ _. ⊥ };

    fn at(&self, worker: u32, point: Point) {
        if point != Point::Guess {
            return;
        }
        if worker == 1 {
            meet(&self.first, &self.second, &self.late);
        } else {
            meet(&self.second, &self.first, &self.late);
        }
    }

    fn is_closed(&self) -> bool {
        false
    }
}

impl Meeting {
    /// Nobody has come.
    fn new() -> Meeting {
        Meeting {
            first: AtomicU64::new(0),
            second: AtomicU64::new(0),
            late: AtomicU64::new(0),
        }
    }

    /// Whether both have come, and neither too late for the other.
    fn is_held(&self) -> bool {
        self.first.load(Ordering::SeqCst) == 1
            && self.second.load(Ordering::SeqCst) == 1
            && self.late.load(Ordering::SeqCst) == 0
    }
}

#[test]
fn two_workers_search_beside_each_other(rt: HostRuntime) {
    let meeting = Meeting::new();
    let asked = settings(2, 1000, 64, false);
    let end = end_of(&rt, rt.alloc(), TRIANGLE, FOUR_CYCLE, &asked, &meeting);
    assert!(rt; end == End::None && meeting.is_held());
}

/// A gate that counts what it is told of: runs that begin, guesses, and restarts.
#[derive(Drop)]
struct Counting {
    starts: AtomicU64,
    guesses: AtomicU64,
    restarts: AtomicU64,
}

/// One more.
fn count(told: &AtomicU64) {
    told.store(
        told.load(Ordering::SeqCst).wrapping_add(1),
        Ordering::SeqCst,
    );
}

impl Gate for Counting {
    ghost may_close = { λ _. ⊥ };

    fn at(&self, _worker: u32, point: Point) {
        match point {
            Point::Start => count(&self.starts),
            Point::Guess => count(&self.guesses),
            Point::Restart => count(&self.restarts),
        }
    }

    fn is_closed(&self) -> bool {
        false
    }
}

impl Counting {
    /// Nothing is told yet.
    fn new() -> Counting {
        Counting {
            starts: AtomicU64::new(0),
            guesses: AtomicU64::new(0),
            restarts: AtomicU64::new(0),
        }
    }

    /// Whether it was told of one beginning, of restarts, and of more guesses than these.
    fn was_told(&self) -> bool {
        let starts = self.starts.load(Ordering::SeqCst);
        let restarts = self.restarts.load(Ordering::SeqCst);
        starts == 1 && restarts > 0 && self.guesses.load(Ordering::SeqCst) > restarts
    }
}

#[test]
fn the_gate_is_told_of_the_beginning_of_guesses_and_of_restarts(rt: HostRuntime) {
    let told = Counting::new();
    let asked = settings(1, 1000000, 65536, false);
    let end = end_of(&rt, rt.alloc(), CLIQUE, SIDES, &asked, &told);
    assert!(rt; end == End::None && told.was_told());
}

/// A gate that closes after so many guesses of all workers.
#[derive(Drop)]
struct Closing {
    guesses: AtomicU64,
    most: u64,
}

impl Gate for Closing {
    ghost may_close = { λ _. Unit {0} };

    fn at(&self, _worker: u32, point: Point) {
        if point == Point::Guess {
            count(&self.guesses);
        }
    }

    fn is_closed(&self) -> bool {
        self.guesses.load(Ordering::SeqCst) >= self.most
    }
}

/// A gate that closes after so many guesses.
fn closing_after(most: u64) -> Closing {
    Closing {
        guesses: AtomicU64::new(0),
        most,
    }
}

/// How a search by so many workers for five vertices beside each other ends at a gate that closes after so many guesses.
fn end_after<R: Threads + Sync>(rt: &R, alloc: Global, threads: u32, most: u64) -> End {
    let asked = settings(threads, 1000000, 64, false);
    end_of(rt, alloc, CLIQUE, SIDES, &asked, &closing_after(most))
}

#[test]
fn a_closed_gate_ends_a_solve_that_is_not_decided(rt: HostRuntime) {
    assert!(rt; end_after(&rt, rt.alloc(), 1, 0) == End::Interrupted);
    assert!(rt; end_after(&rt, rt.alloc(), 1, 150) == End::Interrupted);
    assert!(rt; end_after(&rt, rt.alloc(), 3, 10) == End::Interrupted);
    assert!(rt; end_after(&rt, rt.alloc(), 1, 1000000) == End::None);
}

/// How such a search by one worker alone ends.
fn end_alone_after(alloc: Global, most: u64) -> End {
    let Some(q) = problem(alloc, CLIQUE, SIDES, false) else {
        return End::Other;
    };
    match solve_alone_with(alloc, &q, 0, 1000000, 64, &closing_after(most)) {
        Ok(solved) => end_by(&q, &solved),
        Err(_) => End::Interrupted,
    }
}

#[test]
fn a_closed_gate_ends_a_worker_alone(rt: HostRuntime) {
    assert!(rt; end_alone_after(rt.alloc(), 0) == End::Interrupted);
    assert!(rt; end_alone_after(rt.alloc(), 150) == End::Interrupted);
    assert!(rt; end_alone_after(rt.alloc(), 1000000) == End::None);
}

#[test]
fn a_log_is_kept_where_one_is_asked_for_also_of_a_root_that_is_refuted(rt: HostRuntime) {
    let asked = settings(2, 1000, 64, true);
    assert!(rt; end_of_triangle(&rt, rt.alloc(), &asked) == End::Proved);
    let end = end_of(&rt, rt.alloc(), CLIQUE, FOUR_CYCLE, &asked, &OpenGate);
    assert!(rt; end == End::Proved);
}
