//! Whole searches on worked problems, by workers over books.

ghost use Rattle.std.specs.Prelude.{◌≡◌, [], IfOk};
ghost use Rattle.nogood_book.specs.Seats.{IsSeatOf};
ghost use Rattle.recorder.specs.Telling.{IsOf};
ghost use Rattle.restart_search.specs.Searching.{AtRest};

use crate::problems::{problem, problem_of};
use domain_bits::{Domains, WordTrail};
use graph_rows::Problem;
use lad_reader::LadKind;
use nogood_book::{BookSeat, RowBook, RowSeat};
use pair_supports::PairKinds;
use proof_logger::Unlogged;
use propagation::Filters;
use recorder::Silent;
use restart_search::root::{Rooted, root};
use restart_search::{Equipment, Outcome, Stage, Worker, WorkerSettings};
use std::alloc::{AllocError, Global};
use std::test::Fail;
use test_support::{APART, EDGE, Example, FOUR_CYCLE, PATH, TRIANGLE, all_hold};
use worker_gate::{AnswerCell, OpenGate};

const TRIANGLE_AND_TAIL: &[u8] = b"4 1 1 3 0 2 3 2 1 3 2 1 2";

const THREE_POINTS: &[u8] = b"3 0 0 0";

/// Five vertices, each beside each other.
const FIVE_CLIQUE: &[u8] = b"5 4 1 2 3 4 4 0 2 3 4 4 0 1 3 4 4 0 1 2 4 4 0 1 2 3";

/// Eight vertices, each beside each other but those of its pair, so that no five are beside each other.
const FOUR_PAIRS: &[u8] =
    b"8 6 2 3 4 5 6 7 6 2 3 4 5 6 7 6 0 1 4 5 6 7 6 0 1 4 5 6 7 6 0 1 2 3 6 7 6 0 1 2 3 6 7 6 0 1 2 3 4 5 6 0 1 2 3 4 5";

/// How a run ended.
#[derive(Clone, Copy, PartialEq, Eq)]
pub enum End {
    /// With an embedding that `Problem::is_embedding` finds to be one.
    Yes,
    /// With none.
    None,
    /// With a spent budget, after so many fails, and whether rows were seen.
    Spent(u64, bool),
    /// Where the cell had an answer.
    Stopped,
    /// Where the gate was closed.
    Interrupted,
    /// In none of these ways.
    Other,
}

/// The most words of rows of pairs in these tests.
pub const WORDS: usize = 65536;

/// A search: its pattern and target, whether it is an induced one, the budget, how many rows the book has room for, and how the run ends.
struct Searched(&'static [u8], &'static [u8], bool, u32, u16, End);

impl<R> Example<R> for Searched {
    fn holds(&self, _rt: &R, alloc: Global) -> Result<bool, AllocError> {
        Ok(ends(alloc, self.0, self.1, self.2, self.3, self.4, self.5))
    }
}

/// Searches that are decided, or not begun for want of a budget.
static SMALL: [Searched; 10] = [
    Searched(TRIANGLE, TRIANGLE_AND_TAIL, false, 100, 16, End::Yes),
    Searched(PATH, TRIANGLE, false, 100, 16, End::Yes),
    Searched(PATH, TRIANGLE, true, 100, 16, End::None),
    Searched(APART, TRIANGLE, true, 100, 16, End::None),
    Searched(APART, EDGE, true, 100, 16, End::None),
    Searched(APART, PATH, true, 100, 16, End::Yes),
    Searched(TRIANGLE, TRIANGLE, true, 0, 16, End::Spent(0, false)),
    Searched(FOUR_CYCLE, PATH, false, 0, 0, End::None),
    Searched(THREE_POINTS, APART, false, 0, 0, End::None),
    Searched(b"0", TRIANGLE, false, 0, 0, End::Yes),
];

/// A search of texts with directions.
struct Along(Searched);

impl<R> Example<R> for Along {
    fn holds(&self, _rt: &R, alloc: Global) -> Result<bool, AllocError> {
        let Searched(pattern, target, induced, budget, rows, end) = self.0;
        match problem_of(alloc, LadKind::DirectedLad, pattern, target, induced) {
            Some(q) => Ok(search_for(alloc, &q, budget, rows) == Ok(end)),
            None => Ok(false),
        }
    }
}

/// Edges from each of three vertices to the next.
const CHAIN: &[u8] = b"3 1 1 1 2 0";

/// Edges round three vertices.
const ROUND: &[u8] = b"3 1 1 1 2 1 0";

/// Edges from each of three vertices to all that come later.
const RANKED: &[u8] = b"3 2 1 2 1 2 0";

/// Edges from the first of three vertices to the others.
const FORK: &[u8] = b"3 2 1 2 0 0";

/// Edges from the other two to the first.
const MEET: &[u8] = b"3 0 1 0 1 0";

/// Edges from each of six vertices to the next two, round them.
const SIX: &[u8] = b"6 2 1 2 2 2 3 2 3 4 2 4 5 2 5 0 2 0 1";

/// Searches along edges.
static ALONG: [Along; 9] = [
    Along(Searched(ROUND, RANKED, false, 1, 16, End::None)),
    Along(Searched(FORK, MEET, false, 1, 16, End::None)),
    Along(Searched(FORK, FORK, true, 100, 16, End::Yes)),
    Along(Searched(CHAIN, RANKED, false, 100, 16, End::Yes)),
    Along(Searched(CHAIN, RANKED, true, 100, 16, End::None)),
    Along(Searched(CHAIN, ROUND, false, 100, 16, End::Yes)),
    Along(Searched(CHAIN, ROUND, true, 100, 16, End::None)),
    Along(Searched(ROUND, SIX, false, 100, 16, End::Yes)),
    Along(Searched(CHAIN, SIX, true, 100, 16, End::Yes)),
];

/// Searches for five vertices that are beside each other.
static LONG: [Searched; 4] = [
    Searched(
        FIVE_CLIQUE,
        FOUR_PAIRS,
        false,
        200,
        4096,
        End::Spent(200, true),
    ),
    Searched(
        FIVE_CLIQUE,
        FOUR_PAIRS,
        false,
        200,
        0,
        End::Spent(200, true),
    ),
    Searched(FIVE_CLIQUE, FOUR_PAIRS, false, 100000, 4096, End::None),
    Searched(FIVE_CLIQUE, FOUR_PAIRS, false, 100000, 0, End::None),
];

/// A worker of number 1 over a new book of so many rows, whose seed is 1.
pub fn worker_over<'a>(
    alloc: Global,
    q: &'a Problem,
    kinds: &'a PairKinds<'a>,
    domains: Domains<WordTrail>,
    budget: u32,
    rows: u16,
) -> Result<(RowBook, Worker<'a, BookSeat, WordTrail, Unlogged>), AllocError>
    requires problem { kinds.now.problem ≡ q.now }
    requires is_of { IsOf q.now domains }
    requires rest { AtRest q.now [] domains }
    ensures problem { IfOk result (λ w. w.1.problem ≡ q.entry.now) }
    ensures seat { IfOk result (λ w. IsSeatOf w.0 w.1.seat) }
    ensures stage { IfOk result (λ w. w.1.stage ≡ Stage.Fresh) }
{
    let (book, mut first) = RowBook::new(alloc, q, u32::from(rows))?;
    let seat = book.split(alloc, &mut first, 1)?;
    let filters = Filters::new(alloc, q, kinds, WORDS)?;
    let budget = u64::from(budget);
    let settings = WorkerSettings {
        number: 1,
        seed: 1,
        budget,
    };
    let equipment = Equipment::new(alloc, q, domains, Silent, filters, settings)?;
    Ok((book, Worker::new(equipment, seat, Unlogged::new(1))))
}

/// How a run ended that found this.
fn found(q: &Problem, map: &[u32]) -> End {
    if q.is_embedding(map) {
        End::Yes
    } else {
        End::Other
    }
}

/// How a run ended if it spent the worker's budget.
fn spent(worker: Worker<BookSeat, WordTrail, Unlogged>) -> End {
    let (account, seat, _log) = worker.into_parts();
    End::Spent(account.fails(), !seat.rows().is_empty())
}

/// How a run ended.
fn end_of(q: &Problem, outcome: Outcome, worker: Worker<BookSeat, WordTrail, Unlogged>) -> End {
    let spent = spent(worker);
    match outcome {
        Outcome::Found(map) => found(q, &map),
        Outcome::Refuted => End::None,
        Outcome::Spent => spent,
        Outcome::Stopped(_) => End::Stopped,
        Outcome::Interrupted => End::Interrupted,
        Outcome::NoMemory => End::Other,
    }
}

/// How a worker ends by itself.
fn one_run<'a>(
    alloc: Global,
    q: &'a Problem,
    kinds: &'a PairKinds<'a>,
    domains: Domains<WordTrail>,
    budget: u32,
    rows: u16,
) -> Result<End, AllocError>
    requires problem { kinds.now.problem ≡ q.now }
    requires is_of { IsOf q.now domains }
    requires rest { AtRest q.now [] domains }
{
    let (book, mut worker) = worker_over(alloc, q, kinds, domains, budget, rows)?;
    let outcome = worker.run(alloc, &book, None, &OpenGate);
    Ok(end_of(q, outcome, worker))
}

/// The same, from the root on.
fn search<'a>(
    alloc: Global,
    q: &'a Problem,
    kinds: &'a PairKinds<'a>,
    budget: u32,
    rows: u16,
) -> Result<End, AllocError>
    requires { kinds.now.problem ≡ q.now }
{
    match root::<WordTrail, Silent>(alloc, q, kinds, WORDS, None, Silent) {
        Rooted::Quiet(domains, _) => one_run(alloc, q, kinds, domains, budget, rows),
        Rooted::Failed(_, _) => Ok(End::None),
        Rooted::NoMemory => Err(AllocError),
    }
}

/// The same, with the kinds of pairs.
pub fn search_for(alloc: Global, q: &Problem, budget: u32, rows: u16) -> Result<End, AllocError> {
    let kinds = PairKinds::new(alloc, q)?;
    search(alloc, q, &kinds, budget, rows)
}

/// Whether a worker ends so by itself on the problem of these texts, over a book of so many rows.
fn ends(
    alloc: Global,
    pattern: &[u8],
    target: &[u8],
    induced: bool,
    budget: u32,
    rows: u16,
    end: End,
) -> bool {
    match problem(alloc, pattern, target, induced) {
        Some(q) => search_for(alloc, &q, budget, rows) == Ok(end),
        None => false,
    }
}

#[test]
fn small_problems_are_decided(rt: HostRuntime) -> Result<(), Fail> {
    all_hold(&rt, rt.alloc(), &SMALL)
}

#[test]
fn small_problems_are_decided_along_edges(rt: HostRuntime) -> Result<(), Fail> {
    all_hold(&rt, rt.alloc(), &ALONG)
}

#[test]
fn a_budget_is_spent_where_a_guess_is_due(rt: HostRuntime) {
    for budget in 0..4 {
        let end = End::Spent(u64::from(budget), false);
        assert!(rt; ends(rt.alloc(), TRIANGLE, FOUR_CYCLE, false, budget, 16, end));
    }
}

#[test]
fn a_budget_that_suffices_is_not_spent(rt: HostRuntime) {
    assert!(rt; ends(rt.alloc(), TRIANGLE, FOUR_CYCLE, false, 4, 16, End::None));
}

#[test]
fn a_search_leaves_rows_and_goes_on_over_restarts(rt: HostRuntime) -> Result<(), Fail> {
    all_hold(&rt, rt.alloc(), &LONG)
}

/// How often a worker fails that refutes the problem by itself over a book of so many rows.
fn fails_over<'a>(
    alloc: Global,
    q: &'a Problem,
    kinds: &'a PairKinds<'a>,
    domains: &Domains<WordTrail>,
    rows: u16,
) -> Result<Option<u64>, AllocError>
    requires problem { kinds.now.problem ≡ q.now }
    requires is_of { IsOf q.now domains.now }
    requires rest { AtRest q.now [] domains.now }
{
    let copy = domains.copy(alloc)?;
    let (book, mut worker) = worker_over(alloc, q, kinds, copy, 100000, rows)?;
    let outcome = worker.run(alloc, &book, None, &OpenGate);
    let refutes = matches!(outcome, Outcome::Refuted);
    let (account, _seat, _log) = worker.into_parts();
    Ok(if refutes { Some(account.fails()) } else { None })
}

/// Whether it fails as often over books of no, one and five rows as over one that has room for all its rows.
fn fails_alike<'a>(
    alloc: Global,
    q: &'a Problem,
    kinds: &'a PairKinds<'a>,
    domains: &Domains<WordTrail>,
) -> Result<bool, AllocError>
    requires problem { kinds.now.problem ≡ q.now }
    requires is_of { IsOf q.now domains.now }
    requires rest { AtRest q.now [] domains.now }
{
    let whole = fails_over(alloc, q, kinds, domains, 65535)?;
    Ok(
        whole.is_some()
            && fails_over(alloc, q, kinds, domains, 0)? == whole
            && fails_over(alloc, q, kinds, domains, 1)? == whole
            && fails_over(alloc, q, kinds, domains, 5)? == whole,
    )
}

/// The same, from the root on.
fn fails_alike_from_root<'a>(
    alloc: Global,
    q: &'a Problem,
    kinds: &'a PairKinds<'a>,
) -> Result<bool, AllocError>
    requires { kinds.now.problem ≡ q.now }
{
    match root::<WordTrail, Silent>(alloc, q, kinds, WORDS, None, Silent) {
        Rooted::Quiet(domains, _) => fails_alike(alloc, q, kinds, &domains),
        Rooted::Failed(_, _) => Ok(false),
        Rooted::NoMemory => Err(AllocError),
    }
}

/// The same, on five vertices that are beside each other, among four pairs.
fn five_fail_alike(alloc: Global) -> Result<bool, AllocError> {
    let Some(q) = problem(alloc, FIVE_CLIQUE, FOUR_PAIRS, false) else {
        return Ok(false);
    };
    let kinds = PairKinds::new(alloc, &q)?;
    fails_alike_from_root(alloc, &q, &kinds)
}

#[test]
fn a_search_fails_as_often_over_any_book(rt: HostRuntime) -> Result<(), Fail> {
    assert!(rt; five_fail_alike(rt.alloc())?);
    Ok(())
}

/// How a worker ends that looks at the cell, and how it ends when it is run again without one, if it was stopped.
fn two_runs<'a>(
    alloc: Global,
    q: &'a Problem,
    kinds: &'a PairKinds<'a>,
    domains: Domains<WordTrail>,
    cell: &AnswerCell<'a>,
) -> Result<(End, End), AllocError>
    requires problem { kinds.now.problem ≡ q.now }
    requires is_of { IsOf q.now domains }
    requires rest { AtRest q.now [] domains }
{
    let (book, mut worker) = worker_over(alloc, q, kinds, domains, 100, 16)?;
    match worker.run(alloc, &book, Some(cell), &OpenGate) {
        Outcome::Stopped(_) => {
            let outcome = worker.run(alloc, &book, None, &OpenGate);
            Ok((End::Stopped, end_of(q, outcome, worker)))
        }
        outcome => Ok((end_of(q, outcome, worker), End::Other)),
    }
}

/// Whether a worker refutes the problem whose cell has no answer, and then another stops at that answer and refutes it without a cell.
fn stops_and_goes_on<'a>(
    alloc: Global,
    q: &'a Problem,
    kinds: &'a PairKinds<'a>,
    domains: Domains<WordTrail>,
) -> Result<bool, AllocError>
    requires problem { kinds.now.problem ≡ q.now }
    requires is_of { IsOf q.now domains }
    requires rest { AtRest q.now [] domains }
{
    let cell = AnswerCell::new(alloc);
    let copy = domains.copy(alloc)?;
    let first = two_runs(alloc, q, kinds, domains, &cell)?;
    let second = two_runs(alloc, q, kinds, copy, &cell)?;
    Ok(first == (End::None, End::Other) && second == (End::Stopped, End::None))
}

/// The same, from the root on.
fn stops_from_root<'a>(
    alloc: Global,
    q: &'a Problem,
    kinds: &'a PairKinds<'a>,
) -> Result<bool, AllocError>
    requires { kinds.now.problem ≡ q.now }
{
    match root::<WordTrail, Silent>(alloc, q, kinds, WORDS, None, Silent) {
        Rooted::Quiet(domains, _) => stops_and_goes_on(alloc, q, kinds, domains),
        Rooted::Failed(_, _) => Ok(false),
        Rooted::NoMemory => Err(AllocError),
    }
}

/// The same, on a triangle and a cycle of four.
fn stops_on_a_cycle(alloc: Global) -> Result<bool, AllocError> {
    let Some(q) = problem(alloc, TRIANGLE, FOUR_CYCLE, false) else {
        return Ok(false);
    };
    let kinds = PairKinds::new(alloc, &q)?;
    stops_from_root(alloc, &q, &kinds)
}

#[test]
fn a_worker_stops_at_an_answer_and_may_go_on(rt: HostRuntime) {
    assert!(rt; stops_on_a_cycle(rt.alloc()) == Ok(true));
}
