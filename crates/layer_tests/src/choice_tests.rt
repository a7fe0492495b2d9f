//! Which value a worker guesses first.

ghost use Rattle.std.specs.Prelude.{◌≡◌, []};
ghost use Rattle.recorder.specs.Telling.{IsOf};
ghost use Rattle.restart_search.specs.Searching.{AtRest};

use crate::problems::problem;
use crate::search_tests::{WORDS, worker_over};
use domain_bits::{Domains, WordTrail};
use graph_rows::Problem;
use nogood_book::RowBook;
use pair_supports::PairKinds;
use proof_logger::{ProofLogger, Unlogged};
use propagation::Filters;
use recorder::Silent;
use restart_search::root::{Rooted, root};
use restart_search::{Equipment, Outcome, Worker, WorkerSettings};
use std::alloc::{AllocError, Global};
use test_support::EDGE;
use worker_gate::OpenGate;

/// Twelve vertices and a last one beside each of them.
const STAR: &[u8] =
    b"13 1 12 1 12 1 12 1 12 1 12 1 12 1 12 1 12 1 12 1 12 1 12 1 12 12 0 1 2 3 4 5 6 7 8 9 10 11";

/// The image of the first vertex, where an embedding was found.
fn first_image(outcome: &Outcome) -> Option<u32> {
    match outcome {
        Outcome::Found(map) => map.first().copied(),
        _ => None,
    }
}

/// What worker 1 finds, whose seed is 1.
fn found_by_first<'a>(
    alloc: Global,
    q: &'a Problem,
    kinds: &'a PairKinds<'a>,
    domains: Domains<WordTrail>,
) -> Result<Option<u32>, AllocError>
    requires problem { kinds.now.problem ≡ q.now }
    requires is_of { IsOf q.now domains }
    requires rest { AtRest q.now [] domains }
{
    let (book, mut worker) = worker_over(alloc, q, kinds, domains, 100, 4)?;
    Ok(first_image(&worker.run(alloc, &book, None, &OpenGate)))
}

/// What worker 2 finds, of the same seed.
fn found_by_second<'a>(
    alloc: Global,
    q: &'a Problem,
    kinds: &'a PairKinds<'a>,
    domains: Domains<WordTrail>,
) -> Result<Option<u32>, AllocError>
    requires problem { kinds.now.problem ≡ q.now }
    requires is_of { IsOf q.now domains }
    requires rest { AtRest q.now [] domains }
{
    let (book, mut first) = RowBook::new(alloc, q, 4)?;
    let seat = book.split(alloc, &mut first, 2)?;
    let filters = Filters::new(alloc, q, kinds, WORDS)?;
    let settings = WorkerSettings {
        number: 2,
        seed: 1,
        budget: 100,
    };
    let equipment = Equipment::new(alloc, q, domains, Silent, filters, settings)?;
    let mut worker = Worker::new(equipment, seat, Unlogged::new(2));
    Ok(first_image(&worker.run(alloc, &book, None, &OpenGate)))
}

/// Whether the first worker finds the one and the second the other.
fn find<'a>(
    alloc: Global,
    q: &'a Problem,
    kinds: &'a PairKinds<'a>,
    first: u32,
    second: u32,
) -> Result<bool, AllocError>
    requires { kinds.now.problem ≡ q.now }
{
    match root::<WordTrail, Silent>(alloc, q, kinds, WORDS, None, Silent) {
        Rooted::Quiet(domains, _) => {
            let copy = domains.copy(alloc)?;
            let one = found_by_first(alloc, q, kinds, domains)?;
            let other = found_by_second(alloc, q, kinds, copy)?;
            Ok(one == Some(first) && other == Some(second))
        }
        Rooted::Failed(_, _) => Ok(false),
        Rooted::NoMemory => Err(AllocError),
    }
}

/// The same, of an edge in the star.
fn find_in_star(alloc: Global, first: u32, second: u32) -> Result<bool, AllocError> {
    let Some(q) = problem(alloc, EDGE, STAR, false) else {
        return Ok(false);
    };
    let kinds = PairKinds::new(alloc, &q)?;
    find(alloc, &q, &kinds, first, second)
}

#[test]
fn odd_workers_prefer_many_neighbours_and_even_ones_weigh_all_alike(rt: HostRuntime) {
    assert!(rt; find_in_star(rt.alloc(), 12, 9) == Ok(true));
}
