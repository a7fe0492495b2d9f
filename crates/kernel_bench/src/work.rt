//! The work of the rounds. Each gives a checksum of what it saw.

ghost use Rattle.std.specs.Prelude.{◌≡◌, ℕ, ◌+◌, ◌<◌, ◌≤◌, length};
ghost use Rattle.bit_rows.specs.BitRows.{words_for};

use crate::asked::{Kernel, Shape};
use crate::rows::Rows;
use all_different::{Pruned, Scratch, prune};
use domain_bits::{Domains, Trail, and_into, and_not_into, count_ones, or_into};
use std::alloc::{AllocError, Global};

/// A checksum with one number more.
fn mixed(sum: u64, number: u64) -> u64 {
    sum.rotate_left(5) ^ number
}

/// The vertex after this one, and the first after the last.
fn next_vertex(p: u16, vertices: u16) -> u16
    requires { p < vertices }
    ensures within { result < vertices }
    ensures after { p + 1 < vertices → result ≡ p + 1 }
    ensures last { p + 1 ≡ vertices → result ≡ 0 }
{
    if p + 1 < vertices { p + 1 } else { 0 }
}

/// Intersects the domains in turn with rows, and gives everything back each 64th time.
pub fn narrow_domains<T: Trail>(
    alloc: Global,
    shape: Shape,
    rows: &Rows,
    rounds: u32,
) -> Result<u64, AllocError> {
    let mut domains: Domains<T> = Domains::with_trail(alloc, shape.vertices, shape.values)?;
    let words = shape.row_words();
    let mark = domains.mark();
    let mut sum = 0;
    let mut p = 0;
    for round in 0..rounds {
        domains.intersect(p, rows.row(round, words));
        sum = mixed(sum, u64::from(domains.size(p)));
        if round % 64 == 63 {
            domains.undo_to(mark);
        }
        p = next_vertex(p, shape.vertices);
    }
    Ok(sum)
}

/// Takes from each domain half of as many values as fill the first words, and all behind these.
fn keep_fronts<T: Trail>(
    alloc: Global,
    d: &mut Domains<T>,
    rows: &Rows,
    few: usize,
    words: usize,
) -> Result<(), AllocError>
    requires few { few ≤ words }
    requires short { words ≤ 1024 }
    requires long { words ≡ words_for d.old.values }
    ensures vertices { d.new.vertices ≡ d.old.vertices }
    ensures values { d.new.values ≡ d.old.values }
{
    for p in 0..d.vertices() {
        let row = rows.front_row(alloc, u32::from(p), few, words)?;
        d.intersect(p, &row);
    }
    Ok(())
}

/// Looks at the domains all together, each of which has half of about as many values as there are vertices.
pub fn prune_domains<T: Trail>(
    alloc: Global,
    shape: Shape,
    rows: &Rows,
    rounds: u32,
) -> Result<u64, AllocError> {
    let mut domains: Domains<T> = Domains::with_trail(alloc, shape.vertices, shape.values)?;
    let words = shape.row_words();
    let few = (usize::from(shape.vertices) / 64 + 1).min(words);
    keep_fronts(alloc, &mut domains, rows, few, words)?;
    let mut scratch = Scratch::new(alloc, shape.vertices, shape.values)?;
    let mut sum = 0;
    for _round in 0..rounds {
        let number = match prune(&mut domains, &mut scratch) {
            Pruned::Quiet => 1,
            Pruned::Hall => 2,
            Pruned::Fail => 3,
        };
        sum = mixed(sum, number);
    }
    Ok(sum)
}

/// An operation on rows of one length.
trait Operation {
    /// Puts a row through it, and gives what it counted.
    fn pass(into: &mut [u64], from: &[u64]) -> u64
        requires same_length { length into.old ≡ length from.now }
        ensures long { length into.new ≡ length into.old };
}

/// No operation.
struct Nothing;

/// Keeps what is in both.
struct And;

/// Keeps what is not in the other.
struct AndNot;

/// Adds what is in the other.
struct Or;

/// Counts what is in the other.
struct Ones;

impl Operation for Nothing {
    fn pass(_into: &mut [u64], from: &[u64]) -> u64 {
        from.len() as u64
    }
}

impl Operation for And {
    fn pass(into: &mut [u64], from: &[u64]) -> u64 {
        and_into(into, from);
        0
    }
}

impl Operation for AndNot {
    fn pass(into: &mut [u64], from: &[u64]) -> u64 {
        and_not_into(into, from);
        0
    }
}

impl Operation for Or {
    fn pass(into: &mut [u64], from: &[u64]) -> u64 {
        or_into(into, from);
        0
    }
}

impl Operation for Ones {
    fn pass(_into: &mut [u64], from: &[u64]) -> u64 {
        count_ones(from)
    }
}

/// Where the next row begins, and at the start again after the last.
fn next_row(at: usize, words: usize, all: usize) -> usize
    requires { at + words ≤ all }
    ensures within { result + words ≤ all }
    ensures after { (at + words) + words ≤ all → result ≡ at + words }
    ensures last { all < (at + words) + words → result ≡ 0 }
{
    let next = at + words;
    if words <= all - next { next } else { 0 }
}

/// Puts as many rows as all domains have through one operation, in turn.
fn pass_rows<O: Operation>(
    alloc: Global,
    shape: Shape,
    rows: &Rows,
    rounds: u32,
) -> Result<u64, AllocError> {
    let words = shape.row_words();
    let mut table = vec![in alloc; u64::MAX; usize::from(shape.vertices) * words + words]?;
    let mut at = 0;
    let mut sum = 0;
    for round in 0..rounds {
        let counted = O::pass(&mut table[at..at + words], rows.row(round, words));
        sum = mixed(sum, counted);
        at = next_row(at, words, table.len());
    }
    Ok(mixed(sum, count_ones(&table)))
}

/// The same by the operation that is asked for: each has a loop of its own, so that no choice is made in it.
pub fn pass_kernel(
    alloc: Global,
    shape: Shape,
    rows: &Rows,
    kernel: Kernel,
    rounds: u32,
) -> Result<u64, AllocError> {
    match kernel {
        Kernel::Nothing => pass_rows::<Nothing>(alloc, shape, rows, rounds),
        Kernel::And => pass_rows::<And>(alloc, shape, rows, rounds),
        Kernel::AndNot => pass_rows::<AndNot>(alloc, shape, rows, rounds),
        Kernel::Or => pass_rows::<Or>(alloc, shape, rows, rounds),
        Kernel::Ones => pass_rows::<Ones>(alloc, shape, rows, rounds),
    }
}
