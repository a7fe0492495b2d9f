//! Lines that rest on the nogoods of a book, an owner's own by their lines and others by the names under which they are shared: a log of two
//! owners for three vertices in two.

ghost use Rattle.std.specs.Prelude.{◌≡◌, ◌≤◌, true, IfSome};
ghost use Rattle.graph_theory.specs.Graph.{size};
ghost use Rattle.graph_theory.specs.Embedding.{is_injective};
ghost use Rattle.nogood_book.specs.Rows.{Sound};
ghost use Rattle.line_tests.specs.Shared.{shared_rows};

use crate::checked::{Dead, Ended, explain_in};
use crate::logs::{Log, is_accepted};
use dead_paths::{Basis, Ground, LineMaker, RowNames};
use graph_rows::Problem;
use journals::Journal;
use line_cache::LineCache;
use log_theory::{Name, Ref};
use nogood_book::{Row, RowKind};
use pb_encoding::Encoding;
use recorder::{Cause, What};
use std::alloc::{AllocError, Global};
use std::test::Fail;
use test_support::{APART, graph_of_size};

/// Three vertices into two, so that each path is dead.
fn three_into_two(alloc: Global) -> Option<Problem>
    ensures injective { IfSome result (λ q. is_injective q.maps ≡ true) }
    ensures pattern { IfSome result (λ q. size q.pattern ≡ 3) }
    ensures target { IfSome result (λ q. size q.target ≡ 2) }
{
    let pattern = graph_of_size(alloc, b"3 0 0 0", 3)?;
    let target = graph_of_size(alloc, APART, 2)?;
    Some(Problem::new(pattern, target, false))
}

/// A row that takes a vertex to a value below the path of its parent.
fn row(kind: RowKind, owner: u8, parent: Option<u32>, vertex: u16, value: u16) -> Row
    ensures { result ≡ record {
      kind = kind;
      owner = owner;
      parent = parent;
      vertex = vertex;
      value = value;
    } }
{
    Row {
        kind,
        owner,
        parent,
        vertex,
        value,
    }
}

/// Of owner 2 that 0 is not at 0, and that it is not at 1 with 1 at 0; of owner 1 that 0 is not at 1.
fn rows() -> [Row; 4]
    ensures { result ≡ shared_rows }
{
    [
        row(RowKind::Nogood, 2, None, 0, 0),
        row(RowKind::Step, 2, None, 0, 1),
        row(RowKind::Nogood, 2, Some(1), 1, 0),
        row(RowKind::Nogood, 1, None, 0, 1),
    ]
}

/// The rows are sound.
fn rows_are_sound(_q: &Problem)
    requires injective { is_injective _q.now.maps ≡ true }
    requires pattern { size _q.now.pattern ≡ 3 }
    requires target { size _q.now.target ≡ 2 }
    ensures { Sound _q.now shared_rows }
{}

/// Names the row of owner 1 by its line, and all others by their places.
struct ByOwner1 {}

impl RowNames for ByOwner1 {
    ghost use Rattle.line_tests.specs.Shared.{shared_name};

    ghost names = { λ n k. shared_name k };

    fn name(&self, k: u32) -> Ref {
        if k == 3 {
            return Ref::Made(Name {
                owner: 1,
                number: 1,
            });
        }
        Ref::Shared(k)
    }
}

/// Gives the lines of dead paths.
fn add<M: LineMaker>(
    alloc: Global,
    lines: &Ground<'_>,
    paths: &[Dead],
    maker: &mut M,
    journal: &mut Journal,
) -> Result<(), AllocError>
    requires injective { is_injective lines.now.maps ≡ true }
    requires pattern { size lines.now.pattern ≡ 3 }
    requires target { size lines.now.target ≡ 2 }
{
    rows_are_sound(lines.problem());
    let rows = rows();
    let basis = Basis {
        alloc,
        lines,
        rows: &rows,
        names: &ByOwner1 {},
        numbers: &[],
    };
    for dead in paths {
        explain_in(&basis, dead, maker, journal)?;
    }
    Ok(())
}

/// The same, by a maker of its own.
fn add_made(
    alloc: Global,
    lines: &Encoding,
    paths: &[Dead],
    journal: &mut Journal,
) -> Result<(), AllocError>
    requires injective { is_injective lines.now.maps ≡ true }
    requires pattern { size lines.now.pattern ≡ 3 }
    requires target { size lines.now.target ≡ 2 }
{
    let ground = Ground::new(alloc, lines);
    let mut maker = LineCache::new(alloc, lines.problem(), lines)?;
    add(alloc, &ground, paths, &mut maker, journal)
}

/// Whether the lines of the dead paths by this owner are these.
fn are_lines(
    alloc: Global,
    lines: &Encoding,
    owner: u8,
    paths: &[Dead],
    text: &[u8],
) -> Result<bool, AllocError>
    requires owner { owner ≤ 64 }
    requires injective { is_injective lines.now.maps ≡ true }
    requires pattern { size lines.now.pattern ≡ 3 }
    requires target { size lines.now.target ≡ 2 }
{
    let mut journal = Journal::new(alloc, owner);
    add_made(alloc, lines, paths, &mut journal)?;
    Ok(journal.text() == text)
}

static OF_2: [Dead; 2] = [
    Dead(
        &[(0, 0)],
        &[
            What::One(0, Cause::Guess(0)),
            What::One(1, Cause::Vertex(0, 0)),
            What::One(2, Cause::Vertex(0, 0)),
            What::One(2, Cause::Vertex(1, 1)),
        ],
        Ended::Empty(2),
    ),
    Dead(
        &[(0, 1), (1, 0)],
        &[
            What::One(0, Cause::Guess(1)),
            What::One(1, Cause::Vertex(0, 1)),
            What::One(2, Cause::Vertex(0, 1)),
            What::One(1, Cause::Guess(0)),
            What::One(2, Cause::Vertex(1, 0)),
        ],
        Ended::Empty(2),
    ),
];

// All pairs of a nogood hold, the second one since its vertex has no other value left; and nogoods have taken both values of 0.
static OF_1: [Dead; 2] = [
    Dead(
        &[(0, 1)],
        &[
            What::One(0, Cause::Guess(1)),
            What::One(1, Cause::Vertex(0, 1)),
        ],
        Ended::Whole(2),
    ),
    Dead(
        &[],
        &[
            What::One(0, Cause::Nogood(0)),
            What::One(0, Cause::Nogood(3)),
        ],
        Ended::Empty(0),
    ),
];

const LINES_OF_2: &[u8] = b"u 2.1 ~x1 ; 7 7 3 8 5 ;\nu 2.2 ~x2 ~x3 ; 8 7 5 ;\n";

const LINES_OF_1: &[u8] = b"u 1.1 ~x2 ; 8 3 #2 ;\nu 1.2 ; #0 1.1 1 ;\n";

/// The lines of both owners, with those between that share.
static BOTH: Log = Log {
    head: b"embedding proof 1\nm 8\n",
    lines: b"u 2.1 ~x1 ; 7 7 3 8 5 ;
u 2.2 ~x2 ~x3 ; 8 7 5 ;
n 0 2.1
n 2 2.2
u 1.1 ~x2 ; 8 3 #2 ;
u 1.2 ; #0 1.1 1 ;
",
    end: b"e 1.2\n",
};

/// Whether the lines of both owners are these, and show that there is no embedding.
fn is_refuted(alloc: Global, q: &Problem) -> Result<bool, AllocError>
    requires injective { is_injective q.now.maps ≡ true }
    requires pattern { size q.now.pattern ≡ 3 }
    requires target { size q.now.target ≡ 2 }
{
    let lines = Encoding::new(alloc, q)?;
    Ok(
        are_lines(alloc, &lines, 2, &OF_2, LINES_OF_2)?
            && are_lines(alloc, &lines, 1, &OF_1, LINES_OF_1)?
            && is_accepted(alloc, &lines, &BOTH)?,
    )
}

#[test]
fn nogoods_are_named_by_lines_and_by_rows(rt: HostRuntime) -> Result<(), Fail> {
    let q = three_into_two(rt.alloc()).ok_or("no problem")?;
    assert!(rt; is_refuted(rt.alloc(), &q)?);
    Ok(())
}
