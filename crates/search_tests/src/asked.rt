//! Tables of rows that are asked of the problem of two texts, or of the graph of one.
//!
//! A problem and a graph have many vectors, and each function that owns one is dear to prove. So
//! one function makes it for all tables, and lends it to the row.

use graph_rows::{Graph, Problem};
use lad_reader::LadKind;
use std::alloc::Global;
use std::test::Fail;
use test_support::{graph_in, none_wrong};

/// A text of its kind.
pub(crate) type Text = (LadKind, &'static [u8]);

/// The texts of a pattern and a target, and whether embeddings are to be induced.
pub(crate) struct Texts(pub Text, pub Text, pub bool);

/// A row that is asked of a problem.
pub(crate) trait AskedOfProblem {
    /// The texts of the problem.
    fn texts(&self) -> Texts;

    /// Whether the problem is as the row tells.
    fn is_so(&self, alloc: Global, q: &Problem) -> bool;
}

/// Whether the problem of a row's texts is as it tells.
fn is_so_of_problem<E: AskedOfProblem>(alloc: Global, row: &E) -> bool {
    let Texts(pattern, target, induced) = row.texts();
    match problem_of(alloc, pattern, target, induced) {
        Some(q) => row.is_so(alloc, &q),
        None => false,
    }
}

/// The place, from 0, of the first row that its problem is not as.
fn first_wrong_problem<E: AskedOfProblem>(alloc: Global, rows: &[E]) -> Option<usize> {
    for (at, row) in rows.iter().enumerate() {
        if !is_so_of_problem(alloc, row) {
            return Some(at);
        }
    }
    None
}

/// That all problems are as their rows tell, or the first row that is wrong, as a test's failure.
pub(crate) fn all_problems_are_so<E: AskedOfProblem>(
    alloc: Global,
    rows: &[E],
) -> Result<(), Fail> {
    none_wrong(first_wrong_problem(alloc, rows))
}

/// A row that is asked of a graph.
pub(crate) trait AskedOfGraph {
    /// The text of the graph.
    fn text(&self) -> Text;

    /// Whether the graph is as the row tells.
    fn is_so(&self, alloc: Global, graph: &Graph) -> bool;
}

/// Whether the graph of a row's text is as it tells.
fn is_so_of_graph<E: AskedOfGraph>(alloc: Global, row: &E) -> bool {
    let (kind, text) = row.text();
    match graph_in(alloc, text, kind) {
        Some(graph) => row.is_so(alloc, &graph),
        None => false,
    }
}

/// The place, from 0, of the first row that its graph is not as.
fn first_wrong_graph<E: AskedOfGraph>(alloc: Global, rows: &[E]) -> Option<usize> {
    for (at, row) in rows.iter().enumerate() {
        if !is_so_of_graph(alloc, row) {
            return Some(at);
        }
    }
    None
}

/// That all graphs are as their rows tell, or the first row that is wrong, as a test's failure.
pub(crate) fn all_graphs_are_so<E: AskedOfGraph>(alloc: Global, rows: &[E]) -> Result<(), Fail> {
    none_wrong(first_wrong_graph(alloc, rows))
}

/// The problem of two texts.
fn problem_of(alloc: Global, pattern: Text, target: Text, induced: bool) -> Option<Problem> {
    let pattern = graph_in(alloc, pattern.1, pattern.0)?;
    let target = graph_in(alloc, target.1, target.0)?;
    Some(Problem::new(pattern, target, induced))
}
