//! The problem that the files ask.

ghost use Rattle.std.specs.Prelude.{◌≡◌, ◌≤◌, [], length, IsTrue, IfOk, IfErr};
ghost use Rattle.graph_theory.specs.Graph.{size};
ghost use Rattle.subgraph_cli.specs.Disk.{IsReadingOf};
ghost use Rattle.subgraph_cli.specs.Questions.{AskSays, RoleSays, PairsSay, HaveVertices, IsFaultOfTwo, stop_of_graph, problem_of as asked_of};
ghost use Rattle.subgraph_cli.specs.Stops.{IsOfFiles};
ghost use Rattle.subgraph_cli.specs.Leaving.{OnlyReads};

use crate::stop::{Role, Stop, TextFault};
use command_line::{AskWords, FileName};
use graph_files::{GraphFault, load_graph};
use graph_rows::graph::Graph;
use graph_rows::problem::Problem;
use outer_io::files::Files;
use std::alloc::Global;

/// How many vertices a pattern has at most.
pub const PATTERN_LIMIT: u32 = 1024;

/// How many vertices a target has at most.
pub const TARGET_LIMIT: u32 = 8192;

/// Why a command stops where a file gave no graph.
fn graph_stop(role: Role, fault: GraphFault) -> Stop
    ensures { result ≡ stop_of_graph role fault }
{
    match fault {
        GraphFault::Failed => Stop::FilesFault,
        GraphFault::TooLong => Stop::Refused {
            role,
            fault: TextFault::TooLong,
        },
        GraphFault::Word { word, cause } => Stop::Refused {
            role,
            fault: TextFault::Word { word, cause },
        },
        GraphFault::NoMemory => Stop::NoMemory,
    }
}

/// The graph in the file of a role.
fn graph_of<F: Files>(
    alloc: Global,
    files: &mut F,
    name: &FileName,
    ask: &AskWords,
    role: Role,
    most: u32,
) -> Result<Graph, Stop>
    requires { most ≤ 8192 }
    ensures says { IsTrue (F.tells files.old)
        → RoleSays result role (F.content files.old name.now) ask.now.format most }
    ensures few { IfOk result (λ g. size g ≤ most) }
    ensures loading { IfErr result IsOfFiles }
    ensures files { OnlyReads F.tells F.content F.faults F.fault_at (IsReadingOf name.now) result
        files.old files.new }
{
    match load_graph(alloc, files, name.as_str(), ask.format(), most) {
        Ok(graph) => Ok(graph),
        Err(fault) => Err(graph_stop(role, fault)),
    }
}

/// The pairs as pairs of vertices of the pattern, or the first that names a vertex which the pattern has not.
fn pairs_in(alloc: Global, pattern: &Graph, less: &[(u32, u32)]) -> Result<Vec<(u16, u16)>, Stop>
    requires { length less.now ≤ 64 }
    ensures { PairsSay result pattern.now less.now }
{
    let size = u32::from(pattern.size());
    let mut pairs = Vec::new(alloc);
    for i in 0..less.len() {
        let (a, b) = less[i];
        if a >= size || b >= size {
            return Err(Stop::Refused {
                role: Role::Less,
                fault: TextFault::Pair {
                    number: i as u32 + 1,
                },
            });
        }
        match pairs.push((a as u16, b as u16)) {
            Ok(()) => {}
            Err(_) => return Err(Stop::NoMemory),
        }
    }
    Ok(pairs)
}

/// The pairs that are asked for.
fn asked_pairs(alloc: Global, pattern: &Graph, ask: &AskWords) -> Result<Vec<(u16, u16)>, Stop>
    ensures { PairsSay result pattern.now ask.now.less }
{
    pairs_in(alloc, pattern, ask.less())
}

/// The problem of maps of this kind between two graphs, with no order of images.
fn unordered(pattern: Graph, target: Graph, ask: &AskWords) -> Problem
    requires pattern { size pattern ≤ 1024 }
    requires target { size target ≤ 8192 }
    ensures { result ≡ record {
      pattern = pattern;
      target = target;
      induced = ask.now.induced;
      maps = ask.now.maps;
      less = [];
    } }
{
    let maps = ask.maps();
    if ask.induced() {
        Problem::new(pattern, target, true)
    } else {
        Problem::mapped(pattern, target, maps)
    }
}

/// The problem that is asked of two graphs, with the pairs as pairs of vertices of the pattern.
fn problem_of(pattern: Graph, target: Graph, ask: &AskWords, pairs: Vec<(u16, u16)>) -> Problem
    requires pattern { size pattern ≤ 1024 }
    requires target { size target ≤ 8192 }
    requires pairs { pairs.items ≡ ask.now.less }
    requires vertices { HaveVertices pattern ask.now.less }
    ensures problem { result ≡ asked_of pattern target ask.now }
    ensures few { length ask.now.less ≤ 64 }
{
    let _named = ask.less();
    unordered(pattern, target, ask).with_less(pairs)
}

/// The problem of the two files: the pattern is loaded and read, then the pairs are looked at, and then the target is loaded and read.
pub fn load_problem<F: Files>(
    alloc: Global,
    files: &mut F,
    pattern: &FileName,
    target: &FileName,
    ask: &AskWords,
) -> Result<Problem, Stop>
    ensures says { IsTrue (F.tells files.old)
        → AskSays result (F.content files.old pattern.now)
        (F.content files.old target.now) ask.now }
    ensures loading { IfErr result IsOfFiles }
    ensures files { OnlyReads F.tells F.content F.faults F.fault_at (IsFaultOfTwo pattern.now
        target.now ask.now) result files.old files.new }
{
    let pattern = graph_of(alloc, files, pattern, ask, Role::Pattern, PATTERN_LIMIT)?;
    let pairs = asked_pairs(alloc, &pattern, ask)?;
    let target = graph_of(alloc, files, target, ask, Role::Target, TARGET_LIMIT)?;
    Ok(problem_of(pattern, target, ask, pairs))
}
