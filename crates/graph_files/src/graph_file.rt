//! A graph's file.

ghost use Rattle.std.specs.Prelude.{◌≡◌, ◌≤◌, ◌⊎◌, IsTrue, IfOk, IsErrOf, Some, length};
ghost use Rattle.graph_theory.specs.Graph.{Graph as TheGraph, size};
ghost use Rattle.graph_theory.specs.Plain.{IsPlain, IsUndirected};
ghost use Rattle.outer_io.specs.Faults.{Rose};
ghost use Rattle.outer_io.specs.NamedFiles.{SameFiles};
ghost use Rattle.graph_files.specs.GraphFile.{GraphSays, BytesSay};

use graph_rows::graph::Graph;
use lad_reader::{LadCause, LadFault, LadKind, read_lad};
use outer_io::fault::{LoadFault, Purpose};
use outer_io::files::{Files, NAME_LIMIT};
use outer_io::reading::load;
use std::alloc::{AllocError, Global};

/// How many bytes a graph's file has at most.
pub const FILE_LIMIT: u64 = 67_108_864;

/// Why a file gave no graph.
#[derive(Drop, Debug)]
pub enum GraphFault {
    /// A call on the files failed.
    Failed,
    /// The file has more than 67,108,864 bytes.
    TooLong,
    /// The first faulty word of the text, numbered from 1, and its cause.
    Word { word: u64, cause: LadCause },
    /// Memory was refused.
    NoMemory,
}

impl From<LoadFault> for GraphFault {
    ghost use Rattle.graph_files.specs.Conversions.{graph_fault_of_load};

    ghost from_gives = { λ fault made. made ≡ graph_fault_of_load fault };

    fn from(fault: LoadFault) -> GraphFault {
        match fault {
            LoadFault::Failed => GraphFault::Failed,
            LoadFault::TooLong => GraphFault::TooLong,
            LoadFault::NoMemory => GraphFault::NoMemory,
        }
    }
}

impl From<LadFault> for GraphFault {
    ghost use Rattle.graph_files.specs.Conversions.{graph_fault_of_lad};

    ghost from_gives = { λ fault made. made ≡ graph_fault_of_lad fault };

    fn from(fault: LadFault) -> GraphFault {
        match fault {
            LadFault::Word { word, cause } => GraphFault::Word { word, cause },
            LadFault::NoMemory => GraphFault::NoMemory,
        }
    }
}

impl From<AllocError> for GraphFault {
    ghost use Rattle.graph_files.specs.declared.graph_file.GraphFault.TheVariants.{NoMemory};

    ghost from_gives = { λ _ made. made ≡ NoMemory };

    fn from(_error: AllocError) -> GraphFault {
        GraphFault::NoMemory
    }
}

/// The graph that the bytes are the text of. Cost: linear in the bytes, and the bit rows of the graph.
fn graph_in(alloc: Global, bytes: &[u8], kind: LadKind, most: u32) -> Result<Graph, GraphFault>
    requires { most ≤ 8192 }
    ensures says { BytesSay bytes.now kind most result }
    ensures few { IfOk result (λ g. size g ≤ most) }
    ensures plain { IsUndirected kind → IfOk result IsPlain }
{
    let parts = read_lad(alloc, bytes, kind, most)?;
    Ok(Graph::new(alloc, &parts)?)
}

/// The graph of a file, which has at most `most` vertices. Nothing but the file of this name is read.
pub fn load_graph<F: Files>(
    alloc: Global,
    files: &mut F,
    name: &str,
    kind: LadKind,
    most: u32,
) -> Result<Graph, GraphFault>
    requires name { length name.now ≤ NAME_LIMIT }
    requires limit { most ≤ 8192 }

    ensures says { IsTrue (F.tells files.old)
        → GraphSays (F.content files.old name.now) kind most result }
    ensures few { IfOk result (λ g. size g ≤ most) }
    ensures plain { IsUndirected kind → IfOk result IsPlain }

    ensures rose { IsErrOf result GraphFault.Failed
        → Rose (F.faults files.old) (F.faults files.new) }
    ensures fault_at { IsErrOf result GraphFault.Failed
        → F.fault_at files.new ≡ Some (name.now, Purpose.Reading) }
    ensures quiet { IsErrOf result GraphFault.Failed ⊎ (F.faults files.new ≡ F.faults files.old) }
    ensures later { F.faults files.old ≤ F.faults files.new }

    ensures same { SameFiles (F.content files.old) (F.content files.new) }
    ensures tells { F.tells files.new ≡ F.tells files.old }
{
    let bytes = load(alloc, files, name, FILE_LIMIT)?;
    graph_in(alloc, &bytes, kind, most)
}
