//! The ways in which a command stops without an answer.

use graph_files::GraphFault;
use graph_theory::lad_text::LadCause;
use job_list::ListCause;
use opb_text::OpbCause;

/// What a text is to the command.
#[derive(Clone, Copy, PartialEq, Eq, Debug)]
pub enum Role {
    /// The pattern graph.
    Pattern,
    /// The pairs of pattern vertices whose images are to be in order.
    Less,
    /// The target graph.
    Target,
    /// The mapping to be tested.
    Mapping,
    /// The encoding that a log is checked over.
    Encoding,
    /// The log to be checked.
    Log,
    /// The list of the jobs of a batch.
    JobList,
    /// The pattern graph of the job of this number, from 1.
    JobPattern(u32),
    /// The target graph of the job of this number, from 1.
    JobTarget(u32),
}

/// Why a text is refused.
#[derive(Clone, Copy, PartialEq, Eq, Debug)]
pub enum TextFault {
    /// The file is over its limit.
    TooLong,
    /// The first faulty word of a graph's text, from 1, and its cause.
    Word { word: u64, cause: LadCause },
    /// The first pair that names a vertex which the pattern has not, from 1.
    Pair { number: u32 },
    /// The first faulty line of a mapping's text, from 1.
    Line { line: u64 },
    /// The first faulty line of an encoding's text, from 1, and its cause.
    Opb { line: u64, cause: OpbCause },
    /// The first faulty line of a list of jobs, from 1, and its cause.
    Listed { line: u64, cause: ListCause },
}

/// Why a command stopped.
#[derive(Clone, Copy, PartialEq, Eq, Debug)]
pub enum Stop {
    /// A text is refused.
    Refused { role: Role, fault: TextFault },
    /// A call on the files failed.
    FilesFault,
    /// A call on the output failed.
    OutputFault,
    /// Memory was refused.
    NoMemory,
}
