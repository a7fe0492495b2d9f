//! The commands, with what their words tell.

use crate::asking::AskWords;
use crate::file_name::FileName;
use log_theory::Profile;

/// What the program is asked to do.
#[derive(Drop)]
pub enum Command<'a> {
    /// Decide whether the pattern can be embedded into the target.
    Solve(SolveWords<'a>),
    /// Test whether a mapping is an embedding.
    Verify(VerifyWords<'a>),
    /// Write the encoding of the problem.
    Encode(EncodeWords<'a>),
    /// Check a proof log over an encoding.
    Check(CheckWords<'a>),
    /// Trim a proof log over an encoding.
    Trim(TrimWords<'a>),
    /// Decide two problems that are made from a seed.
    Demo(DemoWords),
}

/// What the words of `solve` tell.
#[derive(Drop)]
pub struct SolveWords<'a> {
    /// The file of the pattern.
    pub pattern: FileName<'a>,
    /// The file of the target; it may be the pattern's too.
    pub target: FileName<'a>,
    /// What is asked of a map, and the format of both graphs.
    pub ask: AskWords,
    /// How many workers search beside each other, from 1 to 64.
    pub threads: u32,
    /// Where the choices of values begin, from 0 to 2^64 - 1.
    pub seed: u64,
    /// How many fails each worker may spend, from 1 to 2^63 - 1.
    pub budget: u64,
    /// How many rows of nogoods the workers share, up to 4,194,304.
    pub book: u32,
    /// Where the answer is to be shown by an encoding and a log.
    pub prove: Option<ProveWords<'a>>,
}

/// The files that show an answer of `solve`; no two of them, the pattern's and the target's are one, but the last two may be.
#[derive(Drop)]
pub struct ProveWords<'a> {
    /// The file of the encoding.
    pub encoding: FileName<'a>,
    /// The file of the log.
    pub log: FileName<'a>,
    /// Whether the log is one with hints or without.
    pub profile: Profile,
}

/// What the words of `verify` tell.
#[derive(Drop)]
pub struct VerifyWords<'a> {
    /// The file of the pattern.
    pub pattern: FileName<'a>,
    /// The file of the target; it may be the pattern's too.
    pub target: FileName<'a>,
    /// The file of the mapping.
    pub mapping: FileName<'a>,
    /// What is asked of a map, and the format of both graphs.
    pub ask: AskWords,
}

/// What the words of `encode` tell.
#[derive(Drop)]
pub struct EncodeWords<'a> {
    /// The file of the pattern.
    pub pattern: FileName<'a>,
    /// The file of the target; it may be the pattern's too.
    pub target: FileName<'a>,
    /// What is asked of a map, and the format of both graphs.
    pub ask: AskWords,
}

/// What the words of `check` tell.
#[derive(Drop)]
pub struct CheckWords<'a> {
    /// The file of the encoding.
    pub encoding: FileName<'a>,
    /// The file of the log; it may be the encoding's too.
    pub log: FileName<'a>,
}

/// What the words of `trim` tell.
#[derive(Drop)]
pub struct TrimWords<'a> {
    /// The file of the encoding.
    pub encoding: FileName<'a>,
    /// The file of the log; it may be the encoding's too.
    pub log: FileName<'a>,
    /// The file of the trimmed log; it is neither the encoding's nor the log's.
    pub out: FileName<'a>,
}

/// What the words of `demo` tell.
#[derive(Drop)]
pub struct DemoWords {
    /// The seed of both problems and of the choices of values, from 0 to 2^64 - 1.
    pub seed: u64,
    /// How many workers search beside each other for each, from 1 to 64.
    pub threads: u32,
    /// How many fails each worker may spend on each, from 1 to 2^63 - 1.
    pub budget: u64,
}
