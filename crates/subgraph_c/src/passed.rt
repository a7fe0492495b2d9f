//! What C passes beside texts and images, and what it is told beside a status.

use call_flag::handle::FlagHandle;

/// A pair of pattern vertices, of which the first is to have the lesser image.
#[repr(C)]
#[derive(Clone, Copy)]
pub struct Pair {
    pub first: u32,
    pub second: u32,
}

/// How a question is asked. Each number is judged by the call.
#[repr(C)]
#[derive(Clone, Copy)]
pub struct Options {
    /// Where the choices of values begin.
    pub seed: u64,
    /// How many fails the search may spend, below 2^63.
    pub budget: u64,
    /// For how many rows of nogoods memory is taken ahead, up to 4,194,304. The search keeps further ones behind them.
    pub rows: u32,
    /// The format of both texts: 0 `lad`, 1 `vertexlabelledlad`, 2 `directedlad`, 3 `labelledlad`.
    pub format: u32,
    /// Which images have to differ: 0 those of any two vertices, 1 those of vertices near one vertex, 2 none.
    pub maps: u32,
    /// 1 where the copy is to be an induced one, else 0.
    pub induced: u32,
}

/// How a question is asked, and the flag that ends it.
#[repr(C)]
#[derive(Drop)]
pub struct Limits {
    /// How the question is asked.
    pub options: Options,
    /// An owner of the flag, or none.
    pub flag: FlagHandle,
}

/// What a call tells beside its status: zeros where it has nothing to tell.
#[repr(C)]
#[derive(Clone, Copy)]
pub struct Report {
    /// The first faulty word, pair or line, from 1.
    pub word: u64,
    /// How many images were written, or how many bytes a text has.
    pub count: u64,
    /// What the fault is in: 1 the pattern's text, 2 the target's, 3 the pairs; of a check 1 the encoding, 2 the log.
    pub role: u32,
    /// Which number is out of range, why a text is faulty, or what an accepted log claims.
    pub cause: u32,
}
