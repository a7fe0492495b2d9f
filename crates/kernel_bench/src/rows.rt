//! Pseudo-random rows: pieces of one long row of random words, so that a row costs nothing to make while the rounds run.

ghost use Rattle.std.specs.Prelude.{◌≡◌, ℕ, ◌+◌, ◌*◌, ◌<◌, ◌≤◌, IfOk, length};

use rand_core::SeedableRng;
use rand_core::utils::NextWord;
use rand_xoshiro::Xoshiro256PlusPlus;
use std::alloc::{AllocError, Global};

/// How many pieces there are to begin a row at.
const PLACES: usize = 4096;
/// The longest row.
const LONGEST: usize = 1024;

/// Words of which each bit is set with the same odds.
#[derive(Drop)]
pub struct Rows {
    words: Vec<u64>,
    ghost enough: { 5120 ≤ length words.items },
}

impl Rows {
    /// Half of all bits are set.
    pub fn even(alloc: Global) -> Result<Rows, AllocError> {
        Rows::of(alloc, 1)
    }

    /// All bits but one of 32 are set.
    pub fn dense(alloc: Global) -> Result<Rows, AllocError> {
        Rows::of(alloc, 5)
    }

    /// Each word is so many random words in one.
    fn of(alloc: Global, joined: usize) -> Result<Rows, AllocError> {
        let mut random = Xoshiro256PlusPlus::seed_from_u64(1);
        let mut words = Vec::with_capacity(alloc, PLACES + LONGEST)?;
        for _place in 0..PLACES + LONGEST {
            let mut word = 0;
            for _draw in 0..joined {
                word |= random.next_word();
            }
            words.push(word)?;
        }
        Ok(Rows { words })
    }

    /// A row of so many words, another one for another number.
    pub fn row(&self, number: u32, words: usize) -> &[u64]
        requires { words ≤ 1024 }
        ensures { length result.now ≡ words }
    {
        let at = number as usize * 1237 % PLACES;
        &self.words[at..at + words]
    }

    /// A row of which only the first `few` words have values.
    pub fn front_row(
        &self,
        alloc: Global,
        number: u32,
        few: usize,
        words: usize,
    ) -> Result<Vec<u64>, AllocError>
        requires few { few ≤ words }
        requires short { words ≤ 1024 }
        ensures { IfOk result (λ row. length row.items ≡ words) }
    {
        let mut row = Vec::with_capacity(alloc, words)?;
        row.extend_from_slice(self.row(number, few))?;
        row.resize(words, 0)?;
        Ok(row)
    }
}
