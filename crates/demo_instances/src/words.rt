//! The words of a seed.

ghost use Rattle.std.specs.Prelude.{◌≡◌, ◌<◌, IfOk};
ghost use Rattle.demo_instances.specs.Stream.{word as word_of};

use rand_core::SeedableRng;
use rand_core::utils::NextWord;
use rand_xoshiro::Xoshiro256PlusPlus;
use std::alloc::{AllocError, Global};
use std::marker::Model;

/// How many words both problems take.
const COUNT: usize = 12_085;

/// The words of a seed, which they are seen as.
#[derive(Drop)]
pub struct Words {
    seed: u64,
    words: Vec<u64>,
}

impl Model for Words {
    ghost use Rattle.std.specs.Prelude.{ℕ};
    ghost use Rattle.demo_instances.specs.Stream.{AreWords};

    ghost Value = { ℕ };

    ghost view = { λ w. w.seed };

    ghost invariant = { λ w. AreWords w.seed w.words.items };
}

impl Words {
    /// The words of the seed.
    pub fn new(alloc: Global, seed: u64) -> Result<Words, AllocError>
        ensures { IfOk result (λ w. w ≡ seed) }
    {
        let mut generator = Xoshiro256PlusPlus::seed_from_u64(seed);
        let mut words = Vec::with_capacity(alloc, COUNT)?;
        for _n in 0..COUNT {
            words.push(generator.next_word())?;
        }
        Ok(Words { seed, words })
    }

    /// Word `n`, counted from 0.
    pub(crate) fn word(&self, n: usize) -> u64
        requires { n < 12085 }
        ensures { result ≡ word_of self.now n }
    {
        self.words[n]
    }
}
