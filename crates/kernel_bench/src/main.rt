//! The program `kernel_bench` works the leaves of the search as long as it is asked to, so that their speed can be taken from outside:
//! it looks at no clock. Nothing stands above it.
//!
//! `kernel_bench SHAPE TRAIL WORK ROUNDS`: the shape, `10x64` to `500x8192`, is how many vertices and values there are, the trail
//! `pairs` or `words`, the work one of those in `asked`, a round one call of it. It prints how many words of rows the rounds went
//! through, and a checksum, which is the same for the same words.
#![tactic(auto)]

mod asked;
mod rows;
mod work;

use anyhow::{Result, bail};
use asked::{Asked, Kernel, TrailKind, Work, asked_by};
use domain_bits::{PairTrail, WordTrail};
use rows::Rows;
use std::alloc::{AllocError, Global};
use std::env;
use work::{narrow_domains, pass_kernel, prune_domains};

/// Does what is asked, and gives the checksum.
fn checksum(alloc: Global, asked: Asked) -> Result<u64, AllocError> {
    let shape = asked.shape;
    match (asked.work, asked.trail) {
        (Work::Domains, TrailKind::Pairs) => {
            narrow_domains::<PairTrail>(alloc, shape, &Rows::dense(alloc)?, asked.rounds)
        }
        (Work::Domains, TrailKind::Words) => {
            narrow_domains::<WordTrail>(alloc, shape, &Rows::dense(alloc)?, asked.rounds)
        }
        (Work::Prune, TrailKind::Pairs) => {
            prune_domains::<PairTrail>(alloc, shape, &Rows::even(alloc)?, asked.rounds)
        }
        (Work::Prune, TrailKind::Words) => {
            prune_domains::<WordTrail>(alloc, shape, &Rows::even(alloc)?, asked.rounds)
        }
        (Work::Kernel(kernel), _) => {
            pass_kernel(alloc, shape, &Rows::dense(alloc)?, kernel, asked.rounds)
        }
    }
}

fn main(rt: HostRuntime) -> Result<()> {
    let alloc = rt.alloc();
    let words: Vec<String> = env::args(&rt)?.collect(alloc)?;
    let Some(asked) = asked_by(&words) else {
        bail!(
            "usage: kernel_bench 10x64|10x128|10x192|10x256|100x1000|500x8192 pairs|words domains|prune|nothing|and|and_not|or|ones ROUNDS"
        )
    };
    let sum = checksum(alloc, asked)?;
    println!(rt; "words {}", asked.words())?;
    println!(rt; "checksum {sum}")?;
    Ok(())
}
