//! The vertices at which the pattern is planted.

ghost use Rattle.std.specs.Prelude.{◌≡◌, IfOk, length};
ghost use Rattle.std.specs.List.{range_with_len};
ghost use Rattle.demo_instances.specs.SeedProblems.{exchanged, chosen as chosen_of};

use crate::words::Words;
use std::alloc::{AllocError, Global};

/// The vertices in order.
fn in_order(alloc: Global) -> Result<Vec<u32>, AllocError>
    ensures { IfOk result (λ list. list.items ≡ range_with_len 0 150) }
{
    let mut list = Vec::with_capacity(alloc, 150)?;
    for v in 0..150u32 {
        list.push(v)?;
    }
    Ok(list)
}

/// Ten exchanges, each of the vertex at a place with one that is not before it (Fisher and Yates).
fn exchange(list: &mut [u32], words: &Words)
    requires { list.old ≡ range_with_len 0 150 }
    ensures { list.new ≡ exchanged words.now 10 }
{
    for i in 0..10usize {
        let word = words.word(11_175 + i);
        let j = i + (word % (150 - i as u64)) as usize;
        list.swap(i, j);
    }
}

/// The first ten vertices after the exchanges.
fn first_ten(alloc: Global, list: &mut [u32], words: &Words) -> Result<Vec<u32>, AllocError>
    requires { list.old ≡ range_with_len 0 150 }
    ensures { IfOk result (λ ten. ten.items ≡ chosen_of words.now) }
{
    exchange(list, words);
    Vec::from_slice(alloc, &list[..10])
}

/// The ten chosen vertices.
pub(crate) fn chosen(alloc: Global, words: &Words) -> Result<Vec<u32>, AllocError>
    ensures { IfOk result (λ list. list.items ≡ chosen_of words.now) }
{
    let mut list = in_order(alloc)?;
    first_ten(alloc, &mut list, words)
}
