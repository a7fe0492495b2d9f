//! Choices of a value by the words of a stream.

use biased_choice::pick;
use std::alloc::{AllocError, Global};
use std::test::Fail;
use test_support::{Example, all_hold};

/// A word of the stream, and the value it chooses.
struct Picked(u64, u16);

/// The value that a word chooses from three, by degrees.
fn value_picked(word: u64) -> u16 {
    let row = [0b1010_0100];
    let degrees = [0, 0, 3, 0, 0, 1, 0, 3];
    pick(&row, &degrees, word)
}

impl<R> Example<R> for Picked {
    fn holds(&self, _rt: &R, _alloc: Global) -> Result<bool, AllocError> {
        Ok(value_picked(self.0) == self.1)
    }
}

static PICKED: [Picked; 5] = [
    Picked(1099511627776, 5),
    Picked(2473901162496, 2),
    Picked(1099511627775, 2),
    Picked(1374389534720, 7),
    Picked(2473901162495, 7),
];

#[test]
fn words_choose_by_the_running_sum(rt: HostRuntime) -> Result<(), Fail> {
    all_hold(&rt, rt.alloc(), &PICKED)
}
