//! Small worked rows.

ghost use Rattle.std.specs.Prelude.{◌≡◌, length};

use bit_rows::{
    are_apart, are_within, clear, count_both, fill_below, has_bit, keep_counted, keep_equal,
    next_member, set_bit, unset_bit,
};
use std::alloc::{AllocError, Global};
use std::test::Fail;
use test_support::{Example, all_hold};

/// Whether bits that are set in a row are there, and are counted.
fn sets_and_counts(row: &mut [u64; 2]) -> bool {
    clear(row);
    set_bit(row, 65);
    set_bit(row, 3);
    row.as_slice() == [8, 2].as_slice()
        && has_bit(row, 65)
        && !has_bit(row, 64)
        && count_both(row, &[u64::MAX, u64::MAX], 128) == 2
        && count_both(row, &[u64::MAX, u64::MAX], 65) == 1
        && count_both(row, &[7, u64::MAX], 128) == 1
}

#[test]
fn bits_are_set_and_counted(rt: HostRuntime) -> Result<(), Fail> {
    assert!(rt; sets_and_counts(&mut [7, 7]));
    Ok(())
}

/// Whether a row is filled up to a bit, and a bit of it is taken away.
fn fills(row: &mut [u64; 2]) -> bool {
    fill_below(row, 67);
    let is_filled = row.as_slice() == [u64::MAX, 7].as_slice();
    fill_below(row, 64);
    unset_bit(row, 63);
    is_filled && row.as_slice() == [u64::MAX >> 1, 0].as_slice()
}

/// A row of four words, another one, and whether that has all that is in the first, and whether the two have nothing in common.
struct Beside([u64; 4], [u64; 4], bool, bool);

impl<R> Example<R> for Beside {
    fn holds(&self, _rt: &R, _alloc: Global) -> Result<bool, AllocError> {
        let Beside(row, other, is_within, is_apart) = *self;
        Ok(are_within(&row, &other, 0) == is_within && are_apart(&row, &other, 0) == is_apart)
    }
}

static BESIDE: [Beside; 6] = [
    Beside([1, 2, 4, 8], [3, 3, 5, 9], true, false),
    Beside([0, 0, 0, 0], [0, 0, 0, 0], true, true),
    Beside([1, 0, 0, 0], [2, 0, 0, 0], false, true),
    Beside([0, 1, 0, 0], [1, 2, 0, 0], false, true),
    Beside([0, 0, 1, 0], [0, 0, 3, 0], true, false),
    Beside([0, 0, 0, 3], [0, 0, 0, 1], false, false),
];

#[test]
fn four_words_at_once_are_held_beside_each_other(rt: HostRuntime) -> Result<(), Fail> {
    all_hold(&rt, rt.alloc(), &BESIDE)
}

#[test]
fn rows_are_filled(rt: HostRuntime) -> Result<(), Fail> {
    assert!(rt; fills(&mut [7, 7]));
    Ok(())
}

/// Whether a walk over a row comes to its members.
fn is_walked(row: &[u64]) -> bool
    requires { length row.now ≡ 2 }
{
    next_member(row, 0) == 2
        && next_member(row, 3) == 64
        && next_member(row, 65) == 67
        && next_member(row, 68) == 128
}

#[test]
fn rows_are_walked(rt: HostRuntime) -> Result<(), Fail> {
    assert!(rt; is_walked(&[0b100, 0b1001]));
    Ok(())
}

#[test]
fn what_is_counted_is_kept(rt: HostRuntime) -> Result<(), Fail> {
    let mut counts = [0u16; 64];
    counts[1] = 3;
    counts[2] = 1;
    counts[4] = 2;
    let mut row = [0b11011u64];
    keep_counted(&mut row, &counts, 0);
    assert!(rt; row[0] == 0b11011);
    keep_counted(&mut row, &counts, 2);
    assert!(rt; row[0] == 0b10010);
    Ok(())
}

#[test]
fn values_of_one_number_are_kept(rt: HostRuntime) -> Result<(), Fail> {
    let mut numbers = [7u32; 65];
    numbers[1] = 3;
    numbers[64] = 5;
    let mut row = [0u64; 2];
    fill_below(&mut row, 65);
    unset_bit(&mut row, 2);
    keep_equal(&mut row, &numbers, 7);
    assert!(rt; row.as_slice() == [!0b110u64, 0].as_slice());
    Ok(())
}
