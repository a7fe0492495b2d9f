//! A number for each value: what of a row has a given one.

ghost use Rattle.std.specs.Prelude.{◌≡◌, ℕ, ◌+◌, ◌*◌, ◌/◌, ◌%◌, ◌<◌, ◌≤◌, ◌==◌, ◌&&◌, true, length, slice_index};
ghost use Rattle.bit_rows.specs.BitRows.{has, is_set};

/// Keeps of the row the values whose number in the list is this one. Cost: one step for each number.
pub fn keep_equal(row: &mut [u64], numbers: &[u32], number: u32)
    requires short { length row.old ≤ 1024 }
    requires within { (v : ℕ) → has row.old v ≡ true → v < length numbers.now }
    requires long { 64 * length row.old < length numbers.now + 64 }
    ensures { (v : ℕ) → has row.new v ≡ (has row.old v && slice_index numbers.now v == number) }
{
    for place in 0..row.len() {
        row[place] &= word_equal(numbers, place, number);
    }
}

/// Which values of one word of a row have this number. Cost: one step for each number.
fn word_equal(numbers: &[u32], place: usize, number: u32) -> u64
    requires short { place < 1024 }
    requires begins { 64 * place ≤ length numbers.now }
    ensures { (v : ℕ) → v / 64 ≡ place → v < length numbers.now
        → is_set result (v % 64) ≡ (slice_index numbers.now v == number) }
{
    let from = 64 * place;
    let to = numbers.len().min(from + 64);
    bits_equal(&numbers[from..to], number)
}

/// Bit b tells whether number b is this one. Cost: one step for each number.
fn bits_equal(numbers: &[u32], number: u32) -> u64
    requires { length numbers.now ≤ 64 }
    ensures { (b : ℕ) → b < length numbers.now
        → is_set result b ≡ (slice_index numbers.now b == number) }
{
    let mut word = 0;
    for b in 0..numbers.len() {
        word |= u64::from(numbers[b] == number) << b;
    }
    word
}
