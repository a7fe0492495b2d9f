//! Long rows looked at four words at a time: whether any of the four has something that is looked for.

ghost use Rattle.std.specs.Prelude.{◌≡◌, ℕ, ◌+◌, ◌*◌, ◌<◌, ◌≤◌, true, length, bit_and, slice_index};
ghost use Rattle.bit_rows.specs.BitRows.{without};

/// How many words are looked at together.
pub const WORDS: usize = 4;

/// The words of the shortest row that is looked at so. In shorter ones nearly every four words have something.
const LONG: usize = 16;

/// How many times four words of a row of so many are looked at together. Cost: two steps.
#[inline(always)]
pub fn blocks_of(words: usize) -> usize
    ensures { WORDS * result ≤ words }
{
    if words < LONG { 0 } else { words / WORDS }
}

/// Whether the other row has all that is in the four words from `at` on. Cost: one step.
#[inline(always)]
pub fn are_within(row: &[u64], other: &[u64], at: usize) -> bool
    requires room { at + WORDS ≤ length row.now }
    requires long { length other.now ≡ length row.now }
    ensures { result ≡ true → (k : ℕ) → at ≤ k → k < at + WORDS
        → without (slice_index row.now k) (slice_index other.now k) ≡ 0 }
{
    let first = row[at] & !other[at];
    let second = row[at + 1] & !other[at + 1];
    let third = row[at + 2] & !other[at + 2];
    let fourth = row[at + 3] & !other[at + 3];
    first == 0 && second == 0 && third == 0 && fourth == 0
}

/// Whether two rows have no value in common in the four words from `at` on. Cost: one step.
#[inline(always)]
pub fn are_apart(row: &[u64], other: &[u64], at: usize) -> bool
    requires room { at + WORDS ≤ length row.now }
    requires long { length other.now ≡ length row.now }
    ensures { result ≡ true → (k : ℕ) → at ≤ k → k < at + WORDS
        → bit_and (slice_index row.now k) (slice_index other.now k) ≡ 0 }
{
    let first = row[at] & other[at];
    let second = row[at + 1] & other[at + 1];
    let third = row[at + 2] & other[at + 2];
    let fourth = row[at + 3] & other[at + 3];
    first == 0 && second == 0 && third == 0 && fourth == 0
}
