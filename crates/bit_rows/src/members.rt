//! The walk over a row's members.

ghost use Rattle.std.specs.Prelude.{◌≡◌, ℕ, ◌*◌, ◌<◌, ◌≤◌, true, false, length, slice_index};
ghost use Rattle.bit_rows.specs.BitRows.{has};

/// The first word that is not 0 from a place on, or the number of words.
fn next_word(row: &[u64], from: usize) -> usize
    requires { from ≤ length row.now }
    ensures low { from ≤ result }
    ensures high { result ≤ length row.now }
    ensures zero { (k : ℕ) → from ≤ k → k < result → slice_index row.now k ≡ 0 }
    ensures some { result < length row.now → 0 < slice_index row.now result }
{
    for place in from..row.len() {
        if row[place] != 0 {
            return place;
        }
    }
    row.len()
}

/// The least member from a value on, or the number of the row's bits where there is none. Cost: a step for each word on the way.
pub fn next_member(row: &[u64], from: usize) -> usize
    requires short { length row.now ≤ 1024 }
    requires from { from ≤ 64 * length row.now }
    ensures low { from ≤ result }
    ensures high { result ≤ 64 * length row.now }
    ensures none { (v : ℕ) → from ≤ v → v < result → has row.now v ≡ false }
    ensures member { result < 64 * length row.now → has row.now result ≡ true }
{
    let place = from / 64;
    if place == row.len() {
        return from;
    }
    let rest = row[place] >> (from % 64);
    if rest != 0 {
        return from + rest.trailing_zeros() as usize;
    }
    let next = next_word(row, place + 1);
    if next == row.len() {
        return 64 * next;
    }
    64 * next + row[next].trailing_zeros() as usize
}
