//! A count for each value: one more for a row's members, and what of a row a count allows.

ghost use Rattle.std.specs.Prelude.{◌≡◌, ℕ, ◌+◌, ◌*◌, ◌/◌, ◌%◌, ◌<◌, ◌≤◌, ◌==◌, ◌&&◌, not, nat_lt, true, length, slice_index};
ghost use Rattle.std.specs.Int.{from_bool};
ghost use Rattle.bit_rows.specs.BitRows.{has, is_set};

/// Counts each member of the row once more. Cost: one step for each word and for each member.
pub fn count_members(row: &[u64], counts: &mut [u16])
    requires short { length row.now ≤ 1024 }
    requires within { (v : ℕ) → has row.now v ≡ true → v < length counts.old }
    requires room { (v : ℕ) → slice_index counts.old v < 65535 }
    ensures { (v : ℕ)
        → slice_index counts.new v ≡ slice_index counts.old v + from_bool (has row.now v) }
{
    for place in 0..row.len() {
        count_in_word(row[place], place, counts);
    }
}

/// Counts each value of one word of a row once more. Cost: one step for each.
fn count_in_word(word: u64, place: usize, counts: &mut [u16])
    requires short { place < 1024 }
    requires within { (v : ℕ) → v / 64 ≡ place → is_set word (v % 64) ≡ true
        → v < length counts.old }
    requires room { (v : ℕ) → v / 64 ≡ place → slice_index counts.old v < 65535 }
    ensures { (v : ℕ)
        → slice_index counts.new v ≡ slice_index counts.old v
        + from_bool (v / 64 == place && is_set word (v % 64)) }
{
    let mut rest = word;
    while rest != 0 {
        let bit = rest.trailing_zeros();
        counts[64 * place + bit as usize] += 1;
        rest ^= 1 << bit;
    }
}

/// Keeps of the row the values that are counted at least `least` times. Cost: one step for each word and for each member; none where
/// `least` is 0.
pub fn keep_counted(row: &mut [u64], counts: &[u16], least: u16)
    requires short { length row.old ≤ 1024 }
    requires within { (v : ℕ) → has row.old v ≡ true → v < length counts.now }
    requires long { 64 * length row.old < length counts.now + 64 }
    ensures { (v : ℕ)
        → has row.new v ≡ (has row.old v && not (nat_lt (slice_index counts.now v) least)) }
{
    if least == 0 {
        return;
    }
    for place in 0..row.len() {
        row[place] &= word_counted(row[place], place, counts, least);
    }
}

/// From how many members on all counts of a word are looked at, which needs no step from member to member. (Sixteen members cost about as
/// much as sixty-four counts one after another.)
const MANY: u32 = 16;

/// Which values of one word of a row are counted at least so often. Cost: one step for each of them, or for each count where they are many.
fn word_counted(word: u64, place: usize, counts: &[u16], least: u16) -> u64
    requires short { place < 1024 }
    requires within { (v : ℕ) → v / 64 ≡ place → is_set word (v % 64) ≡ true
        → v < length counts.now }
    requires begins { 64 * place ≤ length counts.now }
    ensures { (v : ℕ) → v / 64 ≡ place → is_set word (v % 64) ≡ true
        → is_set result (v % 64) ≡ not (nat_lt (slice_index counts.now v) least) }
{
    if word.count_ones() < MANY {
        members_counted(word, place, counts, least)
    } else {
        all_counted(place, counts, least)
    }
}

/// Which values of one word of a row are counted at least so often, from member to member. Cost: one step for each of them.
fn members_counted(word: u64, place: usize, counts: &[u16], least: u16) -> u64
    requires short { place < 1024 }
    requires within { (v : ℕ) → v / 64 ≡ place → is_set word (v % 64) ≡ true
        → v < length counts.now }
    ensures { (v : ℕ) → v / 64 ≡ place → is_set word (v % 64) ≡ true
        → is_set result (v % 64) ≡ not (nat_lt (slice_index counts.now v) least) }
{
    let mut kept = 0;
    let mut rest = word;
    while rest != 0 {
        let bit = rest.trailing_zeros();
        kept |= u64::from(counts[64 * place + bit as usize] >= least) << bit;
        rest ^= 1 << bit;
    }
    kept
}

/// Which values of a word are counted at least so often, members or not. Cost: one step for each count.
fn all_counted(place: usize, counts: &[u16], least: u16) -> u64
    requires short { place < 1024 }
    requires begins { 64 * place ≤ length counts.now }
    ensures { (v : ℕ) → v / 64 ≡ place → v < length counts.now
        → is_set result (v % 64) ≡ not (nat_lt (slice_index counts.now v) least) }
{
    let from = 64 * place;
    let to = counts.len().min(from + 64);
    bits_counted(&counts[from..to], least)
}

/// Bit b tells whether count b is at least so much. Cost: one step for each count.
fn bits_counted(counts: &[u16], least: u16) -> u64
    requires { length counts.now ≤ 64 }
    ensures { (b : ℕ) → b < length counts.now
        → is_set result b ≡ not (nat_lt (slice_index counts.now b) least) }
{
    let mut word = 0;
    for b in 0..counts.len() {
        word |= u64::from(counts[b] >= least) << b;
    }
    word
}
