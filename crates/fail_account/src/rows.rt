//! The bit rows of refuted values, one level's after another in one slice of words.

ghost use Rattle.std.specs.Prelude.{◌≡◌, ◌+◌, ◌*◌, ◌/◌, ◌<◌, ◌≤◌, length};
ghost use Rattle.graph_rows.specs.Held.{marked};
ghost use Rattle.fail_account.specs.Rows.{Clears, Refutes};

/// Whether the value is marked in the row of the level. Cost: one word.
pub fn is_marked(words: &[u64], width: usize, level: usize, value: usize) -> bool
    requires inside { level * width + value / 64 < length words.now }
    ensures { result ≡ marked words.now width level value }
{
    (words[level * width + value / 64] >> (value % 64)) & 1 == 1
}

/// Empties the words from one place up to another. Cost: one step for each; one word, the row of at most 64 values, is written without a
/// call of the system's library.
pub fn clear_words(words: &mut [u64], from: usize, to: usize)
    requires order { from ≤ to }
    requires inside { to ≤ length words.old }
    ensures { Clears words.old words.new from to }
{
    if to - from == 1 {
        words[from] = 0;
        return;
    }
    for place in from..to {
        words[place] = 0;
    }
}

/// Marks the value in the row of the level, and empties the row after it. Cost: the words of one row.
pub fn refute(words: &mut [u64], width: usize, level: usize, value: usize)
    requires in_row { value < 64 * width }
    requires inside { (level + 2) * width ≤ length words.old }
    ensures { Refutes width words.old words.new level value }
{
    clear_words(words, (level + 1) * width, (level + 2) * width);
    words[level * width + value / 64] |= 1 << (value % 64);
}
