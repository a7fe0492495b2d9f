//! Names of files, of a bounded length.

ghost use Rattle.std.specs.Prelude.{◌≡◌, ◌≤◌, length};
ghost use Rattle.command_line.specs.Words.{file_name};

use std::marker::Model;

/// The longest name, in bytes.
const MOST_BYTES: usize = 4095;

/// A file's name as it stands among the words, of at most 4,095 bytes; it may be empty.
#[derive(Drop)]
pub struct FileName<'a> {
    text: &'a str,
}

impl<'a> Model for FileName<'a> {
    ghost use Rattle.std.specs.Prelude.{ℕ, List, ◌≤◌, length};

    ghost Value = { List ℕ };

    ghost view = { λ n. n.text.now };

    ghost invariant = { λ n. length n.text.now ≤ 4095 };
}

impl<'a> FileName<'a> {
    /// The text as a name, where it is short enough.
    pub fn new(text: &'a str) -> Option<FileName<'a>>
        ensures { result ≡ file_name text.entry.now }
    {
        if text.len() <= MOST_BYTES {
            Some(FileName { text })
        } else {
            None
        }
    }

    /// The name's text.
    pub fn as_str(&self) -> &'a str
        ensures text { result.now ≡ self.now }
        ensures short { length result.now ≤ 4095 }
    {
        self.text
    }
}
