//! The number that is noted for a row.

ghost use Rattle.std.specs.Prelude.{◌≡◌};
ghost use Rattle.journal_theory.specs.Journals.{note_of as noted};
ghost use Rattle.merged_log.specs.Notes.{NotesRise, NoteLaws};

/// How notes rise.
pub fn note_laws()
    ensures { NoteLaws }
{}

/// The number that is noted for a row, by halves: about twenty looks.
pub(crate) fn note_of(notes: &[(u32, u64)], row: u32) -> Option<u64>
    requires { NotesRise notes.now }
    ensures { result ≡ noted notes.now row }
{
    let mut low = 0usize;
    let mut high = notes.len();
    while low < high {
        let middle = low + (high - low) / 2;
        let (at, number) = notes[middle];
        if at == row {
            return Some(number);
        }
        if at < row {
            low = middle + 1;
        } else {
            high = middle;
        }
    }
    None
}
