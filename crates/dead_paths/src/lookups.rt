//! What a walk back looks up: the numbers of a set, whether a row is a nogood, and whether a vertex is one of a set's.

ghost use Rattle.std.specs.Prelude.{◌≡◌, true, false};
ghost use Rattle.std.specs.List.{slice_range};
ghost use Rattle.log_theory.specs.Lookups.{is_among};
ghost use Rattle.nogood_book.specs.Places.{IsNogoodRow};

use nogood_book::{Row, RowKind};

/// The numbers from one place to another, as far as there are any.
pub(crate) fn part(numbers: &[u16], start: usize, end: usize) -> &[u16]
    ensures { result.now ≡ slice_range numbers.now start end }
{
    let end = end.min(numbers.len());
    if end <= start {
        return &[];
    }
    &numbers[start..end]
}

/// Whether row `k` is a nogood.
pub(crate) fn is_nogood_row(rows: &[Row], k: u32) -> bool
    ensures yes { result ≡ true → IsNogoodRow rows.now k }
    ensures no { result ≡ false → IsNogoodRow rows.now k → ⊥ }
{
    if k as usize >= rows.len() {
        return false;
    }
    match rows[k as usize].kind {
        RowKind::Nogood => true,
        RowKind::Step => false,
    }
}

/// Whether the vertex is one of these.
pub(crate) fn holds(vertices: &[u16], vertex: usize) -> bool
    ensures { result ≡ is_among vertex vertices.now }
{
    for p in vertices {
        if usize::from(*p) == vertex {
            return true;
        }
    }
    false
}
