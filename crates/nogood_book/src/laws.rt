//! What follows of sound rows.

ghost use Rattle.nogood_book.specs.Rows.{RowLaws};

/// In sound rows each parent lies below its row and is a step, each row's path is its parent's followed by its own pair, has
/// distinct vertices and is in the problem's range, and a nogood's is dead; and no path changes as rows follow.
pub fn row_laws()
    ensures { RowLaws }
{}
