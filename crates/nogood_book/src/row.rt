//! Rows, and what publishing one answers.

/// A guess on the way to nogoods, or a nogood.
#[derive(Clone, Copy, Debug, PartialEq, Eq)]
pub enum RowKind {
    Step,
    Nogood,
}

/// A row of a book: that `vertex` goes to `value` below the path of the row `parent`, which is a step; with no parent, below the
/// empty path. Owners are the workers' numbers, from 1.
#[derive(Clone, Copy, Debug, PartialEq, Eq)]
pub struct Row {
    pub kind: RowKind,
    pub owner: u8,
    pub parent: Option<u32>,
    pub vertex: u16,
    pub value: u16,
}

/// The place of the row, from 0: in the book, or behind its rows at the seat that keeps it. Or that there is no room for it.
#[derive(Clone, Copy, Debug, PartialEq, Eq)]
pub enum Published {
    At(u32),
    Full,
}
