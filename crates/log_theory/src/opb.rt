//! What keeps an OPB text from being read.

/// Why a line of an OPB text is faulty. Where several causes stand at one word, the first of this list is told.
#[derive(Clone, Copy, PartialEq, Eq, Debug)]
pub enum OpbCause {
    Header,
    Objective,
    Equality,
    Product,
    NoSuchVariable,
    Wide,
    Form,
    Count,
}
