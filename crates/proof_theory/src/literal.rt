//! A literal of a clause, as in propositional logic: a variable or its negation.

/// The variable `variable` (counted from 1), or its negation. As a 0/1 number the literal is `x` or `1 - x`.
#[derive(Clone, Copy, PartialEq, Eq, Debug)]
pub struct Literal {
    pub variable: u32,
    pub negated: bool,
}
