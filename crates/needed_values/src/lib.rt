//! Which values of which vertices are needed, as bit rows, and which of them a vertex at its place takes.
//!
//! A walk back from a dead path keeps for each vertex the values whose absence its end rests on. Here such sets are kept one row after
//! another in one list of words, beside a mark for each vertex: the row of a vertex without a mark is not looked at, so that nothing needs to
//! be cleared but the marks. What a decided vertex leaves to another is told by edges a word at a time, and by shared neighbours where these are
//! quickly counted; where they are not, the answer says so. Whether edges leave only what is consistent is told by rows of values that share enough, made once for a problem,
//! or for each value where these would be too large. (Values as
//! words: J. R. Ullmann 2010; shared neighbours: C. McCreesh, P. Prosser 2015.)
#![tactic(auto)]

mod consistent;
mod needed;
mod parted;
mod shared;
mod sharers;

pub use consistent::{are_all_consistent, keep_consistent};
pub use needed::{
    copy_needed, is_any_needed, is_needed, need_all, need_but, need_set, needed_row, put_needed,
    unmark, unmark_all,
};
pub use parted::part_compatible;
pub use sharers::Sharers;
