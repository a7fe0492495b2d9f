//! The two forms that a proof log may have.

/// Which form a log has, as its first line tells. A log without hints is shorter and easier to write, and dearer to check: the checker
/// finds by itself what a log with hints names. (The two are to each other as LRAT is to DRAT; Cruz-Filipe and others 2017.)
#[derive(Clone, Copy, PartialEq, Eq, Debug)]
pub enum Profile {
    /// `embedding proof 1`: a `u` line names the constraints that lead to a conflict, in their order.
    Hinted,
    /// `embedding proof 2`: a `u` line names none, and unit propagation over all constraints so far has to come to a conflict.
    Plain,
}
