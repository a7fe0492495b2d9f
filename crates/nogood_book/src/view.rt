//! What a seat at the table of words knows, and the rule that each step keeps. No value of these types but the key is ever made.

ghost use Rattle.std.specs.Prelude.{ℕ};
ghost use Rattle.nogood_book.specs.Plays.{Looks, Adds, Checks};
ghost use Rattle.nogood_book.specs.Views.{Rule, first_view, maker, newcomer, gathers, nobody};

use crate::row::Row;
use atomic_table::{Join, Play, Split, TableRule};
use graph_rows::Problem;
use std::collections::LinkedList;
use std::marker::{Brand, PhantomData};
use std::snapshot::Snapshot;

/// The problem that a book is about, and how many rows it has room for.
#[derive(Drop)]
pub struct BookKey {
    pub problem: Snapshot<Problem>,
    pub rows: u32,
}

/// What one seat knows.
pub struct View {
    pub problem: Problem,
    /// Whether it is the seat that makes the others.
    pub first: bool,
    /// Whether another seat took it in.
    pub spent: bool,
    pub owner: u8,
    /// The rows from the first up to the last that it has seen.
    pub seen: LinkedList<Row>,
    /// The places of its owner's rows.
    pub mine: LinkedList<u64>,
    /// The owners whose seats it took in, with the places of their rows.
    pub gathered: LinkedList<(u8, LinkedList<u64>)>,
    /// The owners that were made, in the first seat.
    pub made: LinkedList<u8>,
    /// How many rows it had seen at each load that found the next word unused.
    pub looks: LinkedList<u64>,
    /// The shorter of the two lists that were put together at the last join.
    pub other: LinkedList<Row>,
}

/// The rule of a book's words.
pub struct BookRule;

impl TableRule<u8, View, BookKey> for BookRule {
    ghost holds = { λ k. Rule k.problem.value k.rows };

    ghost first = { λ k. first_view k.problem.value };
}

/// A load of the next word.
pub struct Look;

impl Play<u8, View> for Look {
    ghost then = { Looks };
}

/// An exchange of the next word.
pub struct Add;

impl Play<u8, View> for Add {
    ghost then = { Adds };
}

/// A load after a join.
pub struct Check;

impl Play<u8, View> for Check {
    ghost then = { Checks };
}

/// The owner of the seat that is made at a split. Each call picks it.
pub trait Naming {
    ghost owner: { ℕ };
}

impl Naming for Brand {
    ghost owner = { 0 };
}

/// A split for a new owner.
pub struct Cut<N> {
    naming: PhantomData<N>,
}

impl<N: Naming> Split<View> for Cut<N> {
    ghost left = { λ v. maker N.owner v };

    ghost right = { λ v. newcomer N.owner v };
}

/// A seat takes in another.
pub struct Gathering;

impl Join<View> for Gathering {
    ghost both = { λ v w. gathers v w };

    ghost spent = { nobody };
}
