//! The lines of a proof log, what keeps one from being accepted, and what a whole log shows. The text and its rules are this
//! project's own; the idea of a log of cutting planes steps follows Gocht, McCreesh and Nordström (2020).

ghost use Rattle.std.specs.Prelude.{◌≡◌, List};

use proof_theory::Literal;
use std::marker::Model;

/// The name of a constraint that a line makes: an owner from 0 to 64 and the owner's own number, from 1.
#[derive(Clone, Copy, PartialEq, Eq, Debug)]
pub struct Name {
    pub owner: u8,
    pub number: u64,
}

/// What a line refers to: a constraint of the model by its number from 1, a named one, or a shared one by its row.
#[derive(Clone, Copy, PartialEq, Eq, Debug)]
pub enum Ref {
    Line(u64),
    Made(Name),
    Shared(u32),
}

/// One operation over a stack of constraints.
#[derive(Clone, Copy, PartialEq, Eq, Debug)]
pub enum Op {
    Push(Ref),
    Axiom(Literal),
    Add,
    Times(u64),
    Divide(u64),
    Saturate,
}

/// Operations in their order. Contracts see the list.
#[derive(Drop)]
pub struct Ops {
    items: Vec<Op>,
}

impl Model for Ops {
    ghost use Rattle.std.specs.Prelude.{List};
    ghost use Rattle.log_theory.specs.declared.step.Op.{Op};

    ghost Value = { List Op };

    ghost view = { λ s. s.items.items };
}

impl Ops {
    /// The list of these items; it takes no memory.
    pub fn new(items: Vec<Op>) -> Ops
        ensures { result ≡ items.items }
    {
        Ops { items }
    }

    /// The items.
    pub fn as_slice(&self) -> &[Op]
        ensures { result.now ≡ self.now }
    {
        &self.items
    }

    /// The items as a vector of the caller's; it takes no memory.
    pub fn into_vec(self) -> Vec<Op>
        ensures { result.items ≡ self }
    {
        self.items
    }
}

/// The literals of a clause. Contracts see the list.
#[derive(Drop)]
pub struct Clause {
    items: Vec<Literal>,
}

impl Model for Clause {
    ghost use Rattle.std.specs.Prelude.{List};
    ghost use Rattle.proof_theory.specs.declared.literal.Literal.{Literal};

    ghost Value = { List Literal };

    ghost view = { λ s. s.items.items };
}

impl Clause {
    /// The list of these items; it takes no memory.
    pub fn new(items: Vec<Literal>) -> Clause
        ensures { result ≡ items.items }
    {
        Clause { items }
    }

    /// The items.
    pub fn as_slice(&self) -> &[Literal]
        ensures { result.now ≡ self.now }
    {
        &self.items
    }

    /// The items as a vector of the caller's; it takes no memory.
    pub fn into_vec(self) -> Vec<Literal>
        ensures { result.items ≡ self }
    {
        self.items
    }
}

/// References in their order. Contracts see the list.
#[derive(Drop)]
pub struct Refs {
    items: Vec<Ref>,
}

impl Model for Refs {
    ghost use Rattle.std.specs.Prelude.{List};
    ghost use Rattle.log_theory.specs.declared.step.Ref.{Ref};

    ghost Value = { List Ref };

    ghost view = { λ s. s.items.items };
}

impl Refs {
    /// The list of these items; it takes no memory.
    pub fn new(items: Vec<Ref>) -> Refs
        ensures { result ≡ items.items }
    {
        Refs { items }
    }

    /// The items.
    pub fn as_slice(&self) -> &[Ref]
        ensures { result.now ≡ self.now }
    {
        &self.items
    }

    /// The items as a vector of the caller's; it takes no memory.
    pub fn into_vec(self) -> Vec<Ref>
        ensures { result.items ≡ self }
    {
        self.items
    }
}

/// Numbers of variables. Contracts see the list.
#[derive(Drop)]
pub struct Variables {
    items: Vec<u32>,
}

impl Model for Variables {
    ghost use Rattle.std.specs.Prelude.{ℕ, List};

    ghost Value = { List ℕ };

    ghost view = { λ s. s.items.items };
}

impl Variables {
    /// The list of these items; it takes no memory.
    pub fn new(items: Vec<u32>) -> Variables
        ensures { result ≡ items.items }
    {
        Variables { items }
    }

    /// The items.
    pub fn as_slice(&self) -> &[u32]
        ensures { result.now ≡ self.now }
    {
        &self.items
    }

    /// The items as a vector of the caller's; it takes no memory.
    pub fn into_vec(self) -> Vec<u32>
        ensures { result.items ≡ self }
    {
        self.items
    }
}

/// A line of a log: the first two, a constraint made by operations or by unit propagation, one shared under a row, the deletion of what a
/// name or a row names, and the three last lines, unsatisfiable, satisfiable and undecided.
pub enum Step {
    Head,
    Model(u64),
    P {
        name: Name,
        ops: Ops,
    },
    U {
        name: Name,
        lits: Clause,
        refs: Refs,
    },
    N {
        row: u32,
        name: Name,
    },
    D {
        at: Ref,
    },
    E {
        at: Ref,
    },
    Y {
        ones: Variables,
    },
    Q,
}

impl Drop for Step {
    /// In one call, for whoever lets one go.
    fn drop(self) {
        match self {
            Step::Head => (),
            Step::Model(_) => (),
            Step::P { name: _, ops: _ } => (),
            Step::U {
                name: _,
                lits: _,
                refs: _,
            } => (),
            Step::N { row: _, name: _ } => (),
            Step::D { at: _ } => (),
            Step::E { at: _ } => (),
            Step::Y { ones: _ } => (),
            Step::Q => (),
        }
    }
}

/// Why a line is refused. Where several causes stand in one line, the first of this list is told; within a `p` line operation by
/// operation from the left, and at one operation `Zero` before `Stack` before `Wide`.
#[derive(Clone, Copy, PartialEq, Eq, Debug)]
pub enum Cause {
    EndsEarly,
    Form,
    NameUsed,
    Order,
    Twice,
    NoSuchName,
    Stack,
    Zero,
    Wide,
    NoConflict,
    NotFalse,
    NotSolution,
}

/// What a log shows: its last line's claim, or its first faulty line, counted from 1, with its cause. `NoMemory` is no answer about it.
#[derive(Clone, Copy, PartialEq, Eq, Debug)]
pub enum Verdict {
    Unsatisfiable,
    Satisfiable,
    Undecided,
    Refused { line: u64, cause: Cause },
    NoMemory,
}
