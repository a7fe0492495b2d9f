//! Who makes lines for first domains, for pairs of vertices and for sets, and who knows the names of rows.

ghost use Rattle.std.specs.Prelude.{◌≡◌, ℕ, ◌^◌, ◌<◌, List, length, IfOk};
ghost use Rattle.graph_theory.specs.Graph.{size};
ghost use Rattle.graph_theory.specs.Embedding.{Problem as TheProblem};
ghost use Rattle.proof_theory.specs.Forms.{Form};
ghost use Rattle.log_theory.specs.LogText.{IsName, IsRef};
ghost use Rattle.journals.specs.Keeping.{KeepsRest};
ghost use Rattle.log_growth.specs.Frames.{Frame, IsFrameOf, Goes, Lasts};
ghost use Rattle.log_growth.specs.Rows.{Widens};
ghost use Rattle.dead_theory.specs.Changes.{IsSetIn};
ghost use Rattle.dead_paths.specs.Making.{GivesFirst, GivesRow, GivesSet};
ghost use Rattle.dead_paths.specs.Explaining.{IsLimited};

use crate::beside::{Beside, BlockSet};
use crate::ground::Ground;
use journals::Keeper;
use log_theory::{Name, Ref};
use nogood_book::Row;
use std::alloc::{AllocError, Global};

/// Gives a reference to a line when it is asked for one, and keeps the line first if it is not there.
pub trait LineMaker: Drop {
    ghost use Rattle.std.specs.Prelude.{List};
    ghost use Rattle.graph_theory.specs.Embedding.{Problem as TheProblem};
    ghost use Rattle.proof_theory.specs.Forms.{Form};
    ghost use Rattle.log_growth.specs.Frames.{Frame};
    ghost use Rattle.log_growth.specs.Rows.{Widens};

    /// What it has to know of the forms of the lines.
    ghost knows: { Self → TheProblem → Frame → List Form → Type 0 };

    /// A line that takes from `p` whatever is not in its first domain.
    fn first<K: Keeper>(
        &mut self,
        alloc: Global,
        lines: &Ground<'_>,
        keeper: &mut K,
        p: u16,
    ) -> Result<Ref, AllocError>
        requires p_in { p < size lines.now.pattern }
        ensures goes { (w : Frame) → IsFrameOf lines.now (K.owner keeper.old) w
            → Goes w (K.kept keeper.old) (K.kept keeper.new)
            (knows self.old lines.now w) (GivesFirst lines.now w p result
            (knows self.new lines.now w)) }
        ensures fits { IfOk result IsRef }
        ensures rest { KeepsRest K.owner K.notes K.spare keeper.old keeper.new };

    /// A line that, where `beside.p` is at `beside.t`, takes from `beside.r` whatever is not consistent with this; or, by edges alone, what edges, and
    /// their labels, do not let go together with this.
    fn row<K: Keeper>(
        &mut self,
        alloc: Global,
        lines: &Ground<'_>,
        keeper: &mut K,
        by_edges: bool,
        beside: Beside,
    ) -> Result<Ref, AllocError>
        requires p_in { beside.p < size lines.now.pattern }
        requires t_in { beside.t < size lines.now.target }
        requires r_in { beside.r < size lines.now.pattern }
        requires apart { beside.p ≡ beside.r → ⊥ }
        ensures goes { (w : Frame) → IsFrameOf lines.now (K.owner keeper.old) w
            → Goes w (K.kept keeper.old) (K.kept keeper.new)
            (knows self.old lines.now w)
            (GivesRow by_edges lines.now w beside.p beside.t beside.r result
            (knows self.new lines.now w)) }
        ensures fits { IfOk result IsRef }
        ensures rest { KeepsRest K.owner K.notes K.spare keeper.old keeper.new };

    /// The line of a set: that its vertices go somewhere and that one vertex at most of its block goes to each of its values, summed.
    fn set<K: Keeper>(
        &mut self,
        alloc: Global,
        lines: &Ground<'_>,
        keeper: &mut K,
        set: &BlockSet<'_>,
    ) -> Result<Name, AllocError>
        requires limited { IsLimited lines.now }
        requires some { 0 < length set.now.vertices.now }
        requires in_problem { IsSetIn lines.now set.now.centre set.now.vertices.now
            set.now.values.now }
        ensures goes { (w : Frame) → IsFrameOf lines.now (K.owner keeper.old) w
            → Goes w (K.kept keeper.old) (K.kept keeper.new)
            (knows self.old lines.now w)
            (GivesSet lines.now w set.now.centre set.now.vertices.now set.now.values.now result
            (knows self.new lines.now w)) }
        ensures fits { IfOk result IsName }
        ensures rest { KeepsRest K.owner K.notes K.spare keeper.old keeper.new };

    /// What it knows stays so as forms are added.
    ghost lasts: { (maker : Self) (q : TheProblem) (w : Frame) → Lasts (knows maker q w) };

    /// And as more is found beside the lines.
    ghost wider: { (maker : Self) (q : TheProblem) (w v : Frame) (forms : List Form) → Widens w v
        → knows maker q w forms → knows maker q v forms };
}

/// Knows a reference for each nogood row of a book.
pub trait RowNames {
    ghost use Rattle.std.specs.Prelude.{ℕ};
    ghost use Rattle.log_theory.specs.declared.step.Ref.{Ref};

    /// The reference of each row.
    ghost names: { Self → ℕ → Ref };

    /// The reference of row `k`.
    fn name(&self, k: u32) -> Ref
        requires { k < 2 ^ 22 }
        ensures name { result ≡ names self.now k }
        ensures fits { IsRef result };
}

/// What the lines of dead paths are made from: the encoding with its rows, the rows of a book with the names of their clauses, and the numbers of the sets
/// that were counted together.
#[derive(Drop)]
pub struct Basis<'a, N: RowNames> {
    pub alloc: Global,
    pub lines: &'a Ground<'a>,
    pub rows: &'a [Row],
    pub names: &'a N,
    pub numbers: &'a [u16],
}
