//! The clauses against single values, in one direction of edges.

ghost use Rattle.std.specs.Prelude.{◌≡◌, ℕ, ◌+◌, ◌<◌, ◌≤◌, [], ◌∷◌, ◌++◌, true, false, List, length, IfOk, IfSome, IfNone, slice_index};
ghost use Rattle.graph_theory.specs.Graph.{size};
ghost use Rattle.graph_theory.specs.Neighbours.{sequence, fails_at, IsKeptBy};
ghost use Rattle.graph_theory.specs.Asked.{asked_degree, room, asked_sequence};
ghost use Rattle.graph_theory.specs.Blocks.{has_block};
ghost use Rattle.graph_rows.specs.Orders.{IsOrder};
ghost use Rattle.graph_theory.specs.Reversed.{turned_problem};
ghost use Rattle.proof_theory.specs.Forms.{Form};
ghost use Rattle.proof_theory.specs.Slack.{refutes, negations};
ghost use Rattle.log_theory.specs.LogText.{IsName, IsRef, AreRefs};
ghost use Rattle.encoding_theory.specs.Variables.{variable as variable_of};
ghost use Rattle.encoding_theory.specs.Encoding.{is_refused, refusal};
ghost use Rattle.explanation_theory.specs.Reasons.{not_there};
ghost use Rattle.journals.specs.Keeping.{KeepsRest};
ghost use Rattle.log_growth.specs.Frames.{Frame, IsNamed, Goes, AnyForms, Named, IsKept};
ghost use Rattle.domain_line_theory.specs.Crowds.{refused_pairs, high_count, place_count, crowd_block, HasAllLower};
ghost use Rattle.domain_lines.specs.Named.{is_false, AreUnits};
ghost use Rattle.domain_lines.specs.Given.{IsFrameFor, IsGiven, IsMade, HasPairs, ArePushed, pairs_with, all_pairs, IsLarge, Lacks, AreLower, AreAllLower, IsCrowd};

use crate::operands::crowd_refs;
use crate::turned::Turned;
use crate::units::Units;
use graph_rows::Problem;
use graph_theory::direction::Direction;
use graph_theory::embedding::Maps;
use journals::Keeper;
use log_growth::keep_sum;
use log_theory::{Clause, Name, Ref, Refs, Step};
use nds_filter::{SequenceAnswer, Sequences};
use pb_encoding::Encoding;
use proof_theory::Literal;
use std::alloc::{AllocError, Global};
use std::marker::Model;

/// The name of a step that is given to a keeper, which gives it the next one.
const NO_NAME: Name = Name {
    owner: 0,
    number: 0,
};

/// What shows that a value is not in the first domain of a vertex, in one direction of edges.
#[derive(Clone, Copy)]
pub(crate) enum Lack {
    /// Too little room for the neighbours.
    Degree,
    /// The degrees of its neighbours are, at this place of the sequences, counted from 0.
    DegreesBeside(u16),
}

/// What the clauses against single values are made from, in one direction of edges. Contracts see the problem of the graphs that are
/// turned so.
pub(crate) struct ValueClauses<'a> {
    turned: Turned<'a>,
    pattern: Sequences,
    target: Sequences,
}

impl Drop for ValueClauses<'_> {
    /// In one call, for whoever lets one go.
    fn drop(self) {
        let ValueClauses {
            turned: _,
            pattern: _,
            target: _,
        } = self;
    }
}

impl<'a> Model for ValueClauses<'a> {
    ghost use Rattle.graph_theory.specs.Embedding.{Problem as TheProblem};
    ghost use Rattle.domain_lines.specs.Given.{IsSet};

    ghost Value = { TheProblem };

    ghost view = { λ s. s.turned };

    ghost invariant = { λ s. IsSet s.turned s.pattern s.target };
}

/// Keeps the name of a clause against a value, and refers to it.
fn remember(units: &mut Units, variable: u32, name: Name) -> Result<Ref, AllocError>
    requires { IsName name }
    ensures given { (w : Frame) (forms : List Form) → AreUnits w units.old forms
        → IsNamed w forms (Ref.Made name) (is_false variable)
        → IsGiven w result (is_false variable) units.new forms }
    ensures fits { IfOk result IsRef }
{
    units.add(variable, name)?;
    Ok(Ref::Made(name))
}

impl<'a> ValueClauses<'a> {
    /// For this problem, its encoding and this direction. Cost: that of the sequences of neighbours' degrees.
    pub(crate) fn new(
        alloc: Global,
        problem: &'a Problem,
        lines: &'a Encoding<'a>,
        direction: Direction,
    ) -> Result<ValueClauses<'a>, AllocError>
        requires { lines.now ≡ problem.now }
        ensures { IfOk result (λ s. s ≡ turned_problem direction problem.now) }
    {
        let turned = Turned::new(problem, lines, direction);
        let pattern = turned.pattern_sequences(alloc)?;
        let target = turned.target_sequences(alloc)?;
        Ok(ValueClauses {
            turned,
            pattern,
            target,
        })
    }

    /// The problem and its encoding.
    fn turned(&self) -> &Turned<'a>
        ensures same { result.now ≡ self.now }
        ensures few_pattern { size self.now.pattern ≤ 1024 }
        ensures few_target { size self.now.target ≤ 8192 }
        ensures order { IsOrder (size self.now.pattern) self.now.less }
    {
        let _targets = self.turned.targets();
        &self.turned
    }

    /// The variable of `p` and `u`.
    fn variable(&self, p: u16, u: u16) -> u32
        requires p_in { p < size self.now.pattern }
        requires u_in { u < size self.now.target }
        ensures { result ≡ variable_of self.now p u }
    {
        self.turned.variable(p, u)
    }

    /// The clause against `u` for `p` that is there already: the encoding's own line, or one that was made. Cost: logarithmic.
    pub(crate) fn known(&self, units: &Units, p: u16, u: u16) -> Option<Ref>
        requires p_in { p < size self.now.pattern }
        requires u_in { u < size self.now.target }
        ensures named { (w : Frame) (owner : ℕ) (forms : List Form) → IsFrameFor self.now owner w
            → AreUnits w units.now forms
            → IfSome result (λ r. IsNamed w forms r (refusal self.now p u)) }
        ensures fits { IfSome result IsRef }
        ensures allowed { IfNone result (is_refused self.now p u ≡ false) }
    {
        let turned = self.turned();
        if let Some(line) = turned.refused(p, u) {
            return Some(Ref::Line(line));
        }
        match units.name_of(self.variable(p, u)) {
            Some(name) => Some(Ref::Made(name)),
            None => None,
        }
    }

    /// Keeps the line that the clause against `u` for `p` follows from these references.
    fn keep_clause<K: Keeper>(
        &self,
        alloc: Global,
        keeper: &mut K,
        p: u16,
        u: u16,
        refs: Vec<Ref>,
    ) -> Result<Name, AllocError>
        requires p_in { p < size self.now.pattern }
        requires u_in { u < size self.now.target }
        requires fits { AreRefs refs.items }
        ensures goes { (w : Frame) (fs : List Form) → IsFrameFor self.now (K.owner keeper.old) w
            → refutes (negations (not_there self.now (p, u) ∷ [])) fs ≡ true
            → Goes w (K.kept keeper.old) (K.kept keeper.new) (Named w refs.items fs)
            (IsKept w result (refusal self.now p u)) }
        ensures name { IfOk result IsName }
        ensures rest { KeepsRest K.owner K.notes K.spare keeper.old keeper.new }
    {
        let variable = self.variable(p, u);
        let mut lits = Vec::new(alloc);
        lits.push(Literal {
            variable,
            negated: true,
        })?;
        keeper.keep(Step::U {
            name: NO_NAME,
            lits: Clause::new(lits),
            refs: Refs::new(refs),
        })
    }

    /// The lines of the encoding for the neighbours of `p` of degree `d` and more, and the places for them beside `u`.
    fn crowd(&self, alloc: Global, p: u16, u: u16, d: u16) -> Result<Vec<Ref>, AllocError>
        requires p_in { p < size self.now.pattern }
        requires u_in { u < size self.now.target }
        requires there { 0 < place_count self.now u d
            → has_block self.now (crowd_block self.now p) ≡ true }
        ensures { IfOk result (λ refs. IsCrowd self.now p u d refs.items) }
    {
        let turned = self.turned();
        let vertices = turned.vertices(alloc, p, d)?;
        let values = turned.values(alloc, u, d, false)?;
        crowd_refs(alloc, turned, p, u, &vertices, &values)
    }

    /// Sums the lines of the neighbours of `p` of degree `d` and more, and of the places for them beside `u`, and keeps the clause against `u`
    /// that follows from it behind these clauses.
    fn crowd_line<K: Keeper>(
        &self,
        alloc: Global,
        keeper: &mut K,
        p: u16,
        u: u16,
        d: u16,
        clauses: Vec<Ref>,
    ) -> Result<Name, AllocError>
        requires p_in { p < size self.now.pattern }
        requires u_in { u < size self.now.target }
        requires fits { AreRefs clauses.items }
        requires fewer { place_count self.now u d < high_count self.now.pattern p d }
        requires there { 0 < place_count self.now u d
            → has_block self.now (crowd_block self.now p) ≡ true }
        ensures goes { (w : Frame) (pairs : List (ℕ × ℕ))
            → IsFrameFor self.now (K.owner keeper.old) w → HasAllLower self.now p u d pairs
            → Goes w (K.kept keeper.old) (K.kept keeper.new)
            (Named w clauses.items (refused_pairs self.now pairs))
            (IsKept w result (refusal self.now p u)) }
        ensures name { IfOk result IsName }
        ensures rest { KeepsRest K.owner K.notes K.spare keeper.old keeper.new }
    {
        let crowd = self.crowd(alloc, p, u, d)?;
        let sum = keep_sum(alloc, keeper, &crowd)?;
        let mut refs = clauses;
        refs.push(Ref::Made(sum))?;
        self.keep_clause(alloc, keeper, p, u, refs)
    }

    /// The two lines of a value with too little room, and the name of the clause against it. Cost: a step for each neighbour of `p` and of
    /// `u`, for each word of their rows, and for an edge line a search by halves.
    fn degree_line<K: Keeper>(
        &self,
        alloc: Global,
        keeper: &mut K,
        p: u16,
        u: u16,
    ) -> Result<Name, AllocError>
        requires p_in { p < size self.now.pattern }
        requires u_in { u < size self.now.target }
        requires less { room self.now u < asked_degree self.now p }
        ensures goes { (w : Frame) → IsFrameFor self.now (K.owner keeper.old) w
            → Goes w (K.kept keeper.old) (K.kept keeper.new) AnyForms
            (IsKept w result (refusal self.now p u)) }
        ensures name { IfOk result IsName }
        ensures rest { KeepsRest K.owner K.notes K.spare keeper.old keeper.new }
    {
        self.crowd_line(alloc, keeper, p, u, 0, Vec::new(alloc))
    }

    /// The clause against a value with too little room: the one that is there, or one that is made now.
    fn lower_ref<K: Keeper>(
        &self,
        alloc: Global,
        keeper: &mut K,
        units: &mut Units,
        p: u16,
        u: u16,
    ) -> Result<Ref, AllocError>
        requires p_in { p < size self.now.pattern }
        requires u_in { u < size self.now.target }
        requires less { room self.now u < asked_degree self.now p }
        ensures goes { (w : Frame) → IsFrameFor self.now (K.owner keeper.old) w
            → Goes w (K.kept keeper.old) (K.kept keeper.new) (AreUnits w units.old)
            (IsGiven w result (refusal self.now p u) units.new) }
        ensures fits { IfOk result IsRef }
        ensures rest { KeepsRest K.owner K.notes K.spare keeper.old keeper.new }
    {
        if let Some(found) = self.known(units, p, u) {
            return Ok(found);
        }
        let name = self.degree_line(alloc, keeper, p, u)?;
        remember(units, self.variable(p, u), name)
    }

    /// Refers to the clause against one more value of `r`, which has too little room.
    fn push_lower<K: Keeper>(
        &self,
        alloc: Global,
        keeper: &mut K,
        units: &mut Units,
        r: u16,
        w: u16,
        refs: &mut Vec<Ref>,
    ) -> Result<(), AllocError>
        requires r_in { r < size self.now.pattern }
        requires w_in { w < size self.now.target }
        requires less { room self.now w < asked_degree self.now r }
        requires fits { AreRefs refs.old.items }
        ensures goes { (v : Frame) (pairs : List (ℕ × ℕ))
            → IsFrameFor self.now (K.owner keeper.old) v
            → Goes v (K.kept keeper.old) (K.kept keeper.new)
            (HasPairs v self.now refs.old.items pairs units.old)
            (ArePushed v self.now result refs.new.items (pairs ++ (r, w) ∷ []) units.new) }
        ensures fits { IfOk result (λ _. AreRefs refs.new.items) }
        ensures rest { KeepsRest K.owner K.notes K.spare keeper.old keeper.new }
    {
        let clause = self.lower_ref(alloc, keeper, units, r, w)?;
        refs.push(clause)?;
        Ok(())
    }

    /// Refers to the clauses against these values of `r`, which have too little room.
    fn push_all_lower<K: Keeper>(
        &self,
        alloc: Global,
        keeper: &mut K,
        units: &mut Units,
        r: u16,
        lower: &[u16],
        refs: &mut Vec<Ref>,
    ) -> Result<(), AllocError>
        requires r_in { r < size self.now.pattern }
        requires lower { AreLower self.now r lower.now }
        requires fits { AreRefs refs.old.items }
        ensures goes { (v : Frame) (pairs : List (ℕ × ℕ))
            → IsFrameFor self.now (K.owner keeper.old) v
            → Goes v (K.kept keeper.old) (K.kept keeper.new)
            (HasPairs v self.now refs.old.items pairs units.old)
            (ArePushed v self.now result refs.new.items (pairs ++ pairs_with r lower.now)
            units.new) }
        ensures fits { IfOk result (λ _. AreRefs refs.new.items) }
        ensures rest { KeepsRest K.owner K.notes K.spare keeper.old keeper.new }
    {
        for w in lower {
            self.push_lower(alloc, keeper, units, r, *w, refs)?;
        }
        Ok(())
    }

    /// Refers to the clauses against the pairs of one of these vertices and one of these values, which have too little room for all of them.
    fn push_pairs<K: Keeper>(
        &self,
        alloc: Global,
        keeper: &mut K,
        units: &mut Units,
        vertices: &[u16],
        lower: &[u16],
        refs: &mut Vec<Ref>,
    ) -> Result<(), AllocError>
        requires lower { AreAllLower self.now vertices.now lower.now }
        requires fits { AreRefs refs.old.items }
        ensures goes { (v : Frame) (pairs : List (ℕ × ℕ))
            → IsFrameFor self.now (K.owner keeper.old) v
            → Goes v (K.kept keeper.old) (K.kept keeper.new)
            (HasPairs v self.now refs.old.items pairs units.old)
            (ArePushed v self.now result refs.new.items (pairs ++ all_pairs vertices.now lower.now)
            units.new) }
        ensures fits { IfOk result (λ _. AreRefs refs.new.items) }
        ensures rest { KeepsRest K.owner K.notes K.spare keeper.old keeper.new }
    {
        for r in vertices {
            self.push_all_lower(alloc, keeper, units, *r, lower, refs)?;
        }
        Ok(())
    }

    /// The degree at a place of the sequence of `p` at which that of `u` is too small.
    fn degree_at(&self, p: u16, u: u16, place: u16) -> u16
        requires p_in { p < size self.now.pattern }
        requires fails { fails_at (asked_sequence self.now p) (sequence self.now.target u) place
            ≡ true }
        ensures { result ≡ slice_index (asked_sequence self.now p) place }
    {
        self.pattern.of(p)[usize::from(place)]
    }

    /// Whether the sequence of `u` keeps what is asked of it for `p`, or a place at which it does not. Only injective maps ask for it.
    fn compared(&self, p: u16, u: u16) -> SequenceAnswer
        requires p_in { p < size self.now.pattern }
        requires u_in { u < size self.now.target }
        ensures kept { result ≡ SequenceAnswer.Kept
            → IsKeptBy (asked_sequence self.now p) (sequence self.now.target u) }
        ensures fails { (i : ℕ) → result ≡ SequenceAnswer.FailsAt i
            → fails_at (asked_sequence self.now p) (sequence self.now.target u) i ≡ true }
    {
        match self.turned.maps() {
            Maps::Injective => nds_filter::keeps(&self.pattern, &self.target, p, u),
            Maps::Local => SequenceAnswer::Kept,
            Maps::Any => SequenceAnswer::Kept,
        }
    }

    /// The lines of a value whose sequence of neighbours' degrees is too small at a place, and the name of the clause against it.
    fn nds_line<K: Keeper>(
        &self,
        alloc: Global,
        keeper: &mut K,
        units: &mut Units,
        p: u16,
        u: u16,
        place: u16,
    ) -> Result<Name, AllocError>
        requires p_in { p < size self.now.pattern }
        requires u_in { u < size self.now.target }
        requires fails { fails_at (asked_sequence self.now p) (sequence self.now.target u) place
            ≡ true }
        ensures goes { (w : Frame) → IsFrameFor self.now (K.owner keeper.old) w
            → Goes w (K.kept keeper.old) (K.kept keeper.new) (AreUnits w units.old)
            (IsMade w result (refusal self.now p u) units.new) }
        ensures name { IfOk result IsName }
        ensures rest { KeepsRest K.owner K.notes K.spare keeper.old keeper.new }
    {
        let d = self.degree_at(p, u, place);
        let vertices = self.turned.vertices(alloc, p, d)?;
        let lower = self.turned.values(alloc, u, d, true)?;
        let mut clauses = Vec::new(alloc);
        self.push_pairs(alloc, keeper, units, &vertices, &lower, &mut clauses)?;
        self.crowd_line(alloc, keeper, p, u, d, clauses)
    }

    /// What `u` lacks for `p`, or none where neither its room nor the degrees of its neighbours are too small. Cost: a few steps, and
    /// where the room is not too small by injective maps one for each neighbour of `p` at most.
    pub(crate) fn lack(&self, p: u16, u: u16) -> Option<Lack>
        requires p_in { p < size self.now.pattern }
        requires u_in { u < size self.now.target }
        ensures lacks { IfSome result (Lacks self.now p u) }
        ensures large { IfNone result (IsLarge self.now p u) }
    {
        if !self.turned.keeps_degree(p, u) {
            return Some(Lack::Degree);
        }
        match self.compared(p, u) {
            SequenceAnswer::Kept => None,
            SequenceAnswer::FailsAt(place) => Some(Lack::DegreesBeside(place)),
        }
    }

    /// The clause against a value that lacks this. The caller has looked for one that is there.
    pub(crate) fn lacking_ref<K: Keeper>(
        &self,
        alloc: Global,
        keeper: &mut K,
        units: &mut Units,
        p: u16,
        u: u16,
        lack: Lack,
    ) -> Result<Ref, AllocError>
        requires p_in { p < size self.now.pattern }
        requires u_in { u < size self.now.target }
        requires lacks { Lacks self.now p u lack }
        ensures goes { (w : Frame) → IsFrameFor self.now (K.owner keeper.old) w
            → Goes w (K.kept keeper.old) (K.kept keeper.new) (AreUnits w units.old)
            (IsGiven w result (refusal self.now p u) units.new) }
        ensures fits { IfOk result IsRef }
        ensures rest { KeepsRest K.owner K.notes K.spare keeper.old keeper.new }
    {
        match lack {
            Lack::Degree => self.lower_ref(alloc, keeper, units, p, u),
            Lack::DegreesBeside(place) => {
                let name = self.nds_line(alloc, keeper, units, p, u, place)?;
                remember(units, self.variable(p, u), name)
            }
        }
    }
}
