//! The lines of first domains.

ghost use Rattle.std.specs.Prelude.{◌≡◌, ◌+◌, ◌<◌, ◌≤◌, false, length, IfOk, IfSome, IfNone};
ghost use Rattle.graph_theory.specs.Graph.{size};
ghost use Rattle.graph_theory.specs.Reversed.{reversed_problem, AreMutual};
ghost use Rattle.search_theory.specs.Consistency.{IsFirstValue};
ghost use Rattle.log_theory.specs.LogText.{IsName, IsRef, AreRefs};
ghost use Rattle.encoding_theory.specs.Encoding.{is_refused};
ghost use Rattle.journals.specs.Keeping.{KeepsRest};
ghost use Rattle.log_growth.specs.Frames.{Frame, IsFrameOf, Goes};
ghost use Rattle.domain_lines.specs.Named.{AreUnits};
ghost use Rattle.domain_lines.specs.Given.{IsSeen, IsLarge, HasValues, AreCollected, IsFirstLine};

use crate::units::Units;
use crate::value_clauses::ValueClauses;
use graph_rows::Problem;
use graph_theory::direction::Direction;
use journals::Keeper;
use log_growth::keep_sum;
use log_theory::{Name, Ref};
use pb_encoding::Encoding;
use std::alloc::{AllocError, Global};
use std::marker::Model;

/// What the lines of a problem's first domains are made from. Contracts see the problem. Where edges are known to stand both ways, the
/// clauses of one direction are all.
pub struct DomainLines<'a> {
    problem: &'a Problem,
    out: ValueClauses<'a>,
    back: Option<ValueClauses<'a>>,
}

impl Drop for DomainLines<'_> {
    /// In one call, for whoever lets one go.
    fn drop(self) {
        let DomainLines {
            problem: _,
            out: _,
            back: _,
        } = self;
    }
}

impl<'a> Model for DomainLines<'a> {
    ghost use Rattle.std.specs.Prelude.{◌≡◌, IfSome, IfNone};
    ghost use Rattle.graph_theory.specs.Embedding.{Problem as TheProblem};
    ghost use Rattle.graph_theory.specs.Reversed.{reversed_problem, AreMutual};

    ghost Value = { TheProblem };

    ghost view = { λ s. s.problem.now };

    ghost invariant = { λ s. (s.out ≡ s.problem.now)
        × IfSome s.back (λ b. b ≡ reversed_problem s.problem.now)
        × IfNone s.back (AreMutual s.problem.now) };
}

/// The clauses by the edges that lead in, where edges are not known to stand both ways.
fn clauses_back<'a>(
    alloc: Global,
    problem: &'a Problem,
    lines: &'a Encoding<'a>,
) -> Result<Option<ValueClauses<'a>>, AllocError>
    requires { lines.now ≡ problem.now }
    ensures some { IfOk result (λ back. IfSome back (λ b. b ≡ reversed_problem problem.now)) }
    ensures none { IfOk result (λ back. IfNone back (AreMutual problem.now)) }
{
    if problem.is_mutual() {
        return Ok(None);
    }
    let back = ValueClauses::new(alloc, problem, lines, Direction::In)?;
    Ok(Some(back))
}

impl<'a> DomainLines<'a> {
    /// For this problem and its encoding. Cost: that of the sequences of neighbours' degrees, twice where edges are not known to stand
    /// both ways.
    pub fn new(
        alloc: Global,
        problem: &'a Problem,
        lines: &'a Encoding<'a>,
    ) -> Result<DomainLines<'a>, AllocError>
        requires { lines.now ≡ problem.now }
        ensures { IfOk result (λ s. s ≡ problem.now) }
    {
        let out = ValueClauses::new(alloc, problem, lines, Direction::Out)?;
        let back = clauses_back(alloc, problem, lines)?;
        Ok(DomainLines { problem, out, back })
    }

    /// The clause against a value, made where it is not there, or none where the value is in the first domain of `p`.
    fn value_ref<K: Keeper>(
        &self,
        alloc: Global,
        keeper: &mut K,
        units: &mut Units,
        p: u16,
        u: u16,
    ) -> Result<Option<Ref>, AllocError>
        requires p_in { p < size self.now.pattern }
        requires u_in { u < size self.now.target }
        ensures goes { (w : Frame) → IsFrameOf self.now (K.owner keeper.old) w
            → Goes w (K.kept keeper.old) (K.kept keeper.new) (AreUnits w units.old)
            (IsSeen w self.now p u result units.new) }
        ensures first { IfOk result (λ found. IfNone found (IsFirstValue self.now p u)) }
        ensures fits { IfOk result (λ found. IfSome found IsRef) }
        ensures rest { KeepsRest K.owner K.notes K.spare keeper.old keeper.new }
    {
        if let Some(found) = self.out.known(units, p, u) {
            return Ok(Some(found));
        }
        if let Some(lack) = self.out.lack(p, u) {
            return Ok(Some(self.out.lacking_ref(alloc, keeper, units, p, u, lack)?));
        }
        let Some(back) = &self.back else {
            return Ok(None);
        };
        match back.lack(p, u) {
            Some(lack) => Ok(Some(back.lacking_ref(alloc, keeper, units, p, u, lack)?)),
            None => Ok(None),
        }
    }

    /// Refers to the clause against `u` where that is not in the first domain of `p`.
    fn push_value<K: Keeper>(
        &self,
        alloc: Global,
        keeper: &mut K,
        units: &mut Units,
        p: u16,
        u: u16,
        refs: &mut Vec<Ref>,
    ) -> Result<(), AllocError>
        requires p_in { p < size self.now.pattern }
        requires u_in { u < size self.now.target }
        requires fits { AreRefs refs.old.items }
        ensures goes { (w : Frame) → IsFrameOf self.now (K.owner keeper.old) w
            → Goes w (K.kept keeper.old) (K.kept keeper.new)
            (HasValues w self.now p refs.old.items u units.old)
            (AreCollected w self.now p result refs.new.items (u + 1) units.new) }
        ensures fits { IfOk result (λ _. AreRefs refs.new.items) }
        ensures few { length refs.new.items ≤ length refs.old.items + 1 }
        ensures rest { KeepsRest K.owner K.notes K.spare keeper.old keeper.new }
    {
        match self.value_ref(alloc, keeper, units, p, u)? {
            Some(clause) => {
                refs.push(clause)?;
                Ok(())
            }
            None => Ok(()),
        }
    }

    /// The line that forces the first domain of `p`, or none where all values are in it, or no lines are kept. Clauses against
    /// single values that the owner has made before are used again. Cost: for each value that is not in the first domain that of its own
    /// lines, where these are not there.
    pub fn first_line<K: Keeper>(
        &self,
        alloc: Global,
        keeper: &mut K,
        units: &mut Units,
        p: u16,
    ) -> Result<Option<Name>, AllocError>
        requires { p < size self.now.pattern }
        ensures goes { (w : Frame) → IsFrameOf self.now (K.owner keeper.old) w
            → Goes w (K.kept keeper.old) (K.kept keeper.new) (AreUnits w units.old)
            (IsFirstLine w self.now p result units.new) }
        ensures name { IfOk result (λ found. IfSome found IsName) }
        ensures rest { KeepsRest K.owner K.notes K.spare keeper.old keeper.new }
    {
        if !keeper.is_on() {
            return Ok(None);
        }
        let mut refs = Vec::new(alloc);
        let problem = self.problem;
        for u in 0..problem.target().size() {
            self.push_value(alloc, keeper, units, p, u, &mut refs)?;
        }
        if refs.is_empty() {
            return Ok(None);
        }
        Ok(Some(keep_sum(alloc, keeper, &refs)?))
    }
}
