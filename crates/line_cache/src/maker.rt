//! The maker of lines.

ghost use Rattle.std.specs.Prelude.{◌≡◌, ℕ, ◌<◌, ◌≤◌, [], IfOk};
ghost use Rattle.graph_theory.specs.Graph.{size};
ghost use Rattle.graph_theory.specs.Embedding.{Problem as TheProblem};
ghost use Rattle.log_growth.specs.Frames.{Frame};
ghost use Rattle.line_cache.specs.Made.{IsMade, made_last, made_wider};

use crate::set_lines::set_line;
use crate::set_names::SetNames;
use dead_paths::{Beside, BlockSet, Ground, LineMaker};
use domain_lines::{DomainLines, Units};
use graph_rows::Problem;
use journals::Keeper;
use log_theory::{Name, Ref};
use pair_lines::{PairLines, PlacedPair};
use pb_encoding::Encoding;
use std::alloc::{AllocError, Global};

/// The names of the lines that were made so far for a problem. Cost of a line that is there: one step for one of two vertices, which is found
/// by hash, and for a set, found so too, a sort of its vertices and one step for each vertex and value.
pub struct LineCache<'a> {
    problem: &'a Problem,
    first: DomainLines<'a>,
    units: Units,
    firsts: Units,
    rows: PairLines,
    sets: SetNames,
    ghost same: { first ≡ problem.now },
}

impl Drop for LineCache<'_> {
    /// In one call, for whoever lets one go.
    fn drop(self) {
        let LineCache {
            problem: _,
            first: _,
            units: _,
            firsts: _,
            rows: _,
            sets: _,
        } = self;
    }
}

impl<'a> LineCache<'a> {
    /// No line yet.
    pub fn new(
        alloc: Global,
        problem: &'a Problem,
        lines: &'a Encoding<'a>,
    ) -> Result<LineCache<'a>, AllocError>
        requires encoding { lines.now ≡ problem.now }
        ensures { IfOk result
            (λ m. (w : Frame)
            → IsMade problem.now m.problem.now w m.units m.firsts m.rows m.sets []) }
    {
        let first = DomainLines::new(alloc, problem, lines)?;
        Ok(LineCache {
            problem,
            first,
            units: Units::new(alloc),
            firsts: Units::new(alloc),
            rows: PairLines::new(alloc),
            sets: SetNames::new(alloc),
        })
    }
}

impl<'a> LineMaker for LineCache<'a> {
    ghost knows = { λ m q w forms. IsMade q m.problem.now w m.units m.firsts m.rows m.sets forms };

    fn first<K: Keeper>(
        &mut self,
        alloc: Global,
        lines: &Ground<'_>,
        keeper: &mut K,
        p: u16,
    ) -> Result<Ref, AllocError> {
        if p >= self.problem.pattern().size() {
            return Err(AllocError);
        }
        if let Some(name) = self.firsts.name_of(u32::from(p)) {
            return Ok(Ref::Made(name));
        }
        match self.first.first_line(alloc, keeper, &mut self.units, p)? {
            None => Ok(Ref::Line(lines.at_least(p))),
            Some(name) => {
                self.firsts.add(u32::from(p), name)?;
                Ok(Ref::Made(name))
            }
        }
    }

    fn row<K: Keeper>(
        &mut self,
        alloc: Global,
        lines: &Ground<'_>,
        keeper: &mut K,
        by_edges: bool,
        beside: Beside,
    ) -> Result<Ref, AllocError> {
        let q = lines.problem();
        let pair = PlacedPair {
            p: beside.p,
            t: beside.t,
            r: beside.r,
        };
        self.rows
            .row(alloc, q, lines.encoding(), keeper, by_edges, pair)
    }

    fn set<K: Keeper>(
        &mut self,
        alloc: Global,
        lines: &Ground<'_>,
        keeper: &mut K,
        set: &BlockSet<'_>,
    ) -> Result<Name, AllocError> {
        let mut members = Vec::from_slice(alloc, set.vertices)?;
        members.sort_unstable();
        let sorted = BlockSet {
            centre: set.centre,
            vertices: &members,
            values: set.values,
        };
        set_line(alloc, lines, &mut self.sets, keeper, &sorted)
    }

    ghost lasts = { λ m q w forms more h. made_last q m.problem.now w m.units m.firsts m.rows
        m.sets forms more h };

    ghost wider = { λ m q w v forms wider h. made_wider q m.problem.now w v m.units m.firsts m.rows
        m.sets forms wider h };
}
