//! The two problems.

ghost use Rattle.graph_theory.specs.Plain.{ArePlain};
ghost use Rattle.std.specs.Prelude.{◌≡◌, ℕ, ◌<◌, ◌≤◌, IfOk, length, slice_index};
ghost use Rattle.graph_theory.specs.Graph.{size as size_of};
ghost use Rattle.demo_instances.specs.SeedProblems.{pair_place, planted_pair, part_pair, sides_pair, next_pair, IsPlanted, IsCycle};

use crate::chosen::chosen;
use crate::making::{Pairs, graph_by};
use crate::words::Words;
use graph_rows::{Graph, Problem};
use std::alloc::{AllocError, Global};

/// The pairs of the planted target.
#[derive(Drop)]
struct PlantedTarget<'a> {
    words: &'a Words,
}

impl Pairs for PlantedTarget<'_> {
    ghost use Rattle.demo_instances.specs.SeedProblems.{planted_pair};

    ghost size = { λ _. 150 };

    ghost pair = { λ s. planted_pair s.words.now };

    ghost good = { λ _. Unit {0} };

    fn has(&self, a: usize, b: usize) -> bool {
        a < b && self.words.word(place_of(a, b)) % 10 < 4
    }
}

/// Where two of 150 vertices stand among all pairs in order.
fn place_of(a: usize, b: usize) -> usize
    requires order { a < b }
    requires few { b < 150 }
    ensures place { result ≡ pair_place a b }
    ensures few { result < 11175 }
{
    a * (299 - a) / 2 + (b - a - 1)
}

/// The pairs of the planted pattern.
#[derive(Drop)]
struct PlantedPattern<'a> {
    target: &'a Graph,
    chosen: &'a [u32],
}

impl Pairs for PlantedPattern<'_> {
    ghost use Rattle.std.specs.Prelude.{◌≡◌, ◌<◌, length, slice_index};
    ghost use Rattle.graph_theory.specs.Graph.{size as size_of};
    ghost use Rattle.demo_instances.specs.SeedProblems.{part_pair};

    ghost size = { λ _. 10 };

    ghost pair = { λ s. part_pair s.target.now s.chosen.now };

    ghost good = { λ s. (length s.chosen.now ≡ 10)
        × ((p : ℕ) → p < 10 → slice_index s.chosen.now p < size_of s.target.now) };

    fn has(&self, a: usize, b: usize) -> bool {
        let _few = self.target.size();
        self.target
            .has_edge(self.chosen[a] as u16, self.chosen[b] as u16)
    }
}

/// The pairs of the cycle's target.
#[derive(Drop)]
struct CycleTarget<'a> {
    words: &'a Words,
}

impl Pairs for CycleTarget<'_> {
    ghost use Rattle.demo_instances.specs.SeedProblems.{sides_pair};

    ghost size = { λ _. 60 };

    ghost pair = { λ s. sides_pair s.words.now };

    ghost good = { λ _. Unit {0} };

    fn has(&self, a: usize, b: usize) -> bool {
        a < 30 && b >= 30 && self.words.word(11_185 + a * 30 + (b - 30)) % 3 == 0
    }
}

/// The pairs of the cycle of five.
#[derive(Drop)]
struct CyclePattern;

impl Pairs for CyclePattern {
    ghost use Rattle.demo_instances.specs.SeedProblems.{next_pair};

    ghost size = { λ _. 5 };

    ghost pair = { λ _. next_pair };

    ghost good = { λ _. Unit {0} };

    fn has(&self, a: usize, b: usize) -> bool {
        b == (a + 1) % 5
    }
}

/// The planted problem of a seed.
pub fn planted_problem(alloc: Global, words: &Words) -> Result<Problem, AllocError>
    ensures planted { IfOk result (IsPlanted words.now) }
    ensures plain { IfOk result ArePlain }
{
    let target = graph_by(alloc, &PlantedTarget { words }, 150)?;
    let chosen = chosen(alloc, words)?;
    let pattern = graph_by(
        alloc,
        &PlantedPattern {
            target: &target,
            chosen: &chosen,
        },
        10,
    )?;
    Ok(Problem::new(pattern, target, true))
}

/// The cycle's problem of a seed.
pub fn cycle_problem(alloc: Global, words: &Words) -> Result<Problem, AllocError>
    ensures cycle { IfOk result (IsCycle words.now) }
    ensures plain { IfOk result ArePlain }
{
    let target = graph_by(alloc, &CycleTarget { words }, 60)?;
    let pattern = graph_by(alloc, &CyclePattern, 5)?;
    Ok(Problem::new(pattern, target, false))
}
