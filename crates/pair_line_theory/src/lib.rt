//! The lines of a log for a pair of pattern vertices, in constraints of the encoding of their problem.
//!
//! Where a vertex is at one place, each other vertex loses the values that do not go together with this: those that are not compatible, and
//! those that share too few neighbours with the place. For each pair of vertices and each place one constraint forces
//! all of them, so that a log names one line for it, whatever the number of values. Where shared neighbours are asked for, the line counts them: each shared
//! neighbour is at a neighbour of the place, and wherever it is the other vertex is beside it. Edges have directions and labels: what is said of
//! those that lead out of vertices is said of those that lead in by the lines of the reversed problem, since both have one encoding. (Gocht, McCreesh,
//! Nordström, "Subgraph isomorphism meets cutting planes", 2020, derive these counts by cutting planes, one value at a time.)
#![tactic(auto)]

ghost use Rattle.graph_theory.specs.Embedding.{Problem};
ghost use Rattle.pair_line_theory.specs.Laws.{InLimits, RowLaws};

/// What the lines for a pair of vertices force, which operations make them, and that their coefficients stay small.
pub fn row_laws()
    ensures { (q : Problem) → InLimits q → RowLaws q }
{}
