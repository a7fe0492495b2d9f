//! What the pseudo-Boolean encoding of a problem is and says: where the graph side and the proof side meet.
//!
//! A problem becomes a list of linear forms over one 0/1 variable for each pattern vertex and target vertex. (Gocht,
//! McCreesh, Nordström, "Subgraph isomorphism meets cutting planes", IJCAI 2020; the order of the forms is this project's.)
//! This layer holds the definition, the place of each form in the list, the 0/1 list of a map, and the law on which every
//! log rests: the solutions are exactly the lists of the embeddings. It knows nothing of how constraints or graphs are
//! kept. The layers above cite its definitions in their contracts and take its laws from functions with empty bodies.
#![tactic(auto)]

ghost use Rattle.graph_theory.specs.Embedding.{Problem};
ghost use Rattle.graph_theory.specs.Graph.{size};
ghost use Rattle.graph_theory.specs.Plain.{IsPlain};
ghost use Rattle.encoding_theory.specs.Pairs.{TestLaws, PlainLaws};
ghost use Rattle.encoding_theory.specs.Places.{PlaceLaws};
ghost use Rattle.encoding_theory.specs.Reversal.{ReversedEncoding};
ghost use Rattle.encoding_theory.specs.Solutions.{SolutionLaws};

/// A 0/1 list satisfies the encoding exactly where it is the list of a map that embeds. So a checker that finds the
/// encoding unsatisfiable has shown that no embedding exists.
pub fn solutions_are_embeddings()
    ensures { SolutionLaws }
{}

/// Each form stands at the place that is counted for it.
pub fn forms_stand_in_place()
    ensures { (q : Problem) → PlaceLaws q }
{}

/// The tests that the groups of the encoding go by are those of a binary constraint problem.
pub fn tests_are_exact()
    ensures { TestLaws }
{}

/// On graphs without directions and labels of edges the tests are about neighbours alone.
pub fn tests_on_plain_graphs()
    ensures { (q : Problem) → IsPlain q.pattern → IsPlain q.target → PlainLaws q }
{}

/// A problem and its reversed problem have one encoding, with the same forms in the same places. So a line of a log that is made
/// for the edges out of vertices serves for those that lead in.
pub fn reversed_encoding()
    ensures { (q : Problem) → ReversedEncoding q }
{}
