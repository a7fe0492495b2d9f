//! The law of graphs without directions and without labels of edges.

ghost use Rattle.graph_theory.specs.Plain.{UndirectedIsPlain};

/// In the graph of a text without directions each edge stands both ways, with label 0.
pub fn undirected_is_plain()
    ensures { UndirectedIsPlain }
{}
