//! Laws of neighbours: what an embedding keeps of their numbers, by which a search may refuse a value or a pair of
//! values. (Degrees of neighbours: Zampelli, Deville, Solnon 2010; shared neighbours: McCreesh, Prosser 2015.)

ghost use Rattle.graph_theory.specs.NeighbourLaws.{NeighbourLaws};

/// The image of a vertex has room for its neighbours; by injective maps their degrees, in falling order, are nowhere less,
/// and the images of two vertices share as many neighbours at least.
pub fn neighbour_laws()
    ensures { NeighbourLaws }
{}
