//! Laws of embeddings: the whole map is right exactly where each vertex and each pair of vertices is; and which images have to
//! differ, by the kind of the maps.

ghost use Rattle.graph_theory.specs.Embedding.{EmbedsByPairs};
ghost use Rattle.graph_theory.specs.Blocks.{BlockLaws};

/// Which images of pattern vertices have to differ. (The kinds are those of the Glasgow solver: C. McCreesh, P. Prosser, J. Trimble, 2020.)
#[derive(Clone, Copy, PartialEq, Eq)]
pub enum Maps {
    /// Those of any two vertices.
    Injective,
    /// Those of the neighbours of each vertex, in whichever direction their edges go; others may share an image.
    Local,
    /// None: the map is a homomorphism.
    Any,
}

/// A list embeds the pattern exactly where each vertex is allowed by itself and each two vertices go together, so
/// that a problem is a binary constraint problem, beside the order of images that it may ask.
pub fn embeds_by_pairs()
    ensures { EmbedsByPairs }
{}

/// Two vertices have to have two images exactly where they are in one block; and turning all edges round changes no block.
pub fn block_laws()
    ensures { BlockLaws }
{}
