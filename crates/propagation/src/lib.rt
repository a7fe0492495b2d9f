//! Propagation: it removes values that no embedding within the domains has.
//!
//! It removes what is inconsistent with a decided vertex, what nogoods force out, what is out of the order of images, and what the
//! domains of a block, counted together, leave no room for. It also removes what has no support along edges or, by injective maps, would
//! crowd neighbours. It tells a recorder the cause of each removal.
//!
//! It keeps `Filters`: rows of consistent values, nogoods with their watches, and working memory. The domains are the
//! caller's, who also undoes them. It offers `propagate` and `propagate_again`, which leave the domains at rest or say why
//! they hold no embedding, and the single steps `narrow`, `narrow_first`, `give` and `lower`.
//!
//! Bit rows are those of Ullmann (2010), counting is that of McCreesh and Prosser (2015), and arc consistency that of
//! Mackworth (1977). Neighbours are matched after Solnon (2010). Nogoods are those of Lecoutre, Sais, Tabary and Vidal
//! (2007). A decided vertex costs at most one row of words for each other vertex, the values that leave, and a look at the
//! nogoods that watch it. Looks along edges stop at a credit, which grows with what the search costs.
#![tactic(auto)]

mod along_edges;
mod blocks;
mod count_room;
mod counting;
mod crowding;
mod edge_room;
mod edges;
mod filters;
mod match_room;
mod matching;
mod nogoods;
mod order;
mod propagation;
mod removal;
mod shared;

// What follows from domains.
pub use filters::Filters;
pub use nogoods::Nogoods;
pub use propagation::{propagate, propagate_again};

// Single steps of the layer above.
pub use counting::lower;
pub use removal::{give, narrow, narrow_first};
