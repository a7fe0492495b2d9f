//! What domains are counted together with: working memory, and by local maps the vertices near each vertex.

ghost use Rattle.std.specs.Prelude.{◌≡◌, ℕ, ◌<◌, ◌++◌, List, [], ◌∷◌, if◌then◌else◌, length, map, slice_index_or, IfOk};
ghost use Rattle.graph_theory.specs.Graph.{size};
ghost use Rattle.graph_theory.specs.Neighbours.{is_near, members};
ghost use Rattle.propagation.specs.Propagation.{AreListed, AreNeighbourhoods, IsFor};

use all_different::Scratch;
use graph_rows::near::is_near;
use graph_rows::{Graph, Problem};
use graph_theory::embedding::Maps;
use std::alloc::{AllocError, Global};
use std::marker::Model;

/// The vertices near each vertex, rising, where maps are local; else nothing. Contracts see the lists.
#[derive(Drop)]
pub(crate) struct Neighbourhoods {
    lists: Vec<Vec<u16>>,
}

impl Model for Neighbourhoods {
    ghost use Rattle.std.specs.Prelude.{ℕ, List, map};

    ghost Value = { List (List ℕ) };

    ghost view = { λ n. map (λ us. us.items) n.lists.items };
}

impl Neighbourhoods {
    /// Those of the pattern. Cost: where maps are local one step for each two vertices, else none.
    pub(crate) fn new(alloc: Global, q: &Problem) -> Result<Neighbourhoods, AllocError>
        ensures { IfOk result (λ n. AreNeighbourhoods q.now n) }
    {
        match q.maps() {
            Maps::Injective => Ok(Neighbourhoods::none(alloc)),
            Maps::Local => Neighbourhoods::listed(alloc, q.pattern()),
            Maps::Any => Ok(Neighbourhoods::none(alloc)),
        }
    }

    /// No lists.
    fn none(alloc: Global) -> Neighbourhoods
        ensures { result ≡ [] }
    {
        Neighbourhoods {
            lists: Vec::new(alloc),
        }
    }

    /// The list of each vertex of a graph.
    fn listed(alloc: Global, g: &Graph) -> Result<Neighbourhoods, AllocError>
        ensures { IfOk result (λ n. AreListed g.now n (size g.now)) }
    {
        let mut lists = Vec::new(alloc);
        for c in 0..g.size() {
            let list = list_near(alloc, g, c)?;
            lists.push(list)?;
        }
        Ok(Neighbourhoods { lists })
    }

    /// How many lists there are.
    pub(crate) fn count(&self) -> usize
        ensures { result ≡ length self.now }
    {
        self.lists.len()
    }

    /// The vertices near `c`, rising.
    pub(crate) fn of(&self, c: usize) -> &[u16]
        requires { c < length self.now }
        ensures { result.now ≡ slice_index_or self.now c [] }
    {
        &self.lists[c]
    }
}

/// The vertices near `c`, rising. Cost: one step for each vertex.
fn list_near(alloc: Global, g: &Graph, c: u16) -> Result<Vec<u16>, AllocError>
    requires { c < size g.now }
    ensures { IfOk result (λ us. us.items ≡ members (is_near g.now c) (size g.now)) }
{
    let mut list = Vec::new(alloc);
    for p in 0..g.size() {
        push_near(&mut list, g, c, p)?;
    }
    Ok(list)
}

/// Adds `p`, if it is near `c`.
fn push_near(list: &mut Vec<u16>, g: &Graph, c: u16, p: u16) -> Result<(), AllocError>
    requires c_in { c < size g.now }
    requires p_in { p < size g.now }
    ensures { IfOk result (λ _. list.new.items
        ≡ list.old.items ++ (if is_near g.now c p then p ∷ [] else [])) }
{
    if is_near(g, c, p) {
        list.push(p)?;
    }
    Ok(())
}

/// Memory for counting, and the neighbourhoods that are counted by local maps.
pub(crate) struct CountRoom {
    /// The memory.
    pub(crate) scratch: Scratch,
    /// The neighbourhoods.
    pub(crate) near: Neighbourhoods,
}

impl Drop for CountRoom {
    /// In one call, for whoever lets one go.
    fn drop(self) {
        let CountRoom {
            scratch: _,
            near: _,
        } = self;
    }
}

impl CountRoom {
    /// What the domains of a problem are counted with. Cost: that of `Scratch::new`, and where maps are local one step for each two pattern
    /// vertices.
    pub(crate) fn new(alloc: Global, q: &Problem) -> Result<CountRoom, AllocError>
        ensures memory { IfOk result (λ r. IsFor q.now r.scratch) }
        ensures near { IfOk result (λ r. AreNeighbourhoods q.now r.near) }
    {
        let near = Neighbourhoods::new(alloc, q)?;
        let scratch = Scratch::new(alloc, q.pattern().size(), q.target().size())?;
        Ok(CountRoom { scratch, near })
    }
}
