//! A graph of the samples.

use super::{FOUR_CYCLE, graph, graph_of_size};
use std::test::Fail;

#[test]
fn a_cycle_has_four_vertices(rt: HostRuntime) -> Result<(), Fail> {
    let cycle = graph(rt.alloc(), FOUR_CYCLE).ok_or("no graph")?;
    assert_eq!(rt; cycle.size(), 4);
    Ok(())
}

#[test]
fn another_size_is_none(rt: HostRuntime) {
    assert!(rt; graph_of_size(rt.alloc(), FOUR_CYCLE, 3).is_none());
}
