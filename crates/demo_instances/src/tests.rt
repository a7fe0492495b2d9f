//! Problems of seeds that another program has made.

use crate::{Words, cycle_problem, planted_problem};
use graph_rows::Graph;
use std::test::Fail;

/// How many ends of edges there are at other vertices.
fn ends(g: &Graph) -> u32 {
    let mut sum: u32 = 0;
    for a in 0..g.size() {
        sum = sum.saturating_add(u32::from(g.degree(a)));
    }
    sum
}

/// Seeds, and how many edges the planted target, the planted pattern and the cycle's target have.
static ROWS: [(u64, u32, u32, u32); 3] = [
    (0, 4521, 21, 314),
    (7, 4452, 18, 287),
    (18_446_744_073_709_551_615, 4470, 18, 284),
];

#[test]
fn seeds_make_these_problems(rt: HostRuntime) -> Result<(), Fail> {
    for (seed, target, pattern, sides) in ROWS {
        let words = Words::new(rt.alloc(), seed)?;
        let planted = planted_problem(rt.alloc(), &words)?;
        let cycle = cycle_problem(rt.alloc(), &words)?;
        assert_eq!(rt; ends(planted.target()) / 2, target, "{seed}");
        assert_eq!(rt; ends(planted.pattern()) / 2, pattern, "{seed}");
        assert_eq!(rt; ends(cycle.target()) / 2, sides, "{seed}");
        assert_eq!(rt; ends(cycle.pattern()) / 2, 5, "{seed}");
    }
    Ok(())
}
