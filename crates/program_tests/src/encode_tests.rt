//! What `encode` answers.

use crate::ends::{Ends, all_end};
use memory_runs::EDGE;
use std::test::Fail;
use test_support::models::{EDGE_INTO_EDGE, LOOP_INTO_TWO, ONE_WAY};

static ENCODED: [Ends; 11] = [
    Ends(
        "subgraph encode p t",
        &[("p", "0\n"), ("t", "0\n")],
        0,
        b"* #variable= 0 #constraint= 0\n",
        "",
        0,
    ),
    Ends(
        "subgraph encode p t",
        &[("p", "1\n0\n"), ("t", "0\n")],
        0,
        b"* #variable= 0 #constraint= 2\n>= 1 ;\n>= -1 ;\n",
        "",
        0,
    ),
    Ends(
        "subgraph encode p t",
        &[("p", "1\n1 0\n"), ("t", "2\n0\n1 1\n")],
        0,
        LOOP_INTO_TWO,
        "",
        0,
    ),
    Ends(
        "subgraph encode p t",
        &[("p", EDGE), ("t", EDGE)],
        0,
        EDGE_INTO_EDGE,
        "",
        0,
    ),
    Ends(
        "subgraph encode p t --format vertexlabelledlad",
        &[("p", "1\n1 0\n"), ("t", "1\n1 0\n")],
        0,
        b"* #variable= 1 #constraint= 3\n+1 x1 >= 1 ;\n-1 x1 >= -1 ;\n-1 x1 >= -1 ;\n",
        "",
        0,
    ),
    Ends(
        "subgraph encode p t --format directedlad",
        &[("p", "2\n1 1\n0\n"), ("t", "2\n1 1\n0\n")],
        0,
        ONE_WAY,
        "",
        0,
    ),
    Ends(
        "subgraph encode --format labelledlad p t",
        &[("p", "1\n5 1 0 7\n"), ("t", "1\n5 1 0 8\n")],
        0,
        b"* #variable= 1 #constraint= 4\n+1 x1 >= 1 ;\n-1 x1 >= -1 ;\n-1 x1 >= -1 ;\n-1 x1 >= 0 ;\n",
        "",
        0,
    ),
    Ends(
        "subgraph encode p t --format labelledlad",
        &[("p", "2\n0 2 1 7 1 8\n0 0\n"), ("t", EDGE)],
        4,
        b"",
        "pattern: word 7: LabelClash\n",
        0,
    ),
    Ends(
        "subgraph encode p t",
        &[("p", "1\nx\n"), ("t", "1\nx\n")],
        4,
        b"",
        "pattern: word 2: NotNumber\n",
        0,
    ),
    Ends(
        "subgraph encode p t --induced",
        &[("p", EDGE), ("t", "1\nx\n")],
        4,
        b"",
        "target: word 2: NotNumber\n",
        0,
    ),
    Ends(
        "subgraph encode p absent",
        &[("p", EDGE), ("t", EDGE)],
        5,
        b"",
        "files: fault\n",
        0,
    ),
];

#[test]
fn each_problem_has_its_text(rt: HostRuntime) -> Result<(), Fail> {
    all_end(&rt, rt.alloc(), &ENCODED)
}
