//! Maps that need not be injective, and images in order.

use crate::ends::{Ends, all_end};
use memory_runs::{EDGE, FOUR_CYCLE, TRIANGLE};
use std::test::Fail;

/// A path of three vertices, and an edge.
const PATH_INTO_EDGE: &[(&str, &str)] = &[("p", "3\n1 1\n2 0 2\n1 1\n"), ("t", EDGE)];

/// A cycle of six vertices, and a triangle.
const SIX_INTO_THREE: &[(&str, &str)] = &[
    ("p", "6\n2 1 5\n2 0 2\n2 1 3\n2 2 4\n2 3 5\n2 4 0\n"),
    ("t", TRIANGLE),
];

/// A triangle, and a vertex with a loop.
const TRIANGLE_INTO_LOOP: &[(&str, &str)] = &[("p", TRIANGLE), ("t", "1\n1 0\n")];

/// An edge, and an edge.
const EDGE_INTO_EDGE: &[(&str, &str)] = &[("p", EDGE), ("t", EDGE)];

/// An edge, and a text that is no graph.
const EDGE_INTO_NONE: &[(&str, &str)] = &[("p", EDGE), ("t", "1\nx\n")];

/// An edge, an edge, and a mapping of the one into the other.
const MAPPED: &[(&str, &str)] = &[("p", EDGE), ("t", EDGE), ("m", "yes\n0 -> 0\n1 -> 1\n")];

/// What is told of words that are no command.
const NO_COMMAND: &str = "words: not a command\n";

static MAPS: [Ends; 12] = [
    Ends("subgraph solve p t", PATH_INTO_EDGE, 1, b"none\n", "", 0),
    Ends(
        "subgraph solve p t --map local",
        PATH_INTO_EDGE,
        1,
        b"none\n",
        "",
        0,
    ),
    Ends(
        "subgraph solve p t --map injective",
        SIX_INTO_THREE,
        1,
        b"none\n",
        "",
        0,
    ),
    Ends(
        "subgraph solve p t --map local",
        &[("p", FOUR_CYCLE), ("t", TRIANGLE)],
        1,
        b"none\n",
        "",
        0,
    ),
    Ends(
        "subgraph solve p t --map any",
        TRIANGLE_INTO_LOOP,
        0,
        b"yes\n0 -> 0\n1 -> 0\n2 -> 0\n",
        "",
        0,
    ),
    Ends(
        "subgraph solve p t --map local",
        TRIANGLE_INTO_LOOP,
        1,
        b"none\n",
        "",
        0,
    ),
    Ends(
        "subgraph encode p t --map any",
        &[("p", EDGE), ("t", "1\n1 0\n")],
        0,
        b"* #variable= 2 #constraint= 6
+1 x1 >= 1 ;
-1 x1 >= -1 ;
+1 x2 >= 1 ;
-1 x2 >= -1 ;
-1 x1 +1 x2 >= 0 ;
+1 x1 -1 x2 >= 0 ;
",
        "",
        0,
    ),
    Ends(
        "subgraph encode p t --map local",
        PATH_INTO_EDGE,
        0,
        b"* #variable= 6 #constraint= 16
+1 x1 +1 x2 >= 1 ;
-1 x1 -1 x2 >= -1 ;
+1 x3 +1 x4 >= 1 ;
-1 x3 -1 x4 >= -1 ;
+1 x5 +1 x6 >= 1 ;
-1 x5 -1 x6 >= -1 ;
-1 x1 -1 x5 >= -1 ;
-1 x2 -1 x6 >= -1 ;
-1 x1 +1 x4 >= 0 ;
-1 x2 +1 x3 >= 0 ;
+1 x2 -1 x3 >= 0 ;
+1 x1 -1 x4 >= 0 ;
-1 x3 +1 x6 >= 0 ;
-1 x4 +1 x5 >= 0 ;
+1 x4 -1 x5 >= 0 ;
+1 x3 -1 x6 >= 0 ;
",
        "",
        0,
    ),
    Ends(
        "subgraph verify p t m --map any",
        &[
            ("p", "3\n1 1\n2 0 2\n1 1\n"),
            ("t", EDGE),
            ("m", "yes\n0 -> 0\n1 -> 1\n2 -> 0\n"),
        ],
        0,
        b"embedding\n",
        "",
        0,
    ),
    Ends(
        "subgraph verify p t m --map local",
        &[
            ("p", "3\n1 1\n2 0 2\n1 1\n"),
            ("t", EDGE),
            ("m", "yes\n0 -> 0\n1 -> 1\n2 -> 0\n"),
        ],
        7,
        b"",
        "mapping: not an embedding\n",
        0,
    ),
    Ends(
        "subgraph solve p t --map local --induced",
        PATH_INTO_EDGE,
        3,
        b"",
        NO_COMMAND,
        0,
    ),
    Ends(
        "subgraph verify p t m --induced --map any",
        MAPPED,
        3,
        b"",
        NO_COMMAND,
        0,
    ),
];

#[test]
fn each_kind_of_maps_has_its_answer(rt: HostRuntime) -> Result<(), Fail> {
    all_end(&rt, rt.alloc(), &MAPS)
}

static ORDERS: [Ends; 14] = [
    Ends(
        "subgraph solve p t --less 0,1",
        EDGE_INTO_EDGE,
        0,
        b"yes\n0 -> 0\n1 -> 1\n",
        "",
        0,
    ),
    Ends(
        "subgraph solve p t --less 1,0",
        EDGE_INTO_EDGE,
        0,
        b"yes\n0 -> 1\n1 -> 0\n",
        "",
        0,
    ),
    Ends(
        "subgraph solve p t --less 0,1:1,0",
        EDGE_INTO_EDGE,
        1,
        b"none\n",
        "",
        0,
    ),
    Ends(
        "subgraph verify p t m --less 1,0",
        MAPPED,
        7,
        b"",
        "mapping: not an embedding\n",
        0,
    ),
    Ends(
        "subgraph verify p t m --less 0,1",
        MAPPED,
        0,
        b"embedding\n",
        "",
        0,
    ),
    Ends(
        "subgraph encode p t --less 0,1",
        EDGE_INTO_EDGE,
        0,
        b"* #variable= 4 #constraint= 14
+1 x1 +1 x2 >= 1 ;
-1 x1 -1 x2 >= -1 ;
+1 x3 +1 x4 >= 1 ;
-1 x3 -1 x4 >= -1 ;
-1 x1 -1 x3 >= -1 ;
-1 x2 -1 x4 >= -1 ;
-1 x1 +1 x4 >= 0 ;
-1 x2 +1 x3 >= 0 ;
+1 x2 -1 x3 >= 0 ;
+1 x1 -1 x4 >= 0 ;
-1 x1 +1 x4 >= 0 ;
-1 x2 >= 0 ;
-1 x3 >= 0 ;
+1 x1 -1 x4 >= 0 ;
",
        "",
        0,
    ),
    Ends(
        "subgraph solve p t --less 0,2",
        EDGE_INTO_EDGE,
        4,
        b"",
        "less: pair 1: NoSuchVertex\n",
        0,
    ),
    // the pairs are looked at before the target is loaded, and the pattern before them
    Ends(
        "subgraph encode p t --less 0,1:4294967295,0:7,7000",
        EDGE_INTO_NONE,
        4,
        b"",
        "less: pair 2: NoSuchVertex\n",
        0,
    ),
    Ends(
        "subgraph verify p absent m --less 2,0",
        MAPPED,
        4,
        b"",
        "less: pair 1: NoSuchVertex\n",
        0,
    ),
    Ends(
        "subgraph solve t p --less 0,2",
        EDGE_INTO_NONE,
        4,
        b"",
        "pattern: word 2: NotNumber\n",
        0,
    ),
    Ends(
        "subgraph solve p t --less 0,1",
        EDGE_INTO_NONE,
        4,
        b"",
        "target: word 2: NotNumber\n",
        0,
    ),
    Ends(
        "subgraph solve p t --less 0,0",
        EDGE_INTO_EDGE,
        3,
        b"",
        NO_COMMAND,
        0,
    ),
    Ends(
        "subgraph solve p t --less 0",
        EDGE_INTO_EDGE,
        3,
        b"",
        NO_COMMAND,
        0,
    ),
    Ends(
        "subgraph encode p t --less 0,1 --less 1,0",
        EDGE_INTO_EDGE,
        3,
        b"",
        NO_COMMAND,
        0,
    ),
];

#[test]
fn each_order_has_its_answer(rt: HostRuntime) -> Result<(), Fail> {
    all_end(&rt, rt.alloc(), &ORDERS)
}
