//! Whole searches for maps that need not be injective, and for images in order.

use crate::search_tests::{End, search_for};
use graph_rows::Problem;
use graph_theory::embedding::Maps;
use std::alloc::{AllocError, Global};
use std::test::Fail;
use test_support::{EDGE, Example, FOUR_CYCLE, PATH, TRIANGLE, all_hold, graph, order_of};

const FIVE_CYCLE: &[u8] = b"5 2 1 4 2 0 2 2 1 3 2 2 4 2 3 0";

const SIX_CYCLE: &[u8] = b"6 2 1 5 2 0 2 2 1 3 2 2 4 2 3 5 2 4 0";

const LONG_PATH: &[u8] = b"4 1 1 2 0 2 2 1 3 1 2";

const LOOP: &[u8] = b"1 1 0";

/// A vertex beside each of three others.
const STAR: &[u8] = b"4 3 1 2 3 1 0 1 0 1 0";

/// Five vertices, each beside each other.
const FIVE_CLIQUE: &[u8] = b"5 4 1 2 3 4 4 0 2 3 4 4 0 1 3 4 4 0 1 2 4 4 0 1 2 3";

/// Eight vertices, each beside each other but those of its pair: four colours are enough, and three are not.
const FOUR_PAIRS: &[u8] =
    b"8 6 2 3 4 5 6 7 6 2 3 4 5 6 7 6 0 1 4 5 6 7 6 0 1 4 5 6 7 6 0 1 2 3 6 7 6 0 1 2 3 6 7 6 0 1 2 3 4 5 6 0 1 2 3 4 5";

/// A search: its pattern and target, which images have to differ, which pairs of vertices are to have theirs in order, and how the run ends.
struct Mapped(
    &'static [u8],
    &'static [u8],
    Maps,
    &'static [(u16, u16)],
    End,
);

impl<R> Example<R> for Mapped {
    fn holds(&self, _rt: &R, alloc: Global) -> Result<bool, AllocError> {
        let Some(pattern) = graph(alloc, self.0) else {
            return Ok(false);
        };
        let Some(target) = graph(alloc, self.1) else {
            return Ok(false);
        };
        let less = order_of(alloc, self.3, pattern.size())?;
        let q = Problem::mapped(pattern, target, self.2).with_less(less);
        Ok(search_for(alloc, &q, 100000, 64)? == self.4)
    }
}

static MAPPED: [Mapped; 20] = [
    // a path into one edge folds, and both its ends are near the middle
    Mapped(PATH, EDGE, Maps::Injective, &[], End::None),
    Mapped(PATH, EDGE, Maps::Local, &[], End::None),
    Mapped(PATH, EDGE, Maps::Any, &[], End::Yes),
    // a cycle of six goes twice round a triangle, one of five does so only folded, and neither into an edge unless it is even
    Mapped(SIX_CYCLE, TRIANGLE, Maps::Injective, &[], End::None),
    Mapped(SIX_CYCLE, TRIANGLE, Maps::Local, &[], End::Yes),
    Mapped(SIX_CYCLE, EDGE, Maps::Any, &[], End::Yes),
    Mapped(FIVE_CYCLE, TRIANGLE, Maps::Local, &[], End::None),
    Mapped(FIVE_CYCLE, TRIANGLE, Maps::Any, &[], End::Yes),
    Mapped(FIVE_CYCLE, EDGE, Maps::Any, &[], End::None),
    Mapped(FOUR_CYCLE, TRIANGLE, Maps::Local, &[], End::None),
    Mapped(FOUR_CYCLE, TRIANGLE, Maps::Any, &[], End::Yes),
    // a loop takes neighbours, where they may share it
    Mapped(TRIANGLE, LOOP, Maps::Any, &[], End::Yes),
    Mapped(TRIANGLE, LOOP, Maps::Local, &[], End::None),
    Mapped(EDGE, LOOP, Maps::Local, &[], End::Yes),
    Mapped(EDGE, LOOP, Maps::Injective, &[], End::None),
    // the neighbours of a vertex need places
    Mapped(STAR, TRIANGLE, Maps::Local, &[], End::None),
    Mapped(STAR, TRIANGLE, Maps::Any, &[], End::Yes),
    Mapped(STAR, FIVE_CLIQUE, Maps::Local, &[], End::Yes),
    // five vertices beside each other need five colours
    Mapped(FIVE_CLIQUE, FOUR_PAIRS, Maps::Local, &[], End::None),
    Mapped(FIVE_CLIQUE, FOUR_PAIRS, Maps::Any, &[], End::None),
];

#[test]
fn maps_of_each_kind_are_found_or_refuted(rt: HostRuntime) -> Result<(), Fail> {
    all_hold(&rt, rt.alloc(), &MAPPED)
}

static IN_ORDER: [Mapped; 10] = [
    Mapped(
        TRIANGLE,
        TRIANGLE,
        Maps::Injective,
        &[(0, 1), (1, 2)],
        End::Yes,
    ),
    Mapped(
        TRIANGLE,
        TRIANGLE,
        Maps::Injective,
        &[(0, 1), (1, 2), (2, 0)],
        End::None,
    ),
    Mapped(PATH, PATH, Maps::Injective, &[(2, 0)], End::Yes),
    // the middle of a path is above one end at most
    Mapped(PATH, PATH, Maps::Injective, &[(0, 1), (2, 1)], End::None),
    Mapped(
        LONG_PATH,
        LONG_PATH,
        Maps::Injective,
        &[(0, 1), (1, 2), (2, 3)],
        End::Yes,
    ),
    Mapped(LONG_PATH, EDGE, Maps::Any, &[(0, 1), (2, 3)], End::Yes),
    Mapped(LONG_PATH, EDGE, Maps::Any, &[(0, 1), (1, 2)], End::None),
    // twice round a triangle, opposite vertices have one image
    Mapped(SIX_CYCLE, TRIANGLE, Maps::Local, &[(0, 3)], End::None),
    Mapped(
        SIX_CYCLE,
        TRIANGLE,
        Maps::Local,
        &[(0, 1), (3, 4)],
        End::Yes,
    ),
    Mapped(
        PATH,
        FIVE_CLIQUE,
        Maps::Injective,
        &[(0, 1), (1, 2)],
        End::Yes,
    ),
];

#[test]
fn images_are_found_in_order_or_refuted(rt: HostRuntime) -> Result<(), Fail> {
    all_hold(&rt, rt.alloc(), &IN_ORDER)
}
