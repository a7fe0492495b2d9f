//! The search for small problems: worked cases, and random problems held against all maps.

use graph_rows::Problem;
use graph_theory::embedding::Maps;
use lad_reader::LadKind;
use small_search::{SmallAnswer, search_small};
use std::alloc::{AllocError, Global};
use std::test::Fail;
use test_support::{
    APART, EDGE, Example, FOUR_CYCLE, PATH, TRIANGLE, all_hold, graph_in, order_of,
};

const PLAIN: LadKind = LadKind::Lad;

const DIRECTED: LadKind = LadKind::DirectedLad;

const LABELLED: LadKind = LadKind::LabelledLad;

const LOOP: &[u8] = b"1 1 0";

/// An edge from 0 to 1.
const ONE_WAY: &[u8] = b"2 1 1 0";

/// Edges from 0 to 1 and from 1 to 2.
const CHAIN: &[u8] = b"3 1 1 1 2 0";

/// Edges from 0 to 1 and 2.
const FORK: &[u8] = b"3 2 1 2 0 0";

/// Vertices of labels 6 and 8, with an edge of label 2 from the first to the second.
const DOUBLE: &[u8] = b"2 6 1 1 2 8 0";

/// The same with an edge of label 1.
const SINGLE: &[u8] = b"2 6 1 1 1 8 0";

/// Vertices of labels 8, 6 and 8, with edges of label 1 and 2 from the second to the others.
const BOTH: &[u8] = b"3 8 0 6 2 0 1 2 2 8 0";

/// How a search ends.
#[derive(Clone, Copy, PartialEq, Eq)]
enum End {
    Yes,
    None,
    Open,
}

/// How the search of the problem ends by so many steps; none where it answers with a map that is no embedding.
fn end_of(alloc: Global, q: &Problem, most: u32) -> Option<End> {
    match search_small(alloc, q, most) {
        SmallAnswer::Yes(map) => {
            if q.is_embedding(&map) {
                Some(End::Yes)
            } else {
                None
            }
        }
        SmallAnswer::NoEmbedding => Some(End::None),
        SmallAnswer::Open => Some(End::Open),
    }
}

/// The problem of two texts, of induced copies or of maps of a kind; none where a text is no graph's.
fn problem_of(
    alloc: Global,
    kind: LadKind,
    pattern: &[u8],
    target: &[u8],
    induced: bool,
    maps: Maps,
) -> Option<Problem> {
    let pattern = graph_in(alloc, pattern, kind)?;
    let target = graph_in(alloc, target, kind)?;
    if induced {
        Some(Problem::new(pattern, target, true))
    } else {
        Some(Problem::mapped(pattern, target, maps))
    }
}

/// The kind and the texts of a pattern and a target, whether copies are induced, and how the search ends.
struct Small(LadKind, &'static [u8], &'static [u8], bool, End);

impl<R> Example<R> for Small {
    fn holds(&self, _rt: &R, alloc: Global) -> Result<bool, AllocError> {
        let Some(q) = problem_of(alloc, self.0, self.1, self.2, self.3, Maps::Injective) else {
            return Ok(false);
        };
        Ok(end_of(alloc, &q, 100) == Some(self.4))
    }
}

static SMALL: [Small; 22] = [
    Small(PLAIN, PATH, TRIANGLE, false, End::Yes),
    Small(PLAIN, PATH, TRIANGLE, true, End::None),
    Small(PLAIN, PATH, FOUR_CYCLE, true, End::Yes),
    Small(PLAIN, TRIANGLE, FOUR_CYCLE, false, End::None),
    Small(PLAIN, TRIANGLE, PATH, false, End::None),
    Small(PLAIN, APART, EDGE, false, End::Yes),
    Small(PLAIN, APART, EDGE, true, End::None),
    // the pattern without vertices, and a target without any
    Small(PLAIN, b"0", EDGE, false, End::Yes),
    Small(PLAIN, EDGE, b"0", false, End::Open),
    // loops
    Small(PLAIN, LOOP, EDGE, false, End::None),
    Small(PLAIN, LOOP, LOOP, false, End::Yes),
    Small(PLAIN, b"1 0", LOOP, false, End::Yes),
    Small(PLAIN, b"1 0", LOOP, true, End::None),
    // directions
    Small(DIRECTED, ONE_WAY, CHAIN, false, End::Yes),
    Small(DIRECTED, CHAIN, FORK, false, End::None),
    Small(DIRECTED, FORK, CHAIN, false, End::None),
    Small(DIRECTED, CHAIN, CHAIN, true, End::Yes),
    // labels of vertices and of edges
    Small(LABELLED, DOUBLE, DOUBLE, false, End::Yes),
    Small(LABELLED, DOUBLE, SINGLE, false, End::None),
    Small(LABELLED, DOUBLE, BOTH, false, End::Yes),
    Small(LABELLED, SINGLE, BOTH, true, End::Yes),
    Small(LABELLED, b"1 7 0", BOTH, false, End::None),
];

#[test]
fn small_problems_are_decided(rt: HostRuntime) -> Result<(), Fail> {
    all_hold(&rt, rt.alloc(), &SMALL)
}

/// The texts of a pattern and a target, the kind of the maps, the steps, and how the search ends.
struct Mapped(&'static [u8], &'static [u8], Maps, u32, End);

impl<R> Example<R> for Mapped {
    fn holds(&self, _rt: &R, alloc: Global) -> Result<bool, AllocError> {
        let Some(q) = problem_of(alloc, PLAIN, self.0, self.1, false, self.2) else {
            return Ok(false);
        };
        Ok(end_of(alloc, &q, self.3) == Some(self.4))
    }
}

static MAPPED: [Mapped; 8] = [
    // a path into one edge folds, and both its ends are near the middle
    Mapped(PATH, EDGE, Maps::Any, 100, End::Yes),
    Mapped(PATH, EDGE, Maps::Local, 100, End::None),
    Mapped(PATH, EDGE, Maps::Injective, 100, End::None),
    Mapped(TRIANGLE, EDGE, Maps::Any, 100, End::None),
    // a step for each vertex is enough where the first value is right
    Mapped(TRIANGLE, TRIANGLE, Maps::Injective, 3, End::Yes),
    Mapped(TRIANGLE, TRIANGLE, Maps::Injective, 2, End::Open),
    Mapped(TRIANGLE, TRIANGLE, Maps::Injective, 0, End::Open),
    Mapped(b"0", TRIANGLE, Maps::Injective, 0, End::Yes),
];

#[test]
fn maps_of_each_kind_are_found_by_the_steps_that_they_take(rt: HostRuntime) -> Result<(), Fail> {
    all_hold(&rt, rt.alloc(), &MAPPED)
}

/// An order of images is left open.
fn order_is_open(alloc: Global) -> Result<bool, AllocError> {
    let Some(q) = problem_of(alloc, PLAIN, EDGE, EDGE, false, Maps::Injective) else {
        return Ok(false);
    };
    let less = order_of(alloc, &[(0, 1)], q.pattern().size())?;
    Ok(end_of(alloc, &q.with_less(less), 100) == Some(End::Open))
}

#[test]
fn an_order_of_images_is_left_open(rt: HostRuntime) -> Result<(), Fail> {
    if order_is_open(rt.alloc())? {
        Ok(())
    } else {
        Err(Fail::new(format_args!("it is not")))
    }
}

/// The vertices of a random pattern.
const FEW: usize = 3;

/// The vertices of a random target.
const MANY: usize = 5;

/// The next number of a sequence of words. (G. Marsaglia, "Xorshift RNGs", 2003.)
fn next_word(word: u64) -> u64 {
    let first = word ^ (word << 13);
    let second = first ^ (first >> 7);
    second ^ (second << 17)
}

/// Puts a digit and a blank.
fn put(text: &mut Vec<u8>, digit: u8) -> Result<(), AllocError> {
    text.push(b'0' + digit % 10)?;
    text.push(b' ')?;
    Ok(())
}

/// Puts a vertex: its label, and for each of so many vertices whether an edge leads there, and with which label, by the
/// bits of a word.
fn put_vertex(text: &mut Vec<u8>, vertices: usize, word: u64) -> Result<(), AllocError> {
    let listed = (word >> 8) & ((1 << (vertices % 8)) - 1);
    put(text, ((word >> 60) & 1) as u8)?;
    put(text, listed.count_ones() as u8)?;
    for b in 0..vertices.min(8) {
        if (listed >> b) & 1 == 1 {
            put(text, b as u8)?;
            put(text, ((word >> (32 + b)) & 1) as u8)?;
        }
    }
    Ok(())
}

/// A random text of so many vertices, whose edges and labels the words behind `seed` tell.
fn random_text(alloc: Global, seed: u64, vertices: usize) -> Result<Vec<u8>, AllocError> {
    let mut text = Vec::new(alloc);
    let mut word = seed;
    put(&mut text, (vertices % 10) as u8)?;
    for _ in 0..vertices {
        word = next_word(next_word(word));
        put_vertex(&mut text, vertices, word)?;
    }
    Ok(text)
}

/// Whether some map of the few vertices embeds.
fn has_embedding(q: &Problem) -> bool {
    for a in 0..MANY as u32 {
        for b in 0..MANY as u32 {
            for c in 0..MANY as u32 {
                if q.is_embedding(&[a, b, c]) {
                    return true;
                }
            }
        }
    }
    false
}

/// Whether the search decides the random problem of a seed as all maps do.
fn agrees(alloc: Global, seed: u64) -> Result<bool, AllocError> {
    let pattern = random_text(alloc, seed, FEW)?;
    let target = random_text(alloc, next_word(seed), MANY)?;
    let maps = match seed % 3 {
        0 => Maps::Injective,
        1 => Maps::Local,
        _ => Maps::Any,
    };
    let induced = seed % 4 == 0;
    let Some(q) = problem_of(alloc, LABELLED, &pattern, &target, induced, maps) else {
        return Ok(false);
    };
    let expected = if has_embedding(&q) {
        End::Yes
    } else {
        End::None
    };
    Ok(end_of(alloc, &q, 1000) == Some(expected))
}

/// The first of so many seeds whose problem is decided in another way than all maps tell, if there is one.
fn first_other(alloc: Global, seeds: u64) -> Result<Option<u64>, AllocError> {
    let mut seed = 88172645463325252;
    for at in 0..seeds {
        seed = next_word(seed);
        if !agrees(alloc, seed)? {
            return Ok(Some(at));
        }
    }
    Ok(None)
}

#[test]
fn random_problems_are_decided_as_all_maps_tell(rt: HostRuntime) -> Result<(), Fail> {
    match first_other(rt.alloc(), 2000)? {
        None => Ok(()),
        Some(at) => Err(Fail::new(format_args!("problem {at} is not"))),
    }
}
