//! Domains of a few values.

ghost use Rattle.std.specs.Prelude.{◌≡◌, length};

use domain_bits::{
    Domains, Mark, PairTrail, Trail, WordTrail, and_into, and_not_into, count_ones, or_into,
};
use std::alloc::{AllocError, Global};
use std::test::Fail;
use test_support::{Example, all_hold};

/// What is done to domains, or found of them.
enum Act {
    /// A value leaves a domain, or was not there.
    Removes(u16, u16, bool),
    /// A vertex goes to a value.
    Assigns(u16, u16),
    /// A domain loses what a row lacks.
    Meets(u16, &'static [u64]),
    /// What has left since the mark comes back.
    Undoes,
    /// A domain has a value.
    Has(u16, u16),
    /// A domain has so many values.
    Sizes(u16, u16),
    /// A domain has this value alone, or not one value alone.
    Only(u16, Option<u16>),
    /// A domain is this row.
    Is(u16, &'static [u64]),
}

/// Whether there is such a value, and it leaves the domain or was not there, as told.
fn removes<T: Trail>(domains: &mut Domains<T>, p: u16, t: u16, was_there: bool) -> bool {
    p < domains.vertices() && t < domains.values() && domains.remove(p, t) == was_there
}

/// Whether there is such a value, and the domain has it.
fn has<T: Trail>(domains: &Domains<T>, p: u16, t: u16) -> bool {
    p < domains.vertices() && t < domains.values() && domains.has(p, t)
}

/// Whether the vertex could go to the value.
fn assigns<T: Trail>(domains: &mut Domains<T>, p: u16, t: u16) -> bool {
    if p >= domains.vertices() || t >= domains.values() || !domains.has(p, t) {
        return false;
    }
    domains.assign(p, t);
    true
}

/// Whether the row is one of as many values as domains have.
fn meets<T: Trail>(domains: &mut Domains<T>, p: u16, row: &[u64]) -> bool {
    if p >= domains.vertices() || row.len() != domains.row(p).len() {
        return false;
    }
    domains.intersect(p, row);
    true
}

/// Whether no less has left than at the mark.
fn undoes<T: Trail>(domains: &mut Domains<T>, mark: Mark) -> bool {
    if domains.mark().is_before(mark) {
        return false;
    }
    domains.undo_to(mark);
    true
}

impl Act {
    /// Whether it can be done, or is so.
    fn holds<T: Trail>(&self, domains: &mut Domains<T>, mark: Mark) -> bool {
        match *self {
            Act::Removes(p, t, was_there) => removes(domains, p, t, was_there),
            Act::Assigns(p, t) => assigns(domains, p, t),
            Act::Meets(p, row) => meets(domains, p, row),
            Act::Undoes => undoes(domains, mark),
            Act::Has(p, t) => has(domains, p, t),
            Act::Sizes(p, size) => p < domains.vertices() && domains.size(p) == size,
            Act::Only(p, value) => p < domains.vertices() && domains.only(p) == value,
            Act::Is(p, row) => p < domains.vertices() && domains.row(p) == row,
        }
    }
}

/// Whether one after the other holds, and what is undone is undone to this mark.
fn hold<T: Trail>(domains: &mut Domains<T>, mark: Mark, acts: &[Act]) -> bool {
    for act in acts {
        if !act.holds(domains, mark) {
            return false;
        }
    }
    true
}

/// Acts on domains of two vertices: how many values they have, what comes before a mark, what comes after it until a copy is made,
/// what comes then, and what comes of the copy.
struct Life {
    values: u16,
    first: &'static [Act],
    then: &'static [Act],
    last: &'static [Act],
    of_copy: &'static [Act],
}

/// Whether all holds of these domains, and of their copy.
fn hold_all<T: Trail>(
    alloc: Global,
    domains: &mut Domains<T>,
    life: &Life,
) -> Result<bool, AllocError> {
    let start = domains.mark();
    if !hold(domains, start, life.first) {
        return Ok(false);
    }
    let mark = domains.mark();
    if !hold(domains, mark, life.then) {
        return Ok(false);
    }
    let mut copy = domains.copy(alloc)?;
    Ok(hold(domains, mark, life.last) && hold(&mut copy, mark, life.of_copy))
}

/// Whether all holds of domains of this kind.
fn lives<T: Trail>(alloc: Global, life: &Life) -> Result<bool, AllocError> {
    let mut domains: Domains<T> = Domains::with_trail(alloc, 2, life.values)?;
    hold_all(alloc, &mut domains, life)
}

impl<R> Example<R> for Life {
    fn holds(&self, _rt: &R, alloc: Global) -> Result<bool, AllocError> {
        Ok(lives::<PairTrail>(alloc, self)? && lives::<WordTrail>(alloc, self)?)
    }
}

static LIVES: [Life; 5] = [
    // what has left comes back
    Life {
        values: 3,
        first: &[],
        then: &[
            Act::Removes(0, 1, true),
            Act::Removes(0, 1, false),
            Act::Has(1, 2),
            Act::Assigns(1, 2),
            Act::Only(1, Some(2)),
            Act::Only(0, None),
        ],
        last: &[Act::Undoes, Act::Sizes(0, 3), Act::Sizes(1, 3)],
        of_copy: &[],
    },
    // rows of several words
    Life {
        values: 130,
        first: &[
            Act::Meets(1, &[0xff, 0, 3]),
            Act::Sizes(1, 10),
            Act::Is(1, &[0xff, 0, 3]),
        ],
        then: &[Act::Meets(1, &[0x101, 0, 2]), Act::Is(1, &[1, 0, 2])],
        last: &[Act::Undoes, Act::Is(1, &[0xff, 0, 3])],
        of_copy: &[Act::Is(1, &[1, 0, 2]), Act::Is(0, &[u64::MAX, u64::MAX, 3])],
    },
    // the only value left is known
    Life {
        values: 130,
        first: &[
            Act::Meets(1, &[8, 0, 1]),
            Act::Only(1, None),
            Act::Removes(1, 3, true),
            Act::Only(1, Some(128)),
        ],
        then: &[],
        last: &[],
        of_copy: &[],
    },
    // a value given back is known
    Life {
        values: 130,
        first: &[Act::Meets(1, &[0, 0, 2])],
        then: &[Act::Meets(1, &[1, 0, 0]), Act::Only(1, None)],
        last: &[Act::Undoes, Act::Only(1, Some(129))],
        of_copy: &[],
    },
    // the value left stays known
    Life {
        values: 130,
        first: &[
            Act::Meets(0, &[8, 0, 0]),
            Act::Only(0, Some(3)),
            Act::Meets(0, &[8, 1, 0]),
            Act::Only(0, Some(3)),
        ],
        then: &[Act::Has(1, 129), Act::Assigns(1, 129)],
        last: &[],
        of_copy: &[Act::Only(0, Some(3)), Act::Only(1, Some(129))],
    },
];

#[test]
fn domains_give_back_what_they_took_and_copies_keep_it(rt: HostRuntime) -> Result<(), Fail> {
    all_hold(&rt, rt.alloc(), &LIVES)
}

static TAKEN: [Act; 3] = [
    Act::Removes(0, 1, true),
    Act::Removes(0, 1, false),
    Act::Assigns(1, 2),
];

/// Whether what leaves enters the trail, in its order, and leaves it again.
fn enters_the_trail(alloc: Global) -> Result<bool, AllocError> {
    let mut domains = Domains::new(alloc, 2, 3)?;
    let mark = domains.mark();
    let is_taken = hold(&mut domains, mark, &TAKEN)
        && domains.trail() == [(0, 1), (1, 0), (1, 1)].as_slice();
    Ok(is_taken && undoes(&mut domains, mark) && domains.trail().is_empty())
}

#[test]
fn removals_enter_the_trail_and_are_undone(rt: HostRuntime) -> Result<(), Fail> {
    assert!(rt; enters_the_trail(rt.alloc())?);
    Ok(())
}

/// The only value of a domain of one.
fn lone_value(alloc: Global) -> Result<Option<u16>, AllocError> {
    Ok(Domains::new(alloc, 1, 1)?.only(0))
}

#[test]
fn a_lone_value_is_known(rt: HostRuntime) -> Result<(), Fail> {
    assert!(rt; lone_value(rt.alloc())? == Some(0));
    Ok(())
}

fn crosses_threads<T: Send + Sync>(_value: &T) {}

#[test]
fn domains_cross_threads(rt: HostRuntime) -> Result<(), Fail> {
    let domains = Domains::new(rt.alloc(), 1, 1)?;
    crosses_threads(&domains);
    let words: Domains<WordTrail> = Domains::with_trail(rt.alloc(), 1, 1)?;
    crosses_threads(&words);
    crosses_threads(&domains.mark());
    Ok(())
}

/// Whether a row is changed by others, one after the other.
fn combines(row: &mut [u64; 3]) -> bool {
    and_into(row, &[0b1010, 1, 7]);
    let is_met = row.as_slice() == [0b1000, 1, 7].as_slice();
    or_into(row, &[1, 2, 8]);
    let is_joined = row.as_slice() == [0b1001, 3, 15].as_slice();
    and_not_into(row, &[1, 0, 4]);
    let is_cut = row.as_slice() == [0b1000, 3, 11].as_slice();
    is_met && is_joined && is_cut && count_ones(row) == 6
}

#[test]
fn kernels_combine_rows(rt: HostRuntime) -> Result<(), Fail> {
    assert!(rt; combines(&mut [0b1100, 1, u64::MAX]));
    Ok(())
}

/// An operation on whole rows.
#[derive(Clone, Copy)]
enum Kernel {
    And,
    AndNot,
    Or,
}

impl Kernel {
    /// Changes a row by another.
    fn change(self, into: &mut [u64], from: &[u64])
        requires { length into.old ≡ length from.now }
    {
        match self {
            Kernel::And => and_into(into, from),
            Kernel::AndNot => and_not_into(into, from),
            Kernel::Or => or_into(into, from),
        }
    }

    /// What it makes of one word by another.
    fn changed(self, into: u64, from: u64) -> u64 {
        match self {
            Kernel::And => into & from,
            Kernel::AndNot => into & !from,
            Kernel::Or => into | from,
        }
    }

    /// Whether it made these words of two rows, one by one.
    fn has_made(self, row: &[u64], into: &[u64], from: &[u64]) -> bool {
        if into.len() != row.len() || from.len() != row.len() {
            return false;
        }
        for i in 0..row.len() {
            if row[i] != self.changed(into[i], from[i]) {
                return false;
            }
        }
        true
    }
}

/// Two rows of as many words, and an operation.
struct Changed(Kernel, &'static [u64], &'static [u64]);

impl<R> Example<R> for Changed {
    fn holds(&self, _rt: &R, alloc: Global) -> Result<bool, AllocError> {
        let Changed(kernel, into, from) = *self;
        if into.len() != from.len() {
            return Ok(false);
        }
        let mut row = Vec::from_slice(alloc, into)?;
        kernel.change(&mut row, from);
        Ok(kernel.has_made(&row, into, from))
    }
}

const FOUR: &[u64] = &[0xf0f1, 0xff02, 0x3c33, 0x0ff4];

const BY_FOUR: &[u64] = &[0xff0f, 0x0f0e, 0x5a5d, 0xa5ac];

const FIVE: &[u64] = &[0xf0f1, 0xff02, 0x3c33, 0x0ff4, 0xc3c5];

const BY_FIVE: &[u64] = &[0xff0f, 0x0f0e, 0x5a5d, 0xa5ac, 0x996b];

const NINE: &[u64] = &[
    0xf0f1,
    0xff02,
    0x3c33,
    0x0ff4,
    0xc3c5,
    u64::MAX,
    0,
    1 << 63,
    0x6996,
];

const BY_NINE: &[u64] = &[
    0xff0f,
    0x0f0e,
    0x5a5d,
    0xa5ac,
    0x996b,
    7,
    9,
    u64::MAX,
    0x3cc3,
];

// Rows of one block of words, of one and a rest, and of two and a rest.
static CHANGED: [Changed; 9] = [
    Changed(Kernel::And, FOUR, BY_FOUR),
    Changed(Kernel::And, FIVE, BY_FIVE),
    Changed(Kernel::And, NINE, BY_NINE),
    Changed(Kernel::AndNot, FOUR, BY_FOUR),
    Changed(Kernel::AndNot, FIVE, BY_FIVE),
    Changed(Kernel::AndNot, NINE, BY_NINE),
    Changed(Kernel::Or, FOUR, BY_FOUR),
    Changed(Kernel::Or, FIVE, BY_FIVE),
    Changed(Kernel::Or, NINE, BY_NINE),
];

#[test]
fn kernels_take_four_words_at_a_time(rt: HostRuntime) -> Result<(), Fail> {
    all_hold(&rt, rt.alloc(), &CHANGED)
}
