//! The order of images: of each pair that is asked for, the first vertex goes to a lesser value than the second. So what the second may have is above the
//! least value that is left for the first, and what the first may have is below the greatest that is left for the second. What is not so leaves. (For a
//! constraint that is monotone the bounds of two domains tell all: P. Van Hentenryck, Y. Deville, C.-M. Teng 1992.)

ghost use Rattle.std.specs.Prelude.{◌≡◌, ℕ, ◌+◌, ◌-◌, ◌*◌, ◌<◌, ◌≤◌, ◌⊎◌, true, false, length, slice_get, Some, OnOk};
ghost use Rattle.graph_theory.specs.Graph.{size};
ghost use Rattle.domain_bits.specs.Removals.{in_domain};
ghost use Rattle.search_theory.specs.Claims.{Ordered, Quiet, Rising};
ghost use Rattle.propagation.specs.Ordering.{AreOutOfOrder};
ghost use Rattle.propagation.specs.Taking.{AreFlagged, Prunes, Takes};

use crate::removal::take_by;
use bit_rows::{has_bit, next_member};
use domain_bits::{Domains, Trail};
use graph_rows::Problem;
use recorder::{Cause, Failure, Recorder, Side};

/// An end of a pair whose images are to be in order.
#[derive(Clone, Copy)]
struct End {
    /// The number of the pair.
    k: u16,
    /// Which of its ends.
    side: Side,
    /// The vertex there.
    r: u16,
}

/// The number after the greatest value that is left for `p`, or 0 where none is. Cost: one step for each value from there on.
fn past_last<T: Trail>(d: &Domains<T>, p: u16) -> usize
    requires p_in { p < d.now.vertices }
    ensures within { result ≤ d.now.values }
    ensures last { 0 < result → in_domain d.now p (result - 1) ≡ true }
    ensures none { (u : ℕ) → result ≤ u → in_domain d.now p u ≡ false }
{
    let row = d.row(p);
    let mut past = usize::from(d.values());
    while past > 0 {
        if has_bit(row, past - 1) {
            return past;
        }
        past -= 1;
    }
    0
}

/// The least value that is left for `p`, or how many values there are where none is. Cost: one step for each word up to there.
fn least_left<T: Trail>(d: &Domains<T>, p: u16) -> usize
    requires p_in { p < d.now.vertices }
    ensures within { result ≤ d.now.values }
    ensures least { result < d.now.values → in_domain d.now p result ≡ true }
    ensures none { (u : ℕ) → u < result → in_domain d.now p u ≡ false }
{
    next_member(d.row(p), 0).min(usize::from(d.values()))
}

/// The number before a number, or 0.
fn one_less(past: usize) -> usize
    ensures { result ≡ past - 1 }
{
    if past == 0 {
        return 0;
    }
    past - 1
}

/// The number after a value, up to how many values there are.
fn one_more(least: usize, values: usize) -> usize
    requires { least ≤ values }
    ensures within { result ≤ values }
    ensures below { result ≤ least + 1 }
    ensures is { (result ≡ least + 1) ⊎ (result ≡ values) }
{
    if least == values {
        return values;
    }
    least + 1
}

/// Takes the values from one number up to another, which are out of order, from the domain of an end of a pair. Where one value is left, it waits;
/// where none is, this fails. Cost: one step for each word of these, and for each value that leaves.
fn take_range<T: Trail, R: Recorder>(
    q: &Problem,
    d: &mut Domains<T>,
    waiting: &mut [bool],
    told: &mut R,
    end: End,
    from: usize,
    until: usize,
) -> Result<(), Failure>
    requires flagged { AreFlagged q.now d.old waiting.old }
    requires r_in { end.r < size q.now.pattern }
    requires until { until ≤ size q.now.target }
    requires from { from ≤ until }
    requires out { AreOutOfOrder q.now d.old end.k end.side end.r from until }
    ensures takes { Takes result q.now d.old waiting.old (R.changes told.old)
        d.new waiting.new (R.changes told.new) }
    ensures gone { OnOk result ((u : ℕ) → from ≤ u → u < until → in_domain d.new end.r u ≡ false) }
{
    let mut u = next_member(d.row(end.r), from);
    while u < until {
        let cause = Cause::Order(end.k, u as u16, end.side);
        if !take_by(d, waiting, told, end.r, u as u16, cause) {
            return Err(Failure::Empty(end.r));
        }
        u = next_member(d.row(end.r), u + 1);
    }
    Ok(())
}

/// Takes what is out of order from the domains of the two vertices of a pair. Cost: one step for each word of a row, for each value from the greatest of
/// the second on, and for each value that leaves.
fn take_pair<T: Trail, R: Recorder>(
    q: &Problem,
    d: &mut Domains<T>,
    waiting: &mut [bool],
    told: &mut R,
    k: u16,
    pair: (u16, u16),
) -> Result<(), Failure>
    requires flagged { AreFlagged q.now d.old waiting.old }
    requires pair_is { slice_get q.now.less k ≡ Some pair }
    requires first_in { pair.0 < size q.now.pattern }
    requires second_in { pair.1 < size q.now.pattern }
    ensures takes { Takes result q.now d.old waiting.old (R.changes told.old)
        d.new waiting.new (R.changes told.new) }
    ensures rising { OnOk result (length d.new.removed ≤ length d.old.removed
        → Rising (in_domain d.new) pair.0 pair.1) }
{
    let (a, b) = pair;
    let values = usize::from(d.values());
    let greater = End {
        k,
        side: Side::Greater,
        r: b,
    };
    let least = least_left(d, a);
    let until = one_more(least, values);
    take_range(q, d, waiting, told, greater, 0, until)?;
    let lesser = End {
        k,
        side: Side::Lesser,
        r: a,
    };
    let past = past_last(d, b);
    let from = one_less(past);
    take_range(q, d, waiting, told, lesser, from, values)
}

/// Takes what is out of order from the domains of one pair after another. Cost: that of `take_pair` for each.
fn take_pairs<T: Trail, R: Recorder>(
    q: &Problem,
    d: &mut Domains<T>,
    waiting: &mut [bool],
    told: &mut R,
) -> Result<(), Failure>
    requires flagged { AreFlagged q.now d.old waiting.old }
    ensures takes { Takes result q.now d.old waiting.old (R.changes told.old)
        d.new waiting.new (R.changes told.new) }
    ensures ordered { OnOk result (length d.new.removed ≤ length d.old.removed
        → Ordered q.now (in_domain d.new)) }
{
    let pairs = q.less();
    for k in 0..pairs.len() {
        take_pair(q, d, waiting, told, k as u16, pairs[k])?;
    }
    Ok(())
}

/// Takes what the order of images leaves no room for, and says whether any has left; where none has, the domains are in order. Cost: one step where
/// no order is asked for, else that of `take_pairs`.
pub(crate) fn prune_order<T: Trail, R: Recorder>(
    q: &Problem,
    d: &mut Domains<T>,
    waiting: &mut [bool],
    told: &mut R,
) -> Result<bool, Failure>
    requires flagged { AreFlagged q.now d.old waiting.old }
    requires quiet { Quiet q.now (in_domain d.old) }
    ensures prunes { Prunes (λ e. Ordered q.now (in_domain e)) result q.now d.old
        (R.changes told.old) d.new waiting.new (R.changes told.new) (R.short told.new) }
    ensures bounded { length d.new.removed ≤ d.new.vertices * d.new.values }
{
    if q.less().is_empty() {
        return Ok(false);
    }
    let from = d.mark();
    let taken = take_pairs(q, d, waiting, told);
    let after = d.mark();
    taken?;
    Ok(from.is_before(after))
}
