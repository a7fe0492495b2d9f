//! Nogoods of a few pairs.

ghost use Rattle.std.specs.Prelude.{◌≡◌};

use domain_bits::{Domains, Mark};
use nogood_watch::{WatchAnswer, Watched};
use std::alloc::{AllocError, Global};
use std::test::Fail;

/// What is done to domains and to the nogoods over them, or found of these.
enum Act {
    /// A value that is there leaves a domain.
    Removes(u16, u16),
    /// A vertex goes to a value.
    Assigns(u16, u16),
    /// All that has left comes back.
    Undoes,
    /// Nogoods that a shorter one has overtaken are watched no longer.
    Thins,
    /// The watches of a pair that is assigned are looked at, with this answer.
    Looks(u16, u16, WatchAnswer),
    /// These pairs were forced out, each with its nogood's name.
    Forces(&'static [(u16, u16, u32)]),
    /// So many were, and each is this pair.
    ForcesAlike(usize, u16, u16),
}

/// Whether the value was there and has left.
fn removes(domains: &mut Domains, p: u16, t: u16) -> bool
    ensures vertices { domains.new.vertices ≡ domains.old.vertices }
    ensures values { domains.new.values ≡ domains.old.values }
{
    p < domains.vertices() && t < domains.values() && domains.remove(p, t)
}

/// Whether the vertex could go to the value.
fn assigns(domains: &mut Domains, p: u16, t: u16) -> bool
    ensures vertices { domains.new.vertices ≡ domains.old.vertices }
    ensures values { domains.new.values ≡ domains.old.values }
{
    if p >= domains.vertices() || t >= domains.values() || !domains.has(p, t) {
        return false;
    }
    domains.assign(p, t);
    true
}

/// Whether no less has left than at the mark.
fn undoes(domains: &mut Domains, mark: Mark) -> bool
    ensures vertices { domains.new.vertices ≡ domains.old.vertices }
    ensures values { domains.new.values ≡ domains.old.values }
{
    if domains.mark().is_before(mark) {
        return false;
    }
    domains.undo_to(mark);
    true
}

/// Whether the pair is assigned, and its watches give this answer.
fn looks(watched: &mut Watched, domains: &Domains, p: u16, t: u16, answer: WatchAnswer) -> bool
    requires vertices { domains.now.vertices ≡ watched.old.vertices }
    requires values { domains.now.values ≡ watched.old.values }
    ensures vertices { watched.new.vertices ≡ watched.old.vertices }
    ensures values { watched.new.values ≡ watched.old.values }
{
    if p >= domains.vertices() {
        return false;
    }
    match domains.only(p) {
        Some(value) if value == t => watched.on_assign(domains, p, t) == answer,
        _ => false,
    }
}

/// Whether so many pairs were forced out, and each is this one.
fn forces_alike(forced: &[(u16, u16, u32)], count: usize, p: u16, t: u16) -> bool {
    for (q, u, _name) in forced {
        if *q != p || *u != t {
            return false;
        }
    }
    forced.len() == count
}

/// Thins the nogoods, which can always be done.
fn thins(watched: &mut Watched) -> bool
    ensures vertices { watched.new.vertices ≡ watched.old.vertices }
    ensures values { watched.new.values ≡ watched.old.values }
{
    watched.thin();
    true
}

impl Act {
    /// Whether it can be done, or is so.
    fn holds(&self, watched: &mut Watched, domains: &mut Domains, mark: Mark) -> bool
        requires vertices { domains.old.vertices ≡ watched.old.vertices }
        requires values { domains.old.values ≡ watched.old.values }
        ensures vertices { domains.new.vertices ≡ watched.new.vertices }
        ensures values { domains.new.values ≡ watched.new.values }
    {
        match *self {
            Act::Removes(p, t) => removes(domains, p, t),
            Act::Assigns(p, t) => assigns(domains, p, t),
            Act::Undoes => undoes(domains, mark),
            Act::Thins => thins(watched),
            Act::Looks(p, t, answer) => looks(watched, domains, p, t, answer),
            Act::Forces(forced) => watched.forced() == forced,
            Act::ForcesAlike(count, p, t) => forces_alike(watched.forced(), count, p, t),
        }
    }
}

/// Whether one after the other holds.
fn hold(watched: &mut Watched, domains: &mut Domains, acts: &[Act]) -> bool
    requires vertices { domains.old.vertices ≡ watched.old.vertices }
    requires values { domains.old.values ≡ watched.old.values }
{
    let mark = domains.mark();
    for act in acts {
        if !act.holds(watched, domains, mark) {
            return false;
        }
    }
    true
}

/// Whether one after the other holds, from full domains on.
fn hold_from_full(
    alloc: Global,
    watched: &mut Watched,
    vertices: u16,
    values: u16,
    acts: &[Act],
) -> Result<bool, AllocError>
    requires vertices { watched.old.vertices ≡ vertices }
    requires values { watched.old.values ≡ values }
{
    let mut domains = Domains::new(alloc, vertices, values)?;
    Ok(hold(watched, &mut domains, acts))
}

static FORCED_OUT: [Act; 6] = [
    Act::Assigns(0, 0),
    Act::Looks(0, 0, WatchAnswer::Forced),
    Act::Forces(&[(1, 1, 7)]),
    Act::Removes(1, 1),
    Act::Looks(0, 0, WatchAnswer::Quiet),
    Act::Forces(&[]),
];

#[test]
fn the_last_literal_is_forced_out(rt: HostRuntime) -> Result<(), Fail> {
    let mut watched = Watched::new(rt.alloc(), 2, 2)?;
    watched.add(&[(0, 0), (1, 1)], 7)?;
    assert!(rt; hold_from_full(rt.alloc(), &mut watched, 2, 2, &FORCED_OUT)?);
    Ok(())
}

static ON_AND_BACK: [Act; 15] = [
    Act::Assigns(0, 0),
    Act::Looks(0, 0, WatchAnswer::Quiet),
    Act::Assigns(2, 2),
    Act::Looks(2, 2, WatchAnswer::Quiet),
    Act::Assigns(3, 0),
    Act::Looks(3, 0, WatchAnswer::Forced),
    Act::Forces(&[(1, 1, 0)]),
    Act::Undoes,
    Act::Assigns(1, 1),
    Act::Looks(1, 1, WatchAnswer::Quiet),
    Act::Assigns(2, 2),
    Act::Looks(2, 2, WatchAnswer::Quiet),
    Act::Assigns(0, 0),
    Act::Looks(0, 0, WatchAnswer::Forced),
    Act::Forces(&[(3, 0, 0)]),
];

#[test]
fn a_watch_moves_on_and_back(rt: HostRuntime) -> Result<(), Fail> {
    let mut watched = Watched::new(rt.alloc(), 4, 3)?;
    watched.add(&[(0, 0), (1, 1), (2, 2), (3, 0)], 0)?;
    assert!(rt; hold_from_full(rt.alloc(), &mut watched, 4, 3, &ON_AND_BACK)?);
    Ok(())
}

static WHOLE: [Act; 7] = [
    Act::Assigns(0, 0),
    Act::Assigns(1, 1),
    Act::Looks(0, 0, WatchAnswer::Quiet),
    Act::Looks(1, 1, WatchAnswer::Forced),
    Act::Forces(&[(2, 0, 4)]),
    Act::Assigns(2, 0),
    Act::Looks(2, 0, WatchAnswer::Fail(4)),
];

#[test]
fn a_whole_nogood_fails(rt: HostRuntime) -> Result<(), Fail> {
    let mut watched = Watched::new(rt.alloc(), 3, 2)?;
    watched.add(&[(0, 1), (2, 0)], 3)?;
    watched.add(&[(0, 0), (1, 1), (2, 0)], 4)?;
    assert!(rt; hold_from_full(rt.alloc(), &mut watched, 3, 2, &WHOLE)?);
    Ok(())
}

static AT_ITS_OWN_LOOK: [Act; 8] = [
    Act::Assigns(0, 0),
    Act::Assigns(1, 0),
    Act::Looks(1, 0, WatchAnswer::Quiet),
    Act::Looks(0, 0, WatchAnswer::Forced),
    Act::ForcesAlike(2, 2, 0),
    Act::Assigns(3, 1),
    Act::Looks(3, 1, WatchAnswer::Forced),
    Act::Forces(&[(2, 1, 9)]),
];

#[test]
fn each_of_two_assigned_watches_moves_at_its_own_look(rt: HostRuntime) -> Result<(), Fail> {
    let mut watched = Watched::new(rt.alloc(), 4, 2)?;
    watched.add(&[(0, 0), (1, 0), (2, 0)], 0)?;
    watched.add(&[(0, 0), (1, 0), (2, 0)], 1)?;
    watched.add(&[(0, 0), (1, 0), (2, 1), (3, 1)], 9)?;
    assert!(rt; hold_from_full(rt.alloc(), &mut watched, 4, 2, &AT_ITS_OWN_LOOK)?);
    Ok(())
}

static BESIDE_ONE_THAT_LEFT: [Act; 9] = [
    Act::Removes(1, 1),
    Act::Assigns(0, 0),
    Act::Looks(0, 0, WatchAnswer::Quiet),
    Act::Undoes,
    Act::Assigns(0, 0),
    Act::Assigns(1, 1),
    Act::Looks(0, 0, WatchAnswer::Quiet),
    Act::Looks(1, 1, WatchAnswer::Forced),
    Act::Forces(&[(2, 0, 5)]),
];

#[test]
fn a_watch_moves_also_where_the_other_one_has_left(rt: HostRuntime) -> Result<(), Fail> {
    let mut watched = Watched::new(rt.alloc(), 3, 2)?;
    watched.add(&[(0, 0), (1, 1), (2, 0)], 5)?;
    assert!(rt; hold_from_full(rt.alloc(), &mut watched, 3, 2, &BESIDE_ONE_THAT_LEFT)?);
    Ok(())
}

/// Adds so many nogoods of the same three literals.
fn add_alike(watched: &mut Watched, count: u32) -> Result<(), AllocError>
    requires vertices { watched.old.vertices ≡ 3 }
    requires values { watched.old.values ≡ 2 }
    ensures vertices { watched.new.vertices ≡ 3 }
    ensures values { watched.new.values ≡ 2 }
{
    for name in 0..count {
        watched.add(&[(0, 0), (1, 1), (2, 0)], name)?;
    }
    Ok(())
}

static ONE_IS_LEFT: [Act; 10] = [
    Act::Assigns(2, 0),
    Act::Assigns(0, 0),
    Act::Looks(0, 0, WatchAnswer::Forced),
    Act::ForcesAlike(1024, 1, 1),
    Act::Undoes,
    Act::Thins,
    Act::Assigns(2, 0),
    Act::Assigns(0, 0),
    Act::Looks(0, 0, WatchAnswer::Forced),
    Act::ForcesAlike(1, 1, 1),
];

#[test]
fn of_nogoods_of_the_same_literals_one_is_watched(rt: HostRuntime) -> Result<(), Fail> {
    let mut watched = Watched::new(rt.alloc(), 3, 2)?;
    add_alike(&mut watched, 1024)?;
    assert!(rt; hold_from_full(rt.alloc(), &mut watched, 3, 2, &ONE_IS_LEFT)?);
    Ok(())
}

static THE_SHORTER_IS_LEFT: [Act; 6] = [
    Act::Thins,
    Act::Assigns(0, 0),
    Act::Looks(0, 0, WatchAnswer::Forced),
    Act::Forces(&[(1, 1, 9)]),
    Act::Assigns(1, 1),
    Act::Looks(1, 1, WatchAnswer::Fail(9)),
];

#[test]
fn a_shorter_nogood_is_watched_for_the_longer_ones(rt: HostRuntime) -> Result<(), Fail> {
    let mut watched = Watched::new(rt.alloc(), 3, 2)?;
    add_alike(&mut watched, 1024)?;
    watched.add(&[(0, 0), (1, 1)], 9)?;
    assert!(rt; hold_from_full(rt.alloc(), &mut watched, 3, 2, &THE_SHORTER_IS_LEFT)?);
    Ok(())
}

static ALL_ARE_LEFT: [Act; 5] = [
    Act::Thins,
    Act::Assigns(2, 0),
    Act::Assigns(0, 0),
    Act::Looks(0, 0, WatchAnswer::Forced),
    Act::ForcesAlike(1023, 1, 1),
];

#[test]
fn few_nogoods_are_not_thinned(rt: HostRuntime) -> Result<(), Fail> {
    let mut watched = Watched::new(rt.alloc(), 3, 2)?;
    add_alike(&mut watched, 1023)?;
    assert!(rt; hold_from_full(rt.alloc(), &mut watched, 3, 2, &ALL_ARE_LEFT)?);
    Ok(())
}

#[test]
fn one_literal_is_a_unit(rt: HostRuntime) -> Result<(), Fail> {
    let mut watched = Watched::new(rt.alloc(), 2, 3)?;
    watched.add(&[(1, 2)], 0)?;
    watched.add(&[(0, 1), (1, 1)], 1)?;
    watched.add(&[(0, 2)], 2)?;
    assert!(rt; watched.units() == [(1, 2, 0), (0, 2, 2)].as_slice());
    Ok(())
}
