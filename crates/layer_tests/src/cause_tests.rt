//! What a recorder keeps of a few changes.

use domain_bits::{Domains, Mark};
use recorder::{Cause, Causes, Recorder, Silent};
use std::alloc::{AllocError, Global};
use std::test::Fail;

/// Tells of a value that left the domain of 0, and then of a set of two vertices near it with the values 3 and 66.
fn tell_two<R: Recorder>(told: &mut R, first: Mark, second: Mark) {
    told.took(0, Cause::Vertex(1, 2), first);
    told.counted(Some(0), &[1, 2], &[1 << 3, 1 << 2], second);
}

/// The moment before a value leaves the domain of 0, and the one after.
fn moments(alloc: Global) -> Result<(Mark, Mark), AllocError> {
    let mut domains = Domains::new(alloc, 3, 70)?;
    let first = domains.mark();
    let _was_there = domains.remove(0, 2);
    Ok((first, domains.mark()))
}

/// Whether so many changes are kept, and a set that was found short only where one is to be.
fn keeps(causes: &Causes, changes: usize, is_short: bool) -> bool {
    match causes.kept() {
        Some(kept) => kept.entries.len() == changes && kept.short.is_some() == is_short,
        None => false,
    }
}

/// Whether the sets that were counted are kept as these numbers.
fn numbers_are(causes: &Causes, numbers: &[u16]) -> bool {
    match causes.kept() {
        Some(kept) => kept.numbers == numbers,
        None => false,
    }
}

/// What is kept of two changes and a set that was found short.
fn told(alloc: Global, first: Mark, second: Mark) -> Causes {
    let mut causes = Causes::new(alloc);
    tell_two(&mut causes, first, second);
    causes.found_short(None, &[0], &[0]);
    causes
}

#[test]
fn causes_keep_what_they_are_told(rt: HostRuntime) -> Result<(), Fail> {
    let (first, second) = moments(rt.alloc())?;
    let causes = told(rt.alloc(), first, second);
    assert!(rt; keeps(&causes, 2, true) && numbers_are(&causes, &[1, 2, 3, 66, 0]));
    Ok(())
}

#[test]
fn causes_forget_what_is_undone(rt: HostRuntime) -> Result<(), Fail> {
    let (first, second) = moments(rt.alloc())?;
    let mut causes = told(rt.alloc(), first, second);
    causes.forget_to(second);
    assert!(rt; keeps(&causes, 1, false));
    Ok(())
}

#[test]
fn nobody_is_told(rt: HostRuntime) -> Result<(), Fail> {
    let domains = Domains::new(rt.alloc(), 3, 70)?;
    let mut silent = Silent;
    tell_two(&mut silent, domains.mark(), domains.mark());
    silent.found_short(None, &[0], &[0]);
    silent.forget_to(domains.mark());
    Ok(())
}
