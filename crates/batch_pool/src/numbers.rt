//! The queue of job numbers, and what a step on it tells.

ghost use Rattle.std.specs.Prelude.{◌≡◌, ◌^◌, ◌<◌, [], IfOk};
ghost use Rattle.crossbeam_queue.specs.Passes.{view, IsPassOf};
ghost use Rattle.batch_pool.specs.Rule.{hand, all_parts};

use crossbeam_queue::protocol::{Join, Lesson, Outcome, Protocol, Split};
use crossbeam_queue::{Pass, RuledArrayQueue};
use std::alloc::{AllocError, Global};
use std::collections::LinkedList;
use std::sync::Wait;

/// What a pass knows: its parts of the whole, how many numbers were pushed, and those that it took. No value of it is made.
pub(crate) struct Hand {
    pub parts: u64,
    pub pushed: u32,
    pub taken: LinkedList<u32>,
}

/// The rule of the queue.
pub(crate) struct Dealt;

impl Protocol<u32, Hand> for Dealt {
    ghost use Rattle.std.specs.Prelude.{[]};
    ghost use Rattle.batch_pool.specs.Rule.{IsDealt, hand, all_parts};

    ghost holds = { IsDealt };

    ghost first = { hand all_parts 0 [] };
}

/// A push of the next number.
pub(crate) struct Fills;

impl Outcome<u32, Hand> for Fills {
    ghost use Rattle.std.specs.Prelude.{◌≡◌};
    ghost use Rattle.batch_pool.specs.Rule.{filled};

    ghost then = { λ v x w. w ≡ filled v };
}

impl Lesson<u32, Hand> for Fills {
    ghost use Rattle.batch_pool.specs.Rule.{HoldsRest};

    ghost fact = { HoldsRest };
}

/// A pop of a number.
pub(crate) struct Takes;

impl Outcome<u32, Hand> for Takes {
    ghost use Rattle.batch_pool.specs.Rule.{TookNext};

    ghost then = { TookNext };
}

impl Lesson<u32, Hand> for Takes {
    ghost use Rattle.batch_pool.specs.Rule.{HoldsRest};

    ghost fact = { HoldsRest };
}

/// A look at the rule: no number was taken twice.
pub(crate) struct Compares;

impl Lesson<u32, Hand> for Compares {
    ghost use Rattle.batch_pool.specs.Rule.{AreOnce};

    ghost fact = { λ v items. AreOnce v.taken };
}

/// A pass is made of another, and given back.
pub(crate) struct Cut;

impl Split<Hand> for Cut {
    ghost use Rattle.std.specs.Prelude.{[], ◌-◌};
    ghost use Rattle.batch_pool.specs.Rule.{hand};

    ghost left = { λ v. hand (v.parts - 1) v.pushed v.taken };

    ghost right = { λ v. hand 1 v.pushed [] };
}

impl Join<Hand> for Cut {
    ghost use Rattle.std.specs.Prelude.{[]};
    ghost use Rattle.batch_pool.specs.Rule.{hand, joined};

    ghost both = { joined };

    ghost spent = { hand 0 0 [] };
}

/// A queue of job numbers.
pub(crate) type Numbers = RuledArrayQueue<u32, Hand, Dealt>;

/// A queue with the numbers below the count, and the pass that has all parts.
pub(crate) fn filled<R: Wait>(
    rt: &R,
    alloc: Global,
    count: u32,
) -> Result<(Numbers, Pass<u32, Hand>), AllocError>
    requires { 0 < count }
    ensures { IfOk result (λ q. IsPassOf q.0 q.1 × (view q.1 ≡ hand all_parts count [])) }
{
    let (queue, mut pass) = Numbers::ruled(alloc, count as usize)?;
    for number in 0..count {
        match queue.push_as::<Fills, R>(rt, &mut pass, number) {
            Ok(()) => {}
            Err(_) => unreachable!(),
        }
    }
    Ok((queue, pass))
}
