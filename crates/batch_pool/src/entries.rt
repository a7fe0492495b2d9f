//! Who took each job, and its answer, by place.

ghost use Rattle.std.specs.Prelude.{◌≡◌, Some, None, length, map, IfOk, slice_get, slice_set, replicate};
ghost use Rattle.std.specs.List.{All};
ghost use Rattle.batch_pool.specs.Rule.{AreOnce};
ghost use Rattle.batch_pool.specs.Placing.{entry, numbers_of, ArePut};

use crate::worker::Taken;
use std::alloc::{AllocError, Global};

/// A job that was taken: by which worker, and its answer where memory was granted.
#[derive(Drop)]
pub(crate) struct Entry<O> {
    pub worker: u32,
    pub out: Option<O>,
}

/// A slot for each job.
#[derive(Drop)]
pub(crate) struct Entries<O> {
    pub slots: Vec<Option<Entry<O>>>,
}

impl<O: Drop> Entries<O> {
    /// Free slots.
    pub(crate) fn new(alloc: Global, count: usize) -> Result<Entries<O>, AllocError>
        ensures { IfOk result (λ e. e.slots.items ≡ replicate count None) }
    {
        let mut slots = Vec::with_capacity(alloc, count)?;
        for _k in 0..count {
            slots.push(None)?;
        }
        Ok(Entries { slots })
    }

    /// Fills a slot, which is free.
    pub(crate) fn place(&mut self, number: u32, worker: u32, out: Option<O>)
        requires { slice_get self.old.slots.items number ≡ Some None }
        ensures { self.new.slots.items ≡ slice_set self.old.slots.items number
            (Some (entry worker out)) }
    {
        self.slots[number as usize] = Some(Entry { worker, out });
    }

    /// Fills the slots of what a worker took.
    pub(crate) fn place_all(&mut self, worker: u32, taken: Vec<Taken<O>>)
        requires free { All (λ t. slice_get self.old.slots.items t.number ≡ Some None) taken.items }
        requires once { AreOnce (numbers_of taken.items) }
        ensures { ArePut worker taken.items self.old.slots.items self.new.slots.items }
    {
        for one in taken {
            let Taken { number, out } = one;
            self.place(number, worker, out);
        }
    }
}
