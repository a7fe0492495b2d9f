//! The target goes into a handle and out of it.

ghost use Rattle.std.specs.Prelude.{◌≡◌, None, Some, IfOk};
ghost use Rattle.target_handle.specs.Opened.{opened, taken};

use crate::handle::TargetHandle;
use crate::open_target::{Kept, OpenTarget};
use loose_box::loose::Loose;
use std::alloc::{AllocError, Global};
use std::mem::replace;

impl TargetHandle {
    /// A handle that has this target. It takes one block.
    pub fn with(alloc: Global, target: OpenTarget) -> Result<TargetHandle, AllocError>
        ensures { IfOk result (λ h. opened h ≡ Some target) }
    {
        let place = Box::new(
            alloc,
            Kept {
                target: Some(target),
            },
        )?;
        Ok(TargetHandle::of(Loose::of(place)))
    }

    /// The target, taken out, and the place that it had, if there is one. It takes no memory.
    pub fn take(&mut self, alloc: Global) -> Option<(OpenTarget, Box<Kept>)>
        ensures taken { taken result ≡ opened self.old }
        ensures closed { opened self.new ≡ None }
    {
        if !self.is_there() {
            return None;
        }
        let mut place = replace(self, TargetHandle::closed())
            .into_loose(alloc)
            .into_box();
        match Box::replace(&mut place, Kept { target: None }).target {
            Some(target) => Some((target, place)),
            None => None,
        }
    }

    /// Puts a target into the place that one had. It takes no memory.
    pub fn put(&mut self, place: Box<Kept>, target: OpenTarget)
        requires { opened self.old ≡ None }
        ensures { opened self.new ≡ Some target }
    {
        let mut place = place;
        Box::replace(
            &mut place,
            Kept {
                target: Some(target),
            },
        );
        *self = TargetHandle::of(Loose::of(place));
    }

    /// Lets the target go, if there is one, with the memory that it had.
    pub fn close(&mut self, alloc: Global)
        ensures { opened self.new ≡ None }
    {
        self.take(alloc);
    }
}
