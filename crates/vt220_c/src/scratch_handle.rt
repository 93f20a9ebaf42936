//! The handle of a scratch buffer.
ghost use Rattle.std.specs.Prelude.{◌≡◌, is_some, MatchOption};
ghost use Rattle.std.specs.declared.option.Option.TheVariants.{None, Some};

use crate::kept_scratch::KeptScratch;
use crate::loose::Loose;
use crate::scratch::Scratch;
use std::alloc::Global;
use std::mem;

/// A handle of C: a scratch buffer, or none.
#[repr(C)]
#[derive(Drop)]
pub struct Vt220Scratch {
    pub(crate) kept: KeptScratch,
    pub(crate) is_open: bool,
    pub(crate) ghost agrees: { is_open ≡ is_some kept.inside },
}

impl Vt220Scratch {
    /// Takes the scratch buffer out of a handle, which is then closed.
    pub(crate) fn take(&mut self, alloc: Global) -> Option<Box<Scratch>>
        ensures value { MatchOption result (self.old.kept.inside ≡ None) (λ b. self.old.kept.inside ≡ Some b.value) }
        ensures closed { self.new.kept.inside ≡ None }
    {
        let was_open = self.is_open;
        let kept = mem::replace(
            self,
            Vt220Scratch {
                kept: KeptScratch::empty(alloc),
                is_open: false,
            },
        )
        .kept;
        if was_open {
            Some(kept.into_loose().into_box())
        } else {
            None
        }
    }

    /// Puts a scratch buffer into a closed handle.
    pub(crate) fn put(&mut self, scratch: Box<Scratch>)
        requires { self.old.kept.inside ≡ None }
        ensures { self.new.kept.inside ≡ Some scratch.value }
    {
        *self = Vt220Scratch {
            kept: KeptScratch::of(Loose::of(scratch)),
            is_open: true,
        };
    }
}
