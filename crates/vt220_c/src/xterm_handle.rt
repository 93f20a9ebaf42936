//! The handle of what a terminal needs under TERM=xterm.
ghost use Rattle.std.specs.Prelude.{◌≡◌, is_some, MatchOption};
ghost use Rattle.std.specs.declared.option.Option.TheVariants.{None, Some};

use crate::kept_xterm::KeptXterm;
use crate::loose::Loose;
use std::alloc::Global;
use std::mem;
use vt_xterm::SizedFront;

/// A handle of C: a front, or none.
#[repr(C)]
#[derive(Drop)]
pub struct Vt220Xterm {
    pub(crate) kept: KeptXterm,
    pub(crate) is_open: bool,
    pub(crate) ghost agrees: { is_open ≡ is_some kept.inside },
}

impl Vt220Xterm {
    /// Takes the front out of a handle, which is then closed.
    pub(crate) fn take(&mut self, alloc: Global) -> Option<Box<SizedFront>>
        ensures value { MatchOption result (self.old.kept.inside ≡ None) (λ b. self.old.kept.inside ≡ Some b.value) }
        ensures closed { self.new.kept.inside ≡ None }
    {
        let was_open = self.is_open;
        let kept = mem::replace(
            self,
            Vt220Xterm {
                kept: KeptXterm::empty(alloc),
                is_open: false,
            },
        )
        .kept;
        if was_open {
            Some(kept.into_loose().into_box())
        } else {
            None
        }
    }

    /// Puts a front into a closed handle.
    pub(crate) fn put(&mut self, front: Box<SizedFront>)
        requires { self.old.kept.inside ≡ None }
        ensures { self.new.kept.inside ≡ Some front.value }
    {
        *self = Vt220Xterm {
            kept: KeptXterm::of(Loose::of(front)),
            is_open: true,
        };
    }
}
