//! The pointer of a front's block, or none: what C may hold. The front is what a terminal needs under TERM=xterm.
ghost use Rattle.std.specs.Prelude.{◌≡◌, IsSome};
ghost use Rattle.std.specs.declared.option.Option.{Option};
ghost use Rattle.std.specs.declared.option.Option.TheVariants.{None, Some};
ghost use Rattle.std.specs.Coded.{coded_option};
ghost use Rattle.vt_xterm.specs.Play.{FrontState};
ghost use Rattle.vt_xterm.specs.contracts.front.SizedFront.{the_row};
ghost use Rattle.vt220_c.specs.Kept.{kept_xterm};

use crate::loose::Loose;
use std::alloc::Global;
use std::marker::Model;
use std::ptr;
use vt_xterm::SizedFront;

/// The pointer of a front's block, or none.
#[repr(C)]
#[derive(Drop)]
pub struct KeptXterm {
    at: *mut u8,
    alloc: Global,
    pub ghost inside: { Option FrontState } by { coded_option the_row.coded },
}

impl Model for KeptXterm {
    ghost also_owns = { λ k. kept_xterm k.alloc k.at k.inside };
}

impl KeptXterm {
    /// Returns a value without a pointer.
    pub(crate) fn empty(alloc: Global) -> KeptXterm
        ensures { result.inside ≡ None }
    {
        KeptXterm {
            at: ptr::null_mut(),
            alloc,
        }
    }

    /// Returns the pointer of a front.
    pub(crate) fn of(value: Loose<SizedFront, Global>) -> KeptXterm
        ensures { result.inside ≡ Some value.value }
    {
        let Loose { at, alloc } = value;
        KeptXterm {
            at: at as *mut u8,
            alloc,
        }
    }

    /// Returns the front of the pointer.
    pub(crate) fn into_loose(self) -> Loose<SizedFront, Global>
        requires { IsSome self.inside }
        ensures { self.inside ≡ Some result.value }
    {
        let KeptXterm { at, alloc } = self;
        Loose {
            at: at as *mut SizedFront,
            alloc,
        }
    }
}
