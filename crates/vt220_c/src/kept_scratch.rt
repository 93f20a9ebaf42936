//! The pointer of a scratch buffer's block, or none: what C may hold.
ghost use Rattle.std.specs.Prelude.{◌≡◌, IsSome};
ghost use Rattle.std.specs.declared.option.Option.{Option};
ghost use Rattle.std.specs.declared.option.Option.TheVariants.{None, Some};
ghost use Rattle.std.specs.Coded.{coded_option};
ghost use Rattle.vt_screen.specs.declared.size.Size.{Size};
ghost use Rattle.vt220_c.specs.contracts.scratch.Scratch.{the_row};
ghost use Rattle.vt220_c.specs.Kept.{kept_scratch};

use crate::loose::Loose;
use crate::scratch::Scratch;
use std::alloc::Global;
use std::marker::Model;
use std::ptr;

/// The pointer of a scratch buffer's block, or none.
#[repr(C)]
#[derive(Drop)]
pub struct KeptScratch {
    at: *mut u8,
    alloc: Global,
    pub ghost inside: { Option Size } by { coded_option the_row.coded },
}

impl Model for KeptScratch {
    ghost also_owns = { λ k. kept_scratch k.alloc k.at k.inside };
}

impl KeptScratch {
    /// Returns a value without a pointer.
    pub(crate) fn empty(alloc: Global) -> KeptScratch
        ensures { result.inside ≡ None }
    {
        KeptScratch {
            at: ptr::null_mut(),
            alloc,
        }
    }

    /// Returns the pointer of a scratch buffer.
    pub(crate) fn of(value: Loose<Scratch, Global>) -> KeptScratch
        ensures { result.inside ≡ Some value.value }
    {
        let Loose { at, alloc } = value;
        KeptScratch {
            at: at as *mut u8,
            alloc,
        }
    }

    /// Returns the scratch buffer of the pointer.
    pub(crate) fn into_loose(self) -> Loose<Scratch, Global>
        requires { IsSome self.inside }
        ensures { self.inside ≡ Some result.value }
    {
        let KeptScratch { at, alloc } = self;
        Loose {
            at: at as *mut Scratch,
            alloc,
        }
    }
}
