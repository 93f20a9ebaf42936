//! The screen of an xterm as a machine, which a feed plays actions on.
ghost use Rattle.std.specs.Prelude.{◌≡◌, ◌≤◌, ◌+◌, ◌++◌, ℕ, [], All, map, length, vec_len, vec_capacity, None};

use crate::display::XtermDisplay;
use vt_feed::Machine;
use vt_syntax::{EventKind, FrontValues};

impl Machine for XtermDisplay {
    ghost use Rattle.std.specs.Prelude.{refl};
    ghost use Rattle.vt_xterm_display.specs.Functions.{xterm};

    ghost machine = { xterm };

    ghost prints_silently = { λ b s. refl };

    ghost writes_silently = { λ c s. refl };

    #[inline(always)]
    fn carry_out(&mut self, kind: EventKind, values: &[u16], out: &mut Vec<u8>) {
        self.carry_out_event(kind, values, out);
    }

    #[inline(always)]
    fn carry_out_values(&mut self, front: &FrontValues, out: &mut Vec<u8>) {
        self.carry_out_front(front, out);
    }

    #[inline(always)]
    fn write_plain(&mut self, run: &[u8]) {
        self.write_run(run);
    }

    #[inline(always)]
    fn write_graphic(&mut self, run: &[u8]) {
        self.print_each(run);
    }

    #[inline(always)]
    fn write_character(&mut self, c: char) {
        XtermDisplay::write_character(self, c);
    }
}
