//! TERM=xterm as a profile of the terminal, whose left and right margins bound nothing.

use crate::finder::{is_own, is_own_plain};
use crate::front::SizedPages;
use crate::functions::{carry_out_wide, plain_sequence};
use vt_glyph::laws::{glyphs, soundness as sets_soundness};
use vt_screen::laws::{rows, tests};
use vt_syntax::{EventKind, FrontValues};
use vt_term::{Profile, SizedTerminal, Vt220};

/// Speed: what a VT220 carries out in the same way goes the VT220's way, which is inline.
impl Profile for SizedPages {
    ghost use Rattle.vt_xterm.specs.Pages.{Screens};
    ghost use Rattle.vt_xterm.specs.Private.Profiles.{screens_on, unbounded, unbounded_prints, AreOfOneSize};

    ghost Screens = { Screens };

    ghost screens = { screens_on };

    ghost machine = { unbounded };

    ghost OneSize = { AreOfOneSize };

    #[inline(always)]
    fn keeps_size(&self) {
        glyphs();
        sets_soundness();
        rows();
        tests();
    }

    ghost prints = { unbounded_prints };

    #[inline(always)]
    fn carry_out(
        &mut self,
        terminal: &mut SizedTerminal,
        kind: EventKind,
        values: &[u16],
        out: &mut Vec<u8>,
    ) {
        if is_own(kind, values) {
            carry_out_wide(terminal, self, kind, values, out);
        } else {
            Vt220.carry_out(terminal, kind, values, out);
        }
    }

    #[inline(always)]
    fn carry_out_values(
        &mut self,
        terminal: &mut SizedTerminal,
        front: &FrontValues,
        out: &mut Vec<u8>,
    ) {
        let list = [front.first, front.second, front.third];
        let values = &list[..front.count];
        if is_own_plain(values, front.last) {
            plain_sequence(terminal, self, values, front.last, out);
        } else {
            Vt220.carry_out_values(terminal, front, out);
        }
    }
}
