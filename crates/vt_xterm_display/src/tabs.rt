//! Tabs.
ghost use Rattle.std.specs.Prelude.{◌≡◌, ◌≤◌, true, length};
ghost use Rattle.vt_xterm_display.specs.State.{moved};
ghost use Rattle.vt_xterm_display.specs.Tabs.{horizontal_tab, waiting, cursor_forward_tabulation, stop_before, back_tab, times, is_pending};
ghost use Rattle.vt_xterm_display.specs.Tabs.{cursor_backward_tabulation};

use crate::display::XtermDisplay;
use crate::sides::Sides;
use vt_term::{Cursor, next_stop};

/// Returns the nearest stop left of a column, or else column 1.
fn stop_before(stops: &[bool], col: usize) -> usize
    requires { (1 ≤ col) × (col ≤ length stops.now) }
    ensures value { result ≡ stop_before stops.now col }
    ensures some { 1 ≤ result }
    ensures within { result ≤ col }
{
    let mut c = col;
    while c > 1 {
        c -= 1;
        if c > 1 && stops[c - 1] {
            return c;
        }
    }
    1
}

impl XtermDisplay {
    /// Moves the cursor to the next stop, and not past the right margin.
    fn horizontal_tab(&mut self)
        ensures { self.new ≡ moved horizontal_tab self.old }
    {
        let Cursor { row, col, .. } = self.shown.cursor;
        let width = self.shown.screen.width();
        let shown = &self.shown;
        let stop = next_stop(shown.stops(), col, width);
        let Sides { right, .. } = self.sides;
        self.place(row, stop.min(right));
    }

    /// Moves the cursor to the right margin, where the pending wrap waits unless the margin parts a character.
    #[tactic(auto, unfolding(crate::specs::Whole::parts_none))]
    fn wait(&mut self)
        requires { is_pending self.old ≡ true }
        ensures { self.new ≡ waiting self.old }
    {
        let Sides { right, .. } = self.sides;
        self.soundness();
        if right < self.shown.screen.width() {
            let Cursor { row, .. } = self.shown.cursor;
            self.waits = !self.shown.screen.cell(row, right + 1).is_second();
            self.shown.cursor = Cursor {
                row,
                col: right,
                wrap: false,
            };
        }
    }

    /// Carries out CHT, and HT with 1: moves the cursor to the next stop, `n` times.
    pub(crate) fn cursor_forward_tabulation(&mut self, n: u16)
        ensures { self.new ≡ cursor_forward_tabulation n self.old }
    {
        if self.is_pending() {
            self.wait();
        } else {
            let width = self.shown.screen.width();
            self.tab_times((n as usize).min(width));
        }
    }

    /// Moves the cursor to the next stop, so many times.
    fn tab_times(&mut self, n: usize)
        ensures { self.new ≡ times n (moved horizontal_tab) self.old }
    {
        for _ in 0..n {
            self.horizontal_tab();
        }
    }

    /// Moves the cursor to the stop before it, and under DECOM not left of the left margin.
    fn back_tab(&mut self)
        ensures { self.new ≡ moved back_tab self.old }
    {
        let Cursor { row, col, .. } = self.shown.cursor;
        let first = if self.shown.modes.decom {
            self.sides.left
        } else {
            1
        };
        let shown = &self.shown;
        let stop = stop_before(shown.stops(), col);
        self.place(row, stop.max(first));
    }

    /// Carries out CBT: moves the cursor to the stop before it, `n` times.
    pub(crate) fn cursor_backward_tabulation(&mut self, n: u16)
        ensures { self.new ≡ cursor_backward_tabulation n self.old }
    {
        let count = (n as usize).min(self.shown.screen.width());
        for _ in 0..count {
            self.back_tab();
        }
    }
}
