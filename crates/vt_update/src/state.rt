//! The sets, the modes and the saved record.
ghost use Rattle.std.specs.Prelude.{◌≤◌, ◌<◌};

use crate::remote::Remote;
use vt_glyph::{Set, Sets};
use vt_paint::{Function, mode_values};
use vt_term::{Cursor, Margins, Modes, Saved, SizedTerminal};

impl Remote {
    /// Sends SCS.
    pub(crate) fn designate(&mut self, slot: u8, set: Set)
        requires { slot < 4 }
    {
        self.chosen.put(Function::designation(slot, set));
        self.sets.designate(slot, set);
    }

    /// Sends LS0 to LS3.
    pub(crate) fn lock_left(&mut self, slot: u8)
        requires { slot < 4 }
    {
        self.chosen.put(Function::lock_left(slot));
        self.sets.lock_left(slot);
    }

    /// Sends LS1R to LS3R.
    fn lock_right(&mut self, slot: u8)
        requires { (1 ≤ slot) × (slot < 4) }
    {
        self.chosen.put(Function::lock_right(slot));
        self.sets.lock_right(slot);
    }

    /// Sends the designations and locking shifts that differ. The single shift of `sets` isn't used.
    pub(crate) fn set_sets(&mut self, sets: &Sets) {
        for slot in 0..4u8 {
            if self.sets.set(slot) != sets.set(slot) {
                self.designate(slot, sets.set(slot));
            }
        }
        if self.sets.left() != sets.left() {
            self.lock_left(sets.left());
        }
        if self.sets.right() != sets.right() {
            self.lock_right(sets.right());
        }
    }

    /// Sends SS2 or SS3 if a single shift is pending in the target.
    pub(crate) fn set_shift(&mut self, pending: Option<u8>) {
        if let Some(slot) = pending {
            self.chosen.put(Function::single_shift(slot));
        }
    }

    /// Sets all modes except DECOM, with the keypad and the form of reports.
    pub(crate) fn set_modes(&mut self, new: Modes) {
        let now = self.modes;
        if now == new {
            return;
        }
        let old = mode_values(now);
        for (i, on) in mode_values(new).iter().enumerate() {
            if old[i] != *on {
                self.chosen.put(Function::mode(i, *on));
            }
        }
        self.modes = new;
    }

    /// Sends the saved record if it differs: it makes the state that the record holds, and saves it by DECSC. All cells
    /// are those of the target.
    pub(crate) fn set_saved(&mut self, saved: Saved, to: &SizedTerminal)
        requires row { (1 ≤ saved.row) × (saved.row ≤ to.now.display.grid.size.rows) }
        requires left { saved.gl < 4 }
        requires right { (1 ≤ saved.gr) × (saved.gr < 4) }
    {
        if self.saved == saved {
            return;
        }
        let inside = self.margins.top <= saved.row && saved.row <= self.margins.bottom;
        if saved.origin && !inside {
            self.set_margins(Margins {
                top: 1,
                bottom: to.size().rows,
            });
        }
        self.set_origin(saved.origin);
        let cursor = Cursor {
            row: saved.row,
            col: saved.col,
            wrap: saved.wrap,
        };
        self.stand(cursor, to);
        self.set_brush(saved.brush);
        let mut sets = self.sets;
        sets.restore(saved.g, saved.gl, saved.gr);
        self.set_sets(&sets);
        self.chosen.put(Function::save_cursor());
        self.saved = saved;
        self.set_margins(to.margins());
    }
}
