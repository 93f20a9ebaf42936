//! The saved cursor.
ghost use Rattle.std.specs.Prelude.{◌≡◌};
ghost use Rattle.vt_term.specs.Saving.{save_cursor, restore_cursor};

use crate::display::Display;
use crate::kind::Kind;
use crate::state::{Cursor, SavedOf};

impl<K: Kind> Display<K> {
    /// Carries out DECSC: saves the cursor.
    pub fn save_cursor(&mut self)
        ensures { self.new ≡ save_cursor self.old }
    {
        self.saved = SavedOf {
            row: self.cursor.row,
            col: self.cursor.col,
            wrap: self.cursor.wrap,
            brush: self.pen.brush(),
            g: self.sets.designations(),
            gl: self.sets.left(),
            gr: self.sets.right(),
            origin: self.modes.decom,
        };
    }

    /// Carries out DECRC: restores the saved cursor. It restores the wrap flag only under DECAWM. A pending single
    /// shift stays.
    pub fn restore_cursor(&mut self)
        ensures { self.new ≡ restore_cursor self.old }
    {
        let saved = self.saved;
        let row = if saved.origin {
            self.margins.top.max(saved.row.min(self.margins.bottom))
        } else {
            saved.row
        };
        self.cursor = Cursor {
            row,
            col: saved.col,
            wrap: saved.wrap && self.modes.decawm,
        };
        self.pen = K::of_brush(saved.brush);
        self.sets.restore(saved.g, saved.gl, saved.gr);
        self.modes.decom = saved.origin;
    }
}
