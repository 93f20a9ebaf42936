//! An xterm's screen.
ghost use Rattle.std.specs.Prelude.{◌≡◌, ◌≤◌, length};

use crate::renderable::Renderable;
use vt_screen::{MOST, Size};
use vt_term::{Cursor, Modes};
use vt_xterm_cell::XtermCell;
use vt_xterm_display::Xterm;

impl Renderable for Xterm {
    ghost size_of = { λ x. x.screen.shown.grid.size };

    fn size(&self) -> Size {
        Xterm::size(self)
    }

    fn read_row(&self, row: usize, cells: &mut [XtermCell; MOST]) -> usize {
        let _ = Xterm::size(self);
        let read = self.screen().shown.screen.row(row);
        for (i, cell) in read.iter().enumerate() {
            let mut copy = *cell;
            copy.set_protected(false);
            cells[i] = copy;
        }
        read.len()
    }

    fn cursor(&self) -> Cursor {
        // For the bounds of the cursor.
        let shown = &self.screen().shown;
        shown.soundness();
        let _ = shown.screen.size();
        Xterm::cursor(self)
    }

    fn modes(&self) -> Modes {
        Xterm::modes(self)
    }

    fn is_xterm(&self) -> bool {
        true
    }
}
