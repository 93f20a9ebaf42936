//! Moving the cursor. Each function resets the wrap flag, except DECSTBM with margins that have no effect.
ghost use Rattle.std.specs.Prelude.{◌≡◌, ◌≤◌};
ghost use Rattle.vt_term.specs.Moving.{home, backspace, carriage_return, cursor_up, cursor_down, cursor_forward};
ghost use Rattle.vt_term.specs.Moving.{cursor_backward, cursor_position, index, reverse_index, next_line, line_feed};
ghost use Rattle.vt_term.specs.Moving.{set_margins};
ghost use Rattle.vt_screen.specs.Grid.{scroll_up};
ghost use Rattle.vt_term.specs.Kinds.{kind_of};
ghost use Rattle.vt_term.specs.Moving.{index_any, reverse_index_any, next_line_any, line_feed_any};
ghost use Rattle.vt_screen.specs.Grid.{scroll_up_any};

use crate::display::Display;
use crate::kind::Kind;
use crate::state::{Cursor, Margins};
use vt_screen::ROWS;

impl<K: Kind> Display<K> {
    /// Carries out CR: moves the cursor to column 1.
    pub fn carriage_return(&mut self)
        ensures { self.new ≡ carriage_return self.old }
    {
        self.cursor = Cursor::at(self.cursor.row, 1);
    }

    /// Carries out IND: moves the cursor down by one, not past the last row. At the bottom margin the scroll region moves up
    /// instead.
    #[inline(never)]
    pub fn index(&mut self)
        ensures { self.new ≡ index_any (kind_of K.cells K.own) self.old }
    {
        let Cursor { row, col, .. } = self.cursor;
        if row == self.margins.bottom {
            self.cursor = Cursor::at(row, col);
            self.scroll_up_once();
        } else {
            self.cursor = Cursor::at((row + 1).min(self.screen.size().rows), col);
        }
    }

    /// Moves the scroll region up by one row. Speed: the whole screen of a VT220 has a separate call, which moves its rows by a
    /// copy of a fixed size.
    #[inline(always)]
    fn scroll_up_once(&mut self)
        ensures { self.new ≡ record self.old {
          grid = scroll_up_any K.cells.blank (K.own.emptied self.old.brush) self.old.grid self.old.margins.top self.old.margins.bottom 1;
        } }
    {
        if self.margins.top == 1 && self.margins.bottom == ROWS {
            self.screen.scroll_up_with(1, ROWS, 1, self.pen.emptied());
        } else {
            self.scroll_region_up();
        }
    }

    /// Moves the scroll region up by one row, at any margins.
    #[inline(never)]
    fn scroll_region_up(&mut self)
        ensures { self.new ≡ record self.old {
          grid = scroll_up_any K.cells.blank (K.own.emptied self.old.brush) self.old.grid self.old.margins.top self.old.margins.bottom 1;
        } }
    {
        self.screen.scroll_up_with(self.margins.top, self.margins.bottom, 1, self.pen.emptied());
    }

    /// Carries out RI: moves the cursor up by one, not past row 1. At the top margin the scroll region moves down
    /// instead.
    #[inline(never)]
    pub fn reverse_index(&mut self)
        ensures { self.new ≡ reverse_index_any (kind_of K.cells K.own) self.old }
    {
        let mut row = self.cursor.row;
        if row == self.margins.top {
            self.screen.scroll_down_with(
                self.margins.top,
                self.margins.bottom,
                1,
                self.pen.emptied(),
            );
        } else {
            row = (row - 1).max(1);
        }
        self.cursor = Cursor::at(row, self.cursor.col);
    }

    /// Carries out NEL: CR, and then IND.
    #[inline(never)]
    pub fn next_line(&mut self)
        ensures { self.new ≡ next_line_any (kind_of K.cells K.own) self.old }
    {
        self.carriage_return();
        self.index();
    }

    /// Carries out LF, VT and FF: IND, and under LNM also CR.
    pub fn line_feed(&mut self)
        ensures { self.new ≡ line_feed_any (kind_of K.cells K.own) self.old }
    {
        if self.modes.lnm {
            self.next_line();
        } else {
            self.index();
        }
    }

    /// Moves the cursor home: to column 1 of row 1, or under DECOM of the top margin's row.
    pub fn home(&mut self)
        ensures { self.new ≡ home self.old }
    {
        let row = if self.modes.decom {
            self.margins.top
        } else {
            1
        };
        self.cursor = Cursor::at(row, 1);
    }

    /// Carries out BS: moves the cursor left by one, not past column 1.
    pub fn backspace(&mut self)
        ensures { self.new ≡ backspace self.old }
    {
        self.cursor = Cursor::at(self.cursor.row, (self.cursor.col - 1).max(1));
    }

    /// Carries out CUU: moves the cursor up by `n`, not past the top margin. If it starts above the margin, it stops at
    /// row 1.
    pub fn cursor_up(&mut self, n: u16)
        ensures { self.new ≡ cursor_up n self.old }
    {
        let limit = if self.margins.top <= self.cursor.row {
            self.margins.top
        } else {
            1
        };
        let row = self.cursor.row.saturating_sub(n as usize).max(limit);
        self.cursor = Cursor::at(row, self.cursor.col);
    }

    /// Carries out CUD: moves the cursor down by `n`, not past the bottom margin. If it starts below the margin, it
    /// stops at the last row.
    pub fn cursor_down(&mut self, n: u16)
        ensures { self.new ≡ cursor_down n self.old }
    {
        let limit = if self.cursor.row <= self.margins.bottom {
            self.margins.bottom
        } else {
            self.screen.size().rows
        };
        let row = (self.cursor.row + n as usize).min(limit);
        self.cursor = Cursor::at(row, self.cursor.col);
    }

    /// Carries out CUF: moves the cursor right by `n`, not past the last column.
    pub fn cursor_forward(&mut self, n: u16)
        ensures { self.new ≡ cursor_forward n self.old }
    {
        let col = (self.cursor.col + n as usize).min(self.screen.width());
        self.cursor = Cursor::at(self.cursor.row, col);
    }

    /// Carries out CUB: moves the cursor left by `n`, not past column 1.
    pub fn cursor_backward(&mut self, n: u16)
        ensures { self.new ≡ cursor_backward n self.old }
    {
        let col = self.cursor.col.saturating_sub(n as usize).max(1);
        self.cursor = Cursor::at(self.cursor.row, col);
    }

    /// Carries out CUP and HVP: moves the cursor to a line and a column, for which 0 means 1. Under DECOM lines count
    /// from the top margin.
    ///
    /// Speed: a position on the screen is used as it is. Any other is bounded out of line.
    #[inline(always)]
    pub fn cursor_position(&mut self, line: u16, col: u16)
        ensures { self.new ≡ cursor_position line col self.old }
    {
        let row = line as usize;
        let column = col as usize;
        let is_row = row.wrapping_sub(1) < self.screen.size().rows;
        if !self.modes.decom && is_row && column.wrapping_sub(1) < self.screen.width() {
            self.cursor = Cursor::at(row, column);
            return;
        }
        self.bounded_position(line, col);
    }

    /// Moves the cursor to a line and column, within the screen or, under DECOM, the margins.
    #[inline(never)]
    fn bounded_position(&mut self, line: u16, col: u16)
        ensures { self.new ≡ cursor_position line col self.old }
    {
        let line = (line as usize).max(1);
        let row = if self.modes.decom {
            (self.margins.top + line - 1).min(self.margins.bottom)
        } else {
            line.min(self.screen.size().rows)
        };
        let col = (col as usize).max(1).min(self.screen.width());
        self.cursor = Cursor::at(row, col);
    }

    /// Carries out DECSTBM: sets margins of at least two rows, and moves the cursor home. Other margins have no effect.
    #[inline(never)]
    pub fn set_margins(&mut self, top: u16, bottom: u16)
        ensures { self.new ≡ set_margins top bottom self.old }
    {
        let top = (top as usize).max(1);
        let bottom = if bottom == 0 {
            self.screen.size().rows
        } else {
            (bottom as usize).min(self.screen.size().rows)
        };
        if top < bottom {
            self.margins = Margins { top, bottom };
            let row = if self.modes.decom { top } else { 1 };
            self.cursor = Cursor::at(row, 1);
        }
    }
}
