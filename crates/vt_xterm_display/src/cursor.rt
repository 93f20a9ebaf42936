//! Moving the cursor.
ghost use Rattle.std.specs.Prelude.{◌≡◌, ◌≤◌, true, if◌then◌else◌};
ghost use Rattle.vt_xterm_display.specs.State.{moved};
ghost use Rattle.vt_xterm_display.specs.Moving.{column_of, home, carriage_return, cursor_forward, cursor_backward, cursor_position};
ghost use Rattle.vt_xterm_display.specs.Moving.{cursor_character_absolute, character_position_forward, line_position_absolute};
ghost use Rattle.vt_xterm_display.specs.Moving.{line_position_forward, cursor_up_between, cursor_down_between, cursor_next_line};
ghost use Rattle.vt_xterm_display.specs.Moving.{cursor_preceding_line, set_margins, set_sides};
ghost use Rattle.vt_term.specs.Moving.{row_of_line};

use crate::display::XtermDisplay;
use crate::sides::Sides;
use vt_term::{Cursor, Margins};

/// Returns the row and the column of home, of a top and a left margin.
#[inline(always)]
pub(crate) fn home_between(decom: bool, top: usize, left: usize) -> (usize, usize)
    ensures row { result.0 ≡ (if decom then top else 1) }
    ensures col { result.1 ≡ (if decom then left else 1) }
{
    if decom { (top, left) } else { (1, 1) }
}

impl XtermDisplay {
    /// Returns the row of a line, which under DECOM counts from the top margin.
    #[inline(always)]
    fn row_of(&self, line: usize) -> usize
        requires some { 1 ≤ line }
        requires few { line ≤ 65535 }
        ensures value { result ≡ row_of_line line self.now.shown }
        ensures inside { (1 ≤ result) × (result ≤ self.now.shown.grid.size.rows) }
        ensures origin { self.now.shown.modes.decom ≡ true
            → (self.now.shown.margins.top ≤ result) × (result ≤ self.now.shown.margins.bottom) }
    {
        let margins = self.shown.margins;
        if self.shown.modes.decom {
            (margins.top + line - 1).min(margins.bottom)
        } else {
            line.min(self.shown.screen.size().rows)
        }
    }

    /// Returns the column of a number, which under DECOM counts from the left margin.
    #[inline(always)]
    fn column_of(&self, n: usize) -> usize
        requires some { 1 ≤ n }
        requires few { n ≤ 65535 }
        ensures value { result ≡ column_of self.now.sides n self.now.shown }
        ensures inside { (1 ≤ result) × (result ≤ self.now.shown.grid.width) }
        ensures origin { self.now.shown.modes.decom ≡ true → (self.now.sides.left ≤ result) × (result ≤ self.now.sides.right) }
    {
        if self.shown.modes.decom {
            (self.sides.left + n - 1).min(self.sides.right)
        } else {
            n.min(self.shown.screen.width())
        }
    }

    /// Moves the cursor home: to column 1 of row 1, or under DECOM to the left margin in the top margin's row.
    pub(crate) fn home(&mut self)
        ensures { self.new ≡ moved home self.old }
    {
        let Margins { top, .. } = self.shown.margins;
        let (row, col) = home_between(self.shown.modes.decom, top, self.sides.left);
        self.place(row, col);
    }

    /// Carries out CR: moves the cursor to the left margin. From left of it, without DECOM, the cursor moves to column 1.
    pub(crate) fn carriage_return(&mut self)
        ensures { self.new ≡ moved carriage_return self.old }
    {
        let col = if self.shown.modes.decom {
            self.sides.left
        } else {
            self.first_reached()
        };
        self.place(self.shown.cursor.row, col);
    }

    /// Carries out CUF: moves the cursor right by `n`, not past the last column that it reaches.
    pub(crate) fn cursor_forward(&mut self, n: u16)
        ensures { self.new ≡ moved (cursor_forward n) self.old }
    {
        let col = (self.shown.cursor.col + n as usize).min(self.last_reached());
        self.place(self.shown.cursor.row, col);
    }

    /// Carries out CUB, and BS by one: moves the cursor left by `n`, not past the first column that it reaches.
    pub(crate) fn cursor_backward(&mut self, n: u16)
        ensures { self.new ≡ moved (cursor_backward n) self.old }
    {
        let col = self.shown.cursor.col.saturating_sub(n as usize);
        self.place(self.shown.cursor.row, col.max(self.first_reached()));
    }

    /// Carries out CUP and HVP: moves the cursor to a line and a column, for which 0 means 1. Under DECOM they count from the margins.
    pub(crate) fn cursor_position(&mut self, line: u16, col: u16)
        ensures { self.new ≡ moved (cursor_position line col) self.old }
    {
        let row = self.row_of((line as usize).max(1));
        let col = self.column_of((col as usize).max(1));
        self.place(row, col);
    }

    /// Carries out CHA and HPA: moves the cursor to a column, which under DECOM counts from the left margin.
    pub(crate) fn cursor_character_absolute(&mut self, n: u16)
        requires { 1 ≤ n }
        ensures { self.new ≡ moved (cursor_character_absolute n) self.old }
    {
        let col = self.column_of(n as usize);
        self.place(self.shown.cursor.row, col);
    }

    /// Carries out HPR: moves the cursor right by `n`, not past the last column, or under DECOM not past the right margin.
    pub(crate) fn character_position_forward(&mut self, n: u16)
        ensures { self.new ≡ moved (character_position_forward n) self.old }
    {
        let last = if self.shown.modes.decom {
            self.sides.right
        } else {
            self.shown.screen.width()
        };
        let col = (self.shown.cursor.col + n as usize).min(last);
        self.place(self.shown.cursor.row, col);
    }

    /// Carries out VPA: moves the cursor to a line, in the same column.
    pub(crate) fn line_position_absolute(&mut self, n: u16)
        requires { 1 ≤ n }
        ensures { self.new ≡ moved (line_position_absolute n) self.old }
    {
        let row = self.row_of(n as usize);
        self.place(row, self.shown.cursor.col);
    }

    /// Carries out VPR: moves the cursor down by `n`, not past the last row, or under DECOM not past the bottom margin.
    pub(crate) fn line_position_forward(&mut self, n: u16)
        ensures { self.new ≡ moved (line_position_forward n) self.old }
    {
        let last = if self.shown.modes.decom {
            self.shown.margins.bottom
        } else {
            self.shown.screen.size().rows
        };
        let row = (self.shown.cursor.row + n as usize).min(last);
        self.place(row, self.shown.cursor.col);
    }

    /// Carries out CUU, as on a VT220.
    pub(crate) fn cursor_up(&mut self, n: u16)
        ensures { self.new ≡ moved (cursor_up_between n) self.old }
    {
        self.shown.cursor_up(n);
        self.waits = false;
    }

    /// Carries out CUD, as on a VT220.
    pub(crate) fn cursor_down(&mut self, n: u16)
        ensures { self.new ≡ moved (cursor_down_between n) self.old }
    {
        self.shown.cursor_down(n);
        self.waits = false;
    }

    /// Carries out CNL: CUD, and then CR.
    pub(crate) fn cursor_next_line(&mut self, n: u16)
        ensures { self.new ≡ moved (cursor_next_line n) self.old }
    {
        self.cursor_down(n);
        self.carriage_return();
    }

    /// Carries out CPL: CUU, and then CR.
    pub(crate) fn cursor_preceding_line(&mut self, n: u16)
        ensures { self.new ≡ moved (cursor_preceding_line n) self.old }
    {
        self.cursor_up(n);
        self.carriage_return();
    }

    /// Carries out DECSTBM: sets margins of at least two rows, and moves the cursor home. Other margins have no effect.
    pub(crate) fn set_margins(&mut self, top: u16, bottom: u16)
        ensures { self.new ≡ set_margins top bottom self.old }
    {
        let rows = self.shown.screen.size().rows;
        let first = (top as usize).max(1);
        let last = if bottom == 0 {
            rows
        } else {
            (bottom as usize).min(rows)
        };
        if first < last {
            self.shown.margins = Margins {
                top: first,
                bottom: last,
            };
            let (row, col) = home_between(self.shown.modes.decom, first, self.sides.left);
            self.shown.cursor = Cursor {
                row,
                col,
                wrap: false,
            };
            self.waits = false;
        }
    }

    /// Carries out DECSLRM: sets margins of at least two columns, and moves the cursor home. Other margins have no effect.
    pub(crate) fn set_sides(&mut self, left: u16, right: u16)
        requires { self.old.bounded ≡ true }
        ensures { self.new ≡ set_sides left right self.old }
    {
        if let Some(sides) = Sides::of(self.shown.screen.width(), left, right) {
            let (row, col) = home_between(
                self.shown.modes.decom,
                self.shown.margins.top,
                sides.left,
            );
            self.sides = sides;
            self.shown.cursor = Cursor {
                row,
                col,
                wrap: false,
            };
            self.waits = false;
        }
    }
}
