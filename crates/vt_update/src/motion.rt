//! Moves of the cursor to a position.
ghost use Rattle.std.specs.Prelude.{◌≤◌};

use crate::remote::{Remote, number};
use vt_paint::{DECAWM, DECOM, Function};
use vt_term::{Cursor, Margins, SizedTerminal};

/// The most cells that are written again to move the cursor past them.
const FEW: usize = 4;

impl Remote {
    /// Sends DECSTBM if the margins differ. The cursor is then home.
    pub(crate) fn set_margins(&mut self, margins: Margins) {
        if self.margins != margins {
            self.chosen.put(Function::margins_to(number(margins.top), number(margins.bottom)));
            self.margins = margins;
            self.home();
        }
    }

    /// Sends DECOM if it differs. The cursor is then home.
    pub(crate) fn set_origin(&mut self, on: bool) {
        if self.modes.decom != on {
            self.chosen.put(Function::mode(DECOM, on));
            self.modes.decom = on;
            self.home();
        }
    }

    /// Moves the cursor to column 1 of row 1, or under DECOM of the top margin's row.
    fn home(&mut self) {
        let row = if self.modes.decom {
            self.margins.top
        } else {
            1
        };
        self.stands_at(row, 1);
    }

    fn stands_at(&mut self, row: usize, col: usize) {
        self.cursor = Cursor {
            row,
            col,
            wrap: false,
        };
    }

    /// Moves the cursor to a position, with the wrap flag reset. All cells to its left in the row are those of `to`.
    #[inline(always)]
    pub(crate) fn go(&mut self, row: usize, col: usize, to: &SizedTerminal)
        requires { (1 ≤ row) × (row ≤ to.now.display.grid.size.rows) }
    {
        let at = self.cursor;
        if !(at.row == row && at.col == col && !at.wrap) {
            self.go_elsewhere(row, col, to);
        }
    }

    /// Moves the cursor to another position. Resets DECOM if the row is outside the margins.
    fn go_elsewhere(&mut self, row: usize, col: usize, to: &SizedTerminal)
        requires { (1 ≤ row) × (row ≤ to.now.display.grid.size.rows) }
    {
        if self.modes.decom && !(self.margins.top <= row && row <= self.margins.bottom) {
            self.set_origin(false);
        }
        if row == self.cursor.row {
            self.go_sideways(row, col, to);
        } else if self.cursor.row == row - 1 && self.cursor.row != self.margins.bottom {
            self.line_feed(row);
            self.go_sideways(row, col, to);
        } else {
            let line = if self.modes.decom {
                row.saturating_sub(self.margins.top).saturating_add(1)
            } else {
                row
            };
            self.cursor_position(line, col);
        }
        self.stands_at(row, col);
    }

    /// Sends CUP.
    fn cursor_position(&mut self, line: usize, col: usize) {
        self.chosen.put(if col == 1 {
            Function::cursor_to_line(number(line))
        } else {
            Function::cursor_to(number(line), number(col))
        });
    }

    /// Sends LF to the next row, which is `row`. Under LNM the cursor moves to column 1.
    pub(crate) fn line_feed(&mut self, row: usize) {
        self.chosen.put(Function::line_feed());
        let col = if self.modes.lnm { 1 } else { self.cursor.col };
        self.stands_at(row, col);
    }

    /// Moves the cursor to a column of its row: by BS, CUB, CR, the few cells between written again, or CUF.
    fn go_sideways(&mut self, row: usize, col: usize, to: &SizedTerminal)
        requires { (1 ≤ row) × (row ≤ to.now.display.grid.size.rows) }
    {
        let start = self.cursor.col;
        if 1 < col && col < start {
            self.chosen.put(match start - col {
                1 => Function::backspace(),
                n => Function::backward(number(n)),
            });
            return;
        }
        if col < start || self.cursor.wrap {
            self.chosen.put(Function::carriage_return());
            self.stands_at(row, 1);
        }
        let start = self.cursor.col;
        if start < col && !self.write_again(row, col, to) {
            self.chosen.put(Function::forward(number(col - start)));
        }
    }

    /// Writes the cells of the cursor's row up to a column again, if they are few and one byte each. Returns whether it
    /// did.
    fn write_again(&mut self, row: usize, col: usize, to: &SizedTerminal) -> bool
        requires row { (1 ≤ row) × (row ≤ to.now.display.grid.size.rows) }
    {
        let start = self.cursor.col;
        let cells = to.row(row);
        if start < 1 || col <= start || col - start > FEW || cells.len() < col || self.modes.irm {
            return false;
        }
        let gap = &cells[start - 1..col - 1];
        for cell in gap.iter() {
            if !self.has_brush(cell) || self.one_byte(cell.glyph).is_none() {
                return false;
            }
        }
        for cell in gap.iter() {
            self.write(cell, false);
        }
        true
    }

    /// Moves the cursor to its position in the target. If its wrap flag is set, the last cell of the row is written
    /// again, which sets the flag. All cells are those of the target.
    pub(crate) fn stand(&mut self, cursor: Cursor, to: &SizedTerminal)
        requires { (1 ≤ cursor.row) × (cursor.row ≤ to.now.display.grid.size.rows) }
    {
        if self.cursor == cursor {
            return;
        }
        self.go(cursor.row, cursor.col, to);
        if cursor.wrap {
            if !self.modes.decawm {
                self.chosen.put(Function::mode(DECAWM, true));
                self.modes.decawm = true;
            }
            let cells = to.row(cursor.row);
            if let Some(cell) = cells.last() {
                self.write(cell, false);
            }
        }
    }
}
