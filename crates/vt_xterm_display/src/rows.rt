//! Rows that move between all four margins.
ghost use Rattle.std.specs.Prelude.{◌≡◌, ◌≤◌};
ghost use Rattle.vt_xterm_display.specs.State.{moved, between};
ghost use Rattle.vt_xterm_display.specs.Rows.{rows_up_from, rows_down_from, index, reverse_index, next_line, line_feed};
ghost use Rattle.vt_xterm_display.specs.Rows.{rows_up, rows_down, is_enclosed, insert_line, delete_line};

use crate::display::XtermDisplay;
use crate::sides::Sides;
use vt_term::{Cursor, Margins};
use vt_wide::{move_down, move_up};

impl XtermDisplay {
    /// Moves the rows from one to the bottom margin up by `n`.
    fn rows_up_from(&mut self, top: usize, n: u16)
        requires { (1 ≤ top) × (top ≤ self.old.shown.margins.bottom) }
        ensures { self.new ≡ between (λ m s. record s { grid = rows_up_from top n m s }) self.old }
    {
        let Margins { bottom, .. } = self.shown.margins;
        let empty = self.incoming();
        move_up(
            &mut self.shown.screen,
            top,
            bottom,
            self.sides.left,
            self.sides.right,
            n,
            empty,
        );
    }

    /// Moves the rows from one to the bottom margin down by `n`.
    fn rows_down_from(&mut self, top: usize, n: u16)
        requires { (1 ≤ top) × (top ≤ self.old.shown.margins.bottom) }
        ensures { self.new ≡ between (λ m s. record s { grid = rows_down_from top n m s }) self.old }
    {
        let Margins { bottom, .. } = self.shown.margins;
        let empty = self.incoming();
        move_down(
            &mut self.shown.screen,
            top,
            bottom,
            self.sides.left,
            self.sides.right,
            n,
            empty,
        );
    }

    /// Carries out IND: moves the cursor down by one, not past the last row. At the bottom margin the rows move up instead.
    pub(crate) fn index(&mut self)
        ensures { self.new ≡ moved index self.old }
    {
        let Cursor { row, col, .. } = self.shown.cursor;
        let Margins { top, bottom } = self.shown.margins;
        if row == bottom {
            self.place(row, col);
            if self.is_between() {
                self.rows_up_from(top, 1);
            }
        } else {
            let below = (row + 1).min(self.shown.screen.size().rows);
            self.place(below, col);
        }
    }

    /// Carries out RI: moves the cursor up by one, not past row 1. At the top margin the rows move down instead.
    pub(crate) fn reverse_index(&mut self)
        ensures { self.new ≡ moved reverse_index self.old }
    {
        let Cursor { row, col, .. } = self.shown.cursor;
        let Margins { top, .. } = self.shown.margins;
        if row == top {
            self.place(row, col);
            if self.is_between() {
                self.rows_down_from(top, 1);
            }
        } else {
            self.place((row - 1).max(1), col);
        }
    }

    /// Carries out NEL: IND, and then CR.
    pub(crate) fn next_line(&mut self)
        ensures { self.new ≡ moved next_line self.old }
    {
        self.index();
        self.carriage_return();
    }

    /// Carries out LF, VT and FF: IND, and under LNM NEL.
    pub(crate) fn line_feed(&mut self)
        ensures { self.new ≡ moved line_feed self.old }
    {
        if self.shown.modes.lnm {
            self.next_line();
        } else {
            self.index();
        }
    }

    /// Carries out SU: moves the rows between the margins up by `n`. The cursor stays.
    pub(crate) fn rows_up(&mut self, n: u16)
        ensures { self.new ≡ between (rows_up n) self.old }
    {
        let Margins { top, .. } = self.shown.margins;
        self.rows_up_from(top, n);
    }

    /// Carries out SD: moves the rows between the margins down by `n`. The cursor stays.
    pub(crate) fn rows_down(&mut self, n: u16)
        ensures { self.new ≡ between (rows_down n) self.old }
    {
        let Margins { top, .. } = self.shown.margins;
        self.rows_down_from(top, n);
    }

    /// Returns whether the cursor is between all four margins.
    fn is_enclosed(&self) -> bool
        ensures { result ≡ is_enclosed self.now.sides self.now.shown }
    {
        let Margins { top, bottom } = self.shown.margins;
        top <= self.shown.cursor.row && self.shown.cursor.row <= bottom && self.is_between()
    }

    /// Carries out IL: inserts `n` rows at the cursor's row, and moves the cursor to the left margin. Outside the margins it has no effect.
    pub(crate) fn insert_line(&mut self, n: u16)
        ensures { self.new ≡ insert_line n self.old }
    {
        let Cursor { row, .. } = self.shown.cursor;
        let Sides { left, .. } = self.sides;
        if self.is_enclosed() {
            self.place(row, left);
            self.rows_down_from(row, n);
        }
    }

    /// Carries out DL: deletes `n` rows starting at the cursor's row, and moves the cursor to the left margin. Outside the margins it has
    /// no effect.
    pub(crate) fn delete_line(&mut self, n: u16)
        ensures { self.new ≡ delete_line n self.old }
    {
        let Cursor { row, .. } = self.shown.cursor;
        let Sides { left, .. } = self.sides;
        if self.is_enclosed() {
            self.place(row, left);
            self.rows_up_from(row, n);
        }
    }
}
