//! Inserting, deleting and erasing. Each function resets the wrap flag, unless its parameter isn't listed.
ghost use Rattle.std.specs.Prelude.{◌≡◌, ◌≤◌};
ghost use Rattle.vt_screen.specs.Grid.{columns_of, span_of};
ghost use Rattle.vt_term.specs.Editing.{erase_in_display_any, erase_in_line_any, erased_area, with_grid};
ghost use Rattle.vt_term.specs.Kinds.{kind_of};
ghost use Rattle.vt_term.specs.Editing.{insert_line_any, delete_line_any, insert_character_any, delete_character_any, erase_character_any};

use crate::display::Display;
use crate::kind::Kind;
use crate::state::Cursor;

impl<K: Kind> Display<K> {
    /// Carries out IL: inserts `n` blank rows at the cursor's row, and moves the cursor to column 1. The rows down to
    /// the bottom margin move down. Outside the margins it only resets the wrap flag.
    #[inline(never)]
    pub fn insert_line(&mut self, n: u16)
        ensures { self.new ≡ insert_line_any (kind_of K.cells K.own) n self.old }
    {
        let row = self.cursor.row;
        if self.margins.top <= row && row <= self.margins.bottom {
            self.screen
                .scroll_down_with(row, self.margins.bottom, n, self.pen.emptied());
            self.cursor = Cursor::at(row, 1);
        } else {
            self.cursor.wrap = false;
        }
    }

    /// Carries out DL: deletes `n` rows starting at the cursor's row, and moves the cursor to column 1. The rows down
    /// to the bottom margin move up. Outside the margins it only resets the wrap flag.
    #[inline(never)]
    pub fn delete_line(&mut self, n: u16)
        ensures { self.new ≡ delete_line_any (kind_of K.cells K.own) n self.old }
    {
        let row = self.cursor.row;
        if self.margins.top <= row && row <= self.margins.bottom {
            self.screen
                .scroll_up_with(row, self.margins.bottom, n, self.pen.emptied());
            self.cursor = Cursor::at(row, 1);
        } else {
            self.cursor.wrap = false;
        }
    }

    /// Carries out ICH: inserts `n` blank cells at the cursor.
    #[inline(never)]
    pub fn insert_character(&mut self, n: u16)
        ensures { self.new ≡ insert_character_any (kind_of K.cells K.own) n self.old }
    {
        self.screen
            .insert_with(self.cursor.row, self.cursor.col, n, self.pen.emptied());
        self.cursor.wrap = false;
    }

    /// Carries out DCH: deletes `n` cells starting at the cursor.
    #[inline(never)]
    pub fn delete_character(&mut self, n: u16)
        ensures { self.new ≡ delete_character_any (kind_of K.cells K.own) n self.old }
    {
        self.screen
            .delete_with(self.cursor.row, self.cursor.col, n, self.pen.emptied());
        self.cursor.wrap = false;
    }

    /// Carries out ECH: blanks `n` cells starting at the cursor, at least one, not past the last column.
    #[inline(never)]
    pub fn erase_character(&mut self, n: u16)
        requires { 1 ≤ n }
        ensures { self.new ≡ erase_character_any (kind_of K.cells K.own) n self.old }
    {
        let Cursor { col, .. } = self.cursor;
        let to = (col + n as usize - 1).min(self.screen.width());
        self.erase_columns(col, to, false);
    }

    /// Carries out EL, and DECSEL, which is selective: 0 erases starting at the cursor, 1 up to the cursor, 2 the whole
    /// line.
    #[inline(never)]
    pub fn erase_in_line(&mut self, selective: bool, p: u16)
        ensures { self.new ≡ erase_in_line_any (kind_of K.cells K.own) selective p self.old }
    {
        let Cursor { col, .. } = self.cursor;
        let width = self.screen.width();
        match p {
            0 => self.erase_columns(col, width, selective),
            1 => self.erase_columns(1, col, selective),
            2 => self.erase_columns(1, width, selective),
            _ => {}
        }
    }

    /// Erases columns of the cursor's row.
    #[inline(always)]
    fn erase_columns(&mut self, from: usize, to: usize, selective: bool)
        requires { (1 ≤ from) × (from ≤ to) × (to ≤ self.old.grid.width) }
        ensures { self.new ≡ with_grid (erased_area (kind_of K.cells K.own) self.old (columns_of self.old.cursor.row from to) selective) self.old }
    {
        self.screen
            .erase_with(self.cursor.row, from, to, selective, self.pen.emptied());
        self.cursor.wrap = false;
    }

    /// Carries out ED, and DECSED, which is selective: 0 erases starting at the cursor, 1 up to the cursor, 2 the whole
    /// screen.
    #[inline(never)]
    pub fn erase_in_display(&mut self, selective: bool, p: u16)
        ensures { self.new ≡ erase_in_display_any (kind_of K.cells K.own) selective p self.old }
    {
        let Cursor { row, col, .. } = self.cursor;
        let (rows, width) = (self.screen.size().rows, self.screen.width());
        match p {
            0 => self.erase_span(row, col, rows, width, selective),
            1 => self.erase_span(1, 1, row, col, selective),
            2 => self.erase_span(1, 1, rows, width, selective),
            _ => {}
        }
    }

    /// Erases the cells from one place to another, both included, in the order of reading.
    fn erase_span(&mut self, row: usize, col: usize, to_row: usize, to_col: usize, selective: bool)
        requires from { (1 ≤ row) × (1 ≤ col) × (col ≤ self.old.grid.width) }
        requires to { (row ≤ to_row) × (to_row ≤ self.old.grid.size.rows) × (1 ≤ to_col) × (to_col ≤ self.old.grid.width) }
        requires order { row ≡ to_row → col ≤ to_col }
        ensures { self.new ≡ with_grid (erased_area (kind_of K.cells K.own) self.old (span_of row col to_row to_col) selective) self.old }
    {
        self.screen
            .erase_span(row, col, to_row, to_col, selective, self.pen.emptied());
        self.cursor.wrap = false;
    }
}
