//! Erasing, inserting and deleting characters.
ghost use Rattle.std.specs.Prelude.{◌≡◌, ◌≤◌};
ghost use Rattle.vt_xterm_display.specs.State.{moved};
ghost use Rattle.vt_xterm_display.specs.Editing.{with_erased, with_erased_span, erase_character, erase_in_line, erase_in_display};
ghost use Rattle.vt_xterm_display.specs.Editing.{insert_character, delete_character};

use crate::display::XtermDisplay;
use vt_term::Cursor;
use vt_wide::{delete, erase, erase_span, insert};

impl XtermDisplay {
    /// Erases columns of the cursor's row.
    fn erase_columns(&mut self, from: usize, to: usize, selective: bool)
        requires { (1 ≤ from) × (from ≤ to) × (to ≤ self.old.shown.grid.width) }
        ensures { self.new ≡ moved (λ m s. with_erased selective from to s) self.old }
    {
        let empty = self.incoming();
        let Cursor { row, .. } = self.shown.cursor;
        erase(&mut self.shown.screen, row, from, to, selective, empty);
        self.shown.cursor.wrap = false;
        self.waits = false;
    }

    /// Carries out ECH: erases `n` characters starting at the cursor, not past the last column.
    pub(crate) fn erase_character(&mut self, n: u16)
        requires { 1 ≤ n }
        ensures { self.new ≡ moved (erase_character n) self.old }
    {
        let Cursor { col, .. } = self.shown.cursor;
        let to = (col + n as usize - 1).min(self.shown.screen.width());
        self.erase_columns(col, to, false);
    }

    /// Carries out EL, and DECSEL, which is selective: 0 erases starting at the cursor, 1 up to the cursor, 2 the whole row.
    pub(crate) fn erase_in_line(&mut self, selective: bool, p: u16)
        ensures { self.new ≡ erase_in_line selective p self.old }
    {
        let Cursor { col, .. } = self.shown.cursor;
        let width = self.shown.screen.width();
        match p {
            0 => self.erase_columns(col, width, selective),
            1 => self.erase_columns(1, col, selective),
            2 => self.erase_columns(1, width, selective),
            _ => {}
        }
    }

    /// Erases the places from one to another, both included, in the order of reading.
    fn erase_places(
        &mut self,
        row: usize,
        col: usize,
        to_row: usize,
        to_col: usize,
        selective: bool,
    )
        requires from { (1 ≤ row) × (1 ≤ col) × (col ≤ self.old.shown.grid.width) }
        requires to { (row ≤ to_row) × (to_row ≤ self.old.shown.grid.size.rows) × (1 ≤ to_col) × (to_col ≤ self.old.shown.grid.width) }
        requires order { row ≡ to_row → col ≤ to_col }
        ensures { self.new ≡ moved (λ m s. with_erased_span selective row col to_row to_col s) self.old }
    {
        let empty = self.incoming();
        erase_span(
            &mut self.shown.screen,
            row,
            col,
            to_row,
            to_col,
            selective,
            empty,
        );
        self.shown.cursor.wrap = false;
        self.waits = false;
    }

    /// Carries out ED, and DECSED, which is selective: 0 erases starting at the cursor, 1 up to the cursor, 2 the whole screen.
    pub(crate) fn erase_in_display(&mut self, selective: bool, p: u16)
        ensures { self.new ≡ erase_in_display selective p self.old }
    {
        let Cursor { row, col, .. } = self.shown.cursor;
        let (rows, width) = (self.shown.screen.size().rows, self.shown.screen.width());
        match p {
            0 => self.erase_places(row, col, rows, width, selective),
            1 => self.erase_places(1, 1, row, col, selective),
            2 => self.erase_places(1, 1, rows, width, selective),
            _ => {}
        }
    }

    /// Carries out ICH: inserts `n` cells at the cursor, between the margins. Elsewhere it only resets a pending wrap.
    pub(crate) fn insert_character(&mut self, n: u16)
        ensures { self.new ≡ moved (insert_character n) self.old }
    {
        self.shown.cursor.wrap = false;
        self.waits = false;
        if self.is_between() {
            let Cursor { row, col, .. } = self.shown.cursor;
            let empty = self.incoming();
            insert(&mut self.shown.screen, row, col, self.sides.right, n, empty);
        }
    }

    /// Carries out DCH: deletes `n` cells starting at the cursor, between the margins. Elsewhere it has no effect.
    pub(crate) fn delete_character(&mut self, n: u16)
        ensures { self.new ≡ delete_character n self.old }
    {
        let Cursor { row, col, .. } = self.shown.cursor;
        if self.is_between() {
            let empty = self.incoming();
            delete(&mut self.shown.screen, row, col, self.sides.right, n, empty);
            self.shown.cursor.wrap = false;
            self.waits = false;
        }
    }
}
