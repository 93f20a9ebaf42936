//! A terminal on a screen of another size.
ghost use Rattle.std.specs.Prelude.{◌≡◌, ◌≤◌, ◌+◌, ◌*◌, ◌++◌, vec_len, vec_capacity, IsOk, OnOk, OnErr};
ghost use Rattle.vt_term.specs.Text.{row_text_limit};
ghost use Rattle.vt_term.specs.Resizing.{count_off, col_on, cursor_on, saved_on, is_as_large, margins_on, modes_on};
ghost use Rattle.vt_term.specs.Resizing.{display_on_any, state_on, log_on, page_on, hidden_off, hidden_log};

use crate::display::Display;
use crate::kind::Kind;
use crate::page::SizedPage;
use crate::sized::SizedTerminal;
use crate::state::{Cursor, Margins, Modes, SavedOf};
use crate::text::push_rows;
use std::alloc::AllocError;
use vt_screen::Size;

/// Returns a column brought inside a screen of a width. If the wrap flag is set, it is first moved to the next column.
fn col_on(width: usize, col: usize, wrap: bool) -> usize
    ensures { result ≡ col_on width col wrap }
{
    if wrap && col < width {
        return col + 1;
    }
    col.min(width)
}

/// Returns the cursor brought inside a screen of so many rows and columns. A wrap flag stays in the last column.
fn cursor_on(cursor: Cursor, rows: usize, width: usize) -> Cursor
    ensures { result ≡ cursor_on rows width cursor }
{
    Cursor {
        row: cursor.row.min(rows),
        col: col_on(width, cursor.col, cursor.wrap),
        wrap: cursor.wrap && width <= cursor.col,
    }
}

/// Returns what DECSC saved after `off` rows have left at the top. Its place moves up with its row, and is brought inside in the
/// same way.
pub fn saved_on<B: Copy>(saved: SavedOf<B>, rows: usize, width: usize, off: usize) -> SavedOf<B>
    ensures { result ≡ saved_on rows width off saved }
{
    let mut inside = saved;
    inside.row = saved.row.saturating_sub(off).max(1).min(rows);
    inside.col = col_on(width, saved.col, saved.wrap);
    inside.wrap = saved.wrap && width <= saved.col;
    inside
}

impl<K: Kind> Display<K> {
    /// Returns how many rows leave at the top of a screen of another size: as many as the cursor would be below the last row.
    pub fn count_off(&self, size: Size) -> usize
        ensures off { result ≡ count_off size self.now }
        ensures bound { result ≤ self.now.grid.size.rows }
    {
        self.soundness();
        self.cursor.row.saturating_sub(size.rows)
    }

    /// Returns whether a screen of another size has as many rows and columns as this one.
    pub fn is_as_large(&self, size: Size) -> bool
        ensures { result ≡ is_as_large size self.now }
    {
        self.screen.size().rows == size.rows && self.screen.width() == self.screen.width_on(size)
    }

    /// Returns the margins on a screen of another size: full ones, unless it is as large.
    fn margins_on(&self, size: Size) -> Margins
        ensures { result ≡ margins_on size self.now }
    {
        if self.is_as_large(size) {
            return self.margins;
        }
        Margins::full(size.rows)
    }

    /// Returns the modes on a screen of another size: DECOM is reset, unless it is as large.
    fn modes_on(&self, size: Size) -> Modes
        ensures { result ≡ modes_on size self.now }
    {
        let mut modes = self.modes;
        modes.decom = self.modes.decom && self.is_as_large(size);
        modes
    }

    /// Makes another display, of any size, show what this one shows.
    pub fn resize_into(&self, target: &mut Display<K>)
        ensures { target.new ≡ display_on_any K.cells.blank target.old.grid.size self.now }
    {
        self.soundness();
        let size = target.screen.size();
        let width = self.screen.width_on(size);
        let off = self.count_off(size);
        target.screen.copy_on(&self.screen, off);
        target.cursor = cursor_on(self.cursor, size.rows, width);
        target.pen = self.pen;
        target.sets = self.sets;
        target.margins = self.margins_on(size);
        target.stops = self.stops.on(size.wide);
        target.modes = self.modes_on(size);
        target.saved = saved_on(self.saved, size.rows, width, off);
    }
}

impl SizedTerminal {
    /// Returns how many rows leave at the top if the terminal gets another size: as many as the cursor would be below the last
    /// row.
    pub fn count_off(&self, size: Size) -> usize
        ensures off { result ≡ count_off size self.now.display }
        ensures bound { result ≤ self.now.display.grid.size.rows }
    {
        self.display.count_off(size)
    }

    /// Appends to `out` what a change to another size adds to the log: the text of each row that leaves at the top, in UTF-8,
    /// without the spaces at its end, and LF.
    ///
    /// It first reserves `row_text_limit` bytes of capacity for each of these rows. Returns `Err` if that fails. Then the
    /// contents of `out` are unchanged.
    pub fn log_on(&self, size: Size, out: &mut Vec<u8>) -> Result<(), AllocError>
        ensures ok { OnOk result (out.new.items ≡ out.old.items ++ log_on size self.now) }
        ensures err { OnErr result (out.new.items ≡ out.old.items) }
        ensures has_room { vec_len out.old + count_off size self.now.display * row_text_limit self.now.display.grid.size
            ≤ vec_capacity out.old → IsOk result }
        ensures bounded { vec_len out.new
            ≤ vec_len out.old + count_off size self.now.display * row_text_limit self.now.display.grid.size }
        ensures capacity { vec_capacity out.old ≤ vec_capacity out.new }
    {
        let _ = self.size();
        let count = self.count_off(size);
        out.reserve(count * self.row_text_limit())?;
        push_rows(&self.display.screen, count, out);
        Ok(())
    }

    /// Makes another terminal, of any size, the state that this one gets if its screen changes to that size, the held part
    /// included. It never fails and allocates nothing. (xterm: a window that changes its size, without saved lines)
    ///
    /// If the cursor would be below the last row, so many rows leave at the top (`count_off`, `log_on`). The rows and columns
    /// that both screens have stay, and the others are blank. The saved place moves up with its row. The cursor and the saved
    /// place are brought inside. A wrap flag
    /// stays in the last column, and on a wider screen becomes the next column. Unless the screen has as many rows and
    /// columns as before, its margins are full, and DECOM is reset. Tab stops stay, and columns that come in have those of
    /// power-up.
    pub fn resize_into(&self, target: &mut SizedTerminal)
        ensures { target.new ≡ state_on target.old.display.grid.size self.now }
    {
        self.display.resize_into(&mut target.display);
        target.parser = self.parser.copied();
    }
}

impl SizedPage {
    /// Returns how many rows leave at the top if the screen gets another size and the page goes by its saved place: as many as
    /// this place would be below the last row.
    pub fn count_off(&self, size: Size) -> usize
        ensures off { result ≡ hidden_off size self.now }
        ensures bound { result ≤ self.now.grid.size.rows }
    {
        self.soundness();
        self.saved.row.saturating_sub(size.rows)
    }

    /// Appends to `out` what a change to another size adds to the log, as `SizedTerminal::log_on` does, if the page goes by its
    /// saved place.
    pub fn log_on(&self, size: Size, out: &mut Vec<u8>) -> Result<(), AllocError>
        ensures ok { OnOk result (out.new.items ≡ out.old.items ++ hidden_log size self.now) }
        ensures err { OnErr result (out.new.items ≡ out.old.items) }
        ensures has_room { vec_len out.old + hidden_off size self.now * row_text_limit self.now.grid.size ≤ vec_capacity out.old
            → IsOk result }
        ensures bounded { vec_len out.new ≤ vec_len out.old + hidden_off size self.now * row_text_limit self.now.grid.size }
        ensures capacity { vec_capacity out.old ≤ vec_capacity out.new }
    {
        let count = self.count_off(size);
        out.reserve(count * (3 * self.size().wide + 1))?;
        push_rows(&self.screen, count, out);
        Ok(())
    }

    /// Makes another page, of any size, show what this one shows after its first `off` rows have left at the top.
    /// The saved place moves up with its row, and is brought inside. It never fails and allocates nothing. (xterm: a window
    /// that changes its size; tmux: the saved place)
    pub fn resize_into(&self, off: usize, target: &mut SizedPage)
        requires { off ≤ self.now.grid.size.rows }
        ensures { target.new ≡ page_on target.old.grid.size off self.now }
    {
        self.soundness();
        let size = target.screen.size();
        target.screen.copy_on(&self.screen, off);
        target.saved = saved_on(self.saved, size.rows, self.screen.width_on(size), off);
    }
}
