//! Writing characters and marks.
ghost use Rattle.std.specs.Prelude.{◌≡◌, ◌≤◌, ◌<◌, ◌⊎◌, ◌+◌, ◌-◌, ◌*◌, true, false};
ghost use Rattle.vt_screen.specs.Grid.{at_or};
ghost use Rattle.vt_term.specs.Sound.{IsPlace};
ghost use Rattle.vt_wide.specs.Edits.{columns, joined_column};
ghost use Rattle.vt_xterm_cell.specs.Cells.{blank_cell, is_second};
ghost use Rattle.vt_xterm_cell.specs.Wide.{xterm_wide};
ghost use Rattle.vt_xterm_display.specs.State.{moved};
ghost use Rattle.vt_xterm_display.specs.Moving.{last_reached, is_between};
ghost use Rattle.vt_xterm_display.specs.Tabs.{times, is_pending};
ghost use Rattle.vt_xterm_display.specs.Writing.{wrapped, after_wrap, room, advanced, put, with_grid, with_over, with_inserted};
ghost use Rattle.vt_xterm_display.specs.Writing.{put_if_room, write, print};
ghost use Rattle.vt_xterm_display.specs.Writing.{mark, write_character, cell_before, repeated, room_after_wrap};
ghost use Rattle.vt_xterm_display.specs.Writing.{count_in, repeat};
ghost use Rattle.vt_xterm_display.specs.Rows.{incoming};

use crate::display::XtermDisplay;
use crate::sides::Sides;
use vt_term::Cursor;
use vt_utf8::cells;
use vt_wide::{Wide, join, joined_column, put, put_inserting};
use vt_xterm_cell::XtermCell;

/// Returns the number of columns of the character that begins with a cell.
#[inline(always)]
fn columns(cell: XtermCell) -> usize
    ensures value { result ≡ columns xterm_wide cell }
    ensures some { 1 ≤ result }
    ensures few { result ≤ 2 }
{
    if cell.is_wide() { 2 } else { 1 }
}

impl XtermDisplay {
    /// Carries out a pending wrap: IND, and the left margin's column.
    #[tactic(auto, unfolding(crate::specs::Writing::after_wrap))]
    pub(crate) fn carry_out_wrap(&mut self)
        ensures { self.new ≡ after_wrap self.old }
    {
        if self.is_pending() {
            self.index();
            self.place(self.shown.cursor.row, self.sides.left);
        }
    }

    /// Returns the number of columns from the cursor to the last one that it reaches.
    pub(crate) fn room(&self) -> usize
        ensures room { result ≡ room self.now.sides self.now.shown }
        ensures fits { self.now.shown.cursor.col + result ≡ last_reached self.now.sides self.now.shown + 1 }
        ensures some { 1 ≤ result }
    {
        self.last_reached() - self.shown.cursor.col + 1
    }

    /// Returns the cursor `n` columns on, and whether it waits there. From the last column that it reaches it doesn't go on, and under DECAWM
    /// a wrap is pending there.
    #[inline(always)]
    pub(crate) fn advanced(&self, n: usize) -> (Cursor, bool)
        requires some { 1 ≤ n }
        requires few { n ≤ 500 }
        ensures cursor { result.0 ≡ (advanced n self.now).shown.cursor }
        ensures waits { result.1 ≡ (advanced n self.now).waits }
        ensures place { IsPlace self.now.shown.grid.size.rows self.now.shown.grid.width result.0.row result.0.col result.0.wrap }
        ensures wraps { result.0.wrap ≡ true → self.now.shown.modes.decawm ≡ true }
        ensures waiting { result.1 ≡ true → (self.now.shown.modes.decawm ≡ true) × (result.0.col ≡ self.now.sides.right)
            × (self.now.sides.right < self.now.shown.grid.width) }
        ensures row { result.0.row ≡ self.now.shown.cursor.row }
        ensures columns { self.now.shown.modes.decom ≡ true → (self.now.sides.left ≤ result.0.col) × (result.0.col ≤ self.now.sides.right) }
    {
        self.soundness();
        let Cursor { row, col, .. } = self.shown.cursor;
        let last = self.last_reached();
        if col + n <= last {
            let cursor = Cursor {
                row,
                col: col + n,
                wrap: false,
            };
            return (cursor, false);
        }
        let is_last = last == self.shown.screen.width();
        let cursor = Cursor {
            row,
            col: last,
            wrap: self.shown.modes.decawm && is_last,
        };
        (cursor, self.shown.modes.decawm && !is_last)
    }

    /// Writes a character that has room. Under IRM, between the margins, the cells at and after the cursor move right first.
    #[tactic(auto, unfolding(crate::specs::Writing::put))]
    fn put(&mut self, cell: XtermCell)
        requires room { self.old.shown.cursor.col + columns xterm_wide cell ≤ last_reached self.old.sides self.old.shown + 1 }
        requires first { is_second cell ≡ false }
        ensures { self.new ≡ put cell self.old }
    {
        if self.shown.modes.irm && self.is_between() {
            self.put_inserted(cell);
        } else {
            self.put_over(cell);
        }
    }

    /// Writes a character that has room over what is there.
    #[inline(always)]
    fn put_over(&mut self, cell: XtermCell)
        requires room { self.old.shown.cursor.col + columns xterm_wide cell ≤ last_reached self.old.sides self.old.shown + 1 }
        requires first { is_second cell ≡ false }
        ensures { self.new ≡ with_grid (with_over cell self.old.shown) (advanced (columns xterm_wide cell) self.old) }
    {
        let Cursor { row, col, .. } = self.shown.cursor;
        let empty = self.incoming();
        let (cursor, waits) = self.advanced(columns(cell));
        self.shown.cursor = cursor;
        self.waits = waits;
        put(&mut self.shown.screen, row, col, cell, empty);
    }

    /// Writes a character that has room between the margins, after the cells at and after the cursor moved right.
    #[inline(never)]
    fn put_inserted(&mut self, cell: XtermCell)
        requires between { is_between self.old.sides self.old.shown ≡ true }
        requires room { self.old.shown.cursor.col + columns xterm_wide cell ≤ last_reached self.old.sides self.old.shown + 1 }
        requires first { is_second cell ≡ false }
        ensures { self.new ≡ with_grid (with_inserted cell self.old.sides self.old.shown) (advanced (columns xterm_wide cell) self.old) }
    {
        let Cursor { row, col, .. } = self.shown.cursor;
        let Sides { right, .. } = self.sides;
        let empty = self.incoming();
        let (cursor, waits) = self.advanced(columns(cell));
        self.shown.cursor = cursor;
        self.waits = waits;
        put_inserting(&mut self.shown.screen, row, col, right, cell, empty);
    }

    /// Writes the character that begins with a cell, if no wrap is pending. A wide one for which one column is left goes to the next line, and
    /// without DECAWM isn't written.
    #[tactic(auto, unfolding(crate::specs::Writing::put_if_room))]
    fn put_if_room(&mut self, cell: XtermCell)
        requires first { is_second cell ≡ false }
        ensures { self.new ≡ put_if_room cell self.old }
    {
        if columns(cell) <= self.room() {
            self.put(cell);
        } else if self.shown.modes.decawm {
            self.next_line();
            self.put(cell);
        }
    }

    /// Writes the character that begins with a cell, after a pending wrap.
    #[tactic(auto, unfolding(crate::specs::Writing::write))]
    pub(crate) fn write(&mut self, cell: XtermCell)
        requires first { is_second cell ≡ false }
        ensures { self.new ≡ write cell self.old }
    {
        self.carry_out_wrap();
        self.put_if_room(cell);
    }

    /// Writes the glyph of a graphic byte, which is read through the sets.
    pub(crate) fn print(&mut self, b: u8)
        requires graphic { ((0x20 ≤ b) × (b ≤ 0x7E)) ⊎ (0xA0 ≤ b) }
        ensures { self.new ≡ print b self.old }
    {
        if let Some(glyph) = self.shown.sets.read(b) {
            let cell = self.shown.pen.written(glyph);
            self.write(cell);
        }
    }

    /// Lets a mark join the character before the cursor, or under it in column 1 and if a wrap is pending.
    fn mark(&mut self, c: char)
        ensures { self.new ≡ mark c self.old }
    {
        let col = self.column_before();
        let Cursor { row, .. } = self.shown.cursor;
        join(&mut self.shown.screen, row, col, c);
    }

    /// Returns the column of the character that a mark joins.
    fn column_before(&self) -> usize
        ensures column { result ≡ joined_column xterm_wide blank_cell self.now.shown.grid self.now.shown.cursor.row self.now.shown.cursor.col
            (is_pending self.now) }
        ensures bounds { (1 ≤ result) × (result ≤ self.now.shown.grid.width) }
        ensures first { is_second (at_or blank_cell self.now.shown.grid self.now.shown.cursor.row result) ≡ false }
    {
        self.soundness();
        let Cursor { row, col, .. } = self.shown.cursor;
        joined_column(&self.shown.screen, row, col, self.is_pending())
    }

    /// Writes a character beyond ASCII, or lets it join the one before. It uses up a single shift if it is written.
    #[tactic(auto, unfolding(vt_glyph::specs::Invocation::after_read))]
    pub(crate) fn write_character(&mut self, c: char)
        ensures { self.new ≡ write_character c self.old }
    {
        let width = cells(c);
        if width == 0 {
            self.mark(c);
        } else if self.shown.modes.decawm || width <= self.room() {
            let _ = self.shown.sets.read(0x20);
            if let Some(cell) = self.shown.pen.with_character(c) {
                self.write(cell);
            }
        }
    }

    /// Returns the number of columns for REP: up to the last one that the cursor reaches, or between the margins if a wrap is pending.
    fn room_after_wrap(&self) -> usize
        ensures { result ≡ room_after_wrap self.now }
    {
        if self.is_pending() {
            self.sides.right - self.sides.left + 1
        } else {
            self.room()
        }
    }

    /// Writes the character that begins with a cell, so many times.
    fn write_times(&mut self, cell: XtermCell, n: usize)
        requires first { is_second cell ≡ false }
        ensures { self.new ≡ times n (write cell) self.old }
    {
        for _ in 0..n {
            self.write(cell);
        }
    }

    /// Carries out REP: writes the character before the cursor `n` times, and not past the last column that the cursor reaches.
    pub(crate) fn repeat(&mut self, n: u16)
        ensures { self.new ≡ repeat n self.old }
    {
        if self.shown.cursor.col == 1 && !self.is_pending() {
            return;
        }
        let before = self
            .shown
            .screen
            .cell(self.shown.cursor.row, self.column_before());
        let cell = before.in_look_of(self.shown.pen);
        let room = self.room_after_wrap();
        let count = if before.is_wide() { room / 2 } else { room };
        self.write_times(cell, (n as usize).min(count));
    }
}
