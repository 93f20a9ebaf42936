//! Calls for a front with left and right margins, which a VT220 lacks (see `fronts.rt`).
ghost use Rattle.std.specs.Prelude.{◌≡◌, ◌≤◌, ◌⊎◌, ◌+◌, ◌==◌, ◌&&◌, nat_lt, if◌then◌else◌};
ghost use Rattle.vt_syntax.specs.declared.held.Held.TheVariants.{Nothing};
ghost use Rattle.vt_glyph.specs.Invocation.{glyph_read, after_read};
ghost use Rattle.vt_screen.specs.Cells.{cell_of};
ghost use Rattle.vt_screen.specs.Grid.{put};
ghost use Rattle.vt_screen.specs.Between.{columns_up, columns_down, insert_between, delete_between, put_between};
ghost use Rattle.vt_term.specs.State.{at_place};

use crate::sized::SizedTerminal;
use crate::state::Cursor;
use vt_glyph::Glyph;
use vt_screen::Cell;
use vt_syntax::Parser;

impl SizedTerminal {
    /// Moves the rows from `top` to the bottom margin up by `n`, between two columns. Blank cells come in. The cursor stays.
    pub fn columns_up(&mut self, top: usize, left: usize, right: usize, n: u16)
        requires some { 1 ≤ n }
        requires rows { (1 ≤ top) × (top ≤ self.old.display.margins.bottom) }
        requires columns { (1 ≤ left) × (left ≤ right) × (right ≤ self.old.display.grid.width) }
        ensures { self.new ≡ record self.old {
          display = record self.old.display {
            grid = columns_up self.old.display.grid top self.old.display.margins.bottom left right n;
          };
        } }
    {
        let bottom = self.display.margins.bottom;
        self.display
            .screen
            .columns_up(top, bottom, left, right, n, Cell::blank());
    }

    /// Moves the rows from `top` to the bottom margin down by `n`, between two columns. Blank cells come in. The cursor stays.
    pub fn columns_down(&mut self, top: usize, left: usize, right: usize, n: u16)
        requires some { 1 ≤ n }
        requires rows { (1 ≤ top) × (top ≤ self.old.display.margins.bottom) }
        requires columns { (1 ≤ left) × (left ≤ right) × (right ≤ self.old.display.grid.width) }
        ensures { self.new ≡ record self.old {
          display = record self.old.display {
            grid = columns_down self.old.display.grid top self.old.display.margins.bottom left right n;
          };
        } }
    {
        let bottom = self.display.margins.bottom;
        self.display
            .screen
            .columns_down(top, bottom, left, right, n, Cell::blank());
    }

    /// Inserts `n` blank cells at the cursor, up to a column. The cursor stays.
    pub fn insert_between(&mut self, right: usize, n: u16)
        requires some { 1 ≤ n }
        requires columns { (self.old.display.cursor.col ≤ right) × (right ≤ self.old.display.grid.width) }
        ensures { self.new ≡ record self.old {
          display = record self.old.display {
            grid = insert_between self.old.display.grid self.old.display.cursor.row self.old.display.cursor.col right n;
          };
        } }
    {
        let Cursor { row, col, .. } = self.display.cursor;
        self.display
            .screen
            .insert_between(row, col, right, n, Cell::blank());
    }

    /// Removes `n` cells at the cursor, up to a column. The cursor stays.
    pub fn delete_between(&mut self, right: usize, n: u16)
        requires some { 1 ≤ n }
        requires columns { (self.old.display.cursor.col ≤ right) × (right ≤ self.old.display.grid.width) }
        ensures { self.new ≡ record self.old {
          display = record self.old.display {
            grid = delete_between self.old.display.grid self.old.display.cursor.row self.old.display.cursor.col right n;
          };
        } }
    {
        let Cursor { row, col, .. } = self.display.cursor;
        self.display
            .screen
            .delete_between(row, col, right, n, Cell::blank());
    }

    /// Writes a glyph at the cursor. If `inserts`, the cells up to the column `last` first move right. Then the cursor
    /// moves on, up to that column. The wrap flag is reset, but set in the last column of the screen under DECAWM.
    pub fn put_glyph(&mut self, glyph: Glyph, last: usize, inserts: bool)
        requires columns { (self.old.display.cursor.col ≤ last) × (last ≤ self.old.display.grid.width) }
        ensures { self.new ≡ record self.old {
          display = record self.old.display {
            grid = if inserts
                then put_between self.old.display.grid self.old.display.cursor.row self.old.display.cursor.col last
                (cell_of glyph self.old.display.brush)
                else put self.old.display.grid self.old.display.cursor.row self.old.display.cursor.col
                (cell_of glyph self.old.display.brush);
            cursor = if nat_lt self.old.display.cursor.col last
                then at_place self.old.display.cursor.row (self.old.display.cursor.col + 1)
                else record self.old.display.cursor {
                  wrap = self.old.display.modes.decawm && self.old.display.cursor.col == self.old.display.grid.width;
                };
          };
        } }
    {
        let Cursor { row, col, .. } = self.display.cursor;
        let cell = Cell::new(glyph, self.display.pen.brush());
        if inserts {
            self.display.screen.insert_between(row, col, last, 1, cell);
        } else {
            self.display.screen.put_vt220(row, col, cell);
        }
        if col < last {
            self.display.cursor = Cursor::at(row, col + 1);
        } else if col == self.display.screen.width() {
            self.display.cursor.wrap = self.display.modes.decawm;
        } else {
            self.display.cursor.wrap = false;
        }
    }

    /// Drops what is held: an unfinished sequence has no function then.
    pub fn drop_held(&mut self)
        ensures { self.new ≡ record self.old { held = Nothing } }
    {
        self.parser = Parser::new();
    }

    /// Reads a graphic byte through the sets, and returns its glyph, if it has one. A single shift is then no longer pending.
    pub fn read_glyph(&mut self, b: u8) -> Option<Glyph>
        requires { ((0x20 ≤ b) × (b ≤ 0x7E)) ⊎ (0xA0 ≤ b) }
        ensures glyph { result ≡ glyph_read self.old.display.sets b }
        ensures state { self.new ≡ record self.old {
          display = record self.old.display { sets = after_read self.old.display.sets b };
        } }
    {
        self.display.sets.read(b)
    }
}
