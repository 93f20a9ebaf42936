//! The screen, and all changes that a terminal makes to it.
ghost use Rattle.std.specs.Prelude.{◌≡◌, ℕ, ◌+◌, ◌<◌, ◌≤◌, ◌⊎◌, ◌↔◌, false, IsTrue, IfOk, All, length, map, replicate};
ghost use Rattle.vt_glyph.specs.Encoding.{IsEncoding, encoded_glyph};
ghost use Rattle.vt_glyph.specs.Invocation.{HasGlyph, glyph_in_use};
ghost use Rattle.vt_screen.specs.Sizes.{stride, room};
ghost use Rattle.vt_screen.specs.Order.{stored_or};

use crate::cell::Cell;
use crate::kind::Cells;
use crate::line::{
    erase_cells, fill_line, insert_blanks, insert_cell, remove_cells, write_codes, write_graphics,
};
use crate::order::RowOrder;
use crate::size::{ROWS, Size};
use std::alloc::{AllocError, Global};
use std::marker::Model;
use vt_glyph::InUse;
use vt_glyph::laws::{ascii_codes, glyphs};

/// A grid of cells of one of two widths, initially blank. (VT220 manual, chapter 4: DECCOLM sets the width. The VT220
/// has 24 rows of 80 or 132 cells.)
///
/// Rows and columns count from 1. Only `new` and `with_size` allocate, and only they can fail.
#[derive(Drop)]
pub struct Screen<C: Cells = Cell> {
    cells: Vec<C>,
    order: RowOrder,
    width: usize,
}

impl<C: Cells> Model for Screen<C> {
    ghost use Rattle.std.specs.Prelude.{◌≡◌, length};
    ghost use Rattle.vt_screen.specs.Grid.{GridOf, IsSoundGridOf, grid_of, grid_code};
    ghost use Rattle.vt_screen.specs.Sizes.{room};
    ghost use Rattle.vt_screen.specs.Order.{stored_or};

    ghost Value = { GridOf C };

    ghost coded = { grid_code C.code };

    ghost view = { λ s. grid_of s.order.size s.width (stored_or C.cells.blank s.order s.cells.items) };

    ghost invariant = { λ s. (length s.cells.items ≡ room s.order.size)
        × IsSoundGridOf C.cells.shown (grid_of s.order.size s.width (stored_or C.cells.blank s.order s.cells.items)) };
}

/// Returns `n` times a cell. (Not `vec!`: of a clone of any type only its own `is_clone` is known.)
fn filled<C: Cells>(alloc: Global, n: usize, cell: C) -> Result<Vec<C>, AllocError>
    ensures { IfOk result (λ v. v.items ≡ replicate n cell) }
{
    let mut cells = Vec::new(alloc);
    match cells.resize(n, cell) {
        Ok(()) => Ok(cells),
        Err(e) => Err(e),
    }
}

/// Writes one cell over the rows from `first` to `end`, `end` excluded.
#[inline(always)]
fn fill_rows<C: Cells>(
    cells: &mut [C],
    order: &RowOrder,
    first: usize,
    end: usize,
    width: usize,
    cell: &C,
)
    requires room { length cells.old ≡ room order.now.size }
    requires rows { (1 ≤ first) × (first ≤ end) × (end ≤ order.now.size.rows + 1) }
    requires width { width ≤ stride order.now.size }
    ensures inside { (r c : ℕ) → first ≤ r → r < end → 1 ≤ c → c ≤ width → stored_or C.cells.blank order.now cells.new r c ≡ cell.now }
    ensures outside { (r c : ℕ) → 1 ≤ r → r ≤ order.now.size.rows → (r < first) ⊎ (end ≤ r) → 1 ≤ c → c ≤ width
        → stored_or C.cells.blank order.now cells.new r c ≡ stored_or C.cells.blank order.now cells.old r c }
{
    for row in first..end {
        let start = order.start(row);
        fill_line(&mut cells[start..start + width], cell);
    }
}

impl<C: Cells> Screen<C> {
    ghost use Rattle.vt_screen.specs.Sizes.{IsSize};
    ghost use Rattle.vt_screen.specs.Kinds.{erased_any};
    ghost use Rattle.vt_screen.specs.Grid.{IsGrid, IsSoundGridOf, at_or, row_or, put_any, put_inserting_any, changed_any, columns_of, span_of};
    ghost use Rattle.vt_screen.specs.Grid.{insert_any, delete_any, scroll_up_any, scroll_down_any, fill_any, blank_any};
    ghost use Rattle.vt_screen.specs.Grid.{grid_on_any, row_from_any, width_on_any};
    ghost use Rattle.vt_screen.specs.Between.{given_any, insert_between_any, delete_between_any};

    /// Returns a narrow screen of a size, all blank. It allocates memory for a wide one. Returns `Err` if allocation
    /// fails.
    pub fn with_size(alloc: Global, size: Size) -> Result<Screen<C>, AllocError>
        requires { IsSize size }
        ensures { IfOk result (λ screen. screen ≡ blank_any C.cells.blank size false) }
    {
        let order = RowOrder::new(size);
        Ok(Screen {
            cells: filled(alloc, size.rows * size.wide, C::empty())?,
            order,
            width: size.narrow,
        })
    }

    /// Returns the size: the rows, and the columns of the narrow and of the wide screen.
    #[inline(always)]
    pub fn size(&self) -> Size
        ensures size { result ≡ self.now.size }
        ensures sound { IsSize self.now.size }
    {
        self.order.size()
    }

    /// Makes the screen equal to another one of the same size.
    pub fn copy_from(&mut self, other: &Screen<C>)
        requires { self.old.size ≡ other.now.size }
        ensures { self.new ≡ other.now }
    {
        self.cells.copy_from_slice(&other.cells);
        self.order = other.order.copied();
        self.width = other.width;
    }

    /// Returns whether the two screens have the same size, the same width and the same cells.
    pub fn same(&self, other: &Screen<C>) -> bool
        ensures { IsTrue result ↔ (self.now ≡ other.now) }
    {
        let size = self.order.size();
        if !size.same(other.order.size()) {
            return false;
        }
        if self.width != other.width {
            return false;
        }
        for row in 1..size.rows + 1 {
            if !C::same_row(self.row(row), other.row(row)) {
                return false;
            }
        }
        true
    }

    /// Returns the number of columns on a screen of another size: those of its wide form, if this screen is wide.
    pub fn width_on(&self, size: Size) -> usize
        ensures { result ≡ width_on_any size self.now }
    {
        size.columns(self.width == self.order.size().wide)
    }

    /// Makes the screen show the cells of another one of any size, after the first `off` rows of that one have left at the top. The
    /// columns and rows that both have stay, from the top left, and the others are blank. It becomes wide if the other one is
    /// wide. It allocates nothing. (xterm: a window that changes its size)
    pub fn copy_on(&mut self, other: &Screen<C>, off: usize)
        requires { off ≤ other.now.size.rows }
        ensures grid { self.new ≡ grid_on_any C.cells.blank self.old.size off other.now }
        ensures sound { IsSoundGridOf C.cells.shown self.new }
    {
        let from = other.order.size();
        self.set_width(other.width == from.wide);
        let end = self.order.size().rows.min(from.rows - off) + 1;
        for row in 1..end {
            self.copy_row(row, other, row + off);
        }
    }

    /// Writes the cells of a row of another screen over those of a row, as many as both have.
    fn copy_row(&mut self, row: usize, other: &Screen<C>, from: usize)
        requires row { (1 ≤ row) × (row ≤ self.old.size.rows) }
        requires from { (1 ≤ from) × (from ≤ other.now.size.rows) }
        ensures grid { self.new ≡ row_from_any C.cells.blank self.old row other.now from }
        ensures sound { IsSoundGridOf C.cells.shown self.new }
    {
        let count = self.width.min(other.width);
        let start = self.order.start(row);
        self.cells[start..start + count].copy_from_slice(&other.row(from)[..count]);
    }

    /// States that the grid is sound, for proofs. It does nothing when it runs.
    #[inline(always)]
    pub(crate) fn soundness(&self)
        ensures grid { IsGrid self.now }
        ensures sound { IsSoundGridOf C.cells.shown self.now }
    {
        let _ = &self.order;
    }

    /// Returns the number of columns.
    pub fn width(&self) -> usize
        ensures width { result ≡ self.now.width }
        ensures grid { IsGrid self.now }
        ensures sound { IsSoundGridOf C.cells.shown self.now }
    {
        self.width
    }

    /// Returns the cell at a row and a column, from 1.
    pub fn cell(&self, row: usize, column: usize) -> C
        requires row { (1 ≤ row) × (row ≤ self.now.size.rows) }
        requires column { (1 ≤ column) × (column ≤ self.now.width) }
        ensures { result ≡ at_or C.cells.blank self.now row column }
    {
        self.cells[self.order.start(row) + column - 1]
    }

    /// Returns the cells of a row: as many as the screen has columns.
    pub fn row(&self, row: usize) -> &[C]
        requires { (1 ≤ row) × (row ≤ self.now.size.rows) }
        ensures cells { result.now ≡ row_or C.cells.blank self.now row }
        ensures len { length result.now ≡ self.now.width }
        ensures grid { IsGrid self.now }
        ensures sound { IsSoundGridOf C.cells.shown self.now }
    {
        let start = self.order.start(row);
        &self.cells[start..start + self.width]
    }

    /// Writes a cell over the one at a row and a column.
    #[inline(always)]
    pub fn put(&mut self, row: usize, column: usize, cell: C)
        requires row { (1 ≤ row) × (row ≤ self.old.size.rows) }
        requires column { (1 ≤ column) × (column ≤ self.old.width) }
        ensures grid { self.new ≡ put_any C.cells.blank self.old row column cell }
        ensures sound { IsSoundGridOf C.cells.shown self.new }
    {
        cell.is_sound();
        let start = self.order.start(row);
        self.cells[start + column - 1] = cell;
    }

    /// Inserts a cell at a row and a column. The cells starting there move right by one, and the last cell of the row
    /// is lost. (IRM, ECMA-48 7.2)
    #[inline(never)]
    pub fn put_inserting(&mut self, row: usize, column: usize, cell: C)
        requires row { (1 ≤ row) × (row ≤ self.old.size.rows) }
        requires column { (1 ≤ column) × (column ≤ self.old.width) }
        ensures grid { self.new ≡ put_inserting_any C.cells.blank self.old row column cell }
        ensures sound { IsSoundGridOf C.cells.shown self.new }
    {
        cell.is_sound();
        let start = self.order.start(row);
        insert_cell(&mut self.cells[start..start + self.width], column - 1, cell);
    }

    /// Erases the columns `from` to `to` of a row, both included. (ED, EL, ECH, ECMA-48 8.3.39, 8.3.41, 8.3.38;
    /// selectively DECSED, DECSEL)
    ///
    /// Erased cells are blank, even if they were protected. A selective erase leaves protected cells unchanged. It
    /// clears the glyph of the other cells, and their attributes stay.
    pub fn erase_with(&mut self, row: usize, from: usize, to: usize, selective: bool, empty: C)
        requires row { (1 ≤ row) × (row ≤ self.old.size.rows) }
        requires columns { (1 ≤ from) × (from ≤ to) × (to ≤ self.old.width) }
        ensures grid { self.new ≡ changed_any C.cells.blank (erased_any C.cells selective empty) self.old (columns_of row from to) }
        ensures sound { IsSoundGridOf C.cells.shown self.new }
    {
        empty.is_sound();
        let start = self.order.start(row);
        erase_cells(
            &mut self.cells[start + from - 1..start + to],
            selective,
            empty,
        );
    }

    /// Erases the cells from one place to another, both included, in the order of reading. (ED, ECMA-48 8.3.39;
    /// selectively DECSED)
    pub fn erase_span(
        &mut self,
        row: usize,
        column: usize,
        to_row: usize,
        to_column: usize,
        selective: bool,
        empty: C,
    )
        requires from { (1 ≤ row) × (1 ≤ column) × (column ≤ self.old.width) }
        requires to { (row ≤ to_row) × (to_row ≤ self.old.size.rows) × (1 ≤ to_column) × (to_column ≤ self.old.width) }
        requires order { row ≡ to_row → column ≤ to_column }
        ensures grid { self.new ≡ changed_any C.cells.blank (erased_any C.cells selective empty) self.old
            (span_of row column to_row to_column) }
        ensures sound { IsSoundGridOf C.cells.shown self.new }
    {
        let width = self.width();
        for each in row..to_row + 1 {
            let from = if each == row { column } else { 1 };
            let to = if each == to_row { to_column } else { width };
            self.erase_with(each, from, to, selective, empty);
        }
    }

    /// Inserts `n` blank cells at a row and a column. The cells starting there move right, and those that pass the last
    /// column are lost. (ICH, ECMA-48 8.3.64)
    pub fn insert_with(&mut self, row: usize, column: usize, n: u16, empty: C)
        requires row { (1 ≤ row) × (row ≤ self.old.size.rows) }
        requires column { (1 ≤ column) × (column ≤ self.old.width) }
        ensures grid { self.new ≡ insert_any C.cells.blank empty self.old row column n }
        ensures sound { IsSoundGridOf C.cells.shown self.new }
    {
        let width = self.width();
        self.insert_between(row, column, width, n, empty);
    }

    /// Inserts `n` cells at a row and a column. The cells starting there move right, and those that pass the column `right`
    /// are lost.
    pub fn insert_between(&mut self, row: usize, column: usize, right: usize, n: u16, empty: C)
        requires row { (1 ≤ row) × (row ≤ self.old.size.rows) }
        requires columns { (1 ≤ column) × (column ≤ right) × (right ≤ self.old.width) }
        ensures grid { self.new ≡ insert_between_any C.cells.blank empty self.old row column right n }
        ensures sound { IsSoundGridOf C.cells.shown self.new }
    {
        empty.is_sound();
        let start = self.order.start(row);
        let count = (n as usize).min(right + 1 - column);
        insert_blanks(
            &mut self.cells[start..start + right],
            column - 1,
            count,
            empty,
        );
    }

    /// Deletes `n` cells starting at a row and a column. The cells after them move left, and blank cells are added at
    /// the end of the row. (DCH, ECMA-48 8.3.26)
    pub fn delete_with(&mut self, row: usize, column: usize, n: u16, empty: C)
        requires row { (1 ≤ row) × (row ≤ self.old.size.rows) }
        requires column { (1 ≤ column) × (column ≤ self.old.width) }
        ensures grid { self.new ≡ delete_any C.cells.blank empty self.old row column n }
        ensures sound { IsSoundGridOf C.cells.shown self.new }
    {
        let width = self.width();
        self.delete_between(row, column, width, n, empty);
    }

    /// Deletes `n` cells starting at a row and a column. The cells after them, up to the column `right`, move left, and
    /// `empty` comes in there.
    pub fn delete_between(&mut self, row: usize, column: usize, right: usize, n: u16, empty: C)
        requires row { (1 ≤ row) × (row ≤ self.old.size.rows) }
        requires columns { (1 ≤ column) × (column ≤ right) × (right ≤ self.old.width) }
        ensures grid { self.new ≡ delete_between_any C.cells.blank empty self.old row column right n }
        ensures sound { IsSoundGridOf C.cells.shown self.new }
    {
        empty.is_sound();
        let start = self.order.start(row);
        let count = (n as usize).min(right + 1 - column);
        remove_cells(
            &mut self.cells[start..start + right],
            column - 1,
            count,
            empty,
        );
    }

    /// Copies the cells of a row, between two columns, over those of another row.
    pub(crate) fn copy_columns(&mut self, from: usize, to: usize, left: usize, right: usize)
        requires from { (1 ≤ from) × (from ≤ self.old.size.rows) }
        requires to { (1 ≤ to) × (to ≤ self.old.size.rows) }
        requires columns { (1 ≤ left) × (left ≤ right) × (right ≤ self.old.width) }
        ensures grid { self.new ≡ given_any C.cells.blank self.old (columns_of to left right) (λ r c. at_or C.cells.blank self.old from c) }
        ensures sound { IsSoundGridOf C.cells.shown self.new }
    {
        let place = self.order.start(to) + left - 1;
        let source = self.order.start(from);
        self.cells
            .copy_within(source + left - 1..source + right, place);
    }

    /// Moves the rows `top` to `bottom` up by `n`. The first `n` are lost, and blank rows are added at the bottom.
    /// (IND; DL, ECMA-48 8.3.32)
    #[inline(always)]
    pub fn scroll_up_with(&mut self, top: usize, bottom: usize, n: u16, empty: C)
        requires { (1 ≤ top) × (top ≤ bottom) × (bottom ≤ self.old.size.rows) }
        ensures grid { self.new ≡ scroll_up_any C.cells.blank empty self.old top bottom n }
        ensures sound { IsSoundGridOf C.cells.shown self.new }
    {
        empty.is_sound();
        if n == 1 {
            // The whole screen of the VT220 has a separate call: its table is moved by a copy of a fixed size.
            if top == 1 && bottom == ROWS {
                return self.scroll_up_once(1, ROWS, empty);
            }
            return self.scroll_up_once(top, bottom, empty);
        }
        let count = (n as usize).min(bottom - top + 1);
        self.order.move_up(top, bottom, count);
        let (first, end) = (bottom + 1 - count, bottom + 1);
        fill_rows(&mut self.cells, &self.order, first, end, self.width, &empty);
    }

    /// Moves the rows `top` to `bottom` down by `n`. The last `n` are lost, and blank rows are added at the top. (RI,
    /// IL, ECMA-48 8.3.104, 8.3.67)
    #[inline(always)]
    pub fn scroll_down_with(&mut self, top: usize, bottom: usize, n: u16, empty: C)
        requires { (1 ≤ top) × (top ≤ bottom) × (bottom ≤ self.old.size.rows) }
        ensures grid { self.new ≡ scroll_down_any C.cells.blank empty self.old top bottom n }
        ensures sound { IsSoundGridOf C.cells.shown self.new }
    {
        empty.is_sound();
        if n == 1 {
            return self.scroll_down_once(top, bottom, empty);
        }
        let count = (n as usize).min(bottom - top + 1);
        self.order.move_down(top, bottom, count);
        fill_rows(
            &mut self.cells,
            &self.order,
            top,
            top + count,
            self.width,
            &empty,
        );
    }

    /// Moves the rows `top` to `bottom` up by 1, without a loop. Speed: most scrolls are by one row.
    #[inline(always)]
    fn scroll_up_once(&mut self, top: usize, bottom: usize, empty: C)
        requires { (1 ≤ top) × (top ≤ bottom) × (bottom ≤ self.old.size.rows) }
        ensures grid { self.new ≡ scroll_up_any C.cells.blank empty self.old top bottom 1 }
        ensures sound { IsSoundGridOf C.cells.shown self.new }
    {
        empty.is_sound();
        self.order.move_up_once(top, bottom);
        fill_rows(
            &mut self.cells,
            &self.order,
            bottom,
            bottom + 1,
            self.width,
            &empty,
        );
    }

    /// Moves the rows `top` to `bottom` down by 1, without a loop. Speed: most scrolls are by one row.
    #[inline(always)]
    fn scroll_down_once(&mut self, top: usize, bottom: usize, empty: C)
        requires { (1 ≤ top) × (top ≤ bottom) × (bottom ≤ self.old.size.rows) }
        ensures grid { self.new ≡ scroll_down_any C.cells.blank empty self.old top bottom 1 }
        ensures sound { IsSoundGridOf C.cells.shown self.new }
    {
        empty.is_sound();
        self.order.move_down_once(top, bottom);
        fill_rows(
            &mut self.cells,
            &self.order,
            top,
            top + 1,
            self.width,
            &empty,
        );
    }

    /// Writes one cell at every position. (VT220 manual: DECALN)
    pub fn fill(&mut self, cell: C)
        ensures grid { self.new ≡ fill_any self.old cell }
        ensures sound { IsSoundGridOf C.cells.shown self.new }
    {
        cell.is_sound();
        let end = self.order.size().rows + 1;
        fill_rows(&mut self.cells, &self.order, 1, end, self.width, &cell);
    }

    /// Makes the screen wide or narrow. It blanks every cell, even if the width doesn't change. (VT220 manual: DECCOLM)
    pub fn set_width(&mut self, wide: bool)
        ensures grid { self.new ≡ blank_any C.cells.blank self.old.size wide }
        ensures sound { IsSoundGridOf C.cells.shown self.new }
    {
        let size = self.order.size();
        self.width = size.columns(wide);
        fill_rows(
            &mut self.cells,
            &self.order,
            1,
            size.rows + 1,
            self.width,
            &C::empty(),
        );
    }
}

impl Screen {
    ghost use Rattle.vt_screen.specs.Sizes.{vt220_size};
    ghost use Rattle.vt_screen.specs.Grid.{IsSoundGrid, put_run, blank_grid, erase, put};
    ghost use Rattle.vt_screen.specs.Grid.{insert_cells, delete_cells, scroll_up, scroll_down};

    /// Returns a narrow screen of the VT220's size, all blank. It allocates memory for a wide one, 24 rows of 132 cells.
    /// Returns `Err` if allocation fails.
    pub fn new(alloc: Global) -> Result<Screen, AllocError>
        ensures { IfOk result (λ screen. screen ≡ blank_grid vt220_size false) }
    {
        Screen::with_size(alloc, Size::vt220())
    }

    /// Writes ASCII codes, each from 20 to 7E, starting at a row and a column. The result is that of writing them one
    /// after another. The cells get the attributes and the protection of `like`. The codes end at or before the last
    /// column. Without codes nothing changes.
    ///
    /// (The clause is stated in glyphs: that of an ASCII code has the same number.)
    #[inline(always)]
    pub fn put_run(&mut self, row: usize, column: usize, codes: &[u8], like: Cell)
        requires row { (1 ≤ row) × (row ≤ self.old.size.rows) }
        requires column { (1 ≤ column) × (column ≤ self.old.width) }
        requires codes { All (λ code. (0x20 ≤ code) × (code ≤ 0x7E)) codes.now }
        requires room { column + length codes.now ≤ self.old.width + 1 }
        ensures grid { self.new ≡ put_run self.old row column codes.now like }
        ensures sound { IsSoundGrid self.new }
    {
        ascii_codes();
        self.put_codes(row, column, codes, like);
    }

    /// Writes graphic bytes, each from 20 to 7E or from A1 to FE, starting at a row and a column. They are read through
    /// the sets in GL and GR. The result is that of writing them one after another. The cells get the attributes and
    /// the protection of `like`. The bytes end at or before the last column. Without bytes nothing changes.
    #[inline(always)]
    pub fn put_graphics(
        &mut self,
        row: usize,
        column: usize,
        bytes: &[u8],
        table: &InUse,
        like: Cell,
    )
        requires row { (1 ≤ row) × (row ≤ self.old.size.rows) }
        requires column { (1 ≤ column) × (column ≤ self.old.width) }
        requires bytes { All HasGlyph bytes.now }
        requires room { column + length bytes.now ≤ self.old.width + 1 }
        ensures grid { self.new ≡ put_run self.old row column (map (glyph_in_use table.now) bytes.now) like }
        ensures sound { IsSoundGrid self.new }
    {
        glyphs();
        let start = self.order.start(row) + column - 1;
        write_graphics(
            &mut self.cells[start..start + bytes.len()],
            bytes,
            table,
            like,
        );
    }

    /// Writes the glyphs with these codes, starting at a row and a column. The result is that of writing them one after
    /// another. The cells get the attributes and the protection of `like`. The glyphs end at or before the last column.
    /// Without codes nothing changes.
    #[inline(always)]
    pub fn put_codes(&mut self, row: usize, column: usize, codes: &[u8], like: Cell)
        requires row { (1 ≤ row) × (row ≤ self.old.size.rows) }
        requires column { (1 ≤ column) × (column ≤ self.old.width) }
        requires codes { All IsEncoding codes.now }
        requires room { column + length codes.now ≤ self.old.width + 1 }
        ensures grid { self.new ≡ put_run self.old row column (map encoded_glyph codes.now) like }
        ensures sound { IsSoundGrid self.new }
    {
        let start = self.order.start(row) + column - 1;
        write_codes(&mut self.cells[start..start + codes.len()], codes, like);
    }

    /// Erases the columns `from` to `to` of a row, both included, with blank cells.
    #[inline(always)]
    pub fn erase(&mut self, row: usize, from: usize, to: usize, selective: bool)
        requires row { (1 ≤ row) × (row ≤ self.old.size.rows) }
        requires columns { (1 ≤ from) × (from ≤ to) × (to ≤ self.old.width) }
        ensures grid { self.new ≡ erase self.old row from to selective }
        ensures sound { IsSoundGrid self.new }
    {
        self.erase_with(row, from, to, selective, Cell::blank());
    }

    /// Writes a cell over the one at a row and a column.
    #[inline(always)]
    pub fn put_vt220(&mut self, row: usize, column: usize, cell: Cell)
        requires row { (1 ≤ row) × (row ≤ self.old.size.rows) }
        requires column { (1 ≤ column) × (column ≤ self.old.width) }
        ensures grid { self.new ≡ put self.old row column cell }
        ensures sound { IsSoundGrid self.new }
    {
        self.put(row, column, cell);
    }

    /// Inserts `n` blank cells at a row and a column.
    #[inline(always)]
    pub fn insert_cells(&mut self, row: usize, column: usize, n: u16)
        requires row { (1 ≤ row) × (row ≤ self.old.size.rows) }
        requires column { (1 ≤ column) × (column ≤ self.old.width) }
        ensures grid { self.new ≡ insert_cells self.old row column n }
        ensures sound { IsSoundGrid self.new }
    {
        self.insert_with(row, column, n, Cell::blank());
    }

    /// Deletes `n` cells starting at a row and a column. Blank cells come in at the end.
    #[inline(always)]
    pub fn delete_cells(&mut self, row: usize, column: usize, n: u16)
        requires row { (1 ≤ row) × (row ≤ self.old.size.rows) }
        requires column { (1 ≤ column) × (column ≤ self.old.width) }
        ensures grid { self.new ≡ delete_cells self.old row column n }
        ensures sound { IsSoundGrid self.new }
    {
        self.delete_with(row, column, n, Cell::blank());
    }

    /// Moves the rows `top` to `bottom` up by `n`. Blank rows come in.
    #[inline(always)]
    pub fn scroll_up(&mut self, top: usize, bottom: usize, n: u16)
        requires { (1 ≤ top) × (top ≤ bottom) × (bottom ≤ self.old.size.rows) }
        ensures grid { self.new ≡ scroll_up self.old top bottom n }
        ensures sound { IsSoundGrid self.new }
    {
        self.scroll_up_with(top, bottom, n, Cell::blank());
    }

    /// Moves the rows `top` to `bottom` down by `n`. Blank rows come in.
    #[inline(always)]
    pub fn scroll_down(&mut self, top: usize, bottom: usize, n: u16)
        requires { (1 ≤ top) × (top ≤ bottom) × (bottom ≤ self.old.size.rows) }
        ensures grid { self.new ≡ scroll_down self.old top bottom n }
        ensures sound { IsSoundGrid self.new }
    {
        self.scroll_down_with(top, bottom, n, Cell::blank());
    }
}
