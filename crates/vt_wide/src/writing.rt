//! Writing characters and marks.
ghost use Rattle.std.specs.Prelude.{◌≡◌, ◌+◌, ◌≤◌, All, length};
ghost use Rattle.vt_screen.specs.Grid.{IsSoundGridOf};
ghost use Rattle.vt_wide.specs.Kinds.{IsLetter};
ghost use Rattle.vt_wide.specs.Edits.{columns, written, written_inserting, written_bytes, joined_column, joined};

use crate::editing::{insert, is_parted, part};
use crate::kind::Wide;
use vt_screen::Screen;

/// Writes the character that begins with a cell. A wide one gets its second cell.
#[inline(always)]
pub fn put<C: Wide>(screen: &mut Screen<C>, row: usize, col: usize, cell: C, empty: C)
    requires row { (1 ≤ row) × (row ≤ screen.old.size.rows) }
    requires columns { (1 ≤ col) × (col + columns C.wide cell ≤ screen.old.width + 1) }
    ensures grid { screen.new ≡ written C.wide C.cells.blank empty screen.old row col cell }
    ensures size { screen.new.size ≡ screen.old.size }
    ensures width { screen.new.width ≡ screen.old.width }
    ensures sound { IsSoundGridOf C.cells.shown screen.new }
{
    part(screen, row, col, false, empty);
    if cell.is_wide() {
        part(screen, row, col + 2, false, empty);
        screen.put(row, col, cell);
        screen.put(row, col + 1, cell.second());
    } else {
        part(screen, row, col + 1, false, empty);
        screen.put(row, col, cell);
    }
}

/// Writes the character that begins with a cell, after the cells starting there moved right by its width. (IRM, ECMA-48 7.2)
pub fn put_inserting<C: Wide>(
    screen: &mut Screen<C>,
    row: usize,
    col: usize,
    right: usize,
    cell: C,
    empty: C,
)
    requires row { (1 ≤ row) × (row ≤ screen.old.size.rows) }
    requires columns { (1 ≤ col) × (col + columns C.wide cell ≤ right + 1) × (right ≤ screen.old.width) }
    ensures grid { screen.new ≡ written_inserting C.wide C.cells.blank empty screen.old row col right cell }
    ensures size { screen.new.size ≡ screen.old.size }
    ensures width { screen.new.width ≡ screen.old.width }
    ensures sound { IsSoundGridOf C.cells.shown screen.new }
{
    let n = if cell.is_wide() { 2 } else { 1 };
    insert(screen, row, col, right, n, empty);
    put(screen, row, col, cell, empty);
}

/// Writes ASCII characters of one pen, as many as there are bytes. The result is that of writing them one after another.
pub fn put_bytes<C: Wide>(
    screen: &mut Screen<C>,
    row: usize,
    col: usize,
    bytes: &[u8],
    pen: C,
    empty: C,
)
    requires row { (1 ≤ row) × (row ≤ screen.old.size.rows) }
    requires some { 1 ≤ length bytes.now }
    requires letters { All IsLetter bytes.now }
    requires columns { (1 ≤ col) × (col + length bytes.now ≤ screen.old.width + 1) }
    ensures grid { screen.new ≡ written_bytes C.wide C.cells.blank empty screen.old row col bytes.now pen }
    ensures size { screen.new.size ≡ screen.old.size }
    ensures width { screen.new.width ≡ screen.old.width }
    ensures sound { IsSoundGridOf C.cells.shown screen.new }
{
    part(screen, row, col, false, empty);
    part(screen, row, col + bytes.len(), false, empty);
    for (i, byte) in bytes.iter().enumerate() {
        screen.put(row, col + i, pen.with_byte(*byte));
    }
}

/// Returns the column whose cell a mark joins, and REP repeats. The cursor is in column `col`.
pub fn joined_column<C: Wide>(screen: &Screen<C>, row: usize, col: usize, wrap: bool) -> usize
    requires row { (1 ≤ row) × (row ≤ screen.now.size.rows) }
    requires column { (1 ≤ col) × (col ≤ screen.now.width) }
    ensures column { result ≡ joined_column C.wide C.cells.blank screen.now row col wrap }
    ensures bounds { (1 ≤ result) × (result ≤ col) }
{
    let at = if wrap || col == 1 { col } else { col - 1 };
    if is_parted(screen, row, at) {
        at - 1
    } else {
        at
    }
}

/// Lets a mark join the character of a cell.
pub fn join<C: Wide>(screen: &mut Screen<C>, row: usize, col: usize, mark: char)
    requires row { (1 ≤ row) × (row ≤ screen.old.size.rows) }
    requires column { (1 ≤ col) × (col ≤ screen.old.width) }
    ensures grid { screen.new ≡ joined C.wide C.cells.blank screen.old row col mark }
    ensures size { screen.new.size ≡ screen.old.size }
    ensures width { screen.new.width ≡ screen.old.width }
    ensures sound { IsSoundGridOf C.cells.shown screen.new }
{
    let cell = screen.cell(row, col);
    screen.put(row, col, cell.marked(mark));
}
