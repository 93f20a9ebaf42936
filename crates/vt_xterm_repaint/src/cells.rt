//! The cells of a page, appended to an output that has capacity for them.
ghost use Rattle.std.specs.Prelude.{◌≡◌, ℕ, ◌+◌, ◌*◌, ◌≤◌, ◌<◌, ◌++◌, true, false, length, drop, vec_len, vec_capacity};
ghost use Rattle.vt_feed.specs.Spelled.{spell};
ghost use Rattle.vt_xterm_cell.specs.Look.{plain_look};
ghost use Rattle.vt_xterm_repaint.specs.Looks.{same_look};
ghost use Rattle.vt_xterm_repaint.specs.Cells.{is_blank as is_blank_cell, are_blank, cell_actions, cells_actions, row_actions, grid_actions};
ghost use Rattle.vt_xterm_repaint.specs.Limits.{row_limit};

use crate::characters::push_glyph;
use crate::looks::push_look;
use vt_paint::Function;
use vt_screen::Screen;
use vt_xterm_cell::XtermCell;

/// Returns whether two cells have the same look.
#[inline(always)]
fn same_look(a: XtermCell, b: XtermCell) -> bool
    ensures { result ≡ same_look a.look b.look }
{
    a.cleared().same(&b.cleared())
}

/// Returns whether a cell is a plain space.
#[inline(always)]
fn is_blank(cell: &XtermCell) -> bool
    ensures { result ≡ is_blank_cell cell.now }
{
    cell.same(&XtermCell::blank())
}

/// Returns the number of cells without the blank ones at the end.
fn shown_len(cells: &[XtermCell]) -> usize
    ensures within { result ≤ length cells.now }
    ensures blank { are_blank (drop result cells.now) ≡ true }
    ensures shown { (n : ℕ) → n < result → are_blank (drop n cells.now) ≡ false }
{
    let mut end = cells.len();
    while end > 0 && is_blank(&cells[end - 1]) {
        end -= 1;
    }
    end
}

/// Appends a cell: its look, if it differs from that of the cell before, and its character with its marks. A second cell of a wide
/// character has nothing of its own.
#[tactic(auto, unfolding(crate::specs::Cells::cell_actions))]
fn push_cell(before: XtermCell, cell: XtermCell, out: &mut Vec<u8>)
    requires { vec_len out.old + 78 ≤ vec_capacity out.old }
    ensures items { out.new.items ≡ out.old.items ++ spell (cell_actions before.look cell) }
    ensures bounded { vec_len out.new ≤ vec_len out.old + 78 }
    ensures capacity { vec_capacity out.old ≤ vec_capacity out.new }
{
    if cell.is_second() {
        return;
    }
    if !same_look(before, cell) {
        push_look(cell.look(), out);
    }
    push_glyph(cell, out);
}

/// Appends the cells of a row up to `end`, after the plain look. The cells after them are blank.
fn push_cells(cells: &[XtermCell], end: usize, out: &mut Vec<u8>)
    requires within { end ≤ length cells.now }
    requires blank { are_blank (drop end cells.now) ≡ true }
    requires shown { (n : ℕ) → n < end → are_blank (drop n cells.now) ≡ false }
    requires room { vec_len out.old + 78 * end ≤ vec_capacity out.old }
    ensures items { out.new.items ≡ out.old.items ++ spell (cells_actions plain_look cells.now) }
    ensures bounded { vec_len out.new ≤ vec_len out.old + 78 * end }
    ensures capacity { vec_capacity out.old ≤ vec_capacity out.new }
{
    let mut before = XtermCell::blank();
    for i in 0..end {
        let cell = cells[i];
        push_cell(before, cell, out);
        before = cell;
    }
}

/// Appends a row: CUP, the plain look, and the cells. Nothing is appended for a blank row.
#[tactic(auto, unfolding(crate::specs::Cells::row_actions, crate::specs::Limits::row_limit))]
fn push_row(screen: &Screen<XtermCell>, row: usize, out: &mut Vec<u8>)
    requires row { (1 ≤ row) × (row ≤ screen.now.size.rows) }
    requires room { vec_len out.old + row_limit screen.now.size ≤ vec_capacity out.old }
    ensures items { out.new.items ≡ out.old.items ++ spell (row_actions screen.now row) }
    ensures bounded { vec_len out.new ≤ vec_len out.old + row_limit screen.now.size }
    ensures capacity { vec_capacity out.old ≤ vec_capacity out.new }
{
    // For the bounds of rows and columns.
    let _ = screen.size();
    let cells = screen.row(row);
    let end = shown_len(cells);
    if end == 0 {
        return;
    }
    Function::cursor_to(row as u8, 1).push(out);
    push_look(XtermCell::blank().look(), out);
    push_cells(cells, end, out);
}

/// Appends the rows of a page.
#[tactic(auto, unfolding(crate::specs::Cells::grid_actions))]
pub(crate) fn push_rows(screen: &Screen<XtermCell>, out: &mut Vec<u8>)
    requires { vec_len out.old + screen.now.size.rows * row_limit screen.now.size ≤ vec_capacity out.old }
    ensures items { out.new.items ≡ out.old.items ++ spell (grid_actions screen.now) }
    ensures bounded { vec_len out.new ≤ vec_len out.old + screen.now.size.rows * row_limit screen.now.size }
    ensures capacity { vec_capacity out.old ≤ vec_capacity out.new }
{
    for row in 1..screen.size().rows + 1 {
        push_row(screen, row, out);
    }
}
