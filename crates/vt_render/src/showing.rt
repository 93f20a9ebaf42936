//! The screen as text with SGR sequences.
ghost use Rattle.std.specs.Prelude.{◌≡◌, ◌≤◌, ◌+◌, ◌*◌, length, take, vec_len, vec_capacity};
ghost use Rattle.vt_render.specs.Limits.{show_limit, shown_row_limit};

use crate::renderable::Renderable;
use crate::row::{same_look, without_blank_end};
use vt_paint::push_bytes;
use vt_screen::MOST;
use vt_xterm_cell::XtermCell;
use vt_xterm_repaint::{push_attributes, push_colours, push_glyph};

/// Appends SGR of the look of a cell, if that of the cell before it is another.
fn push_change(before: XtermCell, cell: XtermCell, out: &mut Vec<u8>)
    requires { vec_len out.old + 61 ≤ vec_capacity out.old }
    ensures kept { take (length out.old.items) out.new.items ≡ out.old.items }
    ensures bounded { vec_len out.new ≤ vec_len out.old + 61 }
    ensures capacity { vec_capacity out.old ≤ vec_capacity out.new }
{
    if !same_look(before, cell) {
        let look = cell.look();
        push_attributes(look.attributes, out);
        push_colours(look, out);
    }
}

/// Appends the character of a cell with its marks in UTF-8, after SGR if the look changes. A second cell has nothing.
fn push_shown(before: XtermCell, cell: XtermCell, out: &mut Vec<u8>)
    requires { vec_len out.old + 73 ≤ vec_capacity out.old }
    ensures kept { take (length out.old.items) out.new.items ≡ out.old.items }
    ensures bounded { vec_len out.new ≤ vec_len out.old + 73 }
    ensures capacity { vec_capacity out.old ≤ vec_capacity out.new }
{
    if !cell.is_second() {
        push_change(before, cell, out);
        push_glyph(cell, out);
    }
}

/// Appends a row without the blank cells at its end, and LF.
fn push_row(cells: &[XtermCell], out: &mut Vec<u8>)
    requires { vec_len out.old + (73 * length cells.now + 62) ≤ vec_capacity out.old }
    ensures kept { take (length out.old.items) out.new.items ≡ out.old.items }
    ensures bounded { vec_len out.new ≤ vec_len out.old + (73 * length cells.now + 62) }
    ensures capacity { vec_capacity out.old ≤ vec_capacity out.new }
{
    let mut before = XtermCell::blank();
    for cell in without_blank_end(cells) {
        push_shown(before, *cell, out);
        before = *cell;
    }
    push_change(before, XtermCell::blank(), out);
    push_bytes(b"\n", out);
}

/// Appends the screen to `out` as text with SGR sequences, for modern terminals. Each row is in UTF-8, without the blank cells at its end, and
/// ends in LF. SGR comes before each change of the look, and resets it at the end of a row. Nothing shows protection.
///
/// `out` has capacity for `show_limit` more bytes. It never fails and allocates nothing.
pub fn show_reserved<S: Renderable>(screen: &S, out: &mut Vec<u8>)
    requires { vec_len out.old + show_limit (S.size_of screen.now) ≤ vec_capacity out.old }
    ensures kept { take (length out.old.items) out.new.items ≡ out.old.items }
    ensures bounded { vec_len out.new ≤ vec_len out.old + show_limit (S.size_of screen.now) }
    ensures capacity { vec_capacity out.old ≤ vec_capacity out.new }
{
    let mut cells = [XtermCell::blank(); MOST];
    for row in 1..screen.size().rows + 1 {
        let width = screen.read_row(row, &mut cells);
        push_row(&cells[..width], out);
    }
}
