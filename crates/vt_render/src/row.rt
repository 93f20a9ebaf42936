//! The cells of a row, and their characters.
ghost use Rattle.std.specs.Prelude.{◌≡◌, ◌≤◌, ◌+◌, ◌<◌, length, take, vec_len, vec_capacity, false};

use vt_paint::push_bytes;
use vt_screen::Cells;
use vt_xterm_cell::{Attributes, Colour, XtermCell};

/// Returns whether two cells have the same look.
#[inline(always)]
pub(crate) fn same_look(a: XtermCell, b: XtermCell) -> bool {
    a.cleared().same(&b.cleared())
}

/// Returns whether a cell shows a space without attributes and without a background. Its foreground shows nothing.
#[inline(always)]
pub(crate) fn is_blank(cell: XtermCell) -> bool {
    let mut plain = cell;
    plain.set_foreground(Colour::Default);
    plain.same(&XtermCell::blank())
}

/// Returns the row without the blank cells at its end.
pub(crate) fn without_blank_end(cells: &[XtermCell]) -> &[XtermCell]
    ensures { length result.now ≤ length cells.now }
{
    let mut end = cells.len();
    while end > 0 && is_blank(cells[end - 1]) {
        end -= 1;
    }
    &cells[..end]
}

/// Appends a character, given its Unicode number, and nothing for 0. `&`, `<` and `>` are escaped for XML, and U+FFFD takes the place of
/// U+FFFE and U+FFFF, which XML doesn't have.
fn push_escaped(number: u32, out: &mut Vec<u8>)
    requires { vec_len out.old + 5 ≤ vec_capacity out.old }
    ensures kept { take (length out.old.items) out.new.items ≡ out.old.items }
    ensures bounded { vec_len out.new ≤ vec_len out.old + 5 }
    ensures capacity { vec_capacity out.old ≤ vec_capacity out.new }
{
    match number {
        0 => {}
        0x26 => push_bytes(b"&amp;", out),
        0x3C => push_bytes(b"&lt;", out),
        0x3E => push_bytes(b"&gt;", out),
        0xFFFE => push_bytes("\u{FFFD}".as_bytes(), out),
        0xFFFF => push_bytes("\u{FFFD}".as_bytes(), out),
        _ => {
            if let Some(c) = char::from_u32(number) {
                let mut bytes = [0; 4];
                push_bytes(c.encode_utf8(&mut bytes).as_bytes(), out);
            }
        }
    }
}

/// Appends the character of a cell and its marks, escaped for XML. A second cell has none.
pub(crate) fn push_cell(cell: XtermCell, out: &mut Vec<u8>)
    requires { vec_len out.old + 15 ≤ vec_capacity out.old }
    ensures kept { take (length out.old.items) out.new.items ≡ out.old.items }
    ensures bounded { vec_len out.new ≤ vec_len out.old + 15 }
    ensures capacity { vec_capacity out.old ≤ vec_capacity out.new }
{
    push_escaped(cell.character(), out);
    push_escaped(cell.mark(), out);
    push_escaped(cell.other_mark(), out);
}
