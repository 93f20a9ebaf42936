//! The cells of a picture by runs: a wide character, a character with marks, or adjacent cells of one look.
ghost use Rattle.std.specs.Prelude.{◌≡◌, ◌+◌, ◌*◌, ◌≤◌, ◌<◌, length, take, vec_len, vec_capacity};

use crate::colours::{fill, push_class, push_fill};
use crate::row::{is_blank, push_cell, same_look};
use vt_paint::{push_bytes, push_number, push_when};
use vt_screen::MOST;
use vt_xterm_cell::{Colour, Look, XtermCell};

/// Appends the place of a rectangle over `count` cells of a row, starting at `col`, and the end of its element.
pub(crate) fn push_box(row: usize, col: usize, count: usize, out: &mut Vec<u8>)
    requires row { (1 ≤ row) × (row ≤ MOST) }
    requires col { (1 ≤ col) × (col ≤ MOST) }
    requires count { count ≤ MOST }
    requires room { vec_len out.old + 49 ≤ vec_capacity out.old }
    ensures kept { take (length out.old.items) out.new.items ≡ out.old.items }
    ensures bounded { vec_len out.new ≤ vec_len out.old + 49 }
    ensures capacity { vec_capacity out.old ≤ vec_capacity out.new }
{
    push_bytes(b" x='", out);
    push_number(10 * (col as u16 - 1), out);
    push_bytes(b"' y='", out);
    push_number(18 * (row as u16 - 1), out);
    push_bytes(b"' width='", out);
    push_number(10 * count as u16, out);
    push_bytes(b"' height='18'/>\n", out);
}

/// Appends the rectangle under the cells of a run, if they have a background or are reverse.
fn push_ground(look: Look, row: usize, col: usize, count: usize, out: &mut Vec<u8>)
    requires row { (1 ≤ row) × (row ≤ MOST) }
    requires col { (1 ≤ col) × (col ≤ MOST) }
    requires count { count ≤ MOST }
    requires room { vec_len out.old + 87 ≤ vec_capacity out.old }
    ensures kept { take (length out.old.items) out.new.items ≡ out.old.items }
    ensures bounded { vec_len out.new ≤ vec_len out.old + 87 }
    ensures capacity { vec_capacity out.old ≤ vec_capacity out.new }
{
    let reverse = look.attributes.reverse;
    let colour = if reverse {
        look.foreground
    } else {
        look.background
    };
    if !reverse && colour == Colour::Default {
        return;
    }
    push_bytes(b"<rect", out);
    push_class(b" class='", colour, b"'", out);
    push_fill(colour, b"", out);
    push_box(row, col, count, out);
}

/// Appends the classes and the colour of the text of a run.
fn push_text_look(reversed: bool, look: Look, out: &mut Vec<u8>)
    requires { vec_len out.old + 100 ≤ vec_capacity out.old }
    ensures kept { take (length out.old.items) out.new.items ≡ out.old.items }
    ensures bounded { vec_len out.new ≤ vec_len out.old + 100 }
    ensures capacity { vec_capacity out.old ≤ vec_capacity out.new }
{
    let a = look.attributes;
    let colour = if a.reverse {
        look.background
    } else {
        look.foreground
    };
    push_bytes(b" class='vt220-text", out);
    push_when(a.bold, b" vt220-b", out);
    push_when(a.underlined, b" vt220-u", out);
    push_when(a.blinking, b" vt220-k", out);
    push_when(a.faint, b" vt220-f", out);
    push_when(a.italic, b" vt220-i", out);
    push_when(a.doubly_underlined, b" vt220-d", out);
    push_when(a.crossed_out, b" vt220-s", out);
    push_class(b" ", colour, b"", out);
    push_bytes(b"'", out);
    push_fill(colour, if a.reverse { fill(reversed) } else { b"" }, out);
}

/// Appends the element of the text of a run.
fn push_text(reversed: bool, row: usize, col: usize, cells: &[XtermCell], out: &mut Vec<u8>)
    requires row { (1 ≤ row) × (row ≤ MOST) }
    requires col { (1 ≤ col) × (col ≤ MOST) }
    requires some { (1 ≤ length cells.now) × (length cells.now ≤ MOST) }
    requires room { vec_len out.old + (185 + 15 * length cells.now) ≤ vec_capacity out.old }
    ensures kept { take (length out.old.items) out.new.items ≡ out.old.items }
    ensures bounded { vec_len out.new ≤ vec_len out.old + (185 + 15 * length cells.now) }
    ensures capacity { vec_capacity out.old ≤ vec_capacity out.new }
{
    push_bytes(b"<text", out);
    push_text_look(reversed, cells[0].look(), out);
    push_bytes(b" x='", out);
    push_number(10 * (col as u16 - 1), out);
    push_bytes(b"' y='", out);
    push_number(18 * (row as u16 - 1) + 13, out);
    push_bytes(b"' textLength='", out);
    push_number(10 * cells.len() as u16, out);
    push_bytes(b"' lengthAdjust='spacingAndGlyphs'>", out);
    for cell in cells {
        push_cell(*cell, out);
    }
    push_bytes(b"</text>\n", out);
}

/// Appends a run: its rectangle, and its text unless it is invisible. A blank cell has nothing.
fn push_run(reversed: bool, row: usize, col: usize, cells: &[XtermCell], out: &mut Vec<u8>)
    requires row { (1 ≤ row) × (row ≤ MOST) }
    requires col { (1 ≤ col) × (col ≤ MOST) }
    requires some { (1 ≤ length cells.now) × (length cells.now ≤ MOST) }
    requires room { vec_len out.old + (272 + 15 * length cells.now) ≤ vec_capacity out.old }
    ensures kept { take (length out.old.items) out.new.items ≡ out.old.items }
    ensures bounded { vec_len out.new ≤ vec_len out.old + (272 + 15 * length cells.now) }
    ensures capacity { vec_capacity out.old ≤ vec_capacity out.new }
{
    let first = cells[0];
    if is_blank(first) {
        return;
    }
    push_ground(first.look(), row, col, cells.len(), out);
    if !first.attributes().invisible {
        push_text(reversed, row, col, cells, out);
    }
}

/// Returns whether a cell is a run of its own, since a font may lack its character, or give it another width or direction: if it has marks, or
/// isn't Latin, Greek, Cyrillic, punctuation, an arrow, a technical sign or a part of a drawing.
fn is_alone(cell: XtermCell) -> bool {
    cell.is_wide()
        || cell.mark() != 0
        || !matches!(cell.character(), 0x20..=0x52F | 0x2000..=0x25FF)
}

/// Returns the length of the run that these cells begin with.
fn run_length(cells: &[XtermCell]) -> usize
    requires { 1 ≤ length cells.now }
    ensures some { 1 ≤ result }
    ensures within { result ≤ length cells.now }
{
    let first = cells[0];
    if first.is_wide() {
        return cells.len().min(2);
    }
    if is_blank(first) || is_alone(first) {
        return 1;
    }
    let mut count = 1;
    while count < cells.len()
        && same_look(first, cells[count])
        && !is_blank(cells[count])
        && !is_alone(cells[count])
    {
        count += 1;
    }
    count
}

/// Appends the cells of a row.
pub(crate) fn push_row(reversed: bool, row: usize, cells: &[XtermCell], out: &mut Vec<u8>)
    requires row { (1 ≤ row) × (row ≤ MOST) }
    requires len { length cells.now ≤ MOST }
    requires room { vec_len out.old + 287 * length cells.now ≤ vec_capacity out.old }
    ensures kept { take (length out.old.items) out.new.items ≡ out.old.items }
    ensures bounded { vec_len out.new ≤ vec_len out.old + 287 * length cells.now }
    ensures capacity { vec_capacity out.old ≤ vec_capacity out.new }
{
    let mut at = 0;
    while at < cells.len() {
        let count = run_length(&cells[at..]);
        push_run(reversed, row, at + 1, &cells[at..at + count], out);
        at += count;
    }
}
