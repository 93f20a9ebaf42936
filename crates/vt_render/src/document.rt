//! The screen as a picture: an SVG document.
ghost use Rattle.std.specs.Prelude.{◌≡◌, ◌+◌, ◌*◌, ◌≤◌, ◌<◌, length, take, vec_len, vec_capacity};
ghost use Rattle.vt_render.specs.Limits.{alternative_row_limit, picture_limit, picture_row_limit};

use crate::colours::{fill, push_rules};
use crate::renderable::Renderable;
use crate::row::{push_cell, without_blank_end};
use crate::runs::{push_box, push_row};
use vt_paint::{push_bytes, push_number, push_when};
use vt_screen::MOST;
use vt_xterm_cell::XtermCell;

/// The style of every picture.
const STYLE: &[u8] = b"</desc>\n\
<style>.vt220-text{font-family:'DejaVu Sans Mono','Liberation Mono',Menlo,Consolas,monospace;font-size:16.6px;white-space:pre}\n\
.vt220-b{font-weight:bold}.vt220-u{text-decoration:underline}\n\
@media (prefers-reduced-motion:no-preference){.vt220-k{animation:vt220-k 1s steps(1) infinite}}\n\
@keyframes vt220-k{50%{opacity:0}}";

/// The style of what a VT220's cells don't have.
const XTERM_STYLE: &[u8] = b"\n\
.vt220-f{fill-opacity:.67}.vt220-i{font-style:italic}.vt220-s{text-decoration:line-through}\n\
.vt220-u.vt220-s{text-decoration:underline line-through}\n\
.vt220-d{text-decoration:underline;text-decoration:underline double}\n\
.vt220-d.vt220-s{text-decoration:underline line-through;text-decoration:underline line-through double}\n";

/// Appends the start of the document, up to its text alternative.
fn push_start<S: Renderable>(is_xterm: bool, screen: &S, out: &mut Vec<u8>)
    requires { vec_len out.old + 250 ≤ vec_capacity out.old }
    ensures kept { take (length out.old.items) out.new.items ≡ out.old.items }
    ensures bounded { vec_len out.new ≤ vec_len out.old + 250 }
    ensures capacity { vec_capacity out.old ≤ vec_capacity out.new }
{
    let rows = screen.size().rows;
    let columns = screen.read_row(1, &mut [XtermCell::blank(); MOST]);
    let width = 10 * (columns as u16 + 2);
    let height = 18 * rows as u16 + 20;
    push_bytes(
        b"<svg xmlns='http://www.w3.org/2000/svg' viewBox='-10 -10 ",
        out,
    );
    push_number(width, out);
    push_bytes(b" ", out);
    push_number(height, out);
    push_bytes(b"' width='", out);
    push_number(width, out);
    push_bytes(b"' height='", out);
    push_number(height, out);
    push_bytes(b"' role='img' xml:space='preserve'>\n<title>", out);
    push_bytes(if is_xterm { b"xterm" } else { b"VT220" }, out);
    push_bytes(b" screen</title>\n<desc>", out);
}

/// Appends the text of a row, escaped for XML, without the blank cells at its end, and LF. An invisible cell is a space.
fn push_alternative_row(cells: &[XtermCell], out: &mut Vec<u8>)
    requires { vec_len out.old + (15 * length cells.now + 1) ≤ vec_capacity out.old }
    ensures kept { take (length out.old.items) out.new.items ≡ out.old.items }
    ensures bounded { vec_len out.new ≤ vec_len out.old + (15 * length cells.now + 1) }
    ensures capacity { vec_capacity out.old ≤ vec_capacity out.new }
{
    for cell in without_blank_end(cells) {
        if cell.attributes().invisible {
            push_bytes(b" ", out);
        } else {
            push_cell(*cell, out);
        }
    }
    push_bytes(b"\n", out);
}

/// Appends the text alternative.
fn push_alternative<S: Renderable>(screen: &S, out: &mut Vec<u8>)
    requires { vec_len out.old + (S.size_of screen.now).rows * alternative_row_limit (S.size_of screen.now) ≤ vec_capacity out.old }
    ensures kept { take (length out.old.items) out.new.items ≡ out.old.items }
    ensures bounded { vec_len out.new ≤ vec_len out.old + (S.size_of screen.now).rows * alternative_row_limit (S.size_of screen.now) }
    ensures capacity { vec_capacity out.old ≤ vec_capacity out.new }
{
    let mut cells = [XtermCell::blank(); MOST];
    for row in 1..screen.size().rows + 1 {
        let width = screen.read_row(row, &mut cells);
        push_alternative_row(&cells[..width], out);
    }
}

/// Appends the end of the text alternative and the style, with more for an xterm. A renderer without double lines or without properties
/// takes the rule before.
fn push_style(is_xterm: bool, out: &mut Vec<u8>)
    requires { vec_len out.old + 1800 ≤ vec_capacity out.old }
    ensures kept { take (length out.old.items) out.new.items ≡ out.old.items }
    ensures bounded { vec_len out.new ≤ vec_len out.old + 1800 }
    ensures capacity { vec_capacity out.old ≤ vec_capacity out.new }
{
    push_bytes(STYLE, out);
    if is_xterm {
        push_bytes(XTERM_STYLE, out);
        push_rules(out);
    }
    push_bytes(b"</style>\n", out);
}

/// Appends the start of the group of all that is drawn, and the paper under it. Rectangles with a background have no seams between them.
fn push_group_start(reversed: bool, is_xterm: bool, out: &mut Vec<u8>)
    requires { vec_len out.old + 250 ≤ vec_capacity out.old }
    ensures kept { take (length out.old.items) out.new.items ≡ out.old.items }
    ensures bounded { vec_len out.new ≤ vec_len out.old + 250 }
    ensures capacity { vec_capacity out.old ≤ vec_capacity out.new }
{
    push_bytes(b"<g", out);
    push_bytes(fill(!reversed), out);
    push_when(is_xterm, b" shape-rendering='crispEdges'", out);
    push_bytes(
        b" direction='ltr' font-style='normal' font-weight='normal' letter-spacing='0' word-spacing='0'>\n<rect",
        out,
    );
    push_bytes(fill(reversed), out);
    push_bytes(b" x='-10' y='-10' width='100%' height='100%'/>\n", out);
}

/// Appends the rows.
fn push_rows<S: Renderable>(reversed: bool, screen: &S, out: &mut Vec<u8>)
    requires { vec_len out.old + (S.size_of screen.now).rows * picture_row_limit (S.size_of screen.now) ≤ vec_capacity out.old }
    ensures kept { take (length out.old.items) out.new.items ≡ out.old.items }
    ensures bounded { vec_len out.new ≤ vec_len out.old + (S.size_of screen.now).rows * picture_row_limit (S.size_of screen.now) }
    ensures capacity { vec_capacity out.old ≤ vec_capacity out.new }
{
    let mut cells = [XtermCell::blank(); MOST];
    for row in 1..screen.size().rows + 1 {
        let width = screen.read_row(row, &mut cells);
        push_row(reversed, row, &cells[..width], out);
    }
}

/// Returns the first column of the character at a column, and how many columns it has.
fn character_at(cells: &[XtermCell], col: usize) -> (usize, usize)
    requires { (1 ≤ col) × (col ≤ MOST) }
    ensures col { (1 ≤ result.0) × (result.0 ≤ MOST) }
    ensures count { result.1 ≤ 2 }
{
    if col <= cells.len() {
        if cells[col - 1].is_wide() {
            return (col, 2);
        }
        if cells[col - 1].is_second() && col > 1 {
            return (col - 1, 2);
        }
    }
    (col, 1)
}

/// Appends the outline of the character under the cursor, if the cursor is shown.
fn push_cursor<S: Renderable>(screen: &S, out: &mut Vec<u8>)
    requires { vec_len out.old + 100 ≤ vec_capacity out.old }
    ensures kept { take (length out.old.items) out.new.items ≡ out.old.items }
    ensures bounded { vec_len out.new ≤ vec_len out.old + 100 }
    ensures capacity { vec_capacity out.old ≤ vec_capacity out.new }
{
    let _ = screen.size();
    if !screen.modes().dectcem {
        return;
    }
    let cursor = screen.cursor();
    let mut cells = [XtermCell::blank(); MOST];
    let width = screen.read_row(cursor.row, &mut cells);
    let (col, count) = character_at(&cells[..width], cursor.col);
    push_bytes(b"<rect fill='none' stroke='#e80' stroke-width='2'", out);
    push_box(cursor.row, col, count, out);
}

/// Appends the screen to `out` as a picture: an SVG document in UTF-8. Its text alternative is each row without the blank cells at its end. A
/// column is 10 units wide and a row 18 high, and each run of cells has its position and its length. An HTML page may hold several pictures. It
/// may give the first 16 colours by the properties `--vt220-0` to `--vt220-15`.
///
/// `out` has capacity for `picture_limit` more bytes. It never fails and allocates nothing.
pub fn picture_reserved<S: Renderable>(screen: &S, out: &mut Vec<u8>)
    requires { vec_len out.old + picture_limit (S.size_of screen.now) ≤ vec_capacity out.old }
    ensures kept { take (length out.old.items) out.new.items ≡ out.old.items }
    ensures bounded { vec_len out.new ≤ vec_len out.old + picture_limit (S.size_of screen.now) }
    ensures capacity { vec_capacity out.old ≤ vec_capacity out.new }
{
    let is_xterm = screen.is_xterm();
    let reversed = screen.modes().decscnm;
    push_start(is_xterm, screen, out);
    push_alternative(screen, out);
    push_style(is_xterm, out);
    push_group_start(reversed, is_xterm, out);
    push_rows(reversed, screen, out);
    push_cursor(screen, out);
    push_bytes(b"</g>\n</svg>\n", out);
}
