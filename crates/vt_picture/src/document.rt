//! The screen as a picture: an SVG document.
ghost use Rattle.std.specs.Prelude.{◌≡◌, ◌+◌, ◌*◌, ◌≤◌, ◌++◌, length, vec_len, vec_capacity, OnOk, OnErr, IsOk};
ghost use Rattle.vt_picture.specs.Picture.{alternative, alternative_line, cursor_picture, document_start};
ghost use Rattle.vt_picture.specs.Picture.{group, group_start, picture, rows_picture, style, title_end};
ghost use Rattle.vt_picture.specs.Limits.{alternative_limit, picture_limit, rows_limit};

use crate::bytes::push_escaped;
use crate::limits::picture_limit;
use crate::looks::without_blank_end;
use crate::runs::{fill, height_of, push_rectangle, push_row, width_of};
use std::alloc::AllocError;
use vt_paint::{push_bytes, push_number};
use vt_screen::{Cell, MOST};
use vt_term::{ROWS, STOPS, SizedTerminal};

/// The limit of a picture of a VT220's screen in bytes: for each row 208 for each of 132 cells and one more, and 1000 for everything else.
pub const PICTURE_LIMIT: usize = ROWS * (208 * STOPS + 1) + 1000;

const _: () = prove!(PICTURE_LIMIT == 659968);

/// The attributes of the cursor's outline.
const OUTLINE: &[u8] = b" fill='none' stroke='#e80' stroke-width='2'";

/// Appends the start of the document, up to the title.
#[tactic(auto, unfolding(crate::specs::Picture::document_start))]
fn push_document_start(rows: usize, columns: usize, out: &mut Vec<u8>)
    requires rows { rows ≤ MOST }
    requires columns { columns ≤ MOST }
    requires room { vec_len out.old + 200 ≤ vec_capacity out.old }
    ensures items { out.new.items ≡ out.old.items ++ document_start rows columns }
    ensures bounded { vec_len out.new ≤ vec_len out.old + 200 }
    ensures capacity { vec_capacity out.old ≤ vec_capacity out.new }
{
    let width = width_of(columns + 2);
    let height = height_of(rows);
    push_bytes(
        b"<svg xmlns='http://www.w3.org/2000/svg' viewBox='-10 -10 ",
        out,
    );
    push_number(width, out);
    push_bytes(b" ", out);
    push_number(height, out);
    push_bytes(b"' width='", out);
    push_number(width, out);
    push_bytes(b"' height='", out);
    push_number(height, out);
    push_bytes(b"' role='img' xml:space='preserve'>\n<title>", out);
}

/// Appends the end of the title, and the start of the text alternative.
fn push_title_end(out: &mut Vec<u8>)
    requires { vec_len out.old + 20 ≤ vec_capacity out.old }
    ensures items { out.new.items ≡ out.old.items ++ title_end }
    ensures bounded { vec_len out.new ≤ vec_len out.old + 20 }
    ensures capacity { vec_capacity out.old ≤ vec_capacity out.new }
{
    push_bytes(b"</title>\n<desc>", out);
}

/// Appends the text of a row, escaped for XML, without the blank cells at its end, and LF.
fn push_alternative_line(cells: &[Cell], out: &mut Vec<u8>)
    requires { vec_len out.old + 5 * length cells.now + 1 ≤ vec_capacity out.old }
    ensures items { out.new.items ≡ out.old.items ++ alternative_line cells.now }
    ensures bounded { vec_len out.new ≤ vec_len out.old + 5 * length cells.now + 1 }
    ensures capacity { vec_capacity out.old ≤ vec_capacity out.new }
{
    for cell in without_blank_end(cells) {
        push_escaped(cell.glyph, out);
    }
    push_bytes(b"\n", out);
}

/// Appends the text alternative.
fn push_alternative(t: &SizedTerminal, out: &mut Vec<u8>)
    requires { vec_len out.old + alternative_limit t.now.display.grid.size ≤ vec_capacity out.old }
    ensures items { out.new.items ≡ out.old.items ++ alternative t.now.display.grid.size.rows t.now.display.grid }
    ensures bounded { vec_len out.new ≤ vec_len out.old + alternative_limit t.now.display.grid.size }
    ensures capacity { vec_capacity out.old ≤ vec_capacity out.new }
{
    for row in 1..t.size().rows + 1 {
        push_alternative_line(t.row(row), out);
    }
}

/// Appends the style, which is the same in every picture.
#[tactic(auto, unfolding(crate::specs::Picture::style))]
fn push_style(out: &mut Vec<u8>)
    requires { vec_len out.old + 350 ≤ vec_capacity out.old }
    ensures items { out.new.items ≡ out.old.items ++ style }
    ensures bounded { vec_len out.new ≤ vec_len out.old + 350 }
    ensures capacity { vec_capacity out.old ≤ vec_capacity out.new }
{
    push_bytes(
        b"</desc>\n<style>.vt220-text{font-family:'DejaVu Sans Mono','Liberation Mono',Menlo,Consolas,monospace;",
        out,
    );
    push_bytes(b"font-size:16.6px;white-space:pre}\n", out);
    push_bytes(
        b".vt220-b{font-weight:bold}.vt220-u{text-decoration:underline}\n",
        out,
    );
    push_bytes(
        b"@media (prefers-reduced-motion:no-preference){.vt220-k{animation:vt220-k 1s steps(1) infinite}}\n",
        out,
    );
    push_bytes(b"@keyframes vt220-k{50%{opacity:0}}</style>\n", out);
}

/// Appends the start of the group of all that is drawn, and the paper under it.
#[tactic(auto, unfolding(crate::specs::Picture::group_start))]
fn push_group_start(reversed: bool, out: &mut Vec<u8>)
    requires { vec_len out.old + 250 ≤ vec_capacity out.old }
    ensures items { out.new.items ≡ out.old.items ++ group_start reversed }
    ensures bounded { vec_len out.new ≤ vec_len out.old + 250 }
    ensures capacity { vec_capacity out.old ≤ vec_capacity out.new }
{
    push_bytes(b"<g", out);
    push_bytes(fill(!reversed), out);
    push_bytes(
        b" direction='ltr' font-style='normal' font-weight='normal' letter-spacing='0' word-spacing='0'>\n<rect",
        out,
    );
    push_bytes(fill(reversed), out);
    push_bytes(b" x='-10' y='-10' width='100%' height='100%'/>\n", out);
}

/// Appends the rows.
fn push_rows(reversed: bool, t: &SizedTerminal, out: &mut Vec<u8>)
    requires { vec_len out.old + rows_limit t.now.display.grid.size ≤ vec_capacity out.old }
    ensures items { out.new.items ≡ out.old.items ++ rows_picture reversed t.now.display.grid.size.rows t.now.display.grid }
    ensures bounded { vec_len out.new ≤ vec_len out.old + rows_limit t.now.display.grid.size }
    ensures capacity { vec_capacity out.old ≤ vec_capacity out.new }
{
    for row in 1..t.size().rows + 1 {
        push_row(reversed, row, t.row(row), out);
    }
}

/// Appends the cursor's outline, if the cursor is shown.
fn push_cursor(t: &SizedTerminal, out: &mut Vec<u8>)
    requires { vec_len out.old + 100 ≤ vec_capacity out.old }
    ensures items { out.new.items ≡ out.old.items ++ cursor_picture t.now.display }
    ensures bounded { vec_len out.new ≤ vec_len out.old + 100 }
    ensures capacity { vec_capacity out.old ≤ vec_capacity out.new }
{
    let cursor = t.cursor();
    let _ = t.size();
    if t.modes().dectcem {
        push_rectangle(OUTLINE, cursor.row, cursor.col, 1, out);
    }
}

/// Appends the group of all that is drawn.
#[tactic(auto, unfolding(crate::specs::Picture::group))]
fn push_group(t: &SizedTerminal, out: &mut Vec<u8>)
    requires { vec_len out.old + (rows_limit t.now.display.grid.size + 400) ≤ vec_capacity out.old }
    ensures items { out.new.items ≡ out.old.items ++ group t.now.display }
    ensures bounded { vec_len out.new ≤ vec_len out.old + (rows_limit t.now.display.grid.size + 400) }
    ensures capacity { vec_capacity out.old ≤ vec_capacity out.new }
{
    let reversed = t.modes().decscnm;
    push_group_start(reversed, out);
    push_rows(reversed, t, out);
    push_cursor(t, out);
    push_bytes(b"</g>\n", out);
}

/// Appends the screen to `out` as a picture: an SVG document in UTF-8. Its text alternative is each row without the blank
/// cells at its end. A column is 10 units wide and a row 18 high, and each run of cells has its position and its length. An
/// HTML page may hold several pictures.
///
/// It first reserves `picture_limit` bytes of capacity. Returns `Err` if that fails. Then the contents of `out` are
/// unchanged.
pub fn picture(t: &SizedTerminal, out: &mut Vec<u8>) -> Result<(), AllocError>
    ensures ok { OnOk result (out.new.items ≡ out.old.items ++ picture t.now) }
    ensures err { OnErr result (out.new.items ≡ out.old.items) }
    ensures has_room { vec_len out.old + picture_limit t.now.display.grid.size ≤ vec_capacity out.old → IsOk result }
    ensures bounded { vec_len out.new ≤ vec_len out.old + picture_limit t.now.display.grid.size }
    ensures capacity { vec_capacity out.old ≤ vec_capacity out.new }
{
    out.reserve(picture_limit(t.size()))?;
    picture_reserved(t, out);
    Ok(())
}

/// Appends the screen to `out` as a picture, as [`picture`] does. `out` has capacity for `picture_limit` more bytes. It
/// never fails and allocates nothing.
#[tactic(auto, unfolding(crate::specs::Picture::picture_of))]
pub fn picture_reserved(t: &SizedTerminal, out: &mut Vec<u8>)
    requires { vec_len out.old + picture_limit t.now.display.grid.size ≤ vec_capacity out.old }
    ensures items { out.new.items ≡ out.old.items ++ picture t.now }
    ensures bounded { vec_len out.new ≤ vec_len out.old + picture_limit t.now.display.grid.size }
    ensures capacity { vec_capacity out.old ≤ vec_capacity out.new }
{
    push_document_start(t.size().rows, t.width(), out);
    push_bytes(b"VT220 screen", out);
    push_title_end(out);
    push_alternative(t, out);
    push_style(out);
    push_group(t, out);
    push_bytes(b"</svg>\n", out);
}
