//! The text of the screen.
ghost use Rattle.std.specs.Prelude.{◌≡◌, ◌≤◌, ◌+◌, ◌*◌, ◌++◌, ◌∷◌, [], true, length, filter, nat_lt, vec_len, vec_capacity};
ghost use Rattle.std.specs.Prelude.{OnOk, OnErr, IsOk, encode_utf8_all};
ghost use lib.Utf8.{scalar};
ghost use Rattle.vt_screen.specs.Grid.{row_or};
ghost use Rattle.vt_xterm_cell.specs.Cells.{blank_cell, cell_text, row_text};
ghost use Rattle.vt_xterm_display.specs.Text.{rows_text, xterm_row_limit, xterm_text_limit, text_of};

use crate::xterm::Xterm;
use std::alloc::AllocError;
use vt_screen::{Cells, Screen};
use vt_term::end_of_text;
use vt_xterm_cell::XtermCell;

/// Appends a character in UTF-8, unless its number is 0. `out` has capacity for four bytes.
fn push_character(number: u32, out: &mut Vec<u8>)
    requires scalar { scalar number ≡ true }
    requires room { vec_len out.old + 4 ≤ vec_capacity out.old }
    ensures items { out.new.items ≡ out.old.items ++ encode_utf8_all (filter (λ c. nat_lt 0 c) (number ∷ [])) }
    ensures bounded { vec_len out.new ≤ vec_len out.old + 4 }
    ensures capacity { vec_capacity out.old ≤ vec_capacity out.new }
{
    if number == 0 {
        return;
    }
    if let Some(c) = char::from_u32(number) {
        let mut bytes = [0u8; 4];
        let text = c.encode_utf8(&mut bytes);
        out.extend_from_slice(text.as_bytes()).unwrap();
    }
}

/// Appends the text of a cell, at most three characters. `out` has capacity for 12 bytes.
fn push_cell(cell: XtermCell, out: &mut Vec<u8>)
    requires { vec_len out.old + 12 ≤ vec_capacity out.old }
    ensures items { out.new.items ≡ out.old.items ++ encode_utf8_all (cell_text cell) }
    ensures bounded { vec_len out.new ≤ vec_len out.old + 12 }
    ensures capacity { vec_capacity out.old ≤ vec_capacity out.new }
{
    cell.is_sound();
    if cell.attributes().invisible {
        out.push(b' ').unwrap();
    } else {
        push_character(cell.character(), out);
        push_character(cell.mark(), out);
        push_character(cell.other_mark(), out);
    }
}

/// Appends the text of a row: its characters without the spaces at its end, and LF. `out` has capacity for it.
fn push_line(cells: &[XtermCell], out: &mut Vec<u8>)
    requires { vec_len out.old + 12 * length cells.now + 1 ≤ vec_capacity out.old }
    ensures items { out.new.items ≡ out.old.items ++ row_text cells.now }
    ensures bounded { vec_len out.new ≤ vec_len out.old + 12 * length cells.now + 1 }
    ensures capacity { vec_capacity out.old ≤ vec_capacity out.new }
{
    let start = out.len();
    for cell in cells {
        push_cell(*cell, out);
    }
    let end = start + end_of_text(&out[start..]);
    out.truncate(end);
    out.push(b'\n').unwrap();
}

/// Appends the text of one row of a screen, from 1. `out` has capacity for it.
fn push_row(screen: &Screen<XtermCell>, row: usize, out: &mut Vec<u8>)
    requires row { (1 ≤ row) × (row ≤ screen.now.size.rows) }
    requires room { vec_len out.old + xterm_row_limit screen.now.size ≤ vec_capacity out.old }
    ensures items { out.new.items ≡ out.old.items ++ row_text (row_or blank_cell screen.now row) }
    ensures bounded { vec_len out.new ≤ vec_len out.old + xterm_row_limit screen.now.size }
    ensures capacity { vec_capacity out.old ≤ vec_capacity out.new }
{
    push_line(screen.row(row), out);
}

/// Appends the texts of the first `count` rows of a screen: each row in UTF-8, without the spaces at its end, and LF. `out` has capacity for
/// them.
pub fn push_rows(screen: &Screen<XtermCell>, count: usize, out: &mut Vec<u8>)
    requires rows { count ≤ screen.now.size.rows }
    requires room { vec_len out.old + count * xterm_row_limit screen.now.size ≤ vec_capacity out.old }
    ensures items { out.new.items ≡ out.old.items ++ rows_text count screen.now }
    ensures bounded { vec_len out.new ≤ vec_len out.old + count * xterm_row_limit screen.now.size }
    ensures capacity { vec_capacity out.old ≤ vec_capacity out.new }
{
    for row in 1..count + 1 {
        push_row(screen, row, out);
    }
}

impl Xterm {
    /// Returns the limit of a text in bytes: for each row, three characters of four bytes for each cell of the wide screen, and LF.
    pub fn text_limit(&self) -> usize
        ensures { result ≡ xterm_text_limit self.now.screen.shown.grid.size }
    {
        let size = self.size();
        size.rows * (12 * size.wide + 1)
    }

    /// Appends the text of the screen to `out`: each row in UTF-8, without the spaces at its end, and LF.
    ///
    /// It first reserves `text_limit` bytes of capacity. Returns `Err` if that fails. Then the contents of `out` are unchanged.
    pub fn text(&self, out: &mut Vec<u8>) -> Result<(), AllocError>
        ensures ok { OnOk result (out.new.items ≡ out.old.items ++ text_of self.now.screen) }
        ensures err { OnErr result (out.new.items ≡ out.old.items) }
        ensures has_room { vec_len out.old + xterm_text_limit self.now.screen.shown.grid.size ≤ vec_capacity out.old → IsOk result }
        ensures bounded { vec_len out.new ≤ vec_len out.old + xterm_text_limit self.now.screen.shown.grid.size }
        ensures capacity { vec_capacity out.old ≤ vec_capacity out.new }
    {
        out.reserve(self.text_limit())?;
        self.text_reserved(out);
        Ok(())
    }

    /// Appends the text of the screen to `out`, which has capacity for `text_limit` more bytes. It never fails and allocates nothing.
    pub fn text_reserved(&self, out: &mut Vec<u8>)
        requires { vec_len out.old + xterm_text_limit self.now.screen.shown.grid.size ≤ vec_capacity out.old }
        ensures items { out.new.items ≡ out.old.items ++ text_of self.now.screen }
        ensures bounded { vec_len out.new ≤ vec_len out.old + xterm_text_limit self.now.screen.shown.grid.size }
        ensures capacity { vec_capacity out.old ≤ vec_capacity out.new }
    {
        push_rows(&self.screen.shown.screen, self.size().rows, out);
    }
}
