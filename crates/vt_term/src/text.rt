//! The text of the screen.
ghost use Rattle.std.specs.Prelude.{◌≡◌, ◌+◌, ◌*◌, ◌≤◌, ◌++◌, vec_len, vec_capacity, OnOk, OnErr, IsOk};
ghost use Rattle.vt_screen.specs.Grid.{row_of};
ghost use Rattle.vt_term.specs.Text.{text, line_text, lines_text, row_text_limit, text_limit};

use crate::line::push_line;
use crate::sized::SizedTerminal;
use std::alloc::AllocError;
use vt_screen::Screen;

/// Appends the text of one row of a screen, from 1, to `out`, which has capacity for `row_text_limit` more bytes.
fn push_row(screen: &Screen, row: usize, out: &mut Vec<u8>)
    requires row { (1 ≤ row) × (row ≤ screen.now.size.rows) }
    requires room { vec_len out.old + row_text_limit screen.now.size ≤ vec_capacity out.old }
    ensures items { out.new.items ≡ out.old.items ++ line_text (row_of screen.now row) }
    ensures bounded { vec_len out.new ≤ vec_len out.old + row_text_limit screen.now.size }
    ensures capacity { vec_capacity out.old ≤ vec_capacity out.new }
{
    push_line(screen.row(row), out);
}

/// Appends the texts of the first `count` rows of a screen to `out`, which has capacity for `row_text_limit` more bytes for each
/// of them.
pub(crate) fn push_rows(screen: &Screen, count: usize, out: &mut Vec<u8>)
    requires rows { count ≤ screen.now.size.rows }
    requires room { vec_len out.old + count * row_text_limit screen.now.size ≤ vec_capacity out.old }
    ensures items { out.new.items ≡ out.old.items ++ lines_text count screen.now }
    ensures bounded { vec_len out.new ≤ vec_len out.old + count * row_text_limit screen.now.size }
    ensures capacity { vec_capacity out.old ≤ vec_capacity out.new }
{
    for row in 1..count + 1 {
        push_row(screen, row, out);
    }
}

impl SizedTerminal {
    /// Returns the limit of the text of a row in bytes: three for each cell of the wide screen, and LF.
    #[inline(always)]
    pub fn row_text_limit(&self) -> usize
        ensures { result ≡ row_text_limit self.now.display.grid.size }
    {
        3 * self.size().wide + 1
    }

    /// Returns the limit of a text in bytes: that of a row, for each row.
    pub fn text_limit(&self) -> usize
        ensures { result ≡ text_limit self.now.display.grid.size }
    {
        self.size().rows * self.row_text_limit()
    }

    /// Appends the text of the screen to `out`: each row in UTF-8, without the spaces at its end, and LF.
    ///
    /// It first reserves `text_limit` bytes of capacity. Returns `Err` if that fails. Then the contents of `out` are
    /// unchanged.
    pub fn text(&self, out: &mut Vec<u8>) -> Result<(), AllocError>
        ensures ok { OnOk result (out.new.items ≡ out.old.items ++ text self.now) }
        ensures err { OnErr result (out.new.items ≡ out.old.items) }
        ensures has_room { vec_len out.old + text_limit self.now.display.grid.size ≤ vec_capacity out.old → IsOk result }
        ensures bounded { vec_len out.new ≤ vec_len out.old + text_limit self.now.display.grid.size }
        ensures capacity { vec_capacity out.old ≤ vec_capacity out.new }
    {
        out.reserve(self.text_limit())?;
        self.text_reserved(out);
        Ok(())
    }

    /// Appends the text of the screen to `out`, which has capacity for `text_limit` more bytes. It never fails and
    /// allocates nothing.
    pub fn text_reserved(&self, out: &mut Vec<u8>)
        requires { vec_len out.old + text_limit self.now.display.grid.size ≤ vec_capacity out.old }
        ensures items { out.new.items ≡ out.old.items ++ text self.now }
        ensures bounded { vec_len out.new ≤ vec_len out.old + text_limit self.now.display.grid.size }
        ensures capacity { vec_capacity out.old ≤ vec_capacity out.new }
    {
        push_rows(&self.display.screen, self.size().rows, out);
    }

    /// Appends the text of one row, from 1, to `out`, which has capacity for `row_text_limit` more bytes. It never fails
    /// and allocates nothing.
    pub fn row_text_reserved(&self, row: usize, out: &mut Vec<u8>)
        requires row { (1 ≤ row) × (row ≤ self.now.display.grid.size.rows) }
        requires room { vec_len out.old + row_text_limit self.now.display.grid.size ≤ vec_capacity out.old }
        ensures items { out.new.items ≡ out.old.items ++ line_text (row_of self.now.display.grid row) }
        ensures bounded { vec_len out.new ≤ vec_len out.old + row_text_limit self.now.display.grid.size }
        ensures capacity { vec_capacity out.old ≤ vec_capacity out.new }
    {
        push_row(&self.display.screen, row, out);
    }
}
